//! The parser's stack of frames: unfinished rules, and how much of each was read.
//!
//! A frame holds no tree. What was read for it are the last trees of the parser's parts.
ghost use Rattle.std.specs.Prelude.{◌≡◌, ◌∷◌, ◌+◌, ◌<◌, ◌≤◌, ◌↔◌, [], IsTrue, List, MatchBool};
ghost use Rattle.std.specs.Prelude.{MatchOption, OnOk, max, sum_by, vec_len};
ghost use Rattle.latex2mathml_parser.specs.Frames.{AreEmpty, IsInnermost, IsOn, awaits, end_of, innermost};
ghost use Rattle.latex2mathml_parser.specs.Frames.{one_of_pair, pair_sign, takes_script, two_of_pair, unfit};
ghost use Rattle.latex2mathml_parser.specs.Levels.{EndsNone, MayBegin, end_token};
ghost use Rattle.latex2mathml_parser.specs.{declared.parse.frames.Due.Due, declared.parse.frames.GroupEnd.GroupEnd};
ghost use Rattle.latex2mathml_tokens.specs.{Lexemes.lexeme_tok, Tok.Tok, Tok.tok};

use crate::lexer::mark::Sign;
use latex2mathml_parts::kind::Kind;
use latex2mathml_tokens::attribute::Variant;
use latex2mathml_tokens::lexeme::Lexeme;
use latex2mathml_tokens::names::Paren;
use latex2mathml_tokens::token::Token;
use std::alloc::{AllocError, Global};

/// The token that ends a group.
#[derive(Clone, Copy)]
pub(crate) enum GroupEnd {
    Brace,
    /// `]`
    Bracket,
    Right,
    End,
}

impl GroupEnd {
    pub(crate) fn token(self) -> Token
        ensures { tok result ≡ end_token self }
    {
        match self {
            GroupEnd::Brace => Token::RBrace,
            GroupEnd::Bracket => Token::Paren("]"),
            GroupEnd::Right => Token::Right,
            GroupEnd::End => Token::End,
        }
    }

    /// Returns the end that the lexeme is, if it is one.
    #[inline(always)]
    #[tactic(auto, using(crate::proofs::Stacks::one_bracket))]
    pub(crate) fn of(lexeme: &Lexeme) -> Option<GroupEnd>
        ensures { MatchOption result (EndsNone (lexeme_tok lexeme.now))
            (λ end. lexeme_tok lexeme.now ≡ end_token end) }
    {
        match lexeme {
            Lexeme::RBrace => Some(GroupEnd::Brace),
            Lexeme::Paren(Paren::RightSquare) => Some(GroupEnd::Bracket),
            Lexeme::Right => Some(GroupEnd::Right),
            Lexeme::End => Some(GroupEnd::End),
            _ => None,
        }
    }
}

/// What is due: a member of a group with this end, or a part.
#[derive(Clone, Copy)]
pub(crate) enum Due {
    Member(GroupEnd),
    Node,
    Single,
    Core,
}

impl Due {
    /// Whether a member of a group with this end is due.
    #[inline(always)]
    pub(crate) fn is_member(self, end: GroupEnd) -> bool
        ensures { IsTrue result ↔ (self ≡ Due.Member end) }
    {
        match (self, end) {
            (Due::Member(GroupEnd::Brace), GroupEnd::Brace)
            | (Due::Member(GroupEnd::Bracket), GroupEnd::Bracket)
            | (Due::Member(GroupEnd::Right), GroupEnd::Right)
            | (Due::Member(GroupEnd::End), GroupEnd::End) => true,
            _ => false,
        }
    }

    /// Whether a script may follow what is due.
    pub(crate) fn takes_script(self) -> bool
        ensures { result ≡ takes_script self }
    {
        matches!(self, Due::Member(_) | Due::Node)
    }
}

/// What is made of consecutive members up to an end.
#[derive(Clone, Copy)]
pub(crate) enum Group {
    Brace,
    /// The degree of a root.
    Degree,
    /// What is between two fences, of which this is the opening one. A period is `None`.
    Fence(Option<Paren>),
    /// An environment, whose name precedes its members, as words.
    Environment,
}

impl Group {
    fn end(self) -> GroupEnd
        ensures { result ≡ end_of self }
    {
        match self {
            Group::Brace => GroupEnd::Brace,
            Group::Degree => GroupEnd::Bracket,
            Group::Fence(_) => GroupEnd::Right,
            Group::Environment => GroupEnd::End,
        }
    }
}

/// A rule of a single, and of a second one if a sign is between them.
#[derive(Clone, Copy)]
pub(crate) enum Pair {
    Overbrace(char),
    Underbrace(char),
    /// The limits of an operator, under and over it. This sign preceded the first.
    BigOp(char, Sign),
    /// The limits of an integral, which follow it.
    Integral(char, Sign),
}

impl Pair {
    /// Returns the sign that precedes the second single.
    pub(crate) fn sign(self) -> Sign
        ensures { result ≡ pair_sign self }
    {
        match self {
            Pair::Overbrace(_) | Pair::BigOp(_, Sign::Sub) | Pair::Integral(_, Sign::Sub) => {
                Sign::Sup
            }
            Pair::Underbrace(_) | Pair::BigOp(_, Sign::Sup) | Pair::Integral(_, Sign::Sup) => {
                Sign::Sub
            }
        }
    }

    /// Returns what is made of one single.
    pub(crate) fn one<'a>(self) -> Kind<'a>
        ensures { result ≡ one_of_pair self }
    {
        match self {
            Pair::Overbrace(c) => Kind::Overbrace(c),
            Pair::Underbrace(c) => Kind::Underbrace(c),
            Pair::BigOp(c, Sign::Sub) => Kind::LimitBelow(c),
            Pair::BigOp(c, Sign::Sup) => Kind::LimitAbove(c),
            Pair::Integral(c, Sign::Sub) => Kind::LimitSub(c),
            Pair::Integral(c, Sign::Sup) => Kind::LimitSup(c),
        }
    }

    /// Returns what is made of two.
    pub(crate) fn two<'a>(self) -> Kind<'a>
        ensures { result ≡ two_of_pair self }
    {
        match self {
            Pair::Overbrace(c) => Kind::OverbraceWith(c),
            Pair::Underbrace(c) => Kind::UnderbraceWith(c),
            Pair::BigOp(c, Sign::Sub) => Kind::LimitsBelowAbove(c),
            Pair::BigOp(c, Sign::Sup) => Kind::LimitsAboveBelow(c),
            Pair::Integral(c, Sign::Sub) => Kind::LimitsSubSup(c),
            Pair::Integral(c, Sign::Sup) => Kind::LimitsSupSub(c),
        }
    }
}

/// An unfinished rule. What was read of it are the last trees.
#[derive(Clone, Copy)]
pub(crate) enum Frame<'a> {
    /// A group, and the number of its members that were read.
    Members(Group, usize),
    /// A rule that waits for its last operand, and what is made of its operands.
    Operand(Kind<'a>),
    /// A rule that waits for the first of two operands.
    First(Kind<'a>),
    /// A style that waits for its operand.
    Style(Variant),
    /// A rule that waits for its single, or for the first of two.
    Single(Pair),
    /// A rule that waits for its last single.
    Last(Kind<'a>),
    /// A slash that waits for what it strikes through.
    Slashed,
    /// The lexeme after `\middle`. The operator is due.
    Stretch(Lexeme<'a>),
    /// A script, whose base was read.
    Script(Sign),
}

impl<'a> Frame<'a> {
    /// Returns what the rule waits for.
    fn awaits(&self) -> Due
        ensures { result ≡ awaits self.now }
    {
        match self {
            Frame::Members(group, _) => Due::Member(group.end()),
            Frame::Operand(_) | Frame::First(_) | Frame::Style(_) => Due::Core,
            Frame::Single(_) | Frame::Last(_) | Frame::Stretch(_) => Due::Single,
            Frame::Slashed | Frame::Script(_) => Due::Node,
        }
    }
}

/// The frames, the innermost last, and the greatest number of them at any time.
#[derive(Drop)]
pub(crate) struct Frames<'a> {
    pub(crate) stack: Vec<Frame<'a>>,
    pub(crate) greatest: u128,
    ghost covered: { vec_len stack ≤ greatest },
    ghost fit: { sum_by unfit stack.items ≡ 0 },
}

impl<'a> Frames<'a> {
    pub(crate) fn new(alloc: Global) -> Frames<'a>
        ensures empty { result.stack.items ≡ [] }
        ensures greatest { result.greatest ≡ 0 }
    {
        Frames {
            stack: Vec::new(alloc),
            greatest: 0,
        }
    }

    /// Drops all frames, and keeps their room. Counting starts again.
    pub(crate) fn clear(&mut self)
        ensures empty { self.new.stack.items ≡ [] }
        ensures greatest { self.new.greatest ≡ 0 }
    {
        self.stack.clear();
        self.greatest = 0;
    }

    /// Opens a frame.
    pub(crate) fn open(&mut self, frame: Frame<'a>) -> Result<(), AllocError>
        requires { unfit frame ≡ 0 }
        ensures stack { OnOk result (IsOn frame.entry self.old.stack.items self.new.stack.items) }
        ensures greatest { self.new.greatest ≤ max self.old.greatest (vec_len self.old.stack + 1) }
    {
        self.stack.push(frame)?;
        self.greatest = self.greatest.max(self.stack.len() as u128);
        Ok(())
    }

    /// Puts back a frame that was taken off. This opens no frame, so the greatest number stays the same.
    pub(crate) fn put_back(&mut self, frame: Frame<'a>) -> Result<(), AllocError>
        requires room { vec_len self.old.stack < self.old.greatest }
        requires fit { unfit frame ≡ 0 }
        ensures stack { OnOk result (IsOn frame.entry self.old.stack.items self.new.stack.items) }
        ensures greatest { self.new.greatest ≡ self.old.greatest }
    {
        self.stack.push(frame)?;
        Ok(())
    }

    /// Returns the innermost frame.
    #[inline(always)]
    pub(crate) fn last(&self) -> Option<&Frame<'a>>
        ensures stack { MatchOption result (self.now.stack.items ≡ [])
            (λ frame. IsInnermost frame.now self.now.stack.items) }
        ensures fit { MatchOption result (self.now.stack.items ≡ [])
            (λ frame. unfit frame.now ≡ 0) }
    {
        let (frame, _) = self.stack.split_last()?;
        Some(frame)
    }

    /// Puts a frame in place of the innermost one. This opens no frame.
    #[inline(always)]
    #[tactic(auto, using(crate::proofs::Stacks::replaced))]
    pub(crate) fn replace(&mut self, frame: Frame<'a>)
        requires some { 0 < vec_len self.old.stack }
        requires fit { unfit frame ≡ 0 }
        ensures stack { (fs : List Frame) (f : Frame) → IsOn f fs self.old.stack.items
            → IsOn frame.entry fs self.new.stack.items }
        ensures greatest { self.new.greatest ≡ self.old.greatest }
    {
        let last = self.stack.as_slice().len() - 1;
        self.stack[last] = frame;
    }

    /// Takes off the innermost frame, which was looked at.
    #[inline(always)]
    #[tactic(auto, using(crate::proofs::Stacks::left_below))]
    pub(crate) fn drop_last(&mut self)
        ensures stack { (fs : List Frame) (f : Frame) → IsOn f fs self.old.stack.items
            → self.new.stack.items ≡ fs }
        ensures greatest { self.new.greatest ≡ self.old.greatest }
    {
        let _ = self.stack.pop();
    }

    /// Takes off the innermost frame.
    pub(crate) fn pop(&mut self) -> Option<Frame<'a>>
        ensures stack { MatchOption result (AreEmpty self.old.stack.items self.new.stack.items)
            (λ frame. IsOn frame self.new.stack.items self.old.stack.items) }
        ensures fit { MatchOption result (self.old.stack.items ≡ []) (λ frame. unfit frame ≡ 0) }
        ensures greatest { self.new.greatest ≡ self.old.greatest }
    {
        self.stack.pop()
    }

    /// Returns what is due: what the innermost frame waits for, or a node of the formula.
    #[tactic(auto, using(crate::proofs::Stacks::innermost_push))]
    pub(crate) fn due(&self) -> Due
        ensures { result ≡ innermost self.now.stack.items }
    {
        match self.stack.split_last() {
            Some((frame, _)) => frame.awaits(),
            None => Due::Node,
        }
    }

    /// Whether the lexeme ends the innermost group. What is due matters only if it can end one, and few lexemes can.
    #[inline(always)]
    #[tactic(auto, using(crate::proofs::Stacks::other_end, crate::proofs::Stacks::no_end))]
    pub(crate) fn end_at(&self, lexeme: &Lexeme) -> bool
        ensures { MatchBool result
            ((end : GroupEnd) × (innermost self.now.stack.items ≡ Due.Member end)
            × (lexeme_tok lexeme.now ≡ end_token end))
            ((place : List Tok)
            → MayBegin (innermost self.now.stack.items) (lexeme_tok lexeme.now ∷ place)) }
    {
        match GroupEnd::of(lexeme) {
            Some(end) => self.due().is_member(end),
            None => false,
        }
    }
}
