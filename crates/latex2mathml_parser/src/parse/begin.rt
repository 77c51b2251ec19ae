//! How the rule of each lexeme begins.

ghost use Rattle.std.specs.Prelude.{◌≡◌, ◌≢◌, IfOk, IfSome, List, MatchOption, None, Some};
ghost use Rattle.latex2mathml_grammar.specs.Openers.{opens};
ghost use Rattle.latex2mathml_grammar.specs.Grammar.{a_root, error_rule, rule, sized, takes_token};
ghost use Rattle.latex2mathml_parser.specs.Beginnings.{IsBeginningOf, IsLeafOf, IsSpecial};
ghost use Rattle.latex2mathml_parser.specs.Claims.{Proceeds, limited};
ghost use Rattle.latex2mathml_parser.specs.Steps.{Counted, GoesOnBy, HasTrees, IsStep, IsStretched};
ghost use Rattle.latex2mathml_trees.specs.{Productions.fence_of};
ghost use Rattle.latex2mathml_parts.specs.Parts.{fence_text};
ghost use Rattle.latex2mathml_tokens.specs.{Lexemes.lexeme_tok, Names.limit_text, Names.size_text};
ghost use Rattle.latex2mathml_tokens.specs.Tok.{Tok, Begin, Left, Lim, Middle, OperatorName, Slashed, Text};

use crate::lexer::mark::Sign;
use crate::parse::frames::{Frame, Group, Pair};
use crate::parse::{Parser, State};
use latex2mathml_parts::kind::Kind;
use latex2mathml_tokens::LatexError;
use latex2mathml_tokens::lexeme::Lexeme;
use latex2mathml_tokens::names::{LimitName, Paren, Size};
use latex2mathml_tokens::token::Token;
use std::alloc::AllocError;

impl<'a> Parser<'a> {
    /// Begins the rule of a lexeme that was taken where a core is due.
    #[inline(always)]
    pub(crate) fn begin_any(&mut self, lexeme: &Lexeme<'a>) -> Result<State, AllocError>
        requires { HasTrees 0 self.old }
        ensures holds { Proceeds (rule (lexeme_tok lexeme.now)) 0 self.old self.new result }
        ensures step { IsStep (opens (lexeme_tok lexeme.now)) 13 self.old self.new result }
    {
        match *lexeme {
            Lexeme::Middle => self.begin_stretched(),
            _ => self.begin_core(lexeme),
        }
    }

    /// Begins a stretched operator with the lexeme after `\middle`, which the frame keeps, because a refusal names it. This may be
    /// another `\middle`.
    #[inline(never)]
    fn begin_stretched(&mut self) -> Result<State, AllocError>
        requires { HasTrees 0 self.old }
        ensures holds { Proceeds (rule Middle) 0 self.old self.new result }
        ensures step { IsStep (opens Middle) 13 self.old self.new result }
    {
        let mut begun = Lexeme::Middle;
        'middles: while let Lexeme::Middle = begun {
            begun = self.stretch()?;
            if let Lexeme::EOF = begun {
                return self.error(&begun);
            }
        }
        self.begin_core(&begun)
    }

    /// Opens the frame of a stretched operator, and takes the lexeme that it begins with.
    #[tactic(auto, using(crate::proofs::Beginning::stood, crate::proofs::Beginning::stretch_begun, std::proofs::lemmas::Grind::common_steps))]
    fn stretch(&mut self) -> Result<Lexeme<'a>, AllocError>
        requires { HasTrees 0 self.old }
        ensures holds { (input : List Tok) → GoesOnBy (rule Middle) 0 input self.old
            → IfOk result (λ got. GoesOnBy (rule (lexeme_tok got)) 0 input self.new) }
        ensures counted { Counted 1 self.old self.new }
        ensures taken { IfOk result (IsStretched self.old self.new) }
    {
        let got = self.lexer.take();
        self.frames.open(Frame::Stretch(got))?;
        Ok(got)
    }

    /// Begins the rule of a lexeme that is not `\middle`. Most are leaves and groups.
    #[inline(always)]
    fn begin_core(&mut self, lexeme: &Lexeme<'a>) -> Result<State, AllocError>
        requires middle { lexeme.now ≢ Lexeme.Middle }
        requires trees { HasTrees 0 self.old }
        ensures holds { Proceeds (rule (lexeme_tok lexeme.now)) 0 self.old self.new result }
        ensures step { IsStep (opens (lexeme_tok lexeme.now)) 13 self.old self.new result }
    {
        match Beginning::of(lexeme) {
            Some(Beginning::Leaf(kind)) => self.put_leaf(kind),
            Some(Beginning::Frame(frame)) => self.open(frame),
            None => self.begin_special(*lexeme),
        }
    }

    /// Begins a rule that takes more than its token before it waits for a part, or marks a lexeme that begins no rule.
    #[inline(never)]
    fn begin_special(&mut self, lexeme: Lexeme<'a>) -> Result<State, AllocError>
        requires special { IsSpecial lexeme }
        requires middle { lexeme ≢ Lexeme.Middle }
        requires trees { HasTrees 0 self.old }
        ensures holds { Proceeds (rule (lexeme_tok lexeme.entry)) 0 self.old self.new result }
        ensures step { IsStep (opens (lexeme_tok lexeme.entry)) 13 self.old self.new result }
    {
        match lexeme {
            Lexeme::Sqrt => self.root(),
            Lexeme::BigOp(c) => self.limits(
                c,
                Pair::BigOp(c, Sign::Sub),
                Pair::BigOp(c, Sign::Sup),
            ),
            Lexeme::Integral(c) => self.limits(
                c,
                Pair::Integral(c, Sign::Sub),
                Pair::Integral(c, Sign::Sup),
            ),
            Lexeme::Lim(name) => self.limit(name),
            Lexeme::Big(size) => self.size_paren(size),
            Lexeme::Text => self.words(),
            Lexeme::OperatorName => self.function(),
            Lexeme::Slashed => self.slash(),
            Lexeme::Left => self.open_fence(),
            Lexeme::Begin => self.begin_environment(),
            _ => self.error(&lexeme),
        }
    }

    /// Puts a lexeme that has no meaning where it appears. It is marked as an error.
    pub(crate) fn error(&mut self, lexeme: &Lexeme<'a>) -> Result<State, AllocError>
        requires { HasTrees 0 self.old }
        ensures holds { Proceeds (error_rule (lexeme_tok lexeme.now)) 0 self.old self.new result }
        ensures step { IsStep 0 5 self.old self.new result }
    {
        self.parts.put_error(*lexeme)?;
        Ok(State::Core)
    }

    /// Begins a root, and its degree, if one comes next in square brackets.
    fn root(&mut self) -> Result<State, AllocError>
        requires { HasTrees 0 self.old }
        ensures holds { Proceeds a_root 0 self.old self.new result }
        ensures step { IsStep 1 13 self.old self.new result }
    {
        if self.lexer.take_bracket() {
            return self.open(Frame::Members(Group::Degree, 0));
        }
        self.open(Frame::Operand(Kind::Sqrt))
    }

    /// Begins an operator with the limits whose signs come next.
    #[tactic(auto, using(crate::proofs::Stepping::step_after))]
    fn limits(&mut self, c: char, below: Pair, above: Pair) -> Result<State, AllocError>
        requires { HasTrees 0 self.old }
        ensures holds { Proceeds (limited c below above self.old) 0 self.old self.new result }
        ensures step { IsStep 1 13 self.old self.new result }
    {
        if self.lexer.take_if(Sign::Sub) {
            return self.open(Frame::Single(below));
        }
        if self.lexer.take_if(Sign::Sup) {
            return self.open(Frame::Single(above));
        }
        self.put(Kind::Operator(c))
    }

    /// Begins the name of a function, with a limit under it if the sign is next.
    fn limit(&mut self, name: LimitName) -> Result<State, AllocError>
        requires { HasTrees 0 self.old }
        ensures holds { Proceeds (rule (Lim (limit_text name))) 0 self.old self.new result }
        ensures step { IsStep 1 13 self.old self.new result }
    {
        if self.lexer.take_if(Sign::Sub) {
            return self.open(Frame::Last(Kind::LimitUnder(name)));
        }
        self.put(Kind::Limit(name))
    }

    /// Puts a parenthesis of this size. The parenthesis must come next.
    #[tactic(auto, using(crate::proofs::Stepping::step_after))]
    fn size_paren(&mut self, size: Size) -> Result<State, AllocError>
        requires { HasTrees 0 self.old }
        ensures holds { Proceeds (takes_token (sized (size_text size))) 0 self.old self.new result }
        ensures step { IsStep 0 13 self.old self.new result }
    {
        match self.lexer.take() {
            Lexeme::Paren(paren) => self.put(Kind::SizedParen(size, paren)),
            got => {
                let got = got.token(self.alloc)?;
                Ok(self.refuse(LatexError::UnexpectedToken {
                    expected: Token::Paren(""),
                    got,
                }))
            }
        }
    }

    /// Puts words, which come next as a name.
    fn words(&mut self) -> Result<State, AllocError>
        requires { HasTrees 0 self.old }
        ensures holds { Proceeds (rule Text) 0 self.old self.new result }
        ensures step { IsStep 0 13 self.old self.new result }
    {
        let text = self.lexer.name(self.alloc)?;
        self.parts.put_words(text)?;
        Ok(State::Core)
    }

    /// Puts a function whose name is spelled out.
    fn function(&mut self) -> Result<State, AllocError>
        requires { HasTrees 0 self.old }
        ensures holds { Proceeds (rule OperatorName) 0 self.old self.new result }
        ensures step { IsStep 0 13 self.old self.new result }
    {
        let name = self.lexer.name(self.alloc)?;
        self.parts.put_function(name)?;
        Ok(State::Core)
    }

    /// Begins a slash. The lexeme after it is skipped.
    fn slash(&mut self) -> Result<State, AllocError>
        requires { HasTrees 0 self.old }
        ensures holds { Proceeds (rule Slashed) 0 self.old self.new result }
        ensures step { IsStep 1 13 self.old self.new result }
    {
        self.lexer.skip();
        self.open(Frame::Slashed)
    }

    /// Begins a fence, which must come next, and the members after it.
    #[tactic(auto, using(crate::proofs::Stepping::step_after))]
    fn open_fence(&mut self) -> Result<State, AllocError>
        requires { HasTrees 0 self.old }
        ensures holds { Proceeds (rule Left) 0 self.old self.new result }
        ensures step { IsStep 1 13 self.old self.new result }
    {
        let got = self.lexer.take();
        let Some(opening) = fence_of(got) else {
            return self.refuse_fence(Token::Left, got);
        };
        self.open(Frame::Members(Group::Fence(opening), 0))
    }

    /// Begins an environment: its name, and the members after it.
    fn begin_environment(&mut self) -> Result<State, AllocError>
        requires { HasTrees 0 self.old }
        ensures holds { Proceeds (rule Begin) 0 self.old self.new result }
        ensures step { IsStep 1 13 self.old self.new result }
    {
        let name = self.lexer.name(self.alloc)?;
        self.parts.put_words(name)?;
        self.open(Frame::Members(Group::Environment, 0))
    }
}

/// Returns the parenthesis of a fence, if the lexeme is one: a period is a fence without a parenthesis.
pub(crate) fn fence_of(lexeme: Lexeme) -> Option<Option<Paren>>
    ensures { MatchOption result (fence_of (lexeme_tok lexeme.entry) ≡ None)
        (λ fence. fence_of (lexeme_tok lexeme.entry) ≡ Some (fence_text fence)) }
{
    match lexeme {
        Lexeme::Paren(paren) => Some(Some(paren)),
        Lexeme::Operator('.') => Some(None),
        _ => None,
    }
}

/// How a rule begins whose token is all that it takes before it waits for a part, or ends.
#[derive(Clone, Copy)]
pub(crate) enum Beginning<'a> {
    /// The core is a part without operands.
    Leaf(Kind<'a>),
    /// A frame is opened.
    Frame(Frame<'a>),
}

impl<'a> Beginning<'a> {
    /// Returns how the rule of a lexeme begins, unless it takes more than its token first.
    #[inline(always)]
    fn of(lexeme: &Lexeme<'a>) -> Option<Beginning<'a>>
        ensures { MatchOption result (IsSpecial lexeme.now) (IsBeginningOf lexeme.now) }
    {
        match *lexeme {
            Lexeme::Number(digits) => Some(Beginning::Leaf(Kind::Number(digits))),
            Lexeme::Letter(c, variant) => Some(Beginning::Leaf(Kind::Letter(c, variant))),
            Lexeme::Operator(c) => Some(Beginning::Leaf(Kind::Operator(c))),
            Lexeme::Paren(paren) => Some(Beginning::Leaf(Kind::Paren(paren))),
            Lexeme::Space(width) => Some(Beginning::Leaf(Kind::Space(width))),
            Lexeme::Function(name) => Some(Beginning::Leaf(Kind::Function(name))),
            Lexeme::Ampersand => Some(Beginning::Leaf(Kind::Ampersand)),
            Lexeme::NewLine => Some(Beginning::Leaf(Kind::NewLine)),
            Lexeme::LBrace => Some(Beginning::Frame(Frame::Members(Group::Brace, 0))),
            Lexeme::Over(c, accent) => Some(Beginning::Frame(Frame::Operand(Kind::Over(
                c, accent,
            )))),
            Lexeme::Under(c, accent) => Some(Beginning::Frame(Frame::Operand(Kind::Under(
                c, accent,
            )))),
            Lexeme::Style(variant) => Some(Beginning::Frame(Frame::Style(variant))),
            Lexeme::Frac => Some(Beginning::Frame(Frame::First(Kind::Frac))),
            Lexeme::Binom(display) => Some(Beginning::Frame(Frame::First(Kind::Binom(display)))),
            Lexeme::Overset => Some(Beginning::Frame(Frame::First(Kind::Overset))),
            Lexeme::Underset => Some(Beginning::Frame(Frame::First(Kind::Underset))),
            Lexeme::Overbrace(c) => Some(Beginning::Frame(Frame::Single(Pair::Overbrace(c)))),
            Lexeme::Underbrace(c) => Some(Beginning::Frame(Frame::Single(Pair::Underbrace(c)))),
            _ => None,
        }
    }
}

/// Returns what a lexeme of the most frequent kinds makes, which are cores by themselves. Where these are looked for alone, this
/// takes fewer instructions than the table of all lexemes.
#[inline(always)]
pub(crate) fn symbol<'a>(lexeme: &Lexeme<'a>) -> Option<Kind<'a>>
    ensures { IfSome result (IsLeafOf lexeme.now) }
{
    match *lexeme {
        Lexeme::Number(digits) => Some(Kind::Number(digits)),
        Lexeme::Letter(c, variant) => Some(Kind::Letter(c, variant)),
        Lexeme::Operator(c) => Some(Kind::Operator(c)),
        Lexeme::Paren(paren) => Some(Kind::Paren(paren)),
        Lexeme::Space(width) => Some(Kind::Space(width)),
        Lexeme::Function(name) => Some(Kind::Function(name)),
        _ => None,
    }
}
