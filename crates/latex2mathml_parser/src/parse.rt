//! Lexemes to parts: one loop over a stack of frames. Each step is proved to lead to what the grammar says about the
//! tokens that were left before it.
ghost use Rattle.std.specs.Prelude.{◌≡◌, ◌≢◌, ◌+◌, ◌<◌, [], IfOk, List, vec_len};
ghost use Rattle.latex2mathml_grammar.specs.{Counts.backslashes};
ghost use Rattle.latex2mathml_parser.specs.Frames.{tree_count, unfit};
ghost use Rattle.latex2mathml_parser.specs.{Unread.slices_in, Unread.token_list};
ghost use Rattle.latex2mathml_parser.specs.Claims.{Enters, Finishes, Keeps, LacksFence};
ghost use Rattle.latex2mathml_parser.specs.Steps.{Counted, HasTrees, Holds, IsRefusedBy, IsStep, StacksWithin};
ghost use Rattle.latex2mathml_parser.specs.Steps.{frame_weight, last_state, trees_of_state};
ghost use Rattle.latex2mathml_parser.specs.Steps.{weight_of, weight_put_back};
ghost use Rattle.latex2mathml_tokens.specs.{Tok.Tok};

pub(crate) mod begin;
mod deliver;
pub(crate) mod frames;
mod marks;

use crate::Steps;
use crate::lexer::Lexer;
use frames::{Due, Frame, Frames};
use latex2mathml_parts::kind::Kind;
use latex2mathml_parts::parts::Parts;
use latex2mathml_parts::work::Works;
use latex2mathml_tokens::LatexError;
use latex2mathml_tokens::attribute::Variant;
use latex2mathml_tokens::lexeme::Lexeme;
use latex2mathml_tokens::token::Token;
use std::alloc::{AllocError, Global};
use std::mem;

/// What the next step has to do. The part that it refers to is the last tree.
#[derive(Clone, Copy)]
pub(crate) enum State {
    /// Read what is due.
    Next,
    /// Go on after a core.
    Core,
    /// Give the innermost frame the part that it waits for.
    Part,
    /// Nothing: the node of the formula is read.
    End,
    /// Nothing: the formula is refused.
    Refused,
}

/// Reads a formula, one node at a time.
#[derive(Drop)]
pub(crate) struct Parser<'a> {
    pub(crate) alloc: Global,
    pub(crate) lexer: Lexer<'a>,
    pub(crate) frames: Frames<'a>,
    /// The trees that were read.
    pub(crate) parts: Parts<'a>,
    /// Room for the writer.
    pub(crate) works: Works,
    /// Why the formula is refused. It is kept here so that what each step returns is small.
    refusal: LatexError,
}

impl<'a> Parser<'a> {
    /// Returns a parser that has read nothing.
    pub(crate) fn new(alloc: Global, text: &'a str) -> Parser<'a>
        ensures slices { result.lexer.slices ≡ slices_in text.now }
        ensures list { result.lexer.list ≡ token_list (slices_in text.now) }
        ensures tokens { result.lexer.tokens ≡ 0 }
        ensures backslashes { result.lexer.backslashes ≡ backslashes (slices_in text.now) }
        ensures comparisons { result.lexer.comparisons ≡ 0 }
        ensures closed { result.frames.stack.items ≡ [] }
        ensures greatest { result.frames.greatest ≡ 0 }
    {
        Parser {
            alloc,
            lexer: Lexer::new(text),
            frames: Frames::new(alloc),
            parts: Parts::new(alloc),
            works: Works::new(alloc),
            refusal: LatexError::OutOfMemory,
        }
    }

    /// Starts again with this text. The lists keep their room.
    pub(crate) fn restart(&mut self, text: &'a str)
        ensures list { self.new.lexer.list ≡ token_list (slices_in text.now) }
        ensures closed { self.new.frames.stack.items ≡ [] }
    {
        self.lexer = Lexer::new(text);
        self.frames.clear();
        self.parts.clear();
    }

    /// Goes on until the node of the formula is read, or the formula is refused. Returns whether the node is read: it is
    /// then the last tree.
    #[inline(always)]
    #[tactic(auto, using(crate::proofs::Stepping::counted_none, crate::proofs::Stepping::stacks_within))]
    pub(crate) fn finish(&mut self, begun: State) -> Result<bool, AllocError>
        requires { HasTrees (trees_of_state begun) self.old }
        ensures node { Finishes begun self.old self.new result }
        ensures tree { IfOk result (λ read. HasTrees (trees_of_state (last_state read)) self.new) }
        ensures counted { Counted 0 self.old self.new }
        ensures stack { StacksWithin self.old self.new }
    {
        let mut state = begun;
        'steps: loop {
            match state {
                State::End => return Ok(true),
                State::Refused => return Ok(false),
                going_on => state = self.step(going_on)?,
            }
        }
    }

    /// Returns how many steps the reading took so far.
    pub(crate) fn steps(&self) -> Steps
        ensures tokens { result.tokens ≡ self.now.lexer.tokens }
        ensures comparisons { result.comparisons ≡ self.now.lexer.comparisons }
        ensures frames { result.frames ≡ self.now.frames.greatest }
        ensures left { self.now.lexer.backslashes ≡ backslashes self.now.lexer.slices }
    {
        Steps {
            tokens: self.lexer.tokens(),
            comparisons: self.lexer.comparisons(),
            frames: self.frames.greatest,
        }
    }

    /// Takes out the reason why the formula is refused.
    #[cold]
    pub(crate) fn refusal(&mut self) -> LatexError
        ensures refusal { result ≡ self.old.refusal }
        ensures counted { Counted 0 self.old self.new }
    {
        mem::replace(&mut self.refusal, LatexError::OutOfMemory)
    }

    #[inline(always)]
    #[tactic(auto, using(crate::proofs::Stepping::stacks_within))]
    fn step(&mut self, state: State) -> Result<State, AllocError>
        requires going_on { (state ≢ State.End) × (state ≢ State.Refused) }
        requires trees { HasTrees (trees_of_state state) self.old }
        ensures holds { Keeps state self.old self.new result }
        ensures step { IsStep 0 (weight_of state self.old) self.old self.new result }
        ensures stack { StacksWithin self.old self.new }
    {
        match state {
            State::Next => self.next(),
            State::Core => self.after_core(),
            State::Part => self.after_part(),
            State::End | State::Refused => unreachable!(),
        }
    }

    /// Reads what is due, or ends the innermost group. Most lexemes are letters, which need no look at what is due.
    #[inline(always)]
    fn next(&mut self) -> Result<State, AllocError>
        requires { HasTrees 0 self.old }
        ensures holds { Keeps State.Next self.old self.new result }
        ensures step { IsStep 0 (weight_of State.Next self.old) self.old self.new result }
    {
        match self.lexer.take_letter() {
            Some(c) => self.put_leaf(Kind::Letter(c, Variant::Italic)),
            None => self.next_lexeme(),
        }
    }

    /// Does the same, whatever comes next.
    #[tactic(auto, using(crate::proofs::Beginning::stood))]
    fn next_lexeme(&mut self) -> Result<State, AllocError>
        requires { HasTrees 0 self.old }
        ensures holds { Keeps State.Next self.old self.new result }
        ensures step { IsStep 0 (weight_of State.Next self.old) self.old self.new result }
    {
        let mut lexeme = Lexeme::EOF;
        self.lexer.take_other(&mut lexeme);
        if let Lexeme::EOF = lexeme {
            return self.at_end();
        }
        if self.frames.end_at(&lexeme) {
            return self.close();
        }
        self.begin_any(&lexeme)
    }

    /// Goes on where no token is left: an open group is refused, and any other part that is due is `EOF`, marked as an error.
    #[tactic(auto, using(crate::proofs::Stacks::group_open, crate::proofs::Stacks::nothing_begun))]
    fn at_end(&mut self) -> Result<State, AllocError>
        requires { HasTrees 0 self.old }
        ensures holds { self.old.lexer.list ≡ [] → Keeps State.Next self.old self.new result }
        ensures step { IsStep 0 (weight_of State.Next self.old) self.old self.new result }
    {
        if let Due::Member(end) = self.frames.due() {
            return Ok(self.refuse(LatexError::UnexpectedToken {
                expected: end.token(),
                got: Token::EOF,
            }));
        }
        self.error(&Lexeme::EOF)
    }

    /// Refuses the formula.
    #[cold]
    fn refuse(&mut self, error: LatexError) -> State
        ensures state { result ≡ State.Refused }
        ensures refusal { self.new ≡ record self.old { refusal = error } }
        ensures holds { (input : List Tok) → IsRefusedBy error input → Holds input self.new result }
    {
        self.refusal = error;
        State::Refused
    }

    /// Refuses the formula, because this lexeme follows a token that a fence must follow.
    #[cold]
    fn refuse_fence(&mut self, location: Token, got: Lexeme) -> Result<State, AllocError>
        requires { HasTrees 0 self.old }
        ensures holds { (input : List Tok) → LacksFence location got.entry input
            → IfOk result (Holds input self.new) }
        ensures step { IsStep 0 1 self.old self.new result }
    {
        let got = got.token(self.alloc)?;
        Ok(self.refuse(LatexError::MissingParensethis { location, got }))
    }

    /// Opens a frame. Its next part is then due.
    #[tactic(auto, using(crate::proofs::Stacks::put_on))]
    fn open(&mut self, frame: Frame<'a>) -> Result<State, AllocError>
        requires fit { unfit frame ≡ 0 }
        requires trees { HasTrees (tree_count frame) self.old }
        ensures holds { Enters frame.entry self.old self.new result }
        ensures step { IsStep 1 (frame_weight frame.entry + 6) self.old self.new result }
    {
        self.frames.open(frame)?;
        Ok(State::Next)
    }

    /// Puts back a frame that was taken off. Its next part is then due. This opens no frame: the frame was counted before.
    #[tactic(auto, using(crate::proofs::Stacks::put_on))]
    fn put_back(&mut self, frame: Frame<'a>) -> Result<State, AllocError>
        requires fit { unfit frame ≡ 0 }
        requires trees { HasTrees (tree_count frame) self.old }
        requires room { vec_len self.old.frames.stack < self.old.frames.greatest }
        ensures holds { Enters frame.entry self.old self.new result }
        ensures step { IsStep 0 (weight_put_back frame.entry) self.old self.new result }
    {
        self.frames.put_back(frame)?;
        Ok(State::Next)
    }
}
