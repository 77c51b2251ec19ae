//! Primes and scripts, which continue what precedes them.

ghost use Rattle.std.specs.Prelude.{◌≡◌, Some};
ghost use Rattle.latex2mathml_grammar.specs.Grammar.{first, prime};
ghost use Rattle.latex2mathml_parser.specs.{Claims.FollowsSingle, Claims.Keeps, Marks.sign_token};
ghost use Rattle.latex2mathml_parser.specs.Steps.{HasTrees, IsStep};

use crate::lexer::mark::{Mark, Sign};
use crate::parse::frames::{Due, Frame};
use crate::parse::{Parser, State};
use latex2mathml_parts::kind::Kind;
use std::alloc::AllocError;

impl<'a> Parser<'a> {
    /// Goes on after a core, with a prime or a script if one follows.
    #[tactic(auto, using(crate::proofs::Stepping::steps_after_core))]
    pub(crate) fn after_core(&mut self) -> Result<State, AllocError>
        requires { HasTrees 1 self.old }
        ensures holds { Keeps State.Core self.old self.new result }
        ensures step { IsStep 0 4 self.old self.new result }
    {
        match self.lexer.mark() {
            None => self.after_part(),
            Some(Mark::Prime) => self.after_prime(),
            Some(Mark::Script(sign)) => self.after_sign(sign),
        }
    }

    /// Goes on after a core followed by a prime: the prime is taken, unless a core is due.
    #[tactic(auto, using(crate::proofs::Levels::given, crate::proofs::Levels::passed, crate::proofs::Levels::prime_taken, crate::proofs::Stacks::due_of_inside))]
    fn after_prime(&mut self) -> Result<State, AllocError>
        requires prime { first self.old.lexer.list ≡ Some prime }
        requires trees { HasTrees 1 self.old }
        ensures holds { Keeps State.Core self.old self.new result }
        ensures step { IsStep 0 4 self.old self.new result }
    {
        if let Due::Core = self.frames.due() {
            return Ok(State::Part);
        }
        self.lexer.skip();
        self.parts.put(Kind::Primed)?;
        self.after_single()
    }

    /// Goes on after a single, with a script if one follows.
    #[tactic(auto, using(crate::proofs::Levels::unscripted, crate::proofs::Stepping::step_after))]
    fn after_single(&mut self) -> Result<State, AllocError>
        requires { HasTrees 1 self.old }
        ensures holds { FollowsSingle self.old self.new result }
        ensures step { IsStep 0 4 self.old self.new result }
    {
        match self.lexer.mark() {
            Some(Mark::Script(sign)) => self.after_sign(sign),
            _ => Ok(State::Part),
        }
    }

    /// Goes on after a single followed by a sign: the sign is taken if a node is due.
    fn after_sign(&mut self, sign: Sign) -> Result<State, AllocError>
        requires sign { first self.old.lexer.list ≡ Some (sign_token sign) }
        requires trees { HasTrees 1 self.old }
        ensures holds { FollowsSingle self.old self.new result }
        ensures step { IsStep 0 4 self.old self.new result }
    {
        if !self.frames.due().takes_script() {
            return Ok(State::Part);
        }
        self.lexer.skip();
        self.open(Frame::Script(sign))
    }
}
