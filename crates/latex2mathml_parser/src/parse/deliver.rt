//! How parsing goes on after a part, and after the end of a group.

ghost use Rattle.std.specs.Prelude.{◌≡◌, ◌+◌, ◌<◌, vec_len};
ghost use Rattle.latex2mathml_parser.specs.Frames.{IsNoGroup, tree_count, unfit};
ghost use Rattle.latex2mathml_parser.specs.Claims.{Delivers, EndsGroup, EndsInnermost, Keeps};
ghost use Rattle.latex2mathml_parser.specs.Claims.{Proceeds, Puts, after_single};
ghost use Rattle.latex2mathml_parser.specs.Steps.{HasTrees, IsStep, due_in, frame_weight};
ghost use Rattle.latex2mathml_parts.specs.Parts.{arity};
ghost use Rattle.latex2mathml_parser.specs.{declared.parse.frames.Due.Due, declared.parse.frames.GroupEnd.GroupEnd};

use crate::lexer::mark::Sign;
use crate::parse::begin::fence_of;
use crate::parse::frames::{Frame, Group, Pair};
use crate::parse::{Parser, State};
use latex2mathml_parts::kind::Kind;
use latex2mathml_tokens::LatexError;
use latex2mathml_tokens::lexeme::Lexeme;
use latex2mathml_tokens::names::Paren;
use latex2mathml_tokens::token::Token;
use std::alloc::AllocError;

impl<'a> Parser<'a> {
    /// Gives the innermost frame the part that it waits for. Without frames the part is a node of the formula.
    pub(crate) fn after_part(&mut self) -> Result<State, AllocError>
        requires { HasTrees 1 self.old }
        ensures holds { Keeps State.Part self.old self.new result }
        ensures step { IsStep 0 3 self.old self.new result }
    {
        let Some(frame) = self.frames.last() else {
            return Ok(State::End);
        };
        match *frame {
            Frame::Members(group, count) => {
                // All members are among the parts, so their number fits in a `usize`.
                let _ = self.parts.len();
                self.frames.replace(Frame::Members(group, count + 1));
                Ok(State::Next)
            }
            frame => {
                self.frames.drop_last();
                self.deliver(frame)
            }
        }
    }

    /// Gives a frame, which was taken off the stack and is no group, the part that it waits for.
    #[tactic(auto, using(crate::proofs::Combining::part_delivered))]
    fn deliver(&mut self, frame: Frame<'a>) -> Result<State, AllocError>
        requires fit { unfit frame ≡ 0 }
        requires other { IsNoGroup frame }
        requires trees { HasTrees (tree_count frame + 1) self.old }
        requires room { vec_len self.old.frames.stack < self.old.frames.greatest }
        ensures holds { Delivers frame.entry self.old self.new result }
        ensures step { IsStep 0 (frame_weight frame.entry + 3) self.old self.new result }
    {
        match frame {
            Frame::Members(_, _) => unreachable!(),
            Frame::Operand(kind) => self.put(kind),
            Frame::Last(kind) => self.put(kind),
            Frame::First(kind) => self.put_back(Frame::Operand(kind)),
            Frame::Style(variant) => {
                self.parts.give_style(variant);
                Ok(State::Core)
            }
            Frame::Single(pair) => self.after_first(pair),
            Frame::Slashed => {
                // The lexeme after what is struck through is skipped.
                self.lexer.skip();
                self.parts.slash()?;
                Ok(State::Core)
            }
            Frame::Stretch(got) => {
                if self.parts.stretch() {
                    return Ok(State::Core);
                }
                self.refuse_fence(Token::Middle, got)
            }
            Frame::Script(sign) => {
                match sign {
                    Sign::Sub => self.parts.put(Kind::Sub)?,
                    Sign::Sup => self.parts.put(Kind::Sup)?,
                }
                Ok(State::Part)
            }
        }
    }

    /// Puts a part without operands, and goes on after it.
    pub(crate) fn put_leaf(&mut self, kind: Kind<'a>) -> Result<State, AllocError>
        requires leaf { arity kind ≡ 0 }
        requires trees { HasTrees 0 self.old }
        ensures holds { Puts kind.entry self.old self.new result }
        ensures step { IsStep 0 5 self.old self.new result }
    {
        self.parts.put(kind)?;
        self.after_core()
    }

    /// Puts a part after its operands, if it has any.
    pub(crate) fn put(&mut self, kind: Kind<'a>) -> Result<State, AllocError>
        requires { HasTrees (arity kind) self.old }
        ensures holds { Puts kind.entry self.old self.new result }
        ensures step { IsStep 0 5 self.old self.new result }
    {
        self.parts.put(kind)?;
        Ok(State::Core)
    }

    /// Goes on after the single of a rule that takes a second one if its sign is next.
    #[tactic(auto, using(crate::proofs::Stepping::step_after))]
    fn after_first(&mut self, pair: Pair) -> Result<State, AllocError>
        requires trees { HasTrees 1 self.old }
        requires room { vec_len self.old.frames.stack < self.old.frames.greatest }
        ensures holds { Proceeds (after_single pair self.old) 1 self.old self.new result }
        ensures step { IsStep 0 5 self.old self.new result }
    {
        if self.lexer.take_if(pair.sign()) {
            return self.put_back(Frame::Last(pair.two()));
        }
        self.put(pair.one())
    }

    /// Ends the innermost group, whose end was taken.
    #[tactic(auto, using(crate::proofs::Combining::group_closed))]
    pub(crate) fn close(&mut self) -> Result<State, AllocError>
        requires due { (end : GroupEnd) × (due_in self.old ≡ Due.Member end) }
        requires trees { HasTrees 0 self.old }
        ensures holds { EndsInnermost self.old self.new result }
        ensures step { IsStep 0 16 self.old self.new result }
    {
        let Some(Frame::Members(group, count)) = self.frames.pop() else {
            unreachable!()
        };
        self.end_group(group, count)
    }

    /// Ends a group whose members were read.
    #[inline(always)]
    #[tactic(auto, using(crate::proofs::Stepping::step_after))]
    fn end_group(&mut self, group: Group, count: usize) -> Result<State, AllocError>
        requires trees { HasTrees (tree_count (Frame.Members group count)) self.old }
        requires room { vec_len self.old.frames.stack < self.old.frames.greatest }
        ensures holds { EndsGroup group count self.old self.new result }
        ensures step { IsStep 0 8 self.old self.new result }
    {
        match group {
            Group::Brace => {
                self.parts.group(count)?;
                Ok(State::Core)
            }
            Group::Degree => {
                self.parts.group(count)?;
                self.put_back(Frame::Operand(Kind::Root))
            }
            Group::Fence(opening) => self.close_fence(opening, count),
            Group::Environment => self.end_environment(count),
        }
    }

    /// Ends a fence whose members were read.
    #[tactic(auto, using(crate::proofs::Stepping::step_after))]
    fn close_fence(&mut self, opening: Option<Paren>, count: usize) -> Result<State, AllocError>
        requires { HasTrees count self.old }
        ensures holds { EndsGroup (Group.Fence opening) count self.old self.new result }
        ensures step { IsStep 0 5 self.old self.new result }
    {
        let got = self.lexer.take();
        let Some(closing) = fence_of(got) else {
            return self.refuse_fence(Token::Right, got);
        };
        self.parts.group(count)?;
        self.put(Kind::Fenced(opening, closing))
    }

    /// Ends an environment whose members were read.
    fn end_environment(&mut self, count: usize) -> Result<State, AllocError>
        requires { HasTrees (count + 1) self.old }
        ensures holds { EndsGroup Group.Environment count self.old self.new result }
        ensures step { IsStep 0 5 self.old self.new result }
    {
        self.lexer.skip_name();
        if self.parts.environment(count)? {
            return Ok(State::Core);
        }
        let name = String::from_str(self.alloc, self.parts.name(count))?;
        Ok(self.refuse(LatexError::UnknownEnvironment(name)))
    }
}
