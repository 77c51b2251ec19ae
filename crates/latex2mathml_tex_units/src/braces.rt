//! Braces around arguments, and delimiters that may be in braces.
ghost use Rattle.std.specs.Prelude.{◌≡◌, ◌≤◌, ◌∷◌, ◌++◌, ℕ, [], MatchBool, MatchOption, None, Some};
ghost use Rattle.latex2mathml_tex_grammar.specs.{Delimiters.delimiter_of, Next.next_are, Next.past_space, Next.refusal_here};
ghost use Rattle.latex2mathml_tex_grammar.specs.Refusal.{MissingDelimiter, refusal_at};
ghost use Rattle.latex2mathml_tex_grammar.specs.Rules.{a_left_brace, a_right_brace, a_sized_delimiter, an_outer_delimiter, empty_braces};
ghost use Rattle.latex2mathml_tex_commands.specs.Delimiters.{delimiter_text};
ghost use Rattle.latex2mathml_tex_units.specs.Left.{SameUnits, unit_count, units_at};
ghost use Rattle.latex2mathml_tex_units.specs.HandedOn.{HandsOn, Stops};

use crate::input::Input;
use crate::unit::{Next, Piece};

impl<'a> Input<'a> {
    /// Takes a delimiter, in braces or without, if one comes next. Empty braces are the empty delimiter. Otherwise skips
    /// nothing.
    pub fn take_outer_delimiter(&mut self) -> Option<Option<char>>
        ensures { MatchOption result
            ((units_at self.new ≡ units_at self.old)
            × ((place : ℕ) → Stops (an_outer_delimiter place) (units_at self.old)
            (refusal_at MissingDelimiter place)))
            (λ d. (unit_count (units_at self.new) ≤ unit_count (units_at self.old))
            × ((place : ℕ) → HandsOn (an_outer_delimiter place) (units_at self.old)
            (delimiter_text d) (units_at self.new))) }
    {
        if let Some(delimiter) = self.take_delimiter() {
            return Some(delimiter);
        }
        if let Some(delimiter) = self.take_braced_delimiter() {
            return Some(delimiter);
        }
        if self.take_empty_braces() {
            return Some(None);
        }
        None
    }

    /// Takes the delimiter after a command for its size, in braces or without, if one comes next. Otherwise skips nothing.
    pub fn take_sized_delimiter(&mut self) -> Option<Option<char>>
        ensures { MatchOption result
            ((units_at self.new ≡ units_at self.old)
            × Stops a_sized_delimiter (units_at self.old)
            (refusal_here MissingDelimiter (past_space (units_at self.old))))
            (λ d. (unit_count (units_at self.new) ≤ unit_count (units_at self.old))
            × HandsOn a_sized_delimiter (units_at self.old)
            (delimiter_text d) (units_at self.new)) }
    {
        if let Some(delimiter) = self.take_braced_delimiter() {
            return Some(delimiter);
        }
        self.take_delimiter()
    }

    /// Takes a delimiter in braces, if one comes next.
    fn take_braced_delimiter(&mut self) -> Option<Option<char>>
        ensures { MatchOption result
            ((next_are (a_left_brace ∷ delimiter_of ∷ a_right_brace ∷ []) (units_at self.old)
            ≡ None)
            × (units_at self.new ≡ units_at self.old))
            (λ d. next_are (a_left_brace ∷ delimiter_of ∷ a_right_brace ∷ []) (units_at self.old)
            ≡ Some (delimiter_text d ++ [], units_at self.new)) }
    {
        let start = self.taken;
        if self.take_left_brace()
            && let Some(delimiter) = self.take_delimiter()
            && self.take_right_brace()
        {
            return Some(delimiter);
        }
        self.taken = start;
        None
    }

    /// Takes empty braces, if they come next.
    pub fn take_empty_braces(&mut self) -> bool
        ensures { MatchBool result
            (next_are empty_braces (units_at self.old) ≡ Some ([], units_at self.new))
            ((next_are empty_braces (units_at self.old) ≡ None)
            × (units_at self.new ≡ units_at self.old)) }
    {
        let start = self.taken;
        if self.take_left_brace() && self.take_right_brace() {
            return true;
        }
        self.taken = start;
        false
    }

    /// Takes an opening brace, if one comes next.
    fn take_left_brace(&mut self) -> bool
        ensures next { MatchBool result
            (next_are (a_left_brace ∷ []) (units_at self.old) ≡ Some ([], units_at self.new))
            ((next_are (a_left_brace ∷ []) (units_at self.old) ≡ None)
            × (units_at self.new ≡ units_at self.old)) }
        ensures same { SameUnits self.old self.new }
    {
        let start = self.taken;
        self.skip_space();
        if let Next::Unit(unit) = self.peek()
            && let Piece::Open = unit.piece
        {
            self.advance();
            return true;
        }
        self.taken = start;
        false
    }

    /// Takes a closing brace, if one comes next.
    fn take_right_brace(&mut self) -> bool
        ensures next { MatchBool result
            (next_are (a_right_brace ∷ []) (units_at self.old) ≡ Some ([], units_at self.new))
            ((next_are (a_right_brace ∷ []) (units_at self.old) ≡ None)
            × (units_at self.new ≡ units_at self.old)) }
        ensures same { SameUnits self.old self.new }
    {
        let start = self.taken;
        self.skip_space();
        if let Next::Unit(unit) = self.peek()
            && let Piece::Close = unit.piece
        {
            self.advance();
            return true;
        }
        self.taken = start;
        false
    }
}
