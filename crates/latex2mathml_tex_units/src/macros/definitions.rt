//! Definitions of macros.
ghost use Rattle.std.specs.Prelude.{◌≡◌, map, option_map};
ghost use Rattle.latex2mathml_tex_grammar.specs.Definitions.{alias_definition, any_piece, are_space, body, command_definition, default_of, definition_of, delimiters_definition, is_brace, is_number, name_in, name_of, number_of, operator_definition, parameter_count, parameter_text, plain_definition, word_named};
ghost use Rattle.latex2mathml_tex_units.specs.{Bodies.parts_in, Bodies.taken_of, Bodies.taken_in, Defined.definition_in, Defined.word_of, Pending.Reads, Taking.piece_of, Taking.unit_of};

use crate::macros::halt::Halt;
use crate::macros::part::{Macro, Part, Taken, is_character, operator_parts, parts_of};
use crate::macros::pending::Pending;
use crate::unit::{Fault, Next, Piece, Unit};
use std::alloc::Global;

/// The words that begin definitions.
#[derive(Clone, Copy)]
pub(crate) enum Word {
    /// `\newcommand`, `\renewcommand` and `\DeclareRobustCommand`.
    NewCommand,
    /// `\providecommand`, which keeps a macro that exists.
    ProvideCommand,
    /// `\def` and `\gdef`.
    Def,
    /// `\DeclareMathOperator`.
    DeclareOperator,
    /// `\DeclarePairedDelimiter`.
    DeclareDelimiters,
    /// `\let`.
    Let,
}

/// Returns the word with this name.
pub(crate) fn word_named(name: &str) -> Option<Word>
    ensures { option_map word_of result ≡ word_named name.now }
{
    if name == "newcommand" || name == "renewcommand" || name == "DeclareRobustCommand" {
        Some(Word::NewCommand)
    } else if name == "providecommand" {
        Some(Word::ProvideCommand)
    } else if name == "def" || name == "gdef" {
        Some(Word::Def)
    } else if name == "DeclareMathOperator" {
        Some(Word::DeclareOperator)
    } else if name == "DeclarePairedDelimiter" {
        Some(Word::DeclareDelimiters)
    } else if name == "let" {
        Some(Word::Let)
    } else {
        None
    }
}

/// What is defined.
#[derive(Drop)]
pub(crate) struct Definition<'a> {
    pub(crate) name: &'a str,
    pub(crate) stands_for: Macro<'a>,
}

/// Whether the units are only white space.
fn are_space(units: &[Unit]) -> bool
    ensures { result ≡ are_space (map unit_of units.now) }
{
    for unit in units {
        let Piece::Space = unit.piece else {
            return false;
        };
    }
    true
}

/// Returns the name of the one command that these units are, ignoring white space.
fn name_in<'a>(units: &[Unit<'a>]) -> Option<&'a str>
    ensures { option_map (λ name. name.now) result ≡ name_in (map unit_of units.now) }
{
    let mut passed = 0;
    'units: while passed < units.len() {
        match units[passed].piece {
            Piece::Space => passed += 1,
            Piece::Command(name) => {
                if are_space(&units[passed + 1..]) {
                    return Some(name);
                }
                return None;
            }
            _ => return None,
        }
    }
    None
}

/// Whether the piece is a brace.
fn is_brace(piece: Piece) -> bool
    ensures { result ≡ is_brace (piece_of piece.entry) }
{
    match piece {
        Piece::Open | Piece::Close => true,
        _ => false,
    }
}

/// Whether the piece is the number of the parameter after `count` others.
fn is_number(count: u8, piece: Piece) -> bool
    ensures { result ≡ is_number count (piece_of piece.entry) }
{
    count < 9 && is_character(char::from(b'1' + count), piece)
}

/// Returns how many parameters there are.
fn parameter_count(takes: &[Taken]) -> usize
    ensures { result ≡ parameter_count (map taken_of takes.now) }
{
    let mut count = 0;
    for taken in takes {
        if let Taken::Parameter = taken {
            count += 1;
        }
    }
    count
}

impl<'a> Pending<'a> {
    /// Takes the name that a definition at this place defines.
    fn take_name(&mut self, alloc: Global, place: usize) -> Result<&'a str, Halt>
        ensures { Reads result (λ name. name.now) (name_of place) self.old self.new }
    {
        let units = self.take_argument(alloc, place)?;
        match name_in(&units) {
            Some(name) => Ok(name),
            None => Err(Halt::Refused(Fault::MissingMacroName, place)),
        }
    }

    /// Takes the number of arguments, which is in brackets.
    fn take_number(&mut self, place: usize) -> Result<usize, Halt>
        ensures { Reads result (λ n. n) (number_of place) self.old self.new }
    {
        if !self.take_sign('[') {
            return Ok(0);
        }
        let Some(number) = self.take_digit() else {
            return Err(Halt::Refused(Fault::WrongParameters, place));
        };
        if !self.take_sign(']') {
            return Err(Halt::Refused(Fault::WrongParameters, place));
        }
        Ok(number)
    }

    /// Takes the default of the first of `count` arguments, if one comes next.
    fn take_default(
        &mut self,
        alloc: Global,
        place: usize,
        count: usize,
    ) -> Result<Option<Vec<Part<'a>>>, Halt>
        ensures { Reads result (option_map parts_in) (default_of place count)
            self.old self.new }
    {
        let Some(units) = self.take_optional(alloc)? else {
            return Ok(None);
        };
        if count == 0 {
            return Err(Halt::Refused(Fault::WrongParameters, place));
        }
        match parts_of(alloc, 0, &units)? {
            Some(parts) => Ok(Some(parts)),
            None => Err(Halt::Refused(Fault::UnknownParameter, place)),
        }
    }

    /// Takes the text of the parameters: `#1`, `#2` and so on, and signs, up to a brace.
    fn take_parameter_text(&mut self, alloc: Global, place: usize) -> Result<Vec<Taken<'a>>, Halt>
        ensures { Reads result taken_in (parameter_text place) self.old self.new }
    {
        let mut takes = Vec::new(alloc);
        let mut count: u8 = 0;
        let mut behind_number_sign = false;
        'units: while let Some(piece) = self.peek() {
            if behind_number_sign {
                if !is_number(count, piece) {
                    return Err(Halt::Refused(Fault::WrongParameters, place));
                }
                takes.push(Taken::Parameter)?;
                count += 1;
                behind_number_sign = false;
            } else if is_character('#', piece) {
                behind_number_sign = true;
            } else if is_brace(piece) {
                return Ok(takes);
            } else {
                takes.push(Taken::Sign(piece))?;
            }
            self.take();
        }
        if behind_number_sign {
            return Err(Halt::Refused(Fault::WrongParameters, place));
        }
        Ok(takes)
    }

    /// Takes the body of a macro with `arity` arguments.
    fn take_body(
        &mut self,
        alloc: Global,
        place: usize,
        arity: usize,
    ) -> Result<Vec<Part<'a>>, Halt>
        ensures { Reads result parts_in (body place arity) self.old self.new }
    {
        let units = self.take_argument(alloc, place)?;
        match parts_of(alloc, arity, &units)? {
            Some(parts) => Ok(parts),
            None => Err(Halt::Refused(Fault::UnknownParameter, place)),
        }
    }

    /// Takes what follows `\newcommand` and the like.
    fn take_command_definition(
        &mut self,
        alloc: Global,
        place: usize,
    ) -> Result<Definition<'a>, Halt>
        ensures { Reads result definition_in (command_definition place) self.old self.new }
    {
        self.take_sign('*');
        let name = self.take_name(alloc, place)?;
        let count = self.take_number(place)?;
        let default = self.take_default(alloc, place, count)?;
        let body = self.take_body(alloc, place, count)?;
        Ok(Definition {
            name,
            stands_for: Macro::new(default, count, body),
        })
    }

    /// Takes what follows `\def`.
    fn take_plain_definition(&mut self, alloc: Global, place: usize) -> Result<Definition<'a>, Halt>
        ensures { Reads result definition_in (plain_definition place) self.old self.new }
    {
        let name = self.take_name(alloc, place)?;
        let takes = self.take_parameter_text(alloc, place)?;
        let body = self.take_body(alloc, place, parameter_count(&takes))?;
        Ok(Definition {
            name,
            stands_for: Macro::taking(takes, body),
        })
    }

    /// Takes what follows `\DeclareMathOperator`.
    fn take_operator_definition(
        &mut self,
        alloc: Global,
        place: usize,
    ) -> Result<Definition<'a>, Halt>
        ensures { Reads result definition_in (operator_definition place) self.old self.new }
    {
        let star = self.take_sign('*');
        let name = self.take_name(alloc, place)?;
        let parts = self.take_body(alloc, place, 0)?;
        let body = operator_parts(alloc, star, &parts)?;
        Ok(Definition {
            name,
            stands_for: Macro::new(None, 0, body),
        })
    }

    /// Takes what follows `\DeclarePairedDelimiter`.
    fn take_delimiters_definition(
        &mut self,
        alloc: Global,
        place: usize,
    ) -> Result<Definition<'a>, Halt>
        ensures { Reads result definition_in (delimiters_definition place) self.old self.new }
    {
        let name = self.take_name(alloc, place)?;
        let left = self.take_body(alloc, place, 0)?;
        let right = self.take_body(alloc, place, 0)?;
        let stands_for = Macro::of_delimiters(alloc, &left, &right)?;
        Ok(Definition { name, stands_for })
    }

    /// Takes the piece that comes next, whatever it is.
    fn take_any(&mut self, place: usize) -> Result<Piece<'a>, Halt>
        ensures { Reads result piece_of (any_piece place) self.old self.new }
    {
        match self.take() {
            Next::Unit(unit) => Ok(unit.piece),
            Next::End(_) => Err(Halt::Refused(Fault::MissingArgument, place)),
            Next::Fault(fault, at) => Err(Halt::Refused(fault, at)),
        }
    }

    /// Takes what follows `\let`.
    fn take_alias_definition(&mut self, alloc: Global, place: usize) -> Result<Definition<'a>, Halt>
        ensures { Reads result definition_in (alias_definition place) self.old self.new }
    {
        let name = self.take_name(alloc, place)?;
        self.take_sign('=');
        self.skip_space();
        let piece = self.take_any(place)?;
        Ok(Definition {
            name,
            stands_for: Macro::of_alias(alloc, piece),
        })
    }

    /// Takes the definition that follows a word at this place.
    pub(crate) fn take_definition(
        &mut self,
        alloc: Global,
        word: Word,
        place: usize,
    ) -> Result<Definition<'a>, Halt>
        ensures { Reads result definition_in (definition_of (word_of word) place)
            self.old self.new }
    {
        match word {
            Word::NewCommand | Word::ProvideCommand => self.take_command_definition(alloc, place),
            Word::Def => self.take_plain_definition(alloc, place),
            Word::DeclareOperator => self.take_operator_definition(alloc, place),
            Word::DeclareDelimiters => self.take_delimiters_definition(alloc, place),
            Word::Let => self.take_alias_definition(alloc, place),
        }
    }
}
