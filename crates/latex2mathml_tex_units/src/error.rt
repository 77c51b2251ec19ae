//! Why a formula or a text of definitions is refused.
ghost use Rattle.std.specs.Prelude.{◌≡◌, ◌++◌, Some, codes};
ghost use Rattle.std.specs.{Char.encode_utf8, Fmt.WritesOnOk, Option.is_some};
ghost use Rattle.latex2mathml_tex_units.specs.ErrorTexts.{error_kind_text, error_text, four_digits};
ghost use Rattle.latex2mathml_tex_units.specs.{Errors.kind_of_error, Errors.out_of_memory, Taking.kind_of};

use crate::unit::Fault;
use std::alloc::AllocError;
use std::error::Error;
use std::fmt;

/// Why a formula or a text of definitions is refused, or that memory ran out. The name of a command is without its backslash.
#[derive(Debug, Drop)]
pub enum TexErrorKind {
    /// A backslash ends the text.
    LoneBackslash,
    /// XML forbids this character.
    ForbiddenCharacter(char),
    /// No command has this name.
    UnknownCommand(String),
    /// What a command or a sign takes is missing.
    MissingArgument,
    /// A brace that is not closed.
    UnclosedBrace,
    /// A bracket that is not closed.
    UnclosedBracket,
    /// A formula in words that is not closed.
    UnclosedDollar,
    /// A `\left` without its `\right`.
    LeftWithoutRight,
    /// A closing brace that closes nothing.
    UnopenedBrace,
    RightWithoutLeft,
    MiddleWithoutLeft,
    /// `\limits` or the like that follows no operator.
    LimitsWithoutOperator,
    SecondSubscript,
    SecondSuperscript,
    /// No length follows a command that takes one.
    MissingLength,
    /// A length of more than 16384 points.
    LengthTooLarge,
    /// No color has this name.
    UnknownColor(String),
    /// A command for the rest of its group in the place of an argument.
    ChangeAsArgument,
    /// A second `\over` or the like in one group.
    SecondInfix,
    /// A delimiter is missing.
    MissingDelimiter,
    /// What follows `\not` takes no stroke.
    NothingToNegate,
    /// A sign that may appear only in tables.
    OutsideTable,
    /// What follows an at sign in a diagram is no arrow, or one without its last sign.
    IncompleteArrow,
    /// No name follows `\begin` or `\end`.
    MissingName,
    /// No environment has this name.
    UnknownEnvironment(String),
    /// A `\begin` without its `\end`.
    BeginWithoutEnd,
    EndWithoutBegin,
    /// An `\end` whose name is not that of its `\begin`.
    OtherName,
    /// Something among the columns of an `array` or a `subarray` that is not a column.
    UnknownColumn,
    /// An `array` or a `subarray` with more than 32 columns.
    TooManyColumns,
    /// A character that has no meaning in a formula.
    MisplacedCharacter(char),
    /// A command that is not allowed in words.
    CommandInWords(String),
    /// A character that is not allowed in words.
    CharacterInWords(char),
    /// More than 1,000 macros are used, or they insert more than 100,000 units: characters, commands, braces and white space.
    TooManyExpansions,
    /// What a definition should define is not a name.
    MissingMacroName,
    /// What precedes the body of a definition does not say how many arguments there are.
    WrongParameters,
    /// A sign that is a part of the use of a macro is not there: after `\def\pair(#1,#2){..}`, for example, one of `(`, `,` and `)`.
    WrongUse,
    /// The body of a definition refers to an argument that does not exist.
    UnknownParameter,
    /// Something among definitions that is not a definition.
    NoDefinition,
    /// Out of memory.
    OutOfMemory,
}

/// Why a formula or a text of definitions is refused, and the byte of that text where what is refused begins.
/// [`TexError::position`] gives that place as a line and a column.
#[derive(Debug, Drop)]
pub struct TexError {
    pub kind: TexErrorKind,
    pub place: usize,
}

/// Prints the kind in words, such as `unknown command \foo`.
impl fmt::Display for TexErrorKind {
    ghost output = { λ kind. Some (error_kind_text kind) };

    fn fmt<W: fmt::Write>(&self, f: &mut fmt::Formatter<W>) -> fmt::Result {
        let text = match self {
            TexErrorKind::LoneBackslash => "a backslash ends the formula",
            TexErrorKind::ForbiddenCharacter(c) => return write_forbidden(*c, f),
            TexErrorKind::UnknownCommand(name) => return write_two("unknown command \\", name, f),
            TexErrorKind::MissingArgument => "an argument is missing",
            TexErrorKind::UnclosedBrace => "{ is not closed",
            TexErrorKind::UnclosedBracket => "[ is not closed",
            TexErrorKind::UnclosedDollar => "$ is not closed",
            TexErrorKind::LeftWithoutRight => "\\left without \\right",
            TexErrorKind::UnopenedBrace => "} closes nothing",
            TexErrorKind::RightWithoutLeft => "\\right without \\left",
            TexErrorKind::MiddleWithoutLeft => "\\middle outside of \\left and \\right",
            TexErrorKind::LimitsWithoutOperator => "limits without an operator",
            TexErrorKind::SecondSubscript => "a second subscript",
            TexErrorKind::SecondSuperscript => "a second superscript",
            TexErrorKind::MissingLength => "a length is missing",
            TexErrorKind::LengthTooLarge => "a length of more than 16384 points",
            TexErrorKind::UnknownColor(name) => return write_two("unknown color ", name, f),
            TexErrorKind::ChangeAsArgument => "a command for the rest of a group is no argument",
            TexErrorKind::SecondInfix => "a second \\over or the like in one group",
            TexErrorKind::MissingDelimiter => "a delimiter is missing",
            TexErrorKind::NothingToNegate => "nothing to negate",
            TexErrorKind::OutsideTable => "a sign of tables outside of a table",
            TexErrorKind::IncompleteArrow => "an arrow is not complete",
            TexErrorKind::MissingName => "the name of an environment is missing",
            TexErrorKind::UnknownEnvironment(name) => return write_two(
                "unknown environment ",
                name,
                f,
            ),
            TexErrorKind::BeginWithoutEnd => "\\begin without \\end",
            TexErrorKind::EndWithoutBegin => "\\end without \\begin",
            TexErrorKind::OtherName => "\\end has another name than \\begin",
            TexErrorKind::UnknownColumn => "unknown column",
            TexErrorKind::TooManyColumns => "more than 32 columns",
            TexErrorKind::MisplacedCharacter(c) => return write_character(
                *c,
                " has no meaning here",
                f,
            ),
            TexErrorKind::CommandInWords(name) => return write_command_in_words(name, f),
            TexErrorKind::CharacterInWords(c) => return write_character(*c, " in words", f),
            TexErrorKind::TooManyExpansions => "too many macros are expanded",
            TexErrorKind::MissingMacroName => "no name to define",
            TexErrorKind::WrongParameters => "wrong parameters of a definition",
            TexErrorKind::WrongUse => "the use of a macro does not match its definition",
            TexErrorKind::UnknownParameter => "a body has no such argument",
            TexErrorKind::NoDefinition => "not a definition",
            TexErrorKind::OutOfMemory => "out of memory",
        };
        f.write_str(text)
    }
}

fn write_forbidden<W: fmt::Write>(c: char, f: &mut fmt::Formatter<W>) -> fmt::Result
    ensures { WritesOnOk W.write_str_gives f.old result
        (codes "forbidden character U+" ++ four_digits c) f.new }
{
    write!(f, "forbidden character U+{:04X}", u32::from(c))
}

fn write_command_in_words<W: fmt::Write>(name: &str, f: &mut fmt::Formatter<W>) -> fmt::Result
    ensures { WritesOnOk W.write_str_gives f.old result
        (codes "\\" ++ (name.now ++ codes " in words")) f.new }
{
    f.write_str("\\")?;
    write_two(name, " in words", f)
}

/// Writes two texts, one after the other.
fn write_two<W: fmt::Write>(first: &str, second: &str, f: &mut fmt::Formatter<W>) -> fmt::Result
    ensures { WritesOnOk W.write_str_gives f.old result (first.now ++ second.now) f.new }
{
    f.write_str(first)?;
    f.write_str(second)
}

/// Writes a character, and what follows it.
fn write_character<W: fmt::Write>(c: char, after: &str, f: &mut fmt::Formatter<W>) -> fmt::Result
    ensures { WritesOnOk W.write_str_gives f.old result (encode_utf8 c ++ after.now) f.new }
{
    f.write_char(c)?;
    f.write_str(after)
}

/// Prints the kind in words and, if the error is about a place, the place, such as `unknown command \foo at 7`.
impl fmt::Display for TexError {
    ghost output = { λ error. Some (error_text error) };

    fn fmt<W: fmt::Write>(&self, f: &mut fmt::Formatter<W>) -> fmt::Result {
        if self.kind.has_place() {
            write!(f, "{} at {}", self.kind, self.place)
        } else {
            write!(f, "{}", self.kind)
        }
    }
}

impl Error for TexError {}

impl TexErrorKind {
    /// Returns the kind that reports this fault.
    #[cold]
    pub fn of_fault(fault: Fault) -> TexErrorKind
        ensures { kind_of_error result ≡ Some (kind_of fault) }
    {
        match fault {
            Fault::LoneBackslash => TexErrorKind::LoneBackslash,
            Fault::Forbidden(c) => TexErrorKind::ForbiddenCharacter(c),
            Fault::MissingArgument => TexErrorKind::MissingArgument,
            Fault::UnclosedBrace => TexErrorKind::UnclosedBrace,
            Fault::UnclosedBracket => TexErrorKind::UnclosedBracket,
            Fault::TooManyExpansions => TexErrorKind::TooManyExpansions,
            Fault::MissingMacroName => TexErrorKind::MissingMacroName,
            Fault::WrongParameters => TexErrorKind::WrongParameters,
            Fault::WrongUse => TexErrorKind::WrongUse,
            Fault::UnknownParameter => TexErrorKind::UnknownParameter,
            Fault::NoDefinition => TexErrorKind::NoDefinition,
        }
    }

    /// Whether errors of this kind are about a place of the text.
    fn has_place(&self) -> bool
        ensures { result ≡ is_some (kind_of_error self.now) }
    {
        !matches!(self, TexErrorKind::OutOfMemory)
    }
}

impl TexError {
    /// Returns the error of running out of memory: no place of the text is at fault.
    #[cold]
    pub fn out_of_memory() -> TexError
        ensures { result ≡ out_of_memory }
    {
        TexError {
            kind: TexErrorKind::OutOfMemory,
            place: 0,
        }
    }
}

impl From<AllocError> for TexError {
    ghost use Rattle.latex2mathml_tex_units.specs.Errors.{out_of_memory};

    ghost from_gives = { λ _ error. error ≡ out_of_memory };

    fn from(_refused: AllocError) -> TexError {
        TexError::out_of_memory()
    }
}
