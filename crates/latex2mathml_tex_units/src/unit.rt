//! Units: what a text is cut into.

/// What a unit is. The name of a command is without its backslash.
#[derive(Clone, Copy)]
pub enum Piece<'a> {
    /// White space, however much.
    Space,
    /// `{`.
    Open,
    /// `}`.
    Close,
    /// A command.
    Command(&'a str),
    /// Any other character.
    Character(char),
}

/// A unit, and the byte of the text where it begins.
#[derive(Clone, Copy)]
pub struct Unit<'a> {
    pub piece: Piece<'a>,
    pub place: usize,
}

/// Why there is no next unit.
#[derive(Clone, Copy)]
pub enum Fault {
    /// A backslash ends the text.
    LoneBackslash,
    /// XML forbids this character.
    Forbidden(char),
    /// An argument of a macro or a part of a definition is missing.
    MissingArgument,
    /// A brace that is not closed.
    UnclosedBrace,
    /// The bracket of an optional argument that is not closed.
    UnclosedBracket,
    /// More macros are used than allowed, or they put more units than allowed.
    TooManyExpansions,
    /// What a definition should define is not a name.
    MissingMacroName,
    /// What precedes the body of a definition does not say how many arguments there are.
    WrongParameters,
    /// A sign that is a part of the use of a macro is not there.
    WrongUse,
    /// A body refers to an argument that does not exist.
    UnknownParameter,
    /// Something among definitions that is not a definition.
    NoDefinition,
}

/// What is next in a text.
#[derive(Clone, Copy)]
pub enum Next<'a> {
    /// A unit.
    Unit(Unit<'a>),
    /// The end of the text, at this byte.
    End(usize),
    /// No unit: why, and the byte where what is refused begins.
    Fault(Fault, usize),
}
