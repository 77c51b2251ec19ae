//! Names for the texts that tokens may hold. A name takes no memory.
ghost use Rattle.std.specs.Prelude.{◌≡◌};
ghost use Rattle.latex2mathml_tokens.specs.Names.{function_text, limit_text, paren_text, size_text};

/// A parenthesis, or `:=`.
#[derive(Clone, Copy)]
pub enum Paren {
    LeftRound,
    RightRound,
    LeftSquare,
    RightSquare,
    Bar,
    /// `:=`
    Assign,
    LeftAngle,
    RightAngle,
    LeftBrace,
    RightBrace,
    DoubleBar,
    LeftCeiling,
    RightCeiling,
    LeftFloor,
    RightFloor,
    LeftTortoise,
    RightTortoise,
    LeftDouble,
    RightDouble,
}

impl Paren {
    /// Returns the text, such as `(`.
    #[tactic(auto, unfolding(crate::proofs::Encoding::encode_utf8))]
    pub fn text(self) -> &'static str
        ensures { result.now ≡ paren_text self }
    {
        match self {
            Paren::LeftRound => "(",
            Paren::RightRound => ")",
            Paren::LeftSquare => "[",
            Paren::RightSquare => "]",
            Paren::Bar => "|",
            Paren::Assign => ":=",
            Paren::LeftAngle => "⟨",
            Paren::RightAngle => "⟩",
            Paren::LeftBrace => "{",
            Paren::RightBrace => "}",
            Paren::DoubleBar => "∥",
            Paren::LeftCeiling => "⌈",
            Paren::RightCeiling => "⌉",
            Paren::LeftFloor => "⌊",
            Paren::RightFloor => "⌋",
            Paren::LeftTortoise => "⦗",
            Paren::RightTortoise => "⦘",
            Paren::LeftDouble => "⟦",
            Paren::RightDouble => "⟧",
        }
    }
}

/// The name of a function that takes a limit.
#[derive(Clone, Copy)]
pub enum LimitName {
    Lim,
    LimInf,
    LimSup,
    Min,
    Max,
    Inf,
    Sup,
}

impl LimitName {
    /// Returns the name, such as `lim inf`.
    pub fn text(self) -> &'static str
        ensures { result.now ≡ limit_text self }
    {
        match self {
            LimitName::Lim => "lim",
            LimitName::LimInf => "lim inf",
            LimitName::LimSup => "lim sup",
            LimitName::Min => "min",
            LimitName::Max => "max",
            LimitName::Inf => "inf",
            LimitName::Sup => "sup",
        }
    }
}

/// The size of a bracket: the first is the smallest.
#[derive(Clone, Copy)]
pub enum Size {
    First,
    Second,
    Third,
    Fourth,
}

impl Size {
    /// Returns the size in ems with the unit, such as `1.2em`.
    pub fn text(self) -> &'static str
        ensures { result.now ≡ size_text self }
    {
        match self {
            Size::First => "1.2em",
            Size::Second => "1.623em",
            Size::Third => "2.047em",
            Size::Fourth => "2.470em",
        }
    }
}

/// The name of a function.
#[derive(Clone, Copy)]
pub enum FunctionName {
    Arccos,
    Arcsin,
    Arctan,
    Arg,
    Cos,
    Cosh,
    Cot,
    Coth,
    Csc,
    Det,
    Dim,
    Erf,
    Erfc,
    Exp,
    Ker,
    Ln,
    Log,
    Sec,
    Sin,
    Sinh,
    Tan,
    Tanh,
    WeierstrassP,
}

impl FunctionName {
    /// Returns the name, such as `arccos`.
    #[tactic(auto, unfolding(crate::proofs::Encoding::encode_utf8))]
    pub fn text(self) -> &'static str
        ensures { result.now ≡ function_text self }
    {
        match self {
            FunctionName::Arccos => "arccos",
            FunctionName::Arcsin => "arcsin",
            FunctionName::Arctan => "arctan",
            FunctionName::Arg => "arg",
            FunctionName::Cos => "cos",
            FunctionName::Cosh => "cosh",
            FunctionName::Cot => "cot",
            FunctionName::Coth => "coth",
            FunctionName::Csc => "csc",
            FunctionName::Det => "det",
            FunctionName::Dim => "dim",
            FunctionName::Erf => "erf",
            FunctionName::Erfc => "erfc",
            FunctionName::Exp => "exp",
            FunctionName::Ker => "ker",
            FunctionName::Ln => "ln",
            FunctionName::Log => "log",
            FunctionName::Sec => "sec",
            FunctionName::Sin => "sin",
            FunctionName::Sinh => "sinh",
            FunctionName::Tan => "tan",
            FunctionName::Tanh => "tanh",
            FunctionName::WeierstrassP => "℘",
        }
    }
}
