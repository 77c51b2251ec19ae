//! The names of elements, by what an element may hold.
ghost use Rattle.std.specs.Prelude.{◌≡◌, ◌++◌, OnOk, codes, string_bytes};
ghost use Rattle.latex2mathml_elements.specs.Print.{container_name, end_tag, pair_name, token_name, triple_name};
ghost use Rattle.latex2mathml_attributes.specs.Names.{container_of, pair_of, token_of, triple_of};

use std::alloc::AllocError;

/// The elements that hold a text.
#[derive(Debug, Clone, Copy)]
pub enum Token {
    Mi,
    Mn,
    Mo,
    Mtext,
}

/// The elements that hold any number of elements.
#[derive(Debug, Clone, Copy)]
pub enum Container {
    Mrow,
    Msqrt,
    Mstyle,
}

/// The elements that hold two elements.
#[derive(Debug, Clone, Copy)]
pub enum Pair {
    Mfrac,
    Mroot,
    Msub,
    Msup,
    Munder,
    Mover,
}

/// The elements that hold three elements.
#[derive(Debug, Clone, Copy)]
pub enum Triple {
    Msubsup,
    Munderover,
}

impl Token {
    /// Returns the beginning of the start tag: `<` and the name.
    pub fn start(self) -> &'static str
        ensures { result.now ≡ codes "<" ++ token_name (token_of self) }
    {
        match self {
            Token::Mi => "<mi",
            Token::Mn => "<mn",
            Token::Mo => "<mo",
            Token::Mtext => "<mtext",
        }
    }

    /// Returns the end tag.
    pub fn end(self) -> &'static str
        ensures { result.now ≡ end_tag (token_name (token_of self)) }
    {
        match self {
            Token::Mi => "</mi>",
            Token::Mn => "</mn>",
            Token::Mo => "</mo>",
            Token::Mtext => "</mtext>",
        }
    }
}

impl Container {
    /// Returns the beginning of the start tag: `<` and the name.
    pub fn start(self) -> &'static str
        ensures { result.now ≡ codes "<" ++ container_name (container_of self) }
    {
        match self {
            Container::Mrow => "<mrow",
            Container::Msqrt => "<msqrt",
            Container::Mstyle => "<mstyle",
        }
    }

    /// Appends the start tag without attributes. Each is a text of its own, of a length that is known. Inlined, this would be one of
    /// many branches of its caller, which the compiler takes for rare, and the text would be copied by a call.
    #[inline(never)]
    pub fn append_start_tag(self, out: &mut String) -> Result<(), AllocError>
        ensures { OnOk result (string_bytes out.new ≡ string_bytes out.old
            ++ ((codes "<" ++ container_name (container_of self)) ++ codes ">")) }
    {
        match self {
            Container::Mrow => out.push_str("<mrow>"),
            Container::Msqrt => out.push_str("<msqrt>"),
            Container::Mstyle => out.push_str("<mstyle>"),
        }
    }

    /// Returns the end tag.
    pub fn end(self) -> &'static str
        ensures { result.now ≡ end_tag (container_name (container_of self)) }
    {
        match self {
            Container::Mrow => "</mrow>",
            Container::Msqrt => "</msqrt>",
            Container::Mstyle => "</mstyle>",
        }
    }
}

impl Pair {
    /// Returns the beginning of the start tag: `<` and the name.
    pub fn start(self) -> &'static str
        ensures { result.now ≡ codes "<" ++ pair_name (pair_of self) }
    {
        match self {
            Pair::Mfrac => "<mfrac",
            Pair::Mroot => "<mroot",
            Pair::Msub => "<msub",
            Pair::Msup => "<msup",
            Pair::Munder => "<munder",
            Pair::Mover => "<mover",
        }
    }

    /// Appends the start tag without attributes. Each is a text of its own, of a length that is known. Inlined, this would be one of
    /// many branches of its caller, which the compiler takes for rare, and the text would be copied by a call.
    #[inline(never)]
    pub fn append_start_tag(self, out: &mut String) -> Result<(), AllocError>
        ensures { OnOk result (string_bytes out.new ≡ string_bytes out.old
            ++ ((codes "<" ++ pair_name (pair_of self)) ++ codes ">")) }
    {
        match self {
            Pair::Mfrac => out.push_str("<mfrac>"),
            Pair::Mroot => out.push_str("<mroot>"),
            Pair::Msub => out.push_str("<msub>"),
            Pair::Msup => out.push_str("<msup>"),
            Pair::Munder => out.push_str("<munder>"),
            Pair::Mover => out.push_str("<mover>"),
        }
    }

    /// Returns the end tag.
    pub fn end(self) -> &'static str
        ensures { result.now ≡ end_tag (pair_name (pair_of self)) }
    {
        match self {
            Pair::Mfrac => "</mfrac>",
            Pair::Mroot => "</mroot>",
            Pair::Msub => "</msub>",
            Pair::Msup => "</msup>",
            Pair::Munder => "</munder>",
            Pair::Mover => "</mover>",
        }
    }
}

impl Triple {
    /// Returns the beginning of the start tag: `<` and the name.
    pub fn start(self) -> &'static str
        ensures { result.now ≡ codes "<" ++ triple_name (triple_of self) }
    {
        match self {
            Triple::Msubsup => "<msubsup",
            Triple::Munderover => "<munderover",
        }
    }

    /// Appends the start tag without attributes. Each is a text of its own, of a length that is known. Inlined, this would be one of
    /// many branches of its caller, which the compiler takes for rare, and the text would be copied by a call.
    #[inline(never)]
    pub fn append_start_tag(self, out: &mut String) -> Result<(), AllocError>
        ensures { OnOk result (string_bytes out.new ≡ string_bytes out.old
            ++ ((codes "<" ++ triple_name (triple_of self)) ++ codes ">")) }
    {
        match self {
            Triple::Msubsup => out.push_str("<msubsup>"),
            Triple::Munderover => out.push_str("<munderover>"),
        }
    }

    /// Returns the end tag.
    pub fn end(self) -> &'static str
        ensures { result.now ≡ end_tag (triple_name (triple_of self)) }
    {
        match self {
            Triple::Msubsup => "</msubsup>",
            Triple::Munderover => "</munderover>",
        }
    }
}
