//! Markup of characters and names, as it is written.
ghost use Rattle.std.specs.Prelude.{◌≡◌, ◌++◌, IfSome, codes};
ghost use Rattle.latex2mathml_trees.specs.Print.{print};
ghost use Rattle.latex2mathml_trees.specs.Tree.{function, letter, space};
ghost use Rattle.latex2mathml_tokens.specs.{Attributes.accent_text, Attributes.variant_text, Escape.value};
ghost use Rattle.latex2mathml_tokens.specs.Names.{function_text, limit_text, size_text};
ghost use Rattle.latex2mathml_tokens.specs.declared.attribute.Variant.TheVariants.{Italic};

use latex2mathml_tokens::attribute::{Accent, Variant};
use latex2mathml_tokens::names::{FunctionName, LimitName, Size};

/// The element of a character or a number between two texts, if it is one of these. Some are written as another text.
macro_rules! elements {
    ($c:ident, $before:literal, $after:literal, $($char:literal)* $(; $escaped:literal => $text:literal)*) => {
        match $c {
            $($char => Some(concat!($before, $char, $after)),)*
            $($escaped => Some(concat!($before, $text, $after)),)*
            _ => None,
        }
    };
}

/// The text of a variant between two texts.
macro_rules! texts {
    ($value:ident, $before:literal, $after:literal, $of:ident, $($variant:ident => $text:literal,)*) => {
        match $value {
            $($of::$variant => concat!($before, $text, $after),)*
        }
    };
}

/// Returns the markup of an italic letter that is a small Greek one.
#[tactic(auto, unfolding(crate::proofs::Encoding::encode_utf8))]
pub(crate) fn greek_markup(c: char) -> Option<&'static str>
    ensures { IfSome result (λ markup. markup.now ≡ print (letter c Italic)) }
{
    elements!(c, "<mi>", "</mi>",
        'α' 'β' 'γ' 'δ' 'ε' 'ζ' 'η' 'θ' 'ι' 'κ' 'λ' 'μ' 'ν' 'ξ' 'ο' 'π' 'ρ' 'ς' 'σ' 'τ'
        'υ' 'φ' 'χ' 'ψ' 'ω' 'ϑ' 'ϕ' 'ϖ' 'ϱ' 'ϵ'
    )
}

/// Returns the markup of a space whose width a command has.
#[tactic(auto, unfolding(crate::proofs::Encoding::digits))]
pub(crate) fn space_markup(width: i32) -> Option<&'static str>
    ensures { IfSome result (λ markup. markup.now ≡ print (space width)) }
{
    elements!(width, "<mspace width=\"", "em\"/>",;
        3 => "0.167"; 4 => "0.222"; 5 => "0.278"; 18 => "1"; 36 => "2"; -3 => "-0.167"
    )
}

/// Returns the tag before a letter that has this style.
pub(crate) fn letter_open(variant: Variant) -> &'static str
    ensures { result.now ≡ codes "<mi mathvariant=\"" ++ (variant_text variant ++ codes "\">") }
{
    texts!(variant, "<mi mathvariant=\"", "\">", Variant,
        Normal => "normal", Italic => "italic", Bold => "bold", BoldItalic => "bold-italic",
        DoubleStruck => "double-struck", BoldFraktur => "bold-fraktur", Script => "script",
        BoldScript => "bold-script", Fraktur => "fraktur", SansSerif => "sans-serif",
        BoldSansSerif => "bold-sans-serif", SansSerifItalic => "sans-serif-italic",
        SansSerifBoldItalic => "sans-serif-bold-italic", Monospace => "monospace",
    )
}

/// Returns the tag before a sign over a tree or under it.
pub(crate) fn sign_open(accent: Accent) -> &'static str
    ensures { result.now ≡ codes "<mo accent=\"" ++ (accent_text accent ++ codes "\">") }
{
    match accent {
        Accent::True => "<mo accent=\"true\">",
        Accent::False => "<mo accent=\"false\">",
    }
}

/// Returns the tag before a parenthesis of this size.
pub(crate) fn size_open(size: Size) -> &'static str
    ensures { result.now ≡ codes "<mrow><mo maxsize=\"" ++ (value (size_text size)
        ++ (codes "\" minsize=\"" ++ (value (size_text size) ++ codes "\">"))) }
{
    match size {
        Size::First => "<mrow><mo maxsize=\"1.2em\" minsize=\"1.2em\">",
        Size::Second => "<mrow><mo maxsize=\"1.623em\" minsize=\"1.623em\">",
        Size::Third => "<mrow><mo maxsize=\"2.047em\" minsize=\"2.047em\">",
        Size::Fourth => "<mrow><mo maxsize=\"2.470em\" minsize=\"2.470em\">",
    }
}

/// Returns the markup of the name of a function.
#[tactic(auto, unfolding(crate::proofs::Encoding::encode_utf8))]
pub(crate) fn function_markup(name: FunctionName) -> &'static str
    ensures { result.now ≡ print (function (function_text name)) }
{
    texts!(name, "<mi>", "</mi>", FunctionName,
        Arccos => "arccos", Arcsin => "arcsin", Arctan => "arctan", Arg => "arg", Cos => "cos", Cosh => "cosh",
        Cot => "cot", Coth => "coth", Csc => "csc", Det => "det", Dim => "dim", Erf => "erf", Erfc => "erfc",
        Exp => "exp", Ker => "ker", Ln => "ln", Log => "log", Sec => "sec", Sin => "sin", Sinh => "sinh",
        Tan => "tan", Tanh => "tanh", WeierstrassP => "℘",
    )
}

/// Returns the markup of the name of a function that takes a limit.
pub(crate) fn limit_markup(name: LimitName) -> &'static str
    ensures { result.now ≡ print (function (limit_text name)) }
{
    texts!(name, "<mi>", "</mi>", LimitName,
        Lim => "lim", LimInf => "lim inf", LimSup => "lim sup", Min => "min", Max => "max", Inf => "inf",
        Sup => "sup",
    )
}
