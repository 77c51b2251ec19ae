//! How high atoms are.
ghost use Rattle.std.specs.Prelude.{◌≡◌};
ghost use Rattle.latex2mathml_attributes.specs.Names.{size_of};
ghost use Rattle.latex2mathml_tex_grammar.specs.Heights;
ghost use Rattle.latex2mathml_tex_commands.specs.Meanings.{style_of};
ghost use Rattle.latex2mathml_tex_atoms.specs.Models.{height_of, is_low};

use latex2mathml_attributes::attributes::Size;
use latex2mathml_tex_commands::meaning::Style;

/// How high an atom is. By this, the delimiters around it stretch and have room.
#[derive(Clone, Copy)]
pub enum Height {
    /// No taller than a letter: delimiters do not stretch.
    Low,
    /// As a letter with a superscript, or a fraction in a line of text. Delimiters have no more room than TeX's `\big`.
    Raised,
    /// Taller, as most other things are. Delimiters have no more room than TeX's `\Big`.
    Tall,
    /// As a fraction or an integral in a block, or two rows. Delimiters have no more room than TeX's `\bigg`.
    Taller,
    /// As a sum with limits in a block, or more rows. Delimiters have all room.
    VeryTall,
}

impl Height {
    /// Returns the larger one of two heights.
    #[inline(always)]
    pub fn larger(self, other: Height) -> Height
        ensures { height_of result ≡ Heights.larger (height_of self) (height_of other) }
    {
        match (self, other) {
            (Height::Low, other) => other,
            (height, Height::Low) => height,
            (Height::VeryTall, _) | (_, Height::VeryTall) => Height::VeryTall,
            (Height::Taller, _) | (_, Height::Taller) => Height::Taller,
            (Height::Tall, _) | (_, Height::Tall) => Height::Tall,
            (Height::Raised, Height::Raised) => Height::Raised,
        }
    }

    /// Returns the height of a fraction in this style.
    pub fn of_fraction(style: Style) -> Height
        ensures { height_of result ≡ Heights.fraction_height (style_of style) }
    {
        match style {
            Style::InDisplay => Height::Taller,
            Style::InText | Style::InScript => Height::Raised,
        }
    }

    /// Returns the height of an integral without limits in this style.
    pub fn of_integral(style: Style) -> Height
        ensures { height_of result ≡ Heights.integral_height (style_of style) }
    {
        match style {
            Style::InDisplay => Height::Taller,
            Style::InText | Style::InScript => Height::Tall,
        }
    }

    /// Returns the height of a delimiter of this size.
    pub fn of_size(size: Size) -> Height
        ensures { height_of result ≡ Heights.sized_height (size_of size) }
    {
        match size {
            Size::Big => Height::Raised,
            Size::Bigger => Height::Tall,
            Size::VeryBig => Height::Taller,
            Size::Biggest => Height::VeryTall,
        }
    }

    /// Returns the height of a base of this height in this style with limits above and below it.
    pub fn stacked(self, style: Style) -> Height
        ensures { height_of result ≡ Heights.stacked_height (style_of style) (height_of self) }
    {
        match (style, self) {
            (_, Height::Low) => Height::Tall,
            (Style::InDisplay, _) => Height::VeryTall,
            (Style::InText | Style::InScript, _) => Height::Tall,
        }
    }

    /// Returns the height of a script that is this high at the size of the base.
    pub fn as_script(self) -> Height
        ensures { height_of result ≡ Heights.script_height (height_of self) }
    {
        match self {
            Height::Low => Height::Low,
            _ => Height::Raised,
        }
    }

    /// Whether it is no taller than a letter.
    pub fn is_low(self) -> bool
        ensures { result ≡ is_low (height_of self) }
    {
        matches!(self, Height::Low)
    }
}
