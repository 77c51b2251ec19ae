//! What the names of commands mean.
ghost use Rattle.std.specs.Prelude.{◌≡◌, ◌<◌, ◌≤◌};
ghost use Rattle.latex2mathml_attributes.specs.Names.{math_style_of};
ghost use Rattle.latex2mathml_tex_grammar.specs.Makes;
ghost use Rattle.latex2mathml_tex_grammar.specs.Symbols.{at_full_size, is_script, scale_between, smaller, thousandths};
ghost use Rattle.latex2mathml_tex_commands.specs.Meanings.{limit_place_of, style_of, text_size_of};

use latex2mathml_attributes::around::Color;
use latex2mathml_attributes::attributes::{MathStyle, Side, Size, Stretch};

/// The class of an atom.
#[derive(Clone, Copy)]
pub enum Class {
    Ordinary,
    Operator,
    Binary,
    Relation,
    Opening,
    Closing,
    Punctuation,
    Inner,
}

/// The style of a formula.
#[derive(Clone, Copy)]
pub enum Style {
    InDisplay,
    InText,
    InScript,
}

impl Style {
    /// Returns the style of the parts of a fraction.
    pub fn smaller(self) -> Style
        ensures { style_of result ≡ smaller (style_of self) }
    {
        match self {
            Style::InDisplay => Style::InText,
            Style::InText | Style::InScript => Style::InScript,
        }
    }

    /// Whether letters in this style are smaller than their size says.
    pub fn is_script(self) -> bool
        ensures { result ≡ is_script (style_of self) }
    {
        matches!(self, Style::InScript)
    }

    /// Returns the style in which letters have their size, where they were in this style.
    pub fn at_full_size(self) -> Style
        ensures { style_of result ≡ at_full_size (style_of self) }
    {
        if self.is_script() {
            return Style::InText;
        }
        self
    }

    pub fn is_display(self) -> bool
        ensures { result ≡ Makes.is_display (style_of self) }
    {
        matches!(self, Style::InDisplay)
    }

    /// Returns the math style of an element of this style.
    pub fn math_style(self) -> MathStyle
        ensures { math_style_of result ≡ Makes.math_style (style_of self) }
    {
        match self {
            Style::InDisplay => MathStyle::Display,
            Style::InText => MathStyle::Text,
            Style::InScript => MathStyle::Script,
        }
    }

    /// Whether scripts are below and above an atom whose limits have this place.
    pub fn stacks(self, limits: LimitPlace) -> bool
        ensures { result ≡ Makes.are_stacked (style_of self) (limit_place_of limits) }
    {
        match limits {
            LimitPlace::Beside => false,
            LimitPlace::ByStyle => self.is_display(),
            LimitPlace::Movable | LimitPlace::Stacked => true,
        }
    }

    /// Whether scripts are drawn below and above an atom whose limits have this place. Except in a block, the browser moves those of a
    /// movable sign beside it.
    pub fn draws_stacked(self, limits: LimitPlace) -> bool
        ensures { result ≡ Makes.are_drawn_stacked (style_of self) (limit_place_of limits) }
    {
        match limits {
            LimitPlace::Beside => false,
            LimitPlace::ByStyle | LimitPlace::Movable => self.is_display(),
            LimitPlace::Stacked => true,
        }
    }
}

/// How large letters are, by TeX's names. The usual size is that of the text around the formula.
#[derive(Clone, Copy)]
pub enum TextSize {
    Tiny,
    SixPoint,
    ScriptSize,
    FootnoteSize,
    Small,
    NormalSize,
    Large,
    VeryLarge,
    ExtraLarge,
    Huge,
    VeryHuge,
}

impl TextSize {
    /// Returns the size in thousandths of the usual one.
    fn thousandths(self) -> u16
        ensures size { result ≡ thousandths (text_size_of self) }
        ensures some { 0 < result }
        ensures few { result < 2500 }
        ensures many { 500 ≤ result }
    {
        match self {
            TextSize::Tiny => 500,
            TextSize::SixPoint => 600,
            TextSize::ScriptSize => 700,
            TextSize::FootnoteSize => 800,
            TextSize::Small => 900,
            TextSize::NormalSize => 1000,
            TextSize::Large => 1200,
            TextSize::VeryLarge => 1440,
            TextSize::ExtraLarge => 1728,
            TextSize::Huge => 2074,
            TextSize::VeryHuge => 2488,
        }
    }

    /// Returns how many thousandths of another size this one is, if they differ.
    pub fn scale_of(self, other: TextSize) -> Option<u16>
        ensures { result ≡ scale_between (text_size_of self) (text_size_of other) }
    {
        let scale = 1000 * u32::from(self.thousandths()) / u32::from(other.thousandths());
        if scale == 1000 {
            return None;
        }
        Some(scale as u16)
    }
}

/// An alphabet for letters and digits.
#[derive(Clone, Copy)]
pub enum Alphabet {
    Upright,
    /// Upright as well, in the name of an operator.
    Named,
    Italic,
    Bold,
    BoldItalic,
    DoubleStruck,
    Fraktur,
    Calligraphic,
    SansSerif,
    Monospace,
}

/// What a character is.
#[derive(Clone, Copy)]
pub enum Symbol {
    /// A letter that is italic by itself.
    Letter(char),
    /// A letter that is upright by itself.
    UprightLetter(char),
    /// A sign of this class.
    Sign(Class, char),
    /// An operator whose limits the browser moves.
    BigOperator(char),
    /// An operator whose limits are next to it.
    Integral(char),
}

/// Whether a fraction has its bar, or has none and is surrounded by parentheses, braces, brackets or nothing.
#[derive(Clone, Copy)]
pub enum FractionRule {
    Bar,
    NoBar,
    Braced,
    Bracketed,
    Bare,
}

/// Where the limits of an operator are.
#[derive(Clone, Copy)]
pub enum LimitPlace {
    Beside,
    /// In display style above and below it, otherwise next to it.
    ByStyle,
    /// Above and below it; in text, the browser moves them next to it.
    Movable,
    /// Always above and below it.
    Stacked,
}

/// What a command changes up to the end of its group.
#[derive(Clone, Copy)]
pub enum Change {
    /// Letters and digits are in an alphabet.
    ToAlphabet(Alphabet),
    /// Everything is in a style.
    ToStyle(Style),
    /// Letters are of a size.
    ToSize(TextSize),
    /// Everything is the lower part of a fraction, and what precedes it is the upper one.
    Divides(FractionRule),
    /// Everything is in the color that comes next.
    ToColor,
}

/// What is done to the box of an operand.
#[derive(Clone, Copy)]
pub enum OperandBox {
    /// It is invisible.
    Phantom,
    /// It is invisible, and its box has no height and no depth.
    PhantomWidth,
    /// It is invisible, and its box has no width.
    PhantomHeight,
    /// It has no height and no depth.
    Smashed,
    WithoutHeight,
    WithoutDepth,
    /// It has no width, and reaches over what is to the right of it.
    OverRight,
    /// It has no width, and reaches over what is to the left of it.
    OverLeft,
    /// It has no width, and reaches over what is on both sides of it.
    OverBoth,
    /// A line surrounds it.
    Frame,
    /// A line goes through it, from its lower left.
    StrikeUp,
    /// A line goes through it, from its upper left.
    StrikeDown,
    /// Both lines go through it.
    StrikeTwice,
    /// It is raised by this many thousandths of an em.
    Raised(i32),
    /// It is in this color.
    Colored(Color),
    /// It is on a background of this color.
    OnColor(Color),
}

/// What a command means.
#[derive(Clone, Copy)]
pub enum Meaning {
    /// A character.
    Shows(Symbol),
    /// The name of a function.
    FunctionName(LimitPlace, &'static str),
    /// Dots, in the middle of the line before an operator or a relation, otherwise on the line.
    Dots,
    /// Dots in the middle of the line.
    CenteredDots,
    /// The dots of a column, with space above them.
    VerticalDots,
    /// A long arrow with a thick space at each side.
    Implication(char),
    /// A space, in eighteenths of an em.
    Spacing(i8),
    /// A space as wide as the length that comes next.
    Skip,
    /// A space as wide as the length that comes next in braces.
    SkipInBraces,
    /// Its operand in a box.
    Boxed(OperandBox),
    /// Its operand in a box without height or depth.
    Smash,
    /// Its operand, raised by the length that comes next in braces.
    Raise,
    /// Its operand in the color that comes next.
    InColor,
    /// Its operand on a background of the color that comes next.
    Highlight,
    /// A black rectangle of two lengths in braces. A length in brackets before them raises it.
    Rectangle,
    /// An arrow that is as long as what is above it, and what is below it in brackets.
    Arrow(char),
    /// Its operand in an alphabet.
    Styled(Alphabet),
    /// Words, which may have an alphabet.
    Words(Option<Alphabet>),
    /// A fraction, which may have a style of its own.
    Fraction(FractionRule, Option<Style>),
    /// A fraction in the style of a block, whose numerator may be pushed to a side.
    ContinuedFraction,
    /// A fraction whose delimiters, line and style its author specifies.
    GeneralFraction,
    Root,
    /// A mark on one operand.
    Accent(Side, char, Stretch),
    /// A brace, which takes scripts as labels.
    Brace(Side, char),
    /// The first of four operands in the style of a block, the second in that of a line, and the third in scripts.
    Choice,
    /// A first operand above or below the second.
    Stack(Side),
    /// A first operand above the second, which together are a relation.
    StackedRelation,
    OperatorName,
    /// A stroke through the relation that follows.
    Negation,
    /// A stroke through an operand.
    Slash,
    /// A delimiter of this size and class.
    Sized(Size, Class),
    Left,
    Middle,
    Right,
    Limits,
    NoLimits,
    /// Its operand as an atom of this class.
    Classed(Class),
    /// A change of what follows it in its group.
    Changes(Change),
    /// The beginning of a table.
    BeginTable,
    /// The end of a table.
    EndTable,
    /// What ends a row of a table.
    LineBreak,
    /// Rows in braces.
    Substack,
}

/// The name of a command, without its backslash, and what it means.
#[derive(Clone, Copy)]
pub struct Entry {
    pub name: &'static str,
    /// The name's first eight bytes as a number. Numbers compare faster than texts.
    pub key: u64,
    pub meaning: Meaning,
}
