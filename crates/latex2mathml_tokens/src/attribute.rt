//! The values of the attributes in markup.
ghost use Rattle.std.specs.Prelude.{Some};
ghost use Rattle.latex2mathml_tokens.specs.Attributes.{accent_text, align_text, thickness_text, variant_text};

use std::fmt;

/// The style of a letter.
#[derive(Debug, Clone, Copy, PartialEq)]
pub enum Variant {
    Normal,
    Italic,
    Bold,
    BoldItalic,
    DoubleStruck,
    BoldFraktur,
    Script,
    BoldScript,
    Fraktur,
    SansSerif,
    BoldSansSerif,
    SansSerifItalic,
    SansSerifBoldItalic,
    Monospace,
}

/// Prints the value of `mathvariant`, such as `bold-italic`.
impl fmt::Display for Variant {
    ghost output = { λ variant. Some (variant_text variant) };

    fn fmt<W: fmt::Write>(&self, f: &mut fmt::Formatter<W>) -> fmt::Result {
        f.write_str(match self {
            Variant::Normal => "normal",
            Variant::Italic => "italic",
            Variant::Bold => "bold",
            Variant::BoldItalic => "bold-italic",
            Variant::DoubleStruck => "double-struck",
            Variant::BoldFraktur => "bold-fraktur",
            Variant::Script => "script",
            Variant::BoldScript => "bold-script",
            Variant::Fraktur => "fraktur",
            Variant::SansSerif => "sans-serif",
            Variant::BoldSansSerif => "bold-sans-serif",
            Variant::SansSerifItalic => "sans-serif-italic",
            Variant::SansSerifBoldItalic => "sans-serif-bold-italic",
            Variant::Monospace => "monospace",
        })
    }
}

/// Whether a sign over or under a letter is its accent.
#[derive(Debug, Clone, Copy, PartialEq)]
pub enum Accent {
    True,
    False,
}

/// Prints the value of `accent`: `true` or `false`.
impl fmt::Display for Accent {
    ghost output = { λ accent. Some (accent_text accent) };

    fn fmt<W: fmt::Write>(&self, f: &mut fmt::Formatter<W>) -> fmt::Result {
        f.write_str(match self {
            Accent::True => "true",
            Accent::False => "false",
        })
    }
}

/// How thick the line of a fraction is.
#[derive(Debug, Clone, Copy, PartialEq)]
pub enum LineThickness {
    Thin,
    Medium,
    Thick,
    /// A number without a unit: a multiple of the medium thickness. At 0 there is no line.
    Length(u8),
}

/// Prints the whole attribute with a space before it, such as ` linethickness="thick"`. `Medium` is the browser's default
/// and prints nothing.
impl fmt::Display for LineThickness {
    ghost output = { λ thickness. Some (thickness_text thickness) };

    fn fmt<W: fmt::Write>(&self, f: &mut fmt::Formatter<W>) -> fmt::Result {
        match self {
            LineThickness::Thin => f.write_str(" linethickness=\"thin\""),
            LineThickness::Medium => Ok(()),
            LineThickness::Thick => f.write_str(" linethickness=\"thick\""),
            LineThickness::Length(length) => write!(f, " linethickness=\"{length}\""),
        }
    }
}

/// How the columns of a table are aligned.
#[derive(Debug, Clone, Copy, PartialEq, Eq)]
pub enum ColumnAlign {
    Center,
    Left,
    Right,
}

/// Prints the whole attribute with a space before it, such as ` columnalign="left"`. `Center` is the browser's default and
/// prints nothing.
impl fmt::Display for ColumnAlign {
    ghost output = { λ align. Some (align_text align) };

    fn fmt<W: fmt::Write>(&self, f: &mut fmt::Formatter<W>) -> fmt::Result {
        f.write_str(match self {
            ColumnAlign::Center => "",
            ColumnAlign::Left => " columnalign=\"left\"",
            ColumnAlign::Right => " columnalign=\"right\"",
        })
    }
}
