//! Rectangles and lengths.
ghost use Rattle.std.specs.Prelude.{◌≡◌, ℕ, List, ◌++◌, MatchOption, OnOk, codes, string_bytes, unsigned_abs};
ghost use Rattle.std.specs.Bool.{⊤};
ghost use Rattle.latex2mathml_elements.specs.Extents;
ghost use Rattle.latex2mathml_elements.specs.Extents.{ems, extent_text, length_if_any, wide};
ghost use Rattle.latex2mathml_trees.specs.Width.{thousandths_text};
ghost use Rattle.latex2mathml_elements.specs.Tables.{line_as};
ghost use Rattle.latex2mathml_attributes.specs.{Arounds.extent_of, Lines.line_of};

use crate::line::Line;
use std::alloc::AllocError;

/// The width, height and depth of a rectangle, in thousandths of an em.
#[derive(Debug, Clone, Copy)]
pub struct Extent {
    pub width: i32,
    /// Above the line.
    pub height: i32,
    /// Below the line.
    pub depth: i32,
    pub is_black: bool,
}

impl Extent {
    /// Returns an empty rectangle with a width only.
    pub fn wide(width: i32) -> Extent
        ensures { extent_of result ≡ wide width }
    {
        Extent {
            width,
            height: 0,
            depth: 0,
            is_black: false,
        }
    }

    /// Returns the line that the rectangle is among the rows of a table.
    pub fn line(self) -> Line
        ensures { line_of result ≡ line_as self.is_black self.height }
    {
        match (self.is_black, self.height) {
            (false, _) => Line::Dashes,
            (true, 0) => Line::One,
            (true, _) => Line::Two,
        }
    }

    /// Appends the attributes.
    pub fn append(self, out: &mut String) -> Result<(), AllocError>
        ensures { OnOk result (string_bytes out.new
            ≡ string_bytes out.old ++ extent_text (extent_of self)) }
    {
        append_length(width_start(self.width), self.width, out)?;
        append_if_any(" height=\"", self.height, out)?;
        append_if_any(" depth=\"", self.depth, out)?;
        if self.is_black {
            out.push_str(" mathbackground=\"black\"")?;
        }
        Ok(())
    }
}

/// Returns the beginning of the attribute for a width. What has a negative width moves what follows it back.
pub fn width_start(width: i32) -> &'static str
    ensures { result.now ≡ Extents.width_start width }
{
    if width < 0 {
        " style=\"margin-left: "
    } else {
        " width=\""
    }
}

/// Appends the beginning of an attribute and its length, unless the length is zero.
pub fn append_if_any(
    beginning: &'static str,
    length: i32,
    out: &mut String,
) -> Result<(), AllocError>
    ensures { (name : List ℕ) → beginning.now ≡ codes " " ++ (name ++ codes "=\"")
        → OnOk result (string_bytes out.new ≡ string_bytes out.old ++ length_if_any name length) }
{
    if length == 0 {
        return Ok(());
    }
    append_length(beginning, length, out)
}

/// Appends the beginning of an attribute, then its length and the closing quotation mark.
pub(crate) fn append_length(
    beginning: &'static str,
    length: i32,
    out: &mut String,
) -> Result<(), AllocError>
    ensures { OnOk result (string_bytes out.new
        ≡ string_bytes out.old ++ (beginning.now ++ (ems length ++ codes "em\""))) }
{
    out.push_str(beginning)?;
    append_ems(length, out)?;
    out.push_str("em\"")?;
    Ok(())
}

/// Appends a length in ems.
fn append_ems(length: i32, out: &mut String) -> Result<(), AllocError>
    ensures { OnOk result (string_bytes out.new ≡ string_bytes out.old ++ ems length) }
{
    if let Some(text) = usual_ems(length) {
        return out.push_str(text);
    }
    if length < 0 {
        out.push_str("-")?;
    }
    append_thousandths(length.unsigned_abs(), out)
}

/// Returns how a length is written in ems, if it is zero, a length of a strut or a usual width of a delimiter. Formatting each of
/// these anew would take most of the time for the rows of tables.
fn usual_ems(length: i32) -> Option<&'static str>
    ensures { MatchOption result ⊤ (λ text. text.now ≡ ems length) }
{
    match length {
        0 => Some("0"),
        257 => Some("0.257"),
        360 => Some("0.36"),
        432 => Some("0.432"),
        472 => Some("0.472"),
        528 => Some("0.528"),
        597 => Some("0.597"),
        600 => Some("0.6"),
        611 => Some("0.611"),
        667 => Some("0.667"),
        736 => Some("0.736"),
        750 => Some("0.75"),
        840 => Some("0.84"),
        1008 => Some("1.008"),
        _ => None,
    }
}

/// Appends a number of thousandths as a decimal fraction, without zeros at its end.
fn append_thousandths(number: u32, out: &mut String) -> Result<(), AllocError>
    ensures { OnOk result (string_bytes out.new ≡ string_bytes out.old ++ thousandths_text number) }
{
    let whole = number / 1000;
    write!(out, "{whole}")?;
    let a = number % 1000 / 100 % 10;
    let b = number % 1000 / 10 % 10;
    let c = number % 1000 % 10;
    if c != 0 {
        write!(out, ".{a}{b}{c}")?;
    } else if b != 0 {
        write!(out, ".{a}{b}")?;
    } else if a != 0 {
        write!(out, ".{a}")?;
    }
    Ok(())
}
