//! Elements around one other element.
ghost use Rattle.std.specs.Prelude.{◌≡◌, ◌<◌, ◌++◌, OnOk, codes, pos, string_bytes};
ghost use Rattle.latex2mathml_elements.specs.Attributes.{boxed};
ghost use Rattle.latex2mathml_elements.specs.Colors.{color_code, hexadecimal, two_digits};
ghost use Rattle.latex2mathml_elements.specs.Extents.{length_if_any, length_text};
ghost use Rattle.latex2mathml_elements.specs.Print.{container_name, end_tag, start_tag};
ghost use Rattle.latex2mathml_attributes.specs.Arounds.{around_attributes, around_name, boxing_of, color_of};

use crate::extent::{append_if_any, append_length};
use std::alloc::AllocError;

/// A color: how much of each primary color there is.
#[derive(Debug, Clone, Copy)]
pub struct Color {
    pub red: u8,
    pub green: u8,
    pub blue: u8,
}

/// A change to the box around an element.
#[derive(Debug, Clone, Copy)]
pub enum Boxing {
    NoWidth,
    /// No height above the line and no depth below it.
    Flat,
    NoHeight,
    NoDepth,
    /// The box is moved to the left, by its width.
    ByItsWidth,
    /// The box is moved to the left, by half its width.
    ByHalfItsWidth,
    /// The box has a line around it.
    Framed,
    /// A line crosses the box from its lower left.
    StruckUp,
    /// A line crosses the box from its upper left.
    StruckDown,
    /// Both lines cross the box.
    StruckTwice,
}

/// What an element does with the one in it.
#[derive(Debug, Clone, Copy)]
pub enum Around {
    /// The inner element is invisible.
    Unseen,
    Boxed(Boxing),
    /// The inner element is raised above its place by this number of thousandths of an em.
    Raised(i32),
    Colored(Color),
    /// The letters of the inner element are this number of thousandths as large as those around it.
    Scaled(u16),
    /// The inner element has this background color.
    Before(Color),
}

impl Boxing {
    /// Returns the start tag.
    fn start_tag(self) -> &'static str
        ensures { result.now ≡ start_tag (codes "mpadded") (boxed (boxing_of self)) }
    {
        match self {
            Boxing::NoWidth => "<mpadded width=\"0\">",
            Boxing::Flat => "<mpadded height=\"0\" depth=\"0\">",
            Boxing::NoHeight => "<mpadded height=\"0\">",
            Boxing::NoDepth => "<mpadded depth=\"0\">",
            Boxing::ByItsWidth => "<mpadded style=\"transform: translateX(-100%)\">",
            Boxing::ByHalfItsWidth => "<mpadded style=\"transform: translateX(-50%)\">",
            Boxing::Framed => "<mpadded style=\"border: thin solid; padding: 0.3em\">",
            Boxing::StruckUp =>
                "<mpadded style=\"background: linear-gradient(to top left, transparent calc(50% - 0.04em), currentcolor, transparent calc(50% + 0.04em))\">",
            Boxing::StruckDown =>
                "<mpadded style=\"background: linear-gradient(to top right, transparent calc(50% - 0.04em), currentcolor, transparent calc(50% + 0.04em))\">",
            Boxing::StruckTwice =>
                "<mpadded style=\"background: linear-gradient(to top left, transparent calc(50% - 0.04em), currentcolor, transparent calc(50% + 0.04em)), linear-gradient(to top right, transparent calc(50% - 0.04em), currentcolor, transparent calc(50% + 0.04em))\">",
        }
    }
}

impl Around {
    /// Appends the start tag.
    pub fn append_start(self, out: &mut String) -> Result<(), AllocError>
        ensures { OnOk result (string_bytes out.new
            ≡ string_bytes out.old
            ++ start_tag (container_name (around_name self)) (around_attributes self)) }
    {
        match self {
            Around::Unseen => {
                out.push_str("<mphantom>")?;
                Ok(())
            }
            Around::Boxed(boxing) => {
                out.push_str(boxing.start_tag())?;
                Ok(())
            }
            Around::Raised(length) => append_raised(length, out),
            Around::Colored(color) => append_colored("<mstyle mathcolor=\"", color, out),
            Around::Scaled(scale) => append_scaled(scale, out),
            Around::Before(color) => append_colored("<mpadded mathbackground=\"", color, out),
        }
    }

    /// Returns the end tag.
    pub fn end(self) -> &'static str
        ensures { result.now ≡ end_tag (container_name (around_name self)) }
    {
        match self {
            Around::Unseen => "</mphantom>",
            Around::Colored(_) | Around::Scaled(_) => "</mstyle>",
            Around::Boxed(_) | Around::Raised(_) | Around::Before(_) => "</mpadded>",
        }
    }
}

/// Appends the start tag of an element that raises its child by this length.
fn append_raised(length: i32, out: &mut String) -> Result<(), AllocError>
    ensures { OnOk result (string_bytes out.new ≡ string_bytes out.old
        ++ (codes "<mpadded" ++ (length_if_any (codes "voffset") length ++ codes ">"))) }
{
    out.push_str("<mpadded")?;
    append_if_any(" voffset=\"", length, out)?;
    out.push_str(">")?;
    Ok(())
}

/// Appends the start tag of an element whose letters are this number of thousandths as large as those around it.
fn append_scaled(scale: u16, out: &mut String) -> Result<(), AllocError>
    ensures { OnOk result (string_bytes out.new ≡ string_bytes out.old
        ++ (codes "<mstyle" ++ (length_text (codes "mathsize") (pos scale) ++ codes ">"))) }
{
    out.push_str("<mstyle")?;
    append_length(" mathsize=\"", i32::from(scale), out)?;
    out.push_str(">")?;
    Ok(())
}

/// Appends a start tag: `beginning`, then the color as the value of the last attribute.
fn append_colored(beginning: &'static str, color: Color, out: &mut String) -> Result<(), AllocError>
    ensures { OnOk result (string_bytes out.new ≡ string_bytes out.old
        ++ (beginning.now ++ (color_code (color_of color) ++ codes "\">"))) }
{
    out.push_str(beginning)?;
    out.push_str("#")?;
    append_two_digits(color.red, out)?;
    append_two_digits(color.green, out)?;
    append_two_digits(color.blue, out)?;
    out.push_str("\">")?;
    Ok(())
}

/// Appends a byte as two hexadecimal digits.
fn append_two_digits(byte: u8, out: &mut String) -> Result<(), AllocError>
    ensures { OnOk result (string_bytes out.new ≡ string_bytes out.old ++ two_digits byte) }
{
    out.push(hexadecimal(byte / 16))?;
    out.push(hexadecimal(byte % 16))?;
    Ok(())
}

/// Returns a hexadecimal digit.
fn hexadecimal(digit: u8) -> char
    requires { digit < 16 }
    ensures value { result ≡ hexadecimal digit }
    ensures ascii { result < 128 }
{
    if digit < 10 {
        char::from(b'0' + digit)
    } else {
        char::from(b'a' + (digit - 10))
    }
}
