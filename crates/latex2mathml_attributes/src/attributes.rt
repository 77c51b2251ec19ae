//! The attributes of elements.
ghost use Rattle.std.specs.Prelude.{◌≡◌, ◌++◌, true, IfSome, OnOk, Some, codes, option_map, string_bytes};
ghost use Rattle.latex2mathml_elements.specs.Attributes.{AtMost, plain, styled};
ghost use Rattle.latex2mathml_elements.specs.Print.{accent_text, attributes_text, boxing_text, form_text, if_so, size_text, space_text, start_tag, stretch_text, style_text};
ghost use Rattle.latex2mathml_attributes.specs.Names.{attributes_if_any, attributes_of, boxing_in, form_of, math_style_of, box_style_of, side_of, size_of, space_of, stretch_of};

use crate::extent::append_length;
use std::alloc::AllocError;

/// The side of its base on which a mark is.
#[derive(Debug, Clone, Copy)]
pub enum Side {
    Above,
    Below,
}

/// The position of an operator among other elements.
#[derive(Debug, Clone, Copy)]
pub enum Form {
    Prefix,
    Infix,
    Postfix,
}

/// Whether an operator grows as high or as wide as what is next to it.
#[derive(Debug, Clone, Copy)]
pub enum Stretch {
    Stretching,
    Rigid,
}

/// The space at the sides of an operator.
#[derive(Debug, Clone, Copy)]
pub enum Space {
    NoSpace,
    /// A twentieth of an em on both sides.
    Narrow,
    /// TeX's medium space on both sides: four eighteenths of an em.
    Medium,
    /// TeX's thick space on both sides: five eighteenths of an em.
    Thick,
    /// No space before it. The browser decides what follows it.
    NoSpaceBefore,
    /// No space before it, and the width of a null delimiter of TeX after it: twelve hundredths of an em.
    NullDelimiterAfter,
    /// No space before it, and a thin space after it: three eighteenths of an em.
    ThinAfter,
    /// No space before it, and a thick space after it.
    ThickAfter,
    /// No space after it. The browser decides what precedes it.
    NoSpaceAfter,
    /// A thick space before it, and no space after it.
    ThickBefore,
}

/// The height of a delimiter.
#[derive(Debug, Clone, Copy)]
pub enum Size {
    Big,
    Bigger,
    VeryBig,
    Biggest,
}

/// The style of a formula.
#[derive(Debug, Clone, Copy)]
pub enum MathStyle {
    /// Displayed.
    Display,
    /// In a line of text.
    Text,
    /// As small as a script.
    Script,
}

/// A change to the box of an element, or to what is in it, that MathML has no attribute for.
#[derive(Debug, Clone, Copy)]
pub enum BoxStyle {
    /// The space of TeX's null delimiters is at the sides of a fraction.
    NullDelimiters,
    /// The space by which an arrow is longer than its label is at the sides of the label.
    ArrowLabel,
    /// A sign that stretches is drawn where it goes beyond its box, too.
    Unclipped,
    /// A text is in a font whose characters are all of one width.
    Monospaced,
}

/// The attributes of an element. Where one is missing, the browser decides.
#[derive(Debug, Clone, Copy)]
pub struct Attributes {
    /// A single letter that is not italic.
    pub upright: bool,
    pub form: Option<Form>,
    pub stretch: Option<Stretch>,
    /// A delimiter within others.
    pub fence: bool,
    /// A sign of punctuation.
    pub separator: bool,
    pub size: Option<Size>,
    pub space: Option<Space>,
    /// Limits stay above and below in every style.
    pub limits_stay: bool,
    /// A sign that is no larger in the style of a block.
    pub keeps_size: bool,
    pub accent: Option<Side>,
    /// A fraction without its line.
    pub no_line: bool,
    /// The style of what is in it, whatever the style around it is.
    pub style: Option<MathStyle>,
    pub box_style: Option<BoxStyle>,
    /// How wide it is at most, in thousandths of an em, if its box has no other style.
    pub room: Option<u16>,
}

impl Attributes {
    /// Returns no attributes.
    pub fn plain() -> Attributes
        ensures { attributes_of result ≡ plain }
    {
        Attributes {
            upright: false,
            form: None,
            stretch: None,
            fence: false,
            separator: false,
            size: None,
            space: None,
            limits_stay: false,
            keeps_size: false,
            accent: None,
            no_line: false,
            style: None,
            box_style: None,
            room: None,
        }
    }

    /// Returns the attributes of a single letter that is not italic.
    pub fn upright() -> Attributes
        ensures { attributes_of result ≡ record plain { upright = true } }
    {
        Attributes {
            upright: true,
            ..Attributes::plain()
        }
    }

    /// Returns the attributes of an element with this style of its own, if any.
    pub fn styled(style: Option<MathStyle>) -> Attributes
        ensures { attributes_of result ≡ styled (option_map math_style_of style) }
    {
        Attributes {
            style,
            ..Attributes::plain()
        }
    }

    /// Returns these attributes, or `None` if there are none.
    #[inline(always)]
    pub fn if_any(self) -> Option<Attributes>
        ensures { attributes_if_any result ≡ attributes_of self }
    {
        match self {
            Attributes {
                upright: false,
                form: None,
                stretch: None,
                fence: false,
                separator: false,
                size: None,
                space: None,
                limits_stay: false,
                keeps_size: false,
                accent: None,
                no_line: false,
                style: None,
                box_style: None,
                room: None,
            } => None,
            attributes => Some(attributes),
        }
    }

    /// Returns the start tag of an operator with these attributes, if it is one of those that most formulas have. It is one text,
    /// and takes less time than its pieces.
    #[inline(always)]
    pub fn usual_operator(&self) -> Option<&'static str>
        ensures { IfSome result (λ tag. tag.now ≡ start_tag (codes "mo") (attributes_of self.now)) }
    {
        match *self {
            Attributes {
                upright: false,
                form,
                stretch,
                fence: false,
                separator: false,
                size: None,
                space,
                limits_stay: false,
                keeps_size: false,
                accent: None,
                no_line: false,
                style: None,
                box_style: None,
                room: None,
            } => usual_tag(form, stretch, space),
            _ => None,
        }
    }

    /// Appends the attributes, each after a space.
    pub fn append(self, out: &mut String) -> Result<(), AllocError>
        ensures { OnOk result (string_bytes out.new
            ≡ string_bytes out.old ++ attributes_text (attributes_of self)) }
    {
        append_some(text_if(self.upright, " mathvariant=\"normal\""), out)?;
        append_some(form_text(self.form), out)?;
        append_some(stretch_text(self.stretch), out)?;
        append_some(text_if(self.fence, " fence=\"true\""), out)?;
        append_some(text_if(self.separator, " separator=\"true\""), out)?;
        append_some(size_text(self.size), out)?;
        append_some(space_text(self.space), out)?;
        append_some(text_if(self.limits_stay, " movablelimits=\"false\""), out)?;
        append_some(text_if(self.keeps_size, " largeop=\"false\""), out)?;
        append_some(accent_text(self.accent), out)?;
        append_some(text_if(self.no_line, " linethickness=\"0\""), out)?;
        append_some(style_text(self.style), out)?;
        append_boxing(self.box_style, self.room, out)?;
        Ok(())
    }
}

/// Returns the start tag of an operator that has these attributes and no other, if it is one of those that most formulas have.
#[inline(always)]
fn usual_tag(
    form: Option<Form>,
    stretch: Option<Stretch>,
    space: Option<Space>,
) -> Option<&'static str>
    ensures { IfSome result (λ tag. tag.now ≡ codes "<mo"
        ++ (form_text (option_map form_of form) ++ (stretch_text (option_map stretch_of stretch)
        ++ (space_text (option_map space_of space) ++ codes ">")))) }
{
    match (form, stretch, space) {
        (None, None, Some(Space::NoSpace)) => Some("<mo lspace=\"0\" rspace=\"0\">"),
        (None, None, Some(Space::NoSpaceBefore)) => Some("<mo lspace=\"0\">"),
        (None, None, Some(Space::Medium)) => Some("<mo lspace=\"0.222em\" rspace=\"0.222em\">"),
        (None, Some(Stretch::Stretching), None) => Some("<mo stretchy=\"true\">"),
        (None, Some(Stretch::Rigid), None) => Some("<mo stretchy=\"false\">"),
        (None, Some(Stretch::Rigid), Some(Space::NoSpace)) => Some(
            "<mo stretchy=\"false\" lspace=\"0\" rspace=\"0\">",
        ),
        (Some(Form::Prefix), None, None) => Some("<mo form=\"prefix\">"),
        (Some(Form::Prefix), Some(Stretch::Stretching), None) => Some(
            "<mo form=\"prefix\" stretchy=\"true\">",
        ),
        (Some(Form::Prefix), Some(Stretch::Rigid), None) => Some(
            "<mo form=\"prefix\" stretchy=\"false\">",
        ),
        (Some(Form::Postfix), Some(Stretch::Stretching), None) => Some(
            "<mo form=\"postfix\" stretchy=\"true\">",
        ),
        (Some(Form::Postfix), Some(Stretch::Rigid), None) => Some(
            "<mo form=\"postfix\" stretchy=\"false\">",
        ),
        _ => None,
    }
}

/// Appends a text, which may be empty.
#[inline(always)]
fn append_some(text: &'static str, out: &mut String) -> Result<(), AllocError>
    ensures { OnOk result (string_bytes out.new ≡ string_bytes out.old ++ text.now) }
{
    if text.is_empty() {
        return Ok(());
    }
    out.push_str(text)
}

/// Appends the attribute for an element whose box has this style, or that is at most this many thousandths of an em wide, if it is
/// one.
fn append_boxing(
    box_style: Option<BoxStyle>,
    room: Option<u16>,
    out: &mut String,
) -> Result<(), AllocError>
    ensures { OnOk result (string_bytes out.new
        ≡ string_bytes out.old ++ boxing_text (boxing_in box_style room)) }
{
    match box_style {
        Some(box_style) => out.push_str(box_style_text(box_style)),
        None => append_room(room, out),
    }
}

/// Appends the attribute for an element that is at most this many thousandths of an em wide, if it is.
fn append_room(room: Option<u16>, out: &mut String) -> Result<(), AllocError>
    ensures { OnOk result (string_bytes out.new
        ≡ string_bytes out.old ++ boxing_text (option_map AtMost room)) }
{
    if let Some(width) = room {
        append_length(" style=\"max-width: ", i32::from(width), out)?;
    }
    Ok(())
}

fn box_style_text(box_style: BoxStyle) -> &'static str
    ensures { result.now ≡ boxing_text (Some (box_style_of box_style)) }
{
    match box_style {
        BoxStyle::NullDelimiters => " style=\"padding: 0 calc(0.12em - 1px)\"",
        BoxStyle::ArrowLabel => " style=\"padding: 0 0.389em\"",
        BoxStyle::Unclipped => " style=\"box-shadow: 0 0 0 50em transparent\"",
        BoxStyle::Monospaced => " style=\"font-family: monospace\"",
    }
}

fn text_if(flag: bool, text: &'static str) -> &'static str
    ensures { result.now ≡ if_so flag text.now }
{
    if flag { text } else { "" }
}

fn form_text(form: Option<Form>) -> &'static str
    ensures { result.now ≡ form_text (option_map form_of form) }
{
    match form {
        None => "",
        Some(Form::Prefix) => " form=\"prefix\"",
        Some(Form::Infix) => " form=\"infix\"",
        Some(Form::Postfix) => " form=\"postfix\"",
    }
}

fn stretch_text(stretch: Option<Stretch>) -> &'static str
    ensures { result.now ≡ stretch_text (option_map stretch_of stretch) }
{
    match stretch {
        None => "",
        Some(Stretch::Stretching) => " stretchy=\"true\"",
        Some(Stretch::Rigid) => " stretchy=\"false\"",
    }
}

fn size_text(size: Option<Size>) -> &'static str
    ensures { result.now ≡ size_text (option_map size_of size) }
{
    match size {
        None => "",
        Some(Size::Big) => " symmetric=\"true\" minsize=\"1.2em\" maxsize=\"1.2em\"",
        Some(Size::Bigger) => " symmetric=\"true\" minsize=\"1.623em\" maxsize=\"1.623em\"",
        Some(Size::VeryBig) => " symmetric=\"true\" minsize=\"2.047em\" maxsize=\"2.047em\"",
        Some(Size::Biggest) => " symmetric=\"true\" minsize=\"2.47em\" maxsize=\"2.47em\"",
    }
}

fn space_text(space: Option<Space>) -> &'static str
    ensures { result.now ≡ space_text (option_map space_of space) }
{
    match space {
        None => "",
        Some(Space::NoSpace) => " lspace=\"0\" rspace=\"0\"",
        Some(Space::Narrow) => " lspace=\"0.05em\" rspace=\"0.05em\"",
        Some(Space::Medium) => " lspace=\"0.222em\" rspace=\"0.222em\"",
        Some(Space::Thick) => " lspace=\"0.278em\" rspace=\"0.278em\"",
        Some(Space::NoSpaceBefore) => " lspace=\"0\"",
        Some(Space::NullDelimiterAfter) => " lspace=\"0\" rspace=\"0.12em\"",
        Some(Space::ThinAfter) => " lspace=\"0\" rspace=\"0.167em\"",
        Some(Space::ThickAfter) => " lspace=\"0\" rspace=\"0.278em\"",
        Some(Space::NoSpaceAfter) => " rspace=\"0\"",
        Some(Space::ThickBefore) => " lspace=\"0.278em\" rspace=\"0\"",
    }
}

fn accent_text(accent: Option<Side>) -> &'static str
    ensures { result.now ≡ accent_text (option_map side_of accent) }
{
    match accent {
        None => "",
        Some(Side::Above) => " accent=\"true\"",
        Some(Side::Below) => " accentunder=\"true\"",
    }
}

fn style_text(style: Option<MathStyle>) -> &'static str
    ensures { result.now ≡ style_text (option_map math_style_of style) }
{
    match style {
        None => "",
        Some(MathStyle::Display) => " displaystyle=\"true\" scriptlevel=\"0\"",
        Some(MathStyle::Text) => " displaystyle=\"false\" scriptlevel=\"0\"",
        Some(MathStyle::Script) => " displaystyle=\"false\" scriptlevel=\"1\"",
    }
}
