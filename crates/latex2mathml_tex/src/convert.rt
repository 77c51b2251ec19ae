//! Converts the text of a formula to its markup.
ghost use Rattle.std.specs.Prelude.{◌≡◌, ℕ, ◌++◌, ◌≤◌, IfOk, IfSome, IsFalse, IsTrue, List, MatchBool, MatchOption, None, OnOk, length, string_bytes};
ghost use Rattle.std.specs.Str.{chars};
ghost use Rattle.latex2mathml_elements.specs.{Characters.IsAllowed, Dollars.IsDollarFree, Element.children};
ghost use Rattle.latex2mathml_elements.specs.Annotated.{IsAnnotatedMathElement, alternative_start, annotated_print};
ghost use Rattle.latex2mathml_elements.specs.Print.{formula_print, math_tag};
ghost use Rattle.latex2mathml_builder.specs.Built.{elements_in, uppermost};
ghost use Rattle.latex2mathml_trees.specs.MathSchema.{IsMathElement};
ghost use Rattle.latex2mathml_tex_units.specs.{Errors.IfRefused, Errors.is_outside_kind, Errors.refusal_of, Expanded.expanded_text, MacroTables.AreDefined, MacroTables.Holding};
ghost use Rattle.latex2mathml_tex.specs.Answers.{IsAnswer, IsAnswerWithSource, IsRefusal, style_in};
ghost use Rattle.latex2mathml_tex_commands.specs.Meanings.{style_of};
ghost use Rattle.latex2mathml_tex.specs.{Frames.ReadsAs, ReadRows.AreUppermost, ReadRows.HasCome};
ghost use Rattle.latex2mathml_tex_atoms.specs.Models.{top};
ghost use Rattle.latex2mathml_tex_grammar.specs.{Formulas.IsReading, Formulas.source_text, Makes.is_display, Rows.Row};

use crate::annotation::{append_alternative, append_annotation};
use crate::parse::{Form, Parser};
use latex2mathml_builder::builder::Builder;
use latex2mathml_builder::works::Works;
use latex2mathml_tex_atoms::rows::put_row;
use latex2mathml_tex_commands::meaning::Style;
use latex2mathml_tex_units::error::{TexError, TexErrorKind};
use latex2mathml_tex_units::macros::table::Macros;
use latex2mathml_tokens::DisplayStyle;
use std::alloc::{AllocError, Global};

/// Converts a formula in LaTeX to a `math` element.
///
/// `macros` are those that the formula may use. It may define more with `\newcommand`, `\def` and the like, which hold from
/// there to its end. First the macros of a formula are expanded, from left to right. Then the expanded formula is read.
///
/// White space between the parts of a formula has no effect, except in words such as those of `\text`.
///
/// A formula with `&` or `\\` outside of all tables is read as if it were in `aligned`, or in `gathered` if it has no such `&`.
///
/// An answer is one `math` element with the children that MathML allows. It contains no character that XML forbids and no
/// dollar sign.
///
/// Neither reading nor writing recurses, however deeply the formula is nested.
///
/// `x_i^2`, inline, is `<math xmlns="http://www.w3.org/1998/Math/MathML"
/// display="inline"><msubsup><mi>x</mi><mi>i</mi><mn>2</mn></msubsup></math>`.
///
/// # Errors
///
/// [`TexError::kind`] says why the formula is refused, and [`TexError::place`] is the byte of `tex` where the refused part
/// begins. The first error from left to right is reported, in the order in which the formula is read. What is in the body of a
/// macro has the place of the macro's use. If more than 1,000 macros are used, or they insert more than 100,000 units
/// (characters, commands, braces and white space), the kind is
/// [`TexErrorKind::TooManyExpansions`](crate::TexErrorKind::TooManyExpansions).
/// [`TexErrorKind::OutOfMemory`](crate::TexErrorKind::OutOfMemory) may replace any other result; its place is 0.
pub fn tex_to_mathml<'a>(
    alloc: Global,
    macros: &Macros<'a>,
    tex: &'a str,
    display: DisplayStyle,
) -> Result<String, TexError>
    ensures answer { Holding macros.now (λ table. IfOk result (λ markup.
        IsAnswer table tex.now (style_in display) (string_bytes markup))) }
    ensures refusal { Holding macros.now (λ table.
        IfRefused result (IsRefusal table tex.now (style_in display))) }
    ensures element { IfOk result (λ markup. IsMathElement (string_bytes markup)) }
    ensures characters { AreDefined macros.now
        → IfOk result (λ markup. IsAllowed (string_bytes markup)) }
    ensures dollars { IfOk result (λ markup. IsDollarFree (string_bytes markup)) }
{
    let mut markup = String::new(alloc);
    Converter::new(alloc).append(&mut markup, macros, tex, display)?;
    Ok(markup)
}

/// Converts a formula as [`tex_to_mathml`] does, and adds its text: the `math` element holds one `semantics` element, and that
/// holds the element that is shown and an `annotation` with the text of the formula. So a formula that is copied from a page
/// keeps its LaTeX. The text is also the `alttext` of the `math` element, for programs that cannot show the formula.
///
/// What is shown is one element, which is an `mrow` if the answer of [`tex_to_mathml`] has none or several. The text is escaped
/// like any other text. In comments it may contain characters that XML forbids. Each of them is replaced by U+FFFD.
///
/// An answer is one `math` element with the children that MathML allows. It contains no character that XML forbids and no
/// dollar sign.
///
/// `x<y`, inline, is `<math xmlns="http://www.w3.org/1998/Math/MathML"
/// display="inline" alttext="x&lt;y"><semantics><mrow><mi>x</mi><mo>&lt;</mo><mi>y</mi></mrow><annotation
/// encoding="application/x-tex">x&lt;y</annotation></semantics></math>`.
///
/// # Errors
///
/// The same as those of [`tex_to_mathml`].
pub fn tex_to_mathml_with_source<'a>(
    alloc: Global,
    macros: &Macros<'a>,
    tex: &'a str,
    display: DisplayStyle,
) -> Result<String, TexError>
    ensures answer { Holding macros.now (λ table. IfOk result (λ markup.
        IsAnswerWithSource table tex.now (style_in display) (string_bytes markup))) }
    ensures refusal { Holding macros.now (λ table.
        IfRefused result (IsRefusal table tex.now (style_in display))) }
    ensures element { IfOk result (λ markup. IsAnnotatedMathElement (string_bytes markup)) }
    ensures characters { AreDefined macros.now
        → IfOk result (λ markup. IsAllowed (string_bytes markup)) }
    ensures dollars { IfOk result (λ markup. IsDollarFree (string_bytes markup)) }
{
    let mut markup = String::new(alloc);
    Converter::new(alloc).append_with_source(&mut markup, macros, tex, display)?;
    Ok(markup)
}

/// Converts formulas, one after another. It reuses its working memory from one formula to the next, and borrows all formulas
/// for one lifetime.
#[derive(Drop)]
pub struct Converter<'a> {
    parser: Parser<'a>,
    works: Works,
}

impl<'a> Converter<'a> {
    /// Creates a converter that has no working memory yet.
    pub fn new(alloc: Global) -> Converter<'a> {
        Converter {
            parser: Parser::new(alloc),
            works: Works::new(alloc),
        }
    }

    /// Appends the answer of [`tex_to_mathml`] to a text, whatever was converted before. If the formula is refused, the text is
    /// unchanged. If memory runs out, a part of the markup may have been appended to it.
    #[inline]
    pub fn append(
        &mut self,
        text: &mut String,
        macros: &Macros<'a>,
        tex: &'a str,
        display: DisplayStyle,
    ) -> Result<(), TexError>
        ensures answer { Holding macros.now (λ table. OnOk result ((markup : List ℕ)
            × IsAnswer table tex.now (style_in display) markup
            × (string_bytes text.new ≡ string_bytes text.old ++ markup))) }
        ensures refusal { Holding macros.now (λ table.
            IfRefused result (IsRefusal table tex.now (style_in display))) }
        ensures unchanged { IfRefused result (λ r. string_bytes text.new ≡ string_bytes text.old) }
    {
        if self.append_math(text, macros, tex, display, false)? {
            return Ok(());
        }
        Err(self.parser.refusal())
    }

    /// Appends the answer of [`tex_to_mathml_with_source`] to a text, in the same way as `append`.
    #[inline]
    pub fn append_with_source(
        &mut self,
        text: &mut String,
        macros: &Macros<'a>,
        tex: &'a str,
        display: DisplayStyle,
    ) -> Result<(), TexError>
        ensures answer { Holding macros.now (λ table. OnOk result ((markup : List ℕ)
            × IsAnswerWithSource table tex.now (style_in display) markup
            × (string_bytes text.new ≡ string_bytes text.old ++ markup))) }
        ensures refusal { Holding macros.now (λ table.
            IfRefused result (IsRefusal table tex.now (style_in display))) }
        ensures unchanged { IfRefused result (λ r. string_bytes text.new ≡ string_bytes text.old) }
    {
        if self.append_math(text, macros, tex, display, true)? {
            return Ok(());
        }
        Err(self.parser.refusal())
    }

    /// Appends the answer with an annotation or without, and returns whether there is one. If the formula is refused, the parser
    /// has the reason. Only this function reads formulas, so that the loop of the parser becomes a part of it.
    fn append_math(
        &mut self,
        text: &mut String,
        macros: &Macros<'a>,
        tex: &'a str,
        display: DisplayStyle,
        is_annotated: bool,
    ) -> Result<bool, AllocError>
        ensures read { Holding macros.now (λ table. IfOk result (λ is_read. MatchBool is_read
            ((markup : List ℕ)
            × MatchBool is_annotated
            (IsAnswerWithSource table tex.now (style_in display) markup)
            (IsAnswer table tex.now (style_in display) markup)
            × (string_bytes text.new ≡ string_bytes text.old ++ markup))
            (IfSome (refusal_of self.new.parser.refusal)
            (IsRefusal table tex.now (style_in display))))) }
        ensures unchanged { IfOk result (λ is_read. IsFalse is_read
            → string_bytes text.new ≡ string_bytes text.old) }
    {
        let Some(count) = self.read(macros, tex, display)? else {
            return Ok(false);
        };
        if is_annotated {
            put_row(&mut self.parser.builder, count)?;
            write_annotated_math(&self.parser.builder, tex, display, &mut self.works, text)?;
            return Ok(true);
        }
        write_math(&self.parser.builder, count, display, &mut self.works, text)?;
        Ok(true)
    }

    /// Reads a formula. Its elements are then the uppermost ones of the builder. Returns how many there are, or `None` if the
    /// formula is refused; the parser then has the reason. If `&` or `\\` is outside of all tables, the formula is read once
    /// more, as rows.
    #[inline]
    fn read(
        &mut self,
        macros: &Macros<'a>,
        tex: &'a str,
        display: DisplayStyle,
    ) -> Result<Option<usize>, AllocError>
        ensures { Holding macros.now (λ table. IfOk result (λ read. MatchOption read
            (IfSome (refusal_of self.new.parser.refusal)
            (IsRefusal table tex.now (style_in display)))
            (λ count. (row : Row) × IsReading table (chars tex.now) (style_in display) row
            × AreUppermost row count (elements_in self.new.parser.builder)))) }
    {
        let style = style_for(display);
        let mut form = Form::Atoms;
        'forms: loop {
            let read = self.read_as(form, macros, tex, style)?;
            if !is_to_be_rows(form, read, &self.parser.refusal) {
                return Ok(read);
            }
            form = Form::Rows;
        }
    }

    /// Reads a formula in this form. Returns how many elements it has, or `None` if it is refused.
    #[inline]
    fn read_as(
        &mut self,
        form: Form,
        macros: &Macros<'a>,
        tex: &'a str,
        style: Style,
    ) -> Result<Option<usize>, AllocError>
        ensures { IfOk result (λ read.
            HasCome (ReadsAs form (style_of style) (expanded_text macros.now (chars tex.now)))
            read self.new.parser.refusal (elements_in self.new.parser.builder)) }
    {
        self.parser.restart(macros, tex, style)?;
        self.parser.finish(form)
    }
}

/// Whether a formula is to be read as rows, after it was read in this form: it was read as atoms, and is refused because of `&`
/// or `\\`.
#[inline]
fn is_to_be_rows(form: Form, read: Option<usize>, refusal: &TexError) -> bool
    ensures yes { IsTrue result → (form ≡ Form.Atoms) × (read ≡ None)
        × IsTrue (is_outside_kind refusal.now.kind) }
    ensures no { IsFalse result → form ≡ Form.Atoms → read ≡ None
        → IsFalse (is_outside_kind refusal.now.kind) }
{
    matches!(form, Form::Atoms)
        && read.is_none()
        && matches!(refusal.kind, TexErrorKind::OutsideTable)
}

/// Appends a `math` element of the `count` uppermost elements.
fn write_math(
    builder: &Builder,
    count: usize,
    display: DisplayStyle,
    works: &mut Works,
    text: &mut String,
) -> Result<(), AllocError>
    requires { count ≤ length (elements_in builder.now) }
    ensures { OnOk result (string_bytes text.new ≡ string_bytes text.old
        ++ formula_print (is_display (style_in display))
        (children (uppermost count builder.now))) }
{
    append_opening_tag(display, text)?;
    builder.write(count, works, text)?;
    text.push_str("</math>")?;
    Ok(())
}

/// Appends a `math` element of the uppermost element, with the text of the formula as an annotation.
fn write_annotated_math(
    builder: &Builder,
    tex: &str,
    display: DisplayStyle,
    works: &mut Works,
    text: &mut String,
) -> Result<(), AllocError>
    requires { 1 ≤ length (elements_in builder.now) }
    ensures { OnOk result (string_bytes text.new ≡ string_bytes text.old
        ++ annotated_print (is_display (style_in display)) (top (elements_in builder.now))
        (source_text (chars tex.now))) }
{
    text.push_str(alternative_start(display))?;
    append_alternative(tex, text)?;
    text.push_str("\"><semantics>")?;
    builder.write(1, works, text)?;
    append_annotation(tex, text)?;
    text.push_str("</semantics></math>")?;
    Ok(())
}

/// Appends the opening tag of a `math` element. The length of each text is known where it is appended.
#[inline]
fn append_opening_tag(display: DisplayStyle, text: &mut String) -> Result<(), AllocError>
    ensures { OnOk result (string_bytes text.new
        ≡ string_bytes text.old ++ math_tag (is_display (style_in display))) }
{
    match display {
        DisplayStyle::Block => text.push_str(
            "<math xmlns=\"http://www.w3.org/1998/Math/MathML\" display=\"block\">",
        ),
        DisplayStyle::Inline => text.push_str(
            "<math xmlns=\"http://www.w3.org/1998/Math/MathML\" display=\"inline\">",
        ),
    }
}

fn alternative_start(display: DisplayStyle) -> &'static str
    ensures { result.now ≡ alternative_start (is_display (style_in display)) }
{
    match display {
        DisplayStyle::Block => {
            "<math xmlns=\"http://www.w3.org/1998/Math/MathML\" display=\"block\" alttext=\""
        }
        DisplayStyle::Inline => {
            "<math xmlns=\"http://www.w3.org/1998/Math/MathML\" display=\"inline\" alttext=\""
        }
    }
}

/// Returns the style of a formula on a line of its own, or in a line of text.
fn style_for(display: DisplayStyle) -> Style
    ensures { style_of result ≡ style_in display }
{
    match display {
        DisplayStyle::Block => Style::InDisplay,
        DisplayStyle::Inline => Style::InText,
    }
}
