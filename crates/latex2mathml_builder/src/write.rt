//! Writes elements as markup.
ghost use Rattle.std.specs.Prelude.{◌≡◌, ◌+◌, ◌<◌, ◌≤◌, ◌++◌, [], false, IfOk, OnOk, codes, length, option_map, string_bytes};
ghost use Rattle.latex2mathml_elements.specs.Attributes.{styled};
ghost use Rattle.latex2mathml_elements.specs.Element.{children, space};
ghost use Rattle.latex2mathml_elements.specs.Print.{attributes_text, container_name, pair_name, print, prints, start_tag, table_attributes, triple_name};
ghost use Rattle.latex2mathml_builder.specs.Built.{Fits, element_in, elements_in, is_token_part, uppermost};
ghost use Rattle.latex2mathml_attributes.specs.Names.{attributes_if_any, attributes_of, container_of, math_style_of, pair_of, triple_of};
ghost use Rattle.latex2mathml_builder.specs.Due.{AreIn, Begins, IsIn, Writes, arranged, due, load, run_print, run_weight, settled_from, weight, weights, work_print, work_weight};

use crate::builder::Builder;
use crate::part::Part;
use crate::texts::write_token;
use crate::works::{Run, Work, Works};
use latex2mathml_attributes::attributes::{Attributes, MathStyle};
use latex2mathml_attributes::extent::width_start;
use latex2mathml_attributes::tag::{Container, Pair, Triple};
use latex2mathml_trees::append::append_width;
use std::alloc::AllocError;

impl Builder {
    /// Appends the markup of the `count` uppermost elements, the lowest of them first. It does not recurse: what is still to
    /// be written is in `works`. The only `Err` is out of memory, for that list or for the text. It may leave a part of the
    /// markup at the end of the text.
    #[tactic(auto, using(std::proofs::lemmas::Grind::common_steps), unfolding(crate::specs::Due::AreIn))]
    pub fn write(&self, count: usize, works: &mut Works, out: &mut String) -> Result<(), AllocError>
        requires { count ≤ length (elements_in self.now) }
        ensures markup { OnOk result (string_bytes out.new
            ≡ string_bytes out.old ++ prints (children (uppermost count self.now))) }
        ensures none { OnOk result (works.new ≡ []) }
    {
        let list = &mut works.list;
        list.clear();
        let mut place = self.len() - count;
        'elements: while place < self.len() {
            match self.open_at(place) {
                Part::Token(tag, attributes, from, to) => {
                    write_token(*tag, attributes, self.text_between(*from, *to), out)?;
                }
                part => self.write_outer(part, list, out)?,
            }
            place += 1;
        }
        Ok(())
    }

    /// Writes an element that holds no text, and all that is in it. The list is empty before and after that.
    #[inline(never)]
    #[tactic(auto, using(std::proofs::lemmas::Grind::common_steps), unfolding(crate::specs::Due::AreIn))]
    fn write_outer(
        &self,
        part: &Part,
        works: &mut Vec<Work>,
        out: &mut String,
    ) -> Result<(), AllocError>
        requires no_token { is_token_part part.now ≡ false }
        requires fits { Fits self.now.texts (length self.now.settled) part.now }
        requires empty { works.old.items ≡ [] }
        ensures empty { OnOk result (works.new.items ≡ []) }
        ensures print { OnOk result (string_bytes out.new
            ≡ string_bytes out.old ++ print (element_in self.now part.now)) }
    {
        let mut next = self.write_start(part, works, out)?;
        'works: loop {
            self.write_run(next, works, out)?;
            let Some(work) = works.pop() else {
                return Ok(());
            };
            next = self.begin_work(work, works, out)?;
        }
    }

    /// Writes settled elements and the end tag after them. If one of them holds no text, this pushes the others on the list,
    /// writes what precedes the children of that one, and goes on with its children.
    fn write_run(&self, run: Run, works: &mut Vec<Work>, out: &mut String) -> Result<(), AllocError>
        requires one { run.end ≤ length self.now.settled }
        requires inside { AreIn self.now works.old.items }
        ensures inside { OnOk result (AreIn self.now works.new.items) }
        ensures print { OnOk result (Writes self.now (string_bytes out.old) works.old.items
            (run_print self.now run) (string_bytes out.new) works.new.items) }
        ensures weight { OnOk result (load self.now works.new.items
            ≤ load self.now works.old.items + run_weight self.now run) }
    {
        // No place is greater than this length, so none overflows.
        let _ = self.settled_len();
        let mut left = run;
        'elements: while left.next < left.end {
            let first = self.settled_at(left.next);
            left.next += 1;
            match first {
                Part::Token(tag, attributes, from, to) => {
                    write_token(*tag, attributes, self.text_between(*from, *to), out)?;
                }
                part => {
                    self.push_work(Work::Elements(left), works)?;
                    left = self.write_start(part, works, out)?;
                }
            }
        }
        out.push_str(left.tag)
    }

    /// Begins a work, which is no longer on the list. Returns what comes next, and pushes what follows that on the list.
    #[inline(always)]
    fn begin_work(
        &self,
        work: Work,
        works: &mut Vec<Work>,
        out: &mut String,
    ) -> Result<Run, AllocError>
        requires one { IsIn self.now work }
        requires inside { AreIn self.now works.old.items }
        ensures inside { OnOk result (AreIn self.now works.new.items) }
        ensures one { IfOk result (λ run. run.end ≤ length self.now.settled) }
        ensures print { IfOk result (λ run. Begins self.now (string_bytes out.old) works.old.items
            (work_print self.now work) (string_bytes out.new) run works.new.items) }
        ensures weight { IfOk result (λ run. load self.now works.new.items
            + run_weight self.now run
            < load self.now works.old.items + work_weight self.now work) }
    {
        match work {
            Work::Elements(run) => Ok(run),
            Work::Rows(_, _, 0) => Ok(self.run(0, 0, "</mtable>")),
            Work::Rows(columns, first, count) => self.write_rows(columns, first, count, works, out),
            Work::Cells(_, _, _, 0) => Ok(self.run(0, 0, "</mtr>")),
            Work::Cells(columns, start, first, count) => {
                self.write_cells(columns, start, first, count, works, out)
            }
        }
    }

    /// Writes what precedes the children of an element that holds no text. Returns what follows, up to the end tag, except
    /// what it pushes on the list.
    #[inline(always)]
    fn write_start(
        &self,
        part: &Part,
        works: &mut Vec<Work>,
        out: &mut String,
    ) -> Result<Run, AllocError>
        requires no_token { is_token_part part.now ≡ false }
        requires fits { Fits self.now.texts (length self.now.settled) part.now }
        requires inside { AreIn self.now works.old.items }
        ensures inside { OnOk result (AreIn self.now works.new.items) }
        ensures one { IfOk result (λ run. run.end ≤ length self.now.settled) }
        ensures print { IfOk result (λ run. Begins self.now (string_bytes out.old) works.old.items
            (print (element_in self.now part.now)) (string_bytes out.new) run works.new.items) }
        ensures weight { IfOk result (λ run. load self.now works.new.items
            + run_weight self.now run + 1
            < load self.now works.old.items + weight (element_in self.now part.now)) }
    {
        match part {
            Part::Token(_, _, _, _) => unreachable!(),
            Part::Space(width) => {
                write_space(*width, out)?;
                Ok(self.run(0, 0, ""))
            }
            Part::Rectangle(extent) => {
                out.push_str("<mspace")?;
                extent.append(out)?;
                out.push_str("/>")?;
                Ok(self.run(0, 0, ""))
            }
            Part::Around(around, first) => {
                around.append_start(out)?;
                Ok(self.run(*first, 1, around.end()))
            }
            Part::Container(tag, attributes, first, count) => {
                start_container(*tag, attributes, out)?;
                Ok(self.run(*first, *count, tag.end()))
            }
            Part::Pair(tag, attributes, first) => {
                start_pair(*tag, attributes, out)?;
                Ok(self.run(*first, 2, tag.end()))
            }
            Part::Triple(tag, attributes, first, is_exchanged) => {
                start_triple(*tag, attributes, out)?;
                self.three(*first, *is_exchanged, tag.end(), works)
            }
            Part::Table(style, columns, first, count) => {
                start_table(*style, self.is_lined(columns, *first, *count), out)?;
                self.write_rows(*columns, *first, *count, works, out)
            }
        }
    }

    /// Returns the three children of an element and its end tag. If the last two are exchanged, it pushes both on the list.
    #[inline(always)]
    fn three(
        &self,
        first: usize,
        is_exchanged: bool,
        tag: &'static str,
        works: &mut Vec<Work>,
    ) -> Result<Run, AllocError>
        requires all { first + 3 ≤ length self.now.settled }
        requires inside { AreIn self.now works.old.items }
        ensures inside { OnOk result (AreIn self.now works.new.items) }
        ensures one { IfOk result (λ run. run.end ≤ length self.now.settled) }
        ensures print { IfOk result (λ run. run_print self.now run ++ due self.now works.new.items
            ≡ prints (children (arranged is_exchanged (settled_from self.now first 3)))
            ++ (tag.now ++ due self.now works.old.items)) }
        ensures weight { IfOk result (λ run. load self.now works.new.items
            + run_weight self.now run
            ≤ load self.now works.old.items + 2
            + weights (children (settled_from self.now first 3))) }
    {
        if !is_exchanged {
            return Ok(self.run(first, 3, tag));
        }
        // No place is greater than this length, so none overflows.
        let _ = self.settled_len();
        self.push_work(Work::Elements(self.run(first + 1, 1, tag)), works)?;
        self.push_work(Work::Elements(self.run(first + 2, 1, "")), works)?;
        Ok(self.run(first, 1, ""))
    }

    /// Returns a number of settled elements from this place on, with this end tag.
    #[inline(always)]
    pub(crate) fn run(&self, first: usize, count: usize, tag: &'static str) -> Run
        requires { first + count ≤ length self.now.settled }
        ensures one { result.end ≤ length self.now.settled }
        ensures print { run_print self.now result
            ≡ prints (children (settled_from self.now first count)) ++ tag.now }
        ensures weight { run_weight self.now result
            ≡ weights (children (settled_from self.now first count)) }
    {
        // No place is greater than this length, so none overflows.
        let _ = self.settled_len();
        Run {
            next: first,
            end: first + count,
            tag,
        }
    }

    /// Pushes a work on the list.
    #[tactic(auto, unfolding(crate::specs::Due::AreIn))]
    pub(crate) fn push_work(&self, work: Work, works: &mut Vec<Work>) -> Result<(), AllocError>
        requires one { IsIn self.now work }
        requires inside { AreIn self.now works.old.items }
        ensures inside { OnOk result (AreIn self.now works.new.items) }
        ensures print { OnOk result (due self.now works.new.items
            ≡ work_print self.now work ++ due self.now works.old.items) }
        ensures weight { OnOk result (load self.now works.new.items
            ≡ load self.now works.old.items + work_weight self.now work) }
    {
        let _ = self;
        Ok(works.push(work)?)
    }
}

/// Appends a space, in eighteenths of an em. Those that most formulas have are texts of their own, of lengths that are known.
#[inline(never)]
fn write_space(width: i32, out: &mut String) -> Result<(), AllocError>
    ensures { OnOk result (string_bytes out.new ≡ string_bytes out.old ++ print (space width)) }
{
    match width {
        3 => out.push_str("<mspace width=\"0.167em\"/>"),
        4 => out.push_str("<mspace width=\"0.222em\"/>"),
        5 => out.push_str("<mspace width=\"0.278em\"/>"),
        18 => out.push_str("<mspace width=\"1em\"/>"),
        36 => out.push_str("<mspace width=\"2em\"/>"),
        _ => {
            out.push_str("<mspace")?;
            out.push_str(width_start(width))?;
            append_width(width, out)?;
            out.push_str("em\"/>")
        }
    }
}

/// Appends the start tag of an element that holds any number of elements.
#[inline(always)]
#[tactic(auto, using(std::proofs::lemmas::Grind::common_steps))]
fn start_container(
    tag: Container,
    attributes: &Option<Attributes>,
    out: &mut String,
) -> Result<(), AllocError>
    ensures { OnOk result (string_bytes out.new ≡ string_bytes out.old
        ++ ((codes "<" ++ container_name (container_of tag))
        ++ (attributes_text (attributes_if_any attributes.now) ++ codes ">"))) }
{
    match attributes {
        None => tag.append_start_tag(out),
        Some(attributes) => start_with_attributes(tag.start(), attributes, out),
    }
}

/// Appends the start tag of an element that holds two elements.
#[inline(always)]
#[tactic(auto, using(std::proofs::lemmas::Grind::common_steps))]
fn start_pair(
    tag: Pair,
    attributes: &Option<Attributes>,
    out: &mut String,
) -> Result<(), AllocError>
    ensures { OnOk result (string_bytes out.new ≡ string_bytes out.old
        ++ ((codes "<" ++ pair_name (pair_of tag))
        ++ (attributes_text (attributes_if_any attributes.now) ++ codes ">"))) }
{
    match attributes {
        None => tag.append_start_tag(out),
        Some(attributes) => start_with_attributes(tag.start(), attributes, out),
    }
}

/// Appends the start tag of an element that holds three elements.
#[inline(always)]
#[tactic(auto, using(std::proofs::lemmas::Grind::common_steps))]
fn start_triple(
    tag: Triple,
    attributes: &Option<Attributes>,
    out: &mut String,
) -> Result<(), AllocError>
    ensures { OnOk result (string_bytes out.new ≡ string_bytes out.old
        ++ ((codes "<" ++ triple_name (triple_of tag))
        ++ (attributes_text (attributes_if_any attributes.now) ++ codes ">"))) }
{
    match attributes {
        None => tag.append_start_tag(out),
        Some(attributes) => start_with_attributes(tag.start(), attributes, out),
    }
}

/// Appends the start tag of a table, which may have lines.
#[inline(never)]
#[tactic(auto, using(std::proofs::lemmas::Grind::common_steps))]
fn start_table(style: Option<MathStyle>, is_lined: bool, out: &mut String) -> Result<(), AllocError>
    ensures { OnOk result (string_bytes out.new ≡ string_bytes out.old
        ++ start_tag (codes "mtable")
        (table_attributes is_lined (styled (option_map math_style_of style)))) }
{
    if !is_lined {
        return start_with_attributes("<mtable", &Attributes::styled(style), out);
    }
    out.push_str("<mtable")?;
    Attributes::styled(style).append(out)?;
    out.push_str(" style=\"border-collapse: collapse\">")
}

/// Appends a start tag: `beginning` and the attributes.
#[inline(never)]
#[tactic(auto, using(std::proofs::lemmas::Grind::common_steps))]
pub(crate) fn start_with_attributes(
    beginning: &'static str,
    attributes: &Attributes,
    out: &mut String,
) -> Result<(), AllocError>
    ensures { OnOk result (string_bytes out.new ≡ string_bytes out.old
        ++ (beginning.now ++ (attributes_text (attributes_of attributes.now) ++ codes ">"))) }
{
    out.push_str(beginning)?;
    attributes.append(out)?;
    out.push_str(">")
}
