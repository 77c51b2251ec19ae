//! The beginning of a tree with operands. The rest is pushed onto the list.
ghost use Rattle.std.specs.Prelude.{◌≡◌, ◌+◌, ◌<◌, ◌≤◌, ◌++◌, IfOk, length};
ghost use Rattle.latex2mathml_trees.specs.{Print.print, Texts.Appends};
ghost use Rattle.latex2mathml_parts.specs.{Forests.IsPlace, Forests.form_tree, Forests.tree_at, Forests.trees_at};
ghost use Rattle.latex2mathml_parts.specs.{Parts.arity, declared.form.Form.Form};
ghost use Rattle.latex2mathml_parts.specs.Shapes.{begun_weight, ending_text, opening_print, print_weight};
ghost use Rattle.latex2mathml_parts.specs.Works.{AreIn, Leaves, Writes};

use crate::kind::Kind;
use crate::parts::Parts;
use crate::work::Work;
use crate::write::fences::opening_markup;
use crate::write::leaves::write_operator;
use crate::write::shapes::{Operands, Shape, Tag, shape_of};
use crate::write::tables::limit_markup;
use std::alloc::AllocError;

impl Parts<'_> {
    /// Writes the tree of a part with operands that follows the first `end` parts, up to the first operand that is no
    /// leaf, and pushes what follows that operand, which comes next.
    #[inline(always)]
    pub(crate) fn write_operands(
        &self,
        kind: Kind,
        end: usize,
        works: &mut Vec<Work>,
        out: &mut String,
    ) -> Result<Option<usize>, AllocError>
        requires some { 0 < arity kind }
        requires fits { arity kind ≤ length (trees_at self.now end) }
        requires within { end ≤ length self.now.list }
        requires inside { AreIn self.now works.old.items }
        ensures print { IfOk result (Writes self.now out.old works.old out.new works.new
            (print (form_tree self.now (Form.Of kind.entry) end))) }
        ensures left { IfOk result (Leaves self.now works.old works.new
            (begun_weight (form_tree self.now (Form.Of kind.entry) end))) }
    {
        let Shape(tag, sign, operands) = shape_of(kind);
        write_opening(tag, sign, out)?;
        match operands {
            Operands::One => self.write_last(end, tag, works, out),
            Operands::Two => {
                let first = self.before_last(end);
                self.write_both(first, end, tag, works, out)
            }
            Operands::Swapped => {
                let second = self.before_last(end);
                self.write_both(end, second, tag, works, out)
            }
            Operands::Labelled(brace) => {
                let first = self.before_last(end);
                self.push_work(Work::End(tag), works)?;
                self.push_work(Work::Tree(end), works)?;
                self.push_work(Work::Brace(tag, brace), works)?;
                Ok(Some(first))
            }
            Operands::Named(name) => {
                out.push_str(limit_markup(name))?;
                self.push_work(Work::End(tag), works)?;
                Ok(Some(end))
            }
            Operands::Fenced(open, close) => {
                out.push_str(opening_markup(open))?;
                self.push_work(Work::LastFence(close, tag), works)?;
                Ok(Some(end))
            }
            Operands::Braced(brace) => {
                self.push_work(Work::LastBrace(brace, tag), works)?;
                Ok(Some(end))
            }
            Operands::Signed(sign, accent) => {
                self.push_work(Work::LastSign(sign, accent, tag), works)?;
                Ok(Some(end))
            }
        }
    }

    /// Writes two operands and what follows them up to the first operand that is no leaf, and pushes the rest.
    #[inline(always)]
    fn write_both(
        &self,
        first: usize,
        last: usize,
        tag: Tag,
        works: &mut Vec<Work>,
        out: &mut String,
    ) -> Result<Option<usize>, AllocError>
        requires first { IsPlace self.now first }
        requires last { IsPlace self.now last }
        requires inside { AreIn self.now works.old.items }
        ensures print { IfOk result (Writes self.now out.old works.old out.new works.new
            (print (tree_at self.now first)
            ++ (print (tree_at self.now last) ++ ending_text tag))) }
        ensures left { IfOk result (Leaves self.now works.old works.new
            (print_weight (tree_at self.now first) + print_weight (tree_at self.now last) + 3)) }
    {
        if self.is_leaf(first) {
            self.write_leaf_at(first, out)?;
            return self.write_last(last, tag, works, out);
        }
        self.push_work(Work::End(tag), works)?;
        self.push_work(Work::Tree(last), works)?;
        Ok(Some(first))
    }

    /// Writes the last operand and what follows it, or pushes what follows it, unless the operand is a leaf.
    #[inline(always)]
    fn write_last(
        &self,
        last: usize,
        tag: Tag,
        works: &mut Vec<Work>,
        out: &mut String,
    ) -> Result<Option<usize>, AllocError>
        requires last { IsPlace self.now last }
        requires inside { AreIn self.now works.old.items }
        ensures print { IfOk result (Writes self.now out.old works.old out.new works.new
            (print (tree_at self.now last) ++ ending_text tag)) }
        ensures left { IfOk result (Leaves self.now works.old works.new
            (print_weight (tree_at self.now last) + 2)) }
    {
        if self.is_leaf(last) {
            self.write_leaf_at(last, out)?;
            tag.end(out)?;
            return Ok(None);
        }
        self.push_work(Work::End(tag), works)?;
        Ok(Some(last))
    }
}

/// Writes what precedes the operands.
#[inline(always)]
fn write_opening(tag: Tag, sign: Option<char>, out: &mut String) -> Result<(), AllocError>
    ensures { Appends out.old out.new (opening_print tag sign) result }
{
    tag.open(out)?;
    match sign {
        None => Ok(()),
        Some(c) => write_operator(c, out),
    }
}
