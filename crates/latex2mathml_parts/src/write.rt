//! From parts to markup.
ghost use Rattle.std.specs.Prelude.{◌≡◌, ◌<◌, ◌-◌, IfOk, length, true, Some};
ghost use Rattle.latex2mathml_trees.specs.{Print.print, Texts.Appends, Tree.slashed};
ghost use Rattle.latex2mathml_parts.specs.Forests.{IsLeaf, IsPlace, last_in, tree_at, trees_at, trees_in};
ghost use Rattle.latex2mathml_parts.specs.{Forms.in_style, Parts.fence_text};
ghost use Rattle.latex2mathml_parts.specs.Shapes.{begun_weight, fence_close, print_weight};
ghost use Rattle.latex2mathml_parts.specs.Works.{AreIn, IsIn, Leaves, Writes, work_print, work_weight};

mod fences;
mod groups;
mod leaves;
mod operands;
pub(crate) mod shapes;
mod tables;

use crate::form::Form;
use crate::kind::Kind;
use crate::parts::Parts;
use crate::work::{Work, Works};
use crate::write::fences::{closing_markup, stretched_markup};
use crate::write::groups::Group;
use crate::write::leaves::{write_char, write_letter, write_number, write_operator, write_text};
use crate::write::tables::{letter_open, sign_open};
use latex2mathml_tokens::attribute::Variant;
use latex2mathml_trees::append::append_undefined;
pub use leaves::write_leaf;
use std::alloc::AllocError;

impl Parts<'_> {
    /// Writes the markup of the last tree after the text. It does not recurse: what is still to be written is kept in
    /// `works`. The only `Err` is out of memory, for that list or for the text.
    #[tactic(auto, using(std::proofs::lemmas::Grind::common_steps), unfolding(crate::specs::Works::AreIn))]
    pub fn write(&self, works: &mut Works, out: &mut String) -> Result<(), AllocError>
        requires { 0 < length (trees_in self.now) }
        ensures { Appends out.old out.new (print (last_in self.now)) result }
    {
        let list = &mut works.list;
        list.clear();
        let mut next = Some(self.len());
        'works: loop {
            if let Some(end) = next {
                next = self.write_at(end, list, out)?;
            } else if let Some(work) = list.pop() {
                next = self.write_work(work, list, out)?;
            } else {
                return Ok(());
            }
        }
    }

    /// Carries out a work. Returns the tree that comes next, if one does.
    #[inline(always)]
    fn write_work(
        &self,
        work: Work,
        works: &mut Vec<Work>,
        out: &mut String,
    ) -> Result<Option<usize>, AllocError>
        requires one { IsIn self.now work }
        requires inside { AreIn self.now works.old.items }
        ensures print { IfOk result (Writes self.now out.old works.old out.new works.new
            (work_print self.now work)) }
        ensures left { IfOk result (Leaves self.now works.old works.new
            (work_weight self.now work)) }
    {
        match work {
            Work::Tree(end) => return Ok(Some(end)),
            Work::Styled(variant, end) => return self.write_styled(variant, end, works, out),
            Work::End(tag) => tag.end(out)?,
            Work::Brace(tag, c) => {
                tag.open(out)?;
                write_operator(c, out)?
            }
            Work::LastBrace(c, tag) => {
                write_operator(c, out)?;
                tag.end(out)?
            }
            Work::LastSign(c, accent, tag) => {
                write_char(sign_open(accent), c, "</mo>", out)?;
                tag.end(out)?
            }
            Work::LastFence(fence, tag) => {
                out.push_str(closing_markup(fence))?;
                tag.end(out)?
            }
        }
        Ok(None)
    }

    /// Writes the beginning of the last tree of the first `end` parts, in a style, as `write_at` does.
    #[inline(never)]
    #[tactic(auto, using(crate::proofs::Styles::styled_members, crate::proofs::Styles::weights_in, std::proofs::lemmas::Grind::common_steps))]
    fn write_styled(
        &self,
        variant: Variant,
        end: usize,
        works: &mut Vec<Work>,
        out: &mut String,
    ) -> Result<Option<usize>, AllocError>
        requires place { IsPlace self.now end }
        requires inside { AreIn self.now works.old.items }
        ensures print { IfOk result (Writes self.now out.old works.old out.new works.new
            (print (in_style (Some variant) (tree_at self.now end)))) }
        ensures left { IfOk result (Leaves self.now works.old works.new
            (print_weight (tree_at self.now end))) }
    {
        let part = self.part_at(end);
        match part.form {
            Form::Of(Kind::Letter(c, _)) => write_letter(c, variant, out)?,
            // Of two styles, the outer one stays.
            Form::Row(count, _) => {
                self.write_group(
                    Group::Row,
                    count,
                    Some(variant),
                    end - part.size,
                    end - 1,
                    works,
                    out,
                )?
            }
            _ => return Ok(Some(end)),
        }
        Ok(None)
    }

    /// Writes the beginning of the last tree of the first `end` parts, and pushes what follows onto the list. Returns the tree
    /// that comes next, if one does.
    #[inline(always)]
    fn write_at(
        &self,
        end: usize,
        works: &mut Vec<Work>,
        out: &mut String,
    ) -> Result<Option<usize>, AllocError>
        requires place { IsPlace self.now end }
        requires inside { AreIn self.now works.old.items }
        ensures print { IfOk result (Writes self.now out.old works.old out.new works.new
            (print (tree_at self.now end))) }
        ensures left { IfOk result (Leaves self.now works.old works.new
            (begun_weight (tree_at self.now end))) }
    {
        let part = self.part_at(end);
        match part.form {
            Form::Of(kind) => {
                if kind.arity() > 0 {
                    return self.write_operands(kind, end - 1, works, out);
                }
                self.write_leaf_at(end, out)?
            }
            Form::Row(count, own) => {
                self.write_group(Group::Row, count, own, end - part.size, end - 1, works, out)?
            }
            Form::Matrix(count, own, align) => {
                let group = Group::Matrix(align);
                self.write_group(group, count, own, end - part.size, end - 1, works, out)?
            }
            Form::Slashed => return self.write_under_slash(end - 1, works, out),
            _ => self.write_rare_leaf(end, out)?,
        }
        Ok(None)
    }

    /// Returns whether the last of the first `end` parts has no operands.
    #[inline(always)]
    #[tactic(auto, using(crate::proofs::Leaves::leaf_by_size))]
    pub(crate) fn is_leaf(&self, end: usize) -> bool
        requires { IsPlace self.now end }
        ensures { result ≡ true → IsLeaf self.now end }
    {
        self.part_at(end).size == 1
    }

    /// Writes a part that has no operands.
    #[inline(never)]
    pub(crate) fn write_leaf_at(&self, end: usize, out: &mut String) -> Result<(), AllocError>
        requires place { IsPlace self.now end }
        requires leaf { IsLeaf self.now end }
        ensures { Appends out.old out.new (print (tree_at self.now end)) result }
    {
        match self.part_at(end).form {
            Form::Of(Kind::Letter(c, variant)) => write_letter(c, variant, out),
            Form::Of(Kind::Number(digits)) => write_number(digits, out),
            Form::Of(Kind::Operator(c)) => write_operator(c, out),
            _ => self.write_rare_leaf(end, out),
        }
    }

    /// Writes a part that has no operands, of any form. It is not inlined, so that frequent ones need not save registers.
    #[inline(never)]
    fn write_rare_leaf(&self, end: usize, out: &mut String) -> Result<(), AllocError>
        requires place { IsPlace self.now end }
        requires leaf { IsLeaf self.now end }
        ensures { Appends out.old out.new (print (tree_at self.now end)) result }
    {
        match self.part_at(end).form {
            Form::Of(kind) => write_leaf(kind, out),
            Form::Name(place) => write_text("<mi>", self.text(place), "</mi>", out),
            Form::Words(place) => write_text("<mtext>", self.text(place), "</mtext>", out),
            Form::Undefined(place) => append_undefined(self.text(place), out),
            Form::Stretched(c) => write_char("<mo stretchy=\"true\">", c, "</mo>", out),
            Form::StretchedParen(paren) => out.push_str(stretched_markup(paren)),
            Form::Row(_, _) => out.push_str("<mrow></mrow>"),
            _ => unreachable!(),
        }
    }

    /// Writes what a slash strikes through: a letter or an operator shows the slash, no other tree does.
    fn write_under_slash(
        &self,
        end: usize,
        works: &mut Vec<Work>,
        out: &mut String,
    ) -> Result<Option<usize>, AllocError>
        requires place { IsPlace self.now end }
        requires inside { AreIn self.now works.old.items }
        ensures print { IfOk result (Writes self.now out.old works.old out.new works.new
            (print (slashed (tree_at self.now end)))) }
        ensures left { IfOk result (Leaves self.now works.old works.new
            (begun_weight (slashed (tree_at self.now end)))) }
    {
        let _ = works;
        match self.part_at(end).form {
            Form::Of(Kind::Letter(c, variant)) => {
                write_char(letter_open(variant), c, "&#x0338;</mi>", out)?
            }
            Form::Of(Kind::Operator(c)) => write_char("<mo>", c, "&#x0338;</mo>", out)?,
            _ => return Ok(Some(end)),
        }
        Ok(None)
    }
}
