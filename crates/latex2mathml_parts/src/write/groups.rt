//! Groups of trees: rows and matrices.
ghost use Rattle.std.specs.Prelude.{◌≡◌, ◌+◌, ◌-◌, ◌≤◌, ◌<◌, ℕ, true, OnOk, drop, length, MatchOption, None};
ghost use Rattle.latex2mathml_trees.specs.{Print.print, Texts.Appends};
ghost use Rattle.latex2mathml_parts.specs.Forests.{AreLeaves, IsPlace, members_at, tree_at, trees_at};
ghost use Rattle.latex2mathml_parts.specs.Groups.{IsMark, IsNoMark, group_at, group_close, group_open, names_of};
ghost use Rattle.latex2mathml_parts.specs.Groups.{member_in, members_in};
ghost use Rattle.latex2mathml_parts.specs.Shapes.{begun_weight, ending_text, opening_text, print_weight};
ghost use Rattle.latex2mathml_parts.specs.Works.{Adds, AreIn, IsIn, Leaves, Writes, load};
ghost use Rattle.latex2mathml_parts.specs.Works.{members_weight_at, work_print, work_weight};

use crate::form::Form;
use crate::kind::Kind;
use crate::parts::Parts;
use crate::work::Work;
use crate::write::shapes::Tag;
use latex2mathml_tokens::attribute::{ColumnAlign, Variant};
use std::alloc::AllocError;

/// What trees are members of.
#[derive(Clone, Copy)]
pub(crate) enum Group {
    Row,
    Matrix(ColumnAlign),
}

impl Group {
    /// Returns what is around the members.
    #[inline(always)]
    fn tag(self) -> Tag
        ensures opening { opening_text result ≡ group_open self }
        ensures ending { ending_text result ≡ group_close self }
    {
        match self {
            Group::Row => Tag::Row,
            Group::Matrix(ColumnAlign::Center) => Tag::Matrix,
            Group::Matrix(ColumnAlign::Left) => Tag::LeftMatrix,
            Group::Matrix(ColumnAlign::Right) => Tag::RightMatrix,
        }
    }

    /// Returns how many operands precede the members.
    #[inline(always)]
    fn names(self) -> usize
        ensures { result ≡ names_of self }
    {
        match self {
            Group::Row => 0,
            Group::Matrix(_) => 1,
        }
    }
}

impl Parts<'_> {
    /// Writes what precedes the members of a group whose operands are from `start` to `end`, and pushes the `count`
    /// members and what follows them onto the list. If they are leaves, it writes them at once.
    #[inline(never)]
    #[tactic(auto, using(crate::proofs::Groups::group_steps))]
    pub(crate) fn write_group(
        &self,
        group: Group,
        count: usize,
        style: Option<Variant>,
        start: usize,
        end: usize,
        works: &mut Vec<Work>,
        out: &mut String,
    ) -> Result<(), AllocError>
        requires all { count + names_of group ≤ length (trees_at self.now end) }
        requires start { trees_at self.now start
            ≡ drop (count + names_of group) (trees_at self.now end) }
        requires order { start ≤ end }
        requires within { end ≤ length self.now.list }
        requires inside { AreIn self.now works.old.items }
        ensures print { OnOk result (Writes self.now out.old works.old out.new works.new
            (print (group_at self.now group count style end)) None) }
        ensures left { OnOk result (Leaves self.now works.old works.new
            (begun_weight (group_at self.now group count style end)) None) }
    {
        let tag = group.tag();
        tag.open(out)?;
        if style.is_none() && end - start == count + group.names() {
            self.write_leaves(group, count, end, out)?;
            tag.end(out)?;
            return Ok(());
        }
        self.push_work(Work::End(tag), works)?;
        self.push_members(group, count, style, end, works)?;
        Ok(())
    }

    /// Writes `count` members of a group, which are leaves.
    #[inline(always)]
    #[tactic(auto, using(crate::proofs::Leaves::leaf_steps))]
    fn write_leaves(
        &self,
        group: Group,
        count: usize,
        end: usize,
        out: &mut String,
    ) -> Result<(), AllocError>
        requires all { count ≤ length (trees_at self.now end) }
        requires within { end ≤ length self.now.list }
        requires leaves { AreLeaves self.now (end - count) end }
        ensures { Appends out.old out.new
            (members_in group None (members_at self.now count end)) result }
    {
        let mut place = end - count;
        'members: while place < end {
            place += 1;
            match self.mark(group, place) {
                Some(tag) => tag.end(out)?,
                None => self.write_leaf_at(place, out)?,
            }
        }
        Ok(())
    }

    /// Pushes `count` members of a group onto the list, with the first on top.
    #[tactic(auto, using(crate::proofs::Works::taken, std::proofs::lemmas::Grind::common_steps))]
    fn push_members(
        &self,
        group: Group,
        count: usize,
        style: Option<Variant>,
        end: usize,
        works: &mut Vec<Work>,
    ) -> Result<(), AllocError>
        requires all { count ≤ length (trees_at self.now end) }
        requires within { end ≤ length self.now.list }
        requires inside { AreIn self.now works.old.items }
        ensures inside { OnOk result (AreIn self.now works.new.items) }
        ensures print { OnOk result (Adds self.now works.old works.new
            (members_in group style (members_at self.now count end))) }
        ensures weight { OnOk result (load self.now works.new.items
            ≤ load self.now works.old.items + members_weight_at self.now count end) }
    {
        let mut place = end;
        let mut left = count;
        'members: while left > 0 {
            self.push_work(self.member(group, place, style), works)?;
            place = self.before_last(place);
            left -= 1;
        }
        Ok(())
    }

    /// Returns a member of a group: a tree, or in a matrix the end of a cell or of a row of the matrix.
    #[inline(always)]
    fn member(&self, group: Group, end: usize, style: Option<Variant>) -> Work
        requires place { IsPlace self.now end }
        ensures inside { IsIn self.now result }
        ensures print { work_print self.now result ≡ member_in group style (tree_at self.now end) }
        ensures weight { work_weight self.now result ≤ print_weight (tree_at self.now end) }
    {
        if let Some(tag) = self.mark(group, end) {
            return Work::End(tag);
        }
        match style {
            None => Work::Tree(end),
            Some(variant) => Work::Styled(variant, end),
        }
    }

    /// Returns what a member of a matrix is written as if it ends a cell or a row of the matrix.
    #[inline(always)]
    fn mark(&self, group: Group, end: usize) -> Option<Tag>
        requires place { IsPlace self.now end }
        ensures { MatchOption result (IsNoMark group (tree_at self.now end))
            (IsMark group (tree_at self.now end)) }
    {
        match group {
            Group::Row => None,
            Group::Matrix(_) => match self.part_at(end).form {
                Form::Of(Kind::NewLine) => Some(Tag::MatrixRow),
                Form::Of(Kind::Ampersand) => Some(Tag::Cell),
                _ => None,
            },
        }
    }

    /// Pushes a work onto the list.
    #[inline(always)]
    #[tactic(auto, unfolding(crate::specs::Works::AreIn))]
    pub(crate) fn push_work(&self, work: Work, works: &mut Vec<Work>) -> Result<(), AllocError>
        requires one { IsIn self.now work }
        requires inside { AreIn self.now works.old.items }
        ensures inside { OnOk result (AreIn self.now works.new.items) }
        ensures print { OnOk result (Adds self.now works.old works.new (work_print self.now work)) }
        ensures weight { OnOk result (load self.now works.new.items
            ≡ load self.now works.old.items + work_weight self.now work) }
    {
        let _ = self;
        Ok(works.push(work)?)
    }
}
