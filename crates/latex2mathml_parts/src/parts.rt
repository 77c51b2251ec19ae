//! The list of the parts: where the trees in it are, and how a part is put or replaced.
ghost use Rattle.std.specs.Prelude.{◌≡◌, ◌-◌, ◌<◌, ◌≤◌, [], IfOk, OnOk, drop, length, slice_index_or, string_bytes};
ghost use Rattle.latex2mathml_parts.specs.Forests.{IsPlace, Stands, last_as, one_more};
ghost use Rattle.latex2mathml_parts.specs.Forests.{trees_at, trees_in, with_form};
ghost use Rattle.latex2mathml_parts.specs.Forms.{HasText, arity_of};

use crate::form::{Form, Part};
use crate::work::Works;
use std::alloc::{AllocError, Global};
use std::marker::Model;

/// The number of parts for which room is reserved at once.
const ROOM: usize = 16;

/// The parts of the trees that were read and are not yet written, in postfix order, with the texts that were spelled out.
/// Contracts see both. Through `trees_in`, they refer to the list of the trees, the last first.
#[derive(Drop)]
pub struct Parts<'a> {
    pub(crate) alloc: Global,
    list: Vec<Part<'a>>,
    texts: Vec<String>,
}

impl<'a> Model for Parts<'a> {
    ghost use Rattle.latex2mathml_parts.specs.Forests.{AreWhole, Forest, aside};

    ghost Value = { Forest };

    ghost view = { λ p. record { texts = aside p.texts.items; list = p.list.items } };

    ghost invariant = { λ p. AreWhole (aside p.texts.items) p.list.items };
}

impl<'a> Parts<'a> {
    /// Returns a list without parts.
    #[tactic(auto, unfolding(crate::specs::Forests::AreWhole))]
    pub fn new(alloc: Global) -> Parts<'a>
        ensures { trees_in result ≡ [] }
    {
        Parts {
            alloc,
            list: Vec::new(alloc),
            texts: Vec::new(alloc),
        }
    }

    /// Reserves room for a node of common length at once, so that the lists do not grow for each part. The only `Err` is out of
    /// memory.
    #[inline(always)]
    pub fn make_room(&mut self, works: &mut Works) -> Result<(), AllocError>
        ensures { self.new ≡ self.old }
    {
        self.list.reserve(ROOM)?;
        works.list.reserve(ROOM)
    }

    /// Drops all parts and texts, and keeps the room of the lists.
    #[tactic(auto, unfolding(crate::specs::Forests::AreWhole))]
    pub fn clear(&mut self)
        ensures list { self.new.list ≡ [] }
        ensures texts { self.new.texts ≡ [] }
        ensures trees { trees_in self.new ≡ [] }
    {
        self.list.clear();
        self.texts.clear();
    }

    /// Returns how many parts there are: at least as many as trees.
    #[tactic(auto, using(crate::proofs::Forests::forest_length))]
    pub fn len(&self) -> usize
        ensures count { result ≡ length self.now.list }
        ensures trees { length (trees_in self.now) ≤ result }
    {
        self.list.as_slice().len()
    }

    /// Returns a text that was set aside.
    pub(crate) fn text(&self, place: usize) -> &str
        requires { place < length self.now.texts }
        ensures { result.now ≡ slice_index_or self.now.texts place [] }
    {
        self.texts[place].as_str()
    }

    /// Returns the last of the first `end` parts.
    #[tactic(auto, unfolding(crate::specs::Forests::AreWhole))]
    pub(crate) fn part_at(&self, end: usize) -> Part<'a>
        requires { IsPlace self.now end }
        ensures stands { Stands self.now.texts self.now.list (end - 1) result }
        ensures trees { trees_at self.now end ≡ with_form self.now result.form (end - 1) }
    {
        self.list[end - 1]
    }

    /// Returns the last part of all.
    pub(crate) fn last(&self) -> Part<'a>
        requires { 0 < length (trees_in self.now) }
        ensures stands { Stands self.now.texts self.now.list (length self.now.list - 1) result }
        ensures trees { trees_in self.now ≡ last_as self.now result.form }
    {
        self.part_at(self.len())
    }

    /// Returns where the trees before the last of the first `end` parts end.
    #[tactic(auto, using(crate::proofs::Puts::below_form))]
    pub(crate) fn before_last(&self, end: usize) -> usize
        requires { IsPlace self.now end }
        ensures trees { trees_at self.now result ≡ drop 1 (trees_at self.now end) }
        ensures less { result < end }
    {
        end - self.part_at(end).size
    }

    /// Returns where the last `count` trees begin.
    #[inline(always)]
    pub(crate) fn before(&self, count: usize) -> usize
        requires { count ≤ length (trees_in self.now) }
        ensures trees { trees_at self.now result ≡ drop count (trees_in self.now) }
        ensures within { result ≤ length self.now.list }
    {
        let mut place = self.len();
        let mut left = count;
        'trees: while left > 0 {
            place = self.before_last(place);
            left -= 1;
        }
        place
    }

    /// Puts a part after its operands.
    #[inline(always)]
    #[tactic(auto, using(crate::proofs::Forests::whole_pushed, crate::proofs::Forests::forest_pushed))]
    pub(crate) fn push(&mut self, arity: usize, form: Form<'a>) -> Result<(), AllocError>
        requires arity { arity ≡ arity_of form }
        requires text { HasText self.old.texts form }
        requires all { arity ≤ length (trees_in self.old) }
        ensures { OnOk result (trees_in self.new ≡ one_more self.old form.entry) }
    {
        let size = self.len() - self.before(arity) + 1;
        self.list.push(Part { form, size })?;
        Ok(())
    }

    /// Puts another part in place of the last.
    #[tactic(auto, using(crate::proofs::Forests::whole_replaced, crate::proofs::Forests::forest_pushed, crate::proofs::Forests::last_set, crate::proofs::Forests::forest_length))]
    pub(crate) fn replace_last(&mut self, part: Part<'a>)
        requires some { 0 < length (trees_in self.old) }
        requires stands { Stands self.old.texts self.old.list (length self.old.list - 1) part }
        ensures { trees_in self.new ≡ last_as self.old part.entry.form }
    {
        let last = self.list.as_slice().len() - 1;
        self.list[last] = part;
    }

    /// Sets a text aside, and returns its place.
    #[tactic(auto, using(crate::proofs::Forests::whole_aside, crate::proofs::Forests::forest_aside, std::proofs::lemmas::Grind::common_steps))]
    pub(crate) fn set_aside(&mut self, text: String) -> Result<usize, AllocError>
        ensures trees { trees_in self.new ≡ trees_in self.old }
        ensures place { IfOk result (λ place. (place < length self.new.texts)
            × (slice_index_or self.new.texts place [] ≡ string_bytes text)) }
    {
        let place = self.texts.len();
        self.texts.push(text)?;
        Ok(place)
    }
}
