//! The stack of open elements.
ghost use Rattle.std.specs.Prelude.{◌≡◌, ◌⊎◌, ◌+◌, ◌-◌, ◌<◌, ◌≤◌, ◌∷◌, ◌++◌, [], false, true, IfOk, MatchOption, None, OnErr, OnOk, Some, drop, length, option_map, take};
ghost use Rattle.std.specs.Char.{encode_utf8};
ghost use Rattle.latex2mathml_elements.specs.{Attributes.plain, Attributes.styled, Element.Mrow};
ghost use Rattle.latex2mathml_elements.specs.Element.{children, container, rectangle, space};
ghost use Rattle.latex2mathml_attributes.specs.Arounds.{extent_of};
ghost use Rattle.latex2mathml_builder.specs.Stacks.{around_first};
ghost use Rattle.latex2mathml_builder.specs.Built.{Fits, HasText, Puts, Replaces, between, element_in, element_of, elements_in, is_token_part, nothing, settled_in};
ghost use Rattle.latex2mathml_attributes.specs.Columns.{columns_of};
ghost use Rattle.latex2mathml_attributes.specs.Names.{attributes_of, container_of, element_with_text, math_style_of, pair_of, token_of, triple_of};
ghost use Rattle.latex2mathml_builder.specs.Stacks.{are_tokens, given, group_at, is_space_at, is_token, joined, lengthened, ordered, pair_with, table_with, token_at, triple_with};

use crate::part::Part;
use latex2mathml_attributes::around::Around;
use latex2mathml_attributes::attributes::{Attributes, MathStyle};
use latex2mathml_attributes::columns::Columns;
use latex2mathml_attributes::extent::Extent;
use latex2mathml_attributes::tag::{Container, Pair, Token, Triple};
use std::alloc::{AllocError, Global};
use std::marker::Model;

/// The stack of open elements. An element is open until another element is made of it. The last one is uppermost.
/// Contracts refer to the list of open elements as `elements_in`, the uppermost first.
///
/// An `Err` means out of memory, and changes nothing. Only `text` may leave its element without its text.
#[derive(Drop)]
pub struct Builder {
    /// The texts of the tokens, one after the other.
    texts: String,
    /// The elements that are children of others. The children of one element are next to each other, and come before any
    /// element that has it as its child.
    settled: Vec<Part>,
    stack: Vec<Part>,
}

impl Model for Builder {
    ghost use Rattle.latex2mathml_builder.specs.Built.{Built, IsSound};
    ghost use Rattle.std.specs.Prelude.{string_bytes};

    ghost Value = { Built };

    ghost view = { λ b. record {
      texts = string_bytes b.texts;
      settled = b.settled.items;
      stack = b.stack.items;
    } };

    ghost invariant = { λ b. IsSound (string_bytes b.texts) b.settled.items b.stack.items };
}

impl Builder {
    /// Returns a builder without elements.
    pub fn new(alloc: Global) -> Builder
        ensures { result ≡ nothing }
    {
        Builder {
            texts: String::new(alloc),
            settled: Vec::new(alloc),
            stack: Vec::new(alloc),
        }
    }

    /// Drops all elements, including those that are children of others, and all texts, and keeps their room.
    pub fn clear(&mut self)
        ensures { self.new ≡ nothing }
    {
        self.texts.clear();
        self.settled.clear();
        self.stack.clear();
    }

    /// Returns how many elements are open.
    pub fn len(&self) -> usize
        ensures { result ≡ length (elements_in self.now) }
    {
        self.stack.as_slice().len()
    }

    /// Pushes an element that holds a text. The text is empty at first.
    #[inline(always)]
    pub fn token(&mut self, tag: Token, attributes: Attributes) -> Result<(), AllocError>
        ensures elements { OnOk result
            (Puts (element_with_text tag attributes []) self.old self.new) }
        ensures err { OnErr result (self.new ≡ self.old) }
    {
        let end = self.texts.len();
        self.stack
            .push(Part::Token(tag, attributes.if_any(), end, end))?;
        Ok(())
    }

    /// Pushes an element that holds this text.
    pub fn text(&mut self, tag: Token, attributes: Attributes, text: &str) -> Result<(), AllocError>
        ensures elements { OnOk result
            (Puts (element_with_text tag attributes text.now) self.old self.new) }
        ensures err { OnErr result ((self.new ≡ self.old)
            ⊎ Puts (element_with_text tag attributes []) self.old self.new) }
    {
        self.token(tag, attributes)?;
        self.push_str(text)?;
        Ok(())
    }

    /// Pushes an element that holds this character.
    #[inline(always)]
    pub fn character(
        &mut self,
        tag: Token,
        attributes: Attributes,
        c: char,
    ) -> Result<(), AllocError>
        ensures elements { OnOk result
            (Puts (element_with_text tag attributes (encode_utf8 c)) self.old self.new) }
        ensures err { OnErr result (self.new ≡ self.old) }
    {
        let start = self.texts.len();
        // Room for the element comes first, so that no character stays without its element.
        self.stack.reserve(1)?;
        self.texts.push(c)?;
        let end = self.texts.len();
        self.stack
            .push_reserved(Part::Token(tag, attributes.if_any(), start, end));
        Ok(())
    }

    /// Appends to the text of the uppermost element, if it holds one. Returns whether it does.
    pub fn push_str(&mut self, text: &str) -> Result<bool, AllocError>
        ensures elements { OnOk result (elements_in self.new
            ≡ lengthened text.now (elements_in self.old)) }
        ensures is_token { IfOk result (λ b. b ≡ is_token (elements_in self.old)) }
        ensures err { OnErr result (self.new ≡ self.old) }
    {
        let Some(&Part::Token(tag, attributes, start, _)) = self.stack.as_slice().last() else {
            return Ok(false);
        };
        self.texts.push_str(text)?;
        let last = self.stack.as_slice().len() - 1;
        self.stack[last] = Part::Token(tag, attributes, start, self.texts.len());
        Ok(true)
    }

    /// Appends a character to the text of the uppermost element, if it holds a text. Returns whether it does.
    pub fn push(&mut self, c: char) -> Result<bool, AllocError>
        ensures elements { OnOk result (elements_in self.new
            ≡ lengthened (encode_utf8 c) (elements_in self.old)) }
        ensures is_token { IfOk result (λ b. b ≡ is_token (elements_in self.old)) }
        ensures err { OnErr result (self.new ≡ self.old) }
    {
        let Some(&Part::Token(tag, attributes, start, _)) = self.stack.as_slice().last() else {
            return Ok(false);
        };
        self.texts.push(c)?;
        let last = self.stack.as_slice().len() - 1;
        self.stack[last] = Part::Token(tag, attributes, start, self.texts.len());
        Ok(true)
    }

    /// Pushes a space, in eighteenths of an em.
    pub fn space(&mut self, width: i32) -> Result<(), AllocError>
        ensures elements { OnOk result (Puts (space width) self.old self.new) }
        ensures err { OnErr result (self.new ≡ self.old) }
    {
        self.stack.push(Part::Space(width))?;
        Ok(())
    }

    /// Pushes a rectangle.
    pub fn rectangle(&mut self, extent: Extent) -> Result<(), AllocError>
        ensures elements { OnOk result (Puts (rectangle (extent_of extent)) self.old self.new) }
        ensures err { OnErr result (self.new ≡ self.old) }
    {
        self.stack.push(Part::Rectangle(extent))?;
        Ok(())
    }

    /// Wraps an element around the uppermost one.
    pub fn surround(&mut self, around: Around) -> Result<(), AllocError>
        requires { 1 ≤ length (elements_in self.old) }
        ensures elements { OnOk result (elements_in self.new
            ≡ around_first around (elements_in self.old) ∷ drop 1 (elements_in self.old)) }
        ensures err { OnErr result (self.new ≡ self.old) }
    {
        let first = self.settled.as_slice().len();
        self.wrap(1, false, Part::Around(around, first))
    }

    /// Inserts a space, in eighteenths of an em, below the uppermost element.
    pub fn space_below(&mut self, width: i32) -> Result<(), AllocError>
        requires { 0 < length (elements_in self.old) }
        ensures elements { OnOk result (elements_in self.new
            ≡ take 1 (elements_in self.old) ++ (space width ∷ drop 1 (elements_in self.old))) }
        ensures err { OnErr result (self.new ≡ self.old) }
    {
        let last = self.stack.as_slice().len() - 1;
        self.stack.push(self.stack[last])?;
        self.stack[last] = Part::Space(width);
        Ok(())
    }

    /// Makes one element without attributes of the two uppermost ones, if both hold a text. Its text is that of the lower one,
    /// followed by that of the upper one. Returns whether both hold a text.
    pub fn join(&mut self) -> bool
        ensures elements { elements_in self.new ≡ joined (elements_in self.old) }
        ensures are_tokens { result ≡ are_tokens (elements_in self.old) }
    {
        let len = self.stack.as_slice().len();
        if len < 2 {
            return false;
        }
        let Part::Token(_, _, _, end) = self.stack[len - 1] else {
            return false;
        };
        let Part::Token(tag, _, start, _) = self.stack[len - 2] else {
            return false;
        };
        self.stack[len - 2] = Part::Token(tag, None, start, end);
        self.stack.truncate(len - 1);
        true
    }

    /// Returns the name and the attributes of the element that has `depth` others above it, if it holds a text.
    pub fn token_at(&self, depth: usize) -> Option<(Token, Attributes)>
        ensures { let found = token_at depth (elements_in self.now)
            in MatchOption result (found ≡ None)
            (λ token. found ≡ Some (token_of token.0, attributes_of token.1)) }
    {
        let len = self.stack.as_slice().len();
        if depth >= len {
            return None;
        }
        match self.stack[len - 1 - depth] {
            Part::Token(tag, attributes, _, _) => {
                Some((tag, attributes.unwrap_or(Attributes::plain())))
            }
            _ => None,
        }
    }

    /// Whether MathML takes the element below `depth` others as space, as it does with words and spaces.
    pub fn is_space_at(&self, depth: usize) -> bool
        ensures { result ≡ is_space_at depth (elements_in self.now) }
    {
        let len = self.stack.as_slice().len();
        if depth >= len {
            return false;
        }
        self.open_at(len - 1 - depth).is_space()
    }

    /// Gives these attributes to the element that has `depth` others above it, if it holds a text.
    pub fn give(&mut self, depth: usize, attributes: Attributes)
        ensures elements { elements_in self.new
            ≡ given depth (attributes_of attributes) (elements_in self.old) }
    {
        let len = self.stack.as_slice().len();
        if depth >= len {
            return;
        }
        let place = len - 1 - depth;
        let Part::Token(tag, _, start, end) = self.stack[place] else {
            return;
        };
        self.stack[place] = Part::Token(tag, attributes.if_any(), start, end);
    }

    /// Makes an element of the `count` uppermost ones.
    #[inline(always)]
    pub fn container(
        &mut self,
        tag: Container,
        attributes: Attributes,
        count: usize,
    ) -> Result<(), AllocError>
        requires { count ≤ length (elements_in self.old) }
        ensures elements { OnOk result (Replaces count
            (λ xs. container (container_of tag) (attributes_of attributes) (children xs))
            self.old self.new) }
        ensures err { OnErr result (self.new ≡ self.old) }
    {
        let attributes = attributes.if_any();
        if count == 0 {
            self.stack.push(Part::Container(tag, attributes, 0, 0))?;
            return Ok(());
        }
        let first = self.settled.as_slice().len();
        self.wrap(count, false, Part::Container(tag, attributes, first, count))
    }

    /// Makes an element of the two uppermost ones. If they are exchanged, the uppermost one becomes the first.
    #[inline(always)]
    pub fn pair(
        &mut self,
        tag: Pair,
        attributes: Attributes,
        is_exchanged: bool,
    ) -> Result<(), AllocError>
        requires { 2 ≤ length (elements_in self.old) }
        ensures elements { OnOk result (Replaces 2
            (λ xs. pair_with (pair_of tag) (attributes_of attributes) (ordered is_exchanged xs))
            self.old self.new) }
        ensures err { OnErr result (self.new ≡ self.old) }
    {
        let first = self.settled.as_slice().len();
        self.wrap(2, is_exchanged, Part::Pair(tag, attributes.if_any(), first))
    }

    /// Makes a row of the three uppermost elements, in which the lower two of them are exchanged.
    pub fn fence(&mut self) -> Result<(), AllocError>
        requires { 3 ≤ length (elements_in self.old) }
        ensures elements { OnOk result (Replaces 3
            (λ xs. container Mrow plain (children (ordered true xs))) self.old self.new) }
        ensures err { OnErr result (self.new ≡ self.old) }
    {
        let first = self.settled.as_slice().len();
        self.wrap(3, true, Part::Container(Container::Mrow, None, first, 3))
    }

    /// Makes an element of the three uppermost ones. If they are exchanged, the uppermost one becomes the second.
    #[inline(always)]
    pub fn triple(
        &mut self,
        tag: Triple,
        attributes: Attributes,
        is_exchanged: bool,
    ) -> Result<(), AllocError>
        requires { 3 ≤ length (elements_in self.old) }
        ensures elements { OnOk result (Replaces 3
            (triple_with (triple_of tag) (attributes_of attributes) is_exchanged)
            self.old self.new) }
        ensures err { OnErr result (self.new ≡ self.old) }
    {
        let first = self.settled.as_slice().len();
        self.wrap(
            3,
            false,
            Part::Triple(tag, attributes.if_any(), first, is_exchanged),
        )
    }

    /// Makes a table of the `count` uppermost elements: a rectangle becomes a line between rows, and each other element a row. The
    /// children of an `mrow` become the cells of its row, and any other element is alone in a cell.
    pub fn table(
        &mut self,
        style: Option<MathStyle>,
        columns: Columns,
        count: usize,
    ) -> Result<(), AllocError>
        requires some { 0 < count }
        requires all { count ≤ length (elements_in self.old) }
        ensures elements { OnOk result (Replaces count
            (table_with (styled (option_map math_style_of style)) (columns_of columns))
            self.old self.new) }
        ensures err { OnErr result (self.new ≡ self.old) }
    {
        let first = self.settled.as_slice().len();
        self.wrap(count, false, Part::Table(style, columns, first, count))
    }

    /// Keeps one of the `count` uppermost elements, which has `depth` others above it, and loses the others. If it holds a text,
    /// a row of it alone is kept.
    pub fn keep(&mut self, depth: usize, count: usize) -> Result<(), AllocError>
        requires one { depth < count }
        requires all { count ≤ length (elements_in self.old) }
        ensures elements { OnOk result (elements_in self.new
            ≡ group_at depth (elements_in self.old) ∷ drop count (elements_in self.old)) }
        ensures err { OnErr result (self.new ≡ self.old) }
    {
        let place = self.settled.as_slice().len() + (count - 1 - depth);
        let kept = *self.open_at(self.stack.as_slice().len() - 1 - depth);
        let whole = match kept {
            Part::Token(_, _, _, _) => Part::Container(Container::Mrow, None, place, 1),
            part => part,
        };
        self.wrap(count, false, whole)
    }

    /// Replaces the `count` uppermost elements by one. They become settled, with the first two of them exchanged if the flag
    /// says so.
    #[inline(always)]
    fn wrap(&mut self, count: usize, is_exchanged: bool, whole: Part) -> Result<(), AllocError>
        requires some { 0 < count }
        requires all { count ≤ length (elements_in self.old) }
        requires fits { Fits self.old.texts (length self.old.settled + count) whole }
        requires no_token { is_token_part whole ≡ false }
        ensures elements { OnOk result (Replaces count (λ xs. element_of self.old.texts
            (settled_in self.old ++ ordered is_exchanged xs) whole) self.old self.new) }
        ensures err { OnErr result (self.new ≡ self.old) }
    {
        let start = self.stack.as_slice().len() - count;
        settle(&mut self.settled, &self.stack[start..], is_exchanged)?;
        self.stack[start] = whole;
        self.stack.truncate(start + 1);
        Ok(())
    }

    /// Returns how many elements are settled.
    pub(crate) fn settled_len(&self) -> usize
        ensures { result ≡ length self.now.settled }
    {
        self.settled.as_slice().len()
    }

    /// Returns a settled element.
    pub(crate) fn settled_at(&self, place: usize) -> &Part
        requires { place < length self.now.settled }
        ensures fits { Fits self.now.texts (length self.now.settled) result.now }
        ensures element { drop place (settled_in self.now)
            ≡ element_in self.now result.now ∷ drop (place + 1) (settled_in self.now) }
    {
        &self.settled[place]
    }

    /// Returns an open element.
    pub(crate) fn open_at(&self, place: usize) -> &Part
        requires { place < length self.now.stack }
        ensures fits { Fits self.now.texts (length self.now.settled) result.now }
        ensures element { drop (length self.now.stack - (place + 1)) (elements_in self.now)
            ≡ element_in self.now result.now
            ∷ drop (length self.now.stack - place) (elements_in self.now) }
    {
        &self.stack[place]
    }

    /// Returns a part of the texts.
    pub(crate) fn text_between(&self, start: usize, end: usize) -> &str
        requires { HasText self.now.texts start end }
        ensures { result.now ≡ between start end self.now.texts }
    {
        &self.texts.as_str()[start..end]
    }
}

/// Appends parts, with the first two of them exchanged if the flag says so.
#[inline(always)]
fn settle(settled: &mut Vec<Part>, parts: &[Part], is_exchanged: bool) -> Result<(), AllocError>
    ensures items { OnOk result (settled.new.items
        ≡ settled.old.items ++ ordered is_exchanged parts.now) }
    ensures err { OnErr result (settled.new.items ≡ settled.old.items) }
{
    let first = settled.as_slice().len();
    append_parts(settled, parts)?;
    if is_exchanged && parts.len() >= 2 {
        settled.swap(first, first + 1);
    }
    Ok(())
}

/// Appends parts. All that settle parts call this one, and have the rest inlined: most of it is known there.
#[inline(never)]
fn append_parts(settled: &mut Vec<Part>, parts: &[Part]) -> Result<(), AllocError>
    ensures items { OnOk result (settled.new.items ≡ settled.old.items ++ parts.now) }
    ensures err { OnErr result (settled.new.items ≡ settled.old.items) }
{
    settled.extend_from_slice(parts)
}
