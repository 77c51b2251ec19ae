//! What is still to be written.

use crate::write::shapes::Tag;
use latex2mathml_tokens::attribute::{Accent, Variant};
use latex2mathml_tokens::names::Paren;
use std::alloc::Global;

/// Room for what is still to be written, which one formula leaves to the next.
#[derive(Drop)]
pub struct Works {
    pub(crate) list: Vec<Work>,
}

impl Works {
    /// Returns a `Works` that has no room yet.
    pub fn new(alloc: Global) -> Works {
        Works {
            list: Vec::new(alloc),
        }
    }
}

/// What is still to be written.
#[derive(Clone, Copy)]
pub(crate) enum Work {
    /// The last tree of the given number of parts.
    Tree(usize),
    /// The same, in a style.
    Styled(Variant, usize),
    /// What ends an element.
    End(Tag),
    /// What opens an element, and the brace in it.
    Brace(Tag, char),
    /// A brace and what ends its element.
    LastBrace(char, Tag),
    /// A sign and what ends its element.
    LastSign(char, Accent, Tag),
    /// A closing fence and what ends its element.
    LastFence(Option<Paren>, Tag),
}
