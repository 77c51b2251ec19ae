//! What is still to be written.
ghost use Rattle.std.specs.Prelude.{◌≡◌, []};

use latex2mathml_attributes::columns::Columns;
use std::alloc::Global;
use std::marker::Model;

/// The list of what is still to be written. One formula leaves its room to the next.
#[derive(Drop)]
pub struct Works {
    pub(crate) list: Vec<Work>,
}

impl Model for Works {
    ghost use Rattle.std.specs.Prelude.{List};
    ghost use Rattle.latex2mathml_builder.specs.declared.works.Work.{Work};

    ghost Value = { List Work };

    ghost view = { λ w. w.list.items };
}

impl Works {
    /// Returns an empty list without room.
    pub fn new(alloc: Global) -> Works
        ensures { result ≡ [] }
    {
        Works {
            list: Vec::new(alloc),
        }
    }
}

/// Settled elements next to each other that are still to be written, and the end tag after them.
#[derive(Clone, Copy)]
pub(crate) struct Run {
    /// The place of the first.
    pub(crate) next: usize,
    /// The place after the last.
    pub(crate) end: usize,
    /// The end tag. It may be empty.
    pub(crate) tag: &'static str,
}

/// A piece of what is still to be written.
#[derive(Clone, Copy)]
pub(crate) enum Work {
    /// Settled elements and the end tag after them.
    Elements(Run),
    /// A number of settled elements, as lines and rows of these columns, and the end tag of their table: the place of the first,
    /// and how many there are.
    Rows(Columns, usize, usize),
    /// Cells of a row of these columns, and the end tag of the row: the place of the settled element with which the row begins,
    /// the place of the first one to write, and how many there are to write.
    Cells(Columns, usize, usize, usize),
}
