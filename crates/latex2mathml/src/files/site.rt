//! The interface between a walk and the place that holds the documents.
ghost use Rattle.std.specs.Prelude.{IfErr, IfOk, List, Option};
ghost use Rattle.latex2mathml.specs.Files.{Answer, Comes, Holds, IsAsked, IsDocumentFault, Stands};

use crate::error::FileFault;
use std::alloc::AllocError;

/// The kind of what is at a path. Links are followed.
#[derive(Debug, Clone, Copy, PartialEq)]
pub enum PathKind {
    Directory,
    File,
    /// Neither a directory nor a file, or nothing.
    Other,
}

/// What a directory holds.
#[derive(Debug, Drop)]
pub struct Listing {
    /// The names of its entries, in any order.
    pub names: Vec<String>,
    /// How many entries could not be read, or have a name that is not text.
    pub unread: usize,
}

/// Files and directories, addressed by their paths. A walk calls these functions.
pub trait Site {
    /// All questions that the site was asked so far, with its answers, where that is known.
    ghost answers: { Self → Option (List Answer) };

    /// Returns the kind of what is at a path.
    fn kind_at(&mut self, path: &str) -> PathKind
        ensures asked { IsAsked (answers self.old) (answers self.new) (Stands path.now result) };

    /// Returns what the directory at a path holds, or `None` if it cannot be listed. The only `Err` is out of memory.
    fn list(&mut self, path: &str) -> Result<Option<Listing>, AllocError>
        ensures asked { IfOk result (λ listing.
            IsAsked (answers self.old) (answers self.new) (Holds path.now listing)) };

    /// Converts the document at a path in place, or returns why it could not: a fault of reading, of its text, or of writing.
    fn convert(&mut self, path: &str) -> Result<(), FileFault>
        ensures asked { IsAsked (answers self.old) (answers self.new) (Comes path.now result) }
        ensures fault { IfErr result IsDocumentFault };
}
