//! The files of the system as a site.
ghost use Rattle.std.specs.Prelude.{◌≡◌, ◌<◌, ◌^◌, None, IfErr, IfOk, List, MatchResult, map, string_bytes};
ghost use Rattle.std.specs.{Fs.file_type};
ghost use Rattle.std.specs.Iterator.{Drains, IsFinite, size};
ghost use Rattle.latex2mathml.specs.{Files.IsReadingFault, Files.IsWritingFault, Entries.IsKind, Entries.names_of, Entries.unread_of};

use super::site::{Listing, PathKind, Site};
use crate::error::FileFault;
use crate::input::{Reading, read_document};
use crate::stream::{Stream, write_document};
use std::alloc::{AllocError, Allocator, Global};
use std::fs::{DirEntry, Metadata};
use std::rt::Files;
use std::{fs, io};

/// The files of the system as a [`Site`]. What they answer is not known.
#[derive(Drop)]
pub struct Disk<'a, R> {
    pub rt: &'a R,
    pub alloc: Global,
}

impl<R: Files + Alloc + Clone + Drop> Site for Disk<'_, R> {
    ghost answers = { λ disk. None };

    fn kind_at(&mut self, path: &str) -> PathKind {
        kind_of(fs::metadata(self.rt, path))
    }

    fn list(&mut self, path: &str) -> Result<Option<Listing>, AllocError> {
        let Ok(entries) = fs::read_dir(self.rt, path) else {
            return Ok(None);
        };
        Ok(Some(gather(self.alloc, entries)?))
    }

    fn convert(&mut self, path: &str) -> Result<(), FileFault> {
        match read(self.rt, self.alloc, path)? {
            Reading::Changed(answer) => write_anew(self.rt, path, answer.as_str()),
            Reading::Unchanged(_) => Ok(()),
        }
    }
}

/// Returns the kind of what is at a path, from the system's answer for the path. The system is not asked again.
fn kind_of(found: io::Result<Metadata>) -> PathKind
    ensures { MatchResult found
        (λ metadata. IsKind (file_type metadata) result)
        (λ _. result ≡ PathKind.Other) }
{
    match found {
        Ok(metadata) if metadata.is_dir() => PathKind::Directory,
        Ok(metadata) if metadata.is_file() => PathKind::File,
        _ => PathKind::Other,
    }
}

/// Collects the names of the entries, and counts those that could not be read.
fn gather<R: Files + Drop, A: Allocator, I: Iterator<Item = io::Result<DirEntry<R, A>>>>(
    alloc: Global,
    entries: I,
) -> Result<Listing, AllocError>
    requires can { I.can_next entries }
    requires ends { IsFinite (I.remaining entries) }
    requires fits { size (I.remaining entries) < 2 ^ 64 }
    ensures gathered { IfOk result (λ listing. (given : List _) × Drains I.next_gives entries given
        × (map string_bytes listing.names.items ≡ names_of given)
        × (listing.unread ≡ unread_of given)) }
{
    let mut names = Vec::new(alloc);
    let mut unread = 0;
    for entry in entries {
        match entry {
            Ok(entry) => names.push(String::from_str(alloc, entry.file_name())?)?,
            Err(_) => unread += 1,
        }
    }
    Ok(Listing { names, unread })
}

/// Reads a document and converts it.
fn read<R: Files>(rt: &R, alloc: Global, path: &str) -> Result<Reading, FileFault>
    ensures fault { IfErr result IsReadingFault }
{
    let Ok(inner) = fs::open(rt, path) else {
        return Err(FileFault::Read);
    };
    read_document(alloc, &mut Stream::new(inner))
}

/// Empties the file and writes the text of a document to it.
fn write_anew<R: Files>(rt: &R, path: &str, text: &str) -> Result<(), FileFault>
    ensures fault { IfErr result IsWritingFault }
{
    let Ok(inner) = fs::create(rt, path) else {
        return Err(FileFault::Create);
    };
    write_document(&mut Stream::new(inner), text)
}
