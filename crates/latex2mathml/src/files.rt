//! Converts the documents under a path in place.
ghost use Rattle.std.specs.Prelude.{◌≡◌, ◌↔◌, ◌∷◌, ◌++◌, [], List, All, IfOk, IsTrue, OnOk, length, string_bytes};
ghost use Rattle.latex2mathml.specs.Files.{IsDocumentPath, IsListed, IsWalk, IsWalked, IsWhollyWalked, entry_path, levels_read};
ghost use Rattle.latex2mathml.specs.declared.error.FileFault.TheVariants.{Entry};

mod disk;
mod site;

use crate::error::FileFault;
pub use disk::Disk;
pub use site::{Listing, PathKind, Site};
use std::alloc::{AllocError, Global};
use std::rt::Files;

/// A file or a directory that was not converted, and why.
#[derive(Debug, Drop, PartialEq)]
pub struct Unconverted {
    /// The path that the caller passed, followed by the names that lead to the file or the directory.
    pub path: String,
    pub fault: FileFault,
}

/// How many levels of directories are read.
const LEVELS: u32 = 64;

/// Converts the documents under a path in place, as [`replace`](crate::replace) does, and returns what it could not
/// convert. The list is empty if it could convert everything.
///
/// A directory is walked with everything under it, and links are followed. A file is a document if its name ends in
/// `.html` and is longer than that. Any other file is left alone and not listed, and so is a path where nothing exists. A
/// document is written only if its answer differs from what it holds.
///
/// The entries of a directory are visited in the order of their names' bytes, and each subdirectory is walked completely
/// in its turn. The list has the same order. A fault does not end the walk. Its path is the one passed in, followed by the
/// names that lead to it, with slashes between them:
///
/// - [`FileFault::List`]: the directory could not be listed.
/// - [`FileFault::Entry`]: an entry of this directory could not be read, or its name is not text. It comes before the
///   other entries of the directory, once for each such entry.
/// - [`FileFault::TooDeep`]: the directory is below 64 others, including the one passed in, and was not read.
/// - [`FileFault::Read`], [`FileFault::NotText`], [`FileFault::Refused`]: the document could not be opened or read, is
///   not UTF-8, or is refused or memory ran out for it. It is unchanged.
/// - [`FileFault::Create`]: the document could not be opened for writing.
/// - [`FileFault::Write`]: the document was opened and emptied, and then took only the first `written` bytes of its
///   answer. The rest of what it held is lost.
///
/// Returns `AllocError` if memory runs out for the walk itself: for its names, a path, or the list. What was converted
/// until then stays converted.
pub fn convert_html<R: Files + Alloc + Clone + Drop>(
    rt: &R,
    alloc: Global,
    path: &str,
) -> Result<Vec<Unconverted>, AllocError>
    ensures listed { IfOk result (λ unconverted. IsWalk levels_read path.now unconverted.items) }
{
    convert_site(&mut Disk { rt, alloc }, alloc, path)
}

/// Converts the documents under a path of a site, as [`convert_html`] does with those of the system.
///
/// The site is asked once what is at a path. It is then asked what a directory within the 64 levels holds, and to convert
/// a document. It is asked for nothing else, and each entry of a directory is walked. The list has a member for each
/// answer that is a fault, for each entry that a listing could not read, and for each directory below the levels, and no
/// other.
pub fn convert_site<S: Site>(
    site: &mut S,
    alloc: Global,
    path: &str,
) -> Result<Vec<Unconverted>, AllocError>
    ensures walked { IfOk result (λ unconverted.
        IsWhollyWalked path.now (S.answers site.old) (S.answers site.new) unconverted.items) }
{
    let mut unconverted = Vec::new(alloc);
    walk(site, alloc, path, LEVELS, &mut unconverted)?;
    Ok(unconverted)
}

/// Converts what is under a path, down to the given number of levels of directories, and adds to the list what it could
/// not convert.
fn walk<S: Site>(
    site: &mut S,
    alloc: Global,
    path: &str,
    levels: u32,
    unconverted: &mut Vec<Unconverted>,
) -> Result<(), AllocError>
    ensures walked { OnOk result (IsWalked levels path.now
        (S.answers site.old) (S.answers site.new) unconverted.old.items unconverted.new.items) }
{
    match site.kind_at(path) {
        PathKind::Directory => {}
        PathKind::File => {
            if !is_document(path) {
                return Ok(());
            }
            return match site.convert(path) {
                Ok(()) => Ok(()),
                Err(fault) => add(alloc, unconverted, path, fault),
            };
        }
        PathKind::Other => return Ok(()),
    }
    if levels == 0 {
        return add(alloc, unconverted, path, FileFault::TooDeep);
    }
    let Some(Listing { mut names, unread }) = site.list(path)? else {
        return add(alloc, unconverted, path, FileFault::List);
    };
    add_unread(alloc, unconverted, path, unread)?;
    names.sort()?;
    for name in &names {
        let entry = join(alloc, path, name.as_str())?;
        walk(site, alloc, entry.as_str(), levels - 1, unconverted)?;
    }
    Ok(())
}

/// Whether a file of this path is a document: its name ends in `.html` and is longer than that.
fn is_document(path: &str) -> bool
    ensures document { IsTrue result ↔ IsDocumentPath path.now }
{
    match path.strip_suffix(".html") {
        Some(stem) => !stem.is_empty() && !stem.ends_with('/'),
        None => false,
    }
}

/// Returns the path of an entry: the directory's path and the name, with one slash between them.
fn join(alloc: Global, path: &str, name: &str) -> Result<String, AllocError>
    ensures entry { IfOk result (λ entry. string_bytes entry ≡ entry_path path.now name.now) }
{
    let mut entry = String::from_str(alloc, path)?;
    if !path.ends_with('/') {
        entry.push('/')?;
    }
    entry.push_str(name)?;
    Ok(entry)
}

/// Adds a path and its fault to the list.
fn add(
    alloc: Global,
    unconverted: &mut Vec<Unconverted>,
    path: &str,
    fault: FileFault,
) -> Result<(), AllocError>
    ensures added { OnOk result ((one : Unconverted)
        × (unconverted.new.items ≡ unconverted.old.items ++ (one ∷ []))
        × IsListed path.now fault one) }
{
    let path = String::from_str(alloc, path)?;
    unconverted.push(Unconverted { path, fault })?;
    Ok(())
}

/// Adds the path of a directory to the list, once for each of its entries that could not be read.
fn add_unread(
    alloc: Global,
    unconverted: &mut Vec<Unconverted>,
    path: &str,
    unread: usize,
) -> Result<(), AllocError>
    ensures added { OnOk result ((added : List Unconverted)
        × (unconverted.new.items ≡ unconverted.old.items ++ added)
        × All (IsListed path.now Entry) added
        × (length added ≡ unread)) }
{
    for _entry in 0..unread {
        add(alloc, unconverted, path, FileFault::Entry)?;
    }
    Ok(())
}
