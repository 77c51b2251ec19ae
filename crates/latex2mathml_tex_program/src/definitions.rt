//! Reads definitions from files. The formulas may use their macros.
ghost use Rattle.std.specs.Prelude.{ℕ, List, Option, None, IfErr, IfOk, IfSome, string_bytes};
ghost use Rattle.std.specs.Str.{chars};
ghost use Rattle.latex2mathml_tex_units.specs.{Errors.refusal_of, MacroTables.macros_in};
ghost use Rattle.latex2mathml_tex_grammar.specs.{DefinitionTexts.AreRefused, Macros.SameMacros, Macros.Table};
ghost use Rattle.latex2mathml_tex_program.specs.Definitions.{Hold, IsFaultIn, IsKnownAs, IsRefusedFault, IsTextAsked, IsUnread, IsUnreadFault};

use crate::fault::Fault;
use crate::request::Request;
use latex2mathml::{Disk, FileFault, Stream, read_text};
use latex2mathml_tex::{Macros, TexError, TexErrorKind};
use std::alloc::Global;
use std::fs;
use std::rt::Files;

/// Text files, by their names.
pub trait TextFiles {
    /// The bytes of the file with a name, where they are known.
    ghost bytes_of: { Self → List ℕ → Option (List ℕ) };

    /// Reads the file with this name to its end.
    ///
    /// # Errors
    ///
    /// - [`FileFault::Read`] if it could not be opened or read.
    /// - [`FileFault::NotText`] if its bytes are not UTF-8.
    /// - [`FileFault::Refused`] if memory runs out.
    fn read(&self, alloc: Global, name: &str) -> Result<String, FileFault>
        ensures whole { IfOk result (λ text.
            IsKnownAs (bytes_of self.now name.now) (string_bytes text)) }
        ensures fault { IfErr result (IsUnread (bytes_of self.now name.now)) };
}

/// The files of the system. No contract says what is in them.
impl<R: Files + Alloc + Clone + Drop> TextFiles for Disk<'_, R> {
    ghost bytes_of = { λ disk name. None };

    fn read(&self, alloc: Global, name: &str) -> Result<String, FileFault> {
        let Ok(inner) = fs::open(self.rt, name) else {
            return Err(FileFault::Read);
        };
        read_text(alloc, &mut Stream::new(inner))
    }
}

/// Reads the file of definitions, if one is asked for, and otherwise returns an empty text.
pub(crate) fn read_definitions<'a, F: TextFiles>(
    alloc: Global,
    files: &F,
    request: Request<'a>,
) -> Result<String, Fault<'a>>
    ensures whole { IfOk result (λ text.
        IsTextAsked (F.bytes_of files.now) request.entry.definitions (string_bytes text)) }
    ensures fault { IfErr result (IsUnreadFault (F.bytes_of files.now) request.entry.definitions) }
{
    let Some(name) = request.definitions else {
        return Ok(String::new(alloc));
    };
    match files.read(alloc, name) {
        Ok(text) => Ok(text),
        Err(fault) => Err(Fault::UnreadDefinitions { name, fault }),
    }
}

/// Returns the macros that the file of definitions with this text defines, or the usual ones if no file is asked for.
pub(crate) fn macros_of<'a, 't>(
    alloc: Global,
    request: Request<'a>,
    definitions: &'t str,
) -> Result<Macros<'t>, Fault<'a>>
    ensures hold { IfOk result (λ macros. (table : Table)
        × Hold request.entry.definitions definitions.now table
        × SameMacros table (macros_in macros)) }
    ensures fault { IfErr result (IsRefusedFault request.entry.definitions definitions.now) }
{
    let Some(name) = request.definitions else {
        return Ok(Macros::new(alloc));
    };
    match Macros::read(alloc, definitions) {
        Ok(macros) => Ok(macros),
        Err(error) => Err(refused(name, definitions, error)),
    }
}

/// Returns the fault if a definition in the text of this file is refused, or memory ran out for it.
fn refused<'a>(name: &'a str, text: &str, error: TexError) -> Fault<'a>
    requires { IfSome (refusal_of error) (AreRefused (chars text.now)) }
    ensures fault { IsFaultIn name.now text.now result }
{
    if matches!(error.kind, TexErrorKind::OutOfMemory) {
        return Fault::Refused(error);
    }
    Fault::RefusedDefinition {
        name,
        position: error.position(text),
        error,
    }
}
