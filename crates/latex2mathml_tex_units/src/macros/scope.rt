//! The macros that hold in a text.
ghost use Rattle.std.specs.Prelude.{◌≡◌, ℕ, IfOk, IsTrue, List, None, OnOk, option_map};
ghost use Rattle.std.specs.{Arc.arc_value, Option.is_some};
ghost use Rattle.latex2mathml_tex_grammar.specs.{Definitions.behind_definition, Definitions.meaning_now, Definitions.resolved, Macros.SameMacros, Macros.with_macro, UsualMacros.usual_macros};
ghost use Rattle.latex2mathml_tex_units.specs.{Bodies.macro_of, Defined.definition_in, Defined.word_of, MacroTables.defined_in, MacroTables.defined_before, MacroTables.macros_in, MacroTables.table_of, Taking.piece_of};

use crate::macros::definitions::{Definition, Word};
use crate::macros::part::Macro;
use crate::macros::table::Macros;
use crate::macros::usual::{is_usual, usual_macro};
use crate::unit::Piece;
use std::alloc::{AllocError, Global};
use std::collections::BTreeMap;
use std::sync::Arc;

/// The macros that a text has defined so far, and those that held before it. The usual ones hold in addition to them.
#[derive(Drop)]
pub(crate) struct Scope<'m, 'a> {
    pub(crate) outer: Option<&'m Macros<'a>>,
    pub(crate) inner: BTreeMap<&'a str, Arc<Macro<'a>>>,
}

impl<'m, 'a> Scope<'m, 'a> {
    /// Creates a scope of the usual macros alone.
    pub(crate) fn new(alloc: Global) -> Scope<'m, 'a>
        ensures same { SameMacros (table_of result) usual_macros }
        ensures alone { result.outer ≡ None }
    {
        Scope {
            outer: None,
            inner: BTreeMap::new(alloc),
        }
    }

    /// Creates a scope of these macros.
    pub(crate) fn within(alloc: Global, macros: &'m Macros<'a>) -> Scope<'m, 'a>
        ensures { SameMacros (table_of result) (macros_in macros.now) }
    {
        Scope {
            outer: Some(macros),
            inner: BTreeMap::new(alloc),
        }
    }

    /// Whether no macro was defined.
    #[inline(always)]
    pub(crate) fn is_empty(&self) -> bool
        ensures { IsTrue result → (name : List ℕ) → defined_in self.now name ≡ None }
    {
        match self.outer {
            Some(outer) => self.inner.is_empty() && outer.is_empty(),
            None => self.inner.is_empty(),
        }
    }

    /// Returns the macro that was defined with this name.
    pub(crate) fn defined(&self, name: &str) -> Option<&Arc<Macro<'a>>>
        ensures { option_map (λ m. macro_of (arc_value m.now)) result
            ≡ defined_in self.now name.now }
    {
        match self.inner.get(name) {
            Some(found) => Some(found),
            None => self.defined_before(name),
        }
    }

    /// Returns the macro that was defined with this name before the text.
    fn defined_before(&self, name: &str) -> Option<&Arc<Macro<'a>>>
        ensures { option_map (λ m. macro_of (arc_value m.now)) result
            ≡ defined_before (option_map (λ outer. outer.now) self.now.outer) name.now }
    {
        match self.outer {
            Some(outer) => outer.defined(name),
            None => None,
        }
    }

    /// Whether the name is that of a macro.
    fn is_macro(&self, name: &str) -> bool
        ensures { result ≡ is_some (table_of self.now name.now) }
    {
        self.defined(name).is_some() || is_usual(name)
    }

    /// Returns what a name that is another one for this piece means: the macro that the piece uses, if it uses one. The names
    /// share that macro.
    fn meaning_now(&self, alloc: Global, piece: Piece<'a>) -> Result<Arc<Macro<'a>>, AllocError>
        ensures { IfOk result (λ m.
            macro_of (arc_value m) ≡ meaning_now (table_of self.now) (piece_of piece.entry)) }
    {
        if let Piece::Command(name) = piece {
            if let Some(found) = self.defined(name) {
                return found.clone();
            }
            if let Some(found) = usual_macro(alloc, name)? {
                return Ok(Arc::new(alloc, found)?);
            }
        }
        Ok(Arc::new(alloc, Macro::of_alias(alloc, piece))?)
    }

    /// Returns the macro, with the meaning that its piece has now, if it is another name for one.
    fn resolved(&self, alloc: Global, stands_for: Macro<'a>) -> Result<Arc<Macro<'a>>, AllocError>
        ensures { IfOk result (λ m. macro_of (arc_value m) ≡ resolved (table_of self.now)
            (macro_of stands_for.entry) (macro_of stands_for.entry).alias) }
    {
        match stands_for.alias {
            Some(piece) => self.meaning_now(alloc, piece),
            None => Ok(Arc::new(alloc, stands_for)?),
        }
    }

    /// From here on, the name means this macro.
    fn insert(&mut self, name: &'a str, means: Arc<Macro<'a>>) -> Result<(), AllocError>
        ensures same { OnOk result (SameMacros (table_of self.new)
            (with_macro name.now (macro_of (arc_value means.entry)) (table_of self.old))) }
        ensures outer { self.new.outer ≡ self.old.outer }
    {
        self.inner.insert(name, means)?;
        Ok(())
    }

    /// Carries out the definition that follows a word.
    pub(crate) fn define(
        &mut self,
        alloc: Global,
        word: Word,
        definition: Definition<'a>,
    ) -> Result<(), AllocError>
        ensures same { OnOk result (SameMacros (table_of self.new)
            (behind_definition (word_of word) (definition_in definition.entry)
            (table_of self.old))) }
        ensures outer { self.new.outer ≡ self.old.outer }
    {
        let name = definition.name;
        let means = match word {
            Word::ProvideCommand => {
                if self.is_macro(name) {
                    return Ok(());
                }
                Arc::new(alloc, definition.stands_for)?
            }
            Word::Let => self.resolved(alloc, definition.stands_for)?,
            _ => Arc::new(alloc, definition.stands_for)?,
        };
        self.insert(name, means)
    }
}
