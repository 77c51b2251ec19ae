//! Macros for formulas.
ghost use Rattle.std.specs.Prelude.{◌≡◌, ℕ, IfOk, IsTrue, List, None, option_map};
ghost use Rattle.std.specs.{Arc.arc_value, Str.chars};
ghost use Rattle.latex2mathml_tex_grammar.specs.{DefinitionTexts.AreRefused, DefinitionTexts.Defines, Macros.SameMacros, Macros.Table, UsualMacros.usual_macros};
ghost use Rattle.latex2mathml_tex_units.specs.{Bodies.macro_of, Errors.IfRefused, MacroTables.AreDefined, MacroTables.defined_by, MacroTables.macros_in};

use crate::error::{TexError, TexErrorKind};
use crate::macros::halt::Halt;
use crate::macros::part::Macro;
use crate::macros::scope::Scope;
use std::alloc::Global;
use std::collections::BTreeMap;
use std::sync::Arc;

/// The macros that a formula may use: the usual ones of LaTeX, such as `\pmod` and `\bra`, and those of a text of definitions.
///
/// A formula may define more, which hold from there to its end.
#[derive(Drop)]
pub struct Macros<'a> {
    pub(crate) defined: BTreeMap<&'a str, Arc<Macro<'a>>>,
}

impl<'a> Macros<'a> {
    /// Returns the usual macros alone.
    pub fn new(alloc: Global) -> Macros<'a>
        ensures usual { SameMacros usual_macros (macros_in result) }
        ensures defined { AreDefined result }
    {
        Macros {
            defined: BTreeMap::new(alloc),
        }
    }

    /// Returns the usual macros, and those of a text of definitions. A definition replaces
    /// what its name meant before, except that `\providecommand` keeps it.
    ///
    /// The text consists of `\newcommand`, `\renewcommand`, `\providecommand`, `\DeclareRobustCommand`, `\def`, `\gdef`,
    /// `\let`, `\DeclareMathOperator` and `\DeclarePairedDelimiter`, each with what it defines, and of white space, comments, `\global` and `\long`.
    ///
    /// `\newcommand{\R}{\mathbb{R}} \def\norm#1{\lVert #1 \rVert}` defines two macros.
    ///
    /// # Errors
    ///
    /// [`TexError::kind`] says why a definition is refused, and [`TexError::place`] the byte of `definitions` where what is
    /// refused begins. The first refusal is reported. If memory runs out, the kind is [`TexErrorKind::OutOfMemory`] and the
    /// place is 0.
    pub fn read(alloc: Global, definitions: &'a str) -> Result<Macros<'a>, TexError>
        ensures answer { IfOk result (λ macros. (table : Table)
            × Defines (chars definitions.now) table × SameMacros table (macros_in macros)) }
        ensures defined { IfOk result AreDefined }
        ensures refusal { IfRefused result (AreRefused (chars definitions.now)) }
    {
        match Scope::read(alloc, definitions) {
            Ok(scope) => Ok(Macros {
                defined: scope.inner,
            }),
            Err(Halt::Refused(fault, place)) => Err(TexError {
                kind: TexErrorKind::of_fault(fault),
                place,
            }),
            Err(Halt::OutOfMemory) => Err(TexError::out_of_memory()),
        }
    }

    /// Whether no macro was defined.
    #[inline(always)]
    pub(crate) fn is_empty(&self) -> bool
        ensures { IsTrue result → (name : List ℕ) → defined_by self.now name ≡ None }
    {
        self.defined.is_empty()
    }

    /// Returns the macro that was defined with this name.
    pub(crate) fn defined(&self, name: &str) -> Option<&Arc<Macro<'a>>>
        ensures { option_map (λ m. macro_of (arc_value m.now)) result
            ≡ defined_by self.now name.now }
    {
        self.defined.get(name)
    }
}
