//! Renderings that are cached, so that a repeated formula is not converted again.
ghost use Rattle.std.specs.Prelude.{◌≡◌, Some, IfOk, IfSome, IsSome, option_map, string_bytes};
ghost use Rattle.latex2mathml.specs.Formulas.{IfRefused, IsFormulaRefusal};
ghost use Rattle.latex2mathml_uses.specs.{Cached.HoldsRenderings, Cached.IsOnlyRendering, Cached.text_at, Caches.IsSound, Caches.held_text};

use latex2mathml::{DisplayStyle, LatexError, latex_to_mathml, laws};
use std::alloc::Global;
use std::collections::HashMap;

/// The markup of formulas, by their display and their text.
#[derive(Drop)]
pub struct Cache {
    blocks: HashMap<String, String>,
    inlines: HashMap<String, String>,
}

impl Cache {
    /// Returns an empty cache.
    pub fn new(alloc: Global) -> Cache
        ensures { IsSound result }
    {
        Cache {
            blocks: HashMap::new(alloc),
            inlines: HashMap::new(alloc),
        }
    }

    /// Returns the markup of the formula, if the cache has it. It is the markup that a call of the library returns.
    pub fn get(&self, formula: &str, display: DisplayStyle) -> Option<&String>
        requires { IsSound self.now }
        ensures held { option_map (λ markup. string_bytes markup.now) result
            ≡ held_text self.now display formula.now }
        ensures rendering { IfSome result (λ markup.
            IsOnlyRendering formula.now display (string_bytes markup.now)) }
    {
        match display {
            DisplayStyle::Block => self.blocks.get(formula),
            DisplayStyle::Inline => self.inlines.get(formula),
        }
    }

    /// Returns the markup of the formula, and keeps it in the cache. If it is already there, the cache does not change. On an
    /// error, which is the refusal of the formula or out of memory, the cache still has only renderings.
    pub fn markup(
        &mut self,
        alloc: Global,
        formula: &str,
        display: DisplayStyle,
    ) -> Result<String, LatexError>
        requires { IsSound self.old }
        ensures sound { IsSound self.new }
        ensures rendering { IfOk result (λ markup.
            IsOnlyRendering formula.now display (string_bytes markup)) }
        ensures held { IfOk result (λ markup.
            held_text self.new display formula.now ≡ Some (string_bytes markup)) }
        ensures found { IsSome (held_text self.old display formula.now) → self.new ≡ self.old }
        ensures refusal { IfRefused result (IsFormulaRefusal formula.now) }
    {
        match display {
            DisplayStyle::Block => look_up(alloc, &mut self.blocks, formula, display),
            DisplayStyle::Inline => look_up(alloc, &mut self.inlines, formula, display),
        }
    }
}

/// Returns the markup of the formula: from the map if it is there, and otherwise converted and inserted into the map.
fn look_up(
    alloc: Global,
    map: &mut HashMap<String, String>,
    formula: &str,
    display: DisplayStyle,
) -> Result<String, LatexError>
    requires { HoldsRenderings display map.old }
    ensures sound { HoldsRenderings display map.new }
    ensures rendering { IfOk result (λ markup.
        IsOnlyRendering formula.now display (string_bytes markup)) }
    ensures held { IfOk result (λ markup.
        text_at map.new formula.now ≡ Some (string_bytes markup)) }
    ensures found { IsSome (text_at map.old formula.now) → map.new ≡ map.old }
    ensures refusal { IfRefused result (IsFormulaRefusal formula.now) }
{
    if let Some(markup) = map.get(formula) {
        let copy = markup.clone()?;
        return Ok(copy);
    }
    convert_and_keep(alloc, map, formula, display)
}

/// Converts the formula, and inserts its markup into the map.
fn convert_and_keep(
    alloc: Global,
    map: &mut HashMap<String, String>,
    formula: &str,
    display: DisplayStyle,
) -> Result<String, LatexError>
    requires { HoldsRenderings display map.old }
    ensures sound { HoldsRenderings display map.new }
    ensures rendering { IfOk result (λ markup.
        IsOnlyRendering formula.now display (string_bytes markup)) }
    ensures held { IfOk result (λ markup.
        text_at map.new formula.now ≡ Some (string_bytes markup)) }
    ensures refusal { IfRefused result (IsFormulaRefusal formula.now) }
{
    let markup = latex_to_mathml(alloc, formula, display)?;
    laws::one_rendering(formula, display);
    let key = String::from_str(alloc, formula)?;
    let copy = markup.clone()?;
    map.insert(key, copy)?;
    Ok(markup)
}
