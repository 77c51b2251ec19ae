//! Markup that is stored without the formulas that it was made from.
ghost use Rattle.std.specs.Prelude.{◌≡◌, ◌++◌, IfOk, string_bytes};
ghost use Rattle.latex2mathml.specs.{Dollars.IsDollarFree, Elements.IsPage};
ghost use Rattle.latex2mathml_uses.specs.Stored.{IsStored};

use latex2mathml::laws;
use std::alloc::{AllocError, Global};

/// Returns two stored formulas next to each other. The result is a page and contains no dollar sign, whatever the formulas
/// were.
pub fn beside(alloc: Global, first: &str, second: &str) -> Result<String, AllocError>
    requires first { IsStored first.now }
    requires second { IsStored second.now }
    ensures both { IfOk result (λ both. string_bytes both ≡ first.now ++ second.now) }
    ensures page { IfOk result (λ both. IsPage (string_bytes both)) }
    ensures dollar_free { IfOk result (λ both. IsDollarFree (string_bytes both)) }
{
    laws::renderings();
    laws::joined_markup();
    Ok(format!(in alloc; "{first}{second}")?)
}
