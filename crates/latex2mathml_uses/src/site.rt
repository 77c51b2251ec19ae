//! The documents of a site.
ghost use Rattle.std.specs.Prelude.{◌≡◌, ◌↔◌, [], List, IfOk, IsTrue};
ghost use Rattle.latex2mathml.specs.Files.{IsWalked, levels_read};
ghost use Rattle.latex2mathml.specs.declared.files.Unconverted.{Unconverted};

use latex2mathml::{Site, convert_site};
use std::alloc::{AllocError, Global};

/// Converts the documents under a path of a site, and returns whether everything could be converted.
pub fn publish<S: Site>(site: &mut S, alloc: Global, path: &str) -> Result<bool, AllocError>
    ensures { IfOk result (λ all. (unconverted : List Unconverted)
        × IsWalked levels_read path.now (S.answers site.old) (S.answers site.new) [] unconverted
        × (IsTrue all ↔ (unconverted ≡ []))) }
{
    Ok(convert_site(site, alloc, path)?.is_empty())
}
