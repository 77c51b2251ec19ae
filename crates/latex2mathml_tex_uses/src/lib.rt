//! Example callers of `tex_to_mathml`, each proved from its public contracts alone. `docs/CALLING.md` says which contracts each one
//! uses.
#![tactic(auto)]

pub mod copies;
pub mod page;
