//! Example callers of the library. Each is proved from the library's public contracts alone. `docs/CALLING.md` says which
//! contracts each one uses.
#![tactic(auto)]

pub mod budget;
pub mod build;
pub mod cache;
pub mod check;
pub mod insert;
pub mod limit;
pub mod lines;
pub mod made;
pub mod page;
pub mod put;
pub mod refusal;
pub mod restyle;
pub mod site;
pub mod store;
pub mod symbol;
pub mod tokens;
pub mod wiki;
