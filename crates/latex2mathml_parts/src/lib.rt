//! The parts of formulas in postfix order, and their markup.
//!
//! A parser puts each part after its operands, as it reads them. So the parts of a tree are next to each other in one
//! list, and no part has memory of its own. Contracts refer to the list of the trees, the last first.
#![tactic(auto)]

mod change;
mod environment;
mod form;
pub mod kind;
pub mod parts;
pub mod work;
pub mod write;
