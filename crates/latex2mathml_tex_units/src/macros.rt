//! Macros.

mod arguments;
mod bars;
mod definitions;
mod due;
pub mod expander;
mod halt;
mod optional;
mod part;
mod pending;
mod putting;
mod scope;
mod standing;
pub mod table;
mod texts;
mod usual;
pub mod whole;
