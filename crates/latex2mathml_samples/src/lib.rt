//! Nodes that the tests make by hand from plain values.
#![tactic(auto)]

pub mod places;
pub mod samples;
