//! Tests of the example callers.
#![tactic(auto)]

#[cfg(test)]
mod callers;
