//! Tests of `tex_to_mathml`, of a converter, of macros, of the example callers and of elements that are built by hand, in
//! addition to what the program shows.
#![tactic(auto)]

#[cfg(test)]
mod checks;
#[cfg(test)]
mod elements;
#[cfg(test)]
mod formulas;
#[cfg(test)]
mod macros;
#[cfg(test)]
mod pages;
