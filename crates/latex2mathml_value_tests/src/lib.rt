//! Tests of tokens, nodes and refusals that are made by hand.
#![tactic(auto)]

#[cfg(test)]
mod attributes;
#[cfg(test)]
mod characters;
#[cfg(test)]
mod checks;
#[cfg(test)]
mod commands;
#[cfg(test)]
mod copies;
#[cfg(test)]
mod large;
#[cfg(test)]
mod laws;
#[cfg(test)]
mod nodes;
#[cfg(test)]
mod refusals;
#[cfg(test)]
mod tokens;
