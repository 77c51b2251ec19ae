//! Tests of the tokens of names that no formula spells.

use crate::checks::are_equal;
use latex2mathml_tokens::token::Token;
use std::alloc::{AllocError, Global};
use std::test::Fail;

/// Whether the command is itself, and so not in the table.
pub fn is_itself(alloc: Global, name: &str) -> Result<bool, AllocError> {
    let own = String::from_str(alloc, name)?;
    let token = Token::from_command(alloc, name)?;
    Ok(are_equal(token, Token::Command(own)))
}

#[test]
fn names_that_no_formula_spells(rt: HostRuntime) -> Result<(), Fail> {
    for name in ["", "a b", "  ", " a", "\\alpha", "\\\\", "}}"] {
        assert!(rt; is_itself(rt.alloc(), name)?, "{name}");
    }
    Ok(())
}

#[test]
fn a_name_of_the_table(rt: HostRuntime) -> Result<(), Fail> {
    let token = Token::from_command(rt.alloc(), "in")?;
    assert!(rt; are_equal(token, Token::Operator('\u{2208}')));
    Ok(())
}
