//! The symbol of a command.
ghost use Rattle.std.specs.Prelude.{◌≡◌, IfOk};
ghost use Rattle.latex2mathml.specs.Commands.{command_token};
ghost use Rattle.latex2mathml_uses.specs.Symbols.{symbol_of};

use latex2mathml::token::Token;
use std::alloc::{AllocError, Global};

/// Returns the character of a command such as `alpha` or `to`, or `None` if the command is neither a letter nor an operator.
/// The only error is out of memory.
pub fn symbol(alloc: Global, command: &str) -> Result<Option<char>, AllocError>
    ensures { IfOk result (λ found. found ≡ symbol_of (command_token command.now)) }
{
    match Token::from_command(alloc, command)? {
        Token::Letter(c, _) => Ok(Some(c)),
        Token::Operator(c) => Ok(Some(c)),
        _ => Ok(None),
    }
}
