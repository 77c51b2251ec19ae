//! The ASCII characters that are signs.
ghost use Rattle.std.specs.Prelude.{◌≡◌, map, option_map};
ghost use Rattle.latex2mathml_tex_commands.specs.Meanings;
ghost use Rattle.latex2mathml_tex_commands.specs.Signs.{ascii_symbols};

use crate::meaning::{Class, Symbol};

/// Returns what each ASCII character is, if it is a sign.
pub(crate) fn symbols() -> &'static [Option<Symbol>]
    ensures { map (option_map Meanings.symbol_of) result.now ≡ ascii_symbols }
{
    &SYMBOLS
}

#[rattlefmt::skip]
static SYMBOLS: [Option<Symbol>; 128] = [
    None, None, None, None, None, None, None, None, None, None, None, None, None, None, None, None,
    None, None, None, None, None, None, None, None, None, None, None, None, None, None, None, None,
    None,
    Some(Symbol::Sign(Class::Closing, '!')),
    Some(Symbol::Sign(Class::Ordinary, '"')),
    None, None, None, None, None,
    Some(Symbol::Sign(Class::Opening, '(')),
    Some(Symbol::Sign(Class::Closing, ')')),
    Some(Symbol::Sign(Class::Binary, '∗')),
    Some(Symbol::Sign(Class::Binary, '+')),
    Some(Symbol::Sign(Class::Punctuation, ',')),
    Some(Symbol::Sign(Class::Binary, '−')),
    Some(Symbol::Sign(Class::Ordinary, '.')),
    Some(Symbol::Sign(Class::Ordinary, '/')),
    None, None, None, None, None, None, None, None, None, None,
    Some(Symbol::Sign(Class::Relation, ':')),
    Some(Symbol::Sign(Class::Punctuation, ';')),
    Some(Symbol::Sign(Class::Relation, '<')),
    Some(Symbol::Sign(Class::Relation, '=')),
    Some(Symbol::Sign(Class::Relation, '>')),
    Some(Symbol::Sign(Class::Closing, '?')),
    Some(Symbol::Sign(Class::Ordinary, '@')),
    None, None, None, None, None, None, None, None, None, None, None, None, None, None, None, None,
    None, None, None, None, None, None, None, None, None, None,
    Some(Symbol::Sign(Class::Opening, '[')),
    None,
    Some(Symbol::Sign(Class::Closing, ']')),
    None, None,
    Some(Symbol::Sign(Class::Ordinary, '‘')),
    None, None, None, None, None, None, None, None, None, None, None, None, None, None, None, None,
    None, None, None, None, None, None, None, None, None, None, None,
    Some(Symbol::Sign(Class::Ordinary, '|')),
    None, None, None,
];
