//! The look-up of characters.
ghost use Rattle.std.specs.Prelude.{◌≡◌, ◌<◌, IsTrue, map, length, Some, None, MatchOption};
ghost use Rattle.latex2mathml_tex_grammar.specs.{Commands.entry_symbol, Commands.symbol_of, Sorted.ascending_numbers};
ghost use Rattle.latex2mathml_tex_commands.specs.Meanings;
ghost use Rattle.latex2mathml_tex_commands.specs.Signs.{entry_of};

mod ascii;
mod table;

use crate::meaning::Symbol;

/// A character, and what it is.
#[derive(Clone, Copy)]
pub struct SignEntry {
    pub character: char,
    pub symbol: Symbol,
}

/// Returns what this character is, if it is a sign, or a letter that is not ASCII.
pub fn symbol_of(c: char) -> Option<Symbol>
    ensures { MatchOption result (symbol_of c ≡ None)
        (λ symbol. symbol_of c ≡ Some (Meanings.symbol_of symbol)) }
{
    match ascii::symbols().get(c as usize) {
        Some(symbol) => *symbol,
        None => search(table::entries(), c),
    }
}

/// Returns the symbol of the entry with this character, if the sorted entries have one. Each comparison halves the entries
/// that are left.
fn search(table: &[SignEntry], c: char) -> Option<Symbol>
    requires ordered { IsTrue (ascending_numbers (map entry_of table.now)) }
    requires few { length table.now < 512 }
    ensures { MatchOption result (entry_symbol (map entry_of table.now) c ≡ None)
        (λ symbol. entry_symbol (map entry_of table.now) c ≡ Some (Meanings.symbol_of symbol)) }
{
    let mut entries = table;
    while !entries.is_empty() {
        let middle = entries.len() / 2;
        let entry = &entries[middle];
        if c < entry.character {
            entries = &entries[..middle];
        } else if c > entry.character {
            entries = &entries[middle + 1..];
        } else {
            return Some(entry.symbol);
        }
    }
    None
}
