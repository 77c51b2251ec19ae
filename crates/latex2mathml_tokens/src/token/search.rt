//! The look-up in the command table.
ghost use Rattle.std.specs.Prelude.{◌≡◌, ◌+◌, ◌<◌, ◌≤◌, ◌^◌, map, get_or, length, MatchOption, IsTrue, Some, None};
ghost use Rattle.std.specs.{List.AllPass, Ordering.nat_cmp, Cmp.Lexicographic.slice_cmp};
ghost use Rattle.latex2mathml_tokens.specs.Commands.{command_entries, entry_token};
ghost use Rattle.latex2mathml_tokens.specs.{Entries.ascending, Entries.entry_of, Entries.has_key, Entries.is_key, Lexemes.lexeme_tok};

use crate::lexeme::Lexeme;
use crate::token::table::{Entry, first, last};
use std::cmp::Ordering;

/// Returns what the command with this name represents, if it has an entry, and the number of names that were compared. Each
/// comparison halves the entries that are left, until one is equal or none is left.
pub(crate) fn look_up(name: &str) -> (Option<Lexeme<'static>>, u64)
    ensures entry { MatchOption result.0 (entry_token command_entries name.now ≡ None)
        (λ lexeme. entry_token command_entries name.now ≡ Some (lexeme_tok lexeme)) }
    ensures at_least { 1 ≤ result.1 }
    ensures at_most { result.1 ≤ 9 }
{
    let key = key_of(name);
    let mut comparisons = 0;
    let mut entries = half(key, name, &mut comparisons);
    while !entries.is_empty() {
        let middle = entries.len() / 2;
        let entry = &entries[middle];
        match compare(key, name, entry, &mut comparisons) {
            Ordering::Equal => return (Some(entry.lexeme), comparisons),
            Ordering::Less => entries = &entries[..middle],
            Ordering::Greater => entries = &entries[middle + 1..],
        }
    }
    (None, comparisons)
}

/// Returns the half of the table that has an entry with this name, if there is one.
fn half(key: u64, name: &str, comparisons: &mut u64) -> &'static [Entry]
    requires room { comparisons.old + 1 < 2 ^ 64 }
    requires key { IsTrue (is_key key name.now) }
    ensures same { entry_token (map entry_of result.now) name.now
        ≡ entry_token command_entries name.now }
    ensures ordered { IsTrue (ascending (map entry_of result.now)) }
    ensures few { length result.now < 256 }
    ensures keyed { AllPass has_key result.now }
    ensures counts { comparisons.new ≡ comparisons.old + 1 }
{
    let (first, last) = (first::entries(), last::entries());
    match compare(key, name, &last[0], comparisons) {
        Ordering::Less => first,
        _ => last,
    }
}

/// Compares the name, which has this key, with the entry's name, and counts the comparison. Most names differ in their
/// keys, and short names with the same key differ only in length. Nothing else in the look-up reads an entry's name or key.
#[inline(always)]
#[tactic(auto, using(crate::proofs::Keys::by_keys))]
fn compare(key: u64, name: &str, entry: &Entry, comparisons: &mut u64) -> Ordering
    requires room { comparisons.old + 1 < 2 ^ 64 }
    requires key { IsTrue (is_key key name.now) }
    requires keyed { IsTrue (has_key entry.now) }
    ensures counts { comparisons.new ≡ comparisons.old + 1 }
    ensures order { result ≡ slice_cmp nat_cmp name.now entry.now.name.now }
{
    *comparisons += 1;
    if key < entry.key {
        return Ordering::Less;
    }
    if key > entry.key {
        return Ordering::Greater;
    }
    if name.len() <= 8 && entry.name.len() <= 8 {
        return name.len().cmp(&entry.name.len());
    }
    name.cmp(entry.name)
}

/// Returns the key of a name: its first eight bytes as a number, with zeros after its end.
#[inline(always)]
fn key_of(name: &str) -> u64
    ensures { IsTrue (is_key result name.now) }
{
    let bytes = name.as_bytes();
    let mut key: u64 = 0;
    let mut place: usize = 0;
    while place < 8 {
        key = key * 256 + byte_at(bytes, place);
        place += 1;
    }
    key
}

/// Returns the byte at this place, or zero after the end.
#[inline(always)]
fn byte_at(bytes: &[u8], place: usize) -> u64
    ensures value { result ≡ get_or bytes.now place 0 }
    ensures byte { result < 256 }
{
    match bytes.get(place) {
        Some(&byte) => u64::from(byte),
        None => 0,
    }
}
