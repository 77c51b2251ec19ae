//! The look-up of commands.
ghost use Rattle.std.specs.Prelude.{◌≡◌, ◌<◌, IsTrue, map, get_or, length, Some, None, MatchOption};
ghost use Rattle.std.specs.{Cmp.Lexicographic.slice_cmp, List.AllPass, List.list_all, Ordering.nat_cmp};
ghost use Rattle.latex2mathml_tokens.specs.Entries.{is_key};
ghost use Rattle.latex2mathml_tex_grammar.specs.{Commands.entry_meaning, Commands.meaning_of, Sorted.ascending};
ghost use Rattle.latex2mathml_tex_commands.specs.Meanings;
ghost use Rattle.latex2mathml_tex_commands.specs.{Meanings.entry_of, Keys.IsCandidate, Keys.MeansIfNamed, Keys.has_key, Parts.entries_in, Parts.part_of, Parts.part_with};

mod a_and_b;
mod before_a;
mod c_to_e;
mod f_to_l;
mod from_t;
mod m_to_q;
mod r_and_s;

use crate::meaning::{Entry, Meaning};
use std::cmp::Ordering;

/// Returns what the command with this name means, if there is one.
pub fn look_up(name: &str) -> Option<Meaning>
    ensures { MatchOption result (meaning_of name.now ≡ None)
        (λ meaning. meaning_of name.now ≡ Some (Meanings.meaning_of meaning)) }
{
    find(name).copied()
}

/// Returns the meaning that `look_up` returns, without a copy of it.
pub fn find(name: &str) -> Option<&'static Meaning>
    ensures { MatchOption result (meaning_of name.now ≡ None)
        (λ meaning. meaning_of name.now ≡ Some (Meanings.meaning_of meaning.now)) }
{
    let Some(entry) = search(part_for(name), name) else {
        return None;
    };
    if name.len() <= 8 && name.len() == entry.name.len() {
        return Some(&entry.meaning);
    }
    find_long(name, entry)
}

/// Returns what the command with this name means, if there is one. This entry has the key of the name. So may others, if the
/// name is long.
#[inline(never)]
fn find_long(name: &str, entry: &'static Entry) -> Option<&'static Meaning>
    requires { MeansIfNamed entry.now name.now }
    ensures { MatchOption result (meaning_of name.now ≡ None)
        (λ meaning. meaning_of name.now ≡ Some (Meanings.meaning_of meaning.now)) }
{
    if name == entry.name {
        return Some(&entry.meaning);
    }
    search_names(part_for(name), name)
}

/// Returns the part of the table in which this name is looked up.
#[inline(always)]
fn part_for(name: &str) -> &'static [Entry]
    ensures part { map entry_of result.now ≡ entries_in (part_of name.now) }
    ensures keyed { IsTrue (list_all has_key result.now) }
{
    match name.as_bytes() {
        [first, ..] => part_with(*first),
        [] => before_a::entries(),
    }
}

/// Returns the part of the names that begin with this byte.
#[inline(always)]
fn part_with(first: u8) -> &'static [Entry]
    ensures part { map entry_of result.now ≡ entries_in (part_with first) }
    ensures keyed { IsTrue (list_all has_key result.now) }
{
    match first {
        b'a' => a_and_b::letter_a(),
        b'b' => a_and_b::letter_b(),
        b'c' => c_to_e::letter_c(),
        b'd' => c_to_e::letter_d(),
        b'e' => c_to_e::letter_e(),
        b'f' => f_to_l::letter_f(),
        b'g' => f_to_l::letter_g(),
        b'h' => f_to_l::letter_h(),
        b'i' => f_to_l::letter_i(),
        b'j' => f_to_l::letter_j(),
        b'k' => f_to_l::letter_k(),
        b'l' => f_to_l::letter_l(),
        b'm' => m_to_q::letter_m(),
        b'n' => m_to_q::letter_n(),
        b'o' => m_to_q::letter_o(),
        b'p' => m_to_q::letter_p(),
        b'q' => m_to_q::letter_q(),
        b'r' => r_and_s::letter_r(),
        b's' => r_and_s::letter_s(),
        b't' => from_t::letter_t(),
        b'u' => from_t::letter_u(),
        b'v' => from_t::letter_v(),
        b'w' => from_t::letter_w(),
        b'x' => from_t::letter_x(),
        b'y' => from_t::letter_y(),
        b'z' => from_t::letter_z(),
        _ if first < b'a' => before_a::entries(),
        _ => from_t::after_z(),
    }
}

/// Returns an entry with the key of this name, if the sorted entries have one. Each comparison halves the entries that are
/// left. Most names differ in their keys from all others.
#[inline(always)]
fn search(table: &'static [Entry], name: &str) -> Option<&'static Entry>
    requires ordered { IsTrue (ascending (map entry_of table.now)) }
    requires few { length table.now < 512 }
    requires keyed { AllPass has_key table.now }
    ensures { MatchOption result (entry_meaning (map entry_of table.now) name.now ≡ None)
        (λ entry. IsCandidate (map entry_of table.now) entry.now name.now) }
{
    let key = key_of(name);
    let mut entries = table;
    while !entries.is_empty() {
        let middle = entries.len() / 2;
        let entry = &entries[middle];
        if key < entry.key {
            entries = &entries[..middle];
        } else if key > entry.key {
            entries = &entries[middle + 1..];
        } else {
            return Some(entry);
        }
    }
    None
}

/// Returns what the entry with this name means, if the sorted entries have one.
fn search_names(table: &'static [Entry], name: &str) -> Option<&'static Meaning>
    requires ordered { IsTrue (ascending (map entry_of table.now)) }
    requires few { length table.now < 512 }
    ensures { MatchOption result (entry_meaning (map entry_of table.now) name.now ≡ None)
        (λ meaning. entry_meaning (map entry_of table.now) name.now
        ≡ Some (Meanings.meaning_of meaning.now)) }
{
    let mut entries = table;
    while !entries.is_empty() {
        let middle = entries.len() / 2;
        let entry = &entries[middle];
        match name.cmp(entry.name) {
            Ordering::Equal => return Some(&entry.meaning),
            Ordering::Less => entries = &entries[..middle],
            Ordering::Greater => entries = &entries[middle + 1..],
        }
    }
    None
}

/// Returns the key of a name: its first eight bytes as a number, with zeros after its end.
#[inline(always)]
fn key_of(name: &str) -> u64
    ensures { IsTrue (is_key result name.now) }
{
    let bytes = name.as_bytes();
    let mut key: u64 = 0;
    let mut place: usize = 0;
    while place < 8 {
        key = key * 256 + byte_at(bytes, place);
        place += 1;
    }
    key
}

/// Returns the byte at this place, or zero after the end.
#[inline(always)]
fn byte_at(bytes: &[u8], place: usize) -> u64
    ensures value { result ≡ get_or bytes.now place 0 }
    ensures byte { result < 256 }
{
    match bytes.get(place) {
        Some(&byte) => u64::from(byte),
        None => 0,
    }
}

/// Returns how two names are ordered. Most names differ in their first bytes, which are compared first.
#[inline(always)]
pub fn order(name: &str, other: &str) -> Ordering
    ensures { result ≡ slice_cmp nat_cmp name.now other.now }
{
    match (name.as_bytes(), other.as_bytes()) {
        ([first, ..], [second, ..]) if first < second => Ordering::Less,
        ([first, ..], [second, ..]) if first > second => Ordering::Greater,
        _ => name.cmp(other),
    }
}
