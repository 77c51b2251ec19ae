//! Looks for dollar signs and backslashes in a text, byte by byte: both are ASCII, so neither is a part of another character.
ghost use Rattle.std.specs.Prelude.{◌≡◌, ◌≢◌, ◌≤◌, ◌+◌, ◌∷◌, ◌++◌, ℕ, List, codes, drop, length, take};
ghost use Rattle.std.specs.Prelude.{MatchBool, MatchOption};
ghost use Rattle.latex2mathml.specs.Pieces.{EndsAt, HoldsNoDollar, IsFirstDollar};
ghost use Rattle.latex2mathml_grammar.specs.Dollars.{IsDollarFree, dollar};

use std::simd::prelude::*;

/// How many bytes the search compares at a time.
const LANES: usize = 16;

/// Returns the place of the first dollar sign, or the length of the text.
///
/// Most pieces of a document are short, so this costs less than a call of `str::find`.
#[inline(always)]
pub(crate) fn dollar_place(text: &str) -> usize
    ensures within { result ≤ length text.now }
    ensures free { IsDollarFree (take result text.now) }
    ensures ends { EndsAt dollar (drop result text.now) }
{
    let bytes = text.as_bytes();
    let mut place = 0;
    while place + LANES <= bytes.len() {
        if let Some(found) = dollar_in_lanes(bytes, place) {
            return found;
        }
        place += LANES;
    }
    while place < bytes.len() && bytes[place] != b'$' {
        place += 1;
    }
    place
}

/// Returns the place of the first dollar sign among the next bytes.
#[inline(always)]
fn dollar_in_lanes(bytes: &[u8], place: usize) -> Option<usize>
    requires { place + 16 ≤ length bytes.now }
    ensures { MatchOption result (HoldsNoDollar bytes.now place (place + 16))
        (IsFirstDollar bytes.now place (place + 16)) }
{
    let marks = u8x16::from_slice(&bytes[place..])
        .simd_eq(u8x16::splat(b'$'))
        .to_bitmask();
    if marks == 0 {
        return None;
    }
    Some(place + marks.trailing_zeros() as usize)
}

/// Returns what follows the dollar sign at the start of the text.
#[inline(always)]
pub(crate) fn after_dollar(text: &str) -> Option<&str>
    ensures { MatchOption result ((rest : List ℕ) → text.now ≢ dollar ∷ rest)
        (λ rest. text.now ≡ dollar ∷ rest.now) }
{
    let first = *text.as_bytes().first()?;
    if first != b'$' {
        return None;
    }
    Some(text.split_at(1).1)
}

/// Whether the text ends in a backslash.
#[inline(always)]
pub(crate) fn ends_in_backslash(text: &str) -> bool
    ensures { MatchBool result ((front : List ℕ) × (text.now ≡ front ++ codes "\\"))
        ((front : List ℕ) → text.now ≢ front ++ codes "\\") }
{
    matches!(text.as_bytes().last(), Some(&b'\\'))
}
