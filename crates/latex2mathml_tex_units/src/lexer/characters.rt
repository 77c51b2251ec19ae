//! A text, character by character and run by run.
ghost use Rattle.std.specs.Prelude.{◌≡◌, ◌<◌, ◌≤◌, ◌∷◌, ◌++◌, ℕ, [], IfSome, IsFalse, IsTrue, List, MatchOption, get_or, length};
ghost use Rattle.std.specs.{Char.is_ascii_alphabetic, Str.chars, Str.encode_utf8_all};
ghost use Rattle.latex2mathml_tex_grammar.specs.Units;
ghost use Rattle.latex2mathml_tex_units.specs.Characters.{is_plain, plain_bytes};
ghost use Rattle.latex2mathml_tex_units.specs.Runs.{in_class, AreLetters, IsLongestRun, IsName};

/// The classes of characters that form runs.
#[derive(Clone, Copy)]
pub enum Class {
    /// White space.
    Space,
    /// The characters of a line, without its end.
    Line,
}

impl Class {
    fn contains(self, c: char) -> bool
        ensures { result ≡ in_class self c }
    {
        match self {
            Class::Space => is_space(c),
            Class::Line => c != '\n',
        }
    }
}

/// Whether the character is white space.
pub fn is_space(c: char) -> bool
    ensures { result ≡ Units.is_space c }
{
    c == ' ' || c == '\t' || c == '\n' || c == '\r'
}

/// Whether XML forbids the character.
pub fn is_forbidden(c: char) -> bool
    ensures { result ≡ Units.is_forbidden c }
{
    (c < ' ' && !is_space(c)) || c == '\u{FFFE}' || c == '\u{FFFF}'
}

/// Returns whether each byte is a printable character of ASCII that is a unit by itself.
#[inline(always)]
pub(crate) fn plain_bytes() -> &'static [bool]
    ensures { result.now ≡ plain_bytes }
{
    &PLAIN_BYTES
}

#[rattlefmt::skip]
static PLAIN_BYTES: [bool; 256] = [
    false, false, false, false, false, false, false, false, false, false, false, false, false, false, false, false,
    false, false, false, false, false, false, false, false, false, false, false, false, false, false, false, false,
    false, true, true, true, true, false, true, true, true, true, true, true, true, true, true, true,
    true, true, true, true, true, true, true, true, true, true, true, true, true, true, true, true,
    true, true, true, true, true, true, true, true, true, true, true, true, true, true, true, true,
    true, true, true, true, true, true, true, true, true, true, true, true, false, true, true, true,
    true, true, true, true, true, true, true, true, true, true, true, true, true, true, true, true,
    true, true, true, true, true, true, true, true, true, true, true, false, true, false, true, false,
    false, false, false, false, false, false, false, false, false, false, false, false, false, false, false, false,
    false, false, false, false, false, false, false, false, false, false, false, false, false, false, false, false,
    false, false, false, false, false, false, false, false, false, false, false, false, false, false, false, false,
    false, false, false, false, false, false, false, false, false, false, false, false, false, false, false, false,
    false, false, false, false, false, false, false, false, false, false, false, false, false, false, false, false,
    false, false, false, false, false, false, false, false, false, false, false, false, false, false, false, false,
    false, false, false, false, false, false, false, false, false, false, false, false, false, false, false, false,
    false, false, false, false, false, false, false, false, false, false, false, false, false, false, false, false,
];

/// Returns the first character and the text after it, if the character is a printable one of ASCII that is a unit by itself.
#[inline(always)]
pub(crate) fn first_plain(text: &str) -> Option<(char, &str)>
    ensures { IfSome result (λ found. IsTrue (is_plain found.0)
        × (chars text.now ≡ found.0 ∷ chars found.1.now)) }
{
    let first = *text.as_bytes().first()?;
    if !plain_bytes()[usize::from(first)] {
        return None;
    }
    Some((char::from(first), text.split_at(1).1))
}

/// Returns the first character and the text after it, if the character is one of ASCII, which is one byte.
#[inline(always)]
pub(crate) fn first_ascii(text: &str) -> Option<(char, &str)>
    ensures { IfSome result (λ found. chars text.now ≡ found.0 ∷ chars found.1.now) }
{
    let first = *text.as_bytes().first()?;
    if !first.is_ascii() {
        return None;
    }
    Some((char::from(first), text.split_at(1).1))
}

/// Returns the first character and the text after it.
#[inline(always)]
#[tactic(auto, using(std::proofs::lemmas::Str::chars_past_char))]
pub fn first_char(text: &str) -> Option<(char, &str)>
    ensures { MatchOption result (chars text.now ≡ [])
        (λ found. chars text.now ≡ found.0 ∷ chars found.1.now) }
{
    let mut characters = text.chars();
    let first = characters.next()?;
    Some((first, characters.as_str()))
}

/// Returns what follows the longest run of characters of a class at the start of the text.
#[inline(always)]
pub fn skip_run(class: Class, text: &str) -> &str
    ensures { (w : List ℕ) × IsLongestRun class (chars text.now) w (chars result.now) }
{
    let mut rest = text;
    while let Some((c, after)) = first_char(rest) {
        if !class.contains(c) {
            return rest;
        }
        rest = after;
    }
    rest
}

/// Returns what follows the white space at the start of the text. Mostly there is none, as the first byte says.
#[inline(always)]
pub(crate) fn skip_space(text: &str) -> &str
    ensures { (w : List ℕ) × ((chars text.now ≡ w ++ chars result.now)
        × Units.IsRun Units.is_space w (chars result.now)) }
{
    match text.as_bytes().first() {
        Some(first) if *first > b' ' => text,
        _ => skip_run(Class::Space, text),
    }
}

/// Returns the letters at the start of the text, and what follows them. Each letter is one byte, so no character is decoded.
#[inline(always)]
pub(crate) fn split_letters(text: &str) -> (&str, &str)
    ensures { (w : List ℕ) × IsName (chars text.now) w result.0.now (chars result.1.now) }
{
    text.split_at(count_letters(text))
}

/// Returns how many letters the text begins with.
#[inline(always)]
fn count_letters(text: &str) -> usize
    ensures within { result ≤ length text.now }
    ensures letters { AreLetters text.now result }
    ensures end { result < length text.now
        → IsFalse (is_ascii_alphabetic (get_or text.now result 0)) }
{
    let bytes = text.as_bytes();
    let mut count = 0;
    while count < bytes.len() && bytes[count].is_ascii_alphabetic() {
        count += 1;
    }
    count
}

/// Returns the part of the text before its end `rest`.
#[inline(always)]
pub fn before<'a>(text: &'a str, rest: &str) -> &'a str
    requires { (w : List ℕ) × (chars text.now ≡ w ++ chars rest.now) }
    ensures { (w : List ℕ) → chars text.now ≡ w ++ chars rest.now
        → result.now ≡ encode_utf8_all w }
{
    text.split_at(text.len() - rest.len()).0
}
