//! A text, character by character and run by run.
ghost use Rattle.std.specs.Prelude.{◌≡◌, ◌∷◌, ◌==◌, ◌++◌, ℕ, [], List, IfNone, IfSome, IsTrue, MatchOption};
ghost use Rattle.std.specs.{Char.is_ascii, Str.chars, Str.encode_utf8_all};
ghost use Rattle.latex2mathml_grammar.specs.Characters;
ghost use Rattle.latex2mathml_grammar.specs.{Beginnings.IsLongestRun, Characters.Stops, Characters.head};
ghost use Rattle.latex2mathml_parser.specs.Lexing.{in_class};

/// The characters that make runs.
#[derive(Clone, Copy)]
pub(crate) enum Class {
    /// The white space between tokens.
    Space,
    /// The ASCII digits.
    Digit,
    /// The ASCII letters.
    Letter,
}

impl Class {
    /// Whether the byte is a character of this class.
    fn contains(self, byte: u8) -> bool
        ensures { result ≡ in_class self byte }
    {
        match self {
            Class::Space => is_space(char::from(byte)),
            Class::Digit => byte.is_ascii_digit(),
            Class::Letter => byte.is_ascii_alphabetic(),
        }
    }
}

/// Whether the character is white space between tokens.
pub(crate) fn is_space(c: char) -> bool
    ensures { result ≡ Characters.is_space c }
{
    c == ' ' || c == '\t' || c == '\n' || c == '\r'
}

/// Returns the first character, if it is ASCII, and what follows it.
#[inline(always)]
#[tactic(auto, using(crate::proofs::Fronts::first_byte, crate::proofs::Fronts::wide_first))]
pub(crate) fn first_ascii(text: &str) -> Option<(char, &str)>
    ensures first { IfSome result (λ found. chars text.now ≡ found.0 ∷ chars found.1.now) }
    ensures none { IfNone result (Stops is_ascii (head (chars text.now))) }
{
    let Some(&byte) = text.as_bytes().first() else {
        return None;
    };
    if byte >= 128 {
        return None;
    }
    let (_, rest) = text.split_at(1);
    Some((char::from(byte), rest))
}

/// Returns the first character and what follows it.
#[inline(always)]
#[tactic(auto, using(crate::proofs::Fronts::no_characters))]
pub(crate) fn first_char(text: &str) -> Option<(char, &str)>
    ensures { MatchOption result (chars text.now ≡ [])
        (λ found. chars text.now ≡ found.0 ∷ chars found.1.now) }
{
    match first_ascii(text) {
        Some(found) => Some(found),
        None if text.is_empty() => None,
        None => decode(text),
    }
}

/// Returns the first character and what follows it, however many bytes it has.
#[inline(never)]
#[tactic(auto, using(std::proofs::lemmas::Str::chars_past_char))]
fn decode(text: &str) -> Option<(char, &str)>
    ensures { MatchOption result (chars text.now ≡ [])
        (λ found. chars text.now ≡ found.0 ∷ chars found.1.now) }
{
    let mut characters = text.chars();
    let first = characters.next()?;
    Some((first, characters.as_str()))
}

/// Returns what follows this character, if the text begins with it.
pub(crate) fn after_char(text: &str, c: char) -> Option<&str>
    ensures { MatchOption result (Stops (λ x. x == c) (head (chars text.now)))
        (λ rest. chars text.now ≡ c ∷ chars rest.now) }
{
    let (first, rest) = first_char(text)?;
    if first == c { Some(rest) } else { None }
}

/// Returns what follows the first character, if it is of the class. All classes are of ASCII characters.
#[inline(always)]
#[tactic(auto, using(crate::proofs::Fronts::first_of_class))]
pub(crate) fn after_one(class: Class, text: &str) -> Option<&str>
    ensures { MatchOption result (Stops (in_class class) (head (chars text.now)))
        (λ rest. (c : ℕ) × (chars text.now ≡ c ∷ chars rest.now) × IsTrue (in_class class c)) }
{
    let Some(&byte) = text.as_bytes().first() else {
        return None;
    };
    if !class.contains(byte) {
        return None;
    }
    let (_, rest) = text.split_at(1);
    Some(rest)
}

/// Returns what follows the longest run of characters of a class at the start of the text.
#[inline(always)]
pub(crate) fn skip_run(class: Class, text: &str) -> &str
    ensures { (front : List ℕ) ×
        IsLongestRun (in_class class) (chars text.now) front (chars result.now) }
{
    let mut rest = text;
    while let Some(after) = after_one(class, rest) {
        rest = after;
    }
    rest
}

/// Returns what follows the white space at the start of the text.
#[inline(never)]
pub(crate) fn skip_space(text: &str) -> &str
    ensures { (space : List ℕ) ×
        IsLongestRun Characters.is_space (chars text.now) space (chars result.now) }
{
    skip_run(Class::Space, text)
}

/// Returns what precedes `rest`, the end of the text.
#[inline(always)]
pub(crate) fn before<'a>(text: &'a str, rest: &str) -> &'a str
    requires { (front : List ℕ) × (chars text.now ≡ front ++ chars rest.now) }
    ensures { (front : List ℕ) → chars text.now ≡ front ++ chars rest.now
        → result.now ≡ encode_utf8_all front }
{
    text.split_at(text.len() - rest.len()).0
}
