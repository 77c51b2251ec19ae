//! Lengths, as they are written.
ghost use Rattle.std.specs.Prelude.{◌≡◌, ◌*◌, ◌<◌, ◌≤◌, MatchOption, None, Some};
ghost use Rattle.latex2mathml_tex_grammar.specs.Colors;
ghost use Rattle.latex2mathml_tex_grammar.specs.Lengths;
ghost use Rattle.latex2mathml_tex_commands.specs.Lengths.{IsSmall, length_in};

use crate::splitting::around;

/// A number with more digits counts as this one.
const MOST_DIGITS: u64 = 100_000_000_000;

const MOST_SCALE: u64 = 1_000_000;

/// 16384 points.
const MOST_THOUSANDTHS: u64 = 1_638_400;

/// What the characters of a length say.
#[derive(Clone, Copy)]
struct Length {
    is_negative: bool,
    /// Its digits.
    number: u64,
    /// A factor of ten for each digit after the point, up to `MOST_SCALE`.
    scale: u64,
    is_behind_point: bool,
    /// The two letters of its unit.
    first: u8,
    last: u8,
}

/// Returns the length that this text gives, in thousandths of an em, unless it is too large.
pub fn width_of(text: &str) -> Option<i32>
    ensures { MatchOption result (Lengths.width_of text.now ≡ None)
        (λ width. Lengths.width_of text.now ≡ Some width) }
{
    Length::none().with_all(text.as_bytes()).width()
}

/// Returns this factor times the number that a text gives, rounded. Decimals after the fifth make no difference.
pub(crate) fn decimal_times(text: &str, factor: u64) -> u64
    requires { factor < 256 }
    ensures { result ≡ Lengths.rounded
        ((Colors.decimal_of text.now).number * factor) (Colors.decimal_of text.now).scale }
{
    let (whole, decimals) = around(text, '.');
    let decimals = decimals.as_bytes();
    let few = &decimals[..decimals.len().min(5)];
    let length = Length::none()
        .with_all(whole.as_bytes())
        .with_character(b'.')
        .with_all(few);
    rounded(length.number * factor, length.scale)
}

fn at_most(most: u64, number: u64) -> u64
    ensures { result ≡ Lengths.at_most most number }
{
    if number > most { most } else { number }
}

/// Returns a fraction, rounded to the nearest integer.
fn rounded(a: u64, b: u64) -> u64
    requires some { 0 < b }
    requires few { (a < 1000000000000000000) }
    requires low { b < 1000000000000 }
    ensures { result ≡ Lengths.rounded a b }
{
    (2 * a + b) / (2 * b)
}

impl Length {
    fn none() -> Length
        ensures value { length_in result ≡ Lengths.no_length }
        ensures small { IsSmall result }
    {
        Length {
            is_negative: false,
            number: 0,
            scale: 1,
            is_behind_point: false,
            first: 0,
            last: 0,
        }
    }

    /// Returns the length with these further characters.
    fn with_all(self, text: &[u8]) -> Length
        requires { IsSmall self }
        ensures value { length_in result ≡ Lengths.with_all (length_in self) text.now }
        ensures small { IsSmall result }
    {
        let mut length = self;
        'characters: for &c in text {
            length = length.with_character(c);
        }
        length
    }

    fn with_character(self, c: u8) -> Length
        requires { IsSmall self }
        ensures value { length_in result ≡ Lengths.with_character (length_in self) c }
        ensures small { IsSmall result }
    {
        if c.is_ascii_digit() {
            return Length {
                number: at_most(MOST_DIGITS, self.number * 10 + u64::from(c - b'0')),
                scale: self.scaled(),
                ..self
            };
        }
        match c {
            b'.' => Length {
                is_behind_point: true,
                ..self
            },
            b'-' => Length {
                is_negative: true,
                ..self
            },
            _ => Length {
                first: self.last,
                last: c,
                ..self
            },
        }
    }

    /// Returns the scale after one more digit.
    fn scaled(self) -> u64
        requires { IsSmall self }
        ensures value { result ≡ Lengths.scaled self.is_behind_point self.scale }
        ensures some { 0 < result }
        ensures low { result ≤ 1000000 }
    {
        if self.is_behind_point {
            at_most(MOST_SCALE, self.scale * 10)
        } else {
            self.scale
        }
    }

    /// Returns the length in thousandths of an em, without its sign.
    fn thousandths(self) -> u64
        requires { IsSmall self }
        ensures { result ≡ Lengths.thousandths_of self.first self.last self.number self.scale }
    {
        let number = self.number;
        let scale = self.scale;
        match (self.first, self.last) {
            (b'e', b'x') => rounded(number * 431, scale),
            (b'm', b'u') => rounded(number * 1000, scale * 18),
            (b'p', b't') => rounded(number * 100, scale),
            (b'p', b'c') => rounded(number * 1200, scale),
            (b'i', b'n') => rounded(number * 7227, scale),
            (b'c', b'm') => rounded(number * 722_700, scale * 254),
            (b'm', b'm') => rounded(number * 72_270, scale * 254),
            (b'b', b'p') | (b'p', b'x') => rounded(number * 803, scale * 8),
            (b'd', b'd') => rounded(number * 123_800, scale * 1157),
            (b'c', b'c') => rounded(number * 1_485_600, scale * 1157),
            (b's', b'p') => rounded(number * 100, scale * 65_536),
            _ => rounded(number * 1000, scale),
        }
    }

    /// Returns the length in thousandths of an em, unless they are too many.
    fn width(self) -> Option<i32>
        requires { IsSmall self }
        ensures { MatchOption result (Lengths.width_in (length_in self) ≡ None)
            (λ width. Lengths.width_in (length_in self) ≡ Some width) }
    {
        let thousandths = self.thousandths();
        if thousandths > MOST_THOUSANDTHS {
            return None;
        }
        let width = thousandths as i32;
        if self.is_negative {
            Some(-width)
        } else {
            Some(width)
        }
    }
}
