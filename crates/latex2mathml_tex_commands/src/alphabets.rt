//! Letters and digits as the mathematical characters of Unicode.
ghost use Rattle.std.specs.Prelude.{◌≡◌, ℕ, ◌+◌, ◌-◌, ◌<◌, ◌≤◌, option_map, IfSome};
ghost use Rattle.std.specs.Option.{unwrap_or};
ghost use Rattle.latex2mathml_tex_grammar.specs.Alphabets.{blocks, in_alphabet, in_blocks, looked_up, moved};
ghost use Rattle.latex2mathml_tex_commands.specs.{Alphabets.AreHigh, Alphabets.IsHigh, Alphabets.blocks_of, Meanings.alphabet_of};

use crate::meaning::Alphabet;

/// Where an alphabet is in Unicode: its first capital, small letter, digit, Greek capital and Greek small letter, if it has
/// them.
#[derive(Clone, Copy)]
struct Blocks {
    capital: char,
    small: char,
    digit: Option<char>,
    greek_capital: Option<char>,
    greek_small: Option<char>,
    /// The letters whose characters are elsewhere, each with its character.
    elsewhere: &'static [(char, char)],
}

/// Returns the character that represents this one in the alphabet. One that the alphabet does not have is left as it is.
pub fn in_alphabet(alphabet: Alphabet, c: char) -> char
    ensures { result ≡ in_alphabet (alphabet_of alphabet) c }
{
    let Some(blocks) = blocks_for(alphabet) else {
        return c;
    };
    match looked_up(blocks.elsewhere, c) {
        Some(place) => place,
        None => in_blocks(&blocks, c),
    }
}

/// Returns the character for this letter, if it is elsewhere.
fn looked_up(elsewhere: &[(char, char)], c: char) -> Option<char>
    ensures { (other : ℕ) → looked_up elsewhere.now c other ≡ unwrap_or result other }
{
    for (letter, place) in elsewhere {
        if *letter == c {
            return Some(*place);
        }
    }
    None
}

/// Returns the character that represents this one in these blocks.
fn in_blocks(blocks: &Blocks, c: char) -> char
    requires { AreHigh (blocks_of blocks.now) }
    ensures { result ≡ in_blocks (blocks_of blocks.now) c }
{
    match c {
        'A'..='Z' => moved('A', Some(blocks.capital), c),
        'a'..='z' => moved('a', Some(blocks.small), c),
        '0'..='9' => moved('0', blocks.digit, c),
        // The Greek capitals and small letters, from alpha to omega.
        '\u{391}'..='\u{3A9}' => moved('\u{391}', blocks.greek_capital, c),
        '\u{3B1}'..='\u{3C9}' => moved('\u{3B1}', blocks.greek_small, c),
        _ => c,
    }
}

/// Returns the character that is as far from the first one of a block as `c` is from `first`, or `c` if there is no block.
fn moved(first: char, block: Option<char>, c: char) -> char
    requires behind { first ≤ c }
    requires near { c < first + 26 }
    requires high { IfSome block IsHigh }
    ensures { result ≡ moved first block c }
{
    match block {
        Some(block) => {
            let code = u32::from(block) + (u32::from(c) - u32::from(first));
            char::from_u32(code).unwrap()
        }
        None => c,
    }
}

/// Returns the blocks of an alphabet, or none if its letters are the common ones.
fn blocks_for(alphabet: Alphabet) -> Option<Blocks>
    ensures same { option_map blocks_of result ≡ blocks (alphabet_of alphabet) }
    ensures high { IfSome result (λ b. AreHigh (blocks_of b)) }
{
    match alphabet {
        Alphabet::Upright | Alphabet::Named => None,
        Alphabet::Italic => Some(Blocks {
            capital: '𝐴',
            small: '𝑎',
            digit: None,
            greek_capital: Some('𝛢'),
            greek_small: Some('𝛼'),
            elsewhere: &[
                ('h', 'ℎ'),
                ('ϵ', '𝜖'),
                ('ϑ', '𝜗'),
                ('ϰ', '𝜘'),
                ('ϕ', '𝜙'),
                ('ϱ', '𝜚'),
                ('ϖ', '𝜛'),
            ],
        }),
        Alphabet::Bold => Some(Blocks {
            capital: '𝐀',
            small: '𝐚',
            digit: Some('𝟎'),
            greek_capital: Some('𝚨'),
            greek_small: Some('𝛂'),
            elsewhere: &[
                ('ϵ', '𝛜'),
                ('ϑ', '𝛝'),
                ('ϰ', '𝛞'),
                ('ϕ', '𝛟'),
                ('ϱ', '𝛠'),
                ('ϖ', '𝛡'),
            ],
        }),
        Alphabet::BoldItalic => Some(Blocks {
            capital: '𝑨',
            small: '𝒂',
            digit: Some('𝟎'),
            greek_capital: Some('𝚨'),
            greek_small: Some('𝜶'),
            elsewhere: &[
                ('ϵ', '𝝐'),
                ('ϑ', '𝝑'),
                ('ϰ', '𝝒'),
                ('ϕ', '𝝓'),
                ('ϱ', '𝝔'),
                ('ϖ', '𝝕'),
            ],
        }),
        Alphabet::DoubleStruck => Some(Blocks {
            capital: '𝔸',
            small: '𝕒',
            digit: Some('𝟘'),
            greek_capital: None,
            greek_small: None,
            elsewhere: &[
                ('C', 'ℂ'),
                ('H', 'ℍ'),
                ('N', 'ℕ'),
                ('P', 'ℙ'),
                ('Q', 'ℚ'),
                ('R', 'ℝ'),
                ('Z', 'ℤ'),
            ],
        }),
        Alphabet::Fraktur => Some(Blocks {
            capital: '𝔄',
            small: '𝔞',
            digit: None,
            greek_capital: None,
            greek_small: None,
            elsewhere: &[('C', 'ℭ'), ('H', 'ℌ'), ('I', 'ℑ'), ('R', 'ℜ'), ('Z', 'ℨ')],
        }),
        Alphabet::Calligraphic => Some(Blocks {
            capital: '𝒜',
            small: '𝒶',
            digit: None,
            greek_capital: None,
            greek_small: None,
            elsewhere: &[
                ('B', 'ℬ'),
                ('E', 'ℰ'),
                ('F', 'ℱ'),
                ('H', 'ℋ'),
                ('I', 'ℐ'),
                ('L', 'ℒ'),
                ('M', 'ℳ'),
                ('R', 'ℛ'),
                ('e', 'ℯ'),
                ('g', 'ℊ'),
                ('o', 'ℴ'),
            ],
        }),
        Alphabet::SansSerif => Some(Blocks {
            capital: '𝖠',
            small: '𝖺',
            digit: Some('𝟢'),
            greek_capital: None,
            greek_small: None,
            elsewhere: &[],
        }),
        Alphabet::Monospace => Some(Blocks {
            capital: '𝙰',
            small: '𝚊',
            digit: Some('𝟶'),
            greek_capital: None,
            greek_small: None,
            elsewhere: &[],
        }),
    }
}
