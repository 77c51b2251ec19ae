//! The commands that are one character in words, and those that are accents there.
ghost use Rattle.std.specs.Prelude.{◌≡◌, map};
ghost use Rattle.latex2mathml_tex_grammar.specs.{Delimiters.entry_of_name, TextCommands.text_accents, TextCommands.text_commands};
ghost use Rattle.latex2mathml_tex_commands.specs.Named.{named_entry};

use crate::named::{Named, find};

/// Returns the character that a command is in words, if it is one.
pub fn text_character(name: &str) -> Option<char>
    ensures { result ≡ entry_of_name text_commands name.now }
{
    find(text_commands(), name)
}

/// Returns these commands, in the order of their names' bytes.
#[tactic(auto, unfolding(latex2mathml_tex_grammar::specs::TextCommands::text_commands))]
fn text_commands() -> &'static [Named]
    ensures { map named_entry result.now ≡ text_commands }
{
    &TEXT_COMMANDS
}

/// Returns the combining character of a command that puts an accent on the next character in words, if it is such a command.
pub fn text_accent(name: &str) -> Option<char>
    ensures { result ≡ entry_of_name text_accents name.now }
{
    find(text_accents(), name)
}

/// Returns these commands, in the order of their names' bytes.
#[tactic(auto, unfolding(latex2mathml_tex_grammar::specs::TextCommands::text_accents))]
fn text_accents() -> &'static [Named]
    ensures { map named_entry result.now ≡ text_accents }
{
    &TEXT_ACCENTS
}

#[rattlefmt::skip]
static TEXT_COMMANDS: [Named; 53] = [
    Named { name: "#", character: '#' },
    Named { name: "$", character: '$' },
    Named { name: "%", character: '%' },
    Named { name: "&", character: '&' },
    Named { name: "AA", character: 'Å' },
    Named { name: "AE", character: 'Æ' },
    Named { name: "O", character: 'Ø' },
    Named { name: "OE", character: 'Œ' },
    Named { name: "_", character: '_' },
    Named { name: "aa", character: 'å' },
    Named { name: "ae", character: 'æ' },
    Named { name: "i", character: 'ı' },
    Named { name: "j", character: 'ȷ' },
    Named { name: "o", character: 'ø' },
    Named { name: "oe", character: 'œ' },
    Named { name: "ss", character: 'ß' },
    Named { name: "textasciicircum", character: '^' },
    Named { name: "textasciitilde", character: '~' },
    Named { name: "textbackslash", character: '\\' },
    Named { name: "textbar", character: '|' },
    Named { name: "textbardbl", character: '‖' },
    Named { name: "textbraceleft", character: '{' },
    Named { name: "textbraceright", character: '}' },
    Named { name: "textbullet", character: '•' },
    Named { name: "textcent", character: '¢' },
    Named { name: "textcopyright", character: '©' },
    Named { name: "textdagger", character: '†' },
    Named { name: "textdaggerdbl", character: '‡' },
    Named { name: "textdegree", character: '°' },
    Named { name: "textdollar", character: '$' },
    Named { name: "textellipsis", character: '…' },
    Named { name: "textemdash", character: '—' },
    Named { name: "textendash", character: '–' },
    Named { name: "texteuro", character: '€' },
    Named { name: "textgreater", character: '>' },
    Named { name: "textless", character: '<' },
    Named { name: "textmu", character: 'µ' },
    Named { name: "textohm", character: 'Ω' },
    Named { name: "textparagraph", character: '¶' },
    Named { name: "textperiodcentered", character: '·' },
    Named { name: "textperthousand", character: '‰' },
    Named { name: "textquotedblleft", character: '“' },
    Named { name: "textquotedblright", character: '”' },
    Named { name: "textquoteleft", character: '‘' },
    Named { name: "textquoteright", character: '’' },
    Named { name: "textregistered", character: '®' },
    Named { name: "textsection", character: '§' },
    Named { name: "textsterling", character: '£' },
    Named { name: "texttrademark", character: '™' },
    Named { name: "textunderscore", character: '_' },
    Named { name: "textyen", character: '¥' },
    Named { name: "{", character: '{' },
    Named { name: "}", character: '}' },
];

#[rattlefmt::skip]
static TEXT_ACCENTS: [Named; 16] = [
    Named { name: "\"", character: '\u{308}' },
    Named { name: "'", character: '\u{301}' },
    Named { name: ".", character: '\u{307}' },
    Named { name: "=", character: '\u{304}' },
    Named { name: "H", character: '\u{30B}' },
    Named { name: "^", character: '\u{302}' },
    Named { name: "`", character: '\u{300}' },
    Named { name: "b", character: '\u{331}' },
    Named { name: "c", character: '\u{327}' },
    Named { name: "d", character: '\u{323}' },
    Named { name: "k", character: '\u{328}' },
    Named { name: "r", character: '\u{30A}' },
    Named { name: "t", character: '\u{361}' },
    Named { name: "u", character: '\u{306}' },
    Named { name: "v", character: '\u{30C}' },
    Named { name: "~", character: '\u{303}' },
];
