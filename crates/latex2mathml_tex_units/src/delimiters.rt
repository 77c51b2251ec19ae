//! Delimiters, and the relations that have a sign of their own when negated.
ghost use Rattle.std.specs.Prelude.{◌≡◌, map, option_map};
ghost use Rattle.latex2mathml_tex_grammar.specs.Delimiters.{delimiter_characters, delimiter_commands, delimiter_of, entry_of_character, negated_characters, negated_commands, negated_of, text_of};
ghost use Rattle.latex2mathml_tex_commands.specs.{Delimiters.delimiter_text, Named.named_entry};
ghost use Rattle.latex2mathml_tex_units.specs.Taking.{piece_of};

use crate::unit::Piece;
use latex2mathml_tex_commands::named::{Named, find};

/// Returns the delimiter that this piece is, if it is one. A point is the empty delimiter, which has no character.
pub fn delimiter_of(piece: Piece) -> Option<Option<char>>
    ensures { delimiter_of (piece_of piece.entry) ≡ option_map delimiter_text result }
{
    match piece {
        Piece::Command(name) => find(delimiter_commands(), name).map(Some),
        Piece::Character('.') => Some(None),
        Piece::Character(c) => delimiter_character(c).map(Some),
        Piece::Space | Piece::Open | Piece::Close => None,
    }
}

/// Returns the sign of this piece when negated, if it has one of its own.
pub fn negated_of(piece: Piece) -> Option<char>
    ensures { negated_of (piece_of piece.entry) ≡ text_of result }
{
    match piece {
        Piece::Command(name) => find(negated_commands(), name),
        Piece::Character(c) => negated_character(c),
        Piece::Space | Piece::Open | Piece::Close => None,
    }
}

#[tactic(auto, unfolding(latex2mathml_tex_grammar::specs::Delimiters::delimiter_characters))]
fn delimiter_character(c: char) -> Option<char>
    ensures { result ≡ entry_of_character delimiter_characters c }
{
    match c {
        '(' | ')' | '/' | '[' | ']' | '|' => Some(c),
        '⌈' | '⌉' | '⌊' | '⌋' | '⎰' | '⎱' => Some(c),
        '⟨' | '⟩' | '⟮' | '⟯' => Some(c),
        '<' => Some('⟨'),
        '>' => Some('⟩'),
        _ => None,
    }
}

#[tactic(auto, unfolding(latex2mathml_tex_grammar::specs::Delimiters::negated_characters))]
fn negated_character(c: char) -> Option<char>
    ensures { result ≡ entry_of_character negated_characters c }
{
    match c {
        '<' => Some('≮'),
        '=' => Some('≠'),
        '>' => Some('≯'),
        '←' => Some('↚'),
        '→' => Some('↛'),
        '↔' => Some('↮'),
        '⇐' => Some('⇍'),
        '⇒' => Some('⇏'),
        '⇔' => Some('⇎'),
        '∃' => Some('∄'),
        '∈' => Some('∉'),
        '∋' => Some('∌'),
        '∣' => Some('∤'),
        '∥' => Some('∦'),
        '∼' => Some('≁'),
        '≃' => Some('≄'),
        '≅' => Some('≇'),
        '≈' => Some('≉'),
        '≍' => Some('≭'),
        '≡' => Some('≢'),
        '≤' => Some('≰'),
        '≥' => Some('≱'),
        '≲' => Some('≴'),
        '≳' => Some('≵'),
        '≶' => Some('≸'),
        '≷' => Some('≹'),
        '≺' => Some('⊀'),
        '≻' => Some('⊁'),
        '≼' => Some('⋠'),
        '≽' => Some('⋡'),
        '⊂' => Some('⊄'),
        '⊃' => Some('⊅'),
        '⊆' => Some('⊈'),
        '⊇' => Some('⊉'),
        '⊑' => Some('⋢'),
        '⊒' => Some('⋣'),
        '⊢' => Some('⊬'),
        '⊨' => Some('⊭'),
        '⊩' => Some('⊮'),
        '⊫' => Some('⊯'),
        '⊲' => Some('⋪'),
        '⊳' => Some('⋫'),
        '⊴' => Some('⋬'),
        '⊵' => Some('⋭'),
        _ => None,
    }
}

/// Returns the commands that are delimiters, in the order of their names' bytes.
#[tactic(auto, unfolding(latex2mathml_tex_grammar::specs::Delimiters::delimiter_commands))]
fn delimiter_commands() -> &'static [Named]
    ensures { map named_entry result.now ≡ delimiter_commands }
{
    &DELIMITERS
}

/// Returns the commands that have a negated sign of their own, in the order of their names' bytes.
#[tactic(auto, unfolding(latex2mathml_tex_grammar::specs::Delimiters::negated_commands))]
fn negated_commands() -> &'static [Named]
    ensures { map named_entry result.now ≡ negated_commands }
{
    &NEGATED
}

#[rattlefmt::skip]
static DELIMITERS: [Named; 48] = [
    Named { name: "Darr", character: '⇓' },
    Named { name: "Downarrow", character: '⇓' },
    Named { name: "Uarr", character: '⇑' },
    Named { name: "Uparrow", character: '⇑' },
    Named { name: "Updownarrow", character: '⇕' },
    Named { name: "Vert", character: '‖' },
    Named { name: "backslash", character: '\\' },
    Named { name: "dArr", character: '⇓' },
    Named { name: "darr", character: '↓' },
    Named { name: "downarrow", character: '↓' },
    Named { name: "gt", character: '⟩' },
    Named { name: "lBrace", character: '⦃' },
    Named { name: "lVert", character: '‖' },
    Named { name: "lang", character: '⟨' },
    Named { name: "langle", character: '⟨' },
    Named { name: "lbrace", character: '{' },
    Named { name: "lbrack", character: '[' },
    Named { name: "lceil", character: '⌈' },
    Named { name: "lfloor", character: '⌊' },
    Named { name: "lgroup", character: '⟮' },
    Named { name: "llbracket", character: '⟦' },
    Named { name: "lmoustache", character: '⎰' },
    Named { name: "lparen", character: '(' },
    Named { name: "lt", character: '⟨' },
    Named { name: "lvert", character: '|' },
    Named { name: "rBrace", character: '⦄' },
    Named { name: "rVert", character: '‖' },
    Named { name: "rang", character: '⟩' },
    Named { name: "rangle", character: '⟩' },
    Named { name: "rbrace", character: '}' },
    Named { name: "rbrack", character: ']' },
    Named { name: "rceil", character: '⌉' },
    Named { name: "rfloor", character: '⌋' },
    Named { name: "rgroup", character: '⟯' },
    Named { name: "rmoustache", character: '⎱' },
    Named { name: "rparen", character: ')' },
    Named { name: "rrbracket", character: '⟧' },
    Named { name: "rvert", character: '|' },
    Named { name: "uArr", character: '⇑' },
    Named { name: "uarr", character: '↑' },
    Named { name: "ulcorner", character: '⌜' },
    Named { name: "uparrow", character: '↑' },
    Named { name: "updownarrow", character: '↕' },
    Named { name: "urcorner", character: '⌝' },
    Named { name: "vert", character: '|' },
    Named { name: "{", character: '{' },
    Named { name: "|", character: '‖' },
    Named { name: "}", character: '}' },
];

#[rattlefmt::skip]
static NEGATED: [Named; 72] = [
    Named { name: "Harr", character: '⇎' },
    Named { name: "Larr", character: '⇍' },
    Named { name: "Leftarrow", character: '⇍' },
    Named { name: "Leftrightarrow", character: '⇎' },
    Named { name: "Lrarr", character: '⇎' },
    Named { name: "Rarr", character: '⇏' },
    Named { name: "Rightarrow", character: '⇏' },
    Named { name: "Vdash", character: '⊮' },
    Named { name: "approx", character: '≉' },
    Named { name: "asymp", character: '≭' },
    Named { name: "cong", character: '≇' },
    Named { name: "equiv", character: '≢' },
    Named { name: "exist", character: '∄' },
    Named { name: "exists", character: '∄' },
    Named { name: "ge", character: '≱' },
    Named { name: "geq", character: '≱' },
    Named { name: "gets", character: '↚' },
    Named { name: "gt", character: '≯' },
    Named { name: "gtrless", character: '≹' },
    Named { name: "gtrsim", character: '≵' },
    Named { name: "hArr", character: '⇎' },
    Named { name: "harr", character: '↮' },
    Named { name: "iff", character: '⇎' },
    Named { name: "impliedby", character: '⇍' },
    Named { name: "implies", character: '⇏' },
    Named { name: "in", character: '∉' },
    Named { name: "isin", character: '∉' },
    Named { name: "lArr", character: '⇍' },
    Named { name: "larr", character: '↚' },
    Named { name: "le", character: '≰' },
    Named { name: "leftarrow", character: '↚' },
    Named { name: "leftrightarrow", character: '↮' },
    Named { name: "leq", character: '≰' },
    Named { name: "lessgtr", character: '≸' },
    Named { name: "lesssim", character: '≴' },
    Named { name: "lrArr", character: '⇎' },
    Named { name: "lrarr", character: '↮' },
    Named { name: "lt", character: '≮' },
    Named { name: "mid", character: '∤' },
    Named { name: "models", character: '⊭' },
    Named { name: "ni", character: '∌' },
    Named { name: "owns", character: '∌' },
    Named { name: "parallel", character: '∦' },
    Named { name: "prec", character: '⊀' },
    Named { name: "preccurlyeq", character: '⋠' },
    Named { name: "rArr", character: '⇏' },
    Named { name: "rarr", character: '↛' },
    Named { name: "rightarrow", character: '↛' },
    Named { name: "shortmid", character: '∤' },
    Named { name: "shortparallel", character: '∦' },
    Named { name: "sim", character: '≁' },
    Named { name: "simeq", character: '≄' },
    Named { name: "sqsubseteq", character: '⋢' },
    Named { name: "sqsupseteq", character: '⋣' },
    Named { name: "sub", character: '⊄' },
    Named { name: "sube", character: '⊈' },
    Named { name: "subset", character: '⊄' },
    Named { name: "subseteq", character: '⊈' },
    Named { name: "succ", character: '⊁' },
    Named { name: "succcurlyeq", character: '⋡' },
    Named { name: "supe", character: '⊉' },
    Named { name: "supset", character: '⊅' },
    Named { name: "supseteq", character: '⊉' },
    Named { name: "thickapprox", character: '≉' },
    Named { name: "thicksim", character: '≁' },
    Named { name: "to", character: '↛' },
    Named { name: "trianglelefteq", character: '⋬' },
    Named { name: "trianglerighteq", character: '⋭' },
    Named { name: "vDash", character: '⊭' },
    Named { name: "vartriangleleft", character: '⋪' },
    Named { name: "vartriangleright", character: '⋫' },
    Named { name: "vdash", character: '⊬' },
];
