//! The commands that begin with r and s.
ghost use Rattle.std.specs.Prelude.{◌≡◌, IsTrue, map};
ghost use Rattle.std.specs.List.{list_all};
ghost use Rattle.latex2mathml_tex_commands.specs.{Keys.has_key, Meanings.entry_of, Parts.entries_in};

use crate::meaning::{
    Alphabet, Change, Class, Entry, LimitPlace, Meaning, Style, Symbol, TextSize,
};

/// Returns the entries of the names that begin with r.
#[tactic(auto, unfolding(crate::specs::Parts::entries_in, latex2mathml_tex_grammar::specs::Commands::command_entries, latex2mathml_tex_grammar::specs::CommandsUpToL::commands_up_to_l, latex2mathml_tex_grammar::specs::CommandsFromM::commands_from_m))]
pub(crate) fn letter_r() -> &'static [Entry]
    ensures part { map entry_of result.now ≡ entries_in 18 }
    ensures keyed { IsTrue (list_all has_key result.now) }
{
    &LETTER_R
}

#[rattlefmt::skip]
static LETTER_R: [Entry; 38] = [
    Entry { name: "rArr", key: 0x7241727200000000, meaning: Meaning::Shows(Symbol::Sign(Class::Relation, '⇒')) },
    Entry { name: "rBrace", key: 0x7242726163650000, meaning: Meaning::Shows(Symbol::Sign(Class::Closing, '⦄')) },
    Entry { name: "rVert", key: 0x7256657274000000, meaning: Meaning::Shows(Symbol::Sign(Class::Closing, '∥')) },
    Entry { name: "raisemath", key: 0x72616973656d6174, meaning: Meaning::Raise },
    Entry { name: "rang", key: 0x72616e6700000000, meaning: Meaning::Shows(Symbol::Sign(Class::Closing, '⟩')) },
    Entry { name: "rangle", key: 0x72616e676c650000, meaning: Meaning::Shows(Symbol::Sign(Class::Closing, '⟩')) },
    Entry { name: "rarr", key: 0x7261727200000000, meaning: Meaning::Shows(Symbol::Sign(Class::Relation, '→')) },
    Entry { name: "ratio", key: 0x726174696f000000, meaning: Meaning::Shows(Symbol::Sign(Class::Relation, ':')) },
    Entry { name: "rbrace", key: 0x7262726163650000, meaning: Meaning::Shows(Symbol::Sign(Class::Closing, '}')) },
    Entry { name: "rbrack", key: 0x72627261636b0000, meaning: Meaning::Shows(Symbol::Sign(Class::Closing, ']')) },
    Entry { name: "rceil", key: 0x726365696c000000, meaning: Meaning::Shows(Symbol::Sign(Class::Closing, '⌉')) },
    Entry { name: "real", key: 0x7265616c00000000, meaning: Meaning::Shows(Symbol::UprightLetter('ℜ')) },
    Entry { name: "reals", key: 0x7265616c73000000, meaning: Meaning::Shows(Symbol::Letter('ℝ')) },
    Entry { name: "relbar", key: 0x72656c6261720000, meaning: Meaning::Shows(Symbol::Sign(Class::Relation, '−')) },
    Entry { name: "restriction", key: 0x7265737472696374, meaning: Meaning::Shows(Symbol::Sign(Class::Relation, '↾')) },
    Entry { name: "rfloor", key: 0x72666c6f6f720000, meaning: Meaning::Shows(Symbol::Sign(Class::Closing, '⌋')) },
    Entry { name: "rgroup", key: 0x7267726f75700000, meaning: Meaning::Shows(Symbol::Sign(Class::Closing, '⟯')) },
    Entry { name: "rhd", key: 0x7268640000000000, meaning: Meaning::Shows(Symbol::Sign(Class::Binary, '⊳')) },
    Entry { name: "rho", key: 0x72686f0000000000, meaning: Meaning::Shows(Symbol::Letter('ρ')) },
    Entry { name: "right", key: 0x7269676874000000, meaning: Meaning::Right },
    Entry { name: "rightarrow", key: 0x7269676874617272, meaning: Meaning::Shows(Symbol::Sign(Class::Relation, '→')) },
    Entry { name: "rightarrowtail", key: 0x7269676874617272, meaning: Meaning::Shows(Symbol::Sign(Class::Relation, '↣')) },
    Entry { name: "rightharpoondown", key: 0x7269676874686172, meaning: Meaning::Shows(Symbol::Sign(Class::Relation, '⇁')) },
    Entry { name: "rightharpoonup", key: 0x7269676874686172, meaning: Meaning::Shows(Symbol::Sign(Class::Relation, '⇀')) },
    Entry { name: "rightleftarrows", key: 0x72696768746c6566, meaning: Meaning::Shows(Symbol::Sign(Class::Relation, '⇄')) },
    Entry { name: "rightleftharpoons", key: 0x72696768746c6566, meaning: Meaning::Shows(Symbol::Sign(Class::Relation, '⇌')) },
    Entry { name: "rightrightarrows", key: 0x7269676874726967, meaning: Meaning::Shows(Symbol::Sign(Class::Relation, '⇉')) },
    Entry { name: "rightsquigarrow", key: 0x7269676874737175, meaning: Meaning::Shows(Symbol::Sign(Class::Relation, '⇝')) },
    Entry { name: "rightthreetimes", key: 0x7269676874746872, meaning: Meaning::Shows(Symbol::Sign(Class::Binary, '⋌')) },
    Entry { name: "risingdotseq", key: 0x726973696e67646f, meaning: Meaning::Shows(Symbol::Sign(Class::Relation, '≓')) },
    Entry { name: "rm", key: 0x726d000000000000, meaning: Meaning::Changes(Change::ToAlphabet(Alphabet::Upright)) },
    Entry { name: "rmoustache", key: 0x726d6f7573746163, meaning: Meaning::Shows(Symbol::Sign(Class::Closing, '⎱')) },
    Entry { name: "rparen", key: 0x72706172656e0000, meaning: Meaning::Shows(Symbol::Sign(Class::Closing, ')')) },
    Entry { name: "rrbracket", key: 0x7272627261636b65, meaning: Meaning::Shows(Symbol::Sign(Class::Closing, '⟧')) },
    Entry { name: "rtimes", key: 0x7274696d65730000, meaning: Meaning::Shows(Symbol::Sign(Class::Binary, '⋊')) },
    Entry { name: "rule", key: 0x72756c6500000000, meaning: Meaning::Rectangle },
    Entry { name: "rupee", key: 0x7275706565000000, meaning: Meaning::Shows(Symbol::Sign(Class::Ordinary, '₹')) },
    Entry { name: "rvert", key: 0x7276657274000000, meaning: Meaning::Shows(Symbol::Sign(Class::Closing, '∣')) },
];

/// Returns the entries of the names that begin with s.
#[tactic(auto, unfolding(crate::specs::Parts::entries_in, latex2mathml_tex_grammar::specs::Commands::command_entries, latex2mathml_tex_grammar::specs::CommandsUpToL::commands_up_to_l, latex2mathml_tex_grammar::specs::CommandsFromM::commands_from_m))]
pub(crate) fn letter_s() -> &'static [Entry]
    ensures part { map entry_of result.now ≡ entries_in 19 }
    ensures keyed { IsTrue (list_all has_key result.now) }
{
    &LETTER_S
}

#[rattlefmt::skip]
static LETTER_S: [Entry; 83] = [
    Entry { name: "saturn", key: 0x73617475726e0000, meaning: Meaning::Shows(Symbol::Sign(Class::Ordinary, '♄')) },
    Entry { name: "scriptscriptstyle", key: 0x7363726970747363, meaning: Meaning::Changes(Change::ToStyle(Style::InScript)) },
    Entry { name: "scriptsize", key: 0x7363726970747369, meaning: Meaning::Changes(Change::ToSize(TextSize::ScriptSize)) },
    Entry { name: "scriptstyle", key: 0x7363726970747374, meaning: Meaning::Changes(Change::ToStyle(Style::InScript)) },
    Entry { name: "sdot", key: 0x73646f7400000000, meaning: Meaning::Shows(Symbol::Sign(Class::Binary, '⋅')) },
    Entry { name: "searrow", key: 0x73656172726f7700, meaning: Meaning::Shows(Symbol::Sign(Class::Relation, '↘')) },
    Entry { name: "sec", key: 0x7365630000000000, meaning: Meaning::FunctionName(LimitPlace::Beside, "sec") },
    Entry { name: "sech", key: 0x7365636800000000, meaning: Meaning::FunctionName(LimitPlace::Beside, "sech") },
    Entry { name: "sect", key: 0x7365637400000000, meaning: Meaning::Shows(Symbol::Sign(Class::Ordinary, '§')) },
    Entry { name: "setminus", key: 0x7365746d696e7573, meaning: Meaning::Shows(Symbol::Sign(Class::Binary, '∖')) },
    Entry { name: "sf", key: 0x7366000000000000, meaning: Meaning::Changes(Change::ToAlphabet(Alphabet::SansSerif)) },
    Entry { name: "sh", key: 0x7368000000000000, meaning: Meaning::FunctionName(LimitPlace::Beside, "sh") },
    Entry { name: "sharp", key: 0x7368617270000000, meaning: Meaning::Shows(Symbol::Sign(Class::Ordinary, '♯')) },
    Entry { name: "shortmid", key: 0x73686f72746d6964, meaning: Meaning::Shows(Symbol::Sign(Class::Relation, '∣')) },
    Entry { name: "shortparallel", key: 0x73686f7274706172, meaning: Meaning::Shows(Symbol::Sign(Class::Relation, '∥')) },
    Entry { name: "sigma", key: 0x7369676d61000000, meaning: Meaning::Shows(Symbol::Letter('σ')) },
    Entry { name: "sim", key: 0x73696d0000000000, meaning: Meaning::Shows(Symbol::Sign(Class::Relation, '∼')) },
    Entry { name: "simeq", key: 0x73696d6571000000, meaning: Meaning::Shows(Symbol::Sign(Class::Relation, '≃')) },
    Entry { name: "sin", key: 0x73696e0000000000, meaning: Meaning::FunctionName(LimitPlace::Beside, "sin") },
    Entry { name: "sinh", key: 0x73696e6800000000, meaning: Meaning::FunctionName(LimitPlace::Beside, "sinh") },
    Entry { name: "sixptsize", key: 0x736978707473697a, meaning: Meaning::Changes(Change::ToSize(TextSize::SixPoint)) },
    Entry { name: "slashed", key: 0x736c617368656400, meaning: Meaning::Slash },
    Entry { name: "small", key: 0x736d616c6c000000, meaning: Meaning::Changes(Change::ToSize(TextSize::Small)) },
    Entry { name: "smallfrown", key: 0x736d616c6c66726f, meaning: Meaning::Shows(Symbol::Sign(Class::Relation, '⌢')) },
    Entry { name: "smallint", key: 0x736d616c6c696e74, meaning: Meaning::Shows(Symbol::Integral('∫')) },
    Entry { name: "smallsetminus", key: 0x736d616c6c736574, meaning: Meaning::Shows(Symbol::Sign(Class::Binary, '∖')) },
    Entry { name: "smallsmile", key: 0x736d616c6c736d69, meaning: Meaning::Shows(Symbol::Sign(Class::Relation, '⌣')) },
    Entry { name: "smash", key: 0x736d617368000000, meaning: Meaning::Smash },
    Entry { name: "smile", key: 0x736d696c65000000, meaning: Meaning::Shows(Symbol::Sign(Class::Relation, '⌣')) },
    Entry { name: "space", key: 0x7370616365000000, meaning: Meaning::Spacing(6) },
    Entry { name: "spades", key: 0x7370616465730000, meaning: Meaning::Shows(Symbol::Sign(Class::Ordinary, '♠')) },
    Entry { name: "spadesuit", key: 0x7370616465737569, meaning: Meaning::Shows(Symbol::Sign(Class::Ordinary, '♠')) },
    Entry { name: "sphericalangle", key: 0x7370686572696361, meaning: Meaning::Shows(Symbol::Sign(Class::Ordinary, '∢')) },
    Entry { name: "sqcap", key: 0x7371636170000000, meaning: Meaning::Shows(Symbol::Sign(Class::Binary, '⊓')) },
    Entry { name: "sqcup", key: 0x7371637570000000, meaning: Meaning::Shows(Symbol::Sign(Class::Binary, '⊔')) },
    Entry { name: "sqrt", key: 0x7371727400000000, meaning: Meaning::Root },
    Entry { name: "sqsubset", key: 0x7371737562736574, meaning: Meaning::Shows(Symbol::Sign(Class::Relation, '⊏')) },
    Entry { name: "sqsubseteq", key: 0x7371737562736574, meaning: Meaning::Shows(Symbol::Sign(Class::Relation, '⊑')) },
    Entry { name: "sqsupset", key: 0x7371737570736574, meaning: Meaning::Shows(Symbol::Sign(Class::Relation, '⊐')) },
    Entry { name: "sqsupseteq", key: 0x7371737570736574, meaning: Meaning::Shows(Symbol::Sign(Class::Relation, '⊒')) },
    Entry { name: "square", key: 0x7371756172650000, meaning: Meaning::Shows(Symbol::Sign(Class::Ordinary, '□')) },
    Entry { name: "ss", key: 0x7373000000000000, meaning: Meaning::Shows(Symbol::UprightLetter('ß')) },
    Entry { name: "stackrel", key: 0x737461636b72656c, meaning: Meaning::StackedRelation },
    Entry { name: "star", key: 0x7374617200000000, meaning: Meaning::Shows(Symbol::Sign(Class::Binary, '⋆')) },
    Entry { name: "sub", key: 0x7375620000000000, meaning: Meaning::Shows(Symbol::Sign(Class::Relation, '⊂')) },
    Entry { name: "sube", key: 0x7375626500000000, meaning: Meaning::Shows(Symbol::Sign(Class::Relation, '⊆')) },
    Entry { name: "subset", key: 0x7375627365740000, meaning: Meaning::Shows(Symbol::Sign(Class::Relation, '⊂')) },
    Entry { name: "subseteq", key: 0x7375627365746571, meaning: Meaning::Shows(Symbol::Sign(Class::Relation, '⊆')) },
    Entry { name: "subseteqq", key: 0x7375627365746571, meaning: Meaning::Shows(Symbol::Sign(Class::Relation, '⫅')) },
    Entry { name: "subsetneq", key: 0x7375627365746e65, meaning: Meaning::Shows(Symbol::Sign(Class::Relation, '⊊')) },
    Entry { name: "subsetneqq", key: 0x7375627365746e65, meaning: Meaning::Shows(Symbol::Sign(Class::Relation, '⫋')) },
    Entry { name: "substack", key: 0x737562737461636b, meaning: Meaning::Substack },
    Entry { name: "succ", key: 0x7375636300000000, meaning: Meaning::Shows(Symbol::Sign(Class::Relation, '≻')) },
    Entry { name: "succapprox", key: 0x7375636361707072, meaning: Meaning::Shows(Symbol::Sign(Class::Relation, '⪸')) },
    Entry { name: "succcurlyeq", key: 0x737563636375726c, meaning: Meaning::Shows(Symbol::Sign(Class::Relation, '≽')) },
    Entry { name: "succeq", key: 0x7375636365710000, meaning: Meaning::Shows(Symbol::Sign(Class::Relation, '⪰')) },
    Entry { name: "succnapprox", key: 0x737563636e617070, meaning: Meaning::Shows(Symbol::Sign(Class::Relation, '⪺')) },
    Entry { name: "succneqq", key: 0x737563636e657171, meaning: Meaning::Shows(Symbol::Sign(Class::Relation, '⪶')) },
    Entry { name: "succnsim", key: 0x737563636e73696d, meaning: Meaning::Shows(Symbol::Sign(Class::Relation, '⋩')) },
    Entry { name: "succsim", key: 0x7375636373696d00, meaning: Meaning::Shows(Symbol::Sign(Class::Relation, '≿')) },
    Entry { name: "sum", key: 0x73756d0000000000, meaning: Meaning::Shows(Symbol::BigOperator('∑')) },
    Entry { name: "sun", key: 0x73756e0000000000, meaning: Meaning::Shows(Symbol::Sign(Class::Ordinary, '☼')) },
    Entry { name: "sup", key: 0x7375700000000000, meaning: Meaning::FunctionName(LimitPlace::ByStyle, "sup") },
    Entry { name: "supe", key: 0x7375706500000000, meaning: Meaning::Shows(Symbol::Sign(Class::Relation, '⊇')) },
    Entry { name: "supset", key: 0x7375707365740000, meaning: Meaning::Shows(Symbol::Sign(Class::Relation, '⊃')) },
    Entry { name: "supseteq", key: 0x7375707365746571, meaning: Meaning::Shows(Symbol::Sign(Class::Relation, '⊇')) },
    Entry { name: "supseteqq", key: 0x7375707365746571, meaning: Meaning::Shows(Symbol::Sign(Class::Relation, '⫆')) },
    Entry { name: "supsetneq", key: 0x7375707365746e65, meaning: Meaning::Shows(Symbol::Sign(Class::Relation, '⊋')) },
    Entry { name: "supsetneqq", key: 0x7375707365746e65, meaning: Meaning::Shows(Symbol::Sign(Class::Relation, '⫌')) },
    Entry { name: "surd", key: 0x7375726400000000, meaning: Meaning::Shows(Symbol::Sign(Class::Ordinary, '√')) },
    Entry { name: "swarrow", key: 0x73776172726f7700, meaning: Meaning::Shows(Symbol::Sign(Class::Relation, '↙')) },
    Entry { name: "symbb", key: 0x73796d6262000000, meaning: Meaning::Styled(Alphabet::DoubleStruck) },
    Entry { name: "symbf", key: 0x73796d6266000000, meaning: Meaning::Styled(Alphabet::BoldItalic) },
    Entry { name: "symbfit", key: 0x73796d6266697400, meaning: Meaning::Styled(Alphabet::BoldItalic) },
    Entry { name: "symbfup", key: 0x73796d6266757000, meaning: Meaning::Styled(Alphabet::Bold) },
    Entry { name: "symcal", key: 0x73796d63616c0000, meaning: Meaning::Styled(Alphabet::Calligraphic) },
    Entry { name: "symfrak", key: 0x73796d6672616b00, meaning: Meaning::Styled(Alphabet::Fraktur) },
    Entry { name: "symit", key: 0x73796d6974000000, meaning: Meaning::Styled(Alphabet::Italic) },
    Entry { name: "symrm", key: 0x73796d726d000000, meaning: Meaning::Styled(Alphabet::Upright) },
    Entry { name: "symscr", key: 0x73796d7363720000, meaning: Meaning::Styled(Alphabet::Calligraphic) },
    Entry { name: "symsf", key: 0x73796d7366000000, meaning: Meaning::Styled(Alphabet::SansSerif) },
    Entry { name: "symtt", key: 0x73796d7474000000, meaning: Meaning::Styled(Alphabet::Monospace) },
    Entry { name: "symup", key: 0x73796d7570000000, meaning: Meaning::Styled(Alphabet::Upright) },
];
