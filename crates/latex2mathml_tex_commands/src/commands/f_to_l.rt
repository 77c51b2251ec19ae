//! The commands that begin with the letters from f to l.
ghost use Rattle.std.specs.Prelude.{◌≡◌, IsTrue, map};
ghost use Rattle.std.specs.List.{list_all};
ghost use Rattle.latex2mathml_tex_commands.specs.{Keys.has_key, Meanings.entry_of, Parts.entries_in};

use crate::meaning::{
    Alphabet, Change, Class, Entry, FractionRule, LimitPlace, Meaning, OperandBox, Symbol, TextSize,
};
use latex2mathml_attributes::attributes::{Side, Stretch};

/// Returns the entries of the names that begin with f.
#[tactic(auto, unfolding(crate::specs::Parts::entries_in, latex2mathml_tex_grammar::specs::Commands::command_entries, latex2mathml_tex_grammar::specs::CommandsUpToL::commands_up_to_l, latex2mathml_tex_grammar::specs::CommandsFromM::commands_from_m))]
pub(crate) fn letter_f() -> &'static [Entry]
    ensures part { map entry_of result.now ≡ entries_in 6 }
    ensures keyed { IsTrue (list_all has_key result.now) }
{
    &LETTER_F
}

#[rattlefmt::skip]
static LETTER_F: [Entry; 9] = [
    Entry { name: "fallingdotseq", key: 0x66616c6c696e6764, meaning: Meaning::Shows(Symbol::Sign(Class::Relation, '≒')) },
    Entry { name: "fint", key: 0x66696e7400000000, meaning: Meaning::Shows(Symbol::Integral('⨍')) },
    Entry { name: "flat", key: 0x666c617400000000, meaning: Meaning::Shows(Symbol::Sign(Class::Ordinary, '♭')) },
    Entry { name: "footnotesize", key: 0x666f6f746e6f7465, meaning: Meaning::Changes(Change::ToSize(TextSize::FootnoteSize)) },
    Entry { name: "forall", key: 0x666f72616c6c0000, meaning: Meaning::Shows(Symbol::Sign(Class::Ordinary, '∀')) },
    Entry { name: "frac", key: 0x6672616300000000, meaning: Meaning::Fraction(FractionRule::Bar, None) },
    Entry { name: "frak", key: 0x6672616b00000000, meaning: Meaning::Styled(Alphabet::Fraktur) },
    Entry { name: "from", key: 0x66726f6d00000000, meaning: Meaning::Shows(Symbol::Sign(Class::Relation, '⌢')) },
    Entry { name: "frown", key: 0x66726f776e000000, meaning: Meaning::Shows(Symbol::Sign(Class::Relation, '⌢')) },
];

/// Returns the entries of the names that begin with g.
#[tactic(auto, unfolding(crate::specs::Parts::entries_in, latex2mathml_tex_grammar::specs::Commands::command_entries, latex2mathml_tex_grammar::specs::CommandsUpToL::commands_up_to_l, latex2mathml_tex_grammar::specs::CommandsFromM::commands_from_m))]
pub(crate) fn letter_g() -> &'static [Entry]
    ensures part { map entry_of result.now ≡ entries_in 7 }
    ensures keyed { IsTrue (list_all has_key result.now) }
{
    &LETTER_G
}

#[rattlefmt::skip]
static LETTER_G: [Entry; 25] = [
    Entry { name: "gamma", key: 0x67616d6d61000000, meaning: Meaning::Shows(Symbol::Letter('γ')) },
    Entry { name: "gcd", key: 0x6763640000000000, meaning: Meaning::FunctionName(LimitPlace::ByStyle, "gcd") },
    Entry { name: "ge", key: 0x6765000000000000, meaning: Meaning::Shows(Symbol::Sign(Class::Relation, '≥')) },
    Entry { name: "genfrac", key: 0x67656e6672616300, meaning: Meaning::GeneralFraction },
    Entry { name: "geq", key: 0x6765710000000000, meaning: Meaning::Shows(Symbol::Sign(Class::Relation, '≥')) },
    Entry { name: "geqq", key: 0x6765717100000000, meaning: Meaning::Shows(Symbol::Sign(Class::Relation, '≧')) },
    Entry { name: "geqslant", key: 0x676571736c616e74, meaning: Meaning::Shows(Symbol::Sign(Class::Relation, '⩾')) },
    Entry { name: "gets", key: 0x6765747300000000, meaning: Meaning::Shows(Symbol::Sign(Class::Relation, '←')) },
    Entry { name: "gg", key: 0x6767000000000000, meaning: Meaning::Shows(Symbol::Sign(Class::Relation, '≫')) },
    Entry { name: "ggg", key: 0x6767670000000000, meaning: Meaning::Shows(Symbol::Sign(Class::Relation, '⋙')) },
    Entry { name: "gggtr", key: 0x6767677472000000, meaning: Meaning::Shows(Symbol::Sign(Class::Relation, '⋙')) },
    Entry { name: "gimel", key: 0x67696d656c000000, meaning: Meaning::Shows(Symbol::UprightLetter('ℷ')) },
    Entry { name: "gnapprox", key: 0x676e617070726f78, meaning: Meaning::Shows(Symbol::Sign(Class::Relation, '⪊')) },
    Entry { name: "gneq", key: 0x676e657100000000, meaning: Meaning::Shows(Symbol::Sign(Class::Relation, '⪈')) },
    Entry { name: "gneqq", key: 0x676e657171000000, meaning: Meaning::Shows(Symbol::Sign(Class::Relation, '≩')) },
    Entry { name: "gnsim", key: 0x676e73696d000000, meaning: Meaning::Shows(Symbol::Sign(Class::Relation, '⋧')) },
    Entry { name: "grave", key: 0x6772617665000000, meaning: Meaning::Accent(Side::Above, '`', Stretch::Rigid) },
    Entry { name: "gt", key: 0x6774000000000000, meaning: Meaning::Shows(Symbol::Sign(Class::Relation, '>')) },
    Entry { name: "gtrapprox", key: 0x677472617070726f, meaning: Meaning::Shows(Symbol::Sign(Class::Relation, '⪆')) },
    Entry { name: "gtrdot", key: 0x677472646f740000, meaning: Meaning::Shows(Symbol::Sign(Class::Binary, '⋗')) },
    Entry { name: "gtreqless", key: 0x67747265716c6573, meaning: Meaning::Shows(Symbol::Sign(Class::Relation, '⋛')) },
    Entry { name: "gtreqqless", key: 0x6774726571716c65, meaning: Meaning::Shows(Symbol::Sign(Class::Relation, '⪌')) },
    Entry { name: "gtrless", key: 0x6774726c65737300, meaning: Meaning::Shows(Symbol::Sign(Class::Relation, '≷')) },
    Entry { name: "gtrsim", key: 0x67747273696d0000, meaning: Meaning::Shows(Symbol::Sign(Class::Relation, '≳')) },
    Entry { name: "gvertneqq", key: 0x67766572746e6571, meaning: Meaning::Shows(Symbol::Sign(Class::Relation, '≩')) },
];

/// Returns the entries of the names that begin with h.
#[tactic(auto, unfolding(crate::specs::Parts::entries_in, latex2mathml_tex_grammar::specs::Commands::command_entries, latex2mathml_tex_grammar::specs::CommandsUpToL::commands_up_to_l, latex2mathml_tex_grammar::specs::CommandsFromM::commands_from_m))]
pub(crate) fn letter_h() -> &'static [Entry]
    ensures part { map entry_of result.now ≡ entries_in 8 }
    ensures keyed { IsTrue (list_all has_key result.now) }
{
    &LETTER_H
}

#[rattlefmt::skip]
static LETTER_H: [Entry; 15] = [
    Entry { name: "hArr", key: 0x6841727200000000, meaning: Meaning::Shows(Symbol::Sign(Class::Relation, '⇔')) },
    Entry { name: "harr", key: 0x6861727200000000, meaning: Meaning::Shows(Symbol::Sign(Class::Relation, '↔')) },
    Entry { name: "hat", key: 0x6861740000000000, meaning: Meaning::Accent(Side::Above, 'ˆ', Stretch::Rigid) },
    Entry { name: "hbar", key: 0x6862617200000000, meaning: Meaning::Shows(Symbol::Letter('ℏ')) },
    Entry { name: "hbox", key: 0x68626f7800000000, meaning: Meaning::Words(None) },
    Entry { name: "hearts", key: 0x6865617274730000, meaning: Meaning::Shows(Symbol::Sign(Class::Ordinary, '♡')) },
    Entry { name: "heartsuit", key: 0x6865617274737569, meaning: Meaning::Shows(Symbol::Sign(Class::Ordinary, '♡')) },
    Entry { name: "hom", key: 0x686f6d0000000000, meaning: Meaning::FunctionName(LimitPlace::Beside, "hom") },
    Entry { name: "hookleftarrow", key: 0x686f6f6b6c656674, meaning: Meaning::Shows(Symbol::Sign(Class::Relation, '↩')) },
    Entry { name: "hookrightarrow", key: 0x686f6f6b72696768, meaning: Meaning::Shows(Symbol::Sign(Class::Relation, '↪')) },
    Entry { name: "hphantom", key: 0x687068616e746f6d, meaning: Meaning::Boxed(OperandBox::PhantomWidth) },
    Entry { name: "hskip", key: 0x68736b6970000000, meaning: Meaning::Skip },
    Entry { name: "hslash", key: 0x68736c6173680000, meaning: Meaning::Shows(Symbol::Letter('ℏ')) },
    Entry { name: "hspace", key: 0x6873706163650000, meaning: Meaning::SkipInBraces },
    Entry { name: "huge", key: 0x6875676500000000, meaning: Meaning::Changes(Change::ToSize(TextSize::Huge)) },
];

/// Returns the entries of the names that begin with i.
#[tactic(auto, unfolding(crate::specs::Parts::entries_in, latex2mathml_tex_grammar::specs::Commands::command_entries, latex2mathml_tex_grammar::specs::CommandsUpToL::commands_up_to_l, latex2mathml_tex_grammar::specs::CommandsFromM::commands_from_m))]
pub(crate) fn letter_i() -> &'static [Entry]
    ensures part { map entry_of result.now ≡ entries_in 9 }
    ensures keyed { IsTrue (list_all has_key result.now) }
{
    &LETTER_I
}

#[rattlefmt::skip]
static LETTER_I: [Entry; 21] = [
    Entry { name: "iddots", key: 0x6964646f74730000, meaning: Meaning::Shows(Symbol::Sign(Class::Inner, '⋰')) },
    Entry { name: "iff", key: 0x6966660000000000, meaning: Meaning::Implication('⟺') },
    Entry { name: "iiiint", key: 0x696969696e740000, meaning: Meaning::Shows(Symbol::Integral('⨌')) },
    Entry { name: "iiint", key: 0x6969696e74000000, meaning: Meaning::Shows(Symbol::Integral('∭')) },
    Entry { name: "iint", key: 0x69696e7400000000, meaning: Meaning::Shows(Symbol::Integral('∬')) },
    Entry { name: "image", key: 0x696d616765000000, meaning: Meaning::Shows(Symbol::UprightLetter('ℑ')) },
    Entry { name: "imageof", key: 0x696d6167656f6600, meaning: Meaning::Shows(Symbol::Sign(Class::Relation, '⊷')) },
    Entry { name: "imath", key: 0x696d617468000000, meaning: Meaning::Shows(Symbol::Letter('ı')) },
    Entry { name: "impliedby", key: 0x696d706c69656462, meaning: Meaning::Implication('⟸') },
    Entry { name: "implies", key: 0x696d706c69657300, meaning: Meaning::Implication('⟹') },
    Entry { name: "in", key: 0x696e000000000000, meaning: Meaning::Shows(Symbol::Sign(Class::Relation, '∈')) },
    Entry { name: "inf", key: 0x696e660000000000, meaning: Meaning::FunctionName(LimitPlace::ByStyle, "inf") },
    Entry { name: "infin", key: 0x696e66696e000000, meaning: Meaning::Shows(Symbol::Sign(Class::Ordinary, '∞')) },
    Entry { name: "infty", key: 0x696e667479000000, meaning: Meaning::Shows(Symbol::Sign(Class::Ordinary, '∞')) },
    Entry { name: "injlim", key: 0x696e6a6c696d0000, meaning: Meaning::FunctionName(LimitPlace::ByStyle, "inj\u{2009}lim") },
    Entry { name: "int", key: 0x696e740000000000, meaning: Meaning::Shows(Symbol::Integral('∫')) },
    Entry { name: "intercal", key: 0x696e74657263616c, meaning: Meaning::Shows(Symbol::Sign(Class::Binary, '⊺')) },
    Entry { name: "intop", key: 0x696e746f70000000, meaning: Meaning::Shows(Symbol::BigOperator('∫')) },
    Entry { name: "iota", key: 0x696f746100000000, meaning: Meaning::Shows(Symbol::Letter('ι')) },
    Entry { name: "isin", key: 0x6973696e00000000, meaning: Meaning::Shows(Symbol::Sign(Class::Relation, '∈')) },
    Entry { name: "it", key: 0x6974000000000000, meaning: Meaning::Changes(Change::ToAlphabet(Alphabet::Italic)) },
];

/// Returns the entries of the names that begin with j.
#[tactic(auto, unfolding(crate::specs::Parts::entries_in, latex2mathml_tex_grammar::specs::Commands::command_entries, latex2mathml_tex_grammar::specs::CommandsUpToL::commands_up_to_l, latex2mathml_tex_grammar::specs::CommandsFromM::commands_from_m))]
pub(crate) fn letter_j() -> &'static [Entry]
    ensures part { map entry_of result.now ≡ entries_in 10 }
    ensures keyed { IsTrue (list_all has_key result.now) }
{
    &LETTER_J
}

#[rattlefmt::skip]
static LETTER_J: [Entry; 2] = [
    Entry { name: "jmath", key: 0x6a6d617468000000, meaning: Meaning::Shows(Symbol::Letter('ȷ')) },
    Entry { name: "jupiter", key: 0x6a75706974657200, meaning: Meaning::Shows(Symbol::Sign(Class::Ordinary, '♃')) },
];

/// Returns the entries of the names that begin with k.
#[tactic(auto, unfolding(crate::specs::Parts::entries_in, latex2mathml_tex_grammar::specs::Commands::command_entries, latex2mathml_tex_grammar::specs::CommandsUpToL::commands_up_to_l, latex2mathml_tex_grammar::specs::CommandsFromM::commands_from_m))]
pub(crate) fn letter_k() -> &'static [Entry]
    ensures part { map entry_of result.now ≡ entries_in 11 }
    ensures keyed { IsTrue (list_all has_key result.now) }
{
    &LETTER_K
}

#[rattlefmt::skip]
static LETTER_K: [Entry; 3] = [
    Entry { name: "kappa", key: 0x6b61707061000000, meaning: Meaning::Shows(Symbol::Letter('κ')) },
    Entry { name: "ker", key: 0x6b65720000000000, meaning: Meaning::FunctionName(LimitPlace::Beside, "ker") },
    Entry { name: "kern", key: 0x6b65726e00000000, meaning: Meaning::Skip },
];

/// Returns the entries of the names that begin with l.
#[tactic(auto, unfolding(crate::specs::Parts::entries_in, latex2mathml_tex_grammar::specs::Commands::command_entries, latex2mathml_tex_grammar::specs::CommandsUpToL::commands_up_to_l, latex2mathml_tex_grammar::specs::CommandsFromM::commands_from_m))]
pub(crate) fn letter_l() -> &'static [Entry]
    ensures part { map entry_of result.now ≡ entries_in 12 }
    ensures keyed { IsTrue (list_all has_key result.now) }
{
    &LETTER_L
}

#[rattlefmt::skip]
static LETTER_L: [Entry; 75] = [
    Entry { name: "l", key: 0x6c00000000000000, meaning: Meaning::Shows(Symbol::UprightLetter('ł')) },
    Entry { name: "lArr", key: 0x6c41727200000000, meaning: Meaning::Shows(Symbol::Sign(Class::Relation, '⇐')) },
    Entry { name: "lBrace", key: 0x6c42726163650000, meaning: Meaning::Shows(Symbol::Sign(Class::Opening, '⦃')) },
    Entry { name: "lVert", key: 0x6c56657274000000, meaning: Meaning::Shows(Symbol::Sign(Class::Opening, '∥')) },
    Entry { name: "lambda", key: 0x6c616d6264610000, meaning: Meaning::Shows(Symbol::Letter('λ')) },
    Entry { name: "land", key: 0x6c616e6400000000, meaning: Meaning::Shows(Symbol::Sign(Class::Binary, '∧')) },
    Entry { name: "lang", key: 0x6c616e6700000000, meaning: Meaning::Shows(Symbol::Sign(Class::Opening, '⟨')) },
    Entry { name: "langle", key: 0x6c616e676c650000, meaning: Meaning::Shows(Symbol::Sign(Class::Opening, '⟨')) },
    Entry { name: "large", key: 0x6c61726765000000, meaning: Meaning::Changes(Change::ToSize(TextSize::Large)) },
    Entry { name: "larr", key: 0x6c61727200000000, meaning: Meaning::Shows(Symbol::Sign(Class::Relation, '←')) },
    Entry { name: "lbrace", key: 0x6c62726163650000, meaning: Meaning::Shows(Symbol::Sign(Class::Opening, '{')) },
    Entry { name: "lbrack", key: 0x6c627261636b0000, meaning: Meaning::Shows(Symbol::Sign(Class::Opening, '[')) },
    Entry { name: "lceil", key: 0x6c6365696c000000, meaning: Meaning::Shows(Symbol::Sign(Class::Opening, '⌈')) },
    Entry { name: "ldotp", key: 0x6c646f7470000000, meaning: Meaning::Shows(Symbol::Sign(Class::Punctuation, '.')) },
    Entry { name: "ldots", key: 0x6c646f7473000000, meaning: Meaning::Shows(Symbol::Sign(Class::Inner, '…')) },
    Entry { name: "le", key: 0x6c65000000000000, meaning: Meaning::Shows(Symbol::Sign(Class::Relation, '≤')) },
    Entry { name: "leadsto", key: 0x6c65616473746f00, meaning: Meaning::Shows(Symbol::Sign(Class::Relation, '⇝')) },
    Entry { name: "left", key: 0x6c65667400000000, meaning: Meaning::Left },
    Entry { name: "leftarrow", key: 0x6c6566746172726f, meaning: Meaning::Shows(Symbol::Sign(Class::Relation, '←')) },
    Entry { name: "leftarrowtail", key: 0x6c6566746172726f, meaning: Meaning::Shows(Symbol::Sign(Class::Relation, '↢')) },
    Entry { name: "leftharpoondown", key: 0x6c65667468617270, meaning: Meaning::Shows(Symbol::Sign(Class::Relation, '↽')) },
    Entry { name: "leftharpoonup", key: 0x6c65667468617270, meaning: Meaning::Shows(Symbol::Sign(Class::Relation, '↼')) },
    Entry { name: "leftleftarrows", key: 0x6c6566746c656674, meaning: Meaning::Shows(Symbol::Sign(Class::Relation, '⇇')) },
    Entry { name: "leftrightarrow", key: 0x6c65667472696768, meaning: Meaning::Shows(Symbol::Sign(Class::Relation, '↔')) },
    Entry { name: "leftrightarrows", key: 0x6c65667472696768, meaning: Meaning::Shows(Symbol::Sign(Class::Relation, '⇆')) },
    Entry { name: "leftrightharpoons", key: 0x6c65667472696768, meaning: Meaning::Shows(Symbol::Sign(Class::Relation, '⇋')) },
    Entry { name: "leftrightsquigarrow", key: 0x6c65667472696768, meaning: Meaning::Shows(Symbol::Sign(Class::Relation, '↭')) },
    Entry { name: "leftthreetimes", key: 0x6c65667474687265, meaning: Meaning::Shows(Symbol::Sign(Class::Binary, '⋋')) },
    Entry { name: "leq", key: 0x6c65710000000000, meaning: Meaning::Shows(Symbol::Sign(Class::Relation, '≤')) },
    Entry { name: "leqq", key: 0x6c65717100000000, meaning: Meaning::Shows(Symbol::Sign(Class::Relation, '≦')) },
    Entry { name: "leqslant", key: 0x6c6571736c616e74, meaning: Meaning::Shows(Symbol::Sign(Class::Relation, '⩽')) },
    Entry { name: "lessapprox", key: 0x6c65737361707072, meaning: Meaning::Shows(Symbol::Sign(Class::Relation, '⪅')) },
    Entry { name: "lessdot", key: 0x6c657373646f7400, meaning: Meaning::Shows(Symbol::Sign(Class::Binary, '⋖')) },
    Entry { name: "lesseqgtr", key: 0x6c65737365716774, meaning: Meaning::Shows(Symbol::Sign(Class::Relation, '⋚')) },
    Entry { name: "lesseqqgtr", key: 0x6c65737365717167, meaning: Meaning::Shows(Symbol::Sign(Class::Relation, '⪋')) },
    Entry { name: "lessgtr", key: 0x6c65737367747200, meaning: Meaning::Shows(Symbol::Sign(Class::Relation, '≶')) },
    Entry { name: "lesssim", key: 0x6c65737373696d00, meaning: Meaning::Shows(Symbol::Sign(Class::Relation, '≲')) },
    Entry { name: "lfloor", key: 0x6c666c6f6f720000, meaning: Meaning::Shows(Symbol::Sign(Class::Opening, '⌊')) },
    Entry { name: "lg", key: 0x6c67000000000000, meaning: Meaning::FunctionName(LimitPlace::Beside, "lg") },
    Entry { name: "lgroup", key: 0x6c67726f75700000, meaning: Meaning::Shows(Symbol::Sign(Class::Opening, '⟮')) },
    Entry { name: "lhd", key: 0x6c68640000000000, meaning: Meaning::Shows(Symbol::Sign(Class::Binary, '⊲')) },
    Entry { name: "lightning", key: 0x6c696768746e696e, meaning: Meaning::Shows(Symbol::Sign(Class::Relation, '↯')) },
    Entry { name: "lim", key: 0x6c696d0000000000, meaning: Meaning::FunctionName(LimitPlace::ByStyle, "lim") },
    Entry { name: "liminf", key: 0x6c696d696e660000, meaning: Meaning::FunctionName(LimitPlace::ByStyle, "lim\u{2009}inf") },
    Entry { name: "limits", key: 0x6c696d6974730000, meaning: Meaning::Limits },
    Entry { name: "limsup", key: 0x6c696d7375700000, meaning: Meaning::FunctionName(LimitPlace::ByStyle, "lim\u{2009}sup") },
    Entry { name: "ll", key: 0x6c6c000000000000, meaning: Meaning::Shows(Symbol::Sign(Class::Relation, '≪')) },
    Entry { name: "llbracket", key: 0x6c6c627261636b65, meaning: Meaning::Shows(Symbol::Sign(Class::Opening, '⟦')) },
    Entry { name: "llcorner", key: 0x6c6c636f726e6572, meaning: Meaning::Shows(Symbol::Sign(Class::Opening, '⌞')) },
    Entry { name: "lll", key: 0x6c6c6c0000000000, meaning: Meaning::Shows(Symbol::Sign(Class::Relation, '⋘')) },
    Entry { name: "llless", key: 0x6c6c6c6573730000, meaning: Meaning::Shows(Symbol::Sign(Class::Relation, '⋘')) },
    Entry { name: "lmoustache", key: 0x6c6d6f7573746163, meaning: Meaning::Shows(Symbol::Sign(Class::Opening, '⎰')) },
    Entry { name: "ln", key: 0x6c6e000000000000, meaning: Meaning::FunctionName(LimitPlace::Beside, "ln") },
    Entry { name: "lnapprox", key: 0x6c6e617070726f78, meaning: Meaning::Shows(Symbol::Sign(Class::Relation, '⪉')) },
    Entry { name: "lneq", key: 0x6c6e657100000000, meaning: Meaning::Shows(Symbol::Sign(Class::Relation, '⪇')) },
    Entry { name: "lneqq", key: 0x6c6e657171000000, meaning: Meaning::Shows(Symbol::Sign(Class::Relation, '≨')) },
    Entry { name: "lnot", key: 0x6c6e6f7400000000, meaning: Meaning::Shows(Symbol::Sign(Class::Ordinary, '¬')) },
    Entry { name: "lnsim", key: 0x6c6e73696d000000, meaning: Meaning::Shows(Symbol::Sign(Class::Relation, '⋦')) },
    Entry { name: "log", key: 0x6c6f670000000000, meaning: Meaning::FunctionName(LimitPlace::Beside, "log") },
    Entry { name: "longleftarrow", key: 0x6c6f6e676c656674, meaning: Meaning::Shows(Symbol::Sign(Class::Relation, '⟵')) },
    Entry { name: "longleftrightarrow", key: 0x6c6f6e676c656674, meaning: Meaning::Shows(Symbol::Sign(Class::Relation, '⟷')) },
    Entry { name: "longmapsto", key: 0x6c6f6e676d617073, meaning: Meaning::Shows(Symbol::Sign(Class::Relation, '⟼')) },
    Entry { name: "longrightarrow", key: 0x6c6f6e6772696768, meaning: Meaning::Shows(Symbol::Sign(Class::Relation, '⟶')) },
    Entry { name: "looparrowleft", key: 0x6c6f6f706172726f, meaning: Meaning::Shows(Symbol::Sign(Class::Relation, '↫')) },
    Entry { name: "looparrowright", key: 0x6c6f6f706172726f, meaning: Meaning::Shows(Symbol::Sign(Class::Relation, '↬')) },
    Entry { name: "lor", key: 0x6c6f720000000000, meaning: Meaning::Shows(Symbol::Sign(Class::Binary, '∨')) },
    Entry { name: "lozenge", key: 0x6c6f7a656e676500, meaning: Meaning::Shows(Symbol::Sign(Class::Ordinary, '◊')) },
    Entry { name: "lparen", key: 0x6c706172656e0000, meaning: Meaning::Shows(Symbol::Sign(Class::Opening, '(')) },
    Entry { name: "lrArr", key: 0x6c72417272000000, meaning: Meaning::Shows(Symbol::Sign(Class::Relation, '⇔')) },
    Entry { name: "lrarr", key: 0x6c72617272000000, meaning: Meaning::Shows(Symbol::Sign(Class::Relation, '↔')) },
    Entry { name: "lrcorner", key: 0x6c72636f726e6572, meaning: Meaning::Shows(Symbol::Sign(Class::Closing, '⌟')) },
    Entry { name: "lt", key: 0x6c74000000000000, meaning: Meaning::Shows(Symbol::Sign(Class::Relation, '<')) },
    Entry { name: "ltimes", key: 0x6c74696d65730000, meaning: Meaning::Shows(Symbol::Sign(Class::Binary, '⋉')) },
    Entry { name: "lvert", key: 0x6c76657274000000, meaning: Meaning::Shows(Symbol::Sign(Class::Opening, '∣')) },
    Entry { name: "lvertneqq", key: 0x6c766572746e6571, meaning: Meaning::Shows(Symbol::Sign(Class::Relation, '≨')) },
];
