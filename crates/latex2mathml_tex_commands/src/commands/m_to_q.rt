//! The commands that begin with the letters from m to q.
ghost use Rattle.std.specs.Prelude.{◌≡◌, IsTrue, map};
ghost use Rattle.std.specs.List.{list_all};
ghost use Rattle.latex2mathml_tex_commands.specs.{Keys.has_key, Meanings.entry_of, Parts.entries_in};

use crate::meaning::{
    Alphabet, Change, Class, Entry, FractionRule, LimitPlace, Meaning, OperandBox, Symbol, TextSize,
};
use latex2mathml_attributes::attributes::{Side, Stretch};

/// Returns the entries of the names that begin with m.
#[tactic(auto, unfolding(crate::specs::Parts::entries_in, latex2mathml_tex_grammar::specs::Commands::command_entries, latex2mathml_tex_grammar::specs::CommandsUpToL::commands_up_to_l, latex2mathml_tex_grammar::specs::CommandsFromM::commands_from_m))]
pub(crate) fn letter_m() -> &'static [Entry]
    ensures part { map entry_of result.now ≡ entries_in 13 }
    ensures keyed { IsTrue (list_all has_key result.now) }
{
    &LETTER_M
}

#[rattlefmt::skip]
static LETTER_M: [Entry; 58] = [
    Entry { name: "maltese", key: 0x6d616c7465736500, meaning: Meaning::Shows(Symbol::Sign(Class::Ordinary, '✠')) },
    Entry { name: "mapsto", key: 0x6d617073746f0000, meaning: Meaning::Shows(Symbol::Sign(Class::Relation, '↦')) },
    Entry { name: "mars", key: 0x6d61727300000000, meaning: Meaning::Shows(Symbol::Sign(Class::Ordinary, '♂')) },
    Entry { name: "mathbb", key: 0x6d61746862620000, meaning: Meaning::Styled(Alphabet::DoubleStruck) },
    Entry { name: "mathbbm", key: 0x6d61746862626d00, meaning: Meaning::Styled(Alphabet::DoubleStruck) },
    Entry { name: "mathbbmss", key: 0x6d61746862626d73, meaning: Meaning::Styled(Alphabet::DoubleStruck) },
    Entry { name: "mathbbold", key: 0x6d61746862626f6c, meaning: Meaning::Styled(Alphabet::DoubleStruck) },
    Entry { name: "mathbf", key: 0x6d61746862660000, meaning: Meaning::Styled(Alphabet::Bold) },
    Entry { name: "mathbfit", key: 0x6d61746862666974, meaning: Meaning::Styled(Alphabet::BoldItalic) },
    Entry { name: "mathbfup", key: 0x6d61746862667570, meaning: Meaning::Styled(Alphabet::Bold) },
    Entry { name: "mathbin", key: 0x6d61746862696e00, meaning: Meaning::Classed(Class::Binary) },
    Entry { name: "mathcal", key: 0x6d61746863616c00, meaning: Meaning::Styled(Alphabet::Calligraphic) },
    Entry { name: "mathchoice", key: 0x6d61746863686f69, meaning: Meaning::Choice },
    Entry { name: "mathclap", key: 0x6d617468636c6170, meaning: Meaning::Boxed(OperandBox::OverBoth) },
    Entry { name: "mathclose", key: 0x6d617468636c6f73, meaning: Meaning::Classed(Class::Closing) },
    Entry { name: "mathcolor", key: 0x6d617468636f6c6f, meaning: Meaning::InColor },
    Entry { name: "mathcolorbox", key: 0x6d617468636f6c6f, meaning: Meaning::Highlight },
    Entry { name: "mathds", key: 0x6d61746864730000, meaning: Meaning::Styled(Alphabet::DoubleStruck) },
    Entry { name: "mathellipsis", key: 0x6d617468656c6c69, meaning: Meaning::Shows(Symbol::Sign(Class::Inner, '…')) },
    Entry { name: "mathfrak", key: 0x6d6174686672616b, meaning: Meaning::Styled(Alphabet::Fraktur) },
    Entry { name: "mathinner", key: 0x6d617468696e6e65, meaning: Meaning::Classed(Class::Inner) },
    Entry { name: "mathit", key: 0x6d61746869740000, meaning: Meaning::Styled(Alphabet::Italic) },
    Entry { name: "mathllap", key: 0x6d6174686c6c6170, meaning: Meaning::Boxed(OperandBox::OverLeft) },
    Entry { name: "mathnormal", key: 0x6d6174686e6f726d, meaning: Meaning::Styled(Alphabet::Italic) },
    Entry { name: "mathop", key: 0x6d6174686f700000, meaning: Meaning::Classed(Class::Operator) },
    Entry { name: "mathopen", key: 0x6d6174686f70656e, meaning: Meaning::Classed(Class::Opening) },
    Entry { name: "mathord", key: 0x6d6174686f726400, meaning: Meaning::Classed(Class::Ordinary) },
    Entry { name: "mathpunct", key: 0x6d61746870756e63, meaning: Meaning::Classed(Class::Punctuation) },
    Entry { name: "mathpzc", key: 0x6d617468707a6300, meaning: Meaning::Styled(Alphabet::Calligraphic) },
    Entry { name: "mathrel", key: 0x6d61746872656c00, meaning: Meaning::Classed(Class::Relation) },
    Entry { name: "mathring", key: 0x6d61746872696e67, meaning: Meaning::Accent(Side::Above, '˚', Stretch::Rigid) },
    Entry { name: "mathrlap", key: 0x6d617468726c6170, meaning: Meaning::Boxed(OperandBox::OverRight) },
    Entry { name: "mathrm", key: 0x6d617468726d0000, meaning: Meaning::Styled(Alphabet::Upright) },
    Entry { name: "mathscr", key: 0x6d61746873637200, meaning: Meaning::Styled(Alphabet::Calligraphic) },
    Entry { name: "mathsf", key: 0x6d61746873660000, meaning: Meaning::Styled(Alphabet::SansSerif) },
    Entry { name: "mathsterling", key: 0x6d61746873746572, meaning: Meaning::Shows(Symbol::Sign(Class::Ordinary, '£')) },
    Entry { name: "mathtt", key: 0x6d61746874740000, meaning: Meaning::Styled(Alphabet::Monospace) },
    Entry { name: "mathup", key: 0x6d61746875700000, meaning: Meaning::Styled(Alphabet::Upright) },
    Entry { name: "max", key: 0x6d61780000000000, meaning: Meaning::FunctionName(LimitPlace::ByStyle, "max") },
    Entry { name: "mbox", key: 0x6d626f7800000000, meaning: Meaning::Words(None) },
    Entry { name: "measuredangle", key: 0x6d65617375726564, meaning: Meaning::Shows(Symbol::Sign(Class::Ordinary, '∡')) },
    Entry { name: "medspace", key: 0x6d65647370616365, meaning: Meaning::Spacing(4) },
    Entry { name: "mercury", key: 0x6d65726375727900, meaning: Meaning::Shows(Symbol::Sign(Class::Ordinary, '☿')) },
    Entry { name: "mho", key: 0x6d686f0000000000, meaning: Meaning::Shows(Symbol::Sign(Class::Ordinary, '℧')) },
    Entry { name: "micro", key: 0x6d6963726f000000, meaning: Meaning::Shows(Symbol::UprightLetter('µ')) },
    Entry { name: "mid", key: 0x6d69640000000000, meaning: Meaning::Shows(Symbol::Sign(Class::Relation, '∣')) },
    Entry { name: "middle", key: 0x6d6964646c650000, meaning: Meaning::Middle },
    Entry { name: "min", key: 0x6d696e0000000000, meaning: Meaning::FunctionName(LimitPlace::ByStyle, "min") },
    Entry { name: "minuscolon", key: 0x6d696e7573636f6c, meaning: Meaning::Shows(Symbol::Sign(Class::Relation, '∹')) },
    Entry { name: "minuso", key: 0x6d696e75736f0000, meaning: Meaning::Shows(Symbol::Sign(Class::Binary, '⦵')) },
    Entry { name: "mit", key: 0x6d69740000000000, meaning: Meaning::Changes(Change::ToAlphabet(Alphabet::Italic)) },
    Entry { name: "mkern", key: 0x6d6b65726e000000, meaning: Meaning::Skip },
    Entry { name: "models", key: 0x6d6f64656c730000, meaning: Meaning::Shows(Symbol::Sign(Class::Relation, '⊨')) },
    Entry { name: "mp", key: 0x6d70000000000000, meaning: Meaning::Shows(Symbol::Sign(Class::Binary, '∓')) },
    Entry { name: "mskip", key: 0x6d736b6970000000, meaning: Meaning::Skip },
    Entry { name: "mspace", key: 0x6d73706163650000, meaning: Meaning::SkipInBraces },
    Entry { name: "mu", key: 0x6d75000000000000, meaning: Meaning::Shows(Symbol::Letter('μ')) },
    Entry { name: "multimap", key: 0x6d756c74696d6170, meaning: Meaning::Shows(Symbol::Sign(Class::Relation, '⊸')) },
];

/// Returns the entries of the names that begin with n.
#[tactic(auto, unfolding(crate::specs::Parts::entries_in, latex2mathml_tex_grammar::specs::Commands::command_entries, latex2mathml_tex_grammar::specs::CommandsUpToL::commands_up_to_l, latex2mathml_tex_grammar::specs::CommandsFromM::commands_from_m))]
pub(crate) fn letter_n() -> &'static [Entry]
    ensures part { map entry_of result.now ≡ entries_in 14 }
    ensures keyed { IsTrue (list_all has_key result.now) }
{
    &LETTER_N
}

#[rattlefmt::skip]
static LETTER_N: [Entry; 60] = [
    Entry { name: "nLeftarrow", key: 0x6e4c656674617272, meaning: Meaning::Shows(Symbol::Sign(Class::Relation, '⇍')) },
    Entry { name: "nLeftrightarrow", key: 0x6e4c656674726967, meaning: Meaning::Shows(Symbol::Sign(Class::Relation, '⇎')) },
    Entry { name: "nRightarrow", key: 0x6e52696768746172, meaning: Meaning::Shows(Symbol::Sign(Class::Relation, '⇏')) },
    Entry { name: "nVDash", key: 0x6e56446173680000, meaning: Meaning::Shows(Symbol::Sign(Class::Relation, '⊯')) },
    Entry { name: "nVdash", key: 0x6e56646173680000, meaning: Meaning::Shows(Symbol::Sign(Class::Relation, '⊮')) },
    Entry { name: "nabla", key: 0x6e61626c61000000, meaning: Meaning::Shows(Symbol::Sign(Class::Ordinary, '∇')) },
    Entry { name: "natnums", key: 0x6e61746e756d7300, meaning: Meaning::Shows(Symbol::Letter('ℕ')) },
    Entry { name: "natural", key: 0x6e61747572616c00, meaning: Meaning::Shows(Symbol::Sign(Class::Ordinary, '♮')) },
    Entry { name: "ncong", key: 0x6e636f6e67000000, meaning: Meaning::Shows(Symbol::Sign(Class::Relation, '≇')) },
    Entry { name: "ne", key: 0x6e65000000000000, meaning: Meaning::Shows(Symbol::Sign(Class::Relation, '≠')) },
    Entry { name: "nearrow", key: 0x6e656172726f7700, meaning: Meaning::Shows(Symbol::Sign(Class::Relation, '↗')) },
    Entry { name: "neg", key: 0x6e65670000000000, meaning: Meaning::Shows(Symbol::Sign(Class::Ordinary, '¬')) },
    Entry { name: "negmedspace", key: 0x6e65676d65647370, meaning: Meaning::Spacing(-4) },
    Entry { name: "negthickspace", key: 0x6e6567746869636b, meaning: Meaning::Spacing(-5) },
    Entry { name: "negthinspace", key: 0x6e65677468696e73, meaning: Meaning::Spacing(-3) },
    Entry { name: "neptune", key: 0x6e657074756e6500, meaning: Meaning::Shows(Symbol::Sign(Class::Ordinary, '♆')) },
    Entry { name: "neq", key: 0x6e65710000000000, meaning: Meaning::Shows(Symbol::Sign(Class::Relation, '≠')) },
    Entry { name: "nequiv", key: 0x6e65717569760000, meaning: Meaning::Shows(Symbol::Sign(Class::Relation, '≢')) },
    Entry { name: "newline", key: 0x6e65776c696e6500, meaning: Meaning::LineBreak },
    Entry { name: "nexists", key: 0x6e65786973747300, meaning: Meaning::Shows(Symbol::Sign(Class::Ordinary, '∄')) },
    Entry { name: "ng", key: 0x6e67000000000000, meaning: Meaning::Shows(Symbol::UprightLetter('ŋ')) },
    Entry { name: "ngeq", key: 0x6e67657100000000, meaning: Meaning::Shows(Symbol::Sign(Class::Relation, '≱')) },
    Entry { name: "ngeqq", key: 0x6e67657171000000, meaning: Meaning::Shows(Symbol::Sign(Class::Relation, '≱')) },
    Entry { name: "ngeqslant", key: 0x6e676571736c616e, meaning: Meaning::Shows(Symbol::Sign(Class::Relation, '≱')) },
    Entry { name: "ngtr", key: 0x6e67747200000000, meaning: Meaning::Shows(Symbol::Sign(Class::Relation, '≯')) },
    Entry { name: "ni", key: 0x6e69000000000000, meaning: Meaning::Shows(Symbol::Sign(Class::Relation, '∋')) },
    Entry { name: "nleftarrow", key: 0x6e6c656674617272, meaning: Meaning::Shows(Symbol::Sign(Class::Relation, '↚')) },
    Entry { name: "nleftrightarrow", key: 0x6e6c656674726967, meaning: Meaning::Shows(Symbol::Sign(Class::Relation, '↮')) },
    Entry { name: "nleq", key: 0x6e6c657100000000, meaning: Meaning::Shows(Symbol::Sign(Class::Relation, '≰')) },
    Entry { name: "nleqq", key: 0x6e6c657171000000, meaning: Meaning::Shows(Symbol::Sign(Class::Relation, '≰')) },
    Entry { name: "nleqslant", key: 0x6e6c6571736c616e, meaning: Meaning::Shows(Symbol::Sign(Class::Relation, '≰')) },
    Entry { name: "nless", key: 0x6e6c657373000000, meaning: Meaning::Shows(Symbol::Sign(Class::Relation, '≮')) },
    Entry { name: "nmid", key: 0x6e6d696400000000, meaning: Meaning::Shows(Symbol::Sign(Class::Relation, '∤')) },
    Entry { name: "nobreakspace", key: 0x6e6f627265616b73, meaning: Meaning::Spacing(6) },
    Entry { name: "nolimits", key: 0x6e6f6c696d697473, meaning: Meaning::NoLimits },
    Entry { name: "normalsize", key: 0x6e6f726d616c7369, meaning: Meaning::Changes(Change::ToSize(TextSize::NormalSize)) },
    Entry { name: "not", key: 0x6e6f740000000000, meaning: Meaning::Negation },
    Entry { name: "notin", key: 0x6e6f74696e000000, meaning: Meaning::Shows(Symbol::Sign(Class::Relation, '∉')) },
    Entry { name: "notni", key: 0x6e6f746e69000000, meaning: Meaning::Shows(Symbol::Sign(Class::Relation, '∌')) },
    Entry { name: "nparallel", key: 0x6e706172616c6c65, meaning: Meaning::Shows(Symbol::Sign(Class::Relation, '∦')) },
    Entry { name: "nprec", key: 0x6e70726563000000, meaning: Meaning::Shows(Symbol::Sign(Class::Relation, '⊀')) },
    Entry { name: "npreceq", key: 0x6e70726563657100, meaning: Meaning::Shows(Symbol::Sign(Class::Relation, '⋠')) },
    Entry { name: "nrightarrow", key: 0x6e72696768746172, meaning: Meaning::Shows(Symbol::Sign(Class::Relation, '↛')) },
    Entry { name: "nshortmid", key: 0x6e73686f72746d69, meaning: Meaning::Shows(Symbol::Sign(Class::Relation, '∤')) },
    Entry { name: "nshortparallel", key: 0x6e73686f72747061, meaning: Meaning::Shows(Symbol::Sign(Class::Relation, '∦')) },
    Entry { name: "nsim", key: 0x6e73696d00000000, meaning: Meaning::Shows(Symbol::Sign(Class::Relation, '≁')) },
    Entry { name: "nsubseteq", key: 0x6e73756273657465, meaning: Meaning::Shows(Symbol::Sign(Class::Relation, '⊈')) },
    Entry { name: "nsubseteqq", key: 0x6e73756273657465, meaning: Meaning::Shows(Symbol::Sign(Class::Relation, '⊈')) },
    Entry { name: "nsucc", key: 0x6e73756363000000, meaning: Meaning::Shows(Symbol::Sign(Class::Relation, '⊁')) },
    Entry { name: "nsucceq", key: 0x6e73756363657100, meaning: Meaning::Shows(Symbol::Sign(Class::Relation, '⋡')) },
    Entry { name: "nsupseteq", key: 0x6e73757073657465, meaning: Meaning::Shows(Symbol::Sign(Class::Relation, '⊉')) },
    Entry { name: "nsupseteqq", key: 0x6e73757073657465, meaning: Meaning::Shows(Symbol::Sign(Class::Relation, '⊉')) },
    Entry { name: "ntriangleleft", key: 0x6e747269616e676c, meaning: Meaning::Shows(Symbol::Sign(Class::Relation, '⋪')) },
    Entry { name: "ntrianglelefteq", key: 0x6e747269616e676c, meaning: Meaning::Shows(Symbol::Sign(Class::Relation, '⋬')) },
    Entry { name: "ntriangleright", key: 0x6e747269616e676c, meaning: Meaning::Shows(Symbol::Sign(Class::Relation, '⋫')) },
    Entry { name: "ntrianglerighteq", key: 0x6e747269616e676c, meaning: Meaning::Shows(Symbol::Sign(Class::Relation, '⋭')) },
    Entry { name: "nu", key: 0x6e75000000000000, meaning: Meaning::Shows(Symbol::Letter('ν')) },
    Entry { name: "nvDash", key: 0x6e76446173680000, meaning: Meaning::Shows(Symbol::Sign(Class::Relation, '⊭')) },
    Entry { name: "nvdash", key: 0x6e76646173680000, meaning: Meaning::Shows(Symbol::Sign(Class::Relation, '⊬')) },
    Entry { name: "nwarrow", key: 0x6e776172726f7700, meaning: Meaning::Shows(Symbol::Sign(Class::Relation, '↖')) },
];

/// Returns the entries of the names that begin with o.
#[tactic(auto, unfolding(crate::specs::Parts::entries_in, latex2mathml_tex_grammar::specs::Commands::command_entries, latex2mathml_tex_grammar::specs::CommandsUpToL::commands_up_to_l, latex2mathml_tex_grammar::specs::CommandsFromM::commands_from_m))]
pub(crate) fn letter_o() -> &'static [Entry]
    ensures part { map entry_of result.now ≡ entries_in 15 }
    ensures keyed { IsTrue (list_all has_key result.now) }
{
    &LETTER_O
}

#[rattlefmt::skip]
static LETTER_O: [Entry; 30] = [
    Entry { name: "o", key: 0x6f00000000000000, meaning: Meaning::Shows(Symbol::UprightLetter('ø')) },
    Entry { name: "odot", key: 0x6f646f7400000000, meaning: Meaning::Shows(Symbol::Sign(Class::Binary, '⊙')) },
    Entry { name: "oe", key: 0x6f65000000000000, meaning: Meaning::Shows(Symbol::UprightLetter('œ')) },
    Entry { name: "ohm", key: 0x6f686d0000000000, meaning: Meaning::Shows(Symbol::UprightLetter('Ω')) },
    Entry { name: "oiiint", key: 0x6f6969696e740000, meaning: Meaning::Shows(Symbol::Integral('∰')) },
    Entry { name: "oiint", key: 0x6f69696e74000000, meaning: Meaning::Shows(Symbol::Integral('∯')) },
    Entry { name: "oint", key: 0x6f696e7400000000, meaning: Meaning::Shows(Symbol::Integral('∮')) },
    Entry { name: "ointctrclockwise", key: 0x6f696e7463747263, meaning: Meaning::Shows(Symbol::Integral('∳')) },
    Entry { name: "omega", key: 0x6f6d656761000000, meaning: Meaning::Shows(Symbol::Letter('ω')) },
    Entry { name: "omicron", key: 0x6f6d6963726f6e00, meaning: Meaning::Shows(Symbol::Letter('ο')) },
    Entry { name: "ominus", key: 0x6f6d696e75730000, meaning: Meaning::Shows(Symbol::Sign(Class::Binary, '⊖')) },
    Entry { name: "operatorname", key: 0x6f70657261746f72, meaning: Meaning::OperatorName },
    Entry { name: "oplus", key: 0x6f706c7573000000, meaning: Meaning::Shows(Symbol::Sign(Class::Binary, '⊕')) },
    Entry { name: "ordinarycolon", key: 0x6f7264696e617279, meaning: Meaning::Shows(Symbol::Sign(Class::Relation, ':')) },
    Entry { name: "origof", key: 0x6f7269676f660000, meaning: Meaning::Shows(Symbol::Sign(Class::Relation, '⊶')) },
    Entry { name: "oslash", key: 0x6f736c6173680000, meaning: Meaning::Shows(Symbol::Sign(Class::Binary, '⊘')) },
    Entry { name: "otimes", key: 0x6f74696d65730000, meaning: Meaning::Shows(Symbol::Sign(Class::Binary, '⊗')) },
    Entry { name: "over", key: 0x6f76657200000000, meaning: Meaning::Changes(Change::Divides(FractionRule::Bar)) },
    Entry { name: "overbrace", key: 0x6f76657262726163, meaning: Meaning::Brace(Side::Above, '⏞') },
    Entry { name: "overbracket", key: 0x6f76657262726163, meaning: Meaning::Brace(Side::Above, '⎴') },
    Entry { name: "overgroup", key: 0x6f76657267726f75, meaning: Meaning::Accent(Side::Above, '⏠', Stretch::Stretching) },
    Entry { name: "overleftarrow", key: 0x6f7665726c656674, meaning: Meaning::Accent(Side::Above, '←', Stretch::Stretching) },
    Entry { name: "overleftharpoon", key: 0x6f7665726c656674, meaning: Meaning::Accent(Side::Above, '↼', Stretch::Stretching) },
    Entry { name: "overleftrightarrow", key: 0x6f7665726c656674, meaning: Meaning::Accent(Side::Above, '↔', Stretch::Stretching) },
    Entry { name: "overline", key: 0x6f7665726c696e65, meaning: Meaning::Accent(Side::Above, '\u{0332}', Stretch::Stretching) },
    Entry { name: "overparen", key: 0x6f76657270617265, meaning: Meaning::Brace(Side::Above, '⏜') },
    Entry { name: "overrightarrow", key: 0x6f76657272696768, meaning: Meaning::Accent(Side::Above, '→', Stretch::Stretching) },
    Entry { name: "overrightharpoon", key: 0x6f76657272696768, meaning: Meaning::Accent(Side::Above, '⇀', Stretch::Stretching) },
    Entry { name: "overset", key: 0x6f76657273657400, meaning: Meaning::Stack(Side::Above) },
    Entry { name: "owns", key: 0x6f776e7300000000, meaning: Meaning::Shows(Symbol::Sign(Class::Relation, '∋')) },
];

/// Returns the entries of the names that begin with p.
#[tactic(auto, unfolding(crate::specs::Parts::entries_in, latex2mathml_tex_grammar::specs::Commands::command_entries, latex2mathml_tex_grammar::specs::CommandsUpToL::commands_up_to_l, latex2mathml_tex_grammar::specs::CommandsFromM::commands_from_m))]
pub(crate) fn letter_p() -> &'static [Entry]
    ensures part { map entry_of result.now ≡ entries_in 16 }
    ensures keyed { IsTrue (list_all has_key result.now) }
{
    &LETTER_P
}

#[rattlefmt::skip]
static LETTER_P: [Entry; 26] = [
    Entry { name: "parallel", key: 0x706172616c6c656c, meaning: Meaning::Shows(Symbol::Sign(Class::Relation, '∥')) },
    Entry { name: "partial", key: 0x7061727469616c00, meaning: Meaning::Shows(Symbol::Sign(Class::Ordinary, '∂')) },
    Entry { name: "perp", key: 0x7065727000000000, meaning: Meaning::Shows(Symbol::Sign(Class::Relation, '⊥')) },
    Entry { name: "perthousand", key: 0x70657274686f7573, meaning: Meaning::Shows(Symbol::Sign(Class::Ordinary, '‰')) },
    Entry { name: "phantom", key: 0x7068616e746f6d00, meaning: Meaning::Boxed(OperandBox::Phantom) },
    Entry { name: "phi", key: 0x7068690000000000, meaning: Meaning::Shows(Symbol::Letter('ϕ')) },
    Entry { name: "pi", key: 0x7069000000000000, meaning: Meaning::Shows(Symbol::Letter('π')) },
    Entry { name: "pitchfork", key: 0x7069746368666f72, meaning: Meaning::Shows(Symbol::Sign(Class::Relation, '⋔')) },
    Entry { name: "plim", key: 0x706c696d00000000, meaning: Meaning::FunctionName(LimitPlace::Stacked, "plim") },
    Entry { name: "plusmn", key: 0x706c75736d6e0000, meaning: Meaning::Shows(Symbol::Sign(Class::Binary, '±')) },
    Entry { name: "pm", key: 0x706d000000000000, meaning: Meaning::Shows(Symbol::Sign(Class::Binary, '±')) },
    Entry { name: "pmb", key: 0x706d620000000000, meaning: Meaning::Styled(Alphabet::BoldItalic) },
    Entry { name: "pounds", key: 0x706f756e64730000, meaning: Meaning::Shows(Symbol::Sign(Class::Ordinary, '£')) },
    Entry { name: "prec", key: 0x7072656300000000, meaning: Meaning::Shows(Symbol::Sign(Class::Relation, '≺')) },
    Entry { name: "precapprox", key: 0x7072656361707072, meaning: Meaning::Shows(Symbol::Sign(Class::Relation, '⪷')) },
    Entry { name: "preccurlyeq", key: 0x707265636375726c, meaning: Meaning::Shows(Symbol::Sign(Class::Relation, '≼')) },
    Entry { name: "preceq", key: 0x7072656365710000, meaning: Meaning::Shows(Symbol::Sign(Class::Relation, '⪯')) },
    Entry { name: "precnapprox", key: 0x707265636e617070, meaning: Meaning::Shows(Symbol::Sign(Class::Relation, '⪹')) },
    Entry { name: "precneqq", key: 0x707265636e657171, meaning: Meaning::Shows(Symbol::Sign(Class::Relation, '⪵')) },
    Entry { name: "precnsim", key: 0x707265636e73696d, meaning: Meaning::Shows(Symbol::Sign(Class::Relation, '⋨')) },
    Entry { name: "precsim", key: 0x7072656373696d00, meaning: Meaning::Shows(Symbol::Sign(Class::Relation, '≾')) },
    Entry { name: "prime", key: 0x7072696d65000000, meaning: Meaning::Shows(Symbol::Sign(Class::Ordinary, '′')) },
    Entry { name: "prod", key: 0x70726f6400000000, meaning: Meaning::Shows(Symbol::BigOperator('∏')) },
    Entry { name: "projlim", key: 0x70726f6a6c696d00, meaning: Meaning::FunctionName(LimitPlace::ByStyle, "proj\u{2009}lim") },
    Entry { name: "propto", key: 0x70726f70746f0000, meaning: Meaning::Shows(Symbol::Sign(Class::Relation, '∝')) },
    Entry { name: "psi", key: 0x7073690000000000, meaning: Meaning::Shows(Symbol::Letter('ψ')) },
];

/// Returns the entries of the names that begin with q.
#[tactic(auto, unfolding(crate::specs::Parts::entries_in, latex2mathml_tex_grammar::specs::Commands::command_entries, latex2mathml_tex_grammar::specs::CommandsUpToL::commands_up_to_l, latex2mathml_tex_grammar::specs::CommandsFromM::commands_from_m))]
pub(crate) fn letter_q() -> &'static [Entry]
    ensures part { map entry_of result.now ≡ entries_in 17 }
    ensures keyed { IsTrue (list_all has_key result.now) }
{
    &LETTER_Q
}

#[rattlefmt::skip]
static LETTER_Q: [Entry; 2] = [
    Entry { name: "qquad", key: 0x7171756164000000, meaning: Meaning::Spacing(36) },
    Entry { name: "quad", key: 0x7175616400000000, meaning: Meaning::Spacing(18) },
];
