//! The commands that begin with a and b.
ghost use Rattle.std.specs.Prelude.{◌≡◌, IsTrue, map};
ghost use Rattle.std.specs.List.{list_all};
ghost use Rattle.latex2mathml_tex_commands.specs.{Keys.has_key, Meanings.entry_of, Parts.entries_in};

use crate::meaning::{
    Alphabet, Change, Class, Entry, FractionRule, LimitPlace, Meaning, OperandBox, Symbol,
};
use latex2mathml_attributes::attributes::{Side, Size, Stretch};

/// Returns the entries of the names that begin with a.
#[tactic(auto, unfolding(crate::specs::Parts::entries_in, latex2mathml_tex_grammar::specs::Commands::command_entries, latex2mathml_tex_grammar::specs::CommandsUpToL::commands_up_to_l, latex2mathml_tex_grammar::specs::CommandsFromM::commands_from_m))]
pub(crate) fn letter_a() -> &'static [Entry]
    ensures part { map entry_of result.now ≡ entries_in 1 }
    ensures keyed { IsTrue (list_all has_key result.now) }
{
    &LETTER_A
}

#[rattlefmt::skip]
static LETTER_A: [Entry; 26] = [
    Entry { name: "a", key: 0x6100000000000000, meaning: Meaning::Shows(Symbol::UprightLetter('å')) },
    Entry { name: "aa", key: 0x6161000000000000, meaning: Meaning::Shows(Symbol::UprightLetter('å')) },
    Entry { name: "acute", key: 0x6163757465000000, meaning: Meaning::Accent(Side::Above, '´', Stretch::Rigid) },
    Entry { name: "adots", key: 0x61646f7473000000, meaning: Meaning::Shows(Symbol::Sign(Class::Inner, '⋰')) },
    Entry { name: "ae", key: 0x6165000000000000, meaning: Meaning::Shows(Symbol::UprightLetter('æ')) },
    Entry { name: "alef", key: 0x616c656600000000, meaning: Meaning::Shows(Symbol::UprightLetter('ℵ')) },
    Entry { name: "alefsym", key: 0x616c656673796d00, meaning: Meaning::Shows(Symbol::UprightLetter('ℵ')) },
    Entry { name: "aleph", key: 0x616c657068000000, meaning: Meaning::Shows(Symbol::UprightLetter('ℵ')) },
    Entry { name: "alpha", key: 0x616c706861000000, meaning: Meaning::Shows(Symbol::Letter('α')) },
    Entry { name: "amalg", key: 0x616d616c67000000, meaning: Meaning::Shows(Symbol::Sign(Class::Binary, '⨿')) },
    Entry { name: "angle", key: 0x616e676c65000000, meaning: Meaning::Shows(Symbol::Sign(Class::Ordinary, '∠')) },
    Entry { name: "approx", key: 0x617070726f780000, meaning: Meaning::Shows(Symbol::Sign(Class::Relation, '≈')) },
    Entry { name: "approxeq", key: 0x617070726f786571, meaning: Meaning::Shows(Symbol::Sign(Class::Relation, '≊')) },
    Entry { name: "arccos", key: 0x617263636f730000, meaning: Meaning::FunctionName(LimitPlace::Beside, "arccos") },
    Entry { name: "arcctg", key: 0x6172636374670000, meaning: Meaning::FunctionName(LimitPlace::Beside, "arcctg") },
    Entry { name: "arcsin", key: 0x61726373696e0000, meaning: Meaning::FunctionName(LimitPlace::Beside, "arcsin") },
    Entry { name: "arctan", key: 0x61726374616e0000, meaning: Meaning::FunctionName(LimitPlace::Beside, "arctan") },
    Entry { name: "arctg", key: 0x6172637467000000, meaning: Meaning::FunctionName(LimitPlace::Beside, "arctg") },
    Entry { name: "arg", key: 0x6172670000000000, meaning: Meaning::FunctionName(LimitPlace::Beside, "arg") },
    Entry { name: "argmax", key: 0x6172676d61780000, meaning: Meaning::FunctionName(LimitPlace::ByStyle, "arg\u{2009}max") },
    Entry { name: "argmin", key: 0x6172676d696e0000, meaning: Meaning::FunctionName(LimitPlace::ByStyle, "arg\u{2009}min") },
    Entry { name: "ascnode", key: 0x6173636e6f646500, meaning: Meaning::Shows(Symbol::Sign(Class::Ordinary, '☊')) },
    Entry { name: "ast", key: 0x6173740000000000, meaning: Meaning::Shows(Symbol::Sign(Class::Binary, '∗')) },
    Entry { name: "astrosun", key: 0x617374726f73756e, meaning: Meaning::Shows(Symbol::Sign(Class::Ordinary, '☉')) },
    Entry { name: "asymp", key: 0x6173796d70000000, meaning: Meaning::Shows(Symbol::Sign(Class::Relation, '≍')) },
    Entry { name: "atop", key: 0x61746f7000000000, meaning: Meaning::Changes(Change::Divides(FractionRule::Bare)) },
];

/// Returns the entries of the names that begin with b.
#[tactic(auto, unfolding(crate::specs::Parts::entries_in, latex2mathml_tex_grammar::specs::Commands::command_entries, latex2mathml_tex_grammar::specs::CommandsUpToL::commands_up_to_l, latex2mathml_tex_grammar::specs::CommandsFromM::commands_from_m))]
pub(crate) fn letter_b() -> &'static [Entry]
    ensures part { map entry_of result.now ≡ entries_in 2 }
    ensures keyed { IsTrue (list_all has_key result.now) }
{
    &LETTER_B
}

#[rattlefmt::skip]
static LETTER_B: [Entry; 66] = [
    Entry { name: "backepsilon", key: 0x6261636b65707369, meaning: Meaning::Shows(Symbol::Sign(Class::Relation, '∍')) },
    Entry { name: "backprime", key: 0x6261636b7072696d, meaning: Meaning::Shows(Symbol::Sign(Class::Ordinary, '‵')) },
    Entry { name: "backsim", key: 0x6261636b73696d00, meaning: Meaning::Shows(Symbol::Sign(Class::Relation, '∽')) },
    Entry { name: "backsimeq", key: 0x6261636b73696d65, meaning: Meaning::Shows(Symbol::Sign(Class::Relation, '⋍')) },
    Entry { name: "backslash", key: 0x6261636b736c6173, meaning: Meaning::Shows(Symbol::Sign(Class::Ordinary, '\\')) },
    Entry { name: "bar", key: 0x6261720000000000, meaning: Meaning::Accent(Side::Above, '¯', Stretch::Rigid) },
    Entry { name: "barwedge", key: 0x6261727765646765, meaning: Meaning::Shows(Symbol::Sign(Class::Binary, '⊼')) },
    Entry { name: "bcancel", key: 0x6263616e63656c00, meaning: Meaning::Boxed(OperandBox::StrikeDown) },
    Entry { name: "because", key: 0x6265636175736500, meaning: Meaning::Shows(Symbol::Sign(Class::Relation, '∵')) },
    Entry { name: "begin", key: 0x626567696e000000, meaning: Meaning::BeginTable },
    Entry { name: "beta", key: 0x6265746100000000, meaning: Meaning::Shows(Symbol::Letter('β')) },
    Entry { name: "beth", key: 0x6265746800000000, meaning: Meaning::Shows(Symbol::UprightLetter('ℶ')) },
    Entry { name: "between", key: 0x6265747765656e00, meaning: Meaning::Shows(Symbol::Sign(Class::Relation, '≬')) },
    Entry { name: "bf", key: 0x6266000000000000, meaning: Meaning::Changes(Change::ToAlphabet(Alphabet::Bold)) },
    Entry { name: "big", key: 0x6269670000000000, meaning: Meaning::Sized(Size::Big, Class::Ordinary) },
    Entry { name: "bigcap", key: 0x6269676361700000, meaning: Meaning::Shows(Symbol::BigOperator('⋂')) },
    Entry { name: "bigcirc", key: 0x6269676369726300, meaning: Meaning::Shows(Symbol::Sign(Class::Binary, '◯')) },
    Entry { name: "bigcup", key: 0x6269676375700000, meaning: Meaning::Shows(Symbol::BigOperator('⋃')) },
    Entry { name: "bigcupdot", key: 0x626967637570646f, meaning: Meaning::Shows(Symbol::BigOperator('⨃')) },
    Entry { name: "bigg", key: 0x6269676700000000, meaning: Meaning::Sized(Size::VeryBig, Class::Ordinary) },
    Entry { name: "biggl", key: 0x626967676c000000, meaning: Meaning::Sized(Size::VeryBig, Class::Opening) },
    Entry { name: "biggm", key: 0x626967676d000000, meaning: Meaning::Sized(Size::VeryBig, Class::Relation) },
    Entry { name: "biggr", key: 0x6269676772000000, meaning: Meaning::Sized(Size::VeryBig, Class::Closing) },
    Entry { name: "bigl", key: 0x6269676c00000000, meaning: Meaning::Sized(Size::Big, Class::Opening) },
    Entry { name: "bigm", key: 0x6269676d00000000, meaning: Meaning::Sized(Size::Big, Class::Relation) },
    Entry { name: "bigodot", key: 0x6269676f646f7400, meaning: Meaning::Shows(Symbol::BigOperator('⨀')) },
    Entry { name: "bigoplus", key: 0x6269676f706c7573, meaning: Meaning::Shows(Symbol::BigOperator('⨁')) },
    Entry { name: "bigotimes", key: 0x6269676f74696d65, meaning: Meaning::Shows(Symbol::BigOperator('⨂')) },
    Entry { name: "bigr", key: 0x6269677200000000, meaning: Meaning::Sized(Size::Big, Class::Closing) },
    Entry { name: "bigsqcap", key: 0x6269677371636170, meaning: Meaning::Shows(Symbol::BigOperator('⨅')) },
    Entry { name: "bigsqcup", key: 0x6269677371637570, meaning: Meaning::Shows(Symbol::BigOperator('⨆')) },
    Entry { name: "bigstar", key: 0x6269677374617200, meaning: Meaning::Shows(Symbol::Sign(Class::Ordinary, '★')) },
    Entry { name: "bigtimes", key: 0x62696774696d6573, meaning: Meaning::Shows(Symbol::BigOperator('⨉')) },
    Entry { name: "bigtriangledown", key: 0x626967747269616e, meaning: Meaning::Shows(Symbol::Sign(Class::Binary, '▽')) },
    Entry { name: "bigtriangleup", key: 0x626967747269616e, meaning: Meaning::Shows(Symbol::Sign(Class::Binary, '△')) },
    Entry { name: "biguplus", key: 0x62696775706c7573, meaning: Meaning::Shows(Symbol::BigOperator('⨄')) },
    Entry { name: "bigvee", key: 0x6269677665650000, meaning: Meaning::Shows(Symbol::BigOperator('⋁')) },
    Entry { name: "bigwedge", key: 0x6269677765646765, meaning: Meaning::Shows(Symbol::BigOperator('⋀')) },
    Entry { name: "binom", key: 0x62696e6f6d000000, meaning: Meaning::Fraction(FractionRule::NoBar, None) },
    Entry { name: "bitotimes", key: 0x6269746f74696d65, meaning: Meaning::Shows(Symbol::BigOperator('⨂')) },
    Entry { name: "blacklozenge", key: 0x626c61636b6c6f7a, meaning: Meaning::Shows(Symbol::Sign(Class::Ordinary, '⧫')) },
    Entry { name: "blacksquare", key: 0x626c61636b737175, meaning: Meaning::Shows(Symbol::Sign(Class::Ordinary, '■')) },
    Entry { name: "blacktriangle", key: 0x626c61636b747269, meaning: Meaning::Shows(Symbol::Sign(Class::Ordinary, '▲')) },
    Entry { name: "blacktriangledown", key: 0x626c61636b747269, meaning: Meaning::Shows(Symbol::Sign(Class::Ordinary, '▼')) },
    Entry { name: "blacktriangleleft", key: 0x626c61636b747269, meaning: Meaning::Shows(Symbol::Sign(Class::Relation, '◀')) },
    Entry { name: "blacktriangleright", key: 0x626c61636b747269, meaning: Meaning::Shows(Symbol::Sign(Class::Relation, '▶')) },
    Entry { name: "bm", key: 0x626d000000000000, meaning: Meaning::Styled(Alphabet::BoldItalic) },
    Entry { name: "bold", key: 0x626f6c6400000000, meaning: Meaning::Styled(Alphabet::Bold) },
    Entry { name: "boldmath", key: 0x626f6c646d617468, meaning: Meaning::Changes(Change::ToAlphabet(Alphabet::BoldItalic)) },
    Entry { name: "boldsymbol", key: 0x626f6c6473796d62, meaning: Meaning::Styled(Alphabet::BoldItalic) },
    Entry { name: "bot", key: 0x626f740000000000, meaning: Meaning::Shows(Symbol::Sign(Class::Ordinary, '⊥')) },
    Entry { name: "bowtie", key: 0x626f777469650000, meaning: Meaning::Shows(Symbol::Sign(Class::Relation, '⋈')) },
    Entry { name: "boxbox", key: 0x626f78626f780000, meaning: Meaning::Shows(Symbol::Sign(Class::Relation, '⧈')) },
    Entry { name: "boxbslash", key: 0x626f7862736c6173, meaning: Meaning::Shows(Symbol::Sign(Class::Relation, '⧅')) },
    Entry { name: "boxdot", key: 0x626f78646f740000, meaning: Meaning::Shows(Symbol::Sign(Class::Binary, '⊡')) },
    Entry { name: "boxed", key: 0x626f786564000000, meaning: Meaning::Boxed(OperandBox::Frame) },
    Entry { name: "boxminus", key: 0x626f786d696e7573, meaning: Meaning::Shows(Symbol::Sign(Class::Binary, '⊟')) },
    Entry { name: "boxplus", key: 0x626f78706c757300, meaning: Meaning::Shows(Symbol::Sign(Class::Binary, '⊞')) },
    Entry { name: "boxslash", key: 0x626f78736c617368, meaning: Meaning::Shows(Symbol::Sign(Class::Relation, '⧄')) },
    Entry { name: "boxtimes", key: 0x626f7874696d6573, meaning: Meaning::Shows(Symbol::Sign(Class::Binary, '⊠')) },
    Entry { name: "brace", key: 0x6272616365000000, meaning: Meaning::Changes(Change::Divides(FractionRule::Braced)) },
    Entry { name: "brack", key: 0x627261636b000000, meaning: Meaning::Changes(Change::Divides(FractionRule::Bracketed)) },
    Entry { name: "breve", key: 0x6272657665000000, meaning: Meaning::Accent(Side::Above, '˘', Stretch::Rigid) },
    Entry { name: "bull", key: 0x62756c6c00000000, meaning: Meaning::Shows(Symbol::Sign(Class::Binary, '∙')) },
    Entry { name: "bullet", key: 0x62756c6c65740000, meaning: Meaning::Shows(Symbol::Sign(Class::Binary, '∙')) },
    Entry { name: "bumpeq", key: 0x62756d7065710000, meaning: Meaning::Shows(Symbol::Sign(Class::Relation, '≏')) },
];
