//! The commands that begin with the letters from c to e.
ghost use Rattle.std.specs.Prelude.{◌≡◌, IsTrue, map};
ghost use Rattle.std.specs.List.{list_all};
ghost use Rattle.latex2mathml_tex_commands.specs.{Keys.has_key, Meanings.entry_of, Parts.entries_in};

use crate::meaning::{
    Alphabet, Change, Class, Entry, FractionRule, LimitPlace, Meaning, OperandBox, Style, Symbol,
};
use latex2mathml_attributes::attributes::{Side, Stretch};

/// Returns the entries of the names that begin with c.
#[tactic(auto, unfolding(crate::specs::Parts::entries_in, latex2mathml_tex_grammar::specs::Commands::command_entries, latex2mathml_tex_grammar::specs::CommandsUpToL::commands_up_to_l, latex2mathml_tex_grammar::specs::CommandsFromM::commands_from_m))]
pub(crate) fn letter_c() -> &'static [Entry]
    ensures part { map entry_of result.now ≡ entries_in 3 }
    ensures keyed { IsTrue (list_all has_key result.now) }
{
    &LETTER_C
}

#[rattlefmt::skip]
static LETTER_C: [Entry; 51] = [
    Entry { name: "cal", key: 0x63616c0000000000, meaning: Meaning::Changes(Change::ToAlphabet(Alphabet::Calligraphic)) },
    Entry { name: "cancel", key: 0x63616e63656c0000, meaning: Meaning::Boxed(OperandBox::StrikeUp) },
    Entry { name: "cap", key: 0x6361700000000000, meaning: Meaning::Shows(Symbol::Sign(Class::Binary, '∩')) },
    Entry { name: "cdot", key: 0x63646f7400000000, meaning: Meaning::Shows(Symbol::Sign(Class::Binary, '⋅')) },
    Entry { name: "cdotp", key: 0x63646f7470000000, meaning: Meaning::Shows(Symbol::Sign(Class::Punctuation, '⋅')) },
    Entry { name: "cdots", key: 0x63646f7473000000, meaning: Meaning::CenteredDots },
    Entry { name: "centerdot", key: 0x63656e746572646f, meaning: Meaning::Shows(Symbol::Sign(Class::Binary, '⋅')) },
    Entry { name: "cfrac", key: 0x6366726163000000, meaning: Meaning::ContinuedFraction },
    Entry { name: "ch", key: 0x6368000000000000, meaning: Meaning::FunctionName(LimitPlace::Beside, "ch") },
    Entry { name: "check", key: 0x636865636b000000, meaning: Meaning::Accent(Side::Above, 'ˇ', Stretch::Rigid) },
    Entry { name: "checkmark", key: 0x636865636b6d6172, meaning: Meaning::Shows(Symbol::Sign(Class::Ordinary, '✓')) },
    Entry { name: "chi", key: 0x6368690000000000, meaning: Meaning::Shows(Symbol::Letter('χ')) },
    Entry { name: "choose", key: 0x63686f6f73650000, meaning: Meaning::Changes(Change::Divides(FractionRule::NoBar)) },
    Entry { name: "circ", key: 0x6369726300000000, meaning: Meaning::Shows(Symbol::Sign(Class::Binary, '∘')) },
    Entry { name: "circeq", key: 0x6369726365710000, meaning: Meaning::Shows(Symbol::Sign(Class::Relation, '≗')) },
    Entry { name: "circlearrowleft", key: 0x636972636c656172, meaning: Meaning::Shows(Symbol::Sign(Class::Relation, '↺')) },
    Entry { name: "circlearrowright", key: 0x636972636c656172, meaning: Meaning::Shows(Symbol::Sign(Class::Relation, '↻')) },
    Entry { name: "circledR", key: 0x636972636c656452, meaning: Meaning::Shows(Symbol::Sign(Class::Ordinary, '®')) },
    Entry { name: "circledS", key: 0x636972636c656453, meaning: Meaning::Shows(Symbol::Sign(Class::Ordinary, 'Ⓢ')) },
    Entry { name: "circledast", key: 0x636972636c656461, meaning: Meaning::Shows(Symbol::Sign(Class::Binary, '⊛')) },
    Entry { name: "circledcirc", key: 0x636972636c656463, meaning: Meaning::Shows(Symbol::Sign(Class::Binary, '⊚')) },
    Entry { name: "circleddash", key: 0x636972636c656464, meaning: Meaning::Shows(Symbol::Sign(Class::Binary, '⊝')) },
    Entry { name: "clubs", key: 0x636c756273000000, meaning: Meaning::Shows(Symbol::Sign(Class::Ordinary, '♣')) },
    Entry { name: "clubsuit", key: 0x636c756273756974, meaning: Meaning::Shows(Symbol::Sign(Class::Ordinary, '♣')) },
    Entry { name: "cnums", key: 0x636e756d73000000, meaning: Meaning::Shows(Symbol::Letter('ℂ')) },
    Entry { name: "coloncolon", key: 0x636f6c6f6e636f6c, meaning: Meaning::Shows(Symbol::Sign(Class::Relation, '∷')) },
    Entry { name: "colonequals", key: 0x636f6c6f6e657175, meaning: Meaning::Shows(Symbol::Sign(Class::Relation, '≔')) },
    Entry { name: "color", key: 0x636f6c6f72000000, meaning: Meaning::Changes(Change::ToColor) },
    Entry { name: "complement", key: 0x636f6d706c656d65, meaning: Meaning::Shows(Symbol::Sign(Class::Ordinary, '∁')) },
    Entry { name: "cong", key: 0x636f6e6700000000, meaning: Meaning::Shows(Symbol::Sign(Class::Relation, '≅')) },
    Entry { name: "coprod", key: 0x636f70726f640000, meaning: Meaning::Shows(Symbol::BigOperator('∐')) },
    Entry { name: "copyright", key: 0x636f707972696768, meaning: Meaning::Shows(Symbol::Sign(Class::Ordinary, '©')) },
    Entry { name: "cos", key: 0x636f730000000000, meaning: Meaning::FunctionName(LimitPlace::Beside, "cos") },
    Entry { name: "cosec", key: 0x636f736563000000, meaning: Meaning::FunctionName(LimitPlace::Beside, "cosec") },
    Entry { name: "cosh", key: 0x636f736800000000, meaning: Meaning::FunctionName(LimitPlace::Beside, "cosh") },
    Entry { name: "cot", key: 0x636f740000000000, meaning: Meaning::FunctionName(LimitPlace::Beside, "cot") },
    Entry { name: "cotg", key: 0x636f746700000000, meaning: Meaning::FunctionName(LimitPlace::Beside, "cotg") },
    Entry { name: "coth", key: 0x636f746800000000, meaning: Meaning::FunctionName(LimitPlace::Beside, "coth") },
    Entry { name: "cr", key: 0x6372000000000000, meaning: Meaning::LineBreak },
    Entry { name: "csc", key: 0x6373630000000000, meaning: Meaning::FunctionName(LimitPlace::Beside, "csc") },
    Entry { name: "csch", key: 0x6373636800000000, meaning: Meaning::FunctionName(LimitPlace::Beside, "csch") },
    Entry { name: "ctg", key: 0x6374670000000000, meaning: Meaning::FunctionName(LimitPlace::Beside, "ctg") },
    Entry { name: "cth", key: 0x6374680000000000, meaning: Meaning::FunctionName(LimitPlace::Beside, "cth") },
    Entry { name: "cup", key: 0x6375700000000000, meaning: Meaning::Shows(Symbol::Sign(Class::Binary, '∪')) },
    Entry { name: "cupdot", key: 0x637570646f740000, meaning: Meaning::Shows(Symbol::Sign(Class::Binary, '⊍')) },
    Entry { name: "curlyeqprec", key: 0x6375726c79657170, meaning: Meaning::Shows(Symbol::Sign(Class::Relation, '⋞')) },
    Entry { name: "curlyeqsucc", key: 0x6375726c79657173, meaning: Meaning::Shows(Symbol::Sign(Class::Relation, '⋟')) },
    Entry { name: "curlyvee", key: 0x6375726c79766565, meaning: Meaning::Shows(Symbol::Sign(Class::Binary, '⋎')) },
    Entry { name: "curlywedge", key: 0x6375726c79776564, meaning: Meaning::Shows(Symbol::Sign(Class::Binary, '⋏')) },
    Entry { name: "curvearrowleft", key: 0x6375727665617272, meaning: Meaning::Shows(Symbol::Sign(Class::Relation, '↶')) },
    Entry { name: "curvearrowright", key: 0x6375727665617272, meaning: Meaning::Shows(Symbol::Sign(Class::Relation, '↷')) },
];

/// Returns the entries of the names that begin with d.
#[tactic(auto, unfolding(crate::specs::Parts::entries_in, latex2mathml_tex_grammar::specs::Commands::command_entries, latex2mathml_tex_grammar::specs::CommandsUpToL::commands_up_to_l, latex2mathml_tex_grammar::specs::CommandsFromM::commands_from_m))]
pub(crate) fn letter_d() -> &'static [Entry]
    ensures part { map entry_of result.now ≡ entries_in 4 }
    ensures keyed { IsTrue (list_all has_key result.now) }
{
    &LETTER_D
}

#[rattlefmt::skip]
static LETTER_D: [Entry; 47] = [
    Entry { name: "dArr", key: 0x6441727200000000, meaning: Meaning::Shows(Symbol::Sign(Class::Relation, '⇓')) },
    Entry { name: "dag", key: 0x6461670000000000, meaning: Meaning::Shows(Symbol::Sign(Class::Ordinary, '†')) },
    Entry { name: "dagger", key: 0x6461676765720000, meaning: Meaning::Shows(Symbol::Sign(Class::Binary, '†')) },
    Entry { name: "daleth", key: 0x64616c6574680000, meaning: Meaning::Shows(Symbol::UprightLetter('ℸ')) },
    Entry { name: "darr", key: 0x6461727200000000, meaning: Meaning::Shows(Symbol::Sign(Class::Relation, '↓')) },
    Entry { name: "dashint", key: 0x64617368696e7400, meaning: Meaning::Shows(Symbol::Integral('⨍')) },
    Entry { name: "dashleftarrow", key: 0x646173686c656674, meaning: Meaning::Shows(Symbol::Sign(Class::Relation, '⇠')) },
    Entry { name: "dashrightarrow", key: 0x6461736872696768, meaning: Meaning::Shows(Symbol::Sign(Class::Relation, '⇢')) },
    Entry { name: "dashv", key: 0x6461736876000000, meaning: Meaning::Shows(Symbol::Sign(Class::Relation, '⊣')) },
    Entry { name: "dbinom", key: 0x6462696e6f6d0000, meaning: Meaning::Fraction(FractionRule::NoBar, Some(Style::InDisplay)) },
    Entry { name: "dblcolon", key: 0x64626c636f6c6f6e, meaning: Meaning::Shows(Symbol::Sign(Class::Relation, '∷')) },
    Entry { name: "ddag", key: 0x6464616700000000, meaning: Meaning::Shows(Symbol::Sign(Class::Ordinary, '‡')) },
    Entry { name: "ddagger", key: 0x6464616767657200, meaning: Meaning::Shows(Symbol::Sign(Class::Binary, '‡')) },
    Entry { name: "dddot", key: 0x6464646f74000000, meaning: Meaning::Accent(Side::Above, '…', Stretch::Rigid) },
    Entry { name: "ddot", key: 0x64646f7400000000, meaning: Meaning::Accent(Side::Above, '¨', Stretch::Rigid) },
    Entry { name: "ddots", key: 0x64646f7473000000, meaning: Meaning::Shows(Symbol::Sign(Class::Inner, '⋱')) },
    Entry { name: "deg", key: 0x6465670000000000, meaning: Meaning::FunctionName(LimitPlace::Beside, "deg") },
    Entry { name: "degree", key: 0x6465677265650000, meaning: Meaning::Shows(Symbol::Sign(Class::Ordinary, '°')) },
    Entry { name: "delta", key: 0x64656c7461000000, meaning: Meaning::Shows(Symbol::Letter('δ')) },
    Entry { name: "det", key: 0x6465740000000000, meaning: Meaning::FunctionName(LimitPlace::ByStyle, "det") },
    Entry { name: "dfrac", key: 0x6466726163000000, meaning: Meaning::Fraction(FractionRule::Bar, Some(Style::InDisplay)) },
    Entry { name: "dh", key: 0x6468000000000000, meaning: Meaning::Shows(Symbol::UprightLetter('ð')) },
    Entry { name: "diagdown", key: 0x64696167646f776e, meaning: Meaning::Shows(Symbol::Sign(Class::Ordinary, '╲')) },
    Entry { name: "diagup", key: 0x6469616775700000, meaning: Meaning::Shows(Symbol::Sign(Class::Ordinary, '╱')) },
    Entry { name: "diamond", key: 0x6469616d6f6e6400, meaning: Meaning::Shows(Symbol::Sign(Class::Binary, '⋄')) },
    Entry { name: "diamonds", key: 0x6469616d6f6e6473, meaning: Meaning::Shows(Symbol::Sign(Class::Ordinary, '♢')) },
    Entry { name: "diamondsuit", key: 0x6469616d6f6e6473, meaning: Meaning::Shows(Symbol::Sign(Class::Ordinary, '♢')) },
    Entry { name: "digamma", key: 0x646967616d6d6100, meaning: Meaning::Shows(Symbol::Letter('ϝ')) },
    Entry { name: "dim", key: 0x64696d0000000000, meaning: Meaning::FunctionName(LimitPlace::Beside, "dim") },
    Entry { name: "displaylimits", key: 0x646973706c61796c, meaning: Meaning::Limits },
    Entry { name: "displaystyle", key: 0x646973706c617973, meaning: Meaning::Changes(Change::ToStyle(Style::InDisplay)) },
    Entry { name: "div", key: 0x6469760000000000, meaning: Meaning::Shows(Symbol::Sign(Class::Binary, '÷')) },
    Entry { name: "divideontimes", key: 0x6469766964656f6e, meaning: Meaning::Shows(Symbol::Sign(Class::Binary, '⋇')) },
    Entry { name: "dj", key: 0x646a000000000000, meaning: Meaning::Shows(Symbol::UprightLetter('đ')) },
    Entry { name: "dot", key: 0x646f740000000000, meaning: Meaning::Accent(Side::Above, '˙', Stretch::Rigid) },
    Entry { name: "dotcup", key: 0x646f746375700000, meaning: Meaning::Shows(Symbol::Sign(Class::Binary, '⊍')) },
    Entry { name: "doteq", key: 0x646f746571000000, meaning: Meaning::Shows(Symbol::Sign(Class::Relation, '≐')) },
    Entry { name: "doteqdot", key: 0x646f746571646f74, meaning: Meaning::Shows(Symbol::Sign(Class::Relation, '≑')) },
    Entry { name: "dotplus", key: 0x646f74706c757300, meaning: Meaning::Shows(Symbol::Sign(Class::Binary, '∔')) },
    Entry { name: "dots", key: 0x646f747300000000, meaning: Meaning::Dots },
    Entry { name: "doublebarwedge", key: 0x646f75626c656261, meaning: Meaning::Shows(Symbol::Sign(Class::Binary, '⩞')) },
    Entry { name: "doublecap", key: 0x646f75626c656361, meaning: Meaning::Shows(Symbol::Sign(Class::Binary, '⋒')) },
    Entry { name: "doublecup", key: 0x646f75626c656375, meaning: Meaning::Shows(Symbol::Sign(Class::Binary, '⋓')) },
    Entry { name: "downarrow", key: 0x646f776e6172726f, meaning: Meaning::Shows(Symbol::Sign(Class::Relation, '↓')) },
    Entry { name: "downdownarrows", key: 0x646f776e646f776e, meaning: Meaning::Shows(Symbol::Sign(Class::Relation, '⇊')) },
    Entry { name: "downharpoonleft", key: 0x646f776e68617270, meaning: Meaning::Shows(Symbol::Sign(Class::Relation, '⇃')) },
    Entry { name: "downharpoonright", key: 0x646f776e68617270, meaning: Meaning::Shows(Symbol::Sign(Class::Relation, '⇂')) },
];

/// Returns the entries of the names that begin with e.
#[tactic(auto, unfolding(crate::specs::Parts::entries_in, latex2mathml_tex_grammar::specs::Commands::command_entries, latex2mathml_tex_grammar::specs::CommandsUpToL::commands_up_to_l, latex2mathml_tex_grammar::specs::CommandsFromM::commands_from_m))]
pub(crate) fn letter_e() -> &'static [Entry]
    ensures part { map entry_of result.now ≡ entries_in 5 }
    ensures keyed { IsTrue (list_all has_key result.now) }
{
    &LETTER_E
}

#[rattlefmt::skip]
static LETTER_E: [Entry; 25] = [
    Entry { name: "earth", key: 0x6561727468000000, meaning: Meaning::Shows(Symbol::Sign(Class::Ordinary, '♁')) },
    Entry { name: "ell", key: 0x656c6c0000000000, meaning: Meaning::Shows(Symbol::Letter('ℓ')) },
    Entry { name: "emph", key: 0x656d706800000000, meaning: Meaning::Words(Some(Alphabet::Italic)) },
    Entry { name: "empty", key: 0x656d707479000000, meaning: Meaning::Shows(Symbol::Sign(Class::Ordinary, '∅')) },
    Entry { name: "emptyset", key: 0x656d707479736574, meaning: Meaning::Shows(Symbol::Sign(Class::Ordinary, '∅')) },
    Entry { name: "end", key: 0x656e640000000000, meaning: Meaning::EndTable },
    Entry { name: "enskip", key: 0x656e736b69700000, meaning: Meaning::Spacing(9) },
    Entry { name: "enspace", key: 0x656e737061636500, meaning: Meaning::Spacing(9) },
    Entry { name: "epsilon", key: 0x657073696c6f6e00, meaning: Meaning::Shows(Symbol::Letter('ϵ')) },
    Entry { name: "eqcirc", key: 0x6571636972630000, meaning: Meaning::Shows(Symbol::Sign(Class::Relation, '≖')) },
    Entry { name: "eqcolon", key: 0x6571636f6c6f6e00, meaning: Meaning::Shows(Symbol::Sign(Class::Relation, '≕')) },
    Entry { name: "eqqcolon", key: 0x657171636f6c6f6e, meaning: Meaning::Shows(Symbol::Sign(Class::Relation, '≕')) },
    Entry { name: "eqsim", key: 0x657173696d000000, meaning: Meaning::Shows(Symbol::Sign(Class::Relation, '≂')) },
    Entry { name: "eqslantgtr", key: 0x6571736c616e7467, meaning: Meaning::Shows(Symbol::Sign(Class::Relation, '⪖')) },
    Entry { name: "eqslantless", key: 0x6571736c616e746c, meaning: Meaning::Shows(Symbol::Sign(Class::Relation, '⪕')) },
    Entry { name: "equalscolon", key: 0x657175616c73636f, meaning: Meaning::Shows(Symbol::Sign(Class::Relation, '≕')) },
    Entry { name: "equiv", key: 0x6571756976000000, meaning: Meaning::Shows(Symbol::Sign(Class::Relation, '≡')) },
    Entry { name: "erf", key: 0x6572660000000000, meaning: Meaning::FunctionName(LimitPlace::Beside, "erf") },
    Entry { name: "erfc", key: 0x6572666300000000, meaning: Meaning::FunctionName(LimitPlace::Beside, "erfc") },
    Entry { name: "eta", key: 0x6574610000000000, meaning: Meaning::Shows(Symbol::Letter('η')) },
    Entry { name: "eth", key: 0x6574680000000000, meaning: Meaning::Shows(Symbol::UprightLetter('ð')) },
    Entry { name: "euro", key: 0x6575726f00000000, meaning: Meaning::Shows(Symbol::Sign(Class::Ordinary, '€')) },
    Entry { name: "exist", key: 0x6578697374000000, meaning: Meaning::Shows(Symbol::Sign(Class::Ordinary, '∃')) },
    Entry { name: "exists", key: 0x6578697374730000, meaning: Meaning::Shows(Symbol::Sign(Class::Ordinary, '∃')) },
    Entry { name: "exp", key: 0x6578700000000000, meaning: Meaning::FunctionName(LimitPlace::Beside, "exp") },
];
