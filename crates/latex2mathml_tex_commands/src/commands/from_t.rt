//! The commands from those that begin with t on.
ghost use Rattle.std.specs.Prelude.{◌≡◌, IsTrue, map};
ghost use Rattle.std.specs.List.{list_all};
ghost use Rattle.latex2mathml_tex_commands.specs.{Keys.has_key, Meanings.entry_of, Parts.entries_in};

use crate::meaning::{
    Alphabet, Change, Class, Entry, FractionRule, LimitPlace, Meaning, OperandBox, Style, Symbol,
    TextSize,
};
use latex2mathml_attributes::attributes::{Side, Stretch};

/// Returns the entries of the names that begin with t.
#[tactic(auto, unfolding(crate::specs::Parts::entries_in, latex2mathml_tex_grammar::specs::Commands::command_entries, latex2mathml_tex_grammar::specs::CommandsUpToL::commands_up_to_l, latex2mathml_tex_grammar::specs::CommandsFromM::commands_from_m))]
pub(crate) fn letter_t() -> &'static [Entry]
    ensures part { map entry_of result.now ≡ entries_in 20 }
    ensures keyed { IsTrue (list_all has_key result.now) }
{
    &LETTER_T
}

#[rattlefmt::skip]
static LETTER_T: [Entry; 43] = [
    Entry { name: "tan", key: 0x74616e0000000000, meaning: Meaning::FunctionName(LimitPlace::Beside, "tan") },
    Entry { name: "tanh", key: 0x74616e6800000000, meaning: Meaning::FunctionName(LimitPlace::Beside, "tanh") },
    Entry { name: "tau", key: 0x7461750000000000, meaning: Meaning::Shows(Symbol::Letter('τ')) },
    Entry { name: "tbinom", key: 0x7462696e6f6d0000, meaning: Meaning::Fraction(FractionRule::NoBar, Some(Style::InText)) },
    Entry { name: "text", key: 0x7465787400000000, meaning: Meaning::Words(None) },
    Entry { name: "textbf", key: 0x7465787462660000, meaning: Meaning::Words(Some(Alphabet::Bold)) },
    Entry { name: "textcolor", key: 0x74657874636f6c6f, meaning: Meaning::InColor },
    Entry { name: "textit", key: 0x7465787469740000, meaning: Meaning::Words(Some(Alphabet::Italic)) },
    Entry { name: "textmd", key: 0x746578746d640000, meaning: Meaning::Words(None) },
    Entry { name: "textnormal", key: 0x746578746e6f726d, meaning: Meaning::Words(None) },
    Entry { name: "textrm", key: 0x74657874726d0000, meaning: Meaning::Words(None) },
    Entry { name: "textsc", key: 0x7465787473630000, meaning: Meaning::Words(None) },
    Entry { name: "textsf", key: 0x7465787473660000, meaning: Meaning::Words(Some(Alphabet::SansSerif)) },
    Entry { name: "textsl", key: 0x74657874736c0000, meaning: Meaning::Words(Some(Alphabet::Italic)) },
    Entry { name: "textstyle", key: 0x746578747374796c, meaning: Meaning::Changes(Change::ToStyle(Style::InText)) },
    Entry { name: "texttt", key: 0x7465787474740000, meaning: Meaning::Words(Some(Alphabet::Monospace)) },
    Entry { name: "textup", key: 0x7465787475700000, meaning: Meaning::Words(None) },
    Entry { name: "textyen", key: 0x7465787479656e00, meaning: Meaning::Shows(Symbol::Sign(Class::Ordinary, '¥')) },
    Entry { name: "tfrac", key: 0x7466726163000000, meaning: Meaning::Fraction(FractionRule::Bar, Some(Style::InText)) },
    Entry { name: "tg", key: 0x7467000000000000, meaning: Meaning::FunctionName(LimitPlace::Beside, "tg") },
    Entry { name: "th", key: 0x7468000000000000, meaning: Meaning::FunctionName(LimitPlace::Beside, "th") },
    Entry { name: "therefore", key: 0x7468657265666f72, meaning: Meaning::Shows(Symbol::Sign(Class::Relation, '∴')) },
    Entry { name: "theta", key: 0x7468657461000000, meaning: Meaning::Shows(Symbol::Letter('θ')) },
    Entry { name: "thetasym", key: 0x746865746173796d, meaning: Meaning::Shows(Symbol::Letter('ϑ')) },
    Entry { name: "thickapprox", key: 0x746869636b617070, meaning: Meaning::Shows(Symbol::Sign(Class::Relation, '≈')) },
    Entry { name: "thicksim", key: 0x746869636b73696d, meaning: Meaning::Shows(Symbol::Sign(Class::Relation, '∼')) },
    Entry { name: "thickspace", key: 0x746869636b737061, meaning: Meaning::Spacing(5) },
    Entry { name: "thinspace", key: 0x7468696e73706163, meaning: Meaning::Spacing(3) },
    Entry { name: "tilde", key: 0x74696c6465000000, meaning: Meaning::Accent(Side::Above, '˜', Stretch::Rigid) },
    Entry { name: "times", key: 0x74696d6573000000, meaning: Meaning::Shows(Symbol::Sign(Class::Binary, '×')) },
    Entry { name: "tiny", key: 0x74696e7900000000, meaning: Meaning::Changes(Change::ToSize(TextSize::Tiny)) },
    Entry { name: "to", key: 0x746f000000000000, meaning: Meaning::Shows(Symbol::Sign(Class::Relation, '→')) },
    Entry { name: "top", key: 0x746f700000000000, meaning: Meaning::Shows(Symbol::Sign(Class::Ordinary, '⊤')) },
    Entry { name: "triangle", key: 0x747269616e676c65, meaning: Meaning::Shows(Symbol::Sign(Class::Ordinary, '△')) },
    Entry { name: "triangledown", key: 0x747269616e676c65, meaning: Meaning::Shows(Symbol::Sign(Class::Ordinary, '▽')) },
    Entry { name: "triangleleft", key: 0x747269616e676c65, meaning: Meaning::Shows(Symbol::Sign(Class::Binary, '◃')) },
    Entry { name: "trianglelefteq", key: 0x747269616e676c65, meaning: Meaning::Shows(Symbol::Sign(Class::Relation, '⊴')) },
    Entry { name: "triangleq", key: 0x747269616e676c65, meaning: Meaning::Shows(Symbol::Sign(Class::Relation, '≜')) },
    Entry { name: "triangleright", key: 0x747269616e676c65, meaning: Meaning::Shows(Symbol::Sign(Class::Binary, '▹')) },
    Entry { name: "trianglerighteq", key: 0x747269616e676c65, meaning: Meaning::Shows(Symbol::Sign(Class::Relation, '⊵')) },
    Entry { name: "tt", key: 0x7474000000000000, meaning: Meaning::Changes(Change::ToAlphabet(Alphabet::Monospace)) },
    Entry { name: "twoheadleftarrow", key: 0x74776f686561646c, meaning: Meaning::Shows(Symbol::Sign(Class::Relation, '↞')) },
    Entry { name: "twoheadrightarrow", key: 0x74776f6865616472, meaning: Meaning::Shows(Symbol::Sign(Class::Relation, '↠')) },
];

/// Returns the entries of the names that begin with u.
#[tactic(auto, unfolding(crate::specs::Parts::entries_in, latex2mathml_tex_grammar::specs::Commands::command_entries, latex2mathml_tex_grammar::specs::CommandsUpToL::commands_up_to_l, latex2mathml_tex_grammar::specs::CommandsFromM::commands_from_m))]
pub(crate) fn letter_u() -> &'static [Entry]
    ensures part { map entry_of result.now ≡ entries_in 21 }
    ensures keyed { IsTrue (list_all has_key result.now) }
{
    &LETTER_U
}

#[rattlefmt::skip]
static LETTER_U: [Entry; 55] = [
    Entry { name: "uArr", key: 0x7541727200000000, meaning: Meaning::Shows(Symbol::Sign(Class::Relation, '⇑')) },
    Entry { name: "uarr", key: 0x7561727200000000, meaning: Meaning::Shows(Symbol::Sign(Class::Relation, '↑')) },
    Entry { name: "ulcorner", key: 0x756c636f726e6572, meaning: Meaning::Shows(Symbol::Sign(Class::Opening, '⌜')) },
    Entry { name: "unboldmath", key: 0x756e626f6c646d61, meaning: Meaning::Changes(Change::ToAlphabet(Alphabet::Upright)) },
    Entry { name: "underbar", key: 0x756e646572626172, meaning: Meaning::Accent(Side::Below, '\u{332}', Stretch::Stretching) },
    Entry { name: "underbrace", key: 0x756e646572627261, meaning: Meaning::Brace(Side::Below, '⏟') },
    Entry { name: "underbracket", key: 0x756e646572627261, meaning: Meaning::Brace(Side::Below, '⎵') },
    Entry { name: "undergroup", key: 0x756e64657267726f, meaning: Meaning::Accent(Side::Below, '⏡', Stretch::Stretching) },
    Entry { name: "underleftarrow", key: 0x756e6465726c6566, meaning: Meaning::Accent(Side::Below, '←', Stretch::Stretching) },
    Entry { name: "underleftrightarrow", key: 0x756e6465726c6566, meaning: Meaning::Accent(Side::Below, '↔', Stretch::Stretching) },
    Entry { name: "underline", key: 0x756e6465726c696e, meaning: Meaning::Accent(Side::Below, '\u{332}', Stretch::Stretching) },
    Entry { name: "underparen", key: 0x756e646572706172, meaning: Meaning::Brace(Side::Below, '⏝') },
    Entry { name: "underrightarrow", key: 0x756e646572726967, meaning: Meaning::Accent(Side::Below, '→', Stretch::Stretching) },
    Entry { name: "underset", key: 0x756e646572736574, meaning: Meaning::Stack(Side::Below) },
    Entry { name: "unlhd", key: 0x756e6c6864000000, meaning: Meaning::Shows(Symbol::Sign(Class::Binary, '⊴')) },
    Entry { name: "unrhd", key: 0x756e726864000000, meaning: Meaning::Shows(Symbol::Sign(Class::Binary, '⊵')) },
    Entry { name: "upalpha", key: 0x7570616c70686100, meaning: Meaning::Shows(Symbol::UprightLetter('α')) },
    Entry { name: "uparrow", key: 0x75706172726f7700, meaning: Meaning::Shows(Symbol::Sign(Class::Relation, '↑')) },
    Entry { name: "upbeta", key: 0x7570626574610000, meaning: Meaning::Shows(Symbol::UprightLetter('β')) },
    Entry { name: "upchi", key: 0x7570636869000000, meaning: Meaning::Shows(Symbol::UprightLetter('χ')) },
    Entry { name: "updelta", key: 0x757064656c746100, meaning: Meaning::Shows(Symbol::UprightLetter('δ')) },
    Entry { name: "updownarrow", key: 0x7570646f776e6172, meaning: Meaning::Shows(Symbol::Sign(Class::Relation, '↕')) },
    Entry { name: "upepsilon", key: 0x7570657073696c6f, meaning: Meaning::Shows(Symbol::UprightLetter('ϵ')) },
    Entry { name: "upeta", key: 0x7570657461000000, meaning: Meaning::Shows(Symbol::UprightLetter('η')) },
    Entry { name: "upgamma", key: 0x757067616d6d6100, meaning: Meaning::Shows(Symbol::UprightLetter('γ')) },
    Entry { name: "upharpoonleft", key: 0x7570686172706f6f, meaning: Meaning::Shows(Symbol::Sign(Class::Relation, '↿')) },
    Entry { name: "upharpoonright", key: 0x7570686172706f6f, meaning: Meaning::Shows(Symbol::Sign(Class::Relation, '↾')) },
    Entry { name: "upiota", key: 0x7570696f74610000, meaning: Meaning::Shows(Symbol::UprightLetter('ι')) },
    Entry { name: "upkappa", key: 0x75706b6170706100, meaning: Meaning::Shows(Symbol::UprightLetter('κ')) },
    Entry { name: "uplambda", key: 0x75706c616d626461, meaning: Meaning::Shows(Symbol::UprightLetter('λ')) },
    Entry { name: "uplus", key: 0x75706c7573000000, meaning: Meaning::Shows(Symbol::Sign(Class::Binary, '⊎')) },
    Entry { name: "upmu", key: 0x75706d7500000000, meaning: Meaning::Shows(Symbol::UprightLetter('μ')) },
    Entry { name: "upnu", key: 0x75706e7500000000, meaning: Meaning::Shows(Symbol::UprightLetter('ν')) },
    Entry { name: "upomega", key: 0x75706f6d65676100, meaning: Meaning::Shows(Symbol::UprightLetter('ω')) },
    Entry { name: "upphi", key: 0x7570706869000000, meaning: Meaning::Shows(Symbol::UprightLetter('ϕ')) },
    Entry { name: "uppi", key: 0x7570706900000000, meaning: Meaning::Shows(Symbol::UprightLetter('π')) },
    Entry { name: "uppsi", key: 0x7570707369000000, meaning: Meaning::Shows(Symbol::UprightLetter('ψ')) },
    Entry { name: "uprho", key: 0x757072686f000000, meaning: Meaning::Shows(Symbol::UprightLetter('ρ')) },
    Entry { name: "upsigma", key: 0x75707369676d6100, meaning: Meaning::Shows(Symbol::UprightLetter('σ')) },
    Entry { name: "upsilon", key: 0x757073696c6f6e00, meaning: Meaning::Shows(Symbol::Letter('υ')) },
    Entry { name: "uptau", key: 0x7570746175000000, meaning: Meaning::Shows(Symbol::UprightLetter('τ')) },
    Entry { name: "uptheta", key: 0x7570746865746100, meaning: Meaning::Shows(Symbol::UprightLetter('θ')) },
    Entry { name: "upuparrows", key: 0x757075706172726f, meaning: Meaning::Shows(Symbol::Sign(Class::Relation, '⇈')) },
    Entry { name: "upupsilon", key: 0x7570757073696c6f, meaning: Meaning::Shows(Symbol::UprightLetter('υ')) },
    Entry { name: "upvarepsilon", key: 0x7570766172657073, meaning: Meaning::Shows(Symbol::UprightLetter('ε')) },
    Entry { name: "upvarphi", key: 0x7570766172706869, meaning: Meaning::Shows(Symbol::UprightLetter('φ')) },
    Entry { name: "upvarpi", key: 0x7570766172706900, meaning: Meaning::Shows(Symbol::UprightLetter('ϖ')) },
    Entry { name: "upvarrho", key: 0x757076617272686f, meaning: Meaning::Shows(Symbol::UprightLetter('ϱ')) },
    Entry { name: "upvarsigma", key: 0x7570766172736967, meaning: Meaning::Shows(Symbol::UprightLetter('ς')) },
    Entry { name: "upvartheta", key: 0x7570766172746865, meaning: Meaning::Shows(Symbol::UprightLetter('ϑ')) },
    Entry { name: "upxi", key: 0x7570786900000000, meaning: Meaning::Shows(Symbol::UprightLetter('ξ')) },
    Entry { name: "upzeta", key: 0x75707a6574610000, meaning: Meaning::Shows(Symbol::UprightLetter('ζ')) },
    Entry { name: "uranus", key: 0x7572616e75730000, meaning: Meaning::Shows(Symbol::Sign(Class::Ordinary, '♅')) },
    Entry { name: "urcorner", key: 0x7572636f726e6572, meaning: Meaning::Shows(Symbol::Sign(Class::Closing, '⌝')) },
    Entry { name: "utilde", key: 0x7574696c64650000, meaning: Meaning::Accent(Side::Below, '~', Stretch::Stretching) },
];

/// Returns the entries of the names that begin with v.
#[tactic(auto, unfolding(crate::specs::Parts::entries_in, latex2mathml_tex_grammar::specs::Commands::command_entries, latex2mathml_tex_grammar::specs::CommandsUpToL::commands_up_to_l, latex2mathml_tex_grammar::specs::CommandsFromM::commands_from_m))]
pub(crate) fn letter_v() -> &'static [Entry]
    ensures part { map entry_of result.now ≡ entries_in 22 }
    ensures keyed { IsTrue (list_all has_key result.now) }
{
    &LETTER_V
}

#[rattlefmt::skip]
static LETTER_V: [Entry; 28] = [
    Entry { name: "vDash", key: 0x7644617368000000, meaning: Meaning::Shows(Symbol::Sign(Class::Relation, '⊨')) },
    Entry { name: "varepsilon", key: 0x766172657073696c, meaning: Meaning::Shows(Symbol::Letter('ε')) },
    Entry { name: "varkappa", key: 0x7661726b61707061, meaning: Meaning::Shows(Symbol::UprightLetter('ϰ')) },
    Entry { name: "varnothing", key: 0x7661726e6f746869, meaning: Meaning::Shows(Symbol::Sign(Class::Ordinary, '∅')) },
    Entry { name: "varointclockwise", key: 0x7661726f696e7463, meaning: Meaning::Shows(Symbol::Integral('∲')) },
    Entry { name: "varphi", key: 0x7661727068690000, meaning: Meaning::Shows(Symbol::Letter('φ')) },
    Entry { name: "varpi", key: 0x7661727069000000, meaning: Meaning::Shows(Symbol::Letter('ϖ')) },
    Entry { name: "varpropto", key: 0x76617270726f7074, meaning: Meaning::Shows(Symbol::Sign(Class::Relation, '∝')) },
    Entry { name: "varrho", key: 0x76617272686f0000, meaning: Meaning::Shows(Symbol::Letter('ϱ')) },
    Entry { name: "varsigma", key: 0x7661727369676d61, meaning: Meaning::Shows(Symbol::Letter('ς')) },
    Entry { name: "varsubsetneq", key: 0x7661727375627365, meaning: Meaning::Shows(Symbol::Sign(Class::Relation, '⊊')) },
    Entry { name: "varsubsetneqq", key: 0x7661727375627365, meaning: Meaning::Shows(Symbol::Sign(Class::Relation, '⫋')) },
    Entry { name: "varsupsetneq", key: 0x7661727375707365, meaning: Meaning::Shows(Symbol::Sign(Class::Relation, '⊋')) },
    Entry { name: "varsupsetneqq", key: 0x7661727375707365, meaning: Meaning::Shows(Symbol::Sign(Class::Relation, '⫌')) },
    Entry { name: "vartheta", key: 0x7661727468657461, meaning: Meaning::Shows(Symbol::Letter('ϑ')) },
    Entry { name: "vartriangle", key: 0x766172747269616e, meaning: Meaning::Shows(Symbol::Sign(Class::Relation, '△')) },
    Entry { name: "vartriangleleft", key: 0x766172747269616e, meaning: Meaning::Shows(Symbol::Sign(Class::Relation, '⊲')) },
    Entry { name: "vartriangleright", key: 0x766172747269616e, meaning: Meaning::Shows(Symbol::Sign(Class::Relation, '⊳')) },
    Entry { name: "varvdots", key: 0x76617276646f7473, meaning: Meaning::Shows(Symbol::Sign(Class::Ordinary, '⋮')) },
    Entry { name: "vcentcolon", key: 0x7663656e74636f6c, meaning: Meaning::Shows(Symbol::Sign(Class::Relation, ':')) },
    Entry { name: "vdash", key: 0x7664617368000000, meaning: Meaning::Shows(Symbol::Sign(Class::Relation, '⊢')) },
    Entry { name: "vdots", key: 0x76646f7473000000, meaning: Meaning::VerticalDots },
    Entry { name: "vec", key: 0x7665630000000000, meaning: Meaning::Accent(Side::Above, '\u{20D7}', Stretch::Stretching) },
    Entry { name: "vee", key: 0x7665650000000000, meaning: Meaning::Shows(Symbol::Sign(Class::Binary, '∨')) },
    Entry { name: "veebar", key: 0x7665656261720000, meaning: Meaning::Shows(Symbol::Sign(Class::Binary, '⊻')) },
    Entry { name: "venus", key: 0x76656e7573000000, meaning: Meaning::Shows(Symbol::Sign(Class::Ordinary, '♀')) },
    Entry { name: "vert", key: 0x7665727400000000, meaning: Meaning::Shows(Symbol::Sign(Class::Ordinary, '∣')) },
    Entry { name: "vphantom", key: 0x767068616e746f6d, meaning: Meaning::Boxed(OperandBox::PhantomHeight) },
];

/// Returns the entries of the names that begin with w.
#[tactic(auto, unfolding(crate::specs::Parts::entries_in, latex2mathml_tex_grammar::specs::Commands::command_entries, latex2mathml_tex_grammar::specs::CommandsUpToL::commands_up_to_l, latex2mathml_tex_grammar::specs::CommandsFromM::commands_from_m))]
pub(crate) fn letter_w() -> &'static [Entry]
    ensures part { map entry_of result.now ≡ entries_in 23 }
    ensures keyed { IsTrue (list_all has_key result.now) }
{
    &LETTER_W
}

#[rattlefmt::skip]
static LETTER_W: [Entry; 7] = [
    Entry { name: "wedge", key: 0x7765646765000000, meaning: Meaning::Shows(Symbol::Sign(Class::Binary, '∧')) },
    Entry { name: "weierp", key: 0x7765696572700000, meaning: Meaning::Shows(Symbol::Letter('℘')) },
    Entry { name: "widecheck", key: 0x7769646563686563, meaning: Meaning::Accent(Side::Above, 'ˇ', Stretch::Stretching) },
    Entry { name: "widehat", key: 0x7769646568617400, meaning: Meaning::Accent(Side::Above, '\u{302}', Stretch::Stretching) },
    Entry { name: "widetilde", key: 0x7769646574696c64, meaning: Meaning::Accent(Side::Above, '~', Stretch::Stretching) },
    Entry { name: "wp", key: 0x7770000000000000, meaning: Meaning::Shows(Symbol::Letter('℘')) },
    Entry { name: "wr", key: 0x7772000000000000, meaning: Meaning::Shows(Symbol::Sign(Class::Binary, '≀')) },
];

/// Returns the entries of the names that begin with x.
#[tactic(auto, unfolding(crate::specs::Parts::entries_in, latex2mathml_tex_grammar::specs::Commands::command_entries, latex2mathml_tex_grammar::specs::CommandsUpToL::commands_up_to_l, latex2mathml_tex_grammar::specs::CommandsFromM::commands_from_m))]
pub(crate) fn letter_x() -> &'static [Entry]
    ensures part { map entry_of result.now ≡ entries_in 24 }
    ensures keyed { IsTrue (list_all has_key result.now) }
{
    &LETTER_X
}

#[rattlefmt::skip]
static LETTER_X: [Entry; 24] = [
    Entry { name: "xLeftarrow", key: 0x784c656674617272, meaning: Meaning::Arrow('⇐') },
    Entry { name: "xLeftrightarrow", key: 0x784c656674726967, meaning: Meaning::Arrow('⇔') },
    Entry { name: "xRightarrow", key: 0x7852696768746172, meaning: Meaning::Arrow('⇒') },
    Entry { name: "xcancel", key: 0x7863616e63656c00, meaning: Meaning::Boxed(OperandBox::StrikeTwice) },
    Entry { name: "xhookleftarrow", key: 0x78686f6f6b6c6566, meaning: Meaning::Arrow('↩') },
    Entry { name: "xhookrightarrow", key: 0x78686f6f6b726967, meaning: Meaning::Arrow('↪') },
    Entry { name: "xi", key: 0x7869000000000000, meaning: Meaning::Shows(Symbol::Letter('ξ')) },
    Entry { name: "xleftarrow", key: 0x786c656674617272, meaning: Meaning::Arrow('←') },
    Entry { name: "xleftequilibrium", key: 0x786c656674657175, meaning: Meaning::Arrow('⇋') },
    Entry { name: "xleftharpoondown", key: 0x786c656674686172, meaning: Meaning::Arrow('↽') },
    Entry { name: "xleftharpoonup", key: 0x786c656674686172, meaning: Meaning::Arrow('↼') },
    Entry { name: "xleftrightarrow", key: 0x786c656674726967, meaning: Meaning::Arrow('↔') },
    Entry { name: "xleftrightharpoons", key: 0x786c656674726967, meaning: Meaning::Arrow('⇋') },
    Entry { name: "xlongequal", key: 0x786c6f6e67657175, meaning: Meaning::Arrow('=') },
    Entry { name: "xmapsto", key: 0x786d617073746f00, meaning: Meaning::Arrow('↦') },
    Entry { name: "xrightarrow", key: 0x7872696768746172, meaning: Meaning::Arrow('→') },
    Entry { name: "xrightequilibrium", key: 0x7872696768746571, meaning: Meaning::Arrow('⇌') },
    Entry { name: "xrightharpoondown", key: 0x7872696768746861, meaning: Meaning::Arrow('⇁') },
    Entry { name: "xrightharpoonup", key: 0x7872696768746861, meaning: Meaning::Arrow('⇀') },
    Entry { name: "xrightleftarrows", key: 0x7872696768746c65, meaning: Meaning::Arrow('⇄') },
    Entry { name: "xrightleftharpoons", key: 0x7872696768746c65, meaning: Meaning::Arrow('⇌') },
    Entry { name: "xtofrom", key: 0x78746f66726f6d00, meaning: Meaning::Arrow('⇄') },
    Entry { name: "xtwoheadleftarrow", key: 0x7874776f68656164, meaning: Meaning::Arrow('↞') },
    Entry { name: "xtwoheadrightarrow", key: 0x7874776f68656164, meaning: Meaning::Arrow('↠') },
];

/// Returns the entries of the names that begin with y.
#[tactic(auto, unfolding(crate::specs::Parts::entries_in, latex2mathml_tex_grammar::specs::Commands::command_entries, latex2mathml_tex_grammar::specs::CommandsUpToL::commands_up_to_l, latex2mathml_tex_grammar::specs::CommandsFromM::commands_from_m))]
pub(crate) fn letter_y() -> &'static [Entry]
    ensures part { map entry_of result.now ≡ entries_in 25 }
    ensures keyed { IsTrue (list_all has_key result.now) }
{
    &LETTER_Y
}

#[rattlefmt::skip]
static LETTER_Y: [Entry; 1] = [
    Entry { name: "yen", key: 0x79656e0000000000, meaning: Meaning::Shows(Symbol::Sign(Class::Ordinary, '¥')) },
];

/// Returns the entries of the names that begin with z.
#[tactic(auto, unfolding(crate::specs::Parts::entries_in, latex2mathml_tex_grammar::specs::Commands::command_entries, latex2mathml_tex_grammar::specs::CommandsUpToL::commands_up_to_l, latex2mathml_tex_grammar::specs::CommandsFromM::commands_from_m))]
pub(crate) fn letter_z() -> &'static [Entry]
    ensures part { map entry_of result.now ≡ entries_in 26 }
    ensures keyed { IsTrue (list_all has_key result.now) }
{
    &LETTER_Z
}

#[rattlefmt::skip]
static LETTER_Z: [Entry; 1] = [
    Entry { name: "zeta", key: 0x7a65746100000000, meaning: Meaning::Shows(Symbol::Letter('ζ')) },
];

/// Returns the entries of the names that begin after z: with signs.
#[tactic(auto, unfolding(crate::specs::Parts::entries_in, latex2mathml_tex_grammar::specs::Commands::command_entries, latex2mathml_tex_grammar::specs::CommandsUpToL::commands_up_to_l, latex2mathml_tex_grammar::specs::CommandsFromM::commands_from_m))]
pub(crate) fn after_z() -> &'static [Entry]
    ensures part { map entry_of result.now ≡ entries_in 27 }
    ensures keyed { IsTrue (list_all has_key result.now) }
{
    &AFTER_Z
}

#[rattlefmt::skip]
static AFTER_Z: [Entry; 3] = [
    Entry { name: "{", key: 0x7b00000000000000, meaning: Meaning::Shows(Symbol::Sign(Class::Opening, '{')) },
    Entry { name: "|", key: 0x7c00000000000000, meaning: Meaning::Shows(Symbol::Sign(Class::Ordinary, '∥')) },
    Entry { name: "}", key: 0x7d00000000000000, meaning: Meaning::Shows(Symbol::Sign(Class::Closing, '}')) },
];
