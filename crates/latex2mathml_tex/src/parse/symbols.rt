//! What is put for a symbol: one element, which is a whole atom.
ghost use Rattle.std.specs.Prelude.{◌≡◌, false, true, IfOk, IsTrue, Some, option_map};
ghost use Rattle.latex2mathml_attributes.specs.Names.{attributes_of, element_with_text, form_of};
ghost use Rattle.latex2mathml_elements.specs.{Attributes.plain, Element.Mo, Element.token};
ghost use Rattle.latex2mathml_tex_grammar.specs.Makes;
ghost use Rattle.latex2mathml_tex_grammar.specs.SignAttributes;
ghost use Rattle.latex2mathml_tex_grammar.specs.Makes.{core};
ghost use Rattle.latex2mathml_tex_grammar.specs.{Atoms.Plain, Atoms.atom, Symbols.Operator};
ghost use Rattle.latex2mathml_tex_commands.specs.Meanings.{alphabet_of, class_of, limit_place_of, style_of};
ghost use Rattle.latex2mathml_tex_atoms.specs.Models.{core_with, height_of, kind_of};
ghost use Rattle.latex2mathml_tex_commands.specs.Meanings;
ghost use Rattle.latex2mathml_tex_atoms.specs.Shapes.{PutsCore};

use latex2mathml_attributes::attributes::{Attributes, Form, Space, Stretch};
use latex2mathml_attributes::tag::Token;
use latex2mathml_builder::builder::Builder;
use latex2mathml_tex_atoms::atoms::{Context, Core, Kind};
use latex2mathml_tex_atoms::heights::Height;
use latex2mathml_tex_commands::alphabets::in_alphabet;
use latex2mathml_tex_commands::meaning::{Alphabet, Class, LimitPlace, Symbol};
use std::alloc::AllocError;

/// Puts a symbol. Letters are in the alphabet of the context.
#[inline(always)]
pub(crate) fn put_symbol(
    builder: &mut Builder,
    context: Context,
    symbol: Symbol,
) -> Result<Core, AllocError>
    ensures { IfOk result (PutsCore
        (Makes.symbol (style_of context.style) (option_map alphabet_of context.alphabet)
        (Meanings.symbol_of symbol))
        builder.old builder.new) }
{
    match symbol {
        Symbol::Letter(c) => put_letter(builder, context.alphabet, c),
        Symbol::UprightLetter(c) => put_upright_letter(builder, context.alphabet, c),
        Symbol::Sign(class, c) => put_sign_in(builder, context.alphabet, class, c),
        Symbol::BigOperator(c) => put_operator(builder, c, LimitPlace::Movable, Height::Raised),
        Symbol::Integral(c) => {
            let height = Height::of_integral(context.style);
            put_operator(builder, c, LimitPlace::Beside, height)
        }
    }
}

/// Puts a letter that is italic by default.
#[inline(always)]
pub(crate) fn put_letter(
    builder: &mut Builder,
    alphabet: Option<Alphabet>,
    c: char,
) -> Result<Core, AllocError>
    ensures { IfOk result (PutsCore (core (Makes.letter (option_map alphabet_of alphabet) c))
        builder.old builder.new) }
{
    match alphabet {
        Some(alphabet) => put_letter_in(builder, alphabet, c),
        None => {
            let ordinary = Core::new(Kind::Plain(Class::Ordinary), Height::Low);
            put_character(builder, Token::Mi, Attributes::plain(), c, ordinary)
        }
    }
}

/// Puts a letter in an alphabet.
fn put_letter_in(builder: &mut Builder, alphabet: Alphabet, c: char) -> Result<Core, AllocError>
    ensures { IfOk result (PutsCore (core (Makes.letter (Some (alphabet_of alphabet)) c))
        builder.old builder.new) }
{
    match alphabet {
        Alphabet::Upright | Alphabet::Named => {
            let letters = Core::new(Kind::UprightLetters, Height::Low);
            put_character(builder, Token::Mi, Attributes::upright(), c, letters)
        }
        alphabet => {
            let c = in_alphabet(alphabet, c);
            let ordinary = Core::new(Kind::Plain(Class::Ordinary), Height::Low);
            put_character(builder, Token::Mi, Attributes::plain(), c, ordinary)
        }
    }
}

/// Puts a letter that is upright by default.
pub(crate) fn put_upright_letter(
    builder: &mut Builder,
    alphabet: Option<Alphabet>,
    c: char,
) -> Result<Core, AllocError>
    ensures { IfOk result (PutsCore
        (core (Makes.upright_letter (option_map alphabet_of alphabet) c))
        builder.old builder.new) }
{
    match alphabet {
        Some(_) => put_letter(builder, alphabet, c),
        None => {
            let letter = Core::new(Kind::UprightIdentifier, Height::Low);
            put_character(builder, Token::Mi, Attributes::upright(), c, letter)
        }
    }
}

/// Puts a sign of this class among letters of this alphabet.
#[inline(always)]
fn put_sign_in(
    builder: &mut Builder,
    alphabet: Option<Alphabet>,
    class: Class,
    c: char,
) -> Result<Core, AllocError>
    ensures { IfOk result (PutsCore
        (core (Makes.sign_in (option_map alphabet_of alphabet) (class_of class) c))
        builder.old builder.new) }
{
    match alphabet {
        Some(Alphabet::Named) => put_sign_of_name(builder, class, c),
        _ => put_sign(builder, class, c),
    }
}

/// Puts a sign in the name of an operator. A minus is a hyphen there, and the sign of a product an asterisk.
#[inline(never)]
fn put_sign_of_name(builder: &mut Builder, class: Class, c: char) -> Result<Core, AllocError>
    ensures { IfOk result (PutsCore (core (Makes.sign_of_name (class_of class) c))
        builder.old builder.new) }
{
    match c {
        '−' => put_letter_in(builder, Alphabet::Named, '-'),
        '∗' => put_letter_in(builder, Alphabet::Named, '*'),
        _ => put_sign(builder, class, c),
    }
}

/// Puts a sign of this class. Most signs have no attributes.
#[inline(always)]
fn put_sign(builder: &mut Builder, class: Class, c: char) -> Result<Core, AllocError>
    ensures { IfOk result (PutsCore (core (Makes.sign (class_of class) c))
        builder.old builder.new) }
{
    if !is_plain(class, c) {
        return put_other_sign(builder, class, c);
    }
    let sign = Core::new(sign_kind(class, c), Height::Low);
    put_character(builder, Token::Mo, Attributes::plain(), c, sign)
}

/// Puts a sign of this class, which may have attributes.
#[inline(never)]
fn put_other_sign(builder: &mut Builder, class: Class, c: char) -> Result<Core, AllocError>
    ensures { IfOk result (PutsCore (core (Makes.sign (class_of class) c))
        builder.old builder.new) }
{
    let sign = Core::new(sign_kind(class, c), Height::Low);
    put_character(builder, Token::Mo, sign_attributes(class, c), c, sign)
}

/// Puts an operator of this height.
fn put_operator(
    builder: &mut Builder,
    c: char,
    limits: LimitPlace,
    height: Height,
) -> Result<Core, AllocError>
    ensures { IfOk result (PutsCore (Makes.operator (limit_place_of limits)
        (atom (Plain Operator) (height_of height) (token Mo plain (Makes.text c))))
        builder.old builder.new) }
{
    let operator = Core {
        kind: Kind::Plain(Class::Operator),
        height,
        limits,
    };
    put_character(builder, Token::Mo, Attributes::plain(), c, operator)
}

/// Puts an element that holds a character and is a whole atom.
#[inline(always)]
fn put_character(
    builder: &mut Builder,
    tag: Token,
    attributes: Attributes,
    c: char,
    core: Core,
) -> Result<Core, AllocError>
    ensures { (k : Makes.Core)
        → core_with core (element_with_text tag attributes (Makes.text c)) ≡ k
        → IfOk result (PutsCore k builder.old builder.new) }
{
    builder.character(tag, attributes, c)?;
    Ok(core)
}

fn sign_attributes(class: Class, c: char) -> Attributes
    ensures { attributes_of result ≡ SignAttributes.sign_attributes (class_of class) c }
{
    match class {
        Class::Ordinary => Attributes {
            space: Some(Space::NoSpace),
            stretch: Some(Stretch::Rigid),
            ..Attributes::plain()
        },
        Class::Opening => delimiter_attributes(Form::Prefix, c),
        Class::Closing => delimiter_attributes(Form::Postfix, c),
        Class::Punctuation => Attributes {
            separator: true,
            ..Attributes::plain()
        },
        Class::Inner => Attributes {
            space: Some(Space::NoSpace),
            ..Attributes::plain()
        },
        Class::Operator => Attributes::plain(),
        Class::Binary => binary_attributes(c),
        Class::Relation => relation_attributes(c),
    }
}

/// Returns the attributes of a binary sign.
fn binary_attributes(c: char) -> Attributes
    ensures { attributes_of result ≡ SignAttributes.binary_attributes c }
{
    Attributes {
        space: if lacks_medium_space(c) {
            Some(Space::Medium)
        } else {
            None
        },
        keeps_size: grows(c),
        ..Attributes::plain()
    }
}

/// Returns the attributes of a relation.
fn relation_attributes(c: char) -> Attributes
    ensures { attributes_of result ≡ SignAttributes.relation_attributes c }
{
    if lacks_thick_space(c) {
        Attributes {
            space: Some(Space::Thick),
            ..Attributes::plain()
        }
    } else if stretches(c) {
        Attributes {
            stretch: Some(Stretch::Rigid),
            ..Attributes::plain()
        }
    } else {
        Attributes::plain()
    }
}

/// Returns the attributes of a sign that opens or closes, by its form.
fn delimiter_attributes(form: Form, c: char) -> Attributes
    ensures { attributes_of result ≡ SignAttributes.delimiter_attributes (form_of form) c }
{
    if leaves_space(c) {
        Attributes {
            form: Some(form),
            stretch: Some(Stretch::Rigid),
            space: Some(Space::NoSpace),
            ..Attributes::plain()
        }
    } else {
        Attributes {
            form: Some(form),
            stretch: Some(Stretch::Rigid),
            ..Attributes::plain()
        }
    }
}

/// Whether browsers leave a space of their own at the sign.
fn leaves_space(c: char) -> bool
    ensures { result ≡ SignAttributes.leaves_space c }
{
    matches!(
        c,
        '?' | '∣' | '∥' | '⌜' | '⌝' | '⌞' | '⌟' | '⎰' | '⎱' | '┌' | '┐' | '└' | '┘'
    )
}

#[inline(always)]
fn sign_kind(class: Class, c: char) -> Kind
    ensures { kind_of result ≡ Makes.sign_kind (class_of class) c }
{
    match class {
        Class::Binary if is_plus_or_minus(c) => Kind::PlusOrMinus,
        class => Kind::SignOf(class),
    }
}

/// Whether the sign is plus, minus, plus-minus or minus-plus.
fn is_plus_or_minus(c: char) -> bool
    ensures { result ≡ Makes.is_plus_or_minus c }
{
    matches!(c, '+' | '−' | '±' | '∓')
}

/// Whether a sign has no attributes, as most binary signs and relations have none.
#[inline(always)]
fn is_plain(class: Class, c: char) -> bool
    ensures { IsTrue result → SignAttributes.sign_attributes (class_of class) c ≡ plain }
{
    match class {
        Class::Binary => is_plain_binary(c),
        Class::Relation => is_plain_relation(c),
        _ => false,
    }
}

/// Whether a binary sign has no attributes. Plus and minus have none, and are looked for first, since most binary signs are one of them.
#[inline(always)]
fn is_plain_binary(c: char) -> bool
    ensures space { IsTrue result → SignAttributes.lacks_medium_space c ≡ false }
    ensures size { IsTrue result → SignAttributes.grows c ≡ false }
{
    if is_plus_or_minus(c) {
        return true;
    }
    !lacks_medium_space(c) && !grows(c)
}

/// Whether a relation has no attributes. In ASCII, all but two have none, and most relations are in ASCII.
#[inline(always)]
fn is_plain_relation(c: char) -> bool
    ensures stretches { IsTrue result → SignAttributes.stretches c ≡ false }
    ensures space { IsTrue result → SignAttributes.lacks_thick_space c ≡ false }
{
    if c.is_ascii() {
        return c != '|' && c != ':';
    }
    !stretches(c) && !lacks_thick_space(c)
}

/// Whether browsers leave another space around the binary sign than TeX.
fn lacks_medium_space(c: char) -> bool
    ensures { result ≡ SignAttributes.lacks_medium_space c }
{
    matches!(
        c,
        '&' | '·'
            | '×'
            | '†'
            | '‡'
            | '∗'
            | '∘'
            | '∙'
            | '≀'
            | '⊗'
            | '⊙'
            | '⊚'
            | '⊛'
            | '⊠'
            | '⊡'
            | '⊲'
            | '⊳'
            | '⊴'
            | '⊵'
            | '⊺'
            | '⋄'
            | '⋅'
            | '⋆'
            | '⋇'
            | '⋉'
            | '⋊'
            | '⋋'
            | '⋌'
            | '⋖'
            | '⋗'
            | '△'
            | '▷'
            | '▹'
            | '▽'
            | '◁'
            | '◃'
            | '◯'
            | '⦵'
            | '⨿'
            | '﹨'
    )
}

/// Whether some browsers draw the binary sign larger in the style of a block.
fn grows(c: char) -> bool
    ensures { result ≡ SignAttributes.grows c }
{
    matches!(c, '⊎' | '⊕' | '⊖' | '⊗' | '⊙')
}

/// Whether browsers leave another space around the relation than TeX, in the middle of a row or at its beginning.
fn lacks_thick_space(c: char) -> bool
    ensures { result ≡ SignAttributes.lacks_thick_space c }
{
    matches!(
        c,
        ':' | '−' | '∴' | '∵' | '∼' | '⌢' | '⌣' | '△' | '▶' | '◀' | '⧄' | '⧅' | '⧈'
    )
}

/// Whether MathML stretches the sign but TeX does not.
#[inline(never)]
fn stretches(c: char) -> bool
    ensures { result ≡ SignAttributes.stretches c }
{
    matches!(
        c,
        '|' | '∣'
            | '∥'
            | '←'
            | '↑'
            | '→'
            | '↓'
            | '↔'
            | '↕'
            | '↞'
            | '↠'
            | '↢'
            | '↣'
            | '↦'
            | '↩'
            | '↪'
            | '↫'
            | '↬'
            | '↰'
            | '↱'
            | '↼'
            | '↽'
            | '↾'
            | '↿'
            | '⇀'
            | '⇁'
            | '⇂'
            | '⇃'
            | '⇄'
            | '⇆'
            | '⇇'
            | '⇈'
            | '⇉'
            | '⇊'
            | '⇋'
            | '⇌'
            | '⇐'
            | '⇑'
            | '⇒'
            | '⇓'
            | '⇔'
            | '⇕'
            | '⇚'
            | '⇛'
            | '⇠'
            | '⇢'
            | '⟵'
            | '⟶'
            | '⟷'
            | '⟸'
            | '⟹'
            | '⟺'
            | '⟼'
    )
}
