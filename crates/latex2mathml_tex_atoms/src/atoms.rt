//! Atoms and rows, and what an atom is to its neighbours.
ghost use Rattle.std.specs.Prelude.{◌≡◌, ◌≢◌, ◌+◌, false, IsTrue, option_map};
ghost use Rattle.latex2mathml_tex_grammar.specs.Atoms;
ghost use Rattle.latex2mathml_tex_grammar.specs.Makes;
ghost use Rattle.latex2mathml_tex_grammar.specs.Rows;
ghost use Rattle.latex2mathml_tex_grammar.specs.Rules.{in_size};
ghost use Rattle.latex2mathml_tex_grammar.specs.Words as words;
ghost use Rattle.latex2mathml_tex_commands.specs.Meanings.{class_of, text_size_of};
ghost use Rattle.latex2mathml_tex_atoms.specs.Models.{IsFinished, begun, has_script, empty_row, before_of, context_of, font_of, is_relation, is_upright, joining_of, kind_of, script_count, usual_context};
ghost use Rattle.latex2mathml_tex_atoms.specs.Adding.{IsAdded};
ghost use Rattle.latex2mathml_tex_atoms.specs.declared.heights.Height.TheVariants as height;

use crate::fonts::Font;
use crate::heights::Height;
use crate::rests::{Division, Look};
use crate::shapes::class_after;
use crate::signs::is_put_as_it_is;
use latex2mathml_attributes::attributes::Side;
use latex2mathml_tex_commands::meaning::{Alphabet, Class, LimitPlace, Style, TextSize};

/// The context in which a unit is read: the style, and the alphabet of letters and digits, if there is one.
#[derive(Clone, Copy)]
pub struct Context {
    pub style: Style,
    pub alphabet: Option<Alphabet>,
    /// The size of letters.
    pub size: TextSize,
}

impl Context {
    /// Creates a context of letters of the usual size.
    pub fn new(style: Style, alphabet: Option<Alphabet>) -> Context
        ensures { result ≡ usual_context style alphabet }
    {
        Context {
            style,
            alphabet,
            size: TextSize::NormalSize,
        }
    }

    /// Returns the context with the same alphabet and size in another style.
    pub fn styled(self, style: Style) -> Context
        ensures { result ≡ record self { style = style } }
    {
        Context { style, ..self }
    }

    /// Returns the context with the same alphabet and letters of another size, which are not in the style of a script.
    pub fn sized(self, size: TextSize) -> Context
        ensures { context_of result ≡ in_size (context_of self) (text_size_of size) }
    {
        Context {
            style: self.style.at_full_size(),
            size,
            ..self
        }
    }
}

/// What an atom is to its neighbours.
#[derive(Clone, Copy)]
pub enum Kind {
    /// A sign of this class, an `mo` of its own.
    SignOf(Class),
    /// A binary sign that is a prefix where no binary operator can be.
    PlusOrMinus,
    /// Any other element, of this class.
    Plain(Class),
    /// An upright letter, which forms one word with those next to it.
    UprightLetters,
    /// Any other upright letter: one that is upright by itself, in braces, or with scripts.
    UprightIdentifier,
    /// An element of this class that has no space of its own, such as the name of a function.
    Unspaced(Class),
    /// A delimiter within others.
    Divider,
    /// A space.
    Blank,
}

/// Whether an atom joins the one directly before it.
#[derive(Clone, Copy)]
pub enum Joining {
    /// An upright letter joins a word.
    ToWord,
    /// A relation joins relations: TeX leaves no space between them.
    ToRelations,
    /// An empty space is between an upright letter and what else is ordinary.
    Separated,
    Apart,
}

impl Kind {
    /// Returns what an atom of this kind does directly after one of the kind `last`.
    pub fn joining(self, last: Kind) -> Joining
        ensures { joining_of result ≡ Rows.joining (kind_of last) (kind_of self) }
    {
        match (last, self) {
            (Kind::UprightLetters, Kind::UprightLetters) => Joining::ToWord,
            (Kind::SignOf(Class::Relation), Kind::SignOf(Class::Relation)) => Joining::ToRelations,
            (Kind::UprightLetters | Kind::UprightIdentifier, Kind::Plain(Class::Ordinary))
            | (Kind::Plain(Class::Ordinary), Kind::UprightLetters | Kind::UprightIdentifier) => {
                Joining::Separated
            }
            _ => Joining::Apart,
        }
    }

    /// Whether the atom is a relation that may join another.
    #[inline(always)]
    fn is_relation(self) -> bool
        ensures { result ≡ is_relation self }
    {
        matches!(self, Kind::SignOf(Class::Relation))
    }

    /// Whether the atom is an upright letter.
    #[inline(always)]
    fn is_upright(self) -> bool
        ensures { result ≡ is_upright self }
    {
        matches!(self, Kind::UprightLetters | Kind::UprightIdentifier)
    }

    /// Whether the atom, which is no upright letter, is apart from an atom of the kind `last` directly before it.
    #[inline(always)]
    fn is_apart(self, last: Kind) -> bool
        ensures { IsTrue result → self ≢ Kind.UprightLetters → self ≢ Kind.UprightIdentifier
            → Rows.joining (kind_of last) (kind_of self) ≡ Rows.Apart }
    {
        match self {
            Kind::SignOf(Class::Relation) => !last.is_relation(),
            Kind::Plain(Class::Ordinary) => !last.is_upright(),
            _ => true,
        }
    }

    /// Whether the element of the atom loses its space where nothing is next to it.
    pub(crate) fn is_spaced(self) -> bool
        ensures { result ≡ Rows.is_spaced (kind_of self) }
    {
        matches!(
            self,
            Kind::SignOf(Class::Binary | Class::Relation | Class::Punctuation | Class::Operator)
                | Kind::Plain(Class::Operator)
        )
    }

    /// Whether browsers leave space after the element of the atom where nothing follows it: whether it is a relation or a comma.
    pub(crate) fn leaves_space(self) -> bool
        ensures { result ≡ Rows.leaves_space (kind_of self) }
    {
        matches!(self, Kind::SignOf(Class::Relation | Class::Punctuation))
    }

    /// Whether the place of the atom's limits can be specified: whether the atom is an operator.
    pub fn takes_limits(self) -> bool
        ensures { result ≡ Makes.takes_limits (kind_of self) }
    {
        matches!(
            self,
            Kind::SignOf(Class::Operator)
                | Kind::Plain(Class::Operator)
                | Kind::Unspaced(Class::Operator)
        )
    }

    /// Returns the class of the atom as a base. A binary operator and a relation stay what they are.
    #[inline(always)]
    pub fn class(self) -> Class
        ensures { class_of result ≡ Rows.class_of_kind (kind_of self) }
    {
        match self {
            Kind::SignOf(Class::Binary) | Kind::PlusOrMinus | Kind::Plain(Class::Binary) => {
                Class::Binary
            }
            Kind::SignOf(Class::Relation) | Kind::Plain(Class::Relation) => Class::Relation,
            _ => Class::Ordinary,
        }
    }

    /// Returns what the atom is when it is changed: letters are no longer part of a word.
    pub fn without_letters(self) -> Kind
        ensures { kind_of result ≡ Makes.no_letters (kind_of self) }
    {
        match self {
            Kind::UprightLetters => Kind::UprightIdentifier,
            kind => kind,
        }
    }

    /// Returns what the atom is with scripts: a sign is no longer an `mo` of its own.
    pub fn with_scripts(self) -> Kind
        ensures { kind_of result ≡ Makes.scripted_kind (kind_of self) }
    {
        match self {
            Kind::SignOf(class) => Kind::Plain(class),
            Kind::PlusOrMinus => Kind::Plain(Class::Binary),
            kind => kind.without_letters(),
        }
    }
}

/// What precedes an atom, ignoring spaces: nothing, or an atom of this class, which may have no space of its own.
#[derive(Clone, Copy)]
pub enum Before {
    Nothing,
    After(Class),
    AfterUnspaced(Class),
}

impl Before {
    /// Whether no binary operator can follow.
    #[inline(always)]
    pub fn begins_operand(self) -> bool
        ensures { result ≡ Atoms.begins_operand (before_of self) }
    {
        match self {
            Before::Nothing => true,
            Before::After(class) | Before::AfterUnspaced(class) => awaits_operand(class),
        }
    }

    /// Whether a relation has no space before it there.
    #[inline(always)]
    pub(crate) fn leads_relation(self) -> bool
        ensures { result ≡ Atoms.leads_relation (before_of self) }
    {
        matches!(self, Before::After(Class::Opening | Class::Punctuation))
    }

    /// Whether an operator has no space before it there.
    #[inline(always)]
    pub(crate) fn leads_operator(self) -> bool
        ensures { result ≡ Atoms.leads_operator (before_of self) }
    {
        match self {
            Before::After(class) => awaits_operand(class),
            Before::Nothing | Before::AfterUnspaced(_) => false,
        }
    }

    /// Returns the class that an atom of this class has there.
    #[inline(always)]
    pub fn class_there(self, class: Class) -> Class
        ensures { class_of result ≡ Atoms.class_there (before_of self) (class_of class) }
    {
        match class {
            Class::Binary => {
                if self.begins_operand() {
                    Class::Ordinary
                } else {
                    Class::Binary
                }
            }
            class => class,
        }
    }

    /// Returns what an atom there is to the atom after it.
    #[inline(always)]
    pub fn past(self, kind: Kind) -> Before
        ensures { before_of result ≡ Atoms.past (before_of self) (kind_of kind) }
    {
        match kind {
            Kind::SignOf(class) => Before::After(self.class_there(class)),
            Kind::PlusOrMinus => Before::After(self.class_there(Class::Binary)),
            Kind::Plain(class) => Before::After(self.class_there(class)),
            Kind::UprightLetters | Kind::UprightIdentifier => Before::After(Class::Ordinary),
            Kind::Unspaced(class) => Before::AfterUnspaced(self.class_there(class)),
            Kind::Divider => Before::After(Class::Opening),
            Kind::Blank => self,
        }
    }
}

/// Whether no binary operator can follow an atom of this class.
#[inline(always)]
fn awaits_operand(class: Class) -> bool
    ensures { result ≡ Atoms.awaits_operand (class_of class) }
{
    match class {
        Class::Operator | Class::Binary | Class::Relation | Class::Opening | Class::Punctuation => {
            true
        }
        Class::Ordinary | Class::Closing | Class::Inner => false,
    }
}

/// An atom without scripts. Its element is the top one.
#[derive(Clone, Copy)]
pub struct Core {
    pub kind: Kind,
    /// How high it is.
    pub height: Height,
    /// Where its limits are.
    pub limits: LimitPlace,
}

impl Core {
    /// Creates an atom whose limits are next to it.
    pub fn new(kind: Kind, height: Height) -> Core
        ensures { result ≡ record { kind = kind; height = height; limits = LimitPlace.Beside } }
    {
        Core {
            kind,
            height,
            limits: LimitPlace::Beside,
        }
    }
}

/// What a command takes. Its element is the top one.
#[derive(Clone, Copy)]
pub struct Operand {
    /// Its class as the base of a mark.
    pub class: Class,
    /// How high it is.
    pub height: Height,
}

/// Atoms next to each other. Their elements are the top ones.
#[derive(Clone, Copy)]
pub struct Row {
    /// How many elements there are since the last change of style, color or size.
    pub count: usize,
    /// How many elements precede that change, below the others.
    pub settled: usize,
    /// What precedes the next atom.
    pub before: Before,
    /// What the last atom is, or a space, which nothing joins.
    pub last: Kind,
    /// How high its highest atom is.
    pub height: Height,
    /// The class of the row as the base of a mark.
    pub class: Class,
    /// The look of what follows that change, if there was one.
    pub restyled: Option<Look>,
    /// The fraction, if the row is the lower part of one. The upper part is below the other elements.
    pub under: Option<Division>,
}

impl Row {
    /// Returns a row without atoms.
    pub fn empty() -> Row
        ensures { result ≡ empty_row }
    {
        Row {
            count: 0,
            before: Before::Nothing,
            last: Kind::Blank,
            height: Height::Low,
            class: Class::Ordinary,
            restyled: None,
            settled: 0,
            under: None,
        }
    }

    /// Returns a row without atoms, at the beginning of a formula: what follows is as if after an opening sign.
    pub fn begun() -> Row
        ensures { result ≡ begun }
    {
        Row {
            before: Before::After(Class::Opening),
            ..Row::empty()
        }
    }

    /// Whether the row needs no [`finish`](crate::rests::finish): no style or color was changed in it, it is not the lower part of
    /// a fraction, and no binary sign ends it.
    #[inline(always)]
    pub fn is_finished(&self) -> bool
        ensures { IsTrue result → IsFinished self.now }
    {
        self.restyled.is_none() && self.under.is_none() && !self.awaits_second()
    }

    /// Adds an atom after the others, if its element stays as it is there and no space precedes it. Returns whether the atom was
    /// added. Most are. This changes the row in place, as a row takes long to copy.
    #[inline(always)]
    pub fn add(&mut self, style: Style, core: Core) -> bool
        ensures added { IsTrue result → IsAdded style core self.old self.new }
        ensures unchanged { result ≡ false → self.new ≡ self.old }
    {
        if !core.kind.is_apart(self.last) {
            return false;
        }
        if self.awaits_second() && core.kind.ends_operand() {
            return false;
        }
        if !is_put_as_it_is(style, self.count == 0, self.before, core.kind) {
            return false;
        }
        let Some(count) = self.count.checked_add(1) else {
            return false;
        };
        let height = self.height.larger(core.height);
        self.class = class_after(self.count, core.kind);
        self.count = count;
        self.before = self.before.past(core.kind);
        self.last = core.kind;
        self.height = height;
        true
    }
}

/// What follows an atom. The elements of its scripts are above that of the atom, in the order in which they were read.
#[derive(Clone, Copy)]
pub struct Scripts {
    pub primes: usize,
    pub below: bool,
    pub above: bool,
    /// Whether the script below was read after the one above.
    pub is_exchanged: bool,
    pub limits: LimitPlace,
    /// Whether the place of the limits can be specified.
    pub takes_limits: bool,
    /// How high the script below is.
    pub height: Height,
}

impl Scripts {
    /// Returns no scripts, after an atom of this kind.
    pub fn none(kind: Kind, limits: LimitPlace) -> Scripts
        ensures { result ≡ record {
          primes = 0;
          below = false;
          above = false;
          is_exchanged = false;
          limits = limits;
          takes_limits = Makes.takes_limits (kind_of kind);
          height = height.Low;
        } }
    {
        Scripts {
            primes: 0,
            below: false,
            above: false,
            is_exchanged: false,
            limits,
            takes_limits: kind.takes_limits(),
            height: Height::Low,
        }
    }

    /// Returns how many scripts there are.
    pub fn count(self) -> usize
        ensures { result ≡ script_count self }
    {
        usize::from(self.below) + usize::from(self.above)
    }

    /// Whether there is a script on this side.
    pub fn has(self, side: Side) -> bool
        ensures { result ≡ has_script side self }
    {
        match side {
            Side::Below => self.below,
            Side::Above => self.above,
        }
    }
}

/// Words. Their elements are the top ones.
#[derive(Clone, Copy)]
pub struct Words {
    /// How many elements there are.
    pub count: usize,
    /// The font of the last one, if it is a text.
    pub last: Option<Font>,
    /// The accent that the next character gets, if there is one.
    pub accent: Option<char>,
}

impl Words {
    /// Whether the last element is a text in this font.
    pub(crate) fn is_in(self, font: Font) -> bool
        ensures { result ≡ words.is_in (font_of font) (option_map font_of self.last) }
    {
        matches!(
            (font, self.last),
            (Font::Usual, Some(Font::Usual)) | (Font::Typewriter, Some(Font::Typewriter))
        )
    }

    /// Returns the font of the last element, if it is a text, or else the usual one.
    pub(crate) fn last_font(self) -> Font
        ensures { font_of result ≡ words.last_font (option_map font_of self.last) }
    {
        self.last.unwrap_or(Font::Usual)
    }
}
