//! The space between two atoms: that of TeX's table, less what a browser leaves by itself.
ghost use Rattle.std.specs.Prelude.{◌≡◌, ◌≤◌, option_map};
ghost use Rattle.latex2mathml_tex_grammar.specs.Atoms;
ghost use Rattle.latex2mathml_tex_grammar.specs.SpaceTable;
ghost use Rattle.latex2mathml_tex_commands.specs.Meanings.{class_of, style_of};
ghost use Rattle.latex2mathml_tex_atoms.specs.Models.{before_of, entry_of, kind_of};

use crate::atoms::{Before, Kind};
use latex2mathml_tex_commands::meaning::{Class, Style};

/// An entry of TeX's table: no space; a thin one; a thin, medium or thick one that scripts do not have. Some entries are missing.
#[derive(Clone, Copy)]
enum Entry {
    Zero,
    Thin,
    ThinOutsideScripts,
    MediumOutsideScripts,
    ThickOutsideScripts,
    NoEntry,
}

impl Entry {
    /// Returns the entry for two atoms of these classes.
    fn of(left: Class, right: Class) -> Entry
        ensures { entry_of result ≡ SpaceTable.entry (class_of left) (class_of right) }
    {
        match left {
            Class::Ordinary | Class::Closing => match right {
                Class::Operator => Entry::Thin,
                Class::Binary => Entry::MediumOutsideScripts,
                Class::Relation => Entry::ThickOutsideScripts,
                Class::Inner => Entry::ThinOutsideScripts,
                Class::Ordinary | Class::Opening | Class::Closing | Class::Punctuation => {
                    Entry::Zero
                }
            },
            Class::Operator => match right {
                Class::Ordinary | Class::Operator => Entry::Thin,
                Class::Binary => Entry::NoEntry,
                Class::Relation => Entry::ThickOutsideScripts,
                Class::Inner => Entry::ThinOutsideScripts,
                Class::Opening | Class::Closing | Class::Punctuation => Entry::Zero,
            },
            Class::Binary => match right {
                Class::Binary | Class::Relation | Class::Closing | Class::Punctuation => {
                    Entry::NoEntry
                }
                Class::Ordinary | Class::Operator | Class::Opening | Class::Inner => {
                    Entry::MediumOutsideScripts
                }
            },
            Class::Relation => match right {
                Class::Binary => Entry::NoEntry,
                Class::Relation | Class::Closing | Class::Punctuation => Entry::Zero,
                Class::Ordinary | Class::Operator | Class::Opening | Class::Inner => {
                    Entry::ThickOutsideScripts
                }
            },
            Class::Opening => match right {
                Class::Binary => Entry::NoEntry,
                Class::Ordinary
                | Class::Operator
                | Class::Relation
                | Class::Opening
                | Class::Closing
                | Class::Punctuation
                | Class::Inner => Entry::Zero,
            },
            Class::Punctuation => match right {
                Class::Binary => Entry::NoEntry,
                Class::Ordinary
                | Class::Operator
                | Class::Relation
                | Class::Opening
                | Class::Closing
                | Class::Punctuation
                | Class::Inner => Entry::ThinOutsideScripts,
            },
            Class::Inner => match right {
                Class::Operator => Entry::Thin,
                Class::Binary => Entry::MediumOutsideScripts,
                Class::Relation => Entry::ThickOutsideScripts,
                Class::Closing => Entry::Zero,
                Class::Ordinary | Class::Opening | Class::Punctuation | Class::Inner => {
                    Entry::ThinOutsideScripts
                }
            },
        }
    }

    /// Returns how wide the space is, in eighteenths of an em, or `None` if the entry is missing.
    fn width(self, style: Style) -> Option<u8>
        ensures { result ≡ SpaceTable.width (style_of style) (entry_of self) }
    {
        match (self, style) {
            (Entry::Zero, _) => Some(0),
            (Entry::Thin, _) => Some(3),
            (Entry::NoEntry, _) => None,
            (_, Style::InScript) => Some(0),
            (Entry::ThinOutsideScripts, _) => Some(3),
            (Entry::MediumOutsideScripts, _) => Some(4),
            (Entry::ThickOutsideScripts, _) => Some(5),
        }
    }
}

/// Returns the space that a browser leaves at each side of an atom of this class, in eighteenths of an em.
fn own_space(style: Style, class: Class) -> u8
    ensures width { result ≡ Atoms.own_space (style_of style) (class_of class) }
    ensures at_most { result ≤ 5 }
{
    match (class, style) {
        (Class::Operator, _) => 3,
        (Class::Binary, Style::InDisplay | Style::InText) => 4,
        (Class::Relation, Style::InDisplay | Style::InText) => 5,
        _ => 0,
    }
}

impl Before {
    /// Returns the class of what precedes an atom, or `None` if nothing does.
    fn class(self) -> Option<Class>
        ensures { option_map class_of result ≡ Atoms.class_before (before_of self) }
    {
        match self {
            Before::Nothing => None,
            Before::After(class) | Before::AfterUnspaced(class) => Some(class),
        }
    }

    /// Returns the space after what precedes an atom. Only there does a comma have some.
    fn own_after(self, style: Style) -> u8
        ensures width { result ≡ Atoms.own_after (style_of style) (before_of self) }
        ensures at_most { result ≤ 5 }
    {
        match (self, style) {
            (Before::After(Class::Punctuation), Style::InScript) => 0,
            (Before::After(Class::Punctuation), _) => 3,
            (Before::After(class), _) => own_space(style, class),
            (Before::Nothing | Before::AfterUnspaced(_), _) => 0,
        }
    }

    /// Returns the space before an atom of this class there.
    fn class_own_before(self, style: Style, class: Class) -> u8
        ensures width { result
            ≡ Atoms.class_own_before (style_of style) (before_of self) (class_of class) }
        ensures at_most { result ≤ 5 }
    {
        match class {
            Class::Relation if self.leads_relation() => 0,
            Class::Operator if self.leads_operator() => 0,
            class => own_space(style, self.class_there(class)),
        }
    }

    /// Returns the space before an atom of this kind there.
    fn own_before(self, style: Style, kind: Kind) -> u8
        ensures width { result ≡ Atoms.own_before (style_of style) (before_of self) (kind_of kind) }
        ensures at_most { result ≤ 5 }
    {
        match kind {
            Kind::SignOf(class) | Kind::Plain(class) => self.class_own_before(style, class),
            Kind::PlusOrMinus => self.class_own_before(style, Class::Binary),
            Kind::UprightLetters
            | Kind::UprightIdentifier
            | Kind::Unspaced(_)
            | Kind::Divider
            | Kind::Blank => 0,
        }
    }

    /// Returns the width of what is added before an atom of this kind, in eighteenths of an em. The space there is then that of TeX's
    /// table. The width is negative if a browser leaves too much by itself.
    pub(crate) fn gap(self, style: Style, kind: Kind) -> i32
        ensures { result ≡ Atoms.gap (style_of style) (before_of self) (kind_of kind) }
    {
        if let Kind::Blank = kind {
            return 0;
        }
        let (Some(left), Some(right)) = (self.class(), self.past(kind).class()) else {
            return 0;
        };
        let Some(width) = Entry::of(left, right).width(style) else {
            return 0;
        };
        i32::from(width) - i32::from(self.own_after(style) + self.own_before(style, kind))
    }
}
