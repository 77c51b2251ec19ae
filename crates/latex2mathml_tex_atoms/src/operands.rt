//! Where the operands of binary signs end: a sign without a second operand is ordinary, as in TeX.
ghost use Rattle.std.specs.Prelude.{◌≡◌, ◌+◌, ◌≤◌, ℕ, drop, length, take, true};
ghost use Rattle.latex2mathml_builder.specs.Built.{elements_in};
ghost use Rattle.latex2mathml_tex_grammar.specs.Atoms;
ghost use Rattle.latex2mathml_tex_grammar.specs.Rows;
ghost use Rattle.latex2mathml_tex_atoms.specs.Models.{before_of, kind_of, row_count, row_rest, row_with, top};

use crate::atoms::{Before, Kind, Row};
use crate::signs::remove_space;
use latex2mathml_builder::builder::Builder;
use latex2mathml_tex_commands::meaning::Class;

impl Kind {
    /// Whether an operand ends before the atom.
    #[inline(always)]
    pub(crate) fn ends_operand(self) -> bool
        ensures { result ≡ Atoms.kind_ends_operand (kind_of self) }
    {
        match self {
            Kind::SignOf(class) | Kind::Plain(class) | Kind::Unspaced(class) => matches!(
                class,
                Class::Relation | Class::Closing | Class::Punctuation
            ),
            Kind::Divider => true,
            Kind::PlusOrMinus | Kind::UprightLetters | Kind::UprightIdentifier | Kind::Blank =>
                false,
        }
    }
}

impl Row {
    /// Whether the last atom is a binary sign, whose second operand is still to come.
    #[inline(always)]
    pub(crate) fn awaits_second(&self) -> bool
        ensures { result
            ≡ Atoms.awaits_second (kind_of self.now.last) (before_of self.now.before) }
    {
        match self.before {
            Before::After(Class::Binary) => {
                matches!(self.last, Kind::SignOf(Class::Binary) | Kind::PlusOrMinus)
            }
            _ => false,
        }
    }
}

/// Makes the last sign of a row ordinary: it has no second operand. `depth` elements are above those of the row.
fn make_ordinary(builder: &mut Builder, depth: usize, row: Row) -> Row
    requires { depth + row.count ≤ length (elements_in builder.old) }
    ensures row { row_with result (drop depth (elements_in builder.new))
        ≡ Rows.with_ordinary_sign true (row_with row (drop depth (elements_in builder.old))) }
    ensures above { take depth (elements_in builder.new) ≡ take depth (elements_in builder.old) }
    ensures below { (n : ℕ) → row.count ≤ n → drop (depth + n) (elements_in builder.new)
        ≡ drop (depth + n) (elements_in builder.old) }
    ensures length { length (elements_in builder.new) ≡ length (elements_in builder.old) }
    ensures same { result ≡ record row { before = Before.After Class.Ordinary } }
{
    if row.count > 0 {
        remove_space(builder, depth);
    }
    Row {
        before: Before::After(Class::Ordinary),
        ..row
    }
}

/// Returns a row before an atom of this kind, whose element is the top one. A binary sign is ordinary there if an operand ends.
#[inline(always)]
pub(crate) fn before_atom(builder: &mut Builder, row: Row, kind: Kind) -> Row
    requires { row.count + 1 ≤ length (elements_in builder.old) }
    ensures row { row_with result (drop 1 (elements_in builder.new))
        ≡ Rows.row_before (kind_of kind) (row_with row (drop 1 (elements_in builder.old))) }
    ensures top { top (elements_in builder.new) ≡ top (elements_in builder.old) }
    ensures below { drop (row.count + 1) (elements_in builder.new)
        ≡ drop (row.count + 1) (elements_in builder.old) }
    ensures length { length (elements_in builder.new) ≡ length (elements_in builder.old) }
    ensures count { result.count ≡ row.count }
    ensures rest { row_rest result ≡ row_rest row }
{
    if row.awaits_second() && kind.ends_operand() {
        return make_ordinary(builder, 1, row);
    }
    row
}

/// Returns a row at its end. A binary sign is ordinary there.
#[inline(always)]
pub(crate) fn end_operand(builder: &mut Builder, row: Row) -> Row
    requires { row.count ≤ length (elements_in builder.old) }
    ensures row { row_with result (elements_in builder.new)
        ≡ Rows.with_operand_ended (row_with row (elements_in builder.old)) }
    ensures below { drop (row_count row) (elements_in builder.new)
        ≡ drop (row_count row) (elements_in builder.old) }
    ensures length { length (elements_in builder.new) ≡ length (elements_in builder.old) }
    ensures same { result ≡ record row { before = result.before } }
{
    if row.awaits_second() {
        return make_ordinary(builder, 0, row);
    }
    row
}
