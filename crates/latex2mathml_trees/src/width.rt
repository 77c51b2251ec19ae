//! The widths of spaces, in ems.
ghost use Rattle.std.specs.Prelude.{◌≡◌, ◌++◌, codes, unsigned_abs};
ghost use Rattle.std.specs.Fmt.{WritesOnOk};
ghost use Rattle.latex2mathml_trees.specs.Width.{thousandths, thousandths_text, width_text};

use std::fmt;

/// Writes a space whose width is given in eighteenths of an em. An `Err` is one that the formatter's writer returned.
pub fn write_space<W: fmt::Write>(width: i32, f: &mut fmt::Formatter<W>) -> fmt::Result
    ensures { WritesOnOk W.write_str_gives f.old result
        (codes "<mspace width=\"" ++ (width_text width ++ codes "em\"/>")) f.new }
{
    f.write_str("<mspace width=\"")?;
    write_width(width, f)?;
    f.write_str("em\"/>")
}

/// Writes a width that is given in eighteenths of an em as a number of ems. An `Err` is one that the formatter's writer returned.
pub fn write_width<W: fmt::Write>(width: i32, f: &mut fmt::Formatter<W>) -> fmt::Result
    ensures { WritesOnOk W.write_str_gives f.old result (width_text width) f.new }
{
    if width < 0 {
        f.write_str("-")?;
    }
    write_thousandths(thousandths_of(width), f)
}

/// Returns the number of thousandths that is nearest to a number of eighteenths, without its sign.
fn thousandths_of(width: i32) -> u64
    ensures { result ≡ thousandths (unsigned_abs width) }
{
    (u64::from(width.unsigned_abs()) * 1000 + 9) / 18
}

/// Writes a number of thousandths as a decimal fraction, without zeros at its end.
#[tactic(auto, using(crate::proofs::Widths::digits_left))]
fn write_thousandths<W: fmt::Write>(number: u64, f: &mut fmt::Formatter<W>) -> fmt::Result
    ensures { WritesOnOk W.write_str_gives f.old result (thousandths_text number) f.new }
{
    let whole = number / 1000;
    write!(f, "{whole}")?;
    let a = number % 1000 / 100 % 10;
    let b = number % 1000 / 10 % 10;
    let c = number % 1000 % 10;
    if c != 0 {
        write!(f, ".{a}{b}{c}")
    } else if b != 0 {
        write!(f, ".{a}{b}")
    } else if a != 0 {
        write!(f, ".{a}")
    } else {
        Ok(())
    }
}
