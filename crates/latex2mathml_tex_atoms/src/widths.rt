//! How wide delimiters are in TeX's fonts.
ghost use Rattle.std.specs.Prelude.{◌≡◌, Some, option_map};
ghost use Rattle.latex2mathml_elements.specs.Attributes.{AtMost};
ghost use Rattle.latex2mathml_attributes.specs.Names.{size_of};
ghost use Rattle.latex2mathml_tex_grammar.specs.Widths.{room, width_in, widths, widths_of};
ghost use Rattle.latex2mathml_tex_commands.specs.Delimiters.{delimiter_text};
ghost use Rattle.latex2mathml_tex_atoms.specs.Shapes.{widths_with};

use latex2mathml_attributes::attributes::Size;

/// The width of a delimiter in each size, in thousandths of an em.
#[derive(Clone, Copy)]
struct Widths {
    big: u16,
    bigger: u16,
    very_big: u16,
    biggest: u16,
}

impl Widths {
    /// Returns these widths, the smallest first.
    fn new(big: u16, bigger: u16, very_big: u16, biggest: u16) -> Widths
        ensures { widths_with result ≡ widths big bigger very_big biggest }
    {
        Widths {
            big,
            bigger,
            very_big,
            biggest,
        }
    }

    /// Returns the width in this size.
    fn in_size(self, size: Size) -> u16
        ensures { result ≡ width_in (size_of size) (widths_with self) }
    {
        match size {
            Size::Big => self.big,
            Size::Bigger => self.bigger,
            Size::VeryBig => self.very_big,
            Size::Biggest => self.biggest,
        }
    }
}

/// Returns how wide a delimiter of this size is at most, in thousandths of an em, if a browser may leave more room for it.
pub fn room(size: Size, delimiter: Option<char>) -> Option<u16>
    ensures { option_map AtMost result ≡ room (size_of size) (delimiter_text delimiter) }
{
    match delimiter {
        Some(c) => room_for(size, c),
        None => None,
    }
}

/// Returns how wide this delimiter is at most, in the same way.
fn room_for(size: Size, c: char) -> Option<u16>
    ensures { option_map AtMost result ≡ room (size_of size) (delimiter_text (Some c)) }
{
    Some(widths_of(c)?.in_size(size))
}

/// Returns the widths of a delimiter that is wider where it is higher.
fn widths_of(c: char) -> Option<Widths>
    ensures { option_map widths_with result ≡ widths_of c }
{
    match c {
        '(' | ')' => Some(Widths::new(458, 597, 736, 792)),
        '[' | ']' => Some(Widths::new(417, 472, 528, 583)),
        '{' | '}' => Some(Widths::new(583, 667, 750, 806)),
        '/' | '\\' => Some(Widths::new(578, 811, 1044, 1278)),
        '⌈' | '⌉' | '⌊' | '⌋' => Some(Widths::new(472, 528, 583, 639)),
        '⟦' | '⟧' => Some(Widths::new(480, 660, 838, 1007)),
        '⟨' | '⟩' => Some(Widths::new(472, 611, 750, 806)),
        _ => None,
    }
}
