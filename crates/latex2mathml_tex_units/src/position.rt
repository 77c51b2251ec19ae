//! Where an error is, as a lexer of the formula sees it.
ghost use Rattle.std.specs.Prelude.{◌≡◌};
ghost use Rattle.std.specs.Fmt.{is_char_start};
ghost use Rattle.latex2mathml_tex_units.specs.Positions.{column_of, line_of};

use crate::error::TexError;

/// A line and a column of a text. Both are counted from 1, and a column counts characters.
#[derive(Debug, Clone, Copy, PartialEq, Eq)]
pub struct Position {
    pub line: usize,
    pub column: usize,
}

impl TexError {
    /// Returns the error's place in the text that is refused, as a line and a column.
    ///
    /// A line feed ends a line. A place inside a character counts as the place after the character, and a place after the text
    /// as the end of the text. An error of [`tex_to_mathml`](crate::tex_to_mathml) that is about no place is at the beginning
    /// of the text.
    ///
    /// The formula `"x^2\n+ \\foo"` is refused because of the command that begins at byte 6, which is column 3 of line 2.
    pub fn position(&self, tex: &str) -> Position
        ensures line { result.line ≡ line_of self.now.place tex.now }
        ensures column { result.column ≡ column_of self.now.place tex.now }
    {
        let bytes = tex.as_bytes();
        let before = &bytes[..bytes.len().min(self.place)];
        let mut position = Position { line: 1, column: 1 };
        for byte in before {
            if *byte == b'\n' {
                position.line += 1;
                position.column = 1;
            } else if begins_character(*byte) {
                position.column += 1;
            }
        }
        position
    }
}

/// Whether a character begins with this byte. In UTF-8, each byte that continues no character begins one.
fn begins_character(byte: u8) -> bool
    ensures { result ≡ is_char_start byte }
{
    !matches!(byte, 0x80..=0xBF)
}
