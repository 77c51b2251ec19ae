//! The lines of tables.
ghost use Rattle.std.specs.Prelude.{◌≡◌, ◌++◌, codes};
ghost use Rattle.latex2mathml_elements.specs.Lines.{is_drawn};
ghost use Rattle.latex2mathml_elements.specs.Print.{border_style, line_style};
ghost use Rattle.latex2mathml_elements.specs.Tables.{row_line};
ghost use Rattle.latex2mathml_attributes.specs.{Arounds.extent_of, Lines.line_of};

use crate::extent::Extent;

/// What is drawn between two columns or two rows of a table.
#[derive(Debug, Clone, Copy)]
pub enum Line {
    Nothing,
    One,
    Two,
    Dashes,
}

impl Line {
    /// Whether anything is drawn.
    pub fn is_drawn(self) -> bool
        ensures { result ≡ is_drawn (line_of self) }
    {
        !matches!(self, Line::Nothing)
    }

    /// Returns the rectangle that the line is among the rows of which a table is made.
    pub fn among_rows(self) -> Extent
        ensures { extent_of result ≡ row_line (line_of self) }
    {
        Extent {
            width: 0,
            height: if matches!(self, Line::Two) { 1 } else { 0 },
            depth: 0,
            is_black: !matches!(self, Line::Dashes),
        }
    }

    /// Returns how the line is drawn, in the language of style sheets.
    pub fn style(self) -> &'static str
        ensures { result.now ≡ line_style (line_of self) }
    {
        match self {
            Line::Nothing => "none",
            Line::One => "thin solid",
            Line::Two => "3px double",
            Line::Dashes => "thin dashed",
        }
    }

    /// Returns the style of cells with the line at their left.
    pub(crate) fn at_left(self) -> &'static str
        ensures { result.now ≡ border_style (codes "left") (line_of self) }
    {
        match self {
            Line::Nothing => "",
            Line::One => "; border-left: thin solid",
            Line::Two => "; border-left: 3px double",
            Line::Dashes => "; border-left: thin dashed",
        }
    }

    /// Returns the style of cells with the line at their right, and the end of their start tag.
    pub(crate) fn at_right(self) -> &'static str
        ensures { result.now ≡ border_style (codes "right") (line_of self) ++ codes "\">" }
    {
        match self {
            Line::Nothing => "\">",
            Line::One => "; border-right: thin solid\">",
            Line::Two => "; border-right: 3px double\">",
            Line::Dashes => "; border-right: thin dashed\">",
        }
    }
}
