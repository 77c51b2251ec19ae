//! The columns that a list can have.
ghost use Rattle.std.specs.Prelude.{◌≡◌, ◌<◌};
ghost use Rattle.latex2mathml_attributes.specs.Columns.{alignment_of, listed_of, numbered};
ghost use Rattle.latex2mathml_attributes.specs.Lines.{line_of};

use crate::columns::Alignment;
use crate::line::Line;

/// How the cells of a listed column are aligned, and what is drawn after it.
#[derive(Debug, Clone, Copy)]
pub enum ListedColumn {
    Centered,
    CenteredBeforeLine,
    CenteredBeforeTwoLines,
    CenteredBeforeDashes,
    LeftAligned,
    LeftAlignedBeforeLine,
    LeftAlignedBeforeTwoLines,
    LeftAlignedBeforeDashes,
    RightAligned,
    RightAlignedBeforeLine,
    RightAlignedBeforeTwoLines,
    RightAlignedBeforeDashes,
}

impl ListedColumn {
    /// Returns its number.
    pub(crate) fn number(self) -> u8
        ensures column { numbered result ≡ listed_of self }
        ensures half { result < 16 }
    {
        match self {
            ListedColumn::Centered => 0,
            ListedColumn::CenteredBeforeLine => 1,
            ListedColumn::CenteredBeforeTwoLines => 2,
            ListedColumn::CenteredBeforeDashes => 3,
            ListedColumn::LeftAligned => 4,
            ListedColumn::LeftAlignedBeforeLine => 5,
            ListedColumn::LeftAlignedBeforeTwoLines => 6,
            ListedColumn::LeftAlignedBeforeDashes => 7,
            ListedColumn::RightAligned => 8,
            ListedColumn::RightAlignedBeforeLine => 9,
            ListedColumn::RightAlignedBeforeTwoLines => 10,
            ListedColumn::RightAlignedBeforeDashes => 11,
        }
    }

    /// Returns the column of this number.
    pub(crate) fn numbered(number: u8) -> ListedColumn
        ensures { listed_of result ≡ numbered number }
    {
        match number {
            1 => ListedColumn::CenteredBeforeLine,
            2 => ListedColumn::CenteredBeforeTwoLines,
            3 => ListedColumn::CenteredBeforeDashes,
            4 => ListedColumn::LeftAligned,
            5 => ListedColumn::LeftAlignedBeforeLine,
            6 => ListedColumn::LeftAlignedBeforeTwoLines,
            7 => ListedColumn::LeftAlignedBeforeDashes,
            8 => ListedColumn::RightAligned,
            9 => ListedColumn::RightAlignedBeforeLine,
            10 => ListedColumn::RightAlignedBeforeTwoLines,
            11 => ListedColumn::RightAlignedBeforeDashes,
            _ => ListedColumn::Centered,
        }
    }

    /// Returns what is drawn after the column.
    pub(crate) fn line(self) -> Line
        ensures { line_of result ≡ (listed_of self).after }
    {
        match self {
            ListedColumn::Centered | ListedColumn::LeftAligned | ListedColumn::RightAligned => {
                Line::Nothing
            }
            ListedColumn::CenteredBeforeLine
            | ListedColumn::LeftAlignedBeforeLine
            | ListedColumn::RightAlignedBeforeLine => Line::One,
            ListedColumn::CenteredBeforeTwoLines
            | ListedColumn::LeftAlignedBeforeTwoLines
            | ListedColumn::RightAlignedBeforeTwoLines => Line::Two,
            ListedColumn::CenteredBeforeDashes
            | ListedColumn::LeftAlignedBeforeDashes
            | ListedColumn::RightAlignedBeforeDashes => Line::Dashes,
        }
    }

    /// Returns how its cells are aligned.
    pub(crate) fn alignment(self) -> Alignment
        ensures { alignment_of result ≡ (listed_of self).alignment }
    {
        match self {
            ListedColumn::Centered
            | ListedColumn::CenteredBeforeLine
            | ListedColumn::CenteredBeforeTwoLines
            | ListedColumn::CenteredBeforeDashes => Alignment::Centered,
            ListedColumn::LeftAligned
            | ListedColumn::LeftAlignedBeforeLine
            | ListedColumn::LeftAlignedBeforeTwoLines
            | ListedColumn::LeftAlignedBeforeDashes => Alignment::LeftAligned,
            ListedColumn::RightAligned
            | ListedColumn::RightAlignedBeforeLine
            | ListedColumn::RightAlignedBeforeTwoLines
            | ListedColumn::RightAlignedBeforeDashes => Alignment::RightAligned,
        }
    }
}
