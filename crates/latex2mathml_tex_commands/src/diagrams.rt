//! The arrows of diagrams, as in `CD`.
ghost use Rattle.std.specs.Prelude.{◌≡◌, MatchOption, None, Some};
ghost use Rattle.latex2mathml_tex_grammar.specs.Diagrams;
ghost use Rattle.latex2mathml_tex_grammar.specs.Units.{Character};
ghost use Rattle.latex2mathml_tex_commands.specs.Diagrams.{arrow_sign, diagram_arrow, direction_of};

/// Where an arrow with labels points.
#[derive(Debug, Clone, Copy)]
pub enum Direction {
    Rightwards,
    Leftwards,
    Upwards,
    Downwards,
}

/// What an at sign begins.
#[derive(Debug, Clone, Copy)]
pub enum DiagramArrow {
    Labeled(Direction),
    /// An equals sign as long as an arrow.
    LongEquals,
    /// Two bars as high as an arrow.
    HighBars,
    /// An empty place.
    Nothing,
}

impl Direction {
    /// Returns the sign that comes after the at sign, and again after each label.
    pub fn sign(self) -> char
        ensures { result ≡ Diagrams.direction_sign (direction_of self) }
    {
        match self {
            Direction::Rightwards => '>',
            Direction::Leftwards => '<',
            Direction::Upwards => 'A',
            Direction::Downwards => 'V',
        }
    }
}

impl DiagramArrow {
    /// Returns the arrow with this sign, if there is one.
    pub fn with_sign(sign: char) -> Option<DiagramArrow>
        ensures { MatchOption result
            (Diagrams.sign_of_arrow (Character sign) ≡ None)
            (λ arrow. (Diagrams.sign_of_arrow (Character sign) ≡ Some (arrow_sign arrow))) }
    {
        match sign {
            '>' => Some(DiagramArrow::Labeled(Direction::Rightwards)),
            '<' => Some(DiagramArrow::Labeled(Direction::Leftwards)),
            'A' => Some(DiagramArrow::Labeled(Direction::Upwards)),
            'V' => Some(DiagramArrow::Labeled(Direction::Downwards)),
            '=' => Some(DiagramArrow::LongEquals),
            '|' => Some(DiagramArrow::HighBars),
            '.' => Some(DiagramArrow::Nothing),
            _ => None,
        }
    }

    /// Whether it goes up or down.
    pub fn is_upright(self) -> bool
        ensures { result ≡ Diagrams.is_upright (diagram_arrow self) }
    {
        match self {
            DiagramArrow::Labeled(Direction::Upwards | Direction::Downwards)
            | DiagramArrow::HighBars => true,
            DiagramArrow::Labeled(Direction::Rightwards | Direction::Leftwards)
            | DiagramArrow::LongEquals
            | DiagramArrow::Nothing => false,
        }
    }
}
