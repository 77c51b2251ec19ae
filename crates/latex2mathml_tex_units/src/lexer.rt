//! The units of a text, taken one at a time.
ghost use Rattle.std.specs.Prelude.{◌≡◌, ◌+◌, ◌<◌, ◌^◌, IfSome, length};
ghost use Rattle.std.specs.Str.{chars};
ghost use Rattle.latex2mathml_tex_grammar.specs.{Cutting.units_of, Units.End};
ghost use Rattle.latex2mathml_tex_units.specs.Taking.{Takes};

pub mod characters;
pub(crate) mod slices;

use crate::lexer::slices::{Start, front};
use crate::unit::{Next, Unit};

/// The rest of a text.
#[derive(Clone, Copy)]
pub(crate) struct Lexer<'a> {
    pub(crate) rest: &'a str,
    pub(crate) place: usize,
    ghost in_text: { place + length rest.now < 2 ^ 64 },
}

impl<'a> Lexer<'a> {
    ghost use Rattle.latex2mathml_tex_units.specs.Left.{units_left};

    /// Creates a lexer of a whole text.
    pub(crate) fn new(text: &'a str) -> Lexer<'a>
        ensures { units_left result ≡ units_of 0 (chars text.now) }
    {
        Lexer {
            rest: text,
            place: 0,
        }
    }

    /// Takes the next unit, if there is one.
    pub(crate) fn take(&mut self) -> Next<'a>
        ensures { Takes result (units_left self.old) (units_left self.new) }
    {
        let (next, rest, place) = take_from(self.rest, self.place);
        self.rest = rest;
        self.place = place;
        next
    }

    /// Returns the place of the end of the text, if nothing is left.
    #[inline(always)]
    pub(crate) fn end(&self) -> Option<usize>
        ensures { IfSome result (λ place. units_left self.now ≡ End place) }
    {
        if self.rest.is_empty() {
            Some(self.place)
        } else {
            None
        }
    }
}

/// Takes the unit at the start of a text that begins at this place. Returns it, the rest of the text, and the rest's place.
fn take_from<'a>(text: &'a str, start: usize) -> (Next<'a>, &'a str, usize)
    requires { start + length text.now < 2 ^ 64 }
    ensures takes { Takes result.0 (units_of start (chars text.now))
        (units_of result.2 (chars result.1.now)) }
    ensures end { result.2 + length result.1.now ≡ start + length text.now }
{
    let mut text = text;
    let mut place = start;
    'text: loop {
        match front(text) {
            Start::Empty => return (Next::End(place), text, place),
            Start::Piece(piece, rest) => {
                let behind = place + (text.len() - rest.len());
                return (Next::Unit(Unit { piece, place }), rest, behind);
            }
            Start::Comment(rest) => {
                place += text.len() - rest.len();
                text = rest;
            }
            Start::Fault(fault, bytes) => return (Next::Fault(fault, place + bytes), text, place),
        }
    }
}
