// How far a line is read, and the fields that it reads.
ghost use Rattle.std.specs.Prelude.{◌≡◌, ◌≤◌, length, MatchOption};

use crate::kind::Kind;
use crate::number::{Numeral, integer_in_front};

// Where a field stands in its line, and the number that it writes. It holds no part of the line:
// an array of N structs that hold references gets no generated proof.
#[derive(Clone, Copy)]
pub(crate) struct Token {
    pub(crate) place: usize,
    pub(crate) len: usize,
    pub(crate) number: i128,
}

#[derive(Clone, Copy)]
pub(crate) struct Cursor<'a> {
    pub(crate) line: &'a [u8],
    // where what is left of the line begins
    pub(crate) place: usize,
    ghost within: { place ≤ length line.now },
}

impl<'a> Cursor<'a> {
    ghost use Rattle.lines.specs.Steps.{Takes, NoField, left};

    pub(crate) fn rest(&self) -> &'a [u8]
        ensures { result.now ≡ left self.now }
    {
        &self.line[self.place..]
    }

    // The field in front of what is left, after one space. Inlined, as is `integer_in_front`: with a call for each field
    // a line of short ones takes a third longer.
    #[inline(always)]
    pub(crate) fn next(&mut self, kind: Kind) -> Option<Token>
        ensures { MatchOption result (NoField (left self.old) kind) (λ t. Takes self.old kind t self.new) }
    {
        let [b' ', text @ ..] = self.rest() else {
            return None;
        };
        let Numeral { value, len } = integer_in_front(text)?;
        if value < 0 && !kind.may_be_negative() {
            return None;
        }
        let place = self.place + 1;
        self.place = place + len;
        Some(Token {
            place,
            len,
            number: value,
        })
    }
}
