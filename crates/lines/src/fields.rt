// The fields of a line: each after one space, then a line feed.
ghost use Rattle.std.specs.Prelude.{◌≡◌, ◌≤◌, length, drop, MatchOption, MatchResult, IsTrue, ◌↔◌};
ghost use Rattle.lines.specs.Fields.{Within, Each};
ghost use Rattle.lines.specs.Steps.{Row, NoRow, InRanges, NotInRanges, listed, numbers};

use crate::cursor::{Cursor, Token};
use crate::kind::Kind;
use refusals::Refusal;

// How many letters a mark has.
const LETTERS: usize = 2;

// The fields of these kinds after a line's mark, where nothing else follows.
fn tokens<const N: usize>(line: &[u8], kinds: &[Kind; N]) -> Option<[Token; N]>
    requires { 2 ≤ length line.now }
    ensures { MatchOption result (NoRow (drop 2 line.now) kinds.now) (Row line.now 2 kinds.now) }
{
    let mut cursor = Cursor {
        line,
        place: LETTERS,
    };
    // `array::try_from_fn` does not promise what was made before its error, so a loop fills the array.
    let none = Token {
        place: 0,
        len: 0,
        number: 0,
    };
    let mut found = [none; N];
    for (i, kind) in kinds.iter().enumerate() {
        found[i] = cursor.next(*kind)?;
    }
    (cursor.rest() == b"\n".as_slice()).then_some(found)
}

fn all_within(kinds: &[Kind], tokens: &[Token]) -> bool
    requires { length kinds.now ≡ length tokens.now }
    ensures { IsTrue result ↔ Each Within kinds.now (numbers tokens.now) }
{
    kinds
        .iter()
        .zip(tokens)
        .all(|(kind, token)| kind.takes(token.number))
}

// The same, with their numbers in range.
pub(crate) fn fields<const N: usize>(line: &[u8], kinds: &[Kind; N]) -> Result<[Token; N], Refusal>
    requires { 2 ≤ length line.now }
    ensures { MatchResult result (λ ts. InRanges line.now kinds.now (listed N ts)) (NotInRanges line.now kinds.now) }
{
    let Some(tokens) = tokens(line, kinds) else {
        return Err(Refusal::Malformed);
    };
    if !all_within(kinds, &tokens) {
        return Err(Refusal::OutOfRange);
    }
    Ok(tokens)
}
