// Fields of a record from tokens. Numbers and values are functions of their own: one over both types would take what
// their conversion gives as a premise. Each requires that the token lies in the line, of which a token holds no part: an
// array of N structs with references gets no generated proof.
ghost use Rattle.std.specs.Prelude.{◌≡◌, take, drop, pos, ◌≤ℤ◌, Result, IsOk, unsigned_abs};
ghost use Rattle.lines.specs.Fields.{Within};
ghost use Rattle.lines.specs.Records.{counted, valued};
ghost use Rattle.lines.specs.Steps.{Inside, entry, DecodedAt};
ghost use Rattle.lines.specs.declared.kind.Kind.TheVariants.{Value};
ghost use Rattle.refusals.specs.declared.refusal.Refusal.{Refusal as AnyRefusal};

use crate::cursor::Token;
use crate::records::Field;
use refusals::Refusal;

// A field of the line at a token.
fn field_at<'a, T>(line: &'a [u8], token: Token, value: T) -> Field<'a, T>
    requires { Inside line.now token }
    ensures text { result.text.now ≡ take token.len (drop token.place line.now) }
    ensures place { result.place ≡ token.place }
    ensures value { result.value ≡ value }
{
    let end = token.place + token.len;
    Field {
        text: &line[token.place..end],
        place: token.place,
        value,
    }
}

pub(crate) fn number_at<'a>(line: &'a [u8], token: Token) -> Field<'a, u64>
    requires inside { Inside line.now token }
    requires not_negative { pos 0 ≤ℤ token.number }
    ensures { counted result ≡ entry line.now token }
{
    field_at(line, token, token.number as u64)
}

pub(crate) fn value_at<'a>(line: &'a [u8], token: Token) -> Field<'a, i32>
    requires inside { Inside line.now token }
    requires range { Within Value token.number }
    ensures { valued result ≡ entry line.now token }
{
    field_at(line, token, token.number as i32)
}

// A field whose number stands for a kind.
pub(crate) fn kind_at<'a, K: TryFrom<u64, Error = Refusal>>(
    line: &'a [u8],
    token: Token,
) -> Field<'a, K>
    requires inside { Inside line.now token }
    requires not_negative { pos 0 ≤ℤ token.number }
    requires known { (r : Result K AnyRefusal) → K.try_from_gives (unsigned_abs token.number) r → IsOk r }
    ensures { DecodedAt K.try_from_gives line.now token result }
{
    let kind = K::try_from(token.number as u64).unwrap();
    field_at(line, token, kind)
}
