// Numbers in a line, read from the front of a slice.
ghost use Rattle.std.specs.Prelude.{◌≡◌, ◌↔◌, pos, IsTrue, MatchOption};
ghost use Rattle.std.specs.Str.Parse.{AllDigits, digits_value};
ghost use Rattle.lines.specs.Numbers.{NumberText};
ghost use Rattle.lines.specs.Steps.{Run, NumberAt, NoNatural, NoInteger};

const MOST_DIGITS: usize = 19;

// How many digits stand at the front.
fn digits_in_front(text: &[u8]) -> usize
    ensures { Run text.now result }
{
    text.iter()
        .position(|byte| !byte.is_ascii_digit())
        .unwrap_or(text.len())
}

// Whether digits are the text of a number: 1 to 19, the first of several no zero.
fn is_number(digits: &[u8]) -> bool
    requires { AllDigits 10 digits.now }
    ensures { IsTrue result ↔ NumberText digits.now }
{
    (1..=MOST_DIGITS).contains(&digits.len()) && (digits.len() == 1 || digits[0] != b'0')
}

// The number that some digits write; in a `fold` the sum has no bound that is proved, and `parse` wants a text first.
#[tactic(auto, using(crate::proofs::Digits::step))]
fn number_of(digits: &[u8]) -> u64
    requires { NumberText digits.now }
    ensures { result ≡ digits_value 10 digits.now }
{
    let mut n: u64 = 0;
    for d in digits {
        n = n * 10 + u64::from(*d - b'0');
    }
    n
}

// A number, and how many bytes it takes.
#[derive(Clone, Copy)]
pub(crate) struct Numeral<T> {
    pub(crate) value: T,
    pub(crate) len: usize,
}

// The number in front, which ends where the digits end.
#[tactic(auto, using(crate::proofs::Digits::natural_none))]
fn natural_in_front(text: &[u8]) -> Option<Numeral<u64>>
    ensures { MatchOption result (NoNatural text.now) (λ n. NumberAt text.now (pos n.value) n.len) }
{
    let digits = &text[..digits_in_front(text)];
    if !is_number(digits) {
        return None;
    }
    Some(Numeral {
        value: number_of(digits),
        len: digits.len(),
    })
}

// The number in front with its sign; there is no `-0`.
#[inline(always)]
pub(crate) fn integer_in_front(text: &[u8]) -> Option<Numeral<i128>>
    ensures { MatchOption result (NoInteger text.now) (λ n. NumberAt text.now n.value n.len) }
{
    match text {
        [b'-', rest @ ..] => {
            let Numeral { value, len } = natural_in_front(rest)?;
            if value == 0 {
                return None;
            }
            Some(Numeral {
                value: -i128::from(value),
                len: len + 1,
            })
        }
        _ => natural_in_front(text).map(|Numeral { value, len }| Numeral {
            value: i128::from(value),
            len,
        }),
    }
}
