// Why a line is refused.
ghost use Rattle.std.specs.Prelude.{◌≡◌};
ghost use Rattle.refusals.specs.Refusals.{refusal_number};

use thiserror::Error;

#[derive(Clone, Copy, Debug, PartialEq, Eq, Error)]
pub enum Refusal {
    // the first two bytes are no mark that may come here
    #[error("no mark that may come here")]
    UnknownMark = 1,
    #[error("malformed, or an instruction or row before its body")]
    Malformed = 2,
    #[error("a field is outside its range")]
    OutOfRange = 3,
    #[error("it names something that is not declared")]
    Undeclared = 4,
    // it names what belongs to another reactor, or schedules a physical action
    #[error("it names another reactor's thing, or schedules a physical action")]
    Foreign = 5,
    // an input joined already, the same again, or a second stop tag
    #[error("joined or declared already")]
    Repeated = 6,
    #[error("the table is full")]
    Full = 7,
    #[error("some reaction precedes itself")]
    Circle = 8,
}

impl Refusal {
    pub fn number(self) -> u8
        ensures { result ≡ refusal_number self }
    {
        self as u8
    }
}
