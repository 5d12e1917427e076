// What stands in a field.
ghost use Rattle.std.specs.Prelude.{◌≡◌, ◌↔◌, IsTrue};
ghost use Rattle.lines.specs.Fields.{Within, minus};

const LAST_TIME: i128 = 1_000_000_000_000_000_000;

#[derive(Clone, Copy)]
pub(crate) enum Kind {
    // names a thing or counts: any number
    Number,
    // a time, a delay or a period
    Time,
    // signed, 32 bits
    Value,
    // at most this
    UpTo(u64),
}

impl Kind {
    pub(crate) fn may_be_negative(self) -> bool
        ensures { result ≡ minus self }
    {
        matches!(self, Kind::Value)
    }

    // Whether a number lies in the range of the kind.
    pub(crate) fn takes(self, number: i128) -> bool
        ensures { IsTrue result ↔ Within self number }
    {
        match self {
            Kind::Number => number >= 0,
            Kind::Time => (0..=LAST_TIME).contains(&number),
            Kind::Value => (i128::from(i32::MIN)..=i128::from(i32::MAX)).contains(&number),
            Kind::UpTo(most) => (0..=i128::from(most)).contains(&number),
        }
    }
}
