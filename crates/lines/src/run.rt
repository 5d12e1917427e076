#![tactic(auto, using(crate::proofs::Readings::refused, crate::proofs::Readings::recorded))]

// The start of the run, and what comes after it, a function for each mark as in `declarations`.
ghost use Rattle.lines.specs.Steps.{Front, ReadAs};
ghost use Rattle.lines.specs.declared.mark.Mark.TheVariants.{Start, Offer, Advance};

use crate::build::{kind_at, number_at, value_at};
use crate::fields::fields;
use crate::kind::Kind;
use crate::records::Record;
use refusals::Refusal;

pub(crate) fn start(line: &[u8]) -> Result<Record<'_>, Refusal>
    requires { Front line.now Start }
    ensures { ReadAs Start line.now result }
{
    let [capacity, picker, queue] = fields(line, &[Kind::Number, Kind::UpTo(1), Kind::UpTo(1)])?;
    Ok(Record::Start {
        capacity: number_at(line, capacity),
        picker: kind_at(line, picker),
        queue: kind_at(line, queue),
    })
}

pub(crate) fn offer(line: &[u8]) -> Result<Record<'_>, Refusal>
    requires { Front line.now Offer }
    ensures { ReadAs Offer line.now result }
{
    let [action, arrival, value] = fields(line, &[Kind::Number, Kind::Time, Kind::Value])?;
    Ok(Record::Offer {
        action: number_at(line, action),
        arrival: number_at(line, arrival),
        value: value_at(line, value),
    })
}

pub(crate) fn advance(line: &[u8]) -> Result<Record<'_>, Refusal>
    requires { Front line.now Advance }
    ensures { ReadAs Advance line.now result }
{
    let [reading, tags] = fields(line, &[Kind::Time, Kind::UpTo(1000)])?;
    Ok(Record::Advance {
        reading: number_at(line, reading),
        tags: number_at(line, tags),
    })
}
