#![tactic(auto, using(crate::proofs::Readings::refused, crate::proofs::Readings::recorded))]

// The lines that declare a network. Each mark names its own fields and their kinds: one function that took these and a
// closure that made the record would say no less, and less plainly.
ghost use Rattle.std.specs.Prelude.{◌↔◌, pos, IsTrue};
ghost use Rattle.lines.specs.Fields.{Undelayed};
ghost use Rattle.lines.specs.Records.{connection_code};
ghost use Rattle.lines.specs.Steps.{Front, ReadAs};
ghost use Rattle.lines.specs.declared.mark.Mark.TheVariants.{Reactor, Input, Output, Timer, Action, Connection, Reaction, Trigger, Write, Schedule, Stop};

use crate::build::{kind_at, number_at};
use crate::fields::fields;
use crate::kind::Kind;
use crate::records::{ConnectionKind, Record};
use refusals::Refusal;

pub(crate) fn reactor(line: &[u8]) -> Result<Record<'_>, Refusal>
    requires { Front line.now Reactor }
    ensures { ReadAs Reactor line.now result }
{
    let [] = fields(line, &[])?;
    Ok(Record::Reactor)
}

pub(crate) fn input(line: &[u8]) -> Result<Record<'_>, Refusal>
    requires { Front line.now Input }
    ensures { ReadAs Input line.now result }
{
    let [reactor] = fields(line, &[Kind::Number])?;
    Ok(Record::Input {
        reactor: number_at(line, reactor),
    })
}

pub(crate) fn output(line: &[u8]) -> Result<Record<'_>, Refusal>
    requires { Front line.now Output }
    ensures { ReadAs Output line.now result }
{
    let [reactor] = fields(line, &[Kind::Number])?;
    Ok(Record::Output {
        reactor: number_at(line, reactor),
    })
}

pub(crate) fn timer(line: &[u8]) -> Result<Record<'_>, Refusal>
    requires { Front line.now Timer }
    ensures { ReadAs Timer line.now result }
{
    let [reactor, first, period] = fields(line, &[Kind::Number, Kind::Time, Kind::Time])?;
    Ok(Record::Timer {
        reactor: number_at(line, reactor),
        first: number_at(line, first),
        period: number_at(line, period),
    })
}

pub(crate) fn action(line: &[u8]) -> Result<Record<'_>, Refusal>
    requires { Front line.now Action }
    ensures { ReadAs Action line.now result }
{
    let [reactor, kind, delay] = fields(line, &[Kind::Number, Kind::UpTo(1), Kind::Time])?;
    Ok(Record::Action {
        reactor: number_at(line, reactor),
        kind: kind_at(line, kind),
        delay: number_at(line, delay),
    })
}

// An undelayed connection has no delay.
fn delay_fits(kind: ConnectionKind, delay: u64) -> bool
    ensures { IsTrue result ↔ Undelayed (pos (connection_code kind)) (pos delay) }
{
    kind == ConnectionKind::Delayed || delay == 0
}

pub(crate) fn connection(line: &[u8]) -> Result<Record<'_>, Refusal>
    requires { Front line.now Connection }
    ensures { ReadAs Connection line.now result }
{
    let [output, input, kind, delay] = fields(
        line,
        &[Kind::Number, Kind::Number, Kind::UpTo(1), Kind::Time],
    )?;
    let kind = kind_at(line, kind);
    let delay = number_at(line, delay);
    if !delay_fits(kind.value, delay.value) {
        return Err(Refusal::OutOfRange);
    }
    Ok(Record::Connection {
        output: number_at(line, output),
        input: number_at(line, input),
        kind,
        delay,
    })
}

pub(crate) fn reaction(line: &[u8]) -> Result<Record<'_>, Refusal>
    requires { Front line.now Reaction }
    ensures { ReadAs Reaction line.now result }
{
    let [reactor, body] = fields(line, &[Kind::Number, Kind::UpTo(255)])?;
    Ok(Record::Reaction {
        reactor: number_at(line, reactor),
        body: number_at(line, body),
    })
}

pub(crate) fn trigger(line: &[u8]) -> Result<Record<'_>, Refusal>
    requires { Front line.now Trigger }
    ensures { ReadAs Trigger line.now result }
{
    let [reaction, kind, source] = fields(line, &[Kind::Number, Kind::UpTo(3), Kind::Number])?;
    Ok(Record::Trigger {
        reaction: number_at(line, reaction),
        kind: kind_at(line, kind),
        source: number_at(line, source),
    })
}

pub(crate) fn write(line: &[u8]) -> Result<Record<'_>, Refusal>
    requires { Front line.now Write }
    ensures { ReadAs Write line.now result }
{
    let [reaction, output] = fields(line, &[Kind::Number, Kind::Number])?;
    Ok(Record::Write {
        reaction: number_at(line, reaction),
        output: number_at(line, output),
    })
}

pub(crate) fn schedule(line: &[u8]) -> Result<Record<'_>, Refusal>
    requires { Front line.now Schedule }
    ensures { ReadAs Schedule line.now result }
{
    let [reaction, action] = fields(line, &[Kind::Number, Kind::Number])?;
    Ok(Record::Schedule {
        reaction: number_at(line, reaction),
        action: number_at(line, action),
    })
}

pub(crate) fn stop(line: &[u8]) -> Result<Record<'_>, Refusal>
    requires { Front line.now Stop }
    ensures { ReadAs Stop line.now result }
{
    let [time] = fields(line, &[Kind::Time])?;
    Ok(Record::Stop {
        time: number_at(line, time),
    })
}
