// What a line of a network declares, in words.
use crate::body;
use lines::{ConnectionKind, Record, TriggerKind};
use outline::Declared;
use std::fmt;

// The words of a record. Each function here hands on what it has no words for: one match that
// chose among them would leave an empty arm in each.
pub(crate) fn say<W: fmt::Write>(
    f: &mut fmt::Formatter<W>,
    declared: &Declared<'_>,
) -> fmt::Result {
    let before = &declared.before;
    match declared.record {
        Record::Reactor => write!(f, "reactor {}", before.reactors),
        Record::Input { reactor } => of_reactor(f, "input", before.inputs, reactor.value),
        Record::Output { reactor } => of_reactor(f, "output", before.outputs, reactor.value),
        Record::Timer {
            reactor,
            first,
            period,
        } => {
            of_reactor(f, "timer", before.timers, reactor.value)?;
            say_timing(f, first.value, period.value)
        }
        Record::Action {
            reactor,
            kind,
            delay,
        } => {
            of_reactor(f, "action", before.actions, reactor.value)?;
            write!(f, ": {}, least delay {}", kind.value, delay.value)
        }
        Record::Reaction { reactor, body } => {
            of_reactor(f, "reaction", before.reactions, reactor.value)?;
            write!(f, ": runs body {}", body.value)
        }
        _ => say_link(f, declared),
    }
}

fn of_reactor<W: fmt::Write>(
    f: &mut fmt::Formatter<W>,
    sort: &str,
    number: u64,
    reactor: u64,
) -> fmt::Result {
    write!(f, "{sort} {number} of reactor {reactor}")
}

fn say_timing<W: fmt::Write>(f: &mut fmt::Formatter<W>, first: u64, period: u64) -> fmt::Result {
    if period == 0 {
        write!(f, ": once at {first}")
    } else {
        write!(f, ": first at {first}, then every {period}")
    }
}

// What joins parts to each other, and where the network stops.
fn say_link<W: fmt::Write>(f: &mut fmt::Formatter<W>, declared: &Declared<'_>) -> fmt::Result {
    match declared.record {
        Record::Connection {
            output,
            input,
            kind,
            delay,
        } => {
            write!(f, "connection {}: ", declared.before.connections)?;
            write!(f, "output {} to input {}", output.value, input.value)?;
            say_delay(f, kind.value, delay.value)
        }
        Record::Trigger {
            reaction,
            kind,
            source,
        } => {
            write!(f, "reaction {} ", reaction.value)?;
            say_trigger(f, kind.value, source.value)
        }
        Record::Write { reaction, output } => {
            write!(
                f,
                "reaction {} may set output {}",
                reaction.value, output.value
            )
        }
        Record::Schedule { reaction, action } => {
            write!(
                f,
                "reaction {} may schedule action {}",
                reaction.value, action.value
            )
        }
        Record::Stop { time } => write!(f, "stop tag at ({}, 0)", time.value),
        _ => body::say(f, declared),
    }
}

fn say_delay<W: fmt::Write>(
    f: &mut fmt::Formatter<W>,
    kind: ConnectionKind,
    delay: u64,
) -> fmt::Result {
    match kind {
        ConnectionKind::Undelayed => write!(f, ", undelayed"),
        ConnectionKind::Delayed => write!(f, ", delayed by {delay}"),
    }
}

fn say_trigger<W: fmt::Write>(
    f: &mut fmt::Formatter<W>,
    kind: TriggerKind,
    source: u64,
) -> fmt::Result {
    match kind {
        TriggerKind::ReadInput => write!(f, "reads input {source}"),
        _ => write!(f, "is triggered by {kind} {source}"),
    }
}
