// What a record declares.
ghost use Rattle.std.specs.Prelude.{◌≡◌};
ghost use Rattle.network.specs.Saying.{declares};

use crate::parts::{Action, Connection, Declaration, Reaction, Target, TargetKind, Timer, Trigger};
use lines::Record;

impl Declaration {
    // None of a line of a body or of a run. `TryFrom` would need an error that says no more.
    pub(crate) fn from_record(said: Record<'_>) -> Option<Declaration>
        ensures { result ≡ declares said.entry }
    {
        Some(match said {
            Record::Reactor => Declaration::Reactor,
            Record::Input { reactor } => Declaration::Input(reactor.value as usize),
            Record::Output { reactor } => Declaration::Output(reactor.value as usize),
            Record::Timer {
                reactor,
                first,
                period,
            } => Declaration::Timer(Timer {
                reactor: reactor.value as usize,
                first: first.value,
                period: period.value,
            }),
            Record::Action {
                reactor,
                kind,
                delay,
            } => Declaration::Action(Action {
                reactor: reactor.value as usize,
                kind: kind.value,
                delay: delay.value,
            }),
            Record::Connection {
                output,
                input,
                kind,
                delay,
            } => Declaration::Connection(Connection {
                output: output.value as usize,
                input: input.value as usize,
                kind: kind.value,
                delay: delay.value,
            }),
            Record::Reaction { reactor, body } => Declaration::Reaction(Reaction {
                reactor: reactor.value as usize,
                body: u8::try_from(body.value).ok()?,
            }),
            Record::Trigger {
                reaction,
                kind,
                source,
            } => Declaration::Trigger(Trigger {
                reaction: reaction.value as usize,
                kind: kind.value,
                source: source.value as usize,
            }),
            Record::Write { reaction, output } => Declaration::Target(Target {
                reaction: reaction.value as usize,
                kind: TargetKind::Output,
                number: output.value as usize,
            }),
            Record::Schedule { reaction, action } => Declaration::Target(Target {
                reaction: reaction.value as usize,
                kind: TargetKind::Action,
                number: action.value as usize,
            }),
            Record::Stop { time } => Declaration::Stop(time.value),
            Record::Bytecode | Record::Instruction { .. } => return None,
            Record::Table | Record::Row { .. } => return None,
            Record::Start { .. } | Record::Offer { .. } | Record::Advance { .. } => return None,
        })
    }
}
