// What a network is made of.
use lines::{ActionKind, ConnectionKind, TriggerKind};
use std::fmt;

#[derive(Clone, Copy, Debug, PartialEq, Eq)]
pub struct Timer {
    pub reactor: usize,
    pub first: u64,
    // 0 where it fires once
    pub period: u64,
}

#[derive(Clone, Copy, Debug, PartialEq, Eq)]
pub struct Action {
    pub reactor: usize,
    pub kind: ActionKind,
    pub delay: u64,
}

#[derive(Clone, Copy, Debug, PartialEq, Eq)]
pub struct Connection {
    pub output: usize,
    pub input: usize,
    pub kind: ConnectionKind,
    pub delay: u64,
}

#[derive(Clone, Copy, Debug, PartialEq, Eq)]
pub struct Reaction {
    pub reactor: usize,
    pub body: u8,
}

// What triggers a reaction, or an input that it only reads.
#[derive(Clone, Copy, Debug, PartialEq, Eq)]
pub struct Trigger {
    pub reaction: usize,
    pub kind: TriggerKind,
    pub source: usize,
}

#[derive(Clone, Copy, Debug, PartialEq, Eq)]
pub enum TargetKind {
    Output,
    Action,
}

// Alike to the words of the kinds in `lines`, but each type lists its own.
impl fmt::Display for TargetKind {
    fn fmt<W: fmt::Write>(&self, f: &mut fmt::Formatter<W>) -> fmt::Result {
        f.write_str(match self {
            TargetKind::Output => "output",
            TargetKind::Action => "action",
        })
    }
}

// An output that a reaction may set, or an action that it may schedule.
#[derive(Clone, Copy, Debug, PartialEq, Eq)]
pub struct Target {
    pub reaction: usize,
    pub kind: TargetKind,
    pub number: usize,
}

// What a line declares.
#[derive(Clone, Copy, Debug, PartialEq, Eq)]
pub enum Declaration {
    Reactor,
    Input(usize),
    Output(usize),
    Timer(Timer),
    Action(Action),
    Connection(Connection),
    Reaction(Reaction),
    Trigger(Trigger),
    Target(Target),
    Stop(u64),
}
