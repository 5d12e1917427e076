// What a line says.

// A field: its part of the caller's line, the place where that begins, and what it says.
#[derive(Clone, Copy, Debug, PartialEq, Eq)]
pub struct Field<'a, T> {
    pub text: &'a [u8],
    pub place: usize,
    pub value: T,
}

#[derive(Clone, Copy, Debug, PartialEq, Eq)]
pub enum ActionKind {
    Logical,
    Physical,
}

#[derive(Clone, Copy, Debug, PartialEq, Eq)]
pub enum ConnectionKind {
    Undelayed,
    Delayed,
}

#[derive(Clone, Copy, Debug, PartialEq, Eq)]
pub enum TriggerKind {
    Input,
    Timer,
    Action,
    // reads an input without being triggered by it
    ReadInput,
}

#[derive(Clone, Copy, Debug, PartialEq, Eq)]
pub enum Opcode {
    End,
    Put,
    Add,
    Subtract,
    Read,
    Present,
    JumpIfZero,
    JumpIfLess,
    Set,
    Schedule,
}

#[derive(Clone, Copy, Debug, PartialEq, Eq)]
pub enum ReadingClass {
    Absent,
    AtMostZero,
    AboveZero,
}

#[derive(Clone, Copy, Debug, PartialEq, Eq)]
pub enum PickerKind {
    Level,
    Turn,
}

#[derive(Clone, Copy, Debug, PartialEq, Eq)]
pub enum QueueKind {
    Heap,
    List,
}

#[derive(Clone, Copy, Debug, PartialEq, Eq)]
pub enum Record<'a> {
    Reactor,
    Input {
        reactor: Field<'a, u64>,
    },
    Output {
        reactor: Field<'a, u64>,
    },
    Timer {
        reactor: Field<'a, u64>,
        first: Field<'a, u64>,
        period: Field<'a, u64>,
    },
    Action {
        reactor: Field<'a, u64>,
        kind: Field<'a, ActionKind>,
        delay: Field<'a, u64>,
    },
    Connection {
        output: Field<'a, u64>,
        input: Field<'a, u64>,
        kind: Field<'a, ConnectionKind>,
        delay: Field<'a, u64>,
    },
    Reaction {
        reactor: Field<'a, u64>,
        body: Field<'a, u64>,
    },
    Trigger {
        reaction: Field<'a, u64>,
        kind: Field<'a, TriggerKind>,
        source: Field<'a, u64>,
    },
    Write {
        reaction: Field<'a, u64>,
        output: Field<'a, u64>,
    },
    Schedule {
        reaction: Field<'a, u64>,
        action: Field<'a, u64>,
    },
    Stop {
        time: Field<'a, u64>,
    },
    Bytecode,
    Instruction {
        opcode: Field<'a, Opcode>,
        first: Field<'a, u64>,
        second: Field<'a, u64>,
        operand: Field<'a, i32>,
    },
    Table,
    Row {
        state: Field<'a, i32>,
        class: Field<'a, ReadingClass>,
        next: Field<'a, i32>,
        target: Field<'a, u64>,
        value: Field<'a, i32>,
    },
    Start {
        capacity: Field<'a, u64>,
        picker: Field<'a, PickerKind>,
        queue: Field<'a, QueueKind>,
    },
    Offer {
        action: Field<'a, u64>,
        arrival: Field<'a, u64>,
        value: Field<'a, i32>,
    },
    Advance {
        reading: Field<'a, u64>,
        tags: Field<'a, u64>,
    },
}
