// The words that stand for kinds, each type's own.
use crate::records::{ActionKind, PickerKind, QueueKind, ReadingClass, TriggerKind};
use std::fmt;

impl fmt::Display for ActionKind {
    fn fmt<W: fmt::Write>(&self, f: &mut fmt::Formatter<W>) -> fmt::Result {
        f.write_str(match self {
            ActionKind::Logical => "logical",
            ActionKind::Physical => "physical",
        })
    }
}

impl fmt::Display for TriggerKind {
    fn fmt<W: fmt::Write>(&self, f: &mut fmt::Formatter<W>) -> fmt::Result {
        f.write_str(match self {
            TriggerKind::Input => "input",
            TriggerKind::Timer => "timer",
            TriggerKind::Action => "action",
            TriggerKind::ReadInput => "read",
        })
    }
}

impl fmt::Display for ReadingClass {
    fn fmt<W: fmt::Write>(&self, f: &mut fmt::Formatter<W>) -> fmt::Result {
        f.write_str(match self {
            ReadingClass::Absent => "absent",
            ReadingClass::AtMostZero => "at most 0",
            ReadingClass::AboveZero => "above 0",
        })
    }
}

impl fmt::Display for PickerKind {
    fn fmt<W: fmt::Write>(&self, f: &mut fmt::Formatter<W>) -> fmt::Result {
        f.write_str(match self {
            PickerKind::Level => "level",
            PickerKind::Turn => "turn",
        })
    }
}

impl fmt::Display for QueueKind {
    fn fmt<W: fmt::Write>(&self, f: &mut fmt::Formatter<W>) -> fmt::Result {
        f.write_str(match self {
            QueueKind::Heap => "heap",
            QueueKind::List => "list",
        })
    }
}
