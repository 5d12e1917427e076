// The kinds that numbers stand for; a number that stands for none is out of range. Each type lists its own kinds.
ghost use Rattle.lines.specs.Records.{Decodes, action_code, connection_code, trigger_code, opcode_number, class_code, picker_code, queue_code};

use crate::records::{
    ActionKind, ConnectionKind, Opcode, PickerKind, QueueKind, ReadingClass, TriggerKind,
};
use refusals::Refusal;

impl TryFrom<u64> for ActionKind {
    type Error = Refusal;

    ghost try_from_gives = { Decodes action_code };

    fn try_from(code: u64) -> Result<Self, Refusal> {
        match code {
            0 => Ok(ActionKind::Logical),
            1 => Ok(ActionKind::Physical),
            _ => Err(Refusal::OutOfRange),
        }
    }
}

impl TryFrom<u64> for ConnectionKind {
    type Error = Refusal;

    ghost try_from_gives = { Decodes connection_code };

    fn try_from(code: u64) -> Result<Self, Refusal> {
        match code {
            0 => Ok(ConnectionKind::Undelayed),
            1 => Ok(ConnectionKind::Delayed),
            _ => Err(Refusal::OutOfRange),
        }
    }
}

impl TryFrom<u64> for TriggerKind {
    type Error = Refusal;

    ghost try_from_gives = { Decodes trigger_code };

    fn try_from(code: u64) -> Result<Self, Refusal> {
        match code {
            0 => Ok(TriggerKind::Input),
            1 => Ok(TriggerKind::Timer),
            2 => Ok(TriggerKind::Action),
            3 => Ok(TriggerKind::ReadInput),
            _ => Err(Refusal::OutOfRange),
        }
    }
}

impl TryFrom<u64> for Opcode {
    type Error = Refusal;

    ghost try_from_gives = { Decodes opcode_number };

    fn try_from(code: u64) -> Result<Self, Refusal> {
        match code {
            0 => Ok(Opcode::End),
            1 => Ok(Opcode::Put),
            2 => Ok(Opcode::Add),
            3 => Ok(Opcode::Subtract),
            4 => Ok(Opcode::Read),
            5 => Ok(Opcode::Present),
            6 => Ok(Opcode::JumpIfZero),
            7 => Ok(Opcode::JumpIfLess),
            8 => Ok(Opcode::Set),
            9 => Ok(Opcode::Schedule),
            _ => Err(Refusal::OutOfRange),
        }
    }
}

impl TryFrom<u64> for ReadingClass {
    type Error = Refusal;

    ghost try_from_gives = { Decodes class_code };

    fn try_from(code: u64) -> Result<Self, Refusal> {
        match code {
            0 => Ok(ReadingClass::Absent),
            1 => Ok(ReadingClass::AtMostZero),
            2 => Ok(ReadingClass::AboveZero),
            _ => Err(Refusal::OutOfRange),
        }
    }
}

impl TryFrom<u64> for PickerKind {
    type Error = Refusal;

    ghost try_from_gives = { Decodes picker_code };

    fn try_from(code: u64) -> Result<Self, Refusal> {
        match code {
            0 => Ok(PickerKind::Level),
            1 => Ok(PickerKind::Turn),
            _ => Err(Refusal::OutOfRange),
        }
    }
}

impl TryFrom<u64> for QueueKind {
    type Error = Refusal;

    ghost try_from_gives = { Decodes queue_code };

    fn try_from(code: u64) -> Result<Self, Refusal> {
        match code {
            0 => Ok(QueueKind::Heap),
            1 => Ok(QueueKind::List),
            _ => Err(Refusal::OutOfRange),
        }
    }
}
