// What one instruction does.
use lines::Opcode;
use std::fmt;

#[derive(Clone, Copy)]
pub(crate) struct Step {
    pub(crate) opcode: Opcode,
    pub(crate) first: u64,
    pub(crate) second: u64,
    pub(crate) operand: i32,
}

impl fmt::Display for Step {
    fn fmt<W: fmt::Write>(&self, f: &mut fmt::Formatter<W>) -> fmt::Result {
        let a = self.first;
        let b = self.second;
        let k = self.operand;
        match self.opcode {
            Opcode::End => write!(f, "end"),
            Opcode::Put => write!(f, "put {k} in word {a}"),
            Opcode::Add => write!(f, "add word {b} to word {a}"),
            Opcode::Subtract => write!(f, "take word {b} from word {a}"),
            Opcode::Read => write!(f, "put reading {k} in word {a}, 0 if absent"),
            Opcode::Present => write!(f, "put 1 in word {a} if reading {k} is present, else 0"),
            Opcode::JumpIfZero => write!(f, "go to {k} if word {a} is 0"),
            Opcode::JumpIfLess => write!(f, "go to {k} if word {a} is below word {b}"),
            Opcode::Set => write!(f, "set target {k} to word {a}"),
            Opcode::Schedule => write!(
                f,
                "schedule target {k} with word {a}, extra delay word {b}"
            ),
        }
    }
}
