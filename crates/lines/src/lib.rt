#![tactic(auto)]

mod bodies;
mod build;
mod codes;
mod cursor;
mod declarations;
mod fields;
mod kind;
mod mark;
mod number;
mod reader;
mod records;
mod run;
mod section;
mod words;

pub use reader::read;
pub use records::{
    ActionKind, ConnectionKind, Field, Opcode, PickerKind, QueueKind, ReadingClass, Record,
    TriggerKind,
};
pub use section::Section;
