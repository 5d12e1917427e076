// What a line of a body declares, in words.
use crate::run;
use crate::step::Step;
use lines::Record;
use outline::Declared;
use std::fmt;

pub(crate) fn say<W: fmt::Write>(
    f: &mut fmt::Formatter<W>,
    declared: &Declared<'_>,
) -> fmt::Result {
    let before = &declared.before;
    match declared.record {
        Record::Bytecode => write!(f, "bytecode body {}", before.bodies),
        Record::Instruction {
            opcode,
            first,
            second,
            operand,
        } => {
            let body = before.bodies.saturating_sub(1);
            let step = Step {
                opcode: opcode.value,
                first: first.value,
                second: second.value,
                operand: operand.value,
            };
            write!(
                f,
                "instruction {} of body {body}: {step}",
                before.instructions
            )
        }
        _ => say_table(f, declared),
    }
}

fn say_table<W: fmt::Write>(f: &mut fmt::Formatter<W>, declared: &Declared<'_>) -> fmt::Result {
    let before = &declared.before;
    match declared.record {
        Record::Table => write!(f, "table body {}", before.tables),
        Record::Row {
            state,
            class,
            next,
            target,
            value,
        } => {
            let table = before.tables.saturating_sub(1);
            write!(f, "row {} of table body {table}: ", before.rows)?;
            write!(
                f,
                "with {} in cell 0 and reading 0 {}, ",
                state.value, class.value
            )?;
            write!(f, "put {} in cell 0 and ", next.value)?;
            write!(f, "set target {} to {}", target.value, value.value)
        }
        other => run::say(f, other),
    }
}
