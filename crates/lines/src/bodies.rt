#![tactic(auto, using(crate::proofs::Readings::refused, crate::proofs::Readings::recorded))]

// The lines of bodies, a function for each mark as in `declarations`.
ghost use Rattle.std.specs.Prelude.{◌↔◌, pos, IsTrue};
ghost use Rattle.lines.specs.Fields.{Operand};
ghost use Rattle.lines.specs.Records.{opcode_number};
ghost use Rattle.lines.specs.Steps.{Front, ReadAs};
ghost use Rattle.lines.specs.declared.mark.Mark.TheVariants.{Bytecode, Instruction, Table, Row};

use crate::build::{kind_at, number_at, value_at};
use crate::fields::fields;
use crate::kind::Kind;
use crate::records::{Opcode, Record};
use refusals::Refusal;

// Instructions that name a reading or a target, and jumps, which go to a place.
fn operand_fits(opcode: Opcode, operand: i32) -> bool
    ensures { IsTrue result ↔ Operand (pos (opcode_number opcode)) operand }
{
    match opcode {
        Opcode::Read | Opcode::Present | Opcode::Set | Opcode::Schedule => {
            (0..=7).contains(&operand)
        }
        Opcode::JumpIfZero | Opcode::JumpIfLess => (1..=32).contains(&operand),
        Opcode::End | Opcode::Put | Opcode::Add | Opcode::Subtract => true,
    }
}

pub(crate) fn bytecode(line: &[u8]) -> Result<Record<'_>, Refusal>
    requires { Front line.now Bytecode }
    ensures { ReadAs Bytecode line.now result }
{
    let [] = fields(line, &[])?;
    Ok(Record::Bytecode)
}

pub(crate) fn instruction(line: &[u8]) -> Result<Record<'_>, Refusal>
    requires { Front line.now Instruction }
    ensures { ReadAs Instruction line.now result }
{
    let [opcode, first, second, operand] = fields(
        line,
        &[Kind::UpTo(9), Kind::UpTo(7), Kind::UpTo(7), Kind::Value],
    )?;
    let opcode = kind_at(line, opcode);
    let operand = value_at(line, operand);
    if !operand_fits(opcode.value, operand.value) {
        return Err(Refusal::OutOfRange);
    }
    Ok(Record::Instruction {
        opcode,
        first: number_at(line, first),
        second: number_at(line, second),
        operand,
    })
}

pub(crate) fn table(line: &[u8]) -> Result<Record<'_>, Refusal>
    requires { Front line.now Table }
    ensures { ReadAs Table line.now result }
{
    let [] = fields(line, &[])?;
    Ok(Record::Table)
}

pub(crate) fn row(line: &[u8]) -> Result<Record<'_>, Refusal>
    requires { Front line.now Row }
    ensures { ReadAs Row line.now result }
{
    let [state, class, next, target, value] = fields(
        line,
        &[
            Kind::Value,
            Kind::UpTo(2),
            Kind::Value,
            Kind::UpTo(7),
            Kind::Value,
        ],
    )?;
    Ok(Record::Row {
        state: value_at(line, state),
        class: kind_at(line, class),
        next: value_at(line, next),
        target: number_at(line, target),
        value: value_at(line, value),
    })
}
