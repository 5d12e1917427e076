// A line, read to its record.
ghost use Rattle.std.specs.Prelude.{Err as Refused, MatchResult};
ghost use Rattle.lines.specs.Steps.{Front, ReadAs};
ghost use Rattle.lines.specs.Numbers.{NumbersAreDigits};
ghost use Rattle.lines.specs.Reading.{Reading, OneReading, OneAnswer};
ghost use Rattle.lines.specs.Sections.{MayCome};

use crate::mark::{Mark, mark_in_front};
use crate::records::Record;
use crate::section::Section;
use crate::{bodies, declarations, run};
use refusals::Refusal;

// The mark in front of a line, where it may come.
fn mark_for(line: &[u8], section: Section) -> Result<Mark, Refusal>
    ensures { MatchResult result (λ m. MayCome section m × Front line.now m) (λ e. Reading section line.now (Refused e)) }
{
    match mark_in_front(line) {
        Some(mark) if section.takes(mark) => Ok(mark),
        _ => Err(Refusal::UnknownMark),
    }
}

// The record of a line with a mark that may come.
fn read_fields(line: &[u8], mark: Mark) -> Result<Record<'_>, Refusal>
    requires { Front line.now mark }
    ensures { ReadAs mark line.now result }
{
    match mark {
        Mark::Reactor => declarations::reactor(line),
        Mark::Input => declarations::input(line),
        Mark::Output => declarations::output(line),
        Mark::Timer => declarations::timer(line),
        Mark::Action => declarations::action(line),
        Mark::Connection => declarations::connection(line),
        Mark::Reaction => declarations::reaction(line),
        Mark::Trigger => declarations::trigger(line),
        Mark::Write => declarations::write(line),
        Mark::Schedule => declarations::schedule(line),
        Mark::Stop => declarations::stop(line),
        Mark::Bytecode => bodies::bytecode(line),
        Mark::Instruction => bodies::instruction(line),
        Mark::Table => bodies::table(line),
        Mark::Row => bodies::row(line),
        Mark::Start => run::start(line),
        Mark::Offer => run::offer(line),
        Mark::Advance => run::advance(line),
    }
}

// What a line says, or why it is refused, where only the marks of a section may come.
pub fn read(line: &[u8], section: Section) -> Result<Record<'_>, Refusal>
    ensures answer { Reading section line.now result }
    ensures one_reading { OneReading }
    ensures one_answer { OneAnswer }
    ensures numbers_are_digits { NumbersAreDigits }
{
    let mark = mark_for(line, section)?;
    read_fields(line, mark)
}
