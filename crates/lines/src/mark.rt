// The two letters that a line begins with.
ghost use Rattle.std.specs.Option.{MatchOption};
ghost use Rattle.lines.specs.Marks.{Begins};
ghost use Rattle.lines.specs.Steps.{Front};
ghost use Rattle.lines.specs.declared.mark.Mark.{Mark as AnyMark};

#[derive(Clone, Copy)]
pub(crate) enum Mark {
    Reactor,
    Input,
    Output,
    Timer,
    Action,
    Connection,
    Reaction,
    Trigger,
    Write,
    Schedule,
    Stop,
    Bytecode,
    Instruction,
    Table,
    Row,
    Start,
    Offer,
    Advance,
}

// The mark that a line begins with.
pub(crate) fn mark_in_front(line: &[u8]) -> Option<Mark>
    ensures { MatchOption result ((m : AnyMark) → Begins line.now m → ⊥) (Front line.now) }
{
    match line {
        [b'R', b'E', ..] => Some(Mark::Reactor),
        [b'I', b'P', ..] => Some(Mark::Input),
        [b'O', b'P', ..] => Some(Mark::Output),
        [b'T', b'I', ..] => Some(Mark::Timer),
        [b'A', b'C', ..] => Some(Mark::Action),
        [b'C', b'N', ..] => Some(Mark::Connection),
        [b'R', b'X', ..] => Some(Mark::Reaction),
        [b'T', b'R', ..] => Some(Mark::Trigger),
        [b'W', b'R', ..] => Some(Mark::Write),
        [b'S', b'C', ..] => Some(Mark::Schedule),
        [b'E', b'N', ..] => Some(Mark::Stop),
        [b'B', b'O', ..] => Some(Mark::Bytecode),
        [b'I', b'S', ..] => Some(Mark::Instruction),
        [b'B', b'T', ..] => Some(Mark::Table),
        [b'R', b'W', ..] => Some(Mark::Row),
        [b'G', b'O', ..] => Some(Mark::Start),
        [b'O', b'F', ..] => Some(Mark::Offer),
        [b'A', b'D', ..] => Some(Mark::Advance),
        _ => None,
    }
}
