// The whole text, a line for each line of the input.
use input::Lines;
use outline::{Declared, Progress};
use refusals::Refusal;
use std::fmt;
use wording::Said;

// The longest input that is read.
pub const MOST_BYTES: usize = 65_536;

// What an input declares, shown line by line.
#[derive(Clone, Copy, Debug)]
pub struct Explanation<'a> {
    pub input: &'a [u8],
}

impl fmt::Display for Explanation<'_> {
    fn fmt<W: fmt::Write>(&self, f: &mut fmt::Formatter<W>) -> fmt::Result {
        let mut progress = Progress::new();
        say_lines(f, self.input, |line| Ok(progress.tell(line)))
    }
}

// Says of each line in turn, after its number, what is told of it.
pub fn say_lines<'a, W, F>(f: &mut fmt::Formatter<W>, input: &'a [u8], mut tell: F) -> fmt::Result
where
    W: fmt::Write,
    F: FnMut(&'a [u8]) -> Result<Result<Declared<'a>, Refusal>, fmt::Error>,
    requires { F.IsAlwaysCallable tell }
{
    if input.len() > MOST_BYTES {
        return writeln!(f, "the input is longer than {MOST_BYTES} bytes");
    }
    for (number, line) in (1u64..).zip(Lines::of(input)) {
        // before the line is told, which may fail
        write!(f, "{number}: ")?;
        let told = tell(line)?;
        writeln!(f, "{}", Said { told })?;
    }
    Ok(())
}
