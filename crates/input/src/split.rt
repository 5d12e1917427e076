// An input cut into lines.
ghost use Rattle.std.specs.Prelude.{◌≡◌, ℕ, List, ◌<◌, ◌≤◌, length, take, drop, MatchOption};
ghost use Rattle.std.specs.Iterator.{at_most};
ghost use Rattle.input.specs.Split.{FirstLine, NextLine};

use std::marker::Model;

// How many bytes the first line takes, with its line feed where it has one.
fn line_len(input: &[u8]) -> usize
    ensures within { result ≤ length input.now }
    ensures cut { 0 < length input.now → FirstLine input.now (take result input.now) (drop result input.now) }
{
    input
        .iter()
        .position(|byte| *byte == b'\n')
        .map_or(input.len(), |feed| feed + 1)
}

// The first line, with its line feed where it has one, and what follows it; none of an empty input.
pub fn first_line(input: &[u8]) -> Option<(&[u8], &[u8])>
    ensures { MatchOption result (length input.now ≡ 0) (λ p. FirstLine input.now p.0.now p.1.now) }
{
    if input.is_empty() {
        return None;
    }
    Some(input.split_at(line_len(input)))
}

// The lines of an input in turn, each with its line feed where it has one.
#[derive(Debug, Drop)]
pub struct Lines<'a> {
    left: &'a [u8],
}

impl<'a> Model for Lines<'a> {
    ghost Value = { List ℕ };

    ghost view = { λ l. l.left.now };
}

impl<'a> Lines<'a> {
    pub fn of(input: &'a [u8]) -> Lines<'a>
        ensures all_of_it { result ≡ input.now }
    {
        Lines { left: input }
    }
}

impl<'a> Iterator for Lines<'a> {
    type Item = &'a [u8];

    ghost next_gives = { NextLine };

    ghost remaining = { λ left. at_most (length left) };

    fn next(&mut self) -> Option<&'a [u8]> {
        let (line, left) = first_line(self.left)?;
        self.left = left;
        Some(line)
    }
}
