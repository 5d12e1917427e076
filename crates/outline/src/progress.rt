// How far the lines have come: what may come next, and what was declared.
ghost use Rattle.std.specs.Prelude.{◌≡◌};
ghost use Rattle.lines.specs.declared.section.Section.TheVariants.{Setup};
ghost use Rattle.outline.specs.Counting.{no_counts};
ghost use Rattle.outline.specs.Telling.{Here, Tells};

use crate::counts::Counts;
use crate::declared::Declared;
use lines::{Record, Section, read};
use refusals::Refusal;

#[derive(Clone, Copy, Debug, PartialEq, Eq)]
pub struct Progress {
    section: Section,
    counts: Counts,
}

impl Progress {
    pub fn new() -> Progress
        ensures at_the_start { result.section ≡ Setup }
        ensures nothing_counted { result.counts ≡ no_counts }
    {
        Progress {
            section: Section::Setup,
            counts: Counts::default(),
        }
    }

    // What a line says where it stands: an orphan is malformed wherever its mark may come.
    fn read_here<'a>(&self, line: &'a [u8]) -> Result<Record<'a>, Refusal>
        ensures { Here self.now.section self.now.counts line.now result }
    {
        let answer = read(line, self.section);
        match answer {
            Err(Refusal::UnknownMark) => answer,
            _ if self.counts.is_orphan(line) => Err(Refusal::Malformed),
            _ => answer,
        }
    }

    // What the next line declares, or why it is refused; a refused line changes nothing.
    pub fn tell<'a>(&mut self, line: &'a [u8]) -> Result<Declared<'a>, Refusal>
        ensures { Tells self.old line.now self.new result }
    {
        let record = self.read_here(line)?;
        let before = self.counts;
        self.counts.count(record);
        if let Record::Start { .. } = record {
            self.section = Section::Run;
        }
        Ok(Declared { record, before })
    }
}
