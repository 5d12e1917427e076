// Where a line may stand.
ghost use Rattle.std.specs.Prelude.{◌≡◌, ◌↔◌, IsTrue};
ghost use Rattle.lines.specs.Sections.{home, MayCome};

use crate::mark::Mark;

// The lines that a caller takes.
#[derive(Clone, Copy, Debug, PartialEq, Eq)]
pub enum Section {
    // what a network declares
    Network,
    // bytecode bodies
    Bytecode,
    // table bodies
    Table,
    // all of these, and the start of the run
    Setup,
    // what comes once the run has started
    Run,
}

impl Mark {
    // The section that the mark belongs to.
    fn section(self) -> Section
        ensures { result ≡ home self }
    {
        match self {
            Mark::Reactor
            | Mark::Input
            | Mark::Output
            | Mark::Timer
            | Mark::Action
            | Mark::Connection
            | Mark::Reaction
            | Mark::Trigger
            | Mark::Write
            | Mark::Schedule
            | Mark::Stop => Section::Network,
            Mark::Bytecode | Mark::Instruction => Section::Bytecode,
            Mark::Table | Mark::Row => Section::Table,
            Mark::Start => Section::Setup,
            Mark::Offer | Mark::Advance => Section::Run,
        }
    }
}

impl Section {
    pub(crate) fn takes(self, mark: Mark) -> bool
        ensures { IsTrue result ↔ MayCome self mark }
    {
        let home = mark.section();
        match self {
            Section::Setup => home != Section::Run,
            _ => home == self,
        }
    }
}
