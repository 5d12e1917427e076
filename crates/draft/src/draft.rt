// A file as far as it was read, and what its next line says.
ghost use Rattle.std.specs.Prelude.{◌≡◌, ◌↔◌, IsTrue, OnOk, OnErr};
ghost use Rattle.network.specs.Held.{held};
ghost use Rattle.draft.specs.Drafting.{Drafts, Fresh, IsNetworks, Passes};

use lines::Record;
use network::Assembly;
use outline::{Declared, Progress};
use refusals::BuildError;
use std::alloc::{AllocError, Global};

#[derive(Drop)]
pub struct Draft {
    progress: Progress,
    assembly: Assembly,
}

// Whether a network takes the line of a record.
fn is_networks(record: Record<'_>) -> bool
    ensures { IsTrue result ↔ IsNetworks «record».entry }
{
    !matches!(
        record,
        Record::Bytecode
            | Record::Instruction { .. }
            | Record::Table
            | Record::Row { .. }
            | Record::Start { .. }
            | Record::Offer { .. }
            | Record::Advance { .. }
    )
}

impl Draft {
    pub fn new(heap: Global) -> Draft
        ensures { Fresh result }
    {
        Draft {
            progress: Progress::new(),
            assembly: Assembly::new(heap),
        }
    }

    // What the next line declares; a line that the network refuses is refused, and not counted.
    pub fn tell<'a>(&mut self, line: &'a [u8]) -> Result<Declared<'a>, BuildError>
        ensures told { Drafts self.old line.now self.new result }
        ensures unchanged { OnErr result ((self.new.progress ≡ self.old.progress) × (held self.new.assembly ≡ held self.old.assembly)) }
    {
        let mut next = self.progress;
        let declared = next.tell(line)?;
        if is_networks(declared.record) {
            self.assembly.add(line)?;
        }
        self.progress = next;
        Ok(declared)
    }

    // Goes past the next line, whether or not it is refused.
    pub(crate) fn pass(&mut self, line: &[u8]) -> Result<(), AllocError>
        ensures { OnOk result (Passes self.old line.now self.new) }
    {
        match self.tell(line) {
            Ok(_) | Err(BuildError::Refused(_)) => Ok(()),
            Err(BuildError::NoMemory(error)) => Err(error),
        }
    }

    // What was accepted into the network.
    pub fn into_assembly(self) -> Assembly
        ensures { result ≡ self.assembly }
    {
        self.assembly
    }
}
