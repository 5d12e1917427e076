// The lines of each reaction and of each input.
ghost use Rattle.std.specs.Prelude.{IfOk};
ghost use Rattle.network.specs.Held.{held};

use network::{Connection, Tables, Target, Trigger};
use rows::grouped;
use std::alloc::{AllocError, Global};

#[derive(Debug, PartialEq, Eq, Drop)]
pub struct Index {
    // the triggers and readings of each reaction
    pub readings: Vec<Vec<Trigger>>,
    // the targets of each reaction
    pub targets: Vec<Vec<Target>>,
    // the connections to each input
    pub joinings: Vec<Vec<Connection>>,
}

impl Index {
    ghost use Rattle.precedence.specs.Indexes.{Indexes};

    pub(crate) fn of(heap: Global, tables: &Tables) -> Result<Index, AllocError>
        ensures { IfOk result (Indexes (held tables.now)) }
    {
        let reactions = tables.reactions.len();
        Ok(Index {
            readings: grouped(heap, tables.triggers.as_slice(), reactions)?,
            targets: grouped(heap, tables.targets.as_slice(), reactions)?,
            joinings: grouped(heap, tables.connections.as_slice(), tables.inputs.len())?,
        })
    }
}
