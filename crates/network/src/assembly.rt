// An assembly: what the lines accepted into it declare, in order.
ghost use Rattle.std.specs.Prelude.{◌≡◌, ℕ, List, [], ◌∷◌, ◌++◌, is_ok, MatchBool};
ghost use Rattle.network.specs.Assembling.{Assembled, OneMeaning, Takes};
ghost use Rattle.network.specs.Held.{held};
ghost use Rattle.network.specs.Tables.{no_parts};
ghost use Rattle.network.specs.declared.tables.Tables.{Tables as AnyTables};

use crate::parts::Declaration;
use crate::tables::Tables;
use lines::{Section, read};
use refusals::BuildError;
use std::alloc::Global;
use std::marker::Model;

#[derive(Debug, Drop)]
pub struct Assembly {
    tables: Tables,
}

// All of its tables, room for more too: an assembly that is handed back is the same in all.
impl Model for Assembly {
    ghost Value = { AnyTables };

    ghost view = { λ a. a.tables };
}

impl Assembly {
    pub fn new(heap: Global) -> Assembly
        ensures nothing_declared { held result ≡ no_parts }
    {
        Assembly {
            tables: Tables::new(heap),
        }
    }

    // What was declared so far.
    pub fn tables(&self) -> &Tables
        ensures what_it_declares { result.now ≡ self.now }
    {
        &self.tables
    }

    // Takes one more line of a network.
    pub fn add(&mut self, line: &[u8]) -> Result<(), BuildError>
        ensures takes { Takes (held self.old) line.now result (held self.new) }
        ensures leads { (ls : List (List ℕ)) → Assembled ls (held self.old)
            → MatchBool (is_ok result) (Assembled (ls ++ line.now ∷ []) (held self.new)) (Assembled ls (held self.new)) }
        ensures one_meaning { OneMeaning }
    {
        let said = read(line, Section::Network)?;
        let Some(declaration) = Declaration::from_record(said) else {
            unreachable()
        };
        self.tables.declare(declaration)
    }
}
