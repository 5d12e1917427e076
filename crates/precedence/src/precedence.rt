// Precedence in a network: direct predecessors, levels, and an order by level.
ghost use Rattle.std.specs.Prelude.{◌≡◌, ◌≢◌, map, IfOk, vec_items};
ghost use Rattle.levels.specs.declared.error.LevelsError.TheVariants.{NoNode};
ghost use Rattle.network.specs.Held.{held};
ghost use Rattle.precedence.specs.Errors.{Tells};
ghost use Rattle.precedence.specs.Indexes.{Indexes};
ghost use Rattle.precedence.specs.Tests.{graph};

use crate::error::PrecedenceError;
use crate::index::Index;
use crate::predecessors::Indexed;
use levels::{LevelsError, levels};
use network::Tables;
use std::alloc::{AllocError, Global};

#[derive(Debug, PartialEq, Eq, Drop)]
pub struct Precedence {
    pub index: Index,
    // the direct predecessors of each reaction, by number
    pub predecessors: Vec<Vec<usize>>,
    // the level of each reaction
    pub levels: Vec<usize>,
    // the reactions by level, and those of one level by number
    pub order: Vec<usize>,
}

// The same, of reactions: every direct predecessor is one. `From` could not require that.
fn told(error: LevelsError) -> PrecedenceError
    requires { error ≢ NoNode }
    ensures { Tells error result }
{
    match error {
        LevelsError::Circle(circle) => PrecedenceError::Circle(circle),
        LevelsError::NoMemory(why) => PrecedenceError::NoMemory(why),
        LevelsError::NoNode => unreachable(),
    }
}

// The direct predecessors of each reaction.
#[tactic(auto, using(crate::proofs::Levelling::graph_is))]
fn predecessors(heap: Global, tables: &Tables, index: &Index) -> Result<Vec<Vec<usize>>, AllocError>
    requires { Indexes (held tables.now) index.now }
    ensures { IfOk result (λ v. map vec_items v.items ≡ graph (held tables.now)) }
{
    let reactions = tables.reactions.as_slice();
    Indexed { reactions, index }.predecessors(heap)
}

impl Precedence {
    ghost use Rattle.precedence.specs.Answers.{Answers};

    pub fn of(heap: Global, tables: &Tables) -> Result<Precedence, PrecedenceError>
        ensures { Answers (held tables.now) result }
    {
        let index = Index::of(heap, tables)?;
        let predecessors = predecessors(heap, tables, &index)?;
        let levelled = levels(heap, predecessors.as_slice()).map_err(told)?;
        Ok(Precedence {
            index,
            predecessors,
            levels: levelled.levels,
            order: levelled.order,
        })
    }
}
