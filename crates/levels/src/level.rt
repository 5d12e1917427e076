// The level of each node of a graph.
ghost use Rattle.std.specs.Prelude.{map, vec_items};
ghost use Rattle.levels.specs.Answering.{Answers};

use crate::chains::Chains;
use crate::error::LevelsError;
use crate::graph::Graph;
use crate::order::order_of;
use std::alloc::Global;

#[derive(Debug, PartialEq, Eq, Drop)]
pub struct Levelled {
    // the level of each node
    pub levels: Vec<usize>,
    // the nodes by level, and those of one level by number
    pub order: Vec<usize>,
}

// The levels of the nodes of a graph, which is given by the direct predecessors of each.
pub fn levels(heap: Global, graph: &[Vec<usize>]) -> Result<Levelled, LevelsError>
    ensures { Answers (map vec_items graph.now) result }
{
    let graph = Graph::of(graph).ok_or(LevelsError::NoNode)?;
    let chains = Chains::of(heap, graph)?;
    // a chain with as many edges as there are nodes goes round
    if let Some(end) = chains.looped_node() {
        let circle = chains.circle_to(heap, end)?;
        return Err(LevelsError::Circle(circle));
    }
    let levels = chains.numbers;
    let order = order_of(heap, levels.as_slice())?;
    Ok(Levelled { levels, order })
}
