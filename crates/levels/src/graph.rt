// Graphs of which every edge joins nodes.
ghost use Rattle.std.specs.Prelude.{◌≡◌, ◌<◌, ◌↔◌, [], map, length, IsTrue, MatchOption, vec_items, slice_index_or};
ghost use Rattle.levels.specs.Rounds.{AllBelow, EdgesBelow, EdgesWithin};

use std::marker::Model;

// A graph by the direct predecessors of each node, all of which are nodes.
#[derive(Drop)]
pub(crate) struct Graph<'a> {
    predecessors: &'a [Vec<usize>],
}

impl<'a> Model for Graph<'a> {
    ghost use Rattle.std.specs.Prelude.{ℕ, List, map, vec_items};
    ghost use Rattle.levels.specs.Rounds.{EdgesWithin};

    ghost Value = { List (List ℕ) };

    ghost view = { λ g. map vec_items g.predecessors.now };

    ghost invariant = { λ g. EdgesWithin g.predecessors.now };
}

impl<'a> Graph<'a> {
    // None where an edge joins what is no node.
    pub(crate) fn of(predecessors: &'a [Vec<usize>]) -> Option<Graph<'a>>
        ensures { MatchOption result (¬ EdgesWithin predecessors.now) (λ graph. graph ≡ map vec_items predecessors.now) }
    {
        if edges_within(predecessors) {
            Some(Graph { predecessors })
        } else {
            None
        }
    }

    pub(crate) fn len(&self) -> usize
        ensures nodes { result ≡ length self.now }
        ensures edges_within { EdgesBelow (length self.now) self.now }
    {
        self.predecessors.len()
    }

    // The direct predecessors of a node.
    pub(crate) fn predecessors(&self, node: usize) -> &'a [usize]
        requires { node < length self.now }
        ensures nodes { result.now ≡ slice_index_or self.now node [] }
        ensures within { AllBelow (length self.now) result.now }
    {
        let predecessors = self.predecessors;
        predecessors[node].as_slice()
    }
}

fn all_below(nodes: &[usize], bound: usize) -> bool
    ensures { IsTrue result ↔ AllBelow bound nodes.now }
{
    nodes.iter().all(|node| *node < bound)
}

// Whether every edge joins nodes of the graph.
fn edges_within(graph: &[Vec<usize>]) -> bool
    ensures { IsTrue result ↔ EdgesWithin graph.now }
{
    graph
        .iter()
        .all(|nodes| all_below(nodes.as_slice(), graph.len()))
}
