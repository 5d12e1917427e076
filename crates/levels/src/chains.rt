// The longest chains of a graph, and a circle, found by going back from a node to which chains of any length lead.
ghost use Rattle.std.specs.Prelude.{◌≡◌, ◌≢◌, ◌<◌, ◌≤◌, [], map, reverse, length, All, Contains, IfOk, MatchOption, slice_index, slice_index_or};
ghost use Rattle.std.specs.List.{range_with_len};
ghost use Rattle.levels.specs.Chains.{Edge, Round, most};
ghost use Rattle.levels.specs.Rounds.{AllBelow, Longest, reads};

use crate::graph::Graph;
use std::alloc::{AllocError, Global};

// A graph, and the longest chain to each node that has at most as many edges as there are nodes.
#[derive(Drop)]
pub(crate) struct Chains<'a> {
    graph: Graph<'a>,
    pub(crate) numbers: Vec<usize>,
    ghost are_longest: { Longest graph (length graph) (length graph) numbers.items },
}

impl<'a> Chains<'a> {
    pub(crate) fn of(heap: Global, graph: Graph<'a>) -> Result<Chains<'a>, AllocError>
        ensures { IfOk result (λ chains. chains.graph ≡ graph.entry) }
    {
        let nodes = graph.len();
        let mut numbers = vec![in heap; 0; nodes]?;
        for _ in 0..nodes {
            let next = next_round(heap, &graph, numbers.as_slice())?;
            // no chain grows any more
            if next == numbers {
                return Ok(Chains { graph, numbers });
            }
            numbers = next;
        }
        Ok(Chains { graph, numbers })
    }

    // A node to which chains of any length lead.
    pub(crate) fn looped_node(&self) -> Option<usize>
        ensures { MatchOption result (AllBelow (length self.now.graph) self.now.numbers.items) (λ node. (node < length self.now.graph) × (length self.now.graph ≤ slice_index self.now.numbers.items node)) }
    {
        let nodes = self.graph.len();
        self.numbers.iter().position(|number| *number >= nodes)
    }

    // A direct predecessor to which chains of any length lead, of a node of that kind.
    #[tactic(auto, using(crate::proofs::Back::no_end))]
    fn looped_before(&self, node: usize) -> usize
        requires within { node < length self.now.graph }
        requires looped { length self.now.graph ≤ slice_index self.now.numbers.items node }
        ensures edge { Edge self.now.graph result node }
        ensures looped { length self.now.graph ≤ slice_index self.now.numbers.items result }
    {
        let before = self.graph.predecessors(node);
        one_from(self.numbers.as_slice(), before, self.graph.len()).unwrap()
    }

    // A circle, by way of the predecessors of a node to which chains of any length lead.
    pub(crate) fn circle_to(&self, heap: Global, end: usize) -> Result<Vec<usize>, AllocError>
        requires within { end < length self.now.graph }
        requires looped { length self.now.graph ≤ slice_index self.now.numbers.items end }
        ensures { IfOk result (λ v. Round (Edge self.now.graph) v.items) }
    {
        let mut path = vec![in heap; end; 1]?;
        let mut node = end;
        for _ in 0..self.graph.len() {
            node = self.looped_before(node);
            let place = place_of(path.as_slice(), node);
            path.push(node)?;
            if let Some(from) = place {
                return turned(heap, &path.as_slice()[from..]);
            }
        }
        unreachable()
    }
}

// One more than the most of some nodes' numbers, 0 of none; after `map` and `max` a goal is left that no short answer closes.
fn most_of(numbers: &[usize], nodes: &[usize]) -> usize
    requires within { AllBelow (length numbers.now) nodes.now }
    requires small { AllBelow (length numbers.now) numbers.now }
    ensures { result ≡ most (reads numbers.now) nodes.now }
{
    nodes
        .iter()
        .fold(0, |best, node| best.max(numbers[*node] + 1))
}

// The numbers of a round from those of the round before.
fn next_round(heap: Global, graph: &Graph<'_>, before: &[usize]) -> Result<Vec<usize>, AllocError>
    requires size { length before.now ≡ length graph.now }
    requires small { AllBelow (length before.now) before.now }
    ensures { IfOk result (λ after. after.items ≡ map (λ node. most (reads before.now) (slice_index_or graph.now node [])) (range_with_len 0 (length graph.now))) }
{
    (0..graph.len())
        .map(|node| most_of(before, graph.predecessors(node)))
        .collect(heap)
}

// Some node of a list whose number is at least some other.
fn one_from(numbers: &[usize], nodes: &[usize], least: usize) -> Option<usize>
    requires { AllBelow (length numbers.now) nodes.now }
    ensures { MatchOption result (All (λ node. slice_index numbers.now node < least) nodes.now) (λ node. Contains nodes.now node × (least ≤ slice_index numbers.now node)) }
{
    nodes.iter().copied().find(|node| numbers[*node] >= least)
}

// Where a node stands in a path.
fn place_of(path: &[usize], node: usize) -> Option<usize>
    ensures { MatchOption result (All (λ other. other ≢ node) path.now) (λ i. (i < length path.now) × (slice_index path.now i ≡ node)) }
{
    path.iter().position(|other| *other == node)
}

// The nodes of a path, the last first.
fn turned(heap: Global, path: &[usize]) -> Result<Vec<usize>, AllocError>
    ensures { IfOk result (λ v. v.items ≡ reverse path.now) }
{
    path.iter().rev().copied().collect(heap)
}
