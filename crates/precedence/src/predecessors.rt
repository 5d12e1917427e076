// The direct predecessors of each reaction.
ghost use Rattle.std.specs.Prelude.{◌≡◌, ◌<◌, map, length, IfOk, vec_items};
ghost use Rattle.std.specs.List.{range_with_len};
ghost use Rattle.precedence.specs.Indexes.{before, joinings_held, readings_held, targets_held};
ghost use Rattle.precedence.specs.Tests.{preceding};

use crate::direct::{is_earlier, reaches};
use crate::index::Index;
use network::Reaction;
use rows::group_at;
use std::alloc::{AllocError, Global};

// Reactions with an index of their lines.
#[derive(Clone, Copy)]
pub(crate) struct Indexed<'a> {
    pub(crate) reactions: &'a [Reaction],
    pub(crate) index: &'a Index,
}

impl Indexed<'_> {
    // Whether one reaction directly precedes another.
    fn precedes(&self, a: usize, b: usize) -> bool
        requires { b < length self.now.reactions.now }
        ensures { result ≡ preceding (map (λ x. x.reactor) self.now.reactions.now) (targets_held self.now.index.now) (joinings_held self.now.index.now) (readings_held self.now.index.now) a b }
    {
        let targets = group_at(self.index.targets.as_slice(), a);
        let readings = group_at(self.index.readings.as_slice(), b);
        is_earlier(self.reactions, a, b)
            || reaches(targets, self.index.joinings.as_slice(), readings)
    }

    // The direct predecessors of one reaction, by number.
    fn predecessors_of(&self, heap: Global, b: usize) -> Result<Vec<usize>, AllocError>
        requires { b < length self.now.reactions.now }
        ensures { IfOk result (λ v. v.items ≡ before self.now.index.now self.now.reactions.now b) }
    {
        (0..self.reactions.len())
            .filter(|a| self.precedes(*a, b))
            .collect(heap)
    }

    // The same of all reactions.
    pub(crate) fn predecessors(&self, heap: Global) -> Result<Vec<Vec<usize>>, AllocError>
        ensures { IfOk result (λ v. map vec_items v.items ≡ map (before self.now.index.now self.now.reactions.now) (range_with_len 0 (length self.now.reactions.now))) }
    {
        // a loop: after `map` and `try_collect` a goal is left that no short answer closes
        let mut graph = Vec::new(heap);
        for b in 0..self.reactions.len() {
            graph.push(self.predecessors_of(heap, b)?)?;
        }
        Ok(graph)
    }
}
