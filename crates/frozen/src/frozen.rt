// A frozen network, and what it is asked.
ghost use Rattle.std.specs.Prelude.{◌≡◌, [], slice_index_or};
ghost use Rattle.network.specs.Held.{held};
ghost use Rattle.precedence.specs.Answers.{Holds, Means, order_of};
ghost use Rattle.precedence.specs.Tests.{all_joinings, all_readings, all_targets, graph};
ghost use Rattle.frozen.specs.Reading.{Leveled};

use network::{Assembly, Connection, Tables, Target, Trigger};
use precedence::Precedence;
use rows::group_at;

// What its assembly declared, and what follows of precedence: there is no circle. With a ghost field and no model:
// whoever has a network knows it with no call.
#[derive(Drop)]
pub struct Network {
    pub(crate) assembly: Assembly,
    pub(crate) precedence: Precedence,
    ghost held: { ∥ Holds (held assembly) precedence ∥₁ },
}

impl Network {
    ghost use Rattle.frozen.specs.Freezing.{declared_by};

    // What is known of precedence.
    #[tactic(auto, using(crate::proofs::Known::known, precedence::proofs::Levelling::means))]
    fn known(&self) -> &Precedence
        ensures held { Holds (declared_by self.now) result.now }
        ensures means { Means (declared_by self.now) }
    {
        &self.precedence
    }

    // What is declared, sort by sort and in the order of the lines.
    pub fn tables(&self) -> &Tables
        ensures { held result.now ≡ declared_by self.now }
    {
        self.assembly.tables()
    }

    // The triggers and readings of a reaction, in the order of their lines. Each read is
    // `group_at` of the groups that it names: one function over all three would take those from outside.
    pub fn readings(&self, reaction: usize) -> &[Trigger]
        ensures { result.now ≡ slice_index_or (all_readings (declared_by self.now)) reaction [] }
    {
        group_at(&self.known().index.readings, reaction)
    }

    // The targets of a reaction, in the order of their lines.
    pub fn targets(&self, reaction: usize) -> &[Target]
        ensures { result.now ≡ slice_index_or (all_targets (declared_by self.now)) reaction [] }
    {
        group_at(&self.known().index.targets, reaction)
    }

    // The connections to an input; an assembly takes one at most.
    pub fn joinings(&self, input: usize) -> &[Connection]
        ensures { result.now ≡ slice_index_or (all_joinings (declared_by self.now)) input [] }
    {
        group_at(&self.known().index.joinings, input)
    }

    // The direct predecessors of a reaction, by number.
    pub fn predecessors(&self, reaction: usize) -> &[usize]
        ensures those { result.now ≡ slice_index_or (graph (declared_by self.now)) reaction [] }
        ensures they_directly_precede_it { Means (declared_by self.now) }
    {
        group_at(&self.known().predecessors, reaction)
    }

    // The reactions by level, and those of one level by number.
    pub fn order(&self) -> &[usize]
        ensures by_level { result.now ≡ order_of (declared_by self.now) }
        ensures each_once_after_what_precedes_it { Means (declared_by self.now) }
    {
        self.known().order.as_slice()
    }

    #[tactic(auto, using(crate::proofs::Answered::leveled))]
    pub fn level(&self, reaction: usize) -> Option<usize>
        ensures { Leveled (declared_by self.now) reaction result }
    {
        self.known().levels.get(reaction).copied()
    }
}
