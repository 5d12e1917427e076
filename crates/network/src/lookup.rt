// Whose a thing is, by its number.
ghost use Rattle.std.specs.Prelude.{◌≡◌, slice_get};
ghost use Rattle.network.specs.Held.{held};
ghost use Rattle.network.specs.Rules.{homes, owners, holders, unschedulable};

use crate::parts::TargetKind;
use crate::tables::Tables;
use lines::{ActionKind, TriggerKind};

impl Tables {
    // The reactor of a reaction.
    pub(crate) fn home(&self, reaction: usize) -> Option<usize>
        ensures { result ≡ slice_get (homes (held self.now)) reaction }
    {
        self.reactions
            .get(reaction)
            .map(|reaction| reaction.reactor)
    }

    // The reactor of what a trigger names.
    pub(crate) fn owner(&self, kind: TriggerKind, source: usize) -> Option<usize>
        ensures { result ≡ slice_get (owners (held self.now) kind) source }
    {
        match kind {
            TriggerKind::Timer => self.timers.get(source).map(|timer| timer.reactor),
            TriggerKind::Action => self.actions.get(source).map(|action| action.reactor),
            TriggerKind::Input | TriggerKind::ReadInput => self.inputs.get(source).copied(),
        }
    }

    // The reactor of what a target names.
    pub(crate) fn holder(&self, kind: TargetKind, number: usize) -> Option<usize>
        ensures { result ≡ slice_get (holders (held self.now) kind) number }
    {
        match kind {
            TargetKind::Output => self.outputs.get(number).copied(),
            TargetKind::Action => self.actions.get(number).map(|action| action.reactor),
        }
    }

    // Whether a target is a physical action.
    pub(crate) fn is_unschedulable(&self, kind: TargetKind, number: usize) -> bool
        ensures { result ≡ unschedulable (held self.now) kind number }
    {
        kind == TargetKind::Action
            && self
                .actions
                .get(number)
                .is_some_and(|action| action.kind == ActionKind::Physical)
    }
}
