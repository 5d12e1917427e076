// Why a declaration is refused.
ghost use Rattle.std.specs.Prelude.{◌≡◌, ◌==◌, count_by, false, None, Some, MatchResult};
ghost use Rattle.std.specs.List.{list_any};
ghost use Rattle.network.specs.Held.{held};
ghost use Rattle.network.specs.Rules.{foreign, full, refusal, repeated, undeclared};

use crate::parts::Declaration;
use crate::tables::Tables;
use refusals::Refusal;
use rows::Keyed;

const MOST_REACTORS: usize = 16;

const MOST_PORTS: usize = 64;

const MOST_TIMERS: usize = 16;

const MOST_ACTIONS: usize = 32;

const MOST_CONNECTIONS: usize = 64;

const MOST_REACTIONS: usize = 64;

const MOST_TRIGGERS: usize = 8;

const MOST_TARGETS: usize = 8;

impl Tables {
    // The first refusal that holds, if one does.
    pub(crate) fn check(&self, declaration: Declaration) -> Result<(), Refusal>
        ensures { MatchResult result
            (λ _. refusal (held self.now) declaration ≡ None)
            (λ e. refusal (held self.now) declaration ≡ Some e) }
    {
        if self.is_undeclared(declaration) {
            return Err(Refusal::Undeclared);
        }
        if self.is_foreign(declaration) {
            return Err(Refusal::Foreign);
        }
        if self.is_repeated(declaration) {
            return Err(Refusal::Repeated);
        }
        if self.is_full(declaration) {
            return Err(Refusal::Full);
        }
        Ok(())
    }

    // Whether it names something that is not declared.
    fn is_undeclared(&self, declaration: Declaration) -> bool
        ensures { result ≡ undeclared (held self.now) declaration }
    {
        match declaration {
            Declaration::Reactor | Declaration::Stop(_) => false,
            Declaration::Input(reactor) | Declaration::Output(reactor) => reactor >= self.reactors,
            Declaration::Timer(timer) => timer.reactor >= self.reactors,
            Declaration::Action(action) => action.reactor >= self.reactors,
            Declaration::Reaction(reaction) => reaction.reactor >= self.reactors,
            Declaration::Connection(connection) => {
                connection.output >= self.outputs.len() || connection.input >= self.inputs.len()
            }
            Declaration::Trigger(trigger) => {
                self.home(trigger.reaction).is_none()
                    || self.owner(trigger.kind, trigger.source).is_none()
            }
            Declaration::Target(target) => {
                self.home(target.reaction).is_none()
                    || self.holder(target.kind, target.number).is_none()
            }
        }
    }

    // Whether it names what belongs to another reactor, or schedules a physical action.
    fn is_foreign(&self, declaration: Declaration) -> bool
        requires { undeclared (held self.now) declaration ≡ false }
        ensures { result ≡ foreign (held self.now) declaration }
    {
        match declaration {
            Declaration::Trigger(trigger) => {
                self.home(trigger.reaction) != self.owner(trigger.kind, trigger.source)
            }
            Declaration::Target(target) => {
                self.home(target.reaction) != self.holder(target.kind, target.number)
                    || self.is_unschedulable(target.kind, target.number)
            }
            _ => false,
        }
    }

    // Whether its input is joined already, or it is the same trigger or target, or a stop tag, again.
    fn is_repeated(&self, declaration: Declaration) -> bool
        ensures { result ≡ repeated (held self.now) declaration }
    {
        match declaration {
            Declaration::Connection(connection) => self.is_joined(connection.input),
            Declaration::Trigger(trigger) => self.triggers.contains(&trigger),
            Declaration::Target(target) => self.targets.contains(&target),
            Declaration::Stop(_) => self.stop.is_some(),
            _ => false,
        }
    }

    // Whether a connection leads to this input.
    fn is_joined(&self, input: usize) -> bool
        ensures { result ≡ list_any (λ c. c.input == input) (held self.now).connections }
    {
        self.connections.iter().any(|other| other.input == input)
    }

    // Whether its table is full.
    fn is_full(&self, declaration: Declaration) -> bool
        ensures { result ≡ full (held self.now) declaration }
    {
        match declaration {
            Declaration::Reactor => self.reactors >= MOST_REACTORS,
            Declaration::Input(_) => self.inputs.len() >= MOST_PORTS,
            Declaration::Output(_) => self.outputs.len() >= MOST_PORTS,
            Declaration::Timer(_) => self.timers.len() >= MOST_TIMERS,
            Declaration::Action(_) => self.actions.len() >= MOST_ACTIONS,
            Declaration::Connection(_) => self.connections.len() >= MOST_CONNECTIONS,
            Declaration::Reaction(_) => self.reactions.len() >= MOST_REACTIONS,
            Declaration::Trigger(trigger) => {
                count_with_key(&self.triggers, trigger.reaction) >= MOST_TRIGGERS
            }
            Declaration::Target(target) => {
                count_with_key(&self.targets, target.reaction) >= MOST_TARGETS
            }
            Declaration::Stop(_) => false,
        }
    }
}

// A fold makes a tighter loop than `filter` and `count`; its sum never wraps.
fn count_with_key<T: Keyed>(rows: &[T], key: usize) -> usize
    ensures { result ≡ count_by (λ row. T.key_of row == key) rows.now }
{
    rows.iter().fold(
        0,
        |count: usize, row| count.wrapping_add(usize::from(row.key() == key)),
    )
}
