// Adding one declaration to the tables.
ghost use Rattle.std.specs.Prelude.{◌≡◌};
ghost use Rattle.network.specs.Adding.{Added};
ghost use Rattle.network.specs.Held.{held};

use crate::parts::Declaration;
use crate::tables::Tables;
use refusals::BuildError;

impl Tables {
    pub(crate) fn declare(&mut self, declaration: Declaration) -> Result<(), BuildError>
        ensures { Added (held self.old) declaration result (held self.new) }
    {
        self.check(declaration)?;
        match declaration {
            Declaration::Reactor => self.reactors += 1,
            Declaration::Input(reactor) => self.inputs.push(reactor)?,
            Declaration::Output(reactor) => self.outputs.push(reactor)?,
            Declaration::Timer(timer) => self.timers.push(timer)?,
            Declaration::Action(action) => self.actions.push(action)?,
            Declaration::Connection(connection) => self.connections.push(connection)?,
            Declaration::Reaction(reaction) => self.reactions.push(reaction)?,
            Declaration::Trigger(trigger) => self.triggers.push(trigger)?,
            Declaration::Target(target) => self.targets.push(target)?,
            Declaration::Stop(time) => self.stop = Some(time),
        }
        Ok(())
    }
}
