// How many things of each sort were declared.
ghost use Rattle.std.specs.Prelude.{◌≡◌, ◌↔◌, IsTrue};
ghost use Rattle.outline.specs.Counting.{up, counted, IsOrphan};

use lines::Record;

#[derive(Clone, Copy, Debug, Default, PartialEq, Eq)]
pub struct Counts {
    pub reactors: u64,
    pub inputs: u64,
    pub outputs: u64,
    pub timers: u64,
    pub actions: u64,
    pub connections: u64,
    pub reactions: u64,
    pub bodies: u64,
    // in the last body
    pub instructions: u64,
    pub tables: u64,
    // in the last table
    pub rows: u64,
}

fn raise(counter: &mut u64)
    ensures { counter.new ≡ up counter.old }
{
    *counter = counter.saturating_add(1);
}

impl Counts {
    // Counts one thing more.
    pub(crate) fn count(&mut self, record: Record<'_>)
        ensures { self.new ≡ counted «record».entry self.old }
    {
        match record {
            Record::Reactor => raise(&mut self.reactors),
            Record::Input { .. } => raise(&mut self.inputs),
            Record::Output { .. } => raise(&mut self.outputs),
            Record::Timer { .. } => raise(&mut self.timers),
            Record::Action { .. } => raise(&mut self.actions),
            Record::Connection { .. } => raise(&mut self.connections),
            Record::Reaction { .. } => raise(&mut self.reactions),
            Record::Bytecode => {
                raise(&mut self.bodies);
                self.instructions = 0;
            }
            Record::Instruction { .. } => raise(&mut self.instructions),
            Record::Table => {
                raise(&mut self.tables);
                self.rows = 0;
            }
            Record::Row { .. } => raise(&mut self.rows),
            _ => {}
        }
    }

    // Whether a line is an instruction or a row that has no body to belong to.
    pub(crate) fn is_orphan(&self, line: &[u8]) -> bool
        ensures { IsTrue result ↔ IsOrphan self.now line.now }
    {
        (line.starts_with(b"IS") && self.bodies == 0)
            || (line.starts_with(b"RW") && self.tables == 0)
    }
}
