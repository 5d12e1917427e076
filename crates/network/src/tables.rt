// The tables of a network: things of each sort, by number.
ghost use Rattle.std.specs.Prelude.{◌≡◌};

use crate::parts::{Action, Connection, Reaction, Target, Timer, Trigger};
use std::alloc::Global;

#[derive(Debug, Drop)]
pub struct Tables {
    pub reactors: usize,
    pub inputs: Vec<usize>,
    pub outputs: Vec<usize>,
    pub timers: Vec<Timer>,
    pub actions: Vec<Action>,
    pub connections: Vec<Connection>,
    pub reactions: Vec<Reaction>,
    pub triggers: Vec<Trigger>,
    pub targets: Vec<Target>,
    pub stop: Option<u64>,
}

impl Tables {
    ghost use Rattle.network.specs.Held.{held};
    ghost use Rattle.network.specs.Tables.{no_parts};

    pub(crate) fn new(heap: Global) -> Tables
        ensures { held result ≡ no_parts }
    {
        Tables {
            reactors: 0,
            inputs: Vec::new(heap),
            outputs: Vec::new(heap),
            timers: Vec::new(heap),
            actions: Vec::new(heap),
            connections: Vec::new(heap),
            reactions: Vec::new(heap),
            triggers: Vec::new(heap),
            targets: Vec::new(heap),
            stop: None,
        }
    }
}
