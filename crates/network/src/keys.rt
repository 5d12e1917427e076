// By what the rows of a table are grouped.
use crate::parts::{Connection, Target, Trigger};
use rows::Keyed;

impl Keyed for Connection {
    ghost key_of = { λ c. c.input };

    fn key(&self) -> usize {
        self.input
    }
}

impl Keyed for Trigger {
    ghost key_of = { λ t. t.reaction };

    fn key(&self) -> usize {
        self.reaction
    }
}

impl Keyed for Target {
    ghost key_of = { λ t. t.reaction };

    fn key(&self) -> usize {
        self.reaction
    }
}
