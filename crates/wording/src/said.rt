// What is to be said of one line, in words.
use crate::network;
use outline::Declared;
use refusals::Refusal;
use std::fmt;

#[derive(Clone, Copy, Debug, PartialEq, Eq)]
pub struct Said<'a> {
    pub told: Result<Declared<'a>, Refusal>,
}

impl fmt::Display for Said<'_> {
    fn fmt<W: fmt::Write>(&self, f: &mut fmt::Formatter<W>) -> fmt::Result {
        match &self.told {
            Ok(declared) => network::say(f, declared),
            Err(refusal) => write!(f, "refused {}: {refusal}", refusal.number()),
        }
    }
}
