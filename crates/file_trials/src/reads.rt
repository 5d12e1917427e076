// What is read of a frozen network, reaction by reaction and input by input.
use frozen::Network;
use std::fmt;

#[derive(Clone, Copy)]
pub(crate) struct Reads<'a> {
    pub(crate) network: &'a Network,
}

impl fmt::Display for Reads<'_> {
    fn fmt<W: fmt::Write>(&self, f: &mut fmt::Formatter<W>) -> fmt::Result {
        say_order(f, self.network)?;
        for reaction in 0..self.network.tables().reactions.len() {
            write!(f, "reaction {reaction}:")?;
            say_readings(f, self.network, reaction)?;
            say_targets(f, self.network, reaction)?;
        }
        say_joinings(f, self.network)
    }
}

fn say_order<W: fmt::Write>(f: &mut fmt::Formatter<W>, network: &Network) -> fmt::Result {
    write!(f, "order")?;
    for reaction in network.order() {
        write!(f, " {reaction}")?;
    }
    writeln!(f)
}

fn say_readings<W: fmt::Write>(
    f: &mut fmt::Formatter<W>,
    network: &Network,
    reaction: usize,
) -> fmt::Result {
    for reading in network.readings(reaction) {
        write!(f, " {} {}", reading.kind, reading.source)?;
    }
    Ok(())
}

fn say_targets<W: fmt::Write>(
    f: &mut fmt::Formatter<W>,
    network: &Network,
    reaction: usize,
) -> fmt::Result {
    write!(f, " |")?;
    for target in network.targets(reaction) {
        write!(f, " {} {}", target.kind, target.number)?;
    }
    writeln!(f)
}

fn say_joinings<W: fmt::Write>(f: &mut fmt::Formatter<W>, network: &Network) -> fmt::Result {
    for input in 0..network.tables().inputs.len() {
        for joining in network.joinings(input) {
            writeln!(
                f,
                "input {input} from {} after {}",
                joining.output, joining.delay
            )?;
        }
    }
    Ok(())
}
