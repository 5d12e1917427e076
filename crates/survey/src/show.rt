// A survey in words.
use crate::survey::{Order, Survey, Totals};
use frozen::Network;
use std::fmt;

impl fmt::Display for Survey {
    fn fmt<W: fmt::Write>(&self, f: &mut fmt::Formatter<W>) -> fmt::Result {
        say_totals(f, self.totals)?;
        match &self.order {
            Order::Levels(network) => say_levels(f, network),
            Order::Circle(circle) => say_circle(f, circle.as_slice()),
        }
    }
}

fn say_totals<W: fmt::Write>(f: &mut fmt::Formatter<W>, all: Totals) -> fmt::Result {
    let counts = [
        (all.reactors, "reactors"),
        (all.inputs, "inputs"),
        (all.outputs, "outputs"),
        (all.timers, "timers"),
        (all.actions, "actions"),
        (all.connections, "connections"),
        (all.reactions, "reactions"),
    ];
    write!(f, "in all: ")?;
    for (count, things) in counts {
        write!(f, "{count} {things}, ")?;
    }
    match all.stop {
        Some(time) => writeln!(f, "stop tag ({time}, 0)"),
        None => writeln!(f, "no stop tag"),
    }
}

fn say_levels<W: fmt::Write>(f: &mut fmt::Formatter<W>, network: &Network) -> fmt::Result {
    for reaction in 0..network.tables().reactions.len() {
        let level = network.level(reaction).unwrap();
        write!(
            f,
            "reaction {reaction}: level {level}, directly preceded by "
        )?;
        say_list(f, network.predecessors(reaction), ", ")?;
        writeln!(f)?;
    }
    Ok(())
}

fn say_circle<W: fmt::Write>(f: &mut fmt::Formatter<W>, circle: &[usize]) -> fmt::Result {
    write!(f, "circle: ")?;
    say_list(f, circle, " -> ")?;
    writeln!(f)
}

fn say_list<W: fmt::Write>(
    f: &mut fmt::Formatter<W>,
    numbers: &[usize],
    between: &str,
) -> fmt::Result {
    let [first, rest @ ..] = numbers else {
        return write!(f, "none");
    };
    write!(f, "{first}")?;
    for number in rest {
        write!(f, "{between}{number}")?;
    }
    Ok(())
}
