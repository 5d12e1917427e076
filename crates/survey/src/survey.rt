// A network seen as a whole.
ghost use Rattle.std.specs.Prelude.{◌≡◌, IfOk, vec_items};
ghost use Rattle.levels.specs.Chains.{Round};
ghost use Rattle.network.specs.Held.{held};
ghost use Rattle.precedence.specs.Direct.{Directly};

use frozen::{Network, freeze};
use network::{Assembly, Tables};
use precedence::{Precedence, PrecedenceError};
use std::alloc::{AllocError, Global};

#[derive(Clone, Copy, Debug, PartialEq, Eq)]
pub struct Totals {
    pub reactors: usize,
    pub inputs: usize,
    pub outputs: usize,
    pub timers: usize,
    pub actions: usize,
    pub connections: usize,
    pub reactions: usize,
    // the time of the stop tag
    pub stop: Option<u64>,
}

impl Totals {
    ghost use Rattle.survey.specs.Surveying.{counted};

    fn of(tables: &Tables) -> Totals
        ensures { result ≡ counted (held tables.now) }
    {
        Totals {
            reactors: tables.reactors,
            inputs: tables.inputs.len(),
            outputs: tables.outputs.len(),
            timers: tables.timers.len(),
            actions: tables.actions.len(),
            connections: tables.connections.len(),
            reactions: tables.reactions.len(),
            stop: tables.stop,
        }
    }
}

// No `Result`: that there is a circle is no error of a survey.
#[derive(Drop)]
pub enum Order {
    Levels(Network),
    // reactions of which each directly precedes the next, from one back to itself
    Circle(Vec<usize>),
}

impl Order {
    ghost use Rattle.survey.specs.Surveying.{Orders};

    fn of(heap: Global, assembly: Assembly) -> Result<Order, AllocError>
        ensures { IfOk result (Orders (held assembly)) }
    {
        match freeze(heap, assembly) {
            Ok(network) => Ok(Order::Levels(network)),
            // After a want of memory too: there may be some by now.
            Err((assembly, _)) => Ok(Order::Circle(circle_in(heap, &assembly)?)),
        }
    }
}

// A circle of an assembly that was not frozen; where it has none, memory was wanting before.
fn circle_in(heap: Global, assembly: &Assembly) -> Result<Vec<usize>, AllocError>
    ensures { IfOk result (λ circle. Round (Directly (held assembly.now)) (vec_items circle)) }
{
    match Precedence::of(heap, assembly.tables()) {
        Ok(_) => Err(AllocError),
        Err(PrecedenceError::Circle(circle)) => Ok(circle),
        Err(PrecedenceError::NoMemory(why)) => Err(why),
    }
}

#[derive(Drop)]
pub struct Survey {
    pub totals: Totals,
    pub order: Order,
}

impl Survey {
    ghost use Rattle.survey.specs.Surveying.{Surveys};

    pub fn of(heap: Global, assembly: Assembly) -> Result<Survey, AllocError>
        ensures { IfOk result (Surveys (held assembly)) }
    {
        let totals = Totals::of(assembly.tables());
        let order = Order::of(heap, assembly)?;
        Ok(Survey { totals, order })
    }
}
