// The network of a whole file.
ghost use Rattle.std.specs.Prelude.{IfOk};
ghost use Rattle.draft.specs.Drafting.{Assembles};

use crate::draft::Draft;
use input::Lines;
use network::Assembly;
use std::alloc::{AllocError, Global};

// What the lines of an input declare that are not refused, taken in turn.
pub fn assembled(heap: Global, input: &[u8]) -> Result<Assembly, AllocError>
    ensures { IfOk result (Assembles input.now) }
{
    let mut draft = Draft::new(heap);
    for line in Lines::of(input) {
        draft.pass(line)?;
    }
    Ok(draft.into_assembly())
}
