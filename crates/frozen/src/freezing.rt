// Freezing an assembly.
ghost use Rattle.frozen.specs.Freezing.{Freezes};

use crate::frozen::Network;
use network::Assembly;
use precedence::Precedence;
use refusals::BuildError;
use std::alloc::Global;

// Takes the assembly away, or hands it back where a chain of direct precedences leads from some reaction to itself.
#[tactic(auto, using(crate::proofs::Answered::handed_back))]
pub fn freeze(heap: Global, assembly: Assembly) -> Result<Network, (Assembly, BuildError)>
    ensures { Freezes assembly result }
{
    match Precedence::of(heap, assembly.tables()) {
        Ok(precedence) => Ok(Network {
            assembly,
            precedence,
        }),
        Err(error) => Err((assembly, error.into())),
    }
}
