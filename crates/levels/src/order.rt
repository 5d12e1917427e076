// The nodes of a graph in the order of their levels.
ghost use Rattle.std.specs.Prelude.{◌≡◌, IfOk};
ghost use Rattle.levels.specs.Ordered.{by_level};

use std::alloc::{AllocError, Global};

// The nodes by level, and those of one level by number; a level is below the number of nodes.
pub(crate) fn order_of(heap: Global, levels: &[usize]) -> Result<Vec<usize>, AllocError>
    ensures { IfOk result (λ v. v.items ≡ by_level levels.now) }
{
    let nodes = levels.len();
    (0..nodes)
        .flat_map(|level| (0..nodes).filter(move |node| levels[*node] == level))
        .collect(heap)
}
