//! The last step to a network: what reaches no output goes, and what costs too much isn't taken.
ghost use Rattle.std.specs.Prelude.{IfOk, IfSome, All};
ghost use Rattle.ncl_network.specs.Prune.{IsInOrder};
ghost use Rattle.ncl_decomp.specs.Split.{IsNarrow, IsSplit};
ghost use Rattle.ncl_cells.specs.Remade.{IsSameAs};

use ncl_base::Memory;
use ncl_network::{Network, prune};
use ncl_plans::{MOST_COST, cost};
use std::alloc::Global;

/// The network without the nodes that reach no output; nothing where it would cost more than any may. Linear in the
/// network. The only error is want of memory.
pub(crate) fn finished(alloc: Global, whole: Network) -> Result<Option<Network>, Memory>
    requires narrow { All IsNarrow whole.nodes }
    requires ordered { IsInOrder whole }
    ensures network { IfOk result (λ found. IfSome found IsSplit) }
    ensures same { IfOk result (λ found. IfSome found (IsSameAs whole)) }
{
    let made = prune(alloc, whole)?;
    if cost(&made) > MOST_COST {
        return Ok(None);
    }
    Ok(Some(made))
}
