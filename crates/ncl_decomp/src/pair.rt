//! Nodes of two inputs.
ghost use Rattle.std.specs.Prelude.{◌≡◌, IfOk};
ghost use Rattle.ncl_decomp.specs.Pairs.{pair_node};

use ncl_base::{Items, Memory};
use ncl_blif::Lit;
use ncl_network::{Node, Signal};
use std::alloc::Global;

/// What a node of two inputs makes of them.
#[derive(Clone, Copy, Debug, PartialEq, Eq)]
pub enum Joint {
    /// 1 where both are.
    And,
    /// 1 where one of them is.
    Or,
    /// The first, whatever the second is.
    Join,
}

/// A node of two inputs.
pub(crate) fn pair(
    alloc: Global,
    joint: Joint,
    first: Signal,
    second: Signal,
) -> Result<Node, Memory>
    ensures { IfOk result (λ node. node ≡ pair_node joint first second) }
{
    let (on, lits) = match joint {
        Joint::And => (true, vec![in alloc; Lit::One, Lit::One]?),
        Joint::Or => (false, vec![in alloc; Lit::Zero, Lit::Zero]?),
        Joint::Join => (true, vec![in alloc; Lit::One, Lit::Dash]?),
    };
    let ins = vec![in alloc; first, second]?;
    let mut rows = Vec::new(alloc);
    rows.push(Items::from_vec(lits))?;
    Ok(Node {
        ins: Items::from_vec(ins),
        on,
        rows: Items::from_vec(rows),
    })
}
