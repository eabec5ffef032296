//! Ways to make a network anew.

use ncl_network::Network;

/// The nodes of a stage of so few inputs wait for less, whatever its size.
const FEW_INPUTS: usize = 10;

/// So do those of one with at most so many nodes for its inputs: the nodes times the inputs.
const FEW_NODES: usize = 25_000;

/// Whether nodes of a network may wait for less than all that they read. Where more stays high without an input, a judge needs more
/// nodes of decision diagrams, in large stages of many inputs up to ten times as many, and could pass its usual limit where it
/// didn't.
pub fn may_relax(network: &Network) -> bool {
    let inputs = network.inputs as usize;
    let nodes = network.nodes.items().len();
    inputs <= FEW_INPUTS || inputs.saturating_mul(nodes) <= FEW_NODES
}

/// A way to make a network anew: about how many cells nodes of three inputs become, and how many operations on what other nodes
/// compute a node may be made of.
#[derive(Clone, Copy, Debug, PartialEq, Eq)]
pub struct Way {
    /// The cells of a majority.
    pub majority: u8,
    /// The cells of a choice.
    pub choice: u8,
    /// The most operations on what others compute.
    pub borrowed: u8,
}

impl Way {
    /// Where each node waits for all that it reads.
    pub const WAITING: Way = Way {
        majority: 5,
        choice: 5,
        borrowed: 0,
    };

    /// Where nodes may wait for less. Both then have two cells and may need more to wait; a majority is reckoned cheaper, since a sum
    /// can stand beside it.
    pub const EAGER: Way = Way {
        majority: 4,
        choice: 5,
        borrowed: 0,
    };

    /// The same, where a node may also be an operation on what others compute.
    pub const BORROWING: Way = Way {
        majority: 4,
        choice: 5,
        borrowed: 1,
    };

    /// The same, where it may be two operations.
    pub const BORROWING_TWICE: Way = Way {
        majority: 4,
        choice: 5,
        borrowed: 2,
    };
}
