//! What nodes wait for, where they need not wait for what others hold.

use crate::joiner::Joiner;
use ncl_base::Memory;
use ncl_network::Network;
use ncl_plans::may_relax;
use ncl_template::Waits;
use std::alloc::Global;

/// What each node waits for; where none is told, each waits for all. Linear in the network. The only error is want of memory.
pub fn waits_found(alloc: Global, network: &Network) -> Result<Vec<Waits>, Memory> {
    if !may_relax(network) {
        return Ok(Vec::new(alloc));
    }
    let mut joiner = Joiner::new(alloc, network, true)?;
    joiner.relax(2, 4)?;
    Ok(joiner.joins()?.waits)
}
