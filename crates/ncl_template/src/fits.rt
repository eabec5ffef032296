//! What the table has for nodes, kept while a network is looked at.
use crate::fitting::{Fit, fit_of, is_offered, node_table};
use crate::waits::Waits;
use ncl_base::Memory;
use ncl_network::Node;
use std::alloc::Global;
use std::collections::HashMap;

/// A function of so many inputs, by its table, and for which of these its gates are to wait.
type Asked = (usize, u16, Waits);

/// What was found for functions. Each is looked for in the table once.
#[derive(Drop)]
pub struct Fits {
    fits: HashMap<Asked, Fit>,
    offers: HashMap<Asked, bool>,
}

impl Fits {
    /// Nothing yet.
    pub fn new(alloc: Global) -> Fits {
        Fits {
            fits: HashMap::new(alloc),
            offers: HashMap::new(alloc),
        }
    }

    /// The gates of a node that wait for these inputs at least, as `fit_of` says. Linear in the rows of the node. The only error is
    /// want of memory.
    pub fn of(&mut self, node: &Node, waits: Waits) -> Result<Fit, Memory> {
        let asked = (node.ins.items().len(), node_table(node), waits);
        if let Some(known) = self.fits.get(&asked) {
            return Ok(*known);
        }
        let fit = fit_of(node, waits);
        self.fits.insert(asked, fit)?;
        Ok(fit)
    }

    /// Whether the table has gates for a function of so many inputs, given by its table, that wait for these: bit w of a table
    /// is the value at the word w, and bit k of w is input k. The only error is want of memory.
    pub fn has(&mut self, inputs: usize, table: u16, waits: Waits) -> Result<bool, Memory> {
        let asked = (inputs, table, waits);
        if let Some(known) = self.offers.get(&asked) {
            return Ok(*known);
        }
        let offered = is_offered(inputs, table, waits);
        self.offers.insert(asked, offered)?;
        Ok(offered)
    }
}
