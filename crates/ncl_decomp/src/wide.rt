//! One node, split.
ghost use Rattle.std.specs.Prelude.{◌≡◌, ◌<◌, ◌+◌, ◌^◌, ◌∷◌, [], length, All, IfOk};
ghost use Rattle.ncl_blif.specs.Model.{weight_of_rows};
ghost use Rattle.ncl_network.specs.Network.{IsNode};
ghost use Rattle.ncl_decomp.specs.Products.{total, IsFilled};
ghost use Rattle.ncl_decomp.specs.Splitting.{AddsTerms, AddsSum, AddsNode};

use crate::factoring::factored;
use crate::literals::turned;
use crate::pair::Joint;
use crate::products::products;
use crate::rows::copied_rows;
use crate::tree::join;
use ncl_base::{Items, Memory};
use ncl_network::{Node, Signal, SignalSource};
use std::alloc::Global;

/// Adds the nodes that tell of each product whether it is 1, and gives their signals in order. Linear in the
/// products.
fn terms(alloc: Global, nodes: &mut Vec<Node>, sum: &[Items<Signal>]) -> Result<Vec<Signal>, Memory>
    requires filled { All IsFilled sum.now }
    requires few { length nodes.old.items + total sum.now < 2 ^ 32 }
    ensures { IfOk result (λ terms. AddsTerms sum.now nodes.old.items nodes.new.items terms.items) }
{
    let mut terms = Vec::new(alloc);
    for product in sum {
        let leaves = product.items().to_vec(alloc)?;
        let term = join(alloc, nodes, Joint::And, leaves)?;
        terms.push(term)?;
    }
    Ok(terms)
}

/// Adds the nodes of a sum of products, and gives its signal: a balanced tree for each product, and one over them.
/// Linear in the products.
pub(crate) fn summed(
    alloc: Global,
    nodes: &mut Vec<Node>,
    sum: &[Items<Signal>],
) -> Result<Signal, Memory>
    requires some { 0 < length sum.now }
    requires filled { All IsFilled sum.now }
    requires few { length nodes.old.items + total sum.now < 2 ^ 32 }
    ensures { IfOk result (λ signal. AddsSum sum.now nodes.old.items nodes.new.items ((signal ∷ []) ∷ [])) }
{
    let terms = terms(alloc, nodes, sum)?;
    let signal = join(alloc, nodes, Joint::Or, terms)?;
    Ok(signal)
}

/// Adds the nodes that a node becomes whose inputs are these signals, and gives its signal: the node as it is, linear
/// in it, or the nodes of its sum of products, which cost as `factored` does.
pub(crate) fn split_node(
    alloc: Global,
    nodes: &mut Vec<Node>,
    ins: Vec<Signal>,
    node: &Node,
) -> Result<Signal, Memory>
    requires node { IsNode node.now }
    requires inputs { length ins.items ≡ length node.now.ins }
    requires few { length nodes.old.items + weight_of_rows node.now.rows < 2 ^ 32 }
    ensures { IfOk result (AddsNode ins.items node.now nodes.old.items nodes.new.items) }
{
    if ins.len() <= 4 {
        let from = SignalSource::Node(nodes.len() as u32);
        let rows = copied_rows(alloc, node.rows.items())?;
        nodes.push(Node {
            ins: Items::from_vec(ins),
            on: node.on,
            rows,
        })?;
        return Ok(Signal {
            from,
            inverted: false,
        });
    }
    let given = products(alloc, &ins, node.rows.items())?;
    let factors = factored(alloc, nodes, given)?;
    let signal = summed(alloc, nodes, &factors)?;
    Ok(if node.on { signal } else { turned(signal) })
}
