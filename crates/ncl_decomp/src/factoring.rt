//! Products whose common signals are taken out.
ghost use Rattle.std.specs.Prelude.{◌≡◌, ◌<◌, ◌≤◌, ◌+◌, ◌^◌, ◌++◌, ◌∷◌, [], length, count_by, IfOk};
ghost use Rattle.ncl_decomp.specs.Products.{has, under, total};
ghost use Rattle.ncl_decomp.specs.Splitting.{IsSameSum, AddsSum};

use crate::common::common;
use crate::products::{has_empty, without};
use crate::wide::summed;
use ncl_base::{Items, Memory};
use ncl_network::{Node, Signal};
use std::alloc::Global;

/// A signal that is taken out of products, and the products that don't have it.
#[derive(Drop)]
pub(crate) struct Frame {
    /// The signal.
    pub(crate) literal: Signal,
    /// The products without it.
    pub(crate) others: Items<Items<Signal>>,
}

/// The products that don't have a signal, and what is left of those that have it. Linear in their signals.
fn parted(
    alloc: Global,
    literal: Signal,
    sum: &[Items<Signal>],
) -> Result<(Vec<Items<Signal>>, Vec<Items<Signal>>), Memory>
    ensures same { IfOk result (λ parts. IsSameSum sum.now (parts.0.items ++ under literal parts.1.items)) }
    ensures having { IfOk result (λ parts. length parts.1.items ≡ count_by (λ product. has literal product) sum.now) }
{
    let mut others = Vec::new(alloc);
    let mut rests = Vec::new(alloc);
    for product in sum {
        let rest = without(alloc, literal, product.items())?;
        if rest.len() < product.items().len() {
            rests.push(Items::from_vec(rest))?;
        } else {
            others.push(Items::from_vec(rest))?;
        }
    }
    Ok((others, rests))
}

/// Adds nodes for the sum of products, and gives its product with a signal; that signal alone where one of the
/// products has none, which is always 1.
fn inner(
    alloc: Global,
    nodes: &mut Vec<Node>,
    literal: Signal,
    sum: &[Items<Signal>],
) -> Result<Vec<Signal>, Memory>
    requires some { 0 < length sum.now }
    requires few { length nodes.old.items + total sum.now < 2 ^ 32 }
    ensures adds { IfOk result (λ product. AddsSum (under literal sum.now) nodes.old.items nodes.new.items (product.items ∷ [])) }
    ensures short { IfOk result (λ product. length product.items ≤ total sum.now + 1) }
{
    let mut product = Vec::new(alloc);
    product.push(literal)?;
    if !has_empty(sum) {
        let rest = summed(alloc, nodes, sum)?;
        product.push(rest)?;
    }
    Ok(product)
}

/// Adds nodes for products that a signal was taken out of, and gives the others and one for these.
fn closed(
    alloc: Global,
    nodes: &mut Vec<Node>,
    frame: Frame,
    sum: &[Items<Signal>],
) -> Result<Vec<Items<Signal>>, Memory>
    requires few { length nodes.old.items + total sum.now < 2 ^ 32 }
    ensures adds { IfOk result (λ new. AddsSum (frame.others ++ under frame.literal sum.now) nodes.old.items nodes.new.items new.items) }
    ensures short { IfOk result (λ new. total new.items ≤ total frame.others + total sum.now + 1) }
{
    let Frame { literal, others } = frame;
    let mut others = others.into_vec();
    if !sum.is_empty() {
        let product = inner(alloc, nodes, literal, sum)?;
        others.push(Items::from_vec(product))?;
    }
    Ok(others)
}

/// Adds the nodes of products of a sum, and gives products with the same sum, of which no two have a signal in
/// common: the signal that most of them have is taken out, and so on among those that had it and among the others. It ends
/// since two products at least have a signal that is taken out, so that fewer signals are left.
///
/// Each signal is looked at once for each that is tried before it, so the work is at most the signals times the
/// square of twice the inputs.
pub(crate) fn factored(
    alloc: Global,
    nodes: &mut Vec<Node>,
    sum: Vec<Items<Signal>>,
) -> Result<Vec<Items<Signal>>, Memory>
    requires few { length nodes.old.items + total sum.items < 2 ^ 32 }
    ensures { IfOk result (λ new. AddsSum sum.items nodes.old.items nodes.new.items new.items) }
{
    let mut sum = sum;
    let mut frames = Vec::new(alloc);
    loop {
        match common(alloc, &sum)? {
            Some(literal) => {
                let (others, rests) = parted(alloc, literal, &sum)?;
                let others = Items::from_vec(others);
                frames.push(Frame { literal, others })?;
                sum = rests;
            }
            None => match frames.pop() {
                Some(frame) => sum = closed(alloc, nodes, frame, &sum)?,
                None => return Ok(sum),
            },
        }
    }
}
