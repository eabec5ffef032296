//! Products of signals.
ghost use Rattle.std.specs.Prelude.{◌≡◌, map, count_by, IfOk};
ghost use Rattle.std.specs.List.{list_any};
ghost use Rattle.ncl_decomp.specs.Rows.{literals_of};
ghost use Rattle.ncl_decomp.specs.Products.{same_signal, other_than, has, without, is_empty};

use crate::literals::literals;
use ncl_base::{Items, Memory};
use ncl_blif::Row;
use ncl_network::{Signal, SignalSource};
use std::alloc::Global;

/// The products of the rows of a cover over some signals. Linear in the rows.
pub(crate) fn products(
    alloc: Global,
    ins: &[Signal],
    rows: &[Row],
) -> Result<Vec<Items<Signal>>, Memory>
    ensures { IfOk result (λ sum. sum.items ≡ map (literals_of ins.now) rows.now) }
{
    let mut sum = Vec::new(alloc);
    for row in rows {
        let product = literals(alloc, ins, row.items())?;
        sum.push(Items::from_vec(product))?;
    }
    Ok(sum)
}

/// Whether two signals are the same bit of one input or node.
fn is_same(first: Signal, second: Signal) -> bool
    ensures { result ≡ same_signal first second }
{
    let from = match (first.from, second.from) {
        (SignalSource::Input(i), SignalSource::Input(j)) => i == j,
        (SignalSource::Node(i), SignalSource::Node(j)) => i == j,
        _ => false,
    };
    from && (if first.inverted {
        second.inverted
    } else {
        !second.inverted
    })
}

/// A signal, unless it is this one.
fn other_than(literal: Signal, signal: Signal) -> Option<Signal>
    ensures { result ≡ other_than literal signal }
{
    if is_same(signal, literal) {
        None
    } else {
        Some(signal)
    }
}

/// Whether a product has a signal. Linear in it.
fn has(literal: Signal, product: &[Signal]) -> bool
    ensures { result ≡ has literal product.now }
{
    product.iter().any(|signal| is_same(*signal, literal))
}

/// How many products have a signal. Linear in their signals.
pub(crate) fn having(literal: Signal, sum: &[Items<Signal>]) -> usize
    ensures { result ≡ count_by (λ product. has literal product) sum.now }
{
    sum.iter()
        .filter(|product| has(literal, product.items()))
        .count()
}

/// A product without one of its signals. Linear in it.
pub(crate) fn without(
    alloc: Global,
    literal: Signal,
    product: &[Signal],
) -> Result<Vec<Signal>, Memory>
    ensures { IfOk result (λ rest. rest.items ≡ without literal product.now) }
{
    let rest = product
        .iter()
        .filter_map(|signal| other_than(literal, *signal))
        .collect(alloc)?;
    Ok(rest)
}

/// Whether one of some products has no signal.
pub(crate) fn has_empty(sum: &[Items<Signal>]) -> bool
    ensures { result ≡ list_any is_empty sum.now }
{
    sum.iter().any(|product| product.items().is_empty())
}
