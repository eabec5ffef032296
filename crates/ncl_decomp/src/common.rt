//! The signal that stands most often in some products.
ghost use Rattle.std.specs.Prelude.{◌≤◌, count_by, IfOk, IfSome};
ghost use Rattle.ncl_decomp.specs.Products.{has};

use crate::products::having;
use ncl_base::{Items, Memory};
use ncl_network::{Signal, SignalSource};
use std::alloc::Global;

/// A number for each signal, by which signals are put in order.
fn key(signal: Signal) -> u64 {
    let number = match signal.from {
        SignalSource::Input(number) => u64::from(number) * 4,
        SignalSource::Node(number) => u64::from(number) * 4 + 2,
        SignalSource::Const(_) => u64::MAX - 1,
    };
    number + u64::from(signal.inverted)
}

/// Adds the signals of a product to others.
fn add(signals: &mut Vec<Signal>, product: &[Signal]) -> Result<(), Memory> {
    for signal in product {
        signals.push(*signal)?;
    }
    Ok(())
}

/// The signal that stands most often in a row, if one does twice.
fn longest_run(signals: &[Signal]) -> Option<Signal> {
    let mut found = None;
    let mut most = 1usize;
    let mut run = 0usize;
    let mut last = None;
    for signal in signals {
        run = if last == Some(key(*signal)) {
            run.saturating_add(1)
        } else {
            1
        };
        if run > most {
            most = run;
            found = Some(*signal);
        }
        last = Some(key(*signal));
    }
    found
}

/// The signal that stands most often in some products, if two of them have it. The signals are sorted.
pub(crate) fn common(alloc: Global, sum: &[Items<Signal>]) -> Result<Option<Signal>, Memory>
    ensures { IfOk result (λ found. IfSome found (λ literal. 2 ≤ count_by (λ product. has literal product) sum.now)) }
{
    let mut signals = Vec::new(alloc);
    for product in sum {
        add(&mut signals, product.items())?;
    }
    signals.sort_by_key(|signal: &Signal| key(*signal))?;
    match longest_run(&signals) {
        Some(literal) if having(literal, sum) >= 2 => Ok(Some(literal)),
        _ => Ok(None),
    }
}
