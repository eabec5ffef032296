//! Literals at signals.
ghost use Rattle.std.specs.Prelude.{◌≡◌, map, IfOk};
ghost use Rattle.std.specs.List.{slice_index_or};
ghost use Rattle.ncl_network.specs.Network.{is_dash, is_constant};
ghost use Rattle.ncl_network.specs.Fold.{clashes, is_live};

use crate::cover::lets_through;
use crate::network::{Signal, SignalSource};
use ncl_base::Memory;
use ncl_blif::{Lit, Row};
use std::alloc::Global;

/// Whether a literal lets either bit through.
pub(crate) fn is_dash(lit: Lit) -> bool
    ensures { result ≡ is_dash lit }
{
    lit == Lit::Dash
}

/// Whether a signal is a constant.
pub(crate) fn is_constant(signal: Signal) -> bool
    ensures { result ≡ is_constant signal.from }
{
    match signal.from {
        SignalSource::Const(_) => true,
        _ => false,
    }
}

/// Whether a signal is a constant that a literal doesn't let through.
fn clashes(lit: Lit, signal: Signal) -> bool
    ensures { result ≡ clashes lit signal }
{
    match signal.from {
        SignalSource::Const(bit) => {
            let value = if signal.inverted { !bit } else { bit };
            !lets_through(lit, value)
        }
        _ => false,
    }
}

/// Whether no constant among the signals contradicts a row. Linear in the row.
fn is_live(signals: &[Signal], row: &[Lit]) -> bool
    ensures { result ≡ is_live signals.now row.now }
{
    row.iter()
        .zip(signals)
        .all(|(lit, signal)| !clashes(*lit, *signal))
}

/// For each row, whether no constant among the signals contradicts it. Linear in the rows.
pub(crate) fn live_rows(
    alloc: Global,
    signals: &[Signal],
    rows: &[Row],
) -> Result<Vec<bool>, Memory>
    ensures { IfOk result (λ live. live.items ≡ map (is_live signals.now) rows.now) }
{
    let live = rows
        .iter()
        .map(|row| is_live(signals, row.items()))
        .collect(alloc)?;
    Ok(live)
}

/// The literal of a row for a column, or a dash where the row has none.
pub(crate) fn lit_at(row: &Row, column: usize) -> Lit
    ensures { result ≡ slice_index_or row.now column Lit.Dash }
{
    match row.items().get(column) {
        Some(lit) => *lit,
        None => Lit::Dash,
    }
}
