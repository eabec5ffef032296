//! The columns of a cover that matter.
ghost use Rattle.std.specs.Prelude.{◌≡◌, IfOk};
ghost use Rattle.ncl_network.specs.Fold.{is_asked, kept_columns};

use crate::literals::{is_constant, is_dash, lit_at};
use crate::network::Signal;
use ncl_base::Memory;
use ncl_blif::Row;
use std::alloc::Global;

/// Whether some live row has no dash in a column. Linear in the rows.
fn is_asked(rows: &[Row], live: &[bool], column: usize) -> bool
    ensures { result ≡ is_asked rows.now live.now column }
{
    rows.iter()
        .zip(live)
        .any(|(row, live)| *live && !is_dash(lit_at(row, column)))
}

/// For each column, whether it is kept: its signal is no constant, and some live row has no dash in it.
/// Linear in the rows.
pub(crate) fn kept_columns(
    alloc: Global,
    signals: &[Signal],
    rows: &[Row],
    live: &[bool],
) -> Result<Vec<bool>, Memory>
    ensures { IfOk result (λ kept. kept.items ≡ kept_columns signals.now rows.now live.now) }
{
    let kept = signals
        .iter()
        .enumerate()
        .map(|(column, signal)| !is_constant(*signal) && is_asked(rows, live, column))
        .collect(alloc)?;
    Ok(kept)
}
