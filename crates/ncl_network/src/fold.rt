//! One cover, folded.
ghost use Rattle.std.specs.Prelude.{◌≡◌, ◌≤◌, ◌<◌, ℕ, List, [], ◌∷◌, Bool, false, map, not, if◌then◌else◌, IfOk, length, All};
ghost use Rattle.std.specs.List.{list_all, list_any, slice_index_or};
ghost use Rattle.ncl_blif.specs.Meaning.{cover_value};
ghost use Rattle.ncl_blif.specs.Model.{weight_of_rows};
ghost use Rattle.ncl_network.specs.Network.{is_dash, is_constant, signal_value, IsSource};
ghost use Rattle.ncl_network.specs.Fold.{two_level, folded_value, weight_of_folded, IsFolded, HasSources, is_one, is_zero};

use crate::columns::kept_columns;
use crate::literals::{is_dash, lit_at, live_rows};
use crate::network::{Node, Signal, SignalSource};
use crate::select::{select, select_rows};
use ncl_base::{Items, Memory};
use ncl_blif::{Lit, Row};
use std::alloc::Global;

/// What a cover folds into.
#[derive(Drop)]
pub(crate) enum Folded {
    /// A signal that there is, or a constant.
    Signal(Signal),
    /// A node.
    Node(Node),
}

/// The signal that is always this bit.
fn constant(bit: bool) -> Signal
    ensures value { (word nodes : List Bool) → signal_value word nodes result ≡ bit }
    ensures source { (inputs count : ℕ) → IsSource inputs count result.from }
{
    Signal {
        from: SignalSource::Const(bit),
        inverted: false,
    }
}

/// The signal, or its inverse where it is turned.
fn turn(signal: Signal, turned: bool) -> Signal
    ensures value { (word nodes : List Bool) → signal_value word nodes result ≡ (if turned then not (signal_value word nodes signal) else signal_value word nodes signal) }
    ensures source { result.from ≡ signal.from }
{
    let inverted = if turned {
        !signal.inverted
    } else {
        signal.inverted
    };
    Signal {
        from: signal.from,
        inverted,
    }
}

/// Whether a row is of dashes alone. Linear in the row.
fn is_idle(row: &[Lit]) -> bool
    ensures { result ≡ list_all is_dash row.now }
{
    row.iter().all(|lit| is_dash(*lit))
}

/// Whether some row is of dashes alone. Linear in the rows.
fn has_idle_row(rows: &[Row]) -> bool
    ensures { result ≡ list_any (list_all is_dash) rows.now }
{
    rows.iter().any(|row| is_idle(row.items()))
}

/// Whether some row asks for a 1 in the first column. Linear in the rows.
fn asks_for_one(rows: &[Row]) -> bool
    ensures { result ≡ list_any (λ lits. is_one (slice_index_or lits 0 Lit.Dash)) rows.now }
{
    rows.iter().any(|row| match lit_at(row, 0) {
        Lit::One => true,
        _ => false,
    })
}

/// Whether some row asks for a 0 in the first column. Linear in the rows.
fn asks_for_zero(rows: &[Row]) -> bool
    ensures { result ≡ list_any (λ lits. is_zero (slice_index_or lits 0 Lit.Dash)) rows.now }
{
    rows.iter().any(|row| match lit_at(row, 0) {
        Lit::Zero => true,
        _ => false,
    })
}

/// The signal that a cover of one input is, where no row is of dashes alone. Linear in the rows.
fn buffer(signal: Signal, on: bool, rows: &[Row]) -> Signal
    requires some { 0 < length rows.now }
    requires widths { All (λ row. length row ≡ 1) rows.now }
    requires asking { list_any (list_all is_dash) rows.now ≡ false }
    ensures value { (word nodes : List Bool) → signal_value word nodes result ≡ two_level on rows.now (signal_value word nodes signal ∷ []) }
    ensures source { (inputs count : ℕ) → IsSource inputs count signal.from → IsSource inputs count result.from }
{
    let one = asks_for_one(rows);
    if one && asks_for_zero(rows) {
        return constant(on);
    }
    turn(signal, one != on)
}

/// What a cover without constants among its inputs folds into. Linear in the rows.
fn settle(ins: Vec<Signal>, on: bool, rows: Vec<Row>) -> Folded
    requires widths { All (λ row. length row ≡ length ins.items) rows.items }
    requires no_constant { All (λ signal. is_constant signal.from ≡ false) ins.items }
    ensures value { (word nodes : List Bool) → folded_value word nodes result ≡ two_level on rows.items (map (signal_value word nodes) ins.items) }
    ensures folded { IsFolded result }
    ensures sources { (inputs count : ℕ) → All (λ signal. IsSource inputs count signal.from) ins.items → HasSources inputs count result }
    ensures weight { weight_of_folded result ≤ weight_of_rows rows.items }
{
    if rows.is_empty() {
        return Folded::Signal(constant(!on));
    }
    if has_idle_row(&rows) {
        return Folded::Signal(constant(on));
    }
    if ins.len() == 1 {
        return Folded::Signal(buffer(ins[0], on, &rows));
    }
    Folded::Node(Node {
        ins: Items::from_vec(ins),
        on,
        rows: Items::from_vec(rows),
    })
}

/// What a cover folds into whose inputs are these signals. Linear in the rows.
pub(crate) fn fold_cover(
    alloc: Global,
    signals: &[Signal],
    on: bool,
    rows: &[Row],
) -> Result<Folded, Memory>
    requires { All (λ row. length row ≡ length signals.now) rows.now }
    ensures value { IfOk result (λ folded. (word nodes : List Bool) → folded_value word nodes folded ≡ cover_value on rows.now (map (signal_value word nodes) signals.now)) }
    ensures folded { IfOk result IsFolded }
    ensures sources { IfOk result (λ folded. (inputs count : ℕ) → All (λ signal. IsSource inputs count signal.from) signals.now → HasSources inputs count folded) }
    ensures weight { IfOk result (λ folded. weight_of_folded folded ≤ weight_of_rows rows.now) }
{
    if rows.is_empty() {
        return Ok(Folded::Signal(constant(false)));
    }
    let live = live_rows(alloc, signals, rows)?;
    let kept = kept_columns(alloc, signals, rows, &live)?;
    let ins = select(alloc, &kept, signals)?;
    let rows = select_rows(alloc, &kept, &live, rows)?;
    Ok(settle(ins, on, rows))
}
