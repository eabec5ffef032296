//! The gates of one node.
ghost use Rattle.std.specs.Prelude.{◌≡◌, ℕ, ◌+◌, ◌*◌, ◌<◌, ◌≤◌, ◌^◌, ◌∷◌, [], List, Bool, IfOk, Some, length, slice_get};
ghost use Rattle.ncl_shape.specs.declared.rails.Rails.{Rails};
ghost use Rattle.ncl_shape.specs.declared.stage.StageCell.{StageCell};
ghost use Rattle.ncl_decomp.specs.Split.{IsNarrow, cost_of_inputs};
ghost use Rattle.ncl_tree.specs.Gates.{nets_so_far};
ghost use Rattle.ncl_template.specs.Template.{node_function};
ghost use Rattle.ncl_template.specs.Tables.{row_value, table_value, choice, differs};
ghost use Rattle.ncl_template.specs.Formed.{AddsTemplate};

use crate::gate::add_two_gate;
use crate::table::{Table, TableRow, row_behind, table_of_four, table_of_three};
use ncl_base::Memory;
use ncl_network::Node;
use ncl_shape::Rails;
use ncl_tree::Gates;

/// Whether both inputs are 1.
const BOTH: TableRow = TableRow {
    at_00: false,
    at_01: false,
    at_10: false,
    at_11: true,
};

/// Whether two inputs differ.
const DIFFERENT: TableRow = TableRow {
    at_00: false,
    at_01: true,
    at_10: true,
    at_11: false,
};

/// Adds the gates of a function of two inputs: one for each rail.
fn add_two(gates: &mut Gates, row: TableRow, a: Rails, b: Rails) -> Result<Rails, Memory>
    requires room { nets_so_far gates.old + 2 < 2 ^ 32 }
    ensures template { IfOk result (AddsTemplate (row_value row) (a ∷ b ∷ []) (a ∷ b ∷ []) 2 gates.old.cells gates.new.cells) }
    ensures few { nets_so_far gates.new ≤ nets_so_far gates.old + 2 }
    ensures first { gates.new.first ≡ gates.old.first }
{
    let zero = add_two_gate(gates, row.inverse(), a, b)?;
    let one = add_two_gate(gates, row, a, b)?;
    Ok(Rails { zero, one })
}

/// Adds the gates of a function whose first input is `x`, where `same` is what it is where that is 0, and `change` whether it
/// is another where that is 1: those of whether both `x` and `change` are 1, and of whether that differs from `same`.
fn add_changed(gates: &mut Gates, x: Rails, same: Rails, change: Rails) -> Result<Rails, Memory>
    requires room { nets_so_far gates.old + 4 < 2 ^ 32 }
    ensures template { IfOk result (λ out. (rest : List Rails) (low high : List Bool → Bool) (most : ℕ) (before now : List StageCell)
        → AddsTemplate low rest rest most before now same
        → AddsTemplate (differs low high) rest rest most now gates.old.cells change
        → AddsTemplate (choice low high) (x ∷ rest) (x ∷ rest) (2 * most + 4) before gates.new.cells out) }
    ensures few { nets_so_far gates.new ≤ nets_so_far gates.old + 4 }
    ensures first { gates.new.first ≡ gates.old.first }
{
    let changed = add_two(gates, BOTH, x, change)?;
    let out = add_two(gates, DIFFERENT, same, changed)?;
    Ok(out)
}

/// Adds the gates of a function of three inputs, as pairs.
fn add_three(gates: &mut Gates, table: Table, a: Rails, b: Rails, c: Rails) -> Result<Rails, Memory>
    requires room { nets_so_far gates.old + 8 < 2 ^ 32 }
    ensures template { IfOk result (AddsTemplate (table_value table) (a ∷ b ∷ c ∷ []) (a ∷ b ∷ c ∷ []) 8 gates.old.cells gates.new.cells) }
    ensures few { nets_so_far gates.new ≤ nets_so_far gates.old + 8 }
    ensures first { gates.new.first ≡ gates.old.first }
{
    let same = add_two(gates, table.low, b, c)?;
    let change = add_two(gates, table.low.difference(table.high), b, c)?;
    let out = add_changed(gates, a, same, change)?;
    Ok(out)
}

/// Adds the gates of a function of four inputs, as pairs, given where the first is 0 and where it is 1.
fn add_four(
    gates: &mut Gates,
    low: Table,
    high: Table,
    first: Rails,
    others: (Rails, Rails, Rails),
) -> Result<Rails, Memory>
    requires room { nets_so_far gates.old + 20 < 2 ^ 32 }
    ensures template { IfOk result (AddsTemplate (choice (table_value low) (table_value high)) (first ∷ others.0 ∷ others.1 ∷ others.2 ∷ []) (first ∷ others.0 ∷ others.1 ∷ others.2 ∷ []) 20 gates.old.cells gates.new.cells) }
    ensures first { gates.new.first ≡ gates.old.first }
{
    let same = add_three(gates, low, others.0, others.1, others.2)?;
    let change = add_three(gates, low.difference(high), others.0, others.1, others.2)?;
    let out = add_changed(gates, first, same, change)?;
    Ok(out)
}

/// The pair at a place.
fn pair(ins: &[Rails], place: usize) -> Rails
    requires { place < length ins.now }
    ensures { slice_get ins.now place ≡ Some result }
{
    ins[place]
}

/// Adds the gates of a node over the pairs of what it reads, and gives the pair that shows its bit: 2 gates for two
/// inputs, 8 for three and 20 for four. Pairs may be equal, or each other's inverse.
///
/// Linear in the rows of the node. The only error is want of memory.
pub(crate) fn add_template(gates: &mut Gates, node: &Node, ins: &[Rails]) -> Result<Rails, Memory>
    requires narrow { IsNarrow node.now }
    requires as_many { length ins.now ≡ length node.now.ins }
    requires room { nets_so_far gates.old + 32 < 2 ^ 32 }
    ensures template { IfOk result (λ out. AddsTemplate (node_function node.now) ins.now ins.now (cost_of_inputs (length node.now.ins)) gates.old.cells gates.new.cells out) }
    ensures first { gates.new.first ≡ gates.old.first }
{
    let a = pair(ins, 0);
    let b = pair(ins, 1);
    if ins.len() == 2 {
        let row = row_behind(node, &[]);
        let of_two = add_two(gates, row, a, b)?;
        return Ok(of_two);
    }
    let c = pair(ins, 2);
    if ins.len() == 3 {
        let table = table_of_three(node);
        let of_three = add_three(gates, table, a, b, c)?;
        return Ok(of_three);
    }
    let d = pair(ins, 3);
    let low = table_of_four(node, false);
    let high = table_of_four(node, true);
    let of_four = add_four(gates, low, high, a, (b, c, d))?;
    Ok(of_four)
}
