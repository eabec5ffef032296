//! Tables of nodes.
ghost use Rattle.std.specs.Prelude.{◌≡◌, ◌≤◌, ◌∷◌, ◌++◌, [], length};
ghost use Rattle.ncl_template.specs.Template.{node_function};
ghost use Rattle.ncl_template.specs.Tables.{row_of, inverse_row, difference_row, table_of, difference_table};

use arrayvec::ArrayVec;
use ncl_network::{Node, cover_bit};

/// The values of a function of two bits at 00, 01, 10 and 11.
#[derive(Clone, Copy)]
pub(crate) struct TableRow {
    pub at_00: bool,
    pub at_01: bool,
    pub at_10: bool,
    pub at_11: bool,
}

/// The values of a function of three bits: where the first is 0, and where it is 1.
#[derive(Clone, Copy)]
pub(crate) struct Table {
    pub low: TableRow,
    pub high: TableRow,
}

impl TableRow {
    /// The values of the inverse.
    pub(crate) fn inverse(self) -> TableRow
        ensures { result ≡ inverse_row self }
    {
        TableRow {
            at_00: !self.at_00,
            at_01: !self.at_01,
            at_10: !self.at_10,
            at_11: !self.at_11,
        }
    }

    /// The values of whether two functions differ.
    pub(crate) fn difference(self, other: TableRow) -> TableRow
        ensures { result ≡ difference_row self other }
    {
        TableRow {
            at_00: self.at_00 != other.at_00,
            at_01: self.at_01 != other.at_01,
            at_10: self.at_10 != other.at_10,
            at_11: self.at_11 != other.at_11,
        }
    }
}

impl Table {
    /// The values of whether two functions differ.
    pub(crate) fn difference(self, other: Table) -> Table
        ensures { result ≡ difference_table self other }
    {
        Table {
            low: self.low.difference(other.low),
            high: self.high.difference(other.high),
        }
    }
}

/// The bit of a node at a word. Linear in the rows.
pub(crate) fn node_bit(node: &Node, word: &[bool]) -> bool
    ensures { result ≡ node_function node.now word.now }
{
    cover_bit(node.on, node.rows.items(), word)
}

/// The bit of a node at a word of some first bits and two last ones.
fn bit_behind(node: &Node, first: &[bool], x: bool, y: bool) -> bool
    requires { length first.now ≤ 2 }
    ensures { result ≡ node_function node.now (first.now ++ x ∷ y ∷ []) }
{
    let mut word = ArrayVec::<bool, 4>::new();
    for bit in first {
        word.push(*bit);
    }
    word.push(x);
    word.push(y);
    node_bit(node, word.as_slice())
}

/// The values of a node at the words that begin with these bits and have two more.
pub(crate) fn row_behind(node: &Node, first: &[bool]) -> TableRow
    requires { length first.now ≤ 2 }
    ensures { result ≡ row_of (λ word. node_function node.now (first.now ++ word)) }
{
    TableRow {
        at_00: bit_behind(node, first, false, false),
        at_01: bit_behind(node, first, false, true),
        at_10: bit_behind(node, first, true, false),
        at_11: bit_behind(node, first, true, true),
    }
}

/// The values of a node of three inputs.
pub(crate) fn table_of_three(node: &Node) -> Table
    ensures { result ≡ table_of (node_function node.now) }
{
    Table {
        low: row_behind(node, &[false]),
        high: row_behind(node, &[true]),
    }
}

/// The values of a node of four inputs where the first is this bit.
pub(crate) fn table_of_four(node: &Node, first: bool) -> Table
    ensures { result ≡ table_of (λ word. node_function node.now (first ∷ word)) }
{
    Table {
        low: row_behind(node, &[first, false]),
        high: row_behind(node, &[first, true]),
    }
}
