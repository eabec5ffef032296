//! Functions of four bits as tables: bit w of a table is the value at the word w, and bit k of w is input k.
ghost use Rattle.std.specs.Prelude.{◌≡◌};
ghost use Rattle.ncl_decomp.specs.Words.{word_of};

use ncl_blif::{Lit, Row};

/// The word of four bits of a number: bit k of the word is bit k of the number.
pub fn word_of(number: u32) -> [bool; 4]
    ensures { result ≡ word_of 4 number }
{
    let half = number / 2;
    let quarter = half / 2;
    let eighth = quarter / 2;
    [
        number % 2 == 1,
        half % 2 == 1,
        quarter % 2 == 1,
        eighth % 2 == 1,
    ]
}

/// The tables of the four inputs.
pub const INPUTS: [u16; 4] = [0xAAAA, 0xCCCC, 0xF0F0, 0xFF00];

/// The table of an input.
pub fn input(k: usize) -> u16 {
    INPUTS[k % 4]
}

/// The table where an input has this bit. It doesn't depend on it any more.
pub fn cofactor(table: u16, k: usize, bit: bool) -> u16 {
    let mask = input(k);
    let part = if bit { table & mask } else { table & !mask };
    let shift = [1u32, 2, 4, 8][k % 4];
    if bit {
        part | (part >> shift)
    } else {
        part | (part << shift)
    }
}

/// Whether a table depends on an input.
pub fn depends(table: u16, k: usize) -> bool {
    cofactor(table, k, false) != cofactor(table, k, true)
}

/// On how many inputs a table depends.
pub fn support(table: u16) -> usize {
    let mut count = 0usize;
    for k in 0..4usize {
        if depends(table, k) {
            count = count.saturating_add(1);
        }
    }
    count
}

/// The table that is one where an input is 0, and another where it is 1.
pub fn joined(k: usize, low: u16, high: u16) -> u16 {
    let mask = input(k);
    (low & !mask) | (high & mask)
}

/// A table with an input inverted.
pub fn inverted(table: u16, k: usize) -> u16 {
    joined(k, cofactor(table, k, true), cofactor(table, k, false))
}

/// The table of a row over inputs with these tables. Linear in it.
fn row_table(row: &[Lit], inputs: &[u16]) -> u16 {
    let mut table = 0xFFFFu16;
    for (lit, input) in row.iter().zip(inputs) {
        table &= match lit {
            Lit::One => *input,
            Lit::Zero => !*input,
            Lit::Dash => 0xFFFF,
        };
    }
    table
}

/// The table of a cover over inputs with these tables. Linear in its rows.
pub fn cover_table(on: bool, rows: &[Row], inputs: &[u16]) -> u16 {
    let mut table = 0u16;
    for row in rows {
        table |= row_table(row.items(), inputs);
    }
    if on { table } else { !table }
}
