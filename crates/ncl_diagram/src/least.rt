//! The least word at which a function has a value.
ghost use Rattle.std.specs.Prelude.{◌≡◌, ◌<◌, ◌≤◌, ◌+◌, false, Some, None, length, if◌then◌else◌};
ghost use Rattle.ncl_space.specs.Functions.{least};
ghost use Rattle.ncl_diagram.specs.Nodes.{IsCanonical, table_from};

use crate::nodes::{Nodes, constant};
use crate::operation::child;
use crate::steps::Steps;
use ncl_base::Word;
use ncl_space::Ref;
use std::sync::ledger::{Blank, Ledger};

/// Whether a function has a value at some word, and then `out` is the least of these words. Linear in the
/// bits of a word.
pub(crate) fn find_least<L: Ledger>(
    width: usize,
    nodes: &Nodes,
    x: Ref,
    value: bool,
    out: &mut Word,
    blank: Blank,
) -> bool
    requires width { width ≤ 128 }
    requires canonical { IsCanonical width nodes.now }
    requires there { x.place < length nodes.now + 2 }
    requires name { blank.name ≡ L.name }
    requires parts { blank.parts ≡ L.parts }
    requires some { 0 < blank.parts }
    ensures word { least value width (table_from nodes.now width 0 x.place)
        ≡ (if result then Some out.new else None) }
    ensures unchanged { result ≡ false → out.new ≡ out.old }
{
    let never = constant(!value);
    if x.place == never.place {
        return false;
    }
    let mut steps = Steps::<L>::new(blank);
    let mut word = Word::new();
    let mut at = x;
    for bit in 0..width {
        let node = nodes.read(at, &mut steps);
        let low = child(bit as u8, at, node, false);
        if low.place != never.place {
            word.push(false);
            at = low;
        } else {
            word.push(true);
            at = child(bit as u8, at, node, true);
        }
    }
    *out = word;
    true
}
