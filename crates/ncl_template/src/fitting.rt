//! Whether a form is of a node.
ghost use Rattle.std.specs.Prelude.{◌≡◌, ◌<◌, ◌≤◌, true, All, IfSome, length};
ghost use Rattle.ncl_template.specs.Template.{node_function};
ghost use Rattle.ncl_template.specs.Waits.{waits_at};
ghost use Rattle.ncl_template.specs.Forms.{IsFormPin, IsFormGate, AreInner, IsBehind, IsForm, FitsWord, Fits};

use crate::form::{Form, FormGate, FormPin, MOST_INNER, fits_at};
use crate::patterns::patterns;
use crate::table::node_bit;
use crate::turning::{turn_for, turns_of};
use crate::waits::Waits;
use ncl_decomp::table::{INPUTS, cover_table, word_of};
use ncl_network::Node;

/// Whether a pin is on a rail of one of so many inputs, or on one of so many inner gates.
fn is_pin(pin: FormPin, inputs: usize, inner: usize) -> bool
    ensures { result ≡ true → IsFormPin inputs inner pin }
{
    match pin {
        FormPin::Zero(place) => place < inputs,
        FormPin::One(place) => place < inputs,
        FormPin::Inner(place) => place < inner,
    }
}

/// Whether all pins are.
fn are_pins(pins: &[FormPin], inputs: usize, inner: usize) -> bool
    ensures { result ≡ true → All (IsFormPin inputs inner) pins.now }
{
    for pin in pins {
        if !is_pin(*pin, inputs, inner) {
            return false;
        }
    }
    true
}

/// Whether a gate has such a pin for each of its inputs, which are at most four.
pub(crate) fn is_gate(gate: &FormGate, inputs: usize, inner: usize) -> bool
    ensures { result ≡ true → IsFormGate inputs inner gate.now }
{
    let pins = gate.pins.as_slice();
    pins.len() == gate.kind.arity() && are_pins(pins, inputs, inner)
}

/// Whether each inner gate is one over the inputs and those before it.
fn are_inner(inner: &[FormGate], inputs: usize) -> bool
    ensures { result ≡ true → AreInner inputs 0 inner.now }
{
    for place in 0..inner.len() {
        if !is_gate(&inner[place], inputs, place) {
            return false;
        }
    }
    true
}

/// Whether a gate is one over the inputs and inner gates.
fn is_behind(inner: &[FormGate], gate: &FormGate, inputs: usize) -> bool
    requires { length inner.now ≤ MOST_INNER }
    ensures { result ≡ true → IsBehind inputs inner.now gate.now }
{
    are_inner(inner, inputs) && is_gate(gate, inputs, inner.len())
}

/// Whether the gates of a form are gates over so many inputs: two to four, and no inner gate over two.
fn is_form(form: &Form, inputs: usize) -> bool
    ensures { result ≡ true → IsForm inputs form.now }
{
    let inner = form.inner.as_slice();
    inputs >= 2
        && inputs <= 4
        && (inputs > 2 || inner.is_empty())
        && is_behind(inner, &form.zero, inputs)
        && is_behind(inner, &form.one, inputs)
}

/// Whether at a word the rails of a form show the bit of a node, and wait.
fn fits_word(form: &Form, node: &Node, waits: Waits, word: &[bool]) -> bool
    requires { IsForm (length word.now) form.now }
    ensures { result ≡ true → FitsWord (node_function node.now) (waits_at waits) form.now word.now }
{
    let bit = node_bit(node, word);
    let inner = form.inner.as_slice();
    fits_at(!bit, waits, inner, &form.zero, word) && fits_at(bit, waits, inner, &form.one, word)
}

/// Whether the gates of a form show the function of a node of two to four inputs, and wait for these: they are tried
/// at each word, with each input NULL that is to be waited for, and with each inner gate low.
pub(crate) fn fits(form: &Form, node: &Node, waits: Waits) -> bool
    ensures { result ≡ true → Fits (node_function node.now) (length node.now.ins) (waits_at waits) form.now }
{
    let inputs = node.ins.items().len();
    if !is_form(form, inputs) {
        return false;
    }
    for number in 0..1u32 << inputs {
        if !fits_word(form, node, waits, &word_of(number)[..inputs]) {
            return false;
        }
    }
    true
}

/// The table of a node of at most four inputs.
pub(crate) fn node_table(node: &Node) -> u16 {
    cover_table(node.on, node.rows.items(), &INPUTS)
}

/// The first gates of the table that are of a node and wait for these of its inputs. Only of three inputs has it gates that
/// wait for all.
pub(crate) fn fitting(node: &Node, waits: Waits) -> Option<Form>
    ensures { IfSome result (Fits (node_function node.now) (length node.now.ins) (waits_at waits)) }
{
    let inputs = node.ins.items().len();
    if inputs != 3 && waits == Waits::ALL {
        return None;
    }
    let turns = turns_of(inputs, node_table(node));
    for pattern in patterns(inputs) {
        if let Some(turn) = turn_for(pattern, turns.as_slice(), waits) {
            let form = turn.form(pattern);
            if fits(&form, node, waits) {
                return Some(form);
            }
        }
    }
    None
}

/// What the gates of a node wait for, and how many of them stand one after another at most.
#[derive(Clone, Copy, Debug, PartialEq, Eq)]
pub struct Fit {
    /// For which inputs they wait.
    pub waits: Waits,
    /// How many stand one after another.
    pub levels: u32,
}

/// How many gates stand one after another at most in the template of a node of so many inputs.
fn template_levels(inputs: usize) -> u32 {
    match inputs {
        0..=2 => 1,
        3 => 3,
        _ => 5,
    }
}

/// The first gates of the table that are of a node and wait for these of its inputs at least, or where it has none its own template,
/// which waits for all. Gates with fewer transistors stand before others in the table. Linear in the rows of the node.
pub fn fit_of(node: &Node, waits: Waits) -> Fit {
    match fitting(node, waits) {
        Some(form) => Fit {
            waits: form.waits,
            levels: form.levels(),
        },
        None => Fit {
            waits: Waits::ALL,
            levels: template_levels(node.ins.items().len()),
        },
    }
}

/// Whether the table has gates for a function of so many inputs, given by its table, that wait for these: bit w of a table
/// is the value at the word w, and bit k of w is input k. Takes a fixed time.
pub(crate) fn is_offered(inputs: usize, table: u16, waits: Waits) -> bool {
    let turns = turns_of(inputs, table);
    for pattern in patterns(inputs) {
        if turn_for(pattern, turns.as_slice(), waits).is_some() {
            return true;
        }
    }
    false
}
