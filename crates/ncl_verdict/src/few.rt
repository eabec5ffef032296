//! Stages of which no variant can pass the limit, as far as tell the bits on which their nets depend.
ghost use Rattle.std.specs.Prelude.{◌≡◌, ◌<◌, ◌≤◌, ◌+◌, ◌-◌, ◌*◌, ◌^◌, ℕ, All, IfOk, length, sum_by, true};
ghost use Rattle.ncl_verdict.specs.Masks.{Covers, lost_mask, weight_lost, weight_of};
ghost use Rattle.ncl_verdict.specs.Within.{IsWithin};

use crate::ready::Ready;
use crate::supports::{reaches, supports};
use ncl_base::Memory;
use std::alloc::Global;

/// How many functions of three bits and less there are that have a node of their own, at most.
const SMALL_FUNCTIONS: u64 = 276;

/// Whether no variant of a stage has more nodes than the limit, as far as tell the bits on which its nets depend. A function that
/// depends on k of the first n - 3 of the n bits of a word has at most 2 to the k, less 1, nodes that decide at least four bits, and
/// all functions together have at most 276 of the others. A net depends on the same bits under every variant. An output that isn't
/// reached from a net that the variant keeps low is DATA as under Base, so always, and takes no node. An error is want of memory.
///
/// Linear in the pins, and for each net in the outputs, of which there are at most 128.
pub(crate) fn are_few(alloc: Global, ready: &Ready) -> Result<bool, Memory>
    ensures { IfOk result (λ answer. answer ≡ true → IsWithin ready.now.limit ready.now.stage) }
{
    let stage = ready.stage;
    let base = &ready.base;
    stage.facts();
    let masks = supports(alloc, stage, base)?;
    let reaches = reaches(alloc, stage, base, masks.as_slice())?;
    let bits = stage.inputs.items().len();
    let nets = net_weights(masks.as_slice());
    let most = most_lost(
        masks.as_slice(),
        base.wiring().outputs(),
        reaches.as_slice(),
        bits,
    );
    Ok(are_within(ready.space.nodes(), nets, most, ready.limit))
}

/// Whether so many nodes, those of the small functions and two weights together are within a limit, where both weights are known.
fn are_within(nodes: u32, nets: u64, most: u64, limit: u32) -> bool
    ensures { result ≡ true → (nets < 2 ^ 64 - 1) × (most < 2 ^ 64 - 1) × (nodes + 276 + nets + most ≤ limit) }
{
    let small = nodes as u64 + SMALL_FUNCTIONS;
    small.saturating_add(nets).saturating_add(most) <= limit as u64
}

/// How many nodes that decide at least four bits a function has at most that depends on the bits of a mask. Takes no memory.
fn weight(mask: u128) -> u64
    ensures { Covers (weight_of mask) result }
{
    let count = mask.count_ones();
    if count < 64 {
        (1 << count) - 1
    } else {
        u64::MAX
    }
}

/// The weights of some masks together. Linear in the masks.
fn net_weights(masks: &[u128]) -> u64
    ensures { Covers (sum_by weight_of masks.now) result }
{
    let mut sum: u64 = 0;
    for mask in masks {
        sum = sum.saturating_add(weight(*mask));
    }
    sum
}

/// The most that the variants weigh which keep a bit or a cell low. For each place linear in the outputs.
fn most_lost(masks: &[u128], outputs: &[(usize, usize)], reaches: &[u128], bits: usize) -> u64
    requires outputs { All (λ pair. (pair.0 < length masks.now) × (pair.1 < length masks.now)) outputs.now }
    requires bits { 2 * bits ≤ length reaches.now }
    ensures { (place : ℕ) → place < length reaches.now → Covers (weight_lost masks.now outputs.now (lost_mask bits reaches.now place)) result }
{
    let mut most: u64 = 0;
    for place in 0..reaches.len() {
        most = greater(
            most,
            lost_weight(masks, outputs, lost(reaches, bits, place)),
        );
    }
    most
}

/// The greater of two numbers.
fn greater(first: u64, second: u64) -> u64
    ensures first { first ≤ result }
    ensures second { second ≤ result }
{
    if first < second { second } else { first }
}

/// What the variant reaches that keeps the net at a place low, and with a rail the other of its bit. Takes no memory.
fn lost(reaches: &[u128], bits: usize, place: usize) -> u128
    requires bits { 2 * bits ≤ length reaches.now }
    requires place { place < length reaches.now }
    ensures { result ≡ lost_mask bits reaches.now place }
{
    if place < 2 * bits {
        let first = place - place % 2;
        return reaches[first] | reaches[first + 1];
    }
    reaches[place]
}

/// What the DATA of outputs, their conjunctions and a question weigh where a variant changes what depends on the bits of a mask.
/// Linear in the outputs.
fn lost_weight(masks: &[u128], outputs: &[(usize, usize)], lost: u128) -> u64
    requires { All (λ pair. (pair.0 < length masks.now) × (pair.1 < length masks.now)) outputs.now }
    ensures { Covers (weight_lost masks.now outputs.now lost) result }
{
    let mut all: u128 = 0;
    let mut sum = weight(lost);
    for pair in outputs {
        let data = masks[pair.0] | masks[pair.1];
        if data & lost != data {
            continue;
        }
        all = all | data;
        sum = sum.saturating_add(weight(data)).saturating_add(weight(all));
    }
    sum
}
