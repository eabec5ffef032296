//! Whether an output waits for each source.
ghost use Rattle.std.specs.Prelude.{◌≡◌, ℕ, List, Bool, ◌<◌, ◌≤◌, ◌^◌, true, length, map, IfSome};
ghost use Rattle.std.specs.List.{slice_index_or};
ghost use Rattle.ncl_gates.specs.Bits.{is_set};
ghost use Rattle.ncl_network.specs.declared.network.SignalSource.{SignalSource as Source};
ghost use Rattle.ncl_network.specs.declared.network.SignalSource.TheVariants.{Input, Node as FromNode};
ghost use Rattle.ncl_plans.specs.Cones.{signal_in};
ghost use Rattle.ncl_rails.specs.Waiting.{HasBits, WaitsFor, IsAwaited, IsHeld, IsCovered, waits_of};
ghost use Rattle.ncl_template.specs.Waits.{waits_at, all_inputs};

use arrayvec::ArrayVec;
use ncl_joins::{MOST_HOLDERS, MOST_SOURCES, Together};
use ncl_network::{Network, Signal, SignalSource};
use ncl_template::Waits;

/// What shows that an output waits for a source: the place of an output of it, the number of a node that waits for it at
/// every word, or those of nodes of which one waits for it at each word of what they read.
#[derive(Clone, Copy)]
pub(crate) enum Cover {
    Output(usize),
    Waiter(usize),
    Waiters([u32; MOST_HOLDERS]),
}

/// What the node with this number waits for: where it isn't told, all inputs.
pub(crate) fn waits_at(waits: &[Waits], k: usize) -> Waits
    ensures { result ≡ slice_index_or waits.now k all_inputs }
{
    match waits.get(k) {
        Some(waits) => *waits,
        None => Waits::ALL,
    }
}

/// Whether a node that reads these signals waits for a source at a place, at every word.
fn always_waits_at(waits: Waits, ins: &[Signal], place: usize, source: SignalSource) -> bool
    requires { place < length ins.now }
    ensures { result ≡ true → (word : List Bool) → WaitsFor (waits_at waits word) ins.now source }
{
    waits.always(place) && ins[place].from == source
}

/// Whether it waits for the source at every word.
fn always_waits(waits: Waits, ins: &[Signal], source: SignalSource) -> bool
    ensures { result ≡ true → (word : List Bool) → WaitsFor (waits_at waits word) ins.now source }
{
    for place in 0..ins.len() {
        if always_waits_at(waits, ins, place, source) {
            return true;
        }
    }
    false
}

/// Whether it waits for the source at a place, at a word.
fn waits_for_at(
    waits: Waits,
    ins: &[Signal],
    word: &[bool],
    place: usize,
    source: SignalSource,
) -> bool
    requires { place < length ins.now }
    ensures { result ≡ true → WaitsFor (waits_at waits word.now) ins.now source }
{
    waits.at(word, place) && ins[place].from == source
}

/// Whether it waits for the source at a word.
fn waits_for(waits: Waits, ins: &[Signal], word: &[bool], source: SignalSource) -> bool
    ensures { result ≡ true → WaitsFor (waits_at waits word.now) ins.now source }
{
    for place in 0..ins.len() {
        if waits_for_at(waits, ins, word, place, source) {
            return true;
        }
    }
    false
}

/// Whether a bit of a number is 1.
fn is_set(number: u32, place: usize) -> bool
    requires { place < 32 }
    ensures { result ≡ is_set number place }
{
    (number >> place) & 1 == 1
}

/// The bit of a source where the bits of some sources are those of a number, if it is among them.
fn source_bit(sources: &[SignalSource], number: u32, source: SignalSource) -> Option<bool>
    requires { length sources.now ≤ MOST_SOURCES }
    ensures { IfSome result (λ bit. (value : Source → Bool) → HasBits value sources.now number → value source ≡ bit) }
{
    for place in 0..sources.len() {
        if sources[place] == source {
            return Some(is_set(number, place));
        }
    }
    None
}

/// The bit of a signal there.
fn signal_bit(sources: &[SignalSource], number: u32, signal: Signal) -> Option<bool>
    requires { length sources.now ≤ MOST_SOURCES }
    ensures { IfSome result (λ bit. (value : Source → Bool) → HasBits value sources.now number → signal_in value signal ≡ bit) }
{
    let bit = source_bit(sources, number, signal.from)?;
    Some(if signal.inverted { !bit } else { bit })
}

/// The word of some signals there, if they are at most four.
fn word_there(sources: &[SignalSource], number: u32, ins: &[Signal]) -> Option<ArrayVec<bool, 4>>
    requires { length sources.now ≤ MOST_SOURCES }
    ensures { IfSome result (λ word. (value : Source → Bool) → HasBits value sources.now number → map (signal_in value) ins.now ≡ word.items) }
{
    if ins.len() > 4 {
        return None;
    }
    let mut word: ArrayVec<bool, 4> = ArrayVec::new();
    for signal in ins {
        let bit = signal_bit(sources, number, *signal)?;
        word.push(bit);
    }
    Some(word)
}

/// Whether a node that reads these signals waits for a source there.
fn waits_under(
    sources: &[SignalSource],
    number: u32,
    waits: Waits,
    ins: &[Signal],
    source: SignalSource,
) -> bool
    requires { length sources.now ≤ MOST_SOURCES }
    ensures { result ≡ true → (value : Source → Bool) → HasBits value sources.now number → WaitsFor (waits_at waits (map (signal_in value) ins.now)) ins.now source }
{
    match word_there(sources, number, ins) {
        Some(word) => waits_for(waits, ins, &word, source),
        None => false,
    }
}

/// A source that nodes of a network hold, as is claimed: one of these, at each word of some sources.
#[derive(Clone, Copy)]
struct Claim<'a> {
    network: &'a Network,
    waits: &'a [Waits],
    source: SignalSource,
    holders: &'a [u32],
    sources: &'a [SignalSource],
}

impl<'a> Claim<'a> {
    /// Whether a node waits for the source where the bits of the sources are those of a number.
    fn waits_there(&self, by: u32, number: u32) -> bool
        requires { length self.now.sources.now ≤ MOST_SOURCES }
        ensures { result ≡ true → (value : Source → Bool) → HasBits value self.now.sources.now number → IsAwaited self.now.network.now (waits_of self.now.waits.now) value self.now.source }
    {
        let nodes = self.network.nodes.items();
        let place = by as usize;
        if place >= nodes.len() {
            return false;
        }
        let waits = waits_at(self.waits, place);
        waits_under(
            self.sources,
            number,
            waits,
            nodes[place].ins.items(),
            self.source,
        )
    }

    /// Whether one of the nodes does.
    fn one_waits(&self, number: u32) -> bool
        requires { length self.now.sources.now ≤ MOST_SOURCES }
        ensures { result ≡ true → (value : Source → Bool) → HasBits value self.now.sources.now number → IsAwaited self.now.network.now (waits_of self.now.waits.now) value self.now.source }
    {
        for by in self.holders {
            if self.waits_there(*by, number) {
                return true;
            }
        }
        false
    }

    /// Whether one of them does at each word of the sources: exponential in these, which are at most ten.
    fn is_true(&self) -> bool
        requires { length self.now.sources.now ≤ MOST_SOURCES }
        ensures { result ≡ true → (value : Source → Bool) → IsAwaited self.now.network.now (waits_of self.now.waits.now) value self.now.source }
    {
        let words = 1u32 << self.sources.len();
        for number in 0..words {
            if !self.one_waits(number) {
                return false;
            }
        }
        true
    }
}

/// What some nodes read, at most ten sources.
fn read_by(network: &Network, holders: &[u32]) -> Together {
    let mut sources = Together::new();
    for by in holders {
        if let Some(node) = network.nodes.items().get(*by as usize) {
            sources.add_all(node.ins.items());
        }
    }
    sources
}

/// Whether at each word of what some nodes read one of them waits for a source.
pub(crate) fn is_shared(
    network: &Network,
    waits: &[Waits],
    holders: &[u32],
    source: SignalSource,
) -> bool
    ensures { result ≡ true → (value : Source → Bool) → IsAwaited network.now (waits_of waits.now) value source }
{
    let together = read_by(network, holders);
    let count = together.count.min(MOST_SOURCES);
    let claim = Claim {
        network,
        waits,
        source,
        holders,
        sources: &together.at[..count],
    };
    claim.is_true()
}

/// Whether a node waits for a source at every word.
fn is_always_held(network: &Network, waits: &[Waits], by: usize, source: SignalSource) -> bool
    ensures { result ≡ true → (value : Source → Bool) → IsAwaited network.now (waits_of waits.now) value source }
{
    let nodes = network.nodes.items();
    if by >= nodes.len() {
        return false;
    }
    let waits = waits_at(waits, by);
    always_waits(waits, nodes[by].ins.items(), source)
}

/// Whether a source is held as is claimed.
fn is_held(network: &Network, waits: &[Waits], cover: Cover, source: SignalSource) -> bool
    ensures { result ≡ true → IsHeld network.now (waits_of waits.now) source }
{
    match cover {
        Cover::Output(at) => {
            let outputs = network.outputs.items();
            at < outputs.len() && outputs[at].from == source
        }
        Cover::Waiter(by) => is_always_held(network, waits, by, source),
        Cover::Waiters(holders) => is_shared(network, waits, &holders, source),
    }
}

/// Whether each input is held as is claimed.
fn inputs_held(network: &Network, waits: &[Waits], covers: &[Cover]) -> bool
    ensures { result ≡ true → (i : ℕ) → i < network.now.inputs → IsHeld network.now (waits_of waits.now) (Input i) }
{
    if covers.len() < network.inputs as usize {
        return false;
    }
    for i in 0..network.inputs {
        if !is_held(network, waits, covers[i as usize], SignalSource::Input(i)) {
            return false;
        }
    }
    true
}

/// Whether each node is held as is claimed.
fn nodes_held(network: &Network, waits: &[Waits], covers: &[Cover]) -> bool
    requires { length network.now.nodes < 2 ^ 32 }
    ensures { result ≡ true → (k : ℕ) → k < length network.now.nodes → IsHeld network.now (waits_of waits.now) (FromNode k) }
{
    let nodes = network.nodes.items().len() as u32;
    if covers.len() < nodes as usize {
        return false;
    }
    for k in 0..nodes {
        if !is_held(network, waits, covers[k as usize], SignalSource::Node(k)) {
            return false;
        }
    }
    true
}

/// Whether an output waits for each input and for each node, as is claimed of each. Linear in the network.
pub(crate) fn is_covered(
    network: &Network,
    waits: &[Waits],
    of_inputs: &[Cover],
    of_nodes: &[Cover],
) -> bool
    requires { length network.now.nodes < 2 ^ 32 }
    ensures { result ≡ true → IsCovered network.now (waits_of waits.now) }
{
    inputs_held(network, waits, of_inputs) && nodes_held(network, waits, of_nodes)
}
