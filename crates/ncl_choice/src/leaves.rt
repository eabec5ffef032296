//! The order of the leaves that a node is made of.
use crate::levels::signal_level;
use crate::trying::Reached;
use ncl_network::{Signal, SignalSource};
use ncl_plans::Leaves;

/// What stands where there are fewer than four leaves.
const NO_LEAF: SignalSource = SignalSource::Const(false);

/// What the nodes have become so far: the signal of each, and the levels of the small nodes.
#[derive(Clone, Copy)]
pub(crate) struct Made<'a> {
    pub images: &'a [Signal],
    pub levels: &'a [u32],
}

/// The signal that a source is, if it is there.
fn image(made: Made, from: SignalSource) -> Option<Signal> {
    match from {
        SignalSource::Node(place) => made.images.get(place as usize).copied(),
        _ => Some(Signal {
            from,
            inverted: false,
        }),
    }
}

/// A number for what a signal is of: inputs by their places, and then nodes.
fn number(signal: Signal) -> Option<u64> {
    match signal.from {
        SignalSource::Input(place) => Some(u64::from(place)),
        SignalSource::Node(place) => Some(u64::from(place) + 4_294_967_296),
        SignalSource::Const(_) => None,
    }
}

/// Whether the second of two signals comes before the first: it is later, or else has the lesser number, or with
/// `turned` the greater one. Constants come last.
fn is_late(made: Made, turned: bool, first: Option<Signal>, second: Option<Signal>) -> bool {
    let Some(second) = second else {
        return false;
    };
    let Some(place) = number(second) else {
        return false;
    };
    let Some(first) = first else {
        return true;
    };
    let Some(other) = number(first) else {
        return true;
    };
    let level = signal_level(made.levels, second);
    let other_level = signal_level(made.levels, first);
    if level != other_level {
        return level > other_level;
    }
    if turned { place > other } else { place < other }
}

/// Four leaves in order, the latest first. A fixed number of steps.
fn ordered(made: Made, turned: bool, leaves: [SignalSource; 4]) -> [SignalSource; 4] {
    let mut order = leaves;
    for (i, j) in [(0usize, 1usize), (2, 3), (0, 2), (1, 3), (1, 2)] {
        let first = order[i % 4];
        let second = order[j % 4];
        if is_late(made, turned, image(made, first), image(made, second)) {
            order[i % 4] = second;
            order[j % 4] = first;
        }
    }
    order
}

/// The first four of some sources, the latest first.
pub(crate) fn leaves_of(made: Made, turned: bool, sources: &[SignalSource]) -> Leaves {
    let mut four = [NO_LEAF; 4];
    for (place, source) in sources.iter().take(4).enumerate() {
        four[place % 4] = *source;
    }
    let [first, second, third, fourth] = ordered(made, turned, four);
    Leaves {
        first,
        second,
        third,
        fourth,
    }
}

/// What a leaf is, and its level.
fn reached_leaf(made: Made, from: SignalSource) -> Reached {
    let signal = image(made, from);
    let level = match signal {
        Some(signal) => signal_level(made.levels, signal),
        None => 0,
    };
    Reached { signal, level }
}

/// What leaves are, and their levels.
pub(crate) fn reached_leaves(made: Made, leaves: Leaves) -> [Reached; 4] {
    [
        reached_leaf(made, leaves.first),
        reached_leaf(made, leaves.second),
        reached_leaf(made, leaves.third),
        reached_leaf(made, leaves.fourth),
    ]
}
