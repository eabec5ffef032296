//! Cuts: for each node of a network, some small sets of sources that it is computed of.
use ncl_base::Memory;
use ncl_network::{Network, Signal, SignalSource};
use std::alloc::Global;

/// The most cuts of a node.
pub(crate) const MOST_CUTS: usize = 8;

/// The most that are looked at for one.
const MOST_FOUND: usize = 200;

/// No source.
pub(crate) const NONE: u32 = u32::MAX;

/// At most four sources by their numbers, the least first: inputs by their places, and then nodes.
#[derive(Clone, Copy)]
pub(crate) struct Cut {
    pub codes: [u32; 4],
}

impl Cut {
    /// The place of a source, by its number, if it is there.
    pub(crate) fn place_of(self, code: u32) -> Option<usize> {
        if code == NONE {
            return None;
        }
        self.codes.iter().position(|other| *other == code)
    }
}

/// The cuts of a node.
#[derive(Clone, Copy)]
pub(crate) struct NodeCuts {
    pub cuts: [Cut; MOST_CUTS],
    pub count: usize,
}

/// The cut of no source.
pub(crate) const EMPTY: Cut = Cut { codes: [NONE; 4] };

/// The number of a source.
pub(crate) fn code_of(inputs: u32, from: SignalSource) -> u32 {
    match from {
        SignalSource::Input(place) => place,
        SignalSource::Node(place) => inputs.wrapping_add(place),
        SignalSource::Const(_) => NONE,
    }
}

/// The source of this number.
pub(crate) fn source_of(inputs: u32, code: u32) -> SignalSource {
    if code == NONE {
        SignalSource::Const(false)
    } else if code < inputs {
        SignalSource::Input(code)
    } else {
        SignalSource::Node(code - inputs)
    }
}

/// A cut with one source more, if there is room.
pub(crate) fn with(cut: Cut, code: u32) -> Option<Cut> {
    if cut.codes.iter().any(|other| *other == code) {
        return Some(cut);
    }
    if cut.codes[3] != NONE {
        return None;
    }
    let mut codes = cut.codes;
    codes[3] = code;
    for k in [3usize, 2, 1] {
        let high = codes[k % 4];
        let low = codes[(k - 1) % 4];
        if high < low {
            codes[k % 4] = low;
            codes[(k - 1) % 4] = high;
        }
    }
    Some(Cut { codes })
}

/// The sources of both of two cuts, if they are at most four.
fn union(first: Cut, second: Cut) -> Option<Cut> {
    let mut cut = first;
    for code in second.codes {
        if code != NONE {
            cut = with(cut, code)?;
        }
    }
    Some(cut)
}

/// How many sources a cut has.
fn size(cut: Cut) -> usize {
    let mut count = 0usize;
    for code in cut.codes {
        if code != NONE {
            count = count.saturating_add(1);
        }
    }
    count
}

/// Whether a cut has all sources of another.
pub(crate) fn has_all(cut: Cut, other: Cut) -> bool {
    other.codes.iter().all(|code| *code == NONE || cut.codes.iter().any(|one| *one == *code))
}

/// Adds the unions of a cut with some cuts of a source, and with the source alone.
fn add_unions(found: &mut Vec<Cut>, cut: Cut, cuts: &NodeCuts, code: u32) -> Result<(), Memory> {
    for other in cuts.cuts.iter().take(cuts.count) {
        if let Some(both) = union(cut, *other) {
            found.push(both)?;
        }
    }
    if let Some(both) = with(cut, code) {
        found.push(both)?;
    }
    Ok(())
}

/// The unions of some cuts with those of a source. Linear in both.
fn unions(alloc: Global, found: &[Cut], cuts: &NodeCuts, code: u32) -> Result<Vec<Cut>, Memory> {
    let mut more = Vec::new(alloc);
    for cut in found.iter().take(MOST_FOUND) {
        add_unions(&mut more, *cut, cuts, code)?;
    }
    Ok(more)
}

/// No cuts.
const NO_CUTS: NodeCuts = NodeCuts {
    cuts: [EMPTY; MOST_CUTS],
    count: 0,
};

/// The cuts with those of this size that have all sources of none of them. Linear in what is found.
fn kept_of_size(kept: NodeCuts, found: &[Cut], wanted: usize) -> NodeCuts {
    let mut more = kept;
    for cut in found {
        let idle = more
            .cuts
            .iter()
            .take(more.count)
            .any(|other| has_all(*cut, *other));
        if size(*cut) == wanted && !idle && more.count < MOST_CUTS {
            more.cuts[more.count % MOST_CUTS] = *cut;
            more.count = more.count.saturating_add(1);
        }
    }
    more
}

/// Some cuts of few sources that don't have each other's. A fixed number of steps for each that is found.
fn kept(found: &[Cut]) -> NodeCuts {
    let mut cuts = NO_CUTS;
    for wanted in 1..5usize {
        cuts = kept_of_size(cuts, found, wanted);
    }
    cuts
}

/// The cuts of a node that reads these, from those of the nodes before it.
pub(crate) fn cuts_of(
    alloc: Global,
    inputs: u32,
    before: &[NodeCuts],
    ins: &[Signal],
) -> Result<NodeCuts, Memory> {
    let mut found = vec![in alloc; EMPTY]?;
    for signal in ins {
        let code = code_of(inputs, signal.from);
        let cuts = match signal.from {
            SignalSource::Node(place) => match before.get(place as usize) {
                Some(cuts) => *cuts,
                None => NO_CUTS,
            },
            _ => NO_CUTS,
        };
        found = unions(alloc, &found, &cuts, code)?;
    }
    Ok(kept(&found))
}

/// The cuts of the nodes of a network. Linear in them.
pub(crate) fn network_cuts(alloc: Global, network: &Network) -> Result<Vec<NodeCuts>, Memory> {
    let mut cuts = Vec::new(alloc);
    for node in network.nodes.items() {
        let own = cuts_of(alloc, network.inputs, &cuts, node.ins.items())?;
        cuts.push(own)?;
    }
    Ok(cuts)
}
