//! How many gates stand one after another up to small nodes.
use ncl_base::Memory;
use ncl_network::{Signal, SignalSource};
use ncl_plans::{Op, Small};

/// The gates on the longest way to a signal, where the nodes have these levels.
pub(crate) fn signal_level(levels: &[u32], signal: Signal) -> u32 {
    match signal.from {
        SignalSource::Node(place) => match levels.get(place as usize) {
            Some(level) => *level,
            None => 0,
        },
        _ => 0,
    }
}

/// The gates on the longest way through an operation on what has these levels: one gate tells words of the first two
/// of three apart.
pub(crate) fn op_level(op: Op, first: u32, second: u32, third: u32) -> u32 {
    match op {
        Op::And | Op::Differ => first.max(second).saturating_add(1),
        Op::Majority | Op::Choose => {
            let coded = first.max(second).saturating_add(1);
            coded.max(third).saturating_add(1)
        }
    }
}

/// Adds the levels of the small nodes that have none yet. Linear in these.
pub(crate) fn add_levels(levels: &mut Vec<u32>, smalls: &[Small]) -> Result<(), Memory> {
    for at in levels.len()..smalls.len() {
        let small = smalls[at];
        let level = op_level(
            small.op,
            signal_level(levels, small.first),
            signal_level(levels, small.second),
            signal_level(levels, small.third),
        );
        levels.push(level)?;
    }
    Ok(())
}
