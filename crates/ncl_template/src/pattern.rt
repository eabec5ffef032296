//! Patterns: gates for a function, over its inputs in one order.

use crate::form::FormPin;
use crate::waits::Waits;
use ncl_gates::Kind;

/// A gate of a pattern.
#[derive(Clone, Copy)]
pub(crate) struct PatternGate {
    pub kind: Kind,
    pub pins: &'static [FormPin],
}

/// Gates for a function: its table, for which inputs they wait at which words, inner gates, and those of the two rails.
/// Bit w of the table is the value at the word w, and bit k of w is input k. The function falls with no input with which
/// it doesn't rise too.
#[derive(Clone, Copy)]
pub(crate) struct Pattern {
    pub table: u16,
    pub waits: Waits,
    pub inner: &'static [PatternGate],
    pub zero: PatternGate,
    pub one: PatternGate,
}
