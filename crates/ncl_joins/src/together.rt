//! Sources that some nodes read together.

use ncl_network::{Signal, SignalSource};

/// The most sources that nodes which hold one together may read together.
pub const MOST_SOURCES: usize = 10;

/// The most nodes that hold a source together.
pub const MOST_HOLDERS: usize = 6;

/// Some sources, each once.
#[derive(Clone, Copy, Debug)]
pub struct Together {
    /// The sources, the first so many of these.
    pub at: [SignalSource; MOST_SOURCES],
    /// How many they are.
    pub count: usize,
}

impl Together {
    /// No source.
    pub fn new() -> Together {
        Together {
            at: [SignalSource::Const(false); MOST_SOURCES],
            count: 0,
        }
    }

    /// Adds the sources of some signals that are not there yet, while there is room.
    pub fn add_all(&mut self, ins: &[Signal]) {
        for signal in ins {
            let known = &self.at[..self.count.min(MOST_SOURCES)];
            if self.count < MOST_SOURCES && !known.iter().any(|from| *from == signal.from) {
                self.at[self.count] = signal.from;
                self.count += 1;
            }
        }
    }
}
