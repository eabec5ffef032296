//! A sink in memory that takes small pieces and fails at chosen calls.
ghost use Rattle.std.specs.Prelude.{◌≡◌, ◌-◌, ◌<◌, ◌≤◌, ◌↔◌, ◌++◌, ◌||◌, [], length, take, min, nat_le, Some, IsTrue, IsErr, IfOk, OnErr};
ghost use Rattle.ncl_base.specs.Held.{next_count, next_fails};

use crate::calls::Calls;
use crate::memory::Memory;
use crate::sink::Sink;
use crate::source::Failed;
use std::alloc::Global;
use std::marker::Model;

/// Keeps what is written, takes small pieces, and fails where it is told to or where it is full.
///
/// Its room is reserved when it is made, so that a write takes no memory.
#[derive(Drop)]
pub struct MemSink {
    held: Vec<u8>,
    room: usize,
    piece: usize,
    calls: Calls,
}

impl Model for MemSink {
    ghost use Rattle.std.specs.Prelude.{◌<◌, ◌≤◌, vec_len, vec_capacity};
    ghost use Rattle.ncl_base.specs.Held.{MemSinkData};

    ghost Value = { MemSinkData };

    ghost view = { λ s. record {
      written = s.held.items;
      room = s.room;
      piece = s.piece;
      failing = s.calls.failing.items;
      calls = s.calls.made;
      faults = s.calls.faults;
    } };

    ghost invariant = { λ s. (0 < s.piece) × (vec_len s.held ≤ s.room) × (s.room ≤ vec_capacity s.held) };
}

impl MemSink {
    /// An empty sink that holds at most `room` bytes, takes at most `piece` bytes of a write, and whose
    /// writes with the numbers in `failing` fail, counted from 1. It answers `Memory` where the room
    /// can't be reserved.
    pub fn new(
        alloc: Global,
        room: usize,
        piece: usize,
        failing: Vec<u64>,
    ) -> Result<MemSink, Memory>
        requires { 0 < piece }
        ensures { IfOk result (λ sink. sink ≡ record {
          written = [];
          room = room;
          piece = piece;
          failing = failing.items;
          calls = 0;
          faults = 0;
        }) }
    {
        Ok(MemSink {
            held: Vec::with_capacity(alloc, room)?,
            room,
            piece,
            calls: Calls::new(failing),
        })
    }

    /// What was written, which is never more than the room. Takes no memory.
    pub fn bytes(&self) -> &[u8]
        ensures bytes { result.now ≡ self.now.written }
        ensures within { length self.now.written ≤ self.now.room }
    {
        self.held.as_slice()
    }
}

impl Sink for MemSink {
    ghost written = { λ s. Some s.written };

    ghost faults = { λ s. s.faults };

    /// Keeps as many bytes as the piece, the sink's own piece and the room left allow. Takes no memory.
    /// Linear in these bytes and in the numbers that fail.
    ///
    /// It fails exactly where the number of this call is one that fails, or no room is left.
    fn write(&mut self, piece: &[u8]) -> Result<usize, Failed>
        requires { 0 < length piece.now }
        ensures fails { IsErr result
            ↔ IsTrue (next_fails self.old.failing self.old.calls || nat_le self.old.room (length self.old.written)) }
        ensures count { IfOk result (λ n.
            n ≡ min (min self.old.piece (length piece.now)) (self.old.room - length self.old.written)) }
        ensures took { IfOk result (λ n. self.new ≡ record self.old {
          written = self.old.written ++ take n piece.now;
          calls = next_count self.old.calls;
        }) }
        ensures failed { OnErr result (self.new ≡ record self.old {
          calls = next_count self.old.calls;
          faults = next_count self.old.faults;
        }) }
        ensures some { IfOk result (λ n. 0 < n) }
        ensures faults { self.old.faults ≤ self.new.faults }
    {
        if self.calls.count() || self.room <= self.held.len() {
            return Err(self.calls.fail());
        }
        let count = self.piece.min(piece.len()).min(self.room - self.held.len());
        match self.held.extend_from_slice(&piece[..count]) {
            Ok(()) => Ok(count),
            Err(_) => unreachable!(),
        }
    }
}
