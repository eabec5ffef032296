//! How a text comes out.
ghost use Rattle.std.specs.Prelude.{◌≤◌};
ghost use Rattle.ncl_reply.specs.Devices.{CameOut};

use ncl_base::{Sink, deliver};

/// Writes a text, and gives its status, or 5 where the sink fails. Linear in the text.
pub fn tell<K: Sink>(sink: &mut K, said: u8, text: &[u8]) -> u8
    ensures tells { CameOut
        (record { written = K.written sink.old; faults = K.faults sink.old })
        (record { written = K.written sink.new; faults = K.faults sink.new })
        said text.now result }
    ensures faults { K.faults sink.old ≤ K.faults sink.new }
{
    match deliver(sink, text) {
        Ok(()) => said,
        Err(_) => 5,
    }
}
