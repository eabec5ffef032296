//! The libraries together, from BLIF to a wave; netlist files whose gates are merged; and then each command of two files
//! `commands` by the top calls, over the files that lie beside it: those that the pages show, in `examples`, and those that show
//! one thing each.
//!
//! Each command is printed, with what is written and the status: so a whole run of the program is a line and some files.
//! `bench/commands.py` writes the commands of the pages. What is printed is compared with `stdout`, so that no answer on a page
//! goes stale.
#![tactic(auto)]

mod merging;
mod script;
mod whole_way;

use merging::print_merged;
use script::carry_out;
use std::fs;
use whole_way::go_all_the_way;

/// The netlist files whose gates are merged.
const MERGED: [&str; 5] = [
    "examples/and_of_minterms.v",
    "and_of_minterms_before_a_held_word.v",
    "xor_of_minterms.v",
    "net_of_two_readers_until_one_is_folded.v",
    "chain_of_2000_beside_a_low_gate.v",
];

fn main(rt: HostRuntime) -> anyhow::Result<()> {
    let blif = fs::read(&rt, "examples/full_adder.blif")?;
    let delays = fs::read(&rt, "examples/unit.delays")?;
    let words = fs::read(&rt, "examples/three_bits.words")?;
    go_all_the_way(&rt, &blif, &delays, &words)?;
    for name in MERGED {
        print_merged(&rt, &fs::read(&rt, name)?)?;
    }
    carry_out(&rt, "examples/")?;
    carry_out(&rt, "./")
}
