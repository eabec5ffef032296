//! What the tests are run with: a worked example of a stage, and a space that counts the gates that are asked of it.
ghost use Rattle.std.specs.Prelude.{◌≡◌, ◌≤◌, IfOk, length};
ghost use Rattle.ncl_space.specs.Plain.{plain_space};
ghost use Rattle.ncl_faults.specs.Examples.{adder_stage, gate, rails};

use arrayvec::ArrayVec;
use ncl_base::{Items, Memory, Word};
use ncl_gates::Kind;
use ncl_netlist::{CellId, NetId};
use ncl_shape::{Rails, Stage, StageCell};
use ncl_space::{Mark, Plain, Ref, Space, SpaceFault};
use std::alloc::Global;
use std::marker::Model;

/// The carry and the sum of three bits, by two gates each. An error is want of memory.
pub(crate) fn full_adder(alloc: Global) -> Result<Stage, Memory>
    ensures { IfOk result (λ stage. stage ≡ adder_stage) }
{
    let inputs = vec![in alloc; pair(0, 1), pair(2, 3), pair(4, 5)]?;
    let carry_zero = cell(9, Kind::Th23, &[0, 2, 4], 6);
    let carry_one = cell(10, Kind::Th23, &[1, 3, 5], 7);
    let sum_zero = cell(11, Kind::Th34w2, &[7, 0, 2, 4], 8);
    let sum_one = cell(12, Kind::Th34w2, &[6, 1, 3, 5], 9);
    let cells = vec![in alloc; carry_zero, carry_one, sum_zero, sum_one]?;
    let outputs = vec![in alloc; pair(6, 7), pair(8, 9)]?;
    Ok(Stage::new(
        1,
        Items::from_vec(inputs),
        Items::from_vec(cells),
        Items::from_vec(outputs),
    ))
}

/// A bit on two nets.
pub(crate) fn pair(zero: u32, one: u32) -> Rails
    ensures { result ≡ rails zero one }
{
    Rails {
        zero: NetId(zero),
        one: NetId(one),
    }
}

/// A gate cell: its number in the file, its gate, its input nets and its output net. Linear in the inputs.
pub(crate) fn cell(number: u32, kind: Kind, ins: &[u32], out: u32) -> StageCell
    requires { length ins.now ≤ 4 }
    ensures { result ≡ gate number kind ins.now out }
{
    let mut pins = ArrayVec::new();
    for net in ins {
        pins.push(NetId(*net));
    }
    StageCell {
        cell: CellId(number),
        kind,
        ins: pins,
        out: NetId(out),
    }
}

/// The space of truth tables, with the number of gates that were asked of it.
#[derive(Drop)]
pub(crate) struct Counting {
    space: Plain,
    applied: usize,
}

impl Model for Counting {
    ghost use Rattle.ncl_space.specs.Plain.{PlainData};

    ghost Value = { PlainData };

    ghost view = { λ c. c.space };
}

impl Counting {
    /// The space of words of this many bits, of which no gate has been asked. Takes no memory.
    pub(crate) fn new(alloc: Global, width: usize) -> Counting
        requires some { 1 ≤ width }
        requires few { width ≤ 10 }
        ensures { (plain_space result).width ≡ width }
    {
        Counting {
            space: Plain::new(alloc, width),
            applied: 0,
        }
    }

    /// How many gates were asked of the space. Takes no memory.
    pub(crate) fn applied(&self) -> usize {
        self.applied
    }
}

impl Space for Counting {
    ghost meaning = { plain_space };

    fn width(&self) -> usize {
        self.space.width()
    }

    fn constant(&self, value: bool) -> Ref {
        self.space.constant(value)
    }

    fn rail(&mut self, bit: usize, value: bool) -> Result<Ref, SpaceFault> {
        self.space.rail(bit, value)
    }

    fn apply(&mut self, kind: Kind, ins: &[Ref]) -> Result<Ref, SpaceFault> {
        self.applied = self.applied.saturating_add(1);
        self.space.apply(kind, ins)
    }

    fn same(&self, x: Ref, y: Ref) -> bool {
        self.space.same(x, y)
    }

    fn least_one(&self, x: Ref, out: &mut Word) -> bool {
        self.space.least_one(x, out)
    }

    fn least_zero(&self, x: Ref, out: &mut Word) -> bool {
        self.space.least_zero(x, out)
    }

    fn mark(&self) -> Mark {
        self.space.mark()
    }

    fn release(&mut self, mark: Mark) {
        self.space.release(mark);
    }
}
