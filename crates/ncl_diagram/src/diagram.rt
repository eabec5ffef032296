//! The space of shared decision diagrams.
ghost use Rattle.std.specs.Prelude.{◌≡◌, ◌<◌, ◌≤◌, ◌+◌, ◌*◌, true, false, length, map, All, Some};
ghost use Rattle.std.specs.FinSet as set;
ghost use Rattle.ncl_gates.specs.Gate.{arity_of};
ghost use Rattle.ncl_space.specs.declared.space.Ref.{Ref};
ghost use Rattle.ncl_space.specs.Functions.{gate_table};
ghost use Rattle.ncl_space.specs.Space.{IsLive, IsNew, IsSpace};
ghost use Rattle.ncl_diagram.specs.Diagram.{Applies, diagram_space};
ghost use Rattle.ncl_diagram.specs.Steps.{operand_bound};

use crate::answers::Answers;
use crate::least::find_least;
use crate::memo::Memo;
use crate::nodes::{Nodes, constant};
use crate::operation::{Engine, Operation, key_of, rail_node};
use crate::steps::Steps;
use ncl_base::Word;
use ncl_gates::Kind;
use ncl_space::{Mark, Ref, Space, SpaceFault};
use std::alloc::Global;
use std::marker::{Brand, Model};
use std::sync::ledger::{Blank, Ledger};

/// A space of functions of 1 to 128 bits that keeps each as a node of one shared decision diagram,
/// reduced, ordered and without doubles, and has a limit on the nodes.
#[derive(Drop)]
pub struct Diagram {
    width: usize,
    limit: u32,
    engine: Engine,
}

impl Model for Diagram {
    ghost use Rattle.ncl_diagram.specs.Diagram.{DiagramData, IsDiagram};
    ghost use Rattle.ncl_diagram.specs.Kept.{AreKept};

    ghost Value = { DiagramData };

    ghost view = { λ d. record { width = d.width; limit = d.limit; nodes = d.engine.nodes } };

    ghost invariant = { λ d. IsDiagram d.width d.limit d.engine.nodes × AreKept d.width d.engine.nodes d.engine.answers };
}

impl Diagram {
    /// The space of words of this many bits, without functions but the constants, that may have so many
    /// nodes. Takes no memory.
    pub fn new(alloc: Global, width: usize, limit: u32) -> Diagram
        requires some { 1 ≤ width }
        requires few { width ≤ 128 }
        requires limit { 1 ≤ limit }
        ensures width { (diagram_space result).width ≡ width }
        ensures limit { (diagram_space result).limit ≡ Some limit }
        ensures new { IsNew (diagram_space result) }
        ensures space { IsSpace (diagram_space result) }
    {
        Diagram {
            width,
            limit,
            engine: Engine {
                nodes: Nodes::new(alloc),
                memo: Memo::new(alloc),
                answers: Answers::new(alloc),
            },
        }
    }

    /// How many nodes there are: as many as beads are held, each the node of one. Takes no memory.
    pub fn nodes(&self) -> u32
        ensures held { result ≡ set.len (diagram_space self.now).held }
        ensures space { IsSpace (diagram_space self.now) }

        // Equal tables have equal Refs.
        ensures one { let s = diagram_space self.now in (x y : Ref) →
            IsLive s x → IsLive s y → s.table x ≡ s.table y → x ≡ y }
    {
        self.engine.nodes.len() as u32
    }

    /// `apply` with a count of its steps: each reads a node, or finds or adds one. It takes at most five times
    /// as many as the product, over the functions at the gate's inputs, of the number of beads and two.
    pub fn apply_steps<L: Ledger>(
        &mut self,
        kind: Kind,
        ins: &[Ref],
        steps: &mut Steps<L>,
    ) -> Result<Ref, SpaceFault>
        requires arity { length ins.now ≡ arity_of kind }
        requires live { All (IsLive (diagram_space self.old)) ins.now }
        ensures applies { let s = diagram_space self.old in
            Applies s (diagram_space self.new) (gate_table s.width kind (map s.table ins.now)) result }

        // How many steps it takes, whatever it answers: no more than the bound, and one for each bead that comes.
        ensures steps { steps.new ≤ steps.old + 5 * operand_bound (diagram_space self.old) ins.now }
        ensures came { set.len (diagram_space self.new).held + steps.old
            ≤ set.len (diagram_space self.old).held + steps.new }
    {
        let operation = Operation {
            kind,
            width: self.width,
            limit: self.limit,
        };
        self.engine.apply(operation, key_of(ins), steps)
    }
}

/// `apply_steps` with a count that nobody reads.
fn apply_uncounted<L: Ledger>(
    diagram: &mut Diagram,
    kind: Kind,
    ins: &[Ref],
    blank: Blank,
) -> Result<Ref, SpaceFault>
    requires name { blank.name ≡ L.name }
    requires parts { blank.parts ≡ L.parts }
    requires some { 0 < blank.parts }
    requires arity { length ins.now ≡ arity_of kind }
    requires live { All (IsLive (diagram_space diagram.old)) ins.now }
    ensures { let s = diagram_space diagram.old in
        Applies s (diagram_space diagram.new) (gate_table s.width kind (map s.table ins.now)) result }
{
    diagram.apply_steps(kind, ins, &mut Steps::<L>::new(blank))
}

impl Space for Diagram {
    ghost meaning = { diagram_space };

    fn width(&self) -> usize {
        self.width
    }

    fn constant(&self, value: bool) -> Ref {
        constant(value)
    }

    fn rail(&mut self, bit: usize, value: bool) -> Result<Ref, SpaceFault> {
        let blank = Blank::new(1);
        rail_node::<Brand>(
            self.width,
            self.limit,
            &mut self.engine.nodes,
            bit,
            value,
            blank,
        )
    }

    fn apply(&mut self, kind: Kind, ins: &[Ref]) -> Result<Ref, SpaceFault> {
        apply_uncounted::<Brand>(self, kind, ins, Blank::new(1))
    }

    fn same(&self, x: Ref, y: Ref) -> bool {
        let _ = &self.engine.nodes;
        x == y
    }

    fn least_one(&self, x: Ref, out: &mut Word) -> bool {
        find_least::<Brand>(self.width, &self.engine.nodes, x, true, out, Blank::new(1))
    }

    fn least_zero(&self, x: Ref, out: &mut Word) -> bool {
        find_least::<Brand>(self.width, &self.engine.nodes, x, false, out, Blank::new(1))
    }

    fn mark(&self) -> Mark {
        Mark {
            count: self.engine.nodes.len() as u32,
        }
    }

    fn release(&mut self, mark: Mark) {
        let gone = self.engine.nodes.len().saturating_sub(mark.count as usize);
        self.engine.nodes.truncate(mark.count as usize);
        self.engine.answers.release(mark.count, gone);
    }
}
