//! Tests of how many nodes diagrams have, and that what was done once is not done again.
ghost use Rattle.std.specs.Prelude.{◌≡◌, ◌<◌, ◌≤◌, IfOk};
ghost use Rattle.ncl_gates.specs.Gate.{arity_of};
ghost use Rattle.ncl_space.specs.Space.{IsLive, Keeps};

use ncl_base::Word;
use ncl_diagram::{Diagram, Ref, Space, SpaceFault};
use ncl_gates::Kind;
use std::alloc::Global;
use std::test::Fail;

/// The gate of a function, of a bit and of the one before it.
fn next_of<P: Space>(
    space: &mut P,
    kind: Kind,
    function: Ref,
    bit: usize,
) -> Result<Ref, SpaceFault>
    requires arity { arity_of kind ≡ 3 }
    requires live { IsLive (P.meaning space.old) function }
    requires some { 1 ≤ bit }
    requires bit { bit < (P.meaning space.old).width }
    ensures live { IfOk result (IsLive (P.meaning space.new)) }
    ensures kept { Keeps (P.meaning space.old) (P.meaning space.new) }
{
    let before = space.rail(bit - 1, true)?;
    let own = space.rail(bit, true)?;
    space.apply(kind, &[function, before, own])
}

/// A function of all bits of a word: the gate of what the bits so far give, of the last of them and of the next.
fn chain<P: Space>(space: &mut P, kind: Kind) -> Result<Ref, SpaceFault>
    requires arity { arity_of kind ≡ 3 }
    requires some { 1 ≤ (P.meaning space.old).width }
    ensures live { IfOk result (IsLive (P.meaning space.new)) }
    ensures kept { Keeps (P.meaning space.old) (P.meaning space.new) }
{
    let mut last = space.rail(0, true)?;
    for bit in 1..space.width() {
        last = next_of(space, kind, last, bit)?;
    }
    Ok(last)
}

/// Gates, and the nodes of their chains over four bits, counted by truth tables.
static CHAINS: [(Kind, u32); 5] = [
    (Kind::Th13, 10),
    (Kind::Th23, 12),
    (Kind::Th33, 10),
    (Kind::Th23w2, 9),
    (Kind::Th33w2, 9),
];

/// How many nodes there are with the chain of a gate over four bits, within a limit.
fn nodes_of(alloc: Global, kind: Kind, limit: u32) -> Result<u32, SpaceFault>
    requires arity { arity_of kind ≡ 3 }
    requires limit { 1 ≤ limit }
{
    let mut diagram = Diagram::new(alloc, 4, limit);
    chain(&mut diagram, kind)?;
    Ok(diagram.nodes())
}

#[test]
fn chains_have_so_many_nodes(rt: HostRuntime) {
    for &(kind, nodes) in &CHAINS {
        assert!(rt; kind.arity() == 3 && nodes >= 2);
        let enough = nodes_of(rt.alloc(), kind, nodes);
        assert_eq!(rt; enough, Ok(nodes), "{kind:?}");
        let less = nodes_of(rt.alloc(), kind, nodes - 1);
        assert_eq!(rt; less, Err(SpaceFault::Full), "{kind:?}");
    }
}

/// Whether the least word at which a function has a value has 128 bits, all of that value.
fn is_least_throughout<P: Space>(space: &P, function: Ref, value: bool) -> bool
    requires { IsLive (P.meaning space.now) function }
{
    let mut word = Word::new();
    let is_found = if value {
        space.least_one(function, &mut word)
    } else {
        space.least_zero(function, &mut word)
    };
    is_found && word.bits().len() == 128 && word.bits().iter().all(|bit| *bit == value)
}

#[test]
fn words_of_128_bits(rt: HostRuntime) -> Result<(), Fail> {
    let mut diagram = Diagram::new(rt.alloc(), 128, 20_000);
    let all = chain(&mut diagram, Kind::Th33)?;
    assert!(rt; is_least_throughout(&diagram, all, true));
    assert!(rt; is_least_throughout(&diagram, all, false));

    // a node for each bit, and one for each pair of a front of the word and a bit of it but the last
    assert_eq!(rt; diagram.nodes(), 128 + 128 * 127 / 2);
    Ok(())
}

/// Two gates of two functions.
fn by_turns<P: Space>(space: &mut P, f: Ref, g: Ref) -> Result<(), SpaceFault>
    requires f { IsLive (P.meaning space.old) f }
    requires g { IsLive (P.meaning space.old) g }
    ensures kept { Keeps (P.meaning space.old) (P.meaning space.new) }
{
    space.apply(Kind::Th22, &[f, g])?;
    space.apply(Kind::Th12, &[f, g])?;
    Ok(())
}

/// Gates of two functions of all bits, made so many times by turns.
fn repeated<P: Space>(space: &mut P, times: usize) -> Result<(), SpaceFault>
    requires { 1 ≤ (P.meaning space.old).width }
{
    let f = chain(space, Kind::Th23)?;
    let g = chain(space, Kind::Th33w2)?;
    for _ in 0..times {
        by_turns(space, f, g)?;
    }
    Ok(())
}

#[test]
fn operations_are_repeated_without_a_step(rt: HostRuntime) -> Result<(), Fail> {
    // Each of these goes through thousands of nodes where its answer isn't kept, and would take minutes.
    let mut diagram = Diagram::new(rt.alloc(), 128, 1_000_000);
    repeated(&mut diagram, 1)?;
    let nodes = diagram.nodes();
    repeated(&mut diagram, 1_500_000)?;
    assert_eq!(rt; diagram.nodes(), nodes, "nothing new is made");
    Ok(())
}
