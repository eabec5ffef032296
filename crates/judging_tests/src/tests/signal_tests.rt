//! How many nodes the functions of models have, with those of the rows of their covers.
ghost use Rattle.std.specs.Prelude.{◌≤◌};

use ncl_base::MOST_BYTES;
use ncl_blif::read_blif;
use ncl_diagram::Diagram;
use ncl_match::{OrderedModels, first_width, last_width, models_pair};
use ncl_space::SpaceFault;
use std::process::Abort;

/// Models, and the nodes of the functions that their first output depends on, with those of the rows and all complements.
/// They were counted by truth tables.
static MODELS: [(&str, u32); 15] = [
    // a conjunction
    (".model m\n.inputs a b\n.outputs y\n.names a b y\n11 1\n", 6),
    // its off-set
    (
        ".model m\n.inputs a b\n.outputs y\n.names a b y\n0- 0\n-0 0\n",
        6,
    ),
    // a cover without rows
    (".model m\n.inputs a b\n.outputs y\n.names a b y\n", 4),
    // a cover without inputs, 1
    (".model m\n.inputs a b\n.outputs y\n.names y\n1\n", 0),
    // a cover without inputs, 0
    (".model m\n.inputs a b\n.outputs y\n.names y\n0\n", 0),
    // an input that stands twice
    (".model m\n.inputs a b\n.outputs y\n.names a a y\n10 1\n", 2),
    // dashes alone
    (".model m\n.inputs a b\n.outputs y\n.names a b y\n-- 1\n", 4),
    // a literal, then dashes
    (".model m\n.inputs a b\n.outputs y\n.names a b y\n1- 1\n", 4),
    // an input that is not read
    (".model m\n.inputs a b\n.outputs y\n.names b y\n1 1\n", 2),
    // a signal that doesn't count
    (
        ".model m\n.inputs a b\n.outputs y\n.names a b x\n10 1\n01 1\n.names a y\n1 1\n",
        2,
    ),
    // an exclusive or
    (
        ".model m\n.inputs a b\n.outputs y\n.names a b y\n10 1\n01 1\n",
        10,
    ),
    // a cover before the one that it reads
    (
        ".model m\n.inputs a b c\n.outputs y\n.names x c y\n11 1\n.names a b x\n1- 1\n-1 1\n",
        12,
    ),
    // two models, by position
    (
        ".model m\n.inputs a b\n.outputs x y\n.names a x\n0 1\n.names a b y\n11 1\n.end\n.model n\n.inputs p q\n.outputs r\n.names p q r\n01 1\n",
        6,
    ),
    // an input that is the output
    (".model m\n.inputs a b\n.outputs b\n", 2),
    // a second model that reads one of two
    (
        ".model m\n.inputs a b\n.outputs x y\n.names a b x\n10 1\n01 1\n.names b y\n0 1\n.end\n.model n\n.inputs p q\n.outputs q\n",
        2,
    ),
];

/// Whether the functions that the first output depends on have at most so many nodes.
fn are_within(rt: &(impl Abort + AllocGlobal), text: &str, limit: u32) -> Result<bool, SpaceFault> {
    let bytes = text.as_bytes();
    assert!(rt; bytes.len() <= MOST_BYTES && limit >= 1);
    let Ok(models) = read_blif(rt.alloc(), bytes) else {
        return Err(SpaceFault::Memory);
    };
    let ordered = OrderedModels::of(rt.alloc(), &models)?;
    is_pair_within(rt, &ordered, limit)
}

/// The same, of models whose covers are ordered.
fn is_pair_within(
    rt: &(impl Abort + AllocGlobal),
    ordered: &OrderedModels,
    limit: u32,
) -> Result<bool, SpaceFault>
    requires { 1 ≤ limit }
{
    let inputs = first_width(ordered.models());
    let outputs = last_width(ordered.models());
    assert!(rt; inputs >= 1 && inputs <= 128 && outputs >= 1);
    let mut space = Diagram::new(rt.alloc(), inputs, limit);
    match models_pair(rt.alloc(), &mut space, ordered, 0) {
        Ok(_) => Ok(true),
        Err(SpaceFault::Full) => Ok(false),
        Err(SpaceFault::Memory) => Err(SpaceFault::Memory),
    }
}

/// Tries a limit of so many nodes, and of one less.
fn try_limits(rt: &(impl Abort + AllocGlobal), text: &str, nodes: u32) {
    let enough = are_within(rt, text, nodes.max(1));
    assert!(rt; enough == Ok(true), "{text}");
    if nodes >= 2 {
        let less = are_within(rt, text, nodes - 1);
        assert!(rt; less == Ok(false), "{text}");
    }
}

#[test]
fn models_have_so_many_nodes(rt: HostRuntime) {
    for &(text, nodes) in &MODELS {
        try_limits(&rt, text, nodes);
    }
}
