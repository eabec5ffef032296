//! Long texts are read and folded.
use ncl_base::MOST_BYTES;
use ncl_blif::read_blif;
use ncl_network::{Network, reduce};
use std::alloc::Global;
use std::process::Abort;
use std::test::Fail;

/// How many signals the nodes read, each counted as often as it is read.
fn reads(network: &Network) -> usize {
    let mut sum = 0usize;
    for node in network.nodes.items() {
        sum = sum.saturating_add(node.ins.items().len());
    }
    sum
}

/// How many nodes the network of the one model of a text has, and how many signals they read.
fn counts(rt: &impl Abort, alloc: Global, text: &str) -> Result<(usize, usize), Fail> {
    assert!(rt; text.len() <= MOST_BYTES);
    let models = read_blif(alloc, text.as_bytes())?;
    assert!(rt; models.len() == 1);
    let network = reduce(alloc, &models[0])?;
    Ok((network.nodes.items().len(), reads(&network)))
}

/// A text of 200,000 covers: each is the AND of an input and the next cover, and the last is an OR of the inputs.
fn chain(alloc: Global) -> Result<String, Fail> {
    let mut text = String::from_str(alloc, ".inputs a b\n.outputs s0\n")?;
    for place in 0..199_999u32 {
        let next = place + 1;
        write!(text, ".names a s{next} s{place}\n11 1\n")?;
    }
    text.push_str(".names a b s199999\n1- 1\n-1 1\n")?;
    Ok(text)
}

#[test]
fn a_long_chain_is_folded(rt: HostRuntime) -> Result<(), Fail> {
    let text = chain(rt.alloc())?;
    assert_eq!(rt; counts(&rt, rt.alloc(), &text)?, (200_000, 400_000));
    Ok(())
}

/// Each row asks for the first input, and every second for the second one too.
#[test]
fn many_rows_are_folded(rt: HostRuntime) -> Result<(), Fail> {
    let rows = "1-- 0\n11- 0\n".repeat(rt.alloc(), 500_000)?;
    let text = format!(in rt.alloc(); ".inputs a b c\n.outputs y\n.names a b c y\n{rows}")?;
    assert_eq!(rt; counts(&rt, rt.alloc(), &text)?, (1, 2));
    Ok(())
}
