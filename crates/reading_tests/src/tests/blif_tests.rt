//! The first cycle is found in a long text.
use ncl_base::MOST_BYTES;
use ncl_blif::{BlifFault, read_blif};
use std::alloc::Global;
use std::test::Fail;

/// A text of one model with a chain of 200,000 covers, each of which reads the next one's signal, and these covers behind it.
fn chain(alloc: Global, last: &str) -> Result<String, Fail> {
    let mut text = String::from_str(alloc, ".inputs a\n.outputs n0\n")?;
    for place in 0..200_000u32 {
        let next = place + 1;
        write!(text, ".names n{next} n{place}\n")?;
    }
    text.push_str(last)?;
    Ok(text)
}

/// A chain that ends in a loop, and another loop that reads the chain, which takes lines 3 to 200,002. A search from
/// each of its covers would take 20,000,000,000 turns.
#[test]
fn no_text_makes_the_first_cycle_slow(rt: HostRuntime) -> Result<(), Fail> {
    let loops = ".names low n200000\n.names low low\n.names n0 high high\n";
    let text = chain(rt.alloc(), loops)?;
    assert!(rt; text.len() <= MOST_BYTES);
    let fault = read_blif(rt.alloc(), text.as_bytes()).err();
    assert_eq!(rt; fault, Some(BlifFault::Cycle(200_004)));
    Ok(())
}
