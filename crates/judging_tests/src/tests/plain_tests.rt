//! The space of truth tables.
use ncl_gates::Kind;
use ncl_space::{Plain, Space};
use std::test::Fail;

#[test]
fn room_comes_back_at_a_release(rt: HostRuntime) -> Result<(), Fail> {
    for width in [1, 6, 7, 10] {
        let mut plain = Plain::new(rt.alloc(), width);
        let mark = plain.mark();
        let gone = plain.rail(0, true)?;
        plain.release(mark);
        let next = plain.rail(0, false)?;
        assert_eq!(rt; next, gone, "{width}");
        let both = plain.apply(Kind::Th22, &[next, next])?;
        assert!(rt; plain.same(both, next), "{width}");
    }
    Ok(())
}
