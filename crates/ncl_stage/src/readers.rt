//! Which cells read a net.
ghost use Rattle.std.specs.Prelude.{◌≤◌, ◌<◌, ◌-◌, ℕ, All, Contains, IfOk, OnOk, length, map};
ghost use Rattle.ncl_base.specs.ListTables.{Grows, items_at};
ghost use Rattle.ncl_stage.specs.Wiring.{AreReaders};

use arrayvec::ArrayVec;
use ncl_base::{ListTable, Memory};
use std::alloc::Global;

/// One cell more that reads some nets. An error is want of memory. Linear in them.
fn put_at(readers: &mut ListTable<usize>, nets: &[usize], reader: usize) -> Result<(), Memory>
    requires { All (λ net. net < length readers.old) nets.now }
    ensures grows { OnOk result ((count : ℕ) → reader < count → Grows count readers.old readers.new) }
    ensures has { OnOk result ((net : ℕ) → Contains nets.now net → Contains (items_at readers.new net) reader) }
{
    for net in nets {
        readers.put(*net, reader)?;
    }
    Ok(())
}

/// Of each net the places of the cells that read it. `pins` has the places of the nets that each cell reads; the outputs of
/// the cells are the last of the nets. An error is want of memory.
///
/// Linear in the nets and the pins.
pub(crate) fn readers_of(
    alloc: Global,
    nets: usize,
    pins: &[ArrayVec<usize, 4>],
) -> Result<ListTable<usize>, Memory>
    requires within { All (All (λ place. place < nets)) (map (λ p. p.items) pins.now) }
    requires many { length pins.now ≤ nets }
    ensures { IfOk result (AreReaders (nets - length pins.now) (map (λ p. p.items) pins.now) nets) }
{
    let mut readers = ListTable::new(alloc, nets)?;
    let mut reader = nets - pins.len();
    for places in pins {
        put_at(&mut readers, places.as_slice(), reader)?;
        reader += 1;
    }
    Ok(readers)
}
