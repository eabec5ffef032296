//! The rules for the cells of parts.
ghost use Rattle.std.specs.Prelude.{◌≡◌, [], MatchOption, OnOk, IfOk, IfErr, map};
ghost use Rattle.ncl_netlist.specs.Names.{AllDiffer, Repeats, IsFirstWhere};
ghost use Rattle.ncl_netlist.specs.Faults.{HasFewCells, HasOwnCellNames, IsFaultOf};

use crate::build_fault::BuildFault;
use crate::parts::{PartCell, Parts};
use indexmap::IndexSet;
use ncl_base::{Memory, Name};
use std::alloc::Global;

/// The most cells of a netlist.
pub const MOST_CELLS: usize = 131_072;

/// The first name that a second cell has too, or `None` where the names differ, by a set that is empty.
///
/// Linear in the bytes of the names, which are looked at where they stand.
fn repeated_by<'a>(
    seen: &mut IndexSet<&'a [u8]>,
    cells: &'a [PartCell],
) -> Result<Option<&'a Name>, Memory>
    requires { seen.old.keys ≡ [] }
    ensures { IfOk result (λ repeated. let names = map (λ cell. cell.name) cells.now in
        MatchOption repeated (AllDiffer names) (λ name. IsFirstWhere (Repeats names) names name.now)) }
{
    for cell in cells {
        let added = seen.insert(cell.name.bytes())?;
        if !added {
            return Ok(Some(&cell.name));
        }
    }
    Ok(None)
}

/// The first name that a second cell has too, or `None` where the names differ. Linear in the bytes of the names.
fn first_repeated(alloc: Global, cells: &[PartCell]) -> Result<Option<&Name>, Memory>
    ensures { IfOk result (λ repeated. let names = map (λ cell. cell.name) cells.now in
        MatchOption repeated (AllDiffer names) (λ name. IsFirstWhere (Repeats names) names name.now)) }
{
    let mut seen: IndexSet<&[u8]> = IndexSet::with_capacity(alloc, cells.len())?;
    repeated_by(&mut seen, cells)
}

/// Refuses parts with too many cells, and parts in which two cells have one name.
///
/// Linear in the bytes of the names of the cells.
pub(crate) fn check_cells(alloc: Global, parts: &Parts) -> Result<(), BuildFault>
    ensures ok { OnOk result (HasFewCells parts.now × HasOwnCellNames parts.now) }
    ensures fault { IfErr result (IsFaultOf parts.now) }
{
    let cells = parts.cells.items();
    if cells.len() > MOST_CELLS {
        return Err(BuildFault::TooMany);
    }
    match first_repeated(alloc, cells)? {
        Some(name) => Err(BuildFault::SameName(Name::from_bytes(alloc, name.bytes())?)),
        None => Ok(()),
    }
}
