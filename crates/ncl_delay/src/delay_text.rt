//! Files of delays.
ghost use Rattle.std.specs.Prelude.{◌≡◌, ◌<◌, ◌≤◌, ◌⊎◌, true, false, None, Some, IfOk, IfErr, OnOk, MatchOption, MatchResult, map, length};
ghost use Rattle.std.specs.List.{list_any};
ghost use Rattle.ncl_netlist.specs.Names.{AllDiffer, same_name, name_number};
ghost use Rattle.ncl_base.specs.TextLines.{NumberedText};
ghost use Rattle.ncl_delay.specs.declared.statement.Statement.{Statement};
ghost use Rattle.ncl_delay.specs.declared.fault.DelayFault.TheVariants.{Memory as OutOfMemory};
ghost use Rattle.ncl_delay.specs.Lines.{told_lines};
ghost use Rattle.ncl_delay.specs.DelayText.{cell_names, fault_in, stated_delays, said_in, is_known, line_fault};
ghost use Rattle.ncl_delay.specs.Put.{unstated, put_edges};

use crate::delays::{Delays, UNIT};
use crate::fault::DelayFault;
use crate::lines::{tells, trimmed};
use crate::statement::{Subject, said};
use indexmap::IndexSet;
use ncl_base::{MOST_BYTES, Memory, Name};
use ncl_netlist::{Cell, Netlist};
use std::alloc::Global;

/// The delays that a text states for the cells of a netlist, and for the source and the sink.
///
/// Each line is empty, a remark, or one of `default R F`, `cell NAME R F`, `source R F` and
/// `sink R F`, where R and F are the delays of rising and of falling. A later line for one subject takes the
/// place of an earlier one. A cell of which no line speaks has the default, and what is never stated is 1.
///
/// It answers the first broken line: `Syntax` where it is of none of the forms, and else `UnknownCell`
/// where no cell has the name; and `Memory` where memory was refused.
///
/// Near linear in the text and the names of the cells, each of which is copied and hashed once.
pub fn read_delays(alloc: Global, bytes: &[u8], netlist: &Netlist) -> Result<Delays, DelayFault>
    requires { length bytes.now ≤ MOST_BYTES }
    ensures unbroken { OnOk result (fault_in (cell_names netlist.now) (told_lines bytes.now) ≡ None) }
    ensures stated { IfOk result (λ delays. delays ≡ stated_delays (cell_names netlist.now) (told_lines bytes.now)) }
    ensures broken { IfErr result (λ fault.
        (fault ≡ OutOfMemory) ⊎ (fault_in (cell_names netlist.now) (told_lines bytes.now) ≡ Some fault)) }
{
    let cells = netlist.cells();
    let names = number_names(alloc, cells)?;
    let mut delays = none_stated(alloc, cells.len())?;
    for (place, part) in bytes.split(|byte| *byte == b'\n').enumerate() {
        let line = trimmed(part);
        if tells(line) {
            put_line(alloc, &names, &mut delays, place as u32 + 1, line)?;
        }
    }
    Ok(delays)
}

/// The names of cells, each at the place of its cell. Linear in the bytes of the names.
fn number_names(alloc: Global, cells: &[Cell]) -> Result<IndexSet<Name>, Memory>
    requires { AllDiffer (map (λ cell. cell.name) cells.now) }
    ensures { IfOk result (λ names. names.keys ≡ map (λ cell. cell.name) cells.now) }
{
    let mut names: IndexSet<Name> = IndexSet::new(alloc);
    for cell in cells {
        names.insert(Name::from_bytes(alloc, cell.name.bytes())?)?;
    }
    Ok(names)
}

/// The delays of so many cells where nothing is stated. Linear in the cells.
fn none_stated(alloc: Global, cells: usize) -> Result<Delays, Memory>
    ensures { IfOk result (λ delays. delays ≡ unstated cells) }
{
    Ok(Delays {
        default: UNIT,
        cells: vec![in alloc; None; cells]?,
        source: UNIT,
        sink: UNIT,
    })
}

/// Puts what a line of this number states in place of what was stated before. Cells go by their places
/// among the names.
///
/// Linear in the line.
fn put_line(
    alloc: Global,
    names: &IndexSet<Name>,
    delays: &mut Delays,
    number: u32,
    line: &[u8],
) -> Result<(), DelayFault>
    requires { length delays.old.cells ≡ length names.now.keys }
    ensures { let line : NumberedText = record { number = number; text = line.now } in MatchResult result
        (λ _. (s : Statement) × (said_in line ≡ Some s) × (is_known names.now.keys s.subject ≡ true)
        × (delays.new ≡ put_edges names.now.keys delays.old s.edges s.subject))
        (λ fault. (fault ≡ OutOfMemory) ⊎ (line_fault names.now.keys line ≡ Some fault)) }
{
    let Some(statement) = said(line) else {
        return Err(DelayFault::Syntax(number));
    };
    let edges = statement.edges;
    match statement.subject {
        Subject::Default => delays.default = edges,
        Subject::Source => delays.source = edges,
        Subject::Sink => delays.sink = edges,
        Subject::Cell(name) => {
            let Some(place) = place_of(alloc, names, name.bytes())? else {
                return Err(DelayFault::UnknownCell(number));
            };
            delays.cells[place] = Some(edges);
        }
    }
    Ok(())
}

/// The place of a name among others, or `None` where it isn't there. Takes as long as a look-up in a
/// table of hashes.
fn place_of(alloc: Global, names: &IndexSet<Name>, name: &[u8]) -> Result<Option<usize>, Memory>
    ensures { IfOk result (λ found. MatchOption found (list_any (same_name name.now) names.now.keys ≡ false)
        (λ place. (list_any (same_name name.now) names.now.keys ≡ true) × (place < length names.now.keys)
        × (place ≡ name_number names.now.keys name.now))) }
{
    let name = Name::from_bytes(alloc, name)?;
    Ok(names.get_index_of(&name))
}
