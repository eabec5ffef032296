//! The netlist of a pipeline whose stages were folded.
ghost use Rattle.std.specs.Prelude.{◌≡◌, ◌<◌, ◌^◌, ◌||◌, ◌++◌, ℕ, [], ◌∷◌, All, IfOk, List, IfSome, length, map, slice_get, false, None, Some};
ghost use Rattle.std.specs.List.{slice_index_or};
ghost use Rattle.ncl_netlist.specs.declared.ids.NetId.{NetId as NetNumber};
ghost use Rattle.ncl_netlist.specs.Faults.{IsFaultless};
ghost use Rattle.ncl_netlist.specs.Names.{AllDiffer};
ghost use Rattle.ncl_netlist.specs.Parts.{HasAllPins, netlist_of, part_of, port_names};
ghost use Rattle.ncl_cell_rules.specs.Tables.{IsTable};
ghost use Rattle.ncl_shape.specs.declared.stage.StageCell.{StageCell as Gate};
ghost use Rattle.ncl_merge.specs.Folding.{AreFewer};
ghost use Rattle.ncl_merge.specs.Rebuilt.{kept, kept_parts, with_kept};
ghost use Rattle.ncl_merge.specs.Choice.{DriveOnce, HaveGates, all_of, becomes, choice_by, choice_of, folded_netlist, is_driven, is_stage_net};

use crate::folding::{cells_of, copied};
use arrayvec::ArrayVec;
use ncl_base::{Items, Memory, Name};
use ncl_gates::CellKind;
use ncl_netlist::{BuildFault, Cell, NetId, Netlist, PartCell, Parts, Port, build};
use ncl_shape::{Pipeline, StageCell};
use std::alloc::Global;
use std::marker::Model;

/// Marks the nets that the cells of a stage drive. Linear in the cells.
fn mark(marks: &mut [bool], cells: &[StageCell])
    requires { All (λ (g : Gate). g.out.0 < length marks.old) cells.now }
    ensures { (net : ℕ) → net < length marks.old → slice_index_or marks.new net false ≡ (slice_index_or marks.old net false || is_driven net cells.now) }
{
    for cell in cells {
        marks[cell.out.0 as usize] = true;
    }
}

/// For each net whether a cell of a stage drives it. Linear in nets and cells.
fn stage_nets(alloc: Global, pipeline: &Pipeline) -> Result<Vec<bool>, Memory>
    ensures { IfOk result (λ marks. IsTable pipeline.now.netlist false (λ net. is_stage_net net pipeline.now.stages) marks.items) }
{
    let mut marks = vec![in alloc; false; pipeline.netlist().nets().len()]?;
    for stage in pipeline.stages() {
        mark(&mut marks, cells_of(stage));
    }
    Ok(marks)
}

/// Puts each cell of a list at its net. Linear in the cells.
fn put_gates(gates: &mut [Option<StageCell>], cells: &[StageCell]) -> Result<(), Memory>
    requires { All (λ (g : Gate). g.out.0 < length gates.old) cells.now }
    ensures { IfOk result (λ _. (before : List Gate) → HaveGates gates.old before → DriveOnce (before ++ cells.now) → HaveGates gates.new (before ++ cells.now)) }
{
    for cell in cells {
        gates[cell.out.0 as usize] = Some(copied(cell)?);
    }
    Ok(())
}

/// Puts each cell of the lists at its net, where none is yet. Linear in the cells.
fn put_lists(gates: &mut [Option<StageCell>], lists: &[Items<StageCell>]) -> Result<(), Memory>
    requires inside { All (λ (g : Gate). g.out.0 < length gates.old) (all_of lists.now) }
    requires once { DriveOnce (all_of lists.now) }
    requires none { HaveGates gates.old [] }
    ensures { IfOk result (λ _. HaveGates gates.new (all_of lists.now)) }
{
    for cells in lists {
        put_gates(gates, cells.items())?;
    }
    Ok(())
}

/// For each of so many nets the cell of the lists that drives it. Linear in nets and cells.
fn gates_by_net(
    alloc: Global,
    nets: usize,
    lists: &[Items<StageCell>],
) -> Result<Vec<Option<StageCell>>, Memory>
    requires inside { All (λ (g : Gate). g.out.0 < nets) (all_of lists.now) }
    requires once { DriveOnce (all_of lists.now) }
    ensures sized { IfOk result (λ gates. length gates.items ≡ nets) }
    ensures gates { IfOk result (λ gates. HaveGates gates.items (all_of lists.now)) }
{
    let mut gates = vec![in alloc; None; nets]?;
    put_lists(&mut gates, lists)?;
    Ok(gates)
}

/// A name once more. Linear in its bytes.
fn copied_name(name: &Name) -> Result<Name, Memory>
    ensures { IfOk result (λ copy. copy ≡ name.now) }
{
    Ok(name.clone()?)
}

/// The name of a net once more. Linear in its bytes.
fn net_name(nets: &[Name], net: NetId) -> Result<Name, Memory>
    requires { net.0 < length nets.now }
    ensures { IfOk result (λ name. name ≡ slice_index_or nets.now net.0 []) }
{
    Ok(nets[net.0 as usize].clone()?)
}

/// The names of the nets on the pins of a cell, in pin order. Linear in their bytes.
fn pin_names(alloc: Global, nets: &[Name], ins: &[NetId], out: NetId) -> Result<Vec<Name>, Memory>
    requires ins { All (λ (x : NetNumber). x.0 < length nets.now) ins.now }
    requires out { out.0 < length nets.now }
    ensures { IfOk result (λ names. names.items ≡ map (λ (x : NetNumber). slice_index_or nets.now x.0 []) (ins.now ++ out ∷ [])) }
{
    let mut names = Vec::with_capacity(alloc, ins.len() + 1)?;
    for net in ins {
        names.push(net_name(nets, *net)?)?;
    }
    names.push(net_name(nets, out)?)?;
    Ok(names)
}

/// A cell that is kept: its name and its net, and the gate and the input nets that it has now.
#[derive(Drop)]
struct KeptCell<'a> {
    kind: CellKind,
    name: &'a Name,
    ins: &'a ArrayVec<NetId, 4>,
    out: NetId,
}

impl<'a> Model for KeptCell<'a> {
    ghost use Rattle.ncl_netlist.specs.declared.cell.Cell.{Cell};

    ghost Value = { Cell };

    ghost view = { λ a. record { kind = a.kind; name = a.name.now; ins = a.ins.now; out = a.out } };
}

/// What becomes of a cell: it gets the gate that drives its net now, if one does, and else goes where a cell of a stage drove it.
fn becomes<'a>(cell: &'a Cell, gate: &'a Option<StageCell>, staged: bool) -> Option<KeptCell<'a>>
    ensures { result ≡ becomes gate.now staged cell.now }
{
    match gate {
        Some(gate) => Some(KeptCell {
            kind: CellKind::Gate(gate.kind),
            name: &cell.name,
            ins: &gate.ins,
            out: cell.out,
        }),
        None => {
            if staged {
                return None;
            }
            Some(KeptCell {
                kind: cell.kind,
                name: &cell.name,
                ins: &cell.ins,
                out: cell.out,
            })
        }
    }
}

/// A cell, told by the names of its nets. Linear in their bytes.
fn part(alloc: Global, nets: &[Name], cell: &KeptCell) -> Result<PartCell, Memory>
    requires ins { All (λ (x : NetNumber). x.0 < length nets.now) cell.now.ins.items }
    requires out { cell.now.out.0 < length nets.now }
    ensures { IfOk result (λ part. part ≡ part_of nets.now cell.now) }
{
    let pins = pin_names(alloc, nets, cell.ins, cell.out)?;
    Ok(PartCell {
        kind: cell.kind,
        name: copied_name(cell.name)?,
        pins: Items::from_vec(pins),
    })
}

/// Adds a cell, if it is kept. Linear in the bytes of its names.
fn add_kept(
    alloc: Global,
    parts: &mut Vec<PartCell>,
    nets: &[Name],
    kept: &Option<KeptCell>,
) -> Result<(), Memory>
    requires { IfSome kept.now (λ c. All (λ (x : NetNumber). x.0 < length nets.now) c.ins.items × (c.out.0 < length nets.now)) }
    ensures { IfOk result (λ _. parts.new.items ≡ parts.old.items ++ map (part_of nets.now) (with_kept kept.now [])) }
{
    if let Some(cell) = kept {
        parts.push(part(alloc, nets, cell)?)?;
    }
    Ok(())
}

/// The cells that are kept, told by the names of their nets. Linear in the bytes of these.
fn kept_cells(
    alloc: Global,
    netlist: &Netlist,
    gates: &[Option<StageCell>],
    staged: &[bool],
) -> Result<Vec<PartCell>, Memory>
    requires gates { length gates.now ≡ length netlist.now.nets }
    requires staged { length staged.now ≡ length netlist.now.nets }
    requires pins { (net : ℕ) (g : Gate) → slice_get gates.now net ≡ Some (Some g) → All (λ (x : NetNumber). x.0 < length netlist.now.nets) g.ins.items }
    ensures { IfOk result (λ parts. parts.items ≡ map (part_of netlist.now.nets) (kept (choice_by gates.now staged.now) netlist.now.cells)) }
{
    let mut parts = Vec::with_capacity(alloc, netlist.cells().len())?;
    for cell in netlist.cells() {
        let net = cell.out.0 as usize;
        let kept = becomes(cell, &gates[net], staged[net]);
        add_kept(alloc, &mut parts, netlist.nets(), &kept)?;
    }
    Ok(parts)
}

/// The ports once more. Linear in the bytes of their names.
fn copied_ports(alloc: Global, ports: &[Port]) -> Result<Vec<Port>, Memory>
    ensures { IfOk result (λ copy. copy.items ≡ ports.now) }
{
    Ok(ports.to_vec(alloc)?)
}

/// The parts of the netlist in which the cells of the stages are those of the lists. Linear in the bytes of names.
fn folded_parts(
    alloc: Global,
    pipeline: &Pipeline,
    lists: &[Items<StageCell>],
) -> Result<Parts, Memory>
    requires { AreFewer pipeline.now.stages lists.now }
    ensures { IfOk result (λ parts. parts ≡ kept_parts pipeline.now.netlist (choice_of pipeline.now lists.now)) }
{
    let netlist = pipeline.netlist();
    let staged = stage_nets(alloc, pipeline)?;
    let gates = gates_by_net(alloc, netlist.nets().len(), lists)?;
    let cells = kept_cells(alloc, netlist, &gates, &staged)?;
    let ports = copied_ports(alloc, netlist.ports())?;
    Ok(Parts {
        module: copied_name(netlist.module())?,
        ports: Items::from_vec(ports),
        cells: Items::from_vec(cells),
    })
}

/// The netlist of parts that break no rule. Only want of memory is refused.
fn built(alloc: Global, parts: Parts) -> Result<Netlist, Memory>
    requires ports_differ { AllDiffer (port_names parts) }
    requires few_ports { length parts.ports < 2 ^ 31 }
    requires all_pins { All HasAllPins parts.cells }
    requires faultless { IsFaultless parts }
    ensures { IfOk result (λ netlist. netlist ≡ netlist_of parts) }
{
    match build(alloc, parts) {
        Ok(netlist) => Ok(netlist),
        Err(fault) => match fault {
            BuildFault::Memory => Err(Memory),
            _ => unreachable!(),
        },
    }
}

/// The netlist of a pipeline in which the cells of the stages are those of the lists, after folds. Near linear in the bytes
/// of the names. Only want of memory is refused.
pub fn rebuild(
    alloc: Global,
    pipeline: &Pipeline,
    lists: &[Items<StageCell>],
) -> Result<Netlist, Memory>
    requires { AreFewer pipeline.now.stages lists.now }
    ensures { IfOk result (λ netlist. netlist ≡ folded_netlist pipeline.now lists.now) }
{
    pipeline.facts();
    let parts = folded_parts(alloc, pipeline, lists)?;
    built(alloc, parts)
}
