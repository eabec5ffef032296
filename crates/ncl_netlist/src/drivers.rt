//! The drivers of the nets.
ghost use Rattle.std.specs.Prelude.{◌≡◌, ℕ, ◌+◌, ◌<◌, ◌≤◌, ◌^◌, ◌⊎◌, IfOk, IfErr, OnOk, MatchOption, length, vec_len, List, map, All, EachIndex, count_by, nat_eq, slice_index, slice_get, Some};
ghost use Rattle.ncl_netlist.specs.Netlist.{drives};
ghost use Rattle.ncl_netlist.specs.Faults.{AreCounts, IsFaultOfCounts};

use crate::build_fault::BuildFault;
use crate::cell::Cell;
use crate::port::Port;
use ncl_base::{Memory, Name};
use std::alloc::Global;

/// How many ports drive each of so many nets, of which the ports are the first. Linear in the nets.
fn count_ports(alloc: Global, ports: &[Port], nets: usize) -> Result<Vec<u32>, Memory>
    requires { length ports.now ≤ nets }
    ensures len { IfOk result (λ counts. vec_len counts ≡ nets) }
    ensures counts { IfOk result (λ counts.
        (net : ℕ) → slice_index counts.items net ≡ slice_index (map drives ports.now) net) }
{
    let mut counts = Vec::with_capacity(alloc, nets)?;
    for port in ports {
        counts.push(u32::from(!port.output))?;
    }
    counts.resize(nets, 0)?;
    Ok(counts)
}

/// Adds to the count of each net how many cells drive it. Linear in the cells.
fn count_cells(counts: &mut [u32], cells: &[Cell])
    requires few { length cells.now < 2 ^ 31 }
    requires small { (net : ℕ) → slice_index counts.old net ≤ 1 }
    requires fit { All (λ cell. cell.out.0 < length counts.old) cells.now }
    ensures { (net : ℕ) → net < length counts.old → slice_index counts.new net
        ≡ slice_index counts.old net + count_by (λ cell. nat_eq cell.out.0 net) cells.now }
{
    for cell in cells {
        counts[cell.out.0 as usize] += 1;
    }
}

/// How many drivers each net has. Linear in the nets and the cells.
fn count_drivers(
    alloc: Global,
    ports: &[Port],
    cells: &[Cell],
    nets: usize,
) -> Result<Vec<u32>, Memory>
    requires ports { length ports.now ≤ nets }
    requires few { length cells.now < 2 ^ 31 }
    requires fit { All (λ cell. cell.out.0 < nets) cells.now }
    ensures len { IfOk result (λ counts. vec_len counts ≡ nets) }
    ensures counts { IfOk result (λ counts. (net : ℕ) → net < nets → slice_index counts.items net
        ≡ slice_index (map drives ports.now) net + count_by (λ cell. nat_eq cell.out.0 net) cells.now) }
{
    let mut counts = count_ports(alloc, ports, nets)?;
    count_cells(&mut counts, cells);
    Ok(counts)
}

/// The first net with two or more drivers. Linear in the nets.
fn first_overdriven(counts: &[u32]) -> Option<usize>
    ensures { MatchOption result (EachIndex counts.now (λ net. slice_index counts.now net ≤ 1))
        (λ net. (net < length counts.now) × (2 ≤ slice_index counts.now net)
        × ((k : ℕ) → k < net → slice_index counts.now k ≤ 1)) }
{
    counts.iter().position(|count| *count >= 2)
}

/// The first net without a driver. Linear in the nets.
fn first_undriven(counts: &[u32]) -> Option<usize>
    ensures { MatchOption result (EachIndex counts.now (λ net. 1 ≤ slice_index counts.now net))
        (λ net. (net < length counts.now) × (slice_index counts.now net ≡ 0)
        × ((k : ℕ) → k < net → 1 ≤ slice_index counts.now k)) }
{
    counts.iter().position(|count| *count == 0)
}

/// The name of a net, copied. Linear in its bytes.
fn name_of(alloc: Global, nets: &[Name], net: usize) -> Result<Name, Memory>
    requires { net < length nets.now }
    ensures { IfOk result (λ name. slice_get nets.now net ≡ Some name) }
{
    Name::from_bytes(alloc, nets[net].bytes())
}

/// Refuses nets of which one has two or more drivers, or none. Linear in the nets.
fn check_drivers(alloc: Global, counts: &[u32], nets: &[Name]) -> Result<(), BuildFault>
    requires { length counts.now ≡ length nets.now }
    ensures ok { OnOk result (EachIndex counts.now (λ net. slice_index counts.now net ≡ 1)) }
    ensures fault { IfErr result (IsFaultOfCounts counts.now nets.now) }
{
    if let Some(net) = first_overdriven(counts) {
        return Err(BuildFault::TwoDrivers(name_of(alloc, nets, net)?));
    }
    if let Some(net) = first_undriven(counts) {
        return Err(BuildFault::NoDriver(name_of(alloc, nets, net)?));
    }
    Ok(())
}

/// Refuses nets of which one has two or more drivers, or none, by the ports, which are the first nets, and the cells.
/// Linear in the nets and the cells.
pub(crate) fn check_nets(
    alloc: Global,
    ports: &[Port],
    cells: &[Cell],
    nets: &[Name],
) -> Result<(), BuildFault>
    requires ports { length ports.now ≤ length nets.now }
    requires few { length cells.now < 2 ^ 31 }
    requires fit { All (λ cell. cell.out.0 < length nets.now) cells.now }
    ensures ok { OnOk result ((counts : List ℕ) × AreCounts ports.now cells.now (length nets.now) counts
        × EachIndex counts (λ net. slice_index counts net ≡ 1)) }
    ensures fault { IfErr result (λ fault. (fault ≡ BuildFault.Memory)
        ⊎ ((counts : List ℕ) × AreCounts ports.now cells.now (length nets.now) counts × IsFaultOfCounts counts nets.now fault)) }
{
    let counts = count_drivers(alloc, ports, cells, nets.len())?;
    check_drivers(alloc, &counts, nets)
}
