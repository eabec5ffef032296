//! What is known of where a net comes from.
ghost use Rattle.std.specs.Prelude.{◌≡◌, ◌<◌, ◌≤◌, ◌↔◌, All, IsTrue, length};
ghost use Rattle.ncl_netlist.specs.declared.ids.NetId.{NetId};
ghost use Rattle.ncl_cell_rules.specs.Sources.{IsJoin, IsSourceOf, IsSummary, OfNets, source_at};

use ncl_netlist::{NetId, Netlist};

/// The one origin of a net, or that it has several. A bank is named by its request.
#[derive(Clone, Copy, Debug, PartialEq, Eq)]
pub enum Source {
    /// An input port.
    Port,
    /// The rails of a bank.
    Rail(NetId),
    /// The acknowledge cells of a bank.
    Ack(NetId),
    /// More than one of these.
    Many,
}

/// Whether two sources are the same.
pub fn same_source(s: Source, t: Source) -> bool
    ensures { IsTrue result ↔ (s ≡ t) }
{
    s == t
}

/// The source of a net that comes from where two others come from.
pub(crate) fn join(s: Source, t: Source) -> Source
    ensures { IsJoin s t result }
{
    if same_source(s, t) { s } else { Source::Many }
}

/// The source of a net that comes from where some nets come from. Linear in these.
pub(crate) fn source_of_nets(netlist: &Netlist, sources: &[Source], nets: &[NetId]) -> Source
    requires some { 1 ≤ length nets.now }
    requires fit { All (λ (net : NetId). net.0 < length sources.now) nets.now }
    requires known { All (λ (net : NetId). IsSourceOf netlist.now net.0 (source_at sources.now net.0)) nets.now }
    ensures { IsSummary (OfNets netlist.now nets.now) result }
{
    let mut source = sources[nets[0].0 as usize];
    for k in 1..nets.len() {
        source = join(source, sources[nets[k].0 as usize]);
    }
    source
}
