//! A text read to its end.
ghost use Rattle.std.specs.Prelude.{◌≡◌, ◌≤◌, ◌+◌, IfOk, IfErr, length};
ghost use Rattle.ncl_token.specs.declared.token.TokenFault.TheVariants.{BadByte};
ghost use Rattle.ncl_netlist.specs.declared.parts.Parts.{Parts};
ghost use Rattle.ncl_netlist.specs.Names.{AllDiffer};
ghost use Rattle.ncl_netlist.specs.Parts.{netlist_of, port_names};
ghost use Rattle.ncl_netlist.specs.Faults.{IsFaultless};
ghost use Rattle.ncl_reader.specs.Draft.{HoldsAt, SaysAt};
ghost use Rattle.ncl_reader.specs.Partial.{Partial, start, spelled};
ghost use Rattle.ncl_reader.specs.Reads.{Reads, IsReadFault, IsNetFault};
ghost use Rattle.ncl_reader.specs.Faults.{net_fault_of};
ghost use Rattle.ncl_reader.specs.GraphicNames.{HasGraphicNames};

use crate::draft::Draft;
use crate::lexeme::lexeme_of;
use crate::net_fault::NetFault;
use crate::place::Place;
use ncl_base::MOST_BYTES;
use ncl_netlist::{BuildFault, Netlist, Parts, build};
use ncl_token::{TokenFault, Tokens};
use std::alloc::Global;

/// Reads the netlist of a text.
///
/// Fails at the first token that breaks the grammar or a rule, with its place and what is wrong; where the
/// parts that the text says are no netlist; and where memory is refused.
///
/// Near linear in the bytes: each is looked at a fixed number of times, each name is looked up by O(log n)
/// comparisons a fixed number of times, a name that has the form of a bit's name is looked at once more where its
/// vector is declared, and `build` hashes each name once. Takes memory linear in the bytes: that of each
/// name of a port, a cell and a connection, and no list of tokens; and beside, the names of the bits of ports, which
/// are at most 65,536, each with the name of its vector.
pub fn read_netlist(alloc: Global, bytes: &[u8]) -> Result<Netlist, NetFault>
    requires { length bytes.now ≤ MOST_BYTES }
    ensures netlist { IfOk result
        (λ n. (parts : Parts) × Reads bytes.now parts × IsFaultless parts × (n ≡ netlist_of parts)) }
    ensures names { IfOk result HasGraphicNames }
    ensures fault { IfErr result (IsNetFault bytes.now) }
{
    let parts = read_parts(alloc, bytes)?;
    match build(alloc, parts) {
        Ok(netlist) => Ok(netlist),
        Err(fault) => Err(of_build(fault)),
    }
}

/// Why a text is no netlist whose parts are none.
fn of_build(fault: BuildFault) -> NetFault
    ensures { result ≡ net_fault_of fault }
{
    match fault {
        BuildFault::Memory => NetFault::Memory,
        fault => NetFault::Build(fault),
    }
}

/// The parts that a text says.
///
/// Fails at the first token that breaks, and where memory is refused. Costs as `read_netlist` does.
fn read_parts(alloc: Global, bytes: &[u8]) -> Result<Parts, NetFault>
    ensures parts { IfOk result (Reads bytes.now) }
    ensures differ { IfOk result (λ parts. AllDiffer (port_names parts)) }
    ensures few { IfOk result (λ parts. length parts.ports ≤ length bytes.now + 65536) }
    ensures fault { IfErr result (IsReadFault bytes.now) }
{
    let mut draft = Draft::new(alloc);
    read_into(alloc, bytes, &mut draft)
}

/// Reads a text to its end into a draft of which nothing was read, and takes the parts out that it says.
///
/// Fails at the first token that breaks, and where memory is refused. Costs as `read_netlist` does.
fn read_into<'a>(alloc: Global, bytes: &'a [u8], draft: &mut Draft<'a>) -> Result<Parts, NetFault>
    requires { HoldsAt Place.Module draft.old start }
    ensures parts { IfOk result (Reads bytes.now) }
    ensures differ { IfOk result (λ parts. AllDiffer (port_names parts)) }
    ensures few { IfOk result (λ parts. length parts.ports ≤ length bytes.now + 65536) }
    ensures fault { IfErr result (IsReadFault bytes.now) }
{
    read_tokens(alloc, bytes, draft)?;
    Ok(draft.take_parts(alloc)?)
}

/// Reads a text to its end into a draft of which nothing was read.
///
/// Fails at the first token that breaks, and where memory is refused. Costs as `read_netlist` does.
fn read_tokens<'a>(alloc: Global, bytes: &'a [u8], draft: &mut Draft<'a>) -> Result<(), NetFault>
    requires { HoldsAt Place.Module draft.old start }
    ensures parts { IfOk result (λ u. (parts : Parts)
        → ((p : Partial) → HoldsAt Place.End draft.new p → SaysAt p parts) → Reads bytes.now parts) }
    ensures few { IfOk result (λ u. (p : Partial)
        × HoldsAt Place.End draft.new p × (length (spelled p) ≤ length bytes.now)) }
    ensures fault { IfErr result (IsReadFault bytes.now) }
{
    let mut tokens = Tokens::new(bytes);
    let mut place = Place::Module;
    loop {
        match tokens.next() {
            Ok(Some(token)) => {
                let lexeme = lexeme_of(&tokens, &token);
                match draft.step(alloc, place, &lexeme)? {
                    Some(after) => place = after,
                    None => return Err(draft.refusal(place, &lexeme, token.start)),
                }
            }
            Ok(None) => match place {
                Place::End => return Ok(()),
                _ => return Err(NetFault::Syntax(bytes.len())),
            },
            Err(fault) => return Err(NetFault::Syntax(bad_place(fault))),
        }
    }
}

/// The place of a bad byte.
fn bad_place(fault: TokenFault) -> usize
    ensures { fault ≡ BadByte result }
{
    match fault {
        TokenFault::BadByte(at) => at,
    }
}
