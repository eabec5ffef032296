//! What `compile` replies to models.
ghost use Rattle.std.specs.Prelude.{◌≡◌, ◌≢◌, List, true, false, IfOk, OnOk};
ghost use Rattle.ncl_blif.specs.Model.{AreModels};
ghost use Rattle.ncl_blif.specs.declared.model.Model.{Model};
ghost use Rattle.ncl_compile.specs.declared.fault.CompileFault.TheVariants.{Memory as CompileMemory};
ghost use Rattle.ncl_top.specs.CompileText.{compile_line};
ghost use Rattle.ncl_compile.specs.Compiled.{Compiled};
ghost use Rattle.ncl_top.specs.Compiling.{IsCompiledText, IsModelsReply};
ghost use Rattle.ncl_reply.specs.Replies.{Gives};

use ncl_base::Memory;
use ncl_blif::Model;
use ncl_compile::{CompileFault, compile};
use ncl_lines::{line_of, numbered_line};
use ncl_merge::merge;
use ncl_netlist::Netlist;
use ncl_reply::Reply;
use ncl_writer::write_netlist;
use std::alloc::Global;

/// The reply to `compile` of models: the netlist that is compiled from them, merged if that is asked for, or what keeps them
/// from being compiled.
///
/// Costs what compiling, merging and writing cost.
pub(crate) fn compile_models(alloc: Global, models: &[Model], merged: bool) -> Result<Reply, Memory>
    requires { AreModels models.now }
    ensures { IfOk result (Gives (IsModelsReply models.now merged)) }
{
    match compile(alloc, models) {
        Ok(netlist) => Ok(Reply::Made(0, compiled_text(alloc, netlist, merged)?)),
        Err(fault) => Ok(Reply::Made(3, too_large_text(alloc, fault)?)),
    }
}

/// The text that is written of a netlist that is compiled from models: its own, or that of what it is merged to.
fn compiled_text(alloc: Global, netlist: Netlist, merged: bool) -> Result<Vec<u8>, Memory>
    requires { (models : List Model) × Compiled models netlist }
    ensures { (models : List Model) → Compiled models netlist → IfOk result (λ text. IsCompiledText models netlist merged text.items) }
{
    if merged {
        merged_text(alloc, netlist)
    } else {
        plain_text(alloc, netlist)
    }
}

/// The text of a netlist that is compiled from models.
fn plain_text(alloc: Global, netlist: Netlist) -> Result<Vec<u8>, Memory>
    requires { (models : List Model) × Compiled models netlist }
    ensures { (models : List Model) → Compiled models netlist → IfOk result (λ text. IsCompiledText models netlist false text.items) }
{
    let text = write_netlist(alloc, &netlist)?;
    Ok(text)
}

/// The text of what such a netlist is merged to.
fn merged_text(alloc: Global, netlist: Netlist) -> Result<Vec<u8>, Memory>
    requires { (models : List Model) × Compiled models netlist }
    ensures { (models : List Model) → Compiled models netlist → IfOk result (λ text. IsCompiledText models netlist true text.items) }
{
    let folded = merge(alloc, netlist)?;
    let text = write_netlist(alloc, &folded)?;
    Ok(text)
}

/// The line that tells which limit models pass, with the number of the first model that is too wide, or want of memory.
fn too_large_text(alloc: Global, fault: CompileFault) -> Result<Vec<u8>, Memory>
    ensures text { IfOk result (λ text. text.items ≡ compile_line fault) }
    ensures memory { OnOk result (fault ≢ CompileMemory) }
{
    match fault {
        CompileFault::TooWide(model) => {
            numbered_line(alloc, b"compile: too wide, model ", model as usize)
        }
        CompileFault::TooLong => line_of(alloc, b"compile: too long", b""),
        CompileFault::TooMany => line_of(alloc, b"compile: too many cells", b""),
        CompileFault::Memory => Err(Memory),
    }
}
