//! Models, compiled.
ghost use Rattle.std.specs.Prelude.{IfOk, IfErr, OnOk};
ghost use Rattle.ncl_blif.specs.Model.{AreModels};
ghost use Rattle.ncl_network.specs.Size.{CanBeCompiled};
ghost use Rattle.ncl_compile.specs.TooLarge.{IsCompileFault};
ghost use Rattle.ncl_compile.specs.Compiled.{Compiled};

use crate::banks::banks_of;
use crate::fault::CompileFault;
use crate::putting::put_together;
use crate::sizing::check_size;
use crate::stages::stages_of;
use ncl_base::Memory;
use ncl_blif::Model;
use ncl_netlist::{BuildFault, Netlist, build};
use std::alloc::Global;

/// Compiles models, each as one stage of a pipeline of clockless gates. Whatever netlist this is, its stages are
/// sound, so that it works at every gate delay, and it computes what the models compute.
///
/// Refuses, in this order: the first model with more than 128 inputs or outputs; more than 255 models; a size above
/// 16,384, which is the rows with their characters and the bits of all banks. Near linear in the size, without
/// recursion. The one other error is want of memory.
pub fn compile(alloc: Global, models: &[Model]) -> Result<Netlist, CompileFault>
    requires { AreModels models.now }
    ensures compiled { IfOk result (Compiled models.now) }
    ensures small { OnOk result (CanBeCompiled models.now) }
    ensures fault { IfErr result (IsCompileFault models.now) }
{
    check_size(models)?;
    match netlist_of(alloc, models) {
        Ok(netlist) => Ok(netlist),
        Err(Memory) => Err(CompileFault::Memory),
    }
}

/// The netlist that is compiled from models which are not too large. Fails where memory is refused.
fn netlist_of(alloc: Global, models: &[Model]) -> Result<Netlist, Memory>
    requires models { AreModels models.now }
    requires small { CanBeCompiled models.now }
    ensures { IfOk result (Compiled models.now) }
{
    let stages = stages_of(alloc, models)?;
    let banks = banks_of(alloc, models, &stages)?;
    let parts = put_together(alloc, models, banks, stages)?;
    match build(alloc, parts) {
        Ok(netlist) => {
            let _ = netlist.ports();
            Ok(netlist)
        }
        Err(fault) => match fault {
            BuildFault::Memory => Err(Memory),
            _ => unreachable!(),
        },
    }
}
