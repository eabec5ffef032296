//! Merging: folding again and again, until nothing is foldable.
ghost use Rattle.std.specs.Prelude.{IfOk, MatchOption};
ghost use Rattle.ncl_shape.specs.Shape.{Shape};
ghost use Rattle.ncl_merge.specs.Merged.{IsSmaller, IsSoundNetlist, Merged, NothingFoldable};

use crate::folding::fold_pipeline;
use crate::rebuilding::rebuild;
use ncl_base::Memory;
use ncl_netlist::Netlist;
use ncl_shape::{Pipeline, ShapeFault, shape};
use std::alloc::Global;

/// The pipeline of a netlist that has a shape. The only error is want of memory.
fn pipeline_of<'a>(alloc: Global, netlist: &'a Netlist) -> Result<Pipeline<'a>, Memory>
    requires { IsSoundNetlist netlist.now }
    ensures { IfOk result (λ pipeline. Shape netlist.now pipeline) }
{
    match shape(alloc, netlist) {
        Ok(pipeline) => Ok(pipeline),
        Err(fault) => match fault {
            ShapeFault::Memory => Err(Memory),
            _ => unreachable!(),
        },
    }
}

/// Folds what can be folded in a pipeline, once: the netlist after it, or `None` where nothing is foldable.
fn folded(alloc: Global, pipeline: &Pipeline) -> Result<Option<Netlist>, Memory>
    requires { IsSoundNetlist pipeline.now.netlist }
    ensures { IfOk result (λ found. MatchOption found (NothingFoldable pipeline.now.netlist) (λ next. IsSmaller pipeline.now.netlist next)) }
{
    pipeline.facts();
    match fold_pipeline(alloc, pipeline)? {
        Some(lists) => {
            let folded = rebuild(alloc, pipeline, &lists)?;
            let _facts = folded.cells();
            Ok(Some(folded))
        }
        None => Ok(None),
    }
}

/// Folds what can be folded in a netlist, once: the netlist after it, or `None` where nothing is foldable.
///
/// Costs what finding the shape costs, a search for each pair of cells of which one alone reads the other, and a pass over
/// names where something was folded.
fn round(alloc: Global, netlist: &Netlist) -> Result<Option<Netlist>, Memory>
    requires { IsSoundNetlist netlist.now }
    ensures { IfOk result (λ found. MatchOption found (NothingFoldable netlist.now) (λ next. IsSmaller netlist.now next)) }
{
    let pipeline = pipeline_of(alloc, netlist)?;
    folded(alloc, &pipeline)
}

/// Merges the gates of a netlist: folds each gate that one cell alone reads into that cell, where a gate is the fold, until
/// no two cells can be folded.
///
/// Each round but the last folds a cell, and makes the netlist anew, so that one in which nothing folds is given back as it
/// is; a round is near linear in the bytes of the names. The only error is want of memory.
pub fn merge(alloc: Global, netlist: Netlist) -> Result<Netlist, Memory>
    requires { IsSoundNetlist netlist }
    ensures { IfOk result (Merged netlist) }
{
    let mut merged = netlist;
    while let Some(next) = round(alloc, &merged)? {
        merged = next;
    }
    Ok(merged)
}
