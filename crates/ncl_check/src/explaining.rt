//! Why a cell is an orphan: the run is looked for, and told.
ghost use Rattle.std.specs.Prelude.{◌≡◌, ◌≤◌, IfOk};
ghost use Rattle.ncl_verdict.specs.Judgement.{judgement};
ghost use Rattle.ncl_lines.specs.WhyText.{IsWhyText};

use ncl_base::Memory;
use ncl_hazard::explain;
use ncl_lines::{explained_text, past_limit_text, untold_text};
use ncl_shape::Pipeline;
use ncl_space::SpaceFault;
use ncl_verdict::Verdict;
use std::alloc::Global;

/// The lines that tell why a verdict on a pipeline names an orphan, of which each stage was judged with at most `limit`
/// nodes: an input that brings a word that shows it and a run over this input, step by step, in whose last the cell loses its
/// excitation; or why there is none. For every other verdict there are none. Fails where memory is refused.
///
/// Costs as explaining does, and is linear in the lines.
pub fn why_text(
    alloc: Global,
    pipeline: &Pipeline<'_>,
    verdict: &Verdict,
    limit: u32,
) -> Result<Vec<u8>, Memory>
    requires limit { 1 ≤ limit }
    requires verdict { verdict.now ≡ judgement limit pipeline.now.stages }
    ensures { IfOk result (λ text. IsWhyText limit pipeline.now verdict.now text.items) }
{
    pipeline.facts();
    let Verdict::Orphan { stage, cell, .. } = verdict else {
        return Ok(Vec::new(alloc));
    };
    if pipeline.data_banks() != 0 {
        return untold_text(alloc);
    }
    match explain(alloc, pipeline, *stage, *cell, limit) {
        Ok(told) => explained_text(alloc, pipeline, *cell, &told),
        Err(SpaceFault::Full) => past_limit_text(alloc, limit),
        Err(SpaceFault::Memory) => Err(Memory),
    }
}
