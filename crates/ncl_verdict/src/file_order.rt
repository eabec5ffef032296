//! The cells of a stage in the order of the file.
ghost use Rattle.std.specs.Prelude.{◌≡◌, IfOk, length, map};
ghost use Rattle.ncl_stage.specs.LeastWords.{below};
ghost use Rattle.ncl_verdict.specs.Judgement.{file_number, file_order};

use ncl_base::Memory;
use ncl_shape::Stage;
use std::alloc::Global;

/// The cells of a stage in the order of the file, each by its number and its place in the stage. An
/// error is want of memory.
///
/// Takes time for sorting them.
pub(crate) fn cells_in_file_order(alloc: Global, stage: &Stage) -> Result<Vec<(u32, usize)>, Memory>
    ensures { IfOk result (λ cells. map (λ cell. cell.1) cells.items ≡ file_order stage.now) }
{
    stage.facts();
    let mut cells = numbered_cells(alloc, stage)?;
    cells.sort_by_key(|cell: &(u32, usize)| cell.0)?;
    Ok(cells)
}

/// The cells of a stage in its own order, each by its number and its place. Linear in the cells.
fn numbered_cells(alloc: Global, stage: &Stage) -> Result<Vec<(u32, usize)>, Memory>
    ensures { IfOk result (λ cells. cells.items ≡ map (λ place. (file_number stage.now place, place)) (below (length stage.now.cells))) }
{
    let mut cells = Vec::with_capacity(alloc, stage.cells.items().len())?;
    for (place, cell) in stage.cells.items().iter().enumerate() {
        cells.push((cell.cell.0, place))?;
    }
    Ok(cells)
}
