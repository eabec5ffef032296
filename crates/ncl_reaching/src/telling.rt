//! The verdict of a fault that is found.
ghost use Rattle.std.specs.Prelude.{◌≡◌};
ghost use Rattle.ncl_verdict.specs.Judgement.{verdict_of};
ghost use Rattle.ncl_reaching.specs.Asking.{IsFaultOf, fault_of};

use crate::fault::Fault;
use ncl_base::Word;
use ncl_shape::Stage;
use ncl_verdict::Verdict;

/// The verdict of a fault of a stage at a word that shows it. Takes no memory.
pub(crate) fn verdict_of(stage: &Stage, fault: Fault, word: Word) -> Verdict
    requires { IsFaultOf stage.now (fault_of fault) }
    ensures { result ≡ verdict_of stage.now (fault_of fault) word }
{
    stage.facts();
    let number = stage.number;
    match fault {
        Fault::BothRails(output) => Verdict::BothRails {
            stage: number,
            output: output as u32 + 1,
            word,
        },
        Fault::NoRail(output) => Verdict::NoRail {
            stage: number,
            output: output as u32 + 1,
            word,
        },
        Fault::Incomplete(bit) => Verdict::Incomplete {
            stage: number,
            bit: bit as u32 + 1,
            word,
        },
        Fault::Orphan(place) => Verdict::Orphan {
            stage: number,
            cell: stage.cells.items()[place].cell,
            word,
        },
    }
}
