//! What is kept low while a stage is evaluated.
ghost use Rattle.std.specs.Prelude.{◌≡◌};
ghost use Rattle.ncl_faults.specs.Values.{kept_low};

use ncl_faults::Variant;
use ncl_netlist::NetId;
use ncl_shape::Stage;

/// Whether the variant of the stage keeps the net low. Takes no memory.
pub(crate) fn is_kept_low(stage: &Stage, variant: Variant, net: NetId) -> bool
    ensures { result ≡ kept_low stage.now variant net.0 }
{
    match variant {
        Variant::Base => false,
        Variant::Bit(bit) => match stage.inputs.items().get(bit) {
            Some(pair) => net == pair.zero || net == pair.one,
            None => false,
        },
        Variant::Cell(place) => match stage.cells.items().get(place) {
            Some(cell) => net == cell.out,
            None => false,
        },
    }
}
