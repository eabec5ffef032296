//! The signals that have to be 1 for a row to match.
ghost use Rattle.std.specs.Prelude.{◌≡◌, IfOk};
ghost use Rattle.ncl_decomp.specs.Rows.{turned, literal_of, literals_of};

use ncl_base::Memory;
use ncl_blif::Lit;
use ncl_network::Signal;
use std::alloc::Global;

/// The inverse of a signal.
pub(crate) fn turned(signal: Signal) -> Signal
    ensures { result ≡ turned signal }
{
    Signal {
        from: signal.from,
        inverted: !signal.inverted,
    }
}

/// What has to be 1 for a literal to let a signal through.
fn literal(signal: Signal, lit: Lit) -> Option<Signal>
    ensures { result ≡ literal_of signal lit }
{
    match lit {
        Lit::One => Some(signal),
        Lit::Zero => Some(turned(signal)),
        Lit::Dash => None,
    }
}

/// The signals that have to be 1 for a row to match. Linear in the row.
pub(crate) fn literals(
    alloc: Global,
    signals: &[Signal],
    row: &[Lit],
) -> Result<Vec<Signal>, Memory>
    ensures { IfOk result (λ found. found.items ≡ literals_of signals.now row.now) }
{
    let found = signals
        .iter()
        .zip(row)
        .filter_map(|(signal, lit)| literal(*signal, *lit))
        .collect(alloc)?;
    Ok(found)
}
