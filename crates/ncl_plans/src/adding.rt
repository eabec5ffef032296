//! Operations on signals, added to a pool.
ghost use Rattle.std.specs.Prelude.{IfOk};
ghost use Rattle.ncl_plans.specs.declared.small.Op.TheVariants.{And, Differ, Majority, Choose};
ghost use Rattle.ncl_plans.specs.Adding.{AddsOp};

use crate::form::{and, choose, differ, majority};
use crate::pool::Pool;
use crate::small::Op;
use crate::stop::Stop;
use ncl_network::Signal;

/// Adds whether both of two signals are 1.
fn add_and(pool: &mut Pool, first: Signal, second: Signal) -> Result<Signal, Stop>
    ensures { (third : Signal) → IfOk result (AddsOp And first second third pool.old.smalls.items pool.new.smalls.items) }
{
    let form = and(first, second);
    pool.put(form)
}

/// Adds whether two signals differ.
fn add_differ(pool: &mut Pool, first: Signal, second: Signal) -> Result<Signal, Stop>
    ensures { (third : Signal) → IfOk result (AddsOp Differ first second third pool.old.smalls.items pool.new.smalls.items) }
{
    let form = differ(first, second);
    pool.put(form)
}

/// Adds the second signal where the first is 0, or the third, by nodes of two inputs.
fn add_choose(pool: &mut Pool, first: Signal, second: Signal, third: Signal) -> Result<Signal, Stop>
    ensures { IfOk result (AddsOp Choose first second third pool.old.smalls.items pool.new.smalls.items) }
{
    let apart = add_differ(pool, second, third)?;
    let change = add_and(pool, first, apart)?;
    add_differ(pool, second, change)
}

/// Adds an operation on signals, and gives its signal. What has no small node of its own is made of nodes of two inputs.
pub(crate) fn add(
    pool: &mut Pool,
    op: Op,
    first: Signal,
    second: Signal,
    third: Signal,
) -> Result<Signal, Stop>
    ensures { IfOk result (AddsOp op first second third pool.old.smalls.items pool.new.smalls.items) }
{
    match op {
        Op::And => add_and(pool, first, second),
        Op::Differ => add_differ(pool, first, second),
        Op::Majority => {
            if let Some(form) = majority(first, second, third) {
                return pool.put(form);
            }
            let apart = add_differ(pool, first, second)?;
            add_choose(pool, apart, first, third)
        }
        Op::Choose => {
            if let Some(form) = choose(first, second, third) {
                return pool.put(form);
            }
            add_choose(pool, first, second, third)
        }
    }
}
