//! The adder as models.
ghost use Rattle.std.specs.Prelude.{◌≡◌, ◌+◌, ◌-◌, ◌<◌, ◌≤◌, ◌∷◌, ◌++◌, IfOk, codes, decimal};
ghost use Rattle.std.specs.List.{range_with_len};
ghost use Rattle.ncl_blif.specs.Model.{IsModel, AreModels, size_of_model};
ghost use Rattle.ncl_demo.specs.Adder.{IsStage, IsAdder};
ghost use Rattle.ncl_network.specs.Size.{CanBeCompiled};

use crate::covers::{FULL_CARRY, FULL_SUM, HALF_CARRY, HALF_SUM, covers};
use itoa::Buffer;
use ncl_base::{Items, Memory, Name};
use ncl_blif::Model;
use std::alloc::Global;

/// The name of a stage, which is counted from 0: `add` and its number from 1.
fn stage_name(alloc: Global, stage: u32) -> Result<Name, Memory>
    requires { stage < 32 }
    ensures { IfOk result (λ name. name ≡ codes "add" ++ decimal (stage + 1)) }
{
    let mut digits = Buffer::new();
    let mut name = b"add".to_vec(alloc)?;
    name.extend_from_slice(digits.format(stage + 1).as_bytes())?;
    Name::from_bytes(alloc, &name)
}

/// The numbers from one on and below another. Linear in their number.
fn numbers(alloc: Global, from: u32, below: u32) -> Result<Vec<u32>, Memory>
    requires { from ≤ below }
    ensures { IfOk result (λ numbers. numbers.items ≡ range_with_len from (below - from)) }
{
    Ok((from..below).collect(alloc)?)
}

/// The outputs of a stage with so many inputs: the carry, the sums, which stand after the old carry, if there is one,
/// and before the two bits, the new sum, and the inputs after the two bits. Linear in their number.
fn outputs(alloc: Global, carries: u32, place: u32, inputs: u32) -> Result<Vec<u32>, Memory>
    requires carries { carries ≤ place }
    requires place { place + 2 ≤ inputs }
    requires few { inputs < 100 }
    ensures { IfOk result (λ outputs. outputs.items ≡ inputs ∷ range_with_len carries (place - carries)
        ++ (inputs + 1) ∷ range_with_len (place + 2) (inputs - (place + 2))) }
{
    let mut outputs = Vec::new(alloc);
    outputs.push(inputs)?;
    outputs.extend_from_slice(&numbers(alloc, carries, place)?)?;
    outputs.push(inputs + 1)?;
    outputs.extend_from_slice(&numbers(alloc, place + 2, inputs)?)?;
    Ok(outputs)
}

/// The model of a stage, which is counted from 0. Linear in the bits.
fn stage_model(alloc: Global, bits: u32, stage: u32) -> Result<Model, Memory>
    requires few { bits ≤ 32 }
    requires stage { stage < bits }
    ensures model { IfOk result IsModel }
    ensures stage { IfOk result (IsStage bits stage) }
    ensures small { IfOk result (λ model. size_of_model model ≤ 200) }
{
    let carries = stage.min(1);
    let place = carries + stage;
    let inputs = place + 2 * (bits - stage);
    let covers = if stage == 0 {
        covers(alloc, &[0, 1], inputs, &HALF_CARRY, &HALF_SUM)?
    } else {
        let ins = [0, place, place + 1];
        covers(alloc, &ins, inputs, &FULL_CARRY, &FULL_SUM)?
    };
    Ok(Model {
        name: stage_name(alloc, stage)?,
        inputs: Items::from_vec(numbers(alloc, 0, inputs)?),
        outputs: Items::from_vec(outputs(alloc, carries, place, inputs)?),
        covers: Items::from_vec(covers),
    })
}

/// The models of an adder of so many bits, from 1 to 32: one for each bit, the least significant first.
///
/// The first takes the bits of two numbers in turn, `a1`, `b1` and so on, the least significant first. A model adds
/// the first bits of both that are left and the carry, which is its first input, and which the first model lacks.
/// Its outputs are the new carry, the sums so far with the new one, and the bits that are left. Quadratic in the
/// bits. The only error is want of memory.
pub fn demo_models(alloc: Global, bits: u32) -> Result<Vec<Model>, Memory>
    requires some { 0 < bits }
    requires few { bits ≤ 32 }
    ensures models { IfOk result (λ models. AreModels models.items) }
    ensures adder { IfOk result (λ models. IsAdder bits models.items) }
    ensures small { IfOk result (λ models. CanBeCompiled models.items) }
{
    let mut models = Vec::new(alloc);
    for stage in 0..bits {
        models.push(stage_model(alloc, bits, stage)?)?;
    }
    Ok(models)
}
