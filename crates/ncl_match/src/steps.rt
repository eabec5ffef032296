//! The covers of models in one row, each after those that it reads.
ghost use Rattle.std.specs.Prelude.{◌≡◌, ◌+◌, ◌<◌, ◌^◌, ◌==◌, ℕ, if◌then◌else◌, map, nat_lt, None, Some, IfOk, OnOk, IsSome, length, All, slice_index_or};
ghost use Rattle.std.specs.Ordering.{nat_cmp};
ghost use Rattle.std.specs.BTreeMap.{get};
ghost use Rattle.std.specs.List.{range_with_len};
ghost use Rattle.ncl_blif.specs.Model.{AreModels, IsModel};
ghost use Rattle.ncl_match.specs.Steps.{AddsModel, AddsStep, AreOrdered};

use crate::widths::first_width;
use ncl_base::{Items, Memory};
use ncl_blif::{Cover, Model};
use ncl_network::cover_order;
use std::alloc::Global;
use std::collections::BTreeMap;

/// A cover in the row. The signals of all models have numbers: first those of the inputs of the first model, then what
/// each step drives, in their order.
#[derive(Drop)]
pub(crate) struct Step<'a> {
    /// The numbers of the signals that it reads, in order.
    pub(crate) ins: Items<u32>,
    /// The cover.
    pub(crate) cover: &'a Cover,
}

/// Models with their covers in one row.
#[derive(Drop)]
pub struct OrderedModels<'a> {
    models: &'a [Model],
    /// The covers of all models, each after those that it reads.
    pub(crate) steps: Vec<Step<'a>>,
    /// The numbers of the outputs of the last model.
    pub(crate) outputs: Vec<u32>,
}

impl<'a> std::marker::Model for OrderedModels<'a> {
    ghost use Rattle.std.specs.Prelude.{List};
    ghost use Rattle.ncl_blif.specs.declared.model.Model.{Model};
    ghost use Rattle.ncl_match.specs.Steps.{AreInRow};

    ghost Value = { List Model };

    ghost view = { λ a. a.models.now };

    ghost invariant = { λ a. AreInRow a.models.now a.steps.items a.outputs.items };
}

/// The numbers of the inputs of a model by their signals. `n log n` in the inputs.
fn begin(alloc: Global, ins: &[u32]) -> Result<BTreeMap<u32, u32>, Memory>
    requires { length ins.now < 2 ^ 32 }
    ensures { IfOk result (λ numbers. (signal : ℕ) → get nat_cmp numbers signal
        ≡ (if nat_lt signal (length ins.now) then Some (slice_index_or ins.now signal 0) else None)) }
{
    let mut numbers = BTreeMap::new(alloc);
    for signal in 0..ins.len() as u32 {
        numbers.insert(signal, ins[signal as usize])?;
    }
    Ok(numbers)
}

/// The numbers of some signals, in order. A look-up for each.
fn look_up(alloc: Global, numbers: &BTreeMap<u32, u32>, signals: &[u32]) -> Result<Vec<u32>, Memory>
    requires { All (λ signal. IsSome (get nat_cmp numbers.now signal)) signals.now }
    ensures { IfOk result (λ found. map Some found.items ≡ map (get nat_cmp numbers.now) signals.now) }
{
    let mut found = Vec::new(alloc);
    for signal in signals {
        let number = numbers.get(signal).copied().unwrap();
        found.push(number)?;
    }
    Ok(found)
}

/// Puts the step of a cover after the others, where there are so many signals before the steps. A look-up for each
/// signal that it reads.
fn add_step<'a>(
    alloc: Global,
    inputs: usize,
    cover: &'a Cover,
    numbers: &mut BTreeMap<u32, u32>,
    steps: &mut Vec<Step<'a>>,
) -> Result<(), Memory>
    requires known { All (λ signal. IsSome (get nat_cmp numbers.old signal)) cover.now.ins }
    requires few { inputs + length steps.old.items < 2 ^ 32 }
    ensures numbers { OnOk result ((signal : ℕ) → get nat_cmp numbers.new signal
        ≡ (if cover.now.out == signal then Some (inputs + length steps.old.items) else get nat_cmp numbers.old signal)) }
    ensures step { OnOk result (AddsStep steps.old.items steps.new.items (get nat_cmp numbers.old) cover.now) }
{
    let ins = look_up(alloc, numbers, cover.ins.items())?;
    let number = (inputs + steps.len()) as u32;
    let ins = Items::from_vec(ins);
    steps.push(Step { ins, cover })?;
    numbers.insert(cover.out, number)?;
    Ok(())
}

/// Puts the steps of the covers of a model after the others, where its inputs have these numbers, and gives those of its
/// outputs. `n log n` in the model.
fn add_model<'a>(
    alloc: Global,
    inputs: usize,
    ins: &[u32],
    model: &'a Model,
    steps: &mut Vec<Step<'a>>,
) -> Result<Vec<u32>, Memory>
    requires model { IsModel model.now }
    requires ins { length ins.now ≡ length model.now.inputs }
    requires below { All (λ x. x < inputs + length steps.old.items) ins.now }
    requires ordered { AreOrdered inputs steps.old.items }
    requires few { inputs + length steps.old.items + length model.now.covers < 2 ^ 32 }
    ensures { IfOk result (λ outs. AddsModel inputs steps.old.items steps.new.items model.now ins.now outs.items) }
{
    let mut numbers = begin(alloc, ins)?;
    let order = cover_order(alloc, model)?;
    let covers = model.covers.items();
    for place in &order {
        add_step(alloc, inputs, &covers[*place as usize], &mut numbers, steps)?;
    }
    let outs = look_up(alloc, &numbers, model.outputs.items())?;
    Ok(outs)
}

/// The numbers of the inputs of the first model. Linear in them.
fn first_numbers(alloc: Global, inputs: usize) -> Result<Vec<u32>, Memory>
    requires { inputs < 2 ^ 32 }
    ensures { IfOk result (λ numbers. numbers.items ≡ range_with_len 0 inputs) }
{
    let mut numbers = Vec::new(alloc);
    for number in 0..inputs as u32 {
        numbers.push(number)?;
    }
    Ok(numbers)
}

impl<'a> OrderedModels<'a> {
    /// Models with their covers in one row, one model after another. `n log n` in the models. The only error is want of
    /// memory.
    pub fn of(alloc: Global, models: &'a [Model]) -> Result<OrderedModels<'a>, Memory>
        requires { AreModels models.now }
        ensures { IfOk result (λ ordered. ordered ≡ models.now) }
    {
        let inputs = first_width(models);
        let mut outputs = first_numbers(alloc, inputs)?;
        let mut steps = Vec::new(alloc);
        for model in models {
            outputs = add_model(alloc, inputs, &outputs, model, &mut steps)?;
        }
        Ok(OrderedModels {
            models,
            steps,
            outputs,
        })
    }

    /// The models.
    pub fn models(&self) -> &'a [Model]
        ensures { result.now ≡ self.now }
    {
        self.models
    }
}
