//! The banks before, between and after stages.
ghost use Rattle.std.specs.Prelude.{◌≡◌, ◌<◌, ◌≤◌, codes, length, slice_index, IfOk};
ghost use Rattle.ncl_base.specs.declared.word.TheConstants.{MOST_BITS};
ghost use Rattle.ncl_blif.specs.Model.{AreModels};
ghost use Rattle.ncl_blif.specs.Meaning.{width_of};
ghost use Rattle.ncl_tree.specs.NamePairs.{pair_names, IsFreeOf};
ghost use Rattle.ncl_network.specs.Size.{widths_of, CanBeCompiled, most_models};
ghost use Rattle.ncl_bank.specs.BankParts.{AreBankParts, CanBeBank};
ghost use Rattle.ncl_compile.specs.InnerNames.{bank_prefix, root_name};
ghost use Rattle.ncl_compile.specs.Pieces.{AreStages, AreBanks, IsBankBetween, pairs_read};

use crate::naming::{numbered, pairs_driven, port_pairs, request_name, root_name};
use ncl_bank::{BankParts, bank_parts};
use ncl_base::{Memory, Name};
use ncl_blif::Model;
use ncl_netlist::NamePair;
use ncl_rails::StageParts;
use std::alloc::Global;

/// The bank of this number, from 0, which reads and drives these rails, and has this request.
fn bank_asked(
    alloc: Global,
    ins: &[NamePair],
    outs: &[NamePair],
    request: &Name,
    number: usize,
) -> Result<BankParts, Memory>
    requires few { number < 999 }
    requires can { CanBeBank ins.now outs.now request.now (codes "rst") (root_name number) (bank_prefix number) }
    ensures { IfOk result (AreBankParts ins.now outs.now request.now (codes "rst") (root_name number) (bank_prefix number)) }
{
    let rst = Name::from_bytes(alloc, b"rst")?;
    let root = root_name(alloc, number)?;
    let prefix = numbered(alloc, b'b', number)?;
    bank_parts(alloc, ins, outs, request, &rst, &root, &prefix)
}

/// The bank of this number, from 0, and this width, which reads these rails, where the last has the number `last`.
fn bank_between(
    alloc: Global,
    ins: &[NamePair],
    last: usize,
    number: usize,
    width: usize,
) -> Result<BankParts, Memory>
    requires few_banks { last ≤ most_models }
    requires within { number ≤ last }
    requires some { 1 ≤ width }
    requires few { width ≤ MOST_BITS }
    requires as_many { length ins.now ≡ width }
    requires free { IsFreeOf (bank_prefix number) (pair_names ins.now) }
    ensures { IfOk result (IsBankBetween ins.now last number width) }
{
    let outs = pairs_driven(alloc, last, number, width)?;
    let request = request_name(alloc, last, number)?;
    bank_asked(alloc, ins, &outs, &request, number)
}

/// How many bits the bank of this number has, from 0.
pub(crate) fn width_at(models: &[Model], number: usize) -> usize
    requires are_models { AreModels models.now }
    requires within { number ≤ length models.now }
    ensures { result ≡ slice_index (widths_of models.now) number }
{
    if number < models.len() {
        return models[number].inputs.items().len();
    }
    models[models.len() - 1].outputs.items().len()
}

/// The bank of this number, from 0.
fn bank_at(
    alloc: Global,
    models: &[Model],
    stages: &[StageParts],
    number: usize,
) -> Result<BankParts, Memory>
    requires are_models { AreModels models.now }
    requires small { CanBeCompiled models.now }
    requires are_stages { AreStages models.now stages.now }
    requires within { number ≤ length models.now }
    ensures { IfOk result (IsBankBetween (pairs_read (width_of models.now) stages.now number) (length models.now) number (slice_index (widths_of models.now) number)) }
{
    let width = width_at(models, number);
    if number == 0 {
        let ins = port_pairs(alloc, b'i', width)?;
        return bank_between(alloc, &ins, models.len(), number, width);
    }
    let before = &stages[number - 1];
    bank_between(alloc, before.outputs.items(), models.len(), number, width)
}

/// The banks before each stage and after the last, in their order. Near linear in their bits.
pub(crate) fn banks_of(
    alloc: Global,
    models: &[Model],
    stages: &[StageParts],
) -> Result<Vec<BankParts>, Memory>
    requires are_models { AreModels models.now }
    requires small { CanBeCompiled models.now }
    requires are_stages { AreStages models.now stages.now }
    ensures { IfOk result (λ banks. AreBanks models.now stages.now banks.items) }
{
    let mut banks = Vec::new(alloc);
    for number in 0..models.len() + 1 {
        let bank = bank_at(alloc, models, stages, number)?;
        banks.push(bank)?;
    }
    Ok(banks)
}
