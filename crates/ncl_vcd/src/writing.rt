//! The dump of a run.
ghost use Rattle.std.specs.Prelude.{◌≡◌, ◌^◌, ◌<◌, ◌++◌, ◌∷◌, [], All, IfOk, OnOk, length};
ghost use Rattle.std.specs.List.{AllByRecursion, flat_map};
ghost use Rattle.ncl_delay.specs.declared.fired.Fired.{Fired as FiredStep};
ghost use Rattle.ncl_machine.specs.Held.{InRange, IsFor, meaning};
ghost use Rattle.ncl_machine.specs.Run.{AreWordsOf, IsRunFrom};
ghost use Rattle.ncl_reader.specs.GraphicNames.{HasGraphicNames};
ghost use Rattle.ncl_sim.specs.TimedRun.{items_in};
ghost use Rattle.ncl_vcd.specs.Dump.{change_lines, line, variable_lines, time_lines, value_line, value_lines};
ghost use Rattle.ncl_vcd.specs.RunDump.{BeginsTimedRun, TellsEachLevel, changes_of, dump_of, values_in};

use crate::lines::{push_line, push_scope, push_time, push_value, push_variable};
use ncl_base::{Memory, Name, Word};
use ncl_delay::Fired;
use ncl_machine::State;
use ncl_netlist::NetId;
use ncl_shape::Pipeline;
use std::alloc::Global;

/// The value change dump of the first steps, or of all, of a timed run of a pipeline over some words: the values of
/// all nets at reset, and each change with its time.
///
/// Clause `text` says the text to the byte, and clause `levels` what it is good for: at each time, what the dump tells
/// of a net is the net's value then. The names must fit on a line: those of a netlist that was read do.
///
/// Goes through the steps once, and costs a step of the machine and a few bytes for each. Takes memory for a state and
/// for the text: at most seven bytes for each step and twenty-two for each time at which one fires, and for each net its
/// name and some thirty bytes more. The only error is want of memory.
pub fn dump(
    alloc: Global,
    pipeline: &Pipeline,
    words: &[Word],
    fired: &[Fired],
) -> Result<Vec<u8>, Memory>
    requires words { AreWordsOf pipeline.now words.now }
    requires names { HasGraphicNames pipeline.now.netlist }
    requires run { BeginsTimedRun pipeline.now words.now fired.now }
    ensures text { IfOk result (λ text. text.items ≡ dump_of pipeline.now words.now fired.now) }
    ensures levels { IfOk result (λ text. TellsEachLevel pipeline.now words.now fired.now text.items) }
{
    let netlist = pipeline.netlist();
    let mut text = Vec::new(alloc);
    push_line(&mut text, b"$timescale 1 ns $end")?;
    push_scope(&mut text, netlist.module().bytes())?;
    push_variables(&mut text, netlist.nets())?;
    push_line(&mut text, b"$upscope $end")?;
    push_line(&mut text, b"$enddefinitions $end")?;
    push_time(&mut text, 0)?;
    push_line(&mut text, b"$dumpvars")?;
    let mut state = State::new(alloc, pipeline, words)?;
    push_values(&mut text, pipeline, &state)?;
    push_line(&mut text, b"$end")?;
    push_changes(&mut text, pipeline, &mut state, fired)?;
    Ok(text)
}

/// Appends the lines that name the nets. Linear in these lines.
fn push_variables(text: &mut Vec<u8>, nets: &[Name]) -> Result<(), Memory>
    requires { length nets.now < 2 ^ 32 }
    ensures { OnOk result (text.new.items ≡ text.old.items ++ flat_map line (variable_lines 0 nets.now)) }
{
    for (net, name) in nets.iter().enumerate() {
        push_variable(text, net as u32, name.bytes())?;
    }
    Ok(())
}

/// Appends the lines that tell the values of all nets. Linear in the nets.
fn push_values(text: &mut Vec<u8>, pipeline: &Pipeline, state: &State) -> Result<(), Memory>
    requires { IsFor pipeline.now state.now }
    ensures { OnOk result (text.new.items ≡ text.old.items ++ flat_map line (value_lines 0 (values_in pipeline.now (meaning state.now)))) }
{
    for net in 0..pipeline.netlist().nets().len() {
        push_value(text, net as u32, state.value(NetId(net as u32)))?;
    }
    Ok(())
}

/// Appends the line that tells a value, after one that tells the time where that is another than the last.
fn push_change(
    text: &mut Vec<u8>,
    last: u64,
    time: u64,
    net: u32,
    value: bool,
) -> Result<(), Memory>
    ensures text { OnOk result (text.new.items ≡ text.old.items ++ flat_map line (time_lines last time ++ value_line net value ∷ [])) }
    ensures small { time < 2 ^ 64 }
{
    if time != last {
        push_time(text, time)?;
    }
    push_value(text, net, value)?;
    Ok(())
}

/// Appends the lines that tell the changes of some steps, and goes through these.
fn push_changes(
    text: &mut Vec<u8>,
    pipeline: &Pipeline,
    state: &mut State,
    fired: &[Fired],
) -> Result<(), Memory>
    requires made { IsFor pipeline.now state.old }
    requires run { IsRunFrom pipeline.now (meaning state.old) (items_in fired.now) }
    requires range { All (λ (f : FiredStep). InRange pipeline.now f.item) fired.now }
    ensures text { OnOk result (text.new.items ≡ text.old.items ++ flat_map line (change_lines 0 (changes_of pipeline.now (meaning state.old) fired.now))) }
    ensures small { OnOk result (AllByRecursion (λ (f : FiredStep). f.time < 2 ^ 64) fired.now) }
{
    let mut last = 0;
    for next in fired {
        let net = state.fire(pipeline, next.item)?;
        push_change(text, last, next.time, net.0, state.value(net))?;
        last = next.time;
    }
    Ok(())
}
