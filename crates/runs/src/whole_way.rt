//! From BLIF to a wave by the libraries.
ghost use Rattle.std.specs.Prelude.{◌≤◌, IfOk, IsTrue, length};
ghost use Rattle.ncl_blif.specs.Model.{AreModels};
ghost use Rattle.ncl_delay.specs.declared.word_text.TheConstants.{MOST_WORDS as LIMIT};
ghost use Rattle.ncl_machine.specs.Run.{AreWordsOf};
ghost use Rattle.ncl_reader.specs.GraphicNames.{HasGraphicNames};
ghost use Rattle.ncl_report.specs.TraceText.{NamesItemOf};
ghost use Rattle.ncl_vcd.specs.RunDump.{BeginsTimedRun};

use ncl_base::{MOST_BITS, MOST_BYTES, Word};
use ncl_blif::{Model, read_blif};
use ncl_check::{Judging, PARTS, check};
use ncl_compile::compile;
use ncl_delay::{Delays, Fired, MOST_WORDS, read_delays, read_words};
use ncl_match::{Bits, Compared, compare};
use ncl_merge::merge;
use ncl_netlist::Netlist;
use ncl_reader::read_netlist;
use ncl_report::trace_text;
use ncl_shape::{Pipeline, shape};
use ncl_sim::{Trace, simulate};
use ncl_vcd::dump;
use ncl_verdict::Stages;
use ncl_writer::{is_writable, write_netlist};
use std::alloc::Global;
use std::io::Print;
use std::thread::Threads;

/// The most nodes of a stage, and of an output where functions are compared.
const NODES: u32 = 100_000;

/// Compiles a text of BLIF and merges the gates, checks the netlist that comes of it, compares it with the text, runs it at
/// some delays on some words, and makes a dump of the run. Prints what is found.
pub(crate) fn go_all_the_way<R: Threads + Sync + AllocGlobal + Print>(
    rt: &R,
    blif: &[u8],
    delays: &[u8],
    words: &[u8],
) -> anyhow::Result<()> {
    let models = models_of(rt.alloc(), blif)?;
    let text = merged_text(rt.alloc(), &models)?;
    print_checked(rt, &text)?;
    print_text(rt, &text, &models, delays, words)
}

/// The models of a text of BLIF.
fn models_of(alloc: Global, blif: &[u8]) -> anyhow::Result<Vec<Model>>
    ensures { IfOk result (λ models. AreModels models.items) }
{
    anyhow::ensure!(blif.len() <= MOST_BYTES, "models that are too long");
    Ok(read_blif(alloc, blif)?)
}

/// The text of the netlist that models compile to, with its gates merged.
fn merged_text(alloc: Global, models: &[Model]) -> anyhow::Result<Vec<u8>>
    requires { AreModels models.now }
    ensures { IfOk result (λ text. length text.items ≤ MOST_BYTES) }
{
    let netlist = compile(alloc, models)?;
    let merged = merge(alloc, netlist)?;
    anyhow::ensure!(is_writable(&merged), "a name that can't be written");
    let text = write_netlist(alloc, &merged)?;
    anyhow::ensure!(text.len() <= MOST_BYTES, "a netlist that is too long");
    Ok(text)
}

/// Prints the verdict on the text of a netlist.
fn print_checked<R: Threads + Sync + AllocGlobal + Print>(rt: &R, text: &[u8]) -> anyhow::Result<()>
    requires { length text.now ≤ MOST_BYTES }
{
    let judging = Judging {
        rt,
        alloc: rt.alloc(),
        judge: &Stages,
    };
    let told = check(&judging, text, NODES, false)?;
    rt.write_all(&told.text)?;
    Ok(())
}

/// Prints what is found of the text of a netlist beside the verdict.
fn print_text<R: Threads + Sync + AllocGlobal + Print>(
    rt: &R,
    text: &[u8],
    models: &[Model],
    delays: &[u8],
    words: &[u8],
) -> anyhow::Result<()>
    requires short { length text.now ≤ MOST_BYTES }
    requires models { AreModels models.now }
{
    let netlist = read_netlist(rt.alloc(), text)?;
    print_netlist(rt, &netlist, models, delays, words)
}

/// Prints whether a netlist computes what models say, and its run at some delays over some words.
fn print_netlist<R: Threads + Sync + AllocGlobal + Print>(
    rt: &R,
    netlist: &Netlist,
    models: &[Model],
    delays: &[u8],
    words: &[u8],
) -> anyhow::Result<()>
    requires names { HasGraphicNames netlist.now }
    requires models { AreModels models.now }
{
    let pipeline = shape(rt.alloc(), netlist)?;
    print_compared(rt, &pipeline, models)?;
    print_run(rt, &pipeline, delays, words)
}

/// Prints whether a netlist computes what models say.
fn print_compared<R: Threads + Sync + AllocGlobal + Print>(
    rt: &R,
    pipeline: &Pipeline,
    models: &[Model],
) -> anyhow::Result<()>
    requires { AreModels models.now }
{
    let found = match compare(rt, rt.alloc(), &Bits, pipeline, models, NODES, PARTS)? {
        Compared::Same => "the same function",
        Compared::Differ { .. } => "another function",
        Compared::Widths => "other numbers of bits",
    };
    println!(rt; "{found}")?;
    Ok(())
}

/// Whether words have the width of a pipeline's inputs. Linear in the words.
fn are_words(pipeline: &Pipeline, words: &[Word]) -> bool
    ensures { IsTrue result → AreWordsOf pipeline.now words.now }
{
    words
        .iter()
        .all(|word| word.bits().len() == pipeline.inputs().len())
}

/// The delays that a text states for the cells of a netlist.
fn delays_of(alloc: Global, netlist: &Netlist, text: &[u8]) -> anyhow::Result<Delays> {
    anyhow::ensure!(text.len() <= MOST_BYTES, "delays that are too long");
    Ok(read_delays(alloc, text, netlist)?)
}

/// The words of a text for a pipeline.
fn offered(alloc: Global, pipeline: &Pipeline, text: &[u8]) -> anyhow::Result<Vec<Word>>
    ensures wide { IfOk result (λ words. AreWordsOf pipeline.now words.items) }
    ensures few { IfOk result (λ words. length words.items ≤ LIMIT) }
{
    let width = pipeline.inputs().len();
    anyhow::ensure!(0 < width && width <= MOST_BITS, "no word is so wide");
    anyhow::ensure!(text.len() <= MOST_BYTES, "words that are too long");
    let words = read_words(alloc, text, width)?;
    anyhow::ensure!(words.len() <= MOST_WORDS, "too many words");
    anyhow::ensure!(are_words(pipeline, &words), "words of another width");
    Ok(words)
}

/// Prints the lines of the run of a netlist at some delays over some words, and how long the dump of the run is.
fn print_run<R: AllocGlobal + Print>(
    rt: &R,
    pipeline: &Pipeline,
    delays: &[u8],
    words: &[u8],
) -> anyhow::Result<()>
    requires { HasGraphicNames pipeline.now.netlist }
{
    let delays = delays_of(rt.alloc(), pipeline.netlist(), delays)?;
    let words = offered(rt.alloc(), pipeline, words)?;
    print_run_of(rt, pipeline, &delays, &words)
}

/// The same, of delays and words that are read.
fn print_run_of<R: AllocGlobal + Print>(
    rt: &R,
    pipeline: &Pipeline,
    delays: &Delays,
    words: &[Word],
) -> anyhow::Result<()>
    requires names { HasGraphicNames pipeline.now.netlist }
    requires wide { AreWordsOf pipeline.now words.now }
    requires few { length words.now ≤ LIMIT }
{
    pipeline.facts();
    let trace = simulate(rt.alloc(), pipeline, delays, words)?;
    let due = pipeline.data_banks() + words.len();
    print_trace(rt, pipeline, &trace, due)?;
    print_dump(rt, pipeline, words, trace.steps.items())
}

/// Prints the lines of a run in which so many words are due.
fn print_trace<R: AllocGlobal + Print>(
    rt: &R,
    pipeline: &Pipeline,
    trace: &Trace,
    due: usize,
) -> anyhow::Result<()>
    requires { NamesItemOf pipeline.now trace.now.end }
{
    rt.write_all(&trace_text(rt.alloc(), pipeline, trace, due)?)?;
    Ok(())
}

/// Prints how long the dump of a run is.
fn print_dump<R: AllocGlobal + Print>(
    rt: &R,
    pipeline: &Pipeline,
    words: &[Word],
    fired: &[Fired],
) -> anyhow::Result<()>
    requires names { HasGraphicNames pipeline.now.netlist }
    requires wide { AreWordsOf pipeline.now words.now }
    requires run { BeginsTimedRun pipeline.now words.now fired.now }
{
    let wave = dump(rt.alloc(), pipeline, words, fired)?;
    println!(rt; "a dump of {} bytes", wave.len())?;
    Ok(())
}
