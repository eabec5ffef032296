//! The variants of one stage, shared by several threads.
ghost use Rattle.std.specs.Prelude.{◌≡◌, ◌⊎◌, ◌<◌, ℕ, IfOk, true, false, get_or, length};
ghost use Rattle.std.specs.Thread.{IsSync};
ghost use Rattle.ncl_verdict.specs.Sharing.{IsHeard, IsPart, SharedData, shared_of};

use crate::hearing::Hear;
use crate::ready::Ready;
use crate::shared::Shared;
use crate::verdict::Verdict;
use ncl_base::Memory;
use std::alloc::Global;
use std::thread::{Threads, join};

/// What was heard of some variants, which are asked in their order.
#[derive(Drop)]
pub(crate) enum Heard {
    /// At none of them is anything said.
    Nothing,
    /// What is said first.
    Said(Verdict),
    /// They were not all asked.
    Open,
}

/// What was heard of those variants that some threads took.
#[derive(Drop)]
pub(crate) struct Part {
    /// Whether a variant was asked, and nothing is said at it, for each by its place.
    pub(crate) silent: Vec<bool>,
    /// The place of a variant, and what is said at it.
    pub(crate) said: Option<(usize, Verdict)>,
}

/// Where the nodes of Base, taken once for each variant, are fewer than this, one thread is as fast.
const WORTH_SHARING: usize = 1 << 19;

/// What is said of a stage after Base, heard by at most so many threads. It stays open where the stage is small. An error is want
/// of memory.
///
/// Each thread makes Base in a space of its own, and takes variants that none has taken, the first ones first, until all are
/// taken; one that comes after a variant at which something is said is not asked any more.
pub(crate) fn hear<R: Threads + Sync>(
    rt: &R,
    alloc: Global,
    ready: &Ready,
    parts: u32,
) -> Result<Heard, Memory>
    ensures { IfOk result (IsHeard (shared_of ready.now.limit ready.now.stage)) }
{
    if parts < 2 {
        return Ok(Heard::Open);
    }
    let shared = Shared::of(alloc, ready.stage, ready.limit)?;
    let count = shared.variants().len();
    if count.saturating_mul(ready.space.nodes() as usize) < WORTH_SHARING {
        return Ok(Heard::Open);
    }
    let part = hear_parts(rt, alloc, &shared, parts)?;
    Ok(settled(part, count))
}

/// What so many threads hear of variants, of which they take some that none has taken. A thread takes memory for a mark for
/// each variant.
#[cycle(calls)]
fn hear_parts<R: Threads + Sync, H: Hear + Sync>(
    rt: &R,
    alloc: Global,
    shared: &H,
    parts: u32,
) -> Result<Part, Memory>
    ensures { IfOk result (IsPart (H.shared shared.now)) }
{
    if parts < 2 {
        return shared.hear_part(alloc);
    }
    let few = parts / 2;
    let many = parts - few;
    let (first, second) = join(
        rt,
        || -> Result<Part, Memory>
            requires { IsSync R.row × IsSync H.row }
            ensures { IfOk result (IsPart (H.shared shared.entry.now)) }
        { hear_parts(rt, alloc, shared, few) },
        || -> Result<Part, Memory>
            requires { IsSync R.row × IsSync H.row }
            ensures { IfOk result (IsPart (H.shared shared.entry.now)) }
        { hear_parts(rt, alloc, shared, many) },
    );
    let first = first?;
    let second = second?;
    Ok(together(first, second))
}

/// What two parts heard, as one. Linear in the variants.
fn together(first: Part, second: Part) -> Part
    ensures { (shared : SharedData) → IsPart shared first → IsPart shared second → IsPart shared result }
{
    let Part { silent, said } = first;
    let mut silent = silent;
    mark_also(&mut silent, second.silent.as_slice());
    let said = earlier(said, second.said);
    Part { silent, said }
}

/// Marks the places too that others mark. Linear in these.
fn mark_also(marks: &mut Vec<bool>, others: &[bool])
    ensures { (place : ℕ) → get_or marks.new.items place false ≡ true → (get_or marks.old.items place false ≡ true) ⊎ (get_or others.now place false ≡ true) }
{
    for (place, other) in others.iter().enumerate() {
        if *other && place < marks.len() {
            marks[place] = true;
        }
    }
}

/// What is said at the lesser of two places.
fn earlier(
    first: Option<(usize, Verdict)>,
    second: Option<(usize, Verdict)>,
) -> Option<(usize, Verdict)>
    ensures { (result ≡ first) ⊎ (result ≡ second) }
{
    match (first, second) {
        (Some(one), Some(other)) => {
            if other.0 < one.0 {
                Some(other)
            } else {
                Some(one)
            }
        }
        (Some(one), None) => Some(one),
        (None, other) => other,
    }
}

/// What was heard of so many variants, where all before the one at which something is said were asked, or all. Linear in them.
fn settled(part: Part, count: usize) -> Heard
    ensures { (shared : SharedData) → length shared.variants ≡ count → IsPart shared part → IsHeard shared result }
{
    let Part { silent, said } = part;
    let asked = marked_first(silent.as_slice());
    match said {
        Some((place, verdict)) => {
            if place <= asked {
                Heard::Said(verdict)
            } else {
                Heard::Open
            }
        }
        None => {
            if count <= asked {
                Heard::Nothing
            } else {
                Heard::Open
            }
        }
    }
}

/// How many places are marked before the first that isn't.
fn marked_first(marks: &[bool]) -> usize
    ensures { (place : ℕ) → place < result → get_or marks.now place false ≡ true }
{
    for (place, mark) in marks.iter().enumerate() {
        if !*mark {
            return place;
        }
    }
    marks.len()
}
