//! Judges of the tests' own: that stages are judged side by side, and each once. And a source and a sink that can't fail.
ghost use Rattle.std.specs.Prelude.{◌≢◌};

use crate::asking::{FIRST_IS_WRONG, THREE_BANKS, held, long_stage};
use ncl_base::{Memory, NullSink, SteadySource};
use ncl_shape::Stage;
use ncl_top::run_by;
use ncl_verdict::{Judge, Stages, Verdict, judge_stage};
use std::alloc::Global;
use std::sync::atomic::{AtomicBool, AtomicUsize, Ordering};
use std::test::Fail;
use std::thread::{Threads, sleep};
use std::time::{Clock, Duration};

/// Whether this is set within twenty seconds.
fn is_seen<C: Clock>(clock: &C, flag: &AtomicBool) -> bool {
    for _ in 0..20_000u32 {
        if flag.load(Ordering::SeqCst) {
            return true;
        }
        sleep(clock, Duration::from_millis(1));
    }
    false
}

/// Judges the first and the second stage once it has seen that the other is being judged.
#[derive(Drop)]
struct Meeting<'a, C: Clock> {
    clock: &'a C,
    first: AtomicBool,
    second: AtomicBool,
    met: AtomicUsize,
}

impl<'a, C: Clock> Meeting<'a, C> {
    fn new(clock: &'a C) -> Meeting<'a, C> {
        Meeting {
            clock,
            first: AtomicBool::new(false),
            second: AtomicBool::new(false),
            met: AtomicUsize::new(0),
        }
    }

    /// Whether the other stage is begun within twenty seconds, which a machine with much else to do may need.
    fn meets(&self, own: &AtomicBool, other: &AtomicBool) -> bool {
        own.store(true, Ordering::SeqCst);
        let is_begun = is_seen(self.clock, other);
        if is_begun {
            self.met.fetch_add(1, Ordering::SeqCst);
        }
        is_begun
    }
}

impl<C: Clock> Judge for Meeting<'_, C> {
    fn judge_one<R: Threads + Sync>(
        &self,
        _rt: &R,
        alloc: Global,
        stage: &Stage,
        limit: u32,
        _parts: u32,
    ) -> Result<Verdict, Memory> {
        let meets = if stage.number == 1 {
            self.meets(&self.first, &self.second)
        } else {
            self.meets(&self.second, &self.first)
        };
        if meets {
            judge_stage(alloc, stage, limit)
        } else {
            Err(Memory)
        }
    }
}

/// Judges stages, counts them, and sums the threads that it may take. A stage after the first waits for the first to be judged.
#[derive(Drop)]
struct Waiting<'a, C: Clock> {
    clock: &'a C,
    is_first_judged: AtomicBool,
    judged: AtomicUsize,
    threads: AtomicUsize,
}

impl<'a, C: Clock> Waiting<'a, C> {
    fn new(clock: &'a C) -> Waiting<'a, C> {
        Waiting {
            clock,
            is_first_judged: AtomicBool::new(false),
            judged: AtomicUsize::new(0),
            threads: AtomicUsize::new(0),
        }
    }

    /// Waits for the first stage to be judged, and two seconds more, in which time that is noted.
    fn wait(&self) {
        is_seen(self.clock, &self.is_first_judged);
        sleep(self.clock, Duration::from_secs(2));
    }
}

impl<C: Clock> Judge for Waiting<'_, C> {
    fn judge_one<R: Threads + Sync>(
        &self,
        _rt: &R,
        alloc: Global,
        stage: &Stage,
        limit: u32,
        parts: u32,
    ) -> Result<Verdict, Memory> {
        self.judged.fetch_add(1, Ordering::SeqCst);
        self.threads.fetch_add(parts as usize, Ordering::SeqCst);
        if stage.number > 1 {
            self.wait();
        }
        let verdict = judge_stage(alloc, stage, limit);
        if stage.number == 1 {
            self.is_first_judged.store(true, Ordering::SeqCst);
        }
        verdict
    }
}

/// The status where neither the source nor the sink can fail.
fn steady_status<R: Threads + Sync, J: Judge + Sync>(
    rt: &R,
    alloc: Global,
    arguments: &[&str],
    source: &mut SteadySource,
    judge: &J,
) -> u8
    ensures read { result ≢ 4 }
    ensures write { result ≢ 5 }
{
    run_by(rt, alloc, arguments, source, &mut NullSink::new(), judge)
}

/// A text in the file `f` of a source that can't fail.
fn source_of(alloc: Global, text: &str) -> Result<SteadySource, Memory> {
    let bytes = text.as_bytes().to_vec(alloc)?;
    let files = held(alloc, bytes)?;
    Ok(SteadySource::new(files))
}

#[test]
fn an_absent_file_of_a_steady_source_is_empty(rt: HostRuntime) -> Result<(), Fail> {
    let mut source = source_of(rt.alloc(), THREE_BANKS)?;
    for (file, status) in [("f", 0), ("absent", 3), ("f", 0)] {
        let got = steady_status(&rt, rt.alloc(), &["check", file], &mut source, &Stages);
        assert_eq!(rt; got, status, "{file}");
    }
    Ok(())
}

#[test]
fn two_stages_are_judged_at_one_time(rt: HostRuntime) -> Result<(), Fail> {
    let mut source = source_of(rt.alloc(), THREE_BANKS)?;
    for arguments in [["check", "f"], ["demo", "2"]] {
        let judge = Meeting::new(&rt);
        let status = steady_status(&rt, rt.alloc(), &arguments, &mut source, &judge);
        assert_eq!(rt; status, 0);
        let met = judge.met.load(Ordering::SeqCst);
        assert_eq!(rt; met, 2);
    }
    Ok(())
}

/// Four threads have two stages each. What comes after a stage that is known to be refused isn't begun.
#[test]
fn stages_after_a_refused_one_are_not_begun(rt: HostRuntime) -> Result<(), Fail> {
    let mut source = source_of(rt.alloc(), FIRST_IS_WRONG)?;
    let judge = Waiting::new(&rt);
    let status = steady_status(&rt, rt.alloc(), &["check", "f"], &mut source, &judge);
    assert_eq!(rt; status, 1);
    let judged = judge.judged.load(Ordering::SeqCst);
    assert!(rt; judged <= 4, "{judged} stages of eight are judged");
    Ok(())
}

/// Two stages share four threads, and are judged once each.
#[test]
fn stages_share_the_threads(rt: HostRuntime) -> Result<(), Fail> {
    let mut source = source_of(rt.alloc(), THREE_BANKS)?;
    let judge = Waiting::new(&rt);
    let status = steady_status(&rt, rt.alloc(), &["check", "f"], &mut source, &judge);
    assert_eq!(rt; status, 0);
    let judged = judge.judged.load(Ordering::SeqCst);
    let threads = judge.threads.load(Ordering::SeqCst);
    assert_eq!(rt; (judged, threads), (2, 4));
    Ok(())
}

/// Asked variant by variant, 100,000 gates would take minutes, and a test may take one.
#[test]
fn a_long_stage_is_judged_without_its_variants(rt: HostRuntime) -> Result<(), Fail> {
    let files = held(rt.alloc(), long_stage(rt.alloc(), 50_000)?)?;
    let mut source = SteadySource::new(files);
    let got = steady_status(&rt, rt.alloc(), &["check", "f"], &mut source, &Stages);
    assert_eq!(rt; got, 0);
    Ok(())
}
