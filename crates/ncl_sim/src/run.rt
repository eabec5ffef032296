//! A run under way.
ghost use Rattle.std.specs.Prelude.{◌≡◌, ◌+◌, ◌<◌, ◌≤◌, ◌^◌, ◌++◌, ◌∷◌, [], true, IfOk, IfSome, OnOk, Some, length};
ghost use Rattle.ncl_machine.specs.Held.{IsFor, meaning};
ghost use Rattle.ncl_machine.specs.OneChange.{net_of_step};
ghost use Rattle.ncl_machine.specs.Run.{AreWordsOf};
ghost use Rattle.ncl_machine.specs.Steps.{enabled, step};
ghost use Rattle.ncl_sim.specs.Candidates.{candidate, number_count};
ghost use Rattle.ncl_sim.specs.TimedRun.{most_steps};
ghost use Rattle.ncl_sim.specs.Running.{IsPopped, IsStopped, IsUnderWay, Turned};

use crate::agenda::Agenda;
use crate::course::Course;
use crate::looking::{candidate, look_all, started};
use crate::rows::net_by_row;
use crate::trace::End;
use ncl_base::{Memory, Word};
use ncl_delay::Fired;
use ncl_machine::State;
use ncl_netlist::NetId;
use std::alloc::Global;

/// The state of the machine, what waits, and the steps so far.
#[derive(Drop)]
pub(crate) struct Run {
    pub(crate) state: State,
    pub(crate) agenda: Agenda,
    pub(crate) steps: Vec<Fired>,
}

impl Run {
    /// The run before its first step. Linear in nets, cells and the bits of the words.
    pub(crate) fn begin(alloc: Global, course: &Course, words: &[Word]) -> Result<Run, Memory>
        requires words { AreWordsOf course.now.pipeline words.now }
        ensures under_way { IfOk result (IsUnderWay course.now.pipeline course.now.delays) }
        ensures offered { IfOk result (λ run. run.state.offered ≡ words.now) }
        ensures steps { IfOk result (λ run. run.steps.items ≡ []) }
    {
        let state = State::new(alloc, course.pipeline(), words)?;
        let agenda = started(alloc, course, &state)?;
        Ok(Run {
            state,
            agenda,
            steps: Vec::new(alloc),
        })
    }

    /// Makes the step of a number, whose item is enabled, and tells the net that it changed.
    fn fire(&mut self, course: &Course, time: u64, number: u32) -> Result<NetId, Memory>
        requires made { IsFor course.now.pipeline self.old.state }
        requires within { number < number_count course.now.pipeline }
        requires can { enabled course.now.pipeline (meaning self.old.state) (candidate course.now.pipeline (meaning self.old.state) number) ≡ true }
        ensures made { OnOk result (IsFor course.now.pipeline self.new.state) }
        ensures state { OnOk result (meaning self.new.state ≡ step course.now.pipeline (meaning self.old.state) (candidate course.now.pipeline (meaning self.old.state) number)) }
        ensures steps { OnOk result (self.new.steps.items ≡ self.old.steps.items ++ record { time = time; item = candidate course.now.pipeline (meaning self.old.state) number } ∷ []) }
        ensures agenda { self.new.agenda ≡ self.old.agenda }
        ensures net { IfOk result (λ net. IfSome (net_of_step course.now.pipeline (meaning self.old.state) (candidate course.now.pipeline (meaning self.old.state) number)) (λ changed. net.0 ≡ changed)) }
        ensures within { IfOk result (λ net. net.0 < length course.now.pipeline.netlist.nets) }
    {
        let pipeline = course.pipeline();
        let item = candidate(pipeline, &self.state, number);
        let net = self.state.fire(pipeline, item)?;
        self.steps.push(Fired { time, item })?;
        course.facts();
        Ok(net_by_row(course.rows(), number, net))
    }

    /// Makes the step of what was due first, looks at what it touches, and answers the least number that was lost.
    ///
    /// Takes time in what reads the net, and in the logarithm of how many wait.
    fn turn(&mut self, course: &Course, time: u64, number: u32) -> Result<Option<u32>, Memory>
        requires few { length self.old.steps.items < most_steps course.now.pipeline self.old.state.offered }
        requires popped { IsPopped course.now.pipeline course.now.delays self.old time number }
        requires within { number < number_count course.now.pipeline }
        requires time { time ≤ 2 ^ 63 }
        ensures turned { IfOk result (Turned course.now.pipeline course.now.delays self.new time) }
        ensures offered { OnOk result (self.new.state.offered ≡ self.old.state.offered) }
        ensures steps { OnOk result (length self.new.steps.items ≡ length self.old.steps.items + 1) }
    {
        let net = self.fire(course, time, number)?;
        course.facts();
        let numbers = course.touched(net);
        let lost = look_all(&mut self.agenda, course, &self.state, time, numbers)?;
        Ok(lost)
    }

    /// Goes on to the end of the run, and tells how it ends. `most` is the most steps of a run.
    pub(crate) fn finish(&mut self, course: &Course, most: u64) -> Result<End, Memory>
        requires under_way { IsUnderWay course.now.pipeline course.now.delays self.old }
        requires most { most ≡ most_steps course.now.pipeline self.old.state.offered }
        requires few { most ≤ 2 ^ 43 }
        requires begun { length self.old.steps.items ≤ most }
        ensures stopped { IfOk result (IsStopped course.now.pipeline course.now.delays self.new) }
        ensures offered { OnOk result (self.new.state.offered ≡ self.old.state.offered) }
    {
        course.delays().facts();
        course.facts();
        while let Some((time, number)) = self.agenda.take_first() {
            if self.steps.len() as u64 == most {
                return Ok(End::Over);
            }
            if let Some(lost) = self.turn(course, time, number)? {
                let item = candidate(course.pipeline(), &self.state, lost);
                return Ok(End::Hazard { item, time });
            }
        }
        Ok(End::Quiet)
    }
}
