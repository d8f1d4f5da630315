//! The calls of a disk in memory: which of them fail, and in which the disk stops.
ghost use Rattle.std.specs.Prelude.{◌≡◌, ◌≢◌, ◌+◌, ◌<◌, ◌≤◌, IfOk, IsTrue, ◌↔◌};
ghost use Rattle.disk_base.specs.Plan.{IsFresh, after_call};
ghost use Rattle.disk_base.specs.Count.{HasCause};
ghost use Rattle.disk_base.specs.Stops.{IsStopped, CountsOwn, after_change, armed, fill_left};
ghost use Rattle.disk_base.specs.Stops.DiskStop.{Unarmed};
ghost use Rattle.disk_base.specs.MemCalls.{stop_of, fails_now, passage_of, unless, KeepsTallies};

use crate::Fill;
use crate::plans::Plan;
use ghost_values::Tally;
use std::alloc::Global;
use ubik_types::NoMemory;

/// Whether a disk is to stop.
#[derive(Clone, Copy)]
pub(crate) enum StopState {
    Unarmed,
    /// So many further changing calls pass.
    Armed { calls: u32, fill: Fill },
    Stopped { fill: Fill },
}

/// What becomes of a changing call.
#[derive(Clone, Copy, PartialEq, Eq)]
pub(crate) enum Passage {
    Passes,
    /// The disk stops in it.
    Stops,
    Fails,
}

/// What decides on the calls of a disk in memory, and counts them.
#[derive(Drop)]
pub(crate) struct MemCalls {
    plan: Plan,
    stop: StopState,
    steps: Tally,
    faults: Tally,
    /// The faults that no stop brought.
    own_faults: Tally,
}

impl MemCalls {
    /// No call was made yet, and no stop is armed.
    pub(crate) fn new(alloc: Global, fails: &[u64]) -> Result<MemCalls, NoMemory>
        ensures plan { IfOk result (λ calls. IsFresh fails.now calls.plan) }
        ensures stop { IfOk result (λ calls. stop_of calls ≡ Unarmed) }
        ensures steps { IfOk result (λ calls. calls.steps ≡ 0) }
        ensures faults { IfOk result (λ calls. calls.faults ≡ 0) }
        ensures own { IfOk result (λ calls. calls.own_faults ≡ 0) }
    {
        Ok(MemCalls {
            plan: Plan::new(alloc, fails)?,
            stop: StopState::Unarmed,
            steps: Tally::new(),
            faults: Tally::new(),
            own_faults: Tally::new(),
        })
    }

    pub(crate) fn stopped(&self) -> bool
        ensures { IsTrue result ↔ IsStopped (stop_of self.now) }
    {
        matches!(self.stop, StopState::Stopped { .. })
    }

    /// Arms a stop, unless there was one.
    pub(crate) fn arm(&mut self, calls: u32, fill: Fill)
        ensures stop { stop_of self.new ≡ armed (stop_of self.old) calls fill }
        ensures plan { self.new.plan ≡ self.old.plan }
        ensures tallies { KeepsTallies self.old self.new }
    {
        match self.stop {
            StopState::Stopped { .. } => {}
            StopState::Unarmed | StopState::Armed { .. } => {
                self.stop = StopState::Armed { calls, fill };
            }
        }
    }

    /// Ends the stop, and says what it left: `Fill::Old` where there was none.
    pub(crate) fn disarm(&mut self) -> Fill
        ensures fill { result ≡ fill_left (stop_of self.old) }
        ensures stop { stop_of self.new ≡ Unarmed }
        ensures plan { self.new.plan ≡ self.old.plan }
        ensures tallies { KeepsTallies self.old self.new }
    {
        let fill = match self.stop {
            StopState::Stopped { fill } => fill,
            StopState::Unarmed | StopState::Armed { .. } => Fill::Old,
        };
        self.stop = StopState::Unarmed;
        fill
    }

    /// One more fault.
    pub(crate) fn fail(&mut self)
        ensures faults { self.new.faults ≡ self.old.faults + 1 }
        ensures own { ¬ IsStopped (stop_of self.old) → self.new.own_faults ≡ self.old.own_faults + 1 }
        ensures brought { IsStopped (stop_of self.old) → self.new.own_faults ≡ self.old.own_faults }
        ensures steps { self.new.steps ≡ self.old.steps }
        ensures stop { stop_of self.new ≡ stop_of self.old }
        ensures plan { self.new.plan ≡ self.old.plan }
    {
        self.faults = self.faults.next();
        if !self.stopped() {
            self.own_faults = self.own_faults.next();
        }
    }

    /// Begins a call that changes no file, and says whether it fails.
    pub(crate) fn begin(&mut self) -> bool
        ensures fails { result ≡ fails_now self.old }
        ensures stopped { IsStopped (stop_of self.old) → IsTrue result }
        ensures cause { HasCause self.old.faults self.new.faults (IsTrue result) }
        ensures own { CountsOwn self.old.own_faults self.new.own_faults (stop_of self.new) (IsTrue result) }
        ensures steps { self.new.steps ≡ self.old.steps }
        ensures stop { stop_of self.new ≡ stop_of self.old }
        ensures plan { self.new.plan ≡ after_call self.old.plan }
    {
        let planned = self.plan.next_fails();
        let fails = planned || self.stopped();
        if fails {
            self.fail();
        }
        fails
    }

    /// Begins a call that changes a file, and says whether it passes.
    pub(crate) fn begin_change(&mut self) -> Passage
        ensures passage { result ≡ passage_of self.old }
        ensures stopped { IsStopped (stop_of self.new) → result ≢ Passage.Passes }
        ensures cause { HasCause self.old.faults self.new.faults (result ≢ Passage.Passes) }
        ensures own { CountsOwn self.old.own_faults self.new.own_faults (stop_of self.new) (result ≢ Passage.Passes) }
        ensures steps { self.new.steps ≡ self.old.steps + 1 }
        ensures stop { stop_of self.new ≡ after_change (stop_of self.old) }
        ensures plan { self.new.plan ≡ after_call self.old.plan }
    {
        self.steps = self.steps.next();
        let planned = self.plan.next_fails();
        let passage = match self.stop {
            StopState::Stopped { .. } => Passage::Fails,
            StopState::Armed { calls: 0, fill } => {
                self.stop = StopState::Stopped { fill };
                Passage::Stops
            }
            StopState::Armed { calls, fill } => {
                self.stop = StopState::Armed {
                    calls: calls - 1,
                    fill,
                };
                unless_planned(planned)
            }
            StopState::Unarmed => unless_planned(planned),
        };
        if passage != Passage::Passes {
            self.fail();
        }
        passage
    }
}

/// A call passes, unless it is to fail by its number.
fn unless_planned(planned: bool) -> Passage
    ensures { result ≡ unless planned }
{
    if planned {
        Passage::Fails
    } else {
        Passage::Passes
    }
}
