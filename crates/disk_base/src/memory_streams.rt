//! A source and a sink in memory, whose calls fail by their numbers.
ghost use Rattle.std.specs.Prelude.{◌≡◌, ◌<◌, ◌≤◌, ℕ, List, [], Option, Some, IfOk, IsTrue, length};
ghost use Rattle.disk_base.specs.Source.{Reads};
ghost use Rattle.disk_base.specs.Sink.{Appends, IsWhole};
ghost use Rattle.disk_base.specs.Count.{HasCause};

use crate::plans::Plan;
use crate::{Got, Sink, Source, Wrote};
use ghost_values::Tally;
use std::alloc::Global;
use ubik_types::NoMemory;

/// A source of bytes that lie in memory. A read moves as many of them as the buffer has room for.
#[derive(Drop)]
pub struct MemSource {
    bytes: Vec<u8>,
    at: usize,
    plan: Plan,
    faults: Tally,
    ghost within: { at ≤ length bytes.items },
}

impl MemSource {
    ghost use Rattle.disk_base.specs.MemSource.{left_of, plan_of, faults_of};
    ghost use Rattle.disk_base.specs.Plan.{IsFresh};

    /// A source with these bytes left to read. Its read number k, counted from 1, fails where k is in `fails`.
    pub fn new(alloc: Global, bytes: &[u8], fails: &[u64]) -> Result<MemSource, NoMemory>
        ensures left { IfOk result (λ source. left_of source ≡ bytes.now) }
        ensures fails { IfOk result (λ source. IsFresh fails.now (plan_of source)) }
        ensures faults { IfOk result (λ source. faults_of source ≡ 0) }
    {
        Ok(MemSource {
            bytes: bytes.to_vec(alloc)?,
            at: 0,
            plan: Plan::new(alloc, fails)?,
            faults: Tally::new(),
        })
    }
}

impl Source for MemSource {
    ghost use Rattle.disk_base.specs.MemSource.{left_of, plan_of, faults_of, read_end};
    ghost use Rattle.disk_base.specs.Plan.{after_call};

    ghost left = { λ source. Some (left_of source) };

    ghost faults = { λ source. faults_of source };

    fn read(&mut self, buf: &mut [u8]) -> Got
        requires { 0 < length buf.old }
        ensures moved { Reads result (Some (left_of self.old)) (Some (left_of self.new)) buf.new }
        ensures cause { HasCause (faults_of self.old) (faults_of self.new) (result ≡ Got.Failed) }
        ensures exact { result ≡ read_end self.old (length buf.old) }
        ensures counted { plan_of self.new ≡ after_call (plan_of self.old) }
    {
        if self.plan.next_fails() {
            self.faults = self.faults.next();
            return Got::Failed;
        }
        let left = &self.bytes[self.at..];
        let count = left.len().min(buf.len());
        if count == 0 {
            return Got::End;
        }
        buf[..count].copy_from_slice(&left[..count]);
        self.at += count;
        Got::Bytes(count)
    }
}

/// A sink that keeps in memory what is written. A write appends all of its bytes, or none.
#[derive(Drop)]
pub struct MemSink {
    bytes: Vec<u8>,
    plan: Plan,
    faults: Tally,
}

impl MemSink {
    ghost use Rattle.disk_base.specs.MemSink.{written_of, plan_of, faults_of};
    ghost use Rattle.disk_base.specs.Plan.{IsFresh};

    /// A sink to which nothing was written. Its write number k, counted from 1, fails where k is in `fails`. One
    /// that finds no memory fails too, and appends nothing.
    pub fn new(alloc: Global, fails: &[u64]) -> Result<MemSink, NoMemory>
        ensures written { IfOk result (λ sink. written_of sink ≡ []) }
        ensures fails { IfOk result (λ sink. IsFresh fails.now (plan_of sink)) }
        ensures faults { IfOk result (λ sink. faults_of sink ≡ 0) }
    {
        Ok(MemSink {
            bytes: Vec::new(alloc),
            plan: Plan::new(alloc, fails)?,
            faults: Tally::new(),
        })
    }

    /// What was written.
    pub fn written(&self) -> &[u8]
        ensures { result.now ≡ written_of self.now }
    {
        self.bytes.as_slice()
    }
}

impl Sink for MemSink {
    ghost use Rattle.disk_base.specs.MemSink.{written_of, plan_of, faults_of};
    ghost use Rattle.disk_base.specs.Plan.{fails_next, after_call};

    ghost written = { λ sink. Some (written_of sink) };

    ghost faults = { λ sink. faults_of sink };

    fn write(&mut self, bytes: &[u8]) -> Wrote
        requires { 0 < length bytes.now }
        ensures appended { Appends result (Some (written_of self.old)) (Some (written_of self.new)) bytes.now }
        ensures cause { HasCause (faults_of self.old) (faults_of self.new) (result ≡ Wrote.Failed) }
        ensures fails { IsTrue (fails_next (plan_of self.old)) → result ≡ Wrote.Failed }
        ensures whole { IsWhole (length bytes.now) result }
        ensures counted { plan_of self.new ≡ after_call (plan_of self.old) }
    {
        if self.plan.next_fails() || self.bytes.extend_from_slice(bytes).is_err() {
            self.faults = self.faults.next();
            return Wrote::Failed;
        }
        Wrote::Bytes(bytes.len())
    }
}
