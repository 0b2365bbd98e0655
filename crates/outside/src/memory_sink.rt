//! A sink in memory whose calls fail as planned.
ghost use Rattle.std.specs.Prelude.{◌≤◌, length, vec_capacity};

use crate::plan::{Plan, Turn, append_reserved, make_turn};
use crate::{Sink, SinkFailed};
use std::alloc::{AllocError, Global};

/// A sink in memory that keeps what it is given, up to a room that was reserved when it was made.
/// Calls fail or take nothing as was planned then, by their numbers from 0.
#[derive(Debug, Drop)]
pub struct MemorySink {
    bytes: Vec<u8>,
    room: usize,
    per_call: usize,
    idle: Vec<u64>,
    plan: Plan,
    ghost reserved: { room ≤ vec_capacity bytes },
    ghost within: { length bytes.items ≤ room },
    ghost moves: { 1 ≤ per_call },
}

impl MemorySink {
    ghost use Rattle.std.specs.Prelude.{◌≡◌, ◌≤◌, [], IfOk};
    ghost use Rattle.outside.specs.MemorySink.{IsFresh, turn_at, written_to};

    /// A sink with room for so many bytes, which it reserves. A call takes at most `per_call`
    /// bytes, which is at least 1, and fails where they go past the room. The calls numbered in
    /// `failing` fail, and those in `idle` take nothing; a call that is in both fails.
    pub fn new(
        alloc: Global,
        room: u64,
        per_call: u64,
        failing: Vec<u64>,
        idle: Vec<u64>,
    ) -> Result<MemorySink, AllocError>
        requires { 1 ≤ per_call }
        ensures { IfOk result (IsFresh room per_call failing.items idle.items) }
    {
        Ok(MemorySink {
            bytes: Vec::with_capacity(alloc, room as usize)?,
            room: room as usize,
            per_call: per_call as usize,
            idle,
            plan: Plan::new(failing),
        })
    }

    /// The bytes written so far.
    pub fn written(&self) -> &[u8]
        ensures { result.now ≡ written_to self.now }
    {
        self.bytes.as_slice()
    }

    /// What the next call does with a chunk of so many bytes.
    fn next_turn(&self, len: usize) -> Turn
        ensures { result ≡ turn_at self.now len }
    {
        let fails = self.plan.fails_next();
        let idles = self.idle.contains(&self.plan.calls);
        make_turn(
            fails,
            idles,
            len.min(self.per_call),
            self.room - self.bytes.len(),
        )
    }
}

impl Sink for MemorySink {
    ghost use Rattle.std.specs.Prelude.{◌≡◌, ◌<◌, ◌≤◌, None, Some, [], IfOk, OnErr, length, take};
    ghost use Rattle.outside.specs.Cause.{Rose};
    ghost use Rattle.outside.specs.Written.{Appends};
    ghost use Rattle.outside.specs.MemorySink.{Answers, faults_of, turn_at, written_to};

    ghost written = { λ sink. Some (written_to sink) };

    ghost chunks = { λ _. None };

    ghost faults = { faults_of };

    ghost bounded = { λ sink. sink.plan.bounded };

    fn write(&mut self, bytes: &[u8]) -> Result<usize, SinkFailed>
        ensures within { IfOk result (λ n. n ≤ length bytes.now) }
        ensures appends { IfOk result (λ n.
            Appends (Some (written_to self.old)) (Some (written_to self.new)) (take n bytes.now)) }
        ensures nothing { OnErr result
            (Appends (Some (written_to self.old)) (Some (written_to self.new)) []) }
        ensures failed { OnErr result (Rose (faults_of self.old) (faults_of self.new)) }
        ensures idle { result ≡ Ok 0 → 0 < length bytes.now →
            Rose (faults_of self.old) (faults_of self.new) }
        ensures quiet { IfOk result (λ n. 0 < n → faults_of self.new ≡ faults_of self.old) }
        ensures never_falls { faults_of self.old ≤ faults_of self.new }

        // The call does what was planned, and counts.
        ensures planned { Answers (turn_at self.old (length bytes.now)) self.old self.new result }
    {
        let turn = self.next_turn(bytes.len());
        self.plan.count(turn.is_fault());
        match turn {
            Turn::Fails => Err(SinkFailed),
            Turn::Idles => Ok(0),
            Turn::Takes(n) => {
                append_reserved(&mut self.bytes, &bytes[..n]);
                Ok(n)
            }
        }
    }
}
