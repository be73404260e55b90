//! A source and a sink over memory, for tests: each call returns or takes at most a few bytes, and one call fails. Tests show that
//! a call keeps to this number of bytes, and that the right call fails; the rest is proved.

ghost use Rattle.std.specs.Prelude.{◌≡◌, ◌<◌, ◌≤◌, length, true, false, [], IfOk};

use pe_text::{Failed, Sink, Source};
use std::alloc::{AllocError, Global};

/// Which call of a device fails.
#[derive(Clone, Copy)]
struct Schedule {
    /// The calls so far.
    calls: u64,
    /// The call that fails, counted from 0.
    failing: Option<u64>,
}

impl Schedule {
    fn new(failing: Option<u64>) -> Self
        ensures calls { result.calls ≡ 0 }
        ensures failing { result.failing ≡ failing }
    {
        Schedule { calls: 0, failing }
    }

    /// Counts one more call, and returns whether it is the one that fails.
    fn next_fails(&mut self) -> bool {
        let call = self.calls;
        self.calls = call.saturating_add(1);
        self.failing == Some(call)
    }
}

/// A source that returns the bytes of a slice in steps.
#[derive(Drop)]
pub struct StepReader<'a> {
    bytes: &'a [u8],
    given: usize,
    step: usize,
    schedule: Schedule,
    ended: bool,
    failures: u64,
    ghost moves: { 0 < step },
    ghost within: { given ≤ length bytes.now },
    ghost ends_with_its_bytes: { ended ≡ true → given ≡ length bytes.now },
}

impl<'a> StepReader<'a> {
    ghost use Rattle.pe_vectors.specs.Devices.{bytes_of, given_by, has_ended, failed_reads, step_of_reads, next_read, failing_read};

    /// A source that returns at most `step` of these bytes per call. The call with the number `failing`, counted from 0, fails and
    /// returns none.
    pub fn new(bytes: &'a [u8], step: usize, failing: Option<u64>) -> Self
        requires { 0 < step }
        ensures bytes { bytes_of result ≡ bytes.entry.now }
        ensures given { given_by result ≡ [] }
        ensures ended { has_ended result ≡ false }
        ensures failures { failed_reads result ≡ 0 }
        ensures step { step_of_reads result ≡ step }
        ensures first { next_read result ≡ 0 }
        ensures failing { failing_read result ≡ failing }
    {
        StepReader {
            bytes,
            given: 0,
            step,
            schedule: Schedule::new(failing),
            ended: false,
            failures: 0,
        }
    }
}

impl<'a> Source for StepReader<'a> {
    ghost use Rattle.pe_vectors.specs.Devices.{given_by, has_ended, failed_reads};

    ghost given = { λ reader. given_by reader };

    ghost ended = { λ reader. has_ended reader };

    ghost failures = { λ reader. failed_reads reader };

    fn read(&mut self, buffer: &mut [u8]) -> Result<usize, Failed> {
        if self.schedule.next_fails() {
            self.failures += 1;
            return Err(Failed);
        }
        let left = self.bytes.len() - self.given;
        let count = buffer.len().min(self.step).min(left);
        let piece = &self.bytes[self.given..self.given + count];
        buffer[..count].copy_from_slice(piece);
        self.given += count;
        self.ended = self.ended || (count == 0 && !buffer.is_empty());
        Ok(count)
    }

    fn failures(&self) -> u64 {
        self.failures
    }
}

/// A sink that takes bytes in steps and keeps them.
#[derive(Drop)]
pub struct StepWriter {
    taken: Vec<u8>,
    step: usize,
    schedule: Schedule,
    failures: u64,
}

impl StepWriter {
    ghost use Rattle.pe_vectors.specs.Devices.{taken_by, room_of, failed_writes, step_of_writes, next_write, failing_write};

    /// A sink that takes at most `step` bytes per call, and `room` in all, which is allocated here; later nothing is. The call with
    /// the number `failing`, counted from 0, fails and takes none.
    pub fn new(
        alloc: Global,
        room: usize,
        step: usize,
        failing: Option<u64>,
    ) -> Result<Self, AllocError>
        ensures taken { IfOk result (λ writer. taken_by writer ≡ []) }
        ensures room { IfOk result (λ writer. room_of writer ≡ room) }
        ensures failures { IfOk result (λ writer. failed_writes writer ≡ 0) }
        ensures step { IfOk result (λ writer. step_of_writes writer ≡ step) }
        ensures first { IfOk result (λ writer. next_write writer ≡ 0) }
        ensures failing { IfOk result (λ writer. failing_write writer ≡ failing) }
    {
        Ok(StepWriter {
            taken: Vec::with_capacity(alloc, room)?,
            step,
            schedule: Schedule::new(failing),
            failures: 0,
        })
    }

    /// The bytes that it has taken so far.
    pub fn taken(&self) -> &[u8]
        ensures { result.now ≡ taken_by self.now }
    {
        &self.taken
    }
}

impl Sink for StepWriter {
    ghost use Rattle.pe_vectors.specs.Devices.{taken_by, failed_writes};

    ghost taken = { λ writer. taken_by writer };

    ghost failures = { λ writer. failed_writes writer };

    fn write(&mut self, piece: &[u8]) -> Result<usize, Failed> {
        let room = self.taken.capacity() - self.taken.len();
        let count = piece.len().min(self.step).min(room);
        if self.schedule.next_fails() || (count == 0 && !piece.is_empty()) {
            self.failures += 1;
            return Err(Failed);
        }
        if self.taken.extend_from_slice(&piece[..count]).is_err() {
            unreachable!("there is room");
        }
        Ok(count)
    }

    fn failures(&self) -> u64 {
        self.failures
    }
}
