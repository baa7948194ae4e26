// SPDX-License-Identifier: Apache-2.0 OR BSD-3-Clause
//! Runs: a list of calls to a serial port as one call, with a record of each.
ghost use Rattle.std.specs.Prelude.{◌≡◌, ◌≤◌, ◌+◌, IfOk, OnErr};
ghost use Rattle.superio_core.specs.Serial.{Coherent};
ghost use Rattle.vm_superio.specs.Links.Writer.{serial_links};
ghost use Rattle.vm_superio.specs.Serial.Run.{act_of, acknowledged_in, answers_in_records};
ghost use Rattle.vm_superio.specs.Serial.Run.Steps.{IsCallStep, IsRun, by_steps};
ghost use Rattle.vm_superio.specs.Serial.Run.Segments.{SegmentsAre};
ghost use Rattle.vm_superio.specs.Serial.Run.HistoryTheorem.{HistoryTheorem};

use crate::Trigger;
use crate::serial::{Error, Refused, Serial, SerialEvents};
use std::alloc::{AllocError, Global};
use std::collections::VecDeque;
use std::io::Write;
use std::mem;
pub use superio_core::serial::{Asked, Sent};

/// A call to a serial port, with the objects of a restore.
#[derive(Clone, Debug, Drop, Eq, PartialEq)]
pub enum Call<T, EV, W> {
    /// `read` at this offset.
    Read(u8),
    /// `write` at this offset, of this value.
    Write(u8, u8),
    /// `enqueue_raw_bytes` of these bytes.
    Enqueue(Vec<u8>),
    /// `character_timeout`.
    CharacterTimeout,
    /// Recreates the port from its own state, with this trigger, events object and writer.
    Restore(T, EV, W),
}

/// A call without its objects.
#[derive(Clone, Debug, Drop, Eq, PartialEq)]
pub enum Act {
    /// `read` at this offset.
    Read(u8),
    /// `write` at this offset, of this value.
    Write(u8, u8),
    /// `enqueue_raw_bytes` of these bytes.
    Enqueue(Vec<u8>),
    /// `character_timeout`.
    CharacterTimeout,
    /// A restore of the port.
    Restore,
}

/// What a call returned. Match on it: an `io::Error` cannot be compared.
#[derive(Drop)]
pub enum Reply<T: Trigger, EV: SerialEvents, W: Write> {
    /// The byte that was read.
    Byte(u8),
    /// What `write` returned.
    Wrote(Result<(), Error<T::E>>),
    /// What `enqueue_raw_bytes` returned.
    Enqueued(Result<usize, Error<T::E>>),
    /// What `character_timeout` returned.
    TimedOut(Result<(), Error<T::E>>),
    /// The restore succeeded. This is the old port, with its own objects.
    Restored(Serial<T, EV, W>),
    /// The restore failed, and the port stayed. This says why, and has the objects of the restore.
    NotRestored(Refused<T, EV, W>),
}

/// The record of a call.
#[derive(Drop)]
pub struct Done<T: Trigger, EV: SerialEvents, W: Write> {
    /// The call.
    pub act: Act,
    /// The trigger's answers to the port's own calls; `Nothing` for a restore.
    pub asked: Asked,
    /// The outcome of the byte that it sent.
    pub sent: Sent,
    /// What it returned.
    pub reply: Reply<T, EV, W>,
}

/// Makes the calls in order, and returns a record of each.
///
/// Nothing stops a run early: a refusal of the trigger, a failure of the writer or a refused restore is recorded with
/// its call, and the run goes on. A restore makes a port from the port's state and other objects, and replaces the old
/// port with it. If it is refused, the old port stays.
///
/// From a coherent start the records are a trace: the start, the earlier calls and the trigger's answers determine each
/// byte read. They also determine the final state and, given the outcome of the byte that a call sent, every other
/// response. Two things are left open: what a restore responds, and which error the writer had. Which objects get the
/// calls after a restore depends on whether it succeeded, and so on memory too.
///
/// # Errors
///
/// Returns `AllocError` if memory for all records is refused. No call is made then, and the calls are dropped.
pub fn run<T: Trigger + Drop, EV: SerialEvents + Drop, W: Write + Drop>(
    alloc: Global,
    serial: &mut Serial<T, EV, W>,
    calls: Vec<Call<T, EV, W>>,
) -> Result<Vec<Done<T, EV, W>>, AllocError>
    ensures run { IfOk result (λ done.
        IsRun (serial_links T.link EV.link W.contents) serial.old calls.items done.items serial.new) }
    ensures segments { IfOk result (λ done.
        SegmentsAre (serial_links T.link EV.link W.contents) (by_steps serial.old.state)
        serial.old calls.items done.items serial.new) }
    ensures history { IfOk result (λ done. Coherent serial.old.state →
        HistoryTheorem (serial_links T.link EV.link W.contents) serial.old calls.items done.items serial.new) }
    // Two for what was not pending at first, and one for each condition that a read acknowledges.
    ensures bound { IfOk result (λ done. answers_in_records done.items ≤ 2 + acknowledged_in calls.items) }
    ensures refused { OnErr result (serial.new ≡ serial.old) }
{
    let mut done = Vec::with_capacity(alloc, calls.len())?;
    let mut calls = VecDeque::from_vec(calls);
    while let Some(call) = calls.pop_front() {
        done.push_reserved(serial.make(alloc, call));
    }
    Ok(done)
}

impl<T: Trigger, EV: SerialEvents, W: Write> Serial<T, EV, W> {
    /// Makes one call.
    fn make(&mut self, alloc: Global, call: Call<T, EV, W>) -> Done<T, EV, W>
        ensures act { result.act ≡ act_of call }
        ensures made { IsCallStep (serial_links T.link EV.link W.contents) call result.asked result.sent result.reply
            self.old self.new }
    {
        match call {
            Call::Read(offset) => {
                let byte = self.read(offset);
                record(
                    Act::Read(offset),
                    Asked::Nothing,
                    Sent::Nothing,
                    Reply::Byte(byte),
                )
            }
            Call::Write(offset, value) => {
                let made = self.write_for_run(offset, value);
                record(
                    Act::Write(offset, value),
                    made.asked,
                    made.sent,
                    Reply::Wrote(made.reply),
                )
            }
            Call::Enqueue(bytes) => {
                let made = self.enqueue_for_run(&bytes);
                record(
                    Act::Enqueue(bytes),
                    made.asked,
                    made.sent,
                    Reply::Enqueued(made.reply),
                )
            }
            Call::CharacterTimeout => {
                let made = self.timeout_for_run();
                record(
                    Act::CharacterTimeout,
                    made.asked,
                    made.sent,
                    Reply::TimedOut(made.reply),
                )
            }
            Call::Restore(trigger, events, out) => {
                let reply = self.restore(alloc, trigger, events, out);
                record(Act::Restore, Asked::Nothing, Sent::Nothing, reply)
            }
        }
    }

    /// Recreates the port from its own state, with these objects.
    fn restore(&mut self, alloc: Global, trigger: T, events: EV, out: W) -> Reply<T, EV, W>
        ensures { IsCallStep (serial_links T.link EV.link W.contents) (Call.Restore trigger events out)
            Asked.Nothing Sent.Nothing result self.old self.new }
    {
        let Ok(state) = self.state(alloc) else {
            return Reply::NotRestored(Refused {
                error: Error::Memory,
                trigger,
                events,
                out,
            });
        };
        match Self::from_state(alloc, &state, trigger, events, out) {
            Ok(port) => Reply::Restored(mem::replace(self, port)),
            Err(refused) => Reply::NotRestored(refused),
        }
    }
}

/// The record of a call.
fn record<T: Trigger, EV: SerialEvents, W: Write>(
    act: Act,
    asked: Asked,
    sent: Sent,
    reply: Reply<T, EV, W>,
) -> Done<T, EV, W>
    ensures act { result.act ≡ act }
    ensures asked { result.asked ≡ asked }
    ensures sent { result.sent ≡ sent }
    ensures reply { result.reply ≡ reply }
{
    Done {
        act,
        asked,
        sent,
        reply,
    }
}
