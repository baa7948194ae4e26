// SPDX-License-Identifier: Apache-2.0 OR BSD-3-Clause
//! What a serial port's calls do to its objects: each carries out the effects of a step.
ghost use Rattle.std.specs.Prelude.{◌≡◌, ◌≤◌, ◌&&◌, ℕ, List, Result, [], ◌∷◌, length, if◌then◌else◌, is_err, is_some, not, true, IsTrue, IfOk, IfErr, OnOk};
ghost use Rattle.vm_superio.specs.Links.{answers_of, all_ok, StopsAtRefusal};
ghost use Rattle.vm_superio.specs.Links.Writer.{serial_links, WriterLink};
ghost use Rattle.vm_superio.specs.Serial.{
  outcome_of,
  bytes_sent,
  state_with,
  conditions_due,
  answers_all,
  events_of_read,
  sent_events,
  Write,
  Enqueue,
  CharacterTimeout,
  WriteOk,
  TriggerRefused,
  WriterFailed,
  FifoFull,
  EnqueueOk,
  is_sent,
  is_lost,
  ends_in_refusal,
  write_response,
  enqueue_response,
  timeout_response,
  refusal_in_result,
};
ghost use Rattle.vm_superio.specs.Saved.{state_of};
ghost use Rattle.vm_superio.specs.Serial.Step.{RefusesRestore};

use super::bounded::BoundedWriter;
use super::encoding::SerialState;
use super::errors::Error;
use super::events::SerialEvents;
use crate::Trigger;
use crate::fifo::Fifo;
use std::alloc::Global;
use std::fmt::Debug;
use std::io;
use std::io::Write;
use superio_core::fifo::{FIFO_SIZE, RxFifo};
use superio_core::serial::registers::Registers;
use superio_core::serial::{Asked, ReadEffects, Sent};

/// What a call returns, with what a run records of it: the trigger's answers and the outcome of the byte.
#[derive(Drop)]
pub(crate) struct Recorded<R> {
    pub(crate) reply: R,
    pub(crate) asked: Asked,
    pub(crate) sent: Sent,
}

/// The registers and bytes of a saved state, after calling the trigger for it.
pub(super) fn restored<T: Trigger>(
    alloc: Global,
    state: &SerialState,
    trigger: &mut T,
) -> Result<(Registers, Fifo), Error<T::E>>
    ensures state { IfOk result (λ parts. state_with parts.0 parts.1 ≡ state_of state.now) }
    ensures called { OnOk result (T.link trigger.old (all_ok (conditions_due (state_of state.now))) trigger.new) }
    ensures refused { IfErr result (λ error. RefusesRestore T.link (state_of state.now) error trigger.old trigger.new) }
{
    if state.in_buffer.len() > FIFO_SIZE {
        return Err(Error::FullFifo);
    }
    let in_buffer = Fifo::from_slice(alloc, &state.in_buffer)?;
    let registers = state.registers();
    match call_again(&registers, trigger) {
        Ok(()) => Ok((registers, in_buffer)),
        Err(refusal) => Err(Error::Trigger(refusal)),
    }
}

/// Calls the trigger once for each condition that is pending and enabled, up to the first refusal.
pub(super) fn call_again<T: Trigger>(registers: &Registers, trigger: &mut T) -> Result<(), T::E>
    ensures accepted { OnOk result
        (T.link trigger.old (all_ok (conditions_due (state_with registers.now []))) trigger.new) }
    ensures refused { IfErr result (λ refusal. (answers : List (Result (Unit {0}) T.E))
        × StopsAtRefusal (conditions_due (state_with registers.now [])) refusal answers
        × T.link trigger.old answers trigger.new) }
{
    match call_trigger(trigger, registers.interrupts_due()).1 {
        None => Ok(()),
        Some(refusal) => Err(refusal),
    }
}

/// Calls the trigger `due` times, up to the first refusal. Returns its answers and the refusal.
pub(super) fn call_trigger<T: Trigger>(trigger: &mut T, due: u8) -> (Asked, Option<T::E>)
    requires { due ≤ 2 }
    ensures asked { IsTrue (answers_all due result.0) }
    ensures refused { is_some result.1 ≡ ends_in_refusal result.0 }
    ensures calls { T.link trigger.old (answers_of result.0 result.1) trigger.new }
{
    if due == 0 {
        return (Asked::Nothing, None);
    }
    match trigger.trigger() {
        Err(refusal) => (Asked::Refused, Some(refusal)),
        Ok(()) if due == 1 => (Asked::Took, None),
        Ok(()) => match trigger.trigger() {
            Err(refusal) => (Asked::TookRefused, Some(refusal)),
            Ok(()) => (Asked::TookTook, None),
        },
    }
}

/// Reports the events of a read.
pub(super) fn report_read<EV: SerialEvents>(events: &mut EV, effects: ReadEffects)
    ensures { EV.link events.old (events_of_read effects) events.new }
{
    match (effects.in_buffer_empty, effects.buffer_read) {
        (true, true) => {
            events.in_buffer_empty();
            events.buffer_read();
        }
        (true, false) => events.in_buffer_empty(),
        (false, true) => events.buffer_read(),
        (false, false) => {}
    }
}

/// Sends the byte if one is due, and reports its outcome. Returns the outcome and the writer's fault.
pub(super) fn send_where_due<EV: SerialEvents, W: Write>(
    events: &mut EV,
    out: &mut W,
    sends: bool,
    byte: u8,
) -> (Sent, Option<io::Error>)
    ensures sent { is_sent result.0 ≡ sends }
    ensures lost { is_some result.1 ≡ is_lost result.0 }
    ensures events { EV.link events.old (sent_events result.0) events.new }
    ensures out { (offset : ℕ) →
        WriterLink W.contents (outcome_of result.0) (bytes_sent (Write offset byte) result.0) out.old out.new }
{
    if !sends {
        return (Sent::Nothing, None);
    }
    let written = match out.write_all(&[byte]) {
        Ok(()) => out.flush(),
        Err(fault) => Err(fault),
    };
    report_sent(events, written)
}

/// Sends the byte, if one is due, to a writer that says when it takes one, and reports its outcome.
pub(super) fn offer_where_due<EV: SerialEvents, W: BoundedWriter>(
    events: &mut EV,
    out: &mut W,
    sends: bool,
    byte: u8,
) -> (Sent, Option<io::Error>)
    ensures sent { is_sent result.0 ≡ sends }
    ensures lost { is_some result.1 ≡ is_lost result.0 }
    ensures events { EV.link events.old (sent_events result.0) events.new }
    ensures out { (offset : ℕ) →
        WriterLink W.contents (outcome_of result.0) (bytes_sent (Write offset byte) result.0) out.old out.new }
    ensures room { is_lost result.0 ≡ (sends && not (W.takes out.old)) }
    ensures offered { IsTrue sends → W.offered byte out.old out.new }
{
    if !sends {
        return (Sent::Nothing, None);
    }
    let written = out.write_byte(byte);
    report_sent(events, written)
}

/// Reports what became of a byte that was sent. Returns its outcome and the writer's fault.
fn report_sent<EV: SerialEvents>(
    events: &mut EV,
    written: io::Result<()>,
) -> (Sent, Option<io::Error>)
    ensures sent { is_sent result.0 ≡ true }
    ensures lost { is_lost result.0 ≡ is_err written }
    ensures fault { is_some result.1 ≡ is_err written }
    ensures events { EV.link events.old (sent_events result.0) events.new }
{
    match written {
        Ok(()) => {
            events.out_byte();
            (Sent::Out, None)
        }
        Err(fault) => {
            events.tx_lost_byte();
            (Sent::Lost, Some(fault))
        }
    }
}

/// What a write returns: the trigger's refusal rather than the writer's fault.
pub(super) fn write_reply<E: Debug + Drop>(
    refusal: Option<E>,
    fault: Option<io::Error>,
) -> Result<(), Error<E>>
    ensures refusal { refusal_in_result result ≡ refusal }
    ensures response { write_response result
        ≡ (if is_some refusal then TriggerRefused else (if is_some fault then WriterFailed else WriteOk)) }
{
    match (refusal, fault) {
        (Some(refusal), _) => Err(Error::Trigger(refusal)),
        (None, Some(fault)) => Err(Error::IOError(fault)),
        (None, None) => Ok(()),
    }
}
