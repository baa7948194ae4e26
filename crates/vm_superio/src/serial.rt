// SPDX-License-Identifier: Apache-2.0 OR BSD-3-Clause
//! A serial port with the registers of a 16550.
ghost use Rattle.vm_superio.specs.Links.{all_ok, RefusesOwnState};
ghost use Rattle.std.specs.Prelude.{◌≡◌, ◌<◌, ◌≤◌, ◌+◌, ◌-◌, ◌==◌, not, ℕ, [], ◌∷◌, ◌++◌, if◌then◌else◌, false, length, vec_len, IsErr, IfOk, OnOk, OnErr, IfErr};
ghost use Rattle.vm_superio.specs.Saved.{state_of};
ghost use Rattle.vm_superio.specs.Serial.{Coherent, fifo_size, fresh_state, irq_level, conditions_due};
ghost use Rattle.vm_superio.specs.Serial.Step.{RefusesRestore};

mod bounded;
mod effects;
pub mod encoding;
mod errors;
mod events;

use crate::Trigger;
use crate::fifo::Fifo;
pub use bounded::BoundedWriter;
use effects::{
    Recorded, call_again, call_trigger, report_read, restored, send_where_due, write_reply,
};
pub use encoding::SerialState;
pub use errors::{Error, Refused};
pub use events::{NoEvents, SerialEvents};
use std::alloc::{AllocError, Global};
use std::io::Write;
use std::marker::Model;
use superio_core::fifo::{FIFO_SIZE, RxFifo};
use superio_core::serial::Sent;
use superio_core::serial::registers::Registers;
pub use superio_core::serial::registers::{Condition, Register};
pub use superio_core::serial::{ArrayFifo, EnqueueEffects, ReadEffects, Uart, WriteEffects};

/// A 16550 serial port, reduced to what a guest's driver uses: its registers, a receive FIFO of 64 bytes that is always
/// on, and two interrupt conditions.
///
/// Contracts see the port as its state and the three objects that it owns.
#[derive(Drop)]
pub struct Serial<T: Trigger, EV: SerialEvents, W: Write> {
    registers: Registers,
    in_buffer: Fifo,
    interrupt_evt: T,
    events: EV,
    out: W,
}

impl<T: Trigger, EV: SerialEvents, W: Write> Model for Serial<T, EV, W> {
    ghost use Rattle.vm_superio.specs.Serial.{SerialView, state_with};

    ghost Value = { SerialView T EV W };

    ghost view = { λ serial. record {
      state = state_with serial.registers serial.in_buffer;
      trigger = serial.interrupt_evt;
      events = serial.events;
      out = serial.out;
    } };
}

impl<T: Trigger, W: Write> Serial<T, NoEvents, W> {
    /// Makes a fresh serial port that owns the trigger and the writer and reports no events: divisor 12, 8 bits per
    /// character, OUT2 set, and nothing enabled, pending or held. Does not call the trigger.
    ///
    /// Allocates the receive FIFO, 64 bytes, from `alloc`. Receiving bytes later allocates no memory.
    ///
    /// # Errors
    ///
    /// Returns [`Error::Memory`] if that allocation fails, and the objects as they were passed.
    pub fn new(
        alloc: Global,
        trigger: T,
        out: W,
    ) -> Result<Serial<T, NoEvents, W>, Refused<T, NoEvents, W>>
        ensures state { IfOk result (λ serial. serial.state ≡ fresh_state) }
        ensures trigger { IfOk result (λ serial. serial.trigger ≡ trigger) }
        ensures out { IfOk result (λ serial. serial.out ≡ out) }
        ensures coherent { IfOk result (λ serial. Coherent serial.state) }

        // The objects, if memory was refused.
        ensures only_memory { IfErr result (λ refused. refused.error ≡ Error.Memory) }
        ensures trigger_back { IfErr result (λ refused. refused.trigger ≡ trigger) }
        ensures out_back { IfErr result (λ refused. refused.out ≡ out) }
    {
        Self::with_events(alloc, trigger, NoEvents, out)
    }
}

impl<T: Trigger, EV: SerialEvents, W: Write> Serial<T, EV, W> {
    ghost use Rattle.std.specs.Borrow.{Lends, sem};
    ghost use Rattle.vm_superio.specs.contracts.serial.Serial.{the_row};
    ghost use Rattle.std.specs.Io.KnownBytes.{Appends};
    ghost use Rattle.vm_superio.specs.Serial.{CharacterTimeout, Enqueue, Other, RdaCoversHeldBytes, Read, SameSettings, Write, acknowledged_at, decode_in, enqueue_response, enqueued_bytes, is_dlab, refusal_in_result, sends_byte, sent_by, timeout_response, turned_on_count, write_response};
    ghost use Rattle.vm_superio.specs.Links.Writer.{serial_links};
    ghost use Rattle.vm_superio.specs.Serial.Step.{EnqueueFate, IsSerialEnqueue, IsSerialRead, IsSerialRetry, IsSerialStep, IsSerialTimeout, IsSerialWrite, SameElsewhere, TimeoutFate, WriteFate, pending_count, transmitter, with_events, with_trigger, with_writer};

    /// Makes a serial port from a saved state, taken unchanged, and new objects. Calls the trigger once for each
    /// condition that is both pending and enabled, so that the interrupts that the guest has not taken reach the new
    /// trigger. It does not call the events object or use the writer. Allocates as `new` does.
    ///
    /// # Errors
    ///
    /// Each error returns the objects. Returns [`Error::FullFifo`] if the state holds more than 64 bytes, and otherwise
    /// [`Error::Memory`] if allocating the FIFO fails. Neither calls the trigger. Returns [`Error::Trigger`] at the
    /// first call that the trigger refuses.
    pub fn from_state(
        alloc: Global,
        state: &SerialState,
        mut trigger: T,
        serial_evts: EV,
        out: W,
    ) -> Result<Self, Refused<T, EV, W>>
        ensures state { IfOk result (λ serial. serial.state ≡ state_of state.now) }
        ensures called { IfOk result (λ serial.
            T.link trigger (all_ok (conditions_due (state_of state.now))) serial.trigger) }
        ensures events { IfOk result (λ serial. serial.events ≡ serial_evts) }
        ensures out { IfOk result (λ serial. serial.out ≡ out) }
        ensures coherent { IfOk result (λ serial. Coherent (state_of state.now) → Coherent serial.state) }

        // Why it is refused, and the objects then.
        ensures too_many { fifo_size < vec_len state.now.in_buffer → IsErr result }
        ensures refused { IfErr result (λ refused.
            RefusesRestore T.link (state_of state.now) refused.error trigger refused.trigger) }
        ensures events_back { IfErr result (λ refused. refused.events ≡ serial_evts) }
        ensures out_back { IfErr result (λ refused. refused.out ≡ out) }
    {
        match restored(alloc, state, &mut trigger) {
            Ok((registers, in_buffer)) => Ok(Serial {
                registers,
                in_buffer,
                interrupt_evt: trigger,
                events: serial_evts,
                out,
            }),
            Err(error) => Err(Refused {
                error,
                trigger,
                events: serial_evts,
                out,
            }),
        }
    }

    /// Makes a serial port as `new` does, but reports events to `serial_evts`. Calls neither the trigger nor the events
    /// object.
    ///
    /// # Errors
    ///
    /// Returns [`Error::Memory`] if allocating the FIFO fails, and the objects as they were passed.
    #[tactic(auto, using(superio_core::proofs::Lemmas::Serial::fresh_coherent))]
    pub fn with_events(
        alloc: Global,
        trigger: T,
        serial_evts: EV,
        out: W,
    ) -> Result<Self, Refused<T, EV, W>>
        ensures state { IfOk result (λ serial. serial.state ≡ fresh_state) }
        ensures trigger { IfOk result (λ serial. serial.trigger ≡ trigger) }
        ensures events { IfOk result (λ serial. serial.events ≡ serial_evts) }
        ensures out { IfOk result (λ serial. serial.out ≡ out) }
        ensures coherent { IfOk result (λ serial. Coherent serial.state) }

        // The objects, if memory was refused.
        ensures only_memory { IfErr result (λ refused. refused.error ≡ Error.Memory) }
        ensures trigger_back { IfErr result (λ refused. refused.trigger ≡ trigger) }
        ensures events_back { IfErr result (λ refused. refused.events ≡ serial_evts) }
        ensures out_back { IfErr result (λ refused. refused.out ≡ out) }
    {
        let Ok(in_buffer) = Fifo::new(alloc) else {
            return Err(Refused {
                error: Error::Memory,
                trigger,
                events: serial_evts,
                out,
            });
        };
        Ok(Serial {
            registers: Registers::new(),
            in_buffer,
            interrupt_evt: trigger,
            events: serial_evts,
            out,
        })
    }

    /// Returns a snapshot, from which `from_state` recreates the port.
    ///
    /// # Errors
    ///
    /// Returns `AllocError` if allocating the received bytes fails.
    pub fn state(&self, alloc: Global) -> Result<SerialState, AllocError>
        ensures saved { IfOk result (λ saved. state_of saved ≡ self.now.state) }
        ensures at_most_64 { length self.now.state.in_buffer ≤ fifo_size }
        ensures coherent { IfOk result (λ saved. Coherent self.now.state → Coherent (state_of saved)) }
    {
        let in_buffer = self.in_buffer.to_vec(alloc)?;
        Ok(SerialState::of(&self.registers, in_buffer))
    }

    /// The writer.
    pub fn writer(&self) -> &W
        ensures { result.now ≡ self.now.out }
    {
        &self.out
    }

    /// The writer, mutably. Nothing else in the port changes.
    pub fn writer_mut(&mut self) -> &mut W
        ensures* lends { sem 𝓛 (Lends
            (the_row T.row EV.row W.row T.E.row T.Trigger T.E.Debug EV.SerialEvents W.Write) W.row
            self.entry result (with_writer self.old)) }
        ensures value { result.now ≡ self.old.out }
    {
        &mut self.out
    }

    /// Returns the writer unchanged. Drops the trigger and the events object.
    pub fn into_writer(self) -> W
    where
        T: Drop,
        EV: Drop,
        ensures { result ≡ self.out }
    {
        self.out
    }

    /// Returns the trigger, the events object and the writer, unchanged. Calls none of them.
    pub fn into_parts(self) -> (T, EV, W)
        ensures trigger { result.0 ≡ self.trigger }
        ensures events { result.1 ≡ self.events }
        ensures out { result.2 ≡ self.out }
    {
        (self.interrupt_evt, self.events, self.out)
    }

    /// The trigger of the interrupt line.
    pub fn interrupt_evt(&self) -> &T
        ensures { result.now ≡ self.now.trigger }
    {
        &self.interrupt_evt
    }

    /// The trigger, mutably. Nothing else in the port changes.
    pub fn interrupt_evt_mut(&mut self) -> &mut T
        ensures* lends { sem 𝓛 (Lends
            (the_row T.row EV.row W.row T.E.row T.Trigger T.E.Debug EV.SerialEvents W.Write) T.row
            self.entry result (with_trigger self.old)) }
        ensures value { result.now ≡ self.old.trigger }
    {
        &mut self.interrupt_evt
    }

    /// The events object.
    pub fn events(&self) -> &EV
        ensures { result.now ≡ self.now.events }
    {
        &self.events
    }

    /// The events object, mutably. Nothing else in the port changes.
    pub fn events_mut(&mut self) -> &mut EV
        ensures* lends { sem 𝓛 (Lends
            (the_row T.row EV.row W.row T.E.row T.Trigger T.E.Debug EV.SerialEvents W.Write) EV.row
            self.entry result (with_events self.old)) }
        ensures value { result.now ≡ self.old.events }
    {
        &mut self.events
    }

    /// Writes `value` at `offset`, as a guest does.
    ///
    /// # Errors
    ///
    /// Returns [`Error::Trigger`] if the trigger refuses a call, even if the writer fails too. Otherwise returns
    /// [`Error::IOError`] if the writer fails to take the byte or to flush. Its failure has no effect on the registers.
    /// A refused condition stays pending: no access calls the trigger for it again until the guest has acknowledged it.
    /// Only an IER write may make two calls. If the first of these is refused, THRE is not raised.
    pub fn write(&mut self, offset: u8, value: u8) -> Result<(), Error<T::E>>
        ensures step { IsSerialWrite T.link EV.link W.contents offset value result self.old self.new }
        // While IER is 0 the trigger is not called.
        ensures quiet { self.new.state.interrupt_enable ≡ 0 → self.new.trigger ≡ self.old.trigger }
        // `Ok` of a THR write outside loopback means that the writer took the byte.
        ensures sends { OnOk result (Appends (W.contents self.old.out) (W.contents self.new.out)
            (sent_by (decode_in self.old.state (Write offset value)))) }
        // Only a THR write outside loopback reaches the writer.
        ensures silent { sends_byte self.old.state (Write offset value) ≡ false → self.new.out ≡ self.old.out }
        // What stands after an error.
        ensures fate { IfErr result (λ error. WriteFate offset value error self.old.state self.new.state) }
        // A write keeps what belongs to other offsets.
        ensures elsewhere { SameElsewhere offset self.old.state self.new.state }
        ensures transmitter { transmitter self.new.state ≡ transmitter self.old.state }
        ensures keeps_pending { pending_count self.new.state
            ≡ pending_count self.old.state + turned_on_count self.old.state self.new.state }
        ensures coherent { Coherent self.old.state → Coherent self.new.state }
    {
        self.write_for_run(offset, value).reply
    }

    /// Writes for a run, and returns the trigger's answers and the outcome of the byte too.
    pub(crate) fn write_for_run(
        &mut self,
        offset: u8,
        value: u8,
    ) -> Recorded<Result<(), Error<T::E>>>
        ensures { IsSerialStep (serial_links T.link EV.link W.contents) (Write offset value) result.asked result.sent
            (write_response result.reply) (refusal_in_result result.reply) self.old self.new }
    {
        let register = self.registers.decode(offset);
        let effects = self.registers.write(&mut self.in_buffer, register, value);
        let (sent, fault) = send_where_due(&mut self.events, &mut self.out, effects.sends, value);
        let (asked, refusal) = call_trigger(&mut self.interrupt_evt, effects.interrupts);
        self.registers.cancel_thre(effects.interrupts, asked);
        Recorded {
            reply: write_reply(refusal, fault),
            asked,
            sent,
        }
    }

    /// Whether a write at `offset` sends its byte, as a THR write outside loopback does. Changes nothing. Ask before
    /// the write if your output may have no room.
    pub fn sends(&self, offset: u8) -> bool
        ensures { (value : ℕ) → sent_by (decode_in self.now.state (Write offset value))
            ≡ (if result then value ∷ [] else []) }
    {
        self.registers.sends(offset)
    }

    /// Reads the byte at `offset`, as a guest does. Neither calls the trigger nor uses the writer.
    pub fn read(&mut self, offset: u8) -> u8
        ensures step { IsSerialRead T.link EV.link W.contents offset result self.old self.new }
        // A read of RBR gives the oldest byte and leaves the others.
        ensures data { offset ≡ 0 → is_dlab self.old.state.line_control ≡ false →
            0 < length self.old.state.in_buffer → result ∷ self.new.state.in_buffer ≡ self.old.state.in_buffer }
        ensures settings { SameSettings self.old.state self.new.state }
        ensures transmitter { transmitter self.new.state ≡ transmitter self.old.state }
        // A read of IIR acknowledges at most both conditions, a read of RBR at most one, and another read none.
        ensures keeps_pending { pending_count self.old.state
            ≤ pending_count self.new.state + acknowledged_at offset }
        // A read of any register except RBR and IIR changes nothing.
        ensures rest_unchanged { decode_in self.old.state (Read offset) ≡ Other → self.new ≡ self.old }
        ensures at_most_64 { length self.new.state.in_buffer ≤ fifo_size }
        ensures trigger { self.new.trigger ≡ self.old.trigger }
        ensures out { self.new.out ≡ self.old.out }
        ensures coherent { Coherent self.old.state → Coherent self.new.state }
    {
        let register = self.registers.decode(offset);
        let effects = self.registers.read(&mut self.in_buffer, register);
        report_read(&mut self.events, effects);
        prove!(self.fifo_capacity() <= FIFO_SIZE);
        effects.byte
    }

    /// Calls the trigger once for each condition that is both pending and enabled, up to the first refusal. Nothing
    /// else changes. The history counts the call as a restore of the port with its own objects.
    ///
    /// A refused condition stays pending, and no access calls the trigger for it again until the guest has acknowledged
    /// it. If your trigger can refuse, repeat this call after a refusal until it returns `Ok`. While IER disables the
    /// condition, this call does not call the trigger for it, and may return `Ok`: then repeat it after each write at
    /// offset 1. The guest may be interrupted again for a condition that it already knows.
    ///
    /// # Errors
    ///
    /// Returns the trigger's refusal: call this again later.
    pub fn retry_interrupts(&mut self) -> Result<(), T::E>
        ensures called { OnOk result
            (T.link self.old.trigger (all_ok (conditions_due self.old.state)) self.new.trigger) }
        ensures refused { IfErr result (λ refusal. RefusesOwnState T.link (conditions_due self.old.state)
            (Error.Trigger refusal) self.old.trigger self.new.trigger) }
        ensures rest_unchanged { self.new ≡ with_trigger self.old self.new.trigger }
        ensures step { IsSerialRetry T.link EV.link W.contents self.old self.new }
        ensures coherent { Coherent self.old.state → Coherent self.new.state }
    {
        call_again(&self.registers, &mut self.interrupt_evt)
    }

    /// How many interrupts are due, 0 to 2: one for each condition that is both pending and enabled. A retry calls the
    /// trigger once for each.
    pub fn interrupts_due(&self) -> u8
        ensures calls { result ≡ length (conditions_due self.now.state) }
        ensures at_most_2 { result ≤ 2 }
    {
        self.registers.interrupts_due()
    }

    /// Returns IER, as `state` has it. A driver that has tested the port and wants input leaves bit 0x01 set and bit
    /// 0x02 clear.
    pub fn interrupt_enable(&self) -> u8
        ensures { result ≡ self.now.state.interrupt_enable }
    {
        self.registers.interrupt_enable
    }

    /// Whether the interrupt line is up. It is up while a condition is both pending and enabled. If your interrupt
    /// controller is level-triggered, set your line to this level after every call, reads included, and let the trigger
    /// do nothing.
    pub fn interrupt_line(&self) -> bool
        ensures line { result ≡ irq_level self.now.state }
        ensures due { result ≡ not (length (conditions_due self.now.state) == 0) }
    {
        self.registers.interrupt_line()
    }

    /// How many bytes may still be enqueued: 64 minus the number of held bytes.
    pub fn fifo_capacity(&self) -> usize
        ensures value { result ≡ fifo_size - length self.now.state.in_buffer }
        ensures bound { length self.now.state.in_buffer ≤ fifo_size }
        ensures room_plus_held { result + length self.now.state.in_buffer ≡ fifo_size }
    {
        FIFO_SIZE - self.in_buffer.len()
    }

    /// Receives bytes for the guest: the first ones, as many as fit. Returns how many it accepted.
    ///
    /// In loopback it accepts no bytes and returns 0.
    ///
    /// # Errors
    ///
    /// Returns [`Error::FullFifo`] if bytes are passed outside loopback while 64 are held: nothing changes. Returns
    /// [`Error::Trigger`] if the trigger refuses: the bytes that fit are kept, so do not enqueue them again. To find
    /// out how many, compare `fifo_capacity` before and after.
    pub fn enqueue_raw_bytes(&mut self, input: &[u8]) -> Result<usize, Error<T::E>>
        ensures step { IsSerialEnqueue T.link EV.link W.contents input.now result self.old self.new }
        ensures held { self.new.state.in_buffer ≡ self.old.state.in_buffer ++ enqueued_bytes self.old.state input.now }
        ensures settings { SameSettings self.old.state self.new.state }
        ensures transmitter { transmitter self.new.state ≡ transmitter self.old.state }
        ensures keeps_pending { pending_count self.new.state
            ≡ pending_count self.old.state + turned_on_count self.old.state self.new.state }
        ensures full { result ≡ Err Error.FullFifo → self.new ≡ self.old }
        // What stands after an error.
        ensures fate { IfErr result (λ error. EnqueueFate input.now error self.old.state self.new.state) }
        ensures quiet { self.old.state.interrupt_enable ≡ 0 → self.new.trigger ≡ self.old.trigger }
        ensures out { self.new.out ≡ self.old.out }
        ensures coherent { Coherent self.old.state → Coherent self.new.state }
    {
        self.enqueue_for_run(input).reply
    }

    /// Enqueues for a run, and returns the trigger's answers too.
    pub(crate) fn enqueue_for_run(&mut self, input: &[u8]) -> Recorded<Result<usize, Error<T::E>>>
        ensures { IsSerialStep (serial_links T.link EV.link W.contents) (Enqueue input.now) result.asked result.sent
            (enqueue_response result.reply) (refusal_in_result result.reply) self.old self.new }
    {
        let effects = self.registers.enqueue(&mut self.in_buffer, input);
        let (asked, refusal) = call_trigger(&mut self.interrupt_evt, effects.interrupts);
        let reply = match refusal {
            Some(refusal) => Err(Error::Trigger(refusal)),
            None if effects.fifo_full => Err(Error::FullFifo),
            None => Ok(effects.accepted),
        };
        Recorded {
            reply,
            asked,
            sent: Sent::Nothing,
        }
    }

    /// Tells the port that the time of a few characters has passed without a read or a new byte. If bytes are held, IER
    /// enables RDA and RDA is not pending, the port raises RDA again and calls the trigger. So no byte waits without an
    /// interrupt, even if the guest has read IIR and left bytes in the FIFO.
    ///
    /// # Errors
    ///
    /// Returns [`Error::Trigger`] if the trigger refuses: RDA is pending nonetheless.
    pub fn character_timeout(&mut self) -> Result<(), Error<T::E>>
        ensures step { IsSerialTimeout T.link EV.link W.contents result self.old self.new }
        // No byte waits without an interrupt.
        ensures pending { RdaCoversHeldBytes self.new.state }
        ensures transmitter { transmitter self.new.state ≡ transmitter self.old.state }
        ensures keeps_pending { pending_count self.new.state
            ≡ pending_count self.old.state + turned_on_count self.old.state self.new.state }
        // What stands after an error.
        ensures fate { IfErr result (λ error. TimeoutFate error self.old.state self.new.state) }
        ensures quiet { self.old.state.interrupt_enable ≡ 0 → self.new.trigger ≡ self.old.trigger }
        ensures events { self.new.events ≡ self.old.events }
        ensures out { self.new.out ≡ self.old.out }
        ensures coherent { Coherent self.old.state → Coherent self.new.state }
    {
        self.timeout_for_run().reply
    }

    /// Makes a character timeout for a run, and returns the trigger's answers too.
    pub(crate) fn timeout_for_run(&mut self) -> Recorded<Result<(), Error<T::E>>>
        ensures no_byte { result.sent ≡ Sent.Nothing }
        ensures step { IsSerialStep (serial_links T.link EV.link W.contents) CharacterTimeout result.asked result.sent
            (timeout_response result.reply) (refusal_in_result result.reply) self.old self.new }
    {
        let due = self.registers.character_timeout(&self.in_buffer);
        let (asked, refusal) = call_trigger(&mut self.interrupt_evt, due);
        Recorded {
            reply: match refusal {
                Some(refusal) => Err(Error::Trigger(refusal)),
                None => Ok(()),
            },
            asked,
            sent: Sent::Nothing,
        }
    }
}
