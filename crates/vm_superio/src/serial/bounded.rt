// SPDX-License-Identifier: Apache-2.0 OR BSD-3-Clause
//! A writer that may be full and says when it takes a byte, and the write that sends to such a writer.
ghost use Rattle.std.specs.Prelude.{◌≡◌, ◌&&◌, ℕ, Bool, false, not, [], ◌∷◌, is_ok, IsErr, IsTrue, IfErr, OnOk};
ghost use Rattle.std.specs.Io.KnownBytes.{Appends};
ghost use Rattle.vm_superio.specs.Serial.{Coherent, Write, decode_in, failure_response, is_lost, refusal_in_result, sends_byte, sent_by, TriggerRefused, write_response};
ghost use Rattle.vm_superio.specs.Serial.Step.{IsSerialStep, IsSerialWrite};
ghost use Rattle.vm_superio.specs.Links.Writer.{serial_links};

use super::Serial;
use super::effects::{Recorded, call_trigger, offer_where_due, write_reply};
use super::errors::Error;
use super::events::SerialEvents;
use crate::Trigger;
use std::io;
use std::io::Write;

/// A writer that says in its contract when it takes a byte, such as a queue of limited length.
///
/// Send to it by [`Serial::write_bounded`](super::Serial::write_bounded): the contract of that call says of each byte
/// whether the writer took it.
pub trait BoundedWriter: Write {
    /// There is room for a byte.
    ghost takes: { Self → Bool };

    /// A byte that is offered to the first value leaves the second, whether there was room or not.
    ghost offered: { ℕ → Self → Self → Type 0 };

    /// Takes the byte if there is room.
    ///
    /// # Errors
    ///
    /// Returns an error exactly if there is no room. Then the byte is lost, or counted: `offered` says which.
    fn write_byte(&mut self, byte: u8) -> io::Result<()>
        ensures room { is_ok result ≡ takes self.old }
        ensures offered { offered byte self.old self.new }
        ensures bytes { OnOk result (Appends (Self.contents self.old) (Self.contents self.new) (byte ∷ [])) };
}

impl<T: Trigger, EV: SerialEvents, W: BoundedWriter> Serial<T, EV, W> {
    /// Writes `value` at `offset`, as [`write`](Self::write) does, with a writer that says when it takes a byte. So the
    /// contract says what becomes of the byte: the writer takes it exactly if it has room.
    ///
    /// # Errors
    ///
    /// Returns [`Error::Trigger`] if the trigger refuses a call, even if the byte is lost too. Otherwise returns
    /// [`Error::IOError`] exactly if the write sends its byte and the writer has no room.
    pub fn write_bounded(&mut self, offset: u8, value: u8) -> Result<(), Error<T::E>>
        ensures step { IsSerialWrite T.link EV.link W.contents offset value result self.old self.new }
        // With room, the writer takes what the write sends, whatever the trigger answers.
        ensures room { IsTrue (W.takes self.old.out) →
            Appends (W.contents self.old.out) (W.contents self.new.out) (sent_by (decode_in self.old.state (Write offset value))) }
        ensures only_refusals { IsTrue (W.takes self.old.out) →
            IfErr result (λ error. failure_response error ≡ TriggerRefused) }
        // Without room, a write that sends its byte fails.
        ensures full { IsTrue (sends_byte self.old.state (Write offset value)) → W.takes self.old.out ≡ false →
            IsErr result }
        // What the writer is afterwards, with room or without.
        ensures offered { IsTrue (sends_byte self.old.state (Write offset value)) →
            W.offered value self.old.out self.new.out }
        ensures silent { sends_byte self.old.state (Write offset value) ≡ false → self.new.out ≡ self.old.out }
        ensures coherent { Coherent self.old.state → Coherent self.new.state }
    {
        self.write_offered(offset, value).reply
    }

    /// Writes, and returns the trigger's answers and the outcome of the byte too.
    fn write_offered(&mut self, offset: u8, value: u8) -> Recorded<Result<(), Error<T::E>>>
        ensures step { IsSerialStep (serial_links T.link EV.link W.contents) (Write offset value) result.asked result.sent
            (write_response result.reply) (refusal_in_result result.reply) self.old self.new }
        ensures room { is_lost result.sent
            ≡ (sends_byte self.old.state (Write offset value) && not (W.takes self.old.out)) }
        ensures offered { IsTrue (sends_byte self.old.state (Write offset value)) →
            W.offered value self.old.out self.new.out }
    {
        let register = self.registers.decode(offset);
        let effects = self.registers.write(&mut self.in_buffer, register, value);
        let (sent, fault) = offer_where_due(&mut self.events, &mut self.out, effects.sends, value);
        let (asked, refusal) = call_trigger(&mut self.interrupt_evt, effects.interrupts);
        self.registers.cancel_thre(effects.interrupts, asked);
        Recorded {
            reply: write_reply(refusal, fault),
            asked,
            sent,
        }
    }
}
