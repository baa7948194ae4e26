// SPDX-License-Identifier: Apache-2.0 OR BSD-3-Clause
//! A real-time clock with the registers of an ARM PL031. It counts seconds.
//!
//! The clock does not read the host's clock: you pass each access its moment, in seconds since 1970. The low 32 bits
//! of a moment are the host's time. Guest time is the host's time plus the clock's offset if the sum fits in 32 bits,
//! and otherwise the host's time. The sum does not wrap.
//!
//! The match register is an alarm, unless its value is past when it is written. The first access that finds guest time
//! at or past the match raises bit 0 of the raw interrupt status. The clock calls no trigger: after each access, set
//! your line to [`Rtc::interrupt_line`].
ghost use Rattle.std.specs.Prelude.{◌≡◌, ◌↔◌, ◌<◌, ◌^◌, ◌==◌, ◌||◌, ℕ, List, [], ◌∷◌, ◌++◌, IfSome, is_some, not, false};
ghost use Rattle.std.specs.Bool.{OnTrue, OnFalse};
ghost use Rattle.std.proofs.Common.{◌∙◌};
ghost use Rattle.std.specs.Int.{w32, to_le_bytes};
ghost use Rattle.superio_core.specs.Rtc.Step.{rtc_irq_level, IsAlarmDue, after_alarm, clock_response, clock_step};
ghost use Rattle.vm_superio.specs.Rtc.{RtcEvent, invalid_read, invalid_write, ClockDevice, clock_events};
ghost use Rattle.superio_laws.specs.Rtc.{GoesOnFrom, ReadsByHistory, GoesOnByHistory};
ghost use Rattle.superio_core.specs.Rtc.{state_of_clock, read, write, write_of, clock_register_at, is_readable, is_writable, host_time, guest_time_in, bytes_left, fresh_clock};

use std::marker::Model;
pub use superio_core::rtc_pl031::{ClockRegister, Pl031, RtcState, encoding};

/// Receives a clock's invalid accesses.
///
/// A clock owns its events object from creation on. It calls the object only where documented.
///
/// An implementation declares its `link`, a relation of three things: its value before some events, the names of these
/// events, in order, and its value after them. A clock's contract states which events it reported.
pub trait RtcEvents {
    /// These events turn the first value into the second.
    ghost link: { Self → List RtcEvent → Self → Type 0 };

    /// The guest read an unreadable offset.
    fn invalid_read(&mut self)
        ensures { link self.old (invalid_read ∷ []) self.new };

    /// The guest wrote to an unwritable offset.
    fn invalid_write(&mut self)
        ensures { link self.old (invalid_write ∷ []) self.new };

    /// An empty list of events links a value with itself alone.
    ghost empty: { (x y : Self) → link x [] y ↔ (x ≡ y) };

    /// Two linked lists of events, one after the other, are one linked list.
    ghost append: { (x y z : Self) (first second : List RtcEvent) →
        link x first y → link y second z → link x (first ++ second) z };
}

/// An events object that ignores every event and never changes.
#[derive(Debug, Clone, Copy)]
pub struct NoEvents;

impl RtcEvents for NoEvents {
    ghost link = { λ old _ new. old ≡ new };

    ghost empty = { λ _ _. (λ same. same, λ same. same) };

    ghost append = { λ _ _ _ _ _ first second. first ∙ second };

    fn invalid_read(&mut self) {}

    fn invalid_write(&mut self) {}
}

/// A PL031 real-time clock, which reports to an events object.
///
/// An access is four bytes, lowest byte first. Contracts see the clock as its state and its events object.
#[derive(Drop)]
pub struct Rtc<EV: RtcEvents> {
    clock: Pl031,
    events: EV,
}

impl<EV: RtcEvents> Model for Rtc<EV> {
    ghost Value = { ClockDevice EV };

    ghost view = { λ device. record { state = state_of_clock device.clock; events = device.events } };
}

impl Default for Rtc<NoEvents> {
    ghost is_default = { λ clock. clock.state ≡ fresh_clock };

    /// Makes a clock as `new` does.
    fn default() -> Self {
        Self::new()
    }
}

/// Makes a clock of this state that ignores events.
impl From<RtcState> for Rtc<NoEvents> {
    ghost from_gives = { λ state clock. clock.state ≡ state };

    fn from(state: RtcState) -> Self {
        Self::from_state(&state, NoEvents)
    }
}

/// The state of a clock. Drops the events object.
impl<EV: RtcEvents + Drop> From<Rtc<EV>> for RtcState {
    ghost from_gives = { λ clock state. state ≡ clock.state };

    fn from(clock: Rtc<EV>) -> Self {
        clock.state()
    }
}

impl Rtc<NoEvents> {
    /// Makes a clock in the default state that ignores events.
    pub fn new() -> Rtc<NoEvents>
        ensures { result.state ≡ fresh_clock }
    {
        Self::with_events(NoEvents)
    }
}

impl<EV: RtcEvents> Rtc<EV> {
    ghost use Rattle.std.specs.Borrow.{Lends, sem};
    ghost use Rattle.vm_superio.specs.contracts.rtc_pl031.Rtc.{the_row};
    ghost use Rattle.vm_superio.specs.Rtc.{with_clock_events};

    /// Makes a clock from `state`, whatever its values, that owns the events object `rtc_events`. Does not call the
    /// object.
    pub fn from_state(state: &RtcState, rtc_events: EV) -> Self
        ensures state { result.state ≡ state.now }
        ensures events { result.events ≡ rtc_events }
    {
        Rtc {
            clock: Pl031::from_state(state),
            events: rtc_events,
        }
    }

    /// Makes a clock in the default state that owns the events object `rtc_events`. Does not call the object.
    pub fn with_events(rtc_events: EV) -> Self
        ensures state { result.state ≡ fresh_clock }
        ensures events { result.events ≡ rtc_events }
    {
        Self::from_state(&RtcState::default(), rtc_events)
    }

    /// Returns a snapshot, from which `from_state` recreates the clock.
    pub fn state(&self) -> RtcState
        ensures { result ≡ self.now.state }
    {
        self.clock.state()
    }

    /// Returns the state and the events object, unchanged.
    pub fn into_parts(self) -> (RtcState, EV)
        ensures state { result.0 ≡ self.state }
        ensures events { result.1 ≡ self.events }
    {
        let state = self.clock.state();
        (state, self.events)
    }

    /// The events object.
    pub fn events(&self) -> &EV
        ensures { result.now ≡ self.now.events }
    {
        &self.events
    }

    /// The events object, mutably. Nothing else in the clock changes.
    pub fn events_mut(&mut self) -> &mut EV
        ensures* lends { sem 𝓛 (Lends (the_row EV.row EV.RtcEvents) EV.row
            self.entry result (with_clock_events self.old)) }
        ensures value { result.now ≡ self.old.events }
    {
        &mut self.events
    }

    /// Whether the interrupt line is up. Bit 0 of RTCMIS says so: it is set if the raw interrupt status and the mask
    /// both have it. Only an access changes it.
    pub fn interrupt_line(&self) -> bool
        ensures { result ≡ rtc_irq_level self.now.state }
    {
        self.clock.interrupt_line()
    }

    /// How many seconds after the moment `now` an access finds the alarm reached, if the guest makes no access before.
    /// `now` is in seconds since 1970. The result is less than 2^32, and 0 if an access at `now` finds the alarm
    /// reached.
    ///
    /// `None` means that no alarm is set, or that guest time never reaches the match. This can be so for a clock behind
    /// the host's: its time may be less than the match at every moment. The mask plays no part: a masked alarm is due
    /// like any other, and leaves the line down.
    ///
    /// The result holds until the next access, which may change the match or guest time.
    pub fn alarm_due(&self, now: u64) -> Option<u64>
        ensures due { IsAlarmDue self.now.state now result }
        ensures bound { IfSome result (λ seconds. seconds < 2 ^ 32) }
    {
        self.clock.alarm_due(now)
    }

    /// Writes `bytes`, lowest byte first, at `offset` from the clock's base address, at `now`, in seconds since 1970.
    /// Only the low 32 bits of `now` count.
    ///
    /// First, if an alarm is set and guest time has reached it, the alarm raises bit 0 of the raw interrupt status and
    /// is cleared.
    ///
    /// [`ClockRegister`] says what each register takes. A write at an offset that takes none stores nothing and calls
    /// the events object's `invalid_write` once, before it returns. No write makes another call.
    pub fn write(&mut self, offset: u16, bytes: &[u8; 4], now: u64)
        ensures state { self.new.state ≡ clock_step self.old.state (write_of offset bytes.now now) }
        ensures invalid { OnFalse (is_writable (clock_register_at offset))
            (self.new.state ≡ after_alarm self.old.state (host_time now)) }
        ensures history { GoesOnByHistory self.old.state (write_of offset bytes.now now) self.new.state }
        // A write of RTCLR sets the clock.
        ensures set { offset ≡ 0x008 →
            (value : ℕ) → bytes.now ≡ to_le_bytes w32 value → GoesOnFrom self.new.state value now }
        // Only RTCLR and RTCCR set it.
        ensures keeps_time { OnFalse ((offset == 0x008) || (offset == 0x00C))
            (self.new.state.offset ≡ self.old.state.offset) }

        // The events object hears only of an invalid write.
        ensures events { EV.link self.old.events (clock_events (write_of offset bytes.now now)) self.new.events }
        ensures quiet { OnTrue (is_writable (clock_register_at offset)) (self.new.events ≡ self.old.events) }
    {
        self.write_value(offset, u32::from_le_bytes(*bytes), now);
    }

    /// Writes `value` as [`write`](Self::write) writes its bytes. Returns whether the offset takes a write: `false` if
    /// the write was invalid.
    pub fn write_value(&mut self, offset: u16, value: u32, now: u64) -> bool
        ensures writable { result ≡ is_writable (clock_register_at offset) }
        ensures state { self.new.state ≡ clock_step self.old.state (write offset value now) }
        ensures events { EV.link self.old.events (clock_events (write offset value now)) self.new.events }
    {
        let is_valid = self.clock.write(offset, value, now);
        if !is_valid {
            self.events.invalid_write();
        }
        is_valid
    }

    /// Reads into `bytes`, lowest byte first, at `offset` from the clock's base address, at `now`, in seconds since
    /// 1970. Only the low 32 bits of `now` count. A read first handles an alarm that guest time has reached, as a write
    /// does. Apart from that, it changes no register.
    ///
    /// [`ClockRegister`] says what each register shows. A read at an offset that shows nothing leaves `bytes` unchanged
    /// and calls the events object's `invalid_read` once, before it returns. No read makes another call.
    pub fn read(&mut self, offset: u16, bytes: &mut [u8; 4], now: u64)
        ensures response { bytes.new ≡ bytes_left (clock_response self.old.state (read offset now)) bytes.old }
        ensures invalid { OnFalse (is_readable (clock_register_at offset)) (bytes.new ≡ bytes.old) }
        ensures response_by_history { ReadsByHistory self.old.state offset now bytes.old bytes.new }
        // RTCDR shows guest time.
        ensures time { offset ≡ 0x000 → bytes.new ≡ to_le_bytes w32 (guest_time_in self.old.state (host_time now)) }
        ensures keeps_time { self.new.state.offset ≡ self.old.state.offset }

        ensures state { self.new.state ≡ after_alarm self.old.state (host_time now) }
        ensures history { GoesOnByHistory self.old.state (read offset now) self.new.state }

        // The events object hears only of an invalid read.
        ensures events { EV.link self.old.events (clock_events (read offset now)) self.new.events }
        ensures quiet { OnTrue (is_readable (clock_register_at offset)) (self.new.events ≡ self.old.events) }
    {
        if let Some(value) = self.read_value(offset, now) {
            *bytes = value.to_le_bytes();
        }
    }

    /// Reads as [`read`](Self::read) does, and returns the value, or `None` if the read was invalid.
    pub fn read_value(&mut self, offset: u16, now: u64) -> Option<u32>
        ensures response { result ≡ clock_response self.old.state (read offset now) }
        ensures state { self.new.state ≡ clock_step self.old.state (read offset now) }
        ensures events { EV.link self.old.events (clock_events (read offset now)) self.new.events }
    {
        let value = self.clock.read(offset, now);
        if value.is_none() {
            self.events.invalid_read();
        }
        value
    }
}
