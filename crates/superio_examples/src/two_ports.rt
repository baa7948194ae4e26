// SPDX-License-Identifier: Apache-2.0 OR BSD-3-Clause
//! A monitor such as you might write: two serial ports without I/O, a clock and the reset command, with a loop around
//! them. Each claim about it has a proof of at most 20 lines, and most of these proofs use a law of `superio_laws`.
ghost use Rattle.std.specs.Prelude.{◌≡◌, ◌≤◌, ◌+◌, ◌++◌, ℕ, [], false, if◌then◌else◌};
ghost use Rattle.std.specs.List.{list_any};
ghost use Rattle.superio_laws.specs.Serial.{Asked, Coherent, CoherentUart, RdaCoversHeldBytes, Write, enqueued_bytes, sends_byte, state_of_uart, step, step_calls, turned_on_count};
ghost use Rattle.superio_laws.specs.Serial.History.{state_of_history};
ghost use Rattle.superio_laws.specs.Serial.Laws.ListsOfOps.{accepted_in, acknowledged_in, read_out_in};
ghost use Rattle.superio_laws.specs.Serial.Laws.UartRun.{trace_with};
ghost use Rattle.superio_laws.specs.Rtc.{GoesOnFrom, TimeGoesOn, state_of_clock};
ghost use Rattle.superio_examples.specs.Queues.{after_byte};
ghost use Rattle.superio_examples.specs.TwoPorts.{after_event, after_events, asked_by, asked_in_all, is_reset, machine_of, op_of, ops_on_first, ops_on_second, resets_in, sets_clock, shown_by, shown_by_port};

use crate::queues::OutputQueue;
use superio_core::{Pl031, Uart, is_reset_command};

/// The offset of RTCLR, the load register.
const RTCLR: u16 = 0x008;

/// A call of a serial port.
#[derive(Clone, Copy)]
pub enum PortCall {
    /// The guest reads at this offset.
    Read(u8),
    /// The guest writes this value at this offset.
    Write(u8, u8),
    /// A byte is typed for the guest.
    Typed(u8),
    /// A turn of the event loop: a character timeout.
    Turn,
}

/// What happens to the machine.
#[derive(Clone, Copy)]
pub enum Event {
    /// A call of the first port.
    First(PortCall),
    /// A call of the second port.
    Second(PortCall),
    /// The guest reads the clock at this offset.
    ClockRead(u16),
    /// The guest writes this value to the clock at this offset.
    ClockWrite(u16, u32),
    /// The guest writes this value to the controller at this offset.
    Command(u8, u8),
    /// The host's time is now this many seconds after the start of 1970.
    Moment(u64),
}

/// What an event returns.
#[derive(Clone, Copy)]
pub struct Reply {
    /// What the guest reads: 0 if it reads nothing.
    pub shown: u32,
    /// How often to ask for an interrupt.
    pub asked: u8,
}

/// What a list of events asks for.
#[derive(Clone, Copy)]
pub struct Totals {
    /// How often the ports asked for their interrupts.
    pub asked: u64,
    /// How often the guest asked for a reset.
    pub resets: u64,
}

/// The machine's devices, and the host's time.
#[derive(Drop)]
pub struct TwoPorts {
    pub first: Uart,
    pub second: Uart,
    pub clock: Pl031,
    pub moment: u64,
}

/// Makes a call of a port.
#[tactic(auto, using(superio_laws::proofs::Lemmas::Serial::Laws::ListsOfOps::no_calls))]
fn make(port: &mut Uart, call: PortCall) -> Reply
    ensures state { state_of_uart port.new ≡ step (state_of_uart port.old) (op_of call) Asked.Nothing }
    ensures shown { result.shown ≡ shown_by_port call (state_of_uart port.old) }
    ensures asked { result.asked ≡ step_calls (state_of_uart port.old) (op_of call) }
    ensures at_most_2 { result.asked ≤ 2 }
{
    match call {
        PortCall::Read(offset) => shows(u32::from(port.read(offset).byte)),
        PortCall::Write(offset, value) => asks(port.write(offset, value).interrupts),
        PortCall::Typed(byte) => asks(port.enqueue_raw_bytes(&[byte]).interrupts),
        PortCall::Turn => asks(port.character_timeout()),
    }
}

/// The reply of a read.
fn shows(shown: u32) -> Reply
    ensures { result ≡ record { shown = shown; asked = 0 } }
{
    Reply { shown, asked: 0 }
}

/// The reply of any other event.
fn asks(asked: u8) -> Reply
    ensures { result ≡ record { shown = 0; asked = asked } }
{
    Reply { shown: 0, asked }
}

impl TwoPorts {
    /// Makes an event.
    pub fn step(&mut self, event: Event) -> Reply
        ensures machine { machine_of self.new ≡ after_event event (machine_of self.old) }
        ensures shown { result.shown ≡ shown_by event (machine_of self.old) }
        ensures asked { result.asked ≡ asked_by event (machine_of self.old) }
        ensures at_most_2 { result.asked ≤ 2 }
    {
        match event {
            Event::First(call) => make(&mut self.first, call),
            Event::Second(call) => make(&mut self.second, call),
            Event::ClockRead(offset) => { shows(self.clock.read(offset, self.moment).unwrap_or(0)) }
            Event::ClockWrite(offset, value) => {
                self.clock.write(offset, value, self.moment);
                asks(0)
            }
            Event::Command(_, _) => asks(0),
            Event::Moment(moment) => {
                self.moment = moment;
                asks(0)
            }
        }
    }

    /// Makes the events, in order. It drops what reads show, which a monitor passes to its guest.
    pub fn run(&mut self, events: &[Event]) -> Totals
        ensures machine { machine_of self.new ≡ after_events events.now (machine_of self.old) }
        ensures asked { result.asked ≡ asked_in_all events.now (machine_of self.old) }
        ensures resets { result.resets ≡ resets_in events.now }
    {
        let mut asked = 0;
        let mut resets = 0;
        for event in events {
            asked += u64::from(self.step(*event).asked);
            resets += u64::from(is_reset(*event));
        }
        Totals { asked, resets }
    }
}

/// Whether the event is the reset command.
fn is_reset(event: Event) -> bool
    ensures { result ≡ is_reset event }
{
    match event {
        Event::Command(offset, value) => is_reset_command(offset, value),
        _ => false,
    }
}

// ---- the claims

/// Each port's guest reads out each byte once, in order: what it read out, followed by what is held, is what was held,
/// followed by what was accepted.
pub fn no_byte_is_lost(machine: &mut TwoPorts, events: &[Event])
    ensures first { let old = state_of_uart machine.old.first in
        read_out_in old (ops_on_first events.now) ++ (state_of_uart machine.new.first).in_buffer
        ≡ old.in_buffer ++ accepted_in old (ops_on_first events.now) }
    ensures second { let old = state_of_uart machine.old.second in
        read_out_in old (ops_on_second events.now) ++ (state_of_uart machine.new.second).in_buffer
        ≡ old.in_buffer ++ accepted_in old (ops_on_second events.now) }
{
    superio_laws::lists_of_ops();
    machine.run(events);
}

/// The ports ask for at most two interrupts each, plus two for each read of IIR and one for each read of RBR.
pub fn interrupts_are_bounded(machine: &mut TwoPorts, events: &[Event]) -> u64
    ensures asked { result ≡ asked_in_all events.now (machine_of machine.old) }
    ensures bound { result ≤ 4 + acknowledged_in (state_of_uart machine.old.first) (ops_on_first events.now)
        + acknowledged_in (state_of_uart machine.old.second) (ops_on_second events.now) }
{
    superio_laws::lists_of_ops();
    machine.run(events).asked
}

/// The first port ends in the state that the trace of its calls describes, whatever the guest did to the other devices.
pub fn first_port_has_a_history(machine: &mut TwoPorts, events: &[Event])
    requires { CoherentUart machine.old.first }
    ensures state { state_of_uart machine.new.first
        ≡ state_of_history (state_of_uart machine.old.first) (trace_with [] (ops_on_first events.now)) }
    ensures coherent { Coherent (state_of_uart machine.new.first) }
{
    superio_laws::lists_of_ops();
    machine.run(events);
}

/// A port without calls stays as it was.
pub fn ports_are_apart(machine: &mut TwoPorts, events: &[Event])
    requires { ops_on_first events.now ≡ [] }
    ensures { state_of_uart machine.new.first ≡ state_of_uart machine.old.first }
{
    machine.run(events);
}

/// Unless the guest writes RTCLR or RTCCR, its time goes on second by second and does not go back, while 32 bits hold it
/// and the moment.
pub fn time_never_goes_back(machine: &mut TwoPorts, events: &[Event])
    requires { list_any sets_clock events.now ≡ false }
    ensures { (value now : ℕ) → GoesOnFrom (state_of_clock machine.old.clock) value now →
        TimeGoesOn (state_of_clock machine.old.clock) (state_of_clock machine.new.clock) value now }
{
    superio_laws::time_goes_on();
    machine.run(events);
}

/// A clock whose RTCLR is written goes on from the value, while 32 bits hold its time and the moment.
pub fn a_set_clock_goes_on(clock: &mut Pl031, value: u32, now: u64)
    ensures { GoesOnFrom (state_of_clock clock.new) value now }
{
    superio_laws::time_goes_on();
    clock.write(RTCLR, value, now);
}

/// The port holds what it accepts of the input behind the bytes that it held. Returns the rest of the input.
pub fn offer<'a>(port: &mut Uart, input: &'a [u8]) -> &'a [u8]
    ensures held { (state_of_uart port.new).in_buffer
        ≡ (state_of_uart port.old).in_buffer ++ enqueued_bytes (state_of_uart port.old) input.now }
    ensures rest { enqueued_bytes (state_of_uart port.old) input.now ++ result.now ≡ input.now }
{
    superio_laws::one_uart_call();
    let effects = port.enqueue_raw_bytes(input);
    &input[effects.accepted..]
}

/// A write asks for as many interrupts as conditions become pending. If RDA covered the held bytes before the write, it
/// covers them after it, too.
pub fn a_write_covers_what_is_held(port: &mut Uart, offset: u8, value: u8) -> u8
    requires { RdaCoversHeldBytes (state_of_uart port.old) }
    ensures turned_on { result ≡ turned_on_count (state_of_uart port.old) (state_of_uart port.new) }
    ensures covers { RdaCoversHeldBytes (state_of_uart port.new) }
{
    superio_laws::one_uart_call();
    port.write(offset, value).interrupts
}

/// The guest's write, with a bounded output. The byte that it sends waits if there is room, and otherwise it is dropped
/// and counted. Returns how often to ask for the interrupt.
pub fn write_to_output(port: &mut Uart, output: &mut OutputQueue, offset: u8, value: u8) -> u8
    ensures output { output.new ≡ (if sends_byte (state_of_uart port.old) (Write offset value)
        then after_byte value output.old else output.old) }
    ensures port { state_of_uart port.new ≡ step (state_of_uart port.old) (Write offset value) Asked.Nothing }
{
    let effects = port.write(offset, value);
    if effects.sends {
        output.push(value);
    }
    effects.interrupts
}
