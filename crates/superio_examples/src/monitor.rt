// SPDX-License-Identifier: Apache-2.0 OR BSD-3-Clause
//! A whole monitor without its virtual processor: the devices of a machine, its input and its output, as one struct.
//!
//! A loop around it makes [`MachineEvent`]s of what its hypervisor, its terminal and its timers report, passes them to
//! [`Monitor::run`], and carries out the replies. What a monitor owes the serial port is the [`Console`]'s business.
//! `run` calls no object, so its claims depend on none.
ghost use Rattle.std.specs.Prelude.{◌≡◌, ◌<◌, ◌^◌, map, OnOk, OnErr, IfOk};

use crate::bus::{COM1, I8042_COMMAND, I8042_DATA, serial_offset};
use crate::mmio::offset_in;
use std::alloc::{AllocError, Global};
use superio_console::{Console, Work};
use superio_core::{Pl031, is_reset_command};

/// The offset of the command port.
const COMMAND_OFFSET: u8 = (I8042_COMMAND - I8042_DATA) as u8;

/// The offset of RTCMIS, the masked interrupt status.
const RTCMIS: u16 = 0x018;

/// The address of the clock's window in memory.
const CLOCK: u64 = 0x0901_0000;

/// What happens to a machine.
#[derive(Clone, Copy, Debug, Eq, PartialEq)]
pub enum MachineEvent {
    /// The guest reads the byte at this port.
    PortRead(u16),
    /// The guest writes this byte at this port.
    PortWrite(u16, u8),
    /// The guest reads four bytes at this address.
    MemoryRead(u64),
    /// The guest writes this number, in four bytes, at this address.
    MemoryWrite(u64, u32),
    /// A byte is typed for the guest. If the console wants input, it accepts the byte. Otherwise the answer is `Full`.
    Typed(u8),
    /// The sink took this many bytes of the output, the oldest ones.
    Drained(usize),
    /// The host's time is now this many seconds after the start of 1970.
    Moment(u64),
    /// The monitor's timer goes off, or its poll returns: some milliseconds after any other event while the console
    /// wants a turn, and when the alarm is due.
    Timer,
    /// The hypervisor refused an interrupt of the serial port. The next timer asks again.
    Refused,
    /// The guest's machine sleeps in memory, until a reset. Input waits.
    Suspended,
}

/// What an event returns.
#[derive(Clone, Copy, Debug, Eq, PartialEq)]
pub enum Answer {
    /// What the guest reads.
    Shows(u32),
    /// The event is done.
    Done,
    /// The serial port takes no input now. The source keeps the byte, and passes it again later.
    Full,
    /// The guest resets its machine. The serial port is a new one, and the bytes that it held are lost.
    Reset,
}

/// What an event returns, and what is left to do.
#[derive(Clone, Copy, Debug, Eq, PartialEq)]
pub struct MachineReply {
    pub answer: Answer,
    /// How often to raise the serial port's interrupt, the level of its line, and whether to wake the event loop.
    pub work: Work,
    /// The level of the clock's interrupt line.
    pub clock_line: bool,
}

/// The devices of a machine, its input and its output.
#[derive(Drop)]
pub struct Monitor {
    /// The serial port, at COM1, with the output that waits for the sink.
    pub console: Console,
    /// The clock, at 0x0901_0000.
    pub clock: Pl031,
    /// The host's time, in seconds since 1970.
    pub moment: u64,
}

impl Monitor {
    ghost use Rattle.superio_examples.specs.Monitor.{machine_of, new_machine, after_event, after_events};
    ghost use Rattle.superio_examples.specs.declared.monitor.MachineEvent.{MachineEvent};
    ghost use Rattle.superio_examples.specs.Monitor.{InputInOrder, KeepsOut, OutputInOrder, EachByteIsThrough, is_reset_reply, asks_reset};
    ghost use Rattle.superio_examples.specs.Monitor.{Acts, no_work, reply_to, replies_to};

    /// The monitor of a new machine. If `is_polled` is true, the guest polls the serial port, so input goes in at once.
    /// Otherwise input waits until the guest's driver is ready.
    pub fn new(is_polled: bool) -> Monitor
        ensures { machine_of result ≡ new_machine is_polled }
    {
        Monitor {
            console: Console::new(is_polled),
            clock: Pl031::new(),
            moment: 0,
        }
    }

    /// Makes the events, in order, and returns a reply to each.
    ///
    /// # Errors
    ///
    /// Returns `AllocError` if memory is refused for the replies. Then no event was made.
    pub fn run(
        &mut self,
        alloc: Global,
        events: &[MachineEvent],
    ) -> Result<Vec<MachineReply>, AllocError>
        ensures replies { IfOk result (λ replies. replies.items ≡ replies_to events.now (machine_of self.old)) }
        ensures machine { OnOk result (machine_of self.new ≡ after_events events.now (machine_of self.old)) }
        ensures refused { OnErr result (self.new ≡ self.old) }
        // The sinks got the bytes that the guest wrote to THR outside loopback, in order. The bytes that found 4,096
        // waiting were dropped and counted.
        ensures output { OnOk result (OutputInOrder events.now (machine_of self.old) (machine_of self.new)) }
        // A reset is asked for exactly where 0xFE is written at port 0x64.
        ensures resets { IfOk result (λ replies. map is_reset_reply replies.items ≡ map asks_reset events.now) }
        // Each typed byte is answered `Full` while the guest sleeps, and while its driver is not ready and it does not
        // poll.
        ensures gate { IfOk result (λ replies. KeepsOut events.now replies.items (machine_of self.old)) }
        // The guest got each typed byte that was not answered `Full`, in order, except those that a reset lost and
        // those that the port holds.
        ensures input { IfOk result (λ replies.
            InputInOrder events.now replies.items (machine_of self.old) (machine_of self.new)) }
    {
        count_fits(self.console.dropped);
        let mut replies = Vec::with_capacity(alloc, events.len())?;
        for event in events {
            replies.push_reserved(self.step(*event));
        }
        Ok(replies)
    }

    /// Makes an event.
    pub fn step(&mut self, event: MachineEvent) -> MachineReply
        ensures reply { result ≡ reply_to event (machine_of self.old) }
        ensures machine { machine_of self.new ≡ after_event event (machine_of self.old) }
    {
        let (answer, work) = self.act(event);
        MachineReply {
            answer,
            work,
            clock_line: self.clock.interrupt_line(),
        }
    }

    /// Makes an event. Returns the answer, and what the console leaves to do.
    fn act(&mut self, event: MachineEvent) -> (Answer, Work)
        ensures acts { Acts event result.0 result.1 (machine_of self.old) (machine_of self.new) }
    {
        match event {
            MachineEvent::PortRead(port) => self.read_port(port),
            MachineEvent::PortWrite(port, value) => self.write_port(port, value),
            MachineEvent::MemoryRead(address) => self.read_memory(address),
            MachineEvent::MemoryWrite(address, value) => self.write_memory(address, value),
            MachineEvent::Typed(byte) => self.take_typed(byte),
            MachineEvent::Drained(count) => {
                self.console.consume(count);
                (Answer::Done, self.no_work())
            }
            MachineEvent::Moment(moment) => {
                self.moment = moment;
                (Answer::Done, self.no_work())
            }
            MachineEvent::Timer => {
                self.clock.read(RTCMIS, self.moment);
                (Answer::Done, self.console.turn())
            }
            MachineEvent::Refused => (Answer::Done, self.console.refuse()),
            MachineEvent::Suspended => {
                self.console.suspend();
                (Answer::Done, self.no_work())
            }
        }
    }

    /// A guest's read of a port.
    fn read_port(&mut self, port: u16) -> (Answer, Work)
        ensures acts { Acts (MachineEvent.PortRead port) result.0 result.1 (machine_of self.old) (machine_of self.new) }
    {
        match (serial_offset(COM1, port), port) {
            (Some(offset), _) => {
                let read = self.console.read(offset);
                (Answer::Shows(u32::from(read.byte)), read.work)
            }
            (None, I8042_DATA | I8042_COMMAND) => (Answer::Shows(0), self.no_work()),
            (None, _) => (Answer::Shows(0xFF), self.no_work()),
        }
    }

    /// A guest's write of a port.
    fn write_port(&mut self, port: u16, value: u8) -> (Answer, Work)
        ensures acts { Acts (MachineEvent.PortWrite port value) result.0 result.1
            (machine_of self.old) (machine_of self.new) }
    {
        match (serial_offset(COM1, port), port) {
            (Some(offset), _) => (Answer::Done, self.console.write(offset, value)),
            (None, I8042_COMMAND) if is_reset_command(COMMAND_OFFSET, value) => {
                (Answer::Reset, self.console.reset())
            }
            (None, _) => (Answer::Done, self.no_work()),
        }
    }

    /// A guest's read of memory.
    fn read_memory(&mut self, address: u64) -> (Answer, Work)
        ensures acts { Acts (MachineEvent.MemoryRead address) result.0 result.1
            (machine_of self.old) (machine_of self.new) }
    {
        let shown = match offset_in(CLOCK, address) {
            Some(offset) => self.clock.read(offset, self.moment).unwrap_or(0),
            None => 0,
        };
        (Answer::Shows(shown), self.no_work())
    }

    /// A guest's write of memory.
    fn write_memory(&mut self, address: u64, value: u32) -> (Answer, Work)
        ensures acts { Acts (MachineEvent.MemoryWrite address value) result.0 result.1 (machine_of self.old)
            (machine_of self.new) }
    {
        if let Some(offset) = offset_in(CLOCK, address) {
            self.clock.write(offset, value, self.moment);
        }
        (Answer::Done, self.no_work())
    }

    /// A typed byte goes in if the console wants input.
    fn take_typed(&mut self, byte: u8) -> (Answer, Work)
        ensures acts { Acts (MachineEvent.Typed byte) result.0 result.1 (machine_of self.old) (machine_of self.new) }
    {
        let is_full = self.console.wants().input == 0;
        let work = self.console.receive(&[byte]).work;
        let answer = if is_full { Answer::Full } else { Answer::Done };
        (answer, work)
    }

    /// The work of an event that leaves none.
    fn no_work(&self) -> Work
        ensures { result ≡ no_work (machine_of self.now).console }
    {
        Work {
            interrupts: 0,
            is_up: self.console.port.interrupt_line(),
            wakes: false,
        }
    }

    /// A law: what [`superio_console::laws::each_byte_is_through`] says of runs holds for this monitor's console. Here
    /// a run is any list of events whose calls keep the driver's rules.
    pub fn each_byte_is_through()
        ensures { EachByteIsThrough }
    {
        superio_console::laws::each_byte_is_through();
    }
}

/// The number of dropped bytes fits its field. Does nothing, for proofs.
fn count_fits(dropped: u64)
    ensures { dropped < 2 ^ 64 }
{
    let _ = dropped;
}
