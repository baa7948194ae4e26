// SPDX-License-Identifier: Apache-2.0 OR BSD-3-Clause
//! A serial port with the monitor's end of its line, without I/O.
//!
//! A monitor owes a 16550 more than the accesses that it passes on, and a [`Console`] does the rest. It says when input
//! may go in and how much, keeps output until its reader takes it, makes character timeouts, asks again for refused
//! interrupts, and says when the event loop has to come back. Each call returns the work that is left for you, and
//! [`Console::wants`] names what to poll. A console holds no objects, uses no heap and reads no time.
#![tactic(auto)]

ghost use Rattle.std.specs.Prelude.{◌≡◌, ◌≤◌, ◌-◌, ◌==◌, ◌||◌, min, not, length, take, drop, false, IfOk, IfErr};
ghost use Rattle.std.specs.Result.{result_err, IsOkAnd};
ghost use Rattle.superio_core.specs.Serial.{fifo_size, state_of_uart, CoherentUart, not_empty};
ghost use Rattle.superio_console.specs.Console.{state_of, ConsoleState, new_console, wants_of, shown_at, after, work_of};
ghost use Rattle.superio_console.specs.Console.{Reads, Writes, Receives, Consumes, Turns, Refuses, Resets, Suspends, SetsPolled};
ghost use Rattle.superio_console.specs.OutputRing.{output_size};
ghost use Rattle.superio_console.specs.Saved.{console_encoding, console_fault, console_saved_max, IsConsole};

pub mod laws;
pub mod output_ring;
pub mod saved;

use output_ring::{OUTPUT_SIZE, OutputRing};
use saved::{
    ASLEEP_BIT, CONSOLE_SAVED_MAX, POLLED_BIT, READY_BIT, REFUSED_BIT, append, decode_console,
};
use superio_core::Uart;
use superio_core::fifo::RxFifo;
use superio_core::saved::SavedStateError;
use superio_core::serial::registers::{
    Condition, DATA_OFFSET, IER_OFFSET, IIR_NONE_BIT, IIR_OFFSET, MCR_OFFSET,
};

/// What a call leaves for you to do.
#[must_use = "the guest waits for this interrupt, and the event loop for being woken"]
#[repr(C)]
#[derive(Clone, Copy, Debug, PartialEq, Eq)]
pub struct Work {
    /// How often to raise the interrupt, 0 to 2 times, if your interrupt controller is edge-triggered. If one of them
    /// is refused, raise no more and call [`Console::refuse`].
    pub interrupts: u8,
    /// The level of the interrupt line. Set the line to it if your interrupt controller is level-triggered.
    pub is_up: bool,
    /// Whether to wake the event loop: [`Console::wants`] names something that it did not name before.
    pub wakes: bool,
}

/// What the event loop polls, and whether it has to come back soon.
#[repr(C)]
#[derive(Clone, Copy, Debug, PartialEq, Eq)]
pub struct Wants {
    /// How many bytes of input may go in, 0 to 64. While it is 0, do not read from the source of input.
    pub input: usize,
    /// Whether output waits. If so, poll its reader for room.
    pub output: bool,
    /// Whether to make a turn after some milliseconds at most, even if nothing else happens.
    pub turn: bool,
}

/// What a guest's read shows, and the work that it leaves.
#[must_use = "the guest waits for this byte and this interrupt"]
#[repr(C)]
#[derive(Clone, Copy, Debug, PartialEq, Eq)]
pub struct ConsoleRead {
    /// The byte that the guest reads.
    pub byte: u8,
    /// What is left to do.
    pub work: Work,
}

/// How much input went in, and the work that it leaves.
#[must_use = "what was not accepted has to be offered again"]
#[repr(C)]
#[derive(Clone, Copy, Debug, PartialEq, Eq)]
pub struct ConsoleReceived {
    /// How many bytes were accepted. They are the first ones.
    pub accepted: usize,
    /// What is left to do.
    pub work: Work,
}

/// A serial port with the monitor's end of its line. It keeps at most 4,096 bytes of the guest's output until their
/// reader takes them. Any contents are a valid console.
///
/// ```
/// # use superio::console::Console;
/// let mut console = Console::new(false);
/// assert_eq!(console.wants().input, 0); // the guest's driver is not ready
/// assert!(console.write(1, 0x01).wakes); // now it is: wake the event loop, which reads input
/// let typed = console.receive(b"hi");
/// assert_eq!((typed.accepted, typed.work.interrupts), (2, 1)); // raise the interrupt
/// assert_eq!(console.read(0).byte, b'h');
/// ```
#[repr(C)]
#[derive(Clone, Debug)]
#[derive(Drop)]
pub struct Console {
    /// The port.
    pub port: Uart,
    /// The output that waits.
    pub output: OutputRing,
    /// How many bytes of output were dropped.
    pub dropped: u64,
    /// Not 0 if the guest polls, so that input goes in before a driver is ready.
    pub is_polled: u8,
    /// Not 0 if the guest's driver has shown that it is ready, since the last reset or suspend.
    pub is_ready: u8,
    /// Not 0 if the guest sleeps in memory: from a suspend on, until a reset or until its driver shows that it is
    /// ready.
    pub is_asleep: u8,
    /// Not 0 from a refused interrupt on, until a call asks again, the guest reads IIR, or its machine is reset.
    pub is_refused: u8,
}

impl Console {
    /// Makes a console with a new port and no output. Set `is_polled` for a guest that polls the port, such as a boot
    /// loader: input then goes in at once. Otherwise input waits until the guest's driver is ready, that is, until a
    /// write at the offset of IER leaves IER with RDA enabled and THRE not.
    pub fn new(is_polled: bool) -> Console
        ensures state { state_of result ≡ new_console is_polled }
        ensures coherent { CoherentUart result.port }
    {
        Console {
            port: Uart::new(),
            output: OutputRing::new(),
            dropped: 0,
            is_polled: u8::from(is_polled),
            is_ready: 0,
            is_asleep: 0,
            is_refused: 0,
        }
    }

    /// The guest reads the byte at `offset` from the port's base. At 8 and above there is no register, and the byte is
    /// 0.
    ///
    /// If IIR shows that nothing is pending, this call also makes the character timeout that is due then.
    #[inline(always)]
    pub fn read(&mut self, offset: u8) -> ConsoleRead
        ensures byte { result.byte ≡ shown_at offset (state_of self.old).port }
        ensures work { result.work ≡ work_of (Reads offset) (state_of self.old) }
        ensures at_most_1 { result.work.interrupts ≤ 1 }
        ensures state { state_of self.new ≡ after (Reads offset) (state_of self.old) }
        ensures coherent { CoherentUart self.old.port → CoherentUart self.new.port }
    {
        if self.may_end_full(offset) {
            return self.read_full(offset);
        }
        let (byte, interrupts) = self.read_port(offset);
        let work = Work {
            interrupts,
            is_up: self.port.interrupt_line(),
            wakes: false,
        };
        ConsoleRead { byte, work }
    }

    /// The guest writes `value` at `offset` from the port's base. A byte that it sends waits for the reader. If 4,096
    /// bytes wait already, the byte is dropped and counted: [`is_full`](Self::is_full) tells before the write.
    ///
    /// A write at the offset of IER asks again for a refused interrupt.
    pub fn write(&mut self, offset: u8, value: u8) -> Work
        ensures work { result ≡ work_of (Writes offset value) (state_of self.old) }
        ensures at_most_2 { result.interrupts ≤ 2 }
        ensures state { state_of self.new ≡ after (Writes offset value) (state_of self.old) }
        ensures coherent { CoherentUart self.old.port → CoherentUart self.new.port }
    {
        if !may_change_wants(offset) {
            let interrupts = self.write_port(offset, value);
            return Work {
                interrupts,
                is_up: self.port.interrupt_line(),
                wakes: false,
            };
        }
        let before = self.wants();
        let raised = self.write_port(offset, value);
        self.look_at_ier(offset);
        let interrupts = self.retry(offset == IER_OFFSET, raised);
        self.work(before, interrupts)
    }

    /// Returns what the event loop has to poll now.
    #[inline(always)]
    pub fn wants(&self) -> Wants
        ensures value { result ≡ wants_of (state_of self.now) }
        ensures at_most_64 { result.input ≤ fifo_size }
    {
        Wants {
            input: self.input_room(),
            output: !self.output.is_empty(),
            turn: self.owes_turn(),
        }
    }

    /// Passes input to the guest. The port accepts the first bytes, at most as many as [`wants`](Self::wants) says.
    /// Keep the others until the console wants more.
    pub fn receive(&mut self, input: &[u8]) -> ConsoleReceived
        ensures accepted { result.accepted ≡ min (length input.now) (wants_of (state_of self.old)).input }
        ensures work { result.work ≡ work_of (Receives input.now) (state_of self.old) }
        ensures at_most_1 { result.work.interrupts ≤ 1 }
        ensures state { state_of self.new ≡ after (Receives input.now) (state_of self.old) }
        ensures coherent { CoherentUart self.old.port → CoherentUart self.new.port }
    {
        // Input never makes room, so all that the event loop may newly want is a turn.
        let owed_turn = self.owes_turn();
        let (accepted, interrupts) = self.receive_port(input);
        let work = Work {
            interrupts,
            is_up: self.port.interrupt_line(),
            wakes: !owed_turn && self.owes_turn(),
        };
        ConsoleReceived { accepted, work }
    }

    /// Returns the oldest waiting output, up to the end of the ring. It is empty only if no output waits. Offer it to
    /// the reader, and then tell [`consume`](Self::consume) how many bytes the reader took.
    pub fn output(&self) -> &[u8]
        ensures oldest { result.now ≡ take (length result.now) (state_of self.now).output }
        ensures bound { length result.now ≤ length (state_of self.now).output }
        ensures some { not_empty result.now ≡ (wants_of (state_of self.now)).output }
    {
        self.output.oldest()
    }

    /// The reader has taken the first `count` bytes of the waiting output, or all of it if fewer wait. This leaves no
    /// work.
    pub fn consume(&mut self, count: usize)
        ensures state { state_of self.new ≡ after (Consumes count) (state_of self.old) }
        ensures port { self.new.port ≡ self.old.port }
    {
        self.output.remove(count);
    }

    /// Whether the output has no room, so that the next byte that the guest sends is dropped. To lose no byte, hold the
    /// guest now, after its access and without your lock, until the reader has taken some.
    #[inline(always)]
    pub fn is_full(&self) -> bool
        ensures { result ≡ (length (state_of self.now).output == output_size) }
    {
        self.output.count() == OUTPUT_SIZE
    }

    /// How many bytes of output were dropped. The count stops at 2^64 - 1.
    pub fn dropped(&self) -> u64
        ensures { result ≡ (state_of self.now).dropped }
    {
        self.dropped
    }

    /// The event loop makes a turn. Call this whenever its poll returns, for whatever reason. Bytes that the guest has
    /// left interrupt it again, and a refused interrupt is asked for again.
    pub fn turn(&mut self) -> Work
        ensures work { result ≡ work_of Turns (state_of self.old) }
        ensures at_most_2 { result.interrupts ≤ 2 }
        ensures state { state_of self.new ≡ after Turns (state_of self.old) }
        ensures coherent { CoherentUart self.old.port → CoherentUart self.new.port }
    {
        let before = self.wants();
        let raised = self.port.character_timeout();
        let interrupts = self.retry(true, raised);
        self.work(before, interrupts)
    }

    /// Call this if an interrupt that a call asked for was refused, or may be lost. Turns and writes of IER then ask
    /// once for each condition that is pending and enabled, until one of them finds such a condition.
    pub fn refuse(&mut self) -> Work
        ensures work { result ≡ work_of Refuses (state_of self.old) }
        ensures none { result.interrupts ≡ 0 }
        ensures state { state_of self.new ≡ after Refuses (state_of self.old) }
        ensures port { self.new.port ≡ self.old.port }
    {
        let before = self.wants();
        self.is_refused = 1;
        self.work(before, 0)
    }

    /// The guest's machine is reset. The port is then a new one, and the bytes that it held are lost. Input waits again
    /// unless the guest polls. Waiting output is kept.
    pub fn reset(&mut self) -> Work
        ensures work { result ≡ work_of Resets (state_of self.old) }
        ensures none { result.interrupts ≡ 0 }
        ensures state { state_of self.new ≡ after Resets (state_of self.old) }
        ensures coherent { CoherentUart self.new.port }
    {
        let before = self.wants();
        self.port = Uart::new();
        self.is_ready = 0;
        self.is_asleep = 0;
        self.is_refused = 0;
        self.work(before, 0)
    }

    /// The guest's machine goes to sleep in memory. It is reset when it wakes, so input waits from now on, even if the
    /// guest polls, until a reset or until a driver shows that it is ready, as [`new`](Self::new) says. This leaves no
    /// work.
    pub fn suspend(&mut self)
        ensures state { state_of self.new ≡ after Suspends (state_of self.old) }
        ensures port { self.new.port ≡ self.old.port }
    {
        self.is_ready = 0;
        self.is_asleep = 1;
    }

    /// Says whether the guest polls from now on, as [`new`](Self::new) says at first. One guest may do both: its boot
    /// loader polls, and its kernel does not.
    pub fn set_polled(&mut self, is_polled: bool) -> Work
        ensures work { result ≡ work_of (SetsPolled is_polled) (state_of self.old) }
        ensures none { result.interrupts ≡ 0 }
        ensures state { state_of self.new ≡ after (SetsPolled is_polled) (state_of self.old) }
        ensures port { self.new.port ≡ self.old.port }
    {
        let before = self.wants();
        self.is_polled = u8::from(is_polled);
        self.work(before, 0)
    }

    /// Writes the console's encoding to the start of `bytes`, and returns its length, at most 4,196. The bytes after it
    /// do not change. [`load`](Self::load) reads the encoding back. It leaves out bytes that the guest has read or the
    /// reader has taken.
    pub fn save(&self, bytes: &mut [u8; CONSOLE_SAVED_MAX]) -> usize
        ensures count { result ≡ length (console_encoding (state_of self.now)) }
        ensures at_most_4196 { result ≤ console_saved_max }
        ensures encoding { take result bytes.new ≡ console_encoding (state_of self.now) }
        ensures rest_unchanged { drop result bytes.new ≡ drop result bytes.old }
    {
        let port = self.port.to_bytes();
        let port = port.as_bytes();
        let (older, newer) = self.output.as_slices();
        let waiting = older.len() + newer.len();
        let prefix = self.encode_prefix(waiting, port.len());
        let count = append(bytes, 0, &prefix);
        let count = append(bytes, count, older);
        let count = append(bytes, count, newer);
        append(bytes, count, port)
    }

    /// Reads a console back from its saved bytes. It has the state of the saved console, so no guest can tell the two
    /// apart. You may notice that [`output`](Self::output) returns a different number of the oldest bytes. The port may
    /// be incoherent: [`Uart::is_coherent`] tells.
    ///
    /// If you did not restore your interrupt controller too, call [`refuse`](Self::refuse), because an earlier
    /// interrupt may be lost. In any case, make a [`turn`](Self::turn) then.
    ///
    /// # Errors
    ///
    /// Returns the first check that fails. The console's own bytes are checked first, then those of its port, both in
    /// the order of [`SavedStateError`]. A console never fails with [`SavedStateError::InvalidArmed`].
    pub fn from_bytes(bytes: &[u8]) -> Result<Console, SavedStateError>
        ensures encoding { IfOk result (λ console. bytes.now ≡ console_encoding (state_of console)) }
        ensures at_most_64 { IfOk result (λ console. console.port.in_buffer.len ≤ fifo_size) }
        ensures read { (state : ConsoleState) → IsConsole state → bytes.now ≡ console_encoding state →
            IsOkAnd result (λ console. state_of console ≡ state) }
        ensures fault { result_err result ≡ console_fault bytes.now }
    {
        let (flags, dropped, output, port) = decode_console(bytes)?;
        Ok(Console {
            port: Uart::from_bytes(port)?,
            output: OutputRing::from_slice(output),
            dropped,
            is_polled: flags & POLLED_BIT,
            is_ready: flags & READY_BIT,
            is_asleep: flags & ASLEEP_BIT,
            is_refused: flags & REFUSED_BIT,
        })
    }

    /// Becomes the console that these bytes save. If they are refused, nothing changes.
    ///
    /// # Errors
    ///
    /// Returns the errors of [`from_bytes`](Self::from_bytes).
    pub fn load(&mut self, bytes: &[u8]) -> Result<(), SavedStateError>
        ensures fault { result_err result ≡ console_fault bytes.now }
        ensures loaded { IfOk result (λ _. bytes.now ≡ console_encoding (state_of self.new)) }
        ensures read { (state : ConsoleState) → IsConsole state → bytes.now ≡ console_encoding state →
            IsOkAnd result (λ _. state_of self.new ≡ state) }
        ensures at_most_64 { IfOk result (λ _. self.new.port.in_buffer.len ≤ fifo_size) }
        ensures refused { IfErr result (λ _. self.new ≡ self.old) }
    {
        *self = Console::from_bytes(bytes)?;
        Ok(())
    }
}

// ---- the parts of the calls

impl Console {
    ghost use Rattle.std.specs.Prelude.{◌∷◌, [], ◌++◌, ◌&&◌, if◌then◌else◌, IsTrue, true};
    ghost use Rattle.superio_laws.specs.Serial.{conditions_due, step_calls, Write, irq_level};
    ghost use Rattle.superio_console.specs.Console.{port_after, interrupts_of, output_after, output_after_byte, dropped_after_byte, dropped_with, sent_at, input_room, owes_turn, has_waiting_input, shows_ready, names_more};

    /// How many bytes of input may go in now.
    #[inline(always)]
    fn input_room(&self) -> usize
        ensures value { result ≡ input_room (state_of self.now) }
        ensures at_most_64 { result ≤ fifo_size }
    {
        let is_open = (self.is_ready != 0 || self.is_polled != 0) && self.is_asleep == 0;
        if is_open && !self.port.registers.is_loopback() {
            self.port.fifo_capacity()
        } else {
            0
        }
    }

    /// Whether the event loop has to come back.
    #[inline(always)]
    fn owes_turn(&self) -> bool
        ensures { result ≡ owes_turn (state_of self.now) }
    {
        self.has_waiting_input() || self.is_refused != 0 && self.port.interrupt_line()
    }

    /// Whether bytes are held, and IER enables RDA.
    #[inline(always)]
    fn has_waiting_input(&self) -> bool
        ensures { result ≡ has_waiting_input (state_of self.now).port }
    {
        !self.port.in_buffer.is_empty() && self.port.registers.enables(Condition::Rda)
    }

    /// Whether the FIFO is full, and a read at this offset may make room. No other read changes the wants.
    #[inline(always)]
    fn may_end_full(&self, offset: u8) -> bool
        ensures { result ≡ ((offset == 0) && (fifo_size - length (state_of self.now).port.in_buffer == 0)) }
    {
        offset == DATA_OFFSET && self.port.fifo_capacity() == 0
    }

    /// Reads the port when its FIFO is full and the read may make room, so that the event loop has to learn of it.
    fn read_full(&mut self, offset: u8) -> ConsoleRead
        requires full { IsTrue ((offset == 0) && (fifo_size - length (state_of self.old).port.in_buffer == 0)) }
        ensures byte { result.byte ≡ shown_at offset (state_of self.old).port }
        ensures work { result.work ≡ work_of (Reads offset) (state_of self.old) }
        ensures at_most_1 { result.work.interrupts ≤ 1 }
        ensures state { state_of self.new ≡ after (Reads offset) (state_of self.old) }
        ensures coherent { CoherentUart self.old.port → CoherentUart self.new.port }
    {
        let (byte, interrupts) = self.read_port(offset);
        let work = Work {
            interrupts,
            is_up: self.port.interrupt_line(),
            wakes: self.input_room() > 0,
        };
        ConsoleRead { byte, work }
    }

    /// Reads the port, and makes the character timeout that is due after a read of IIR that shows nothing pending. Such a
    /// read ends a refusal. Returns the byte, and how often to raise the interrupt.
    #[inline(always)]
    #[tactic(auto, unfolding(superio_core::specs::Bits::has_bits))]
    fn read_port(&mut self, offset: u8) -> (u8, u8)
        ensures byte { result.0 ≡ shown_at offset (state_of self.old).port }
        ensures interrupts { result.1 ≡ interrupts_of (Reads offset) (state_of self.old) }
        ensures at_most_1 { result.1 ≤ 1 }
        ensures state { state_of self.new ≡ after (Reads offset) (state_of self.old) }
        ensures coherent { CoherentUart self.old.port → CoherentUart self.new.port }
    {
        let byte = self.port.read(offset).byte;
        if offset != IIR_OFFSET {
            return (byte, 0);
        }
        self.is_refused = 0;
        if byte & IIR_NONE_BIT != IIR_NONE_BIT {
            return (byte, 0);
        }
        (byte, self.port.character_timeout())
    }

    /// The port accepts the first bytes of the input, as many as may go in now. Returns how many, and how often to
    /// raise the interrupt.
    #[inline(always)]
    #[tactic(auto, using(crate::proofs::Lemmas::Room::take_fewer))]
    fn receive_port(&mut self, input: &[u8]) -> (usize, u8)
        ensures accepted { result.0 ≡ min (length input.now) (input_room (state_of self.old)) }
        ensures interrupts { result.1 ≡ interrupts_of (Receives input.now) (state_of self.old) }
        ensures at_most_1 { result.1 ≤ 1 }
        ensures state { state_of self.new ≡ after (Receives input.now) (state_of self.old) }
        ensures coherent { CoherentUart self.old.port → CoherentUart self.new.port }
    {
        let count = input.len().min(self.input_room());
        let effects = self.port.enqueue_raw_bytes(&input[..count]);
        (effects.accepted, effects.interrupts)
    }

    /// Writes the port. A byte that the guest sends waits, or is dropped. Returns how often to raise the interrupt.
    #[inline(always)]
    fn write_port(&mut self, offset: u8, value: u8) -> u8
        ensures interrupts { result ≡ step_calls (state_of self.old).port (Write offset value) }
        ensures at_most_2 { result ≤ 2 }
        ensures state { state_of self.new ≡ record (state_of self.old) {
          port = port_after (Writes offset value) (state_of self.old);
          output = output_after (Writes offset value) (state_of self.old);
          dropped = dropped_with (sent_at (Writes offset value) (state_of self.old)) (state_of self.old).output self.old.dropped;
        } }
        ensures coherent { CoherentUart self.old.port → CoherentUart self.new.port }
    {
        let effects = self.port.write(offset, value);
        if effects.sends {
            self.push(value);
        }
        effects.interrupts
    }

    /// A byte that the guest sends waits, or is dropped and counted if there is no room.
    #[inline(always)]
    fn push(&mut self, byte: u8)
        ensures output { (state_of self.new).output ≡ output_after_byte byte (state_of self.old).output }
        ensures dropped { self.new.dropped ≡ dropped_after_byte (state_of self.old).output self.old.dropped }
        ensures others { self.new ≡ record self.old { output = self.new.output; dropped = self.new.dropped } }
    {
        if !self.output.push(byte) {
            let dropped = &mut self.dropped;
            *dropped = dropped.saturating_add(1);
        }
    }

    /// A write at the offset of IER that leaves RDA enabled, and not THRE, shows that the guest's driver is ready, and
    /// awake.
    #[inline(always)]
    fn look_at_ier(&mut self, offset: u8)
        ensures state { state_of self.new ≡ record (state_of self.old) {
          is_ready = (state_of self.old).is_ready
              || ((offset == 1) && shows_ready (state_of self.old).port.interrupt_enable);
          is_asleep = (state_of self.old).is_asleep
              && not ((offset == 1) && shows_ready (state_of self.old).port.interrupt_enable);
        } }
        ensures port { self.new.port ≡ self.old.port }
    {
        let registers = &self.port.registers;
        if offset == IER_OFFSET
            && registers.enables(Condition::Rda)
            && !registers.enables(Condition::Thre)
        {
            self.is_ready = 1;
            self.is_asleep = 0;
        }
    }

    /// How often a call asks for the interrupt, if its step asks `raised` times. After a refusal, a call that retries
    /// asks once for each condition that is pending and enabled instead.
    #[inline(always)]
    fn retry(&mut self, retries: bool, raised: u8) -> u8
        ensures interrupts { result
            ≡ (if (state_of self.old).is_refused && retries then length (conditions_due (state_of self.old).port)
            else raised) }
        ensures at_most_2 { raised ≤ 2 → result ≤ 2 }
        ensures state { state_of self.new ≡ record (state_of self.old) {
          is_refused =
              if retries then (state_of self.old).is_refused && (length (conditions_due (state_of self.old).port) == 0)
              else (state_of self.old).is_refused;
        } }
        ensures port { self.new.port ≡ self.old.port }
    {
        if self.is_refused == 0 || !retries {
            return raised;
        }
        let due = self.port.interrupts_due();
        if due > 0 {
            self.is_refused = 0;
        }
        due
    }

    /// The work that a call leaves. `before` are the wants before the call.
    #[inline(always)]
    fn work(&self, before: Wants, interrupts: u8) -> Work
        ensures { result ≡ record {
          interrupts = interrupts;
          is_up = irq_level (state_of self.now).port;
          wakes = names_more before (wants_of (state_of self.now));
        } }
    {
        let after = self.wants();
        let wakes = before.input == 0 && after.input != 0
            || !before.output && after.output
            || !before.turn && after.turn;
        Work {
            interrupts,
            is_up: self.port.interrupt_line(),
            wakes,
        }
    }
}

/// Whether a write at this offset may change the wants: it may at the offsets of THR, IER and MCR.
#[inline(always)]
fn may_change_wants(offset: u8) -> bool
    ensures { result ≡ ((offset == 0) || (offset == 1) || (offset == 4)) }
{
    matches!(offset, DATA_OFFSET | IER_OFFSET | MCR_OFFSET)
}
