// SPDX-License-Identifier: Apache-2.0 OR BSD-3-Clause
//! Serial ports for the tests, and the steps that a test takes with one.
use board_objects::{Counts, Line, LineRefused, Output};
use std::alloc::{AllocError, Global};
use std::io;
use std::io::{ErrorKind, Write};
use std::process::Abort;
use vm_superio::serial::{Error, Refused};
use vm_superio::{Serial, SerialState};

// ---- offsets

pub const RBR: u8 = 0;

pub const THR: u8 = 0;

pub const DLL: u8 = 0;

pub const IER: u8 = 1;

pub const DLM: u8 = 1;

pub const IIR: u8 = 2;

pub const LCR: u8 = 3;

pub const MCR: u8 = 4;

pub const LSR: u8 = 5;

pub const MSR: u8 = 6;

pub const SCR: u8 = 7;

// ---- ports

/// A port whose trigger and events object count their calls.
pub type TestSerial<W> = Serial<Line, Counts, W>;

/// A fresh port over a line that refuses the calls of this mask.
pub fn fresh<W: Write + Drop>(
    alloc: Global,
    mask: u64,
    out: W,
) -> Result<TestSerial<W>, Error<LineRefused>> {
    Serial::with_events(alloc, Line::new(mask), Counts::new(), out).map_err(Refused::into_error)
}

/// A port of this state over a line that refuses the calls of this mask.
pub fn restored<W: Write + Drop>(
    alloc: Global,
    state: &SerialState,
    mask: u64,
    out: W,
) -> Result<TestSerial<W>, Error<LineRefused>> {
    let made = Serial::from_state(alloc, state, Line::new(mask), Counts::new(), out);
    made.map_err(Refused::into_error)
}

/// A fresh port over a line that refuses the calls of this mask. The test ends if there is no memory.
pub fn made<W: Write + Drop>(rt: &impl Abort, alloc: Global, mask: u64, out: W) -> TestSerial<W> {
    fresh(alloc, mask, out).ok().expect(rt, "a port")
}

/// A port of a state, which has to be made, over a line that refuses the calls of this mask.
pub fn remade<W: Write + Drop>(
    rt: &impl Abort,
    alloc: Global,
    state: &SerialState,
    mask: u64,
    out: W,
) -> TestSerial<W> {
    restored(alloc, state, mask, out).ok().expect(rt, "a port")
}

/// The state of a port.
pub fn state_of<W: Write>(rt: &impl Abort, alloc: Global, port: &TestSerial<W>) -> SerialState {
    port.state(alloc).ok().expect(rt, "a state")
}

/// Whether a port has this state.
pub fn has_state<W: Write>(alloc: Global, port: &TestSerial<W>, state: &SerialState) -> bool {
    match port.state(alloc) {
        Ok(found) => found == *state,
        Err(_) => false,
    }
}

/// Whether a port has the default state.
pub fn is_fresh<W: Write>(alloc: Global, port: &TestSerial<W>) -> bool {
    has_state(alloc, port, &SerialState::default(alloc))
}

/// Some fields of a state. The others are as in a fresh port.
#[derive(Clone, Copy)]
pub struct Fields {
    pub iir: u8,
    pub ier: u8,
    pub lsr: u8,
    pub held: &'static [u8],
}

impl Fields {
    /// The state with these fields.
    pub fn state(&self, alloc: Global) -> Result<SerialState, AllocError> {
        let in_buffer = self.held.to_vec(alloc)?;
        Ok(SerialState {
            interrupt_identification: self.iir,
            interrupt_enable: self.ier,
            line_status: self.lsr,
            in_buffer,
            ..SerialState::default(alloc)
        })
    }
}

/// The state with these fields. The test ends if there is no memory.
pub fn state_with(rt: &impl Abort, alloc: Global, fields: Fields) -> SerialState {
    fields.state(alloc).ok().expect(rt, "a state")
}

/// A writer that has room for a number of bytes and takes none after them, or a writer whose flush fails.
#[derive(Drop)]
pub struct Narrow {
    taken: Output,
    room: usize,
    flush_fails: bool,
}

impl Narrow {
    /// A writer with room for `room` bytes.
    pub fn with_room(room: usize) -> Narrow {
        Narrow {
            taken: Output::new(),
            room,
            flush_fails: false,
        }
    }

    /// A writer that takes bytes and does not flush them.
    pub fn without_flush() -> Narrow {
        Narrow {
            taken: Output::new(),
            room: 256,
            flush_fails: true,
        }
    }

    /// For how many bytes there is room.
    pub fn room(&self) -> usize {
        self.room
    }

    /// The bytes taken, oldest first.
    pub fn bytes(&self) -> &[u8] {
        self.taken.bytes()
    }
}

impl Write for Narrow {
    fn write(&mut self, buf: &[u8]) -> io::Result<usize> {
        let fitting = buf.len().min(self.room);
        let count = self.taken.write(&buf[..fitting])?;
        self.room = self.room.saturating_sub(count);
        Ok(count)
    }

    fn flush(&mut self) -> io::Result<()> {
        if self.flush_fails {
            Err(io::Error::from(ErrorKind::Other))
        } else {
            Ok(())
        }
    }
}

// ---- steps

/// A call to a port, or a look at it, and what it has to show.
#[derive(Clone, Copy)]
pub enum Step {
    /// A read at this offset gives this byte.
    Read(u8, u8),
    /// A write at this offset of this value returns `Ok`.
    Write(u8, u8),
    /// Such a write returns the trigger's refusal.
    WriteRefused(u8, u8),
    /// Such a write returns the writer's fault, which is of this kind.
    WriteFails(u8, u8, ErrorKind),
    /// An enqueue of these bytes accepts this many of them.
    Enqueue(&'static [u8], usize),
    /// An enqueue of these bytes returns the trigger's refusal.
    EnqueueRefused(&'static [u8]),
    /// An enqueue of these bytes returns that the FIFO is full.
    EnqueueFull(&'static [u8]),
    /// A character timeout returns `Ok`.
    Timeout,
    /// A character timeout returns the trigger's refusal.
    TimeoutRefused,
    /// A restore of the state over new objects succeeds. The steps after it are taken with the new port.
    Restore,
    /// The FIFO has room for this many bytes.
    Room(usize),
    /// The trigger was called this many times.
    Calls(u64),
    /// The events object was told this many times of a byte read, of one sent, of one lost, and of an empty FIFO.
    Events([u64; 4]),
    /// The writer holds these bytes.
    Written(&'static [u8]),
    /// The state has this IIR, which a look at it does not change.
    Iir(u8),
}

/// Whether a write failed by a fault of this kind.
fn failed_by(written: &Result<(), Error<LineRefused>>, kind: ErrorKind) -> bool {
    match written {
        Err(Error::IOError(fault)) => fault.kind() == kind,
        _ => false,
    }
}

/// How often the events object was told of a byte read, sent and lost, and of an empty FIFO.
fn events(port: &TestSerial<Narrow>) -> [u64; 4] {
    let counts = port.events();
    [
        counts.buffer_read_count(),
        counts.out_byte_count(),
        counts.tx_lost_byte_count(),
        counts.in_buffer_empty_count(),
    ]
}

/// Puts a port of the same state over new objects in the place of a port, and returns whether it could be made.
fn restore(alloc: Global, port: &mut TestSerial<Narrow>) -> bool {
    let Ok(state) = port.state(alloc) else {
        return false;
    };
    match restored(alloc, &state, 0, Narrow::with_room(256)) {
        Ok(new) => {
            *port = new;
            true
        }
        Err(_) => false,
    }
}

/// Whether a write succeeds.
fn writes(port: &mut TestSerial<Narrow>, offset: u8, value: u8) -> bool {
    port.write(offset, value).is_ok()
}

/// Whether the trigger refuses in a write.
fn is_refused(port: &mut TestSerial<Narrow>, offset: u8, value: u8) -> bool {
    matches!(port.write(offset, value), Err(Error::Trigger(LineRefused)))
}

/// Whether the writer fails in a write, by a fault of this kind.
fn fails(port: &mut TestSerial<Narrow>, offset: u8, value: u8, kind: ErrorKind) -> bool {
    failed_by(&port.write(offset, value), kind)
}

/// Whether an enqueue accepts this many bytes.
fn accepts(port: &mut TestSerial<Narrow>, bytes: &[u8], count: usize) -> bool {
    matches!(port.enqueue_raw_bytes(bytes), Ok(accepted) if accepted == count)
}

/// Whether the trigger refuses in an enqueue.
fn is_enqueue_refused(port: &mut TestSerial<Narrow>, bytes: &[u8]) -> bool {
    matches!(
        port.enqueue_raw_bytes(bytes),
        Err(Error::Trigger(LineRefused))
    )
}

/// Whether an enqueue finds the FIFO full.
fn finds_full(port: &mut TestSerial<Narrow>, bytes: &[u8]) -> bool {
    matches!(port.enqueue_raw_bytes(bytes), Err(Error::FullFifo))
}

/// Whether a character timeout succeeds.
fn times_out(port: &mut TestSerial<Narrow>) -> bool {
    port.character_timeout().is_ok()
}

/// Whether the trigger refuses in a character timeout.
fn is_timeout_refused(port: &mut TestSerial<Narrow>) -> bool {
    matches!(port.character_timeout(), Err(Error::Trigger(LineRefused)))
}

/// Whether the events object was told this often of each event.
fn reports(port: &TestSerial<Narrow>, counts: [u64; 4]) -> bool {
    events(port) == counts
}

/// Whether the writer holds these bytes.
fn has_written(port: &TestSerial<Narrow>, bytes: &[u8]) -> bool {
    port.writer().bytes() == bytes
}

/// Whether the state has this IIR.
fn keeps_iir(alloc: Global, port: &TestSerial<Narrow>, iir: u8) -> bool {
    match port.state(alloc) {
        Ok(state) => state.interrupt_identification == iir,
        Err(_) => false,
    }
}

/// Takes a step, and returns whether it shows what it has to.
fn shows(alloc: Global, port: &mut TestSerial<Narrow>, step: Step) -> bool {
    match step {
        Step::Read(offset, byte) => port.read(offset) == byte,
        Step::Write(offset, value) => writes(port, offset, value),
        Step::WriteRefused(offset, value) => is_refused(port, offset, value),
        Step::WriteFails(offset, value, kind) => fails(port, offset, value, kind),
        Step::Enqueue(bytes, count) => accepts(port, bytes, count),
        Step::EnqueueRefused(bytes) => is_enqueue_refused(port, bytes),
        Step::EnqueueFull(bytes) => finds_full(port, bytes),
        Step::Timeout => times_out(port),
        Step::TimeoutRefused => is_timeout_refused(port),
        Step::Restore => restore(alloc, port),
        Step::Room(room) => port.fifo_capacity() == room,
        Step::Calls(calls) => port.interrupt_evt().calls() == calls,
        Step::Events(counts) => reports(port, counts),
        Step::Written(bytes) => has_written(port, bytes),
        Step::Iir(iir) => keeps_iir(alloc, port, iir),
    }
}

/// The number of the first step, from 0, that does not show what it has to. The steps after it are not taken.
pub fn first_wrong(alloc: Global, port: &mut TestSerial<Narrow>, steps: &[Step]) -> Option<usize> {
    for (number, step) in steps.iter().enumerate() {
        if !shows(alloc, port, *step) {
            return Some(number);
        }
    }
    None
}

/// Takes these steps, and fails at the first that shows something else than it should.
pub fn all_show(rt: &impl Abort, alloc: Global, port: &mut TestSerial<Narrow>, steps: &[Step]) {
    assert_eq!(rt;
        first_wrong(alloc, port, steps),
        None,
        "the step that is wrong"
    );
}

/// Takes these steps with a fresh port over a line that refuses the calls of this mask and a writer with room.
pub fn fresh_shows<R: Abort + AllocGlobal>(rt: &R, mask: u64, steps: &[Step]) {
    fresh_over_shows(rt, mask, Narrow::with_room(256), steps);
}

/// Does the same over this writer.
pub fn fresh_over_shows<R: Abort + AllocGlobal>(rt: &R, mask: u64, out: Narrow, steps: &[Step]) {
    let mut port = made(rt, rt.alloc(), mask, out);
    all_show(rt, rt.alloc(), &mut port, steps);
}

/// Takes these steps with a port of a state with these fields, over objects that were not called and refuse nothing.
pub fn restored_shows<R: Abort + AllocGlobal>(rt: &R, fields: Fields, steps: &[Step]) {
    let state = state_with(rt, rt.alloc(), fields);
    let mut port = remade(rt, rt.alloc(), &state, 0, Narrow::with_room(256));
    all_show(rt, rt.alloc(), &mut port, steps);
}

/// Whether the port takes each of the bytes 0x00 to 0x3F that a guest writes to THR.
pub fn takes_sixty_four(port: &mut TestSerial<Narrow>) -> bool {
    for byte in 0..=0x3F {
        if !writes(port, THR, byte) {
            return false;
        }
    }
    true
}
