// SPDX-License-Identifier: Apache-2.0 OR BSD-3-Clause
//! The objects that tests give to a device: a trigger, an events object and a writer, which share a log; the faults of
//! writers; and what is drawn, each by its number.
#![tactic(auto)]

ghost use Rattle.std.specs.Prelude.{IfOk};
ghost use Rattle.vm_superio.specs.Claims.{dlab_clear, not_in_loopback};
ghost use Rattle.vm_superio.specs.Links.ForAnyObject.{AnyCalls, AnyCalls-nil, AnyCalls-append};

use board_objects::LineRefused;
use std::alloc::{AllocError, Global};
use std::cell::Cell;
use std::io;
use std::io::{ErrorKind, Write};
use vm_superio::rtc_pl031::RtcEvents;
use vm_superio::run::Call;
use vm_superio::serial::{Error, NoEvents, Refused, SerialEvents};
use vm_superio::{RtcState, Serial, SerialState, Trigger};

// ---- what is drawn

/// A number that a seed gives, by the generator splitmix64.
pub fn drawn(seed: u64) -> u64 {
    let mixed = seed.wrapping_add(1).wrapping_mul(0x9E37_79B9_7F4A_7C15);
    let mixed = (mixed ^ (mixed >> 30)).wrapping_mul(0xBF58_476D_1CE4_E5B9);
    let mixed = (mixed ^ (mixed >> 27)).wrapping_mul(0x94D0_49BB_1331_11EB);
    mixed ^ (mixed >> 31)
}

/// A state that holds this many bytes, with any values in its registers.
pub fn drawn_state(alloc: Global, seed: u64, held: usize) -> Result<SerialState, AllocError> {
    let [dll, dlm, ier, iir, lcr, lsr, mcr, msr] = drawn(seed).to_le_bytes();
    let [scratch, byte, ..] = drawn(!seed).to_le_bytes();
    Ok(SerialState {
        baud_divisor_low: dll,
        baud_divisor_high: dlm,
        interrupt_enable: ier,
        interrupt_identification: iir,
        line_control: lcr,
        line_status: lsr,
        modem_control: mcr,
        modem_status: msr,
        scratch,
        in_buffer: [byte].repeat(alloc, held)?,
    })
}

/// A state of a clock with any fields.
pub fn drawn_clock(seed: u64) -> RtcState {
    let [l0, l1, l2, l3, m0, m1, m2, m3] = drawn(seed).to_le_bytes();
    let [i0, i1, i2, i3, r0, r1, r2, r3] = drawn(!seed).to_le_bytes();
    let (lr, mr) = (
        u32::from_le_bytes([l0, l1, l2, l3]),
        u32::from_le_bytes([m0, m1, m2, m3]),
    );
    let (imsc, ris) = (
        u32::from_le_bytes([i0, i1, i2, i3]),
        u32::from_le_bytes([r0, r1, r2, r3]),
    );
    let offset = i64::from_le_bytes(drawn(drawn(seed)).to_le_bytes());
    RtcState {
        armed: seed % 2 == 0,
        ..RtcState::from_five(lr, offset, mr, imsc, ris)
    }
}

/// How many sizes there are.
pub const SIZES: u64 = 64;

/// The size of a number below [`SIZES`]: those about the powers of two up to 256, and any below 2,000.
pub fn size_of(number: u64) -> usize {
    match number {
        0..=8 => 1 << number,
        9..=17 => (1 << (number - 9)) - 1,
        18..=26 => (1 << (number - 18)) + 1,
        _ => (drawn(number) % 2_000) as usize,
    }
}

// ---- faults

/// How many faults there are.
pub const FAULTS: i32 = 544;

/// The fault of a number below [`FAULTS`]: by each number of the system, by each kind alone, by a kind with any text,
/// and by any number. An interrupted call is repeated, so it is left out.
pub fn fault_of(number: i32) -> io::Error {
    match number {
        4 => io::Error::from_raw_os_error(4_095),
        0..=133 => io::Error::from_raw_os_error(number),
        134..=271 => io::Error::from(kind_of(number - 134)),
        272..=409 => fault_with_text(kind_of(number - 272), number),
        _ => io::Error::from_raw_os_error(drawn_code(number)),
    }
}

/// Any number of the system.
fn drawn_code(seed: i32) -> i32 {
    let [b0, b1, b2, b3, ..] = drawn(u64::from(seed.unsigned_abs())).to_le_bytes();
    i32::from_le_bytes([b0, b1, b2, b3])
}

/// The kinds of the system's numbers, and the kinds that no number has. An interrupted call is repeated, so its kind is
/// left out.
fn kind_of(number: i32) -> ErrorKind {
    match number {
        4 => ErrorKind::UnexpectedEof,
        134 => ErrorKind::WriteZero,
        135 => ErrorKind::InvalidData,
        136 => ErrorKind::Other,
        137 => ErrorKind::Unsupported,
        _ => io::Error::from_raw_os_error(number).kind(),
    }
}

/// A fault of this kind with a text of up to 80 characters, or with a text that has characters outside ASCII.
fn fault_with_text(kind: ErrorKind, seed: i32) -> io::Error {
    let seed = u64::from(seed.unsigned_abs());
    let mut text = [b' '; 80];
    for place in 0..text.len() {
        text[place] = (drawn(seed.wrapping_add(place as u64)) % 95) as u8 + b' ';
    }
    let length = (drawn(seed) % 81) as usize;
    match str::from_utf8(&text[..length]) {
        Ok(text) if seed % 8 != 0 => io::Error::new(kind, text),
        _ => io::Error::new(kind, "l'hôte a fermé la connexion"),
    }
}

/// What a writer may do with a byte: take it; fail by the fault of this number; take nothing; or take it, and fail to
/// flush. It may be interrupted first: 300 times if 16 divides the number of the fault, and twice otherwise.
pub fn writings(number: i32) -> [Writing; 6] {
    let fault = fault_of(number);
    let takes = Writing::takes();
    let interrupted = Writing {
        interruptions: if number % 16 == 0 { 300 } else { 2 },
        ..takes
    };
    [
        takes,
        Writing::failing(fault),
        Writing {
            then: Then::Fails(fault),
            ..interrupted
        },
        Writing {
            then: Then::TakesNone,
            ..interrupted
        },
        Writing {
            flush: Some(fault),
            ..interrupted
        },
        interrupted,
    ]
}

/// What a call returned, and how often it called `write` and `flush` of its writer.
pub type Outcome = (io::Result<()>, [u64; 2]);

/// Whether two outcomes have the same calls, and a fault that prints the same.
pub fn is_same(alloc: Global, first: &Outcome, second: &Outcome) -> Result<bool, AllocError> {
    let texts = [
        format!(in alloc; "{first:?}")?,
        format!(in alloc; "{second:?}")?,
    ];
    Ok(texts[0] == texts[1])
}

// ---- objects

/// What a writer answers once it has no room left and is not interrupted.
#[derive(Clone, Copy)]
pub enum Then {
    Takes,
    /// Takes no byte, and fails none.
    TakesNone,
    Fails(io::Error),
}

/// What a writer does: it takes some bytes, then is interrupted some times, and then goes on like this. Its flush
/// fails if there is a fault for it.
#[derive(Clone, Copy)]
pub struct Writing {
    pub room: usize,
    pub interruptions: u64,
    pub then: Then,
    pub flush: Option<io::Error>,
}

impl Writing {
    /// Takes all bytes.
    pub fn takes() -> Writing {
        Writing {
            room: 0,
            interruptions: 0,
            then: Then::Takes,
            flush: None,
        }
    }

    /// Fails by this fault.
    pub fn failing(fault: io::Error) -> Writing {
        Writing {
            then: Then::Fails(fault),
            ..Writing::takes()
        }
    }
}

/// The outcome of std's own `write_all` over a writer that does this, piece by piece, and then of `flush`, if that is
/// to be called.
pub fn by_std(writing: Writing, pieces: &[&[u8]], flushes: bool) -> Outcome {
    let log = Log::new();
    log.start(writing);
    let mut writer = Object(&log);
    let mut result = Ok(());
    for piece in pieces {
        if result.is_ok() {
            result = writer.write_all(piece);
        }
    }
    if flushes && result.is_ok() {
        result = writer.flush();
    }
    log.outcome(result)
}

/// What objects do, and how often they were called.
#[derive(Drop)]
pub struct Log {
    pub triggers: Cell<u64>,
    pub events: Cell<u64>,
    pub writes: Cell<u64>,
    pub flushes: Cell<u64>,
    /// The number of the trigger call to refuse, from 1. 0: no call.
    pub refused: Cell<u64>,
    pub writing: Cell<Writing>,
    /// The last eight calls of a serial port, a letter each: `T`rigger, `W`rite, `F`lush, `o`ut, `l`ost, `e`mpty,
    /// `r`ead.
    pub order: Cell<u64>,
}

impl Log {
    /// Objects that were not called, and whose calls succeed.
    pub fn new() -> Log {
        Log {
            triggers: Cell::new(0),
            events: Cell::new(0),
            writes: Cell::new(0),
            flushes: Cell::new(0),
            refused: Cell::new(0),
            writing: Cell::new(Writing::takes()),
            order: Cell::new(0),
        }
    }

    /// Notes a call.
    pub fn note(&self, letter: u8) {
        let before = self.order.get().wrapping_mul(256);
        self.order.set(before.wrapping_add(u64::from(letter)));
    }

    /// Forgets how often the writer was called, and lets it do this.
    pub fn start(&self, writing: Writing) {
        self.writes.set(0);
        self.flushes.set(0);
        self.writing.set(writing);
    }

    /// The outcome of a call that returned this.
    pub fn outcome(&self, returned: io::Result<()>) -> Outcome {
        (returned, [self.writes.get(), self.flushes.get()])
    }

    /// How often the trigger, the events object, `write` and `flush` were called.
    pub fn calls(&self) -> [u64; 4] {
        [
            self.triggers.get(),
            self.events.get(),
            self.writes.get(),
            self.flushes.get(),
        ]
    }
}

/// These letters as `Log::order` has them.
pub fn in_order(letters: &[u8]) -> u64 {
    let mut order = 0u64;
    for letter in letters {
        order = order.wrapping_mul(256).wrapping_add(u64::from(*letter));
    }
    order
}

/// Counts a call, and returns its number, from 1.
fn counted(calls: &Cell<u64>) -> u64 {
    let number = calls.get().wrapping_add(1);
    calls.set(number);
    number
}

/// A trigger, an events object or a writer.
#[derive(Clone, Copy)]
pub struct Object<'a>(pub &'a Log);

/// A port over three objects of a log.
pub type TestSerial<'a> = Serial<Object<'a>, Object<'a>, Object<'a>>;

/// A call of such a port in a run.
pub type SerialCall<'a> = Call<Object<'a>, Object<'a>, Object<'a>>;

/// A new port.
pub fn port(alloc: Global, log: &Log) -> Result<TestSerial<'_>, Error<LineRefused>> {
    port_over(alloc, Object(log))
}

/// A new port over this object, which can be used beside it.
pub fn port_over(alloc: Global, object: Object<'_>) -> Result<TestSerial<'_>, Error<LineRefused>> {
    Serial::with_events(alloc, object, object, object).map_err(Refused::into_error)
}

/// A new port over this trigger, and a vector that keeps what is sent.
#[tactic(auto, unfolding(superio_core::specs::Bits::has_bits))]
pub fn port_over_vector(
    alloc: Global,
    object: Object<'_>,
) -> Result<Serial<Object<'_>, NoEvents, Vec<u8>>, Error<LineRefused>>
    ensures data { IfOk result (λ serial. dlab_clear serial) }
    ensures outside { IfOk result (λ serial. not_in_loopback serial) }
{
    Serial::new(alloc, object, Vec::new(alloc)).map_err(Refused::into_error)
}

impl Trigger for Object<'_> {
    type E = LineRefused;

    ghost link = { AnyCalls };

    ghost empty = { AnyCalls-nil };

    ghost append = { AnyCalls-append };

    fn trigger(&mut self) -> Result<(), LineRefused> {
        self.0.note(b'T');
        if counted(&self.0.triggers) == self.0.refused.get() {
            Err(LineRefused)
        } else {
            Ok(())
        }
    }
}

impl SerialEvents for Object<'_> {
    ghost link = { AnyCalls };

    ghost empty = { AnyCalls-nil };

    ghost append = { AnyCalls-append };

    fn buffer_read(&mut self) {
        self.0.note(b'r');
        counted(&self.0.events);
    }

    fn out_byte(&mut self) {
        self.0.note(b'o');
        counted(&self.0.events);
    }

    fn tx_lost_byte(&mut self) {
        self.0.note(b'l');
        counted(&self.0.events);
    }

    fn in_buffer_empty(&mut self) {
        self.0.note(b'e');
        counted(&self.0.events);
    }
}

impl RtcEvents for Object<'_> {
    ghost link = { AnyCalls };

    ghost empty = { AnyCalls-nil };

    ghost append = { AnyCalls-append };

    fn invalid_read(&mut self) {
        counted(&self.0.events);
    }

    fn invalid_write(&mut self) {
        counted(&self.0.events);
    }
}

impl Write for Object<'_> {
    fn write(&mut self, buf: &[u8]) -> io::Result<usize> {
        self.0.note(b'W');
        counted(&self.0.writes);
        let mut writing = self.0.writing.get();
        let answer = if writing.room > 0 {
            let count = buf.len().min(writing.room);
            writing.room -= count;
            Ok(count)
        } else if writing.interruptions > 0 {
            writing.interruptions -= 1;
            Err(io::Error::from(ErrorKind::Interrupted))
        } else {
            match writing.then {
                Then::Takes => Ok(buf.len()),
                Then::TakesNone => Ok(0),
                Then::Fails(fault) => Err(fault),
            }
        };
        self.0.writing.set(writing);
        answer
    }

    fn flush(&mut self) -> io::Result<()> {
        self.0.note(b'F');
        counted(&self.0.flushes);
        match self.0.writing.get().flush {
            Some(fault) => Err(fault),
            None => Ok(()),
        }
    }
}
