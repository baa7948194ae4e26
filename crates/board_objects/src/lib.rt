// SPDX-License-Identifier: Apache-2.0 OR BSD-3-Clause
//! The objects that the devices of a board own: the interrupt line, the counts of events and the output.
#![tactic(auto)]

ghost use Rattle.std.specs.Prelude.{◌≡◌, ◌≤◌, ◌-◌, Some, [], codes, length, min};
ghost use Rattle.std.specs.Io.KnownBytes.{WriteAppends, Keeps};
ghost use Rattle.std.specs.Io.{WritesAtMost};

use arrayvec::ArrayVec;
use std::error::Error;
use std::io::Write;
use std::{fmt, io};
use vm_superio::Trigger;
use vm_superio::rtc_pl031::RtcEvents;
use vm_superio::serial::SerialEvents;

// ---- the interrupt line

/// The refusal of a call of a [`Line`], displayed as `line refused`.
#[derive(Clone, Copy, Debug, PartialEq, Eq)]
pub struct LineRefused;

impl fmt::Display for LineRefused {
    ghost output = { λ _. Some (codes "line refused") };

    fn fmt<W: fmt::Write>(&self, f: &mut fmt::Formatter<W>) -> fmt::Result {
        write!(f, "line refused")
    }
}

impl Error for LineRefused {}

/// An interrupt line that counts its calls and refuses those in a mask.
///
/// Calls are numbered from 0. Call number k is refused if k is below 64 and bit k of the mask is set. Bit 0 is the
/// lowest. A refused call counts like any other.
#[derive(Clone, Copy)]
pub struct Line {
    calls: u64,
    mask: u64,
}

impl Line {
    ghost use Rattle.board_objects.specs.Objects.{fresh_interrupt_line};

    /// An interrupt line that was never called. Bit k of `mask` names call number k. A mask of 0 refuses no call.
    pub fn new(mask: u64) -> Line
        ensures { result ≡ fresh_interrupt_line mask }
    {
        Line { calls: 0, mask }
    }

    /// How often the line was called, refused calls included. The count saturates at 2^64 - 1.
    pub fn calls(&self) -> u64
        ensures { result ≡ self.now.calls }
    {
        self.calls
    }

    /// The mask of the calls that the line refuses.
    pub fn mask(&self) -> u64
        ensures { result ≡ self.now.mask }
    {
        self.mask
    }
}

impl Trigger for Line {
    type E = LineRefused;

    ghost use Rattle.board_objects.specs.Objects.{InterruptLineLink, InterruptLineLink-append};

    ghost link = { InterruptLineLink };

    ghost empty = { λ x y. (λ same. same, λ same. same) };

    ghost append = { InterruptLineLink-append };

    fn trigger(&mut self) -> Result<(), LineRefused> {
        let number = self.calls;
        self.calls = number.saturating_add(1);
        if number < 64 && self.mask >> number & 1 == 1 {
            Err(LineRefused)
        } else {
            Ok(())
        }
    }
}

// ---- counts of the events that devices report

/// An events object that counts how often a serial port or a clock reported each event. Counts saturate at 2^64 - 1.
#[derive(Clone, Copy)]
pub struct Counts {
    buffer_reads: u64,
    out_bytes: u64,
    tx_lost_bytes: u64,
    in_buffer_empties: u64,
    invalid_reads: u64,
    invalid_writes: u64,
}

impl Counts {
    ghost use Rattle.board_objects.specs.Objects.{no_counts, saturating_increment};

    /// Counts of 0.
    pub fn new() -> Counts
        ensures { result ≡ no_counts }
    {
        Counts {
            buffer_reads: 0,
            out_bytes: 0,
            tx_lost_bytes: 0,
            in_buffer_empties: 0,
            invalid_reads: 0,
            invalid_writes: 0,
        }
    }

    /// How often the guest read the receive buffer register (RBR).
    pub fn buffer_read_count(&self) -> u64
        ensures { result ≡ self.now.buffer_reads }
    {
        self.buffer_reads
    }

    /// How many bytes the writer took.
    pub fn out_byte_count(&self) -> u64
        ensures { result ≡ self.now.out_bytes }
    {
        self.out_bytes
    }

    /// How many bytes were lost because the writer failed.
    pub fn tx_lost_byte_count(&self) -> u64
        ensures { result ≡ self.now.tx_lost_bytes }
    {
        self.tx_lost_bytes
    }

    /// How many RBR reads left no byte to receive.
    pub fn in_buffer_empty_count(&self) -> u64
        ensures { result ≡ self.now.in_buffer_empties }
    {
        self.in_buffer_empties
    }

    /// How often the guest read the clock at an offset that gives no value.
    pub fn invalid_read_count(&self) -> u64
        ensures { result ≡ self.now.invalid_reads }
    {
        self.invalid_reads
    }

    /// How often the guest wrote to the clock at an offset that takes no write.
    pub fn invalid_write_count(&self) -> u64
        ensures { result ≡ self.now.invalid_writes }
    {
        self.invalid_writes
    }

    /// Adds 1, up to 2^64 - 1.
    fn count(count: &mut u64)
        ensures { count.new ≡ saturating_increment count.old }
    {
        *count = count.saturating_add(1);
    }
}

impl SerialEvents for Counts {
    ghost use Rattle.vm_superio.specs.Links.ForAnyObject.{FoldsCalls, FoldsCalls-nil, FoldsCalls-append};
    ghost use Rattle.board_objects.specs.Objects.{counts_after_event};

    ghost link = { FoldsCalls counts_after_event };

    ghost empty = { FoldsCalls-nil };

    ghost append = { FoldsCalls-append };

    fn buffer_read(&mut self) {
        Counts::count(&mut self.buffer_reads);
    }

    fn out_byte(&mut self) {
        Counts::count(&mut self.out_bytes);
    }

    fn tx_lost_byte(&mut self) {
        Counts::count(&mut self.tx_lost_bytes);
    }

    fn in_buffer_empty(&mut self) {
        Counts::count(&mut self.in_buffer_empties);
    }
}

impl RtcEvents for Counts {
    ghost use Rattle.vm_superio.specs.Links.ForAnyObject.{FoldsCalls, FoldsCalls-nil, FoldsCalls-append};
    ghost use Rattle.board_objects.specs.Objects.{counts_after_clock_event};

    ghost link = { FoldsCalls counts_after_clock_event };

    ghost empty = { FoldsCalls-nil };

    ghost append = { FoldsCalls-append };

    fn invalid_read(&mut self) {
        Counts::count(&mut self.invalid_reads);
    }

    fn invalid_write(&mut self) {
        Counts::count(&mut self.invalid_writes);
    }
}

// ---- the output

/// A writer that keeps the first 256 bytes written to it.
///
/// A write takes as many of its bytes as there is room for and returns their number: 0 after 256 bytes. Writes and
/// flushes never fail.
#[derive(Drop)]
pub struct Output {
    bytes: ArrayVec<u8, 256>,
    ghost few: { length bytes.items ≤ 256 },
}

impl Output {
    ghost use Rattle.board_objects.specs.Objects.{written_bytes};

    /// An empty output.
    pub fn new() -> Output
        ensures { written_bytes result ≡ [] }
    {
        Output {
            bytes: ArrayVec::new(),
        }
    }

    /// The bytes taken, oldest first: at most 256.
    pub fn bytes(&self) -> &[u8]
        ensures { result.now ≡ written_bytes self.now }
    {
        self.bytes.as_slice()
    }
}

impl Write for Output {
    ghost use Rattle.board_objects.specs.Objects.{output_limit, written_bytes};

    ghost contents = { λ output. Some (written_bytes output) };

    fn write(&mut self, buf: &[u8]) -> io::Result<usize>
        ensures bound { WritesAtMost result buf.now }
        ensures bytes { WriteAppends (Some (written_bytes self.old)) (Some (written_bytes self.new)) result buf.now }
        ensures count { result ≡ Ok (min (output_limit - length (written_bytes self.old)) (length buf.now)) }
    {
        self.bytes.write(buf)
    }

    fn flush(&mut self) -> io::Result<()>
        ensures bytes { Keeps (Some (written_bytes self.old)) (Some (written_bytes self.new)) }
        ensures done { result ≡ Ok tt }
    {
        self.bytes.flush()
    }
}
