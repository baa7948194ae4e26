// SPDX-License-Identifier: Apache-2.0 OR BSD-3-Clause
//! A driver on the guest's side of a serial port.
ghost use Rattle.std.specs.Prelude.{◌≡◌, ◌≤◌, [], ◌++◌, length, false, IsTrue};
ghost use Rattle.vm_superio.specs.Serial.{fifo_size, has_bits, lcr_dlab_bit, lsr_dr_bit, Coherent, is_dlab};
ghost use Rattle.superio_script.specs.Driver.{ReadsWhileReady, TakesAll};

use arrayvec::ArrayVec;
use std::io::Write;
use vm_superio::serial::SerialEvents;
use vm_superio::{Serial, Trigger};

/// The offset of RBR, while DLAB is clear.
const RBR_OFFSET: u8 = 0;
/// The offset of LCR.
const LCR_OFFSET: u8 = 3;
/// The offset of LSR.
const LSR_OFFSET: u8 = 5;

/// LCR: the divisor latch is at offsets 0 and 1.
const LCR_DLAB_BIT: u8 = 0x80;
/// LSR: data ready.
const LSR_DATA_READY_BIT: u8 = 0x01;

/// Reads the bytes that a serial port holds, as a polling driver of a guest does: it reads RBR while LSR shows data
/// ready. Returns the bytes, oldest first. If DLAB is set, RBR cannot be reached: it returns no byte and makes no
/// further access.
///
/// If the port is in a coherent state and DLAB is clear, the driver gets all bytes that the port holds. In any state it
/// stops after at most 64 reads of RBR. It allocates no memory.
pub fn drain<T: Trigger, EV: SerialEvents, W: Write>(
    serial: &mut Serial<T, EV, W>,
) -> ArrayVec<u8, 64>
    // In any state.
    ensures reads { ReadsWhileReady T.link EV.link W.contents result.items serial.old serial.new }
    ensures at_most_64 { length result.items ≤ fifo_size }
    ensures dlab_reads_nothing { IsTrue (is_dlab serial.old.state.line_control) → result.items ≡ [] }
    ensures stops_when_not_ready { is_dlab serial.old.state.line_control ≡ false
        → has_bits serial.new.state.line_status lsr_dr_bit ≡ false }
    ensures trigger { serial.new.trigger ≡ serial.old.trigger }
    ensures out { serial.new.out ≡ serial.old.out }

    // From a coherent state.
    ensures all { Coherent serial.old.state → is_dlab serial.old.state.line_control ≡ false
        → TakesAll EV.link result.items serial.old serial.new }
    ensures no_loss { Coherent serial.old.state
        → result.items ++ serial.new.state.in_buffer ≡ serial.old.state.in_buffer }
    ensures coherent { Coherent serial.old.state → Coherent serial.new.state }
{
    let mut bytes = ArrayVec::new();
    if shows_latch(serial.read(LCR_OFFSET)) {
        return bytes;
    }
    while has_data_ready(serial.read(LSR_OFFSET)) {
        bytes.push(serial.read(RBR_OFFSET));
    }
    bytes
}

/// Whether LCR has DLAB set.
#[tactic(auto, unfolding(superio_core::specs::Bits::has_bits))]
fn shows_latch(line_control: u8) -> bool
    ensures { result ≡ has_bits line_control lcr_dlab_bit }
{
    line_control & LCR_DLAB_BIT == LCR_DLAB_BIT
}

/// Whether LSR has data ready set.
#[tactic(auto, unfolding(superio_core::specs::Bits::has_bits))]
fn has_data_ready(line_status: u8) -> bool
    ensures { result ≡ has_bits line_status lsr_dr_bit }
{
    line_status & LSR_DATA_READY_BIT == LSR_DATA_READY_BIT
}
