// SPDX-License-Identifier: Apache-2.0 OR BSD-3-Clause
//! The same console over `Serial`, with a trigger that counts its calls. A writer takes what the guest sends.
ghost use Rattle.std.specs.Prelude.{◌≡◌, ◌<◌, length, min, take, true, false, [], OnOk, IfOk, if◌then◌else◌};
ghost use Rattle.std.specs.Io.KnownBytes.{Appends, Keeps, append_known};
ghost use Rattle.vm_superio.specs.Claims.{held, Coherent, fresh_state, not_empty};
ghost use Rattle.vm_superio.specs.Serial.{count_if};
ghost use Rattle.superio_examples.specs.Echo.{IsOpen};

use super::{IER_RDA_BIT, IIR_NONE_BIT, LSR_DATA_READY_BIT};
use crate::triggers::Counter;
use std::alloc::Global;
use std::convert::Infallible;
use std::io::Write;
use vm_superio::Serial;
use vm_superio::serial::{Error, Refused, SerialEvents};

// ---- the driver

/// The driver opens a new port: it enables received data alone.
fn open<EV: SerialEvents, W: Write>(
    serial: &mut Serial<Counter, EV, W>,
) -> Result<(), Error<Infallible>>
    requires fresh { serial.old.state ≡ fresh_state }
    requires coherent { Coherent serial.old.state }
    ensures open { IsOpen serial.new.state }
    ensures none_held { held serial.new ≡ [] }
    ensures idle { serial.new.state.interrupt_identification ≡ 0x01 }
    ensures uncalled { serial.new.trigger ≡ serial.old.trigger }
    ensures out { serial.new.out ≡ serial.old.out }
    ensures coherent { Coherent serial.new.state }
{
    serial.write(1, IER_RDA_BIT)
}

/// Whether LSR shows that a byte is held.
fn has_data<EV: SerialEvents, W: Write>(serial: &mut Serial<Counter, EV, W>) -> bool
    requires coherent { Coherent serial.old.state }
    ensures data { result ≡ not_empty (held serial.old) }
    ensures rest_unchanged { serial.new ≡ serial.old }
{
    serial.read(5) & LSR_DATA_READY_BIT == LSR_DATA_READY_BIT
}

/// Takes the oldest byte and sends it back.
#[tactic(auto, using(crate::proofs::EchoLemmas::one_passed), unfolding(superio_core::specs::Bits::has_bits, superio_core::specs::Bits::only_bits, superio_core::specs::Bits::with_bits, superio_core::specs::Bits::without_bits))]
fn echo_byte<EV: SerialEvents, W: Write>(
    serial: &mut Serial<Counter, EV, W>,
) -> Result<(), Error<Infallible>>
    requires coherent { Coherent serial.old.state }
    requires open { IsOpen serial.old.state }
    requires idle { serial.old.state.interrupt_identification ≡ 0x01 }
    requires some { 0 < length (held serial.old) }
    ensures in_order { OnOk result (Keeps (append_known (W.contents serial.old.out) (held serial.old))
        (append_known (W.contents serial.new.out) (held serial.new))) }
    ensures fewer { length (held serial.new) < length (held serial.old) }
    ensures open { IsOpen serial.new.state }
    ensures idle { serial.new.state.interrupt_identification ≡ 0x01 }
    ensures coherent { Coherent serial.new.state }
    ensures uncalled { serial.new.trigger ≡ serial.old.trigger }
{
    let byte = serial.read(0);
    serial.write(0, byte)
}

/// Takes bytes and sends each back, until LSR shows none or it has taken `bound`.
#[tactic(auto)]
fn echo_up_to<EV: SerialEvents, W: Write>(
    serial: &mut Serial<Counter, EV, W>,
    bound: usize,
) -> Result<(), Error<Infallible>>
    requires coherent { Coherent serial.old.state }
    requires open { IsOpen serial.old.state }
    requires idle { serial.old.state.interrupt_identification ≡ 0x01 }
    ensures in_order { OnOk result (Keeps (append_known (W.contents serial.old.out) (held serial.old))
        (append_known (W.contents serial.new.out) (held serial.new))) }
    ensures fewer { OnOk result
        (0 < bound → 0 < length (held serial.old) → length (held serial.new) < length (held serial.old)) }
    ensures open { IsOpen serial.new.state }
    ensures idle { serial.new.state.interrupt_identification ≡ 0x01 }
    ensures coherent { Coherent serial.new.state }
    ensures uncalled { serial.new.trigger ≡ serial.old.trigger }
{
    for _ in 0..bound {
        if !has_data(serial) {
            return Ok(());
        }
        echo_byte(serial)?;
    }
    Ok(())
}

/// Whether IIR shows an interrupt.
fn finds_interrupt<EV: SerialEvents, W: Write>(serial: &mut Serial<Counter, EV, W>) -> bool
    requires coherent { Coherent serial.old.state }
    requires open { IsOpen serial.old.state }
    ensures none { serial.old.state.interrupt_identification ≡ 0x01 → result ≡ false }
    ensures some { serial.old.state.interrupt_identification ≡ 0x04 → result ≡ true }
    ensures idle { serial.new.state.interrupt_identification ≡ 0x01 }
    ensures held { held serial.new ≡ held serial.old }
    ensures out { serial.new.out ≡ serial.old.out }
    ensures open { IsOpen serial.new.state }
    ensures coherent { Coherent serial.new.state }
    ensures uncalled { serial.new.trigger ≡ serial.old.trigger }
{
    serial.read(2) & IIR_NONE_BIT == 0
}

/// The handler: reads IIR until nothing is pending, and echoes at most `bound` bytes after each read that shows an
/// interrupt. Since nothing is pending then, the monitor makes a character timeout.
fn run_handler<EV: SerialEvents, W: Write>(
    serial: &mut Serial<Counter, EV, W>,
    bound: usize,
) -> Result<(), Error<Infallible>>
    requires coherent { Coherent serial.old.state }
    requires open { IsOpen serial.old.state }
    requires pending { serial.old.state.interrupt_identification ≡ 0x04 }
    requires uncalled { serial.old.trigger.calls ≡ 0 }
    requires some { 0 < length (held serial.old) }
    requires bound { 0 < bound }
    ensures in_order { OnOk result (Keeps (append_known (W.contents serial.old.out) (held serial.old))
        (append_known (W.contents serial.new.out) (held serial.new))) }
    ensures fewer { OnOk result (length (held serial.new) < length (held serial.old)) }
    ensures called { OnOk result (serial.new.trigger.calls ≡ count_if (not_empty (held serial.new))) }
    ensures pending { OnOk result (serial.new.state.interrupt_identification
        ≡ (if not_empty (held serial.new) then 0x04 else 0x01)) }
    ensures open { IsOpen serial.new.state }
    ensures coherent { Coherent serial.new.state }
{
    while finds_interrupt(serial) {
        echo_up_to(serial, bound)?;
    }
    serial.character_timeout()
}

// ---- the monitor

/// Runs the handler as long as the trigger was called.
#[tactic(auto)]
fn serve<EV: SerialEvents, W: Write>(
    serial: &mut Serial<Counter, EV, W>,
    bound: usize,
) -> Result<(), Error<Infallible>>
    requires coherent { Coherent serial.old.state }
    requires open { IsOpen serial.old.state }
    requires called { serial.old.trigger.calls ≡ count_if (not_empty (held serial.old)) }
    requires pending { serial.old.state.interrupt_identification
        ≡ (if not_empty (held serial.old) then 0x04 else 0x01) }
    requires bound { 0 < bound }
    ensures in_order { OnOk result (Keeps (append_known (W.contents serial.old.out) (held serial.old))
        (append_known (W.contents serial.new.out) (held serial.new))) }
    ensures none_left { OnOk result (held serial.new ≡ []) }
    ensures idle { OnOk result (serial.new.state.interrupt_identification ≡ 0x01) }
    ensures uncalled { OnOk result (serial.new.trigger.calls ≡ 0) }
    ensures open { IsOpen serial.new.state }
    ensures coherent { Coherent serial.new.state }
{
    while serial.interrupt_evt().calls() > 0 {
        serial.interrupt_evt_mut().clear();
        run_handler(serial, bound)?;
    }
    Ok(())
}

/// A piece of input comes. Returns how many of its bytes fit. The trigger was called if any do.
fn receive<EV: SerialEvents, W: Write>(
    serial: &mut Serial<Counter, EV, W>,
    piece: &[u8],
) -> Result<usize, Error<Infallible>>
    requires coherent { Coherent serial.old.state }
    requires open { IsOpen serial.old.state }
    requires none_held { held serial.old ≡ [] }
    requires idle { serial.old.state.interrupt_identification ≡ 0x01 }
    requires uncalled { serial.old.trigger.calls ≡ 0 }
    ensures taken { IfOk result (λ taken. taken ≡ min 64 (length piece.now)) }
    ensures held { IfOk result (λ taken. held serial.new ≡ take taken piece.now) }
    ensures called { IfOk result (λ taken. serial.new.trigger.calls ≡ count_if (not_empty (held serial.new))) }
    ensures pending { IfOk result (λ taken. serial.new.state.interrupt_identification
        ≡ (if not_empty (held serial.new) then 0x04 else 0x01)) }
    ensures out { serial.new.out ≡ serial.old.out }
    ensures open { IsOpen serial.new.state }
    ensures coherent { Coherent serial.new.state }
{
    serial.enqueue_raw_bytes(piece)
}

/// A piece of input comes, and the driver echoes it. Returns how many of its bytes fit.
#[tactic(auto)]
fn echo_piece<EV: SerialEvents, W: Write>(
    serial: &mut Serial<Counter, EV, W>,
    bound: usize,
    piece: &[u8],
) -> Result<usize, Error<Infallible>>
    requires coherent { Coherent serial.old.state }
    requires open { IsOpen serial.old.state }
    requires none_held { held serial.old ≡ [] }
    requires idle { serial.old.state.interrupt_identification ≡ 0x01 }
    requires uncalled { serial.old.trigger.calls ≡ 0 }
    requires bound { 0 < bound }
    ensures sent { IfOk result (λ taken.
        Appends (W.contents serial.old.out) (W.contents serial.new.out) (take taken piece.now)) }
    ensures taken { IfOk result (λ taken. taken ≡ min 64 (length piece.now)) }
    ensures none_left { IfOk result (λ taken. held serial.new ≡ []) }
    ensures idle { IfOk result (λ taken. serial.new.state.interrupt_identification ≡ 0x01) }
    ensures uncalled { IfOk result (λ taken. serial.new.trigger.calls ≡ 0) }
    ensures open { IsOpen serial.new.state }
    ensures coherent { Coherent serial.new.state }
{
    let taken = receive(serial, piece)?;
    serve(serial, bound)?;
    Ok(taken)
}

/// The first `most` bytes of the input come, and the driver echoes as many as fit. Returns the rest.
#[tactic(auto)]
fn echo_next<'a, EV: SerialEvents, W: Write>(
    serial: &mut Serial<Counter, EV, W>,
    bound: usize,
    input: &'a [u8],
    most: usize,
) -> Result<&'a [u8], Error<Infallible>>
    requires coherent { Coherent serial.old.state }
    requires open { IsOpen serial.old.state }
    requires none_held { held serial.old ≡ [] }
    requires idle { serial.old.state.interrupt_identification ≡ 0x01 }
    requires uncalled { serial.old.trigger.calls ≡ 0 }
    requires bound { 0 < bound }
    ensures in_order { IfOk result (λ rest. Keeps (append_known (W.contents serial.old.out) input.now)
        (append_known (W.contents serial.new.out) rest.now)) }
    ensures shorter { IfOk result (λ rest.
        0 < most → 0 < length input.now → length rest.now < length input.now) }
    ensures none_left { IfOk result (λ rest. held serial.new ≡ []) }
    ensures idle { IfOk result (λ rest. serial.new.state.interrupt_identification ≡ 0x01) }
    ensures uncalled { IfOk result (λ rest. serial.new.trigger.calls ≡ 0) }
    ensures open { IsOpen serial.new.state }
    ensures coherent { Coherent serial.new.state }
{
    let (piece, _) = input.split_at(input.len().min(most));
    let taken = echo_piece(serial, bound, piece)?;
    let (_, rest) = input.split_at(taken);
    Ok(rest)
}

/// All input comes: first in pieces of at most these sizes, and then as much at a time as fits.
#[tactic(auto)]
fn echo_input<EV: SerialEvents, W: Write>(
    serial: &mut Serial<Counter, EV, W>,
    bound: usize,
    input: &[u8],
    pieces: &[usize],
) -> Result<(), Error<Infallible>>
    requires coherent { Coherent serial.old.state }
    requires open { IsOpen serial.old.state }
    requires none_held { held serial.old ≡ [] }
    requires idle { serial.old.state.interrupt_identification ≡ 0x01 }
    requires uncalled { serial.old.trigger.calls ≡ 0 }
    requires bound { 0 < bound }
    ensures sent { OnOk result (Appends (W.contents serial.old.out) (W.contents serial.new.out) input.now) }
    ensures none_left { OnOk result (held serial.new ≡ []) }
{
    let mut rest = input;
    for most in pieces {
        rest = echo_next(serial, bound, rest, *most)?;
    }
    while !rest.is_empty() {
        rest = echo_next(serial, bound, rest, rest.len())?;
    }
    Ok(())
}

/// A guest opens a new port, and echoes the input, which comes first in pieces of at most these sizes, and then as much
/// at a time as fits. Its handler takes at most `bound` bytes at each interrupt. Returns the writer, which took exactly
/// the input, in order.
///
/// # Errors
///
/// Returns `Error::Memory` if memory is refused for the port, and `Error::IOError` if the writer fails.
#[tactic(auto)]
pub fn echo<W: Write + Drop>(
    alloc: Global,
    out: W,
    bound: usize,
    input: &[u8],
    pieces: &[usize],
) -> Result<W, Error<Infallible>>
    requires bound { 0 < bound }
    ensures sent { IfOk result (λ written. Appends (W.contents out) (W.contents written) input.now) }
{
    let mut serial = Serial::new(alloc, Counter::new(), out).map_err(Refused::into_error)?;
    open(&mut serial)?;
    echo_input(&mut serial, bound, input, pieces)?;
    Ok(serial.into_writer())
}
