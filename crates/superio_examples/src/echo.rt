// SPDX-License-Identifier: Apache-2.0 OR BSD-3-Clause
//! A console that echoes: a guest's driver that sends back what it receives, and its monitor.
//!
//! The driver enables received data alone, and its handler takes at most a given number of bytes at each interrupt, so
//! it may leave some. It sends each byte at once, since LSR always shows an empty transmitter. The monitor gives it
//! input in pieces, and runs it only while an interrupt is due.
#![tactic(auto, unfolding(superio_core::specs::Bits::has_bits, superio_core::specs::Bits::only_bits, superio_core::specs::Bits::with_bits, superio_core::specs::Bits::without_bits))]

ghost use Rattle.std.specs.Prelude.{◌≡◌, ◌++◌, ◌<◌, length, min, take, true, false, [], IfOk, if◌then◌else◌};
ghost use Rattle.superio_core.specs.Serial.{CoherentUart, state_of_uart, not_empty};
ghost use Rattle.superio_core.specs.Serial.Operations.{count_if};
ghost use Rattle.superio_examples.specs.Echo.{IsOpen, held, pending};

pub mod over_serial;

use std::alloc::{AllocError, Global};
use superio_core::Uart;

/// IER: received data interrupts.
const IER_RDA_BIT: u8 = 0x01;
/// LSR: data ready.
const LSR_DATA_READY_BIT: u8 = 0x01;
/// IIR: nothing is pending.
const IIR_NONE_BIT: u8 = 0x01;

// ---- the driver

/// Whether LSR shows that a byte is held.
fn has_data(port: &mut Uart) -> bool
    requires coherent { CoherentUart port.old }
    ensures data { result ≡ not_empty (held port.old) }
    ensures rest_unchanged { state_of_uart port.new ≡ state_of_uart port.old }
    ensures coherent { CoherentUart port.new }
{
    port.read(5).byte & LSR_DATA_READY_BIT == LSR_DATA_READY_BIT
}

/// Takes the oldest byte and sends it back.
#[tactic(auto, using(crate::proofs::EchoLemmas::first_then_others), unfolding(superio_core::specs::Bits::has_bits, superio_core::specs::Bits::only_bits, superio_core::specs::Bits::with_bits, superio_core::specs::Bits::without_bits))]
fn echo_byte(port: &mut Uart, output: &mut Vec<u8>) -> Result<(), AllocError>
    requires coherent { CoherentUart port.old }
    requires open { IsOpen (state_of_uart port.old) }
    requires idle { pending port.old ≡ 0x01 }
    requires some { 0 < length (held port.old) }
    ensures in_order { IfOk result (λ done. output.new.items ++ held port.new ≡ output.old.items ++ held port.old) }
    ensures fewer { length (held port.new) < length (held port.old) }
    ensures open { IsOpen (state_of_uart port.new) }
    ensures idle { pending port.new ≡ 0x01 }
    ensures coherent { CoherentUart port.new }
{
    let byte = port.read(0).byte;
    if port.write(0, byte).sends {
        output.push(byte)?;
    }
    Ok(())
}

/// Takes bytes and sends each back, until LSR shows none or it has taken `bound`.
#[tactic(auto)]
fn echo_up_to(port: &mut Uart, bound: usize, output: &mut Vec<u8>) -> Result<(), AllocError>
    requires coherent { CoherentUart port.old }
    requires open { IsOpen (state_of_uart port.old) }
    requires idle { pending port.old ≡ 0x01 }
    ensures in_order { IfOk result (λ done. output.new.items ++ held port.new ≡ output.old.items ++ held port.old) }
    ensures fewer { IfOk result (λ done.
        0 < bound → 0 < length (held port.old) → length (held port.new) < length (held port.old)) }
    ensures open { IsOpen (state_of_uart port.new) }
    ensures idle { pending port.new ≡ 0x01 }
    ensures coherent { CoherentUart port.new }
{
    for _ in 0..bound {
        if !has_data(port) {
            return Ok(());
        }
        echo_byte(port, output)?;
    }
    Ok(())
}

/// Whether IIR shows an interrupt.
fn finds_interrupt(port: &mut Uart) -> bool
    requires coherent { CoherentUart port.old }
    requires open { IsOpen (state_of_uart port.old) }
    ensures none { pending port.old ≡ 0x01 → result ≡ false }
    ensures some { pending port.old ≡ 0x04 → result ≡ true }
    ensures idle { pending port.new ≡ 0x01 }
    ensures held { held port.new ≡ held port.old }
    ensures open { IsOpen (state_of_uart port.new) }
    ensures coherent { CoherentUart port.new }
{
    port.read(2).byte & IIR_NONE_BIT == 0
}

/// The handler: reads IIR until nothing is pending, and echoes at most `bound` bytes after each read that shows an
/// interrupt. Since nothing is pending then, the monitor makes a character timeout. Returns how often the timeout asks
/// for the interrupt.
fn run_handler(port: &mut Uart, bound: usize, output: &mut Vec<u8>) -> Result<u8, AllocError>
    requires coherent { CoherentUart port.old }
    requires open { IsOpen (state_of_uart port.old) }
    requires pending { pending port.old ≡ 0x04 }
    requires some { 0 < length (held port.old) }
    requires bound { 0 < bound }
    ensures in_order { IfOk result (λ due. output.new.items ++ held port.new ≡ output.old.items ++ held port.old) }
    ensures fewer { IfOk result (λ due. length (held port.new) < length (held port.old)) }
    ensures due { IfOk result (λ due. due ≡ count_if (not_empty (held port.new))) }
    ensures pending { IfOk result (λ due. pending port.new ≡ (if not_empty (held port.new) then 0x04 else 0x01)) }
    ensures open { IsOpen (state_of_uart port.new) }
    ensures coherent { CoherentUart port.new }
{
    while finds_interrupt(port) {
        echo_up_to(port, bound, output)?;
    }
    Ok(port.character_timeout())
}

// ---- the monitor

/// Runs the handler as long as an interrupt is due.
#[tactic(auto)]
fn serve(port: &mut Uart, bound: usize, asked: u8, output: &mut Vec<u8>) -> Result<(), AllocError>
    requires coherent { CoherentUart port.old }
    requires open { IsOpen (state_of_uart port.old) }
    requires due { asked ≡ count_if (not_empty (held port.old)) }
    requires pending { pending port.old ≡ (if not_empty (held port.old) then 0x04 else 0x01) }
    requires bound { 0 < bound }
    ensures sent { IfOk result (λ done. output.new.items ≡ output.old.items ++ held port.old) }
    ensures none_left { IfOk result (λ done. held port.new ≡ []) }
    ensures idle { IfOk result (λ done. pending port.new ≡ 0x01) }
    ensures open { IsOpen (state_of_uart port.new) }
    ensures coherent { CoherentUart port.new }
{
    let mut due = asked;
    while due > 0 {
        due = run_handler(port, bound, output)?;
    }
    Ok(())
}

/// A piece of input comes, and the driver echoes it. Returns how many of its bytes fit.
fn echo_piece(
    port: &mut Uart,
    bound: usize,
    piece: &[u8],
    output: &mut Vec<u8>,
) -> Result<usize, AllocError>
    requires coherent { CoherentUart port.old }
    requires open { IsOpen (state_of_uart port.old) }
    requires none_held { held port.old ≡ [] }
    requires idle { pending port.old ≡ 0x01 }
    requires bound { 0 < bound }
    ensures sent { IfOk result (λ taken. output.new.items ≡ output.old.items ++ take taken piece.now) }
    ensures taken { IfOk result (λ taken. taken ≡ min 64 (length piece.now)) }
    ensures none_left { IfOk result (λ taken. held port.new ≡ []) }
    ensures idle { IfOk result (λ taken. pending port.new ≡ 0x01) }
    ensures open { IsOpen (state_of_uart port.new) }
    ensures coherent { CoherentUart port.new }
{
    let enqueued = port.enqueue_raw_bytes(piece);
    serve(port, bound, enqueued.interrupts, output)?;
    Ok(enqueued.accepted)
}

/// All input comes: first in pieces of at most these sizes, and then as much at a time as fits.
#[tactic(auto)]
fn echo_input(
    port: &mut Uart,
    bound: usize,
    input: &[u8],
    pieces: &[usize],
    output: &mut Vec<u8>,
) -> Result<(), AllocError>
    requires coherent { CoherentUart port.old }
    requires open { IsOpen (state_of_uart port.old) }
    requires none_held { held port.old ≡ [] }
    requires idle { pending port.old ≡ 0x01 }
    requires bound { 0 < bound }
    ensures sent { IfOk result (λ done. output.new.items ≡ output.old.items ++ input.now) }
    ensures none_left { IfOk result (λ done. held port.new ≡ []) }
{
    let mut rest = input;
    for most in pieces {
        let (piece, _) = rest.split_at(rest.len().min(*most));
        let taken = echo_piece(port, bound, piece, output)?;
        let (_, later) = rest.split_at(taken);
        rest = later;
    }
    while !rest.is_empty() {
        let taken = echo_piece(port, bound, rest, output)?;
        let (_, later) = rest.split_at(taken);
        rest = later;
    }
    Ok(())
}

/// A guest opens a new port, and echoes the input, which comes first in pieces of at most these sizes, and then as much
/// at a time as fits. Its handler takes at most `bound` bytes at each interrupt. Returns what it sent: exactly the
/// input, in order.
///
/// # Errors
///
/// Returns `AllocError` if memory is refused for the output.
pub fn echo(
    alloc: Global,
    bound: usize,
    input: &[u8],
    pieces: &[usize],
) -> Result<Vec<u8>, AllocError>
    requires bound { 0 < bound }
    ensures sent { IfOk result (λ output. output.items ≡ input.now) }
{
    let mut port = Uart::new();
    let mut output = Vec::new(alloc);
    let _ = port.write(1, IER_RDA_BIT);
    echo_input(&mut port, bound, input, pieces, &mut output)?;
    Ok(output)
}
