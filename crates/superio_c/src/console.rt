// SPDX-License-Identifier: Apache-2.0 OR BSD-3-Clause
//! A serial port with the monitor's end of its line. Its struct is `superio_console` in the header.
ghost use Rattle.std.specs.Prelude.{◌≡◌, ◌≢◌, ◌≤◌, ◌==◌, not, min, length, take, drop};
ghost use Rattle.superio_core.specs.Serial.{fifo_size, CoherentUart};
ghost use Rattle.superio_console.specs.Console.{ConsoleState, state_of, new_console, wants_of, shown_at, after, work_of};
ghost use Rattle.superio_console.specs.Console.{Reads, Writes, Receives, Consumes, Turns, Refuses, Resets, Suspends, SetsPolled};
ghost use Rattle.superio_console.specs.OutputRing.{output_size};
ghost use Rattle.superio_console.specs.Saved.{console_encoding, console_fault, console_saved_max, IsConsole};
ghost use Rattle.superio_c.specs.Saved.{load_status};

use super::saved::{LOADED, load_status};
use superio_console::saved::CONSOLE_SAVED_MAX;
use superio_console::{Console, ConsoleRead, ConsoleReceived, Wants, Work};

/// Makes the struct a new console.
#[unsafe(no_mangle)]
pub extern "C" fn superio_console_new(console: &mut Console, is_polled: bool)
    ensures state { state_of console.new ≡ new_console is_polled }
    ensures coherent { CoherentUart console.new.port }
{
    *console = Console::new(is_polled);
}

/// The guest reads at `offset`.
#[unsafe(no_mangle)]
pub extern "C" fn superio_console_read(console: &mut Console, offset: u8) -> ConsoleRead
    ensures byte { result.byte ≡ shown_at offset (state_of console.old).port }
    ensures work { result.work ≡ work_of (Reads offset) (state_of console.old) }
    ensures at_most_1 { result.work.interrupts ≤ 1 }
    ensures state { state_of console.new ≡ after (Reads offset) (state_of console.old) }
    ensures coherent { CoherentUart console.old.port → CoherentUart console.new.port }
{
    console.read(offset)
}

/// The guest writes `value` at `offset`.
#[unsafe(no_mangle)]
pub extern "C" fn superio_console_write(console: &mut Console, offset: u8, value: u8) -> Work
    ensures work { result ≡ work_of (Writes offset value) (state_of console.old) }
    ensures at_most_2 { result.interrupts ≤ 2 }
    ensures state { state_of console.new ≡ after (Writes offset value) (state_of console.old) }
    ensures coherent { CoherentUart console.old.port → CoherentUart console.new.port }
{
    console.write(offset, value)
}

/// What the event loop has to poll now.
#[unsafe(no_mangle)]
pub extern "C" fn superio_console_wants(console: &Console) -> Wants
    ensures value { result ≡ wants_of (state_of console.now) }
    ensures at_most_64 { result.input ≤ fifo_size }
{
    console.wants()
}

/// Input arrives for the guest.
#[unsafe(no_mangle)]
pub extern "C" fn superio_console_receive(console: &mut Console, bytes: &[u8]) -> ConsoleReceived
    ensures accepted { result.accepted ≡ min (length bytes.now) (wants_of (state_of console.old)).input }
    ensures work { result.work ≡ work_of (Receives bytes.now) (state_of console.old) }
    ensures at_most_1 { result.work.interrupts ≤ 1 }
    ensures state { state_of console.new ≡ after (Receives bytes.now) (state_of console.old) }
    ensures coherent { CoherentUart console.old.port → CoherentUart console.new.port }
{
    console.receive(bytes)
}

/// Copies the oldest output that waits to `bytes`, up to the end of the ring, as much as fits. Returns how many bytes.
#[unsafe(no_mangle)]
pub extern "C" fn superio_console_output(console: &Console, bytes: &mut [u8]) -> usize
    ensures bound { result ≤ length (state_of console.now).output }
    ensures room { result ≤ length bytes.old }
    ensures some { length bytes.old ≢ 0 → not (result == 0) ≡ (wants_of (state_of console.now)).output }
    ensures oldest { take result bytes.new ≡ take result (state_of console.now).output }
    ensures rest_unchanged { drop result bytes.new ≡ drop result bytes.old }
{
    let oldest = console.output();
    let count = oldest.len().min(bytes.len());
    bytes[..count].copy_from_slice(&oldest[..count]);
    count
}

/// The reader has taken the first `count` bytes of the output that waits.
#[unsafe(no_mangle)]
pub extern "C" fn superio_console_consume(console: &mut Console, count: usize)
    ensures state { state_of console.new ≡ after (Consumes count) (state_of console.old) }
    ensures port { console.new.port ≡ console.old.port }
{
    console.consume(count);
}

/// Whether the output has no room.
#[unsafe(no_mangle)]
pub extern "C" fn superio_console_is_full(console: &Console) -> bool
    ensures { result ≡ (length (state_of console.now).output == output_size) }
{
    console.is_full()
}

/// How many bytes of output were dropped.
#[unsafe(no_mangle)]
pub extern "C" fn superio_console_dropped(console: &Console) -> u64
    ensures { result ≡ (state_of console.now).dropped }
{
    console.dropped()
}

/// The event loop makes a turn.
#[unsafe(no_mangle)]
pub extern "C" fn superio_console_turn(console: &mut Console) -> Work
    ensures work { result ≡ work_of Turns (state_of console.old) }
    ensures at_most_2 { result.interrupts ≤ 2 }
    ensures state { state_of console.new ≡ after Turns (state_of console.old) }
    ensures coherent { CoherentUart console.old.port → CoherentUart console.new.port }
{
    console.turn()
}

/// An interrupt that a call asked for was refused, or may be lost.
#[unsafe(no_mangle)]
pub extern "C" fn superio_console_refuse(console: &mut Console) -> Work
    ensures work { result ≡ work_of Refuses (state_of console.old) }
    ensures none { result.interrupts ≡ 0 }
    ensures state { state_of console.new ≡ after Refuses (state_of console.old) }
    ensures port { console.new.port ≡ console.old.port }
{
    console.refuse()
}

/// The guest's machine is reset.
#[unsafe(no_mangle)]
pub extern "C" fn superio_console_reset(console: &mut Console) -> Work
    ensures work { result ≡ work_of Resets (state_of console.old) }
    ensures none { result.interrupts ≡ 0 }
    ensures state { state_of console.new ≡ after Resets (state_of console.old) }
    ensures coherent { CoherentUart console.new.port }
{
    console.reset()
}

/// The guest's machine sleeps in memory.
#[unsafe(no_mangle)]
pub extern "C" fn superio_console_suspend(console: &mut Console)
    ensures state { state_of console.new ≡ after Suspends (state_of console.old) }
    ensures port { console.new.port ≡ console.old.port }
{
    console.suspend();
}

/// Says whether the guest polls from now on.
#[unsafe(no_mangle)]
pub extern "C" fn superio_console_set_polled(console: &mut Console, is_polled: bool) -> Work
    ensures work { result ≡ work_of (SetsPolled is_polled) (state_of console.old) }
    ensures none { result.interrupts ≡ 0 }
    ensures state { state_of console.new ≡ after (SetsPolled is_polled) (state_of console.old) }
    ensures port { console.new.port ≡ console.old.port }
{
    console.set_polled(is_polled)
}

/// Writes the console's encoding to the start of `bytes`, and returns its length. The other bytes do not change.
#[unsafe(no_mangle)]
pub extern "C" fn superio_console_save(
    console: &Console,
    bytes: &mut [u8; CONSOLE_SAVED_MAX],
) -> usize
    ensures count { result ≡ length (console_encoding (state_of console.now)) }
    ensures at_most_4196 { result ≤ console_saved_max }
    ensures encoding { take result bytes.new ≡ console_encoding (state_of console.now) }
    ensures rest_unchanged { drop result bytes.new ≡ drop result bytes.old }
{
    console.save(bytes)
}

/// Loads a saved console and returns 0. If the bytes are invalid, nothing changes, and the result says which check
/// failed.
#[unsafe(no_mangle)]
pub extern "C" fn superio_console_load(console: &mut Console, bytes: &[u8]) -> u32
    ensures status { result ≡ load_status (console_fault bytes.now) }
    ensures loaded { result ≡ 0 → bytes.now ≡ console_encoding (state_of console.new) }
    ensures read { (state : ConsoleState) → IsConsole state → bytes.now ≡ console_encoding state →
        result ≡ 0 × state_of console.new ≡ state }
    ensures at_most_64 { result ≡ 0 → console.new.port.in_buffer.len ≤ fifo_size }
    ensures refused { result ≢ 0 → console.new ≡ console.old }
{
    match console.load(bytes) {
        Ok(()) => LOADED,
        Err(error) => load_status(error),
    }
}
