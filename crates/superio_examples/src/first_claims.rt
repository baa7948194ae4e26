// SPDX-License-Identifier: Apache-2.0 OR BSD-3-Clause
//! First claims about the devices. Each states one sentence as a contract, and the calls and their contracts are its
//! proof; `read_all` also has an invariant. Copy the one that is nearest to yours. A function with a plain
//! `#[tactic(auto)]` does not look into bits.
#![tactic(auto, unfolding(superio_core::specs::Bits::has_bits, superio_core::specs::Bits::only_bits, superio_core::specs::Bits::with_bits))]

ghost use Rattle.std.specs.Prelude.{◌≡◌, ◌+◌, ◌-◌, ◌<◌, ◌^◌, [], ◌∷◌, ◌++◌, take, length, true, false, IsTrue, IfOk, IfErr, OnOk};
ghost use Rattle.vm_superio.specs.Claims.{held, dlab_clear, not_in_loopback, in_loopback, rda_enabled, data_pending};
ghost use Rattle.vm_superio.specs.Claims.{SameSettings, has_bits, not_empty, Coherent, is_reset_command, fresh_clock};
ghost use Rattle.std.specs.Int.{w32, to_le_bytes};
ghost use Rattle.std.specs.Io.KnownBytes.{Appends};

use crate::triggers::Counter;
use std::alloc::{AllocError, Global};
use std::convert::Infallible;
use std::io::Write;
use vm_superio::rtc_pl031::RtcEvents;
use vm_superio::serial::{Error, Refused, SerialEvents};
use vm_superio::{I8042Device, Rtc, Serial, Trigger};

// ---- received bytes

/// A byte that is enqueued while none is held is the next one read.
pub fn enqueued_is_read<T: Trigger, EV: SerialEvents, W: Write>(
    serial: &mut Serial<T, EV, W>,
    byte: u8,
) -> u8
    requires data { dlab_clear serial.old }
    requires outside { not_in_loopback serial.old }
    requires empty { held serial.old ≡ [] }
    ensures { result ≡ byte }
{
    let _ = serial.enqueue_raw_bytes(&[byte]);
    serial.read(0)
}

/// A read of the data register takes the oldest byte. Only FIFO, LSR and IIR change.
#[tactic(auto)]
pub fn read_takes_oldest<T: Trigger, EV: SerialEvents, W: Write>(
    serial: &mut Serial<T, EV, W>,
) -> u8
    requires data { dlab_clear serial.old }
    requires some { 0 < length (held serial.old) }
    ensures oldest { result ∷ held serial.new ≡ held serial.old }
    ensures settings { SameSettings serial.old.state serial.new.state }
{
    serial.read(0)
}

/// As many reads as bytes are held give these bytes, in order.
#[tactic(auto)]
pub fn read_all<T: Trigger, EV: SerialEvents, W: Write>(
    alloc: Global,
    serial: &mut Serial<T, EV, W>,
) -> Result<Vec<u8>, AllocError>
    requires data { dlab_clear serial.old }
    ensures { IfOk result (λ read. read.items ≡ held serial.old) }
{
    let count = 64 - serial.fifo_capacity();
    let mut read = Vec::with_capacity(alloc, count)?;
    for _ in 0..count {
        read.push(serial.read(0))?;
    }
    Ok(read)
}

/// A full FIFO accepts nothing and says so.
pub fn full_accepts_nothing<T: Trigger, EV: SerialEvents, W: Write>(
    serial: &mut Serial<T, EV, W>,
    more: u8,
) -> Result<usize, Error<T::E>>
    requires outside { not_in_loopback serial.old }
    requires full { length (held serial.old) ≡ 64 }
    ensures reply { result ≡ Err Error.FullFifo }
    ensures same { serial.new ≡ serial.old }
{
    serial.enqueue_raw_bytes(&[more])
}

/// A refused trigger loses no byte: as many as fit are held.
pub fn refused_keeps_bytes<T: Trigger, EV: SerialEvents, W: Write>(
    serial: &mut Serial<T, EV, W>,
    bytes: &[u8],
) -> Result<usize, Error<T::E>>
    requires outside { not_in_loopback serial.old }
    ensures { (refusal : T.E) → result ≡ Err (Error.Trigger refusal) →
        held serial.new ≡ held serial.old ++ take (64 - length (held serial.old)) bytes.now }
{
    serial.enqueue_raw_bytes(bytes)
}

// ---- sent bytes

/// `Ok` of a THR write says that the writer took this byte and nothing else. This holds for any writer of known
/// contents.
pub fn sent_is_appended<T: Trigger, EV: SerialEvents, W: Write>(
    serial: &mut Serial<T, EV, W>,
    byte: u8,
) -> Result<(), Error<T::E>>
    requires data { dlab_clear serial.old }
    requires outside { not_in_loopback serial.old }
    ensures { OnOk result (Appends (W.contents serial.old.out) (W.contents serial.new.out) (byte ∷ [])) }
{
    serial.write(0, byte)
}

/// In loopback a sent byte is received, and the writer gets nothing.
pub fn loopback_returns_byte<T: Trigger, EV: SerialEvents, W: Write>(
    serial: &mut Serial<T, EV, W>,
    sent: u8,
) -> u8
    requires data { dlab_clear serial.old }
    requires inside { in_loopback serial.old }
    requires empty { held serial.old ≡ [] }
    ensures back { result ≡ sent }
    ensures out { serial.new.out ≡ serial.old.out }
{
    let _ = serial.write(0, sent);
    serial.read(0)
}

// ---- registers

/// With DLAB set, offsets 0 and 1 keep the divisor.
pub fn divisor_keeps<T: Trigger, EV: SerialEvents, W: Write>(
    serial: &mut Serial<T, EV, W>,
    low: u8,
    high: u8,
) -> (u8, u8)
    ensures low { result.0 ≡ low }
    ensures high { result.1 ≡ high }
{
    let _ = serial.write(3, 0x80);
    let _ = serial.write(0, low);
    let _ = serial.write(1, high);
    (serial.read(0), serial.read(1))
}

/// LSR shows data ready exactly while a byte is held.
pub fn line_status_shows_data<T: Trigger, EV: SerialEvents, W: Write>(
    serial: &mut Serial<T, EV, W>,
) -> u8
    requires { Coherent serial.old.state }
    ensures { has_bits result 0x01 ≡ not_empty (held serial.old) }
{
    serial.read(5)
}

// ---- interrupts

/// A guest that enables received data while a byte waits is interrupted once.
pub fn enabling_calls_once<EV: SerialEvents, W: Write>(serial: &mut Serial<Counter, EV, W>)
    requires data { dlab_clear serial.old }
    requires some { 0 < length (held serial.old) }
    requires none_pending { data_pending serial.old ≡ false }
    requires countable { serial.old.trigger.calls < 1000 }
    ensures { serial.new.trigger.calls ≡ serial.old.trigger.calls + 1 }
{
    let _ = serial.write(1, 0x01);
}

/// A read of IIR acknowledges: the next one shows that no interrupt is pending.
pub fn read_acknowledges<T: Trigger, EV: SerialEvents, W: Write>(
    serial: &mut Serial<T, EV, W>,
) -> u8
    ensures { result ≡ 0xC1 }
{
    serial.read(2);
    serial.read(2)
}

/// After a character timeout, IIR shows received data if bytes are held and IER enables the interrupt for them.
pub fn timeout_shows_data<T: Trigger, EV: SerialEvents, W: Write>(
    serial: &mut Serial<T, EV, W>,
) -> u8
    requires some { IsTrue (not_empty (held serial.old)) }
    requires wanted { IsTrue (rda_enabled serial.old) }
    ensures { IsTrue (has_bits result 0x04) }
{
    let _answer = serial.character_timeout();
    serial.read(2)
}

/// If the trigger never refuses, an enqueue fails only at a full FIFO.
pub fn only_full_fails<T: Trigger<E = Infallible>, EV: SerialEvents, W: Write>(
    serial: &mut Serial<T, EV, W>,
    pieces: &[u8],
) -> Result<usize, Error<Infallible>>
    ensures { IfErr result (λ error. error ≡ Error.FullFifo) }
{
    serial.enqueue_raw_bytes(pieces)
}

/// If the trigger never refuses, a character timeout cannot fail.
pub fn timeout_cannot_fail<T: Trigger<E = Infallible>, EV: SerialEvents, W: Write>(
    serial: &mut Serial<T, EV, W>,
) -> Result<(), Error<Infallible>>
    ensures { result ≡ Ok tt }
{
    serial.character_timeout()
}

/// If the trigger never refuses, a write at an offset above 0 cannot fail either, since it sends no byte.
pub fn setting_cannot_fail<T: Trigger<E = Infallible>, EV: SerialEvents, W: Write>(
    serial: &mut Serial<T, EV, W>,
    setting: u8,
    value: u8,
) -> Result<(), Error<Infallible>>
    requires { 0 < setting }
    ensures { result ≡ Ok tt }
{
    serial.write(setting, value)
}

// ---- saved ports

/// A restored port gives a guest the same byte at any read.
#[tactic(auto)]
pub fn restored_reads_same<
    T: Trigger,
    EV: SerialEvents,
    W: Write,
    NewT: Trigger + Drop,
    NewEV: SerialEvents + Drop,
    NewW: Write + Drop,
>(
    alloc: Global,
    serial: &mut Serial<T, EV, W>,
    trigger: NewT,
    events: NewEV,
    out: NewW,
    offset: u8,
) -> Result<(u8, u8), Error<NewT::E>>
    ensures { IfOk result (λ bytes. bytes.0 ≡ bytes.1) }
{
    let saved = serial.state(alloc)?;
    let mut restored = Serial::from_state(alloc, &saved, trigger, events, out).map_err(
        Refused::into_error,
    )?;
    Ok((serial.read(offset), restored.read(offset)))
}

// ---- the other devices

/// Only the command byte resets: no other access calls the trigger.
pub fn only_command_resets<T: Trigger>(device: &mut I8042Device<T>, offset: u8, value: u8)
    requires { is_reset_command offset value ≡ false }
    ensures { device.new ≡ device.old }
{
    device.read(offset);
    let _ = device.write(offset, value);
}

/// A clock that was set goes on from there.
pub fn clock_goes_on<EV: RtcEvents>(clock: &mut Rtc<EV>, value: u32, now: u64) -> [u8; 4]
    requires time { now + 7 < 2 ^ 32 }
    requires value { value + 7 < 2 ^ 32 }
    ensures { result ≡ to_le_bytes w32 (value + 7) }
{
    clock.write(0x008, &value.to_le_bytes(), now);
    let mut bytes = [0; 4];
    clock.read(0x000, &mut bytes, now + 7);
    bytes
}

/// An unmasked alarm raises the line at an access at its second, and at none before.
pub fn alarm_raises_line<EV: RtcEvents>(
    clock: &mut Rtc<EV>,
    now: u64,
    sooner: u64,
    second: u32,
) -> (bool, bool)
    requires fresh { clock.old.state ≡ fresh_clock }
    requires future { now < second }
    requires before { sooner < second }
    ensures before { result.0 ≡ false }
    ensures at { result.1 ≡ true }
{
    clock.write(0x010, &[0x01, 0, 0, 0], now);
    clock.write(0x004, &second.to_le_bytes(), now);
    let mut bytes = [0; 4];
    clock.read(0x018, &mut bytes, sooner);
    let before = clock.interrupt_line();
    clock.read(0x018, &mut bytes, u64::from(second));
    (before, clock.interrupt_line())
}

// ---- from a new port

/// A guest reads back the input of a new port, as much of it as fits.
#[tactic(auto, unfolding(superio_core::specs::Bits::has_bits))]
pub fn read_back<T: Trigger + Drop, W: Write + Drop>(
    alloc: Global,
    trigger: T,
    out: W,
    input: &[u8],
) -> Result<Vec<u8>, Error<T::E>>
    ensures { IfOk result (λ read. read.items ≡ take 64 input.now) }
{
    let mut serial = Serial::new(alloc, trigger, out).map_err(Refused::into_error)?;
    serial.enqueue_raw_bytes(input)?;
    Ok(read_all(alloc, &mut serial)?)
}
