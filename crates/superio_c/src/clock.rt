// SPDX-License-Identifier: Apache-2.0 OR BSD-3-Clause
//! The clock. Its struct is `superio_rtc` in the header.
ghost use Rattle.std.specs.Prelude.{◌≡◌, ◌≢◌, ◌<◌, ◌^◌, ◌-◌, not};
ghost use Rattle.superio_c.specs.Clock.{effects_of_response, due_of};
ghost use Rattle.superio_core.specs.Rtc.Step.{rtc_irq_level, IsAlarmDue, clock_response, clock_step};
ghost use Rattle.superio_core.specs.Rtc.{state_of_clock, fresh_clock, read, write, clock_register_at, is_writable};

use superio_core::rtc_pl031::Pl031;

/// The answer if the alarm is never due.
const NEVER: u64 = u64::MAX;

/// The value of a clock read, and whether the read is invalid.
#[repr(C)]
#[derive(Clone, Copy, Debug, Eq, PartialEq)]
pub struct RtcReadEffects {
    /// The number that the guest reads, lowest byte first.
    pub value: u32,
    /// The guest read an unreadable offset.
    pub invalid_read: bool,
}

/// Whether a write to the clock is invalid.
#[repr(C)]
#[derive(Clone, Copy, Debug, Eq, PartialEq)]
pub struct RtcWriteEffects {
    /// The guest wrote to an unwritable offset.
    pub invalid_write: bool,
}

/// A clock that shows the host's time.
#[unsafe(no_mangle)]
pub extern "C" fn superio_rtc_new() -> Pl031
    ensures { state_of_clock result ≡ fresh_clock }
{
    Pl031::new()
}

/// The guest reads four bytes at `offset`, at the moment `now`.
#[unsafe(no_mangle)]
pub extern "C" fn superio_rtc_read(clock: &mut Pl031, offset: u16, now: u64) -> RtcReadEffects
    ensures response { result ≡ effects_of_response (clock_response (state_of_clock clock.old) (read offset now)) }
    ensures state { state_of_clock clock.new ≡ clock_step (state_of_clock clock.old) (read offset now) }
{
    match clock.read(offset, now) {
        Some(value) => RtcReadEffects {
            value,
            invalid_read: false,
        },
        None => RtcReadEffects {
            value: 0,
            invalid_read: true,
        },
    }
}

/// The guest writes `value`, as four bytes at `offset`, at the moment `now`.
#[unsafe(no_mangle)]
pub extern "C" fn superio_rtc_write(
    clock: &mut Pl031,
    offset: u16,
    value: u32,
    now: u64,
) -> RtcWriteEffects
    ensures invalid { result.invalid_write ≡ not (is_writable (clock_register_at offset)) }
    ensures state { state_of_clock clock.new ≡ clock_step (state_of_clock clock.old) (write offset value now) }
{
    let is_taken = clock.write(offset, value, now);
    RtcWriteEffects {
        invalid_write: !is_taken,
    }
}

/// Whether the interrupt line is up.
#[unsafe(no_mangle)]
pub extern "C" fn superio_rtc_interrupt_line(clock: &Pl031) -> bool
    ensures { result ≡ rtc_irq_level (state_of_clock clock.now) }
{
    clock.interrupt_line()
}

/// The seconds from the moment `now` until the alarm is due, if the guest makes no access, or the largest number if it
/// never is.
#[unsafe(no_mangle)]
pub extern "C" fn superio_rtc_alarm_due(clock: &Pl031, now: u64) -> u64
    ensures due { IsAlarmDue (state_of_clock clock.now) now (due_of result) }
    ensures bound { result ≢ 2 ^ 64 - 1 → result < 2 ^ 32 }
{
    clock.alarm_due(now).unwrap_or(NEVER)
}
