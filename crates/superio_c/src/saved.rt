// SPDX-License-Identifier: Apache-2.0 OR BSD-3-Clause
//! Saved states as bytes.
ghost use Rattle.std.specs.Prelude.{◌≡◌, ◌≢◌, ◌≤◌, length, take, drop, Some};
ghost use Rattle.superio_c.specs.Saved.{load_status};
ghost use Rattle.superio_core.specs.Rtc.{state_of_clock};
ghost use Rattle.superio_core.specs.Serial.{state_of_uart, State};
ghost use Rattle.superio_core.specs.Saved.{serial_fault, clock_fault, serial_encoding, clock_encoding};
ghost use Rattle.superio_core.specs.Sizes.{fifo_size, serial_saved_max};

use superio_core::rtc_pl031::encoding::SAVED_SIZE;
use superio_core::rtc_pl031::{Pl031, RtcState};
use superio_core::saved::SavedStateError;
use superio_core::serial::Uart;
use superio_core::serial::encoding::SAVED_MAX;

/// What a load returns on success.
pub(crate) const LOADED: u32 = 0;

/// The number of an error in the header's `enum superio_saved_state_error`.
pub(crate) fn load_status(error: SavedStateError) -> u32
    ensures { result ≡ load_status (Some error) }
{
    match error {
        SavedStateError::TooShort => 1,
        SavedStateError::NotASavedState => 2,
        SavedStateError::OtherDevice => 3,
        SavedStateError::UnknownVersion(_) => 4,
        SavedStateError::WrongLength => 5,
        SavedStateError::TooManyBytes => 6,
        SavedStateError::InvalidArmed => 7,
        SavedStateError::InvalidFlags => 8,
    }
}

/// Writes the port's encoding to the start of `bytes`, and returns its length. The other bytes do not change.
#[unsafe(no_mangle)]
pub extern "C" fn superio_serial_save(port: &Uart, bytes: &mut [u8; SAVED_MAX]) -> usize
    ensures count { result ≡ length (serial_encoding (state_of_uart port.now)) }
    ensures at_most_81 { result ≤ serial_saved_max }
    ensures encoding { take result bytes.new ≡ serial_encoding (state_of_uart port.now) }
    ensures rest_unchanged { drop result bytes.new ≡ drop result bytes.old }
{
    let encoding = port.to_bytes();
    let encoding = encoding.as_bytes();
    bytes[..encoding.len()].copy_from_slice(encoding);
    encoding.len()
}

/// Loads a saved port and returns 0. If the bytes are invalid, nothing changes, and the result says which check failed.
#[unsafe(no_mangle)]
pub extern "C" fn superio_serial_load(port: &mut Uart, bytes: &[u8]) -> u32
    ensures status { result ≡ load_status (serial_fault bytes.now) }
    ensures loaded { result ≡ 0 → bytes.now ≡ serial_encoding (state_of_uart port.new) }
    ensures read { (state : State) → length state.in_buffer ≤ fifo_size → bytes.now ≡ serial_encoding state →
        result ≡ 0 × state_of_uart port.new ≡ state }
    ensures at_most_64 { result ≡ 0 → port.new.in_buffer.len ≤ fifo_size }
    ensures refused { result ≢ 0 → port.new ≡ port.old }
{
    match Uart::from_bytes(bytes) {
        Ok(loaded) => {
            *port = loaded;
            LOADED
        }
        Err(error) => load_status(error),
    }
}

/// Writes the clock's encoding.
#[unsafe(no_mangle)]
pub extern "C" fn superio_rtc_save(clock: &Pl031, bytes: &mut [u8; SAVED_SIZE])
    ensures { bytes.new ≡ clock_encoding (state_of_clock clock.now) }
{
    *bytes = clock.state().to_bytes();
}

/// Loads a saved clock and returns 0. If the bytes are invalid, nothing changes, and the result says which check
/// failed.
#[unsafe(no_mangle)]
pub extern "C" fn superio_rtc_load(clock: &mut Pl031, bytes: &[u8]) -> u32
    ensures status { result ≡ load_status (clock_fault bytes.now) }
    ensures loaded { result ≡ 0 → bytes.now ≡ clock_encoding (state_of_clock clock.new) }
    ensures refused { result ≢ 0 → clock.new ≡ clock.old }
{
    match RtcState::from_bytes(bytes) {
        Ok(state) => {
            *clock = Pl031::from_state(&state);
            LOADED
        }
        Err(error) => load_status(error),
    }
}
