// SPDX-License-Identifier: Apache-2.0 OR BSD-3-Clause
//! The laws of saved states. The round trips are calls whose contracts are the laws.
ghost use Rattle.std.specs.Prelude.{◌≡◌, ◌≤◌, length, IfOk, MatchResult};
ghost use Rattle.vm_superio.specs.Saved.{state_of, SerialVersionLaw, ClockVersionLaw, OtherSerialVersionLaw, OtherClockVersionLaw};
ghost use Rattle.superio_core.specs.Serial.{fifo_size, state_of_uart};
ghost use Rattle.superio_core.specs.Saved.{SerialEncodingLaw, OneSerialStateLaw, ClockEncodingLaw, OneClockStateLaw};

use crate::saved::{LoadError, SavedStateError};
use crate::serial::encoding::SerialEncoding;
use crate::{Rtc, RtcState, SerialState};
use std::alloc::Global;
use superio_core::rtc_pl031::encoding::SAVED_SIZE;
use superio_core::serial::Uart;

/// A written encoding passes every check when read.
#[tactic(auto, using(superio_core::proofs::Lemmas::Saved::encodings_are_read_laws))]
pub fn encodings_are_read()
    ensures serial { SerialEncodingLaw }
    ensures clock { ClockEncodingLaw }
{}

/// No two states share an encoding.
#[tactic(auto, using(superio_core::proofs::Lemmas::Saved::one_state_of_an_encoding_laws))]
pub fn one_state_of_an_encoding()
    ensures serial { OneSerialStateLaw }
    ensures clock { OneClockStateLaw }
{}

/// Each encoding has the version of its writer at the same place.
pub fn version_of_an_encoding()
    ensures serial { SerialVersionLaw }
    ensures clock { ClockVersionLaw }
{}

/// An encoding of another version, older or newer, is refused for its version and for nothing else.
pub fn other_versions_are_refused()
    ensures serial { OtherSerialVersionLaw }
    ensures clock { OtherClockVersionLaw }
{}

/// Reading a port that was written gives its state back, unless memory is refused. A state with more than 64 received
/// bytes is not written.
pub fn serial_written_then_read(
    alloc: Global,
    state: &SerialState,
) -> Result<SerialState, LoadError>
    ensures read { length state.now.in_buffer.items ≤ fifo_size →
        MatchResult result (λ read. state_of read ≡ state_of state.now) (λ error. error ≡ LoadError.Memory) }
    ensures same { IfOk result (λ read. state_of read ≡ state_of state.now) }
{
    SerialState::from_bytes(alloc, state.to_bytes()?.as_bytes())
}

/// Writing a port that was read gives the same bytes.
pub fn serial_read_then_written(alloc: Global, bytes: &[u8]) -> Result<SerialEncoding, LoadError>
    ensures { IfOk result (λ written. written ≡ bytes.now) }
{
    Ok(SerialState::from_bytes(alloc, bytes)?.to_bytes()?)
}

/// Reading a clock that was written gives its state back.
pub fn clock_written_then_read(state: RtcState) -> Result<RtcState, SavedStateError>
    ensures { result ≡ Ok state }
{
    RtcState::from_bytes(&state.to_bytes())
}

/// Writing a clock that was read gives the same bytes.
pub fn clock_read_then_written(bytes: &[u8]) -> Result<[u8; SAVED_SIZE], SavedStateError>
    ensures { IfOk result (λ written. written ≡ bytes.now) }
{
    Ok(RtcState::from_bytes(bytes)?.to_bytes())
}

/// Making a port of a state, and a state of this port, gives the first state back, unless memory is refused. A state
/// with more than 64 received bytes has no port.
pub fn state_to_uart_and_back(alloc: Global, state: &SerialState) -> Result<SerialState, LoadError>
    ensures back { length state.now.in_buffer.items ≤ fifo_size →
        MatchResult result (λ back. state_of back ≡ state_of state.now) (λ error. error ≡ LoadError.Memory) }
    ensures same { IfOk result (λ back. state_of back ≡ state_of state.now) }
{
    match SerialState::from_uart(alloc, &state.to_uart()?) {
        Ok(back) => Ok(back),
        Err(_) => Err(LoadError::Memory),
    }
}

/// Making a state of a port, and a port of this state, gives the first port back, unless memory is refused.
pub fn uart_to_state_and_back(alloc: Global, port: &Uart) -> Result<Uart, LoadError>
    ensures { MatchResult result (λ back. state_of_uart back ≡ state_of_uart port.now)
        (λ error. error ≡ LoadError.Memory) }
{
    match SerialState::from_uart(alloc, port) {
        Ok(state) => Ok(state.to_uart()?),
        Err(_) => Err(LoadError::Memory),
    }
}

/// A clock made of a state has that state.
pub fn clock_of_state_and_back(state: RtcState) -> RtcState
    ensures { result ≡ state }
{
    RtcState::from(Rtc::from(state))
}
