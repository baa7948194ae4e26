// SPDX-License-Identifier: Apache-2.0 OR BSD-3-Clause
//! Saved states go there and back, and each reason why bytes are refused. What the bytes are is in
//! `tests/data/further/saved_states.txt`.
use crate::serial_objects::{Fields, IER, SCR, TestSerial, made, state_of, state_with};
use std::alloc::Global;
use vm_superio::rtc_pl031::encoding::SAVED_SIZE;
use vm_superio::saved::{LoadError, SavedStateError};
use vm_superio::{RtcState, SerialState};

/// Where a header has the last letter of the magic, the kind, the version, and the low byte of the length.
const LETTER: usize = 3;

const KIND: usize = 4;

const VERSION: usize = 5;

const LENGTH: usize = 6;

/// The kind of a port.
const PORT: u8 = 1;

/// A version that there will not be.
const UNKNOWN: u8 = 0xFF;

/// A clock an hour behind the host's time, with an alarm a minute after the time that its guest set.
fn clock() -> RtcState {
    RtcState {
        armed: true,
        ..RtcState::from_five(0x6592_0080, -3_600, 0x6592_00BC, 1, 0)
    }
}

/// Whether a port's state is read back from its bytes.
fn is_read_back(alloc: Global, state: &SerialState) -> bool {
    match state.to_bytes() {
        Ok(saved) => is_read(alloc, saved.as_bytes(), state),
        Err(_) => false,
    }
}

/// Whether this state is read from these bytes.
fn is_read(alloc: Global, bytes: &[u8], state: &SerialState) -> bool {
    match SerialState::from_bytes(alloc, bytes) {
        Ok(read) => read == *state,
        Err(_) => false,
    }
}

/// Whether a port takes two writes and two bytes.
fn is_used(port: &mut TestSerial<Vec<u8>>) -> bool {
    port.write(IER, 0x01).is_ok()
        && port.write(SCR, 0x5A).is_ok()
        && port.enqueue_raw_bytes(b"ab").is_ok()
}

#[test]
fn a_port_is_saved_and_read_back(rt: HostRuntime) {
    let mut port = made(&rt, rt.alloc(), 0, Vec::new(rt.alloc()));
    let is_used = is_used(&mut port);
    let state = state_of(&rt, rt.alloc(), &port);
    assert!(rt; is_used && is_read_back(rt.alloc(), &state));
}

#[test]
fn a_clock_is_saved_and_read_back(rt: HostRuntime) {
    assert!(rt; RtcState::from_bytes(&clock().to_bytes()) == Ok(clock()));
}

/// Fails if this is wrong: vm_superio/src/serial/encoding.rt SerialState::to_uart error 1
#[test]
fn a_port_of_sixty_five_bytes_has_no_form(rt: HostRuntime) {
    let fields = Fields {
        iir: 0x01,
        ier: 0x00,
        lsr: 0x61,
        held: &[0x01; 65],
    };
    let state = state_with(&rt, rt.alloc(), fields);
    assert!(rt; matches!(state.to_bytes(), Err(SavedStateError::TooManyBytes)));
}

/// Changes of a saved clock, how many of its bytes are read, and why they are refused.
type Row = (&'static [(usize, u8)], usize, SavedStateError);

/// The bytes of a saved clock, with these bytes at these places.
fn clock_with(changes: &[(usize, u8)]) -> [u8; SAVED_SIZE] {
    let mut saved = clock().to_bytes();
    for (place, byte) in changes {
        if let Some(old) = saved.get_mut(*place) {
            *old = *byte;
        }
    }
    saved
}

/// The fault for which a port's state is not read from these bytes.
fn fault_of_port(alloc: Global, bytes: &[u8]) -> Option<LoadError> {
    SerialState::from_bytes(alloc, bytes).err()
}

/// The header of a port with these bytes at these places, and 74 bytes 0: nine registers and 65 received bytes.
fn of_65_bytes() -> [u8; 82] {
    let mut saved = [0; 82];
    saved[..8].copy_from_slice(&clock_with(&[(KIND, PORT), (LENGTH, 74)])[..8]);
    saved
}

/// Read as a port's bytes, these are its registers and some received bytes.
static OF_NO_PORT: [Row; 7] = [
    (&[(KIND, PORT)], 7, SavedStateError::TooShort),
    (
        &[(LETTER, b's'), (VERSION, UNKNOWN)],
        SAVED_SIZE,
        SavedStateError::NotASavedState,
    ),
    (
        &[(VERSION, UNKNOWN)],
        SAVED_SIZE,
        SavedStateError::OtherDevice,
    ),
    (
        &[(KIND, PORT), (VERSION, UNKNOWN), (LENGTH, 0)],
        SAVED_SIZE,
        SavedStateError::UnknownVersion(UNKNOWN),
    ),
    (
        &[(KIND, PORT)],
        SAVED_SIZE - 1,
        SavedStateError::WrongLength,
    ),
    (
        &[(KIND, PORT), (LENGTH, 8)],
        16,
        SavedStateError::WrongLength,
    ),
    (&[], SAVED_SIZE, SavedStateError::OtherDevice),
];

/// Whether the bytes of a row are no port's, for its reason.
fn is_no_port(alloc: Global, row: &Row) -> bool {
    let (changes, length, fault) = *row;
    let read = fault_of_port(alloc, &clock_with(changes)[..length.min(SAVED_SIZE)]);
    read == Some(LoadError::Invalid(fault))
}

/// Fails if this is wrong: superio_core/src/serial/encoding.rt decode_serial error 1
/// Fails if this is wrong: superio_core/src/serial/encoding.rt decode_serial error 2
#[test]
fn bytes_of_no_port_are_refused_for_the_first_reason(rt: HostRuntime) {
    for row in OF_NO_PORT.iter() {
        assert!(rt; is_no_port(rt.alloc(), row), "{row:?}");
    }
    let read = fault_of_port(rt.alloc(), &of_65_bytes());
    assert!(rt; read == Some(LoadError::Invalid(SavedStateError::TooManyBytes)));
}

static OF_NO_CLOCK: [Row; 7] = [
    (&[], 0, SavedStateError::TooShort),
    (
        &[(LETTER, b's'), (KIND, PORT)],
        SAVED_SIZE,
        SavedStateError::NotASavedState,
    ),
    (&[(KIND, PORT)], SAVED_SIZE, SavedStateError::OtherDevice),
    (
        &[(VERSION, UNKNOWN), (LENGTH, 1)],
        SAVED_SIZE,
        SavedStateError::UnknownVersion(UNKNOWN),
    ),
    (&[], SAVED_SIZE - 1, SavedStateError::WrongLength),
    // No clock has one byte after the header.
    (&[(LENGTH, 1)], 9, SavedStateError::WrongLength),
    (
        &[(SAVED_SIZE - 1, 2)],
        SAVED_SIZE,
        SavedStateError::InvalidArmed,
    ),
];

/// Whether the bytes of a row are no clock's, for its reason.
fn is_no_clock(row: &Row) -> bool {
    let (changes, length, fault) = *row;
    RtcState::from_bytes(&clock_with(changes)[..length.min(SAVED_SIZE)]) == Err(fault)
}

/// Fails if this is wrong: superio_core/src/rtc_pl031/encoding.rt RtcState::parse error 1
/// Fails if this is wrong: superio_core/src/rtc_pl031/encoding.rt RtcState::parse error 2
/// Fails if this is wrong: superio_core/src/saved.rt decode_header error 1
/// Fails if this is wrong: superio_core/src/saved.rt decode_header error 3
/// Fails if this is wrong: superio_core/src/saved.rt decode_header error 4
/// Fails if this is wrong: superio_core/src/saved.rt decode_header error 5
#[test]
fn bytes_of_no_clock_are_refused_for_the_first_reason(rt: HostRuntime) {
    for row in OF_NO_CLOCK.iter() {
        assert!(rt; is_no_clock(row), "{row:?}");
    }
}
