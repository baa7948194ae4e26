// SPDX-License-Identifier: Apache-2.0 OR BSD-3-Clause
//! States of a serial port: what a restore takes and calls, and what reads show then, also from states that no guest
//! could have led to.
use crate::serial_objects::Step::{Calls, Enqueue, Events, Read, Restore, Write};
use crate::serial_objects::{
    Fields, IER, IIR, LSR, RBR, THR, TestSerial, fresh_shows, has_state, is_fresh, made, remade,
    restored_shows, state_of, state_with,
};
use board_objects::{Counts, Line, LineRefused};
use std::alloc::Global;
use std::process::Abort;
use vm_superio::serial::Error;
use vm_superio::{Serial, SerialState};

// ---- restores

/// A state in which both conditions are pending and enabled.
const BOTH_PENDING: Fields = Fields {
    iir: 0x06,
    ier: 0x03,
    lsr: 0x61,
    held: &[0x61],
};

#[test]
fn a_fresh_port_has_the_default_state(rt: HostRuntime) {
    let port = made(&rt, rt.alloc(), 0, Vec::new(rt.alloc()));
    assert!(rt; is_fresh(rt.alloc(), &port));
}

/// Whether a copy of a state is equal to it.
fn is_copied(alloc: Global, state: &SerialState) -> bool {
    match state.clone(alloc) {
        Ok(copy) => copy == *state,
        Err(_) => false,
    }
}

#[test]
fn sixty_four_bytes_are_restored_and_copied(rt: HostRuntime) {
    let fields = Fields {
        iir: 0x01,
        ier: 0x00,
        lsr: 0x61,
        held: &[0x01; 64],
    };
    let state = state_with(&rt, rt.alloc(), fields);
    assert!(rt; is_copied(rt.alloc(), &state));
    let port = remade(&rt, rt.alloc(), &state, 0, Vec::new(rt.alloc()));
    assert!(rt; port.fifo_capacity() == 0 && has_state(rt.alloc(), &port, &state));
}

/// How often a restore over this line called it before it was refused, and why it was. `None` if a port was made.
fn refusal_of(alloc: Global, state: &SerialState, line: Line) -> Option<(u64, Error<LineRefused>)> {
    match Serial::from_state(alloc, state, line, Counts::new(), Vec::new(alloc)) {
        Ok(_) => None,
        Err(refused) => Some((refused.trigger.calls(), refused.into_error())),
    }
}

/// Fails if this is wrong: vm_superio/src/serial/effects.rt restored error 1
#[test]
fn more_than_sixty_four_bytes_are_refused_before_any_call(rt: HostRuntime) {
    let of_128_bytes = Fields {
        iir: 0x01,
        ier: 0x00,
        lsr: 0x60,
        held: &[0x01; 128],
    };
    let of_65_bytes = Fields {
        iir: 0x06,
        ier: 0x03,
        lsr: 0x61,
        held: &[0x01; 65],
    };
    for fields in [of_128_bytes, of_65_bytes] {
        let state = state_with(&rt, rt.alloc(), fields);
        let refusal = refusal_of(rt.alloc(), &state, Line::new(0));
        assert!(rt; matches!(refusal, Some((0, Error::FullFifo))));
    }
}

#[test]
fn a_restored_port_has_the_state_that_it_was_made_of(rt: HostRuntime) {
    let state = state_with(&rt, rt.alloc(), BOTH_PENDING);
    let port = remade(&rt, rt.alloc(), &state, 0, Vec::new(rt.alloc()));
    assert!(rt; has_state(rt.alloc(), &port, &state));
}

#[test]
fn a_restore_calls_the_trigger_for_both_conditions(rt: HostRuntime) {
    restored_shows(&rt, BOTH_PENDING, &[Calls(2), Read(IIR, 0xC6)]);
}

/// Fails if this is wrong: vm_superio/src/serial.rt Serial::from_state error 1
/// Fails if this is wrong: vm_superio/src/serial/effects.rt call_again error 1
/// Fails if this is wrong: vm_superio/src/serial/effects.rt restored error 2
#[test]
fn a_refused_restore_hands_the_trigger_back(rt: HostRuntime) {
    let state = state_with(&rt, rt.alloc(), BOTH_PENDING);
    let refusal = refusal_of(rt.alloc(), &state, Line::new(0b10));
    assert!(rt; matches!(refusal, Some((2, Error::Trigger(LineRefused)))));
}

#[test]
fn a_restore_calls_the_new_trigger_for_thre(rt: HostRuntime) {
    fresh_shows(
        &rt,
        0,
        &[
            Write(IER, 0x02),
            Write(THR, 0x61),
            Restore,
            Calls(1),
            Read(IER, 0x02),
            Read(IIR, 0xC2),
        ],
    );
}

/// Fails if this is wrong: vm_superio/src/serial.rt Serial::from_state call 1
/// Fails if this is wrong: vm_superio/src/serial/effects.rt call_again call 1
/// Fails if this is wrong: vm_superio/src/serial/effects.rt restored call 1
#[test]
fn a_restore_calls_the_new_trigger_for_rda(rt: HostRuntime) {
    fresh_shows(
        &rt,
        0,
        &[
            Write(IER, 0x01),
            Enqueue(&[0x61, 0x62, 0x63], 3),
            Restore,
            Calls(1),
            Read(IER, 0x01),
            Read(IIR, 0xC4),
        ],
    );
}

/// Whether a port takes a byte to send, and its writer then holds that byte alone.
fn sends_one(port: &mut TestSerial<Vec<u8>>) -> bool {
    port.write(THR, 0x66).is_ok() && port.writer().as_slice() == [0x66].as_slice()
}

/// Whether a port sends a byte, is fresh again once its writer is cleared, and then sends one.
fn clears(alloc: Global, port: &mut TestSerial<Vec<u8>>) -> bool {
    let is_sent = sends_one(port);
    port.writer_mut().clear();
    is_sent && port.writer().is_empty() && is_fresh(alloc, port) && sends_one(port)
}

#[test]
fn a_writer_is_cleared_and_passed_on(rt: HostRuntime) {
    let mut port = made(&rt, rt.alloc(), 0, Vec::new(rt.alloc()));
    let is_cleared = clears(rt.alloc(), &mut port);
    let state = state_of(&rt, rt.alloc(), &port);
    let port = remade(&rt, rt.alloc(), &state, 0, port.into_writer());
    assert!(rt; is_cleared && port.writer().as_slice() == [0x66].as_slice());
}

// ---- states that no guest could have led to

/// A state without a byte.
const fn without_byte(iir: u8, ier: u8, lsr: u8) -> Fields {
    Fields {
        iir,
        ier,
        lsr,
        held: &[],
    }
}

#[test]
fn an_iir_without_bits_is_shown_once(rt: HostRuntime) {
    restored_shows(
        &rt,
        without_byte(0x00, 0x00, 0x60),
        &[Calls(0), Read(IIR, 0xC0), Read(IIR, 0xC1)],
    );
}

#[test]
fn an_iir_without_bits_takes_thre(rt: HostRuntime) {
    restored_shows(
        &rt,
        without_byte(0x00, 0x00, 0x60),
        &[Write(IER, 0x02), Calls(1), Read(IIR, 0xC2)],
    );
}

#[test]
fn an_iir_of_all_bits_has_both_conditions(rt: HostRuntime) {
    restored_shows(
        &rt,
        without_byte(0xFF, 0x03, 0x00),
        &[Calls(2), Read(IIR, 0xFF), Read(IIR, 0xC1)],
    );
}

/// Fails if this is wrong: vm_superio/src/serial/effects.rt report_read call 1
#[test]
fn a_read_of_no_byte_takes_rda_alone_out_of_iir(rt: HostRuntime) {
    for (iir, shown) in [(0x04, 0xC1), (0x08, 0xC8), (0xFF, 0xFB)] {
        restored_shows(
            &rt,
            without_byte(iir, 0x00, 0x60),
            &[
                Calls(0),
                Read(RBR, 0x00),
                Events([1, 0, 0, 1]),
                Read(IIR, shown),
            ],
        );
    }
}

#[test]
fn data_ready_without_a_byte_ends_at_the_next_read(rt: HostRuntime) {
    restored_shows(
        &rt,
        without_byte(0x01, 0x00, 0x61),
        &[
            Read(LSR, 0x61),
            Read(RBR, 0x00),
            Events([1, 0, 0, 1]),
            Read(LSR, 0x60),
        ],
    );
}

/// What IER of a fresh port keeps of these bits.
fn kept_by_ier(rt: &impl Abort, alloc: Global, bits: u8) -> u8 {
    let mut port = made(rt, alloc, 0, Vec::new(alloc));
    let _ = port.write(IER, bits);
    port.read(IER)
}

#[test]
fn a_restored_ier_is_cut_to_its_bits_by_the_next_write(rt: HostRuntime) {
    let kept = kept_by_ier(&rt, rt.alloc(), 0xFF);
    assert!(rt; kept < 0xFF);
    restored_shows(
        &rt,
        without_byte(0x02, 0xFF, 0x60),
        &[Calls(1), Read(IER, 0xFF), Write(IER, 0xFF), Read(IER, kept)],
    );
}
