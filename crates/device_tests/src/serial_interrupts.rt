// SPDX-License-Identifier: Apache-2.0 OR BSD-3-Clause
//! The two interrupt conditions of a serial port: when a call asks for them, and what acknowledges them.
use crate::serial_objects::Step::{
    Calls, Enqueue, EnqueueRefused, Events, Iir, Read, Room, Timeout, TimeoutRefused, Write,
    WriteRefused, Written,
};
use crate::serial_objects::{
    IER, IIR, LSR, MCR, Narrow, RBR, Step, THR, TestSerial, fresh_shows, made, takes_sixty_four,
};

// ---- received bytes

#[test]
fn rda_comes_once_for_bytes_that_arrive_together(rt: HostRuntime) {
    fresh_shows(
        &rt,
        0,
        &[
            Write(IER, 0x01),
            Enqueue(&[], 0),
            Calls(0),
            Read(LSR, 0x60),
            Enqueue(&[0x61, 0x62, 0x63], 3),
            Calls(1),
            Read(LSR, 0x61),
            Read(RBR, 0x61),
            Iir(1),
            Read(LSR, 0x61),
            Read(RBR, 0x62),
            Iir(1),
            Read(LSR, 0x61),
            Read(RBR, 0x63),
            Iir(1),
            Read(LSR, 0x60),
        ],
    );
}

/// Fails if this is wrong: vm_superio/src/serial.rt Serial::enqueue_for_run call 1
/// Fails if this is wrong: vm_superio/src/serial/effects.rt call_trigger call 1
#[test]
fn a_read_of_one_byte_ends_rda_until_the_next_arrives(rt: HostRuntime) {
    fresh_shows(
        &rt,
        0,
        &[
            Write(IER, 0x01),
            Enqueue(&[0x61, 0x62], 2),
            Calls(1),
            Read(RBR, 0x61),
            Read(IIR, 0xC1),
            Enqueue(&[0x63], 1),
            Calls(2),
            Read(IIR, 0xC4),
        ],
    );
}

#[test]
fn an_ier_write_raises_rda_again_while_bytes_are_held(rt: HostRuntime) {
    fresh_shows(
        &rt,
        0,
        &[
            Write(IER, 0x01),
            Write(IER, 0x00),
            Enqueue(&[0x61, 0x62, 0x63], 3),
            Calls(0),
            Read(LSR, 0x61),
            Write(IER, 0x01),
            Calls(1),
            Read(IIR, 0xC4),
            Write(IER, 0x01),
            Calls(2),
            Read(IIR, 0xC4),
            Read(RBR, 0x61),
            Read(RBR, 0x62),
            Read(RBR, 0x63),
            Write(IER, 0x01),
            Calls(2),
            Iir(1),
        ],
    );
}

#[test]
fn loopback_bytes_raise_rda_once_until_one_is_read(rt: HostRuntime) {
    fresh_shows(
        &rt,
        0,
        &[
            Write(MCR, 0x10),
            Write(IER, 0x01),
            Calls(0),
            Write(THR, 0x61),
            Calls(1),
            Write(THR, 0x62),
            Calls(1),
            Read(RBR, 0x61),
            Write(THR, 0x63),
            Calls(2),
            Events([1, 0, 0, 0]),
            Written(&[]),
        ],
    );
}

/// Whether this byte, written in loopback after this many interrupts, raises one, is held alone, and is then read.
fn gives_back(port: &mut TestSerial<Narrow>, byte: u8, calls: u64) -> bool {
    port.interrupt_evt().calls() == calls
        && port.write(THR, byte).is_ok()
        && port.interrupt_evt().calls() == calls.saturating_add(1)
        && port.fifo_capacity() == 63
        && port.read(RBR) == byte
}

/// Whether each byte below 64 that is written in loopback raises one interrupt and is then read.
fn gives_back_each(port: &mut TestSerial<Narrow>) -> bool {
    for byte in 0..=0x3F {
        if !gives_back(port, byte, u64::from(byte)) {
            return false;
        }
    }
    true
}

/// Whether LSR shows data ready before each of 64 reads, and these give the bytes 0 to 63.
fn gives_sixty_four(port: &mut TestSerial<Narrow>) -> bool {
    for byte in 0..=0x3F {
        if port.read(LSR) != 0x61 || port.read(RBR) != byte {
            return false;
        }
    }
    true
}

/// Whether loopback gives back each byte, with RDA enabled.
fn loops_back_each(port: &mut TestSerial<Narrow>) -> bool {
    port.write(MCR, 0x10).is_ok()
        && port.write(IER, 0x01).is_ok()
        && gives_back_each(port)
        && port.read(LSR) == 0x60
}

/// Whether loopback then takes 64 bytes for one interrupt, and gives them back.
fn loops_back_all(port: &mut TestSerial<Narrow>) -> bool {
    takes_sixty_four(port)
        && port.fifo_capacity() == 0
        && port.interrupt_evt().calls() == 65
        && gives_sixty_four(port)
        && port.read(LSR) == 0x60
}

#[test]
fn loopback_gives_back_each_byte_and_sixty_four_at_once(rt: HostRuntime) {
    let mut port = made(&rt, rt.alloc(), 0, Narrow::with_room(256));
    assert!(rt; loops_back_each(&mut port) && loops_back_all(&mut port));
}

// ---- the transmitter

#[test]
fn an_iir_read_acknowledges_thre(rt: HostRuntime) {
    fresh_shows(
        &rt,
        0,
        &[
            Write(IER, 0x02),
            Calls(1),
            Write(THR, 0x61),
            Calls(1),
            Read(IIR, 0xC2),
            Read(IIR, 0xC1),
        ],
    );
}

/// Fails if this is wrong: vm_superio/src/serial.rt Serial::write_for_run call 2
#[test]
fn a_sent_byte_leaves_ier_and_shows_thre(rt: HostRuntime) {
    fresh_shows(
        &rt,
        0,
        &[
            Write(IER, 0x02),
            Write(THR, 0x61),
            Calls(1),
            Read(IER, 0x02),
            Read(IIR, 0xC2),
            Iir(1),
        ],
    );
}

#[test]
fn enabling_thre_raises_it(rt: HostRuntime) {
    fresh_shows(
        &rt,
        0,
        &[
            Write(IER, 0x02),
            Calls(1),
            Read(IIR, 0xC2),
            Write(IER, 0x01),
            Calls(1),
            Iir(1),
        ],
    );
}

#[test]
fn thre_stays_pending_when_it_is_disabled(rt: HostRuntime) {
    fresh_shows(
        &rt,
        0,
        &[
            Write(IER, 0x02),
            Write(IER, 0x00),
            Read(IIR, 0xC2),
            Read(IIR, 0xC1),
        ],
    );
}

#[test]
fn ier_keeps_its_upper_two_bits_without_effect(rt: HostRuntime) {
    fresh_shows(
        &rt,
        0,
        &[
            Write(IER, 0x03),
            Calls(1),
            Read(IIR, 0xC2),
            Write(IER, 0x0C),
            Calls(1),
            Read(IER, 0x0C),
            Read(IIR, 0xC1),
        ],
    );
}

// ---- refusals

/// Fails if this is wrong: vm_superio/src/serial/effects.rt write_reply error 1
#[test]
fn a_refused_rda_ends_the_ier_write(rt: HostRuntime) {
    fresh_shows(
        &rt,
        0b01,
        &[
            Enqueue(&[0x61], 1),
            Calls(0),
            WriteRefused(IER, 0x03),
            Calls(1),
            Read(IER, 0x03),
            Write(IER, 0x03),
            Calls(2),
            Read(IIR, 0xC6),
        ],
    );
}

#[test]
fn a_refused_thre_stays_pending_beside_rda(rt: HostRuntime) {
    fresh_shows(
        &rt,
        0b10,
        &[
            Enqueue(&[0x61], 1),
            Calls(0),
            WriteRefused(IER, 0x03),
            Calls(2),
            Read(IIR, 0xC6),
        ],
    );
}

#[test]
fn a_refused_rda_is_shown_and_raised_again_after_iir(rt: HostRuntime) {
    fresh_shows(
        &rt,
        0b01,
        &[
            Enqueue(&[0x61], 1),
            Calls(0),
            WriteRefused(IER, 0x03),
            Calls(1),
            Read(IIR, 0xC4),
            Write(IER, 0x03),
            Calls(3),
            Read(IIR, 0xC6),
        ],
    );
}

/// Fails if this is wrong: vm_superio/src/serial.rt Serial::enqueue_for_run error 1
#[test]
fn a_refused_enqueue_keeps_its_bytes_and_is_not_asked_again(rt: HostRuntime) {
    fresh_shows(
        &rt,
        0b01,
        &[
            Write(IER, 0x01),
            EnqueueRefused(&[0x61]),
            Enqueue(&[0x62], 1),
            Calls(1),
            Read(RBR, 0x61),
            Read(RBR, 0x62),
            Read(LSR, 0x60),
            Calls(1),
        ],
    );
}

// ---- the character timeout

#[test]
fn a_character_timeout_raises_rda_for_bytes_left_after_iir(rt: HostRuntime) {
    fresh_shows(
        &rt,
        0b10,
        &[
            Write(IER, 0x01),
            // No byte is held.
            Timeout,
            Calls(0),
            Enqueue(&[0x61], 1),
            Calls(1),
            // RDA is pending already.
            Timeout,
            Calls(1),
            Read(IIR, 0xC4),
            Read(IIR, 0xC1),
            TimeoutRefused,
            Calls(2),
            // The refused call leaves RDA pending.
            Timeout,
            Calls(2),
            Read(IIR, 0xC4),
            Timeout,
            Calls(3),
            Read(IIR, 0xC4),
            // RDA is disabled.
            Write(IER, 0x00),
            Timeout,
            Calls(3),
            Read(IIR, 0xC1),
            Read(RBR, 0x61),
        ],
    );
}

/// Steps that call the trigger five times.
static ASKING: [Step; 10] = [
    Write(IER, 0x03),
    Enqueue(b"a", 1),
    Write(THR, b'A'),
    Read(IIR, 0xC6),
    Enqueue(b"b", 1),
    Write(IER, 0x03),
    Read(RBR, b'a'),
    Write(IER, 0x03),
    Read(IIR, 0xC6),
    Calls(5),
];

#[test]
fn a_refused_call_changes_one_answer_and_no_read(rt: HostRuntime) {
    // The place of each step that calls the trigger, and what it shows if that call is refused.
    static REFUSED: [(usize, Step); 5] = [
        (0, WriteRefused(IER, 0x03)),
        (1, EnqueueRefused(b"a")),
        (4, EnqueueRefused(b"b")),
        (5, WriteRefused(IER, 0x03)),
        (7, WriteRefused(IER, 0x03)),
    ];
    for (number, (place, refused)) in (0u32..).zip(REFUSED) {
        let mut steps = ASKING;
        steps[place.min(9)] = refused;
        fresh_shows(&rt, 1 << number.min(9), &steps);
    }
}
