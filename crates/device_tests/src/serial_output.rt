// SPDX-License-Identifier: Apache-2.0 OR BSD-3-Clause
//! What a serial port sends, and what a writer's failure changes.
use crate::serial_objects::Step::{
    Calls, Enqueue, Events, Read, Write, WriteFails, WriteRefused, Written,
};
use crate::serial_objects::{IER, IIR, Narrow, RBR, THR, TestSerial, fresh_over_shows, made};
use board_objects::LineRefused;
use std::alloc::{AllocError, Global};
use std::io;
use std::io::ErrorKind;
use vm_superio::serial::Error;

/// Whether each of these bytes is sent, IIR then shows this, and the vector has them all.
fn sends_each(port: &mut TestSerial<Vec<u8>>, bytes: &[u8], iir: u8) -> bool {
    for byte in bytes {
        if port.write(THR, *byte).is_err() || port.read(IIR) != iir {
            return false;
        }
    }
    port.writer().as_slice() == bytes
}

/// Fails if this is wrong: vm_superio/src/serial.rt Serial::write_for_run call 1
/// Fails if this is wrong: vm_superio/src/serial/effects.rt send_where_due call 1
#[test]
fn sent_bytes_reach_a_vector_without_interrupt(rt: HostRuntime) {
    let mut port = made(&rt, rt.alloc(), 0, Vec::new(rt.alloc()));
    assert!(rt; sends_each(&mut port, b"abc", 0xC1) && port.interrupt_evt().calls() == 0);
}

/// Whether IER comes to enable THRE, which IIR then shows.
fn enables_thre(port: &mut TestSerial<Vec<u8>>) -> bool {
    port.write(IER, 0x02).is_ok() && port.read(IIR) == 0xC2
}

#[test]
fn bytes_that_reach_a_vector_raise_thre_each(rt: HostRuntime) {
    let mut port = made(&rt, rt.alloc(), 0, Vec::new(rt.alloc()));
    assert!(rt; enables_thre(&mut port) && sends_each(&mut port, b"AAA", 0xC2));
    assert!(rt; port.interrupt_evt().calls() == 4);
}

#[test]
fn a_lost_byte_leaves_thre_pending(rt: HostRuntime) {
    fresh_over_shows(
        &rt,
        0,
        Narrow::with_room(0),
        &[
            Write(IER, 0x02),
            Calls(1),
            WriteFails(THR, 0x05, ErrorKind::WriteZero),
            Events([0, 0, 1, 0]),
            Read(IIR, 0xC2),
        ],
    );
}

#[test]
fn a_refusal_comes_before_the_fault_of_the_writer(rt: HostRuntime) {
    fresh_over_shows(
        &rt,
        0b10,
        Narrow::with_room(0),
        &[
            Write(IER, 0x02),
            Read(IIR, 0xC2),
            WriteRefused(THR, 0x05),
            Events([0, 0, 1, 0]),
            Read(IIR, 0xC2),
        ],
    );
}

/// Fails if this is wrong: vm_superio/src/serial/effects.rt report_sent call 2
#[test]
fn a_byte_that_is_not_flushed_is_lost(rt: HostRuntime) {
    fresh_over_shows(
        &rt,
        0,
        Narrow::without_flush(),
        &[
            WriteFails(THR, 0x41, ErrorKind::Other),
            Events([0, 0, 1, 0]),
            Read(IIR, 0xC1),
        ],
    );
}

/// Fails if this is wrong: vm_superio/src/serial/effects.rt report_sent call 1
/// Fails if this is wrong: vm_superio/src/serial/effects.rt send_where_due call 3
#[test]
fn a_writer_that_is_full_loses_the_next_byte(rt: HostRuntime) {
    fresh_over_shows(
        &rt,
        0,
        Narrow::with_room(1),
        &[
            Write(THR, 0x41),
            WriteFails(THR, 0x42, ErrorKind::WriteZero),
            Events([0, 1, 1, 0]),
            Written(&[0x41]),
        ],
    );
}

#[test]
fn each_event_is_reported_once(rt: HostRuntime) {
    fresh_over_shows(
        &rt,
        0,
        Narrow::with_room(1),
        &[
            Read(RBR, 0x00),
            Events([1, 0, 0, 1]),
            Write(THR, 0x01),
            Events([1, 1, 0, 1]),
            WriteFails(THR, 0x01, ErrorKind::WriteZero),
            Events([1, 1, 1, 1]),
            Read(RBR, 0x00),
            Events([2, 1, 1, 2]),
            // A byte is left.
            Enqueue(&[0x01, 0x02], 2),
            Read(RBR, 0x01),
            Events([3, 1, 1, 2]),
        ],
    );
}

/// Whether an error displays this text.
fn displays(alloc: Global, error: &Error<LineRefused>, text: &str) -> bool {
    match format!(in alloc; "{error}") {
        Ok(displayed) => displayed.as_str() == text,
        Err(_) => false,
    }
}

/// What an error displays that has this fault of a writer.
fn text_of_writer(alloc: Global, fault: io::Error) -> Result<String, AllocError> {
    format!(in alloc; "Couldn't write/flush to the given destination: {fault}")
}

/// Whether an error with this fault of a writer displays it.
fn displays_fault(alloc: Global, fault: io::Error) -> bool {
    match text_of_writer(alloc, fault) {
        Ok(text) => displays(alloc, &Error::IOError(fault), text.as_str()),
        Err(_) => false,
    }
}

#[test]
fn an_error_displays_what_failed_and_why(rt: HostRuntime) {
    let rows = [
        (
            Error::Trigger(LineRefused),
            "Failed to trigger interrupt: line refused",
        ),
        (Error::FullFifo, "No space left in FIFO"),
        (Error::Memory, "Out of memory"),
    ];
    for (error, text) in rows {
        assert!(rt; displays(rt.alloc(), &error, text), "{text}");
    }
    assert!(rt; displays_fault(rt.alloc(), io::Error::from(ErrorKind::WriteZero)));
}
