// SPDX-License-Identifier: Apache-2.0 OR BSD-3-Clause
//! The registers of a serial port and its receive FIFO, as a guest and a monitor see them.
use crate::serial_objects::Step::{Enqueue, EnqueueFull, Events, Read, Room, Write, Written};
use crate::serial_objects::{
    DLL, DLM, IER, IIR, LCR, LSR, MCR, MSR, Narrow, RBR, SCR, THR, TestSerial, all_show,
    fresh_shows, made, takes_sixty_four,
};
use std::alloc::Global;

#[test]
fn a_fresh_port_shows_its_registers(rt: HostRuntime) {
    fresh_shows(
        &rt,
        0,
        &[
            Read(RBR, 0x00),
            Read(IER, 0x00),
            Read(IIR, 0xC1),
            Read(LCR, 0x03),
            Read(MCR, 0x08),
            Read(LSR, 0x60),
            Read(MSR, 0xB0),
            Read(SCR, 0x00),
        ],
    );
}

#[test]
fn plain_registers_keep_what_is_written(rt: HostRuntime) {
    fresh_shows(
        &rt,
        0,
        &[
            Write(LCR, 0x12),
            Read(LCR, 0x12),
            Write(MCR, 0x12),
            Read(MCR, 0x12),
            Write(SCR, 0x12),
            Read(SCR, 0x12),
        ],
    );
}

#[test]
fn dlab_shows_the_divisor_in_place_of_data_and_ier(rt: HostRuntime) {
    for without_dlab in [0x03, 0x00] {
        fresh_shows(
            &rt,
            0,
            &[
                Write(LCR, 0x80),
                Write(DLM, 0x12),
                Read(DLL, 0x0C),
                Read(DLM, 0x12),
                Write(DLL, 0x34),
                Read(DLL, 0x34),
                Read(DLM, 0x12),
                Write(LCR, without_dlab),
                Read(IER, 0x00),
                Read(RBR, 0x00),
            ],
        );
    }
}

#[test]
fn the_high_divisor_byte_is_not_ier(rt: HostRuntime) {
    fresh_shows(
        &rt,
        0,
        &[
            Write(LCR, 0x80),
            Write(DLM, 0xFF),
            Write(LCR, 0x03),
            Read(IER, 0x00),
            Write(SCR, 0x12),
            Read(SCR, 0x12),
        ],
    );
}

#[test]
fn bytes_arrive_while_dlab_is_set(rt: HostRuntime) {
    fresh_shows(
        &rt,
        0,
        &[
            Write(LCR, 0x80),
            Enqueue(&[0x61], 1),
            Read(DLL, 0x0C),
            Read(LSR, 0x61),
            Write(LCR, 0x03),
            Read(RBR, 0x61),
            Read(LSR, 0x60),
        ],
    );
}

#[test]
fn an_offset_without_register_takes_any_value_and_reads_zero(rt: HostRuntime) {
    fresh_shows(&rt, 0, &[Write(8, 0x05), Read(8, 0x00)]);
}

#[test]
fn loopback_shows_the_modem_outputs_as_inputs(rt: HostRuntime) {
    fresh_shows(
        &rt,
        0,
        &[
            Read(MSR, 0xB0),
            Write(MCR, 0x10),
            Read(MSR, 0x00),
            Write(MCR, 0x18),
            Read(MSR, 0x80),
            Write(MCR, 0x14),
            Read(MSR, 0x40),
            Write(MCR, 0x13),
            Read(MSR, 0x30),
        ],
    );
}

/// Fails if this is wrong: vm_superio/src/serial.rt Serial::enqueue_for_run error 2
#[test]
fn enqueue_stops_at_sixty_four(rt: HostRuntime) {
    fresh_shows(
        &rt,
        0,
        &[
            Enqueue(&[0x01; 65], 64),
            Enqueue(&[], 0),
            EnqueueFull(&[0x01]),
            Read(RBR, 0x01),
            Enqueue(&[0x01, 0x01], 1),
            Room(0),
        ],
    );
}

/// The 40 bytes from 0x00 on, and the 50 from 0x64 on.
static BYTES: [u8; 90] = [
    0x00, 0x01, 0x02, 0x03, 0x04, 0x05, 0x06, 0x07, 0x08, 0x09, 0x0A, 0x0B, 0x0C, 0x0D, 0x0E, 0x0F,
    0x10, 0x11, 0x12, 0x13, 0x14, 0x15, 0x16, 0x17, 0x18, 0x19, 0x1A, 0x1B, 0x1C, 0x1D, 0x1E, 0x1F,
    0x20, 0x21, 0x22, 0x23, 0x24, 0x25, 0x26, 0x27, 0x64, 0x65, 0x66, 0x67, 0x68, 0x69, 0x6A, 0x6B,
    0x6C, 0x6D, 0x6E, 0x6F, 0x70, 0x71, 0x72, 0x73, 0x74, 0x75, 0x76, 0x77, 0x78, 0x79, 0x7A, 0x7B,
    0x7C, 0x7D, 0x7E, 0x7F, 0x80, 0x81, 0x82, 0x83, 0x84, 0x85, 0x86, 0x87, 0x88, 0x89, 0x8A, 0x8B,
    0x8C, 0x8D, 0x8E, 0x8F, 0x90, 0x91, 0x92, 0x93, 0x94, 0x95,
];

/// Whether reads give these bytes.
fn gives(port: &mut TestSerial<Narrow>, bytes: &[u8]) -> bool {
    for byte in bytes {
        if port.read(RBR) != *byte {
            return false;
        }
    }
    true
}

/// Whether an enqueue accepts this many of these bytes.
fn accepts(port: &mut TestSerial<Narrow>, bytes: &[u8], count: usize) -> bool {
    matches!(port.enqueue_raw_bytes(bytes), Ok(accepted) if accepted == count)
}

/// Whether a port holds these bytes, as its state says.
fn holds(alloc: Global, port: &TestSerial<Narrow>, bytes: &[u8]) -> bool {
    match port.state(alloc) {
        Ok(state) => state.in_buffer.as_slice() == bytes,
        Err(_) => false,
    }
}

/// Whether a port takes bytes, gives some of them, and takes others that then stay behind those.
fn takes_in_order(alloc: Global, port: &mut TestSerial<Narrow>) -> bool {
    accepts(port, &BYTES[..40], 40)
        && gives(port, &BYTES[..30])
        && accepts(port, &BYTES[40..], 50)
        && port.fifo_capacity() == 4
        && holds(alloc, port, &BYTES[30..])
}

/// Whether a port takes four bytes more, and gives all in order.
fn gives_in_order(port: &mut TestSerial<Narrow>) -> bool {
    accepts(port, &[0xAA; 10], 4)
        && gives(port, &BYTES[30..])
        && gives(port, &[0xAA; 4])
        && port.read(LSR) == 0x60
}

#[test]
fn bytes_stay_in_order_as_others_arrive(rt: HostRuntime) {
    let mut port = made(&rt, rt.alloc(), 0, Narrow::with_room(256));
    assert!(rt; takes_in_order(rt.alloc(), &mut port) && gives_in_order(&mut port));
}

/// Fails if this is wrong: vm_superio/src/serial/effects.rt report_read call 4
#[test]
fn loopback_drops_what_does_not_fit_and_receives_nothing_else(rt: HostRuntime) {
    let mut port = made(&rt, rt.alloc(), 0, Narrow::with_room(256));
    assert!(rt; port.write(MCR, 0x10).is_ok() && takes_sixty_four(&mut port));
    all_show(
        &rt,
        rt.alloc(),
        &mut port,
        &[
            Write(THR, 0xAA),
            Enqueue(&[0xFF], 0),
            Room(0),
            Read(LSR, 0x61),
            Read(RBR, 0x00),
            Events([1, 0, 0, 0]),
            Written(&[]),
        ],
    );
}
