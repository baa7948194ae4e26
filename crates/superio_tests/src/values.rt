// SPDX-License-Identifier: Apache-2.0 OR BSD-3-Clause
//! Devices without I/O and consoles as values: they are equal if their saved states are, and each is printed.
use std::test::Fail;
use superio_console::Console;
use superio_core::serial::{EnqueueEffects, ReadEffects, WriteEffects};
use superio_core::{Pl031, Uart};

#[test]
fn ports_are_equal_if_their_states_are(rt: HostRuntime) {
    let (port, mut other) = (Uart::new(), Uart::new());
    let enqueued = EnqueueEffects {
        accepted: 1,
        fifo_full: false,
        interrupts: 0,
    };
    assert!(rt; other.enqueue_raw_bytes(b"a") == enqueued);
    assert!(rt; port != other);
    let read = ReadEffects {
        byte: b'a',
        buffer_read: true,
        in_buffer_empty: true,
    };
    assert!(rt; other.read(0) == read);
    assert!(rt; port.in_buffer.head != other.in_buffer.head && port == other);
    assert!(rt; port.to_bytes() == other.to_bytes());
    let written = WriteEffects {
        sends: false,
        interrupts: 0,
    };
    assert!(rt; other.write(7, 1) == written);
    assert!(rt; port != other && port.registers != other.registers);
    assert!(rt; port.to_bytes() != other.to_bytes());
}

#[test]
fn clocks_are_equal_if_their_states_are(rt: HostRuntime) {
    let with_alarm = |armed: u64| Pl031 {
        armed,
        ..Pl031::new()
    };
    assert!(rt; with_alarm(1) == with_alarm(2));
    assert!(rt; with_alarm(0) == Pl031::new() && with_alarm(1) != Pl031::new());
}

#[test]
fn consoles_are_equal_if_their_states_are(rt: HostRuntime) {
    let (console, mut other) = (Console::new(true), Console::new(true));
    let _ = other.write(0, b'x');
    assert!(rt; console != other);
    other.consume(1);
    assert!(rt; console.output.head != other.output.head && console == other);
    assert!(rt; console != Console::new(false));
}

#[test]
fn each_value_is_printed(rt: HostRuntime) -> Result<(), Fail> {
    let alloc = rt.alloc();
    let mut console = Console::new(false);
    let _ = console.write(0, b'x');
    let text = format!(in alloc; "{console:?}")?;
    assert!(rt; text.contains("output: OutputRing { head: 0, len: 1, .. }"));
    let port = format!(in alloc; "{:?}", console.port)?;
    assert!(rt; text.contains(&port) && port.contains("baud_divisor_low: 12"));
    let clock = format!(in alloc; "{:?}", Pl031::new())?;
    assert!(rt; clock.as_str() == "Pl031 { lr: 0, mr: 0, imsc: 0, ris: 0, offset: 0, armed: 0 }");
    Ok(())
}
