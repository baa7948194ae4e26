// SPDX-License-Identifier: Apache-2.0 OR BSD-3-Clause
//! The programs to copy at work, with values from data sheets, from PCs and from guests: parts of a monitor, a whole
//! one, and one that moves.

use failing_objects::{Log, Object, port};
use std::test::Fail;
use superio_examples::bus::{Bus, BusError, COM1, COM2, COM3, COM4, Keyboard};
use superio_examples::mmio::ClockWindow;
use superio_examples::monitor::Answer::{Done, Full, Reset, Shows};
use superio_examples::monitor::MachineEvent::{
    Drained, MemoryRead, MemoryWrite, Moment, PortRead, PortWrite, Refused, Suspended, Timer, Typed,
};
use superio_examples::monitor::{Answer, MachineEvent, MachineReply, Monitor};
use superio_examples::saved_monitor::{move_monitor, restore_monitor, save_monitor};
use vm_superio::saved::SavedStateError;
use vm_superio::{I8042Device, Rtc};

// ---- buses

/// A bus over objects of a log.
type TestBus<'a> = Bus<Object<'a>, Object<'a>, Object<'a>, Object<'a>>;

/// Writes of one, two or four bytes, or of none that a guest has. At the first bus the keyboard is silent, and at the
/// second there is none.
const WRITES: [(u16, &[u8]); 16] = [
    // The first guest enables RDA, and the second THRE.
    (0x3F9, b"\x01"),
    (0x2F9, b"\x02"),
    // The scratch registers.
    (0x3FF, b"\x11"),
    (0x2FF, b"\x22"),
    // LCR to LSR, which cannot be written.
    (0x3FB, b"\x1B\x02\xFF\xFF"),
    // Bytes to send, one with IER.
    (0x3F8, b"a\x01"),
    (0x2F8, b"b"),
    (0x2F8, b"c"),
    // A length that no guest has, and ports of no device.
    (0x3FF, b"abc"),
    (0x3F7, b"\xFE"),
    (0x400, b"\xFE"),
    (0x5F, b"\xFE"),
    (0x61, b"\xFE"),
    (0x63, b"\xFE"),
    (0x65, b"\xFE"),
    (0xFFFF, b"\xFE"),
];

/// What reads then give at the first bus and at the second.
const READS: [(u16, &[u8], &[u8]); 16] = [
    // IIR to LSR, RBR, IER and the scratch register.
    (0x3FA, b"\xC4\x1B\x02\x61", b"\xFF\xFF\xFF\xFF"),
    (0x2FA, b"\xFF\xFF\xFF\xFF", b"\xC2\x03\x08\x60"),
    (0x3F8, b"x\x01", b"\xFF\xFF"),
    (0x2F8, b"\xFF\xFF", b"\x00\x02"),
    (0x3FF, b"\x11", b"\xFF"),
    (0x2FF, b"\xFF", b"\x22"),
    // The controller, and ports beside it.
    (0x60, b"\x00", b"\xFD"),
    (0x64, b"\x00", b"\xFD"),
    (0x5F, b"\xFF\x00", b"\xFF\xFD"),
    (0x61, b"\xFF\xFF", b"\xFF\xFF"),
    (0x63, b"\xFF\x00", b"\xFF\xFD"),
    (0x65, b"\xFF", b"\xFF"),
    // The ends of the first device, and of all ports.
    (0x3F7, b"\xFF\x00", b"\xFF\xFF"),
    (0x3FE, b"\xB0\x11\xFF\xFF", b"\xFF\xFF\xFF\xFF"),
    (0xFFFF, b"\xFF\xFF", b"\xFF\xFF"),
    // A length that no guest has.
    (0x3FD, b"\xFF\xFF\xFF", b"\xFF\xFF\xFF"),
];

/// Whether a read at this port, of as many bytes as `expected` has, gives these bytes.
fn gives(bus: &mut TestBus<'_>, at: u16, expected: &[u8]) -> bool {
    let mut bytes = [0xAA; 4];
    let count = expected.len().min(4);
    bus.port_in(at, &mut bytes[..count]);
    bytes[..count] == expected[..]
}

#[test]
fn buses_reach_their_devices_by_port(rt: HostRuntime) -> Result<(), Fail> {
    assert!(rt; [COM1, COM2, COM3, COM4] == [0x3F8, 0x2F8, 0x3E8, 0x2E8]);
    let log = Log::new();
    let other_log = Log::new();
    let mut first = Bus {
        base: COM1,
        keyboard: Keyboard::Silent,
        serial: port(rt.alloc(), &log)?,
        controller: I8042Device::new(Object(&log)),
    };
    let mut second = Bus {
        base: COM2,
        keyboard: Keyboard::Absent,
        serial: port(rt.alloc(), &other_log)?,
        controller: I8042Device::new(Object(&other_log)),
    };
    // Both are offered every access.
    for (at, bytes) in WRITES {
        assert!(rt; first.port_out(at, bytes).is_ok(), "{at:#x}");
        assert!(rt; second.port_out(at, bytes).is_ok(), "{at:#x}");
    }
    assert!(rt; first.serial.enqueue_raw_bytes(b"x").ok() == Some(1));
    assert!(rt; [log.calls(), other_log.calls()] == [[1, 1, 1, 1], [1, 2, 2, 2]]);
    for (at, of_first, of_second) in READS {
        assert!(rt; gives(&mut first, at, of_first), "{at:#x}");
        assert!(rt; gives(&mut second, at, of_second), "{at:#x}");
    }
    // The first reset is refused, and then an interrupt. The second byte of that write reaches IER all the same.
    log.refused.set(2);
    assert!(rt; matches!(first.write(0x64, 0xFE), Err(BusError::Reset(_))));
    assert!(rt; first.write(0x64, 0xFE).is_ok() && log.triggers.get() == 3);
    assert!(rt; first.write(0x3F9, 0x02).is_ok() && first.read(0x3FA) == 0xC2);
    log.refused.set(5);
    assert!(rt; matches!(first.port_out(0x3F8, b"d\x00"), Err(BusError::Serial(_))));
    assert!(rt; first.read(0x3F9) == 0x00);
    Ok(())
}

// ---- clocks

/// Where a clock's window begins.
const BASE: u64 = 0x10_0000_0000;

/// Reads of these lengths, seven seconds after the guest has set 1,000, and what they leave of bytes 0xAA.
static CLOCK_READS: [(u64, usize, [u8; 4]); 15] = [
    (BASE, 4, [0xEF, 0x03, 0, 0]),
    // Parts of a register, of two, and of none.
    (BASE, 2, [0xEF, 0x03, 0xAA, 0xAA]),
    (BASE + 1, 1, [0x03, 0xAA, 0xAA, 0xAA]),
    (BASE + 3, 2, [0, 0, 0xAA, 0xAA]),
    (BASE, 3, [0, 0, 0, 0xAA]),
    (BASE + 0xFDC, 4, [0; 4]),
    // The identification, as EDK II reads it.
    (BASE + 0xFE0, 1, [0x31, 0xAA, 0xAA, 0xAA]),
    (BASE + 0xFE4, 1, [0x10, 0xAA, 0xAA, 0xAA]),
    (BASE + 0xFE8, 1, [0x04, 0xAA, 0xAA, 0xAA]),
    (BASE + 0xFF0, 1, [0x0D, 0xAA, 0xAA, 0xAA]),
    (BASE + 0xFFC, 1, [0xB1, 0xAA, 0xAA, 0xAA]),
    (BASE + 0xFE0, 4, [0x31, 0, 0, 0]),
    // Outside.
    (BASE - 4, 4, [0; 4]),
    (BASE + 0x1000, 4, [0; 4]),
    (0, 4, [0; 4]),
];

/// The first address whose read does not leave what it has to.
fn first_left_otherwise(window: &mut ClockWindow<Object<'_>>) -> Option<u64> {
    for (address, length, left) in CLOCK_READS.iter() {
        let mut bytes = [0xAA; 4];
        window.read(*address, &mut bytes[..(*length).min(4)], 1_700_000_007);
        if bytes != *left {
            return Some(*address);
        }
    }
    None
}

/// Makes writes of lengths in which no guest writes a register.
fn write_lengths(window: &mut ClockWindow<Object<'_>>) {
    let bytes = [0xFF; 8];
    for length in [1usize, 2, 3, 8] {
        window.write(BASE + 4, &bytes[..length.min(8)], 1_700_000_007);
    }
}

#[test]
fn a_clock_is_reached_in_its_window(rt: HostRuntime) {
    let log = Log::new();
    let mut window = ClockWindow {
        base: BASE,
        clock: Rtc::with_events(Object(&log)),
    };
    window.write(BASE + 8, &1_000u32.to_le_bytes(), 1_700_000_000);
    assert_eq!(rt; first_left_otherwise(&mut window), None);
    write_lengths(&mut window);
    // Three reads and four writes in the window reached no register.
    assert!(rt; window.clock.state().mr == 0 && log.calls() == [0, 7, 0, 0]);
}

// ---- a whole monitor

/// The clock's window.
const CLOCK: u64 = 0x0901_0000;

/// Events, and to each the answer, how often the interrupt is raised, and whether the clock's line is up.
const SESSION: [(MachineEvent, Answer, u8, bool); 61] = [
    // What is typed waits at its source while the guest tests its port.
    (Typed(b'a'), Full, 0, false),
    (PortWrite(0x3F9, 0x0F), Done, 1, false),
    (PortRead(0x3FA), Shows(0xC2), 0, false),
    (PortRead(0x3FD), Shows(0x60), 0, false),
    (Typed(b'a'), Full, 0, false),
    // The guest enables the interrupts for received data, and takes a byte of two.
    (PortWrite(0x3F9, 0x01), Done, 0, false),
    (Typed(b'a'), Done, 1, false),
    (Typed(b'b'), Done, 0, false),
    (PortRead(0x3FA), Shows(0xC4), 0, false),
    (PortRead(0x3FD), Shows(0x61), 0, false),
    (PortRead(0x3F8), Shows(0x61), 0, false),
    // It leaves the other one in the FIFO.
    (PortRead(0x3FA), Shows(0xC1), 1, false),
    (Refused, Done, 0, false),
    (Timer, Done, 1, false),
    (Timer, Done, 0, false),
    // What IER disables is asked for by the write that enables it.
    (Refused, Done, 0, false),
    (PortWrite(0x3F9, 0x00), Done, 0, false),
    (Timer, Done, 0, false),
    (PortWrite(0x3F9, 0x01), Done, 1, false),
    (Timer, Done, 0, false),
    (PortRead(0x3F8), Shows(0x62), 0, false),
    (PortRead(0x3F8), Shows(0), 0, false),
    (PortRead(0x3FA), Shows(0xC1), 0, false),
    // It sends two bytes, and the sink takes one.
    (PortWrite(0x3F8, b'x'), Done, 0, false),
    (PortWrite(0x3F8, b'y'), Done, 0, false),
    (Drained(1), Done, 0, false),
    // What is written while DLAB is set is the divisor.
    (PortWrite(0x3FB, 0x83), Done, 0, false),
    (PortWrite(0x3F8, b'w'), Done, 0, false),
    (PortWrite(0x3FB, 0x03), Done, 0, false),
    // Another byte stays in loopback, where no input goes in.
    (PortWrite(0x3FC, 0x10), Done, 0, false),
    (Typed(b'c'), Full, 0, false),
    (PortWrite(0x3F8, b'z'), Done, 1, false),
    (PortRead(0x3F8), Shows(0x7A), 0, false),
    (PortWrite(0x3FC, 0x08), Done, 0, false),
    // It sets an alarm.
    (Moment(100), Done, 0, false),
    (MemoryWrite(CLOCK + 0x010, 1), Done, 0, false),
    (MemoryWrite(CLOCK + 0x004, 105), Done, 0, false),
    (MemoryRead(CLOCK), Shows(100), 0, false),
    (Moment(105), Done, 0, false),
    (Timer, Done, 0, true),
    (MemoryWrite(CLOCK + 0x01C, 1), Done, 0, false),
    // A register that can only be written, memory of no device, the controller, and two ports of no device.
    (MemoryRead(CLOCK + 0x01C), Shows(0), 0, false),
    (MemoryRead(CLOCK - 4), Shows(0), 0, false),
    (PortRead(0x64), Shows(0), 0, false),
    (PortRead(0x61), Shows(0xFF), 0, false),
    (PortRead(0x400), Shows(0xFF), 0, false),
    // It resets the machine. The byte that is held is lost, and input waits again.
    (Typed(b'c'), Done, 1, false),
    (PortRead(0x3FD), Shows(0x61), 0, false),
    (PortWrite(0x60, 0xFE), Done, 0, false),
    (PortWrite(0x64, 0xFF), Done, 0, false),
    (PortWrite(0x64, 0xFE), Reset, 0, false),
    (Typed(b'd'), Full, 0, false),
    (PortRead(0x3FD), Shows(0x60), 0, false),
    (PortRead(0x3FC), Shows(0x08), 0, false),
    // It is ready again, and sleeps in memory until the next reset.
    (PortWrite(0x3F9, 0x05), Done, 0, false),
    (Typed(b'd'), Done, 1, false),
    (PortRead(0x3F8), Shows(0x64), 0, false),
    (Suspended, Done, 0, false),
    (Typed(b'e'), Full, 0, false),
    (PortWrite(0x64, 0xFE), Reset, 0, false),
    (Typed(b'e'), Full, 0, false),
];

/// The place of the first reply that is not as in the session.
fn first_wrong(before: &[MachineReply], after: &[MachineReply]) -> Option<usize> {
    let replies = before.iter().chain(after.iter());
    SESSION.iter().zip(replies).position(|((_, answer, interrupts, line), reply)| {
        reply.answer != *answer || reply.work.interrupts != *interrupts || reply.clock_line != *line
    })
}

#[test]
fn a_monitor_replies_to_each_event_also_if_it_moves(rt: HostRuntime) -> Result<(), Fail> {
    let alloc = rt.alloc();
    let mut events = Vec::new(alloc);
    for (event, _, _, _) in SESSION.iter() {
        events.push(*event)?;
    }
    assert!(rt; events.len() == SESSION.len());
    for place in 0..=events.len() {
        let mut monitor = Monitor::new(false);
        let (first, others) = events.split_at(place);
        let before = monitor.run(alloc, first)?;
        let mut moved = move_monitor(alloc, &monitor)?;
        let after = moved.run(alloc, others)?;
        assert!(rt; (before.len(), after.len()) == (place, others.len()));
        assert!(rt; first_wrong(&before, &after).is_none(), "{place}");
        assert!(rt; moved.console.output() == b"y".as_slice(), "{place}");
    }
    Ok(())
}

#[test]
fn a_guest_that_polls_gets_its_input_at_once(rt: HostRuntime) -> Result<(), Fail> {
    let mut monitor = Monitor::new(true);
    monitor.step(Typed(b'a'));
    assert!(rt; matches!(monitor.step(PortRead(0x3FD)).answer, Shows(0x61)));
    assert!(rt; matches!(monitor.step(PortRead(0x3F8)).answer, Shows(0x61)));
    // Bytes of another device are no monitor.
    let mut saved = save_monitor(rt.alloc(), &monitor)?;
    assert!(rt; restore_monitor(&saved).is_ok());
    saved.console = saved.clock.clone()?;
    let error = restore_monitor(&saved).err();
    assert!(rt; matches!(error, Some(SavedStateError::OtherDevice)));
    Ok(())
}
