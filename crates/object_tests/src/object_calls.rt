// SPDX-License-Identifier: Apache-2.0 OR BSD-3-Clause
//! The calls that objects get, and the faults with which they answer, where no contract says so. A data write,
//! whichever call makes it, calls `write` once, and `flush` once if that succeeded, and returns their fault unchanged.
//! The same holds for an event and for an output that is drained. A call that takes objects and drops them does not call
//! them first.
use board_objects::LineRefused;
use failing_objects::{
    FAULTS, Log, Object, SerialCall, TestSerial, Then, Writing, by_std, drawn, drawn_clock,
    drawn_state, fault_of, in_order, is_same, port, port_over, writings,
};
use std::alloc::Global;
use std::io;
use std::io::Write;
use std::test::Fail;
use superio_examples::bus::{Bus, BusError, COM1, Keyboard};
use superio_examples::queues::OutputQueue;
use superio_examples::triggers::EventFd;
use vm_superio::run::{Call, Reply, run};
use vm_superio::serial::{Error, Refused};
use vm_superio::{I8042Device, Rtc, Serial, Trigger};

// ---- a byte that is sent

/// What a call returned that sent a byte.
type Sent = Result<(), Error<LineRefused>>;

/// Whether a call that sent a byte returned the writer's fault, and called `write` and `flush` no more than it has to.
/// The writer does what `writing` says.
fn is_right(alloc: Global, log: &Log, writing: Writing, found: &Sent) -> Result<bool, Fail> {
    let returned = match found {
        Ok(()) => Ok(()),
        Err(Error::IOError(fault)) => Err(*fault),
        Err(_) => return Ok(false),
    };
    let expected = by_std(writing, &[b"x"], true);
    Ok(is_same(alloc, &log.outcome(returned), &expected)?)
}

/// The error of a bus as one of its port.
fn of_port(error: BusError<LineRefused, LineRefused>) -> Error<LineRefused> {
    match error {
        BusError::Serial(error) => error,
        BusError::Reset(refusal) => Error::Trigger(refusal),
    }
}

/// A bus over objects of a log.
type TestBus<'a> = Bus<Object<'a>, Object<'a>, Object<'a>, Object<'a>>;

/// Sends a byte in one of three ways: by a port, by its bus, and with IER, which enables both conditions.
fn send_by(bus: &mut TestBus<'_>, byte: u8, way: u8) -> Sent {
    match way {
        0 => bus.serial.write(0, byte),
        1 => bus.write(COM1, byte).map_err(of_port),
        _ => bus.port_out(COM1, &[byte, 0x03]).map_err(of_port),
    }
}

/// Whether a byte is sent right in this way over a writer that does this. The guest then reads IIR.
fn is_sent_right(
    alloc: Global,
    log: &Log,
    bus: &mut TestBus<'_>,
    writing: Writing,
    byte: u8,
    way: u8,
) -> Result<bool, Fail> {
    log.start(writing);
    let sent = send_by(bus, byte, way);
    let is_right = is_right(alloc, log, writing, &sent)?;
    bus.serial.read(2);
    Ok(is_right)
}

#[test]
fn a_fault_of_the_writer_is_returned_as_it_is(rt: HostRuntime) -> Result<(), Fail> {
    let log = Log::new();
    let mut bus = Bus {
        base: COM1,
        keyboard: Keyboard::Silent,
        serial: port(rt.alloc(), &log)?,
        controller: I8042Device::new(Object(&log)),
    };
    for number in 0..FAULTS {
        let [byte, ..] = drawn(u64::from(number.unsigned_abs())).to_le_bytes();
        for writing in writings(number) {
            for way in 0..3u8 {
                assert!(rt;
                    is_sent_right(rt.alloc(), &log, &mut bus, writing, byte, way)?,
                    "{way} {number}"
                );
            }
        }
    }
    Ok(())
}

/// Whether a data write over a writer that does this makes these calls, and fails if it has to, or if the trigger
/// refuses.
fn is_in_order(
    serial: &mut TestSerial<'_>,
    log: &Log,
    row: &(Writing, &[u8], bool),
    is_refused: bool,
) -> bool {
    let (writing, letters, fails) = *row;
    serial.read(2);
    log.start(writing);
    log.order.set(0);
    let next = log.triggers.get().wrapping_add(1);
    log.refused.set(if is_refused { next } else { 0 });
    serial.write(0, b'x').is_err() == (is_refused || fails) && log.order.get() == in_order(letters)
}

#[test]
fn a_data_write_turns_to_the_writer_then_events_then_trigger(rt: HostRuntime) -> Result<(), Fail> {
    let log = Log::new();
    let mut serial = port(rt.alloc(), &log)?;
    serial.write(1, 0x03)?;
    let no_flush = Writing {
        flush: Some(io::Error::from(io::ErrorKind::Other)),
        ..Writing::takes()
    };
    let no_write = Writing::failing(io::Error::from(io::ErrorKind::Other));
    let rows: [(Writing, &[u8], bool); 3] = [
        (Writing::takes(), b"WFoT", false),
        (no_write, b"WlT", true),
        (no_flush, b"WFlT", true),
    ];
    for row in rows.iter() {
        assert!(rt; is_in_order(&mut serial, &log, row, false));
        assert!(rt; is_in_order(&mut serial, &log, row, true));
    }
    log.order.set(0);
    log.refused.set(0);
    assert!(rt; serial.enqueue_raw_bytes(b"ab").is_ok());
    serial.read(0);
    serial.read(0);
    assert!(rt; log.order.get() == in_order(b"Trer"));
    Ok(())
}

/// A writer that takes each byte, fails each `write` or fails each `flush`.
fn writer(way: u8) -> Writing {
    let fault = io::Error::from(io::ErrorKind::BrokenPipe);
    match way {
        0 => Writing::takes(),
        1 => Writing::failing(fault),
        _ => Writing {
            flush: Some(fault),
            ..Writing::takes()
        },
    }
}

/// What a data write calls over such a writer: the writer, then the events object, then the trigger.
fn data_write_calls(way: u8) -> u64 {
    match way {
        0 => in_order(b"WFoT"),
        1 => in_order(b"WlT"),
        _ => in_order(b"WFlT"),
    }
}

/// Whether a data write over such a writer returns its fault, and calls the objects in their order, and THRE is due.
fn is_sent_over(serial: &mut TestSerial<'_>, log: &Log, way: u8) -> bool {
    log.writing.set(writer(way));
    log.order.set(0);
    let sent = serial.write(0, b'A');
    sent.is_ok() == (way == 0)
        && matches!(sent, Err(Error::IOError(_))) == (way != 0)
        && log.order.get() == data_write_calls(way)
        && serial.read(2) == 0xC2
}

/// Whether three data writes over these writers change no read and no trigger call.
fn is_unchanged(alloc: Global, ways: [u8; 3]) -> Result<bool, Fail> {
    let log = Log::new();
    let mut serial = port(alloc, &log)?;
    let is_ready = serial.write(1, 0x02).is_ok() && serial.read(2) == 0xC2;
    let mut are_sent = true;
    let mut flushes = 0u64;
    for way in ways {
        are_sent = is_sent_over(&mut serial, &log, way) && are_sent;
        flushes = flushes.saturating_add(u64::from(way != 1));
    }
    Ok(is_ready && are_sent && log.calls() == [4, 3, 3, flushes])
}

#[test]
fn a_writer_that_fails_changes_no_read_and_no_trigger_call(rt: HostRuntime) -> Result<(), Fail> {
    for ways in all_threes() {
        assert!(rt; is_unchanged(rt.alloc(), ways)?, "{ways:?}");
    }
    Ok(())
}

/// All lists of three of these ways.
fn all_threes() -> [[u8; 3]; 27] {
    let mut all = [[0; 3]; 27];
    for index in 0..27u8 {
        all[usize::from(index)] = [index / 9, index / 3 % 3, index % 3];
    }
    all
}

/// It stops at the first refusal.
#[test]
fn a_retry_calls_the_trigger_once_for_each_interrupt_due(rt: HostRuntime) -> Result<(), Fail> {
    let log = Log::new();
    let object = Object(&log);
    for number in 0..300u64 {
        let state = drawn_state(rt.alloc(), number, 1)?;
        let made = Serial::from_state(rt.alloc(), &state, object, object, object);
        let mut serial = made.map_err(Refused::into_error)?;
        let due = u64::from(serial.interrupts_due());
        for refused in 1..4u64 {
            let before = log.triggers.get();
            log.refused.set(before.wrapping_add(refused));
            assert!(rt;
                serial.retry_interrupts().is_err() == (refused <= due),
                "{number}"
            );
            let called = log.triggers.get().wrapping_sub(before);
            assert!(rt; called == refused.min(due), "{number}");
        }
        log.refused.set(0);
    }
    Ok(())
}

/// Whether the data write of a run over these objects returned their fault, and called `write` and `flush` no more than
/// it has to.
fn is_right_in_a_run(alloc: Global, object: Object<'_>, writing: Writing) -> Result<bool, Fail> {
    let calls: Vec<SerialCall> = vec![in alloc; Call::Read(7), Call::Write(0, b'x')]?;
    let mut serial = port_over(alloc, object)?;
    let done = run(alloc, &mut serial, calls)?;
    let Some(record) = done.get(1) else {
        return Ok(false);
    };
    match &record.reply {
        Reply::Wrote(sent) => is_right(alloc, object.0, writing, sent),
        _ => Ok(false),
    }
}

#[test]
fn a_run_returns_the_fault_of_its_writer(rt: HostRuntime) -> Result<(), Fail> {
    for number in 0..FAULTS {
        for writing in writings(number) {
            let log = Log::new();
            log.start(writing);
            assert!(rt;
                is_right_in_a_run(rt.alloc(), Object(&log), writing)?,
                "{number}"
            );
        }
    }
    Ok(())
}

/// A writer with a `write_all` of its own.
#[derive(Clone, Copy)]
struct Whole<'a>(&'a Log);

impl Write for Whole<'_> {
    fn write(&mut self, buf: &[u8]) -> io::Result<usize> {
        self.0.note(b'W');
        Ok(buf.len())
    }

    fn flush(&mut self) -> io::Result<()> {
        self.0.note(b'F');
        Ok(())
    }

    fn write_all(&mut self, _buf: &[u8]) -> io::Result<()> {
        self.0.note(b'A');
        match self.0.writing.get().then {
            Then::Fails(fault) => Err(fault),
            Then::Takes | Then::TakesNone => Ok(()),
        }
    }
}

/// Sends a byte to this writer in one of three ways: by a port, by a run, and as an event.
fn send(alloc: Global, out: Whole<'_>, way: u8) -> Result<bool, Fail> {
    let object = Object(out.0);
    let made = Serial::with_events(alloc, object, object, out);
    let mut serial = made.map_err(Refused::into_error)?;
    let calls = vec![in alloc; Call::Write(0, b'x')]?;
    Ok(match way {
        0 => serial.write(0, b'x').is_ok(),
        1 => run(alloc, &mut serial, calls)?.len() == 1,
        _ => EventFd { file: out }.trigger().is_ok(),
    })
}

/// Whether a byte that is sent in this way makes these calls of a writer that does this, and whether it is sent.
fn is_sent_by(
    alloc: Global,
    way: u8,
    writing: Writing,
    letters: &[u8],
    sends: bool,
) -> Result<bool, Fail> {
    let log = Log::new();
    log.start(writing);
    Ok(send(alloc, Whole(&log), way)? == sends && log.order.get() == in_order(letters))
}

/// The writer's `write` is not called.
#[test]
fn what_is_sent_is_one_call_of_the_writers_own_write_all(rt: HostRuntime) -> Result<(), Fail> {
    // The calls if the writer takes the byte and if it fails, and whether it is then sent all the same.
    static WAYS: [(u8, &[u8], &[u8], bool); 3] = [
        (0, b"AFo", b"Al", false),
        (1, b"AFo", b"Al", true),
        (2, b"A", b"A", false),
    ];
    let takes = Writing::takes();
    let fails = Writing::failing(io::Error::from(io::ErrorKind::Other));
    for (way, taken, failed, sends) in WAYS.iter() {
        assert!(rt; is_sent_by(rt.alloc(), *way, takes, taken, true)?, "{way}");
        assert!(rt;
            is_sent_by(rt.alloc(), *way, fails, failed, *sends)?,
            "{way}"
        );
    }
    Ok(())
}

/// Of its eight bytes some were taken before. An event flushes nothing.
#[test]
fn an_event_is_one_write_and_returns_its_fault(rt: HostRuntime) -> Result<(), Fail> {
    for number in 0..FAULTS {
        for writing in writings(number) {
            for room in 0..8usize {
                let writing = Writing { room, ..writing };
                let log = Log::new();
                log.start(writing);
                let found = log.outcome(EventFd { file: Object(&log) }.trigger());
                let expected = by_std(writing, &[&[0; 8]], false);
                assert!(rt; is_same(rt.alloc(), &found, &expected)?, "{room} {number}");
            }
        }
    }
    Ok(())
}

/// Whether an output that is drained into a writer that does this makes one `write`, returns what that returns, and
/// keeps these bytes.
fn is_drained(alloc: Global, writing: Writing, left: &[u8]) -> Result<bool, Fail> {
    let mut output = OutputQueue::restored(alloc, b"waiting", 7, 0)?;
    let log = Log::new();
    log.start(writing);
    let drained = output.drain_into(&mut Object(&log));
    let calls = log.calls();
    log.start(writing);
    let written = Object(&log).write(b"waiting");
    let texts = [
        format!(in alloc; "{drained:?}")?,
        format!(in alloc; "{written:?}")?,
    ];
    Ok(calls == [0, 0, 1, 0] && texts[0] == texts[1] && output.waiting(alloc)?.as_slice() == left)
}

#[test]
fn a_drained_output_is_one_write_and_returns_its_fault(rt: HostRuntime) -> Result<(), Fail> {
    for number in 0..FAULTS {
        let fails = Writing::failing(fault_of(number));
        let takes_none = Writing {
            then: Then::TakesNone,
            ..fails
        };
        let takes_some = Writing { room: 3, ..fails };
        let rows: [(Writing, &[u8]); 3] = [
            (fails, b"waiting"),
            (takes_none, b"waiting"),
            (takes_some, b"ting"),
        ];
        for (writing, left) in rows {
            assert!(rt; is_drained(rt.alloc(), writing, left)?, "{number}");
        }
    }
    Ok(())
}

// ---- objects that are dropped

/// The error of a way to drop a port.
fn error_of(way: u8) -> Error<LineRefused> {
    match way {
        3 => Error::FullFifo,
        4 => Error::Memory,
        5 => Error::Trigger(LineRefused),
        _ => Error::IOError(fault_of(i32::from(way))),
    }
}

/// Drops a port whole, or what is left of it in one of three ways, the last of them with any error.
fn drop_port(port: TestSerial<'_>, way: u8) {
    match way {
        0 => drop(port),
        1 => drop(port.into_writer()),
        2 => drop(port.into_parts()),
        _ => drop_refused(port, error_of(way)),
    }
}

/// Drops a port's objects as if a port over them had been refused for this error.
fn drop_refused(port: TestSerial<'_>, error: Error<LineRefused>) {
    let (trigger, events, out) = port.into_parts();
    let refused = Refused {
        error,
        trigger,
        events,
        out,
    };
    let _ = refused.into_error();
}

#[test]
fn objects_of_a_port_are_dropped_in_silence(rt: HostRuntime) -> Result<(), Fail> {
    let log = Log::new();
    let object = Object(&log);
    for number in 0..300u64 {
        let state = drawn_state(rt.alloc(), number, (number % 65) as usize)?;
        for way in 0..7u8 {
            let made = Serial::from_state(rt.alloc(), &state, object, object, object);
            let port = made.map_err(Refused::into_error)?;
            let calls = log.calls();
            drop_port(port, way);
            assert!(rt; log.calls() == calls, "{number} {way}");
        }
    }
    Ok(())
}

#[test]
fn objects_of_a_clock_and_a_controller_are_dropped_in_silence(rt: HostRuntime) {
    let log = Log::new();
    for number in 0..100u64 {
        let state = drawn_clock(number);
        drop(Rtc::from_state(&state, Object(&log)).into_parts());
        drop(Rtc::from_state(&state, Object(&log)));
    }
    drop(I8042Device::new(Object(&log)).into_reset_evt());
    drop(I8042Device::new(Object(&log)));
    assert!(rt; log.calls() == [0; 4]);
}
