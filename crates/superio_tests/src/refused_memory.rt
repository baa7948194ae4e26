// SPDX-License-Identifier: Apache-2.0 OR BSD-3-Clause
//! What is left if memory is refused. `tests/devices/test_refused_memory.py` runs each of these tests without its first
//! allocation, without its second, and so on, until a run has them all. Each run goes without at most one allocation,
//! so a call that was refused memory has to succeed when it is made again.
use board_objects::{Counts, Line, LineRefused, Output};
use std::alloc::{AllocError, Global};
use std::io::Write;
use std::test::Fail;
use superio_examples::echo::{echo, over_serial};
use superio_examples::first_claims::{read_back, restored_reads_same};
use superio_examples::many_calls::make_by_run;
use superio_examples::monitor::{MachineEvent, Monitor};
use superio_examples::queues::OutputQueue;
use superio_examples::saved_monitor::{move_monitor, restore_monitor, save_monitor};
use vm_superio::object_laws::saved::{
    serial_read_then_written, serial_written_then_read, state_to_uart_and_back,
    uart_to_state_and_back,
};
use vm_superio::run::{Call, Done, Reply, run};
use vm_superio::saved::LoadError;
use vm_superio::serial::{Error, NoEvents, Refused, SerialEvents};
use vm_superio::{Serial, SerialState};

type TestSerial = Serial<Line, Counts, Output>;

type SerialCall = Call<Line, Counts, Output>;

type SerialReply = Reply<Line, Counts, Output>;

type SerialDone = Done<Line, Counts, Output>;

// ---- objects that differ from fresh ones, and ports

/// A line that was not called. Its mask is 8.
fn line() -> Line {
    Line::new(8)
}

/// Counts of one lost byte.
fn counts() -> Counts {
    let mut counts = Counts::new();
    counts.tx_lost_byte();
    counts
}

/// An output that took three bytes.
fn output() -> Output {
    let mut output = Output::new();
    let _ = output.write(b"old");
    output
}

/// Whether memory was refused, and the objects came back as they were passed.
fn is_as_passed(refused: &Refused<Line, Counts, Output>) -> bool {
    matches!(refused.error, Error::Memory)
        && refused.trigger.mask() == 8
        && refused.trigger.calls() == 0
        && refused.events.tx_lost_byte_count() == 1
        && refused.out.bytes() == b"old".as_slice()
}

/// A state in which a byte is held, and both conditions are pending and enabled.
fn state(alloc: Global) -> Result<SerialState, AllocError> {
    let mut state = SerialState::default(alloc);
    state.interrupt_enable = 0x03;
    state.interrupt_identification = 0x06;
    state.line_status = 0x61;
    state.in_buffer = match b"a".to_vec(alloc) {
        Ok(bytes) => bytes,
        Err(_) => b"a".to_vec(alloc)?,
    };
    Ok(state)
}

/// A port of this state over a line with mask 0.
fn port(alloc: Global, state: &SerialState) -> Result<TestSerial, Error<LineRefused>> {
    match Serial::from_state(alloc, state, Line::new(0), Counts::new(), Output::new()) {
        Ok(serial) => Ok(serial),
        Err(_) => Serial::from_state(
            alloc,
            state,
            Line::new(0),
            Counts::new(),
            Output::new(),
        ).map_err(Refused::into_error),
    }
}

// ---- ports and states

#[test]
fn a_port_without_events_is_made_or_its_objects_come_back(rt: HostRuntime) {
    let alloc = rt.alloc();
    if let Err(refused) = Serial::new(alloc, line(), output()) {
        let NoEvents = refused.events;
        assert!(rt; matches!(refused.error, Error::Memory));
        assert!(rt; refused.trigger.mask() == 8 && refused.trigger.calls() == 0);
        assert!(rt; refused.out.bytes() == b"old".as_slice());
        assert!(rt; Serial::new(alloc, line(), output()).is_ok());
    }
}

#[test]
fn a_port_is_made_or_its_objects_come_back(rt: HostRuntime) {
    let alloc = rt.alloc();
    if let Err(refused) = Serial::with_events(alloc, line(), counts(), output()) {
        assert!(rt; is_as_passed(&refused));
        assert!(rt; Serial::with_events(alloc, line(), counts(), output()).is_ok());
    }
}

#[test]
fn a_port_is_restored_or_its_objects_come_back(rt: HostRuntime) -> Result<(), Fail> {
    let alloc = rt.alloc();
    let state = state(alloc)?;
    if let Err(refused) = Serial::from_state(alloc, &state, line(), counts(), output()) {
        assert!(rt; is_as_passed(&refused));
        assert!(rt; Serial::from_state(alloc, &state, line(), counts(), output()).is_ok());
    }
    Ok(())
}

/// The state of a port, which is asked for again if memory was refused.
fn taken(alloc: Global, serial: &TestSerial) -> Result<SerialState, AllocError> {
    match serial.state(alloc) {
        Ok(taken) => Ok(taken),
        Err(AllocError) => serial.state(alloc),
    }
}

/// A copy of a state, which is made again if memory was refused.
fn copied(alloc: Global, state: &SerialState) -> Result<SerialState, AllocError> {
    match state.clone(alloc) {
        Ok(copy) => Ok(copy),
        Err(AllocError) => state.clone(alloc),
    }
}

/// Whether this state is taken of a port, and copied.
fn is_taken_and_copied(
    alloc: Global,
    serial: &TestSerial,
    state: &SerialState,
) -> Result<bool, AllocError> {
    let taken = taken(alloc, serial)?;
    Ok(taken == *state && copied(alloc, &taken)? == *state)
}

#[test]
fn a_state_is_taken_and_copied_or_nothing_changes(rt: HostRuntime) -> Result<(), Fail> {
    let alloc = rt.alloc();
    let state = state(alloc)?;
    let serial = port(alloc, &state)?;
    assert!(rt; is_taken_and_copied(alloc, &serial, &state)?);
    assert!(rt; serial.interrupt_evt().calls() == 2 && serial.fifo_capacity() == 63);
    Ok(())
}

#[test]
fn calls_of_a_port_take_no_memory(rt: HostRuntime) -> Result<(), Fail> {
    let alloc = rt.alloc();
    let mut serial = port(alloc, &state(alloc)?)?;
    assert!(rt; serial.enqueue_raw_bytes(&[b'b'; 100]).ok() == Some(63));
    for _ in 0..64u8 {
        serial.read(0);
    }
    assert!(rt; serial.fifo_capacity() == 64);
    assert!(rt; serial.write(0, b'c').is_ok());
    assert!(rt; serial.write(4, 0x10).is_ok());
    for value in 0..64u8 {
        assert!(rt; serial.write(0, value).is_ok());
    }
    for value in 0..64u8 {
        assert!(rt; serial.read(0) == value);
    }
    assert!(rt; serial.into_writer().bytes() == b"c".as_slice());
    Ok(())
}

/// Whether this state was read, or memory was refused.
fn is_read(read: &Result<SerialState, LoadError>, state: &SerialState) -> bool {
    match read {
        Ok(read) => *read == *state,
        Err(fault) => *fault == LoadError::Memory,
    }
}

#[test]
fn a_state_is_converted_or_memory_is_refused(rt: HostRuntime) -> Result<(), Fail> {
    let alloc = rt.alloc();
    let state = state(alloc)?;
    let saved = state.to_bytes()?;
    let bytes = saved.as_bytes();
    assert!(rt; is_read(&SerialState::from_bytes(alloc, bytes), &state));
    assert!(rt; is_read(&serial_written_then_read(alloc, &state), &state));
    assert!(rt; is_read(&state_to_uart_and_back(alloc, &state), &state));
    match serial_read_then_written(alloc, bytes) {
        Ok(written) => assert!(rt; written.as_bytes() == bytes),
        Err(fault) => assert!(rt; fault == LoadError::Memory),
    }
    match uart_to_state_and_back(alloc, &state.to_uart()?) {
        Ok(port) => assert!(rt; port.to_bytes().as_bytes() == bytes),
        Err(fault) => assert!(rt; fault == LoadError::Memory),
    }
    Ok(())
}

// ---- runs

/// Calls that include a restore.
fn calls(alloc: Global) -> Result<Vec<SerialCall>, AllocError> {
    let bytes = b"a".to_vec(alloc)?;
    Ok(vec![in alloc;
        Call::Write(1, 0x01),
        Call::Enqueue(bytes),
        Call::Read(2),
        Call::Restore(line(), counts(), output()),
        Call::Read(0),
        Call::Read(5),
    ]?)
}

/// Runs the calls again if memory was refused before they began. They then changed nothing.
fn run_calls(alloc: Global, serial: &mut TestSerial) -> Result<Vec<SerialDone>, Fail> {
    let first = match calls(alloc) {
        Ok(calls) => calls,
        Err(AllocError) => calls(alloc)?,
    };
    if let Ok(done) = run(alloc, serial, first) {
        return Ok(done);
    }
    if serial.interrupt_evt().calls() != 0 || serial.state(alloc)? != SerialState::default(alloc) {
        return Err(Fail::from("a run without memory made a call"));
    }
    Ok(run(alloc, serial, calls(alloc)?)?)
}

/// Whether all but the restore returned what they do while there is memory.
fn is_run(done: &[SerialDone]) -> bool {
    done.len() == 6
        && matches!(done[0].reply, Reply::Wrote(Ok(())))
        && matches!(done[1].reply, Reply::Enqueued(Ok(1)))
        && matches!(done[2].reply, Reply::Byte(0xC4))
        && matches!(done[4].reply, Reply::Byte(b'a'))
        && matches!(done[5].reply, Reply::Byte(0x60))
}

/// Whether this is the record of a restore that succeeded.
fn is_new(record: Option<&SerialDone>) -> bool {
    match record {
        Some(record) => matches!(record.reply, Reply::Restored(_)),
        None => false,
    }
}

/// Whether the port is the new one if the restore succeeded, and else the old one, which can be restored later.
fn is_restored_or_stays(
    alloc: Global,
    serial: &mut TestSerial,
    restore: &SerialReply,
) -> Result<bool, Fail> {
    match restore {
        Reply::Restored(old) => Ok(
            old.fifo_capacity() == 63
                && old.interrupt_evt().calls() == 1
                && serial.interrupt_evt().mask() == 8,
        ),
        Reply::NotRestored(refused) => {
            let stays = serial.interrupt_evt().mask() == 0 && serial.interrupt_evt().calls() == 1;
            let again = run(alloc, serial, calls(alloc)?)?;
            Ok(is_as_passed(refused) && stays && is_new(again.get(3)))
        }
        _ => Ok(false),
    }
}

#[test]
fn a_run_makes_no_call_or_records_a_refused_restore(rt: HostRuntime) -> Result<(), Fail> {
    let mut serial = port(rt.alloc(), &SerialState::default(rt.alloc()))?;
    let done = run_calls(rt.alloc(), &mut serial)?;
    assert!(rt; is_run(&done));
    match done.get(3) {
        Some(record) => {
            assert!(rt; is_restored_or_stays(rt.alloc(), &mut serial, &record.reply)?);
        }
        None => return Err(Fail::from("no restore")),
    }
    Ok(())
}

// ---- programs to copy

#[test]
fn a_console_echoes_or_memory_is_refused(rt: HostRuntime) {
    let alloc = rt.alloc();
    match echo(alloc, 1, b"ab", &[1]) {
        Ok(sent) => assert!(rt; sent.as_slice() == b"ab".as_slice()),
        Err(AllocError) => assert!(rt; echo(alloc, 1, b"ab", &[1]).is_ok()),
    }
    match over_serial::echo(alloc, Output::new(), 1, b"ab", &[1]) {
        Ok(written) => assert!(rt; written.bytes() == b"ab".as_slice()),
        Err(error) => assert!(rt; matches!(error, Error::Memory)),
    }
}

#[test]
fn claims_hold_or_memory_is_refused(rt: HostRuntime) -> Result<(), Fail> {
    let alloc = rt.alloc();
    match read_back(alloc, line(), output(), b"ab") {
        Ok(read) => assert!(rt; read.as_slice() == b"ab".as_slice()),
        Err(error) => assert!(rt; matches!(error, Error::Memory)),
    }
    let mut serial = port(alloc, &state(alloc)?)?;
    match restored_reads_same(alloc, &mut serial, line(), counts(), output(), 0) {
        Ok(bytes) => assert!(rt; bytes == (b'a', b'a')),
        Err(error) => assert!(rt; matches!(error, Error::Memory)),
    }
    Ok(())
}

/// How many of the calls a new port makes by a run, or that memory was refused.
fn made_by_run(alloc: Global) -> Result<usize, AllocError> {
    let calls = calls(alloc)?;
    match Serial::with_events(alloc, line(), counts(), output()) {
        Ok(mut serial) => Ok(make_by_run(alloc, &mut serial, calls)?.len()),
        Err(_) => Err(AllocError),
    }
}

#[test]
fn calls_are_made_by_a_run_or_memory_is_refused(rt: HostRuntime) -> Result<(), Fail> {
    let made = match made_by_run(rt.alloc()) {
        Ok(made) => made,
        Err(AllocError) => made_by_run(rt.alloc())?,
    };
    assert!(rt; made == 6);
    Ok(())
}

#[test]
fn an_output_is_made_or_memory_is_refused(rt: HostRuntime) -> Result<(), Fail> {
    let alloc = rt.alloc();
    let mut output = match OutputQueue::new(alloc, 5) {
        Ok(output) => output,
        Err(AllocError) => OutputQueue::new(alloc, 5)?,
    };
    output.push(b'x');
    let waiting = match output.waiting(alloc) {
        Ok(waiting) => waiting,
        Err(AllocError) => output.waiting(alloc)?,
    };
    let restored = match OutputQueue::restored(alloc, &waiting, 5, 0) {
        Ok(restored) => restored,
        Err(AllocError) => OutputQueue::restored(alloc, &waiting, 5, 0)?,
    };
    assert!(rt; !restored.is_empty());
    Ok(())
}

#[test]
fn a_monitor_runs_or_memory_is_refused(rt: HostRuntime) -> Result<(), Fail> {
    let alloc = rt.alloc();
    let mut monitor = Monitor::new(false);
    let events = [
        MachineEvent::Typed(b'a'),
        MachineEvent::PortWrite(0x3F8, b'x'),
    ];
    let replies = match monitor.run(alloc, &events) {
        Ok(replies) => replies,
        Err(AllocError) => monitor.run(alloc, &events)?,
    };
    assert!(rt; replies.len() == 2);
    assert!(rt; monitor.console.output() == b"x".as_slice());
    Ok(())
}

#[test]
fn a_monitor_moves_or_memory_is_refused(rt: HostRuntime) -> Result<(), Fail> {
    let alloc = rt.alloc();
    let mut monitor = Monitor::new(true);
    monitor.step(MachineEvent::Typed(b'a'));
    monitor.step(MachineEvent::PortWrite(0x3F8, b'x'));
    let saved = match save_monitor(alloc, &monitor) {
        Ok(saved) => saved,
        Err(AllocError) => save_monitor(alloc, &monitor)?,
    };
    assert!(rt; matches!(restore_monitor(&saved), Ok(restored) if is_moved(&restored)));
    match move_monitor(alloc, &monitor) {
        Ok(moved) => assert!(rt; is_moved(&moved)),
        Err(fault) => assert!(rt; fault == LoadError::Memory),
    }
    Ok(())
}

/// Whether a monitor holds one byte of input, and `x` waits in its output.
fn is_moved(monitor: &Monitor) -> bool {
    monitor.console.wants().input == 63 && monitor.console.output() == b"x".as_slice()
}
