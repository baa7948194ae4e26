// SPDX-License-Identifier: Apache-2.0 OR BSD-3-Clause
//! Calls that may return that memory was refused do not do so while there is memory. No contract says this: a body that
//! gives up at some size meets each of them.
use failing_objects::{
    Log, Object, SIZES, SerialCall, TestSerial, drawn, drawn_state, port_over, port_over_vector,
    size_of,
};
use std::alloc::{AllocError, Global};
use std::io::Write;
use std::test::Fail;
use superio_examples::first_claims::{
    read_back, refused_keeps_bytes, restored_reads_same, sent_is_appended,
};
use superio_examples::monitor::{MachineEvent, Monitor};
use superio_examples::queues::OutputQueue;
use superio_examples::saved_monitor::{move_monitor, save_monitor};
use vm_superio::run::{Call, Reply, run};
use vm_superio::{Serial, SerialState};

/// Whether the state goes to bytes and back, and to a port without I/O and back.
fn is_converted(alloc: Global, state: &SerialState) -> Result<bool, Fail> {
    let read = SerialState::from_bytes(alloc, state.to_bytes()?.as_bytes())?;
    let back = SerialState::from_uart(alloc, &state.to_uart()?)?;
    Ok(read == *state && back == *state)
}

/// Whether the state goes to a port and back.
fn is_restored(alloc: Global, state: &SerialState, object: Object<'_>) -> Result<bool, Fail> {
    let made = Serial::from_state(alloc, state, object, object, object).map_err(|_| AllocError)?;
    Ok(made.state(alloc)? == state.clone(alloc)?)
}

/// Whether a run restores a port of this state, which stays.
fn is_restored_in_a_run<'a>(
    alloc: Global,
    state: &SerialState,
    object: Object<'a>,
) -> Result<bool, Fail> {
    let made = Serial::from_state(alloc, state, object, object, object);
    let mut port: TestSerial<'a> = made.map_err(|_| AllocError)?;
    let mut calls: Vec<SerialCall<'a>> = Vec::new(alloc);
    calls.push(Call::Restore(object, object, object))?;
    let done = run(alloc, &mut port, calls)?;
    let is_restored =
        matches!(done.first(), Some(record) if matches!(record.reply, Reply::Restored(_)));
    Ok(is_restored && port.state(alloc)? == state.clone(alloc)?)
}

/// Whether each call that takes a state takes this one.
fn is_taken(alloc: Global, state: &SerialState, object: Object<'_>) -> Result<bool, Fail> {
    Ok(
        is_converted(alloc, state)?
            && is_restored(alloc, state, object)?
            && is_restored_in_a_run(alloc, state, object)?,
    )
}

#[test]
fn states_of_each_size_are_made(rt: HostRuntime) -> Result<(), Fail> {
    let log = Log::new();
    for seed in 0..300u64 {
        let state = drawn_state(rt.alloc(), seed, (seed % 65) as usize)?;
        assert!(rt; is_taken(rt.alloc(), &state, Object(&log))?, "{seed}");
    }
    assert!(rt; port_over(rt.alloc(), Object(&log)).is_ok());
    Ok(())
}

/// The state with this value in the register of this number.
fn with_register(state: SerialState, register: u8, value: u8) -> SerialState {
    let mut state = state;
    match register {
        0 => state.baud_divisor_low = value,
        1 => state.baud_divisor_high = value,
        2 => state.interrupt_enable = value,
        3 => state.interrupt_identification = value,
        4 => state.line_control = value,
        5 => state.line_status = value,
        6 => state.modem_control = value,
        7 => state.modem_status = value,
        _ => state.scratch = value,
    }
    state
}

#[test]
fn states_of_each_register_and_value_are_made(rt: HostRuntime) -> Result<(), Fail> {
    let log = Log::new();
    for value in 0..=u8::MAX {
        for register in 0..9u8 {
            let number = u64::from(value) * 9 + u64::from(register);
            let drawn = drawn_state(rt.alloc(), number, (number % 65) as usize)?;
            let state = with_register(drawn, register, value);
            assert!(rt;
                is_taken(rt.alloc(), &state, Object(&log))?,
                "{register} {value}"
            );
        }
    }
    Ok(())
}

/// So many reads, an enqueue of these bytes, and a restore over this object.
fn calls_of<'a>(
    alloc: Global,
    object: Object<'a>,
    bytes: Vec<u8>,
) -> Result<Vec<SerialCall<'a>>, AllocError> {
    let mut calls: Vec<SerialCall<'a>> = Vec::new(alloc);
    for _ in 0..bytes.len() {
        calls.push(Call::Read(5))?;
    }
    calls.push(Call::Enqueue(bytes))?;
    calls.push(Call::Restore(object, object, object))?;
    Ok(calls)
}

/// How many records a run of this many reads, an enqueue and a restore gives, and how many bytes a new port gives back.
fn counts_of<'a>(alloc: Global, object: Object<'a>, size: usize) -> Result<[usize; 2], Fail> {
    let bytes = b"x".repeat(alloc, size)?;
    let calls: Vec<SerialCall<'a>> = calls_of(alloc, object, bytes.clone()?)?;
    let mut serial: TestSerial<'a> = port_over(alloc, object)?;
    let done = run(alloc, &mut serial, calls)?;
    restored_reads_same(alloc, &mut serial, object, object, object, 0)?;
    Ok([done.len(), read_back(alloc, object, object, &bytes)?.len()])
}

#[test]
fn lists_of_each_size_are_taken(rt: HostRuntime) -> Result<(), Fail> {
    let log = Log::new();
    for number in 0..SIZES {
        let size = size_of(number);
        let counts = counts_of(rt.alloc(), Object(&log), size)?;
        assert!(rt; counts == [size.saturating_add(2), size.min(64)], "{size}");
    }
    Ok(())
}

/// Whether a queue of this output takes all of it and drops what follows, and is made again with it, and with room for
/// so many bytes.
fn is_output_of(alloc: Global, bytes: &[u8], limit: usize) -> Result<bool, Fail> {
    let mut output = OutputQueue::new(alloc, bytes.len())?;
    let is_full = output.write(bytes).ok() == Some(bytes.len())
        && output.write(b"abc").ok() == Some(0);
    let restored = OutputQueue::restored(alloc, bytes, limit, 0)?;
    Ok(
        is_full
            && output.dropped() == 3
            && output.waiting(alloc)?.as_slice() == bytes
            && restored.waiting(alloc)?.as_slice() == bytes
            && restored.limit() == bytes.len().max(limit),
    )
}

#[test]
fn outputs_of_each_size_are_made(rt: HostRuntime) -> Result<(), Fail> {
    for number in 0..SIZES {
        let size = size_of(number);
        let limit = (drawn(!number) % 2_000) as usize;
        let bytes = b"x".repeat(rt.alloc(), size)?;
        assert!(rt; is_output_of(rt.alloc(), &bytes, limit)?, "{size} {limit}");
    }
    Ok(())
}

/// How many replies a monitor gives while its guest sends this many bytes.
fn replies_to(alloc: Global, monitor: &mut Monitor, size: usize) -> Result<usize, Fail> {
    let events = vec![in alloc; MachineEvent::PortWrite(0x3F8, b'x'); size]?;
    Ok(monitor.run(alloc, &events)?.len())
}

/// Whether a monitor that moves is saved as before.
fn is_same_moved(alloc: Global, monitor: &Monitor) -> Result<bool, Fail> {
    let moved = move_monitor(alloc, monitor)?;
    Ok(save_monitor(alloc, &moved)? == save_monitor(alloc, monitor)?)
}

#[test]
fn monitors_run_and_move_with_output_of_each_size(rt: HostRuntime) -> Result<(), Fail> {
    for number in 0..SIZES {
        let size = size_of(number);
        let mut monitor = Monitor::new(false);
        assert!(rt; replies_to(rt.alloc(), &mut monitor, size)? == size);
        assert!(rt; is_same_moved(rt.alloc(), &monitor)?, "{size}");
    }
    Ok(())
}

#[test]
fn claims_about_a_port_succeed(rt: HostRuntime) -> Result<(), Fail> {
    let log = Log::new();
    let mut serial = port_over_vector(rt.alloc(), Object(&log))?;
    assert!(rt; refused_keeps_bytes(&mut serial, b"hi").ok() == Some(2));
    let mut serial = port_over_vector(rt.alloc(), Object(&log))?;
    assert!(rt; sent_is_appended(&mut serial, b's').is_ok());
    assert!(rt; serial.writer().as_slice() == b"s".as_slice());
    Ok(())
}
