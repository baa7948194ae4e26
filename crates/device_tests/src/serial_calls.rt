// SPDX-License-Identifier: Apache-2.0 OR BSD-3-Clause
//! The public calls, types and cases of the serial port that a program uses, with their names, the types of their
//! arguments and the bounds that they ask for. A change of one is a compile error here.
use board_objects::{Counts, Line, LineRefused};
use std::alloc::{AllocError, Global};
use std::fmt::Debug;
use std::io;
use std::process::Abort;
use vm_superio::run::{Act, Asked, Call, Done, Reply, Sent, run};
use vm_superio::serial::{Error, Refused, SerialEvents};
use vm_superio::{Serial, SerialState, Trigger, serial};

// ---- making a serial port, and taking one apart

fn made<T: Trigger, W: io::Write>(
    alloc: Global,
    trigger: T,
    out: W,
) -> Result<Serial<T, serial::NoEvents, W>, Refused<T, serial::NoEvents, W>> {
    Serial::new(alloc, trigger, out)
}

fn made_with_events<T: Trigger, EV: SerialEvents, W: io::Write>(
    alloc: Global,
    trigger: T,
    serial_evts: EV,
    out: W,
) -> Result<Serial<T, EV, W>, Refused<T, EV, W>> {
    Serial::with_events(alloc, trigger, serial_evts, out)
}

fn made_from_state<T: Trigger, EV: SerialEvents, W: io::Write>(
    alloc: Global,
    state: &SerialState,
    trigger: T,
    serial_evts: EV,
    out: W,
) -> Result<Serial<T, EV, W>, Refused<T, EV, W>> {
    Serial::from_state(alloc, state, trigger, serial_evts, out)
}

fn parts_of_refused<T: Trigger, EV: SerialEvents, W: io::Write>(
    refused: Refused<T, EV, W>,
) -> (Error<T::E>, T, EV, W) {
    let Refused {
        error,
        trigger,
        events,
        out,
    } = refused;
    (error, trigger, events, out)
}

fn error_of_refused<T: Trigger + Drop, EV: SerialEvents + Drop, W: io::Write + Drop>(
    refused: Refused<T, EV, W>,
) -> Error<T::E> {
    refused.into_error()
}

fn writer_of<T: Trigger + Drop, EV: SerialEvents + Drop, W: io::Write>(
    serial: Serial<T, EV, W>,
) -> W {
    serial.into_writer()
}

// ---- using a serial port

fn read_at<T: Trigger, EV: SerialEvents, W: io::Write>(
    serial: &mut Serial<T, EV, W>,
    offset: u8,
) -> u8 {
    serial.read(offset)
}

fn write_at<T: Trigger, EV: SerialEvents, W: io::Write>(
    serial: &mut Serial<T, EV, W>,
    offset: u8,
    value: u8,
) -> Result<(), Error<T::E>> {
    serial.write(offset, value)
}

fn enqueue<T: Trigger, EV: SerialEvents, W: io::Write>(
    serial: &mut Serial<T, EV, W>,
    input: &[u8],
) -> Result<usize, Error<T::E>> {
    serial.enqueue_raw_bytes(input)
}

fn room_in<T: Trigger, EV: SerialEvents, W: io::Write>(serial: &Serial<T, EV, W>) -> usize {
    serial.fifo_capacity()
}

fn state_of<T: Trigger, EV: SerialEvents, W: io::Write>(
    serial: &Serial<T, EV, W>,
    alloc: Global,
) -> Result<SerialState, AllocError> {
    serial.state(alloc)
}

fn objects_of<T: Trigger, EV: SerialEvents, W: io::Write>(
    serial: &Serial<T, EV, W>,
) -> (&T, &EV, &W) {
    (serial.interrupt_evt(), serial.events(), serial.writer())
}

fn lent_writer<T: Trigger, EV: SerialEvents, W: io::Write>(
    serial: &mut Serial<T, EV, W>,
) -> &mut W {
    serial.writer_mut()
}

fn records_of<T: Trigger + Drop, EV: SerialEvents + Drop, W: io::Write + Drop>(
    alloc: Global,
    serial: &mut Serial<T, EV, W>,
    calls: Vec<Call<T, EV, W>>,
) -> Result<Vec<Done<T, EV, W>>, AllocError> {
    run(alloc, serial, calls)
}

type FirstPort = Serial<Line, serial::NoEvents, Vec<u8>>;

type Port = Serial<Line, Counts, Vec<u8>>;

/// A fresh port without an events object.
fn first_port(rt: &impl Abort, alloc: Global) -> FirstPort {
    let made = made(alloc, Line::new(0), Vec::new(alloc));
    made.map_err(error_of_refused).ok().expect(rt, "a port")
}

/// A port of another one's state, over its writer.
fn remade(rt: &impl Abort, alloc: Global, first: FirstPort) -> Port {
    let state = state_of(&first, alloc).ok().expect(rt, "a state");
    let made = made_from_state(alloc, &state, Line::new(0), Counts::new(), writer_of(first));
    made.map_err(error_of_refused).ok().expect(rt, "a port")
}

/// How many records a run of two reads has, of SCR and of the byte that is held.
fn records_of_reads(rt: &impl Abort, alloc: Global, port: &mut Port) -> usize {
    let calls = vec![in alloc; Call::Read(7), Call::Read(0)]
        .ok()
        .expect(rt, "calls");
    records_of(alloc, port, calls)
        .ok()
        .expect(rt, "records")
        .len()
}

/// Whether a port's objects were told of one byte read, and of nothing else.
fn has_one_read(port: &Port) -> bool {
    let (line, counts, out) = objects_of(port);
    line.calls() == 0 && counts.buffer_read_count() == 1 && out.is_empty()
}

/// Whether a port's writer, if it is lent, takes a byte that the port then has.
fn lends_its_writer(port: &mut Port) -> bool {
    lent_writer(port).push(b'x').is_ok() && port.writer().as_slice() == b"x".as_slice()
}

/// Whether a port keeps what is written to SCR, and takes a byte.
fn is_used(port: &mut FirstPort) -> bool {
    write_at(port, 7, 0x12).is_ok()
        && read_at(port, 7) == 0x12
        && enqueue(port, b"a").ok() == Some(1)
        && room_in(port) == 63
}

/// Whether a port that holds a byte makes a run of two reads, and lends its writer.
fn is_used_again(rt: &impl Abort, alloc: Global, port: &mut Port) -> bool {
    records_of_reads(rt, alloc, port) == 2 && has_one_read(port) && lends_its_writer(port)
}

/// Fails if this is wrong: vm_superio/src/serial.rt Serial::read call 1
/// Fails if this is wrong: vm_superio/src/serial/effects.rt report_read call 2
#[test]
fn a_port_is_made_used_remade_and_taken_apart(rt: HostRuntime) {
    let mut first = first_port(&rt, rt.alloc());
    let is_used = is_used(&mut first);
    let mut second = remade(&rt, rt.alloc(), first);
    assert!(rt; is_used && is_used_again(&rt, rt.alloc(), &mut second));
}

/// A fresh port with an events object.
fn port_with_events(rt: &impl Abort, alloc: Global) -> Port {
    let made = made_with_events(alloc, Line::new(0), Counts::new(), Vec::new(alloc));
    made.map_err(error_of_refused).ok().expect(rt, "a port")
}

// ---- the cases and fields of a run

/// A call without its objects.
fn act_of<T: Drop, EV: Drop, W: Drop>(call: Call<T, EV, W>) -> Act {
    match call {
        Call::Read(offset) => Act::Read(offset),
        Call::Write(offset, value) => Act::Write(offset, value),
        Call::Enqueue(bytes) => Act::Enqueue(bytes),
        Call::CharacterTimeout => Act::CharacterTimeout,
        Call::Restore(_trigger, _events, _out) => Act::Restore,
    }
}

/// How many trigger calls were answered so.
fn calls_of(asked: Asked) -> u8 {
    match asked {
        Asked::Nothing => 0,
        Asked::Took | Asked::Refused => 1,
        Asked::TookTook | Asked::TookRefused => 2,
    }
}

/// How many bytes went out.
fn bytes_out(sent: Sent) -> u8 {
    match sent {
        Sent::Nothing | Sent::Lost => 0,
        Sent::Out => 1,
    }
}

/// Whether a reply is one to this act.
fn is_reply_to<T: Trigger, EV: SerialEvents, W: io::Write>(
    reply: &Reply<T, EV, W>,
    act: &Act,
) -> bool {
    match act {
        Act::Read(_) => matches!(reply, Reply::Byte(_)),
        Act::Write(_, _) => matches!(reply, Reply::Wrote(_)),
        Act::Enqueue(_) => matches!(reply, Reply::Enqueued(_)),
        Act::CharacterTimeout => matches!(reply, Reply::TimedOut(_)),
        Act::Restore => matches!(reply, Reply::Restored(_) | Reply::NotRestored(_)),
    }
}

/// A byte arrives, the port is made again, and the guest takes the byte and sends one.
fn calls(alloc: Global) -> Result<Vec<Call<Line, Counts, Vec<u8>>>, AllocError> {
    let bytes = b"a".to_vec(alloc)?;
    Ok(vec![in alloc;
        Call::Write(1, 0x01),
        Call::Enqueue(bytes),
        Call::Read(2),
        Call::Restore(Line::new(0), Counts::new(), Vec::new(alloc)),
        Call::Read(0),
        Call::CharacterTimeout,
        Call::Write(0, b'x'),
    ]?)
}

/// Whether a reply hands out no old port, or one that holds the byte.
fn has_old_port(alloc: Global, reply: &Reply<Line, Counts, Vec<u8>>) -> bool {
    match reply {
        Reply::Restored(old) => holds_the_byte(alloc, old),
        _ => true,
    }
}

/// Whether a port holds the byte that arrived.
fn holds_the_byte(alloc: Global, port: &Port) -> bool {
    match state_of(port, alloc) {
        Ok(state) => state.in_buffer.as_slice() == b"a".as_slice(),
        Err(_) => false,
    }
}

/// Whether an act asked for as many interrupts and sent as many bytes as it does in those calls.
fn asks_and_sends(act: &Act, asked: Asked, sent: Sent) -> bool {
    calls_of(asked) == u8::from(matches!(act, Act::Enqueue(_)))
        && bytes_out(sent) == u8::from(*act == Act::Write(0, b'x'))
}

/// Whether this is the record of the call of an act.
fn is_record_of(alloc: Global, record: &Done<Line, Counts, Vec<u8>>, made: &Act) -> bool {
    let Done {
        act,
        asked,
        sent,
        reply,
    } = record;
    is_reply_to(reply, act)
        && asks_and_sends(act, *asked, *sent)
        && has_old_port(alloc, reply)
        && *act == *made
}

/// The acts of those calls.
fn acts(rt: &impl Abort, alloc: Global) -> Vec<Act> {
    let calls = calls(alloc).ok().expect(rt, "calls");
    let mut acts = Vec::new(alloc);
    for call in calls {
        acts.push(act_of(call)).ok().expect(rt, "an act");
    }
    acts
}

/// The records of those calls, by a fresh port.
fn done(rt: &impl Abort, alloc: Global) -> Vec<Done<Line, Counts, Vec<u8>>> {
    let mut port = port_with_events(rt, alloc);
    let calls = calls(alloc).ok().expect(rt, "calls");
    records_of(alloc, &mut port, calls)
        .ok()
        .expect(rt, "records")
}

/// Whether there are seven records and seven acts, and each record is of the call of its act.
fn are_records_of(alloc: Global, done: &[Done<Line, Counts, Vec<u8>>], acts: &[Act]) -> bool {
    for (record, act) in done.iter().zip(acts.iter()) {
        if !is_record_of(alloc, record, act) {
            return false;
        }
    }
    (done.len(), acts.len()) == (7, 7)
}

#[test]
fn a_record_has_the_act_of_its_call(rt: HostRuntime) {
    let done = done(&rt, rt.alloc());
    let acts = acts(&rt, rt.alloc());
    assert!(rt; are_records_of(rt.alloc(), &done, &acts));
}

// ---- errors and states

/// The number of an error, from 1.
fn number_of<E: Drop>(error: Error<E>) -> u8 {
    match error {
        Error::Trigger(_) => 1,
        Error::IOError(_) => 2,
        Error::FullFifo => 3,
        Error::Memory => 4,
    }
}

#[test]
fn an_error_has_four_cases(rt: HostRuntime) {
    let fault = io::Error::from(io::ErrorKind::Other);
    let numbers = [
        number_of(Error::Trigger(LineRefused)),
        number_of::<LineRefused>(Error::IOError(fault)),
        number_of::<LineRefused>(Error::FullFifo),
        number_of::<LineRefused>(Error::Memory),
    ];
    assert!(rt; numbers == [1, 2, 3, 4]);
}

/// Whether a value equals itself and prints some text for a programmer.
pub fn is_compared_and_printed<V: Debug + Eq>(alloc: Global, value: &V) -> bool {
    match format!(in alloc; "{value:?}") {
        Ok(text) => *value == *value && !text.is_empty(),
        Err(_) => false,
    }
}

/// The fields of a state, in their order.
fn state(alloc: Global) -> SerialState {
    SerialState {
        baud_divisor_low: 0x0C,
        baud_divisor_high: 0x00,
        interrupt_enable: 0x00,
        interrupt_identification: 0x01,
        line_control: 0x03,
        line_status: 0x60,
        modem_control: 0x08,
        modem_status: 0xB0,
        scratch: 0x00,
        in_buffer: Vec::new(alloc),
    }
}

/// Whether a state is the default one, and is copied.
fn is_default(alloc: Global, state: &SerialState) -> bool {
    match state.clone(alloc) {
        Ok(copy) => *state == SerialState::default(alloc) && *state == copy,
        Err(_) => false,
    }
}

/// Whether the parts of a record are compared and printed.
fn are_parts_printed(alloc: Global) -> bool {
    is_compared_and_printed(alloc, &Act::Restore)
        && is_compared_and_printed(alloc, &Asked::Took)
        && is_compared_and_printed(alloc, &Sent::Out)
}

#[test]
fn states_and_parts_of_records_are_compared_and_printed(rt: HostRuntime) {
    let state = state(rt.alloc());
    assert!(rt; is_default(rt.alloc(), &state) && is_compared_and_printed(rt.alloc(), &state));
    assert!(rt; are_parts_printed(rt.alloc()));
}
