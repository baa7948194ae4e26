// SPDX-License-Identifier: Apache-2.0 OR BSD-3-Clause
//! Runs: each record of a list of calls, and the objects after it.
use crate::runs::Plain::{CharacterTimeout, Enqueue, Read, Restore, Write};
use crate::runs::Row::{Asks, Quiet, Sends};
use crate::runs::Shown::{Byte, Enqueued, NotRestored, Restored, TimedOut, Wrote};
use crate::serial_objects::{
    Fields, IER, IIR, LSR, Narrow, RBR, THR, TestSerial, is_fresh, made, remade, state_with,
};
use board_objects::{Counts, Line, LineRefused};
use std::alloc::{AllocError, Global};
use std::io;
use std::io::ErrorKind;
use std::process::Abort;
use vm_superio::run::{Act, Asked, Call, Done, Reply, Sent, run};
use vm_superio::serial::Error;

// ---- rows

/// A call, with the mask of the calls that the line of a restore refuses.
#[derive(Clone, Copy)]
enum Plain {
    Read(u8),
    Write(u8, u8),
    Enqueue(&'static [u8]),
    CharacterTimeout,
    Restore(u64),
}

/// Why a call failed.
#[derive(Clone, Copy, PartialEq, Eq)]
enum Cause {
    Refused,
    Lost(ErrorKind),
    Full,
    Memory,
}

/// What a reply shows, without its objects.
#[derive(Clone, Copy, PartialEq, Eq)]
enum Shown {
    Byte(u8),
    Wrote(Result<(), Cause>),
    Enqueued(Result<usize, Cause>),
    TimedOut(Result<(), Cause>),
    Restored,
    NotRestored(Cause),
}

/// A call, and what its record has to show.
#[derive(Clone, Copy)]
enum Row {
    /// The call neither asks for an interrupt nor sends a byte.
    Quiet(Plain, Shown),
    /// The call asks for interrupts, with these answers, and sends no byte.
    Asks(Asked, Plain, Shown),
    /// The call sends a byte, with this outcome, and asks for no interrupt.
    Sends(Sent, Plain, Shown),
}

/// The call, the answers of the trigger, the outcome of a byte and the reply of a row.
fn columns(row: Row) -> (Plain, Asked, Sent, Shown) {
    match row {
        Quiet(call, reply) => (call, Asked::Nothing, Sent::Nothing, reply),
        Asks(asked, call, reply) => (call, asked, Sent::Nothing, reply),
        Sends(sent, call, reply) => (call, Asked::Nothing, sent, reply),
    }
}

// ---- runs of rows

/// A call. `None` if it is a restore and no writer is left for it.
fn call_of<W>(
    alloc: Global,
    call: Plain,
    spare: &mut Option<W>,
) -> Result<Option<Call<Line, Counts, W>>, AllocError> {
    Ok(match call {
        Read(offset) => Some(Call::Read(offset)),
        Write(offset, value) => Some(Call::Write(offset, value)),
        Enqueue(bytes) => Some(Call::Enqueue(bytes.to_vec(alloc)?)),
        CharacterTimeout => Some(Call::CharacterTimeout),
        Restore(mask) => match spare.take() {
            Some(out) => Some(Call::Restore(Line::new(mask), Counts::new(), out)),
            None => None,
        },
    })
}

/// Runs the calls of these rows. A row may restore the port over another writer.
fn records<W: io::Write + Drop>(
    alloc: Global,
    port: &mut TestSerial<W>,
    rows: &[Row],
    spare: Option<W>,
) -> Result<Vec<Done<Line, Counts, W>>, AllocError> {
    let mut spare = spare;
    let mut calls = Vec::new(alloc);
    for row in rows {
        let (call, _, _, _) = columns(*row);
        if let Some(call) = call_of(alloc, call, &mut spare)? {
            calls.push(call)?;
        }
    }
    run(alloc, port, calls)
}

/// Why a call failed.
fn cause_of(error: &Error<LineRefused>) -> Cause {
    match error {
        Error::Trigger(LineRefused) => Cause::Refused,
        Error::IOError(fault) => Cause::Lost(fault.kind()),
        Error::FullFifo => Cause::Full,
        Error::Memory => Cause::Memory,
    }
}

/// What a reply shows.
fn shown_by<W: io::Write>(reply: &Reply<Line, Counts, W>) -> Shown {
    match reply {
        Reply::Byte(byte) => Byte(*byte),
        Reply::Wrote(Ok(())) => Wrote(Ok(())),
        Reply::Wrote(Err(error)) => Wrote(Err(cause_of(error))),
        Reply::Enqueued(Ok(count)) => Enqueued(Ok(*count)),
        Reply::Enqueued(Err(error)) => Enqueued(Err(cause_of(error))),
        Reply::TimedOut(Ok(())) => TimedOut(Ok(())),
        Reply::TimedOut(Err(error)) => TimedOut(Err(cause_of(error))),
        Reply::Restored(_) => Restored,
        Reply::NotRestored(refused) => NotRestored(cause_of(&refused.error)),
    }
}

/// Whether an act is the act of a call.
fn is_act_of(act: &Act, call: Plain) -> bool {
    match (act, call) {
        (Act::Read(made), Read(offset)) => *made == offset,
        (Act::Write(made, written), Write(offset, value)) => *made == offset && *written == value,
        (Act::Enqueue(made), Enqueue(bytes)) => made.as_slice() == bytes,
        (Act::CharacterTimeout, CharacterTimeout) | (Act::Restore, Restore(_)) => true,
        _ => false,
    }
}

/// Whether a record shows what it has to.
fn shows<W: io::Write>(record: &Done<Line, Counts, W>, row: Row) -> bool {
    let (call, asked, sent, reply) = columns(row);
    is_act_of(&record.act, call)
        && record.asked == asked
        && record.sent == sent
        && shown_by(&record.reply) == reply
}

/// The number of the first row, from 0, whose record is missing or does not show what it has to.
fn first_wrong<W: io::Write>(done: &[Done<Line, Counts, W>], rows: &[Row]) -> Option<usize> {
    for (number, row) in rows.iter().enumerate() {
        match done.get(number) {
            Some(record) if shows(record, *row) => {}
            _ => return Some(number),
        }
    }
    None
}

/// Whether each record shows what it has to, there are no other records, and the trigger was called `calls` times.
fn is_right<W: io::Write>(
    done: &[Done<Line, Counts, W>],
    rows: &[Row],
    port: &TestSerial<W>,
    calls: u64,
) -> bool {
    first_wrong(done, rows).is_none()
        && done.len() == rows.len()
        && port.interrupt_evt().calls() == calls
}

/// Runs the calls of these rows. Asserts that each record shows what it has to, that there are no other records, and
/// how often the trigger was called.
fn recorded<W: io::Write + Drop>(
    rt: &impl Abort,
    alloc: Global,
    port: &mut TestSerial<W>,
    rows: &[Row],
    spare: Option<W>,
    calls: u64,
) -> Vec<Done<Line, Counts, W>> {
    let done = records(alloc, port, rows, spare).ok().expect(rt, "records");
    assert!(rt;
        is_right(&done, rows, port, calls),
        "{:?}",
        first_wrong(&done, rows)
    );
    done
}

/// Does the same, without the records.
fn run_shows<W: io::Write + Drop>(
    rt: &impl Abort,
    alloc: Global,
    port: &mut TestSerial<W>,
    rows: &[Row],
    spare: Option<W>,
    calls: u64,
) {
    drop(recorded(rt, alloc, port, rows, spare, calls));
}

/// A record of a port over a [`Narrow`] writer.
type NarrowDone = Done<Line, Counts, Narrow>;

/// Whether a restore replaced a port that holds these bytes, has sent none, and has called its trigger this often.
fn replaced(alloc: Global, record: Option<&NarrowDone>, held: &[u8], calls: u64) -> bool {
    match record {
        Some(record) => is_replaced(alloc, &record.reply, held, calls),
        None => false,
    }
}

/// Whether this is the reply of such a restore.
fn is_replaced(
    alloc: Global,
    reply: &Reply<Line, Counts, Narrow>,
    held: &[u8],
    calls: u64,
) -> bool {
    match reply {
        Reply::Restored(old) => match old.state(alloc) {
            Ok(state) => {
                state.in_buffer.as_slice() == held
                    && old.interrupt_evt().calls() == calls
                    && old.writer().bytes().is_empty()
            }
            Err(_) => false,
        },
        _ => false,
    }
}

/// Whether a restore handed back a line of this mask that was called this often, and a writer with this room.
fn handed_back(record: Option<&NarrowDone>, mask: u64, calls: u64, room: usize) -> bool {
    match record {
        Some(record) => is_handed_back(&record.reply, mask, calls, room),
        None => false,
    }
}

/// Whether this is the reply of such a restore.
fn is_handed_back(reply: &Reply<Line, Counts, Narrow>, mask: u64, calls: u64, room: usize) -> bool {
    match reply {
        Reply::NotRestored(refused) => {
            refused.trigger.mask() == mask
                && refused.trigger.calls() == calls
                && refused.out.room() == room
        }
        _ => false,
    }
}

/// How many records a run of no calls has. `None` if memory was refused.
fn records_of_none<W: io::Write + Drop>(alloc: Global, port: &mut TestSerial<W>) -> Option<usize> {
    match run(alloc, port, Vec::new(alloc)) {
        Ok(done) => Some(done.len()),
        Err(_) => None,
    }
}

// ---- tests

#[test]
fn a_run_of_no_calls_changes_nothing(rt: HostRuntime) {
    let mut port = made(&rt, rt.alloc(), 0, Vec::new(rt.alloc()));
    assert!(rt; records_of_none(rt.alloc(), &mut port) == Some(0));
    assert!(rt; is_fresh(rt.alloc(), &port));
    assert!(rt; port.interrupt_evt().calls() == 0 && port.writer().is_empty());
}

#[test]
fn a_run_records_each_read_write_and_enqueue(rt: HostRuntime) {
    static ROWS: [Row; 7] = [
        Asks(Asked::Took, Write(IER, 0x03), Wrote(Ok(()))),
        Sends(Sent::Out, Write(THR, 0x41), Wrote(Ok(()))),
        Asks(Asked::Took, Enqueue(&[0x61, 0x62]), Enqueued(Ok(2))),
        Quiet(Read(IIR), Byte(0xC6)),
        Quiet(Read(RBR), Byte(0x61)),
        Quiet(Read(LSR), Byte(0x61)),
        Quiet(Read(IIR), Byte(0xC1)),
    ];
    let mut port = made(&rt, rt.alloc(), 0, Vec::new(rt.alloc()));
    run_shows(&rt, rt.alloc(), &mut port, &ROWS, None, 2);
    assert!(rt; port.writer().as_slice() == [0x41].as_slice());
}

#[test]
fn a_lost_byte_and_a_restore_change_no_read(rt: HostRuntime) {
    static ROWS: [Row; 8] = [
        Asks(Asked::Took, Write(IER, 0x03), Wrote(Ok(()))),
        Sends(
            Sent::Lost,
            Write(THR, 0x41),
            Wrote(Err(Cause::Lost(ErrorKind::WriteZero))),
        ),
        Asks(Asked::Took, Enqueue(&[0x61, 0x62]), Enqueued(Ok(2))),
        Quiet(Restore(0), Restored),
        Quiet(Read(IIR), Byte(0xC6)),
        Quiet(Read(RBR), Byte(0x61)),
        Quiet(Read(LSR), Byte(0x61)),
        Quiet(Read(IIR), Byte(0xC1)),
    ];
    let mut port = made(&rt, rt.alloc(), 0, Narrow::with_room(0));
    run_shows(
        &rt,
        rt.alloc(),
        &mut port,
        &ROWS,
        Some(Narrow::with_room(0)),
        2,
    );
}

#[test]
fn a_restore_in_a_run_hands_out_the_old_port(rt: HostRuntime) {
    static ROWS: [Row; 6] = [
        Quiet(Write(IER, 0x01), Wrote(Ok(()))),
        Asks(Asked::Took, Enqueue(&[0x61]), Enqueued(Ok(1))),
        Quiet(Read(IIR), Byte(0xC4)),
        Quiet(Restore(0), Restored),
        Quiet(Read(RBR), Byte(0x61)),
        Quiet(Read(LSR), Byte(0x60)),
    ];
    let mut port = made(&rt, rt.alloc(), 0, Narrow::with_room(0));
    // The new port has the new objects.
    let done = recorded(
        &rt,
        rt.alloc(),
        &mut port,
        &ROWS,
        Some(Narrow::with_room(1)),
        0,
    );
    assert!(rt; port.write(THR, 0x41).is_ok());
    assert!(rt; replaced(rt.alloc(), done.get(3), &[0x61], 1));
}

#[test]
fn a_refused_restore_in_a_run_leaves_the_port(rt: HostRuntime) {
    static ROWS: [Row; 2] = [
        Quiet(Restore(0b10), NotRestored(Cause::Refused)),
        Quiet(Read(IIR), Byte(0xC6)),
    ];
    // Both conditions are pending and enabled.
    let fields = Fields {
        iir: 0x06,
        ier: 0x03,
        lsr: 0x61,
        held: &[0x61],
    };
    let state = state_with(&rt, rt.alloc(), fields);
    let mut port = remade(&rt, rt.alloc(), &state, 0, Narrow::with_room(0));
    let done = recorded(
        &rt,
        rt.alloc(),
        &mut port,
        &ROWS,
        Some(Narrow::with_room(1)),
        2,
    );
    // The port has its own objects, and the reply the new ones.
    assert!(rt; port.write(THR, 0x41).is_err());
    assert!(rt; handed_back(done.first(), 0b10, 2, 1));
}

/// Fails if this is wrong: vm_superio/src/serial/effects.rt call_trigger call 2
#[test]
fn a_run_records_what_the_trigger_answered(rt: HostRuntime) {
    static ROWS: [Row; 7] = [
        Quiet(Enqueue(&[0x61]), Enqueued(Ok(1))),
        Asks(Asked::TookTook, Write(IER, 0x03), Wrote(Ok(()))),
        Quiet(Read(IIR), Byte(0xC6)),
        Asks(
            Asked::TookRefused,
            Write(IER, 0x03),
            Wrote(Err(Cause::Refused)),
        ),
        Quiet(Read(IIR), Byte(0xC6)),
        Asks(Asked::Refused, Write(IER, 0x03), Wrote(Err(Cause::Refused))),
        Quiet(Read(IIR), Byte(0xC4)),
    ];
    // The line refuses THRE once, and then RDA.
    let mut port = made(&rt, rt.alloc(), 0b11000, Narrow::with_room(0));
    run_shows(&rt, rt.alloc(), &mut port, &ROWS, None, 5);
}

/// Fails if this is wrong: vm_superio/src/serial.rt Serial::timeout_for_run call 1
/// Fails if this is wrong: vm_superio/src/serial.rt Serial::timeout_for_run error 1
#[test]
fn a_run_records_character_timeouts(rt: HostRuntime) {
    static ROWS: [Row; 5] = [
        Asks(Asked::Took, CharacterTimeout, TimedOut(Ok(()))),
        // RDA is pending already.
        Quiet(CharacterTimeout, TimedOut(Ok(()))),
        Quiet(Read(IIR), Byte(0xC4)),
        Asks(
            Asked::Refused,
            CharacterTimeout,
            TimedOut(Err(Cause::Refused)),
        ),
        Quiet(Read(IIR), Byte(0xC4)),
    ];
    // A byte is held for which the trigger was not called.
    let fields = Fields {
        iir: 0x01,
        ier: 0x01,
        lsr: 0x61,
        held: &[0x61],
    };
    let state = state_with(&rt, rt.alloc(), fields);
    let mut port = remade(&rt, rt.alloc(), &state, 0b10, Narrow::with_room(0));
    run_shows(&rt, rt.alloc(), &mut port, &ROWS, None, 2);
}
