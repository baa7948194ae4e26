// SPDX-License-Identifier: Apache-2.0 OR BSD-3-Clause
//! The lines of the serial port: their syntaxes, and what executes them.
ghost use Rattle.std.specs.Prelude.{◌≡◌, ◌<◌, IfOk, IfErr, OnErr};
ghost use Rattle.vm_superio.specs.Serial.{write_response, enqueue_response, failure_response};
ghost use Rattle.superio_script.specs.Fields.{by_syntax, remaining_fields};
ghost use Rattle.superio_script.specs.SerialScript.{serial_syntaxes, response_reply, counts_reply, IsSerialLineStep};
ghost use Rattle.superio_script.specs.declared.serial_lines.SerialCommand.TheVariants.{Restore};

use crate::driver::drain;
use crate::fields::{FieldBytes, Fields};
use crate::replies::{LineFault, ReplyText, push_digits, reply_count, reply_digits, reply_text};
use board_objects::{Counts, Line, LineRefused, Output};
use std::alloc::Global;
use std::mem;
use vm_superio::Serial;
use vm_superio::serial::Error;

/// A line of the serial port.
#[derive(Drop)]
pub(crate) enum SerialCommand {
    /// The guest reads.
    Read { offset: u8 },
    /// The guest writes.
    Write { offset: u8, value: u8 },
    /// Bytes come in for the guest.
    Enqueue { bytes: FieldBytes },
    /// How many more bytes fit in the FIFO.
    Capacity,
    /// A driver reads the bytes that the port holds.
    Drain,
    /// A save and a restore of the port.
    Restore,
    /// The bytes that the port wrote.
    Output,
    /// How often the interrupt line was called.
    Calls,
    /// How often each event was reported.
    Events,
}

/// The syntaxes of the lines, a row each: the name, what it asks for, and the kinds of its fields in order.
pub(crate) fn serial_syntax(name: &[u8], fields: &mut Fields) -> Option<SerialCommand>
    ensures { result ≡ by_syntax serial_syntaxes name.now (remaining_fields fields.old.rest) }
{
    let command = match name {
        b"sr" => SerialCommand::Read {
            offset: fields.u8()?,
        },
        b"sw" => SerialCommand::Write {
            offset: fields.u8()?,
            value: fields.u8()?,
        },
        b"sq" => SerialCommand::Enqueue {
            bytes: fields.bytes()?,
        },
        b"sc" => SerialCommand::Capacity,
        b"sd" => SerialCommand::Drain,
        b"ss" => SerialCommand::Restore,
        b"so" => SerialCommand::Output,
        b"st" => SerialCommand::Calls,
        b"se" => SerialCommand::Events,
        _ => return None,
    };
    fields.end(command)
}

/// The serial port of a board.
pub(crate) type BoardSerial = Serial<Line, Counts, Output>;

/// Executes a line on the serial port and returns the reply. Only `ss` can fail, if memory is refused. The port is then
/// unchanged.
#[tactic(auto, using(crate::proofs::SerialScriptLemmas::unchanged_lines))]
pub(crate) fn serial_line(
    alloc: Global,
    serial: &mut BoardSerial,
    line: SerialCommand,
) -> Result<ReplyText, LineFault>
    ensures step { IfOk result (λ reply. IsSerialLineStep line reply.items serial.old serial.new) }
    ensures unchanged { OnErr result (serial.new ≡ serial.old) }
    ensures only_memory { IfErr result (λ fault. fault ≡ LineFault.Memory) }
    ensures restores { OnErr result (line ≡ Restore) }
{
    match line {
        SerialCommand::Read { offset } => Ok(reply_digits(&[serial.read(offset)])),
        SerialCommand::Write { offset, value } => Ok(write_reply(serial.write(offset, value))),
        SerialCommand::Enqueue { bytes } => {
            Ok(enqueue_reply(serial.enqueue_raw_bytes(bytes.as_slice())))
        }
        SerialCommand::Capacity => Ok(reply_digits(&[serial.fifo_capacity() as u8])),
        SerialCommand::Drain => Ok(reply_digits(&drain(serial))),
        SerialCommand::Restore => restore(alloc, serial),
        SerialCommand::Output => Ok(reply_digits(serial.writer().bytes())),
        SerialCommand::Calls => Ok(reply_count(serial.interrupt_evt().calls())),
        SerialCommand::Events => Ok(reply_events(serial.events())),
    }
}

/// The counts of a serial port's events, and LF.
fn reply_events(counts: &Counts) -> ReplyText
    ensures { result.items ≡ counts_reply counts.now }
{
    let mut reply = ReplyText::new();
    push_digits(&mut reply, &counts.buffer_read_count().to_be_bytes());
    reply.push(b' ');
    push_digits(&mut reply, &counts.out_byte_count().to_be_bytes());
    reply.push(b' ');
    push_digits(&mut reply, &counts.tx_lost_byte_count().to_be_bytes());
    reply.push(b' ');
    push_digits(&mut reply, &counts.in_buffer_empty_count().to_be_bytes());
    reply.push(b'\n');
    reply
}

/// Makes the port again from its own state, with copies of its interrupt line and counts, and with its output. If the
/// copy of the interrupt line refuses a call, the old port stays.
fn restore(alloc: Global, serial: &mut BoardSerial) -> Result<ReplyText, LineFault>
    ensures step { IfOk result (λ reply. IsSerialLineStep Restore reply.items serial.old serial.new) }
    ensures unchanged { OnErr result (serial.new ≡ serial.old) }
    ensures only_memory { IfErr result (λ fault. fault ≡ LineFault.Memory) }
{
    let Ok(state) = serial.state(alloc) else {
        return Err(LineFault::Memory);
    };
    let line = *serial.interrupt_evt();
    let counts = *serial.events();
    match Serial::from_state(alloc, &state, line, counts, Output::new()) {
        Ok(restored) => {
            let old = mem::replace(serial, restored);
            *serial.writer_mut() = old.into_writer();
            Ok(reply_text(b"ok"))
        }
        Err(refused) => match refused.into_error() {
            Error::Memory => Err(LineFault::Memory),
            error => Ok(error_reply(error)),
        },
    }
}

/// The reply to a write with this result.
fn write_reply(answer: Result<(), Error<LineRefused>>) -> ReplyText
    ensures { result.items ≡ response_reply (write_response answer) }
{
    match answer {
        Ok(()) => reply_text(b"ok"),
        Err(error) => error_reply(error),
    }
}

/// The reply to an enqueue with this result.
fn enqueue_reply(enqueued: Result<usize, Error<LineRefused>>) -> ReplyText
    requires { IfOk enqueued (λ count. count < 256) }
    ensures { result.items ≡ response_reply (enqueue_response enqueued) }
{
    match enqueued {
        Ok(count) => reply_digits(&[count as u8]),
        Err(error) => error_reply(error),
    }
}

/// The reply to a call that failed with this error.
fn error_reply(error: Error<LineRefused>) -> ReplyText
    ensures { result.items ≡ response_reply (failure_response error) }
{
    match error {
        Error::Trigger(LineRefused) => reply_text(b"trigger"),
        Error::IOError(_) => reply_text(b"io"),
        Error::FullFifo => reply_text(b"full"),
        // Only a restore allocates memory. If that fails, it has no reply.
        Error::Memory => ReplyText::new(),
    }
}
