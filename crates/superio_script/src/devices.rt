// SPDX-License-Identifier: Apache-2.0 OR BSD-3-Clause
//! A board of devices, and the lines that drive it: what a line asks for, the clock's lines and the controller's.
ghost use Rattle.std.specs.Prelude.{◌≡◌, ◌↔◌, codes, IfOk, IfErr, IsSomeAnd, IsErrOf, OnErr};
ghost use Rattle.superio_script.specs.Fields.{by_syntax, remaining_fields};
ghost use Rattle.superio_laws.specs.Rtc.{fresh_clock};
ghost use Rattle.board_objects.specs.Objects.{fresh_interrupt_line, no_counts};
ghost use Rattle.superio_script.specs.Devices.{command_of, clock_syntaxes, IsClockLineStep, controller_syntaxes, controller_reply};
ghost use Rattle.superio_script.specs.declared.devices.ClockCommand.TheVariants.{Read, Write};
ghost use Rattle.superio_script.specs.declared.replies.LineFault.TheVariants.{Bad, Memory};

use crate::fields::Fields;
use crate::replies::{LineFault, ReplyText, ScriptFault, reply_digits, reply_text};
use crate::serial_lines::{BoardSerial, SerialCommand, serial_line, serial_syntax};
use board_objects::{Counts, Line, Output};
use std::alloc::Global;
use std::marker::Model;
use vm_superio::{I8042Device, Rtc, Serial};

/// The devices that a script drives: a serial port, a clock and an i8042 controller.
///
/// In contracts a board is what the history says after a trace of the serial port's calls and restores, and after a
/// list of the clock's accesses, both since the board was new. [`Board::line`] states what a line adds to them.
#[derive(Drop)]
pub struct Board {
    serial: BoardSerial,
    clock: Rtc<Counts>,
    controller: I8042Device<Line>,
}

impl Model for Board {
    ghost use Rattle.superio_script.specs.Devices.{Devices, IsBetweenLines};

    ghost Value = { Devices };

    ghost view = { λ board. record { serial = board.serial; clock = board.clock; controller = board.controller } };

    ghost invariant = { λ board. IsBetweenLines board.serial board.clock board.controller };
}

impl Board {
    ghost use Rattle.superio_script.specs.Devices.{IsFresh, IsLineStep};

    /// A board of fresh devices. If bit k (0 to 63) of `mask` is set, the serial port's interrupt line refuses call
    /// number k, counted from 0. The controller's reset line refuses no call.
    ///
    /// # Errors
    ///
    /// Returns [`ScriptFault::Memory`] if memory is refused for the port.
    pub fn new(alloc: Global, mask: u64) -> Result<Board, ScriptFault>
        ensures only_memory { IfErr result (λ fault. fault ≡ ScriptFault.Memory) }
        ensures fresh { IfOk result (λ board. IsFresh mask board) }
    {
        let serial = Serial::with_events(alloc, Line::new(mask), Counts::new(), Output::new());
        Ok(Board {
            serial: serial.map_err(|_| ScriptFault::Memory)?,
            clock: new_clock(),
            controller: new_controller(),
        })
    }

    /// Executes one line, given without its LF, and returns the reply with its LF.
    ///
    /// # Errors
    ///
    /// Returns [`LineFault::Bad`] if the line has no known syntax or is `refuse`. Returns [`LineFault::Memory`] if
    /// memory is refused for the line `ss`. The board is unchanged after both.
    #[tactic(auto, using(crate::proofs::RestoreLine::restore_line, crate::proofs::ScriptLemmas::between_lines))]
    pub fn line(&mut self, alloc: Global, line: &[u8]) -> Result<ReplyText, LineFault>
        ensures bad { IsErrOf result LineFault.Bad ↔ (command_of line.now ≡ None) }
        ensures memory { result ≡ Err LineFault.Memory → line.now ≡ codes "ss" }
        ensures step { IfOk result (λ reply.
            IsSomeAnd (command_of line.now) (λ command. IsLineStep command reply.items self.old self.new)) }
        ensures unchanged { OnErr result (self.new ≡ self.old) }
    {
        match parse(line).ok_or(LineFault::Bad)? {
            Command::Serial(line) => serial_line(alloc, &mut self.serial, line),
            Command::Clock(line) => Ok(clock_line(&mut self.clock, line)),
            Command::Controller(line) => Ok(controller_line(&mut self.controller, line)),
        }
    }
}

// ---- what a line asks for

/// What a line asks for.
#[derive(Drop)]
enum Command {
    /// A line of the serial port.
    Serial(SerialCommand),
    /// A line of the clock.
    Clock(ClockCommand),
    /// A line of the i8042 controller.
    Controller(ControllerCommand),
}

/// What a line asks for, or `None` if it has no syntax. A name begins with the letter of its device.
fn parse(line: &[u8]) -> Option<Command>
    ensures { result ≡ command_of line.now }
{
    let mut fields = Fields::of(line);
    let name = fields.next_field()?;
    Some(match name.first()? {
        b's' => Command::Serial(serial_syntax(name, &mut fields)?),
        b'c' => Command::Clock(clock_syntax(name, &mut fields)?),
        b'k' => Command::Controller(controller_syntax(name, &mut fields)?),
        _ => return None,
    })
}

// ---- the clock

/// A line of the clock.
#[derive(Clone, Copy)]
enum ClockCommand {
    /// The guest reads at a moment, in seconds since 1970.
    Read {
        moment: u64,
        offset: u16,
    },
    /// The guest writes at a moment, in seconds since 1970.
    Write {
        moment: u64,
        offset: u16,
        value: u32,
    },
}

/// The syntaxes of the clock's lines.
fn clock_syntax(name: &[u8], fields: &mut Fields) -> Option<ClockCommand>
    ensures { result ≡ by_syntax clock_syntaxes name.now (remaining_fields fields.old.rest) }
{
    let command = match name {
        b"cr" => ClockCommand::Read {
            moment: fields.u64()?,
            offset: fields.u16()?,
        },
        b"cw" => ClockCommand::Write {
            moment: fields.u64()?,
            offset: fields.u16()?,
            value: fields.u32()?,
        },
        _ => return None,
    };
    fields.end(command)
}

/// A fresh clock.
fn new_clock() -> Rtc<Counts>
    ensures { result ≡ record { state = fresh_clock; events = no_counts } }
{
    Rtc::with_events(Counts::new())
}

/// Executes a line on the clock and returns the reply.
fn clock_line(clock: &mut Rtc<Counts>, line: ClockCommand) -> ReplyText
    ensures step { IsClockLineStep line result.items clock.old.state clock.new.state }
{
    match line {
        ClockCommand::Read { moment, offset } => read_clock(clock, moment, offset),
        ClockCommand::Write {
            moment,
            offset,
            value,
        } => write_clock(clock, moment, offset, value),
    }
}

/// Reads the clock as the guest does.
fn read_clock(clock: &mut Rtc<Counts>, moment: u64, offset: u16) -> ReplyText
    ensures step { IsClockLineStep (Read moment offset) result.items clock.old.state clock.new.state }
{
    match clock.read_value(offset, moment) {
        Some(value) => reply_digits(&value.to_be_bytes()),
        None => reply_text(b"invalid"),
    }
}

/// Writes to the clock as the guest does.
fn write_clock(clock: &mut Rtc<Counts>, moment: u64, offset: u16, value: u32) -> ReplyText
    ensures step { IsClockLineStep (Write moment offset value) result.items clock.old.state clock.new.state }
{
    if clock.write_value(offset, value, moment) {
        return reply_text(b"ok");
    }
    reply_text(b"invalid")
}

// ---- the controller

/// A line of the i8042 controller.
#[derive(Clone, Copy)]
enum ControllerCommand {
    /// The guest reads.
    Read { offset: u8 },
    /// The guest writes.
    Write { offset: u8, value: u8 },
}

/// The syntaxes of the controller's lines.
fn controller_syntax(name: &[u8], fields: &mut Fields) -> Option<ControllerCommand>
    ensures { result ≡ by_syntax controller_syntaxes name.now (remaining_fields fields.old.rest) }
{
    let command = match name {
        b"kr" => ControllerCommand::Read {
            offset: fields.u8()?,
        },
        b"kw" => ControllerCommand::Write {
            offset: fields.u8()?,
            value: fields.u8()?,
        },
        _ => return None,
    };
    fields.end(command)
}

/// A controller whose reset line refuses no call.
fn new_controller() -> I8042Device<Line>
    ensures { result ≡ fresh_interrupt_line 0 }
{
    I8042Device::new(Line::new(0))
}

/// Executes a line on a controller whose reset line was never called, leaves it so, and returns the reply.
fn controller_line(controller: &mut I8042Device<Line>, line: ControllerCommand) -> ReplyText
    requires { controller.old ≡ fresh_interrupt_line 0 }
    ensures reply { result.items ≡ controller_reply line }
    ensures same { controller.new ≡ controller.old }
{
    let (offset, value) = match line {
        ControllerCommand::Read { offset } => return reply_digits(&[controller.read(offset)]),
        ControllerCommand::Write { offset, value } => (offset, value),
    };
    // The reset line refuses no call, so its count shows what the result shows.
    let _ = controller.write(offset, value);
    if controller.reset_evt().calls() == 0 {
        return reply_text(b"ok");
    }
    *controller = new_controller();
    reply_text(b"reset")
}
