// SPDX-License-Identifier: Apache-2.0 OR BSD-3-Clause
//! A bus that forwards a guest's port I/O to a serial port and a reset controller, by port number.
ghost use Rattle.std.specs.Prelude.{◌≡◌, length, replicate};
ghost use Rattle.std.specs.Bool.{OnTrue, OnFalse};
ghost use Rattle.superio_core.specs.Serial.{Coherent};
ghost use Rattle.superio_examples.specs.Bus.{serial_offset, is_width, ReadsByte, WritesByte, ReadsBytes, WritesBytes};

use std::io::Write;
use vm_superio::serial::{Error, SerialEvents};
use vm_superio::{I8042Device, Serial, Trigger};

/// The first ports of a PC's serial ports.
pub const COM1: u16 = 0x3F8;

pub const COM2: u16 = 0x2F8;

pub const COM3: u16 = 0x3E8;

pub const COM4: u16 = 0x2E8;

/// How many ports a serial port has.
const SERIAL_PORTS: u16 = 8;

/// The controller's data port.
pub(crate) const I8042_DATA: u16 = 0x60;

/// The controller's command port. On a PC, the ports between the two belong to others: 0x61 is system control port B.
pub(crate) const I8042_COMMAND: u16 = 0x64;

/// What a guest reads at the controller's two ports. The reset command works with either.
#[derive(Clone, Copy)]
pub enum Keyboard {
    /// Reads give 0, as the controller's do: the keyboard never answers. Linux waits half a second for an answer.
    Silent,
    /// Reads give 0xFD. Bit 0x01 of the status never clears, so Linux finds no controller after 17 reads. Bit 0x02 is
    /// clear: otherwise Linux would read the status 65,536 times before the reset command, as it does with 0xFF.
    Absent,
}

/// Why a write failed.
#[derive(Debug, Drop)]
pub enum BusError<E, F> {
    /// The serial port's trigger refused a call, or its writer failed.
    Serial(Error<E>),
    /// The reset trigger refused the reset command.
    Reset(F),
}

/// The devices that a guest reaches by port I/O: a serial port at eight ports from `base` on, and a controller at 0x60
/// and 0x64.
#[derive(Drop)]
pub struct Bus<T: Trigger, EV: SerialEvents, W: Write, R: Trigger> {
    /// The first port of the serial port, such as [`COM1`].
    pub base: u16,
    /// What reads of the controller's ports give.
    pub keyboard: Keyboard,
    pub serial: Serial<T, EV, W>,
    pub controller: I8042Device<R>,
}

impl<T: Trigger, EV: SerialEvents, W: Write, R: Trigger> Bus<T, EV, W, R> {
    /// Reads the byte at `port`, as a guest's `in` does. A port of neither device gives 0xFF, as on a PC. So does 0x61:
    /// Linux waits for its bit 0x20 when it measures the processor's clock.
    pub fn read(&mut self, port: u16) -> u8
        ensures step { ReadsByte T.link EV.link W.contents R.link port result self.old self.new }
        ensures coherent { Coherent self.old.serial.state → Coherent self.new.serial.state }
    {
        match (serial_offset(self.base, port), port, self.keyboard) {
            (Some(offset), _, _) => self.serial.read(offset),
            (None, I8042_DATA | I8042_COMMAND, Keyboard::Silent) => {
                self.controller.read((port - I8042_DATA) as u8)
            }
            (None, I8042_DATA | I8042_COMMAND, Keyboard::Absent) => 0xFD,
            (None, _, _) => 0xFF,
        }
    }

    /// Writes `value` at `port`, as a guest's `out` does. A port of neither device ignores it.
    ///
    /// # Errors
    ///
    /// Returns [`BusError::Serial`] if the serial port's trigger refused a call or its writer failed. Do not repeat the
    /// write: it has taken effect on the registers. Returns [`BusError::Reset`] if the reset trigger refused the reset
    /// command: nobody was notified of the reset.
    pub fn write(&mut self, port: u16, value: u8) -> Result<(), BusError<T::E, R::E>>
        ensures step { WritesByte T.link EV.link W.contents R.link port value result self.old self.new }
        ensures coherent { Coherent self.old.serial.state → Coherent self.new.serial.state }
    {
        match (serial_offset(self.base, port), port) {
            (Some(offset), _) => match self.serial.write(offset, value) {
                Ok(()) => Ok(()),
                Err(error) => Err(BusError::Serial(error)),
            },
            (None, I8042_DATA | I8042_COMMAND) => match self
                .controller
                .write((port - I8042_DATA) as u8, value)
            {
                Ok(()) => Ok(()),
                Err(refusal) => Err(BusError::Reset(refusal)),
            },
            (None, _) => Ok(()),
        }
    }

    /// Serves an `in` of 1, 2 or 4 bytes: reads each byte at its own port, the lowest first. Any other length, which no
    /// guest access has, gives 0xFF in each byte and changes nothing.
    pub fn port_in(&mut self, port: u16, bytes: &mut [u8])
        ensures bytes { OnTrue (is_width (length bytes.old))
            (ReadsBytes T.link EV.link W.contents R.link port bytes.new self.old self.new) }
        ensures other_lengths { OnFalse (is_width (length bytes.old)) (bytes.new ≡ replicate (length bytes.old) 0xFF) }
        ensures alone { OnFalse (is_width (length bytes.old)) (self.new ≡ self.old) }
        ensures coherent { Coherent self.old.serial.state → Coherent self.new.serial.state }
    {
        if !is_width(bytes.len()) {
            bytes.fill(0xFF);
            return;
        }
        let mut at = port;
        for place in 0..bytes.len() {
            bytes[place] = self.read(at);
            at = at.wrapping_add(1);
        }
    }

    /// Serves an `out` of 1, 2 or 4 bytes: writes each byte at its own port, the lowest first, even if an earlier one
    /// failed. Any other length, which no guest access has, is ignored.
    ///
    /// # Errors
    ///
    /// Returns the first error of a byte's `write`. The monitor can log it. The guest goes on.
    pub fn port_out(&mut self, port: u16, bytes: &[u8]) -> Result<(), BusError<T::E, R::E>>
        ensures bytes { OnTrue (is_width (length bytes.now))
            (WritesBytes T.link EV.link W.contents R.link port bytes.now result self.old self.new) }
        ensures other_lengths { OnFalse (is_width (length bytes.now)) (result ≡ Ok tt) }
        ensures alone { OnFalse (is_width (length bytes.now)) (self.new ≡ self.old) }
        ensures coherent { Coherent self.old.serial.state → Coherent self.new.serial.state }
    {
        let mut result = Ok(());
        if is_width(bytes.len()) {
            let mut at = port;
            for byte in bytes {
                result = result.and(self.write(at, *byte));
                at = at.wrapping_add(1);
            }
        }
        result
    }
}

/// Whether an access of a guest has this length.
fn is_width(length: usize) -> bool
    ensures { result ≡ is_width length }
{
    matches!(length, 1 | 2 | 4)
}

/// The offset of `port` from `base`, if it is one of the eight ports of a serial port that begins there.
pub(crate) fn serial_offset(base: u16, port: u16) -> Option<u8>
    ensures { result ≡ serial_offset base port }
{
    match port.checked_sub(base) {
        Some(offset) if offset < SERIAL_PORTS => Some(offset as u8),
        _ => None,
    }
}
