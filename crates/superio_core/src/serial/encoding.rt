// SPDX-License-Identifier: Apache-2.0 OR BSD-3-Clause
//! The encoding of a serial port's state.
ghost use Rattle.std.specs.Prelude.{◌≡◌, ◌≤◌, ◌+◌, length, List, ℕ, ◌++◌, take, drop, IfOk, nat_eq};
ghost use Rattle.std.specs.Cmp.{on_equiv, on_per, partial_equiv_from_equiv};
ghost use Rattle.std.specs.Cmp.Lexicographic.{pointwise, nat_list_eq_equiv};
ghost use Rattle.std.specs.Result.{result_err};
ghost use Rattle.superio_core.specs.Serial.{fifo_size, state_with, state_of_uart};
ghost use Rattle.superio_core.specs.Saved.{serial_encoding, serial_fault};
ghost use Rattle.superio_core.specs.Sizes.{serial_saved_max};

use super::super::fifo::FIFO_SIZE;
use super::super::saved::{HEADER_SIZE, SERIAL_KIND, SavedStateError, decode_header, header};
use super::Uart;
use super::registers::{REGISTER_COUNT, Registers};
use std::marker::Model;

/// The size of an encoding without received bytes: the header and the registers.
const SAVED_MIN: usize = HEADER_SIZE + REGISTER_COUNT;

/// The maximum size of a port's encoding: the header, the registers and 64 received bytes.
pub const SAVED_MAX: usize = SAVED_MIN + FIFO_SIZE;

/// The bytes of a saved port. Contracts see a list of at most 81 bytes.
#[derive(Clone, Debug)]
#[derive(Drop)]
pub struct SerialEncoding {
    pub(super) bytes: [u8; SAVED_MAX],
    pub(super) count: usize,
}

impl Model for SerialEncoding {
    ghost Value = { List ℕ };

    ghost view = { λ encoding. take encoding.count encoding.bytes };

    ghost invariant = { λ encoding. encoding.count ≤ serial_saved_max };
}

impl SerialEncoding {
    /// The bytes.
    pub fn as_bytes(&self) -> &[u8]
        ensures { result.now ≡ self.now }
    {
        &self.bytes[..self.count]
    }
}

impl PartialEq for SerialEncoding {
    ghost eq = { pointwise nat_eq };

    ghost laws = { partial_equiv_from_equiv nat_list_eq_equiv };

    fn eq(&self, other: &Self) -> bool {
        self.as_bytes() == other.as_bytes()
    }
}

impl Eq for SerialEncoding {
    ghost laws = { nat_list_eq_equiv };
}

/// Two ports are equal if their saved states are equal. No guest can tell such ports apart.
impl PartialEq for Uart {
    ghost eq = { λ a b. pointwise nat_eq (serial_encoding (state_of_uart a)) (serial_encoding (state_of_uart b)) };

    ghost laws = { on_per (λ port. serial_encoding (state_of_uart port)) (partial_equiv_from_equiv nat_list_eq_equiv) };

    fn eq(&self, other: &Self) -> bool {
        self.to_bytes() == other.to_bytes()
    }
}

impl Eq for Uart {
    ghost laws = { on_equiv (λ port. serial_encoding (state_of_uart port)) nat_list_eq_equiv };
}

/// Copies two slices to the start of another, one after the other.
fn copy_both(target: &mut [u8], first: &[u8], second: &[u8])
    requires { length first.now + length second.now ≤ length target.old }
    ensures { target.new ≡ first.now ++ second.now ++ drop (length first.now + length second.now) target.old }
{
    let (start, rest) = target.split_at_mut(first.len());
    start.copy_from_slice(first);
    // The held bytes are mostly in one piece.
    if !second.is_empty() {
        rest[..second.len()].copy_from_slice(second);
    }
}

impl Registers {
    /// Writes the encoding of a port with these registers and these received bytes, given in two slices, to the start
    /// of an array. Returns its length. The bytes after it do not change.
    pub(super) fn encode_serial(
        &self,
        older: &[u8],
        newer: &[u8],
        encoding: &mut [u8; SAVED_MAX],
    ) -> usize
        requires { length older.now + length newer.now ≤ fifo_size }
        ensures count { result ≡ length (serial_encoding (state_with self.now (older.now ++ newer.now))) }
        ensures encoding { encoding.new
            ≡ serial_encoding (state_with self.now (older.now ++ newer.now)) ++ drop result encoding.old }
    {
        let held = older.len() + newer.len();
        let (start, rest) = encoding.split_at_mut(SAVED_MIN);
        start.copy_from_slice(&self.encode_prefix(held));
        copy_both(rest, older, newer);
        SAVED_MIN + held
    }

    /// The start of the encoding of a port with these registers and `held` received bytes.
    fn encode_prefix(&self, held: usize) -> [u8; SAVED_MIN]
        requires { held ≤ fifo_size }
        ensures { (in_buffer : List ℕ) → length in_buffer ≡ held →
            result ++ in_buffer ≡ serial_encoding (state_with self.now in_buffer) }
    {
        let [m0, m1, m2, m3, kind, version, low, high] = header(
            SERIAL_KIND,
            (REGISTER_COUNT + held) as u16,
        );
        [
            m0,
            m1,
            m2,
            m3,
            kind,
            version,
            low,
            high,
            self.baud_divisor_low,
            self.baud_divisor_high,
            self.interrupt_enable,
            self.interrupt_identification,
            self.line_control,
            self.line_status,
            self.modem_control,
            self.modem_status,
            self.scratch,
        ]
    }
}

/// The registers and the received bytes of a port's encoding.
///
/// # Errors
///
/// Returns the errors of [`Uart::from_bytes`].
pub(super) fn decode_serial(bytes: &[u8]) -> Result<(Registers, &[u8]), SavedStateError>
    ensures encoding { IfOk result (λ found. bytes.now ≡ serial_encoding (state_with found.0 found.1.now)) }
    ensures at_most_64 { IfOk result (λ found. length found.1.now ≤ fifo_size) }
    ensures fault { result_err result ≡ serial_fault bytes.now }
{
    match decode_header(SERIAL_KIND, bytes)? {
        [dll, dlm, ier, iir, lcr, lsr, mcr, msr, scr, in_buffer @ ..] => {
            if in_buffer.len() > FIFO_SIZE {
                return Err(SavedStateError::TooManyBytes);
            }
            let registers = Registers {
                baud_divisor_low: *dll,
                baud_divisor_high: *dlm,
                interrupt_enable: *ier,
                interrupt_identification: *iir,
                line_control: *lcr,
                line_status: *lsr,
                modem_control: *mcr,
                modem_status: *msr,
                scratch: *scr,
            };
            Ok((registers, in_buffer))
        }
        _ => Err(SavedStateError::WrongLength),
    }
}
