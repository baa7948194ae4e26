// SPDX-License-Identifier: Apache-2.0 OR BSD-3-Clause
//! A saved console as bytes.
//!
//! Its parts are, in order:
//!
//! - a header of eight bytes, which each saved device has,
//! - the four flags in one byte,
//! - the number of dropped bytes in eight bytes,
//! - the number of bytes of output that wait, in two bytes,
//! - these bytes of output, and
//! - the port, as [`Uart::to_bytes`](superio_core::Uart) writes it.
//!
//! Numbers are little-endian.
ghost use Rattle.std.specs.Prelude.{◌≡◌, ◌<◌, ◌≤◌, ◌+◌, ◌^◌, ◌==◌, ◌∷◌, ◌++◌, List, ℕ, not, length, take, drop, Some, IfOk, IfErr, nat_eq};
ghost use Rattle.std.specs.Cmp.{on_equiv, on_per, partial_equiv_from_equiv};
ghost use Rattle.std.specs.Cmp.Lexicographic.{pointwise, nat_list_eq_equiv};
ghost use Rattle.std.specs.Int.{w16, w64, to_le_bytes};
ghost use Rattle.superio_core.specs.Saved.{encoding, console_kind, serial_fault};
ghost use Rattle.superio_core.specs.Sizes.{serial_saved_max};
ghost use Rattle.superio_console.specs.OutputRing.{output_size};
ghost use Rattle.superio_console.specs.Console.{state_of};
ghost use Rattle.superio_console.specs.Saved.{console_encoding, console_fault, bit_if, flags_of, console_prefix};

use super::Console;
use super::output_ring::OUTPUT_SIZE;
use superio_core::saved::{CONSOLE_KIND, HEADER_SIZE, SavedStateError, decode_header, header};
use superio_core::serial::encoding::SAVED_MAX as PORT_MAX;

/// The size of the flags and of the two counts.
const PREFIX_SIZE: usize = 11;

/// The maximum size of a console's encoding: the header, the flags and counts, 4,096 bytes of output, and a port.
pub const CONSOLE_SAVED_MAX: usize = HEADER_SIZE + PREFIX_SIZE + OUTPUT_SIZE + PORT_MAX;

/// The bits of the flags.
pub(super) const POLLED_BIT: u8 = 0x01;

pub(super) const READY_BIT: u8 = 0x02;

pub(super) const ASLEEP_BIT: u8 = 0x04;

pub(super) const REFUSED_BIT: u8 = 0x08;

const ALL_BITS: u8 = 0x0F;

/// Two consoles are equal exactly if their saved states are equal. No guest can tell such consoles apart.
impl PartialEq for Console {
    ghost eq = { λ a b. pointwise nat_eq (console_encoding (state_of a)) (console_encoding (state_of b)) };

    ghost laws = { on_per (λ console. console_encoding (state_of console)) (partial_equiv_from_equiv nat_list_eq_equiv) };

    fn eq(&self, other: &Self) -> bool {
        let mut bytes = [0; CONSOLE_SAVED_MAX];
        let mut other_bytes = [0; CONSOLE_SAVED_MAX];
        let count = self.save(&mut bytes);
        let other_count = other.save(&mut other_bytes);
        bytes[..count] == other_bytes[..other_count]
    }
}

impl Eq for Console {
    ghost laws = { on_equiv (λ console. console_encoding (state_of console)) nat_list_eq_equiv };
}

impl Console {
    /// The start of an encoding, before `waiting` bytes of output and `port` bytes of a port.
    pub(super) fn encode_prefix(
        &self,
        waiting: usize,
        port: usize,
    ) -> [u8; HEADER_SIZE + PREFIX_SIZE]
        requires waiting { waiting ≤ output_size }
        requires port { port ≤ serial_saved_max }
        ensures { result ≡ console_prefix (state_of self.now) waiting port }
    {
        let [m0, m1, m2, m3, kind, version, low, high] = header(
            CONSOLE_KIND,
            (PREFIX_SIZE + waiting + port) as u16,
        );
        let [d0, d1, d2, d3, d4, d5, d6, d7] = self.dropped.to_le_bytes();
        let [count_low, count_high] = (waiting as u16).to_le_bytes();
        [
            m0,
            m1,
            m2,
            m3,
            kind,
            version,
            low,
            high,
            self.flags(),
            d0,
            d1,
            d2,
            d3,
            d4,
            d5,
            d6,
            d7,
            count_low,
            count_high,
        ]
    }

    /// The flags in one byte.
    fn flags(&self) -> u8
        ensures { result ≡ flags_of (state_of self.now) }
    {
        bit_if(self.is_polled, POLLED_BIT)
            | bit_if(self.is_ready, READY_BIT)
            | bit_if(self.is_asleep, ASLEEP_BIT)
            | bit_if(self.is_refused, REFUSED_BIT)
    }
}

/// The bit if the flag is set, and otherwise 0.
fn bit_if(flag: u8, bit: u8) -> u8
    ensures { result ≡ bit_if (not (flag == 0)) bit }
{
    if flag == 0 { 0 } else { bit }
}

/// The parts of a console's encoding: the flags, how many bytes of output were dropped, the output that waits, and the
/// encoding of the port, which is not checked.
///
/// # Errors
///
/// Returns the errors of [`Console::from_bytes`], except for what [`Uart::from_bytes`] finds in the port.
pub(super) fn decode_console(bytes: &[u8]) -> Result<(u8, u64, &[u8], &[u8]), SavedStateError>
    ensures encoding { IfOk result (λ found. bytes.now ≡ encoding console_kind
        (found.0 ∷ to_le_bytes w64 found.1 ++ to_le_bytes w16 (length found.2.now) ++ found.2.now ++ found.3.now)) }
    ensures flags { IfOk result (λ found. found.0 ≤ 15) }
    ensures dropped { IfOk result (λ found. found.1 < 2 ^ 64) }
    ensures at_most_4096 { IfOk result (λ found. length found.2.now ≤ output_size) }
    ensures port { IfOk result (λ found. console_fault bytes.now ≡ serial_fault found.3.now) }
    ensures fault { IfErr result (λ error. console_fault bytes.now ≡ Some error) }
{
    match decode_header(CONSOLE_KIND, bytes)? {
        [flags, d0, d1, d2, d3, d4, d5, d6, d7, low, high, rest @ ..] => {
            let waiting = usize::from(u16::from_le_bytes([*low, *high]));
            if waiting > OUTPUT_SIZE || waiting > rest.len() {
                return Err(SavedStateError::WrongLength);
            }
            if *flags > ALL_BITS {
                return Err(SavedStateError::InvalidFlags);
            }
            let dropped = u64::from_le_bytes([*d0, *d1, *d2, *d3, *d4, *d5, *d6, *d7]);
            let (output, port) = rest.split_at(waiting);
            Ok((*flags, dropped, output, port))
        }
        _ => Err(SavedStateError::WrongLength),
    }
}

/// Writes `part` after the first `count` bytes, and returns how many bytes there are then.
pub(super) fn append(bytes: &mut [u8], count: usize, part: &[u8]) -> usize
    requires { count + length part.now ≤ length bytes.old }
    ensures count { result ≡ count + length part.now }
    ensures written { take result bytes.new ≡ take count bytes.old ++ part.now }
    ensures rest { drop result bytes.new ≡ drop result bytes.old }
{
    let end = count + part.len();
    bytes[count..end].copy_from_slice(part);
    end
}
