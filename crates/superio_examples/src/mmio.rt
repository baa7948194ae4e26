// SPDX-License-Identifier: Apache-2.0 OR BSD-3-Clause
//! A clock on an MMIO bus: a window of guest memory, which the guest reaches by 64-bit addresses.
ghost use Rattle.std.specs.Prelude.{◌≡◌, ◌-◌, if◌then◌else◌, length, replicate, Some, None};
ghost use Rattle.std.specs.Bool.{OnTrue, OnFalse};
ghost use Rattle.superio_examples.specs.Mmio.{is_inside, is_read, is_write, is_other_read, is_other_write};
ghost use Rattle.superio_examples.specs.Mmio.{ReadsClock, WritesClock, IsInvalidRead, IsInvalidWrite};

use vm_superio::Rtc;
use vm_superio::rtc_pl031::RtcEvents;

/// The length of the window, the same as a PL031's.
const LENGTH: u64 = 0x1000;

/// An offset between two registers. An access there is invalid, and changes no register.
const NO_REGISTER: u16 = 0x021;

/// A clock whose window begins at `base`. A guest reaches its registers by accesses of four bytes. A read of one or two
/// bytes gives that part of the register around it, as EDK II reads the identification. Any other access in the window
/// is invalid, even a narrow write, and the clock reports it as such.
///
/// You pass each access its moment, in seconds since 1970, by the host's clock. If a guest migrates, the clocks of both
/// hosts must agree.
#[derive(Drop)]
pub struct ClockWindow<EV: RtcEvents> {
    pub base: u64,
    pub clock: Rtc<EV>,
}

impl<EV: RtcEvents> ClockWindow<EV> {
    /// Reads at `address`, as the guest does at the moment `now`. Clears the bytes first, so an invalid read gives
    /// zeros, and nothing of the monitor's memory. A read of another length, or of two bytes that lie in two registers,
    /// is invalid. A read outside the window gives zeros too, and changes nothing.
    pub fn read(&mut self, address: u64, bytes: &mut [u8], now: u64)
        ensures clock { OnTrue (is_read self.old.base address (length bytes.old))
            (ReadsClock EV.link (address - self.old.base) now bytes.new self.old.clock self.new.clock) }
        ensures elsewhere { OnFalse (is_read self.old.base address (length bytes.old))
            (bytes.new ≡ replicate (length bytes.old) 0) }
        ensures invalid { OnTrue (is_other_read self.old.base address (length bytes.old))
            (IsInvalidRead EV.link now self.old.clock self.new.clock) }
        ensures alone { OnFalse (is_inside self.old.base address) (self.new ≡ self.old) }
        ensures base { self.new.base ≡ self.old.base }
    {
        bytes.fill(0);
        if let Some(offset) = offset_in(self.base, address) {
            let mut register = [0; 4];
            match (bytes.len(), offset % 4) {
                (4, _) => {
                    self.clock.read(offset, &mut register, now);
                    bytes.copy_from_slice(&register);
                }
                (1, place) | (2, place @ 0..=2) => {
                    self.clock.read(offset - place, &mut register, now);
                    let place = usize::from(place);
                    let end = place + bytes.len();
                    bytes.copy_from_slice(&register[place..end]);
                }
                _ => self.clock.read(NO_REGISTER, &mut register, now),
            }
        }
    }

    /// Writes at `address`, as the guest does at the moment `now`. A write in the window is invalid unless its length
    /// is four. A write outside the window changes nothing.
    pub fn write(&mut self, address: u64, bytes: &[u8], now: u64)
        ensures clock { OnTrue (is_write self.old.base address (length bytes.now))
            (WritesClock EV.link (address - self.old.base) bytes.now now self.old.clock self.new.clock) }
        ensures invalid { OnTrue (is_other_write self.old.base address (length bytes.now))
            (IsInvalidWrite EV.link now self.old.clock self.new.clock) }
        ensures alone { OnFalse (is_inside self.old.base address) (self.new ≡ self.old) }
        ensures base { self.new.base ≡ self.old.base }
    {
        if let Some(offset) = offset_in(self.base, address) {
            let mut register = [0; 4];
            if bytes.len() == 4 {
                register.copy_from_slice(bytes);
                self.clock.write(offset, &register, now);
            } else {
                self.clock.write(NO_REGISTER, &register, now);
            }
        }
    }
}

/// The clock's offset of an address, if it is in the window that begins at `base`.
pub(crate) fn offset_in(base: u64, address: u64) -> Option<u16>
    ensures { result ≡ (if is_inside base address then Some (address - base) else None) }
{
    match address.checked_sub(base) {
        Some(offset) if offset < LENGTH => Some(offset as u16),
        _ => None,
    }
}
