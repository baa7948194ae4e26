// SPDX-License-Identifier: Apache-2.0 OR BSD-3-Clause
//! The i8042 controller, which has no state.
ghost use Rattle.std.specs.Prelude.{◌≡◌};
ghost use Rattle.superio_core.specs.I8042.{is_reset_command};

use superio_core::i8042::is_reset_command;

/// Whether a write to the controller resets the machine.
#[repr(C)]
#[derive(Clone, Copy, Debug, Eq, PartialEq)]
pub struct I8042WriteEffects {
    /// The guest resets the machine.
    pub resets: bool,
}

/// The guest reads at `offset`.
#[unsafe(no_mangle)]
pub extern "C" fn superio_i8042_read(_offset: u8) -> u8
    ensures { result ≡ 0 }
{
    0
}

/// The guest writes `value` at `offset`.
#[unsafe(no_mangle)]
pub extern "C" fn superio_i8042_write(offset: u8, value: u8) -> I8042WriteEffects
    ensures { result.resets ≡ is_reset_command offset value }
{
    I8042WriteEffects {
        resets: is_reset_command(offset, value),
    }
}
