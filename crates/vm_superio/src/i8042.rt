// SPDX-License-Identifier: Apache-2.0 OR BSD-3-Clause
//! The i8042 controller, reduced to the CPU reset command.
ghost use Rattle.std.specs.Prelude.{◌≡◌, [], ◌∷◌};
ghost use Rattle.std.specs.Bool.{OnTrue, OnFalse};
ghost use Rattle.superio_core.specs.I8042.{is_reset_command};

use crate::Trigger;
use std::marker::Model;
pub use superio_core::i8042::is_reset_command;

/// An i8042 keyboard controller that knows one command: reset the CPU.
///
/// Contracts see the device as its trigger, which is all it holds.
#[derive(Drop)]
pub struct I8042Device<T: Trigger> {
    reset_evt: T,
}

impl<T: Trigger> Model for I8042Device<T> {
    ghost Value = { T };

    ghost view = { λ device. device.reset_evt };
}

impl<T: Trigger> I8042Device<T> {
    ghost use Rattle.std.specs.Borrow.{Lends, sem};
    ghost use Rattle.vm_superio.specs.contracts.i8042.I8042Device.{the_row};

    /// Makes a device that owns `reset_evt`, without calling it.
    pub fn new(reset_evt: T) -> I8042Device<T>
        ensures { result ≡ reset_evt }
    {
        I8042Device { reset_evt }
    }

    /// Returns the reset trigger unchanged.
    pub fn into_reset_evt(self) -> T
        ensures { result ≡ self }
    {
        let I8042Device { reset_evt } = self;
        reset_evt
    }

    /// The reset trigger.
    pub fn reset_evt(&self) -> &T
        ensures { result.now ≡ self.now }
    {
        &self.reset_evt
    }

    /// The reset trigger, mutably.
    pub fn reset_evt_mut(&mut self) -> &mut T
        ensures* lends { sem 𝓛 (Lends (the_row T.row T.E.row T.Trigger T.E.Debug) T.row
            self.entry result (λ trigger. trigger)) }
        ensures value { result.now ≡ self.old }
    {
        &mut self.reset_evt
    }

    /// Returns 0 at every offset; never calls the trigger.
    pub fn read(&mut self, _offset: u8) -> u8
        ensures value { result ≡ 0 }
        ensures unchanged { self.new ≡ self.old }
    {
        0
    }

    /// Writes `value` at `offset`.
    ///
    /// The reset command, 0xFE at offset 4, calls the trigger once and returns its answer. No access makes another
    /// call. Any other write returns `Ok` and has no effect.
    pub fn write(&mut self, offset: u8, value: u8) -> Result<(), T::E>
        ensures reset { OnTrue (is_reset_command offset value) (T.link self.old (result ∷ []) self.new) }
        ensures otherwise_ok { OnFalse (is_reset_command offset value) (result ≡ Ok tt) }
        ensures unchanged { OnFalse (is_reset_command offset value) (self.new ≡ self.old) }
    {
        if is_reset_command(offset, value) {
            self.reset_evt.trigger()
        } else {
            Ok(())
        }
    }
}
