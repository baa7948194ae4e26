// SPDX-License-Identifier: Apache-2.0 OR BSD-3-Clause
//! Why a call of a serial port failed.
ghost use Rattle.std.specs.Prelude.{◌≡◌};

use crate::Trigger;
use std::alloc::{AllocError, AllocFailed};
use std::error::Error as StdError;
use std::{fmt, io};

/// Why a call failed.
#[derive(Clone, Debug, Drop)]
pub enum Error<E> {
    /// The trigger refused a call.
    Trigger(E),
    /// The writer failed to take a byte, or to flush.
    IOError(io::Error),
    /// The FIFO holds 64 bytes, or a state holds more.
    FullFifo,
    /// Memory was refused.
    Memory,
}

impl<E: fmt::Display> fmt::Display for Error<E> {
    ghost use Rattle.vm_superio.specs.Serial.{serial_error_text};

    ghost output = { serial_error_text E.output };

    fn fmt<W: fmt::Write>(&self, f: &mut fmt::Formatter<W>) -> fmt::Result {
        match self {
            Error::Trigger(cause) => write!(f, "Failed to trigger interrupt: {cause}"),
            Error::IOError(cause) => write!(
                f,
                "Couldn't write/flush to the given destination: {cause}"
            ),
            Error::FullFifo => write!(f, "No space left in FIFO"),
            Error::Memory => write!(f, "Out of memory"),
        }
    }
}

impl<E: StdError> StdError for Error<E> {}

/// Lets `?` turn a refused allocation into [`Error::Memory`].
impl<E> From<AllocError> for Error<E> {
    ghost use Rattle.vm_superio.specs.declared.serial.errors.Error.TheVariants.{Memory};

    ghost from_gives = { λ _ error. error ≡ Memory };

    fn from(_refused: AllocError) -> Self {
        Self::Memory
    }
}

/// Lets `?` do the same with a refusal that returns the value that did not fit, such as one of [`Vec::push`].
impl<V: Drop, E> From<AllocFailed<V>> for Error<E> {
    ghost use Rattle.vm_superio.specs.declared.serial.errors.Error.TheVariants.{Memory};

    ghost from_gives = { λ _ error. error ≡ Memory };

    fn from(refused: AllocFailed<V>) -> Self {
        Self::from(AllocError::from(refused))
    }
}

/// Why a serial port was not made, and the objects passed in for it.
#[derive(Drop)]
pub struct Refused<T: Trigger, EV, W> {
    /// Why the port was not made.
    pub error: Error<T::E>,
    /// The trigger, as left by the calls made.
    pub trigger: T,
    /// The events object, as it was passed in.
    pub events: EV,
    /// The writer, as it was passed in.
    pub out: W,
}

impl<T: Trigger + Drop, EV: Drop, W: Drop> Refused<T, EV, W> {
    /// Why the port was not made. Drops the objects.
    pub fn into_error(self) -> Error<T::E>
        ensures { result ≡ self.error }
    {
        self.error
    }
}
