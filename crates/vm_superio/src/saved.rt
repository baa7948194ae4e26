// SPDX-License-Identifier: Apache-2.0 OR BSD-3-Clause
//! Why the bytes of a saved state were not read.
use std::error::Error as StdError;
use std::fmt;
pub use superio_core::saved::SavedStateError;

/// Why a serial port's state was not read.
#[derive(Clone, Copy, Debug, Eq, PartialEq)]
pub enum LoadError {
    /// The first check of the bytes that failed.
    Invalid(SavedStateError),
    /// Memory was refused.
    Memory,
}

impl fmt::Display for LoadError {
    ghost use Rattle.vm_superio.specs.Saved.{load_error_text};

    ghost output = { load_error_text };

    fn fmt<W: fmt::Write>(&self, f: &mut fmt::Formatter<W>) -> fmt::Result {
        match self {
            LoadError::Invalid(fault) => write!(f, "{fault}"),
            LoadError::Memory => write!(f, "Out of memory"),
        }
    }
}

impl StdError for LoadError {}

/// Lets `?` turn a failed check into [`LoadError::Invalid`].
impl From<SavedStateError> for LoadError {
    ghost use Rattle.std.specs.Prelude.{◌≡◌};
    ghost use Rattle.vm_superio.specs.declared.saved.LoadError.TheVariants.{Invalid};

    ghost from_gives = { λ fault error. error ≡ Invalid fault };

    fn from(fault: SavedStateError) -> Self {
        Self::Invalid(fault)
    }
}
