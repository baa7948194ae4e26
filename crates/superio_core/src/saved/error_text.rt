// SPDX-License-Identifier: Apache-2.0 OR BSD-3-Clause
//! What the errors of saved states print.
use super::SavedStateError;
use std::error::Error as StdError;
use std::fmt;

impl fmt::Display for SavedStateError {
    ghost use Rattle.superio_core.specs.Saved.{saved_state_error_text};

    ghost output = { saved_state_error_text };

    fn fmt<W: fmt::Write>(&self, f: &mut fmt::Formatter<W>) -> fmt::Result {
        match self {
            SavedStateError::TooShort => write!(f, "Too short for a saved state"),
            SavedStateError::NotASavedState => write!(f, "Not a saved state"),
            SavedStateError::OtherDevice => write!(f, "The saved state of another device"),
            SavedStateError::UnknownVersion(_) => write!(f, "A saved state of an unknown version"),
            SavedStateError::WrongLength => write!(f, "A saved state of the wrong length"),
            SavedStateError::TooManyBytes => write!(f, "More than 64 received bytes"),
            SavedStateError::InvalidArmed => write!(f, "An alarm that is neither set nor clear"),
            SavedStateError::InvalidFlags => write!(f, "A flag that no console has"),
        }
    }
}

impl StdError for SavedStateError {}
