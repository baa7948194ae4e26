// SPDX-License-Identifier: Apache-2.0 OR BSD-3-Clause
//! Errors print their texts, which contracts state, to a caller that knows only std's `Error`.
use board_objects::LineRefused;
use failing_objects::{FAULTS, fault_of};
use std::alloc::{AllocError, Global};
use std::error::Error as StdError;
use std::test::Fail;
use vm_superio::saved::{LoadError, SavedStateError};
use vm_superio::serial::Error;

fn text<E: StdError>(alloc: Global, error: &E) -> Result<String, AllocError> {
    error.to_string(alloc)
}

#[test]
fn errors_print_their_texts(rt: HostRuntime) -> Result<(), Fail> {
    let alloc = rt.alloc();
    let error = Error::Trigger(LineRefused);
    assert!(rt; text(alloc, &error)?.as_str() == "Failed to trigger interrupt: line refused");
    let error = SavedStateError::TooShort;
    assert!(rt; text(alloc, &error)?.as_str() == "Too short for a saved state");
    assert!(rt; text(alloc, &LoadError::from(error))? == text(alloc, &error)?);
    Ok(())
}

#[test]
fn faults_of_a_writer_are_printed(rt: HostRuntime) -> Result<(), Fail> {
    let alloc = rt.alloc();
    for number in 0..FAULTS {
        let fault = fault_of(number);
        let expected = format!(in alloc; "Couldn't write/flush to the given destination: {fault}")?;
        let error: Error<LineRefused> = Error::IOError(fault);
        assert!(rt; text(alloc, &error)? == expected, "{fault:?}");
    }
    Ok(())
}
