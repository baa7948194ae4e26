// SPDX-License-Identifier: Apache-2.0 OR BSD-3-Clause
//! The worked cases of each device through its public calls, with their signatures: the serial port, runs of calls, the
//! clock, the controller and saved states. `Fails if this is wrong:` above a test names a place that makes an error or
//! calls an object, as tests/crates/test_places.py numbers them.
#![tactic(auto)]

#[cfg(test)]
mod clock;
#[cfg(test)]
mod controller;
#[cfg(test)]
mod runs;
#[cfg(test)]
mod saved_states;
#[cfg(test)]
mod serial_calls;
#[cfg(test)]
mod serial_interrupts;
#[cfg(test)]
mod serial_objects;
#[cfg(test)]
mod serial_output;
#[cfg(test)]
mod serial_registers;
#[cfg(test)]
mod serial_states;
