// SPDX-License-Identifier: Apache-2.0 OR BSD-3-Clause
//! A monitor as plain data. Restored on another machine, it goes on as if nothing had happened.
//!
//! The clocks of both hosts must agree, since the clock keeps only the difference between guest time and host time.
ghost use Rattle.std.specs.Prelude.{◌≡◌, IfOk, IfErr};
ghost use Rattle.std.specs.Result.{IsOkAnd};
ghost use Rattle.superio_core.specs.Saved.{IsClock};
ghost use Rattle.superio_console.specs.Console.{state_of};
ghost use Rattle.superio_console.specs.Saved.{IsConsole};
ghost use Rattle.vm_superio.specs.declared.saved.LoadError.TheVariants.{Memory};
ghost use Rattle.superio_examples.specs.Monitor.{Machine, machine_of};
ghost use Rattle.superio_examples.specs.SavedMonitor.{IsSavedAs, IsMachine};

use crate::monitor::Monitor;
use std::alloc::{AllocError, Global};
use superio_console::Console;
use superio_console::saved::CONSOLE_SAVED_MAX;
use superio_core::saved::SavedStateError;
use superio_core::{Pl031, RtcState};
use vm_superio::saved::LoadError;

/// A saved monitor.
#[derive(Debug, Drop, Eq, PartialEq)]
pub struct SavedMonitor {
    /// The serial port with its output as bytes, at most 4,196.
    pub console: Vec<u8>,
    /// The clock's state as bytes.
    pub clock: Vec<u8>,
    /// The host's time, in seconds since 1970.
    pub moment: u64,
}

/// Saves a monitor, which does not change.
///
/// # Errors
///
/// Returns `AllocError` if memory is refused.
pub fn save_monitor(alloc: Global, monitor: &Monitor) -> Result<SavedMonitor, AllocError>
    ensures saved { IfOk result (λ saved. IsSavedAs saved (machine_of monitor.now)) }
{
    let mut bytes = [0; CONSOLE_SAVED_MAX];
    let count = monitor.console.save(&mut bytes);
    Ok(SavedMonitor {
        console: bytes[..count].to_vec(alloc)?,
        clock: monitor.clock.state().to_bytes().to_vec(alloc)?,
        moment: monitor.moment,
    })
}

/// Restores a monitor from what was saved. Restore your interrupt controller first. If it was not saved with the monitor,
/// pass the restored monitor a [`Refused`](crate::monitor::MachineEvent::Refused): what the other machine raised may not
/// have reached the guest. In any case pass it a [`Timer`](crate::monitor::MachineEvent::Timer) then.
///
/// # Errors
///
/// Returns the first check that fails. The clock's bytes are checked first, and then the console's.
pub fn restore_monitor(saved: &SavedMonitor) -> Result<Monitor, SavedStateError>
    ensures saved { IfOk result (λ monitor. IsSavedAs saved.now (machine_of monitor)) }
    ensures read { (machine : Machine) → IsMachine machine → IsSavedAs saved.now machine →
        IsOkAnd result (λ monitor. machine_of monitor ≡ machine) }
{
    let clock = RtcState::from_bytes(&saved.clock)?;
    let console = Console::from_bytes(&saved.console)?;
    Ok(Monitor {
        console,
        clock: Pl031::from_state(&clock),
        moment: saved.moment,
    })
}

/// Saves a monitor, and restores another one from the saved data. Both are the same machine. So, by the contract of
/// [`Monitor::run`], the other one replies to any events as the first one would, and reaches the same state.
///
/// # Errors
///
/// Returns `Memory` if memory is refused.
pub fn move_monitor(alloc: Global, monitor: &Monitor) -> Result<Monitor, LoadError>
    ensures machine { IfOk result (λ moved. machine_of moved ≡ machine_of monitor.now) }
    ensures memory { IfErr result (λ error. error ≡ Memory) }
{
    numbers_fit(&monitor.console, monitor.clock.state());
    match save_monitor(alloc, monitor) {
        Ok(saved) => match restore_monitor(&saved) {
            Ok(moved) => Ok(moved),
            Err(fault) => Err(LoadError::Invalid(fault)),
        },
        Err(AllocError) => Err(LoadError::Memory),
    }
}

/// The numbers of a monitor fit its fields. Does nothing, for proofs.
fn numbers_fit(console: &Console, clock: RtcState)
    ensures console { IsConsole (state_of console.now) }
    ensures clock { IsClock clock }
{
    let _ = (console.dropped(), clock);
}
