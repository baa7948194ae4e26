// SPDX-License-Identifier: Apache-2.0 OR BSD-3-Clause
//! Claims about a list of calls, in two ways.
//!
//! **A loop of your own** uses the clauses of the calls that it makes: its invariant states what each of them keeps. It
//! can also use laws over traces, as the loops of `traced` do. **`run`** makes a list of calls and records each, and its
//! contract is about all of them together, by the history.
ghost use Rattle.std.specs.Prelude.{◌≡◌, ◌+◌, ◌≤◌, ◌++◌, [], IfOk};
ghost use Rattle.vm_superio.specs.Claims.{Coherent, held, pending_count, transmitter};
ghost use Rattle.vm_superio.specs.Claims.{answers_in_records, acknowledged_in as acknowledged_by_calls};
ghost use Rattle.superio_laws.specs.Serial.History.{accepted_bytes, bytes_read};
ghost use Rattle.vm_superio.specs.Serial.Run.{entries_of, trace_of};
ghost use Rattle.superio_examples.specs.ManyCalls.{acknowledged_by, acknowledged_in};

use crate::triggers::InterruptLine;
use std::alloc::{AllocError, Global};
use std::io::Write;
use vm_superio::run::{Call, Done, run};
use vm_superio::serial::SerialEvents;
use vm_superio::{Serial, Trigger};

/// A guest's access to the serial port.
#[derive(Clone, Copy)]
pub enum Access {
    /// A read at this offset.
    Read(u8),
    /// A write at this offset, of this value.
    Write(u8, u8),
}

/// Makes the accesses in order, whatever the calls answer. However many there are, the number of interrupts that wait
/// grows by at most two, plus two for each read of IIR and one for each read at offset 0. LSR shows the transmitter as
/// before.
pub fn make_all<EV: SerialEvents, W: Write>(
    serial: &mut Serial<InterruptLine, EV, W>,
    accesses: &[Access],
)
    ensures interrupts { serial.new.trigger.waiting
        ≤ serial.old.trigger.waiting + 2 + acknowledged_in accesses.now }
    ensures transmitter { transmitter serial.new.state ≡ transmitter serial.old.state }
{
    for access in accesses {
        make_one(serial, *access);
    }
}

/// Makes an access. The conditions that become pending and are not acknowledged bound the number of interrupts that
/// wait.
fn make_one<EV: SerialEvents, W: Write>(serial: &mut Serial<InterruptLine, EV, W>, access: Access)
    ensures interrupts { serial.new.trigger.waiting + pending_count serial.old.state
        ≤ serial.old.trigger.waiting + pending_count serial.new.state + acknowledged_by access }
    ensures transmitter { transmitter serial.new.state ≡ transmitter serial.old.state }
{
    match access {
        Access::Read(offset) => {
            serial.read(offset);
        }
        Access::Write(offset, value) => {
            let _ = serial.write(offset, value);
        }
    }
}

/// Makes the calls by `run`. What a guest reads from the FIFO, followed by what is held, is what was held, followed by
/// what came in. The trigger is called at most twice, plus once for each condition that a read acknowledges; restores
/// do not count.
pub fn make_by_run<T: Trigger + Drop, EV: SerialEvents + Drop, W: Write + Drop>(
    alloc: Global,
    serial: &mut Serial<T, EV, W>,
    calls: Vec<Call<T, EV, W>>,
) -> Result<Vec<Done<T, EV, W>>, AllocError>
    requires { Coherent serial.old.state }
    ensures bytes { IfOk result (λ done. bytes_read serial.old.state [] (entries_of done.items) ++ held serial.new
        ≡ held serial.old ++ accepted_bytes serial.old.state (trace_of done.items)) }
    ensures interrupts { IfOk result (λ done. answers_in_records done.items ≤ 2 + acknowledged_by_calls calls.items) }
{
    run(alloc, serial, calls)
}
