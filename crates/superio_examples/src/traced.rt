// SPDX-License-Identifier: Apache-2.0 OR BSD-3-Clause
//! Loops such as you might write, whose proofs use laws over traces. Each call adds its entry to a trace, by
//! `laws::calls_of_history`. Only the loop's invariant mentions the trace: nothing is recorded when the loop runs.
ghost use Rattle.std.specs.Prelude.{◌≡◌, ◌++◌, ℕ, List, map, take};
ghost use Rattle.vm_superio.specs.Claims.{Coherent, dlab_clear, held};
ghost use Rattle.superio_laws.specs.Serial.{Trace};
ghost use Rattle.superio_laws.specs.Serial.History.{IsWithinBound, accepted_bytes, read_out_bytes, state_of_history};
ghost use Rattle.superio_examples.specs.Traced.{AddsEntry, AddsRun, IsTraced, op_of, ops_of};

use crate::many_calls::Access;
use std::io::Write;
use vm_superio::serial::SerialEvents;
use vm_superio::{Serial, Trigger, laws};

/// Makes an access, whatever it answers. Its entry continues each trace of the port.
fn make_one<T: Trigger, EV: SerialEvents, W: Write>(serial: &mut Serial<T, EV, W>, access: Access)
    ensures entry { AddsEntry (op_of access) serial.old.state serial.new.state }
    ensures coherent { Coherent serial.old.state → Coherent serial.new.state }
{
    laws::calls_of_history();
    match access {
        Access::Read(offset) => {
            serial.read(offset);
        }
        Access::Write(offset, value) => {
            let _ = serial.write(offset, value);
        }
    }
}

/// Makes the accesses in order, whatever they answer. They have a trace that fits, and the port is as the trace
/// describes.
pub fn make_with_trace<T: Trigger, EV: SerialEvents, W: Write>(
    serial: &mut Serial<T, EV, W>,
    accesses: &[Access],
)
    requires { Coherent serial.old.state }
    ensures traced { IsTraced (map op_of accesses.now) serial.old.state serial.new.state }
    ensures coherent { Coherent serial.new.state }
{
    laws::states_of_history();
    for access in accesses {
        make_one(serial, *access);
    }
}

/// Makes the accesses. By the laws over traces, no byte is lost, and the trigger is called at most twice, plus twice for
/// each read of IIR and once for each read of RBR.
pub fn lose_no_byte<T: Trigger, EV: SerialEvents, W: Write>(
    serial: &mut Serial<T, EV, W>,
    accesses: &[Access],
)
    requires { Coherent serial.old.state }
    ensures { (trace : Trace) × (ops_of trace ≡ map op_of accesses.now)
        × (read_out_bytes serial.old.state trace ++ held serial.new ≡ held serial.old ++ accepted_bytes serial.old.state trace)
        × IsWithinBound serial.old.state trace }
{
    laws::read_out_then_held();
    laws::trigger_bound();
    make_with_trace(serial, accesses);
}

/// A run of a driver that only receives: it reads IIR, and takes a byte. Then the monitor makes a character timeout, in a
/// turn of its event loop.
fn take_one<T: Trigger, EV: SerialEvents, W: Write>(serial: &mut Serial<T, EV, W>)
    requires { dlab_clear serial.old }
    ensures run { AddsRun serial.old.state serial.new.state }
    ensures hidden { dlab_clear serial.new }
    ensures coherent { Coherent serial.old.state → Coherent serial.new.state }
{
    laws::calls_of_history();
    serial.read(2);
    serial.read(0);
    let _ = serial.character_timeout();
}

/// Makes `count` of these runs. By `laws::guest_driver`, they read out the first of the bytes that were held, in
/// order, at least one in each run.
pub fn take_first<T: Trigger, EV: SerialEvents, W: Write>(
    serial: &mut Serial<T, EV, W>,
    count: usize,
)
    requires coherent { Coherent serial.old.state }
    requires hidden { dlab_clear serial.old }
    ensures taken { (trace : Trace) × (serial.new.state ≡ state_of_history serial.old.state trace)
        × (more : List ℕ) × (read_out_bytes serial.old.state trace ≡ take count (held serial.old) ++ more) }
    ensures coherent { Coherent serial.new.state }
{
    laws::states_of_history();
    laws::guest_driver();
    for _ in 0..count {
        take_one(serial);
    }
}
