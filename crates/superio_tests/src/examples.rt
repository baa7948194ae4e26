// SPDX-License-Identifier: Apache-2.0 OR BSD-3-Clause
//! The smaller programs to copy at work: a console that echoes, claims over many calls, and a line that refuses.
ghost use Rattle.std.specs.Prelude.{◌<◌, IfOk};
ghost use Rattle.vm_superio.specs.Claims.{Coherent, dlab_clear};

use std::alloc::{AllocError, Global};
use std::test::Fail;
use superio_core::{Pl031, Uart};
use superio_examples::echo::{echo, over_serial};
use superio_examples::many_calls::{Access, make_all, make_by_run};
use superio_examples::queues::OutputQueue;
use superio_examples::triggers::InterruptLine;
use superio_examples::two_ports::{Event, PortCall, TwoPorts, offer, write_to_output};
use superio_examples::{traced, two_ports};
use vm_superio::run::{Call, Done, Reply};
use vm_superio::serial::{Error, NoEvents};
use vm_superio::{Serial, Trigger};

type TestSerial = Serial<InterruptLine, NoEvents, Vec<u8>>;

type BoundedSerial = Serial<InterruptLine, NoEvents, OutputQueue>;

type SerialCall = Call<InterruptLine, NoEvents, Vec<u8>>;

type SerialDone = Done<InterruptLine, NoEvents, Vec<u8>>;

/// A new port over a line with room for eight interrupts.
#[tactic(auto, unfolding(superio_core::specs::Bits::has_bits))]
fn port(alloc: Global) -> Result<TestSerial, AllocError>
    ensures coherent { IfOk result (λ serial. Coherent serial.state) }
    ensures hidden { IfOk result (λ serial. dlab_clear serial) }
{
    match Serial::new(alloc, InterruptLine::new(8), Vec::new(alloc)) {
        Ok(serial) => Ok(serial),
        Err(_) => Err(AllocError),
    }
}

/// A new port whose output has room for one byte, and its line for one interrupt.
fn bounded_port(alloc: Global) -> Result<BoundedSerial, AllocError> {
    let output = OutputQueue::new(alloc, 1)?;
    match Serial::new(alloc, InterruptLine::new(1), output) {
        Ok(serial) => Ok(serial),
        Err(_) => Err(AllocError),
    }
}

/// Whether both consoles send back all of this input, and nothing else, if their handlers take so many bytes at most.
fn is_echoed(alloc: Global, bound: usize, input: &[u8]) -> Result<bool, Fail>
    requires { 0 < bound }
{
    let pieces = [0, 1, 64, 65, 5];
    let sent = echo(alloc, bound, input, &pieces)?;
    let written = over_serial::echo(alloc, Vec::new(alloc), bound, input, &pieces)?;
    Ok(sent.as_slice() == input && written.as_slice() == input)
}

#[test]
fn a_console_echoes_its_input(rt: HostRuntime) -> Result<(), Fail> {
    let input = b"0123456789".repeat(rt.alloc(), 30)?;
    assert!(rt; is_echoed(rt.alloc(), 1, &input)?);
    assert!(rt; is_echoed(rt.alloc(), 20, &input)?);
    assert!(rt; is_echoed(rt.alloc(), 256, &input)?);
    assert!(rt; is_echoed(rt.alloc(), 1, b"")?);
    Ok(())
}

#[test]
fn a_line_refuses_what_has_no_room(rt: HostRuntime) {
    let mut line = InterruptLine::new(1);
    assert!(rt; line.trigger().is_ok() && line.waiting() == 1);
    assert!(rt; line.trigger().is_err() && line.waiting() == 1);
    assert!(rt; line.deliver() && line.waiting() == 0);
    assert!(rt; !line.deliver() && line.trigger().is_ok());
}

#[test]
fn accesses_in_a_loop_reach_the_port(rt: HostRuntime) -> Result<(), Fail> {
    let mut serial = port(rt.alloc())?;
    let accesses = [
        Access::Write(1, 0x02),
        Access::Read(2),
        Access::Write(0, b'x'),
        Access::Read(5),
    ];
    make_all(&mut serial, &accesses);
    assert!(rt; serial.interrupt_evt().waiting() == 2);
    assert!(rt; serial.writer().as_slice() == b"x".as_slice());
    assert!(rt; serial.read(2) == 0xC2);
    Ok(())
}

/// Four calls: IER enables received data, two bytes arrive, and the guest reads IIR and a byte.
fn calls(alloc: Global) -> Result<Vec<SerialCall>, AllocError> {
    let bytes = b"ab".to_vec(alloc)?;
    Ok(vec![in alloc;
        Call::Write(1, 0x01),
        Call::Enqueue(bytes),
        Call::Read(2),
        Call::Read(0),
    ]?)
}

/// Whether the call at this place read this byte.
fn is_read(done: &[SerialDone], place: usize, byte: u8) -> bool {
    match done.get(place) {
        Some(record) => matches!(record.reply, Reply::Byte(shown) if shown == byte),
        None => false,
    }
}

#[test]
fn a_run_of_calls_gives_their_replies(rt: HostRuntime) -> Result<(), Fail> {
    let mut serial = port(rt.alloc())?;
    let done = make_by_run(rt.alloc(), &mut serial, calls(rt.alloc())?)?;
    assert!(rt; is_read(&done, 2, 0xC4) && is_read(&done, 3, b'a') && done.len() == 4);
    assert!(rt; serial.interrupt_evt().waiting() == 1);
    Ok(())
}

#[test]
fn a_machine_of_two_ports_keeps_its_claims(rt: HostRuntime) -> Result<(), Fail> {
    let mut machine = TwoPorts {
        first: Uart::new(),
        second: Uart::new(),
        clock: Pl031::new(),
        moment: 0,
    };
    let events = [
        Event::First(PortCall::Write(1, 0x01)),
        Event::First(PortCall::Typed(b'a')),
        Event::Second(PortCall::Write(1, 0x02)),
        Event::Moment(100),
        Event::ClockWrite(0x008, 7),
        Event::Command(4, 0xFE),
    ];
    let totals = machine.run(&events);
    assert!(rt; totals.asked == 2 && totals.resets == 1);
    two_ports::no_byte_is_lost(&mut machine, &[Event::First(PortCall::Read(0))]);
    assert!(rt; machine.first.fifo_capacity() == 64 && machine.clock.read(0x000, 103) == Some(10));
    assert!(rt; offer(&mut machine.second, &[0; 66]).len() == 2);
    let mut output = OutputQueue::new(rt.alloc(), 1)?;
    write_to_output(&mut machine.first, &mut output, 0, b'x');
    write_to_output(&mut machine.first, &mut output, 0, b'y');
    assert!(rt; output.waiting(rt.alloc())?.as_slice() == b"x".as_slice() && output.dropped() == 1);
    Ok(())
}

#[test]
fn loops_with_a_trace_reach_the_port(rt: HostRuntime) -> Result<(), Fail> {
    let mut serial = port(rt.alloc())?;
    let _ = serial.enqueue_raw_bytes(b"ab");
    traced::take_first(&mut serial, 1);
    assert!(rt; serial.read(0) == b'b');
    let accesses = [Access::Write(7, 0x5A), Access::Read(7)];
    traced::lose_no_byte(&mut serial, &accesses);
    assert!(rt; serial.read(7) == 0x5A);
    Ok(())
}

#[test]
fn a_bounded_writer_takes_what_fits(rt: HostRuntime) -> Result<(), Fail> {
    let mut serial = bounded_port(rt.alloc())?;
    assert!(rt; serial.sends(0) && serial.write_bounded(0, b'x').is_ok());
    assert!(rt; matches!(serial.write_bounded(0, b'y'), Err(Error::IOError(_))));
    assert!(rt; !serial.sends(7) && serial.write_bounded(7, b'z').is_ok());
    assert!(rt; serial.write_bounded(1, 0x02).is_ok() && serial.interrupt_evt().waiting() == 1);
    let output = serial.writer();
    assert!(rt; output.waiting(rt.alloc())?.as_slice() == b"x".as_slice() && output.dropped() == 1);
    Ok(())
}
