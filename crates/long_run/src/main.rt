// SPDX-License-Identifier: Apache-2.0 OR BSD-3-Clause
//! Makes as many reads of a serial port as a line of standard input says, as one run, and prints how many records there
//! are. tests/costs measures it.
#![tactic(auto)]

ghost use Rattle.vm_superio.specs.Links.ForAnyObject.{AnyCalls, AnyCalls-nil, AnyCalls-append};

use std::alloc::{AllocError, Global};
use std::cell::Cell;
use std::io;
use std::io::Write;
use std::process::ExitCode;
use vm_superio::run::{Call, run};
use vm_superio::serial::SerialEvents;
use vm_superio::{Serial, Trigger};

/// A refusal.
#[derive(Clone, Copy, Debug)]
struct Refusal;

/// A trigger, an events object and a writer, whose calls succeed and are counted.
#[derive(Clone, Copy)]
struct Counter<'a>(&'a Cell<u64>);

impl Counter<'_> {
    fn count(&self) {
        self.0.set(self.0.get().wrapping_add(1));
    }
}

impl Trigger for Counter<'_> {
    type E = Refusal;

    ghost link = { AnyCalls };

    ghost empty = { AnyCalls-nil };

    ghost append = { AnyCalls-append };

    fn trigger(&mut self) -> Result<(), Refusal> {
        self.count();
        Ok(())
    }
}

impl SerialEvents for Counter<'_> {
    ghost link = { AnyCalls };

    ghost empty = { AnyCalls-nil };

    ghost append = { AnyCalls-append };

    fn buffer_read(&mut self) {
        self.count();
    }

    fn out_byte(&mut self) {
        self.count();
    }

    fn tx_lost_byte(&mut self) {
        self.count();
    }

    fn in_buffer_empty(&mut self) {
        self.count();
    }
}

impl Write for Counter<'_> {
    fn write(&mut self, buf: &[u8]) -> io::Result<usize> {
        self.count();
        Ok(buf.len())
    }

    fn flush(&mut self) -> io::Result<()> {
        self.count();
        Ok(())
    }
}

type CountedCall<'a> = Call<Counter<'a>, Counter<'a>, Counter<'a>>;

type CountedSerial<'a> = Serial<Counter<'a>, Counter<'a>, Counter<'a>>;

/// How many records a run of this many reads gives.
fn records_of_reads<'a>(
    alloc: Global,
    object: Counter<'a>,
    size: usize,
) -> Result<usize, AllocError> {
    let mut calls: Vec<CountedCall<'a>> = Vec::with_capacity(alloc, size)?;
    for _ in 0..size {
        calls.push(Call::Read(5))?;
    }
    let mut serial: CountedSerial<'a> = Serial::with_events(alloc, object, object, object).map_err(
        |_| AllocError,
    )?;
    Ok(run(alloc, &mut serial, calls)?.len())
}

fn main(rt: HostRuntime) -> ExitCode {
    let counter = Cell::new(0);
    for line in rt.lines(rt.alloc()) {
        let Ok(text) = line else {
            return ExitCode::from(1);
        };
        let Ok(size) = text.as_str().parse::<usize>() else {
            return ExitCode::from(2);
        };
        let Ok(records) = records_of_reads(rt.alloc(), Counter(&counter), size) else {
            return ExitCode::from(3);
        };
        if println!(rt; "{records}").is_err() {
            return ExitCode::from(1);
        }
    }
    ExitCode::from(0)
}
