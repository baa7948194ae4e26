// SPDX-License-Identifier: Apache-2.0 OR BSD-3-Clause
//! Triggers: the usual one, a file descriptor that the host's kernel watches, such as an eventfd that is the irqfd of
//! an interrupt line; one that counts its calls, for a monitor that injects interrupts itself; and one that has room
//! for some interrupts and refuses the others, with a link of its own.
ghost use Rattle.std.specs.Prelude.{◌≡◌, ◌<◌, ◌≤◌, ◌-◌, ◌==◌, not, [], ◌∷◌, OnOk, OnErr};
ghost use Rattle.std.specs.Io.KnownBytes.{Appends};
ghost use Rattle.vm_superio.specs.Links.ForAnyObject.{FoldsCalls, FoldsCalls-nil, FoldsCalls-append};
ghost use Rattle.vm_superio.specs.Links.ForAnyObject.{AnyCalls, AnyCalls-nil, AnyCalls-append};
ghost use Rattle.superio_examples.specs.Triggers.{after_call, TakesCalls, TakesCalls-nil, TakesCalls-append};

use std::convert::Infallible;
use std::io;
use std::io::Write;
use vm_superio::Trigger;

/// An interrupt line, or the event that requests a reset, as a file descriptor. `W` is the descriptor as a writer,
/// such as a `File`.
///
/// No value of the program shows what the kernel does with it. So its link says only that a trigger that was not called
/// is unchanged, and nothing about one that was called.
#[derive(Drop)]
pub struct EventFd<W: Write> {
    pub file: W,
}

impl<W: Write> Trigger for EventFd<W> {
    type E = io::Error;

    ghost link = { AnyCalls };

    ghost empty = { AnyCalls-nil };

    ghost append = { AnyCalls-append };

    /// Adds 1 to the descriptor's counter: writes eight bytes.
    ///
    /// # Errors
    ///
    /// Returns the write's error. From a nonblocking descriptor, `WouldBlock` says that its counter is full.
    fn trigger(&mut self) -> io::Result<()>
        ensures link { AnyCalls self.old (result ∷ []) self.new }
        ensures written { OnOk result (Appends (W.contents self.old.file) (W.contents self.new.file)
            (1 ∷ 0 ∷ 0 ∷ 0 ∷ 0 ∷ 0 ∷ 0 ∷ 0 ∷ [])) }
    {
        self.file.write_all(&1u64.to_ne_bytes())
    }
}

/// An interrupt line that counts its calls, and refuses none. After an access or an input, the monitor checks whether
/// the count has grown, and if so injects an interrupt. The count saturates at 2^64 - 1.
#[derive(Drop)]
pub struct Counter {
    calls: u64,
}

impl Counter {
    /// A line that was not called.
    pub fn new() -> Counter
        ensures { result.calls ≡ 0 }
    {
        Counter { calls: 0 }
    }

    /// How often the line was called.
    pub fn calls(&self) -> u64
        ensures { result ≡ self.now.calls }
    {
        self.calls
    }

    /// Forgets the calls so far. A monitor does so when it injects one interrupt for all of them.
    pub fn clear(&mut self)
        ensures { self.new.calls ≡ 0 }
    {
        *self = Counter::new();
    }
}

impl Trigger for Counter {
    type E = Infallible;

    ghost link = { FoldsCalls after_call };

    ghost empty = { FoldsCalls-nil };

    ghost append = { FoldsCalls-append };

    fn trigger(&mut self) -> Result<(), Infallible>
        ensures link { FoldsCalls after_call self.old (result ∷ []) self.new }
        ensures taken { result ≡ Ok tt }
    {
        let calls = &mut self.calls;
        *calls = calls.saturating_add(1);
        Ok(())
    }
}

/// A line into a controller that keeps interrupts until the guest takes them, up to a limit. It counts those that wait,
/// and refuses a call while there is no room.
///
/// It has a link of its own: each call that was taken adds one interrupt that waits.
#[derive(Drop)]
pub struct InterruptLine {
    waiting: u32,
    limit: u32,
}

/// A line's answer while it has no room.
#[derive(Debug, Drop)]
pub struct NoRoom;

impl InterruptLine {
    /// A line on which no interrupt waits.
    pub fn new(limit: u32) -> InterruptLine
        ensures waiting { result.waiting ≡ 0 }
        ensures limit { result.limit ≡ limit }
    {
        InterruptLine { waiting: 0, limit }
    }

    /// How many interrupts wait.
    pub fn waiting(&self) -> u32
        ensures { result ≡ self.now.waiting }
    {
        self.waiting
    }

    /// The guest takes an interrupt. Returns whether one waited.
    pub fn deliver(&mut self) -> bool
        ensures delivered { result ≡ not (self.old.waiting == 0) }
        ensures waiting { self.new.waiting ≡ self.old.waiting - 1 }
        ensures limit { self.new.limit ≡ self.old.limit }
    {
        if self.waiting == 0 {
            return false;
        }
        self.waiting -= 1;
        true
    }
}

impl Trigger for InterruptLine {
    type E = NoRoom;

    ghost link = { TakesCalls };

    ghost empty = { TakesCalls-nil };

    ghost append = { TakesCalls-append };

    /// One more interrupt waits, if there is room.
    ///
    /// # Errors
    ///
    /// Returns `NoRoom` if as many wait as the limit allows: retry once the guest has taken one.
    fn trigger(&mut self) -> Result<(), NoRoom>
        ensures link { TakesCalls self.old (result ∷ []) self.new }
        ensures taken { OnOk result (self.old.waiting < self.old.limit) }
        ensures refused { OnErr result (self.old.limit ≤ self.old.waiting) }
    {
        if self.waiting >= self.limit {
            return Err(NoRoom);
        }
        self.waiting += 1;
        Ok(())
    }
}
