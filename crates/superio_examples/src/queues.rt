// SPDX-License-Identifier: Apache-2.0 OR BSD-3-Clause
//! A bounded queue. A guest's output waits until the monitor's sink takes it, and the guest never waits for the sink.
ghost use Rattle.std.specs.Prelude.{◌≡◌, ◌≤◌, ◌-◌, ◌==◌, ℕ, [], ◌∷◌, ◌++◌, is_ok, length, take, drop, max, min, nat_lt, Some, IfOk, OnErr, OnOk};
ghost use Rattle.std.specs.Io.{WritesAtMost};
ghost use Rattle.std.specs.Io.KnownBytes.{Appends, WriteAppends, Keeps};
ghost use Rattle.superio_examples.specs.Queues.{Waiting, OutputLaw, after_byte, dropped_by};

use circular_buffer::HeapCircularBuffer;
use std::alloc::{AllocError, Global};
use std::io;
use std::io::{ErrorKind, Write};
use std::marker::Model;
use vm_superio::serial::BoundedWriter;

/// The bytes that wait for the monitor's sink, oldest first, in a ring. Their number is limited, and `new` allocates
/// the memory for this limit. A byte that finds no room is dropped, and counted.
///
/// The monitor of a port without I/O passes each byte that the guest sends to [`OutputQueue::push`]. An `OutputQueue`
/// may also be a port's own writer: then call [`Serial::write_bounded`](vm_superio::Serial::write_bounded). A write of a
/// byte that is dropped returns an I/O error of the kind `WriteZero`, which the monitor can log.
#[derive(Drop)]
pub struct OutputQueue {
    ring: HeapCircularBuffer<u8>,
    dropped: u64,
}

impl Model for OutputQueue {
    ghost Value = { Waiting };

    ghost view = { λ output. record {
      items = output.ring.items;
      capacity = output.ring.capacity;
      dropped = output.dropped;
    } };
}

impl OutputQueue {
    /// An empty output, where at most `limit` bytes may wait.
    ///
    /// # Errors
    ///
    /// Returns `AllocError` if the allocator refuses memory.
    pub fn new(alloc: Global, limit: usize) -> Result<OutputQueue, AllocError>
        ensures { IfOk result (λ output. output ≡ record { items = []; capacity = limit; dropped = 0 }) }
    {
        let ring = HeapCircularBuffer::with_capacity(alloc, limit)?;
        Ok(OutputQueue { ring, dropped: 0 })
    }

    /// An output in which these bytes wait, and which has dropped `dropped`. At most `limit` may wait, or as many as
    /// wait now if these are more.
    ///
    /// # Errors
    ///
    /// Returns `AllocError` if the allocator refuses memory.
    pub fn restored(
        alloc: Global,
        waiting: &[u8],
        limit: usize,
        dropped: u64,
    ) -> Result<OutputQueue, AllocError>
        ensures { IfOk result (λ output. output ≡ record {
          items = waiting.now;
          capacity = max limit (length waiting.now);
          dropped = dropped;
        }) }
    {
        let mut ring = HeapCircularBuffer::with_capacity(alloc, limit.max(waiting.len()))?;
        ring.fill_from_slice(waiting);
        Ok(OutputQueue { ring, dropped })
    }

    /// How many bytes may wait.
    pub fn limit(&self) -> usize
        ensures value { result ≡ self.now.capacity }
        ensures bound { length self.now.items ≤ self.now.capacity }
    {
        self.ring.capacity()
    }

    /// Whether no byte waits. If some do, the monitor polls its sink.
    pub fn is_empty(&self) -> bool
        ensures { result ≡ (length self.now.items == 0) }
    {
        self.ring.is_empty()
    }

    /// How many bytes were dropped. The count saturates at 2^64 - 1.
    pub fn dropped(&self) -> u64
        ensures { result ≡ self.now.dropped }
    {
        self.dropped
    }

    /// A copy of the bytes that wait, oldest first.
    ///
    /// # Errors
    ///
    /// Returns `AllocError` if memory is refused for the copy.
    pub fn waiting(&self, alloc: Global) -> Result<Vec<u8>, AllocError>
        ensures { IfOk result (λ waiting. waiting.items ≡ self.now.items) }
    {
        self.ring.to_vec(alloc)
    }

    /// Takes a byte that the guest sent if there is room, and otherwise drops and counts it.
    pub fn push(&mut self, byte: u8)
        ensures { self.new ≡ after_byte byte self.old }
    {
        let _ = self.write_byte(byte);
    }

    /// Passes the waiting bytes to a sink by one call of its `write`, and returns how many it took. The others stay.
    ///
    /// # Errors
    ///
    /// Returns the sink's error, and all bytes stay. `WouldBlock` says that the sink has no room now.
    pub fn drain_into<S: Write>(&mut self, sink: &mut S) -> io::Result<usize>
        ensures bound { WritesAtMost result self.old.items }
        ensures bytes { WriteAppends (S.contents sink.old) (S.contents sink.new) result self.old.items }
        ensures taken { IfOk result (λ count. self.new ≡ record self.old { items = drop count self.old.items }) }
        ensures refused { OnErr result (self.new ≡ self.old) }
    {
        let count = sink.write(self.ring.make_contiguous())?;
        self.ring.truncate_front(self.ring.len() - count);
        Ok(count)
    }
}

impl Write for OutputQueue {
    ghost contents = { λ output. Some output.items };

    /// Takes the first of these bytes, as many as fit, and returns how many. If none fits, it drops and counts all of
    /// them, because a caller such as `write_all` gives up then.
    fn write(&mut self, buf: &[u8]) -> io::Result<usize>
        ensures bound { WritesAtMost result buf.now }
        ensures bytes { WriteAppends (Some self.old.items) (Some self.new.items) result buf.now }
        ensures count { result ≡ Ok (min (length buf.now) (self.old.capacity - length self.old.items)) }
        ensures dropped { self.new.dropped ≡ dropped_by self.old (length buf.now) }
        ensures limit { self.new.capacity ≡ self.old.capacity }
    {
        if self.ring.is_full() {
            let dropped = &mut self.dropped;
            *dropped = dropped.saturating_add(buf.len() as u64);
            return Ok(0);
        }
        Ok(self.ring.fill_from_slice(buf))
    }

    fn flush(&mut self) -> io::Result<()>
        ensures bytes { Keeps (Some self.old.items) (Some self.new.items) }
        ensures done { result ≡ Ok tt }
        ensures unchanged { self.new ≡ self.old }
    {
        Ok(())
    }
}

impl BoundedWriter for OutputQueue {
    ghost takes = { λ output. nat_lt (length output.items) output.capacity };

    ghost offered = { λ byte old new. new ≡ after_byte byte old };

    /// Takes the byte if there is room, and otherwise drops and counts it, and fails with `WriteZero`.
    fn write_byte(&mut self, byte: u8) -> io::Result<()>
        ensures room { is_ok result ≡ nat_lt (length self.old.items) self.old.capacity }
        ensures output { self.new ≡ after_byte byte self.old }
        ensures bytes { OnOk result (Appends (Some self.old.items) (Some self.new.items) (byte ∷ [])) }
    {
        if self.ring.try_push_back(byte).is_ok() {
            return Ok(());
        }
        let dropped = &mut self.dropped;
        *dropped = dropped.saturating_add(1);
        Err(io::Error::from(ErrorKind::WriteZero))
    }
}

/// A law, for proofs about many calls: a guest sends bytes, by `push`, and sinks take them, by `drain_into`, in any
/// order. What sinks took, followed by what waits, is what waited at the start, followed by what the guest sent, in
/// order, without the bytes that were dropped. The count has grown by the number of dropped bytes, up to 2^64 - 1.
#[tactic(auto, using(crate::proofs::QueueLemmas::output_law))]
pub fn in_order()
    ensures { OutputLaw }
{}
