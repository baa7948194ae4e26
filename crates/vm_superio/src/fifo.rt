// SPDX-License-Identifier: Apache-2.0 OR BSD-3-Clause
//! The receive FIFO of a port with objects: a ring on the heap.
ghost use Rattle.std.specs.Prelude.{◌≡◌, ◌≤◌, List, ℕ, [], length, IfOk};
ghost use Rattle.superio_core.specs.Sizes.{fifo_size};

use circular_buffer::HeapCircularBuffer;
use std::alloc::{AllocError, Global};
use std::marker::Model;
use superio_core::fifo::{FIFO_SIZE, RxFifo};

/// The received bytes that no guest has read, as a list. Their memory is allocated once, at creation.
#[derive(Drop)]
pub(crate) struct Fifo {
    bytes: HeapCircularBuffer<u8>,
}

impl Model for Fifo {
    ghost Value = { List ℕ };

    ghost view = { λ fifo. fifo.bytes.items };

    ghost invariant = { λ fifo. (fifo.bytes.capacity ≡ fifo_size) × (length fifo.bytes.items ≤ fifo_size) };
}

impl Fifo {
    /// An empty FIFO, with room for 64 bytes.
    ///
    /// # Errors
    ///
    /// Returns `AllocError` if allocation fails.
    pub(crate) fn new(alloc: Global) -> Result<Self, AllocError>
        ensures { IfOk result (λ fifo. fifo ≡ []) }
    {
        let bytes = HeapCircularBuffer::with_capacity(alloc, FIFO_SIZE)?;
        Ok(Fifo { bytes })
    }

    /// A FIFO holding these bytes, at most 64.
    ///
    /// # Errors
    ///
    /// Returns `AllocError` if allocation fails.
    pub(crate) fn from_slice(alloc: Global, bytes: &[u8]) -> Result<Self, AllocError>
        requires { length bytes.now ≤ fifo_size }
        ensures { IfOk result (λ fifo. fifo ≡ bytes.now) }
    {
        let mut fifo = Self::new(alloc)?;
        fifo.fill(bytes);
        Ok(fifo)
    }

    /// A copy of the bytes.
    pub(crate) fn to_vec(&self, alloc: Global) -> Result<Vec<u8>, AllocError>
        ensures bytes { IfOk result (λ bytes. bytes.items ≡ self.now) }
        ensures bound { length self.now ≤ fifo_size }
    {
        self.bytes.to_vec(alloc)
    }
}

impl RxFifo for Fifo {
    ghost held = { λ fifo. fifo };

    ghost len_in_range = { λ fifo. Unit {0} };

    fn len(&self) -> usize {
        self.bytes.len()
    }

    fn is_empty(&self) -> bool {
        self.bytes.is_empty()
    }

    fn take_first(&mut self) -> Option<u8> {
        self.bytes.pop_front()
    }

    fn push(&mut self, byte: u8) -> bool {
        self.bytes.try_push_back(byte).is_ok()
    }

    // `push` is cheaper for one byte.
    fn fill(&mut self, bytes: &[u8]) -> usize {
        match bytes {
            [byte] => usize::from(self.push(*byte)),
            _ => self.bytes.fill_from_slice(bytes),
        }
    }
}
