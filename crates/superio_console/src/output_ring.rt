// SPDX-License-Identifier: Apache-2.0 OR BSD-3-Clause
//! The guest's output that waits for its reader: at most 4,096 bytes, in a ring.
ghost use Rattle.std.specs.Prelude.{◌≡◌, ◌<◌, ◌≤◌, ◌+◌, ◌-◌, ◌%◌, ◌==◌, min, not, nat_lt, if◌then◌else◌, List, [], ◌∷◌, ◌++◌, length, take, drop};
ghost use Rattle.superio_core.specs.Serial.{not_empty};
ghost use Rattle.superio_console.specs.OutputRing.{output_size, waiting_in, ring_from};

mod printed;

/// How many bytes of output may wait, as many as a page has.
pub const OUTPUT_SIZE: usize = 4096;

/// Bytes that wait, oldest first, in a ring of 4,096 places. Any values are valid: `head` is taken modulo 4,096, and a
/// `len` above 4,096 counts as 4,096.
#[repr(C)]
#[derive(Clone)]
#[derive(Drop)]
pub struct OutputRing {
    /// The place of the oldest byte.
    pub head: u16,
    /// How many bytes wait.
    pub len: u16,
    /// The places of the ring. The first place follows the last.
    pub bytes: [u8; 4096],
}

impl OutputRing {
    /// An empty ring.
    pub(crate) fn new() -> OutputRing
        ensures { waiting_in result ≡ [] }
    {
        OutputRing {
            head: 0,
            len: 0,
            bytes: [0; 4096],
        }
    }

    /// A ring in which these bytes wait.
    pub(crate) fn from_slice(bytes: &[u8]) -> OutputRing
        requires { length bytes.now ≤ output_size }
        ensures { waiting_in result ≡ bytes.now }
    {
        let mut places = [0; OUTPUT_SIZE];
        places[..bytes.len()].copy_from_slice(bytes);
        OutputRing {
            head: 0,
            len: bytes.len() as u16,
            bytes: places,
        }
    }

    /// How many bytes wait, at most 4,096.
    #[inline(always)]
    pub(crate) fn count(&self) -> usize
        ensures value { result ≡ min self.now.len output_size }
        ensures length { result ≡ length (waiting_in self.now) }
    {
        usize::from(self.len).min(OUTPUT_SIZE)
    }

    /// Whether no byte waits.
    #[inline(always)]
    pub(crate) fn is_empty(&self) -> bool
        ensures { result ≡ not (not_empty (waiting_in self.now)) }
    {
        self.len == 0
    }

    /// The place at this distance from the oldest byte.
    #[inline(always)]
    fn place(&self, distance: usize) -> usize
        requires { distance ≤ output_size }
        ensures value { result ≡ (self.now.head + distance) % output_size }
        ensures bound { result < output_size }
    {
        (usize::from(self.head) + distance) % OUTPUT_SIZE
    }

    /// Adds a byte if there is room, and returns whether there was.
    #[inline(always)]
    pub(crate) fn push(&mut self, byte: u8) -> bool
        ensures room { result ≡ nat_lt (length (waiting_in self.old)) output_size }
        ensures added { waiting_in self.new
            ≡ (if nat_lt (length (waiting_in self.old)) output_size
            then waiting_in self.old ++ byte ∷ [] else waiting_in self.old) }
    {
        let waiting = self.count();
        if waiting == OUTPUT_SIZE {
            return false;
        }
        let place = self.place(waiting);
        self.bytes[place] = byte;
        self.len = (waiting + 1) as u16;
        true
    }

    /// The bytes that wait, oldest first, in two slices: up to the last place, and from the first place on.
    pub(crate) fn as_slices(&self) -> (&[u8], &[u8])
        ensures bytes { result.0.now ++ result.1.now ≡ waiting_in self.now }
        ensures bound { length result.0.now + length result.1.now ≤ output_size }
        ensures some { not_empty result.0.now ≡ not_empty (waiting_in self.now) }
    {
        let waiting = self.count();
        let (from_start, to_end) = self.bytes.split_at(self.place(0));
        let older = waiting.min(to_end.len());
        (&to_end[..older], &from_start[..waiting - older])
    }

    /// The oldest bytes, up to the last place. There are none only if no byte waits.
    pub(crate) fn oldest(&self) -> &[u8]
        ensures first { result.now ≡ take (length result.now) (waiting_in self.now) }
        ensures bound { length result.now ≤ length (waiting_in self.now) }
        ensures some { not_empty result.now ≡ not_empty (waiting_in self.now) }
    {
        self.as_slices().0
    }

    /// Removes the oldest bytes: `taken`, or all if fewer wait.
    pub(crate) fn remove(&mut self, taken: usize)
        ensures { waiting_in self.new ≡ drop taken (waiting_in self.old) }
    {
        let waiting = self.count();
        let taken = taken.min(waiting);
        self.head = self.head.wrapping_add(taken as u16);
        self.len = (waiting - taken) as u16;
    }
}
