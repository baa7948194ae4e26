// SPDX-License-Identifier: Apache-2.0 OR BSD-3-Clause
//! The events object of a serial port.
ghost use Rattle.std.specs.Prelude.{◌≡◌, ◌↔◌, List, [], ◌∷◌, ◌++◌};
ghost use Rattle.std.proofs.Common.{◌∙◌};
ghost use Rattle.superio_core.specs.Serial.Operations.{Event, buffer_read, out_byte, tx_lost_byte, in_buffer_empty};

/// Receives a serial port's events: use them to count, to log, or to offer more input when no byte is left.
///
/// A serial port owns its events object from creation on. It calls the object only where documented.
///
/// An implementation declares its `link`, a relation of three things: its value before some events, the names of these
/// events, in order, and its value after them. A port's contract states which events it reported.
pub trait SerialEvents {
    /// These events turn the first value into the second.
    ghost link: { Self → List Event → Self → Type 0 };

    /// The guest read the data register.
    fn buffer_read(&mut self)
        ensures { link self.old (buffer_read ∷ []) self.new };

    /// A byte went out: the writer took it.
    fn out_byte(&mut self)
        ensures { link self.old (out_byte ∷ []) self.new };

    /// A byte was lost: the writer failed.
    fn tx_lost_byte(&mut self)
        ensures { link self.old (tx_lost_byte ∷ []) self.new };

    /// The guest read the data register, and no byte is held now.
    fn in_buffer_empty(&mut self)
        ensures { link self.old (in_buffer_empty ∷ []) self.new };

    /// An empty list of events links a value with itself alone.
    ghost empty: { (x y : Self) → link x [] y ↔ (x ≡ y) };

    /// Two linked lists of events, one after the other, are one linked list.
    ghost append: { (x y z : Self) (first second : List Event) →
        link x first y → link y second z → link x (first ++ second) z };
}

/// An events object that ignores every event and never changes.
#[derive(Debug, Clone, Copy)]
pub struct NoEvents;

impl SerialEvents for NoEvents {
    ghost link = { λ old _ new. old ≡ new };

    ghost empty = { λ _ _. (λ same. same, λ same. same) };

    ghost append = { λ _ _ _ _ _ first second. first ∙ second };

    fn buffer_read(&mut self) {}

    fn out_byte(&mut self) {}

    fn tx_lost_byte(&mut self) {}

    fn in_buffer_empty(&mut self) {}
}
