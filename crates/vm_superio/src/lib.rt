// SPDX-License-Identifier: Apache-2.0 OR BSD-3-Clause
//! Emulated legacy devices for a virtual machine monitor, with proofs.
#![tactic(auto)]

ghost use Rattle.std.specs.Prelude.{◌≡◌, ◌↔◌, List, [], ◌∷◌, ◌++◌, Result};

pub use i8042::I8042Device;
pub use rtc_pl031::{Rtc, RtcState};
pub use serial::{Serial, SerialState};
use std::fmt::Debug;
pub use superio_laws as laws;

mod fifo;
pub mod i8042;
pub mod object_laws;
pub mod rtc_pl031;
pub mod run;
pub mod saved;
pub mod serial;

/// Your object that interrupts the guest or resets the machine, such as one that writes to an eventfd.
///
/// A device owns its trigger from creation on. It calls `trigger` only where documented.
///
/// An implementation declares its `link`, a relation of three things: its value before some calls, the answers to these
/// calls, in order, and its value after them. A device's contract states which answers its trigger gave.
pub trait Trigger {
    /// Why a call was refused. If the type has no values, like `Infallible`, no call is ever refused, and contracts
    /// rule out the errors for a refusal.
    type E: Debug + Drop;

    /// Calls with these answers turn the first value into the second.
    ghost link: { Self → List (Result (Unit {0}) Self.E) → Self → Type 0 };

    /// Interrupts the guest once, or asks once for a reset. `Err` means that nobody was notified.
    fn trigger(&mut self) -> Result<(), Self::E>
        ensures { link self.old (result ∷ []) self.new };

    /// An empty list of calls links a value with itself alone.
    ghost empty: { (x y : Self) → link x [] y ↔ (x ≡ y) };

    /// Two linked lists of calls, one after the other, are one linked list.
    ghost append: { (x y z : Self) (first second : List (Result (Unit {0}) Self.E)) →
        link x first y → link y second z → link x (first ++ second) z };
}
