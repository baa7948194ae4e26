// SPDX-License-Identifier: Apache-2.0 OR BSD-3-Clause
//! The laws of saved states, and those that need an object or a `Vec`. Each function does nothing: its contract is the
//! law.
//!
//! The module `laws` is `superio_laws`, which has all other laws. Its head explains the terms.
ghost use Rattle.vm_superio.specs.Links.Writer.{KnownOutputLaw};

pub mod saved;

use std::io::Write;

/// A writer of known contents that lost no byte has grown by the bytes that were sent to it.
#[tactic(auto, using(crate::proofs::Lemmas::known_output_law))]
pub fn known_output<W: Write>()
    ensures { KnownOutputLaw W.contents }
{}
