// SPDX-License-Identifier: Apache-2.0 OR BSD-3-Clause
//! The devices of vm_superio as C functions. Their header, `bindings/c/superio.h`, documents each of them for a caller.
//!
//! A function takes a device in a plain struct by pointer, changes it, and returns what is left to do. No function has
//! a `requires`: any bytes of a struct are valid.
#![tactic(auto)]

ghost use Rattle.std.specs.Prelude.{◌≡◌};

mod clock;
mod console;
mod controller;
mod saved;
mod serial;

/// The number of the binary interface. It changes with every change to a struct or to the meaning of a call.
const ABI: u32 = 5;

/// The number of this library's binary interface. Compare it with `SUPERIO_ABI` in the header.
#[unsafe(no_mangle)]
pub extern "C" fn superio_abi() -> u32
    ensures { result ≡ 5 }
{
    ABI
}
