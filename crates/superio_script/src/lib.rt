// SPDX-License-Identifier: Apache-2.0 OR BSD-3-Clause
//! Scripts that drive the devices of `vm_superio` on a board, one line at a time.
#![tactic(auto)]

mod devices;
mod driver;
mod fields;
mod replies;
mod script;
mod serial_lines;

pub use board_objects::{Counts, Line, LineRefused, Output};
pub use devices::Board;
pub use driver::drain;
pub use replies::{LineFault, ReplyText, ScriptFault};
pub use script::run_script;
