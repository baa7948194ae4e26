// SPDX-License-Identifier: Apache-2.0 OR BSD-3-Clause
//! Short modules to copy into a monitor: a bus, a clock's window in memory, triggers, output that waits, a whole monitor
//! and its migration, a machine of two ports, and claims about the devices and about loops.
#![tactic(auto)]

pub mod bus;
pub mod echo;
pub mod first_claims;
pub mod many_calls;
pub mod mmio;
pub mod monitor;
pub mod queues;
pub mod saved_monitor;
pub mod traced;
pub mod triggers;
pub mod two_ports;
