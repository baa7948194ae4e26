// SPDX-License-Identifier: Apache-2.0 OR BSD-3-Clause
//! Tests over objects that count their calls, and fail: the calls that objects get, a writer's own faults and their
//! text, calls over states and lists of each size, and larger programs to copy at work.
#![tactic(auto)]

#[cfg(test)]
mod object_calls;
#[cfg(test)]
mod printed;
#[cfg(test)]
mod sessions;
#[cfg(test)]
mod sizes;
