// SPDX-License-Identifier: Apache-2.0 OR BSD-3-Clause
//! Tests of what no contract shows: refused memory, values that are compared and printed, and the smaller programs to
//! copy at work.
#![tactic(auto)]

#[cfg(test)]
mod examples;
#[cfg(test)]
mod refused_memory;
#[cfg(test)]
mod values;
