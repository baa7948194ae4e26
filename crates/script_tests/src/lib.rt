// SPDX-License-Identifier: Apache-2.0 OR BSD-3-Clause
//! The worked cases of scripts and boards: what they print, how they end, how often they call their streams, and what
//! is left if memory is refused.
#![tactic(auto)]

#[cfg(test)]
mod refused_memory;
#[cfg(test)]
mod scripts;
#[cfg(test)]
mod streams;
