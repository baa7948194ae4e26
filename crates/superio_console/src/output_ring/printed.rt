// SPDX-License-Identifier: Apache-2.0 OR BSD-3-Clause
//! What a ring prints: not its 4,096 bytes.
use super::OutputRing;
use std::fmt;

impl fmt::Debug for OutputRing {
    fn fmt<W: fmt::Write>(&self, f: &mut fmt::Formatter<W>) -> fmt::Result {
        write!(
            f,
            "OutputRing {{ head: {}, len: {}, .. }}",
            self.head, self.len
        )
    }
}
