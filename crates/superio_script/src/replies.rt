// SPDX-License-Identifier: Apache-2.0 OR BSD-3-Clause
//! The reply to a line, with its LF, and the faults. They say why a line has no reply, and why a run of a script ended
//! early.
ghost use Rattle.std.specs.Prelude.{◌≡◌, ◌+◌, ◌*◌, ◌<◌, ◌≤◌, [], ◌∷◌, ◌++◌, length};
ghost use Rattle.hex.specs.Hex.{encode_lower};
ghost use Rattle.board_objects.specs.Objects.{output_limit};
ghost use Rattle.superio_script.specs.Reply.{with_lf, digits_reply, count_digits};

use arrayvec::ArrayVec;
use std::error::Error;
use std::fmt;

/// A reply with its LF.
pub type ReplyText = ArrayVec<u8, 513>;

/// The capacity of a [`ReplyText`]: 512 digits, for the 256 bytes that the serial port's output can hold, and LF.
pub const REPLY_LIMIT: usize = 513;

/// The text, and LF.
pub(crate) fn reply_text(text: &[u8]) -> ReplyText
    requires { length text.now < REPLY_LIMIT }
    ensures { result.items ≡ with_lf text.now }
{
    let mut reply = ReplyText::new();
    reply.try_extend_from_slice(text).unwrap();
    reply.push(b'\n');
    reply
}

/// Appends two digits for each byte, to a reply of several fields.
pub(crate) fn push_digits(reply: &mut ReplyText, bytes: &[u8])
    requires at_most_256 { length bytes.now ≤ output_limit }
    requires room { length reply.old.items + 2 * length bytes.now ≤ REPLY_LIMIT }
    ensures digits { reply.new.items ≡ reply.old.items ++ encode_lower bytes.now }
    ensures longer { length reply.new.items ≡ length reply.old.items + 2 * length bytes.now }
{
    let mut digits = [0; 512];
    let digits = &mut digits[..2 * bytes.len()];
    hex::encode_to_slice(bytes, digits).unwrap();
    reply.try_extend_from_slice(digits).unwrap();
}

/// Two digits for each byte, and LF.
pub(crate) fn reply_digits(bytes: &[u8]) -> ReplyText
    requires { length bytes.now ≤ output_limit }
    ensures { result.items ≡ digits_reply bytes.now }
{
    let mut reply = ReplyText::new();
    push_digits(&mut reply, bytes);
    reply.push(b'\n');
    reply
}

/// The count as sixteen digits, and LF.
pub(crate) fn reply_count(count: u64) -> ReplyText
    ensures { result.items ≡ with_lf (count_digits count) }
{
    reply_digits(&count.to_be_bytes())
}

// ---- faults

/// Why a line was not executed.
#[derive(Clone, Copy, Debug, PartialEq, Eq)]
pub enum LineFault {
    /// The line has no known syntax. `refuse` is known only as a script's first line.
    Bad,
    /// The allocator refused memory for the line `ss`.
    Memory,
}

/// Why a run of a script ended early.
#[derive(Clone, Copy, Debug, PartialEq, Eq)]
pub enum ScriptFault {
    /// The line with this number, counted from 1, is the first without a known syntax.
    Bad(usize),
    /// The reader or the writer failed.
    Io,
    /// The allocator refused memory.
    Memory,
    /// The script has more than 65,536 bytes.
    TooLong,
}

impl ScriptFault {
    ghost use Rattle.superio_script.specs.Reply.{status_of};

    /// The exit status of a program that ends with this fault: 1 for a bad line, 2 for input or output, 3 for memory,
    /// and 4 for a script that is too long.
    pub fn status(&self) -> u8
        ensures { result ≡ status_of self.now }
    {
        match self {
            ScriptFault::Bad(_) => 1,
            ScriptFault::Io => 2,
            ScriptFault::Memory => 3,
            ScriptFault::TooLong => 4,
        }
    }
}

impl fmt::Display for ScriptFault {
    ghost use Rattle.superio_script.specs.Reply.{message_of};
    ghost use Rattle.std.specs.Prelude.{Some};

    ghost output = { λ fault. Some (message_of fault) };

    fn fmt<W: fmt::Write>(&self, f: &mut fmt::Formatter<W>) -> fmt::Result {
        match self {
            ScriptFault::Bad(number) => write!(f, "bad line {number}"),
            ScriptFault::Io => write!(f, "input or output fault"),
            ScriptFault::Memory => write!(f, "out of memory"),
            ScriptFault::TooLong => write!(f, "script too long"),
        }
    }
}

impl Error for ScriptFault {}
