// SPDX-License-Identifier: Apache-2.0 OR BSD-3-Clause
//! A whole script, from a reader to a writer.
ghost use Rattle.std.specs.Prelude.{◌≡◌, ◌≢◌, ◌⊎◌, ℕ, ◌+◌, ◌^◌, ◌<◌, ◌≤◌, length, IfOk, IfErr, IfSome, OnOk, vec_len, take, Some, None};
ghost use Rattle.std.specs.Io.KnownBytes.{Consumes, IsAtEnd};
ghost use Rattle.superio_script.specs.Fields.{lines_of};
ghost use Rattle.superio_script.specs.Script.{mask_of, body_of, first_bad_line, script_limit, PrintsLines, StopsWithoutMemory, RunsUpTo, EndsWithoutMemory, ReadsBytes};

use crate::devices::Board;
use crate::fields::{Fields, Lines};
use crate::replies::{LineFault, ScriptFault};
use std::alloc::Global;
use std::io;
use std::io::{Read, Write};

/// The most bytes that a script may have.
const SCRIPT_LIMIT: usize = 65_536;

/// A buffer of `len` bytes, all 0.
fn room(alloc: Global, len: usize) -> Result<Vec<u8>, ScriptFault>
    ensures made { IfOk result (λ room. vec_len room ≡ len) }
    ensures only_memory { IfErr result (λ fault. fault ≡ ScriptFault.Memory) }
{
    vec![in alloc; 0; len].map_err(|_| ScriptFault::Memory)
}

/// Reads until the room is full or the input ends. Returns the number of bytes read.
#[tactic(auto, using(crate::proofs::LineLemmas::reads))]
fn fill<R: Read>(reader: &mut R, room: &mut [u8]) -> io::Result<usize>
    ensures within { IfOk result (λ filled. filled ≤ length room.old) }
    ensures read { IfOk result (λ filled.
        Consumes (R.remaining reader.old) (R.remaining reader.new) (take filled room.new)) }
    ensures none_left { IfOk result (λ filled. filled < length room.old → IsAtEnd (R.remaining reader.new)) }
{
    let mut filled = 0;
    while filled < room.len() {
        match reader.read(&mut room[filled..])? {
            0 => break,
            count => filled += count,
        }
    }
    Ok(filled)
}

/// Reads the whole script.
fn read_script<R: Read>(alloc: Global, reader: &mut R) -> Result<Vec<u8>, ScriptFault>
    ensures whole { IfOk result (λ script. IfSome (R.remaining reader.old) (λ all. script.items ≡ all)) }
    ensures none_left { OnOk result (IsAtEnd (R.remaining reader.new)) }
    ensures within_limit { IfOk result (λ script. vec_len script ≤ script_limit) }
    ensures too_long { result ≡ Err ScriptFault.TooLong
        → IfSome (R.remaining reader.old) (λ all. script_limit < length all) }
    ensures read_no_further { result ≡ Err ScriptFault.TooLong
        → ReadsBytes (script_limit + 1) (R.remaining reader.old) (R.remaining reader.new) }
    ensures never_bad { (number : ℕ) → result ≢ Err (ScriptFault.Bad number) }
{
    let mut script = room(alloc, SCRIPT_LIMIT + 1)?;
    let filled = fill(reader, &mut script).map_err(|_| ScriptFault::Io)?;
    if filled > SCRIPT_LIMIT {
        return Err(ScriptFault::TooLong);
    }
    script.truncate(filled);
    Ok(script)
}

/// The mask of a line `refuse MMMMMMMMMMMMMMMM`, given without its LF, or `None` if the line is not of this syntax.
fn refused_mask(line: &[u8]) -> Option<u64>
    ensures { result ≡ mask_of line.now }
{
    let mut fields = Fields::of(line);
    if fields.next_field()? != b"refuse".as_slice() {
        return None;
    }
    let mask = fields.u64()?;
    fields.end(mask)
}

/// The head of a script: the mask of a first line `refuse`, or 0; the number of such lines, 1 or 0; and the lines after
/// it.
fn head(script: &[u8]) -> (u64, usize, Lines<'_>)
    ensures mask { result.0 ≡ (body_of script.now).mask }
    ensures skipped { result.1 + 1 ≡ (body_of script.now).first }
    ensures lines { lines_of result.2.rest.now ≡ (body_of script.now).lines }
    ensures all { result.1 + length (lines_of result.2.rest.now) ≡ length (lines_of script.now) }
{
    let mut lines = Lines::of(script);
    if let Some(mask) = lines.next_line().and_then(|line| refused_mask(line)) {
        return (mask, 1, lines);
    }
    (0, 0, Lines::of(script))
}

/// Executes lines on a fresh board with this mask, and writes their replies. `skipped` lines precede them.
fn write_replies<W: Write>(
    alloc: Global,
    mask: u64,
    skipped: usize,
    mut lines: Lines,
    writer: &mut W,
) -> Result<(), ScriptFault>
    requires { skipped + length (lines_of lines.rest.now) < 2 ^ 64 }
    ensures ok { OnOk result ((first_bad_line (skipped + 1) (lines_of lines.entry.rest.now) ≡ None)
        × PrintsLines mask (lines_of lines.entry.rest.now) (W.contents writer.old) (W.contents writer.new)) }
    ensures bad { (number : ℕ) → result ≡ Err (ScriptFault.Bad number)
        → (first_bad_line (skipped + 1) (lines_of lines.entry.rest.now) ≡ Some number)
        × PrintsLines mask (lines_of lines.entry.rest.now) (W.contents writer.old) (W.contents writer.new) }
    ensures memory { result ≡ Err ScriptFault.Memory → (writer.new ≡ writer.old)
        ⊎ StopsWithoutMemory mask (lines_of lines.entry.rest.now) (W.contents writer.old) (W.contents writer.new) }
    ensures never_long { result ≢ Err ScriptFault.TooLong }
{
    let mut board = Board::new(alloc, mask)?;
    let mut number = skipped;
    while let Some(line) = lines.next_line() {
        number += 1;
        let reply = match board.line(alloc, line) {
            Ok(reply) => reply,
            Err(LineFault::Bad) => return Err(ScriptFault::Bad(number)),
            Err(LineFault::Memory) => return Err(ScriptFault::Memory),
        };
        writer.write_all(&reply).map_err(|_| ScriptFault::Io)?;
    }
    Ok(())
}

/// Runs a script: reads it from `reader` to the end, executes its lines on a fresh board, writes the replies to
/// `writer` and flushes it. A script has at most 65,536 bytes. A first line `refuse MMMMMMMMMMMMMMMM` has no reply. It
/// gives the mask of the serial port's interrupt line, which is otherwise 0.
///
/// # Errors
///
/// - [`ScriptFault::Bad`] if a line has no known syntax, with the number of the first one, counted from 1. The replies
///   to the lines before it were written, but the writer was not flushed.
/// - [`ScriptFault::TooLong`] if the reader gave more than 65,536 bytes. Nothing was written, and no byte after the
///   65,537th was read.
/// - [`ScriptFault::Memory`] if memory is refused. If it was for the script or the board, nothing was written. If it
///   was for a line `ss`, the replies to the lines before it were written.
/// - [`ScriptFault::Io`] if a read, a write or the flush failed. After a failed read, nothing was written. After a
///   failed write or flush, no contract states what was written.
pub fn run_script<R: Read, W: Write>(
    alloc: Global,
    reader: &mut R,
    writer: &mut W,
) -> Result<(), ScriptFault>
    ensures ok { OnOk result (IfSome (R.remaining reader.old) (λ script.
        RunsUpTo None script (R.remaining reader.new) (W.contents writer.old) (W.contents writer.new))) }
    ensures bad { (number : ℕ) → result ≡ Err (ScriptFault.Bad number) → IfSome (R.remaining reader.old) (λ script.
        RunsUpTo (Some number) script (R.remaining reader.new) (W.contents writer.old) (W.contents writer.new)) }
    ensures memory { result ≡ Err ScriptFault.Memory → (writer.new ≡ writer.old)
        ⊎ IfSome (R.remaining reader.old) (λ script.
        EndsWithoutMemory script (W.contents writer.old) (W.contents writer.new)) }
    ensures too_long { result ≡ Err ScriptFault.TooLong
        → IfSome (R.remaining reader.old) (λ script. script_limit < length script) }
    ensures too_long_unwritten { result ≡ Err ScriptFault.TooLong → writer.new ≡ writer.old }
    ensures read_no_further { result ≡ Err ScriptFault.TooLong
        → ReadsBytes (script_limit + 1) (R.remaining reader.old) (R.remaining reader.new) }
{
    let script = read_script(alloc, reader)?;
    let (mask, skipped, lines) = head(&script);
    write_replies(alloc, mask, skipped, lines, writer)?;
    writer.flush().map_err(|_| ScriptFault::Io)
}
