// SPDX-License-Identifier: Apache-2.0 OR BSD-3-Clause
//! Runs a script of device accesses from standard input, and prints the replies on standard output.
#![tactic(auto)]

ghost use Rattle.std.specs.Prelude.{◌≡◌, ◌⊎◌, ◌<◌, ℕ, length, IfErr, IfSome, OnOk, Some, None};
ghost use Rattle.std.specs.Io.KnownBytes.{Keeps};
ghost use Rattle.std.specs.Io.Buffered.{writer_inner, writer_contents};
ghost use Rattle.superio_script.specs.Script.{RunsUpTo, EndsWithoutMemory, ReadsBytes};
ghost use Rattle.superio_script.specs.Reply.{status_of};

use std::alloc::Global;
use std::io;
use std::io::{BufWriter, Read, Write};
use std::process::ExitCode;
use superio_script::{ScriptFault, run_script};

/// Runs a script as [`run_script`] does, then flushes the buffer, even if the run failed. So the replies to the lines
/// before a bad line go out too.
///
/// # Errors
///
/// Returns [`ScriptFault::Io`] if the buffer cannot be flushed, and otherwise the errors of [`run_script`].
fn run_buffered<R: Read, W: Write + Drop>(
    alloc: Global,
    reader: &mut R,
    output: &mut BufWriter<W>,
) -> Result<(), ScriptFault>
    ensures ok { OnOk result (IfSome (R.remaining reader.old) (λ script.
        RunsUpTo None script (R.remaining reader.new)
        (writer_contents W.contents output.old) (W.contents (writer_inner output.new)))) }
    ensures bad { (number : ℕ) → result ≡ Err (ScriptFault.Bad number) → IfSome (R.remaining reader.old) (λ script.
        RunsUpTo (Some number) script (R.remaining reader.new)
        (writer_contents W.contents output.old) (W.contents (writer_inner output.new))) }
    ensures memory { result ≡ Err ScriptFault.Memory
        → Keeps (writer_contents W.contents output.old) (W.contents (writer_inner output.new))
        ⊎ IfSome (R.remaining reader.old) (λ script.
        EndsWithoutMemory script (writer_contents W.contents output.old) (W.contents (writer_inner output.new))) }
    ensures too_long { result ≡ Err ScriptFault.TooLong
        → IfSome (R.remaining reader.old) (λ script. 65536 < length script) }
    ensures too_long_unwritten { result ≡ Err ScriptFault.TooLong
        → Keeps (writer_contents W.contents output.old) (W.contents (writer_inner output.new)) }
    ensures read_no_further { result ≡ Err ScriptFault.TooLong
        → ReadsBytes 65537 (R.remaining reader.old) (R.remaining reader.new) }
{
    let end = run_script(alloc, reader, output);
    match output.flush() {
        Ok(()) => end,
        Err(_) => Err(ScriptFault::Io),
    }
}

/// A buffer in front of a writer.
///
/// # Errors
///
/// Returns [`ScriptFault::Memory`] if memory is refused.
fn buffer<W: Write + Drop>(alloc: Global, writer: W) -> Result<BufWriter<W>, ScriptFault>
    ensures only_memory { IfErr result (λ fault. fault ≡ ScriptFault.Memory) }
{
    BufWriter::new(alloc, writer).map_err(|_| ScriptFault::Memory)
}

/// The exit status of the program: 0, or the status of the fault.
fn exit_status(end: &Result<(), ScriptFault>) -> u8
    ensures success { OnOk end.now (result ≡ 0) }
    ensures fault { IfErr end.now (λ fault. result ≡ status_of fault) }
{
    match end {
        Ok(()) => 0,
        Err(fault) => fault.status(),
    }
}

/// Runs the script on standard input.
fn run(rt: &HostRuntime) -> Result<(), ScriptFault> {
    let mut output = buffer(rt.alloc(), io::writer(rt))?;
    run_buffered(rt.alloc(), &mut rt.reader(), &mut output)
}

fn main(rt: HostRuntime) -> ExitCode {
    let end = run(&rt);
    if let Err(fault) = &end {
        // The status names the fault even if standard error takes no message.
        let _ = eprintln!(rt; "{fault}");
    }
    ExitCode::from(exit_status(&end))
}
