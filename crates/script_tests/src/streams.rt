// SPDX-License-Identifier: Apache-2.0 OR BSD-3-Clause
//! A script calls its streams no more often than it has to, and ends as they fail, over streams that count their calls.
use failing_objects::{FAULTS, Log, Object, Writing, by_std, fault_of, writings};
use std::alloc::Global;
use std::io;
use std::io::Read;
use std::test::Fail;
use superio_script::{ScriptFault, run_script};

/// Gives its bytes, then fails, or ends if it has no fault.
#[derive(Drop)]
struct Input<'a> {
    bytes: &'a [u8],
    fault: Option<io::Error>,
    reads: u64,
}

impl Read for Input<'_> {
    fn read(&mut self, buf: &mut [u8]) -> io::Result<usize> {
        self.reads = self.reads.saturating_add(1);
        match self.fault {
            Some(fault) if self.bytes.is_empty() => Err(fault),
            _ => self.bytes.read(buf),
        }
    }
}

/// How a script ends, and how often it calls `read`, `write` and `flush`.
type Run = (Result<(), ScriptFault>, [u64; 3]);

/// Runs a script that a reader gives, and then perhaps fails, over a writer that does this.
fn run_over(alloc: Global, bytes: &[u8], fault: Option<io::Error>, writing: Writing) -> Run {
    let log = Log::new();
    log.start(writing);
    let mut reader = Input {
        bytes,
        fault,
        reads: 0,
    };
    let end = run_script(alloc, &mut reader, &mut Object(&log));
    (end, [reader.reads, log.writes.get(), log.flushes.get()])
}

#[test]
fn a_script_calls_its_streams_no_more_than_it_has_to(rt: HostRuntime) -> Result<(), Fail> {
    let too_long = vec![in rt.alloc(); b'\n'; 70_000]?;
    let runs: [(&[u8], Run); 5] = [
        (b"kw 04 fe\nkr 04\n", (Ok(()), [2, 2, 1])),
        (b"", (Ok(()), [1, 0, 1])),
        (b"refuse 0000000000000001\n", (Ok(()), [2, 0, 1])),
        (b"kr 04\nkr 5\n", (Err(ScriptFault::Bad(2)), [2, 1, 0])),
        (&too_long, (Err(ScriptFault::TooLong), [1, 0, 0])),
    ];
    for (bytes, expected) in runs {
        assert_eq!(rt;
            run_over(rt.alloc(), bytes, None, Writing::takes()),
            expected
        );
    }
    Ok(())
}

/// A script writes each reply as std's `write_all` does, and then flushes all.
#[test]
fn a_fault_of_a_stream_is_io(rt: HostRuntime) {
    for number in 0..FAULTS {
        let fault = fault_of(number);
        let unread = run_over(rt.alloc(), b"kr 04\n", Some(fault), Writing::takes());
        assert_eq!(rt; unread, (Err(ScriptFault::Io), [2, 0, 0]));
        for writing in writings(number) {
            let (result, [writes, flushes]) = by_std(writing, &[b"00\n", b"reset\n"], true);
            let end = result.map_err(|_| ScriptFault::Io);
            let run = run_over(rt.alloc(), b"kr 04\nkw 04 fe\n", None, writing);
            assert_eq!(rt; run, (end, [2, writes, flushes]), "{number}");
        }
    }
}
