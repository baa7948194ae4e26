// SPDX-License-Identifier: Apache-2.0 OR BSD-3-Clause
//! What is left if memory is refused to a board or to a script, and that a driver takes none.
//! `tests/devices/test_refused_memory.py` runs each of these tests without its first allocation, without its second, and
//! so on, until a run has them all. Each run goes without at most one allocation, so a call that was refused memory has
//! to succeed when it is made again.
use std::alloc::Global;
use std::test::Fail;
use superio_script::{
    Board, Counts, Line, LineFault, LineRefused, Output, ScriptFault, drain, run_script,
};
use vm_superio::Serial;
use vm_superio::serial::{Error, Refused};

/// Whether these lines have these replies.
fn replies(alloc: Global, board: &mut Board, lines: &[(&[u8], &[u8])]) -> bool {
    for (line, reply) in lines {
        match board.line(alloc, line) {
            Ok(found) if found.as_slice() == *reply => {}
            _ => return false,
        }
    }
    true
}

#[test]
fn a_board_is_made_and_restores_its_port_or_stays(rt: HostRuntime) -> Result<(), Fail> {
    let alloc = rt.alloc();
    let mut board = match Board::new(alloc, 0) {
        Ok(board) => board,
        Err(fault) => {
            assert!(rt; fault == ScriptFault::Memory);
            Board::new(alloc, 0)?
        }
    };
    assert!(rt;
        replies(
            alloc,
            &mut board,
            &[
                (b"sw 01 03", b"ok\n"),
                (b"sq 61", b"01\n"),
                (b"sw 00 42", b"ok\n"),
            ]
        )
    );
    if let Err(fault) = board.line(alloc, b"ss") {
        assert!(rt; fault == LineFault::Memory);
        assert!(rt;
            replies(
                alloc,
                &mut board,
                &[
                    (b"st", b"0000000000000002\n"),
                    (b"so", b"42\n"),
                    (b"sc", b"3f\n"),
                    (b"ss", b"ok\n"),
                ]
            )
        );
    }
    assert!(rt;
        replies(
            alloc,
            &mut board,
            &[
                (b"st", b"0000000000000004\n"),
                (b"so", b"42\n"),
                (b"sr 02", b"c6\n"),
                (b"sr 00", b"61\n"),
            ]
        )
    );
    Ok(())
}

/// Runs a script over an output, which takes no memory.
fn run_over(alloc: Global, script: &[u8]) -> (Result<(), ScriptFault>, Output) {
    let mut reader = script;
    let mut writer = Output::new();
    let end = run_script(alloc, &mut reader, &mut writer);
    (end, writer)
}

#[test]
fn a_script_prints_the_replies_before_its_restore_or_nothing(rt: HostRuntime) {
    let script = b"sw 01 01\nsq 616263\nss\nst\nsr 02\nsr 00\nsc\n";
    let (mut end, mut printed) = run_over(rt.alloc(), script);
    if end == Err(ScriptFault::Memory) {
        assert!(rt; printed.bytes().is_empty() || printed.bytes() == b"ok\n03\n".as_slice());
        (end, printed) = run_over(rt.alloc(), script);
    }
    assert!(rt; end == Ok(()));
    assert!(rt; printed.bytes() == b"ok\n03\nok\n0000000000000002\nc4\n61\n3e\n".as_slice());
}

/// A new port, which is made again if memory was refused.
fn port(alloc: Global) -> Result<Serial<Line, Counts, Output>, Error<LineRefused>> {
    match Serial::with_events(alloc, Line::new(0), Counts::new(), Output::new()) {
        Ok(serial) => Ok(serial),
        Err(_) => Serial::with_events(alloc, Line::new(0), Counts::new(), Output::new()).map_err(
            Refused::into_error,
        ),
    }
}

#[test]
fn a_driver_takes_no_memory(rt: HostRuntime) -> Result<(), Fail> {
    let mut serial = port(rt.alloc())?;
    assert!(rt; serial.enqueue_raw_bytes(&[b'b'; 100]).ok() == Some(64));
    assert!(rt; drain(&mut serial).len() == 64);
    Ok(())
}
