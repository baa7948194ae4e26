// SPDX-License-Identifier: Apache-2.0 OR BSD-3-Clause
//! Scripts over memory: what they print and how they end, also over streams that fail.
use std::alloc::{AllocError, Global};
use std::io;
use std::io::{ErrorKind, Read, Write};
use std::process::Abort;
use std::test::Fail;
use superio_script::{Board, Counts, Line, LineFault, Output, ScriptFault, drain, run_script};
use vm_superio::serial::Refused;
use vm_superio::{Serial, SerialState};

/// How a run of a script ends.
type End = Result<(), ScriptFault>;

/// What a script shows, the script, what it prints, and how it ends.
type Row<'a> = (&'a str, &'a [u8], &'a [u8], End);

/// Whether a script prints this and ends like this.
fn prints(alloc: Global, script: &[u8], printed: &[u8], end: End) -> bool {
    let mut reader = script;
    let mut writer = Vec::new(alloc);
    let ended = run_script(alloc, &mut reader, &mut writer);
    ended == end && writer.as_slice() == printed
}

/// Runs scripts, and asserts what they print and how they end.
fn check(rt: &impl Abort, alloc: Global, rows: &[Row]) {
    for (shows, script, printed, end) in rows {
        assert!(rt; prints(alloc, script, printed, *end), "{shows}");
    }
}

/// These pieces in order, each as often as it says.
fn joined(alloc: Global, pieces: &[(&[u8], usize)]) -> Result<Vec<u8>, AllocError> {
    let mut bytes = Vec::new(alloc);
    for (piece, times) in pieces {
        for _ in 0..*times {
            bytes.extend_from_slice(piece)?;
        }
    }
    Ok(bytes)
}

// ---- lines of the devices

#[test]
fn the_controller_reads_0_and_resets_at_one_command(rt: HostRuntime) {
    static ROWS: [Row; 5] = [
        (
            "digits of either case",
            b"kr 0A\nkr ff\n",
            b"00\n00\n",
            Ok(()),
        ),
        ("a last line without LF", b"kw 04 FE", b"reset\n", Ok(())),
        (
            "reset, another value, a read",
            b"kw 04 fe\nkw 04 ff\nkr 04\n",
            b"reset\nok\n00\n",
            Ok(()),
        ),
        (
            "another offset, and a field that is too short",
            b"kw 04 fe\nkw 05 fe\nsr 5\n",
            b"reset\nok\n",
            Err(ScriptFault::Bad(3)),
        ),
        (
            "a command in upper case",
            b"kw 04 fe\nKW 04 fe\n",
            b"reset\n",
            Err(ScriptFault::Bad(2)),
        ),
    ];
    check(&rt, rt.alloc(), &ROWS);
}

#[test]
fn enqueues_fill_the_fifo_and_then_find_it_full(rt: HostRuntime) -> Result<(), Fail> {
    let sixty_five = joined(
        rt.alloc(),
        &[
            (b"sq ", 1),
            (b"01", 65),
            (b"\nsq\nsq 01\nsr 00\nsq 0101\nsc\n", 1),
        ],
    )?;
    let most = joined(rt.alloc(), &[(b"sr 00\nsq ", 1), (b"01", 128), (b"\n", 1)])?;
    let too_many = joined(rt.alloc(), &[(b"sq ", 1), (b"01", 129), (b"\n", 1)])?;
    let rows: [Row; 4] = [
        (
            "65 bytes, then none, one, a read and two",
            &sixty_five,
            b"40\n00\nfull\n01\n01\n00\n",
            Ok(()),
        ),
        ("128 bytes", &most, b"00\n40\n", Ok(())),
        ("129 bytes", &too_many, b"", Err(ScriptFault::Bad(1))),
        ("two fields", b"sq 61 62\n", b"", Err(ScriptFault::Bad(1))),
    ];
    check(&rt, rt.alloc(), &rows);
    Ok(())
}

#[test]
fn a_restored_port_goes_on_and_a_refusal_leaves_the_old_one(rt: HostRuntime) {
    static ROWS: [Row; 2] = [
        (
            "a restore of a pending condition calls the line again",
            b"sw 01 01\nsq 616263\nss\nst\nsr 02\nsr 00\nsc\n",
            b"ok\n03\nok\n0000000000000002\nc4\n61\n3e\n",
            Ok(()),
        ),
        (
            "a refused restore leaves the line's count",
            b"refuse 0000000000000002\nsw 01 01\nsq 61\nss\nst\nsr 02\nss\nst\n",
            b"ok\n01\ntrigger\n0000000000000001\nc4\nok\n0000000000000001\n",
            Ok(()),
        ),
    ];
    check(&rt, rt.alloc(), &ROWS);
}

#[test]
fn refuse_is_a_first_line_alone_and_masks_the_port_alone(rt: HostRuntime) {
    static ROWS: [Row; 4] = [
        (
            "a later refuse",
            b"sr 02\nrefuse 0000000000000001\n",
            b"c1\n",
            Err(ScriptFault::Bad(2)),
        ),
        (
            "a refused call, and a reset",
            b"refuse 0000000000000001\nsw 01 02\nsr 02\nkw 04 fe\nst\n",
            b"trigger\nc2\nreset\n0000000000000001\n",
            Ok(()),
        ),
        (
            "a second refuse",
            b"refuse 0000000000000001\nrefuse 0000000000000001\n",
            b"",
            Err(ScriptFault::Bad(2)),
        ),
        ("no further line", b"refuse 0000000000000001\n", b"", Ok(())),
    ];
    check(&rt, rt.alloc(), &ROWS);
}

#[test]
fn the_output_takes_256_bytes(rt: HostRuntime) -> Result<(), Fail> {
    let alloc = rt.alloc();
    let script = joined(alloc, &[(b"sw 00 41\n", 257), (b"so\n", 1)])?;
    let printed = joined(
        alloc,
        &[(b"ok\n", 256), (b"io\n", 1), (b"41", 256), (b"\n", 1)],
    )?;
    check(
        &rt,
        rt.alloc(),
        &[("257 writes", &script, &printed, Ok(()))],
    );
    Ok(())
}

#[test]
fn events_are_counted_a_field_each(rt: HostRuntime) {
    let rows: [Row; 1] = [(
        "a read without a byte, and a write",
        b"sr 00\nsw 00 41\nse\n",
        b"00\nok\n0000000000000001 0000000000000001 0000000000000000 0000000000000001\n",
        Ok(()),
    )];
    check(&rt, rt.alloc(), &rows);
}

#[test]
fn the_clock_is_reached_with_a_moment(rt: HostRuntime) {
    static ROWS: [Row; 3] = [
        (
            "a load, and a read seven seconds later",
            b"cw 00000000000003e8 0008 00000064\ncr 00000000000003ef 0000\n",
            b"ok\n0000006b\n",
            Ok(()),
        ),
        (
            "a value that does not reset, the mask, an invalid write, the host's time",
            b"cw 00000000000003e8 000c 00000002\ncw 00000000000003e8 0010 00000003\n\
            cr 00000000000003e8 0010\ncw 00000000000003e8 0014 00000000\n\
            cr 00000000000003e8 0000\n",
            b"ok\nok\n00000001\ninvalid\n000003e8\n",
            Ok(()),
        ),
        (
            "an alarm",
            b"cw 0000000000000064 0004 00000069\ncr 0000000000000068 0014\n\
            cr 0000000000000069 0014\n",
            b"ok\n00000000\n00000001\n",
            Ok(()),
        ),
    ];
    check(&rt, rt.alloc(), &ROWS);
}

#[test]
fn a_driver_takes_all_bytes_unless_the_latch_hides_them(rt: HostRuntime) -> Result<(), Fail> {
    let alloc = rt.alloc();
    let full = joined(alloc, &[(b"sq ", 1), (b"41", 64), (b"\nsd\nsc\n", 1)])?;
    let taken = joined(alloc, &[(b"40\n", 1), (b"41", 64), (b"\n40\n", 1)])?;
    let rows: [Row; 3] = [
        (
            "three bytes, and then none",
            b"sw 01 01\nsq 616263\nsd\nsd\nse\nsr 02\n",
            b"ok\n03\n616263\n\n\
            0000000000000003 0000000000000000 0000000000000000 0000000000000001\nc1\n",
            Ok(()),
        ),
        (
            "DLAB set, and clear again",
            b"sq 61\nsw 03 80\nsd\nsw 03 03\nsd\n",
            b"01\nok\n\nok\n61\n",
            Ok(()),
        ),
        ("64 bytes", &full, &taken, Ok(())),
    ];
    check(&rt, rt.alloc(), &rows);
    Ok(())
}

/// Whether a driver takes these bytes of a port of this LSR that holds those, and leaves it with this room.
fn drives(alloc: Global, lsr: u8, held: &[u8], taken: &[u8], room: usize) -> Result<bool, Fail> {
    let mut state = SerialState::default(alloc);
    state.line_status = lsr;
    state.in_buffer = held.to_vec(alloc)?;
    let made = Serial::from_state(alloc, &state, Line::new(0), Counts::new(), Output::new());
    let mut serial = made.map_err(Refused::into_error)?;
    let is_taken = drain(&mut serial).as_slice() == taken;
    Ok(is_taken && serial.read(5) == 0x60 && serial.fifo_capacity() == room)
}

#[test]
fn a_driver_trusts_the_line_status(rt: HostRuntime) -> Result<(), Fail> {
    let alloc = rt.alloc();
    assert!(rt; drives(alloc, 0x61, b"", b"\x00", 64)?);
    assert!(rt; drives(alloc, 0x60, b"a", b"", 63)?);
    Ok(())
}

// ---- sizes

#[test]
fn a_script_has_at_most_65536_bytes(rt: HostRuntime) -> Result<(), Fail> {
    let alloc = rt.alloc();
    let reads = joined(alloc, &[(b"kr 04\n", 10_922)])?;
    let zeros = joined(alloc, &[(b"00\n", 10_922)])?;
    let one_more = joined(alloc, &[(b"kr 04\n", 10_922), (b"kr 04", 1)])?;
    let enqueues = joined(alloc, &[(b"sq 6162\n", 8_192)])?;
    let counts = joined(alloc, &[(b"02\n", 32), (b"full\n", 8_160)])?;
    let too_long = joined(alloc, &[(b"sq 6162\n", 8_192), (b"s", 1)])?;
    let rows: [Row; 4] = [
        ("65,532 bytes", &reads, &zeros, Ok(())),
        ("65,537 bytes", &one_more, b"", Err(ScriptFault::TooLong)),
        ("65,536 bytes", &enqueues, &counts, Ok(())),
        ("a byte more", &too_long, b"", Err(ScriptFault::TooLong)),
    ];
    check(&rt, rt.alloc(), &rows);
    Ok(())
}

#[test]
fn an_empty_script_is_good_and_an_empty_line_is_bad(rt: HostRuntime) {
    static ROWS: [Row; 3] = [
        ("no byte", b"", b"", Ok(())),
        ("one LF", b"\n", b"", Err(ScriptFault::Bad(1))),
        ("two LF", b"kr 04\n\n", b"00\n", Err(ScriptFault::Bad(2))),
    ];
    check(&rt, rt.alloc(), &ROWS);
}

#[test]
fn a_script_that_is_cut_anywhere_runs_up_to_the_cut(rt: HostRuntime) {
    let script = b"sw 01 01\nsq 616263\nss\nst\nsr 02\nsr 00\nsc\n".as_slice();
    // The first and the last length that print this and end like this.
    let rows: [(usize, usize, &[u8], End); 11] = [
        (0, 0, b"", Ok(())),
        (1, 7, b"", Err(ScriptFault::Bad(1))),
        (8, 9, b"ok\n", Ok(())),
        (10, 10, b"ok\n", Err(ScriptFault::Bad(2))),
        (11, 11, b"ok\n00\n", Ok(())),
        (12, 13, b"ok\n", Err(ScriptFault::Bad(2))),
        (14, 14, b"ok\n01\n", Ok(())),
        (15, 15, b"ok\n", Err(ScriptFault::Bad(2))),
        (16, 16, b"ok\n02\n", Ok(())),
        (17, 17, b"ok\n", Err(ScriptFault::Bad(2))),
        (18, 19, b"ok\n03\n", Ok(())),
    ];
    for (first, last, printed, end) in rows {
        for length in first..=last {
            let part = &script[..length.min(script.len())];
            check(&rt, rt.alloc(), &[("a part", part, printed, end)]);
        }
    }
}

// ---- lines that have no form

static FORMLESS: [&[u8]; 23] = [
    b"",
    b"kr 04\r",
    b"kr 0\xFF",
    b"\xFF",
    b"kr 5",
    b"kr 005",
    b"kr  05",
    b" kr 05",
    b"kr 05 ",
    b"kr\t05",
    b"kr 0x",
    b"kr",
    b"kr 04 00",
    b"kw 04",
    b"KR 04",
    b"sq 6",
    b"sq ",
    b"sc 00",
    b"cr 00000000000003e8 000",
    b"cr 000000000003e8 0000",
    b"cw 00000000000003e8 0008 000064",
    b"sx",
    // Only a first line may have this syntax.
    b"refuse 0000000000000001",
];

/// The first of these lines that a board does not find bad.
fn first_good<'a>(alloc: Global, board: &mut Board, lines: &[&'a [u8]]) -> Option<&'a [u8]> {
    for line in lines {
        if board.line(alloc, line).err() != Some(LineFault::Bad) {
            return Some(*line);
        }
    }
    None
}

/// Whether a board goes on as before those lines, which it finds bad.
fn is_unchanged(alloc: Global, board: &mut Board) -> bool {
    replies(alloc, board, b"sq 61", b"01\n")
        && first_good(alloc, board, &FORMLESS).is_none()
        && replies(alloc, board, b"sc", b"3f\n")
        && replies(alloc, board, b"st", b"0000000000000000\n")
}

/// Whether a board gives this reply.
fn replies(alloc: Global, board: &mut Board, line: &[u8], reply: &[u8]) -> bool {
    match board.line(alloc, line) {
        Ok(found) => found.as_slice() == reply,
        Err(_) => false,
    }
}

#[test]
fn a_line_without_a_form_is_bad_and_changes_nothing(rt: HostRuntime) -> Result<(), Fail> {
    static ROWS: [Row; 2] = [
        ("CR", b"kr 04\r\n", b"", Err(ScriptFault::Bad(1))),
        ("a short field", b"kr 5\n", b"", Err(ScriptFault::Bad(1))),
    ];
    let alloc = rt.alloc();
    let mut board = Board::new(alloc, 0)?;
    assert!(rt; is_unchanged(alloc, &mut board));
    check(&rt, alloc, &ROWS);
    Ok(())
}

/// A script has no lines for saved states and character timeouts.
#[test]
fn lines_beyond_the_format_are_bad(rt: HostRuntime) {
    static ROWS: [Row; 5] = [
        ("a timeout", b"si\n", b"", Err(ScriptFault::Bad(1))),
        ("a saved port", b"sb\n", b"", Err(ScriptFault::Bad(1))),
        ("a saved clock", b"cb\n", b"", Err(ScriptFault::Bad(1))),
        ("a port to load", b"sl 00\n", b"", Err(ScriptFault::Bad(1))),
        (
            "a clock to load",
            b"kr 04\ncl 00\n",
            b"00\n",
            Err(ScriptFault::Bad(2)),
        ),
    ];
    check(&rt, rt.alloc(), &ROWS);
}

/// The length of the reply to `so` once the output is full.
fn length_of_output(board: &mut Board, alloc: Global) -> Option<usize> {
    for _ in 0..256u16 {
        board.line(alloc, b"sw 00 41").ok()?;
    }
    let reply = board.line(alloc, b"so").ok()?;
    Some(reply.len())
}

#[test]
fn the_longest_reply_has_513_bytes(rt: HostRuntime) -> Result<(), Fail> {
    let alloc = rt.alloc();
    assert!(rt; length_of_output(&mut Board::new(alloc, 0)?, alloc) == Some(513));
    Ok(())
}

#[test]
fn faults_have_a_status_and_a_text(rt: HostRuntime) -> Result<(), Fail> {
    for (fault, status, text) in [
        (ScriptFault::Bad(2), 1, "bad line 2"),
        (ScriptFault::Bad(65_536), 1, "bad line 65536"),
        (ScriptFault::Io, 2, "input or output fault"),
        (ScriptFault::Memory, 3, "out of memory"),
        (ScriptFault::TooLong, 4, "script too long"),
    ] {
        assert!(rt; fault.status() == status);
        assert!(rt; format!(in rt.alloc(); "{fault}")?.as_str() == text);
    }
    Ok(())
}

// ---- streams

/// Gives a script, at most four bytes a read. Its read of this number, from 1, fails with a fault of this kind, or
/// gives no byte.
#[derive(Drop)]
struct Reader<'a> {
    rest: &'a [u8],
    reads: u64,
    stops_at: u64,
    fault: Option<ErrorKind>,
}

impl Read for Reader<'_> {
    fn read(&mut self, buf: &mut [u8]) -> io::Result<usize> {
        self.reads = self.reads.wrapping_add(1);
        if self.reads != self.stops_at {
            let most = buf.len().min(4);
            return self.rest.read(&mut buf[..most]);
        }
        match self.fault {
            Some(kind) => Err(io::Error::from(kind)),
            None => Ok(0),
        }
    }
}

/// Keeps what is written. Its call of this number, from 1, fails.
#[derive(Drop)]
struct Writer {
    bytes: Vec<u8>,
    calls: u64,
    flushes: u64,
    fails_at: u64,
}

impl Writer {
    fn new(alloc: Global, fails_at: u64) -> Writer {
        Writer {
            bytes: Vec::new(alloc),
            calls: 0,
            flushes: 0,
            fails_at,
        }
    }

    /// Counts a call.
    fn call(&mut self) -> io::Result<()> {
        self.calls = self.calls.wrapping_add(1);
        if self.calls == self.fails_at {
            Err(io::Error::from(ErrorKind::Other))
        } else {
            Ok(())
        }
    }
}

impl Write for Writer {
    fn write(&mut self, buf: &[u8]) -> io::Result<usize> {
        self.call()?;
        self.bytes.write(buf)
    }

    fn flush(&mut self) -> io::Result<()> {
        self.flushes = self.flushes.wrapping_add(1);
        self.call()
    }
}

/// Three lines of 21 bytes. Six reads give them, and a seventh gives none.
const LINES: &[u8] = b"kw 04 fe\nkr 04\nsr 00\n";

/// Runs these lines over a reader that stops like this. Returns how the run ends, what it prints and the calls of both
/// streams.
fn read_up_to(alloc: Global, stops_at: u64, fault: Option<ErrorKind>) -> (End, Vec<u8>, [u64; 2]) {
    let mut reader = Reader {
        rest: LINES,
        reads: 0,
        stops_at,
        fault,
    };
    let mut writer = Writer::new(alloc, 0);
    let end = run_script(alloc, &mut reader, &mut writer);
    (end, writer.bytes, [reader.reads, writer.calls])
}

#[test]
fn a_failed_read_of_any_kind_ends_a_script_unwritten(rt: HostRuntime) {
    for kind in [ErrorKind::Other, ErrorKind::Interrupted] {
        for number in 1..=7u64 {
            let (end, printed, calls) = read_up_to(rt.alloc(), number, Some(kind));
            assert!(rt; end == Err(ScriptFault::Io), "{number}: {end:?}");
            assert!(rt;
                printed.is_empty() && calls == [number, 0],
                "{number}: {calls:?}"
            );
        }
        let (end, _, calls) = read_up_to(rt.alloc(), 8, Some(kind));
        assert!(rt; end == Ok(()) && calls == [7, 4]);
    }
}

#[test]
fn a_read_of_no_byte_ends_the_script(rt: HostRuntime) {
    let parts: [(&[u8], End); 7] = [
        (b"", Ok(())),
        (b"", Err(ScriptFault::Bad(1))),
        (b"reset\n", Ok(())),
        (b"reset\n", Err(ScriptFault::Bad(2))),
        (b"reset\n00\n", Err(ScriptFault::Bad(3))),
        (b"reset\n00\n00\n", Ok(())),
        (b"reset\n00\n00\n", Ok(())),
    ];
    let mut number = 0u64;
    for (expected, ends) in parts {
        number = number.wrapping_add(1);
        let (end, printed, calls) = read_up_to(rt.alloc(), number, None);
        assert!(rt; end == ends, "{number}: {end:?}");
        assert!(rt; printed.as_slice() == expected, "{number}: {printed:?}");
        assert!(rt; calls[0] == number);
    }
}

#[test]
fn a_failed_write_or_flush_ends_a_script(rt: HostRuntime) {
    for number in 1..=5u64 {
        let mut reader = LINES;
        let mut writer = Writer::new(rt.alloc(), number);
        let end = run_script(rt.alloc(), &mut reader, &mut writer);
        // Three replies are written, and then all is flushed.
        let expected = if number < 5 {
            Err(ScriptFault::Io)
        } else {
            Ok(())
        };
        assert!(rt; end == expected, "{number}: {end:?}");
        if number == 5 {
            assert!(rt; writer.bytes.as_slice() == b"reset\n00\n00\n".as_slice());
            assert!(rt; writer.flushes == 1);
        }
    }
}

#[test]
fn a_bad_line_ends_a_script_without_a_flush(rt: HostRuntime) {
    let mut reader = b"kr 04\nkr 5\n".as_slice();
    let mut writer = Writer::new(rt.alloc(), 0);
    let end = run_script(rt.alloc(), &mut reader, &mut writer);
    assert!(rt; end == Err(ScriptFault::Bad(2)));
    assert!(rt; writer.bytes.as_slice() == b"00\n".as_slice() && writer.flushes == 0);
}

/// Takes bytes only by a `write_all` of its own.
#[derive(Drop)]
struct Whole {
    bytes: Vec<u8>,
    calls: u64,
}

impl Write for Whole {
    fn write(&mut self, _buf: &[u8]) -> io::Result<usize> {
        Err(io::Error::from(ErrorKind::Other))
    }

    fn write_all(&mut self, buf: &[u8]) -> io::Result<()> {
        self.calls = self.calls.wrapping_add(1);
        self.bytes.write_all(buf)
    }

    fn flush(&mut self) -> io::Result<()> {
        Ok(())
    }
}

#[test]
fn each_reply_is_one_call_of_the_writers_own_write_all(rt: HostRuntime) {
    let mut reader = LINES;
    let mut writer = Whole {
        bytes: Vec::new(rt.alloc()),
        calls: 0,
    };
    let end = run_script(rt.alloc(), &mut reader, &mut writer);
    assert!(rt; end == Ok(()));
    assert!(rt; writer.bytes.as_slice() == b"reset\n00\n00\n".as_slice() && writer.calls == 3);
}
