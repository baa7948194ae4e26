// SPDX-License-Identifier: Apache-2.0 OR BSD-3-Clause
//! The clock by accesses of the guest and their moments: guest time, the registers, invalid offsets, saved states and
//! the alarm. A test that vm-superio has too gives its name there. At the end stand its calls and its state, as a
//! program uses them, so that a change of a signature is a compile error.
use crate::clock::Access::{Read, Write};
use crate::serial_calls::is_compared_and_printed;
use board_objects::Counts;
use std::alloc::Global;
use std::process::Abort;
use vm_superio::rtc_pl031::{NoEvents, RtcEvents};
use vm_superio::{Rtc, RtcState};

// The offsets of the registers.
const RTCDR: u16 = 0x000;

const RTCMR: u16 = 0x004;

const RTCLR: u16 = 0x008;

const RTCCR: u16 = 0x00C;

const RTCIMSC: u16 = 0x010;

const RTCRIS: u16 = 0x014;

const RTCMIS: u16 = 0x018;

const RTCICR: u16 = 0x01C;
/// The first and the last identification register.
const IDS: [u16; 2] = [0xFE0, 0xFFF];

/// An access of the guest: its moment, its offset, and the value that it writes or has to read.
#[derive(Clone, Copy)]
enum Access {
    Write(u64, u16, u32),
    Read(u64, u16, u32),
}

/// What a read leaves in the bytes of `value`.
fn read_into<EV: RtcEvents>(clock: &mut Rtc<EV>, now: u64, offset: u16, value: u32) -> u32 {
    let mut bytes = value.to_le_bytes();
    clock.read(offset, &mut bytes, now);
    u32::from_le_bytes(bytes)
}

/// Makes these accesses, and asserts what the reads give.
fn make<EV: RtcEvents>(rt: &impl Abort, clock: &mut Rtc<EV>, accesses: &[Access]) {
    for access in accesses {
        match *access {
            Write(now, offset, value) => clock.write(offset, &value.to_le_bytes(), now),
            Read(now, offset, expected) => {
                let value = read_into(clock, now, offset, 0xDEAD_BEEF);
                assert!(rt; value == expected, "{value} at {offset:#x}, {now}");
            }
        }
    }
}

/// A fresh clock that counts its events.
fn fresh() -> Rtc<Counts> {
    Rtc::with_events(Counts::new())
}

/// A clock that counts its events, with this interrupt mask and raw interrupt status.
fn interrupted(imsc: u32, ris: u32) -> Rtc<Counts> {
    Rtc::from_state(&RtcState::from_five(0, 0, 0, imsc, ris), Counts::new())
}

/// Whether `reads` reads and `writes` writes were invalid.
fn reports(clock: &Rtc<Counts>, reads: u64, writes: u64) -> bool {
    let counts = clock.events();
    counts.invalid_read_count() == reads && counts.invalid_write_count() == writes
}

// ---- guest time

/// `test_regression_year_1970`
#[test]
fn a_fresh_clock_shows_the_hosts_time(rt: HostRuntime) {
    let mut clock = Rtc::new();
    for now in [0, 1, 1_000, 65_536, 1_700_000_000, 4_294_967_295u32] {
        make(&rt, &mut clock, &[Read(u64::from(now), RTCDR, now)]);
    }
}

/// `test_data_register`
#[test]
fn the_data_register_follows_the_host_and_takes_no_write(rt: HostRuntime) {
    let mut clock = fresh();
    assert!(rt; reports(&clock, 0, 0));
    make(
        &rt,
        &mut clock,
        &[
            Read(1_000, RTCDR, 1_000),
            Read(1_002, RTCDR, 1_002),
            Write(1_000, RTCDR, 0),
        ],
    );
    assert!(rt; reports(&clock, 0, 1));
    make(&rt, &mut clock, &[Read(1_004, RTCDR, 1_004)]);
    assert!(rt; reports(&clock, 0, 1));
}

#[test]
fn guest_time_runs_on_from_the_loaded_value(rt: HostRuntime) {
    make(
        &rt,
        &mut fresh(),
        &[Write(1_000, RTCLR, 100), Read(1_007, RTCDR, 107)],
    );
}

/// `test_load_register`
#[test]
fn a_load_sets_guest_time_forward_and_back(rt: HostRuntime) {
    let mut clock: Rtc<NoEvents> = Default::default();
    make(&rt, &mut clock, &[Read(1_000, RTCDR, 1_000)]);
    for value in [1_100, 900, 4_294_967_295, 0u32] {
        make(
            &rt,
            &mut clock,
            &[
                Write(1_000, RTCLR, value),
                Read(1_000, RTCLR, value),
                Read(1_000, RTCDR, value),
            ],
        );
    }
}

/// `test_rtc_value_overflow`
#[test]
fn past_its_last_second_guest_time_is_the_hosts(rt: HostRuntime) {
    make(
        &rt,
        &mut fresh(),
        &[
            Write(1_000, RTCLR, 4_294_967_295),
            Read(1_000, RTCDR, 4_294_967_295),
            Read(1_001, RTCDR, 1_001),
            Read(1_001, RTCLR, 4_294_967_295),
        ],
    );
}

#[test]
fn before_its_first_second_guest_time_is_the_hosts(rt: HostRuntime) {
    make(
        &rt,
        &mut fresh(),
        &[
            Write(1_000, RTCLR, 5),
            Read(996, RTCDR, 1),
            Read(995, RTCDR, 0),
            Read(994, RTCDR, 994),
        ],
    );
}

/// `test_overflow_offset`
#[test]
fn an_offset_of_any_size_overflows_nothing(rt: HostRuntime) {
    let state = RtcState::from_five(65_535, 9_223_372_036_854_710_636, 0, 0, 0);
    make(
        &rt,
        &mut Rtc::from_state(&state, NoEvents),
        &[
            // The sum is 2^63.
            Read(65_172, RTCDR, 65_172),
            Read(4_294_967_301, RTCDR, 5),
        ],
    );
}

#[test]
fn the_low_32_bits_of_a_moment_count(rt: HostRuntime) {
    let mut clock = fresh();
    make(
        &rt,
        &mut clock,
        &[Write(4_294_967_297, RTCLR, 5), Read(3, RTCDR, 7)],
    );
    assert!(rt; clock.state().offset == 4);
}

// ---- registers

#[test]
fn a_reset_ends_the_loaded_time_and_only_1_resets(rt: HostRuntime) {
    let mut clock = fresh();
    make(
        &rt,
        &mut clock,
        &[
            Write(1_000, RTCLR, 100),
            Write(1_001, RTCCR, 2),
            Read(1_007, RTCDR, 107),
            Write(1_008, RTCCR, 1),
            Read(1_009, RTCDR, 1_009),
            Read(1_009, RTCLR, 0),
            Read(1_009, RTCCR, 1),
        ],
    );
    assert!(rt; reports(&clock, 0, 0));
}

/// `test_control_register`
#[test]
fn a_write_of_0_leaves_the_clock_enabled(rt: HostRuntime) {
    make(
        &rt,
        &mut fresh(),
        &[
            Write(1_000, RTCLR, 1_100),
            Write(1_000, RTCCR, 1),
            Read(1_000, RTCDR, 1_000),
            Write(1_000, RTCCR, 0),
            Read(1_000, RTCCR, 1),
            Read(1_002, RTCDR, 1_002),
        ],
    );
}

/// `test_match_register`
#[test]
fn the_match_register_reads_what_was_written(rt: HostRuntime) {
    make(
        &rt,
        &mut Rtc::new(),
        &[Write(1_000, RTCMR, 123), Read(1_000, RTCMR, 123)],
    );
}

#[test]
fn the_mask_and_the_clear_register_act_on_their_bits(rt: HostRuntime) {
    make(
        &rt,
        &mut interrupted(1, 1),
        &[
            Read(1_000, RTCRIS, 1),
            Read(1_000, RTCMIS, 1),
            Write(1_000, RTCIMSC, 2),
            Read(1_000, RTCIMSC, 0),
            Read(1_000, RTCMIS, 0),
            Write(1_000, RTCICR, 1),
            Read(1_000, RTCRIS, 0),
        ],
    );
}

/// `test_interrupt_mask_set_clear_register`
#[test]
fn the_mask_hides_the_interrupt_and_keeps_it(rt: HostRuntime) {
    make(
        &rt,
        &mut interrupted(0, 1),
        &[
            Write(1_000, RTCIMSC, 1),
            Read(1_000, RTCIMSC, 1),
            Read(1_000, RTCRIS, 1),
            Read(1_000, RTCMIS, 1),
            Write(1_000, RTCIMSC, 0),
            Read(1_000, RTCIMSC, 0),
            Read(1_000, RTCRIS, 1),
            Read(1_000, RTCMIS, 0),
        ],
    );
}

/// `test_interrupt_clear_register`
/// Fails if this is wrong: vm_superio/src/rtc_pl031.rt Rtc::read_value call 1
#[test]
fn a_clear_ends_the_interrupt_and_its_register_is_not_readable(rt: HostRuntime) {
    let mut clock = interrupted(1, 1);
    make(
        &rt,
        &mut clock,
        &[
            Read(1_000, RTCRIS, 1),
            Read(1_000, RTCMIS, 1),
            Write(1_000, RTCICR, 1),
            Read(1_000, RTCRIS, 0),
            Read(1_000, RTCMIS, 0),
        ],
    );
    assert!(rt; reports(&clock, 0, 0));
    assert!(rt; read_into(&mut clock, 1_000, RTCICR, 123) == 123);
    assert!(rt; reports(&clock, 1, 0));
}

/// `test_raw_interrupt_status_register`
#[test]
fn the_raw_interrupt_takes_no_write(rt: HostRuntime) {
    make(
        &rt,
        &mut interrupted(0, 1),
        &[
            Read(1_000, RTCRIS, 1),
            Write(1_000, RTCRIS, 0),
            Read(1_000, RTCRIS, 1),
        ],
    );
}

/// `test_mask_interrupt_status_register`
#[test]
fn the_masked_interrupt_takes_no_write(rt: HostRuntime) {
    make(
        &rt,
        &mut interrupted(0, 1),
        &[
            Read(1_000, RTCIMSC, 0),
            Read(1_000, RTCMIS, 0),
            Write(1_000, RTCIMSC, 1),
            Read(1_000, RTCMIS, 1),
            Write(1_000, RTCMIS, 0),
            Read(1_000, RTCMIS, 1),
        ],
    );
}

// ---- identification and invalid offsets

/// `test_read_only_register_addresses`
#[test]
fn the_identification_is_four_offsets_a_byte_and_takes_no_write(rt: HostRuntime) {
    let mut clock = fresh();
    make(
        &rt,
        &mut clock,
        &[
            Read(1_000, IDS[0], 0x31),
            Write(1_000, IDS[0], 123),
            Read(1_000, IDS[0], 0x31),
            Read(1_000, 0xFE5, 0x10),
            Read(1_000, IDS[1], 0xB1),
        ],
    );
    assert!(rt; reports(&clock, 0, 1));
    for (index, byte) in [0x31, 0x10, 0x04, 0x00, 0x0D, 0xF0, 0x05, 0xB1u32]
        .iter()
        .enumerate()
    {
        for offset in 0..4u16 {
            let offset = 0xFE0 + 4 * index as u16 + offset;
            make(&rt, &mut clock, &[Read(1_000, offset, *byte)]);
        }
    }
}

#[test]
fn reads_of_no_register_keep_the_bytes_and_are_reported(rt: HostRuntime) {
    let mut clock = fresh();
    assert!(rt; read_into(&mut clock, 1_000, RTCICR, 123) == 123);
    assert!(rt; reports(&clock, 1, 0));
    make(
        &rt,
        &mut clock,
        &[Read(1_000, 0xFE5, 0x10), Read(1_000, 0xFFF, 0xB1)],
    );
    assert!(rt; reports(&clock, 1, 0));
    assert!(rt; read_into(&mut clock, 1_000, 0x1003, 123) == 123);
    assert!(rt; reports(&clock, 2, 0));
}

/// `test_invalid_read_offset`
#[test]
fn a_read_past_the_registers_keeps_any_bytes(rt: HostRuntime) {
    let mut clock = fresh();
    assert!(rt; read_into(&mut clock, 1_000, 0x1003, 123) == 123);
    assert!(rt; reports(&clock, 1, 0));
    assert!(rt; read_into(&mut clock, 1_000, 0x1003, 321) == 321);
    assert!(rt; reports(&clock, 2, 0));
}

/// `test_invalid_write_offset`
#[test]
fn writes_to_no_register_change_nothing_and_are_reported(rt: HostRuntime) {
    let mut clock = fresh();
    make(
        &rt,
        &mut clock,
        &[Read(1_000, RTCDR, 1_000), Write(1_000, 0x1003, 123)],
    );
    assert!(rt; reports(&clock, 0, 1));
    make(
        &rt,
        &mut clock,
        &[Read(1_000, RTCDR, 1_000), Write(1_000, 0x009, 123)],
    );
    assert!(rt; reports(&clock, 0, 2));
    make(&rt, &mut clock, &[Read(1_000, RTCDR, 1_000)]);
    assert!(rt; reports(&clock, 0, 2));
    assert!(rt; clock.state() == RtcState::default());
}

/// Bytes that no read at moment 1,000 of a new clock gives.
const UNREAD: [u8; 4] = [0x7B, 0, 0, 0];

/// Whether a read at this offset either gives the value that `other` reads there, or leaves the bytes and is reported.
fn is_read_or_reported(clock: &mut Rtc<Counts>, other: &mut Rtc<NoEvents>, offset: u16) -> bool {
    let before = clock.events().invalid_read_count();
    let mut bytes = UNREAD;
    clock.read(offset, &mut bytes, 1_000);
    let reported = clock.events().invalid_read_count().wrapping_sub(before);
    match other.read_value(offset, 1_000) {
        Some(value) => bytes == value.to_le_bytes() && bytes != UNREAD && reported == 0,
        None => bytes == UNREAD && reported == 1,
    }
}

/// Whether a write of 2 at this offset is reported if `other` takes no such write, and only then.
fn is_written_or_reported(clock: &mut Rtc<Counts>, other: &mut Rtc<NoEvents>, offset: u16) -> bool {
    let before = clock.events().invalid_write_count();
    clock.write(offset, &[2, 0, 0, 0], 1_000);
    let reported = clock.events().invalid_write_count().wrapping_sub(before);
    reported == u64::from(!other.write_value(offset, 2, 1_000))
}

/// `tests/devices/test_every_access.py` has which offsets are invalid.
#[test]
fn each_offset_is_valid_or_reported(rt: HostRuntime) {
    let (mut clock, mut other) = (fresh(), Rtc::new());
    for offset in 0..=0xFFFFu16 {
        assert!(rt;
            is_read_or_reported(&mut clock, &mut other, offset),
            "{offset:#x}"
        );
    }
    for offset in 0..=0xFFFFu16 {
        assert!(rt;
            is_written_or_reported(&mut clock, &mut other, offset),
            "{offset:#x}"
        );
    }
    assert!(rt; clock.state() == other.state());
}

// ---- states

/// A clock of this state that counts its own events.
fn remade(state: &RtcState) -> Rtc<Counts> {
    Rtc::from_state(state, Counts::new())
}

/// `test_state`
/// Fails if this is wrong: vm_superio/src/rtc_pl031.rt Rtc::write_value call 1
#[test]
fn a_restored_clock_has_the_state_and_its_own_events_object(rt: HostRuntime) {
    let mut clock = fresh();
    make(
        &rt,
        &mut clock,
        &[Read(1_000, RTCDR, 1_000), Write(1_000, RTCLR, 1_100)],
    );
    let state = clock.state();
    make(
        &rt,
        &mut clock,
        &[
            Read(1_000, RTCLR, 1_100),
            Write(1_000, 0x1003, 123),
            Read(1_002, RTCDR, 1_102),
        ],
    );
    let mut restored = remade(&state);
    let is_same = restored.state() == state && state.lr == 1_100 && reports(&restored, 0, 0);
    make(
        &rt,
        &mut restored,
        &[Read(1_000, RTCLR, 1_100), Write(1_000, 0x1003, 123)],
    );
    assert!(rt; is_same && reports(&clock, 0, 1) && reports(&restored, 0, 1));
    let again = Rtc::from_state(&restored.state(), *restored.events());
    assert!(rt; reports(&again, 0, 1));
}

// ---- the alarm

#[test]
fn an_alarm_fires_when_guest_time_reaches_it_and_once(rt: HostRuntime) {
    let mut clock = fresh();
    make(
        &rt,
        &mut clock,
        &[
            Write(100, RTCMR, 105),
            Read(104, RTCRIS, 0),
            Read(105, RTCRIS, 1),
            Read(105, RTCMIS, 0),
            Write(105, RTCIMSC, 1),
            Read(105, RTCMIS, 1),
            Write(106, RTCICR, 1),
            Read(107, RTCRIS, 0),
        ],
    );
    assert!(rt; !clock.state().armed);
}

#[test]
fn an_alarm_for_the_present_fires_at_once(rt: HostRuntime) {
    let mut clock = fresh();
    make(
        &rt,
        &mut clock,
        &[Write(100, RTCMR, 100), Read(100, RTCRIS, 1)],
    );
    assert!(rt; !clock.state().armed);
}

#[test]
fn an_alarm_for_the_past_never_fires(rt: HostRuntime) {
    let mut clock = fresh();
    make(
        &rt,
        &mut clock,
        &[Write(100, RTCMR, 99), Read(200, RTCRIS, 0)],
    );
    assert!(rt; !clock.state().armed);
}

#[test]
fn an_invalid_access_fires_an_alarm(rt: HostRuntime) {
    let mut clock = fresh();
    make(&rt, &mut clock, &[Write(100, RTCMR, 200)]);
    assert!(rt; read_into(&mut clock, 200, 0x021, 123) == 123);
    assert!(rt; reports(&clock, 1, 0));
    make(&rt, &mut clock, &[Read(150, RTCRIS, 1)]);
}

#[test]
fn an_alarm_fires_before_the_access_that_clears_it(rt: HostRuntime) {
    let mut clock = fresh();
    make(
        &rt,
        &mut clock,
        &[
            Write(100, RTCMR, 200),
            Write(200, RTCICR, 1),
            Read(201, RTCRIS, 0),
        ],
    );
    assert!(rt; !clock.state().armed);
}

#[test]
fn a_load_past_the_match_fires_at_the_next_access(rt: HostRuntime) {
    let mut clock = fresh();
    make(
        &rt,
        &mut clock,
        &[Write(100, RTCMR, 200), Write(101, RTCLR, 300)],
    );
    let state = clock.state();
    assert!(rt; state.armed && state.ris == 0);
    make(&rt, &mut clock, &[Read(101, RTCRIS, 1)]);
}

#[test]
fn a_new_alarm_is_set_after_the_old_one_fired(rt: HostRuntime) {
    let mut clock = fresh();
    make(
        &rt,
        &mut clock,
        &[Write(100, RTCMR, 200), Write(250, RTCMR, 300)],
    );
    let state = clock.state();
    assert!(rt; state.armed && state.ris == 1);
}

#[test]
fn a_state_of_five_fields_has_no_alarm(rt: HostRuntime) {
    let mut state = RtcState::from_five(0, 0, 105, 1, 0);
    let mut clock = Rtc::from_state(&state, Counts::new());
    assert!(rt; clock.state() == state && !state.armed);
    make(&rt, &mut clock, &[Read(200, RTCRIS, 0)]);
    state.armed = true;
    let mut armed = Rtc::from_state(&state, Counts::new());
    assert!(rt; armed.state() == state);
    make(&rt, &mut armed, &[Read(200, RTCRIS, 1)]);
}

#[test]
fn an_alarm_compares_guest_time_also_past_its_last_second(rt: HostRuntime) {
    make(
        &rt,
        &mut fresh(),
        &[
            Write(1_000, RTCLR, 4_294_967_295),
            Write(1_001, RTCMR, 1_001),
            Read(1_001, RTCRIS, 1),
        ],
    );
}

#[test]
fn a_value_is_read_and_written_like_its_bytes(rt: HostRuntime) {
    let mut clock = Rtc::with_events(Counts::new());
    assert!(rt; clock.write_value(0x008, 1_000, 5));
    assert!(rt; clock.read_value(0x000, 7) == Some(1_002));
    assert!(rt; !clock.write_value(0x000, 1, 7));
    assert!(rt; clock.read_value(0x01C, 7).is_none());
    assert!(rt; reports(&clock, 1, 1));
}

#[test]
fn five_fields_are_those_of_a_state_without_an_alarm(rt: HostRuntime) {
    let state = RtcState::from_five(1, -2, 3, 1, 0);
    assert!(rt; state.to_five() == Some((1, -2, 3, 1, 0)));
    let state = RtcState {
        armed: true,
        ..state
    };
    assert!(rt; state.to_five().is_none());
}

// ---- its calls, with their signatures

fn clock_with_events<EV: RtcEvents>(rtc_events: EV) -> Rtc<EV> {
    Rtc::with_events(rtc_events)
}

fn clock_from_state<EV: RtcEvents>(state: &RtcState, rtc_events: EV) -> Rtc<EV> {
    Rtc::from_state(state, rtc_events)
}

fn state_and_events<EV: RtcEvents>(clock: &Rtc<EV>) -> (RtcState, &EV) {
    (clock.state(), clock.events())
}

fn write_clock<EV: RtcEvents>(clock: &mut Rtc<EV>, offset: u16, bytes: &[u8; 4], now: u64) {
    clock.write(offset, bytes, now)
}

fn read_clock<EV: RtcEvents>(clock: &mut Rtc<EV>, offset: u16, bytes: &mut [u8; 4], now: u64) {
    clock.read(offset, bytes, now)
}

#[test]
fn a_clock_is_made_used_and_remade(rt: HostRuntime) {
    let made: Rtc<NoEvents> = Rtc::new();
    let default: Rtc<NoEvents> = Rtc::default();
    assert!(rt; made.state() == default.state());
    let mut first = clock_with_events(Counts::new());
    write_clock(&mut first, 0x004, &[1, 2, 3, 4], 0);
    let (state, events) = state_and_events(&first);
    let mut second = clock_from_state(&state, *events);
    let mut bytes = [0; 4];
    read_clock(&mut second, 0x004, &mut bytes, 0);
    assert!(rt; bytes == [1, 2, 3, 4]);
}

/// Whether the state of a clock with these fields is the default one, and is printed.
fn is_clock_state_printed(alloc: Global) -> bool {
    let clock = RtcState {
        lr: 0,
        offset: 0,
        mr: 0,
        imsc: 0,
        ris: 0,
        armed: false,
        ..RtcState::default()
    };
    clock == RtcState::default()
        && clock == RtcState::from_five(0, 0, 0, 0, 0)
        && is_compared_and_printed(alloc, &clock)
}

#[test]
fn the_state_of_a_clock_is_compared_and_printed(rt: HostRuntime) {
    assert!(rt; is_clock_state_printed(rt.alloc()));
}
