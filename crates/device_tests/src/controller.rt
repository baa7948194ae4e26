// SPDX-License-Identifier: Apache-2.0 OR BSD-3-Clause
//! The i8042 controller: it resets at one command, and reads 0. A test that vm-superio has too gives its name there. At
//! the end stand its calls as a program uses them, so that a change of a signature is a compile error.
use board_objects::{Line, LineRefused};
use vm_superio::{I8042Device, Trigger};

/// A controller whose reset line refuses the calls of this mask.
fn controller(mask: u64) -> I8042Device<Line> {
    I8042Device::new(Line::new(mask))
}

/// `test_i8042_valid_ops`
/// Fails if this is wrong: vm_superio/src/i8042.rt I8042Device::write call 1
#[test]
fn the_reset_command_calls_the_reset_line_once(rt: HostRuntime) {
    let mut device = controller(0);
    assert!(rt; device.reset_evt().calls() == 0);
    assert!(rt; device.read(0) == 0 && device.reset_evt().calls() == 0);
    assert!(rt; device.write(4, 0xFE).is_ok());
    assert!(rt; device.reset_evt().calls() == 1);
}

/// `test_i8042_invalid_reset`
#[test]
fn another_value_or_offset_resets_nothing(rt: HostRuntime) {
    let mut device = controller(u64::MAX);
    assert!(rt; device.write(4, 0xFF).is_ok());
    assert!(rt; device.write(5, 0xFE).is_ok());
    assert!(rt; device.reset_evt().calls() == 0);
}

/// Fails if this is wrong: board_objects/src/lib.rt Line::trigger error 1
#[test]
fn a_refusal_of_the_reset_line_is_returned(rt: HostRuntime) {
    let mut device = controller(0b01);
    assert!(rt; device.write(4, 0xFE) == Err(LineRefused));
    assert!(rt; device.write(4, 0xFE) == Ok(()));
    assert!(rt; device.reset_evt().calls() == 2);
}

/// Whether a write succeeds, and calls the reset line if it is the command to reset, and only then.
fn is_right(device: &mut I8042Device<Line>, offset: u8, value: u8) -> bool {
    let before = device.reset_evt().calls();
    let resets = (offset, value) == (4, 0xFE);
    device.write(offset, value).is_ok()
        && device.reset_evt().calls() == before.saturating_add(u64::from(resets))
}

/// The first value whose write at this offset does something else.
fn first_wrong(device: &mut I8042Device<Line>, offset: u8) -> Option<u8> {
    for value in 0..=255u8 {
        if !is_right(device, offset, value) {
            return Some(value);
        }
    }
    None
}

#[test]
fn one_of_all_writes_resets_and_all_reads_give_0(rt: HostRuntime) {
    let mut device = controller(0);
    for offset in 0..=255u8 {
        let wrong = first_wrong(&mut device, offset);
        assert!(rt;
            wrong.is_none() && device.read(offset) == 0,
            "{offset} {wrong:?}"
        );
    }
    assert!(rt; device.reset_evt().calls() == 1);
}

// ---- its calls, with their signatures

fn made<T: Trigger>(reset_evt: T) -> I8042Device<T> {
    I8042Device::new(reset_evt)
}

fn read_controller<T: Trigger>(device: &mut I8042Device<T>, offset: u8) -> u8 {
    device.read(offset)
}

fn write_controller<T: Trigger>(
    device: &mut I8042Device<T>,
    offset: u8,
    value: u8,
) -> Result<(), T::E> {
    device.write(offset, value)
}

#[test]
fn a_controller_is_made_and_used(rt: HostRuntime) {
    let mut device = made(Line::new(0));
    assert!(rt; read_controller(&mut device, 0) == 0);
    assert!(rt; write_controller(&mut device, 4, 0xFE).is_ok());
    assert!(rt; device.reset_evt().calls() == 1);
}
