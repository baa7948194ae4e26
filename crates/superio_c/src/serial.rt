// SPDX-License-Identifier: Apache-2.0 OR BSD-3-Clause
//! The serial port. Its struct is `superio_serial` in the header: nine registers, then the received bytes.
ghost use Rattle.std.specs.Prelude.{◌≡◌, ◌↔◌, ◌≤◌, ◌-◌, ◌==◌, not, length, IsTrue};
ghost use Rattle.superio_core.specs.Serial.{fifo_size, state_of_uart, CoherentUart, RdaCoversHeldBytes, fresh_state, irq_level, conditions_due};
ghost use Rattle.superio_core.specs.Serial.Step.{IsUartRead, IsUartWrite, IsUartEnqueue, IsUartTimeout};

use superio_core::serial::{EnqueueEffects, ReadEffects, Uart, WriteEffects};

/// A fresh port.
#[unsafe(no_mangle)]
pub extern "C" fn superio_serial_new() -> Uart
    ensures state { state_of_uart result ≡ fresh_state }
    ensures coherent { CoherentUart result }
{
    Uart::new()
}

/// The guest reads at `offset`.
#[unsafe(no_mangle)]
pub extern "C" fn superio_serial_read(port: &mut Uart, offset: u8) -> ReadEffects
    ensures step { IsUartRead offset result (state_of_uart port.old) (state_of_uart port.new) }
    ensures coherent { CoherentUart port.old → CoherentUart port.new }
{
    port.read(offset)
}

/// The guest writes `value` at `offset`.
#[unsafe(no_mangle)]
pub extern "C" fn superio_serial_write(port: &mut Uart, offset: u8, value: u8) -> WriteEffects
    ensures step { IsUartWrite offset value result (state_of_uart port.old) (state_of_uart port.new) }
    ensures at_most_2 { result.interrupts ≤ 2 }
    ensures coherent { CoherentUart port.old → CoherentUart port.new }
{
    port.write(offset, value)
}

/// Bytes arrive for the guest.
#[unsafe(no_mangle)]
pub extern "C" fn superio_serial_enqueue(port: &mut Uart, bytes: &[u8]) -> EnqueueEffects
    ensures step { IsUartEnqueue bytes.now result (state_of_uart port.old) (state_of_uart port.new) }
    ensures at_most_1 { result.interrupts ≤ 1 }
    ensures coherent { CoherentUart port.old → CoherentUart port.new }
{
    port.enqueue_raw_bytes(bytes)
}

/// The time of a few characters has passed without a read or a new byte. Returns how often to ask for the interrupt.
#[unsafe(no_mangle)]
pub extern "C" fn superio_serial_character_timeout(port: &mut Uart) -> u8
    ensures step { IsUartTimeout result (state_of_uart port.old) (state_of_uart port.new) }
    ensures at_most_1 { result ≤ 1 }
    ensures pending { RdaCoversHeldBytes (state_of_uart port.new) }
    ensures coherent { CoherentUart port.old → CoherentUart port.new }
{
    port.character_timeout()
}

/// How many bytes fit.
#[unsafe(no_mangle)]
pub extern "C" fn superio_serial_fifo_capacity(port: &Uart) -> usize
    ensures value { result ≡ fifo_size - length (state_of_uart port.now).in_buffer }
    ensures bound { length (state_of_uart port.now).in_buffer ≤ fifo_size }
{
    port.fifo_capacity()
}

/// How often to ask for the interrupt after a restore or a refusal.
#[unsafe(no_mangle)]
pub extern "C" fn superio_serial_interrupts_due(port: &Uart) -> u8
    ensures calls { result ≡ length (conditions_due (state_of_uart port.now)) }
    ensures at_most_2 { result ≤ 2 }
{
    port.interrupts_due()
}

/// Whether the interrupt line is up.
#[unsafe(no_mangle)]
pub extern "C" fn superio_serial_interrupt_line(port: &Uart) -> bool
    ensures line { result ≡ irq_level (state_of_uart port.now) }
    ensures due { result ≡ not (length (conditions_due (state_of_uart port.now)) == 0) }
{
    port.interrupt_line()
}

/// Whether the port is coherent.
#[unsafe(no_mangle)]
pub extern "C" fn superio_serial_is_coherent(port: &Uart) -> bool
    ensures { IsTrue result ↔ CoherentUart port.now }
{
    port.is_coherent()
}
