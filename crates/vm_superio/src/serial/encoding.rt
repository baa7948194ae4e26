// SPDX-License-Identifier: Apache-2.0 OR BSD-3-Clause
//! The state of a serial port, and its encoding.
ghost use Rattle.std.specs.Prelude.{◌≡◌, ◌↔◌, ◌≤◌, ℕ, length, IfOk, IfErr, IsOk, IfSome, IsTrue, MatchResult};
ghost use Rattle.vm_superio.specs.Saved.{state_of};
ghost use Rattle.superio_core.specs.Serial.{State, fifo_size, fresh_state, Coherent};
ghost use Rattle.superio_core.specs.Saved.{serial_encoding, serial_fault};

use crate::saved::{LoadError, SavedStateError};
use std::alloc::{AllocError, Global};
use superio_core::fifo::{FIFO_SIZE, RxFifo};
use superio_core::serial::Uart;
pub use superio_core::serial::encoding::{SAVED_MAX, SerialEncoding};
use superio_core::serial::registers::Registers;

/// A serial port's contents without its objects. The port can be recreated from it, on another machine too.
///
/// Any registers may be restored, with at most 64 bytes held.
#[derive(Debug, Drop, Eq, PartialEq)]
pub struct SerialState {
    /// DLL, the low byte of the divisor latch.
    pub baud_divisor_low: u8,
    /// DLM, the high byte of the divisor latch.
    pub baud_divisor_high: u8,
    /// IER: bit 0x01 enables RDA (received data available), bit 0x02 THRE (transmitter holding register empty).
    pub interrupt_enable: u8,
    /// IIR without bits 0xC0: bit 0x04 shows that RDA is pending, bit 0x02 that THRE is, and bit 0x01 that neither is.
    pub interrupt_identification: u8,
    /// LCR: bit 0x80 is DLAB.
    pub line_control: u8,
    /// LSR: bit 0x01 is data ready.
    pub line_status: u8,
    /// MCR: bit 0x10 is loopback.
    pub modem_control: u8,
    /// MSR.
    pub modem_status: u8,
    /// SCR.
    pub scratch: u8,
    /// The received bytes that no guest has read, oldest first. A port takes at most 64.
    pub in_buffer: Vec<u8>,
}

impl SerialState {
    ghost use Rattle.vm_superio.specs.Saved.{state_of};
    ghost use Rattle.superio_core.specs.Serial.{state_with};
    ghost use Rattle.superio_core.specs.Serial.{state_of_uart};

    /// Returns the state of a new port. Allocates no memory.
    pub fn default(alloc: Global) -> SerialState
        ensures { state_of result ≡ fresh_state }
    {
        SerialState::of(&Registers::new(), Vec::new(alloc))
    }

    /// An equal state.
    ///
    /// # Errors
    ///
    /// Returns `AllocError` if allocating the received bytes fails.
    pub fn clone(&self, alloc: Global) -> Result<SerialState, AllocError>
        ensures { IfOk result (λ copy. state_of copy ≡ state_of self.now) }
    {
        Ok(SerialState {
            in_buffer: self.in_buffer.to_vec(alloc)?,
            ..*self
        })
    }

    /// Returns the state of a port without I/O.
    ///
    /// # Errors
    ///
    /// Returns `AllocError` if allocating the received bytes fails.
    pub fn from_uart(alloc: Global, port: &Uart) -> Result<SerialState, AllocError>
        ensures state { IfOk result (λ state. state_of state ≡ state_of_uart port.now) }
        ensures at_most_64 { IfOk result (λ state. length state.in_buffer.items ≤ fifo_size) }
    {
        let mut held = port.in_buffer.clone()?;
        let mut in_buffer = Vec::with_capacity(alloc, held.len())?;
        while let Some(byte) = held.take_first() {
            in_buffer.push_reserved(byte);
        }
        Ok(SerialState::of(&port.registers, in_buffer))
    }

    /// Makes a port without I/O of this state. Allocates no memory, and calls no trigger: ask the port which interrupts
    /// are due.
    ///
    /// # Errors
    ///
    /// Returns [`SavedStateError::TooManyBytes`] if the state has more than 64 received bytes.
    pub fn to_uart(&self) -> Result<Uart, SavedStateError>
        ensures port { IfOk result (λ port. state_of_uart port ≡ state_of self.now) }
        ensures at_most_64 { IsOk result ↔ (length self.now.in_buffer.items ≤ fifo_size) }
        ensures too_many { IfErr result (λ error. error ≡ SavedStateError.TooManyBytes) }
    {
        if self.in_buffer.len() > FIFO_SIZE {
            return Err(SavedStateError::TooManyBytes);
        }
        let mut port = Uart::new();
        port.registers = self.registers();
        port.in_buffer.fill(&self.in_buffer);
        Ok(port)
    }

    /// Whether the state is coherent, like the state of any port that `new` made: at most 64 bytes are held, data ready
    /// is set exactly while a byte is held, IIR is 1, 2, 4 or 6, and RDA is pending only while a byte is held. Other
    /// fields are free.
    ///
    /// A port made from a coherent state stays coherent. From another state each call still meets its contract, but the
    /// laws that derive a guest's reads from the history do not apply.
    pub fn is_coherent(&self) -> bool
        ensures { IsTrue result ↔ Coherent (state_of self.now) }
    {
        self.in_buffer.len() <= FIFO_SIZE
            && self.registers().is_coherent(!self.in_buffer.is_empty())
    }

    /// The state of a port with these registers and received bytes.
    pub(super) fn of(registers: &Registers, in_buffer: Vec<u8>) -> SerialState
        ensures { state_of result ≡ state_with registers.now in_buffer.items }
    {
        SerialState {
            baud_divisor_low: registers.baud_divisor_low,
            baud_divisor_high: registers.baud_divisor_high,
            interrupt_enable: registers.interrupt_enable,
            interrupt_identification: registers.interrupt_identification,
            line_control: registers.line_control,
            line_status: registers.line_status,
            modem_control: registers.modem_control,
            modem_status: registers.modem_status,
            scratch: registers.scratch,
            in_buffer,
        }
    }

    /// The registers.
    pub(super) fn registers(&self) -> Registers
        ensures { state_with result self.now.in_buffer.items ≡ state_of self.now }
    {
        Registers {
            baud_divisor_low: self.baud_divisor_low,
            baud_divisor_high: self.baud_divisor_high,
            interrupt_enable: self.interrupt_enable,
            interrupt_identification: self.interrupt_identification,
            line_control: self.line_control,
            line_status: self.line_status,
            modem_control: self.modem_control,
            modem_status: self.modem_status,
            scratch: self.scratch,
        }
    }
}

impl SerialState {
    /// Saves the state as bytes, which `from_bytes` reads back. Allocates no memory.
    ///
    /// They are a header of eight bytes, the nine registers in the order of their fields, and the received bytes,
    /// oldest first.
    ///
    /// # Errors
    ///
    /// Returns [`SavedStateError::TooManyBytes`] if the state has more than 64 received bytes, and so no encoding.
    pub fn to_bytes(&self) -> Result<SerialEncoding, SavedStateError>
        ensures encoding { IfOk result (λ encoding. encoding ≡ serial_encoding (state_of self.now)) }
        ensures at_most_64 { IsOk result ↔ (length self.now.in_buffer.items ≤ fifo_size) }
        ensures too_many { IfErr result (λ error. error ≡ SavedStateError.TooManyBytes) }
    {
        Ok(self.to_uart()?.to_bytes())
    }

    /// Reads the state back from its saved bytes, whatever its registers hold. The state may be incoherent:
    /// [`is_coherent`](Self::is_coherent) tells.
    ///
    /// # Errors
    ///
    /// Returns the first check that fails, in the order of [`SavedStateError`]. A port never fails with
    /// [`SavedStateError::InvalidArmed`] or [`SavedStateError::InvalidFlags`]. If no check fails, returns
    /// [`LoadError::Memory`] if allocating the received bytes fails.
    pub fn from_bytes(alloc: Global, bytes: &[u8]) -> Result<SerialState, LoadError>
        ensures encoding { IfOk result (λ state. bytes.now ≡ serial_encoding (state_of state)) }
        ensures read { (state : State) → length state.in_buffer ≤ fifo_size → bytes.now ≡ serial_encoding state →
            MatchResult result (λ saved. state_of saved ≡ state) (λ error. error ≡ LoadError.Memory) }
        ensures at_most_64 { IfOk result (λ state. length state.in_buffer.items ≤ fifo_size) }
        ensures fault { IfSome (serial_fault bytes.now) (λ fault. result ≡ Err (LoadError.Invalid fault)) }
        ensures memory { serial_fault bytes.now ≡ None → IfErr result (λ error. error ≡ LoadError.Memory) }
    {
        match SerialState::from_uart(alloc, &Uart::from_bytes(bytes)?) {
            Ok(state) => Ok(state),
            Err(_) => Err(LoadError::Memory),
        }
    }
}
