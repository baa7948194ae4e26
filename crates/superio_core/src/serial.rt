// SPDX-License-Identifier: Apache-2.0 OR BSD-3-Clause
//! A serial port with the registers of a 16550, without I/O.
//!
//! A call changes the port and returns what is left to do: a byte to send, interrupts to raise, or events to report.
//! The port owns no objects and allocates no memory, so a monitor keeps it where it likes, in any language.
//!
//! The steps of the calls stand at the end of this file, as methods of the registers. A step that uses the received
//! bytes takes the FIFO as an argument, so the same code serves every receive FIFO.
ghost use Rattle.std.specs.Prelude.{◌≡◌, ◌↔◌, ◌≤◌, ◌-◌, ◌==◌, ℕ, not, length, IsTrue, if◌then◌else◌, [], ◌∷◌, slice_index, IfOk};
ghost use Rattle.std.specs.Result.{result_err, IsOkAnd};
ghost use Rattle.superio_core.specs.Serial.{fifo_size, fresh_state, State, state_of_uart, CoherentUart, RdaCoversHeldBytes, irq_level, conditions_due, not_empty, state_with, register_read, is_asserted};
ghost use Rattle.superio_core.specs.Serial.Step.{
  IsUartRead,
  IsUartWrite,
  IsUartEnqueue,
  IsUartTimeout,
  iir_none_bit,
  becomes_pending,
  iir_after_raise,
  iir_after_lower,
  bytes_that_fit,
  receive_bytes,
  rbr_read,
  ier_write,
  read_step,
  write_step,
  character_timeout,
  read_events,
  ier_write_calls,
  arrival_calls,
  timeout_calls,
  decoded_calls,
  decode_in,
};
ghost use Rattle.superio_core.specs.Serial.RegisterMap.{lsr_dr_bit, ier_bits, iir_bit, Rda, Thre, Data, is_loopback};
ghost use Rattle.superio_core.specs.Bits.{only_bits, with_bits, without_bits};
ghost use Rattle.superio_core.specs.Serial.Operations.{Write, count_if, is_first_of_two_refused, decode_write, sent_by, events_of_read};
ghost use Rattle.superio_core.specs.Saved.{serial_encoding, serial_fault};
ghost use Rattle.superio_core.specs.Sizes.{serial_saved_max};

pub mod encoding;
pub mod registers;

pub use super::fifo::ArrayFifo;
use super::fifo::{FIFO_SIZE, RxFifo};
use super::saved::SavedStateError;
use encoding::{SAVED_MAX, SerialEncoding, decode_serial};
pub use registers::Registers;
use registers::{
    Condition, IER_UART_VALID_BITS, IIR_FIFO_BITS, IIR_NONE_BIT, LSR_DATA_READY_BIT, Register,
    has_bits, only_bits, with_bits, without_bits,
};

/// A 16550 serial port without I/O: its registers and received bytes. Any contents are a valid port.
///
/// ```
/// # use superio::Uart;
/// let mut port = Uart::new();
/// let arrived = port.enqueue_raw_bytes(b"hi");
/// assert_eq!((arrived.accepted, arrived.interrupts), (2, 0)); // IER enables nothing yet
/// assert_eq!(port.write(1, 0x01).interrupts, 1); // IER enables RDA, so raise the interrupt
/// assert_eq!(port.read(0).byte, b'h');
/// ```
#[repr(C)]
#[derive(Clone, Debug)]
#[derive(Drop)]
pub struct Uart {
    /// The registers.
    pub registers: Registers,
    /// The received bytes that the guest has not read.
    pub in_buffer: ArrayFifo,
}

impl Uart {
    /// Makes a fresh port: the divisor is 12, a character has 8 bits, OUT2 is set, and nothing is enabled, pending or
    /// held.
    #[tactic(auto, using(crate::proofs::Lemmas::Serial::fresh_coherent))]
    pub fn new() -> Uart
        ensures state { state_of_uart result ≡ fresh_state }
        ensures coherent { CoherentUart result }
    {
        Uart {
            registers: Registers::new(),
            in_buffer: ArrayFifo::new(),
        }
    }

    /// The guest reads the byte at `offset` from the port's base. At 8 and above there is no register, and the byte is
    /// 0. A read asks for no interrupt.
    ///
    /// If `offset` is 2 (IIR) and the byte has bit 0x01, nothing is pending: then call
    /// [`character_timeout`](Self::character_timeout).
    #[inline(always)]
    pub fn read(&mut self, offset: u8) -> ReadEffects
        ensures step { IsUartRead offset result (state_of_uart self.old) (state_of_uart self.new) }
        ensures coherent { CoherentUart self.old → CoherentUart self.new }
    {
        let register = self.registers.decode(offset);
        self.registers.read(&mut self.in_buffer, register)
    }

    /// The guest writes `value` at `offset` from the port's base. A write at 2, 5 or 6 (IIR, LSR or MSR), or at 8 and
    /// above, has no effect.
    ///
    /// Afterwards, send the byte if `sends` is true. Then ask for the interrupt `interrupts` times. You need not tell
    /// the port if either of these fails. A refused interrupt stays pending: ask again later, as often as
    /// [`interrupts_due`](Self::interrupts_due) says.
    #[tactic(auto, using(crate::proofs::Lemmas::Serial::Coherence::write_coherent))]
    #[inline(always)]
    pub fn write(&mut self, offset: u8, value: u8) -> WriteEffects
        ensures step { IsUartWrite offset value result (state_of_uart self.old) (state_of_uart self.new) }
        ensures at_most_2 { result.interrupts ≤ 2 }
        ensures coherent { CoherentUart self.old → CoherentUart self.new }
    {
        let register = self.registers.decode(offset);
        self.registers.write(&mut self.in_buffer, register, value)
    }

    /// Whether a write at `offset` sends its byte, as a THR write outside loopback does. Changes nothing. Ask before
    /// the write if your output may have no room.
    #[inline(always)]
    pub fn sends(&self, offset: u8) -> bool
        ensures { (value : ℕ) → sent_by (decode_in (state_of_uart self.now) (Write offset value))
            ≡ (if result then value ∷ [] else []) }
    {
        self.registers.sends(offset)
    }

    /// How many bytes may still be enqueued: 64 minus the number of held bytes.
    #[inline(always)]
    pub fn fifo_capacity(&self) -> usize
        ensures value { result ≡ fifo_size - length (state_of_uart self.now).in_buffer }
        ensures bound { length (state_of_uart self.now).in_buffer ≤ fifo_size }
    {
        FIFO_SIZE - self.in_buffer.len()
    }

    /// Passes input to the guest. The port accepts the first bytes, as many as fit; in loopback it accepts none. Offer
    /// the rest again when a read reports [`in_buffer_empty`](ReadEffects::in_buffer_empty), or when the guest leaves
    /// loopback.
    ///
    /// Then ask for the interrupt `interrupts` times. The port keeps what it accepted, even if the interrupt is
    /// refused.
    #[tactic(auto, using(crate::proofs::Lemmas::Serial::Coherence::enqueue_coherent))]
    #[inline(always)]
    pub fn enqueue_raw_bytes(&mut self, input: &[u8]) -> EnqueueEffects
        ensures step { IsUartEnqueue input.now result (state_of_uart self.old) (state_of_uart self.new) }
        ensures at_most_1 { result.interrupts ≤ 1 }
        ensures coherent { CoherentUart self.old → CoherentUart self.new }
    {
        self.registers.enqueue(&mut self.in_buffer, input)
    }

    /// Raises RDA (received data available) again if bytes are held, IER enables RDA and RDA is not pending. Otherwise
    /// nothing changes. Returns how often to ask for the interrupt: 0 or 1 times.
    ///
    /// A read of RBR or IIR ends RDA even if bytes are left. Those bytes then wait without an interrupt. So make this
    /// call in two places: once per turn of your event loop, and right after a guest reads offset 2 and the byte has
    /// bit 0x01.
    #[must_use = "an interrupt may have to be raised"]
    #[inline(always)]
    pub fn character_timeout(&mut self) -> u8
        ensures step { IsUartTimeout result (state_of_uart self.old) (state_of_uart self.new) }
        ensures at_most_1 { result ≤ 1 }
        ensures pending { RdaCoversHeldBytes (state_of_uart self.new) }
        ensures coherent { CoherentUart self.old → CoherentUart self.new }
    {
        self.registers.character_timeout(&self.in_buffer)
    }

    /// How often to ask for the interrupt after a restore or a refusal: once for each condition that is pending and
    /// enabled, 0 to 2 times.
    #[must_use = "the interrupts have to be raised"]
    pub fn interrupts_due(&self) -> u8
        ensures calls { result ≡ length (conditions_due (state_of_uart self.now)) }
        ensures at_most_2 { result ≤ 2 }
    {
        self.registers.interrupts_due()
    }

    /// Whether the interrupt line is up. It is up while a condition is both pending and enabled. If your interrupt
    /// controller is level-triggered, set your line to this level after every call, reads included, and ask for no
    /// interrupt.
    #[inline(always)]
    pub fn interrupt_line(&self) -> bool
        ensures line { result ≡ irq_level (state_of_uart self.now) }
        ensures due { result ≡ not (length (conditions_due (state_of_uart self.now)) == 0) }
    {
        self.registers.interrupt_line()
    }

    /// Whether the port is coherent: `len` is at most 64, LSR shows data ready exactly while bytes are held, IIR is 1,
    /// 2, 4 or 6, and RDA is pending only while bytes are held. A new port is coherent, and every call keeps it so.
    pub fn is_coherent(&self) -> bool
        ensures { IsTrue result ↔ CoherentUart self.now }
    {
        usize::from(self.in_buffer.len) <= FIFO_SIZE
            && self.registers.is_coherent(!self.in_buffer.is_empty())
    }

    /// Saves the port as 17 to 81 bytes, which [`from_bytes`](Self::from_bytes) reads back. Any struct has an encoding,
    /// since a `len` above 64 counts as 64. The encoding leaves out bytes that the guest has read.
    ///
    /// It consists of a header of eight bytes, the nine registers in the order of their fields, and the received bytes,
    /// oldest first.
    pub fn to_bytes(&self) -> SerialEncoding
        ensures encoding { result ≡ serial_encoding (state_of_uart self.now) }
        ensures at_most_81 { length result ≤ serial_saved_max }
    {
        let (older, newer) = self.in_buffer.as_slices();
        let mut bytes = [0; SAVED_MAX];
        let count = self.registers.encode_serial(older, newer, &mut bytes);
        SerialEncoding { bytes, count }
    }

    /// Reads a port back from its saved bytes, whatever its registers hold. The port may be incoherent:
    /// [`is_coherent`](Self::is_coherent) tells.
    ///
    /// # Errors
    ///
    /// Returns the first check that fails, in the order of [`SavedStateError`]. A port never fails with
    /// [`SavedStateError::InvalidArmed`] or [`SavedStateError::InvalidFlags`].
    pub fn from_bytes(bytes: &[u8]) -> Result<Uart, SavedStateError>
        ensures encoding { IfOk result (λ port. bytes.now ≡ serial_encoding (state_of_uart port)) }
        ensures at_most_64 { IfOk result (λ port. port.in_buffer.len ≤ fifo_size) }
        ensures read { (state : State) → length state.in_buffer ≤ fifo_size → bytes.now ≡ serial_encoding state →
            IsOkAnd result (λ port. state_of_uart port ≡ state) }
        ensures fault { result_err result ≡ serial_fault bytes.now }
    {
        let (registers, held) = decode_serial(bytes)?;
        let mut in_buffer = ArrayFifo::new();
        in_buffer.fill(held);
        Ok(Uart {
            registers,
            in_buffer,
        })
    }
}

/// What a read returns: the byte, and the events to report. If both events are true, report `in_buffer_empty` first.
#[repr(C)]
#[derive(Clone, Copy, Debug, PartialEq, Eq)]
#[must_use = "the byte is the guest's"]
pub struct ReadEffects {
    /// The byte that the guest reads.
    pub byte: u8,
    /// The guest read the data register.
    pub buffer_read: bool,
    /// The guest read the data register, and no byte is held now.
    pub in_buffer_empty: bool,
}

/// What a write leaves for you to do.
#[repr(C)]
#[derive(Clone, Copy, Debug, PartialEq, Eq)]
#[must_use = "a byte may have to be sent, and interrupts to be raised"]
pub struct WriteEffects {
    /// The written byte goes out: send it.
    pub sends: bool,
    /// How often to ask for the interrupt: 0, 1 or 2 times.
    pub interrupts: u8,
}

/// What an enqueue did, and what it leaves for you to do.
#[repr(C)]
#[derive(Clone, Copy, Debug, PartialEq, Eq)]
#[must_use = "bytes may be left, and an interrupt may have to be raised"]
pub struct EnqueueEffects {
    /// How many bytes were accepted. They are the first ones.
    pub accepted: usize,
    /// Bytes were passed outside loopback while 64 were held: nothing changed.
    pub fifo_full: bool,
    /// How often to ask for the interrupt: 0 or 1 times.
    pub interrupts: u8,
}

/// What the trigger answered during one call of the port, in order.
#[derive(Clone, Copy, Debug, PartialEq, Eq)]
pub enum Asked {
    /// The trigger was not called.
    Nothing,
    /// It was called once, and took the call.
    Took,
    /// It was called once, and refused the call.
    Refused,
    /// It was called twice, and took both calls.
    TookTook,
    /// It was called twice, and took the first call and refused the second.
    TookRefused,
}

/// The outcome of the byte that a call sent to the writer.
#[derive(Clone, Copy, Debug, PartialEq, Eq)]
pub enum Sent {
    /// The call sent no byte.
    Nothing,
    /// The writer took the byte.
    Out,
    /// The writer failed.
    Lost,
}

// ---- the steps

impl Registers {
    /// Whether a condition that is raised becomes pending: it is enabled and not pending.
    #[inline(always)]
    fn becomes_pending(&self, condition: Condition) -> bool
        ensures { result ≡ becomes_pending condition self.now.interrupt_enable self.now.interrupt_identification }
    {
        self.enables(condition) && !has_bits(self.interrupt_identification, condition.iir_bit())
    }

    /// Shows a condition as pending.
    #[inline(always)]
    fn set_pending(&mut self, condition: Condition)
        ensures { self.new ≡ record self.old {
          interrupt_identification =
              with_bits (without_bits self.old.interrupt_identification iir_none_bit) (iir_bit condition);
        } }
    {
        let others = without_bits(self.interrupt_identification, IIR_NONE_BIT);
        self.interrupt_identification = with_bits(others, condition.iir_bit());
    }

    /// Raises a condition: if it is enabled and not pending, it becomes pending. Returns whether to call the trigger,
    /// once.
    #[inline(always)]
    fn raise(&mut self, condition: Condition) -> bool
        ensures due { result
            ≡ becomes_pending condition self.old.interrupt_enable self.old.interrupt_identification }
        ensures registers { self.new ≡ record self.old {
          interrupt_identification =
              iir_after_raise condition self.old.interrupt_enable self.old.interrupt_identification;
        } }
    {
        if !self.becomes_pending(condition) {
            return false;
        }
        self.set_pending(condition);
        true
    }

    /// Lowers a condition: it is no longer pending.
    #[inline(always)]
    fn lower(&mut self, condition: Condition)
        ensures registers { self.new ≡ record self.old {
          interrupt_identification = iir_after_lower condition self.old.interrupt_identification;
        } }
    {
        if self.interrupt_identification == IIR_NONE_BIT {
            return;
        }
        let others = without_bits(self.interrupt_identification, condition.iir_bit());
        self.interrupt_identification = if others == 0 { IIR_NONE_BIT } else { others };
    }

    /// An IER write: stores the bits that IER keeps, raises RDA if bytes are held, then raises THRE. Returns how often
    /// to call the trigger.
    #[tactic(auto, using(crate::proofs::Lemmas::Serial::Step::thre_beside_rda))]
    #[inline(always)]
    fn write_ier<F: RxFifo>(&mut self, fifo: &F, value: u8) -> u8
        ensures due { result ≡ ier_write_calls (only_bits value ier_bits) (state_with self.old (F.held fifo.now)) }
        ensures at_most_2 { result ≤ 2 }
        ensures state { state_with self.new (F.held fifo.now)
            ≡ ier_write (only_bits value ier_bits) Asked.Nothing (state_with self.old (F.held fifo.now)) }
    {
        self.interrupt_enable = only_bits(value, IER_UART_VALID_BITS);
        if fifo.is_empty() {
            return u8::from(self.raise(Condition::Thre));
        }
        // Deciding both before setting one takes fewer instructions.
        match (
            self.becomes_pending(Condition::Rda),
            self.becomes_pending(Condition::Thre),
        ) {
            (true, true) => {
                self.set_pending(Condition::Rda);
                self.set_pending(Condition::Thre);
                2
            }
            (true, false) => {
                self.set_pending(Condition::Rda);
                1
            }
            (false, true) => {
                self.set_pending(Condition::Thre);
                1
            }
            (false, false) => 0,
        }
    }

    /// Call this after a write if you want to do what vm-superio does at a refusal: `due` is how many trigger calls the
    /// write asked for, and `asked` is what the trigger answered. If two calls were due and the first was refused, THRE
    /// is lowered, because in vm-superio a refusal ends an IER write before THRE is raised. Otherwise nothing changes.
    pub fn cancel_thre(&mut self, due: u8, asked: Asked)
        ensures registers { self.new ≡ record self.old {
          interrupt_identification =
              if is_first_of_two_refused due asked
              then iir_after_lower Thre self.old.interrupt_identification
              else self.old.interrupt_identification;
        } }
    {
        if due == 2 && matches!(asked, Asked::Refused) {
            self.lower(Condition::Thre);
        }
    }

    /// Notes received bytes: sets data ready and raises RDA.
    #[inline(always)]
    fn rx_ready(&mut self) -> bool
        ensures due { result ≡ becomes_pending Rda self.old.interrupt_enable self.old.interrupt_identification }
        ensures registers { self.new ≡ record self.old {
          line_status = with_bits self.old.line_status lsr_dr_bit;
          interrupt_identification = iir_after_raise Rda self.old.interrupt_enable self.old.interrupt_identification;
        } }
    {
        self.line_status = with_bits(self.line_status, LSR_DATA_READY_BIT);
        self.raise(Condition::Rda)
    }

    /// Adds the first of these bytes after the held ones, as many as fit. Returns how many it added, and whether to
    /// call the trigger.
    #[inline(always)]
    pub fn rx_push<F: RxFifo>(&mut self, fifo: &mut F, bytes: &[u8]) -> (usize, bool)
        ensures count { result.0 ≡ length (bytes_that_fit (F.held fifo.old) bytes.now) }
        ensures due { count_if result.1
            ≡ arrival_calls (bytes_that_fit (F.held fifo.old) bytes.now) (state_with self.old (F.held fifo.old)) }
        ensures state { state_with self.new (F.held fifo.new)
            ≡ receive_bytes (bytes_that_fit (F.held fifo.old) bytes.now) (state_with self.old (F.held fifo.old)) }
        ensures len_in_range { F.len_in_range fifo.old → F.len_in_range fifo.new }
    {
        let count = fifo.fill(bytes);
        if count == 0 {
            return (0, false);
        }
        (count, self.rx_ready())
    }

    /// Receives the first of these bytes, as many as fit, and none in loopback. Then ask for the interrupt as often as
    /// the result says: 0 or 1 times.
    #[inline(always)]
    pub fn enqueue<F: RxFifo>(&mut self, fifo: &mut F, input: &[u8]) -> EnqueueEffects
        ensures step { IsUartEnqueue input.now result
            (state_with self.old (F.held fifo.old)) (state_with self.new (F.held fifo.new)) }
        ensures at_most_1 { result.interrupts ≤ 1 }
        ensures len_in_range { F.len_in_range fifo.old → F.len_in_range fifo.new }
    {
        if self.is_loopback() || input.is_empty() {
            return EnqueueEffects {
                accepted: 0,
                fifo_full: false,
                interrupts: 0,
            };
        }
        if fifo.len() == FIFO_SIZE {
            return EnqueueEffects {
                accepted: 0,
                fifo_full: true,
                interrupts: 0,
            };
        }
        let (accepted, asks) = self.rx_push(fifo, input);
        EnqueueEffects {
            accepted,
            fifo_full: false,
            interrupts: u8::from(asks),
        }
    }

    /// A character timeout: raises RDA if bytes are held, IER enables RDA and RDA is not pending. Returns how often to
    /// call the trigger: 0 or 1 times.
    #[must_use = "an interrupt may have to be raised"]
    #[inline(always)]
    pub fn character_timeout<F: RxFifo>(&mut self, fifo: &F) -> u8
        ensures due { result ≡ timeout_calls (state_with self.old (F.held fifo.now)) }
        ensures at_most_1 { result ≤ 1 }
        ensures state { state_with self.new (F.held fifo.now)
            ≡ character_timeout (state_with self.old (F.held fifo.now)) }
    {
        u8::from(!fifo.is_empty() && self.raise(Condition::Rda))
    }

    /// An RBR read: lowers RDA, then takes the oldest byte or gives 0.
    #[inline(always)]
    fn read_rbr<F: RxFifo>(&mut self, fifo: &mut F) -> ReadEffects
        ensures value { result.byte ≡ slice_index (F.held fifo.old) 0 }
        ensures state { state_with self.new (F.held fifo.new) ≡ rbr_read (state_with self.old (F.held fifo.old)) }
        ensures events { events_of_read result ≡ read_events Data (F.held fifo.old) }
        ensures len_in_range { F.len_in_range fifo.old → F.len_in_range fifo.new }
    {
        self.lower(Condition::Rda);
        let byte = fifo.take_first().unwrap_or(0);
        let in_buffer_empty = fifo.is_empty();
        if in_buffer_empty {
            self.line_status = without_bits(self.line_status, LSR_DATA_READY_BIT);
        }
        ReadEffects {
            byte,
            buffer_read: true,
            in_buffer_empty,
        }
    }

    /// Reads a register. A read of RBR takes the oldest byte out of the FIFO, and acknowledges RDA. A read of IIR
    /// acknowledges both conditions. No other read changes anything.
    #[inline(always)]
    pub fn read<F: RxFifo>(&mut self, fifo: &mut F, register: Register) -> ReadEffects
        ensures value { result.byte
            ≡ register_read register (state_with self.old (F.held fifo.old)) }
        ensures state { state_with self.new (F.held fifo.new)
            ≡ read_step register (state_with self.old (F.held fifo.old)) }
        ensures events { events_of_read result ≡ read_events register (F.held fifo.old) }
        ensures len_in_range { F.len_in_range fifo.old → F.len_in_range fifo.new }
    {
        let byte = match register {
            Register::Data => return self.read_rbr(fifo),
            Register::Dll => self.baud_divisor_low,
            Register::Dlm => self.baud_divisor_high,
            Register::Ier => self.interrupt_enable,
            Register::Iir => {
                let identification = self.interrupt_identification;
                self.interrupt_identification = IIR_NONE_BIT;
                with_bits(identification, IIR_FIFO_BITS)
            }
            Register::Lcr => self.line_control,
            Register::Mcr => self.modem_control,
            Register::Lsr => self.line_status,
            Register::Msr => self.read_msr(),
            Register::Scr => self.scratch,
            Register::Unassigned => 0,
        };
        ReadEffects {
            byte,
            buffer_read: false,
            in_buffer_empty: false,
        }
    }

    /// Writes a register. In loopback, a byte written to THR is received. Otherwise the byte goes out, and THRE is
    /// raised even if the byte is lost. The write assumes that the trigger takes its calls. If your trigger refuses
    /// one, [`cancel_thre`](Self::cancel_thre) does what vm-superio does.
    #[inline(always)]
    pub fn write<F: RxFifo>(&mut self, fifo: &mut F, register: Register, value: u8) -> WriteEffects
        ensures sends { let kind = decode_write register (is_loopback self.old.modem_control) value in
            result.sends ≡ not_empty (sent_by kind) }
        ensures interrupts { let kind = decode_write register (is_loopback self.old.modem_control) value in
            result.interrupts ≡ decoded_calls kind (state_with self.old (F.held fifo.old)) }
        ensures at_most_2 { result.interrupts ≤ 2 }
        ensures state { state_with self.new (F.held fifo.new)
            ≡ write_step register value Asked.Nothing (state_with self.old (F.held fifo.old)) }
        ensures len_in_range { F.len_in_range fifo.old → F.len_in_range fifo.new }
    {
        let mut sends = false;
        let mut interrupts = 0;
        match register {
            Register::Dll => self.baud_divisor_low = value,
            Register::Dlm => self.baud_divisor_high = value,
            Register::Data if self.is_loopback() => {
                interrupts = u8::from(fifo.push(value) && self.rx_ready());
            }
            Register::Data => {
                sends = true;
                interrupts = u8::from(self.raise(Condition::Thre));
            }
            Register::Ier => interrupts = self.write_ier(fifo, value),
            Register::Lcr => self.line_control = value,
            Register::Mcr => self.modem_control = value,
            Register::Scr => self.scratch = value,
            Register::Iir | Register::Lsr | Register::Msr | Register::Unassigned => {}
        }
        WriteEffects { sends, interrupts }
    }

    /// Whether a write at `offset` sends its byte: it reaches THR, outside loopback.
    #[inline(always)]
    pub fn sends(&self, offset: u8) -> bool
        ensures { (value : ℕ) → sent_by (decode_in (state_with self.now []) (Write offset value))
            ≡ (if result then value ∷ [] else []) }
    {
        match self.decode(offset) {
            Register::Data => !self.is_loopback(),
            _ => false,
        }
    }

    /// Whether a condition is pending and enabled.
    fn is_asserted(&self, condition: Condition) -> bool
        ensures { result ≡ is_asserted condition (state_with self.now []) }
    {
        has_bits(self.interrupt_identification, condition.iir_bit())
            && has_bits(self.interrupt_enable, condition.ier_bit())
    }

    /// How often to call the trigger after a restore or a refusal: once for each condition that is pending and enabled,
    /// 0 to 2 times.
    #[must_use = "the interrupts have to be raised"]
    pub fn interrupts_due(&self) -> u8
        ensures calls { result ≡ length (conditions_due (state_with self.now [])) }
        ensures at_most_2 { result ≤ 2 }
    {
        u8::from(self.is_asserted(Condition::Thre)) + u8::from(self.is_asserted(Condition::Rda))
    }

    /// Whether the interrupt line is up: a condition is pending and enabled.
    #[inline(always)]
    #[tactic(auto, using(crate::proofs::Lemmas::Serial::Step::up_while_due))]
    pub fn interrupt_line(&self) -> bool
        ensures line { result ≡ irq_level (state_with self.now []) }
        ensures due { result ≡ not (length (conditions_due (state_with self.now [])) == 0) }
    {
        // Testing both takes fewer instructions.
        self.is_asserted(Condition::Thre) | self.is_asserted(Condition::Rda)
    }
}
