// SPDX-License-Identifier: Apache-2.0 OR BSD-3-Clause
//! The laws of the devices, over the definitions of `superio_core`. Each function does nothing: its contract is the
//! law.
//!
//! A step states what one call does to a state, as a device would. The history keeps no state: it searches the start
//! and the trace of the calls so far for the last write, the bytes not yet taken, and any condition raised and not
//! acknowledged. Some laws, such as
//! `states_of_history` and `clock_is_history`, state that both describe the same device. Most others follow from one of
//! the two alone.
//!
//! They hold for a device in any language, if it makes the calls of `superio_core`.
#![tactic(auto)]

ghost use Rattle.superio_laws.specs.Serial.Laws.{RegisterLaw, HeldBytesLaw, LineStatusLaw, InterruptLaw, CoherenceLaw, StateLaw, ResponseLaw, StepLaw, CallLaw, RetryLaw, WholeRunLaw};
ghost use Rattle.superio_laws.specs.Serial.Laws.Consequences.{PendingByPrefixesLaw, TriggerBoundLaw, WaitingBytesLaw, SameReadsLaw, ReadOutThenHeldLaw, RepliesAreReadOutLaw, ReadThenHeldLaw, OutputLaw, PollingDriverLaw, DriverGetsAllLaw, PollsAfterDataReadyLaw};
ghost use Rattle.superio_laws.specs.Serial.Laws.Line.{NoByteWaitsLaw, TimeoutCallsLaw, RdaFollowsTimeoutsLaw, InterruptAfterRunLaw, ReadOutAfterRunsLaw, LineAfterLaw, UpAfterCallLaw, GoesUpLaw, StaysUpLaw, LineOfHistoryLaw};
ghost use Rattle.superio_laws.specs.Serial.Laws.Transmit.{IerWriteAsksLaw, ThrWriteAsksLaw, RefusedWriteLaw, RetriedLaw, CalledSinceLaw};
ghost use Rattle.superio_laws.specs.Serial.Laws.GuestDriver.{InterruptToReadLaw, InterruptToSendLaw, ReadOutInRunsLaw, SentInRunsLaw, HandlerRunLaw, HandlerEndsLaw};
ghost use Rattle.superio_laws.specs.Rtc.{ClockIsHistory, RawBitsByHistory, AlarmDueByHistory, SetTimeLaw, CounterLaw, SetClockLaw, GuestTimeLaw, KeepsTimeLaw, KeepsTimeInTraceLaw, TimeGoesOnLaw};
ghost use Rattle.superio_laws.specs.Serial.Laws.UartRun.{UartRunLaw, UartOutputLaw, UartBoundLaw, UartTurnedOnLaw, UartAcceptsLaw, UartCoversLaw};
ghost use Rattle.superio_laws.specs.Serial.Laws.ListsOfOps.{ListLaw, ListJoinLaw, ListHistoryLaw};
ghost use Rattle.superio_laws.specs.Serial.Laws.OneCall.{OneCallLaw, OneReadLaw, ReceivedLaw, RbrReadLaw, RbrDataReadyLaw, ThrWriteLaw, OutcomeEventsLaw, TurnedBitsLaw};

/// From any start, each register that stores writes holds its last effective one, and MSR never changes.
#[tactic(auto, using(crate::proofs::Lemmas::Serial::Laws::register_law))]
pub fn registers()
    ensures { RegisterLaw }
{}

/// The held-bytes law, from any start: the history gives the bytes in the FIFO. If the start's LSR shows whether bytes
/// are held, so does LSR at every later point.
#[tactic(auto, using(crate::proofs::Lemmas::Serial::Laws::held_bytes_laws))]
pub fn held_bytes()
    ensures bytes { HeldBytesLaw }
    ensures line_status { LineStatusLaw }
{}

/// The interrupt law, from a start whose IIR is 1, 2, 4 or 6: IIR shows the conditions that are pending. The
/// step admits the answers and the outcome of an entry exactly if the entry is fitting. A restore makes the
/// trigger calls that are due. The trace may contain refused trigger calls and IER writes that end early.
pub fn interrupts()
    ensures { InterruptLaw }
{
    by_lemmas();
}

/// Every step, even a refused call, keeps a coherent state coherent.
#[tactic(auto, using(superio_core::proofs::Lemmas::Serial::Coherence::coherence_law))]
pub fn coherence()
    ensures { CoherenceLaw }
{}

/// From a coherent start, the history gives the state after any trace, and a call responds as the history says. A read
/// returns `guest_read`.
#[tactic(auto, using(crate::proofs::Lemmas::Serial::Laws::StepsOfHistory::states_of_history_laws))]
pub fn states_of_history()
    ensures state { StateLaw }
    ensures response { ResponseLaw }
{}

/// From a coherent start, in the state that a trace leads to, a call makes the trigger calls and reports the events of
/// its point, responds as the history says, and leaves the state of the trace with its entry added. A restore makes the
/// trigger calls that are due.
pub fn steps_of_history()
    ensures { StepLaw }
{
    by_lemmas();
}

/// From a coherent start, a call in the state that a trace leads to is fitting there, replies as the history says,
/// and leaves the state of the trace with its entry added. The premises are the fields of the call's clause `step`.
pub fn calls_of_history()
    ensures { CallLaw }
{
    by_lemmas();
}

/// From a coherent start, a retry in the state that a trace leads to counts as a restore: it makes the trigger calls
/// that are due for a restore there, and leaves the state of the trace with a restore's entry added.
pub fn retries_of_history()
    ensures { RetryLaw }
{
    by_lemmas();
}

/// From a coherent start, entries connected by steps form a fitting trace with these responses. They end in the
/// state that it leads to, which is coherent.
#[tactic(auto, using(crate::proofs::Lemmas::Serial::Laws::StepsOfHistory::whole_run_law))]
pub fn whole_runs()
    ensures { WholeRunLaw }
{}

/// From a coherent `Uart`, the history gives the effects of each call from the start and the operations alone: the byte
/// and the events of a read, how many bytes an enqueue accepts, and how often to ask for the interrupt. The calls end
/// in the state of the history, which is coherent. The bytes that you are told to send are the output. You are told to
/// ask for the interrupt at most twice, plus twice for each IIR read and once for each RBR read; restores do not count.
#[tactic(auto, using(crate::proofs::Lemmas::Serial::Laws::StepsOfHistory::uart_run_laws))]
pub fn whole_runs_of_uarts()
    ensures run { UartRunLaw }
    ensures output { UartOutputLaw }
    ensures bound { UartBoundLaw }
{}

/// One call of a `Uart`, in any state. It asks for the interrupt once for each condition that becomes pending. An enqueue
/// accepts the first bytes, which come last among those held, and leaves the others to you. Suppose that RDA is pending
/// whenever bytes are held and IER enables it. This stays so, unless the call reads IIR or RBR.
pub fn one_uart_call()
    ensures turned_on { UartTurnedOnLaw }
    ensures accepted { UartAcceptsLaw }
    ensures covers { UartCoversLaw }
{}

/// The laws of a list of operations on a `Uart`, for a loop of your own. From any start, the bytes that they read out,
/// followed by those held, are those held at first, followed by those accepted. They ask for the interrupt at most
/// twice, plus twice for each IIR read and once for each RBR read. A list in two parts does what the first part does,
/// and then what the second does. From a coherent start, the trace of the list says the same as the list: the state
/// after it, the bytes read out, accepted and sent, and how often the interrupt is asked for.
pub fn lists_of_ops()
    ensures agree { ListLaw }
    ensures join { ListJoinLaw }
    ensures history { ListHistoryLaw }
{}

/// From any start, a condition is pending exactly if it was raised at some point or pending at the start, and no later
/// point acknowledged it.
#[tactic(auto, using(crate::proofs::Lemmas::Serial::Laws::Consequences::pending_by_prefixes_law))]
pub fn pending_by_prefixes()
    ensures { PendingByPrefixesLaw }
{}

/// From any start, a fitting trace calls the trigger at most twice, plus twice for each IIR read and once for each
/// RBR read. Calls of restores do not count.
#[tactic(auto, using(crate::proofs::Lemmas::Serial::Laws::Consequences::trigger_bound_law))]
pub fn trigger_bound()
    ensures { TriggerBoundLaw }
{}

/// From any start, once a byte is accepted, IER is written or a character timeout is made, RDA is pending whenever
/// bytes are held and IER enables RDA. This lasts until IIR or RBR is read.
#[tactic(auto, using(crate::proofs::Lemmas::Serial::Laws::Consequences::waiting_bytes_law))]
pub fn waiting_bytes()
    ensures { WaitingBytesLaw }
{}

/// From any start, right after a character timeout no byte waits without an interrupt: if bytes are held and IER
/// enables RDA, it is pending. If it was not pending before, the trigger is called once, and otherwise not at all. In a
/// trace this holds if the trace is fitting.
#[tactic(auto, using(crate::proofs::Lemmas::Serial::Laws::InterruptDriver::no_byte_waits_laws))]
pub fn no_byte_waits()
    ensures pending { NoByteWaitsLaw }
    ensures called { TimeoutCallsLaw }
    ensures in_a_trace { RdaFollowsTimeoutsLaw }
{
    by_lemmas();
}

/// From any start, suppose that a run, which is a list of calls, ends with a read of IIR, and that at least one byte is
/// read out in it if one is held when it begins. Then a character timeout right after the run asks for the interrupt
/// again if bytes are held and IER enables RDA. After as many such runs as bytes are held, each with a timeout right
/// after it, all of these bytes are read out, in order, whatever arrives meanwhile.
#[tactic(auto, using(crate::proofs::Lemmas::Serial::Laws::InterruptDriver::interrupt_driver_laws))]
pub fn interrupt_driver()
    ensures owed { InterruptAfterRunLaw }
    ensures taken { ReadOutAfterRunsLaw }
{}

/// From any start, an IER write that enables THRE, and each THR write outside loopback while IER enables THRE, raise
/// THRE, and call the trigger once for it if it was not pending. This holds for fitting entries, with one exception: an
/// IER write with a refused call for RDA. RDA is then pending and enabled, and a retry calls the trigger for each
/// condition that is pending and enabled. If a condition is pending after a read of IIR, a call for it was due since
/// that read, and the call was made if the entry is fitting.
pub fn transmitter_interrupt()
    ensures ier_write { IerWriteAsksLaw }
    ensures thr_write { ThrWriteAsksLaw }
    ensures refused_write { RefusedWriteLaw }
    ensures retried { RetriedLaw }
    ensures called { CalledSinceLaw }
{}

/// The law of the guest's driver, from any start. A run is any list of the port's calls, whoever makes them, and each
/// run begins where the run before it ends. docs/DRIVERS.md explains how to cut a real driver's calls into runs. Each
/// run has to keep these rules:
///
/// - If a byte is held when the run begins, at least one byte is read out in the run.
/// - The run ends in one of two ways. Either it has two or more reads of IIR, the last of them shows that nothing is
///   pending, and nobody reads RBR after it, as with Linux and Xen. Or it ends in a pass, which is what follows its
///   last read of IIR, as with a driver that reads IIR once.
/// - If the run ends in the first way, the driver has no byte left, or flow control stops it, at some moment between
///   the last two reads of IIR. If the run ends in the second way, the driver sends one of its bytes in the pass, by a
///   THR write outside loopback while IER enables THRE. It need not send if it has no byte left, or is stopped, at some
///   moment of the pass.
/// - The driver becomes able to send, because it gets bytes or goes on after a stop, only at such a THR write, or at an
///   IER write that enables THRE and has no refused call for RDA.
///
/// The clause `asked_to_take` alone also asks for the monitor's part. In each run, each read of IIR that shows nothing
/// pending is followed by a character timeout, as the next call. In each run that does not end in the first way, the
/// monitor makes a timeout in a turn of its event loop, and nobody reads IIR or RBR after it in this run.
///
/// Then, after each run, the interrupt for RDA is asked for if bytes are held and IER enables RDA, and the interrupt
/// for THRE if the driver has bytes left and is not stopped. The bytes that were held before the runs are read out in
/// order, at least one in each run until none of them is left. If the driver sends its bytes in order, the bytes that
/// it had left before the runs are sent in the same way, counting only the runs in which it is never stopped. So a byte
/// that has i bytes before it in its direction is through within i + 1 such runs, whatever arrives meanwhile, and
/// whatever the driver is given.
///
/// If a driver ends its run with a read of IIR that shows THRE, and has bytes left, it may not be asked again. A 16550A
/// does not ask it either.
pub fn guest_driver()
    ensures asked_to_take { InterruptToReadLaw }
    ensures asked_to_send { InterruptToSendLaw }
    ensures taken { ReadOutInRunsLaw }
    ensures sent { SentInRunsLaw }
{}

/// The law of a handler like Linux's, from any start. Each of its runs ends in the first of the two ways of
/// [`guest_driver`], and between the last two reads of IIR the handler takes bytes until none is left, or until it has
/// taken as many as a limit allows. It becomes able to send as the driver of [`guest_driver`] does. Then its runs keep
/// the rules there. When the handler reads that nothing is pending, it has sent all its bytes, unless it is stopped. If
/// IER then enables RDA, it has also taken all bytes, unless it came to the limit: what it left waits for the character
/// timeout.
pub fn guest_handler()
    ensures run { HandlerRunLaw }
    ensures ends { HandlerEndsLaw }
{}

/// What one call does to the level of the interrupt line, in any state. A call that calls the trigger leaves the line
/// up, even if the trigger refuses. The line goes up only in such a call, or in an IER write that enables a condition
/// that is already pending, for which the trigger is not called. It goes down only in a read of IIR or RBR, or in an
/// IER write. From a start whose IIR is 1, 2, 4 or 6, it is up exactly while the trace has a condition pending that IER
/// enables.
#[tactic(auto, using(crate::proofs::Lemmas::Serial::Laws::Interrupts::interrupt_line_laws))]
pub fn interrupt_line()
    ensures after { LineAfterLaw }
    ensures called { UpAfterCallLaw }
    ensures goes_up { GoesUpLaw }
    ensures stays_up { StaysUpLaw }
    ensures history { LineOfHistoryLaw }
{
    by_lemmas();
}

/// From any start, two traces with the same operations and trigger answers, restores left out, give the same guest
/// reads, whatever the writer did.
#[tactic(auto, using(crate::proofs::Lemmas::Serial::Laws::Reads::same_reads_law))]
pub fn same_reads()
    ensures { SameReadsLaw }
{}

/// From any start, the bytes taken, followed by those held, are those held at the start, followed by those accepted.
#[tactic(auto, using(crate::proofs::Lemmas::Serial::Laws::read_out_then_held))]
pub fn read_out_then_held()
    ensures { ReadOutThenHeldLaw }
{}

/// From any start, if calls respond as the history says, the bytes that they give a guest from the FIFO are those that
/// they take. So the bytes read, followed by those held, are those held at the start, followed by those accepted.
#[tactic(auto, using(crate::proofs::Lemmas::Serial::Laws::Reads::replies_are_read_out_laws))]
pub fn replies_are_read_out()
    ensures taken { RepliesAreReadOutLaw }
    ensures held { ReadThenHeldLaw }
{}

/// From any start, suppose that calls respond as the history says, and that only a driver that polls reads data. Then
/// the bytes that it got, followed by those held, are those held at the start, followed by those accepted. If LSR does
/// not show data ready in the end, it got all of these bytes. A driver polls if it reads RBR only after a read of LSR
/// has shown data ready since its previous RBR read. Other calls in between do not matter.
#[tactic(auto, using(crate::proofs::Lemmas::Serial::Laws::Reads::polling_driver_laws))]
pub fn polling_driver()
    ensures bytes { PollingDriverLaw }
    ensures all { DriverGetsAllLaw }
    ensures after_data_ready { PollsAfterDataReadyLaw }
{}

/// From any start, the bytes that the newest entries of a fitting trace record as sent are the output: the values of
/// the THR writes outside loopback, in order.
#[tactic(auto, using(crate::proofs::Lemmas::Serial::Laws::Consequences::output_law))]
pub fn output()
    ensures { OutputLaw }
{}

/// What one call does in any state. The bytes that it takes, followed by those held after it, are those held before it,
/// followed by those that it accepts. It gives a guest the byte that it takes. Received bytes, and an RBR read of a
/// held byte, change only the FIFO, LSR and IIR. After an RBR read, LSR shows data ready if it did before and a byte is
/// left. A THR write outside loopback sends its byte and changes only IIR. If it returns `Ok`, the byte is out.
#[tactic(auto, using(crate::proofs::Lemmas::Serial::Laws::OneCall::one_call_laws))]
pub fn one_call()
    ensures taken { OneCallLaw }
    ensures read { OneReadLaw }
    ensures received { ReceivedLaw }
    ensures rbr_read { RbrReadLaw }
    ensures data_ready { RbrDataReadyLaw }
    ensures thr_write { ThrWriteLaw }
{}

/// In any state, a THR write outside loopback reports either `out_byte` or `tx_lost_byte`, exactly once. No other call
/// does.
#[tactic(auto, using(crate::proofs::Lemmas::Serial::Laws::OneCall::events_law))]
pub fn outcome_events()
    ensures { OutcomeEventsLaw }
{}

/// In any state, a call calls the trigger once for each of the two pending bits of IIR that it turns from clear to set.
#[tactic(auto, using(crate::proofs::Lemmas::Serial::Laws::OneCall::turned_bits_law))]
pub fn turned_bits()
    ensures { TurnedBitsLaw }
{}

// ---- the clock

/// The clock is its history: from any state and over any accesses, a search of the accesses so far gives its states and
/// answers.
#[tactic(auto, using(crate::proofs::Lemmas::Rtc::clock_is_history))]
pub fn clock_is_history()
    ensures { ClockIsHistory }
{}

/// A raw interrupt bit is set if the start has it and no access so far cleared it. Bit 0 is also set if the alarm
/// raised it and no access cleared it then or later. No other bit is set.
#[tactic(auto, using(crate::proofs::Lemmas::Rtc::raw_bits))]
pub fn raw_bits_by_history()
    ensures { RawBitsByHistory }
{}

/// By the history, an alarm that is due in some seconds raises the interrupt at any access at that moment, if the guest
/// writes nothing until then. Before that moment, the next access raises it only if it writes a match itself. A read
/// before that moment changes nothing, so the alarm stays due.
#[tactic(auto, using(crate::proofs::Lemmas::Rtc::alarm_due_law))]
pub fn alarm_due_by_history()
    ensures { AlarmDueByHistory }
{}

/// From any state, a clock that was set by a write of RTCLR shows the written value plus the seconds that have passed
/// since, if both times fit in 32 bits.
pub fn set_time()
    ensures { SetTimeLaw }
{
    by_lemmas();
}

/// Guest time from one moment to another, in any state. If the counter of a clock is not negative, guest time goes on
/// from it second by second, while 32 bits hold both guest time and the moment. After a write of RTCLR, guest time goes
/// on from the written value, on the same condition. RTCDR shows guest time. Only a write of RTCLR or RTCCR changes how
/// far guest time is ahead of the host's time. As long as this difference stays, guest time goes on as before, and does
/// not go back while 32 bits hold it and the moment.
pub fn time_goes_on()
    ensures counter { CounterLaw }
    ensures set { SetClockLaw }
    ensures time { GuestTimeLaw }
    ensures keeps_time { KeepsTimeLaw }
    ensures in_a_trace { KeepsTimeInTraceLaw }
    ensures goes_on { TimeGoesOnLaw }
{}

/// The prover's search does not apply the lemmas of these laws. So the functions above that state them call this one,
/// and its answers cite the lemmas.
fn by_lemmas()
    ensures interrupts { InterruptLaw }
    ensures steps { StepLaw }
    ensures calls { CallLaw }
    ensures retries { RetryLaw }
    ensures timeouts { RdaFollowsTimeoutsLaw }
    ensures line { LineOfHistoryLaw }
    ensures set_time { SetTimeLaw }
{}
