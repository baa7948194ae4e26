// SPDX-License-Identifier: Apache-2.0 OR BSD-3-Clause
//! The laws of a console: what holds over any list of its calls, in any order, from any state. Each function does
//! nothing: its contract is the law.
ghost use Rattle.superio_console.specs.Driver.{StartLaw, FirstLaw, NextLaw, ResetLaw, TimeoutLaw, MonitoredLaw, EachByteIsThroughLaw};
ghost use Rattle.superio_console.specs.Laws.{PortLaw, WakeLaw, NoNeedlessWakeLaw, ConsumeLaw, CoveredLaw, HeldLaw, RefusedLaw, RetryLaw, KeptLaw, AskedLaw, PendingLaw, WaitingLaw, SendLaw, InputLaw, GateLaw, SleepLaw, OpenLaw, PolledLaw, TakenLaw, OutputLaw, RoomLaw};
ghost use Rattle.superio_console.specs.Saved.{ConsoleEncodingLaw, OneConsoleStateLaw};

/// The port makes the steps of `superio_core`. So without a reset it is the port to which the steps of its trace lead,
/// and the laws of `superio_laws` hold for it.
#[tactic(auto, using(crate::proofs::Lemmas::Port::port_law))]
pub fn port()
    ensures { PortLaw }
{}

/// If `wants` names something in the end that it did not name at first, one of the calls said to wake the event loop.
/// So a loop that polls what was named, and wakes when it is told to wake, never sleeps past new work. A call tells it
/// to wake only if `wants` names something more, and `consume` never does.
pub fn wakes()
    ensures wakes { WakeLaw }
    ensures no_needless { NoNeedlessWakeLaw }
    ensures consume { ConsumeLaw }
{
    by_lemmas();
}

/// After each turn, and after each read of IIR that shows nothing pending, RDA is pending if bytes are held and IER
/// enables it. While bytes are held and IER enables RDA, `wants` names a turn.
pub fn turns()
    ensures covered { CoveredLaw }
    ensures held { HeldLaw }
{
    by_lemmas();
}

/// After a refusal `wants` names a turn as long as the line is up. The next turn, or write at the offset of IER, asks
/// once for each condition that is pending and enabled. Only three things end the refusal: such a call that asks, a
/// read of IIR, and a reset.
pub fn refusals()
    ensures wants { RefusedLaw }
    ensures retry { RetryLaw }
    ensures kept { KeptLaw }
{
    by_lemmas();
}

/// These laws hold for any guest, as long as it is not reset. Suppose that a condition is pending in the end and was
/// not pending at first, as after a read of IIR. Then one of the calls asked for an interrupt, and an interrupt for
/// this condition is on its way.
///
/// If your interrupt controller is edge-triggered, *on its way* means one of two things. Either a call asked for an
/// interrupt, and since then there was no `refuse` and the guest did not read IIR. Or an interrupt is due: if IER
/// enables the condition, `wants` names a turn, which asks, and if IER masks it, the write that enables it asks. If the
/// controller is level-triggered, it means that the line is up while IER enables the condition.
///
/// The same holds for RDA if bytes are held in the end and RDA was not pending at first. If RDA is still not pending,
/// and IER enables it, `wants` names a turn, which asks and leaves the line up.
pub fn interrupted()
    ensures asked { AskedLaw }
    ensures pending { PendingLaw }
    ensures held { WaitingLaw }
{
    by_lemmas();
}

/// For any guest: a THR write outside loopback while IER enables THRE, and an IER write that enables THRE, leave THRE
/// pending until IIR is read or the machine is reset. So a driver that has sent a byte is interrupted to send the next.
pub fn sending()
    ensures { SendLaw }
{
    by_lemmas();
}

/// The bytes that the guest read out and those that resets lost, followed by those held, are those held at first,
/// followed by those that arrived, all in order. What arrives is the input that went in, and each byte that the guest
/// looped back while the FIFO had room.
pub fn input()
    ensures in_order { InputLaw }
{
    by_lemmas();
}

/// When input goes in. A driver shows that it is ready by a write at the offset of IER that leaves IER with RDA enabled
/// and THRE not. A write of DLM counts too, if IER is so already.
///
/// After `new` and after a reset, no input goes in before such a write, unless the guest polls. After a suspend, none
/// goes in before such a write or a reset, even if the guest polls. From such a write on, until a reset or a suspend,
/// `wants` names all the room of the FIFO outside loopback. While the guest polls and does not sleep, `wants` always
/// names it.
pub fn gate()
    ensures shut { GateLaw }
    ensures asleep { SleepLaw }
    ensures open { OpenLaw }
    ensures polled { PolledLaw }
{
    by_lemmas();
}

/// A run is a list of calls. Suppose that in each run that begins while a byte is held, at least one byte leaves the
/// FIFO, by a read of RBR or by a reset. Then the bytes held at first leave first, in order, at least one in each run
/// until none of them is left, whatever arrives meanwhile.
#[tactic(auto, using(crate::proofs::Lemmas::Taken::taken_law))]
pub fn taken()
    ensures { TakenLaw }
{}

/// What the reader took, followed by what waits, is what waited at first, followed by what the guest sent, in order,
/// without the bytes that found no room. Those bytes are counted. If at most 4,095 bytes waited at each write that sent
/// a byte, none is dropped.
pub fn output()
    ensures in_order { OutputLaw }
    ensures room { RoomLaw }
{
    by_lemmas();
}

/// A console with a coherent port, whether new or loaded, is at the empty trace, and calls without a reset add their
/// entries to the trace. After a reset a console is at the empty trace again. After each read of IIR that shows nothing
/// pending, the next call of the port is a character timeout. So any calls without a reset, with a turn after them, do
/// the monitor's part of `superio_laws::guest_driver`.
pub fn history()
    ensures start { StartLaw }
    ensures first { FirstLaw }
    ensures next { NextLaw }
    ensures reset { ResetLaw }
    ensures timeouts { TimeoutLaw }
    ensures monitored { MonitoredLaw }
{
    by_lemmas();
}

/// A run is any list of the console's calls without a reset, and each run begins where the run before it ends. This law
/// supposes that each run keeps the driver's rules of `superio_laws::guest_driver`.
///
/// After each run, an interrupt is on its way, as [`interrupted`] says: one for RDA if bytes are held, and one for THRE
/// if the driver has bytes left to send and flow control does not stop it. If the run ends at none, bytes are held and
/// IER enables RDA, then RDA is pending already, before any turn. The bytes held at first are read out first, in order,
/// at least one in each run until none of them is left. If the driver sends its bytes in order, the same holds for the
/// bytes left to send at first, counting only the runs in which flow control never stops it.
///
/// So a byte that has i bytes before it in its direction is through after i + 1 such runs, whatever arrives meanwhile.
/// The law does not say that these runs come. That is up to the monitor and the guest. The monitor makes a turn while
/// `wants` names one, raises each interrupt that a call tells it to raise, and calls `refuse` if it cannot. The guest
/// runs its handler when it is interrupted. docs/EVERY-BYTE.md has all that this rests on.
pub fn each_byte_is_through()
    ensures { EachByteIsThroughLaw }
{
    by_lemmas();
}

/// The encoding of a console passes each check of a load, and states that have the same encoding are one state. So a
/// console that is saved and loaded has the state that it had, and no guest can tell the two apart.
pub fn saving()
    ensures passes { ConsoleEncodingLaw }
    ensures one_state { OneConsoleStateLaw }
{}

/// The prover's search does not apply the lemmas of these laws. So the functions above that state them call this one,
/// and its answers cite the lemmas.
fn by_lemmas()
    ensures wakes { WakeLaw }
    ensures no_needless { NoNeedlessWakeLaw }
    ensures input { InputLaw }
    ensures shut { GateLaw }
    ensures asleep { SleepLaw }
    ensures open { OpenLaw }
    ensures polled { PolledLaw }
    ensures in_order { OutputLaw }
    ensures room { RoomLaw }
    ensures consume { ConsumeLaw }
    ensures covered { CoveredLaw }
    ensures held { HeldLaw }
    ensures refused { RefusedLaw }
    ensures retry { RetryLaw }
    ensures kept { KeptLaw }
    ensures asked { AskedLaw }
    ensures pending { PendingLaw }
    ensures waiting { WaitingLaw }
    ensures sending { SendLaw }
    ensures start { StartLaw }
    ensures first { FirstLaw }
    ensures next { NextLaw }
    ensures reset { ResetLaw }
    ensures timeouts { TimeoutLaw }
    ensures monitored { MonitoredLaw }
    ensures through { EachByteIsThroughLaw }
{}
