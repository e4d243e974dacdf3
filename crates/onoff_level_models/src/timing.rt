//! Transition times, delays, remaining times and transactions (Mesh Model 1.0.1, sections 3.1.3, 3.3.1.2.2 and 3.3.2.2.2).
#![tactic(auto)]

ghost use Rattle.std.specs.Prelude.{◌≡◌, ◌<◌, ◌+◌, ◌-◌};
ghost use Rattle.model_states.specs.Timing.{duration_of, is_delayed, is_over, is_repeated, remaining_time, step_ticks, steps_for, ticks_left, timing_of, transaction};

use mesh_base::address::Address;
use model_states::models::{Timing, Transaction};

/// The most steps of a transition time that is known.
const MOST_STEPS: u64 = 0x3e;

/// The ticks after which a message is no more of the transaction of the one before.
const TRANSACTION_TICKS: u64 = 600;

// The ticks of one step, by the resolution, the high 2 bits of a transition time.
fn step_of(resolution: u8) -> u32
    ensures { result ≡ step_ticks resolution }
{
    match resolution {
        0 => 10,
        1 => 100,
        2 => 1000,
        _ => 60_000,
    }
}

/// What stands at the end of a set message: a transition time and a delay, or nothing; else None, also where the time isn't known.
pub fn timing_of(params: &[u8]) -> Option<Timing>
    ensures { result ≡ timing_of params.now }
{
    match params {
        [] => Some(Timing {
            delay: 0,
            duration: 0,
        }),
        [time, delay] if time % 64 < 0x3f => Some(Timing {
            delay: delay.div_ceil(2),
            duration: u32::from(time % 64) * step_of(time / 64),
        }),
        _ => None,
    }
}

// The steps of so many ticks that suffice, rounded up.
fn steps_for(ticks: u64, step: u64) -> u64
    requires { 0 < step }
    ensures { result ≡ steps_for ticks step }
{
    ticks.div_ceil(step)
}

/// Remaining Time for so many ticks: the octet of the smallest step of which at most 3e suffice, and at most 3e of the largest.
#[tactic(auto, unfolding(model_states::specs::Timing::remaining_time))]
pub fn remaining_time(ticks: u64) -> u8
    ensures { result ≡ remaining_time ticks }
{
    let hundreds_of_milliseconds = steps_for(ticks, 10);
    if hundreds_of_milliseconds <= MOST_STEPS {
        return hundreds_of_milliseconds as u8;
    }
    let seconds = steps_for(ticks, 100);
    if seconds <= MOST_STEPS {
        return 0x40 + seconds as u8;
    }
    let tens_of_seconds = steps_for(ticks, 1000);
    if tens_of_seconds <= MOST_STEPS {
        return 0x80 + tens_of_seconds as u8;
    }
    0xc0 + MOST_STEPS.min(steps_for(ticks, 60_000)) as u8
}

/// The ticks since a change was taken.
pub fn elapsed(taken: u64, now: u64) -> u64
    ensures { result ≡ now - taken }
{
    now.saturating_sub(taken)
}

/// Whether the delay isn't over yet, so many ticks after the change was taken.
pub fn is_delayed(t: &Timing, elapsed: u64) -> bool
    ensures { result ≡ is_delayed t.now elapsed }
{
    elapsed < u64::from(t.delay)
}

/// The ticks of delay and transition together.
pub(crate) fn whole(t: &Timing) -> u64
    ensures { result ≡ t.now.delay + t.now.duration }
{
    u64::from(t.delay) + u64::from(t.duration)
}

/// Whether delay and transition are over, so many ticks after the change was taken.
pub fn is_over(t: &Timing, elapsed: u64) -> bool
    ensures { result ≡ is_over t.now elapsed }
{
    whole(t) <= elapsed
}

/// The ticks of delay and transition that are left.
pub fn ticks_left(t: &Timing, elapsed: u64) -> u64
    ensures { result ≡ ticks_left t.now elapsed }
{
    whole(t).saturating_sub(elapsed)
}

/// Whether a set message is of the transaction of the last one: it has the same SRC, DST and TID, and comes less than 600 ticks after
/// the last one of it.
pub fn is_repeated(
    last: &Option<Transaction>,
    now: u64,
    src: Address,
    dst: Address,
    tid: u8,
) -> bool
    ensures { result ≡ is_repeated last.now now src dst tid }
{
    match last {
        None => false,
        Some(t) => {
            t.src == src
                && t.dst == dst
                && t.tid == tid
                && elapsed(t.renewed, now) < TRANSACTION_TICKS
        }
    }
}

/// The transaction of a set message that is taken now.
pub fn transaction(now: u64, src: Address, dst: Address, tid: u8) -> Transaction
    ensures { result ≡ transaction now src dst tid }
{
    Transaction {
        src,
        dst,
        tid,
        renewed: now,
    }
}
