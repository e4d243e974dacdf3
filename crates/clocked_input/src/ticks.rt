//! Time in ticks of 10 ms, and when it is told.
#![tactic(auto)]

ghost use Rattle.std.specs.Prelude.{◌≡◌, ◌+◌, ◌<◌, ◌≤◌, true, IfSome};
ghost use Rattle.live_lines.specs.Clock.{HasPassed};
ghost use Rattle.clocked_input.specs.Telling.{awaited_ticks, end_of, passed_at, told_now};

use live_lines::Awaited;

/// The length of a tick: 10 ms.
const TICK_NANOS: u64 = 10_000_000;

/// The most ticks that are told at once: as many as a line `tick` may say.
const MOST_TICKS: u32 = 100_000_000;

/// How many ticks passed that weren't told, so many nanoseconds behind the beginning, where these were told: at most as many as a line says.
pub(crate) fn passed_at(told: u64, nanos: u64) -> u32
    ensures value { result ≡ passed_at told nanos }
    ensures few { result ≤ 100000000 }
{
    let untold = (nanos / TICK_NANOS).saturating_sub(told);
    untold.min(u64::from(MOST_TICKS)) as u32
}

/// The ticks that are told where nothing comes before: those that are due, at least one and at most as many as a line says.
fn awaited_ticks(due: u32) -> u32
    ensures value { result ≡ awaited_ticks due }
{
    due.max(1).min(MOST_TICKS)
}

/// For how many nanoseconds is waited where nothing is ready, so many behind the beginning: until what is due comes.
pub(crate) fn left_to(told: u64, due: u32, nanos: u64) -> u64
    requires early { passed_at told nanos < awaited_ticks due }
    ensures value { nanos + result ≡ end_of told due }
{
    let end = told
        .saturating_add(u64::from(awaited_ticks(due)))
        .saturating_mul(TICK_NANOS);
    end - nanos
}

/// What is told now, if anything: whether something is ready, whether the last that was told was time, how many ticks passed since, and in how
/// many something is due.
pub(crate) fn told_now(ready: bool, told_time: bool, passed: u32, due: u32) -> Option<Awaited>
    ensures value { result ≡ told_now ready told_time passed due }
    ensures passed { passed ≤ 100000000 → IfSome result (HasPassed true) }
{
    if ready && (told_time || passed == 0) {
        Some(Awaited::Input)
    } else if ready || passed >= awaited_ticks(due) {
        Some(Awaited::Passed(passed))
    } else {
        None
    }
}
