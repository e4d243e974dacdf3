//! The moment at which the first of some timers ends. Moments are in ticks of 10 ms of a life, and those of a life are at most 2^48. A moment
//! that lies behind that never comes. Where no timer runs there is no such moment.
#![tactic(auto)]

ghost use Rattle.std.specs.Prelude.{◌≡◌, ℕ, ◌+◌, ◌-◌, ◌*◌, ◌/◌, ◌<◌, ◌≤◌, ◌^◌, ◌↔◌};
ghost use Rattle.timer_ends.specs.Ends.{IsBefore};

/// The sooner of two ends.
pub fn sooner(a: Option<u64>, b: Option<u64>) -> Option<u64>
    ensures before { (now : ℕ) → IsBefore now result ↔ (IsBefore now a × IsBefore now b) }
{
    match a {
        None => b,
        Some(first) => match b {
            None => a,
            Some(second) => Some(first.min(second)),
        },
    }
}

/// So many ticks after a moment; it stops at the last number of 64 bits.
pub fn end_after(from: u64, ticks: u64) -> u64
    requires { 0 < ticks }
    ensures end { (now : ℕ) → now ≤ 2 ^ 48 → now - from < ticks ↔ now < result }
{
    from.saturating_add(ticks)
}

/// The first end of a period of so many ticks behind a moment, where periods follow one another from the moment `from` on: until then as many
/// are over as at that moment.
pub fn period_end(period: u64, from: u64, moment: u64) -> u64
    requires { 0 < period }
    ensures end { (now : ℕ) → now ≤ 2 ^ 48 → (now - from) / period ≤ (moment - from) / period ↔ now < result }
{
    let over = moment.saturating_sub(from) / period;
    from.saturating_add(over.saturating_add(1).saturating_mul(period))
}
