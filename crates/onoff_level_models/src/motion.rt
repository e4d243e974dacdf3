//! Where a level is on its way (Mesh Model 1.0.1, section 3.1.2).
#![tactic(auto)]

ghost use Rattle.std.specs.Prelude.{◌≡◌, ◌<◌, ◌≤◌, ◌^◌, ◌*ℤ◌, ◌+ℤ◌, ◌-ℤ◌, pos, unsigned_abs};
ghost use Rattle.model_states.specs.Level.{in_range, is_level_over, level_after, level_present, limit, way_gone};
ghost use Rattle.model_states.specs.declared.models.Goal.TheVariants as G;

use crate::timing::{elapsed, is_delayed, is_over};
use model_states::models::{Goal, LevelState};

/// The nearest level to a number.
pub fn in_range(level: i64) -> i16
    ensures { result ≡ in_range level }
{
    level.clamp(i64::from(i16::MIN), i64::from(i16::MAX)) as i16
}

/// The last level in the direction of a Move.
pub fn limit(delta: i16) -> i16
    ensures { result ≡ limit delta }
{
    if delta < 0 { i16::MIN } else { i16::MAX }
}

// The way from one level to another.
fn way(start: i16, target: i16) -> i64
    ensures value { result ≡ target -ℤ start }
    ensures bound { unsigned_abs result < 2 ^ 16 }
{
    i64::from(target) - i64::from(start)
}

// The part of a way between two levels that is gone before the transition is over.
fn part_of(way: i64, ticks: u64, duration: u32) -> i64
    requires bound { unsigned_abs way < 2 ^ 16 }
    requires ticks { ticks < duration }
    ensures { result ≡ way_gone way ticks duration }
{
    way * ticks as i64 / i64::from(duration)
}

// The level on its way to a target, before the transition is over.
fn level_to(start: i16, target: i16, duration: u32, ticks: u64) -> i16
    requires { ticks < duration }
    ensures { result ≡ level_after start (G.To target) duration ticks }
{
    let part = part_of(way(start, target), ticks, duration);
    (i64::from(start) + part) as i16
}

// A delta so many times.
fn times(delta: i16, ticks: u64) -> i64
    requires { ticks ≤ 2 ^ 48 }
    ensures { result ≡ delta *ℤ pos ticks }
{
    i64::from(delta) * ticks as i64
}

// How far a Move has come; nowhere in no time.
fn moved_by(delta: i16, ticks: u64, duration: u32) -> i64
    requires { ticks ≤ 2 ^ 48 }
    ensures { result ≡ way_gone delta ticks duration }
{
    times(delta, ticks)
        .checked_div(i64::from(duration))
        .unwrap_or(0)
}

// The level of a Move, which stops at its limit.
fn level_along(start: i16, delta: i16, duration: u32, ticks: u64) -> i16
    requires { ticks ≤ 2 ^ 48 }
    ensures { result ≡ level_after start (G.Along delta) duration ticks }
{
    let moved = moved_by(delta, ticks, duration);
    in_range(i64::from(start).saturating_add(moved))
}

/// Present Level at this moment, which is at most 2^48.
pub fn level_at(s: &LevelState, now: u64) -> i16
    requires { now ≤ 2 ^ 48 }
    ensures { result ≡ level_present s.now now }
{
    let elapsed = elapsed(s.taken, now);
    if is_delayed(&s.timing, elapsed) {
        return s.start;
    }
    let ticks = elapsed - u64::from(s.timing.delay);
    let duration = s.timing.duration;
    match s.goal {
        Goal::To(target) if ticks >= u64::from(duration) => target,
        Goal::To(target) => level_to(s.start, target, duration, ticks),
        Goal::Along(delta) => level_along(s.start, delta, duration, ticks),
    }
}

/// Whether the last change is over at this moment, which is at most 2^48.
pub fn is_level_over(s: &LevelState, now: u64) -> bool
    requires { now ≤ 2 ^ 48 }
    ensures { result ≡ is_level_over s.now now }
{
    let elapsed = elapsed(s.taken, now);
    match s.goal {
        Goal::To(_) => is_over(&s.timing, elapsed),
        Goal::Along(delta) => !is_delayed(&s.timing, elapsed) && level_at(s, now) == limit(delta),
    }
}
