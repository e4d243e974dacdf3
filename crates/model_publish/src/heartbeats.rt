//! Periods and counts of a heartbeat, and whether one is due (Mesh Profile 1.0.1, section 4.2.17).
#![tactic(auto)]

ghost use Rattle.std.specs.Prelude.{◌≡◌, ◌≤◌, ◌<◌};
ghost use Rattle.model_states.specs.Publication.{count_log, heartbeat_after, heartbeat_at, heartbeat_count, heartbeat_period, is_heartbeat_due, is_none_left, is_time, least_log, one_less};

use crate::rows::has_period_ended;
use model_states::publication::{Heartbeat, HeartbeatRow};

/// The greatest log of a period and of a count that isn't prohibited.
const MOST_LOG: u8 = 0x11;

/// The number of heartbeats of the greatest log of a count.
const MOST_COUNT: u16 = 65_534;

/// The Count Log of a heartbeat without an end.
const NO_END: u8 = 0xff;

/// The ticks of a period; 0 where there is none.
pub(crate) fn heartbeat_period(log: u8) -> u64
    ensures { result ≡ heartbeat_period log }
{
    if log == 0 || log > MOST_LOG {
        0
    } else {
        100 * 2_u64.pow(u32::from(log) - 1)
    }
}

// How many heartbeats a log stands for; None without an end.
fn heartbeat_count(log: u8) -> Option<u16>
    ensures { result ≡ heartbeat_count log }
{
    match log {
        NO_END => None,
        MOST_LOG => Some(MOST_COUNT),
        0x01..=0x10 => Some(2_u16.pow(u32::from(log) - 1)),
        _ => Some(0),
    }
}

/// A heartbeat that is set at this moment.
pub fn heartbeat_at(now: u64, row: &HeartbeatRow) -> Heartbeat
    ensures { result ≡ heartbeat_at now row.now }
{
    Heartbeat {
        row: *row,
        accepted: now,
        asked: None,
        left: heartbeat_count(row.count),
    }
}

/// Whether all of a heartbeat were sent.
pub(crate) fn is_none_left(left: Option<u16>) -> bool
    ensures { result ≡ is_none_left left }
{
    match left {
        None => false,
        Some(n) => n == 0,
    }
}

// Whether it is time for one: it was never asked, or a period ended since then.
fn is_time(period: u64, accepted: u64, asked: Option<u64>, now: u64) -> bool
    ensures { result ≡ is_time period accepted asked now }
{
    match asked {
        None => true,
        Some(asked) => has_period_ended(period, accepted, asked, now),
    }
}

/// Whether a heartbeat is due at this moment.
pub fn is_heartbeat_due(now: u64, h: &Heartbeat) -> bool
    ensures { result ≡ is_heartbeat_due now h.now }
{
    let period = heartbeat_period(h.row.period);
    h.row.dst.0 != 0
        && period != 0
        && !is_none_left(h.left)
        && is_time(period, h.accepted, h.asked, now)
}

// One less of those that are left.
fn one_less(left: Option<u16>) -> Option<u16>
    ensures { result ≡ one_less left }
{
    match left {
        None => None,
        Some(n) => Some(n.saturating_sub(1)),
    }
}

/// The heartbeat after it was asked at this moment whether one is due.
pub fn heartbeat_after(now: u64, h: &Heartbeat) -> Heartbeat
    ensures { result ≡ heartbeat_after now h.now }
{
    let left = if is_heartbeat_due(now, h) {
        one_less(h.left)
    } else {
        h.left
    };
    Heartbeat {
        asked: Some(now),
        left,
        ..*h
    }
}

// The least log that stands for at least so many.
fn least_log(n: u16) -> u8
    ensures { result ≡ least_log 16 1 n }
{
    let mut reach = 1;
    for log in 1..MOST_LOG {
        if u32::from(n) <= reach {
            return log;
        }
        reach *= 2;
    }
    MOST_LOG
}

/// The Count Log that a Status shows for what is left.
pub fn count_log(left: Option<u16>) -> u8
    ensures { result ≡ count_log left }
{
    match left {
        None => NO_END,
        Some(0) => 0,
        Some(n) => least_log(n),
    }
}
