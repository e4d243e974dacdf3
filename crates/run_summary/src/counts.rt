//! What is counted of a life.
#![tactic(auto)]

ghost use Rattle.std.specs.Prelude.{◌≡◌, ◌<◌, ◌≤◌, ◌*◌, ◌%◌, ◌^◌, length, map, count_by, sum_by};
ghost use Rattle.run_summary.specs.Summaries.{is_control, is_ctl, is_not_mine, is_planned, is_relay, relayed};

use mesh_types::answers::Answer;
use mesh_types::history::{Entry, Sent};
use mesh_types::lines::Outcome;

/// Whether an answer is `planned`.
#[tactic(auto, unfolding(crate::specs::Summaries::is_planned))]
fn is_planned(answer: &Answer) -> bool
    ensures value { result ≡ is_planned answer.now }
{
    matches!(answer, Answer::Planned)
}

/// Whether an answer is `control`.
#[tactic(auto, unfolding(crate::specs::Summaries::is_control))]
fn is_control(answer: &Answer) -> bool
    ensures value { result ≡ is_control answer.now }
{
    matches!(answer, Answer::Control { .. })
}

/// Whether an answer is `notmine`.
#[tactic(auto, unfolding(crate::specs::Summaries::is_not_mine))]
fn is_not_mine(answer: &Answer) -> bool
    ensures value { result ≡ is_not_mine answer.now }
{
    matches!(answer, Answer::NotMine)
}

/// Whether a line is `ctl`.
#[tactic(auto, unfolding(crate::specs::Summaries::is_ctl))]
fn is_ctl(outcome: &Outcome) -> bool
    ensures value { result ≡ is_ctl outcome.now }
{
    matches!(outcome, Outcome::Ctl { .. })
}

/// Whether a line is `relay`.
#[tactic(auto, unfolding(crate::specs::Summaries::is_relay))]
fn is_relay(outcome: &Outcome) -> bool
    ensures value { result ≡ is_relay outcome.now }
{
    matches!(outcome, Outcome::Relay { .. })
}

/// How many entries have which answers.
#[derive(Clone, Copy)]
pub struct AnswerCounts {
    /// `planned`.
    pub planned: u32,
    /// `control`.
    pub control: u32,
    /// `notmine`.
    pub not_mine: u32,
}

/// How many entries have which answers, of fewer than 2^32.
pub fn count_answers(entries: &[Entry]) -> AnswerCounts
    requires few { length entries.now < 2 ^ 32 }
    ensures planned { result.planned ≡ count_by (λ e. is_planned e.answer) entries.now }
    ensures control { result.control ≡ count_by (λ e. is_control e.answer) entries.now }
    ensures not_mine { result.not_mine ≡ count_by (λ e. is_not_mine e.answer) entries.now }
{
    let mut counts = AnswerCounts {
        planned: 0,
        control: 0,
        not_mine: 0,
    };
    for entry in entries {
        counts.planned += u32::from(is_planned(&entry.answer));
        counts.control += u32::from(is_control(&entry.answer));
        counts.not_mine += u32::from(is_not_mine(&entry.answer));
    }
    counts
}

/// How many control PDUs of the node a bearer sent.
fn count_ctl(sends: &[Sent]) -> usize
    ensures value { result ≡ count_by (λ s. is_ctl s.outcome) sends.now }
{
    sends.iter().filter(|s| is_ctl(&s.outcome)).count()
}

/// How many PDUs a bearer relayed.
fn count_relays(sends: &[Sent]) -> usize
    ensures value { result ≡ count_by (λ s. is_relay s.outcome) sends.now }
{
    sends.iter().filter(|s| is_relay(&s.outcome)).count()
}

/// How many octets of a PDU were relayed.
#[tactic(auto, unfolding(crate::specs::Summaries::relayed))]
fn octets_of(outcome: &Outcome) -> u32
    ensures value { result ≡ relayed outcome.now }
{
    match outcome {
        Outcome::Relay { pdu, .. } => pdu.as_slice().len() as u32,
        _ => 0,
    }
}

/// The octets of all PDUs that a bearer relayed, modulo 2^32.
fn count_octets(sends: &[Sent]) -> u32
    ensures value { result ≡ sum_by (λ s. relayed s.outcome) sends.now % 2 ^ 32 }
{
    let mut octets: u32 = 0;
    for sent in sends {
        octets = octets.wrapping_add(octets_of(&sent.outcome));
    }
    octets
}

/// What the lines of jobs come to.
#[derive(Clone, Copy)]
pub struct JobCounts {
    /// Control PDUs of the node.
    pub ctl: u128,
    /// PDUs that were relayed.
    pub relay: u128,
    /// Their octets, modulo 2^32.
    pub octets: u32,
}

/// What the lines of all bearers come to, of which there are at most 8.
pub fn count_jobs(sends: &[Vec<Sent>]) -> JobCounts
    requires few { length sends.now ≤ 8 }
    ensures ctl { result.ctl ≡ sum_by (λ ss. count_by (λ s. is_ctl s.outcome) ss) (map (λ v. v.items) sends.now) }
    ensures relay { result.relay
        ≡ sum_by (λ ss. count_by (λ s. is_relay s.outcome) ss) (map (λ v. v.items) sends.now) }
    ensures octets { result.octets
        ≡ sum_by (λ ss. sum_by (λ s. relayed s.outcome) ss) (map (λ v. v.items) sends.now) % 2 ^ 32 }
    ensures most { (result.ctl ≤ 8 * 2 ^ 64) × (result.relay ≤ 8 * 2 ^ 64) }
{
    let mut counts = JobCounts {
        ctl: 0,
        relay: 0,
        octets: 0,
    };
    for jobs in sends {
        let jobs = jobs.as_slice();
        counts.ctl += count_ctl(jobs) as u128;
        counts.relay += count_relays(jobs) as u128;
        counts.octets = counts.octets.wrapping_add(count_octets(jobs));
    }
    counts
}
