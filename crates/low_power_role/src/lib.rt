//! The Low Power node as a kind of node (Mesh Profile 1.0.1, section 3.6.6): what it reads, answers, stores and sends, apart from all code.
//! A run of it is one by the same relation as a run of a node (`run_definitions`), and so it is safe by the same law (`run_safety`). There
//! is no code here: each law is the contract of a function that does nothing.
//!
//! - `State` (in `specs/`): the calls on what it knows of its friend that a life so far is
//! - `Answers`, `Readings`: what it answers, and what it reads octets as
//! - `Role`: what it stores and sends, and all of it as a kind of node
//! - `Laws`: what holds of every run, and of every life
#![tactic(auto)]

ghost use Rattle.low_power_role.specs.Laws.{FsnCountsAnswers, RunsDeliverOnce, RunsReuseNothing, StateGoesOn};
ghost use Rattle.low_power_role.specs.Role.{low_power_role};
ghost use Rattle.run_safety.specs.SafeRole.{IsSafeRole};

use low_power_definitions::laws::polls_law;

/// A Low Power node is a safe kind of node: no run of it reuses a nonce or delivers a message twice.
pub fn low_power_runs_law()
    ensures safe { IsSafeRole low_power_role }
    ensures no_reuse { RunsReuseNothing }
    ensures at_most_once { RunsDeliverOnce }
{}

/// What a Low Power node knows of its friend is the state after the calls of a life's entries, and an entry more is its calls more.
pub fn low_power_state_law()
    ensures goes_on { StateGoesOn }
{}

/// In each life of a run two Polls of one friendship have the same FSN exactly where an even number of Polls was closed between them.
pub fn low_power_fsn_law()
    ensures fsn { FsnCountsAnswers }
{
    // It does nothing when it runs: the proof uses what it says.
    polls_law();
}
