//! The record of a new IV state.
#![tactic(auto)]

ghost use Rattle.std.specs.Prelude.{◌≡◌, ◌+◌, ◌*◌, ◌^◌, ◌<◌, ◌≤◌, ◌++◌, nat_lt, if◌then◌else◌, length, List, ◌∷◌, []};
ghost use Rattle.std.specs.Option.{option_to_list};
ghost use Rattle.event_records.specs.Putting.{AreMoves, ArePuttable};
ghost use Rattle.event_records.specs.Steps.{LeadsOn};
ghost use Rattle.iv_update.specs.Steps.{IsLater};
ghost use Rattle.mesh_base.specs.IvState.{HasTransmit, transmit_of};
ghost use Rattle.node_records.specs.Tables.{config_in};
ghost use Rattle.node_records.specs.declared.persist.Persist.{Persist};
ghost use Rattle.event_definitions.specs.Stores.{step_records};
ghost use Rattle.store_definitions.specs.Config.{Config};
ghost use Rattle.store_definitions.specs.Numbers.{moved as moved_in};
ghost use Rattle.store_definitions.specs.Ranges.{IsMark};

use crate::Records;
use mesh_base::iv_state::{IvState, IvStep};
use node_records::Persist;
use record_types::records::StoreRecord;

// The mark under a new IV state: where the transmit IV Index rises, SEQ starts at 0 under it; else the mark stays.
fn mark_under(p: &Persist, s: &IvState) -> u64
    requires old { HasTransmit p.now.iv }
    requires new { HasTransmit s.now }
    ensures { result
        ≡ (if nat_lt (transmit_of p.now.iv) (transmit_of s.now) then transmit_of s.now * 2 ^ 25 else p.now.mark) }
{
    let transmit = s.transmit();
    if p.iv.transmit() < transmit {
        u64::from(transmit) << 25
    } else {
        p.mark
    }
}

// What the types of a state's numbers say of them, as clauses that a proof can cite.
fn in_widths(current: u32, hours: u16, since: u16)
    ensures current { current < 2 ^ 32 }
    ensures hours { hours < 2 ^ 16 }
    ensures since { since < 2 ^ 16 }
{}

/// The record of a new IV state.
pub(crate) fn moved(p: &Persist, s: &IvState) -> StoreRecord
    requires old { HasTransmit p.now.iv }
    requires new { HasTransmit s.now }
    ensures value { result ≡ moved_in (config_in p.now) s.now }
    ensures may { IsMark p.now.iv p.now.mark → IsLater p.now.iv s.now → (q : Persist) → q.iv.current ≡ p.now.iv.current
        → q.mark ≡ p.now.mark
        → ArePuttable q (result ∷ []) }
    ensures moves { IsLater p.now.iv s.now → (c : Config) → c.iv.current ≡ p.now.iv.current
        → c.iv.progress ≡ p.now.iv.progress → c.mark ≡ p.now.mark
        → AreMoves c (result ∷ []) }
{
    in_widths(s.current, s.hours, s.since);
    StoreRecord::Numbers {
        current: s.current,
        progress: s.progress,
        mark: mark_under(p, s),
        hours: s.hours,
        since: s.since,
    }
}

/// The record of the state that a step leads to, if it leads to one.
pub(crate) fn step_record(p: &Persist, step: &IvStep) -> Option<StoreRecord>
    requires old { HasTransmit p.now.iv }
    requires step { LeadsOn p.now.iv step.now }
    ensures value { option_to_list result ≡ step_records (config_in p.now) step.now }
    ensures may { IsMark p.now.iv p.now.mark → (q : Persist) → q.iv.current ≡ p.now.iv.current → q.mark ≡ p.now.mark
        → ArePuttable q (option_to_list result) }
    ensures moves { (c : Config) → c.iv.current ≡ p.now.iv.current → c.iv.progress ≡ p.now.iv.progress
        → c.mark ≡ p.now.mark
        → AreMoves c (option_to_list result) }
{
    match step {
        IvStep::Begin(s) => Some(moved(p, s)),
        IvStep::Finish(s) => Some(moved(p, s)),
        IvStep::Recover(s) => Some(moved(p, s)),
        IvStep::Ignore { .. } => None,
        IvStep::Wait => None,
    }
}

/// Puts a record, if there is one, behind the others.
pub(crate) fn add(records: &mut Records, item: Option<StoreRecord>)
    requires { length records.old < 10 }
    ensures value { records.new ≡ records.old ++ option_to_list item }
    ensures few { length records.new ≤ length records.old + 1 }
{
    if let Some(item) = item {
        let _ = records.push(item);
    }
}
