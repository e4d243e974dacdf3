//! The Numbers records of a refill and of a new IV state.
#![tactic(auto)]

ghost use Rattle.std.specs.Prelude.{◌≡◌, ◌*◌, ◌^◌, ◌<◌, ◌≤◌, nat_lt, if◌then◌else◌};
ghost use Rattle.mesh_base.specs.IvState.{HasTransmit, transmit_of};
ghost use Rattle.node_records.specs.Tables.{config_in};
ghost use Rattle.node_store.specs.Numbers.{HasNumbers};
ghost use Rattle.node_store.specs.Tie.{IsNotBelow};
ghost use Rattle.seq_reserve.specs.Reserving.{first_word};
ghost use Rattle.seq_word.specs.Word.{seq_of};
ghost use Rattle.store_definitions.specs.Numbers.{fill_of, moved};
ghost use Rattle.store_definitions.specs.Ranges.{IsInRange, IsMark};

use mesh_base::iv_state::IvState;
use node_records::Persist;
use record_types::records::StoreRecord;
use seq_word::word::{BLOCK, WORDS_PER_IV};

/// The record of a refill: the IV state as it is, and the mark a block higher.
pub(crate) fn fill_record(p: &Persist) -> StoreRecord
    requires numbers { HasNumbers p.now }
    requires unspent { seq_of p.now.mark < 2 ^ 24 }

    ensures value { result ≡ fill_of (config_in p.now) }
    ensures range { IsInRange result }
    ensures rises { IsNotBelow p.now result }
{
    StoreRecord::Numbers {
        current: p.iv.current,
        progress: p.iv.progress,
        mark: p.mark + BLOCK,
        hours: p.iv.hours,
        since: p.iv.since,
    }
}

/// Whether the transmit IV Index rises with a new IV state.
pub(crate) fn raises(p: &Persist, to: &IvState) -> bool
    requires numbers { HasNumbers p.now }
    requires transmit { HasTransmit to.now }

    ensures { result ≡ nat_lt (transmit_of p.now.iv) (transmit_of to.now) }
{
    p.iv.transmit() < to.transmit()
}

/// The mark under a new IV state: the first word of its transmit IV Index where that rises, and else the mark of before.
fn mark_under(p: &Persist, to: &IvState) -> u64
    requires numbers { HasNumbers p.now }
    requires transmit { HasTransmit to.now }
    requires rises { transmit_of p.now.iv ≤ transmit_of to.now }

    ensures value { result
        ≡ (if nat_lt (transmit_of p.now.iv) (transmit_of to.now) then first_word to.now else p.now.mark) }
    ensures range { IsMark to.now result }
    ensures rises { p.now.mark ≤ result }
{
    if raises(p, to) {
        u64::from(to.transmit()) * WORDS_PER_IV
    } else {
        p.mark
    }
}

/// What the type of an IV state says of its fields, as clauses that a proof can cite.
fn iv_fits(iv: IvState)
    ensures current { iv.current < 2 ^ 32 }
    ensures hours { iv.hours < 2 ^ 16 }
    ensures since { iv.since < 2 ^ 16 }
{}

/// The record of a new IV state.
pub(crate) fn move_record(p: &Persist, to: &IvState) -> StoreRecord
    requires numbers { HasNumbers p.now }
    requires transmit { HasTransmit to.now }
    requires current { p.now.iv.current ≤ to.now.current }
    requires rises { transmit_of p.now.iv ≤ transmit_of to.now }

    ensures value { result ≡ moved (config_in p.now) to.now }
    ensures range { IsInRange result }
    ensures rises { IsNotBelow p.now result }
{
    iv_fits(*to);
    StoreRecord::Numbers {
        current: to.current,
        progress: to.progress,
        mark: mark_under(p, to),
        hours: to.hours,
        since: to.since,
    }
}
