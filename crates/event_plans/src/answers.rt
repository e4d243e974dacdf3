//! The answers to events that bring no octets and no time.
#![tactic(auto)]

ghost use Rattle.std.specs.Prelude.{◌≡◌, fold};
ghost use Rattle.mesh_base.specs.IvState.{HasTransmit};
ghost use Rattle.event_plans.specs.Own.{asked_row, begin_calls, begin_row, low_power_row, raw_row, send_row};
ghost use Rattle.layer_states.specs.Sending.{after};
ghost use Rattle.node_records.specs.Tables.{config_in};
ghost use Rattle.segment_sender.specs.Held.{IsOutgoing};

use mesh_hearing::Tables;
use mesh_types::answers::Answer;
use mesh_types::events::{Event, Outgoing, SendKey};
use mesh_types::low_power::LowPowerAnswer;
use node_records::Persist;

// The answer to a control PDU that the node is asked to send.
fn raw_answer(p: &Persist) -> Answer
    ensures value { result ≡ raw_row (config_in p.now) }
{
    if p.reset {
        return Answer::Reset;
    }
    Answer::Planned
}

// The answer to an access message that the node is asked to send.
fn send_answer(p: &Persist, key: &SendKey) -> Answer
    ensures value { result ≡ send_row (config_in p.now) key.now }
{
    if p.reset {
        return Answer::Reset;
    }
    match key {
        SendKey::App(index) => {
            if p.has_app(*index) {
                Answer::Planned
            } else {
                Answer::NoAppKey { index: *index }
            }
        }
        _ => Answer::Planned,
    }
}

// The answer to what a Low Power node alone is told: this node has no friend.
fn low_power_answer(p: &Persist) -> Answer
    ensures value { result ≡ low_power_row (config_in p.now) }
{
    if p.reset {
        return Answer::Reset;
    }
    Answer::LowPower(LowPowerAnswer::NoFriend)
}

/// The answer to what the node is asked to send, an access message or a control PDU, and to what a Low Power node alone is told.
pub(crate) fn asked_answer(p: &Persist, event: &Event) -> Answer
    ensures value { result ≡ asked_row (config_in p.now) event.now }
{
    match event {
        Event::Send { key, .. } => send_answer(p, key),
        Event::LowPower(_) => low_power_answer(p),
        _ => raw_answer(p),
    }
}

/// The answer to an own segmented message that begins, by whether it goes to an address of a friendship, and what the
/// tables become.
pub(crate) fn begin_answer(
    tables: &mut Tables,
    p: &Persist,
    befriended: bool,
    m: &Outgoing,
) -> Answer
    requires transmit { HasTransmit p.now.iv }
    requires outgoing { IsOutgoing m.now }
    ensures value { result ≡ begin_row (config_in p.now) befriended tables.old.own m.now.name.pair }
    ensures tables { tables.new
        ≡ record tables.old { own = fold after tables.old.own (begin_calls tables.old.ticks m.now result) } }
{
    let transmit = p.iv.transmit();
    if m.name.pair.iv != transmit {
        return Answer::Moved { iv: transmit };
    }
    if befriended {
        return Answer::Befriended;
    }
    match tables.begin(m) {
        Ok(()) => Answer::Begun,
        Err(full) => Answer::SendFull { held: full.held },
    }
}
