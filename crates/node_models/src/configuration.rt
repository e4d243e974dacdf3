//! What a message asks the Configuration Server for, what the records then say, and what is published by that.
#![tactic(auto)]

ghost use Rattle.std.specs.Prelude.{◌≡◌, ◌≤◌, ◌<◌, ◌^◌, IfSome, Some, length};
ghost use Rattle.std.specs.Option.{option_map_or};
ghost use Rattle.element_models.specs.Messages.{message_in};
ghost use Rattle.model_publish.specs.Own.{AreRowsOf, IsOwnRow};
ghost use Rattle.model_states.specs.Publication.{heartbeat_set, row_set};
ghost use Rattle.node_layers.specs.Configuration.{config_act, is_for_server};
ghost use Rattle.node_layers.specs.Friendship.{config_after};
ghost use Rattle.node_layers.specs.Publishing.{published_by_act, stored_row};
ghost use Rattle.node_models.specs.Acts.{AsksShort, StoresOwn};
ghost use Rattle.node_records.specs.Tables.{config_in};
ghost use Rattle.record_types.specs.declared.records.PublishRow.{PublishRow};

use config_definitions::acts::ConfigAct;
use element_models::Message;
use mesh_base::address::Address;
use mesh_base::keys::UpperKey;
use model_publish::{HeartbeatRow, Publisher, rows_law};
use node_records::{Persist, StoreRecord};

// Whether the Configuration Server takes a message: it is sealed with the device key, and goes to the first element.
fn is_for_server(p: &Persist, m: &Message<'_>) -> bool
    ensures { result ≡ is_for_server (config_in p.now) (message_in m.now) }
{
    match &m.key {
        UpperKey::Device(_) => m.dst.0 == p.unicast.0,
        UpperKey::App { .. } => false,
    }
}

/// What a message asks the Configuration Server for; None where it isn't one for it, or is no configuration message. `beat` is the heartbeat as
/// a Status shows it, and `polls` are the Low Power nodes of friendships with their PollTimeouts.
pub(crate) fn config_act(
    p: &Persist,
    polls: &[(Address, u32)],
    beat: &HeartbeatRow,
    m: &Message<'_>,
) -> Option<ConfigAct>
    requires few { p.now.elements ≤ 4 }
    ensures value { result ≡ config_act (config_in p.now) polls.now beat.now (message_in m.now) }
    ensures own { StoresOwn p.now result }
    ensures ttl { AsksShort result }
    ensures octet { IfSome result (λ act. 1 ≤ length act.reply) }
{
    if !is_for_server(p, m) {
        return None;
    }
    config_server::take(p, m.net, polls, beat, m.payload).ok()
}

/// The Default TTL that the records say behind what a message asks for.
pub(crate) fn ttl_behind(p: &Persist, act: &Option<ConfigAct>) -> u8
    requires short { AsksShort act.now }
    ensures value { result ≡ (config_after (config_in p.now) act.now).ttl }
    ensures short { p.now.ttl < 2 ^ 7 → result < 2 ^ 7 }
{
    match act {
        Some(
            ConfigAct {
                change: Some(item),
                ..
            },
        ) => p.ttl_after(item),
        _ => p.ttl,
    }
}

// A row that is stored is published by from this moment on.
fn set_row(publisher: &mut Publisher, p: &Persist, now: u64, change: &Option<StoreRecord>)
    requires few { p.now.elements ≤ 4 }
    requires rows { AreRowsOf p.now.unicast.0 p.now.elements publisher.old.rows }
    requires own { (row : PublishRow) → stored_row change.now ≡ Some row → IsOwnRow p.now.unicast.0 p.now.elements row }
    ensures state { publisher.new ≡ option_map_or (row_set publisher.old now) (stored_row change.now) publisher.old }
    ensures rows { AreRowsOf p.now.unicast.0 p.now.elements publisher.new.rows }
{
    rows_law();
    if let Some(StoreRecord::Publish { row }) = change {
        publisher.set(now, row);
    }
}

// A heartbeat that is set is sent from this moment on.
fn set_beat(publisher: &mut Publisher, now: u64, beat: &Option<HeartbeatRow>)
    ensures state { publisher.new ≡ option_map_or (heartbeat_set publisher.old now) beat.now publisher.old }
{
    if let Some(row) = beat {
        publisher.heartbeat_set(now, row);
    }
}

/// What a message asks for is published from this moment on.
pub(crate) fn publish(publisher: &mut Publisher, p: &Persist, now: u64, act: &Option<ConfigAct>)
    requires few { p.now.elements ≤ 4 }
    requires rows { AreRowsOf p.now.unicast.0 p.now.elements publisher.old.rows }
    requires own { StoresOwn p.now act.now }
    ensures state { publisher.new ≡ option_map_or (published_by_act publisher.old now) act.now publisher.old }
    ensures rows { AreRowsOf p.now.unicast.0 p.now.elements publisher.new.rows }
{
    if let Some(act) = act {
        set_row(publisher, p, now, &act.change);
        set_beat(publisher, now, &act.beat);
    }
}
