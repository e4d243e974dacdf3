//! The two servers of an element.
#![tactic(auto)]

ghost use Rattle.std.specs.Prelude.{◌≡◌, ◌<◌, ◌≤◌, ◌+◌, ◌^◌, ◌++◌, length, map, pos, false, All, IfSome};
ghost use Rattle.std.specs.Option.{option_to_list};
ghost use Rattle.element_models.specs.Messages.{message_in, reply_in};
ghost use Rattle.element_models.specs.Stepping.{level_change, level_replied, level_step, level_stored, onoff_change, onoff_replied, onoff_step, onoff_stored, servers_first, servers_replied, servers_step, servers_stored};
ghost use Rattle.model_states.specs.Level.{level_after_payload, level_opened, level_reply};
ghost use Rattle.model_states.specs.OnOff.{onoff_after, onoff_opened, onoff_reply};
ghost use Rattle.node_records.specs.Tables.{config_in};
ghost use Rattle.store_definitions.specs.Ranges.{IsInRange};

use crate::message::Message;
use crate::taken::{Answered, ModelsTaken, value_record};
use crate::taking::takes;
use node_records::Persist;
use onoff_level_models::{Level, OnOff};

/// The Generic OnOff Server, by its number.
pub const ONOFF_SERVER: u16 = 0x1000;

/// The Generic Level Server.
pub const LEVEL_SERVER: u16 = 0x1002;

/// The Generic OnOff Server and the Generic Level Server of an element.
#[derive(Drop)]
pub struct Servers {
    pub(crate) onoff: OnOff,
    pub(crate) level: Level,
}

/// Off, and at level 0.
impl Default for Servers {
    ghost is_default = { λ s. s ≡ record { onoff = onoff_opened false; level = level_opened (pos 0) } };

    fn default() -> Servers {
        Servers {
            onoff: OnOff::new(0),
            level: Level::new(0),
        }
    }
}

/// The servers of an element as a life opens with them: with the values that the store keeps.
pub(crate) fn first_servers(p: &Persist, element: u8) -> Servers
    requires { element < 4 }
    ensures { result ≡ servers_first (config_in p.now) element }
{
    let on = p.onoffs[element as usize] == 1;
    let level = p.levels[element as usize].cast_signed();
    Servers {
        onoff: OnOff::new(u8::from(on)),
        level: Level::new(level),
    }
}

// The Generic OnOff Server takes a message.
fn answer_onoff(server: &mut OnOff, element: u8, now: u64, m: &Message<'_>) -> Answered
    requires { element < 4 }
    ensures change { option_to_list result.change
        ≡ onoff_change element server.old (onoff_after server.old now m.now.name.src m.now.dst m.now.payload.now) }
    ensures reply { result.reply ≡ onoff_reply server.old now m.now.name.src m.now.dst m.now.payload.now }
    ensures state { server.new ≡ onoff_after server.old now m.now.name.src m.now.dst m.now.payload.now }
    ensures range { IfSome result.change IsInRange }
{
    let before = server.rest();
    let reply = server.take(now, m.name.src, m.dst, m.payload);
    let after = server.rest();
    Answered {
        change: value_record(element, ONOFF_SERVER, u16::from(before), u16::from(after)),
        reply,
    }
}

// The Generic Level Server takes a message.
fn answer_level(server: &mut Level, element: u8, now: u64, m: &Message<'_>) -> Answered
    requires element { element < 4 }
    requires time { now ≤ 2 ^ 48 }
    ensures change { option_to_list result.change
        ≡ level_change element server.old
        (level_after_payload server.old now m.now.name.src m.now.dst m.now.payload.now) }
    ensures reply { result.reply ≡ level_reply server.old now m.now.name.src m.now.dst m.now.payload.now }
    ensures state { server.new ≡ level_after_payload server.old now m.now.name.src m.now.dst m.now.payload.now }
    ensures range { IfSome result.change IsInRange }
{
    let before = server.rest().cast_unsigned();
    let reply = server.take(now, m.name.src, m.dst, m.payload);
    let after = server.rest().cast_unsigned();
    Answered {
        change: value_record(element, LEVEL_SERVER, before, after),
        reply,
    }
}

// The Generic OnOff Server of an element takes a message, if it is one that it takes.
fn take_onoff(server: &mut OnOff, p: &Persist, element: u8, now: u64, m: &Message<'_>) -> Answered
    requires { element < 4 }
    ensures change { option_to_list result.change
        ≡ onoff_stored (config_in p.now) now (message_in m.now) element server.old }
    ensures reply { result.reply ≡ onoff_replied (config_in p.now) now (message_in m.now) element server.old }
    ensures state { server.new ≡ onoff_step (config_in p.now) now (message_in m.now) element server.old }
    ensures range { IfSome result.change IsInRange }
{
    if takes(p, element, ONOFF_SERVER, m) {
        answer_onoff(server, element, now, m)
    } else {
        Answered::nothing()
    }
}

// The Generic Level Server of an element takes a message, if it is one that it takes.
fn take_level(server: &mut Level, p: &Persist, element: u8, now: u64, m: &Message<'_>) -> Answered
    requires element { element < 4 }
    requires time { now ≤ 2 ^ 48 }
    ensures change { option_to_list result.change
        ≡ level_stored (config_in p.now) now (message_in m.now) element server.old }
    ensures reply { result.reply ≡ level_replied (config_in p.now) now (message_in m.now) element server.old }
    ensures state { server.new ≡ level_step (config_in p.now) now (message_in m.now) element server.old }
    ensures range { IfSome result.change IsInRange }
{
    if takes(p, element, LEVEL_SERVER, m) {
        answer_level(server, element, now, m)
    } else {
        Answered::nothing()
    }
}

/// Both servers of an element take a message. What is stored and what is replied goes behind what was `taken` of the elements before it.
pub(crate) fn take_at(
    s: &mut Servers,
    p: &Persist,
    element: u8,
    now: u64,
    m: &Message<'_>,
    taken: &mut ModelsTaken,
)
    requires element { element < 4 }
    requires time { now ≤ 2 ^ 48 }
    requires records { length taken.old.records ≤ 6 }
    requires replies { length taken.old.replies ≤ 6 }
    ensures state { s.new ≡ servers_step (config_in p.now) now (message_in m.now) element s.old }
    ensures records { taken.new.records
        ≡ taken.old.records ++ servers_stored (config_in p.now) now (message_in m.now) element s.old }
    ensures replies { map reply_in taken.new.replies
        ≡ map reply_in taken.old.replies ++ servers_replied (config_in p.now) now (message_in m.now) element s.old }
    ensures records_grow { length taken.new.records ≤ length taken.old.records + 2 }
    ensures replies_grow { length taken.new.replies ≤ length taken.old.replies + 2 }
    ensures ranges { All IsInRange taken.old.records → All IsInRange taken.new.records }
{
    let onoff = take_onoff(&mut s.onoff, p, element, now, m);
    taken.put(element, onoff);
    let level = take_level(&mut s.level, p, element, now, m);
    taken.put(element, level);
}
