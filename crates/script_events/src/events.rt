//! The event of a line.
#![tactic(auto)]

ghost use Rattle.std.specs.Prelude.{◌≡◌, ◌≤◌, length};
ghost use Rattle.std.specs.Option.{option_map};
ghost use Rattle.mesh_types.specs.declared.events.Event.TheVariants as E;
ghost use Rattle.script_definitions.specs.Events as Said;
ghost use Rattle.script_definitions.specs.Ranges.{IsPayload};
ghost use Rattle.script_events.specs.Happenings.{IsRead, said};
ghost use Rattle.script_events.specs.Kept.{behind};

use crate::outside::{OutsideNode, beacon_octets};
use mesh_base::octets::Octets;
use mesh_types::events::Event;
use mesh_types::low_power::LowPowerEvent;
use script_definitions::line::{RawLine, ScriptLine, SendLine};

/// Something that happens on a bearer.
#[derive(Debug, Drop, PartialEq, Eq)]
pub struct Happening {
    /// The bearer, from 0 on.
    pub bearer: u8,
    /// What happens.
    pub event: Event,
}

/// Octets heard.
fn heard(octets: &[u8]) -> Octets<40>
    requires most { length octets.now ≤ 40 }
    ensures value { result ≡ octets.now }
{
    let mut heard = Octets::new();
    heard.extend(octets);
    heard
}

/// A network PDU heard on a bearer.
fn pdu_on(bearer: u8, octets: &[u8]) -> Option<Happening>
    requires most { length octets.now ≤ 40 }
    ensures value { option_map said result ≡ Said.on bearer (E.Net octets.now) }
{
    Some(Happening {
        bearer,
        event: Event::Net(heard(octets)),
    })
}

/// A beacon heard on a bearer.
fn beacon_on(bearer: u8, octets: &[u8]) -> Option<Happening>
    requires most { length octets.now ≤ 40 }
    ensures value { option_map said result ≡ Said.on bearer (E.Bcn octets.now) }
{
    Some(Happening {
        bearer,
        event: Event::Bcn(heard(octets)),
    })
}

/// What a line `send` asks for on a bearer.
fn sending_on(bearer: u8, send: &SendLine) -> Option<Happening>
    requires payload { IsPayload send.now.payload }
    ensures value { option_map said result
        ≡ Said.on bearer (E.Send send.now.element send.now.dst send.now.ttl send.now.key send.now.payload) }
{
    let mut payload = Octets::new();
    payload.extend(send.payload.as_slice());
    Some(Happening {
        bearer,
        event: Event::Send {
            element: send.element,
            dst: send.dst,
            ttl: send.ttl,
            key: send.key,
            payload,
        },
    })
}

/// What a line `raw` asks for on a bearer.
fn raw_on(bearer: u8, raw: &RawLine) -> Option<Happening>
    ensures value { option_map said result ≡ Said.on bearer (E.Raw raw.now.dst raw.now.ttl raw.now.tpdu) }
{
    Some(Happening {
        bearer,
        event: Event::Raw {
            dst: raw.dst,
            ttl: raw.ttl,
            tpdu: raw.tpdu.copied(),
        },
    })
}

/// Time that passes on a bearer.
fn tick_on(bearer: u8, ticks: u32) -> Option<Happening>
    ensures value { option_map said result ≡ Said.on bearer (E.Tick ticks) }
{
    Some(Happening {
        bearer,
        event: Event::Tick(ticks),
    })
}

/// What a Low Power node is asked for on a bearer.
fn low_power_on(bearer: u8, event: LowPowerEvent) -> Option<Happening>
    ensures value { option_map said result ≡ Said.on bearer (E.LowPower event) }
{
    Some(Happening {
        bearer,
        event: Event::LowPower(event),
    })
}

impl OutsideNode {
    /// What a line stands for that a reader read: the bearer, and the event on it. There is none for `sync` and `arm`.
    ///
    /// Each kind of line makes its own event, in a function of its own: a function clears the room of each event that stands in its text.
    pub fn happening_of(&mut self, line: &ScriptLine) -> Option<Happening>
        requires ranges { IsRead line.now }
        ensures value { option_map said result ≡ Said.happening_of line.now }
        ensures kept { self.new ≡ behind self.old line.now }
    {
        match line {
            ScriptLine::Net { bearer, octets } => pdu_on(*bearer, octets.as_slice()),
            ScriptLine::Bcn { bearer, octets } => beacon_on(*bearer, octets.as_slice()),
            ScriptLine::Peer { bearer, peer } => {
                pdu_on(*bearer, self.peer_octets(peer).as_slice())
            }
            ScriptLine::Talk { bearer, talk } => {
                pdu_on(*bearer, self.talk_octets(talk).as_slice())
            }
            ScriptLine::Beacon { bearer, beacon } => beacon_on(*bearer, &beacon_octets(beacon)),
            ScriptLine::Send { bearer, send } => sending_on(*bearer, send),
            ScriptLine::Raw { bearer, raw } => raw_on(*bearer, raw),
            ScriptLine::Tick { bearer, ticks } => tick_on(*bearer, *ticks),
            ScriptLine::Seek { bearer } => low_power_on(*bearer, LowPowerEvent::Seek),
            ScriptLine::Poll { bearer } => low_power_on(*bearer, LowPowerEvent::Poll),
            ScriptLine::List { bearer, address } => {
                low_power_on(*bearer, LowPowerEvent::List(*address))
            }
            ScriptLine::Sync | ScriptLine::Arm(_) => None,
        }
    }
}
