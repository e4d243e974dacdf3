//! A Secure Network beacon heard (Mesh Profile 1.0.1, sections 3.9.3, 3.10.4 and 3.10.5).
#![tactic(auto)]

ghost use Rattle.std.specs.Prelude.{◌≡◌, ◌++◌, ◌∷◌, [], List};
ghost use Rattle.std.specs.Option.{option_copied};
ghost use Rattle.mesh_base.specs.IvState.{HasTransmit};
ghost use Rattle.mesh_hearing.specs.Below.{beacon_row};
ghost use Rattle.mesh_hearing.specs.Heard.{beacon_insight, IsBeaconHeard};
ghost use Rattle.mesh_hearing.specs.Tables.{AreTablesOf};
ghost use Rattle.node_records.specs.Meaning.{IsMeaningOf};
ghost use Rattle.node_records.specs.Tables.{config_in};
ghost use Rattle.event_definitions.specs.Answers.{key_step as key_step_in};
ghost use Rattle.event_definitions.specs.History.{Past, Told};

use crate::own::recover;
use crate::tables::Tables;
use iv_update::on_beacon;
use mesh_base::beacon::Beacon;
use mesh_base::keys::{NetKeyRow, net_row};
use mesh_types::answers::{Answer, KeyStep};
use node_records::Persist;

/// What octets heard as a beacon were read as, and the answer.
#[derive(Drop)]
pub struct BeaconHearing {
    /// Whether a Node Reset came before in this life, after which nothing is read.
    pub reset: bool,
    /// The beacon, if the octets are those of one.
    pub beacon: Option<Beacon>,
    /// The answer.
    pub answer: Answer,
}

// What a beacon does to the Key Refresh phase of its network key.
fn key_step(row: Option<&NetKeyRow>, b: &Beacon) -> KeyStep
    ensures { result ≡ key_step_in (option_copied row.entry) b.now }
{
    let Some(row) = row else { return KeyStep::Same };
    if b.fresh && b.refresh && row.phase == 1 {
        KeyStep::Phase2
    } else if b.fresh && !b.refresh && row.phase >= 1 {
        KeyStep::Phase0
    } else {
        KeyStep::Same
    }
}

// The answer to a beacon. `busy` says whether an own segmented message is unacknowledged.
fn beacon_answer(p: &Persist, busy: bool, b: &Beacon) -> Answer
    requires { HasTransmit p.now.iv }
    ensures value { result ≡ beacon_row (config_in p.now) busy b.now }
{
    let rows = p.nets.as_slice();
    Answer::Beacon {
        index: b.index,
        key: key_step(net_row(rows, b.index), b),
        iv: on_beacon(
            &p.iv,
            net_row(rows, 0).is_some(),
            b.index,
            b.iv,
            b.update,
            busy,
        ),
    }
}

impl Tables {
    /// What a node with a store of this value answers to octets heard as a beacon, and what its tables become: IV Index Recovery drops its own
    /// segmented messages.
    pub fn hear_beacon(&mut self, p: &Persist, octets: &[u8]) -> BeaconHearing
        requires { HasTransmit p.now.iv }
        ensures heard { (past : Past) → IsMeaningOf past.records p.now → AreTablesOf self.old past.told
            → IsBeaconHeard past octets.now result }
        ensures tables { (told : List Told) (e : Told) → AreTablesOf self.old told → e.insight ≡ beacon_insight result
            → e.entry.answer ≡ result.answer
            → AreTablesOf self.new (told ++ e ∷ []) }
        ensures keys { self.new.keys ≡ self.old.keys }
    {
        node_records::laws::order_law();
        net_beacon::beacon_law();
        if p.reset {
            return BeaconHearing {
                reset: true,
                beacon: None,
                answer: Answer::Reset,
            };
        }
        match self.keys.beacons().read(p.nets.as_slice(), octets) {
            Ok(beacon) => {
                let answer = beacon_answer(p, self.is_busy(), &beacon);
                recover(&mut self.own, &answer);
                BeaconHearing {
                    reset: false,
                    beacon: Some(beacon),
                    answer,
                }
            }
            Err(_) => BeaconHearing {
                reset: false,
                beacon: None,
                answer: Answer::Unread,
            },
        }
    }
}
