//! What is stored when a beacon was heard.
#![tactic(auto)]

ghost use Rattle.std.specs.Prelude.{◌≡◌, ℕ, ◌≤◌, ◌++◌, List, length};
ghost use Rattle.std.specs.Option.{option_to_list};
ghost use Rattle.event_records.specs.Putting.{AreMoves, ArePuttable};
ghost use Rattle.event_records.specs.Steps.{IsStepFrom, LeadsOn};
ghost use Rattle.mesh_types.specs.declared.events.Event.TheVariants as E;
ghost use Rattle.node_records.specs.Meaning.{IsSaid};
ghost use Rattle.node_records.specs.Tables.{config_in};
ghost use Rattle.event_definitions.specs.Answers.{config_before};
ghost use Rattle.event_definitions.specs.History.{Insight, Past};
ghost use Rattle.event_definitions.specs.Layers.{Layers};
ghost use Rattle.event_definitions.specs.Stores.{phase_records, step_records, stores};

use crate::Records;
use crate::numbers::{add, step_record};
use mesh_base::iv_state::IvStep;
use mesh_types::answers::{Answer, KeyStep};
use node_records::Persist;
use node_records::laws::value_law;
use record_types::records::StoreRecord;

/// The op of a NetKey record that begins phase 2.
const PHASE_2: u8 = 3;

/// The op of a NetKey record that ends the Key Refresh.
const FINISH: u8 = 4;

// The record of a change of the phase of a network key. A new key isn't told, so the key is zeros.
fn phase_record(index: u16, key: KeyStep) -> Option<StoreRecord>
    ensures { option_to_list result ≡ phase_records index key }
{
    let op = match key {
        KeyStep::Same => return None,
        KeyStep::Phase2 => PHASE_2,
        KeyStep::Phase0 => FINISH,
    };
    Some(StoreRecord::NetKey {
        op,
        index,
        key: [0; 16],
    })
}

// What the type of the table of network keys says of it, as a clause that a proof can cite.
fn few_nets(p: &Persist)
    ensures { length p.now.nets ≤ 4 }
{
    let _ = p.nets.len();
}

// What a beacon that does this stores.
fn step_and_phase(p: &Persist, index: u16, key: KeyStep, iv: &IvStep) -> Records
    requires said { IsSaid p.now }
    requires index { index ≤ 0xfff }
    requires step { LeadsOn p.now.iv iv.now }
    ensures value { result ≡ phase_records index key ++ step_records (config_in p.now) iv.now }
    ensures may { ArePuttable p.now result }
    ensures moves { AreMoves (config_in p.now) result }
{
    value_law();
    few_nets(p);
    let mut records = Records::new();
    add(&mut records, phase_record(index, key));
    add(&mut records, step_record(p, iv));
    records
}

/// What a beacon heard stores, by its answer: the record of the phase of its network key, if that changes, and then that of a new IV state, if
/// there is one. `p` is what the records before the event say. Each record may be put behind those before it,
/// and that of a new IV state is a move to a state that may follow.
#[tactic(auto, unfolding(event_definitions::specs::Stores::stores))]
pub fn beacon_records(p: &Persist, answer: &Answer) -> Records
    requires said { IsSaid p.now }
    requires step { IsStepFrom p.now.iv answer.now }
    ensures value { (layers : Layers) (past : Past) (octets : List ℕ) (insight : Insight)
        → config_in p.now ≡ config_before past
        → result ≡ stores layers past (E.Bcn octets) insight answer.now }
    ensures may { ArePuttable p.now result }
    ensures moves { AreMoves (config_in p.now) result }
{
    match answer {
        Answer::Beacon { index, key, iv } => step_and_phase(p, *index, *key, iv),
        _ => Records::new(),
    }
}
