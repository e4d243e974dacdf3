//! What is stored when a network PDU was heard.
#![tactic(auto)]

ghost use Rattle.std.specs.Prelude.{◌≡◌, ℕ, ◌<◌, ◌^◌, List, [], ◌∷◌, All, None, IfSome};
ghost use Rattle.event_records.specs.Asked.{AreAskedFor};
ghost use Rattle.event_records.specs.Putting.{AreMoves, ArePuttable};
ghost use Rattle.mesh_base.specs.declared.pair.Name.{Name};
ghost use Rattle.mesh_types.specs.declared.events.Event.TheVariants as E;
ghost use Rattle.node_records.specs.Full.{IsFull};
ghost use Rattle.node_records.specs.Tables.{config_in};
ghost use Rattle.node_records.specs.declared.persist.Persist.{Persist};
ghost use Rattle.record_types.specs.declared.records.StoreRecord.TheVariants as R;
ghost use Rattle.event_definitions.specs.History.{Insight, Past};
ghost use Rattle.event_definitions.specs.Layers.{Layers};
ghost use Rattle.event_definitions.specs.Stores.{stores};
ghost use Rattle.event_definitions.specs.Answers.{accepted};
ghost use Rattle.store_definitions.specs.Config.{Config};
ghost use Rattle.store_definitions.specs.Ranges.{IsInRange};

use crate::{Changes, Records};
use mesh_base::pair::Name;
use mesh_types::answers::Answer;
use record_types::records::StoreRecord;

// The record of an accepted message, and behind it what the message asks for.
fn named_records(first: Name, changes: &Changes) -> Records
    ensures value { result ≡ R.Replay first None ∷ changes.now }
    ensures range { first.pair.seq < 2 ^ 24 → IsInRange (R.Replay first None) }
{
    let mut records = Records::of(changes.as_slice()).unwrap();
    let name = StoreRecord::Replay {
        first,
        second: None,
    };
    let _ = records.insert(0, name);
    records
}

/// What a network PDU heard stores, by its answer: the name of an accepted message, and behind it what a delivered message asks for, which is
/// `changes` in layers of any kind. The name is in range, as its SEQ has 24 bits. Where the replay list has a place for it, and the changes may
/// be put over what the records say, so may all of them; and they are moves where the changes are.
#[tactic(auto, unfolding(event_definitions::specs::Stores::stores))]
pub fn heard_records(answer: &Answer, changes: &Changes) -> Records
    requires { IfSome (accepted answer.now) (λ (name : Name). name.pair.seq < 2 ^ 24) }
    ensures value { (layers : Layers) (past : Past) (octets : List ℕ) (insight : Insight)
        → AreAskedFor layers past insight answer.now changes.now
        → result ≡ stores layers past (E.Net octets) insight answer.now }
    ensures ranges { All IsInRange changes.now → All IsInRange result }
    ensures may { (p : Persist) → IfSome (accepted answer.now) (λ (name : Name). IsFull p (R.Replay name None) → ⊥)
        → ((q : Persist) → config_in q ≡ config_in p → ArePuttable q changes.now) → ArePuttable p result }
    ensures moves { (c : Config) → AreMoves c changes.now → AreMoves c result }
{
    match answer {
        Answer::Delivered { name, .. } => named_records(*name, changes),
        Answer::Control { name, .. } => named_records(*name, &Changes::new()),
        _ => Records::new(),
    }
}
