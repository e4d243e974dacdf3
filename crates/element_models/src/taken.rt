//! What a message stores, and what is replied to it.
#![tactic(auto)]

ghost use Rattle.std.specs.Prelude.{◌≡◌, ◌<◌, ◌≤◌, ◌+◌, ◌++◌, [], ◌∷◌, length, map, All, IfSome, None};
ghost use Rattle.std.specs.Option.{option_to_list};
ghost use Rattle.element_models.specs.Messages.{reply_in};
ghost use Rattle.element_models.specs.Stepping.{placed, value_record};
ghost use Rattle.store_definitions.specs.Ranges.{IsInRange};

use arrayvec::ArrayVec;
use mesh_base::octets::Octets;
use mesh_base::table::Table;
use node_records::StoreRecord;
use std::marker::Model;

/// A Status that is replied.
#[derive(Default, Drop)]
pub struct Reply {
    /// The place of the element that replies, 0 to 3.
    pub element: u8,
    /// The access payload.
    pub payload: Octets<11>,
}

/// At most 8 replies, in their order. A clause sees the list of them.
#[derive(Drop)]
pub struct Replies {
    rows: ArrayVec<Reply, 8>,
}

impl Model for Replies {
    ghost use Rattle.std.specs.Prelude.{List};
    ghost use Rattle.element_models.specs.declared.taken.Reply.{Reply};

    ghost Value = { List Reply };

    ghost view = { λ r. r.rows.items };
}

impl Replies {
    /// No replies.
    pub fn new() -> Replies
        ensures value { result ≡ [] }
    {
        Replies {
            rows: ArrayVec::new(),
        }
    }

    /// Puts a reply behind the others, for which the caller has room.
    pub fn push(&mut self, reply: Reply)
        requires room { length self.old < 8 }
        ensures value { self.new ≡ self.old ++ reply ∷ [] }
    {
        self.rows.push(reply);
    }

    /// The replies, in their order.
    pub fn as_slice(&self) -> &[Reply]
        ensures value { result.now ≡ self.now }
        ensures length { length result.now ≤ 8 }
    {
        self.rows.as_slice()
    }
}

/// What a message stores, and what is replied to it, both in the order of the elements; of one element the Generic OnOff Server comes first.
#[derive(Drop)]
pub struct ModelsTaken {
    /// The record of each model whose value to be kept changes.
    pub records: Table<StoreRecord, 8>,
    /// The reply of each model that is asked for its Status.
    pub replies: Replies,
}

/// What a message stores of one model, and its reply.
#[derive(Drop)]
pub(crate) struct Answered {
    /// The record of the value to be kept, if it changes.
    pub change: Option<StoreRecord>,
    /// The Status, if it is asked for.
    pub reply: Option<Octets<11>>,
}

impl Answered {
    /// Of a model that doesn't take the message.
    pub(crate) fn nothing() -> Answered
        ensures { result ≡ record { change = None; reply = None } }
    {
        Answered {
            change: None,
            reply: None,
        }
    }
}

/// The record of the value that a model keeps, where it changes.
pub(crate) fn value_record(element: u8, model: u16, before: u16, after: u16) -> Option<StoreRecord>
    ensures { option_to_list result ≡ value_record element model before after }
{
    if before == after {
        None
    } else {
        Some(StoreRecord::Model {
            element,
            model,
            value: after,
        })
    }
}

// Puts a record, if there is one, behind the others.
fn put_record(records: &mut Table<StoreRecord, 8>, change: Option<StoreRecord>)
    requires { length records.old < 8 }
    ensures value { records.new ≡ records.old ++ option_to_list change }
    ensures ranges { IfSome change IsInRange → All IsInRange records.old → All IsInRange records.new }
    ensures length { length records.new ≤ length records.old + 1 }
{
    if let Some(item) = change {
        let _ = records.push(item);
    }
}

// Puts a reply of an element, if there is one, behind the others.
fn put_reply(replies: &mut Replies, element: u8, reply: Option<Octets<11>>)
    requires { length replies.old < 8 }
    ensures value { map reply_in replies.new ≡ map reply_in replies.old ++ placed element reply }
    ensures length { length replies.new ≤ length replies.old + 1 }
{
    if let Some(payload) = reply {
        replies.push(Reply { element, payload });
    }
}

impl ModelsTaken {
    /// Nothing yet.
    pub(crate) fn new() -> ModelsTaken
        ensures { result ≡ record { records = []; replies = [] } }
    {
        ModelsTaken {
            records: Table::new(),
            replies: Replies::new(),
        }
    }

    /// With what a message stores of a model of this element, and its reply.
    pub(crate) fn put(&mut self, element: u8, one: Answered)
        requires records { length self.old.records < 8 }
        requires replies { length self.old.replies < 8 }
        ensures records { self.new.records ≡ self.old.records ++ option_to_list one.change }
        ensures replies { map reply_in self.new.replies ≡ map reply_in self.old.replies ++ placed element one.reply }
        ensures ranges { IfSome one.change IsInRange → All IsInRange self.old.records → All IsInRange self.new.records }
        ensures records_grow { length self.new.records ≤ length self.old.records + 1 }
        ensures replies_grow { length self.new.replies ≤ length self.old.replies + 1 }
    {
        put_record(&mut self.records, one.change);
        put_reply(&mut self.replies, element, one.reply);
    }
}
