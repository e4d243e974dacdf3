//! What a message stores, and what is replied to it.
#![tactic(auto)]

ghost use Rattle.std.specs.Prelude.{◌≡◌, ◌≤◌, ◌++◌, [], None, length};
ghost use Rattle.std.specs.Option.{option_map, option_to_list};
ghost use Rattle.config_definitions.specs.declared.acts.ConfigAct.{ConfigAct};
ghost use Rattle.node_layers.specs.Configuration.{ends_in};
ghost use Rattle.node_models.specs.Acts.{change_in};

use config_definitions::acts::ConfigAct;
use element_models::{ModelsTaken, Replies};
use mesh_base::octets::Octets;
use mesh_base::table::Table;
use record_types::records::StoreRecord;

/// What is replied to a message, at most 9 replies: that of the Configuration Server first, then those of the models.
#[derive(Drop)]
pub struct MessageReplies {
    /// The access payload of the Configuration Server's reply, at most 48 octets; it goes from the first element.
    pub configuration: Option<Octets<48>>,
    /// The replies of the models, each from its element.
    pub models: Replies,
}

/// What a message stores, and what is replied to it.
#[derive(Drop)]
pub struct Taken {
    /// At most 9 records: of the configuration, and of each model whose value to be kept changes.
    pub changes: Table<StoreRecord, 9>,
    /// The replies.
    pub replies: MessageReplies,
    /// The Default TTL that the records say behind the message, with which replies go.
    pub ttl: u8,
    /// Whether the message ends the friendships.
    pub ends: bool,
}

impl MessageReplies {
    /// No replies.
    pub fn none() -> MessageReplies
        ensures value { result ≡ record { configuration = None; models = [] } }
    {
        MessageReplies {
            configuration: None,
            models: Replies::new(),
        }
    }
}

// The record of the configuration, if there is one, before those of the models.
fn changes_of(change: Option<StoreRecord>, records: &Table<StoreRecord, 8>) -> Table<StoreRecord, 9>
    requires { length records.now ≤ 8 }
    ensures { result ≡ option_to_list change ++ records.now }
{
    let mut changes = Table::of(records.as_slice()).unwrap();
    if let Some(item) = change {
        changes.insert(0, item).unwrap();
    }
    changes
}

impl Taken {
    /// What the Configuration Server is asked for, and behind that what the models store and reply. `ttl` is the Default TTL behind the
    /// message.
    pub(crate) fn of(act: Option<ConfigAct>, ttl: u8, models: ModelsTaken) -> Taken
        ensures changes { result.changes ≡ change_in act ++ models.records }
        ensures configuration { result.replies.configuration ≡ option_map (λ (a : ConfigAct). a.reply) act }
        ensures models { result.replies.models ≡ models.replies }
        ensures ttl { result.ttl ≡ ttl }
        ensures ends { result.ends ≡ ends_in act }
    {
        match act {
            Some(act) => Taken {
                changes: changes_of(act.change, &models.records),
                replies: MessageReplies {
                    configuration: Some(act.reply),
                    models: models.replies,
                },
                ttl,
                ends: act.ends_friendships,
            },
            None => Taken {
                changes: changes_of(None, &models.records),
                replies: MessageReplies {
                    configuration: None,
                    models: models.replies,
                },
                ttl,
                ends: false,
            },
        }
    }
}
