//! What a configuration message does.
#![tactic(auto)]

use mesh_base::octets::Octets;
use model_states::publication::HeartbeatRow;
use record_types::records::StoreRecord;

/// The status codes of configuration messages that this node uses (Mesh Profile 1.0.1, section 4.3.5).
#[derive(Clone, Copy)]
pub enum Status {
    /// 00: the message was done, or asked for what is so already.
    Success,
    /// 01: no element of the node, or an address of a kind that can't stand there.
    InvalidAddress,
    /// 02: the element has no such model.
    InvalidModel,
    /// 03: no such application key is held.
    InvalidAppKey,
    /// 04: no such network key is held, or the application key belongs to another one.
    InvalidNetKey,
    /// 05: the table is full.
    InsufficientResources,
    /// 06: another key is held under this index.
    KeyIndexStored,
    /// 07: the model can't publish so.
    InvalidPublish,
    /// 08: the model can't subscribe.
    NotSubscribe,
    /// 0b: the key can't be updated in this phase, or has another new value.
    CannotUpdate,
    /// 0c: the key can't be removed.
    CannotRemove,
    /// 0d: the model can't be bound to application keys.
    CannotBind,
    /// 0f: the phase can't be set to this.
    CannotSet,
}

/// How a message that changes something ends.
#[derive(Clone, Copy)]
pub struct Outcome {
    /// Its status.
    pub status: Status,
    /// The record that is stored; None where it was refused, or where what it asks for is so already.
    pub change: Option<StoreRecord>,
}

/// What a configuration message does.
#[derive(Drop)]
pub struct ConfigAct {
    /// The record that is stored, if any.
    pub change: Option<StoreRecord>,
    /// The access payload of the reply, 2 to 48 octets.
    pub reply: Octets<48>,
    /// The heartbeat that is set, if any.
    pub beat: Option<HeartbeatRow>,
    /// Whether the friendships of the node end, and its offers with them (section 4.4.1.2.6).
    pub ends_friendships: bool,
}
