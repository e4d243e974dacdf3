//! What is published at a moment.
#![tactic(auto)]

ghost use Rattle.std.specs.Prelude.{◌≡◌, ◌≤◌, ◌<◌, ◌^◌, ◌++◌, [], ◌∷◌, None, All, length, map};
ghost use Rattle.element_models.specs.Models.{AreModelsOf};
ghost use Rattle.model_publish.specs.Own.{IsOwnRow};
ghost use Rattle.node_models.specs.Due.{ShowsOctet, due_row};
ghost use Rattle.event_definitions.specs.History.{Past};
ghost use Rattle.store_definitions.specs.Config.{Config};

use arrayvec::ArrayVec;
use element_models::ElementModels;
use mesh_base::address::Address;
use mesh_base::octets::Octets;
use model_states::publication::HeartbeatRow;
use record_types::records::PublishRow;
use std::marker::Model;

/// A row that is due, with the Status that it publishes.
#[derive(Default, Drop)]
pub struct DueRow {
    /// The row.
    pub row: PublishRow,
    /// The Status of its model, an access payload.
    pub status: Octets<11>,
}

/// At most 8 rows that are due, by element and then by model. A clause sees the list of them.
#[derive(Drop)]
pub struct DueList {
    rows: ArrayVec<DueRow, 8>,
}

impl Model for DueList {
    ghost use Rattle.std.specs.Prelude.{List};
    ghost use Rattle.node_models.specs.declared.due.DueRow.{DueRow};

    ghost Value = { List DueRow };

    ghost view = { λ l. l.rows.items };
}

impl DueList {
    /// No rows.
    pub fn new() -> DueList
        ensures value { result ≡ [] }
    {
        DueList {
            rows: ArrayVec::new(),
        }
    }

    /// Puts a row behind the others, for which the caller has room.
    pub fn push(&mut self, row: DueRow)
        requires room { length self.old < 8 }
        ensures value { self.new ≡ self.old ++ row ∷ [] }
    {
        self.rows.push(row);
    }

    /// The rows, in their order.
    pub fn as_slice(&self) -> &[DueRow]
        ensures value { result.now ≡ self.now }
        ensures length { length result.now ≤ 8 }
    {
        self.rows.as_slice()
    }
}

/// What is published at a moment: the rows of the models that are due, and then the heartbeat, if it is.
#[derive(Drop)]
pub struct Due {
    /// The rows.
    pub rows: DueList,
    /// The heartbeat, as it was set.
    pub heartbeat: Option<HeartbeatRow>,
}

impl Due {
    /// Nothing.
    pub fn nothing() -> Due
        ensures value { result ≡ record { rows = []; heartbeat = None } }
    {
        Due {
            rows: DueList::new(),
            heartbeat: None,
        }
    }
}

// A row with its Status at this moment.
fn with_status(servers: &ElementModels, unicast: Address, now: u64, row: &PublishRow) -> DueRow
    requires time { now ≤ 2 ^ 48 }
    requires few { length servers.now ≤ 4 }
    requires own { IsOwnRow unicast.0 (length servers.now) row.now }
    ensures value { (past : Past) (c : Config) → AreModelsOf servers.now past → c.unicast ≡ unicast
        → result ≡ due_row past c now row.now }
    ensures octet { ShowsOctet result }
{
    let element = (row.element.0 - unicast.0) as u8;
    DueRow {
        row: *row,
        status: servers.status(element, row.model, now),
    }
}

/// Rows of the node's own models, at most 8, with their Statuses at this moment, in ticks of 10 ms, at most 2^48. Each has an octet.
pub(crate) fn with_statuses(
    servers: &ElementModels,
    unicast: Address,
    now: u64,
    rows: &[PublishRow],
) -> DueList
    requires time { now ≤ 2 ^ 48 }
    requires few { length servers.now ≤ 4 }
    requires length { length rows.now ≤ 8 }
    requires own { All (IsOwnRow unicast.0 (length servers.now)) rows.now }
    ensures value { (past : Past) (c : Config) → AreModelsOf servers.now past → c.unicast ≡ unicast
        → result ≡ map (due_row past c now) rows.now }
    ensures octets { All ShowsOctet result }
{
    let mut list = DueList::new();
    for row in rows {
        list.push(with_status(servers, unicast, now, row));
    }
    list
}
