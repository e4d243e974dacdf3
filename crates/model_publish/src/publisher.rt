//! What a node publishes, and when.
#![tactic(auto)]

ghost use Rattle.std.specs.Prelude.{◌≡◌, ◌≤◌, length};
ghost use Rattle.layer_definitions.specs.Order.{put_by};
ghost use Rattle.model_states.specs.Publication.{accepted_at, after_heartbeat, after_rows, heartbeat_due, heartbeat_set, heartbeat_shown, published_from, row_index, row_set, rows_due};

use crate::heartbeats::{count_log, heartbeat_after, heartbeat_at, is_heartbeat_due};
use crate::rows::{PublishList, Rows, accepted_at, put, rows_due};
use model_states::publication::{Heartbeat, HeartbeatRow};
use record_types::records::PublishRow;
use std::marker::Model;

/// What the models of a node publish, and its heartbeat. A clause sees it as its rows, the moment at which was last asked which are due,
/// and the heartbeat.
#[derive(Drop)]
pub struct Publisher {
    pub(crate) rows: Rows,
    pub(crate) asked: u64,
    pub(crate) heartbeat: Option<Heartbeat>,
}

impl Model for Publisher {
    ghost use Rattle.model_states.specs.Publication.{Published};

    ghost Value = { Published };

    ghost view = { λ p. record { rows = p.rows; asked = p.asked; heartbeat = p.heartbeat } };
}

impl Publisher {
    /// The rows that a life opens with, at most 8, as accepted at 0; of several of one model the last counts. There is no heartbeat.
    pub fn new(rows: &[PublishRow]) -> Publisher
        requires { length rows.now ≤ 8 }
        ensures value { result ≡ published_from rows.now }
    {
        let mut held = Rows::new();
        for row in rows {
            put(&mut held, accepted_at(0, row));
        }
        Publisher {
            rows: held,
            asked: 0,
            heartbeat: None,
        }
    }

    /// From this moment on the model publishes by this row, in place of the one before. With it there are at most 8 rows: its model has
    /// one already, or fewer than 8 are held.
    pub fn set(&mut self, now: u64, row: &PublishRow)
        requires { length (put_by row_index (accepted_at now row.now) self.old.rows) ≤ 8 }
        ensures state { self.new ≡ row_set self.old now row.now }
    {
        put(&mut self.rows, accepted_at(now, row));
    }

    /// The rows that are due at this moment, by element and then by model: those with an address and a period of which one ended since the
    /// call before.
    pub fn due(&mut self, now: u64) -> PublishList
        ensures value { result ≡ rows_due self.old now }
        ensures state { self.new ≡ after_rows self.old now }
    {
        let list = rows_due(&self.rows, self.asked, now);
        self.asked = now;
        list
    }

    /// Counts this moment as the last at which was asked what is due, of the rows and of the heartbeat, and hands nothing out: for a moment at
    /// which nothing is.
    pub fn wait(&mut self, now: u64)
        ensures state { self.new ≡ after_heartbeat (after_rows self.old now) now }
    {
        self.asked = now;
        if let Some(h) = self.heartbeat {
            self.heartbeat = Some(heartbeat_after(now, &h));
        }
    }

    /// From this moment on this is the heartbeat, in place of the one before.
    pub fn heartbeat_set(&mut self, now: u64, row: &HeartbeatRow)
        ensures state { self.new ≡ heartbeat_set self.old now row.now }
    {
        self.heartbeat = Some(heartbeat_at(now, row));
    }

    /// The heartbeat that is due at this moment, as it was set; None exactly where none is due.
    pub fn heartbeat_due(&mut self, now: u64) -> Option<HeartbeatRow>
        ensures value { result ≡ heartbeat_due self.old now }
        ensures state { self.new ≡ after_heartbeat self.old now }
    {
        let h = self.heartbeat?;
        self.heartbeat = Some(heartbeat_after(now, &h));
        if is_heartbeat_due(now, &h) {
            Some(h.row)
        } else {
            None
        }
    }

    /// The heartbeat as a Status shows it: its count is the log of what is left. Zeros before any was set.
    pub fn heartbeat(&self) -> HeartbeatRow
        ensures value { result ≡ heartbeat_shown self.now }
    {
        match self.heartbeat {
            None => HeartbeatRow::default(),
            Some(h) => HeartbeatRow {
                count: count_log(h.left),
                ..h.row
            },
        }
    }
}
