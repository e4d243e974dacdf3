//! What the node publishes of itself (Mesh Profile 1.0.1, sections 4.2.2 and 4.2.17).
#![tactic(auto)]

ghost use Rattle.std.specs.Prelude.{◌≡◌, ℕ, ◌+◌, ◌<◌, ◌≤◌, ◌==◌, if◌then◌else◌, [], ◌∷◌, ◌++◌, length};
ghost use Rattle.std.specs.List.{flat_map, list_any};
ghost use Rattle.std.specs.Option.{option_map_or, option_to_list};
ghost use Rattle.app_keys.specs.AppRows.{AppRows};
ghost use Rattle.cipher_definitions.specs.Octets.{two_octets};
ghost use Rattle.mesh_jobs.specs.Publishing.{IsDueSent, sent_row};
ghost use Rattle.model_states.specs.declared.publication.HeartbeatRow.{HeartbeatRow};
ghost use Rattle.node_layers.specs.NodeLayers.{published_at};
ghost use Rattle.node_layers.specs.Publishing.{features_of, heartbeat_job as heartbeat_job_in, is_row as is_row_in, is_still_held as is_still_held_in};
ghost use Rattle.node_records.specs.Tables.{config_in};
ghost use Rattle.event_definitions.specs.Answers.{later};
ghost use Rattle.event_definitions.specs.History.{Past};
ghost use Rattle.event_definitions.specs.Jobs.{under};

use crate::making::{payload_of, push_made};
use app_keys::AppKeys;
use mesh_base::octets::Octets;
use mesh_types::jobs::{Job, JobDraft};
use model_states::publication::HeartbeatRow;
use net_keys::NetKeys;
use node_limits::JOBS;
use node_models::{Due, DueRow, is_own_row};
use node_records::Persist;
use record_types::records::PublishRow;

/// The publish TTL that stands for the Default TTL (section 4.2.2.5).
const PUBLISH_DEFAULT_TTL: u8 = 0xff;

/// The opcode of a Heartbeat (section 3.6.5.10).
const HEARTBEAT: u8 = 0x0a;

/// The features of a heartbeat, by their bits (section 4.2.17.5).
const RELAY: u16 = 1;

const FRIEND: u16 = 4;

// Whether two rows say the same.
fn is_row(a: &PublishRow, b: &PublishRow) -> bool
    ensures { result ≡ is_row_in a.now b.now }
{
    a.element.0 == b.element.0
        && a.model == b.model
        && a.address.0 == b.address.0
        && a.app == b.app
        && a.ttl == b.ttl
        && a.period == b.period
        && a.retransmit == b.retransmit
}

// Whether a row is one of these.
fn is_among(rows: &[PublishRow], row: &PublishRow) -> bool
    ensures { result ≡ list_any (is_row_in row.now) rows.now }
{
    rows.iter().any(|held| is_row(row, held))
}

/// Whether the store still holds a row of this node as it is. One that it doesn't hold isn't published.
pub fn is_still_held(p: &Persist, row: &PublishRow) -> bool
    ensures value { result ≡ is_still_held_in (config_in p.now) row.now }
{
    is_own_row(p, row) && is_among(p.publications.as_slice(), row)
}

/// TTL of what a row publishes: that of the row, or the Default TTL where the row's is ff.
pub fn publish_ttl(p: &Persist, row: &PublishRow) -> u8
    ensures value { result ≡ (if row.now.ttl == 0xff then p.now.ttl else row.now.ttl) }
{
    if row.ttl == PUBLISH_DEFAULT_TTL {
        p.ttl
    } else {
        row.ttl
    }
}

// The Status of a row that is due, if the store still holds the row and its application key is held.
fn publication_job(p: &Persist, nets: &NetKeys, apps: &AppKeys, due: &DueRow) -> Option<Job>
    requires nets { nets.now ≡ p.now.nets }
    requires apps { apps.now ≡ record { apps = p.now.apps; nets = p.now.nets } }
    ensures { option_to_list result ≡ sent_row (config_in p.now) due.now }
{
    if !is_still_held(p, &due.row) {
        return None;
    }
    let (net, key) = apps.transmit(due.row.app)?;
    let material = nets.transmit(net)?;
    Some(Job::Message {
        net,
        material,
        key,
        ttl: publish_ttl(p, &due.row),
        src: due.row.element,
        dst: due.row.address,
        payload: payload_of(due.status.as_slice()),
        keep: None,
    })
}

// Puts what the rows publish behind the others.
fn push_rows(jobs: &mut JobDraft, p: &Persist, nets: &NetKeys, apps: &AppKeys, rows: &[DueRow])
    requires room { length jobs.old + 8 ≤ JOBS }
    requires nets { nets.now ≡ p.now.nets }
    requires apps { apps.now ≡ record { apps = p.now.apps; nets = p.now.nets } }
    requires rows { length rows.now ≤ 8 }
    ensures value { jobs.new ≡ jobs.old ++ flat_map (sent_row (config_in p.now)) rows.now }
    ensures few { length jobs.new ≤ length jobs.old + 8 }
{
    for due in rows {
        push_made(jobs, publication_job(p, nets, apps, due));
    }
}

// The features of this node.
fn features(p: &Persist) -> u16
    ensures { result ≡ features_of (config_in p.now) }
{
    let relay = if p.relays() { RELAY } else { 0 };
    let friend = if p.is_friend() { FRIEND } else { 0 };
    relay + friend
}

// The transport PDU of a Heartbeat: InitTTL and Features.
fn heartbeat(ttl: u8, features: u16) -> Octets<16>
    ensures { result ≡ 0x0a ∷ ttl ∷ two_octets features }
{
    let [high, low] = features.to_be_bytes();
    let mut tpdu = Octets::new();
    tpdu.extend(&[HEARTBEAT, ttl, high, low]);
    tpdu
}

// A Heartbeat from the first element.
fn heartbeat_job(p: &Persist, nets: &NetKeys, row: &HeartbeatRow) -> Option<Job>
    requires nets { nets.now ≡ p.now.nets }
    ensures { option_to_list result ≡ under (config_in p.now) row.now.net (heartbeat_job_in (config_in p.now) row.now) }
{
    let material = nets.transmit(row.net)?;
    Some(Job::Control {
        material,
        ttl: row.ttl,
        src: p.unicast,
        dst: row.dst,
        tpdu: heartbeat(row.ttl, features(p)),
        keep: None,
    })
}

// Puts the heartbeat behind the others, if it is due.
fn push_heartbeat(jobs: &mut JobDraft, p: &Persist, nets: &NetKeys, due: Option<HeartbeatRow>)
    requires room { length jobs.old < JOBS }
    requires nets { nets.now ≡ p.now.nets }
    ensures value { jobs.new ≡ jobs.old
        ++ option_map_or
        (λ (row : HeartbeatRow). under (config_in p.now) row.net (heartbeat_job_in (config_in p.now) row))
        due [] }
    ensures few { length jobs.new ≤ length jobs.old + 1 }
{
    if let Some(row) = due {
        push_made(jobs, heartbeat_job(p, nets, &row));
    }
}

/// Puts what is published at a moment behind the others: of each row that is due its Status, if the store still holds
/// that row and its application key is held, with the Default TTL where the row's is ff; and then the heartbeat, if it
/// is due, from the first element. `due` has no rows to an address of a friendship: what they publish is stored.
pub fn push_publications(
    jobs: &mut JobDraft,
    p: &Persist,
    nets: &NetKeys,
    apps: &AppKeys,
    due: &Due,
)
    requires room { length jobs.old + 9 ≤ JOBS }
    requires nets { nets.now ≡ p.now.nets }
    requires apps { apps.now ≡ record { apps = p.now.apps; nets = p.now.nets } }
    ensures value { (past : Past) (ticks : ℕ) → IsDueSent past (config_in p.now) (later past ticks) due.now
        → jobs.new ≡ jobs.old ++ published_at past (config_in p.now) ticks }
    ensures few { length jobs.new ≤ length jobs.old + 9 }
{
    push_rows(jobs, p, nets, apps, due.rows.as_slice());
    push_heartbeat(jobs, p, nets, due.heartbeat);
}
