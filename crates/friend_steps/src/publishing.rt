//! Time that passed, and what is published then.
#![tactic(auto)]

ghost use Rattle.std.specs.Prelude.{◌≡◌, ◌+◌, ◌<◌, ◌≤◌, ◌^◌, ◌++◌, ◌∷◌, [], All, IfSome, length};
ghost use Rattle.std.specs.List.{flat_map};
ghost use Rattle.std.specs.Option.{option_to_list};
ghost use Rattle.app_keys.specs.AppRows.{AppRows};
ghost use Rattle.mesh_jobs.specs.Publishing.{IsDueSent, rows_sent};
ghost use Rattle.friend_steps.specs.Publishing.{row_short as row_short_in};
ghost use Rattle.layer_states.specs.Friends.{is_befriended as is_befriended_in};
ghost use Rattle.mesh_base.specs.declared.address.Address.{Address as At};
ghost use Rattle.mesh_types.specs.declared.answers.Answer.TheVariants as A;
ghost use Rattle.node_friends.specs.Queues.{IsSendable};
ghost use Rattle.node_friends.specs.Steps.{AreFriendsOf, after_sent};
ghost use Rattle.node_models.specs.Due.{IsDue, ShowsOctet};
ghost use Rattle.node_records.specs.Meaning.{IsMeaningOf, IsSaid};
ghost use Rattle.node_records.specs.Tables.{config_in};
ghost use Rattle.event_definitions.specs.Answers.{config_before};
ghost use Rattle.event_definitions.specs.History.{OfNothing, Past, Told, now_of};
ghost use Rattle.store_definitions.specs.Config.{Config};

use app_keys::AppKeys;
use mesh_jobs::{is_still_held, publish_ttl};
use node_friends::{NodeFriends, OwnShort, friends_law};
use node_models::{Due, DueList, DueRow};
use node_records::Persist;

// A row that is due as a message of this node; None where the store no longer holds the row, or where its application key isn't held.
fn row_short(p: &Persist, apps: &AppKeys, due: &DueRow) -> Option<OwnShort>
    requires said { IsSaid p.now }
    requires apps { apps.now ≡ record { apps = p.now.apps; nets = p.now.nets } }
    requires octet { ShowsOctet due.now }
    ensures value { option_to_list result ≡ row_short_in (config_in p.now) due.now }
    ensures sendable { IfSome result IsSendable }
{
    if !is_still_held(p, &due.row) {
        return None;
    }
    let (net, key) = apps.transmit(due.row.app)?;
    Some(OwnShort {
        net,
        key,
        ttl: publish_ttl(p, &due.row),
        src: due.row.element,
        dst: due.row.address,
        payload: due.status.copied(),
    })
}

// A row that is due to an address of a friendship is stored; whether it is so.
fn store_row(friends: &mut NodeFriends, p: &Persist, apps: &AppKeys, due: &DueRow) -> bool
    requires said { IsSaid p.now }
    requires apps { apps.now ≡ record { apps = p.now.apps; nets = p.now.nets } }
    requires octet { ShowsOctet due.now }
    ensures value { result ≡ is_befriended_in friends.old.slots due.now.row.address }
    ensures state { friends.new ≡ after_sent friends.old (row_short_in (config_in p.now) due.now) }
    ensures befriended { (a : At) → is_befriended_in friends.new.slots a ≡ is_befriended_in friends.old.slots a }
{
    if !friends.is_befriended(due.row.address) {
        return false;
    }
    if let Some(m) = row_short(p, apps, due) {
        friends.send(&m);
    }
    true
}

// A row that is due is stored, or else left behind the others.
fn store_or_leave(
    friends: &mut NodeFriends,
    p: &Persist,
    apps: &AppKeys,
    due: &DueRow,
    left: &mut DueList,
)
    requires said { IsSaid p.now }
    requires apps { apps.now ≡ record { apps = p.now.apps; nets = p.now.nets } }
    requires octet { ShowsOctet due.now }
    requires room { length left.old < 8 }
    ensures left { left.new ≡ left.old ++ rows_sent friends.old.slots (due.now ∷ []) }
    ensures few { length left.new ≤ length left.old + 1 }
    ensures state { friends.new ≡ after_sent friends.old (row_short_in (config_in p.now) due.now) }
    ensures befriended { (a : At) → is_befriended_in friends.new.slots a ≡ is_befriended_in friends.old.slots a }
{
    if store_row(friends, p, apps, due) {
        return;
    }
    left.push(DueRow {
        row: due.row,
        status: due.status.copied(),
    });
}

// The rows that are due to addresses of friendships are stored, and the others are left.
fn store_rows(friends: &mut NodeFriends, p: &Persist, apps: &AppKeys, rows: &[DueRow]) -> DueList
    requires said { IsSaid p.now }
    requires apps { apps.now ≡ record { apps = p.now.apps; nets = p.now.nets } }
    requires few { length rows.now ≤ 8 }
    requires octets { All ShowsOctet rows.now }
    ensures left { result ≡ rows_sent friends.old.slots rows.now }
    ensures state { friends.new ≡ after_sent friends.old (flat_map (row_short_in (config_in p.now)) rows.now) }
{
    let mut left = DueList::new();
    for due in rows {
        store_or_leave(friends, p, apps, due, &mut left);
    }
    left
}

/// What the friendships make of time that passed until this moment of the life, in ticks of 10 ms, at most 2^48: those whose time is over go,
/// and then what is due to be published to an address of a friendship is stored; the rest of it is left to be sent, and so is the heartbeat.
/// `p` is what the records before the event say, and `apps` are its keys. The friendships then stand for the entry of the time too.
pub fn store_publications(
    friends: &mut NodeFriends,
    p: &Persist,
    apps: &AppKeys,
    now: u64,
    due: Due,
) -> Due
    requires said { IsSaid p.now }
    requires apps { apps.now ≡ record { apps = p.now.apps; nets = p.now.nets } }
    requires time { now ≤ 2 ^ 48 }
    requires octets { All ShowsOctet due.rows }
    ensures due { (past : Past) (c : Config) → AreFriendsOf friends.old past.told → IsDue past c now due
        → IsDueSent past c now result }
    ensures friends { (past : Past) (e : Told) → IsMeaningOf past.records p.now → AreFriendsOf friends.old past.told
        → now_of past.told ≤ now → IsDue past (config_before past) now due
        → e.insight ≡ OfNothing → e.entry.answer ≡ A.Ticked now → e.records ≡ past.records
        → AreFriendsOf friends.new (past.told ++ e ∷ []) }
{
    // It does nothing when it runs: the proof uses what it says.
    friends_law();
    friends.tick(now);
    Due {
        rows: store_rows(friends, p, apps, due.rows.as_slice()),
        heartbeat: due.heartbeat,
    }
}
