//! The table of what models publish: a row goes with its application key.
#![tactic(auto)]

ghost use Rattle.std.specs.Prelude.{◌≡◌, ◌==◌, ◌&&◌, not, filter};
ghost use Rattle.std.specs.List.{list_any};
ghost use Rattle.store_definitions.specs.Config.{publications_after_app, publications_after_net};

use crate::lists::has_app;
use mesh_base::keys::AppKeyRow;
use mesh_base::table::Table;
use node_limits::PUBLICATIONS;
use record_types::records::PublishRow;

/// The publications without those under an application key.
fn drop_app(rows: &mut Table<PublishRow, PUBLICATIONS>, app: u16)
    ensures { rows.new ≡ filter (λ row. not (row.app == app)) rows.old }
{
    rows.retain(|row| row.app != app);
}

/// The publications after an AppKey record.
pub(crate) fn apply_app_to_publications(
    rows: &mut Table<PublishRow, PUBLICATIONS>,
    op: u8,
    app: u16,
)
    ensures { rows.new ≡ publications_after_app op app rows.old }
{
    if op == 3 {
        drop_app(rows, app);
    }
}

/// The publications without those under the application keys of a network key.
fn drop_net(rows: &mut Table<PublishRow, PUBLICATIONS>, apps: &[AppKeyRow], net: u16)
    ensures { rows.new ≡ filter (λ row. not (list_any (λ r. r.net == net && r.index == row.app) apps.now)) rows.old }
{
    rows.retain(|row| !has_app(apps, net, row.app));
}

/// The publications after a NetKey record, by the application keys before it.
pub(crate) fn apply_net_to_publications(
    rows: &mut Table<PublishRow, PUBLICATIONS>,
    apps: &[AppKeyRow],
    op: u8,
    net: u16,
)
    ensures { rows.new ≡ publications_after_net op net apps.now rows.old }
{
    if op == 5 {
        drop_net(rows, apps, net);
    }
}
