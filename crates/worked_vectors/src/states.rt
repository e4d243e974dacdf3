//! Rows of the IV Index, and of addresses.
#![tactic(auto)]

use crate::row::Row;
use iv_update::{IvState, IvStep};
use mesh_base::address::{Address, AddressKind};

// The next state.
fn state(row: &mut Row<'_>) -> IvState {
    let current = row.number32();
    let progress = row.flag();
    let hours = row.number16();
    let since = row.number16();
    IvState {
        current,
        progress,
        hours,
        since,
    }
}

fn put_state(row: &mut Row<'_>, word: &str, state: &IvState) {
    row.put(word);
    row.put_octets(&state.current.to_be_bytes());
    row.put_flag(state.progress);
    row.put_octets(&state.hours.to_be_bytes());
    row.put_octets(&state.since.to_be_bytes());
}

fn put_step(row: &mut Row<'_>, step: &IvStep) {
    match step {
        IvStep::Ignore { rule } => {
            row.put("ignore");
            row.put_octets(&[*rule]);
        }
        IvStep::Begin(state) => put_state(row, "begin", state),
        IvStep::Finish(state) => put_state(row, "finish", state),
        IvStep::Recover(state) => put_state(row, "recover", state),
        IvStep::Wait => row.put("wait"),
    }
}

/// `ivbeacon CURRENT PROGRESS HOURS SINCE PRIMARY FROM IV UPDATE BUSY`: the step that a beacon makes.
pub fn beacon(row: &mut Row<'_>) {
    let state = state(row);
    let primary = row.flag();
    let from = row.number16();
    let iv = row.number32();
    let update = row.flag();
    let busy = row.flag();
    if state.current == 0 {
        return row.refuse();
    }
    let step = iv_update::on_beacon(&state, primary, from, iv, update, busy);
    put_step(row, &step);
}

/// `ivhours CURRENT PROGRESS HOURS SINCE PASSED MARK BUSY`: the state after these hours, and the step that is due.
pub fn hours(row: &mut Row<'_>) {
    let state = state(row);
    let passed = row.number32();
    let mark = row.number32();
    let busy = row.flag();
    if state.current == 0 {
        return row.refuse();
    }
    let (aged, step) = iv_update::on_hours(&state, passed, mark, busy);
    put_state(row, "then", &aged);
    put_step(row, &step);
}

/// `kind ADDRESS`: the kind of an address.
pub fn kind(row: &mut Row<'_>) {
    let address = Address(row.number16());
    row.put(match address.kind() {
        AddressKind::Unassigned => "unassigned",
        AddressKind::Unicast => "unicast",
        AddressKind::Virtual => "virtual",
        AddressKind::Group => "group",
    });
}
