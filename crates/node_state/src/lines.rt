//! The lines of what is stored.
#![tactic(auto, using(std::proofs::Common::append_assoc))]

ghost use Rattle.std.specs.Prelude.{◌≡◌, ◌++◌, length, IfOk, OnOk};
ghost use Rattle.std.specs.List.{flat_map};
ghost use Rattle.node_records.specs.Tables.{config_in};
ghost use Rattle.report_definitions.specs.Report.{opened_line};
ghost use Rattle.node_state.specs.State.{app_line, app_shown, count_line, net_line, net_shown, next_line, next_opened, node_line, shown_of, state_text_of, table_lines};

use mesh_base::address::Address;
use mesh_base::keys::{AppKeyRow, NetKeyRow};
use mesh_types::report::{Opened, ReportLine};
use node_store::Persist;
use report_lines::{LineText, write_line};
use std::alloc::{AllocError, Global};

/// A line of a word and a number in decimal.
fn push_count(text: &mut LineText, word: &[u8], n: usize) -> Result<(), AllocError>
    ensures ok { OnOk result (text.new ≡ text.old ++ count_line word.now n) }
{
    text.push(word)?;
    text.push_number(n as u64)?;
    text.push(b"\n")
}

/// `node UNICAST ELEMENTS`.
fn push_node(text: &mut LineText, unicast: Address, elements: u8) -> Result<(), AllocError>
    ensures ok { OnOk result (text.new ≡ text.old ++ node_line unicast elements) }
{
    text.push(b"node")?;
    text.push_address(unicast)?;
    text.push_number(u64::from(elements))?;
    text.push(b"\n")
}

/// The line that the next life begins with.
fn opening(p: &Persist) -> ReportLine
    ensures value { result ≡ opened_line 1 (next_opened p.now.reset p.now.iv p.now.mark) }
{
    if p.reset {
        ReportLine::WasReset { life: 1 }
    } else {
        ReportLine::Opened {
            life: 1,
            state: p.iv,
            mark: p.mark,
        }
    }
}

/// Its text.
fn push_next(alloc: Global, text: &mut LineText, p: &Persist) -> Result<(), AllocError>
    ensures ok { OnOk result (text.new ≡ text.old ++ next_line p.now.reset p.now.iv p.now.mark) }
{
    let line = write_line(alloc, &opening(p))?;
    text.push(line.as_slice())
}

/// `net INDEX PHASE`.
fn push_net(text: &mut LineText, row: &NetKeyRow) -> Result<(), AllocError>
    ensures ok { OnOk result
        (text.new ≡ text.old ++ net_line (net_shown row.now)) }
{
    text.push(b"net")?;
    text.push_field(3, u32::from(row.index))?;
    text.push_number(u64::from(row.phase))?;
    text.push(b"\n")
}

/// A line for each network key.
fn push_nets(text: &mut LineText, rows: &[NetKeyRow]) -> Result<(), AllocError>
    ensures ok { OnOk result (text.new ≡ text.old ++ flat_map (λ row. net_line (net_shown row)) rows.now) }
{
    for row in rows {
        push_net(text, row)?;
    }
    Ok(())
}

/// `app INDEX NET`.
fn push_app(text: &mut LineText, row: &AppKeyRow) -> Result<(), AllocError>
    ensures ok { OnOk result
        (text.new ≡ text.old ++ app_line (app_shown row.now)) }
{
    text.push(b"app")?;
    text.push_field(3, u32::from(row.index))?;
    text.push_field(3, u32::from(row.net))?;
    text.push(b"\n")
}

/// A line for each application key.
fn push_apps(text: &mut LineText, rows: &[AppKeyRow]) -> Result<(), AllocError>
    ensures ok { OnOk result (text.new ≡ text.old ++ flat_map (λ row. app_line (app_shown row)) rows.now) }
{
    for row in rows {
        push_app(text, row)?;
    }
    Ok(())
}

/// A line for each table.
fn push_tables(text: &mut LineText, p: &Persist) -> Result<(), AllocError>
    ensures ok { OnOk result (text.new ≡ text.old ++ table_lines (shown_of (config_in p.now) (length p.now.replay) 0 0)) }
{
    push_count(text, b"bindings", p.binds.len())?;
    push_count(text, b"groups", p.subs.len())?;
    push_count(text, b"labels", p.labels.len())?;
    push_count(text, b"publications", p.publications.len())?;
    push_count(text, b"replay", p.replay.len())
}

/// The text that tells what a node's records say, whose journal uses so many slots in this format. No key is told.
#[tactic(auto, unfolding(crate::specs::State::state_text_of), using(std::proofs::Common::append_assoc))]
pub fn state_text(
    alloc: Global,
    p: &Persist,
    slots: u32,
    format: u8,
) -> Result<LineText, AllocError>
    ensures value { IfOk result
        (λ text. text ≡ state_text_of (shown_of (config_in p.now) (length p.now.replay) slots format)) }
{
    let mut text = LineText::new(alloc);
    push_node(&mut text, p.unicast, p.elements)?;
    push_next(alloc, &mut text, p)?;
    push_nets(&mut text, p.nets.as_slice())?;
    push_apps(&mut text, p.apps.as_slice())?;
    push_tables(&mut text, p)?;
    push_count(&mut text, b"slots", slots as usize)?;
    push_count(&mut text, b"format", format as usize)?;
    Ok(text)
}
