//! The audit of a log.
#![tactic(auto)]

ghost use Rattle.std.specs.Prelude.{◌≡◌, ◌<◌, ◌≤◌, ◌^◌, ℕ, List, Some, length, map, IfOk, IfErr};
ghost use Rattle.std.specs.BTreeSet.{contains};
ghost use Rattle.std.specs.List.{slice_get};
ghost use Rattle.std.specs.Ordering.{nat_cmp};
ghost use Rattle.audit_definitions.specs.Verdicts.{IsVerdict, IsVerdictOf, verdict_text};
ghost use Rattle.audit_definitions.specs.declared.verdict.Verdict.{Verdict as VerdictOf};
ghost use Rattle.mesh_base.specs.declared.fields.NetMaterial.{NetMaterial as Material};
ghost use Rattle.script_definitions.specs.Events.{material_of};
ghost use Rattle.mesh_types.specs.declared.report.ReportLine.{ReportLine as Line};
ghost use Rattle.log_audit.specs.Reading.{IsRead, IsStop};

use crate::input::{AuditStop, read_input};
use crate::verdicts::verdict;
use audit_definitions::Verdict;
use audit_definitions::verdict::write_verdict;
use kept_keys::NetSchedules;
use report_lines::LineText;
use script_definitions::line::ScriptNet;
use script_events::material;
use std::alloc::{AllocError, Global};
use std::collections::BTreeSet;

/// What these keys seal with, with the schedules.
fn schedules(alloc: Global, keys: &[ScriptNet]) -> Result<Vec<NetSchedules>, AllocError>
    ensures value { IfOk result (λ v. v.items ≡ map material_of keys.now) }
    ensures nids { IfOk result (λ v. (k : ℕ) (m : Material) → slice_get v.items k ≡ Some m → m.nid < 2 ^ 7) }
{
    let mut out = Vec::new(alloc);
    for key in keys {
        out.push(NetSchedules::new(&material(key)))?;
    }
    Ok(out)
}

/// The verdict under these keys of a report whose own sources these are.
fn verdict_under(
    alloc: Global,
    keys: &[ScriptNet],
    own: &BTreeSet<u16>,
    report: &[u8],
) -> Result<Verdict, AllocError>
    requires keys { length keys.now ≤ 16 }
    requires report { length report.now ≤ 4194304 }
    ensures value { IfOk result
        (λ v. (lines : List Line) → IsRead (λ a. contains nat_cmp own.now a) report.now lines
        → IsVerdictOf keys.now lines v) }
{
    let schedules = schedules(alloc, keys)?;
    verdict(alloc, schedules.as_slice(), keys.len() as u32, own, report)
}

/// The audit of a log: a text of at most 16 lines `key NET`, and then lines of a report, as `run --hex` writes them, at most 4,194,304
/// octets. The verdict is the first thing that is wrong: a nonce that was used twice, a message that was accepted twice, or a network PDU
/// whose octets aren't those that its line tells.
///
/// # Errors
///
/// `NotReport` exactly where the text is no such input, with its first line that isn't of the form; `Memory` where there is no memory.
pub fn audit(alloc: Global, bytes: &[u8]) -> Result<Verdict, AuditStop>
    requires { length bytes.now ≤ 4194304 }
    ensures ok { IfOk result (IsVerdict bytes.now) }
    ensures cause { IfErr result (IsStop bytes.now) }
{
    match read_input(alloc, bytes) {
        Ok(input) => match verdict_under(alloc, input.keys.as_slice(), &input.own, input.report) {
            Ok(verdict) => Ok(verdict),
            Err(_) => Err(AuditStop::Memory),
        },
        Err(stop) => Err(stop),
    }
}

/// The line of the verdict on a log, with its LF: `sound N`, `reuse A B`, `twice A B` or `bad B`.
pub fn audit_report(alloc: Global, bytes: &[u8]) -> Result<LineText, AuditStop>
    requires { length bytes.now ≤ 4194304 }
    ensures ok { IfOk result (λ text. (v : VerdictOf) × IsVerdict bytes.now v × (text ≡ verdict_text v)) }
    ensures cause { IfErr result (IsStop bytes.now) }
{
    match audit(alloc, bytes) {
        Ok(verdict) => match write_verdict(alloc, &verdict) {
            Ok(text) => Ok(text),
            Err(_) => Err(AuditStop::Memory),
        },
        Err(stop) => Err(stop),
    }
}
