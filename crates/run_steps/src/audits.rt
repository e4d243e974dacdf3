//! The audit of a log.
#![tactic(auto)]

ghost use Rattle.std.specs.Prelude.{◌≡◌, ◌≢◌, ◌⊎◌, ◌≤◌, ℕ, length};
ghost use Rattle.audit_definitions.specs.Input.{IsFirstOther};
ghost use Rattle.mesh_base.specs.Outside.{Rose};
ghost use Rattle.report_writer.specs.Writing.{view_of};
ghost use Rattle.run_steps.specs.Audited.{Audited, AuditedFront, IsAuditEnd};
ghost use Rattle.run_steps.specs.declared.status.Status.TheVariants as Statuses;

use crate::status::Status;
use log_audit::{AuditStop, audit_report};
use mesh_base::outside::Sink;
use report_writer::write_text;
use std::alloc::Global;

/// Writes the line of the verdict on a log.
pub fn audit_text<K: Sink>(alloc: Global, text: &[u8], sink: &mut K) -> Status
    requires short { length text.now ≤ 4194304 }
    ensures ends { ¬ Rose (K.faults sink.old) (K.faults sink.new) → IsAuditEnd result }
    ensures known { IsAuditEnd result ⊎ (result ≡ Statuses.WriteFault) }
    ensures report { (line : ℕ) → result ≡ Statuses.Report line → IsFirstOther text.now line }
    ensures verdict { result ≡ Statuses.Done
        → Audited text.now (view_of K.held K.pieces sink.old) (view_of K.held K.pieces sink.new) }
    ensures front { result ≡ Statuses.WriteFault
        → AuditedFront text.now (view_of K.held K.pieces sink.old) (view_of K.held K.pieces sink.new) }
    ensures nothing_written { result ≢ Statuses.Done → result ≢ Statuses.WriteFault → sink.new ≡ sink.old }
    ensures write_fault { result ≡ Statuses.WriteFault → Rose (K.faults sink.old) (K.faults sink.new) }
    ensures no_fault { result ≢ Statuses.WriteFault → K.faults sink.new ≡ K.faults sink.old }
    ensures later { K.faults sink.old ≤ K.faults sink.new }
{
    let line = match audit_report(alloc, text) {
        Ok(line) => line,
        Err(AuditStop::NotReport { line }) => return Status::Report { line },
        Err(AuditStop::Memory) => return Status::Memory,
    };
    match write_text(sink, line.as_slice()) {
        Ok(()) => Status::Done,
        Err(_) => Status::WriteFault,
    }
}
