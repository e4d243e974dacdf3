//! The audit of a log.
#![tactic(auto)]

ghost use Rattle.std.specs.Prelude.{◌≡◌, ◌≢◌, ◌⊎◌, ◌<◌, ◌≤◌, length, take, IfOk, IfErr};
ghost use Rattle.audit_definitions.specs.Verdicts.{IsVerdict, verdict_text};
ghost use Rattle.audit_definitions.specs.declared.verdict.Verdict.{Verdict as VerdictOf};
ghost use Rattle.audit_definitions.specs.Input.{IsFirstOther};
ghost use Rattle.log_audit.specs.Reading.{IsStop};
ghost use Rattle.meshnode_c.specs.Numbers.{HasNumbers};

use audit_definitions::Verdict;
use audit_definitions::verdict::write_verdict;
use log_audit::auditing::audit;
use log_audit::input::AuditStop;
use node_handle::status::{LENGTH, MEMORY, NOT_REPORT, OK};
use report_lines::LineText;
use std::alloc::{AllocError, Global};

/// Octets of a text that is audited, at most.
const MOST_TEXT: usize = 4_194_304;

/// Reads the numbers of a verdict: they have 32 bits.
fn read_numbers(verdict: &Verdict)
    ensures value { HasNumbers verdict.now }
{
    match verdict {
        Verdict::Sound { lines } => {
            let _lines = *lines;
        }
        Verdict::Reuse { a, b } => {
            let _before = *a;
            let _line = *b;
        }
        Verdict::Twice { a, b } => {
            let _before = *a;
            let _line = *b;
        }
        Verdict::Bad { line } => {
            let _line = *line;
        }
    }
}

/// The line of a verdict: at most 28 octets, as its numbers have ten digits at most.
#[tactic(auto, using(crate::proofs::Room::verdict_room))]
fn line_of(alloc: Global, verdict: &Verdict) -> Result<LineText, AllocError>
    ensures ok { IfOk result (λ told. (told ≡ verdict_text verdict.now) × (length told ≤ 28)) }
{
    read_numbers(verdict);
    write_verdict(alloc, verdict)
}

/// The line of the verdict on a text.
fn verdict_line(alloc: Global, text: &[u8]) -> Result<LineText, AuditStop>
    requires { length text.now ≤ 4194304 }
    ensures ok { IfOk result
        (λ told. (v : VerdictOf) × IsVerdict text.now v × (told ≡ verdict_text v) × (length told ≤ 28)) }
    ensures cause { IfErr result (IsStop text.now) }
{
    match line_of(alloc, &audit(alloc, text)?) {
        Ok(told) => Ok(told),
        Err(_) => Err(AuditStop::Memory),
    }
}

/// Audits a text: at most 16 lines `key NET`, and then lines of reports, as `meshnoded run --hex` writes them, at most 4,194,304 octets. The line of the
/// verdict is put into the front of `verdict`, and `size` tells how many octets it has: at most 28. It is `sound N`, `reuse A B`, `twice A B` or
/// `bad B`, and an LF. Where the text is no such input it is `MESHNODE_NOT_REPORT`, and `line` tells the first line that isn't of the form.
#[unsafe(no_mangle)]
pub extern "C" fn meshnode_audit(
    alloc: Global,
    text: &[u8],
    verdict: &mut [u8],
    size: &mut usize,
    line: &mut u32,
) -> u32
    ensures ok { result ≡ 0
        → (v : VerdictOf) × IsVerdict text.now v × (take size.new verdict.new ≡ verdict_text v)
        × (size.new ≡ length (verdict_text v)) }
    ensures length { result ≡ 1
        → (4194304 < length text.now)
        ⊎ ((length verdict.old < 28) × (v : VerdictOf) × IsVerdict text.now v × (length verdict.old < length (verdict_text v))) }
    ensures too_long { 4194304 < length text.now → result ≡ 1 }
    ensures not_report { result ≡ 4 → IsFirstOther text.now line.new }
    ensures refused { result ≢ 0 → (verdict.new ≡ verdict.old) × (size.new ≡ size.old) }
    ensures same_line { result ≢ 4 → line.new ≡ line.old }
    ensures bound { (result ≡ 0) ⊎ (result ≡ 1) ⊎ (result ≡ 4) ⊎ (result ≡ 5) }
{
    if text.len() > MOST_TEXT {
        return LENGTH;
    }
    match verdict_line(alloc, text) {
        Ok(told) => {
            let told = told.as_slice();
            if told.len() > verdict.len() {
                return LENGTH;
            }
            verdict[..told.len()].copy_from_slice(told);
            *size = told.len();
            OK
        }
        Err(AuditStop::NotReport { line: first }) => {
            *line = first;
            NOT_REPORT
        }
        Err(AuditStop::Memory) => MEMORY,
    }
}
