//! Reading a source to its end.
#![tactic(auto)]

ghost use Rattle.std.specs.Prelude.{◌≡◌, ◌≢◌, ◌≤◌, vec_len, IfOk, OnOk};
ghost use Rattle.std.specs.Io.KnownBytes.{Consumes, IsAtEnd};
ghost use Rattle.mesh_base.specs.Outside.{Rose};
ghost use Rattle.run_steps.specs.Reads.{ReadsMoreThan};
ghost use Rattle.run_steps.specs.declared.reading.ReadStop.{ReadStop};
ghost use Rattle.run_steps.specs.declared.reading.ReadStop.TheVariants as stop;

use mesh_base::outside::Source;
use script_reader::LONGEST_SCRIPT;
use std::alloc::Global;

/// Why a source wasn't read to its end.
#[derive(Clone, Copy, Debug, PartialEq, Eq)]
pub enum ReadStop {
    /// The source failed.
    Fault,
    /// It gave more than 4,194,304 octets.
    TooLong,
    /// There was no memory.
    Memory,
}

/// All that a source has, up to the longest script.
pub fn read_whole<S: Source>(alloc: Global, source: &mut S) -> Result<Vec<u8>, ReadStop>
    ensures octets { IfOk result (λ v. Consumes (S.left source.old) (S.left source.new) v.items) }
    ensures end { OnOk result (IsAtEnd (S.left source.new)) }
    ensures short { IfOk result (λ v. vec_len v ≤ LONGEST_SCRIPT) }
    ensures too_long { result ≡ Err stop.TooLong
        → ReadsMoreThan (S.left source.old) (S.left source.new) LONGEST_SCRIPT }
    ensures cause { result ≡ Err stop.Fault → Rose (S.faults source.old) (S.faults source.new) }
    ensures no_fault { result ≢ Err stop.Fault → S.faults source.new ≡ S.faults source.old }
    ensures later { S.faults source.old ≤ S.faults source.new }
{
    let mut bytes = Vec::new(alloc);
    let mut buf = [0u8; 4096];
    while bytes.len() <= LONGEST_SCRIPT {
        match source.read(&mut buf) {
            Ok(0) => return Ok(bytes),
            Ok(count) => {
                if bytes.extend_from_slice(&buf[..count]).is_err() {
                    return Err(ReadStop::Memory);
                }
            }
            Err(_) => return Err(ReadStop::Fault),
        }
    }
    Err(ReadStop::TooLong)
}
