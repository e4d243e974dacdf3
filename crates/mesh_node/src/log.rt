//! The lines of the bearers, phase by phase.
#![tactic(auto)]

ghost use Rattle.std.specs.Prelude.{◌≡◌, ◌++◌, ◌≢◌, ◌⊎◌, ◌||◌, [], length, map, All, None, Some, true, false, IfOk, OnOk, replicate};
ghost use Rattle.machine_contract.specs.declared.answers.Stop.TheVariants as Stops;
ghost use Rattle.node_phase.specs.Part.{AreThrough, HadMemory, lines_of};
ghost use Rattle.life_laws.specs.Phases.{both_of};
ghost use Rattle.life_laws.specs.Stopped.{HasStopped};

use machine_contract::Stop;
use mesh_types::history::Sent;
use node_phase::Done;
use std::alloc::{AllocError, Global};

/// No lines of so many bearers.
pub fn no_lines(alloc: Global, bearers: u8) -> Result<Vec<Vec<Sent>>, AllocError>
    ensures ok { IfOk result (λ v. map (λ x. x.items) v.items ≡ replicate bearers []) }
{
    let mut sends = Vec::new(alloc);
    for _bearer in 0..bearers {
        sends.push(Vec::new(alloc))?;
    }
    Ok(sends)
}

/// The last number of each of so many bearers, of which none has an entry.
pub fn no_counts(alloc: Global, bearers: u8) -> Result<Vec<u32>, AllocError>
    ensures ok { IfOk result (λ v. v.items ≡ replicate bearers 0) }
{
    let mut counts = Vec::new(alloc);
    for _bearer in 0..bearers {
        counts.push(0)?;
    }
    Ok(counts)
}

/// Whether this bearer stopped since the flash failed. An error says that it stopped for want of memory.
fn stopped_by(done: &Done) -> Result<bool, AllocError>
    ensures memory { OnOk result (done.now.stop ≢ Some Stops.Memory) }
    ensures none { IfOk result (λ stopped. stopped ≡ false → done.now.stop ≡ None) }
    ensures some { IfOk result
        (λ stopped. stopped ≡ true → (done.now.stop ≡ Some Stops.Closed) ⊎ (done.now.stop ≡ Some Stops.Flash)) }
{
    match done.stop {
        None => Ok(false),
        Some(Stop::Memory) => Err(AllocError),
        Some(Stop::Closed) => Ok(true),
        Some(Stop::Flash) => Ok(true),
    }
}

/// Whether one or the other.
fn either(a: bool, b: bool) -> bool
    ensures value { result ≡ (a || b) }
{
    a || b
}

/// Whether a bearer stopped since the flash failed. An error says that one stopped for want of memory.
pub fn has_stopped(dones: &[Done]) -> Result<bool, AllocError>
    ensures memory { OnOk result (HadMemory dones.now) }
    ensures none { IfOk result (λ stopped. stopped ≡ false → AreThrough dones.now) }
    ensures some { IfOk result (λ stopped. stopped ≡ true → HasStopped dones.now) }
{
    let mut stopped = false;
    for done in dones {
        let now = stopped_by(done)?;
        stopped = either(stopped, now);
    }
    Ok(stopped)
}

/// Takes the lines of bearers, and their numbers.
pub fn take_lines(
    alloc: Global,
    counts: &mut [u32],
    dones: Vec<Done>,
) -> Result<Vec<Vec<Sent>>, AllocError>
    requires counts { length counts.old ≡ length dones.items }
    ensures lines { IfOk result (λ r. map (λ v. v.items) r.items ≡ map lines_of dones.items) }
    ensures numbers { OnOk result (counts.new ≡ map (λ x. x.number) dones.items) }
{
    let mut sends = Vec::with_capacity(alloc, dones.len())?;
    let mut k = 0;
    for done in dones {
        let Done {
            lines,
            number,
            stop: _,
        } = done;
        sends.push(lines)?;
        counts[k] = number;
        k += 1;
    }
    Ok(sends)
}

/// Puts items behind those of before. Where there are none before, nothing is copied.
pub fn put_behind<T: Drop>(items: &mut Vec<T>, more: Vec<T>) -> Result<(), AllocError>
    ensures items { OnOk result (items.new.items ≡ items.old.items ++ more.items) }
{
    if items.is_empty() {
        *items = more;
        return Ok(());
    }
    let mut more = more;
    items.append(&mut more)
}

/// Puts lines of bearers behind those of before, bearer by bearer.
pub fn append_lines(sends: &mut [Vec<Sent>], more: Vec<Vec<Sent>>) -> Result<(), AllocError>
    requires bearers { length sends.old ≡ length more.items }
    ensures lines { OnOk result
        (map (λ x. x.items) sends.new ≡ both_of (map (λ x. x.items) sends.old) (map (λ x. x.items) more.items)) }
{
    let mut k = 0;
    for lines in more {
        put_behind(&mut sends[k], lines)?;
        k += 1;
    }
    Ok(())
}
