//! What stands around a phase of a life, whoever runs it.
#![tactic(auto)]

ghost use Rattle.std.specs.Prelude.{◌≡◌, length, replicate, IfOk, OnOk};
ghost use Rattle.locked_node.specs.Stands.{IsNode};
ghost use Rattle.mesh_node.specs.Going.{IsLogged};

use crate::log::{no_counts, take_lines};
use crate::told::PhaseLog;
use flash_model::Flash;
use locked_node::Node;
use machine_contract::Machine;
use node_phase::{Done, KeptByBearers};
use seq_word::{Drawer, Numbers};
use std::alloc::{AllocError, Global};

/// What the bearers of a life share, and how far each is.
#[derive(Drop)]
pub struct Seats<M: Machine> {
    /// The counter and the mark.
    pub numbers: Numbers,
    /// The seat that takes in what bearers draw.
    pub drawer: Drawer,
    /// For each bearer the number of its last entry in this life, or 0.
    pub counts: Vec<u32>,
    /// The number of entries of this life.
    pub entries: u32,
    /// What the bearers keep of keys, and read by, from phase to phase.
    pub kept: KeptByBearers<M>,
}

impl<M: Machine> Seats<M> {
    /// Seats for so many bearers, none of which has an entry yet.
    pub fn new(
        alloc: Global,
        numbers: Numbers,
        drawer: Drawer,
        bearers: u8,
    ) -> Result<Self, AllocError>
        ensures words { IfOk result (λ r. (r.numbers ≡ numbers) × (r.drawer ≡ drawer)) }
        ensures counts { IfOk result (λ r. r.counts.items ≡ replicate bearers 0) }
        ensures entries { IfOk result (λ r. r.entries ≡ 0) }
    {
        let counts = no_counts(alloc, bearers)?;
        Ok(Seats {
            numbers,
            drawer,
            counts,
            entries: 0,
            kept: KeptByBearers::new(alloc),
        })
    }
}

/// A node behind a phase.
#[derive(Drop)]
pub struct PhaseDone<M: Machine, F: Flash + Send + Drop> {
    /// The node.
    pub node: Node<M, F>,
    /// What the phase left.
    pub log: PhaseLog,
    /// Whether the flash failed. Then the life is over.
    pub closed: bool,
}

/// Takes from a node the entries of a phase, and from its bearers what they left.
pub fn take_log<M: Machine, F: Flash + Send + Drop>(
    alloc: Global,
    node: &mut Node<M, F>,
    seats: &mut Seats<M>,
    dones: Vec<Done>,
) -> Result<PhaseLog, AllocError>
    requires counts { length seats.old.counts.items ≡ length dones.items }
    requires place { seats.old.entries ≡ node.old.machine.taken }
    ensures known { IsNode M.role M.image F.chip node.old }
    ensures numbers { seats.new.numbers ≡ seats.old.numbers }
    ensures drawer { seats.new.drawer ≡ seats.old.drawer }
    ensures node { OnOk result
        (node.new
        ≡ record node.old { machine = record node.old.machine { taken = length node.old.machine.entries } }) }
    ensures logged { IfOk result (λ log. IsLogged node.old seats.old seats.new dones.items log) }
{
    // It does nothing when it runs: the proof uses what it says.
    node.known();
    let sends = take_lines(alloc, seats.counts.as_mut_slice(), dones)?;
    let entries = node.take_entries();
    let first = seats.entries;
    seats.entries = first + entries.len() as u32;
    Ok(PhaseLog {
        first,
        entries,
        sends,
    })
}
