//! What a node is to send for an event.
#![tactic(auto)]

ghost use Rattle.std.specs.Prelude.{◌≡◌, ◌<◌, ◌≤◌, ◌↔◌, [], ◌∷◌, ◌++◌, length, IfOk, IsTrue};

use mesh_base::address::Address;
use mesh_base::fields::{NetFields, NetMaterial};
use mesh_base::keys::UpperKey;
use mesh_base::octets::Octets;
use mesh_base::pair::Name;
use node_limits::JOBS;
use std::alloc::{AllocError, Global};
use std::fmt;
use std::fmt::{Debug, Formatter};
use std::marker::Model;

/// A segment of an own message, but for the pair that it goes under.
#[derive(Drop, PartialEq, Eq)]
pub struct Segment {
    /// The material that seals it.
    pub material: NetMaterial,
    /// The message's name: SRC, one of the node's elements, with its SeqAuth.
    pub name: Name,
    /// TTL, below 128.
    pub ttl: u8,
    /// DST.
    pub dst: Address,
    /// SegO, 5 bits.
    pub seg_o: u8,
    /// SegN, 5 bits.
    pub seg_n: u8,
    /// The transport PDU, 5 to 16 octets.
    pub tpdu: Octets<16>,
    /// Whether it is the first segment of all, which goes under the pair of SeqAuth; every other draws a pair.
    pub first: bool,
}

/// One job of an entry. Where it answers a Poll whose answer is to be kept, `keep` is the Low Power node and the FSN.
#[derive(Drop, PartialEq, Eq)]
pub enum Job {
    /// The network PDU of another node, with its own SRC, IV Index and SEQ.
    Relay {
        /// The material that seals it.
        material: NetMaterial,
        /// Its fields.
        fields: NetFields,
    },
    /// A control PDU of this node.
    Control {
        /// The material that seals it.
        material: NetMaterial,
        /// TTL, below 128.
        ttl: u8,
        /// SRC, one of the node's elements.
        src: Address,
        /// DST.
        dst: Address,
        /// The transport PDU, 1 to 12 octets.
        tpdu: Octets<16>,
        /// The Poll that it answers.
        keep: Option<(Address, bool)>,
    },
    /// An access message of this node.
    Message {
        /// The index of the network key, 12 bits.
        net: u16,
        /// The material that seals the network PDU.
        material: NetMaterial,
        /// The key that seals the payload.
        key: UpperKey,
        /// TTL, below 128.
        ttl: u8,
        /// SRC, one of the node's elements.
        src: Address,
        /// DST.
        dst: Address,
        /// The access payload, 1 to 48 octets.
        payload: Octets<48>,
        /// The Poll that it answers.
        keep: Option<(Address, bool)>,
    },
    /// The access message whose payload is that of this entry's Send.
    Sent {
        /// The index of the network key, 12 bits.
        net: u16,
        /// The material that seals the network PDU.
        material: NetMaterial,
        /// The key that seals the payload.
        key: UpperKey,
        /// TTL, below 128.
        ttl: u8,
        /// SRC, one of the node's elements.
        src: Address,
        /// DST.
        dst: Address,
    },
    /// A segment of an own message.
    Segment(Segment),
    /// Octets that were kept for a Poll, once more.
    Repeat {
        /// SRC, IV Index and SEQ of the octets.
        name: Name,
        /// The octets of the network PDU.
        pdu: Octets<29>,
    },
    /// A Secure Network beacon.
    Beacon([u8; 22]),
}

/// The jobs of an entry in their order, at most `JOBS`. They take the memory of so many as they are, as far as the allocator gives the rest back;
/// no clause says so. A clause sees them as the list.
#[derive(Drop)]
pub struct Jobs {
    table: Vec<Job>,
}

/// How many they are; a job may hold a key.
impl Debug for Jobs {
    ghost use Rattle.mesh_types.specs.Printed.{jobs_printed};

    ghost debug_output = { λ jobs. jobs_printed jobs };

    fn fmt<W: fmt::Write>(&self, f: &mut Formatter<W>) -> fmt::Result {
        write!(f, "Jobs {{ length: {}, .. }}", self.table.len())
    }
}

impl Model for Jobs {
    ghost use Rattle.std.specs.Prelude.{◌≤◌, List, length};
    ghost use Rattle.mesh_types.specs.declared.jobs.Job.{Job};
    ghost use Rattle.node_limits.specs.declared.TheConstants.{JOBS};

    ghost Value = { List Job };

    ghost view = { λ j. j.table.items };

    ghost invariant = { λ j. length j.table.items ≤ JOBS };
}

impl Jobs {
    /// The number of jobs.
    pub fn len(&self) -> usize
        ensures value { result ≡ length self.now }
        ensures length { result ≤ JOBS }
    {
        self.table.len()
    }

    /// Whether there are no jobs.
    pub fn is_empty(&self) -> bool
        ensures { IsTrue result ↔ (self.now ≡ []) }
    {
        self.table.is_empty()
    }

    /// The jobs, in their order.
    pub fn as_slice(&self) -> &[Job]
        ensures value { result.now ≡ self.now }
        ensures length { length result.now ≤ JOBS }
    {
        self.table.as_slice()
    }
}

/// The jobs of an entry while they are made: there is memory for `JOBS`, taken at once, so that a job more can't fail. A clause sees them as
/// the list.
#[derive(Drop)]
pub struct JobDraft {
    table: Vec<Job>,
}

impl Model for JobDraft {
    ghost use Rattle.std.specs.Prelude.{◌≤◌, List, length, vec_capacity};
    ghost use Rattle.mesh_types.specs.declared.jobs.Job.{Job};
    ghost use Rattle.node_limits.specs.declared.TheConstants.{JOBS};

    ghost Value = { List Job };

    ghost view = { λ j. j.table.items };

    ghost invariant = { λ j. (length j.table.items ≤ JOBS) × (JOBS ≤ vec_capacity j.table) };
}

impl JobDraft {
    /// No jobs, and memory for `JOBS`, which comes from `alloc`. The error is for want of memory.
    pub fn new(alloc: Global) -> Result<JobDraft, AllocError>
        ensures value { IfOk result (λ j. j ≡ []) }
    {
        Ok(JobDraft {
            table: Vec::with_capacity(alloc, JOBS)?,
        })
    }

    /// Puts a job behind the others, for which the caller has room.
    pub fn push(&mut self, job: Job)
        requires room { length self.old < JOBS }
        ensures value { self.new ≡ self.old ++ job ∷ [] }
    {
        let _ = self.table.push(job);
    }

    /// The jobs, of which there are no more. Memory that they don't take goes back to the allocator, if that takes it.
    pub fn finish(mut self) -> Jobs
        ensures value { result ≡ self }
    {
        self.table.shrink_to_fit();
        let JobDraft { table } = self;
        Jobs { table }
    }
}
