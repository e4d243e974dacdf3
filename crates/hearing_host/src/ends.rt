//! A source that gives PDUs from a list, and a sink that keeps.
#![tactic(auto)]

ghost use Rattle.std.specs.Prelude.{◌≡◌, map, IfOk};
ghost use Rattle.hearing_host.specs.Heard.{heard, heard_steps, kept_steps};

use mesh_base::octets::Octets;
use mesh_node::{PhaseLog, PhaseSink, PhaseSource, SinkFailed, SourceFailed};
use mesh_types::events::Event;
use std::alloc::{AllocError, Global};
use std::collections::VecDeque;

/// PDUs that are to be heard, one in each phase, by the one bearer of a node.
#[derive(Drop)]
pub struct HeardPdus {
    /// Those that are left, the next one first.
    pub left: VecDeque<Octets<40>>,
    /// Where memory for a phase comes from.
    pub alloc: Global,
}

/// The lists of events of a phase in which the one bearer hears a PDU.
fn hearing(alloc: Global, pdu: Octets<40>) -> Result<Vec<Vec<Event>>, AllocError>
    ensures value { IfOk result (λ r. map (λ v. v.items) r.items ≡ heard pdu) }
{
    let mut events = Vec::new(alloc);
    events.push(Event::Net(pdu))?;
    let mut lists = Vec::new(alloc);
    lists.push(events)?;
    Ok(lists)
}

impl PhaseSource for HeardPdus {
    ghost steps = { heard_steps };

    fn next(
        &mut self,
        bearers: u8,
        _elements: u8,
        _due: u32,
    ) -> Result<Option<Vec<Vec<Event>>>, SourceFailed> {
        if bearers != 1 {
            return Err(SourceFailed);
        }
        match self.left.pop_front() {
            None => Ok(None),
            Some(pdu) => match hearing(self.alloc, pdu) {
                Ok(lists) => Ok(Some(lists)),
                Err(_) => Err(SourceFailed),
            },
        }
    }
}

/// What phases left.
#[derive(Drop)]
pub struct KeptLogs {
    /// The log of each phase.
    pub logs: Vec<PhaseLog>,
}

impl PhaseSink for KeptLogs {
    ghost steps = { kept_steps };

    fn tell(&mut self, log: PhaseLog) -> Result<(), SinkFailed> {
        match self.logs.push(log) {
            Ok(()) => Ok(()),
            Err(_) => Err(SinkFailed),
        }
    }
}
