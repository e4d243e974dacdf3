//! A report of a living node, over a sink of octets.
#![tactic(auto)]

ghost use Rattle.std.specs.Prelude.{◌≡◌, None};
ghost use Rattle.live_report.specs.Steps.{FailsAt, Takes};

use mesh_base::outside::Sink;
use mesh_node::{PhaseLog, PhaseSink, SinkFailed};
use report_writer::{WriteStop, write_phase};
use std::alloc::Global;

/// Writes the lines of each phase at once: a line for each of its entries, then one for each job that was done in it, bearer by bearer. Each line
/// is handed to the sink as one piece.
///
/// The lines of the life's opening and end aren't its own: `write_opening` and `write_end` of `report_writer` write them to the same sink.
#[derive(Drop)]
pub struct LiveReport<K: Sink> {
    /// Where the lines go.
    pub sink: K,
    /// The memory for the texts of lines: those of one phase at a time.
    pub alloc: Global,
    /// Whether the octets of network PDUs are shown.
    pub hex: bool,
    /// Why a phase wasn't told to its end, if one wasn't.
    pub stopped: Option<WriteStop>,
}

impl<K: Sink> LiveReport<K> {
    /// A report of which nothing is written yet.
    pub fn new(alloc: Global, hex: bool, sink: K) -> Self
        ensures sink { result.sink ≡ sink }
        ensures hex { result.hex ≡ hex }
        ensures stopped { result.stopped ≡ None }
    {
        LiveReport {
            sink,
            alloc,
            hex,
            stopped: None,
        }
    }
}

impl<K: Sink> PhaseSink for LiveReport<K> {
    ghost steps = { record {
      takes = λ old did new. Takes K.held K.pieces K.faults old did new;
      fails = λ old did new. FailsAt K.held K.pieces K.faults old did new;
    } };

    fn tell(&mut self, log: PhaseLog) -> Result<(), SinkFailed> {
        let told = write_phase(
            self.alloc,
            &mut self.sink,
            self.hex,
            log.first,
            log.entries.as_slice(),
            log.sends.as_slice(),
        );
        match told {
            Ok(()) => Ok(()),
            Err(stop) => {
                self.stopped = Some(stop);
                Err(SinkFailed)
            }
        }
    }
}
