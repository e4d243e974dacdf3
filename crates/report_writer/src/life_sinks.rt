//! What is made of lives that are over.
#![tactic(auto)]

ghost use Rattle.std.specs.Prelude.{◌≡◌, ◌≢◌, ℕ, ◌+◌, ◌≤◌, List, [], ◌∷◌, ◌++◌, length, refl, Err, OnOk, OnErr};
ghost use Rattle.mesh_base.specs.Outside.{Rose};
ghost use Rattle.record_types.specs.declared.records.StoreRecord.{StoreRecord};
ghost use Rattle.report_definitions.specs.Record.{Life, LifeOver};
ghost use Rattle.report_definitions.specs.Report.{life_lines};
ghost use Rattle.report_writer.specs.Lives.{FitsLines, life_of};
ghost use Rattle.report_writer.specs.Reporting.{Reports, reports_none};
ghost use Rattle.report_writer.specs.Writing.{SinkView, WrittenFront, view_of};
ghost use Rattle.report_writer.specs.declared.lives.WriteStop.TheVariants as stop;

use crate::lives::{EndedLife, WriteStop, write_life};
use mesh_base::outside::Sink;
use std::alloc::Global;

/// What is made of lives that are over, one after another: it may keep something of each, and write to a sink of octets.
pub trait LifeSink {
    // These lives were told, all since it had the first value; it has the second now, and the sink went from one view to the other.
    ghost told: { Self → Self → List LifeOver → SinkView → SinkView → Type 0 };

    // Telling of the life with this number was broken off, and the sink went from one view to the other.
    ghost broken: { Self → ℕ → Life → SinkView → SinkView → Type 0 };

    /// Tells of the life with this number, from 1 on. It is the same after an error.
    ///
    /// # Errors
    ///
    /// `Fault` only where the sink's count of faults rose. `Memory` where there is no memory; nothing was written then.
    fn tell<K: Sink>(
        &mut self,
        alloc: Global,
        sink: &mut K,
        number: u32,
        life: &EndedLife,
    ) -> Result<(), WriteStop>
        requires room { FitsLines (life_of life.now) }
        ensures ok { (first : Self) (lives : List LifeOver) (over : List StoreRecord) (before : SinkView)
            → told first self.old lives before (view_of K.held K.pieces sink.old) → number ≡ length lives + 1
            → OnOk result
            (told first self.new (lives ++ (record { over = over; life = life_of life.now }) ∷ []) before
            (view_of K.held K.pieces sink.new)) }
        ensures err { OnErr result
            (broken self.old number (life_of life.now) (view_of K.held K.pieces sink.old)
            (view_of K.held K.pieces sink.new)) }
        ensures kept { OnErr result (self.new ≡ self.old) }
        ensures memory { result ≡ Err stop.Memory → sink.new ≡ sink.old }
        ensures cause { result ≡ Err stop.Fault → Rose (K.faults sink.old) (K.faults sink.new) }
        ensures no_fault { result ≢ Err stop.Fault → K.faults sink.new ≡ K.faults sink.old }
        ensures later { K.faults sink.old ≤ K.faults sink.new };

    // of no lives nothing is told
    ghost none: { (value : Self) (view : SinkView) → told value value [] view view };
}

/// Writes the report of each life, line by line.
#[derive(Clone, Copy, Debug, PartialEq, Eq)]
pub struct Report {
    /// Whether the octets of network PDUs are shown.
    pub hex: bool,
}

impl LifeSink for Report {
    ghost told = { λ first now lives before after. (now ≡ first) × Reports first.hex lives before after };

    ghost broken = { λ now number life before after. WrittenFront (life_lines now.hex number life) before after };

    fn tell<K: Sink>(
        &mut self,
        alloc: Global,
        sink: &mut K,
        number: u32,
        life: &EndedLife,
    ) -> Result<(), WriteStop> {
        write_life(alloc, sink, self.hex, number, life)
    }

    ghost none = { λ value view. (refl, reports_none value.hex view) };
}
