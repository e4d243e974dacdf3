//! The numbers of a run.
#![tactic(auto)]

ghost use Rattle.std.specs.Prelude.{◌≡◌, ◌≢◌, ◌+◌, ◌≤◌, List, [], ◌∷◌, ◌++◌, length, refl, Err, OnOk, OnErr};
ghost use Rattle.mesh_base.specs.Outside.{Rose};
ghost use Rattle.record_types.specs.declared.records.StoreRecord.{StoreRecord};
ghost use Rattle.report_definitions.specs.Record.{LifeOver};
ghost use Rattle.report_writer.specs.Lives.{FitsLines, life_of};
ghost use Rattle.report_writer.specs.Writing.{SinkView, view_of};
ghost use Rattle.report_writer.specs.declared.lives.WriteStop.TheVariants as stop;
ghost use Rattle.run_summary.specs.Counting.{Counts, IsFew, counts_none, with_life};
ghost use Rattle.run_summary.specs.Summaries.{summary_of};

use crate::counts::{count_answers, count_jobs};
use mesh_base::outside::Sink;
use report_writer::{EndedLife, LifeSink, WriteStop};
use std::alloc::Global;

/// The numbers of a run, as far as its lives were told. A count has 128 bits, which no lists that memory can hold fill.
#[derive(Clone, Copy, Debug, PartialEq, Eq)]
pub struct Summary {
    /// Lives.
    pub lives: u32,
    /// Entries.
    pub events: u128,
    /// Entries that were planned.
    pub planned: u128,
    /// Entries that gave a control message.
    pub control: u128,
    /// Entries for another node.
    pub not_mine: u128,
    /// Control PDUs of the node.
    pub ctl: u128,
    /// PDUs that were relayed.
    pub relay: u128,
    /// Their octets, modulo 2^32.
    pub octets: u32,
}

impl Summary {
    /// The summary of no lives.
    pub fn new() -> Summary
        ensures value { result ≡ summary_of [] }
    {
        Summary {
            lives: 0,
            events: 0,
            planned: 0,
            control: 0,
            not_mine: 0,
            ctl: 0,
            relay: 0,
            octets: 0,
        }
    }

    /// The summary with the life that has this number.
    fn with_life(&self, number: u32, life: &EndedLife) -> Summary
        requires room { FitsLines (life_of life.now) }
        ensures value { result ≡ with_life self.now number (life_of life.now) }
        ensures few { IsFew (life_of life.now) }
    {
        let entries = life.entries.as_slice();
        let answers = count_answers(entries);
        let jobs = count_jobs(life.sends.as_slice());
        Summary {
            lives: number,
            events: self.events.wrapping_add(entries.len() as u128),
            planned: self.planned.wrapping_add(u128::from(answers.planned)),
            control: self.control.wrapping_add(u128::from(answers.control)),
            not_mine: self.not_mine.wrapping_add(u128::from(answers.not_mine)),
            ctl: self.ctl.wrapping_add(jobs.ctl),
            relay: self.relay.wrapping_add(jobs.relay),
            octets: self.octets.wrapping_add(jobs.octets),
        }
    }
}

impl LifeSink for Summary {
    ghost told = { λ first now lives before after. (after ≡ before) × Counts first now lives };

    ghost broken = { λ now number life before after. ⊥ };

    fn tell<K: Sink>(
        &mut self,
        alloc: Global,
        sink: &mut K,
        number: u32,
        life: &EndedLife,
    ) -> Result<(), WriteStop> {
        *self = self.with_life(number, life);
        Ok(())
    }

    ghost none = { λ value view. (refl, counts_none value) };
}
