//! Time that passed.
#![tactic(auto)]

ghost use Rattle.std.specs.Prelude.{◌≡◌, ◌≤◌, ◌^◌, ◌++◌, ◌∷◌, [], List, All, length};
ghost use Rattle.layer_states.specs.Reassembly.{after, tick};
ghost use Rattle.layer_states.specs.Sending as sending;
ghost use Rattle.mesh_hearing.specs.Heard.{IsPassed};
ghost use Rattle.mesh_hearing.specs.Tables.{AreTablesOf, IsFit};
ghost use Rattle.mesh_types.specs.declared.answers.Answer.TheVariants as A;
ghost use Rattle.node_records.specs.Meaning.{IsMeaningOf};
ghost use Rattle.event_definitions.specs.History.{OfNothing, Past, Told};
ghost use Rattle.segment_sender.specs.Held.{IsHeldWell};

use crate::tables::Tables;
use layer_states::reassembly::AckList;
use mesh_types::answers::Answer;
use node_records::Persist;
use segment_sender::Rounds;

/// The ticks of a life stop here.
const MOST_TICKS: u64 = 1 << 48;

/// The answer to time that passed, the acknowledgments that are due, and the own messages that send a round.
#[derive(Drop)]
pub struct Passed {
    /// The answer.
    pub answer: Answer,
    /// The acknowledgments, in the order in which their messages began; none after a Node Reset.
    pub acks: AckList,
    /// The own segmented messages that send a round, as they were before, in the order in which they began; none after a Node Reset.
    pub rounds: Rounds,
}

impl Tables {
    /// What a node with a store of this value answers when so many ticks of 10 ms more have passed. Messages whose last new segment is 1000
    /// ticks old aren't in progress any more, and acknowledgments that are due are given. Own segmented messages that send a round are given,
    /// and those that have had theirs go. After a Node Reset nothing changes.
    pub fn pass(&mut self, p: &Persist, ticks: u32) -> Passed
        ensures passed { (past : Past) → IsMeaningOf past.records p.now → AreTablesOf self.old past.told
            → IsPassed past ticks result self.new }
        ensures held { All IsHeldWell result.rounds.items }
        ensures few { length result.rounds.items ≤ 4 }
        ensures keys { self.new.keys ≡ self.old.keys }
    {
        if p.reset {
            return Passed {
                answer: Answer::Reset,
                acks: AckList::new(),
                rounds: Rounds::new(),
            };
        }
        let now = (self.ticks + u64::from(ticks)).min(MOST_TICKS);
        self.ticks = now;
        Passed {
            answer: Answer::Ticked { now },
            acks: self.parts.tick(now),
            rounds: self.own.rounds(now),
        }
    }

    /// Time passes until this moment of the life, in ticks of 10 ms, at most 2^48, and nothing is given: for a moment at which no acknowledgment
    /// and no round is due, and no message goes. The tables then stand for an entry that tells of this moment too.
    pub fn wait(&mut self, now: u64)
        requires most { now ≤ 2 ^ 48 }
        ensures value { self.new ≡ record self.old { ticks = now } }
        ensures tables { (told : List Told) (e : Told) → AreTablesOf self.old told
            → after self.old.parts (tick now) ≡ self.old.parts
            → sending.after self.old.own (sending.due now) ≡ self.old.own
            → e.insight ≡ OfNothing → e.entry.answer ≡ A.Ticked now → AreTablesOf self.new (told ++ e ∷ []) }
    {
        self.ticks = now;
    }
}
