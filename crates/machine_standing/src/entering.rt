//! What handling an event does whatever its kind: memory before, and its entry.
#![tactic(auto)]

ghost use Rattle.std.specs.Prelude.{◌≡◌, ◌+◌, ◌-◌, ◌<◌, ◌^◌, [], ◌∷◌, ◌++◌, length, IfOk, OnOk, IfErr};
ghost use Rattle.seq_word.specs.Seen.{last_word, went_to};

use entry_log::EntryLog;
use machine_contract::{Answered, Stop};
use mesh_types::answers::Answer;
use mesh_types::events::Event;
use mesh_types::history::Entry;
use mesh_types::jobs::{JobDraft, Jobs};
use mesh_types::told::{Told, ToldEvent};
use seq_word::Keeper;
use std::alloc::AllocError;

/// A history has at most so many entries.
const MOST_ENTRIES: u64 = 0xffff_ffff;

/// What every entry has beside what was answered.
#[derive(Drop)]
pub struct Place {
    /// The bearer.
    pub bearer: u8,
    /// The number among the bearer's events.
    pub number: u32,
    /// The refills since the entry before.
    pub fills: u32,
}

// Memory for an entry more, and for the jobs of its event: a draft of none.
fn memory_for_one(history: &mut EntryLog) -> Result<JobDraft, AllocError>
    ensures draft { IfOk result (λ draft. draft ≡ []) }
    ensures room { OnOk result (0 < history.new.room) }
    ensures entries { history.new.entries ≡ history.old.entries }
    ensures moves { history.new.moves ≡ history.old.moves }
    ensures taken { history.new.taken ≡ history.old.taken }
{
    history.reserve()?;
    JobDraft::new(history.allocator())
}

/// Takes memory for an entry more and for the jobs of its event, a draft of none, where the history has a place for it. After a refusal, which is
/// for want of memory, the entries are as they were.
pub fn room(history: &mut EntryLog) -> Result<JobDraft, Stop>
    ensures draft { IfOk result (λ draft. draft ≡ []) }
    ensures room { OnOk result (0 < history.new.room) }
    ensures few { OnOk result (length history.new.entries < 2 ^ 32 - 1) }
    ensures memory { IfErr result (λ stop. stop ≡ Stop.Memory) }
    ensures entries { history.new.entries ≡ history.old.entries }
    ensures moves { history.new.moves ≡ history.old.moves }
    ensures taken { history.new.taken ≡ history.old.taken }
{
    if history.count() >= MOST_ENTRIES {
        return Err(Stop::Memory);
    }
    match memory_for_one(history) {
        Ok(draft) => Ok(draft),
        Err(_) => Err(Stop::Memory),
    }
}

/// Appends the entry of an event, for which there is room. The keeper of the numbers tells contracts where the counter has been moved to (`moves`).
#[inline(always)]
pub fn enter(
    history: &mut EntryLog,
    keeper: &Keeper,
    place: Place,
    event: &Event,
    answer: Answer,
    jobs: Jobs,
) -> Answered
    requires room { 0 < history.old.room }
    requires few { length history.old.entries < 2 ^ 32 - 1 }
    ensures entry { history.new.entries
        ≡ history.old.entries
        ++ (record {
          bearer = place.bearer;
          number = place.number;
          event = event.now;
          fills = place.fills;
          answer = result.answer;
          jobs = result.jobs;
        }) ∷ [] }
    ensures moves { history.new.moves ≡ history.old.moves ++ last_word (went_to keeper.now.advances) ∷ [] }
    ensures taken { history.new.taken ≡ history.old.taken }
    ensures place { result.at ≡ length history.old.entries }
    ensures answer { result.answer ≡ answer }
    ensures jobs { result.jobs ≡ jobs }
{
    let answered = Answered {
        at: history.count() as u32,
        answer: Told::of(&answer),
        jobs,
    };
    let entry = Entry {
        bearer: place.bearer,
        number: place.number,
        event: ToldEvent::of(event),
        fills: place.fills,
        answer,
        jobs: Told::of(&answered.jobs),
    };
    history.push(entry, keeper);
    answered
}
