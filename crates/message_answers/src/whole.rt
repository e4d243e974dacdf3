//! The answers to a whole message (Mesh Profile 1.0.1, sections 3.6 and 3.8.8).
#![tactic(auto)]

ghost use Rattle.std.specs.Prelude.{◌≡◌, ◌≤◌, true, None, length};
ghost use Rattle.std.specs.Option.{option_map};
ghost use Rattle.event_definitions.specs.Answers.{opened_answer, placed_answer};
ghost use Rattle.event_definitions.specs.History.{Past};
ghost use Rattle.mesh_reading.specs.Held.{opening_of, reading_of};
ghost use Rattle.mesh_types.specs.declared.answers.Answer.TheVariants as A;
ghost use Rattle.message_answers.specs.Kinds.{is_of_whole};
ghost use Rattle.node_records.specs.Meaning.{IsMeaningOf};
ghost use Rattle.node_records.specs.Tables.{entry_in};

use mesh_base::octets::Octets;
use mesh_base::pair::{Name, Pair};
use mesh_reading::{NetReading, Opened};
use mesh_types::answers::{Answer, KeyName};
use node_records::{Persist, StoreRecord};

/// The answer to a message, and what it opened to, if it did.
#[derive(Drop)]
pub struct Judged {
    /// What an access message opened to.
    pub opened: Option<Opened>,
    /// The answer.
    pub answer: Answer,
}

impl Judged {
    /// Of a message that wasn't opened.
    pub fn early(answer: Answer) -> Judged
        ensures { result ≡ record { opened = None; answer = answer } }
    {
        Judged {
            opened: None,
            answer,
        }
    }
}

// This answer where there is a place in the replay list for the source of a message, whose entry is `kept`, and else that the list is full.
fn placed(p: &Persist, kept: Option<Pair>, name: &Name, answer: Answer) -> Answer
    requires { kept ≡ entry_in p.now name.now.src.0 }
    ensures value { (past : Past) → IsMeaningOf past.records p.now → result ≡ placed_answer past name.now answer }
    ensures whole { is_of_whole answer ≡ true → is_of_whole result ≡ true }
{
    if kept.is_some() {
        return answer;
    }
    let record = StoreRecord::Replay {
        first: *name,
        second: None,
    };
    match p.check(&record) {
        Ok(()) => answer,
        Err(limit) => Answer::ListFull { held: limit.held },
    }
}

/// The answer to a whole access message that opened to this, if it did, whose source has the entry `kept` in the replay list.
pub fn judge_opened(
    p: &Persist,
    kept: Option<Pair>,
    r: &NetReading,
    name: &Name,
    opened: Option<Opened>,
) -> Judged
    requires kept { kept ≡ entry_in p.now name.now.src.0 }
    ensures value { (past : Past) → IsMeaningOf past.records p.now
        → result.answer ≡ opened_answer past (reading_of r.now) name.now (option_map opening_of opened) }
    ensures opened { result.opened ≡ opened }
    ensures whole { is_of_whole result.answer ≡ true }
{
    let Some(opened) = opened else {
        return Judged::early(Answer::NoKey)
    };
    let delivered = Answer::Delivered {
        name: *name,
        dst: r.fields.dst,
        key: KeyName::of(&opened.key),
        payload: opened.payload.copied(),
    };
    let answer = placed(p, kept, name, delivered);
    Judged {
        opened: Some(opened),
        answer,
    }
}

/// The answer to a whole control message with these parameters, at most 256 octets, whose source has the entry `kept` in the replay list.
pub fn judge_control(
    p: &Persist,
    kept: Option<Pair>,
    r: &NetReading,
    name: &Name,
    opcode: u8,
    octets: &[u8],
) -> Answer
    requires kept { kept ≡ entry_in p.now name.now.src.0 }
    requires most { length octets.now ≤ 256 }
    ensures value { (past : Past) → IsMeaningOf past.records p.now
        → result ≡ placed_answer past name.now (A.Control name.now r.now.fields.dst opcode octets.now) }
    ensures whole { is_of_whole result ≡ true }
{
    let mut params = Octets::new();
    params.extend(octets);
    let control = Answer::Control {
        name: *name,
        dst: r.fields.dst,
        opcode,
        params,
    };
    placed(p, kept, name, control)
}
