//! The answers to a whole message (Mesh Profile 1.0.1, sections 3.6 and 3.8.8).
#![tactic(auto)]

ghost use Rattle.std.specs.Prelude.{◌≡◌, ◌≤◌, true, length};
ghost use Rattle.layer_definitions.specs.Lower.{is_control};
ghost use Rattle.mesh_hearing.specs.Below.{whole_octets, IsAccessAs, IsWholeAs};
ghost use Rattle.message_answers.specs.Kinds.{is_of_whole};
ghost use Rattle.mesh_reading.specs.Held.{held_in, reading_of};
ghost use Rattle.node_records.specs.Meaning.{IsMeaningOf};
ghost use Rattle.node_records.specs.Tables.{config_in, entry_in};
ghost use Rattle.event_definitions.specs.History.{Past};

use lower_transport::Lower;
use mesh_base::pair::{Name, Pair};
use mesh_reading::{Keys, NetReading, SealedBy};
use message_answers::{Judged, judge_control, judge_opened};
use node_records::Persist;

/// A message that is whole.
#[derive(Drop)]
pub(crate) struct WholeMessage<'a> {
    /// The network PDU that it came in, or its last segment.
    pub reading: &'a NetReading,
    /// Its name.
    pub name: Name,
    /// Its octets: of an access message those that are sealed.
    pub octets: &'a [u8],
}

// The answer to a whole access message that is sealed so.
fn judge_access(
    keys: &Keys,
    p: &Persist,
    kept: Option<Pair>,
    m: &WholeMessage<'_>,
    sealed: &SealedBy,
) -> Judged
    requires fit { keys.now ≡ held_in (config_in p.now) }
    requires kept { kept ≡ entry_in p.now m.now.name.src.0 }
    requires most { length m.now.octets.now ≤ 384 }
    ensures value { (past : Past) → IsMeaningOf past.records p.now
        → IsAccessAs past (reading_of m.now.reading.now) m.now.name
        sealed.now.akf sealed.now.aid sealed.now.long_mic m.now.octets.now result }
    ensures whole { is_of_whole result.answer ≡ true }
{
    let opened = keys.open(m.reading, &m.name, sealed, m.octets);
    judge_opened(p, kept, m.reading, &m.name, opened)
}

/// The answer to a whole message, which came as this lower transport PDU or as segments of which this is the last, and whose source has the entry
/// `kept`.
pub(crate) fn judge_whole(
    keys: &Keys,
    p: &Persist,
    kept: Option<Pair>,
    m: &WholeMessage<'_>,
    low: &Lower,
) -> Judged
    requires fit { keys.now ≡ held_in (config_in p.now) }
    requires kept { kept ≡ entry_in p.now m.now.name.src.0 }
    requires most { length m.now.octets.now ≤ 384 }
    requires control { is_control low.now ≡ true → length m.now.octets.now ≤ 256 }
    ensures value { (past : Past) → IsMeaningOf past.records p.now
        → m.now.octets.now ≡ whole_octets past m.now.name low.now
        → IsWholeAs past (reading_of m.now.reading.now) low.now m.now.name result }
    ensures whole { is_of_whole result.answer ≡ true }
{
    match low {
        Lower::Control { opcode, .. } => {
            Judged::early(judge_control(p, kept, m.reading, &m.name, *opcode, m.octets))
        }
        Lower::ControlPart { opcode, .. } => {
            Judged::early(judge_control(p, kept, m.reading, &m.name, *opcode, m.octets))
        }
        Lower::Access { akf, aid, .. } => {
            let sealed = SealedBy {
                akf: *akf,
                aid: *aid,
                long_mic: false,
            };
            judge_access(keys, p, kept, m, &sealed)
        }
        Lower::AccessPart {
            akf,
            aid,
            szmic,
            ..
        } => {
            let sealed = SealedBy {
                akf: *akf,
                aid: *aid,
                long_mic: *szmic,
            };
            judge_access(keys, p, kept, m, &sealed)
        }
    }
}
