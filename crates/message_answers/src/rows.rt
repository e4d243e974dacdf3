//! The answers that go by the sender and by the name of a PDU (Mesh Profile 1.0.1, sections 3.4.6.3 and 3.8.8).
#![tactic(auto)]

ghost use Rattle.std.specs.Prelude.{◌≡◌, true, IfSome};
ghost use Rattle.std.specs.Option.{option_map};
ghost use Rattle.event_definitions.specs.Answers.{replayed as replayed_in};
ghost use Rattle.mesh_base.specs.declared.pair.Pair.{Pair as PairIn};
ghost use Rattle.mesh_types.specs.declared.answers.Answer.TheVariants as A;
ghost use Rattle.message_answers.specs.Kinds.{is_early};
ghost use Rattle.message_answers.specs.Sender.{sender_answer};
ghost use Rattle.node_records.specs.Tables.{config_in};

use mesh_base::fields::NetFields;
use mesh_base::pair::Pair;
use mesh_types::answers::Answer;
use node_records::Persist;

/// The answer by SRC and by an unassigned DST, if there is one.
pub fn sender_row(p: &Persist, f: &NetFields) -> Option<Answer>
    ensures value { result ≡ sender_answer (config_in p.now) f.now }
    ensures early { IfSome result (λ a. is_early a ≡ true) }
{
    if !f.src.is_unicast() || f.dst.is_unassigned() {
        Some(Answer::BadAddress)
    } else if p.is_element(f.src) {
        Some(Answer::Own)
    } else {
        None
    }
}

/// The entry of the source of a message that isn't newer than it, if there is one.
pub fn replayed(kept: Option<Pair>, pair: Pair) -> Option<Pair>
    ensures { replayed_in kept pair ≡ option_map (λ (k : PairIn). A.Replay k) result }
{
    match kept {
        Some(kept) if pair <= kept => Some(kept),
        _ => None,
    }
}
