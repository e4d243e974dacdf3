//! A network PDU heard.
#![tactic(auto)]

ghost use Rattle.std.specs.Prelude.{◌≡◌, true, fold, Some, is_some};
ghost use Rattle.std.specs.Option.{option_to_list};
ghost use Rattle.event_definitions.specs.Answers.{name_of as name_in};
ghost use Rattle.event_definitions.specs.History.{Past};
ghost use Rattle.low_power_definitions.specs.State.{after};
ghost use Rattle.low_power_definitions.specs.State as calls;
ghost use Rattle.low_power_machine.specs.Hearing.{IsJudgedSo, network_row as network_row_in};
ghost use Rattle.low_power_machine.specs.Memory.{IsFitFor};
ghost use Rattle.low_power_machine.specs.Plans.{IsHeardSo, IsPlanned, IsTransportSo};
ghost use Rattle.low_power_role.specs.Answers.{early_answer, is_mine as is_mine_in, is_segmented as is_segmented_in};
ghost use Rattle.low_power_role.specs.Role.{sent_by};
ghost use Rattle.low_power_role.specs.State.{control_calls, offer_calls, state_of};
ghost use Rattle.message_answers.specs.Kinds.{is_of_whole};
ghost use Rattle.mesh_reading.specs.Held.{reading_of};
ghost use Rattle.mesh_types.specs.declared.events.Event.TheVariants as E;
ghost use Rattle.node_records.specs.Meaning.{IsMeaningOf};
ghost use Rattle.node_records.specs.Tables.{config_in, entry_in};
ghost use Rattle.store_definitions.specs.Entries.{entry_of};

use crate::memory::Memory;
use crate::plan::Plan;
use low_power::{Lpn, LpnHeard, LpnJob};
use lower_transport::Lower;
use mesh_base::address::Address;
use mesh_base::control::ControlMsg;
use mesh_base::fields::NetFields;
use mesh_base::pair::{Name, Pair};
use mesh_reading::NetReading;
use mesh_types::answers::Answer;
use mesh_types::low_power::LowPowerAnswer;
use message_answers::{Judged, judge_control, judge_opened, replayed, sender_row};
use node_records::Persist;
use upper_transport::read_control;

// Whether an address is one of this node's: of an element, of all nodes, or one that it had added to its friend's list.
fn is_mine(p: &Persist, lpn: &Lpn, a: Address) -> bool
    ensures { result ≡ is_mine_in (config_in p.now) lpn.now a }
{
    p.is_element(a) || a.0 == 0xffff || lpn.is_listed(a)
}

// SEG, the first bit of a transport PDU.
fn is_segmented(tpdu: &[u8]) -> bool
    ensures { result ≡ is_segmented_in tpdu.now }
{
    match tpdu {
        [first, ..] => *first >= 0x80,
        [] => false,
    }
}

// The answer of the network layer to a PDU that reads, if it has one.
fn network_row(p: &Persist, lpn: &Lpn, f: &NetFields) -> Option<Answer>
    ensures { result ≡ network_row_in (config_in p.now) lpn.now f.now }
{
    match sender_row(p, f) {
        Some(answer) => return Some(answer),
        None => {}
    }
    if !is_mine(p, lpn, f.dst) {
        Some(Answer::NotMine)
    } else if is_segmented(f.tpdu.as_slice()) {
        Some(Answer::LowPower(LowPowerAnswer::Segmented))
    } else {
        None
    }
}

// SRC, IV Index and SEQ.
fn name_of(f: &NetFields) -> Name
    ensures { result ≡ name_in f.now }
{
    Name {
        src: f.src,
        pair: Pair {
            iv: f.iv,
            seq: f.seq,
        },
    }
}

// What the friendship says of a PDU, and then what the replay list does, in which SRC has the entry `kept`.
fn early_row(lpn: &mut Lpn, kept: Option<Pair>, r: &NetReading) -> Option<Answer>
    ensures value { (past : Past) → lpn.old ≡ state_of past → kept ≡ entry_of past.records r.now.fields.src.0
        → result ≡ early_answer past (reading_of r.now) }
    ensures state { lpn.new ≡ after lpn.old (calls.hear (is_some r.now.by.lpn) (name_in r.now.fields)) }
{
    let pair = name_of(&r.fields).pair;
    match lpn.hear(r) {
        LpnHeard::Unasked => Some(Answer::LowPower(LowPowerAnswer::Unasked)),
        LpnHeard::Repeat => Some(Answer::LowPower(LowPowerAnswer::Repeat)),
        LpnHeard::Pass => match replayed(kept, pair) {
            Some(kept) => Some(Answer::Replay { kept }),
            None => None,
        },
    }
}

// The answer to a whole message, whose source has the entry `kept`.
fn judge(memory: &Memory, p: &Persist, kept: Option<Pair>, r: &NetReading, low: &Lower) -> Answer
    requires fit { IsFitFor memory.now p.now }
    requires kept { kept ≡ entry_in p.now r.now.fields.src.0 }
    ensures value { (past : Past) → IsMeaningOf past.records p.now → IsJudgedSo past (reading_of r.now) low.now result }
    ensures whole { is_of_whole result ≡ true }
{
    let name = name_of(&r.fields);
    match low {
        Lower::Access { akf, upper, .. } => {
            let opened = memory.open(r, &name, *akf, upper.as_slice());
            let Judged { answer, .. } = judge_opened(p, kept, r, &name, opened);
            answer
        }
        Lower::Control { opcode, params } => {
            judge_control(p, kept, r, &name, *opcode, params.as_slice())
        }
        // The network layer has an answer to each segment, so none comes here.
        Lower::AccessPart { .. } => {
            let Judged { answer, .. } = judge_opened(p, kept, r, &name, None);
            answer
        }
        Lower::ControlPart { opcode, .. } => judge_control(p, kept, r, &name, *opcode, &[]),
    }
}

// An Offer under master credentials makes the friendship, if one is waited for, and is answered by a Poll.
fn befriend(memory: &mut Memory, p: &Persist, r: &NetReading, m: &ControlMsg) -> Option<LpnJob>
    requires fit { IsFitFor memory.old p.now }
    ensures job { option_to_list result ≡ sent_by memory.old.lpn (offer_calls (reading_of r.now) m.now) }
    ensures state { memory.new.lpn ≡ fold after memory.old.lpn (offer_calls (reading_of r.now) m.now) }
    ensures fit { IsFitFor memory.new p.now }
{
    let ControlMsg::Offer(offer) = m else {
        return None;
    };
    if r.by.lpn.is_some() {
        return None;
    }
    let job = memory.lpn.offer(r.fields.src, offer.friend_counter);
    memory.renew(p);
    job
}

// What a control message that was accepted leads to.
fn take_control(memory: &mut Memory, p: &Persist, r: &NetReading, answer: &Answer) -> Option<LpnJob>
    requires fit { IsFitFor memory.old p.now }
    ensures job { option_to_list result ≡ sent_by memory.old.lpn (control_calls (reading_of r.now) answer.now) }
    ensures state { memory.new.lpn ≡ fold after memory.old.lpn (control_calls (reading_of r.now) answer.now) }
    ensures fit { IsFitFor memory.new p.now }
{
    let Answer::Control { opcode, params, .. } = answer else {
        return None;
    };
    let m = read_control(*opcode, params.as_slice());
    befriend(memory, p, r, &m)
}

// A lower transport PDU.
fn hear_low(memory: &mut Memory, p: &Persist, r: &NetReading, low: &Lower) -> Plan
    requires fit { IsFitFor memory.old p.now }
    ensures heard { (past : Past) → IsMeaningOf past.records p.now → memory.old.lpn ≡ state_of past
        → IsHeardSo past (reading_of r.now) (Some low.now) result memory.new.lpn }
    ensures fit { IsFitFor memory.new p.now }
{
    let kept = p.entry(r.fields.src);
    if let Some(answer) = early_row(&mut memory.lpn, kept, r) {
        return Plan::answered(answer);
    }
    let answer = judge(memory, p, kept, r, low);
    let job = take_control(memory, p, r, &answer);
    Plan { answer, job }
}

// From the lower transport layer on.
fn hear_transport(memory: &mut Memory, p: &Persist, r: &NetReading) -> Plan
    requires fit { IsFitFor memory.old p.now }
    ensures heard { (past : Past) → IsMeaningOf past.records p.now → memory.old.lpn ≡ state_of past
        → IsTransportSo past (reading_of r.now) result memory.new.lpn }
    ensures fit { IsFitFor memory.new p.now }
{
    match lower_transport::read(r.fields.ctl, r.fields.tpdu.as_slice()) {
        Ok(low) => hear_low(memory, p, r, &low),
        Err(_) => Plan::answered(Answer::Malformed),
    }
}

/// The plan of octets heard as a network PDU, where the records before it say `p`.
pub(crate) fn hear(memory: &mut Memory, p: &Persist, octets: &[u8]) -> Plan
    requires fit { IsFitFor memory.old p.now }
    ensures planned { (past : Past) → IsMeaningOf past.records p.now → memory.old.lpn ≡ state_of past
        → IsPlanned past (E.Net octets.now) result memory.new.lpn }
    ensures fit { IsFitFor memory.new p.now }
{
    let Some(reading) = memory.read(p.iv.current, octets) else {
        return Plan::answered(Answer::Unread);
    };
    match network_row(p, &memory.lpn, &reading.fields) {
        Some(answer) => Plan::answered(answer),
        None => hear_transport(memory, p, &reading),
    }
}
