//! What was answered to an event, by the fields of its entry's line. The answer's word is field 5.
#![tactic(auto)]

ghost use Rattle.std.specs.Prelude.{◌≡◌, ◌+◌, ◌<◌, map, IfSome};
ghost use Rattle.mesh_types.specs.declared.answers.Answer.TheVariants as A;
ghost use Rattle.report_reader.specs.Answers.{kind_word, low_power_answer, plain_answer, no_room, delivered, params_word, control, key_step_word, iv_step_at, beacon, told_answer, answer_of};
ghost use Rattle.report_reader.specs.ReportLine.{IsToldAnswer, IsToldStep, IsOctets};

use crate::forms::{count, decimal, field, key_name, name, octets, pair, small_count};
use mesh_base::iv_state::{IvState, IvStep};
use mesh_base::octets::Octets;
use mesh_base::pair::Name;
use mesh_types::answers::{Answer, KeyStep};
use mesh_types::events::Kind;
use mesh_types::low_power::LowPowerAnswer;
use script_reader::digits::number;
use script_reader::forms::address;

/// The kind of an event.
#[tactic(auto, unfolding(crate::specs::Answers::kind_word))]
pub fn kind(word: &[u8]) -> Option<Kind>
    ensures value { result ≡ kind_word word.now }
{
    if word == b"net".as_slice() {
        Some(Kind::Net)
    } else if word == b"bcn".as_slice() {
        Some(Kind::Bcn)
    } else if word == b"send".as_slice() {
        Some(Kind::Send)
    } else if word == b"raw".as_slice() {
        Some(Kind::Raw)
    } else if word == b"tick".as_slice() {
        Some(Kind::Tick)
    } else if word == b"begin".as_slice() {
        Some(Kind::Begin)
    } else if word == b"kept".as_slice() {
        Some(Kind::Kept)
    } else if word == b"seek".as_slice() {
        Some(Kind::Seek)
    } else if word == b"poll".as_slice() {
        Some(Kind::Poll)
    } else if word == b"list".as_slice() {
        Some(Kind::List)
    } else {
        None
    }
}

/// An answer of a Low Power node that is its word.
#[tactic(auto, unfolding(crate::specs::Answers::low_power_answer))]
fn low_power_answer(word: &[u8]) -> Option<LowPowerAnswer>
    ensures value { result ≡ low_power_answer word.now }
    ensures ranges { IfSome result (λ answer. IsToldAnswer (A.LowPower answer)) }
{
    if word == b"segmented".as_slice() {
        Some(LowPowerAnswer::Segmented)
    } else if word == b"unasked".as_slice() {
        Some(LowPowerAnswer::Unasked)
    } else if word == b"repeat".as_slice() {
        Some(LowPowerAnswer::Repeat)
    } else if word == b"sought".as_slice() {
        Some(LowPowerAnswer::Sought)
    } else if word == b"polled".as_slice() {
        Some(LowPowerAnswer::Polled)
    } else if word == b"nofriend".as_slice() {
        Some(LowPowerAnswer::NoFriend)
    } else if word == b"listed".as_slice() {
        Some(LowPowerAnswer::Listed)
    } else {
        None
    }
}

/// An answer that is its word.
#[tactic(auto, unfolding(crate::specs::Answers::plain_answer))]
fn plain_answer(word: &[u8]) -> Option<Answer>
    ensures value { result ≡ plain_answer word.now }
    ensures ranges { IfSome result IsToldAnswer }
{
    if word == b"unread".as_slice() {
        Some(Answer::Unread)
    } else if word == b"badaddress".as_slice() {
        Some(Answer::BadAddress)
    } else if word == b"own".as_slice() {
        Some(Answer::Own)
    } else if word == b"cached".as_slice() {
        Some(Answer::Cached)
    } else if word == b"notmine".as_slice() {
        Some(Answer::NotMine)
    } else if word == b"malformed".as_slice() {
        Some(Answer::Malformed)
    } else if word == b"again".as_slice() {
        Some(Answer::Again)
    } else if word == b"conflict".as_slice() {
        Some(Answer::Conflict)
    } else if word == b"nokey".as_slice() {
        Some(Answer::NoKey)
    } else if word == b"planned".as_slice() {
        Some(Answer::Planned)
    } else if word == b"begun".as_slice() {
        Some(Answer::Begun)
    } else if word == b"befriended".as_slice() {
        Some(Answer::Befriended)
    } else if word == b"kept".as_slice() {
        Some(Answer::Kept)
    } else if word == b"dropped".as_slice() {
        Some(Answer::Dropped)
    } else if word == b"reset".as_slice() {
        Some(Answer::Reset)
    } else {
        low_power_answer(word).map(Answer::LowPower)
    }
}

/// `noroom` and eight names.
#[tactic(auto, unfolding(crate::specs::Answers::no_room))]
fn no_room(fields: &[&[u8]]) -> Option<Answer>
    ensures value { result ≡ no_room (map (λ w. w.now) fields.now) }
    ensures ranges { IfSome result IsToldAnswer }
{
    let held: [Name; 8] = [
        name(fields, 6)?,
        name(fields, 9)?,
        name(fields, 12)?,
        name(fields, 15)?,
        name(fields, 18)?,
        name(fields, 21)?,
        name(fields, 24)?,
        name(fields, 27)?,
    ];
    Some(Answer::NoRoom { held })
}

/// `delivered SRC DST IV SEQ KEY PAYLOAD`.
#[tactic(auto, unfolding(crate::specs::Answers::delivered))]
fn delivered(fields: &[&[u8]]) -> Option<Answer>
    ensures value { result ≡ delivered (map (λ w. w.now) fields.now) }
    ensures ranges { IfSome result IsToldAnswer }
{
    let src = address(field(fields, 6))?;
    let dst = address(field(fields, 7))?;
    let pair = pair(fields, 8)?;
    let key = key_name(field(fields, 10))?;
    let payload = octets(field(fields, 11))?;
    Some(Answer::Delivered {
        name: Name { src, pair },
        dst,
        key,
        payload,
    })
}

/// Parameters, or a dash for none.
#[tactic(auto, unfolding(crate::specs::Answers::params_word))]
fn params(word: &[u8]) -> Option<Octets<256>>
    ensures value { result ≡ params_word word.now }
    ensures ranges { IfSome result (IsOctets 256) }
{
    if word == b"-".as_slice() {
        Some(Octets::new())
    } else {
        octets(word)
    }
}

/// `control SRC DST IV SEQ OPCODE PARAMS`.
#[tactic(auto, unfolding(crate::specs::Answers::control))]
fn control(fields: &[&[u8]]) -> Option<Answer>
    ensures value { result ≡ control (map (λ w. w.now) fields.now) }
    ensures ranges { IfSome result IsToldAnswer }
{
    let src = address(field(fields, 6))?;
    let dst = address(field(fields, 7))?;
    let pair = pair(fields, 8)?;
    let opcode = number(field(fields, 10), 2)? as u8;
    let params = params(field(fields, 11))?;
    Some(Answer::Control {
        name: Name { src, pair },
        dst,
        opcode,
        params,
    })
}

/// A step of a Key Refresh.
#[tactic(auto, unfolding(crate::specs::Answers::key_step_word))]
fn key_step(word: &[u8]) -> Option<KeyStep>
    ensures value { result ≡ key_step_word word.now }
{
    if word == b"same".as_slice() {
        Some(KeyStep::Same)
    } else if word == b"phase2".as_slice() {
        Some(KeyStep::Phase2)
    } else if word == b"phase0".as_slice() {
        Some(KeyStep::Phase0)
    } else {
        None
    }
}

/// The IV state that a step leads to, of which nothing is told.
const UNTOLD: IvState = IvState {
    current: 0,
    progress: false,
    hours: 0,
    since: 0,
};

/// A step of the IV state, with the number of a rule behind `ignore`.
#[tactic(auto, unfolding(crate::specs::Answers::iv_step_at))]
fn iv_step(fields: &[&[u8]], at: usize) -> Option<IvStep>
    requires { at < 32 }
    ensures value { result ≡ iv_step_at (map (λ w. w.now) fields.now) at }
    ensures ranges { IfSome result IsToldStep }
{
    let word = field(fields, at);
    if word == b"ignore".as_slice() {
        small_count(field(fields, at + 1)).map(|rule| IvStep::Ignore { rule })
    } else if word == b"begin".as_slice() {
        Some(IvStep::Begin(UNTOLD))
    } else if word == b"finish".as_slice() {
        Some(IvStep::Finish(UNTOLD))
    } else if word == b"recover".as_slice() {
        Some(IvStep::Recover(UNTOLD))
    } else if word == b"wait".as_slice() {
        Some(IvStep::Wait)
    } else {
        None
    }
}

/// `beacon IDX KEYSTEP IVSTEP`.
#[tactic(auto, unfolding(crate::specs::Answers::beacon))]
fn beacon(fields: &[&[u8]]) -> Option<Answer>
    ensures value { result ≡ beacon (map (λ w. w.now) fields.now) }
    ensures ranges { IfSome result IsToldAnswer }
{
    let index = number(field(fields, 6), 3)? as u16;
    let key = key_step(field(fields, 7))?;
    let iv = iv_step(fields, 8)?;
    Some(Answer::Beacon { index, key, iv })
}

/// An answer with fields of its own.
#[tactic(auto, unfolding(crate::specs::Answers::told_answer))]
fn told_answer(fields: &[&[u8]]) -> Option<Answer>
    ensures value { result ≡ told_answer (map (λ w. w.now) fields.now) }
    ensures ranges { IfSome result IsToldAnswer }
{
    let word = field(fields, 5);
    if word == b"replay".as_slice() {
        pair(fields, 6).map(|kept| Answer::Replay { kept })
    } else if word == b"noroom".as_slice() {
        no_room(fields)
    } else if word == b"waiting".as_slice() {
        small_count(field(fields, 6)).map(|missing| Answer::Waiting { missing })
    } else if word == b"listfull".as_slice() {
        count(field(fields, 6)).map(|held| Answer::ListFull { held })
    } else if word == b"delivered".as_slice() {
        delivered(fields)
    } else if word == b"control".as_slice() {
        control(fields)
    } else if word == b"beacon".as_slice() {
        beacon(fields)
    } else if word == b"noappkey".as_slice() {
        number(field(fields, 6), 3).map(|index| Answer::NoAppKey {
            index: index as u16,
        })
    } else if word == b"ticked".as_slice() {
        decimal(field(fields, 6)).map(|now| Answer::Ticked { now })
    } else if word == b"moved".as_slice() {
        number(field(fields, 6), 8).map(|iv| Answer::Moved { iv })
    } else if word == b"sendfull".as_slice() {
        count(field(fields, 6)).map(|held| Answer::SendFull { held })
    } else if word == b"toomany".as_slice() {
        count(field(fields, 6)).map(|held| Answer::LowPower(LowPowerAnswer::TooMany { held }))
    } else {
        None
    }
}

/// The answer that the fields of an entry's line say.
#[tactic(auto, unfolding(crate::specs::Answers::answer_of))]
pub fn answer(fields: &[&[u8]]) -> Option<Answer>
    ensures value { result ≡ answer_of (map (λ w. w.now) fields.now) }
    ensures ranges { IfSome result IsToldAnswer }
{
    match plain_answer(field(fields, 5)) {
        Some(answer) => Some(answer),
        None => told_answer(fields),
    }
}
