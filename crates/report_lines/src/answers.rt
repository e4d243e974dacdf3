//! The words of an answer in the report.
#![tactic(auto, unfolding(report_definitions::specs::Report::answer_text), using(std::proofs::Common::append_assoc))]

ghost use Rattle.std.specs.Prelude.{◌≡◌, ◌++◌, OnOk};
ghost use Rattle.std.specs.Fmt.{decimal};
ghost use Rattle.std.specs.List.{flat_map};
ghost use Rattle.mesh_types.specs.declared.answers.Answer.TheVariants as A;
ghost use Rattle.report_definitions.specs.Report.{answer_text, low_power_text, key_text, key_step_text, iv_step_text, params_text};
ghost use Rattle.report_definitions.specs.Text.{hex_digits, address_text, name_text, pair_text};

use crate::text::LineText;
use mesh_base::address::Address;
use mesh_base::iv_state::IvStep;
use mesh_base::octets::Octets;
use mesh_base::pair::{Name, Pair};
use mesh_types::answers::{Answer, KeyName, KeyStep};
use mesh_types::low_power::LowPowerAnswer;
use std::alloc::AllocError;

/// The words of an answer.
pub fn push_answer(text: &mut LineText, answer: &Answer) -> Result<(), AllocError>
    ensures ok { OnOk result (text.new ≡ text.old ++ answer_text answer.now) }
{
    match answer {
        Answer::Unread => text.push(b" unread"),
        Answer::BadAddress => text.push(b" badaddress"),
        Answer::Own => text.push(b" own"),
        Answer::Cached => text.push(b" cached"),
        Answer::NotMine => text.push(b" notmine"),
        Answer::Malformed => text.push(b" malformed"),
        Answer::Again => text.push(b" again"),
        Answer::Replay { kept } => push_replay(text, *kept),
        Answer::NoRoom { held } => push_no_room(text, held),
        Answer::Conflict => text.push(b" conflict"),
        Answer::Waiting { missing } => push_count(text, b" waiting ", u64::from(*missing)),
        Answer::NoKey => text.push(b" nokey"),
        Answer::ListFull { held } => push_count(text, b" listfull ", u64::from(*held)),
        Answer::Delivered {
            name,
            dst,
            key,
            payload,
        } => push_delivered(text, *name, *dst, *key, payload),
        Answer::Control {
            name,
            dst,
            opcode,
            params,
        } => push_control(text, *name, *dst, *opcode, params),
        Answer::Beacon { index, key, iv } => push_beacon(text, *index, *key, iv),
        Answer::Planned => text.push(b" planned"),
        Answer::NoAppKey { index } => push_no_app_key(text, *index),
        Answer::Ticked { now } => push_count(text, b" ticked ", *now),
        Answer::Begun => text.push(b" begun"),
        Answer::Moved { iv } => push_moved(text, *iv),
        Answer::Befriended => text.push(b" befriended"),
        Answer::SendFull { held } => push_count(text, b" sendfull ", u64::from(*held)),
        Answer::Kept => text.push(b" kept"),
        Answer::Dropped => text.push(b" dropped"),
        Answer::LowPower(answer) => push_low_power(text, *answer),
        Answer::Reset => text.push(b" reset"),
    }
}

fn push_low_power(text: &mut LineText, answer: LowPowerAnswer) -> Result<(), AllocError>
    ensures ok { OnOk result (text.new ≡ text.old ++ low_power_text answer) }
{
    match answer {
        LowPowerAnswer::Segmented => text.push(b" segmented"),
        LowPowerAnswer::Unasked => text.push(b" unasked"),
        LowPowerAnswer::Repeat => text.push(b" repeat"),
        LowPowerAnswer::Sought => text.push(b" sought"),
        LowPowerAnswer::Polled => text.push(b" polled"),
        LowPowerAnswer::NoFriend => text.push(b" nofriend"),
        LowPowerAnswer::Listed => text.push(b" listed"),
        LowPowerAnswer::TooMany { held } => push_count(text, b" toomany ", u64::from(held)),
    }
}

/// A word and a number in decimal.
fn push_count(text: &mut LineText, word: &[u8], n: u64) -> Result<(), AllocError>
    ensures ok { OnOk result (text.new ≡ text.old ++ (word.now ++ decimal n)) }
{
    text.push(word)?;
    text.push_decimal(n)
}

fn push_replay(text: &mut LineText, kept: Pair) -> Result<(), AllocError>
    ensures ok { OnOk result (text.new ≡ text.old ++ answer_text (A.Replay kept)) }
{
    text.push(b" replay")?;
    text.push_pair(kept)
}

/// Names, each as a word.
fn push_names(text: &mut LineText, names: &[Name]) -> Result<(), AllocError>
    ensures ok { OnOk result (text.new ≡ text.old ++ flat_map name_text names.now) }
{
    for name in names {
        text.push_name(*name)?;
    }
    Ok(())
}

fn push_no_room(text: &mut LineText, held: &[Name; 8]) -> Result<(), AllocError>
    ensures ok { OnOk result (text.new ≡ text.old ++ answer_text (A.NoRoom held.now)) }
{
    text.push(b" noroom")?;
    push_names(text, held)
}

/// The key that opened a message, by its name.
pub fn push_key(text: &mut LineText, key: KeyName) -> Result<(), AllocError>
    ensures ok { OnOk result (text.new ≡ text.old ++ key_text key) }
{
    match key {
        KeyName::Dev => text.push(b" dev"),
        KeyName::App(index) => push_index(text, b" app:", index),
    }
}

/// A word and the index of a key.
fn push_index(text: &mut LineText, word: &[u8], index: u16) -> Result<(), AllocError>
    ensures ok { OnOk result (text.new ≡ text.old ++ (word.now ++ hex_digits 3 index)) }
{
    text.push(word)?;
    text.push_digits(3, u32::from(index))
}

/// A word, the source and the destination of a message, and its IV Index and SEQ.
fn push_source(text: &mut LineText, word: &[u8], name: Name, dst: Address) -> Result<(), AllocError>
    ensures ok { OnOk result
        (text.new ≡ text.old ++ (word.now ++ address_text name.src ++ address_text dst ++ pair_text name.pair)) }
{
    text.push(word)?;
    text.push_address(name.src)?;
    text.push_address(dst)?;
    text.push_pair(name.pair)
}

fn push_delivered(
    text: &mut LineText,
    name: Name,
    dst: Address,
    key: KeyName,
    payload: &Octets<380>,
) -> Result<(), AllocError>
    ensures ok { OnOk result (text.new ≡ text.old ++ answer_text (A.Delivered name dst key payload.now)) }
{
    push_source(text, b" delivered", name, dst)?;
    push_key(text, key)?;
    text.push_octets(payload.as_slice())
}

/// The parameters of a control message, or a dash where it has none.
fn push_params(text: &mut LineText, params: &[u8]) -> Result<(), AllocError>
    ensures ok { OnOk result (text.new ≡ text.old ++ params_text params.now) }
{
    if params.len() == 0 {
        text.push(b" -")
    } else {
        text.push_octets(params)
    }
}

fn push_control(
    text: &mut LineText,
    name: Name,
    dst: Address,
    opcode: u8,
    params: &Octets<256>,
) -> Result<(), AllocError>
    ensures ok { OnOk result (text.new ≡ text.old ++ answer_text (A.Control name dst opcode params.now)) }
{
    push_source(text, b" control", name, dst)?;
    text.push_field(2, u32::from(opcode))?;
    push_params(text, params.as_slice())
}

fn push_key_step(text: &mut LineText, key: KeyStep) -> Result<(), AllocError>
    ensures ok { OnOk result (text.new ≡ text.old ++ key_step_text key) }
{
    match key {
        KeyStep::Same => text.push(b" same"),
        KeyStep::Phase2 => text.push(b" phase2"),
        KeyStep::Phase0 => text.push(b" phase0"),
    }
}

fn push_iv_step(text: &mut LineText, step: &IvStep) -> Result<(), AllocError>
    ensures ok { OnOk result (text.new ≡ text.old ++ iv_step_text step.now) }
{
    match step {
        IvStep::Ignore { rule } => push_count(text, b" ignore ", u64::from(*rule)),
        IvStep::Begin(_) => text.push(b" begin"),
        IvStep::Finish(_) => text.push(b" finish"),
        IvStep::Recover(_) => text.push(b" recover"),
        IvStep::Wait => text.push(b" wait"),
    }
}

fn push_beacon(
    text: &mut LineText,
    index: u16,
    key: KeyStep,
    step: &IvStep,
) -> Result<(), AllocError>
    ensures ok { OnOk result (text.new ≡ text.old ++ answer_text (A.Beacon index key step.now)) }
{
    push_index(text, b" beacon ", index)?;
    push_key_step(text, key)?;
    push_iv_step(text, step)
}

fn push_no_app_key(text: &mut LineText, index: u16) -> Result<(), AllocError>
    ensures ok { OnOk result (text.new ≡ text.old ++ answer_text (A.NoAppKey index)) }
{
    push_index(text, b" noappkey ", index)
}

fn push_moved(text: &mut LineText, iv: u32) -> Result<(), AllocError>
    ensures ok { OnOk result (text.new ≡ text.old ++ answer_text (A.Moved iv)) }
{
    text.push(b" moved")?;
    text.push_field(8, iv)
}
