//! From an access payload to a message of a model (Mesh Model 1.0.1, sections 3.2.1 and 3.2.2). Numbers stand with the low octet first.
#![tactic(auto)]

ghost use Rattle.std.specs.Prelude.{◌≡◌, ◌+◌, ◌*◌};
ghost use Rattle.model_states.specs.Level.{delta_params, level_get, level_message, level_set, move_params, set_params};
ghost use Rattle.model_states.specs.OnOff.{onoff_get, onoff_message, onoff_set};

use crate::timing::timing_of;
use model_states::models::{LevelChange, LevelMessage, LevelSet, OnOffMessage, OnOffSet};

// The opcode of these octets.
fn opcode_of(high: u8, low: u8) -> u16
    ensures { result ≡ high * 256 + low }
{
    u16::from_be_bytes([high, low])
}

// The parameters of a Get: none.
fn onoff_get(params: &[u8]) -> Option<OnOffMessage>
    ensures { result ≡ onoff_get params.now }
{
    match params {
        [] => Some(OnOffMessage::Get),
        _ => None,
    }
}

// The parameters of a set: OnOff, TID, and the timing.
fn onoff_set(acknowledged: bool, params: &[u8]) -> Option<OnOffMessage>
    ensures { result ≡ onoff_set acknowledged params.now }
{
    match params {
        [value @ 0..=1, tid, rest @ ..] => {
            let timing = timing_of(rest)?;
            Some(OnOffMessage::Set(OnOffSet {
                acknowledged,
                target: *value == 1,
                tid: *tid,
                timing,
            }))
        }
        _ => None,
    }
}

/// The message of the Generic OnOff Server that this payload is, if it is one.
#[tactic(auto, unfolding(model_states::specs::OnOff::onoff_message))]
pub fn onoff_message(payload: &[u8]) -> Option<OnOffMessage>
    ensures { result ≡ onoff_message payload.now }
{
    match payload {
        [high, low, params @ ..] => match opcode_of(*high, *low) {
            0x8201 => onoff_get(params),
            0x8202 => onoff_set(true, params),
            0x8203 => onoff_set(false, params),
            _ => None,
        },
        _ => None,
    }
}

// The parameters of a Get: none.
fn level_get(params: &[u8]) -> Option<LevelMessage>
    ensures { result ≡ level_get params.now }
{
    match params {
        [] => Some(LevelMessage::Get),
        _ => None,
    }
}

// What stands behind the change of a set: TID, and the timing.
fn level_set(acknowledged: bool, change: LevelChange, params: &[u8]) -> Option<LevelMessage>
    ensures { result ≡ level_set acknowledged change params.now }
{
    match params {
        [tid, rest @ ..] => {
            let timing = timing_of(rest)?;
            Some(LevelMessage::Set(LevelSet {
                acknowledged,
                change,
                tid: *tid,
                timing,
            }))
        }
        [] => None,
    }
}

// The parameters of a Level Set.
fn set_params(acknowledged: bool, params: &[u8]) -> Option<LevelMessage>
    ensures { result ≡ set_params acknowledged params.now }
{
    match params {
        [a, b, rest @ ..] => level_set(
            acknowledged,
            LevelChange::Level(i16::from_le_bytes([*a, *b])),
            rest,
        ),
        _ => None,
    }
}

// The parameters of a Delta Set.
fn delta_params(acknowledged: bool, params: &[u8]) -> Option<LevelMessage>
    ensures { result ≡ delta_params acknowledged params.now }
{
    match params {
        [a, b, c, d, rest @ ..] => level_set(
            acknowledged,
            LevelChange::Delta(i32::from_le_bytes([*a, *b, *c, *d])),
            rest,
        ),
        _ => None,
    }
}

// The parameters of a Move Set.
fn move_params(acknowledged: bool, params: &[u8]) -> Option<LevelMessage>
    ensures { result ≡ move_params acknowledged params.now }
{
    match params {
        [a, b, rest @ ..] => level_set(
            acknowledged,
            LevelChange::Move(i16::from_le_bytes([*a, *b])),
            rest,
        ),
        _ => None,
    }
}

/// The message of the Generic Level Server that this payload is, if it is one.
#[tactic(auto, unfolding(model_states::specs::Level::level_message))]
pub fn level_message(payload: &[u8]) -> Option<LevelMessage>
    ensures { result ≡ level_message payload.now }
{
    match payload {
        [high, low, params @ ..] => match opcode_of(*high, *low) {
            0x8205 => level_get(params),
            0x8206 => set_params(true, params),
            0x8207 => set_params(false, params),
            0x8209 => delta_params(true, params),
            0x820a => delta_params(false, params),
            0x820b => move_params(true, params),
            0x820c => move_params(false, params),
            _ => None,
        },
        _ => None,
    }
}
