//! The words that show what became of a job.
#![tactic(auto, unfolding(report_definitions::specs::Report::outcome_text), using(std::proofs::Common::append_assoc))]

ghost use Rattle.std.specs.Prelude.{◌≡◌, ◌++◌, Bool, OnOk, codes};
ghost use Rattle.mesh_types.specs.declared.lines.Outcome.TheVariants as O;
ghost use Rattle.report_definitions.specs.Report.{outcome_text, control_bit_text, pdu_text};
ghost use Rattle.report_lines.specs.Kinds.{IsCtl, IsLong, IsMsg, IsRelay, IsSeg};
ghost use Rattle.report_definitions.specs.Text.{iv_text, octets_text, pair_text, route_text};

use crate::answers::push_key;
use crate::text::LineText;
use mesh_base::address::Address;
use mesh_base::octets::Octets;
use mesh_base::pair::{Name, Pair};
use mesh_types::lines::Outcome;
use std::alloc::AllocError;

/// The words of an outcome. With `hex` the octets of a network PDU are shown.
pub fn push_outcome(text: &mut LineText, hex: bool, outcome: &Outcome) -> Result<(), AllocError>
    ensures ok { OnOk result (text.new ≡ text.old ++ outcome_text hex outcome.now) }
{
    match outcome {
        Outcome::Ctl { .. } => push_ctl(text, hex, outcome),
        Outcome::Msg { .. } => push_msg(text, hex, outcome),
        Outcome::Long { .. } => push_long(text, outcome),
        Outcome::Seg { .. } => push_seg(text, hex, outcome),
        Outcome::Relay { .. } => push_relay(text, hex, outcome),
        Outcome::Rep { name, pdu } => push_rep(text, hex, *name, pdu),
        Outcome::Bcn(octets) => push_bcn(text, octets),
        Outcome::Spent { iv } => push_spent(text, *iv),
        Outcome::Late { pair } => push_late(text, *pair),
    }
}

/// A word, a pair, and the route of a PDU.
fn push_head(
    text: &mut LineText,
    word: &[u8],
    pair: Pair,
    ttl: u8,
    src: Address,
    dst: Address,
) -> Result<(), AllocError>
    ensures ok { OnOk result (text.new ≡ text.old ++ (word.now ++ pair_text pair ++ route_text ttl src dst)) }
{
    text.push(word)?;
    text.push_pair(pair)?;
    text.push_route(ttl, src, dst)
}

/// The octets of a network PDU, where they are to be shown.
fn push_pdu(text: &mut LineText, hex: bool, pdu: &Octets<29>) -> Result<(), AllocError>
    ensures ok { OnOk result (text.new ≡ text.old ++ pdu_text hex pdu.now) }
{
    if hex {
        text.push_octets(pdu.as_slice())
    } else {
        Ok(())
    }
}

fn push_ctl(text: &mut LineText, hex: bool, outcome: &Outcome) -> Result<(), AllocError>
    requires kind { IsCtl outcome.now }
    ensures ok { OnOk result (text.new ≡ text.old ++ outcome_text hex outcome.now) }
{
    let Outcome::Ctl {
        pair,
        ttl,
        src,
        dst,
        tpdu,
        pdu,
    } = outcome
    else {
        unreachable!()
    };
    push_head(text, b" ctl", *pair, *ttl, *src, *dst)?;
    text.push_octets(tpdu.as_slice())?;
    push_pdu(text, hex, pdu)
}

fn push_msg(text: &mut LineText, hex: bool, outcome: &Outcome) -> Result<(), AllocError>
    requires kind { IsMsg outcome.now }
    ensures ok { OnOk result (text.new ≡ text.old ++ outcome_text hex outcome.now) }
{
    let Outcome::Msg {
        pair,
        ttl,
        src,
        dst,
        key,
        payload,
        pdu,
    } = outcome
    else {
        unreachable!()
    };
    push_head(text, b" msg", *pair, *ttl, *src, *dst)?;
    push_key(text, *key)?;
    text.push_octets(payload.as_slice())?;
    push_pdu(text, hex, pdu)
}

fn push_long(text: &mut LineText, outcome: &Outcome) -> Result<(), AllocError>
    requires kind { IsLong outcome.now }
    ensures ok { (hex : Bool) → OnOk result (text.new ≡ text.old ++ outcome_text hex outcome.now) }
{
    let Outcome::Long {
        pair,
        ttl,
        src,
        dst,
        key,
        payload,
    } = outcome
    else {
        unreachable!()
    };
    push_head(text, b" long", *pair, *ttl, *src, *dst)?;
    push_key(text, *key)?;
    text.push_octets(payload.as_slice())
}

fn push_seg(text: &mut LineText, hex: bool, outcome: &Outcome) -> Result<(), AllocError>
    requires kind { IsSeg outcome.now }
    ensures ok { OnOk result (text.new ≡ text.old ++ outcome_text hex outcome.now) }
{
    let Outcome::Seg {
        pair,
        ttl,
        src,
        dst,
        seg_o,
        seg_n,
        auth,
        pdu,
    } = outcome
    else {
        unreachable!()
    };
    push_head(text, b" seg", *pair, *ttl, *src, *dst)?;
    text.push_number(u64::from(*seg_o))?;
    text.push_number(u64::from(*seg_n))?;
    text.push_field(6, *auth)?;
    push_pdu(text, hex, pdu)
}

fn push_relay(text: &mut LineText, hex: bool, outcome: &Outcome) -> Result<(), AllocError>
    requires kind { IsRelay outcome.now }
    ensures ok { OnOk result (text.new ≡ text.old ++ outcome_text hex outcome.now) }
{
    let Outcome::Relay {
        pair,
        ctl,
        ttl,
        src,
        dst,
        tpdu,
        pdu,
    } = outcome
    else {
        unreachable!()
    };
    text.push(b" relay")?;
    text.push_pair(*pair)?;
    push_bit(text, *ctl)?;
    text.push_route(*ttl, *src, *dst)?;
    text.push_octets(tpdu.as_slice())?;
    push_pdu(text, hex, pdu)
}

/// A bit as a word.
fn push_bit(text: &mut LineText, bit: bool) -> Result<(), AllocError>
    ensures ok { OnOk result (text.new ≡ text.old ++ control_bit_text bit) }
{
    if bit {
        text.push(b" 1")
    } else {
        text.push(b" 0")
    }
}

fn push_rep(text: &mut LineText, hex: bool, name: Name, pdu: &Octets<29>) -> Result<(), AllocError>
    ensures ok { OnOk result (text.new ≡ text.old ++ outcome_text hex (O.Rep name pdu.now)) }
{
    text.push(b" rep")?;
    text.push_address(name.src)?;
    text.push_pair(name.pair)?;
    push_pdu(text, hex, pdu)
}

fn push_bcn(text: &mut LineText, octets: &[u8; 22]) -> Result<(), AllocError>
    ensures ok { OnOk result (text.new ≡ text.old ++ (codes " bcn" ++ octets_text octets.now)) }
{
    text.push(b" bcn")?;
    text.push_octets(octets)
}

fn push_spent(text: &mut LineText, iv: u32) -> Result<(), AllocError>
    ensures ok { OnOk result (text.new ≡ text.old ++ (codes " spent" ++ iv_text iv)) }
{
    text.push(b" spent")?;
    text.push_field(8, iv)
}

fn push_late(text: &mut LineText, pair: Pair) -> Result<(), AllocError>
    ensures ok { OnOk result (text.new ≡ text.old ++ (codes " late" ++ pair_text pair)) }
{
    text.push(b" late")?;
    text.push_pair(pair)
}
