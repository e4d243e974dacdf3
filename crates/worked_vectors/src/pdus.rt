//! Rows of network PDUs and lower transport PDUs.
#![tactic(auto)]

use crate::row::Row;
use lower_transport::Lower;
use mesh_base::address::Address;
use mesh_base::fields::{Heard, NetFields};
use mesh_base::octets::Octets;
use mesh_base::pair::Pair;

// The next fields.
fn fields(row: &mut Row<'_>) -> NetFields {
    let iv = row.number32();
    let ctl = row.flag();
    let ttl = row.number8();
    let seq = row.number24();
    let src = Address(row.number16());
    let dst = Address(row.number16());
    let tpdu = Octets::of(row.text().as_slice()).unwrap_or_default();
    NetFields {
        iv,
        ctl,
        ttl,
        seq,
        src,
        dst,
        tpdu,
    }
}

/// `network KEY IV CTL TTL SEQ SRC DST TRANSPORT-PDU`: the network PDU under the master credentials of the network key.
pub fn network(row: &mut Row<'_>) {
    let material = net_keys::master(&row.octets());
    let fields = fields(row);
    let length = fields.tpdu.as_slice().len();
    let most = if fields.ctl { 12 } else { 16 };
    if fields.ttl >= 0x80 || fields.seq >= 0x1000000 || length == 0 || length > most {
        return row.refuse();
    }
    row.put_octets(network_layer::seal(&material, &fields).as_slice());
}

// The key heard of the next network key.
fn heard_key(row: &mut Row<'_>, index: u16) -> Heard {
    Heard {
        index,
        lpn: None,
        fresh: false,
        material: net_keys::master(&row.octets()),
    }
}

fn put_fields(row: &mut Row<'_>, fields: &NetFields) {
    row.put_octets(&fields.iv.to_be_bytes());
    row.put_flag(fields.ctl);
    row.put_octets(&[fields.ttl]);
    row.put_octets(&fields.seq.to_be_bytes()[1..]);
    row.put_octets(&fields.src.0.to_be_bytes());
    row.put_octets(&fields.dst.0.to_be_bytes());
    row.put_octets(fields.tpdu.as_slice());
}

/// `heard IV PDU KEY KEY`, with the known IV Index: the place of the network key that reads the PDU, and its fields; or `unread`.
pub fn heard(row: &mut Row<'_>) {
    let current = row.number32();
    let pdu = row.text();
    let keys = [heard_key(row, 0), heard_key(row, 1)];
    match network_layer::read(&keys, current, pdu.as_slice()) {
        Ok(reading) => {
            row.put_octets(&reading.by.index.to_be_bytes());
            put_fields(row, &reading.fields);
        }
        Err(_) => row.put("unread"),
    }
}

fn put_segment(row: &mut Row<'_>, seq_zero: u16, seg_o: u8, seg_n: u8, piece: &[u8]) {
    row.put_octets(&seq_zero.to_be_bytes());
    row.put_octets(&[seg_o]);
    row.put_octets(&[seg_n]);
    row.put_octets(piece);
}

// The kind of a lower transport PDU, and its fields.
fn put_lower(row: &mut Row<'_>, lower: &Lower) {
    match lower {
        Lower::Access { akf, aid, upper } => {
            row.put("access");
            row.put_flag(*akf);
            row.put_octets(&[*aid]);
            row.put_octets(upper.as_slice());
        }
        Lower::Control { opcode, params } => {
            row.put("control");
            row.put_octets(&[*opcode]);
            row.put_octets(params.as_slice());
        }
        Lower::AccessPart {
            akf,
            aid,
            szmic,
            seq_zero,
            seg_o,
            seg_n,
            piece,
        } => {
            row.put("accesspart");
            row.put_flag(*akf);
            row.put_octets(&[*aid]);
            row.put_flag(*szmic);
            put_segment(row, *seq_zero, *seg_o, *seg_n, piece.as_slice());
        }
        Lower::ControlPart {
            opcode,
            seq_zero,
            seg_o,
            seg_n,
            piece,
        } => {
            row.put("controlpart");
            row.put_octets(&[*opcode]);
            put_segment(row, *seq_zero, *seg_o, *seg_n, piece.as_slice());
        }
    }
}

/// `lower CTL TRANSPORT-PDU`: the kind of lower transport PDU, its fields, and its octets as they are written again; or `malformed`.
pub fn lower(row: &mut Row<'_>) {
    let ctl = row.flag();
    let tpdu = row.text();
    match lower_transport::read(ctl, tpdu.as_slice()) {
        Ok(lower) => {
            put_lower(row, &lower);
            row.put_octets(lower_transport::write(&lower).as_slice());
        }
        Err(_) => row.put("malformed"),
    }
}

/// `seqauth SEQ SEQZERO`: the SEQ of SeqAuth, or `none`.
pub fn seq_auth(row: &mut Row<'_>) {
    let pair = Pair {
        iv: 0,
        seq: row.number24(),
    };
    match lower_transport::seq_auth(pair, row.number16()) {
        Some(auth) => row.put_octets(&auth.seq.to_be_bytes()[1..]),
        None => row.put("none"),
    }
}
