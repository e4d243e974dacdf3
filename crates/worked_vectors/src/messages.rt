//! Rows of upper transport PDUs: access messages, those to virtual addresses, and control messages. A key is given as `dev KEY` or
//! `app KEY`, and keys and labels by their number.
#![tactic(auto)]

use crate::row::Row;
use mesh_base::address::Address;
use mesh_base::control::{ControlMsg, SubscriptionList};
use mesh_base::keys::UpperKey;
use mesh_base::pair::Pair;
use mesh_base::table::{Table, UpperKeys};
use mesh_base::upper::UpperFields;

// The next key.
fn upper_key(row: &mut Row<'_>) -> UpperKey {
    let is_device = row.word() == "dev";
    let key = row.octets();
    if is_device {
        UpperKey::Device(key)
    } else {
        UpperKey::App {
            index: 0,
            aid: mesh_kdf::k4(&key),
            key,
        }
    }
}

// The next keys, at most 16.
fn upper_keys(row: &mut Row<'_>) -> UpperKeys {
    let mut keys = UpperKeys::new();
    for _ in 0..row.number8() {
        let _ = keys.push(upper_key(row));
    }
    keys
}

// The next labels, at most 32.
fn labels(row: &mut Row<'_>) -> Table<[u8; 16], 32> {
    let mut labels = Table::new();
    for _ in 0..row.number8() {
        let _ = labels.push(row.octets());
    }
    labels
}

// The next fields.
fn fields(row: &mut Row<'_>) -> UpperFields {
    let iv = row.number32();
    let seq = row.number24();
    let src = Address(row.number16());
    let dst = Address(row.number16());
    let long_mic = row.flag();
    let label = labels(row);
    UpperFields {
        pair: Pair { iv, seq },
        src,
        dst,
        long_mic,
        label: label.as_slice().first().copied(),
    }
}

/// `access IV SEQ SRC DST SZMIC LABELS PAYLOAD KEY`: the upper transport PDU, with the first of the labels, of which there may be none.
pub fn access(row: &mut Row<'_>) {
    let fields = fields(row);
    let payload = row.text();
    let key = upper_key(row);
    let most = if fields.long_mic { 376 } else { 380 };
    if payload.len() == 0 || payload.len() > most {
        return row.refuse();
    }
    row.put_octets(upper_transport::seal_access(&key, &fields, payload.as_slice()).as_slice());
}

/// `opened IV SEQ SRC DST SZMIC LABELS UPPER KEYS`: the place of the key that opens the message, and its payload; or `nokey`.
pub fn opened(row: &mut Row<'_>) {
    let fields = fields(row);
    let upper = row.text();
    let keys = upper_keys(row);
    match upper_transport::unseal_access(keys.as_slice(), &fields, upper.as_slice()) {
        Ok(opened) => {
            row.put_octets(&opened.at.to_be_bytes());
            row.put_octets(opened.payload.as_slice());
        }
        Err(_) => row.put("nokey"),
    }
}

/// `labelled LABELS IV SEQ SRC DST SZMIC 00 UPPER KEYS`: of a message to a virtual address the places of the label and of the key that open
/// it, and its payload; or `nolabel`.
pub fn labelled(row: &mut Row<'_>) {
    let labels = labels(row);
    let fields = fields(row);
    let upper = row.text();
    let keys = upper_keys(row);
    match virtual_labels::unseal(
        keys.as_slice(),
        labels.as_slice(),
        &fields,
        upper.as_slice(),
    ) {
        Ok(opened) => {
            row.put_octets(&opened.label.to_be_bytes());
            row.put_octets(&opened.opened.at.to_be_bytes());
            row.put_octets(opened.opened.payload.as_slice());
        }
        Err(_) => row.put("nolabel"),
    }
}

fn put_list(row: &mut Row<'_>, kind: &str, list: &SubscriptionList) {
    row.put(kind);
    row.put_octets(&[list.transaction]);
    for address in list.addresses.as_slice() {
        row.put_octets(&address.0.to_be_bytes());
    }
}

// What a control message of a friendship says.
fn put_friendship(row: &mut Row<'_>, message: &ControlMsg) {
    match message {
        ControlMsg::Update(update) => {
            row.put("update");
            row.put_octets(&[update.flags]);
            row.put_octets(&update.iv.to_be_bytes());
            row.put_octets(&[update.more_data]);
        }
        ControlMsg::Request(request) => {
            row.put("request");
            row.put_octets(&[request.criteria, request.receive_delay]);
            row.put_octets(&request.poll_timeout.to_be_bytes()[1..]);
            row.put_octets(&request.previous.0.to_be_bytes());
            row.put_octets(&[request.elements]);
            row.put_octets(&request.lpn_counter.to_be_bytes());
        }
        ControlMsg::Offer(offer) => {
            row.put("offer");
            row.put_octets(&[offer.receive_window, offer.queue_size]);
            row.put_octets(&[offer.subscription_list_size, offer.rssi]);
            row.put_octets(&offer.friend_counter.to_be_bytes());
        }
        ControlMsg::Clear(clear) => {
            row.put("clear");
            row.put_octets(&clear.lpn.0.to_be_bytes());
            row.put_octets(&clear.lpn_counter.to_be_bytes());
        }
        ControlMsg::ClearConfirm(clear) => {
            row.put("clearconfirm");
            row.put_octets(&clear.lpn.0.to_be_bytes());
            row.put_octets(&clear.lpn_counter.to_be_bytes());
        }
        _ => row.put("other"),
    }
}

// What a control message says.
fn put_control(row: &mut Row<'_>, message: &ControlMsg) {
    match message {
        ControlMsg::Acknowledgment(acknowledgment) => {
            row.put("acknowledgment");
            row.put_flag(acknowledgment.obo);
            row.put_octets(&acknowledgment.seq_zero.to_be_bytes());
            row.put_octets(&acknowledgment.block_ack.to_be_bytes());
        }
        ControlMsg::Poll { fsn } => {
            row.put("poll");
            row.put_flag(*fsn);
        }
        ControlMsg::ListAdd(list) => put_list(row, "listadd", list),
        ControlMsg::ListRemove(list) => put_list(row, "listremove", list),
        ControlMsg::ListConfirm { transaction } => {
            row.put("listconfirm");
            row.put_octets(&[*transaction]);
        }
        _ => put_friendship(row, message),
    }
}

/// `control OPCODE PARAMETERS`: the kind of the control message, its fields, and its octets as they are written again; or `other`.
pub fn control(row: &mut Row<'_>) {
    let opcode = row.number8();
    let params = row.text();
    match upper_transport::read_control(opcode, params.as_slice()) {
        ControlMsg::Other => row.put("other"),
        message => {
            put_control(row, &message);
            row.put_octets(upper_transport::write_control(&message).as_slice());
        }
    }
}
