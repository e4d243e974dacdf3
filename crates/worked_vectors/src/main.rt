//! The standards' own vectors, and values of other implementations, as rows of text: each line of standard input is a row, a word that
//! says what it is of and what it is given, and is written to standard output with the answer of the call that it is of.
//!
//! A row that can't be read is written as `refused`. Empty lines and those that begin with `#` are written as they are.
//!
//! - `row`: how a row is read and answered
//! - `ciphers`: AES, AES-CCM, AES-CMAC and the key derivations
//! - `keys`: network keys, credentials and beacons
//! - `pdus`: network PDUs and lower transport PDUs
//! - `messages`: access messages and control messages
//! - `states`: the IV Index, and kinds of addresses
#![tactic(auto)]

mod ciphers;
mod keys;
mod messages;
mod pdus;
mod row;
mod states;

use row::{Answer, Row};
use std::io;

// Answers a row of the layers of PDUs.
fn answer_above(kind: &str, row: &mut Row<'_>) {
    match kind {
        "friendship" => keys::friendship(row),
        "candidates" => keys::candidates(row),
        "transmit" => keys::transmit(row),
        "beacon" => keys::beacon(row),
        "read" => keys::read(row),
        "network" => pdus::network(row),
        "heard" => pdus::heard(row),
        "lower" => pdus::lower(row),
        "seqauth" => pdus::seq_auth(row),
        "access" => messages::access(row),
        "opened" => messages::opened(row),
        "labelled" => messages::labelled(row),
        "control" => messages::control(row),
        "ivbeacon" => states::beacon(row),
        "ivhours" => states::hours(row),
        "kind" => states::kind(row),
        _ => row.refuse(),
    }
}

// Answers a row of this kind.
fn answer(kind: &str, row: &mut Row<'_>) {
    match kind {
        "aes" => ciphers::aes(row),
        "chained" => ciphers::chained(row),
        "cmac" => ciphers::cmac(row),
        "seal" => ciphers::seal(row),
        "open" => ciphers::open(row),
        "s1" => ciphers::s1(row),
        "k1" => ciphers::k1(row),
        "k2" => ciphers::k2(row),
        "k3" => ciphers::k3(row),
        "k4" => ciphers::k4(row),
        "address" => ciphers::address(row),
        _ => answer_above(kind, row),
    }
}

// What is written behind this line.
fn answered(line: &str) -> Answer {
    let mut row = Row::new(line);
    let kind = row.word();
    answer(kind, &mut row);
    row.answer()
}

fn main(rt: HostRuntime) -> io::Result<()> {
    for line in rt.lines(rt.alloc()) {
        let line = line?;
        if line.is_empty() || line.starts_with('#') {
            println!(rt; "{line}")?;
        } else {
            println!(rt; "{line} ={}", answered(line.as_str()).as_str())?;
        }
    }
    Ok(())
}
