//! The two grammars of scripts, and the kinds of lines.
#![tactic(auto)]

/// Which lines a script may have. Both grammars have the same forms and the same rules.
#[derive(Clone, Copy)]
pub enum Grammar {
    /// The script of a node with up to eight bearers.
    Node,
    /// The script of a Low Power node, with one bearer.
    LowPower,
}

/// What a line of a bearer tells, by its second word.
#[derive(Clone, Copy)]
pub enum EventKind {
    /// `net`: octets are heard as a network PDU.
    Net,
    /// `bcn`: octets are heard as a beacon.
    Bcn,
    /// `peer`: a network PDU of an outside node is heard.
    Peer,
    /// `talk`: a PDU of an outside node's access message is heard.
    Talk,
    /// `beacon`: a Secure Network beacon of an outside node is heard.
    Beacon,
    /// `send`: the node sends an access message.
    Send,
    /// `raw`: the node sends a control PDU.
    Raw,
    /// `tick`: time passes.
    Tick,
    /// `seek`: the Low Power node looks for a friend.
    Seek,
    /// `poll`: the Low Power node polls its friend.
    Poll,
    /// `list`: the Low Power node adds an address to its friend's list.
    List,
}

/// The kind of a line, by its first word, and of a line of a bearer by its first two.
#[derive(Clone, Copy)]
pub enum LineKind {
    /// `provision`: the node's data.
    Provision,
    /// `life`: power on.
    Life,
    /// `sync`: all bearers are joined.
    Sync,
    /// `arm`: a power cut is set.
    Arm,
    /// `bK`: something happens on bearer K.
    Bearer {
        /// K, 0 to 7.
        bearer: u8,
        /// What happens.
        event: EventKind,
    },
}
