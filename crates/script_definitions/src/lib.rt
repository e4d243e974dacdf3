//! What a script says, and which texts are scripts. The types stand here, and the definitions over them in `specs/`, so that
//! whoever tells a run by its script needs no reader:
//!
//! - `line`: a line of a script, and what some of its words stand for
//! - `script`: the node's data, and the lines of each life
//! - `payload`: the octets of an access payload
//! - `kind`: the two grammars, and the kinds of lines that they have
//!
//! - `Words`: a text cut into lines, and a line into words
//! - `Digits`, `Forms`: what one word stands for
//! - `Lines`: what the words of each kind of line stand for
//! - `Kinds`: the kind of a line by its first words, and how many words it has
//! - `Reading`: what a text says, or its first failing line with the first rule that fails there
//! - `Ranges`: what holds of every line that was read
//! - `Events`, `Phases`: the events that the lines of a life stand for, and the phases that they are cut into
#![tactic(auto)]

pub mod kind;
pub mod line;
pub mod payload;
pub mod script;

pub use crate::kind::{EventKind, Grammar, LineKind};
pub use crate::line::{
    ArmLine, BeaconLine, CountedLine, PeerLine, RawLine, ScriptLine, ScriptNet, SendLine, TalkDst,
    TalkKey, TalkLine, TalkPdu, TalkPiece,
};
pub use crate::payload::Payload;
pub use crate::script::{ProvisionLine, Script, ScriptLife, ScriptLives};
