//! Own segmented messages (Mesh Profile 1.0.1, section 3.5.3.2): one that begins, and what is heard of them.
#![tactic(auto)]

ghost use Rattle.std.specs.Prelude.{◌≡◌, ◌↔◌, IsErr, IfErr, IsTrue, fold, length};
ghost use Rattle.layer_definitions.specs.ControlReading.{control_of};
ghost use Rattle.layer_states.specs.Sending.{after, is_full};
ghost use Rattle.layer_states.specs.Sending as sending;
ghost use Rattle.mesh_hearing.specs.Below.{beacon_calls, heard_calls, is_any};
ghost use Rattle.node_layers.specs.Sending.{acknowledged};
ghost use Rattle.segment_sender.specs.Held.{IsOutgoing};

use crate::tables::Tables;
use mesh_base::address::Address;
use mesh_base::control::ControlMsg;
use mesh_base::iv_state::IvStep;
use mesh_types::answers::Answer;
use mesh_types::events::Outgoing;
use segment_sender::{SendFull, Senders};
use upper_transport::read_control;

// What an accepted control message does to own messages.
fn take_control(own: &mut Senders, from: Address, opcode: u8, params: &[u8])
    ensures state { own.new ≡ fold after own.old (acknowledged from (control_of opcode params.now)) }
{
    if let ControlMsg::Acknowledgment(a) = read_control(opcode, params) {
        let _ = own.ack(from, a.obo, a.seq_zero, a.block_ack);
    }
}

/// What an answer to a network PDU does to own messages: a Segment Acknowledgment that was accepted may be for one of them.
pub(crate) fn acknowledge(own: &mut Senders, answer: &Answer)
    ensures state { own.new ≡ fold after own.old (heard_calls answer.now) }
{
    if let Answer::Control {
        name,
        opcode,
        params,
        ..
    } = answer
    {
        take_control(own, name.src, *opcode, params.as_slice());
    }
}

/// What an answer to a beacon does to own messages: IV Index Recovery drops them (section 3.10.6).
pub(crate) fn recover(own: &mut Senders, answer: &Answer)
    ensures state { own.new ≡ fold after own.old (beacon_calls answer.now) }
{
    if let Answer::Beacon {
        iv: IvStep::Recover(_),
        ..
    } = answer
    {
        own.clear();
    }
}

impl Tables {
    /// Whether an own segmented message is unacknowledged.
    pub fn is_busy(&self) -> bool
        ensures value { result ≡ is_any self.now.own }
    {
        self.own.busy()
    }

    /// An own segmented message begins now. `SendFull` exactly where 4 are held.
    pub fn begin(&mut self, m: &Outgoing) -> Result<(), SendFull>
        requires outgoing { IsOutgoing m.now }
        ensures err { IsErr result ↔ IsTrue (is_full self.old.own) }
        ensures held { IfErr result (λ e. e.held ≡ length self.old.own) }
        ensures state { self.new ≡ record self.old { own = after self.old.own (sending.begin self.old.ticks m.now) } }
    {
        self.own.begin(self.ticks, m)
    }
}
