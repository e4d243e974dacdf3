//! What the node is told to do.
#![tactic(auto)]

ghost use Rattle.low_power_machine.specs.Memory.{IsFitFor};
ghost use Rattle.low_power_machine.specs.Telling.{IsToldSo};
ghost use Rattle.mesh_types.specs.declared.low_power.LowPowerEvent.TheVariants as W;

use crate::memory::Memory;
use crate::plan::Plan;
use low_power::ListFault;
use mesh_base::address::Address;
use mesh_types::answers::Answer;
use mesh_types::low_power::{LowPowerAnswer, LowPowerEvent};
use node_records::Persist;

// A Friend Request is sent, and the friendship ends.
fn seek(memory: &mut Memory, p: &Persist) -> Plan
    requires fit { IsFitFor memory.old p.now }
    ensures told { IsToldSo memory.old.lpn W.Seek result memory.new.lpn }
    ensures fit { IsFitFor memory.new p.now }
{
    let job = memory.lpn.seek();
    memory.renew(p);
    Plan {
        answer: Answer::LowPower(LowPowerAnswer::Sought),
        job: Some(job),
    }
}

// A Poll is sent, if there is a friend.
fn poll(memory: &mut Memory, p: &Persist) -> Plan
    requires fit { IsFitFor memory.old p.now }
    ensures told { IsToldSo memory.old.lpn W.Poll result memory.new.lpn }
    ensures fit { IsFitFor memory.new p.now }
{
    match memory.lpn.poll() {
        Ok(job) => Plan {
            answer: Answer::LowPower(LowPowerAnswer::Polled),
            job: Some(job),
        },
        Err(_) => Plan::answered(Answer::LowPower(LowPowerAnswer::NoFriend)),
    }
}

// An address is added to the friend's list, if there is a friend, and a place.
fn list(memory: &mut Memory, p: &Persist, a: Address) -> Plan
    requires fit { IsFitFor memory.old p.now }
    ensures told { IsToldSo memory.old.lpn (W.List a) result memory.new.lpn }
    ensures fit { IsFitFor memory.new p.now }
{
    match memory.lpn.list(a) {
        Ok(job) => Plan {
            answer: Answer::LowPower(LowPowerAnswer::Listed),
            job: Some(job),
        },
        Err(ListFault::NoFriend) => { Plan::answered(Answer::LowPower(LowPowerAnswer::NoFriend)) }
        Err(ListFault::TooMany { held }) => {
            Plan::answered(Answer::LowPower(LowPowerAnswer::TooMany { held }))
        }
    }
}

/// The plan of what the node is told to do.
pub(crate) fn tell(memory: &mut Memory, p: &Persist, what: LowPowerEvent) -> Plan
    requires fit { IsFitFor memory.old p.now }
    ensures told { IsToldSo memory.old.lpn what result memory.new.lpn }
    ensures fit { IsFitFor memory.new p.now }
{
    match what {
        LowPowerEvent::Seek => seek(memory, p),
        LowPowerEvent::Poll => poll(memory, p),
        LowPowerEvent::List(a) => list(memory, p, a),
    }
}
