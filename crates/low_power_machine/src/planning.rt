//! The plan of an event, by its kind.
#![tactic(auto)]

ghost use Rattle.std.specs.Prelude.{◌≡◌};
ghost use Rattle.event_definitions.specs.History.{Past};
ghost use Rattle.low_power_machine.specs.Memory.{IsFitFor};
ghost use Rattle.low_power_machine.specs.Plans.{IsPlanned};
ghost use Rattle.low_power_role.specs.State.{state_of};
ghost use Rattle.node_records.specs.Meaning.{IsMeaningOf};

use crate::hearing::hear;
use crate::memory::Memory;
use crate::plan::Plan;
use crate::telling::tell;
use mesh_types::answers::Answer;
use mesh_types::events::Event;
use node_records::Persist;

/// The plan of an event, where the records before it say `p`, and what is kept in memory with it. What a Low Power node isn't told is dropped.
pub(crate) fn plan(memory: &mut Memory, p: &Persist, event: &Event) -> Plan
    requires fit { IsFitFor memory.old p.now }
    ensures planned { (past : Past) → IsMeaningOf past.records p.now → memory.old.lpn ≡ state_of past
        → IsPlanned past event.now result memory.new.lpn }
    ensures fit { IsFitFor memory.new p.now }
{
    match event {
        Event::Net(octets) => hear(memory, p, octets.as_slice()),
        Event::LowPower(what) => tell(memory, p, *what),
        _ => Plan::answered(Answer::Dropped),
    }
}
