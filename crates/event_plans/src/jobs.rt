//! The jobs of a plan, by the kind of its event. `p` is what the records after the event say, and `keys` are its keys; the
//! address of the node is that of before, as no event tells a node anew what it is; a control message leaves all that they
//! say. The jobs are made in `draft`, which has none.
#![tactic(auto)]

ghost use Rattle.std.specs.Prelude.{◌≡◌, ◌<◌, ◌^◌, ℕ, List, []};
ghost use Rattle.event_plans.specs.Memory.{NodeTablesView};
ghost use Rattle.event_plans.specs.Plans.{IsPlanned, IsSomePlan, LeavesConfig, of_own, of_pdu, of_tick};
ghost use Rattle.event_plans.specs.Sending.{IsOwn, IsSendable};
ghost use Rattle.mesh_reading.specs.Held.{held_in, pdu_insight};
ghost use Rattle.mesh_types.specs.declared.answers.Answer.{Answer};
ghost use Rattle.mesh_types.specs.declared.events.Event.TheVariants as E;
ghost use Rattle.node_layers.specs.NodeLayers.{node_layers};
ghost use Rattle.node_records.specs.Tables.{config_in};
ghost use Rattle.event_definitions.specs.Answers.{config_before};
ghost use Rattle.event_definitions.specs.History.{Insight, OfNothing, Past};
ghost use Rattle.event_definitions.specs.Jobs.{jobs_of};
ghost use Rattle.store_definitions.specs.Config.{Config};

use crate::plan::{OwnPlan, PduPlan, TickPlan};
use mesh_hearing::Keys;
use mesh_jobs::{OwnBasis, begin_jobs, own_jobs, pdu_jobs, tick_jobs};
use mesh_types::events::Event;
use mesh_types::jobs::{JobDraft, Jobs};
use node_records::Persist;

/// The jobs of a network PDU heard that was planned so.
pub fn jobs_of_pdu(draft: JobDraft, p: &Persist, keys: &Keys, plan: &PduPlan) -> Jobs
    requires empty { draft ≡ [] }
    requires keys { keys.now ≡ held_in (config_in p.now) }
    requires planned { (octets : List ℕ) × IsSomePlan (E.Net octets) (of_pdu plan.now) }
    requires unicast { p.now.unicast.0 < 2 ^ 15 }
    ensures value { (past : Past) (octets : List ℕ) (t : NodeTablesView)
        → IsPlanned past (E.Net octets) (of_pdu plan.now) t
        → LeavesConfig plan.now.answer (config_before past) (config_in p.now)
        → result ≡ jobs_of node_layers past (config_in p.now) (E.Net octets)
        (pdu_insight plan.now.basis.heard) plan.now.answer }
{
    pdu_jobs(draft, p, keys.nets(), &plan.basis, &plan.answer)
}

/// The jobs of a beacon heard: there are none, whatever was answered.
#[tactic(auto, unfolding(event_definitions::specs::Jobs::jobs_of))]
pub fn jobs_of_beacon(draft: JobDraft) -> Jobs
    requires empty { draft ≡ [] }
    ensures none { result ≡ [] }
    ensures value { (past : Past) (c : Config) (octets : List ℕ) (insight : Insight) (answer : Answer)
        → result ≡ jobs_of node_layers past c (E.Bcn octets) insight answer }
{
    draft.finish()
}

/// The jobs of time that passed and was planned so.
pub fn jobs_of_tick(draft: JobDraft, p: &Persist, keys: &Keys, plan: &TickPlan) -> Jobs
    requires empty { draft ≡ [] }
    requires keys { keys.now ≡ held_in (config_in p.now) }
    requires planned { (ticks : ℕ) × IsSomePlan (E.Tick ticks) (of_tick plan.now) }
    requires unicast { p.now.unicast.0 < 2 ^ 15 }
    ensures value { (past : Past) (ticks : ℕ) (t : NodeTablesView) → IsPlanned past (E.Tick ticks) (of_tick plan.now) t
        → (config_in p.now).unicast ≡ (config_before past).unicast
        → result ≡ jobs_of node_layers past (config_in p.now) (E.Tick ticks) OfNothing plan.now.answer }
{
    tick_jobs(
        draft,
        p,
        keys.nets(),
        keys.apps(),
        &plan.basis,
        &plan.answer,
    )
}

/// The jobs of an event that brings neither octets heard nor time, and was planned so. The event is one that the node can
/// send.
pub fn jobs_of_own(draft: JobDraft, p: &Persist, keys: &Keys, event: &Event, plan: &OwnPlan) -> Jobs
    requires empty { draft ≡ [] }
    requires keys { keys.now ≡ held_in (config_in p.now) }
    requires own { IsOwn event.now }
    requires sendable { IsSendable (config_in p.now) event.now }
    ensures value { (past : Past) (t : NodeTablesView) → IsPlanned past event.now (of_own plan.now) t
        → result ≡ jobs_of node_layers past (config_in p.now) event.now OfNothing plan.now.answer }
{
    let nets = keys.nets();
    match event {
        Event::Begin(message) => begin_jobs(draft, p, nets, message, &plan.answer),
        _ => {
            let basis = OwnBasis {
                event,
                befriended: plan.befriended,
            };
            own_jobs(draft, p, nets, keys.apps(), &basis, &plan.answer)
        }
    }
}
