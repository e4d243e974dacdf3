//! The jobs of a plan.
#![tactic(auto)]

ghost use Rattle.std.specs.Prelude.{◌≡◌, [], All, IfSome};
ghost use Rattle.std.specs.List.{flat_map};
ghost use Rattle.std.specs.Option.{option_to_list};
ghost use Rattle.low_power_machine.specs.Plans.{IsShort};
ghost use Rattle.low_power_role.specs.Role.{jobs_under};
ghost use Rattle.machine_contract.specs.Ranges.{IsJob};
ghost use Rattle.mesh_types.specs.declared.events.Event.{Event};
ghost use Rattle.node_records.specs.Tables.{config_in};

use crate::memory::first_nets;
use low_power::{LpnJob, job_material};
use mesh_types::jobs::{Job, JobDraft, Jobs};
use node_records::Persist;

/// The jobs of what is to be sent: from the first element, with TTL 0, under the first network key.
pub(crate) fn jobs_of(mut draft: JobDraft, p: &Persist, job: Option<LpnJob>) -> Jobs
    requires empty { draft ≡ [] }
    requires short { IfSome job IsShort }
    ensures value { result ≡ flat_map (jobs_under (config_in p.now)) (option_to_list job) }
    ensures jobs { (event : Event) → All (IsJob event) result }
{
    if let Some(job) = job {
        if let Some(net) = first_nets(p).first() {
            draft.push(Job::Control {
                material: job_material(p.unicast, net, &job),
                ttl: 0,
                src: p.unicast,
                dst: job.dst,
                tpdu: job.tpdu,
                keep: None,
            });
        }
    }
    draft.finish()
}
