//! A job that is made only where its key is held, and its payload.
#![tactic(auto)]

ghost use Rattle.std.specs.Prelude.{◌≡◌, ◌+◌, ◌<◌, ◌≤◌, ◌++◌, length};
ghost use Rattle.std.specs.Option.{option_to_list};

use mesh_base::octets::Octets;
use mesh_types::jobs::{Job, JobDraft};
use node_limits::JOBS;

/// Puts a job behind the others, if it was made.
pub(crate) fn push_made(jobs: &mut JobDraft, job: Option<Job>)
    requires room { length jobs.old < JOBS }
    ensures value { jobs.new ≡ jobs.old ++ option_to_list job }
    ensures few { length jobs.new ≤ length jobs.old + 1 }
{
    if let Some(job) = job {
        jobs.push(job);
    }
}

/// These octets as the payload of a job.
pub(crate) fn payload_of(octets: &[u8]) -> Octets<48>
    requires short { length octets.now ≤ 48 }
    ensures value { result ≡ octets.now }
{
    let mut payload = Octets::new();
    payload.extend(octets);
    payload
}
