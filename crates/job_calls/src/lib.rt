// A job that passed the refusals before the call, loaded and called: the first half of every exported call. What its
// call says is told as it is; writing it is left to the caller.

#![tactic(auto)]

ghost use Rattle.std.specs.Prelude.{◌≡◌, length};
ghost use Rattle.job.specs.Refusal.{checked_of};
ghost use Rattle.definitions.specs.Outcome.{answered};
ghost use Rattle.call_search.specs.PreparedCalls.{call_rules};
ghost use Rattle.faceting.specs.Ways.{way_of, WayFits};
ghost use Rattle.job_calls.specs.Loaded.{job_rules, JobCalled, CalledIn};

use calls::{Called, Rules};
use load::{Fields, Job};
use pool::{MOST_FACETS, MOST_LISTS, MOST_ORBITS};
use refusals::Refusal;
use rows::Rows;
use tallies::Package;

// ---- loading and calling

// What is alike at every depth of a job's call: the job's own tolerance, limits and rule, and the bounds of [12.2].
fn rules_of(fields: Fields) -> Rules
    ensures { call_rules result ≡ job_rules fields }
{
    Rules {
        tolerance: fields.tolerance,
        limits: fields.limits,
        limit: fields.entries,
        orbits: MOST_ORBITS,
        facets: MOST_FACETS,
        entries: MOST_LISTS,
        rule: fields.rule,
    }
}

// A job that passed the refusals before the call, loaded and called, by a package or by none [12.1] [17.10]. Its rows
// stay with the caller, who needs them for what the call leaves. That the job passed stays a clause, here and below:
// it speaks of the length of the workspace too, which the function writes. So does `WayFits`: it speaks of a package
// that may be there or not, and of the number of vertices, which the fields hold.
pub fn call_in_way(
    job: &[u8],
    fields: Fields,
    ws: &mut [u8],
    rows: &mut [u8],
    way: Option<Package>,
) -> Result<Called, Refusal>
    requires { (answered fields ≡ checked_of job.now (length ws.old))
        × (length rows.old ≡ 3840) × WayFits fields.n way }
    ensures { CalledIn (way_of fields.n way.entry) job.now fields rows.new result ws.new }
{
    let job = Job { bytes: job, fields };
    let plane = job.plane();
    let points = job.points();
    let rules = rules_of(fields);
    job.load_rows(rows);
    let loaded = Rows {
        bytes: rows,
        count: fields.count,
    };
    faceting::faceting(
        fields.rank,
        plane,
        points,
        loaded,
        rules,
        fields.budget,
        ws,
        way,
    )
}

// The job's own call, without a package.
pub fn call_job(
    job: &[u8],
    fields: Fields,
    ws: &mut [u8],
    rows: &mut [u8],
) -> Result<Called, Refusal>
    requires { (answered fields ≡ checked_of job.now (length ws.old)) × (length rows.old ≡ 3840) }
    ensures { JobCalled job.now fields rows.new result ws.new }
{
    call_in_way(job, fields, ws, rows, None)
}
