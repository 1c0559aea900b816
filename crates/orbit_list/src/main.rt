// Lists the hyperplane orbits of jobs, so that they can be held beside those that the Rust finds. Standard input
// holds jobs, each behind its length, a u16. Each job has a line with its number and how many orbits it has, or its
// refusal; then a line for each orbit, its count and the vertices of its first set; then, orbit by orbit, the rows of
// the inner call or the refusal of the refit, which ends the list. No contract can say what is written: that is held
// to the file stdout, which the Rust wrote.
#![tactic(auto)]

ghost use Rattle.std.specs.Prelude.{◌≡◌, ◌+◌, ◌*◌, ◌^◌, ◌≤◌, ◌<◌, length};
ghost use Rattle.job.specs.Refusal.{checked_of};
ghost use Rattle.definitions.specs.Outcome.{answered};
ghost use Rattle.orbits.specs.Workspace.{orbits_room};

use load::{Fields, Job};
use openers::PairSearch;
use orbits::Search;
use refusals::Refusal;
use rows::Rows;
use stabilizers::Symmetries;
use std::io;
use words::Word;

// ---- sets and rows

// The vertices of a set, each behind a blank.
fn put_vertices(rt: &impl Print, n: usize, set: u32) -> io::Result<()>
    requires { n ≤ 20 }
{
    let vertices = sets::vertices_of(set, n);
    for v in vertices.as_slice() {
        print!(rt; " {v}")?;
    }
    Ok(())
}

// The images of row i, each behind a blank.
fn put_row(rt: &impl Print, rows: Rows, i: usize, size: usize) -> io::Result<()>
    requires { 32 * i + size ≤ length rows.bytes.now }
{
    for v in 0..size {
        let u = rows.image(i, v);
        print!(rt; " {u}")?;
    }
    Ok(())
}

// Rows, a comma between two.
fn put_rows(rt: &impl Print, rows: Rows, size: usize) -> io::Result<()>
    requires { size ≤ 32 }
{
    for i in 0..rows.count {
        if 0 < i {
            print!(rt; ",")?;
        }
        put_row(rt, rows, i, size)?;
    }
    Ok(())
}

// ---- orbits

// The orbits lie in the bytes of the workspace, so that their number goes beside it.
fn list_orbits(rt: &impl Print, ws: &[u8], count: usize, n: usize) -> io::Result<()>
    requires { (8 * count ≤ length ws.now) × (n ≤ 20) }
{
    for k in 0..count {
        let size = u32::get(ws, 8 * k + 4);
        print!(rt; "{size}:")?;
        put_vertices(rt, n, orbits::set_at(ws, k, n))?;
        println!(rt)?;
    }
    Ok(())
}

// ---- inner calls

// The rows that keep a set of so many vertices.
fn list_rows(rt: &impl Print, full: Symmetries, set: u32, size: usize) -> io::Result<()>
    requires { (full.rows.count ≤ 120) × (set < 2 ^ full.n) × (size ≤ 20) }
{
    let mut inner = [0; rows::ROWS_ROOM];
    let count = full.rows_within(set, &mut inner);
    let within = Rows {
        bytes: &inner,
        count,
    };
    put_rows(rt, within, size)?;
    println!(rt)
}

// Whether a set's refit was not refused.
fn list_inner(rt: &impl Print, search: Search, rank: usize, set: u32) -> io::Result<bool>
    requires { (2 ≤ rank) × (set < 2 ^ search.flat.now.n) }
{
    let chosen = sets::chosen_points(search.flat, set);
    let size = chosen.n;
    if sets::refit(chosen, search.pairs.tolerance, rank - 2).is_err() {
        let e = Refusal::Plane;
        println!(rt; " refused {e}")?;
        return Ok(false);
    }
    let full = Symmetries {
        rows: search.pairs.rows,
        n: search.flat.n,
    };
    list_rows(rt, full, set, size)?;
    Ok(true)
}

// Orbit by orbit, up to the first refit that is refused.
fn list_inners(
    rt: &impl Print,
    search: Search,
    rank: usize,
    ws: &[u8],
    count: usize,
) -> io::Result<()>
    requires { (2 ≤ rank) × (8 * count ≤ length ws.now) }
{
    for k in 0..count {
        print!(rt; "inner {k}:")?;
        if !list_inner(rt, search, rank, orbits::set_at(ws, k, search.flat.n))? {
            return Ok(());
        }
    }
    Ok(())
}

// ---- jobs

// How many orbits were found, the orbits, and what comes of each.
fn list_found(
    rt: &impl Print,
    search: Search,
    rank: usize,
    ws: &[u8],
    count: usize,
) -> io::Result<()>
    requires { (2 ≤ rank) × (8 * count ≤ length ws.now) }
{
    println!(rt; " {count} orbits")?;
    list_orbits(rt, ws, count, search.flat.n)?;
    list_inners(rt, search, rank, ws, count)
}

// A job of rank 3 or 4 that passes the refusals before the call. That it passes stays a clause: this function alone
// asks it, of the one that checked it. So does the length of the workspace, here and below: the function writes the
// workspace that it speaks of.
fn list_call(rt: &impl Print, job: &[u8], fields: Fields, ws: &mut [u8]) -> io::Result<()>
    requires { (answered fields ≡ checked_of job.now 4194304) × (3 ≤ fields.rank) × (orbits_room ≤ length ws.old) }
{
    let job = Job { bytes: job, fields };
    let points = job.points();
    let flat = points.flatten_all(&job.plane());
    let mut loaded = [0; rows::ROWS_ROOM];
    job.load_rows(&mut loaded);
    let rows = Rows {
        bytes: &loaded,
        count: fields.count,
    };
    let pairs = PairSearch {
        points: &points,
        rows,
        limits: fields.limits,
        tolerance: fields.tolerance,
    };
    let search = Search { pairs, flat: &flat };
    match orbits::find_orbits(search, fields.rank - 3, fields.rule, pool::MOST_ORBITS, ws) {
        Err(e) => println!(rt; " refused {e}"),
        Ok(count) => list_found(rt, search, fields.rank, ws, count),
    }
}

// One job's lines. A call of rank 2 has no hyperplane orbits.
fn list_job(rt: &impl Print, job: &[u8], ws: &mut [u8]) -> io::Result<()>
    requires { orbits_room ≤ length ws.old }
{
    match job::check(job, job::WORKSPACE_4) {
        Err(e) => println!(rt; " refused {e}"),
        Ok(fields) => {
            if fields.rank == 2 {
                return println!(rt; " rank 2");
            }
            list_call(rt, job, fields, ws)
        }
    }
}

// Each job, up to one that is not there whole. No `for`: each step is as long as the job that it reads.
fn list_jobs(rt: &impl Print, input: &[u8], ws: &mut [u8]) -> io::Result<()>
    requires { orbits_room ≤ length ws.old }
{
    let mut number: usize = 0;
    let mut at = 0;
    while at + 2 <= input.len() {
        let from = at + 2;
        let to = from + usize::from(u16::get(input, at));
        if input.len() < to {
            return Ok(());
        }
        print!(rt; "job {number}:")?;
        list_job(rt, &input[from..to], ws)?;
        number += 1;
        at = to;
    }
    Ok(())
}

fn main(rt: HostRuntime) -> io::Result<()> {
    let mut input = [0; 65536];
    let n = buffers::read_full(&mut rt.stdin(), &mut input)?;
    let mut ws = [0; orbits::ORBITS_ROOM];
    list_jobs(&rt, &input[..n], &mut ws)
}
