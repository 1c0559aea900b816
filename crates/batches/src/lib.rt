// A row of jobs, each behind its length, and a record for each [15.1] [15.2] [15.3]. The row is looked through before
// any job is run. The records are written one behind the other into a buffer that was cleared once; each job gets the
// whole workspace, as the job before left it.

#![tactic(auto)]

ghost use Rattle.std.specs.Prelude.{◌≡◌, true, length, replicate};
ghost use Rattle.definitions.specs.Job.{buffer_of, alone};
ghost use Rattle.definitions.specs.Batch.{jobs_in, batch};
ghost use Rattle.refusals.specs.Refused.{outcome_of};
ghost use Rattle.batches.specs.Cutting.{is_cut};
ghost use Rattle.batches.specs.Records.{record_in, recorded_as};

use refusals::Refusal;
use words::Word;

// ---- the row

// A job's length is a u32.
const LENGTH_BYTES: usize = 4;

// Whether the row is jobs from first to last: no length overruns it, and no one to three bytes are left.
// No `for`, here and where the jobs are run: each step is as long as the job that it reads.
pub fn is_cut(row: &[u8]) -> bool
    ensures { result ≡ is_cut (jobs_in row.now) }
{
    let mut at = 0;
    while at < row.len() {
        let left = row.len() - at;
        if left < LENGTH_BYTES {
            return false;
        }
        let many = u32::get(row, at) as usize;
        if left - LENGTH_BYTES < many {
            return false;
        }
        at += LENGTH_BYTES + many;
    }
    true
}

// ---- the records

// A record's head: the answer's length as u32 and the refusal's number as u16.
const HEAD_BYTES: usize = 6;

// The record of a job at the front of a cleared buffer: how many bytes it has, or refusal 27 where it has no room or
// no u32 for its length. Of a refused job only the number is written, of an accepted one only the length: the rest of
// the head is zero already. That the buffer is cleared stays a clause, here and below: the function writes the buffer
// that it speaks of.
fn write_record(job: &[u8], workspace: &mut [u8], records: &mut [u8]) -> Result<usize, Refusal>
    requires { records.old ≡ replicate (length records.old) 0 }
    ensures result { outcome_of result
        ≡ recorded_as (record_in (length records.old) (alone job.now (length workspace.old))) }
    ensures buffer { records.new
        ≡ buffer_of (length records.old) (record_in (length records.old) (alone job.now (length workspace.old))) }
{
    if records.len() < HEAD_BYTES {
        return Err(Refusal::Records);
    }
    match answering::answer_job(job, workspace, &mut records[HEAD_BYTES..]) {
        Err(refusal) => {
            u16::put(records, LENGTH_BYTES, u16::from(refusal.number()));
            Ok(HEAD_BYTES)
        }
        Ok(None) => Err(Refusal::Records),
        Ok(Some(many)) => {
            let Ok(length) = u32::try_from(many) else {
                records.fill(0);
                return Err(Refusal::Records);
            };
            u32::put(records, 0, length);
            Ok(HEAD_BYTES + many)
        }
    }
}

// The records of a row's jobs, into a cleared buffer, which is cleared again where one has no room. That the row is
// cut stays a clause: this function alone asks it, of the one that tested it.
fn write_records(row: &[u8], workspace: &mut [u8], records: &mut [u8]) -> Result<usize, Refusal>
    requires { (is_cut (jobs_in row.now) ≡ true) × (records.old ≡ replicate (length records.old) 0) }
    ensures result { outcome_of result ≡ recorded_as (batch row.now (length workspace.old) (length records.old)) }
    ensures buffer { records.new
        ≡ buffer_of (length records.old) (batch row.now (length workspace.old) (length records.old)) }
{
    let mut at = 0;
    let mut end = 0;
    while at < row.len() {
        let from = at + LENGTH_BYTES;
        let to = from + u32::get(row, at) as usize;
        match write_record(&row[from..to], workspace, &mut records[end..]) {
            Err(_) => {
                records.fill(0);
                return Err(Refusal::Records);
            }
            Ok(many) => end += many,
        }
        at = to;
    }
    Ok(end)
}

// The records of a row, whatever its bytes: their length, or refusal 26 or 27.
pub fn answer_row(row: &[u8], workspace: &mut [u8], records: &mut [u8]) -> Result<usize, Refusal>
    ensures result { outcome_of result ≡ recorded_as (batch row.now (length workspace.old) (length records.old)) }
    ensures buffer { records.new
        ≡ buffer_of (length records.old) (batch row.now (length workspace.old) (length records.old)) }
{
    records.fill(0);
    if is_cut(row) {
        return write_records(row, workspace, records);
    }
    Err(Refusal::Cut)
}
