// A module's images for a plan as S-records: how long they are, written and read.
#![tactic(auto)]

ghost use Rattle.std.specs.Prelude.{◌≡◌, length};
ghost use Rattle.loadable.specs.Valid.{Valid};
ghost use Rattle.plan.specs.Relocatable.{relocatable_of, relocatable_at};
ghost use Rattle.displacement.specs.Reach.{plan_of};
ghost use Rattle.offset.specs.Report.{report_head};
ghost use Rattle.srecord.specs.Records.{length_answer, report_of_length, record_write_check, records_written, record_read_check, text_after, data_after};

use displacement::Addresses;
use loadable::Loadable;
use refusal::{Refusal, RoomItem};

// Writing for a module that is accepted.
fn write_valid(
    file: &[u8],
    l: Loadable,
    at: Addresses,
    imports: &[u64],
    text: &[u8],
    data: &[u8],
    out: &mut [u8],
) -> Result<(), Refusal>
    requires { Valid file.now l }
    ensures cause { result ≡ record_write_check (relocatable_of file.now l) (plan_of at imports.now) (length text.now) (length «data».now) (length out.old) }
    ensures records { out.new ≡ records_written (relocatable_of file.now l) (plan_of at imports.now) text.now «data».now out.old }
{
    srecord::check_records(file, l, at, imports)?;
    call_check::check_room(l, text.len(), data.len())?;
    let n = record_text::text_length(text.len(), data.len());
    if out.len() != n {
        return Err(Refusal::Room(RoomItem::RecordBuffer));
    }
    let t = at.text;
    let d = at.data;
    let entry = srecord::entry_address(l, at);
    record_text::put_text(out, t, text, d, data, entry);
    Ok(())
}

// Reading for a module that is accepted.
fn read_valid(
    file: &[u8],
    l: Loadable,
    at: Addresses,
    imports: &[u64],
    records: &[u8],
    text: &mut [u8],
    data: &mut [u8],
) -> Result<(), Refusal>
    requires { Valid file.now l }
    ensures cause { result ≡ record_read_check (relocatable_of file.now l) (plan_of at imports.now) (length text.old) (length «data».old) records.now }
    ensures text { text.new ≡ text_after (relocatable_of file.now l) (plan_of at imports.now) records.now text.old «data».old }
    ensures data { «data».new ≡ data_after (relocatable_of file.now l) (plan_of at imports.now) records.now text.old «data».old }
{
    srecord::check_records(file, l, at, imports)?;
    call_check::check_room(l, text.len(), data.len())?;
    let t = at.text;
    let d = at.data;
    let entry = srecord::entry_address(l, at);
    let bad = record_text::read_text(records, t, d, entry, text, data);
    if bad != 0 {
        return Err(Refusal::Record(bad));
    }
    Ok(())
}

// How long the record text of a module's images for a plan is.
pub fn records_length(file: &[u8], at: Addresses, imports: &[u64]) -> Result<u64, Refusal>
    ensures cause { result ≡ length_answer (relocatable_at file.now) (plan_of at imports.now) }
    ensures report { report_of_length file.now result ≡ report_of_length file.now (length_answer (relocatable_at file.now) (plan_of at imports.now)) }
{
    let l = loadable::module_of(file)?;
    srecord::length_valid(file, l, at, imports)
}

// Writes the two images as they are as S-records for a plan.
pub fn write_records(
    file: &[u8],
    at: Addresses,
    imports: &[u64],
    text: &[u8],
    data: &[u8],
    out: &mut [u8],
) -> Result<(), Refusal>
    ensures cause { result ≡ record_write_check (relocatable_at file.now) (plan_of at imports.now) (length text.now) (length «data».now) (length out.old) }
    ensures report { report_head file.now result ≡ report_head file.now (record_write_check (relocatable_at file.now) (plan_of at imports.now) (length text.now) (length «data».now) (length out.old)) }
    ensures records { out.new ≡ records_written (relocatable_at file.now) (plan_of at imports.now) text.now «data».now out.old }
{
    let l = loadable::module_of(file)?;
    write_valid(file, l, at, imports, text, data, out)
}

// Reads S-records for a plan back into two image buffers.
pub fn read_records(
    file: &[u8],
    at: Addresses,
    imports: &[u64],
    records: &[u8],
    text: &mut [u8],
    data: &mut [u8],
) -> Result<(), Refusal>
    ensures cause { result ≡ record_read_check (relocatable_at file.now) (plan_of at imports.now) (length text.old) (length «data».old) records.now }
    ensures report { report_head file.now result ≡ report_head file.now (record_read_check (relocatable_at file.now) (plan_of at imports.now) (length text.old) (length «data».old) records.now) }
    ensures text { text.new ≡ text_after (relocatable_at file.now) (plan_of at imports.now) records.now text.old «data».old }
    ensures data { «data».new ≡ data_after (relocatable_at file.now) (plan_of at imports.now) records.now text.old «data».old }
{
    let l = loadable::module_of(file)?;
    read_valid(file, l, at, imports, records, text, data)
}
