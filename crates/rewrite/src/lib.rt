// A module written back into a file for a plan.
#![tactic(auto)]

ghost use Rattle.std.specs.Prelude.{◌≡◌, ◌+◌, ◌≤◌, ◌<◌, false, length};
ghost use Rattle.loadable.specs.Valid.{Valid};
ghost use Rattle.apply.specs.Shift.{ForPlans};
ghost use Rattle.plan.specs.Relocatable.{relocation_at, relocations_from, relocatable_of};
ghost use Rattle.displacement.specs.Reach.{plan_of};
ghost use Rattle.offset.specs.Report.{report_head};
ghost use Rattle.written.specs.Written.{written};
ghost use Rattle.written.specs.Shared.{is_shared};
ghost use Rattle.written.specs.Write.{rewrite_check, output_after};
ghost use Rattle.rewrite.specs.InPlace.{place_entry, place_all};
ghost use Rattle.rewrite.specs.Ready.{Ready, check_of};

use displacement::Addresses;
use header::Summary;
use loadable::Loadable;
use refusal::{Refusal, RoomItem};

// ---- the images, built where the copy has their raw bytes

// Updates the field of relocation entry `i`.
fn place_entry(file: &[u8], l: Loadable, i: u64, d: [u64; 3], imports: &[u64], out: &mut [u8])
    requires valid { Valid file.now l × (i < l.tables.nreloc) }
    requires imports_len { (length imports.now ≡ l.tables.nsyms) × (length out.old ≡ length file.now) }
    ensures { ForPlans (relocatable_of file.now l) d false imports.now imports.now (λ s. out.new ≡ place_entry l.layout.parts (relocation_at file.now l i) s out.old) }
{
    let m = l.layout;
    let p = m.parts;
    let e = plan::relocation_at(file, l, i);
    let place = e.place;
    let z = apply::shift_of(file, l, d, false, imports, imports, e.symbol);
    if place.text {
        let text = p.text;
        let start = text.start;
        let off = start.0 + place.offset;
        apply::add_to_field(out, off as usize, place.wide, e.minus, z);
        return;
    }
    let data = p.data;
    let start = data.start;
    let off = start.0 + place.offset;
    apply::add_to_field(out, off as usize, place.wide, e.minus, z);
}

// Of each relocation entry in order.
fn place_entries(file: &[u8], l: Loadable, d: [u64; 3], imports: &[u64], out: &mut [u8])
    requires valid { Valid file.now l }
    requires imports_len { (length imports.now ≡ l.tables.nsyms) × (length out.old ≡ length file.now) }
    ensures { ForPlans (relocatable_of file.now l) d false imports.now imports.now (λ s. out.new ≡ place_all l.layout.parts (relocations_from file.now l 0 l.tables.nreloc) s out.old) }
{
    let t = l.tables;
    for i in 0..t.nreloc {
        place_entry(file, l, i, d, imports, out);
    }
}

// Writes the module for a plan that is accepted into an output of the file's length.
fn write_valid(file: &[u8], y: Summary, l: Loadable, at: Addresses, imports: &[u64], out: &mut [u8])
    requires ready { Ready file.now y l × (is_shared file.now y l ≡ false) }
    requires imports_len { (length imports.now ≡ l.tables.nsyms) × (length out.old ≡ length file.now) }
    ensures { out.new ≡ written file.now l (plan_of at imports.now) }
{
    let d = displacement::displacements(at, l);
    file_copy::copy_file(file, out);
    place_entries(file, l, d, imports, out);
    address_put::put_aux(file, l, d, imports, out);
    address_put::put_sections(file, y, d, imports, out);
    address_put::put_symbols(file, l, d, imports, out);
    address_put::put_entries(file, l, d, imports, out);
}

// ---- the operation

// ROOM 2, PLAN, SHARED, ROOM 0 of a module.
fn check_write(
    file: &[u8],
    y: Summary,
    l: Loadable,
    at: Addresses,
    imports: &[u64],
    output: usize,
) -> Result<(), Refusal>
    requires { Ready file.now y l }
    ensures { result ≡ check_of file.now y l (plan_of at imports.now) output }
{
    call_check::check_plan(file, l, at, imports)?;
    if shared_parts::shares(file, y, l) {
        return Err(Refusal::Shared);
    }
    if output == file.len() {
        return Ok(());
    }
    Err(Refusal::Room(RoomItem::FileBuffer))
}

// Writes the module into `output` for a plan. A refusal writes nothing.
pub fn write_module(
    file: &[u8],
    at: Addresses,
    imports: &[u64],
    output: &mut [u8],
) -> Result<(), Refusal>
    ensures cause { result ≡ rewrite_check file.now (plan_of at imports.now) (length output.old) }
    ensures report { report_head file.now result ≡ report_head file.now (rewrite_check file.now (plan_of at imports.now) (length output.old)) }
    ensures output { output.new ≡ output_after file.now (plan_of at imports.now) output.old }
{
    let l = loadable::module_of(file)?;
    let o = header::open(file);
    let y = o.summary;
    check_write(file, y, l, at, imports, output.len())?;
    write_valid(file, y, l, at, imports, output);
    Ok(())
}
