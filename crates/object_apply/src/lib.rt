// Relocation entries of an object file applied to its buffer.
#![tactic(auto)]

ghost use Rattle.std.specs.Prelude.{◌≡◌, ◌+◌, ◌^◌, ◌<◌, ◌≤◌, length};
ghost use Rattle.update.specs.Update.{remainder};
ghost use Rattle.field_kind.specs.Field.{add_to};
ghost use Rattle.object_history.specs.Entry.{amount_of, apply_all};
ghost use Rattle.object_entry.specs.Entry.{object_entry};
ghost use Rattle.object_plan.specs.Object.{table_entries, object_of};
ghost use Rattle.object_plan.specs.Shifts.{address_shifts, numbers};
ghost use Rattle.object_plan.specs.Ready.{ObjectReady, PartReady};

use header::Summary;
use object_history::{AmountKind, ObjectEntry};
use section_relocation::ObjectSection;
use symbol::Tables;

// The shift of section number `n` modulo 2^64: its address in `to` minus that in `from`.
fn shift_of(to: &[u64], from: &[u64], n: u64) -> u64
    requires { (n < length to.now) × (n < length from.now) }
    ensures { result ≡ remainder (address_shifts to.now from.now n) (2 ^ 64) }
{
    let k = n as usize;
    std::num::wrapping_sub_u64(to[k], from[k])
}

// What an entry adds to its field, modulo 2^64.
fn amount_of(to: &[u64], from: &[u64], e: ObjectEntry) -> u64
    requires symbol_in_bounds { (e.symbol < length to.now) × (e.symbol < length from.now) }
    requires section_in_bounds { (e.name.section.0 < length to.now) × (e.name.section.0 < length from.now) }
    ensures { result ≡ remainder (amount_of e (address_shifts to.now from.now)) (2 ^ 64) }
{
    let amount = e.amount;
    let name = e.name;
    let section = name.section;
    let z = shift_of(to, from, e.symbol);
    match amount {
        AmountKind::Plus => z,
        AmountKind::Minus => std::num::wrapping_sub_u64(0, z),
        AmountKind::Relative => std::num::wrapping_sub_u64(z, shift_of(to, from, section.0)),
    }
}

// Updates the field of entry `i` of a section's table.
fn apply_entry(
    file: &[u8],
    t: Tables,
    s: ObjectSection,
    i: u64,
    to: &[u64],
    from: &[u64],
    buffer: &mut [u8],
)
    requires part_ready { PartReady file.now t s × (i < s.count) }
    requires to_len { (length to.now ≡ numbers) × (length from.now ≡ numbers) × (s.place + s.size ≤ length buffer.old) }
    ensures { buffer.new ≡ add_to (object_entry file.now t s i).field (amount_of (object_entry file.now t s i) (address_shifts to.now from.now)) buffer.old }
{
    let e = object_entry::entry_at(file, t, s, i);
    let z = amount_of(to, from, e);
    let field = e.field;
    let kind = field.kind;
    field_kind::add_to(buffer, field.offset as usize, kind, z);
}

// Applies each entry of a section's table in order.
fn apply_table(
    file: &[u8],
    t: Tables,
    s: ObjectSection,
    to: &[u64],
    from: &[u64],
    buffer: &mut [u8],
)
    requires part_ready { PartReady file.now t s }
    requires to_len { (length to.now ≡ numbers) × (length from.now ≡ numbers) × (s.place + s.size ≤ length buffer.old) }
    ensures { buffer.new ≡ apply_all (table_entries file.now t s) (address_shifts to.now from.now) buffer.old }
{
    for i in 0..s.count {
        apply_entry(file, t, s, i, to, from, buffer);
    }
}

// Applies each entry of an accepted object file in order, by the differences of two addresses for each section number.
pub fn apply_entries(
    file: &[u8],
    y: Summary,
    t: Tables,
    to: &[u64],
    from: &[u64],
    buffer: &mut [u8],
)
    requires object_ready { ObjectReady file.now y t }
    requires to_len { (length to.now ≡ numbers) × (length from.now ≡ numbers) × (length buffer.old ≡ length (object_of file.now).raw) }
    ensures { buffer.new ≡ apply_all (object_of file.now).entries (address_shifts to.now from.now) buffer.old }
{
    let len = file.len() as u64;
    let mut place: u64 = 0;
    let mut first: u64 = 0;
    for k in 0..y.count {
        let s = object::part_of(y, len, k, place, first);
        apply_table(file, t, s, to, from, buffer);
        place += s.size;
        first += s.count;
    }
}
