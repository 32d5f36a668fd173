// Every relocation entry of a module applied to its images, in order.
#![tactic(auto)]

ghost use Rattle.std.specs.Prelude.{◌≡◌, ◌+◌, ◌<◌, length};
ghost use Rattle.loadable.specs.Valid.{Valid};
ghost use Rattle.history.specs.Images.{images, apply_entry, apply_all};
ghost use Rattle.plan.specs.Relocatable.{relocation_at, relocations_from, relocatable_of};
ghost use Rattle.apply.specs.Shift.{ForPlans};

use format::Format;
use loadable::Loadable;
use module::Module;

// The same in XCOFF32, whose fields are all of 4 bytes.
fn apply_entry32(
    file: &[u8],
    l: Loadable,
    i: u64,
    d: [u64; 3],
    moving: bool,
    from: &[u64],
    to: &[u64],
    text: &mut [u8],
    data: &mut [u8],
)
    requires valid { Valid file.now l × (i < l.tables.nreloc) }
    requires from_len { (length from.now ≡ l.tables.nsyms) × (length to.now ≡ l.tables.nsyms) }
    requires text_len { (length text.old ≡ l.layout.parts.text.size) × (length «data».old ≡ l.layout.image) }
    requires format_value { l.layout.format ≡ Format.Xcoff32 }
    ensures { ForPlans (relocatable_of file.now l) d moving from.now to.now (λ s. images text.new «data».new ≡ apply_entry (relocation_at file.now l i) s (images text.old «data».old)) }
{
    let e = plan::relocation_at(file, l, i);
    let place = e.place;
    let z = apply::shift_of(file, l, d, moving, from, to, e.symbol);
    if place.text {
        apply::add_to_narrow(text, place.offset as usize, e.minus, z);
        return;
    }
    apply::add_to_narrow(data, place.offset as usize, e.minus, z);
}

// Applies each relocation entry in order.
fn apply_entries(
    file: &[u8],
    l: Loadable,
    d: [u64; 3],
    moving: bool,
    from: &[u64],
    to: &[u64],
    text: &mut [u8],
    data: &mut [u8],
)
    requires valid { Valid file.now l }
    requires from_len { (length from.now ≡ l.tables.nsyms) × (length to.now ≡ l.tables.nsyms) }
    requires text_len { (length text.old ≡ l.layout.parts.text.size) × (length «data».old ≡ l.layout.image) }
    ensures { ForPlans (relocatable_of file.now l) d moving from.now to.now (λ s. images text.new «data».new ≡ apply_all (relocations_from file.now l 0 l.tables.nreloc) s (images text.old «data».old)) }
{
    let t = l.tables;
    for i in 0..t.nreloc {
        apply::apply_entry(file, l, i, d, moving, from, to, text, data);
    }
}

// The same in XCOFF32.
fn apply_entries32(
    file: &[u8],
    l: Loadable,
    d: [u64; 3],
    moving: bool,
    from: &[u64],
    to: &[u64],
    text: &mut [u8],
    data: &mut [u8],
)
    requires valid { Valid file.now l }
    requires from_len { (length from.now ≡ l.tables.nsyms) × (length to.now ≡ l.tables.nsyms) }
    requires text_len { (length text.old ≡ l.layout.parts.text.size) × (length «data».old ≡ l.layout.image) }
    requires format_value { l.layout.format ≡ Format.Xcoff32 }
    ensures { ForPlans (relocatable_of file.now l) d moving from.now to.now (λ s. images text.new «data».new ≡ apply_all (relocations_from file.now l 0 l.tables.nreloc) s (images text.old «data».old)) }
{
    let t = l.tables;
    for k in 0..t.nreloc {
        apply_entry32(file, l, k, d, moving, from, to, text, data);
    }
}

// A module whose format is `f`, with `f` written into it, so that the compiler knows it in all that follows.
fn with_format(l: Loadable, f: Format) -> Loadable
    requires { l.layout.format ≡ f }
    ensures { result ≡ l }
{
    let m = l.layout;
    let parts = m.parts;
    let entry = m.entry;
    let toc = m.toc;
    let tables = l.tables;
    let layout = Module {
        format: f,
        parts,
        image: m.image,
        entry,
        toc,
    };
    Loadable { layout, tables }
}

// Applies each relocation entry in order. `d` has the shifts of text, data and bss; imports shift from `from` to `to`, in a build from their
// recorded values. Each format has a loop of its own, which then does not ask for the format at each entry.
pub fn apply_all(
    file: &[u8],
    l: Loadable,
    d: [u64; 3],
    moving: bool,
    from: &[u64],
    to: &[u64],
    text: &mut [u8],
    data: &mut [u8],
)
    requires valid { Valid file.now l }
    requires from_len { (length from.now ≡ l.tables.nsyms) × (length to.now ≡ l.tables.nsyms) }
    requires text_len { (length text.old ≡ l.layout.parts.text.size) × (length «data».old ≡ l.layout.image) }
    ensures { ForPlans (relocatable_of file.now l) d moving from.now to.now (λ s. images text.new «data».new ≡ apply_all (relocations_from file.now l 0 l.tables.nreloc) s (images text.old «data».old)) }
{
    let m = l.layout;
    let f = m.format;
    match f {
        Format::Xcoff32 => {
            let known = with_format(l, Format::Xcoff32);
            apply_entries32(file, known, d, moving, from, to, text, data)
        }
        Format::Xcoff64 => {
            let known = with_format(l, Format::Xcoff64);
            apply_entries(file, known, d, moving, from, to, text, data)
        }
    }
}
