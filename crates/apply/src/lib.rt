// Relocation entries applied to the two images of a module.
#![tactic(auto)]

ghost use Rattle.std.specs.Prelude.{◌≡◌, ◌+◌, ◌^◌, ◌<◌, ◌≤◌, length, pos};
ghost use Rattle.relocation.specs.Relocation.{bytes_wide};
ghost use Rattle.loadable.specs.Valid.{Valid};
ghost use Rattle.update.specs.Update.{remainder, add_field};
ghost use Rattle.history.specs.Images.{images, signed, apply_entry};
ghost use Rattle.history.specs.Plan.{Relocatable, Plan};
ghost use Rattle.plan.specs.Relocatable.{relocation_at, relocatable_of};
ghost use Rattle.apply.specs.Shift.{shift_of, ForPlans};

use history::Followed;
use loadable::Loadable;

// Adds `z` to the field of 4 bytes at `off`, or subtracts it.
pub fn add_to_narrow(s: &mut [u8], off: usize, minus: bool, z: u64)
    requires { off + 4 ≤ length s.old }
    ensures { s.new ≡ add_field 4 off (signed minus (pos z)) s.old }
{
    if minus {
        update::sub32(s, off, z);
        return;
    }
    update::add32(s, off, z);
}

// The same of a field of 8 bytes. Each width has its own function, in which the compiler joins both branches but for the sum.
fn add_to_wide(s: &mut [u8], off: usize, minus: bool, z: u64)
    requires { off + 8 ≤ length s.old }
    ensures { s.new ≡ add_field 8 off (signed minus (pos z)) s.old }
{
    if minus {
        update::sub64(s, off, z);
        return;
    }
    update::add64(s, off, z);
}

// Adds `z` to the field of 8 or 4 bytes at `off`, or subtracts it.
pub fn add_to_field(s: &mut [u8], off: usize, wide: bool, minus: bool, z: u64)
    requires { off + bytes_wide wide ≤ length s.old }
    ensures { s.new ≡ add_field (bytes_wide wide) off (signed minus (pos z)) s.old }
{
    if wide {
        add_to_wide(s, off, minus, z);
        return;
    }
    add_to_narrow(s, off, minus, z);
}

// An import's shift: to the address in one list, in a move from that in the other, in a build from its recorded value.
fn import_shift(moving: bool, from: &[u64], to: &[u64], k: u64, value: u64) -> u64
    requires { (k < length from.now) × (k < length to.now) }
    ensures { (m : Relocatable) (p q : Plan) → p.list ≡ from.now → q.list ≡ to.now → result ≡ remainder (shift_of m moving p q (Followed.Import k value)) (2 ^ 64) }
{
    let place = k as usize;
    if moving {
        return std::num::wrapping_sub_u64(to[place], from[place]);
    }
    std::num::wrapping_sub_u64(to[place], value)
}

// The shift of a loader symbol, by what it follows. `d` has those of text, data and bss.
fn loader_shift(
    file: &[u8],
    l: Loadable,
    d: [u64; 3],
    moving: bool,
    from: &[u64],
    to: &[u64],
    symbol: u64,
) -> u64
    requires valid { Valid file.now l × (3 ≤ symbol) × (symbol < 3 + l.tables.nsyms) }
    requires from_len { (length from.now ≡ l.tables.nsyms) × (length to.now ≡ l.tables.nsyms) }
    ensures { ForPlans (relocatable_of file.now l) d moving from.now to.now (λ s. result ≡ remainder (s symbol) (2 ^ 64)) }
{
    let m = l.layout;
    let t = l.tables;
    let format = m.format;
    let start = t.symbols;
    let p = m.parts;
    let text = p.text;
    let number = text.number;
    let f = plan::followed_at(file, format, start, number, symbol - 3);
    match f {
        Followed::Text => d[0],
        Followed::Data => d[1],
        Followed::Import(k, v) => import_shift(moving, from, to, k, v),
        Followed::Nothing => 0,
    }
}

// A symbol's shift. `d` has those of text, data and bss, symbols 0, 1 and 2. By cases and not `d[symbol]`: from a test `symbol < 3` the
// compiler takes the symbol's last byte alone as the index, and then reads the symbol byte by byte.
pub fn shift_of(
    file: &[u8],
    l: Loadable,
    d: [u64; 3],
    moving: bool,
    from: &[u64],
    to: &[u64],
    symbol: u64,
) -> u64
    requires valid { Valid file.now l × (symbol < 3 + l.tables.nsyms) }
    requires from_len { (length from.now ≡ l.tables.nsyms) × (length to.now ≡ l.tables.nsyms) }
    ensures { ForPlans (relocatable_of file.now l) d moving from.now to.now (λ s. result ≡ remainder (s symbol) (2 ^ 64)) }
{
    match symbol {
        0 => d[0],
        1 => d[1],
        2 => d[2],
        _ => loader_shift(file, l, d, moving, from, to, symbol),
    }
}

// Updates the field of relocation entry `i` by its symbol's shift.
pub fn apply_entry(
    file: &[u8],
    l: Loadable,
    i: u64,
    d: [u64; 3],
    moving: bool,
    from: &[u64],
    to: &[u64],
    text: &mut [u8],
    data: &mut [u8],
)
    requires valid { Valid file.now l × (i < l.tables.nreloc) }
    requires from_len { (length from.now ≡ l.tables.nsyms) × (length to.now ≡ l.tables.nsyms) }
    requires text_len { (length text.old ≡ l.layout.parts.text.size) × (length «data».old ≡ l.layout.image) }
    ensures { ForPlans (relocatable_of file.now l) d moving from.now to.now (λ s. images text.new «data».new ≡ apply_entry (relocation_at file.now l i) s (images text.old «data».old)) }
{
    let e = plan::relocation_at(file, l, i);
    let place = e.place;
    let z = shift_of(file, l, d, moving, from, to, e.symbol);
    if place.text {
        add_to_field(text, place.offset as usize, place.wide, e.minus, z);
        return;
    }
    add_to_field(data, place.offset as usize, place.wide, e.minus, z);
}
