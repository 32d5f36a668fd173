// Kinds of field that a relocation entry of an object file changes, and exact integers added to them.
#![tactic(auto)]

ghost use Rattle.std.specs.Prelude.{◌≡◌, ◌+◌, ◌≤◌, length, pos};
ghost use Rattle.update.specs.Update.{update as changed};
ghost use Rattle.field_kind.specs.Field.{bytes_in, add_low, add_to, place};

// What an entry changes: no bytes (type 0F), 4 bytes, 8 bytes, or the low 26 bits of a word of 4 (a branch).
#[derive(Clone, Copy)]
pub enum FieldKind {
    Nothing,
    Four,
    Eight,
    Branch,
}

// A field by its offset and its kind.
#[derive(Clone, Copy)]
pub struct ObjectField {
    pub offset: u64,
    pub kind: FieldKind,
}

// How many bytes a field has.
pub fn bytes_in(k: FieldKind) -> u64
    ensures { result ≡ bytes_in k }
{
    match k {
        FieldKind::Nothing => 0,
        FieldKind::Four => 4,
        FieldKind::Eight => 8,
        FieldKind::Branch => 4,
    }
}

// Adds `d` to the low 26 bits of the word of 4 bytes at `off`.
fn add_branch(s: &mut [u8], off: usize, d: u64)
    requires { off + 4 ≤ length s.old }
    ensures { s.new ≡ changed 4 off (add_low (pos d)) s.old }
{
    let v = word::get32(s, off);
    let sum = v % 67108864 + (d % 67108864) as u32;
    update::put32(s, off, v / 67108864 * 67108864 + sum % 67108864);
}

// Adds `d` to a field. It may be any number with the amount's remainder modulo 2^64.
pub fn add_to(s: &mut [u8], off: usize, kind: FieldKind, d: u64)
    requires { off + bytes_in kind ≤ length s.old }
    ensures { s.new ≡ add_to (place off kind) (pos d) s.old }
{
    match kind {
        FieldKind::Nothing => {}
        FieldKind::Four => update::add32(s, off, d),
        FieldKind::Eight => update::add64(s, off, d),
        FieldKind::Branch => add_branch(s, off, d),
    }
}
