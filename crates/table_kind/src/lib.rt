// The kinds of table that a section has of its own, and how long their entries are.
#![tactic(auto)]

ghost use Rattle.std.specs.Prelude.{◌≡◌};
ghost use Rattle.table_kind.specs.Kind.{entry_length};

use format::Format;

#[derive(Clone, Copy)]
pub enum TableKind {
    Relocations,
    Lines,
}

// The bytes of an entry.
pub fn entry_length(k: TableKind, f: Format) -> usize
    ensures { result ≡ entry_length k f }
{
    match k {
        TableKind::Relocations => match f {
            Format::Xcoff32 => 10,
            Format::Xcoff64 => 14,
        },
        TableKind::Lines => match f {
            Format::Xcoff32 => 6,
            Format::Xcoff64 => 12,
        },
    }
}
