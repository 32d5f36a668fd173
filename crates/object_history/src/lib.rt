// Builds and moves of an object file: its one buffer, the entries of its sections' relocation tables, RANGE, and its book. Definitions and theorems; no code.
#![tactic(auto)]

use field_kind::ObjectField;
use refusal::SectionRelocation;

// What an entry adds to its field: its symbol's shift, that with its sign changed, or that minus its own section's (a relative branch).
#[derive(Clone, Copy)]
pub enum AmountKind {
    Plus,
    Minus,
    Relative,
}

// An entry as it is applied. A shift belongs to a section: the symbol's is that of the section that it is in, 0 where it moves with none.
#[derive(Clone, Copy)]
pub struct ObjectEntry {
    pub field: ObjectField,
    pub amount: AmountKind,
    pub symbol: u64,
    pub name: SectionRelocation,
}
