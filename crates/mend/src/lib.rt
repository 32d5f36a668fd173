// One entry of the symbol table mended: which checks refuse it, the fields that are set for them, and their rows of a report.
#![tactic(auto)]

ghost use Rattle.std.specs.Prelude.{◌≡◌, ◌+◌, ◌≤◌, ◌<◌, length};
ghost use Rattle.word.specs.Number.{bytes_in};
ghost use Rattle.format.specs.Layout.{symbol_length};
ghost use Rattle.symbol.specs.Entry.{OpenTables, entry_start};
ghost use Rattle.mend.specs.Mend.{without_visibility};
ghost use Rattle.mend.specs.Entry.{refusals_of, put_if, mend_by};

use format::SymbolIndex;
use symbol::{SymbolEntry, Tables};
use word::Field;

// Which checks refuse an entry.
#[derive(Clone, Copy)]
pub struct EntryRefusals {
    pub aux: bool,
    pub scnum: bool,
    pub name: bool,
    pub visibility: bool,
}

// Every check of the entry `e` at the index `i`, whatever the others say.
pub fn refusals_of(file: &[u8], t: Tables, i: SymbolIndex, e: SymbolEntry) -> EntryRefusals
    requires { OpenTables file.now t × (i.0 < t.count) }
    ensures { result ≡ refusals_of file.now t i e }
{
    let name = e.name;
    EntryRefusals {
        aux: word::ends_past(i.0 + 1, e.numaux, t.count),
        scnum: !symbol::is_section(t.nscns, e.scnum),
        name: !symbol::has_name(file, t, e.sclass, name),
        visibility: visibility::is_unknown(t.version2, e.sclass, e.ntype),
    }
}

// Sets the field `f` of what starts at `base`, where the test holds.
fn put_if(s: &mut [u8], on: bool, base: usize, f: Field, v: u64)
    requires { base + f.offset + bytes_in f.width ≤ length s.old }
    ensures { s.new ≡ put_if on base f v s.old }
{
    if on {
        file_copy::put_number(s, base, f, v);
    }
}

// A type with visibility none: bits 7000 hex are cleared, and no other.
fn without_visibility(ntype: u64) -> u64
    ensures { result ≡ without_visibility ntype }
{
    ntype - ntype / 0x1000 % 8 * 0x1000
}

// Sets the fields of the entry at the index `i` whose checks refuse it: `e` is what it held.
pub fn mend_entry(copy: &mut [u8], t: Tables, i: SymbolIndex, e: SymbolEntry, r: EntryRefusals)
    requires { (entry_start t i.0 + symbol_length ≤ length copy.old) × (i.0 < t.count) }
    ensures { copy.new ≡ mend_by t i e r copy.old }
{
    let f = t.format;
    let l = format::symbol_layout(f);
    let numaux = l.numaux;
    let scnum = l.scnum;
    let offset = l.offset;
    let ntype = l.ntype;
    let start = t.start;
    let base = (start.0 + i.0 * format::SYMBOL_LENGTH) as usize;
    let left = t.count - (i.0 + 1);
    put_if(copy, r.aux, base, numaux, left);
    put_if(copy, r.scnum, base, scnum, 0);
    put_if(copy, r.name, base, offset, 0);
    put_if(copy, r.visibility, base, ntype, without_visibility(e.ntype));
}
