// Plans for a module: which address each symbol follows, and whether a plan's addresses fit.
#![tactic(auto)]

ghost use Rattle.std.specs.Prelude.{◌≡◌, ◌+◌, ◌*◌, ◌≤◌, ◌<◌, length};
ghost use Rattle.format.specs.Layout.{loader_symbol_length};
ghost use Rattle.format.specs.Limit.{file_limit};
ghost use Rattle.loadable.specs.Valid.{Valid};
ghost use Rattle.history.specs.Plan.{list_room};
ghost use Rattle.plan.specs.Relocatable.{followed_in, relocation_at};

use format::{FileOffset, Format, SectionNumber};
use history::{Followed, Relocation};
use loadable::Loadable;
use refusal::{Refusal, RoomItem};
use word::Width;

// Which address the loader symbol with place `k` follows, in a table that starts at `start`; `number` is the text section's. It takes the
// few numbers that it needs and no struct, which a loop over the entries would copy at each turn.
pub fn followed_at(
    file: &[u8],
    f: Format,
    start: FileOffset,
    number: SectionNumber,
    k: u64,
) -> Followed
    requires { (start.0 + k * loader_symbol_length + loader_symbol_length ≤ length file.now) × (length file.now ≤ file_limit) }
    ensures { result ≡ followed_in file.now f start number k }
{
    let base = (start.0 + k * format::LOADER_SYMBOL_LENGTH) as usize;
    let fields = format::symbol_layout(f);
    let smtype = word::read_field(file, base, Width::One.at(14));
    if smtype / 64 % 2 == 1 {
        let ifile = word::read_field(file, base, Width::Four.at(16));
        if ifile == 0 {
            return Followed::Nothing;
        }
        let value = fields.value;
        return Followed::Import(k, word::read_field(file, base, value));
    }
    let scnum = fields.scnum;
    if word::read_field(file, base, scnum) == number.0 {
        return Followed::Text;
    }
    Followed::Data
}

// Relocation entry `i` as it is applied.
pub fn relocation_at(file: &[u8], l: Loadable, i: u64) -> Relocation
    requires { Valid file.now l × (i < l.tables.nreloc) }
    ensures { result ≡ relocation_at file.now l i }
{
    let m = l.layout;
    let t = l.tables;
    let f = m.format;
    let p = m.parts;
    let e = relocation::entry_in(file, f, t, i);
    Relocation {
        place: relocation::place_of(p, e),
        minus: e.rtype % 256 == 0x01,
        symbol: e.symbol,
    }
}

// ROOM 2: a list of exactly as many addresses as loader symbols.
pub fn check_list(l: Loadable, list: &[u64]) -> Result<(), Refusal>
    ensures { result ≡ list_room l.tables.nsyms (length list.now) }
{
    let t = l.tables;
    if list.len() as u64 == t.nsyms {
        return Ok(());
    }
    Err(Refusal::Room(RoomItem::AddressList))
}
