// PLAN: whether the images fit at a plan's addresses, and its imports' addresses in their fields.
#![tactic(auto)]

ghost use Rattle.std.specs.Prelude.{◌≡◌, ◌+◌, ◌<◌, length};
ghost use Rattle.format.specs.Layout.{address_limit};
ghost use Rattle.refusal.specs.Refusal.{is_refused};
ghost use Rattle.refusal.specs.Order.{first_of};
ghost use Rattle.loadable.specs.Valid.{Valid};
ghost use Rattle.history.specs.Plan.{Plan, fits, import_check, fit_check};
ghost use Rattle.plan.specs.Relocatable.{relocatable_of};

use history::Followed;
use loadable::Loadable;
use refusal::{PlanItem, Refusal};

// Whether `a` is an address up to `last`, and `size` bytes from it end there or before.
fn fits_up_to(last: u64, a: u64, size: u64) -> bool
    ensures { result ≡ fits (last + 1) a size }
{
    if last < a {
        return false;
    }
    if size == 0 {
        return true;
    }
    size - 1 <= last - a
}

// Whether PLAN refuses the list's address for the loader symbol with place `k`. The symbol is read only where its address is above `last`, the
// format's last one.
fn refuses_import(file: &[u8], l: Loadable, last: u64, list: &[u64], k: u64) -> bool
    requires valid { Valid file.now l × (length list.now ≡ l.tables.nsyms) × (k < l.tables.nsyms) }
    requires last_value { last + 1 ≡ address_limit l.layout.format }
    ensures { result ≡ is_refused (import_check (relocatable_of file.now l) list.now k) }
{
    if list[k as usize] <= last {
        return false;
    }
    let m = l.layout;
    let t = l.tables;
    let format = m.format;
    let start = t.symbols;
    let p = m.parts;
    let text = p.text;
    let number = text.number;
    let f = plan::followed_at(file, format, start, number, k);
    match f {
        Followed::Text => false,
        Followed::Data => false,
        Followed::Import(_, _) => true,
        Followed::Nothing => false,
    }
}

// PLAN of the lowest import.
fn check_imports(file: &[u8], l: Loadable, last: u64, list: &[u64]) -> Result<(), Refusal>
    requires valid { Valid file.now l × (length list.now ≡ l.tables.nsyms) }
    requires last_value { last + 1 ≡ address_limit l.layout.format }
    ensures { result ≡ first_of (import_check (relocatable_of file.now l) list.now) 0 l.tables.nsyms }
{
    let t = l.tables;
    for k in 0..t.nsyms {
        if refuses_import(file, l, last, list, k) {
            return Err(Refusal::Plan(PlanItem::ImportAddress(k + 3)));
        }
    }
    Ok(())
}

// PLAN: the text and data images' ends, then the lowest import. The data image counts the gap before bss and bss.
pub fn check_fit(
    file: &[u8],
    l: Loadable,
    text: u64,
    data: u64,
    list: &[u64],
) -> Result<(), Refusal>
    requires { Valid file.now l × (length list.now ≡ l.tables.nsyms) }
    ensures { result ≡ fit_check (relocatable_of file.now l) (record { text = text; dat = «data»; list = list.now }) }
{
    let m = l.layout;
    let p = m.parts;
    let section = p.text;
    let f = m.format;
    let last = format::last_address(f);
    if !fits_up_to(last.0, text, section.size) {
        return Err(Refusal::Plan(PlanItem::TextAddress));
    }
    if !fits_up_to(last.0, data, m.image) {
        return Err(Refusal::Plan(PlanItem::DataAddress));
    }
    check_imports(file, l, last.0, list)
}
