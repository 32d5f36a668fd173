// What text, data and bss move by in a plan, and the entry and TOC addresses there.
#![tactic(auto)]

ghost use Rattle.std.specs.Prelude.{◌≡◌, ◌+◌, ◌-◌, ◌%◌, pos, ◌-ℤ◌};
ghost use Rattle.format.specs.Layout.{address_limit};
ghost use Rattle.apply.specs.Shift.{Displaced};
ghost use Rattle.displacement.specs.Reach.{present, address_of, IsMoved, IsReached};

use format::{Format, VirtualAddress};
use history::Reached;
use loadable::Loadable;
use module::Anchor;

// A plan's text and data addresses.
#[derive(Clone, Copy)]
pub struct Addresses {
    pub text: VirtualAddress,
    pub data: VirtualAddress,
}

// What text, data and bss move by from one plan to another. Bss moves with data.
pub fn differences(from: Addresses, to: Addresses) -> [u64; 3]
    ensures { Displaced result (pos to.text.0 -ℤ pos from.text.0) (pos to.«data».0 -ℤ pos from.«data».0) }
{
    let text = from.text;
    let data = from.data;
    let new_text = to.text;
    let new_data = to.data;
    let t = std::num::wrapping_sub_u64(new_text.0, text.0);
    let d = std::num::wrapping_sub_u64(new_data.0, data.0);
    [t, d, d]
}

// What they move by from their recorded addresses.
pub fn displacements(at: Addresses, l: Loadable) -> [u64; 3]
    ensures { Displaced result (pos at.text.0 -ℤ pos l.layout.parts.text.address.0) (pos at.«data».0 -ℤ pos l.layout.parts.«data».address.0) }
{
    let m = l.layout;
    let p = m.parts;
    let t = p.text;
    let d = p.data;
    let text = t.address;
    let data = d.address;
    differences(Addresses { text, data }, at)
}

// ---- the answer

// The sum of an address and a displacement, which drops at 2^32 or 2^64.
pub fn add_address(f: Format, a: u64, d: u64) -> u64
    ensures { result ≡ (a + d) % address_limit f }
{
    let sum = std::num::wrapping_add_u64(a, d);
    match f {
        Format::Xcoff32 => sum % 4294967296,
        Format::Xcoff64 => sum,
    }
}

// The entry point or the TOC anchor moved with its section. Section 0 means that there is none.
fn move_anchor(l: Loadable, a: Anchor, at: Addresses) -> Option<VirtualAddress>
    ensures { IsMoved l a at result }
{
    let m = l.layout;
    let p = m.parts;
    let f = m.format;
    let text = p.text;
    let number = text.number;
    let section = a.section;
    let address = a.address;
    if section.0 == 0 {
        return None;
    }
    let d = displacements(at, l);
    if section.0 == number.0 {
        return Some(VirtualAddress(add_address(f, address.0, d[0])));
    }
    Some(VirtualAddress(add_address(f, address.0, d[1])))
}

// The entry and TOC addresses in a plan.
pub fn reach(l: Loadable, at: Addresses) -> Reached
    ensures { IsReached l at result }
{
    let m = l.layout;
    let entry = m.entry;
    let toc = m.toc;
    Reached {
        entry: move_anchor(l, entry, at),
        toc: move_anchor(l, toc, at),
    }
}

// 1 where there is such an address, else 0.
pub fn is_present(a: Option<VirtualAddress>) -> u64
    ensures { result ≡ present a }
{
    match a {
        None => 0,
        Some(_) => 1,
    }
}

// The address, or 0 where there is none.
pub fn address_of(a: Option<VirtualAddress>) -> u64
    ensures { result ≡ address_of a }
{
    match a {
        None => 0,
        Some(v) => v.0,
    }
}
