// Plans for an object file: the addresses of its sections by section number, which shifts are made of, and whether a plan is accepted.
#![tactic(auto)]

ghost use Rattle.std.specs.Prelude.{◌≡◌, cond, not, ◌&&◌, ◌+◌, ◌≤◌, ltb, leb, length};
ghost use Rattle.section_kind.specs.Kind.{is_placed_kind};
ghost use Rattle.format.specs.Limit.{section_limit};
ghost use Rattle.object_history.specs.Object.{list_check, fit_check};
ghost use Rattle.object_shifts.specs.Places.{places_of, recorded_of, planned_by};

use format::SectionNumber;
use header::Summary;
use refusal::{PlanItem, Refusal, RoomItem};
use section::Section;
use section_kind::SectionKind;

// ---- the addresses by section number

// The address, or 0 where sections of this kind have no place in a plan.
fn placed_address(k: SectionKind, a: u64) -> u64
    ensures { result ≡ cond (is_placed_kind k) a 0 }
{
    if k.is_placed() {
        return a;
    }
    0
}

// A plan's addresses.
pub fn plan_places(y: Summary, p: &[u64]) -> [u64; 33]
    requires { (y.count ≤ section_limit) × (length p.now ≡ y.count) }
    ensures { result ≡ places_of y p.now }
{
    let sections = y.sections;
    let mut out = [0u64; 33];
    for (k, a) in p.iter().enumerate() {
        let s = sections[k];
        let kind = s.kind;
        out[k + 1] = placed_address(kind, *a);
    }
    out
}

// The recorded addresses.
pub fn recorded_places(y: Summary) -> [u64; 33]
    requires { y.count ≤ section_limit }
    ensures { result ≡ recorded_of y }
{
    let sections = y.sections;
    let mut out = [0u64; 33];
    for k in 0..y.count as usize {
        let s = sections[k];
        let kind = s.kind;
        let address = s.vaddr;
        out[k + 1] = placed_address(kind, address.0);
    }
    out
}

// ---- which plans are accepted

// ROOM 2: a list of exactly as many addresses as sections.
pub fn check_list(y: Summary, p: &[u64]) -> Result<(), Refusal>
    ensures { result ≡ list_check (planned_by y) p.now }
{
    if p.len() as u64 == y.count {
        return Ok(());
    }
    Err(Refusal::Room(RoomItem::AddressList))
}

// Whether `a` is an address up to `last`, and `size` bytes from it end there or before.
fn fits_up_to(last: u64, a: u64, size: u64) -> bool
    ensures { result ≡ (ltb a (last + 1) && leb (a + size) (last + 1)) }
{
    if last < a {
        return false;
    }
    if size == 0 {
        return true;
    }
    size - 1 <= last - a
}

// Whether PLAN refuses an address for a section.
fn refuses_address(last: u64, s: Section, a: u64) -> bool
    ensures { result ≡ (is_placed_kind s.kind && not (ltb a (last + 1) && leb (a + s.size) (last + 1))) }
{
    let kind = s.kind;
    if !kind.is_placed() {
        return false;
    }
    !fits_up_to(last, a, s.size)
}

// PLAN of the first section that does not fit.
pub fn check_fit(y: Summary, p: &[u64]) -> Result<(), Refusal>
    requires { (y.count ≤ section_limit) × (length p.now ≡ y.count) }
    ensures { result ≡ fit_check (planned_by y) p.now }
{
    let f = y.format;
    let last = format::last_address(f);
    let sections = y.sections;
    for (k, a) in p.iter().enumerate() {
        let s = sections[k];
        if refuses_address(last.0, s, *a) {
            let number = SectionNumber(k as u64 + 1);
            return Err(Refusal::Plan(PlanItem::SectionAddress(number)));
        }
    }
    Ok(())
}
