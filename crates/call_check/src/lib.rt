// Which builds and moves are accepted: ROOM 2, PLAN, ROOM 0 and 1, in their order.
#![tactic(auto)]

ghost use Rattle.std.specs.Prelude.{◌≡◌, ◌-◌, length};
ghost use Rattle.loadable.specs.Valid.{Valid};
ghost use Rattle.refusal.specs.Order.{◌or_else◌};
ghost use Rattle.history.specs.Plan.{list_room, fit_check, plan_check};
ghost use Rattle.history.specs.Call.{Call, build, move, buffer_room, call_check};
ghost use Rattle.plan.specs.Relocatable.{relocatable_of};
ghost use Rattle.displacement.specs.Reach.{plan_of};

use displacement::Addresses;
use loadable::Loadable;
use refusal::{Refusal, RoomItem};

// ROOM 2, then PLAN: a plan for a module that is accepted.
pub fn check_plan(file: &[u8], l: Loadable, at: Addresses, imports: &[u64]) -> Result<(), Refusal>
    requires { Valid file.now l }
    ensures { result ≡ plan_check (relocatable_of file.now l) (plan_of at imports.now) }
{
    plan::check_list(l, imports)?;
    let text = at.text;
    let data = at.data;
    plan_fit::check_fit(file, l, text.0, data.0, imports)
}

// ROOM 0 and 1: buffers of exactly the images' lengths.
pub fn check_room(l: Loadable, text: usize, data: usize) -> Result<(), Refusal>
    ensures { result ≡ buffer_room l.layout.parts.text.size l.layout.image text «data» }
{
    let m = l.layout;
    let p = m.parts;
    let section = p.text;
    if text as u64 != section.size {
        return Err(Refusal::Room(RoomItem::TextBuffer));
    }
    if data as u64 != m.image {
        return Err(Refusal::Room(RoomItem::DataBuffer));
    }
    Ok(())
}

// A build's plan, then the buffers' lengths.
pub fn check_build(
    file: &[u8],
    l: Loadable,
    at: Addresses,
    imports: &[u64],
    text: usize,
    data: usize,
) -> Result<(), Refusal>
    requires { Valid file.now l }
    ensures { result ≡ call_check (relocatable_of file.now l) text «data» (build (plan_of at imports.now)) }
{
    check_plan(file, l, at, imports)?;
    check_room(l, text, data)
}

// ROOM 2 of a move: the from plan's list, then the to plan's.
fn check_lists(l: Loadable, from_imports: &[u64], to_imports: &[u64]) -> Result<(), Refusal>
    ensures { result ≡ (list_room l.tables.nsyms (length from_imports.now) or_else list_room l.tables.nsyms (length to_imports.now)) }
{
    plan::check_list(l, from_imports)?;
    plan::check_list(l, to_imports)
}

// PLAN of a move: the from plan, then the to plan.
fn check_fits(
    file: &[u8],
    l: Loadable,
    from: Addresses,
    from_imports: &[u64],
    to: Addresses,
    to_imports: &[u64],
) -> Result<(), Refusal>
    requires valid { Valid file.now l }
    requires from_imports_len { (length from_imports.now ≡ l.tables.nsyms) × (length to_imports.now ≡ l.tables.nsyms) }
    ensures { result ≡ (fit_check (relocatable_of file.now l) (plan_of from from_imports.now) or_else fit_check (relocatable_of file.now l) (plan_of to to_imports.now)) }
{
    let ft = from.text;
    let fd = from.data;
    let tt = to.text;
    let td = to.data;
    plan_fit::check_fit(file, l, ft.0, fd.0, from_imports)?;
    plan_fit::check_fit(file, l, tt.0, td.0, to_imports)
}

// A move's lists, its plans, then the buffers' lengths.
pub fn check_move(
    file: &[u8],
    l: Loadable,
    from: Addresses,
    from_imports: &[u64],
    to: Addresses,
    to_imports: &[u64],
    text: usize,
    data: usize,
) -> Result<(), Refusal>
    requires { Valid file.now l }
    ensures { result ≡ call_check (relocatable_of file.now l) text «data» (move (plan_of from from_imports.now) (plan_of to to_imports.now)) }
{
    check_lists(l, from_imports, to_imports)?;
    check_fits(file, l, from, from_imports, to, to_imports)?;
    check_room(l, text, data)
}
