// Object files built for a plan, and moved from one plan to another, in one buffer.
#![tactic(auto)]

ghost use Rattle.std.specs.Prelude.{◌≡◌, length};
ghost use Rattle.refusal.specs.Order.{◌or_else◌};
ghost use Rattle.offset.specs.Report.{report_head};
ghost use Rattle.object_history.specs.Object.{list_check, fit_check};
ghost use Rattle.object_history.specs.Call.{Call, build, move, room_check, call_check, effect};
ghost use Rattle.object_plan.specs.Object.{object_of};
ghost use Rattle.object_plan.specs.Ready.{ObjectReady};

use header::Summary;
use refusal::{Refusal, RoomItem};
use symbol::Tables;

// ---- the checks before RANGE, in their order

// ROOM 0: the buffer takes exactly the bytes of the text and data sections.
fn check_room(file: &[u8], y: Summary, t: Tables, size: u64) -> Result<(), Refusal>
    requires { ObjectReady file.now y t }
    ensures { result ≡ room_check (object_of file.now) size }
{
    let m = object::measure(file, y, t);
    if size == m.length {
        return Ok(());
    }
    Err(Refusal::Room(RoomItem::ObjectBuffer))
}

// A build's list, its plan, the buffer.
fn check_plan(file: &[u8], y: Summary, t: Tables, plan: &[u64], size: u64) -> Result<(), Refusal>
    requires { ObjectReady file.now y t }
    ensures { result ≡ (list_check (object_of file.now) plan.now or_else fit_check (object_of file.now) plan.now or_else room_check (object_of file.now) size) }
{
    object_shifts::check_list(y, plan)?;
    object_shifts::check_fit(y, plan)?;
    check_room(file, y, t, size)
}

// A move's two lists, its plans, the buffer.
fn check_plans(
    file: &[u8],
    y: Summary,
    t: Tables,
    from: &[u64],
    to: &[u64],
    size: u64,
) -> Result<(), Refusal>
    requires { ObjectReady file.now y t }
    ensures { result ≡ (list_check (object_of file.now) from.now or_else list_check (object_of file.now) to.now or_else fit_check (object_of file.now) from.now or_else fit_check (object_of file.now) to.now or_else room_check (object_of file.now) size) }
{
    object_shifts::check_list(y, from)?;
    object_shifts::check_list(y, to)?;
    object_shifts::check_fit(y, from)?;
    object_shifts::check_fit(y, to)?;
    check_room(file, y, t, size)
}

// ---- builds and moves

// A build of an object file that is accepted.
fn build_ready(
    file: &[u8],
    y: Summary,
    t: Tables,
    plan: &[u64],
    buffer: &mut [u8],
) -> Result<(), Refusal>
    requires { ObjectReady file.now y t }
    ensures cause { result ≡ call_check (object_of file.now) (length buffer.old) buffer.old (build plan.now) }
    ensures image { buffer.new ≡ effect (object_of file.now) (build plan.now) buffer.old }
{
    check_plan(file, y, t, plan, buffer.len() as u64)?;
    let to = object_shifts::plan_places(y, plan);
    let from = object_shifts::recorded_places(y);
    object_range::check_built(file, y, t, &to, &from)?;
    object_raw::copy_raw(file, y, t, buffer);
    object_apply::apply_entries(file, y, t, &to, &from, buffer);
    Ok(())
}

// A move of an object file that is accepted.
fn move_ready(
    file: &[u8],
    y: Summary,
    t: Tables,
    from: &[u64],
    to: &[u64],
    buffer: &mut [u8],
) -> Result<(), Refusal>
    requires { ObjectReady file.now y t }
    ensures cause { result ≡ call_check (object_of file.now) (length buffer.old) buffer.old (move from.now to.now) }
    ensures image { buffer.new ≡ effect (object_of file.now) (move from.now to.now) buffer.old }
{
    check_plans(file, y, t, from, to, buffer.len() as u64)?;
    let new = object_shifts::plan_places(y, to);
    let old = object_shifts::plan_places(y, from);
    object_range::check_moved(file, y, t, &new, &old, buffer)?;
    object_apply::apply_entries(file, y, t, &new, &old, buffer);
    Ok(())
}

// Builds the object file in `file` for a plan, a list with an address for each section.
pub fn build_object(file: &[u8], plan: &[u64], buffer: &mut [u8]) -> Result<(), Refusal>
    ensures cause { result ≡ call_check (object_of file.now) (length buffer.old) buffer.old (build plan.now) }
    ensures report { report_head file.now result ≡ report_head file.now (call_check (object_of file.now) (length buffer.old) buffer.old (build plan.now)) }
    ensures image { buffer.new ≡ effect (object_of file.now) (build plan.now) buffer.old }
{
    let o = header::open(file);
    o.verdict?;
    let y = o.summary;
    let t = symbol::tables_of(file, y);
    object::check_object(file, y, t)?;
    build_ready(file, y, t, plan, buffer)
}

// Moves it from one plan to another, taking the buffer as it is.
pub fn move_object(file: &[u8], from: &[u64], to: &[u64], buffer: &mut [u8]) -> Result<(), Refusal>
    ensures cause { result ≡ call_check (object_of file.now) (length buffer.old) buffer.old (move from.now to.now) }
    ensures report { report_head file.now result ≡ report_head file.now (call_check (object_of file.now) (length buffer.old) buffer.old (move from.now to.now)) }
    ensures image { buffer.new ≡ effect (object_of file.now) (move from.now to.now) buffer.old }
{
    let o = header::open(file);
    o.verdict?;
    let y = o.summary;
    let t = symbol::tables_of(file, y);
    object::check_object(file, y, t)?;
    move_ready(file, y, t, from, to, buffer)
}
