// A copy of a file in which the walk over the symbol table no longer stops, and a report of what was changed.
#![tactic(auto)]

ghost use Rattle.std.specs.Prelude.{◌≡◌, ◌*◌, ◌≤◌};
ghost use Rattle.salvage.specs.Answer.{room_check, report_of_count};

use refusal::{Head, LimitItem, Refusal, RoomItem};

#[repr(C)]
#[derive(Clone, Copy)]
pub struct CountReport {
    pub head: Head,
    pub count: u64,
}

// ROOM 0 for the copy, LIMIT item 5 for the report.
pub fn check_room(len: u64, count: u64, copy: u64, report: u64) -> Result<(), Refusal>
    requires { count ≤ 4294967296 }
    ensures { result ≡ room_check len count copy report }
{
    if copy != len {
        return Err(Refusal::Room(RoomItem::FileBuffer));
    }
    if report < 8 * count {
        return Err(Refusal::Limit(LimitItem::SalvageReport));
    }
    Ok(())
}

pub fn report_count(file: &[u8], a: Result<u64, Refusal>) -> CountReport
    ensures { result ≡ report_of_count file.now a }
{
    match a {
        Err(x) => CountReport {
            head: offset::refusal_head(file, x),
            count: 0,
        },
        Ok(n) => CountReport {
            head: refusal::accepted_head(),
            count: n,
        },
    }
}
