// A list of calls, run: its contract is document 01's book.
#![tactic(auto)]

ghost use Rattle.std.specs.Prelude.{◌≡◌, ◌+◌, ◌≤◌, length, get_or};
ghost use Rattle.replay.specs.Script.{plan_end, plan_at};
ghost use Rattle.replay.specs.Answer.{report_of_replay};

use displacement::Addresses;
use format::VirtualAddress;
use history::Reached;
use refusal::{Head, Refusal};

// How many calls were run, how many of them were accepted, and the last one's own answer.
#[derive(Clone, Copy)]
pub struct ReplayAnswer {
    pub calls: u64,
    pub accepted: u64,
    pub last: Result<Reached, Refusal>,
}

// The last call's answer, as `image::CallReport` has it, and the counts.
#[repr(C)]
#[derive(Clone, Copy)]
pub struct ReplayReport {
    pub head: Head,
    pub has_entry: u64,
    pub entry: u64,
    pub has_toc: u64,
    pub toc: u64,
    pub calls: u64,
    pub accepted: u64,
}

// ---- the script

// The addresses of the plan at a place.
pub fn addresses_at(s: &[u64], at: usize) -> Addresses
    requires { at + 2 ≤ length s.now }
    ensures { (result.text.0 ≡ get_or s.now at 0) × (result.«data».0 ≡ get_or s.now (at + 1) 0) }
{
    Addresses {
        text: VirtualAddress(s[at]),
        data: VirtualAddress(s[at + 1]),
    }
}

// The list of the plan at a place.
pub fn imports_at<'a>(s: &'a [u64], at: usize) -> &'a [u64]
    requires { plan_end s.now at ≡ 0 → ⊥ }
    ensures { result.now ≡ (plan_at s.now at).list }
{
    let end = script::plan_end::<2>(s, at);
    &s[at + 3..end]
}

// ---- the list

pub fn report_replay(file: &[u8], a: ReplayAnswer) -> ReplayReport
    ensures { result ≡ report_of_replay file.now a }
{
    let answer = a.last;
    let last = image::report_call(file, answer);
    let head = last.head;
    ReplayReport {
        head,
        has_entry: last.has_entry,
        entry: last.entry,
        has_toc: last.has_toc,
        toc: last.toc,
        calls: a.calls,
        accepted: a.accepted,
    }
}
