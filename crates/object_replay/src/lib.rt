// A list of calls of an object file, run: its contract is the book.
#![tactic(auto)]

ghost use Rattle.std.specs.Prelude.{◌≡◌, length};
ghost use Rattle.object_history.specs.Call.{Call, build, move, call_check, effect};
ghost use Rattle.object_history.specs.Book.{book_images, book_after};
ghost use Rattle.object_plan.specs.Object.{object_of};
ghost use Rattle.object_replay.specs.Script.{plan_end, plan_at, call_end, call_at, calls_of};
ghost use Rattle.object_replay.specs.Answer.{replay_answer, report_of_replay};

use refusal::{Head, Refusal};

// How many calls were run, how many of them were accepted, and the last one's verdict.
#[derive(Clone, Copy)]
pub struct ObjectReplay {
    pub calls: u64,
    pub accepted: u64,
    pub last: Result<(), Refusal>,
}

// The last call's head, and the counts.
#[repr(C)]
#[derive(Clone, Copy)]
pub struct ObjectReplayReport {
    pub head: Head,
    pub calls: u64,
    pub accepted: u64,
}

// ---- the script

// The plan at a place.
fn plan_at<'a>(s: &'a [u64], at: usize) -> &'a [u64]
    requires { plan_end s.now at ≡ 0 → ⊥ }
    ensures { result.now ≡ plan_at s.now at }
{
    let end = script::plan_end::<0>(s, at);
    &s[at + 1..end]
}

// ---- its calls

// Builds for the plan at a place.
fn do_build(file: &[u8], s: &[u64], at: usize, buffer: &mut [u8]) -> Result<(), Refusal>
    requires { plan_end s.now at ≡ 0 → ⊥ }
    ensures cause { result ≡ call_check (object_of file.now) (length buffer.old) buffer.old (build (plan_at s.now at)) }
    ensures image { buffer.new ≡ effect (object_of file.now) (build (plan_at s.now at)) buffer.old }
{
    let plan = plan_at(s, at);
    object_image::build_object(file, plan, buffer)
}

// Moves from the plan at a place to the one after it.
fn do_move(file: &[u8], s: &[u64], at: usize, buffer: &mut [u8]) -> Result<(), Refusal>
    requires { (plan_end s.now at ≡ 0 → ⊥) × (plan_end s.now (plan_end s.now at) ≡ 0 → ⊥) }
    ensures cause { result ≡ call_check (object_of file.now) (length buffer.old) buffer.old (move (plan_at s.now at) (plan_at s.now (plan_end s.now at))) }
    ensures image { buffer.new ≡ effect (object_of file.now) (move (plan_at s.now at) (plan_at s.now (plan_end s.now at))) buffer.old }
{
    let next = script::plan_end::<0>(s, at);
    let from = plan_at(s, at);
    let to = plan_at(s, next);
    object_image::move_object(file, from, to, buffer)
}

// Makes the call at a place.
fn answer_call(file: &[u8], s: &[u64], at: usize, buffer: &mut [u8]) -> Result<(), Refusal>
    requires { call_end s.now at ≡ 0 → ⊥ }
    ensures cause { result ≡ call_check (object_of file.now) (length buffer.old) buffer.old (call_at s.now at) }
    ensures image { buffer.new ≡ effect (object_of file.now) (call_at s.now at) buffer.old }
{
    if s[at] == 0 {
        return do_build(file, s, at + 1, buffer);
    }
    do_move(file, s, at + 1, buffer)
}

// ---- the list

// Runs the calls that `script` encodes on the buffer; a call that is refused changes nothing and does not end the list.
pub fn replay_object(file: &[u8], script: &[u64], buffer: &mut [u8]) -> ObjectReplay
    ensures cause { result ≡ replay_answer (object_of file.now) (calls_of script.now) buffer.old }
    ensures report { report_of_replay file.now result ≡ report_of_replay file.now (replay_answer (object_of file.now) (calls_of script.now) buffer.old) }
    ensures image { buffer.new ≡ book_images (object_of file.now) (book_after (object_of file.now) (calls_of script.now) buffer.old) }
{
    let mut last = Ok(());
    let mut calls: u64 = 0;
    let mut accepted: u64 = 0;
    let mut at: usize = 0;
    while at < script.len() {
        let end = script::call_end::<0>(script, at);
        if end == 0 {
            return ObjectReplay {
                calls,
                accepted,
                last,
            };
        }
        last = answer_call(file, script, at, buffer);
        calls += 1;
        accepted += script::accepted_one(&last);
        at = end;
    }
    ObjectReplay {
        calls,
        accepted,
        last,
    }
}

pub fn report_object_replay(file: &[u8], a: ObjectReplay) -> ObjectReplayReport
    ensures { result ≡ report_of_replay file.now a }
{
    let v = a.last;
    ObjectReplayReport {
        head: offset::report_head(file, v),
        calls: a.calls,
        accepted: a.accepted,
    }
}
