// A list of builds and moves, run call by call.
#![tactic(auto)]

ghost use Rattle.std.specs.Prelude.{◌≡◌, ◌+◌, length};
ghost use Rattle.history.specs.Images.{images};
ghost use Rattle.history.specs.Call.{build, move, answer_of, effect};
ghost use Rattle.history.specs.Book.{book_images, book_after};
ghost use Rattle.plan.specs.Relocatable.{relocatable_at};
ghost use Rattle.replay.specs.Script.{plan_end, plan_at, call_end, call_at, calls_of};
ghost use Rattle.replay.specs.Answer.{replay_answer, report_of_replay};

use history::Reached;
use refusal::Refusal;
use replay::ReplayAnswer;

// Builds for the plan at a place.
fn do_build(
    file: &[u8],
    s: &[u64],
    at: usize,
    text: &mut [u8],
    data: &mut [u8],
) -> Result<Reached, Refusal>
    requires { plan_end s.now at ≡ 0 → ⊥ }
    ensures cause { result ≡ answer_of (relocatable_at file.now) (length text.old) (length «data».old) (build (plan_at s.now at)) }
    ensures images { images text.new «data».new ≡ effect (relocatable_at file.now) (build (plan_at s.now at)) (images text.old «data».old) }
{
    let addresses = replay::addresses_at(s, at);
    let imports = replay::imports_at(s, at);
    module_images::build_images(file, addresses, imports, text, data)
}

// Moves from the plan at a place to the one after it.
fn do_move(
    file: &[u8],
    s: &[u64],
    at: usize,
    text: &mut [u8],
    data: &mut [u8],
) -> Result<Reached, Refusal>
    requires { (plan_end s.now at ≡ 0 → ⊥) × (plan_end s.now (plan_end s.now at) ≡ 0 → ⊥) }
    ensures cause { result ≡ answer_of (relocatable_at file.now) (length text.old) (length «data».old) (move (plan_at s.now at) (plan_at s.now (plan_end s.now at))) }
    ensures images { images text.new «data».new ≡ effect (relocatable_at file.now) (move (plan_at s.now at) (plan_at s.now (plan_end s.now at))) (images text.old «data».old) }
{
    let next = script::plan_end::<2>(s, at);
    let from = replay::addresses_at(s, at);
    let from_imports = replay::imports_at(s, at);
    let to = replay::addresses_at(s, next);
    let to_imports = replay::imports_at(s, next);
    module_images::move_images(file, from, from_imports, to, to_imports, text, data)
}

// Makes the call at a place.
fn answer_call(
    file: &[u8],
    s: &[u64],
    at: usize,
    text: &mut [u8],
    data: &mut [u8],
) -> Result<Reached, Refusal>
    requires { call_end s.now at ≡ 0 → ⊥ }
    ensures cause { result ≡ answer_of (relocatable_at file.now) (length text.old) (length «data».old) (call_at s.now at) }
    ensures images { images text.new «data».new ≡ effect (relocatable_at file.now) (call_at s.now at) (images text.old «data».old) }
{
    if s[at] == 0 {
        return do_build(file, s, at + 1, text, data);
    }
    do_move(file, s, at + 1, text, data)
}

// Runs the calls that `script` encodes on the two buffers; a call that is refused changes nothing and does not end the list. Where no call was run
// the last answer is a blank one.
pub fn replay(file: &[u8], script: &[u64], text: &mut [u8], data: &mut [u8]) -> ReplayAnswer
    ensures cause { result ≡ replay_answer (relocatable_at file.now) (calls_of script.now) (images text.old «data».old) }
    ensures report { report_of_replay file.now result ≡ report_of_replay file.now (replay_answer (relocatable_at file.now) (calls_of script.now) (images text.old «data».old)) }
    ensures images { images text.new «data».new ≡ book_images (relocatable_at file.now) (book_after (relocatable_at file.now) (calls_of script.now) (images text.old «data».old)) }
{
    let blank = Reached {
        entry: None,
        toc: None,
    };
    let mut last = Ok(blank);
    let mut calls: u64 = 0;
    let mut accepted: u64 = 0;
    let mut at: usize = 0;
    while at < script.len() {
        let end = script::call_end::<2>(script, at);
        if end == 0 {
            return ReplayAnswer {
                calls,
                accepted,
                last,
            };
        }
        last = answer_call(file, script, at, text, data);
        calls += 1;
        accepted += script::accepted_one(&last);
        at = end;
    }
    ReplayAnswer {
        calls,
        accepted,
        last,
    }
}
