// Lists of calls as numbers, whatever a plan is: what a script holds, and what running it answers and leaves. Definitions and theorems; where
// plans and calls end, and what one call counts.
#![tactic(auto)]

ghost use Rattle.std.specs.Prelude.{◌≡◌};
ghost use Rattle.script.specs.Script.{plan_end, call_end};
ghost use Rattle.script.specs.Tally.{accepted_one};

// Where the plan at a place ends, with HEAD numbers before its count. 0 where it is cut short.
pub fn plan_end<const HEAD: usize>(s: &[u64], at: usize) -> usize
    ensures { result ≡ plan_end HEAD s.now at }
{
    let len = s.len();
    if len < at {
        return 0;
    }
    if len - at <= HEAD {
        return 0;
    }
    let n = s[at + HEAD] as usize;
    if len - (at + HEAD + 1) < n {
        return 0;
    }
    at + HEAD + 1 + n
}

// Where the call at a place ends. 0 where there is none.
pub fn call_end<const HEAD: usize>(s: &[u64], at: usize) -> usize
    ensures { result ≡ call_end (plan_end HEAD) s.now at }
{
    if s.len() <= at {
        return 0;
    }
    let a = plan_end::<HEAD>(s, at + 1);
    if s[at] == 0 {
        return a;
    }
    if a == 0 {
        return 0;
    }
    plan_end::<HEAD>(s, a)
}

// 1 of an accepted call, 0 of a refused one.
pub fn accepted_one<T, E>(a: &Result<T, E>) -> u64
    ensures { result ≡ accepted_one a.now }
{
    match a {
        Ok(_r) => 1,
        Err(_x) => 0,
    }
}
