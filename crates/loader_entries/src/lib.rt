// A module's relocation entries judged in order: each by itself, then whether its field meets one before.
#![tactic(auto)]

ghost use Rattle.std.specs.Prelude.{◌≡◌};
ghost use Rattle.relocation.specs.Relocation.{own_at};
ghost use Rattle.loader_entries.specs.Entries.{entries_check, FirstRefused, verdict_at, EntriesReady};

use format::Format;
use loader_header::LoaderTables;
use parts::Parts;
use refusal::{LoaderRelocation, Refusal};

// The first entry that THREAD or LREL refuses and its refusal, or how many entries there are. Not an `Option`: the number is needed in both cases.
#[derive(Clone, Copy)]
pub struct OwnAnswer {
    pub first: u64,
    pub verdict: Result<(), Refusal>,
}

fn first_refused(file: &[u8], f: Format, p: Parts, t: LoaderTables) -> OwnAnswer
    requires { EntriesReady file.now f p t }
    ensures first { FirstRefused (own_at file.now f p t) t.nreloc result.first }
    ensures verdict { result.verdict ≡ verdict_at (own_at file.now f p t) t.nreloc result.first }
{
    let n = t.nreloc;
    for i in 0..n {
        let v = relocation::check_own(file, f, p, t, i);
        if v.is_err() {
            return OwnAnswer {
                first: i,
                verdict: v,
            };
        }
    }
    OwnAnswer {
        first: n,
        verdict: Ok(()),
    }
}

// The entries in order: an OVERLAP before the first entry that is refused by itself comes before that refusal.
pub fn check_entries(file: &[u8], f: Format, p: Parts, t: LoaderTables) -> Result<(), Refusal>
    requires { EntriesReady file.now f p t }
    ensures { result ≡ entries_check file.now f p t }
{
    let own = first_refused(file, f, p, t);
    let k = own.first;
    let x = overlap::first_overlap(file, f, p, t, k);
    if x < k {
        return Err(Refusal::Overlap(LoaderRelocation(x)));
    }
    own.verdict
}
