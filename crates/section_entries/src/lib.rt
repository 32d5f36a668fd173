// A section's own relocation entries judged in order: LREL, OVERLAP.
#![tactic(auto)]

ghost use Rattle.std.specs.Prelude.{◌≡◌};
ghost use Rattle.object_entry.specs.Entry.{own_at};
ghost use Rattle.section_entries.specs.Entries.{entries_check, FirstRefused, verdict_at, EntriesReady};

use refusal::Refusal;
use section_relocation::ObjectSection;
use symbol::Tables;

// The first entry that LREL refuses and its refusal, or how many entries there are. Not an `Option`: the number is needed in both cases.
#[derive(Clone, Copy)]
struct OwnAnswer {
    first: u64,
    verdict: Result<(), Refusal>,
}

fn first_refused(file: &[u8], t: Tables, s: ObjectSection) -> OwnAnswer
    requires { EntriesReady file.now t s }
    ensures first { FirstRefused (own_at file.now t s) s.count result.first }
    ensures verdict { result.verdict ≡ verdict_at (own_at file.now t s) s.count result.first }
{
    let n = s.count;
    for i in 0..n {
        let v = object_entry::check_own(file, t, s, i);
        if v.is_err() {
            return OwnAnswer {
                first: i,
                verdict: v,
            };
        }
    }
    OwnAnswer {
        first: n,
        verdict: Ok(()),
    }
}

// The entries in order: an OVERLAP before the first entry that is refused by itself comes before that refusal.
pub fn check_entries(file: &[u8], t: Tables, s: ObjectSection) -> Result<(), Refusal>
    requires { EntriesReady file.now t s }
    ensures { result ≡ entries_check file.now t s }
{
    let own = first_refused(file, t, s);
    let k = own.first;
    let f = t.format;
    let x = section_overlap::first_overlap(file, f, s, k);
    if x < k {
        return Err(Refusal::SectionOverlap(section_relocation::name_of(s, x)));
    }
    own.verdict
}
