// Images built for a plan, and moved from one plan to another.
#![tactic(auto)]

ghost use Rattle.std.specs.Prelude.{◌≡◌, ◌-◌, length};
ghost use Rattle.loadable.specs.Valid.{Valid};
ghost use Rattle.history.specs.Images.{images};
ghost use Rattle.history.specs.Call.{build, move, answer_of, effect};
ghost use Rattle.plan.specs.Relocatable.{relocatable_of};
ghost use Rattle.displacement.specs.Reach.{plan_of};
ghost use Rattle.image.specs.Report.{report_of_call};

use displacement::Addresses;
use history::Reached;
use loadable::Loadable;
use refusal::{Head, Refusal};

// The entry and TOC addresses in the plan that the call reached; `has_entry` and `has_toc` are 1 where there is one.
#[repr(C)]
#[derive(Clone, Copy)]
pub struct CallReport {
    pub head: Head,
    pub has_entry: u64,
    pub entry: u64,
    pub has_toc: u64,
    pub toc: u64,
}

// ---- builds and moves

// A build of a module that is accepted.
pub fn build_valid(
    file: &[u8],
    l: Loadable,
    at: Addresses,
    imports: &[u64],
    text: &mut [u8],
    data: &mut [u8],
) -> Result<Reached, Refusal>
    requires { Valid file.now l }
    ensures cause { result ≡ answer_of (relocatable_of file.now l) (length text.old) (length «data».old) (build (plan_of at imports.now)) }
    ensures images { images text.new «data».new ≡ effect (relocatable_of file.now l) (build (plan_of at imports.now)) (images text.old «data».old) }
{
    call_check::check_build(file, l, at, imports, text.len(), data.len())?;
    raw_image::fill_raw(file, l, text, data);
    let d = displacement::displacements(at, l);
    apply_all::apply_all(file, l, d, false, imports, imports, text, data);
    Ok(displacement::reach(l, at))
}

// A move of a module that is accepted.
pub fn move_valid(
    file: &[u8],
    l: Loadable,
    from: Addresses,
    from_imports: &[u64],
    to: Addresses,
    to_imports: &[u64],
    text: &mut [u8],
    data: &mut [u8],
) -> Result<Reached, Refusal>
    requires { Valid file.now l }
    ensures cause { result ≡ answer_of (relocatable_of file.now l) (length text.old) (length «data».old) (move (plan_of from from_imports.now) (plan_of to to_imports.now)) }
    ensures images { images text.new «data».new ≡ effect (relocatable_of file.now l) (move (plan_of from from_imports.now) (plan_of to to_imports.now)) (images text.old «data».old) }
{
    call_check::check_move(
        file,
        l,
        from,
        from_imports,
        to,
        to_imports,
        text.len(),
        data.len(),
    )?;
    let d = displacement::differences(from, to);
    apply_all::apply_all(file, l, d, true, from_imports, to_imports, text, data);
    Ok(displacement::reach(l, to))
}

pub fn report_call(file: &[u8], a: Result<Reached, Refusal>) -> CallReport
    ensures { result ≡ report_of_call file.now a }
{
    match a {
        Ok(r) => {
            let entry = r.entry;
            let toc = r.toc;
            CallReport {
                head: refusal::accepted_head(),
                has_entry: displacement::is_present(entry),
                entry: displacement::address_of(entry),
                has_toc: displacement::is_present(toc),
                toc: displacement::address_of(toc),
            }
        }
        Err(x) => CallReport {
            head: offset::refusal_head(file, x),
            has_entry: 0,
            entry: 0,
            has_toc: 0,
            toc: 0,
        },
    }
}
