// A module's images, built and moved.
#![tactic(auto)]

ghost use Rattle.std.specs.Prelude.{◌≡◌, ◌-◌, length};
ghost use Rattle.history.specs.Images.{images};
ghost use Rattle.history.specs.Call.{build, move, answer_of, effect};
ghost use Rattle.plan.specs.Relocatable.{relocatable_at};
ghost use Rattle.displacement.specs.Reach.{plan_of};
ghost use Rattle.image.specs.Report.{report_of_call};

use displacement::Addresses;
use history::Reached;
use refusal::Refusal;

// Builds the images of the module in `file` for a plan: its addresses, and a list with a place for each loader symbol.
pub fn build_images(
    file: &[u8],
    at: Addresses,
    imports: &[u64],
    text: &mut [u8],
    data: &mut [u8],
) -> Result<Reached, Refusal>
    ensures cause { result ≡ answer_of (relocatable_at file.now) (length text.old) (length «data».old) (build (plan_of at imports.now)) }
    ensures report { report_of_call file.now result ≡ report_of_call file.now (answer_of (relocatable_at file.now) (length text.old) (length «data».old) (build (plan_of at imports.now))) }
    ensures images { images text.new «data».new ≡ effect (relocatable_at file.now) (build (plan_of at imports.now)) (images text.old «data».old) }
{
    let l = loadable::module_of(file)?;
    image::build_valid(file, l, at, imports, text, data)
}

// Moves images from one plan to another, taking the buffers as they are.
pub fn move_images(
    file: &[u8],
    from: Addresses,
    from_imports: &[u64],
    to: Addresses,
    to_imports: &[u64],
    text: &mut [u8],
    data: &mut [u8],
) -> Result<Reached, Refusal>
    ensures cause { result ≡ answer_of (relocatable_at file.now) (length text.old) (length «data».old) (move (plan_of from from_imports.now) (plan_of to to_imports.now)) }
    ensures report { report_of_call file.now result ≡ report_of_call file.now (answer_of (relocatable_at file.now) (length text.old) (length «data».old) (move (plan_of from from_imports.now) (plan_of to to_imports.now))) }
    ensures images { images text.new «data».new ≡ effect (relocatable_at file.now) (move (plan_of from from_imports.now) (plan_of to to_imports.now)) (images text.old «data».old) }
{
    let l = loadable::module_of(file)?;
    image::move_valid(file, l, from, from_imports, to, to_imports, text, data)
}
