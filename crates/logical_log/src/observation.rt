// Observation of a view (observation.rs): judged, then written.
ghost use Rattle.std.specs.Prelude.{◌≡◌, true, min};
ghost use Rattle.storage.specs.Rules.{well_formed};
ghost use Rattle.model.specs.Sizes.{prefix_limit};
ghost use Rattle.record_entries.specs.BitLayout.{bits_of};
ghost use Rattle.logical_log.specs.Observation.{view_step};
ghost use Rattle.answers.specs.Step.{Gives};

use crate::judging::judge_view;
use crate::writing::write_view;
use answers::answer::{Accepted, Refusal};
use record_entries::view::View;
use storage::head::prefix_count;
use storage::stored::Stored;
use storage_bytes::layout::History;
use units::PREFIX_LIMIT;

// A view (kinds 1 and 9): 6 when the stored prefixes would exceed `limit`, 7 when the findings would exceed 128; else each prefix of its front
// is stored, its LG-03 noted, and the node's front and last index replaced; its value is how many prefixes were made. A refused one
// leaves every byte.
pub fn observe_prefixes(
    history: &mut History,
    view: View<'_>,
    limit: usize,
) -> Result<Accepted, Refusal>
    requires { well_formed history.old ≡ true }
    ensures { Gives (view_step (min limit prefix_limit) history.old (bits_of view.entry.shown.bytes.now view.entry.shown.marked) view.entry.entries view.entry.node.0) result history.new }
{
    let judged = judge_view(Stored { bytes: &*history }, view);
    let count = prefix_count(history);
    let total = count + judged.missing;
    let most = limit.min(PREFIX_LIMIT); // never more than the table holds
    if most < total {
        return Err(Refusal::PrefixesFull);
    }
    judged.notes.fits()?;
    let rest = judged.rest;
    let made = write_view(history, count, view.shown, rest, view.node, &judged.notes);
    Ok(Accepted::with(made))
}
