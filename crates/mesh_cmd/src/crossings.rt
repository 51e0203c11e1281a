//! What a line says of the pairs of faces that cross.
ghost use Rattle.std.specs.Prelude.{◌≡◌, ◌++◌, OnOk};
ghost use Rattle.mesh_cmd.specs.Crossings.{first_pair_text, crossings_text};

use command_run::{NoMemory, push_labelled};
use mesh_crossings::CrossingCounts;
use mesh_edges::Pair;

/// Appends the first pair of faces that cross, if any do.
#[tactic(auto, unfolding(crate::specs::Crossings::first_pair_text))]
fn push_first_pair(line: &mut Vec<u8>, first: Option<Pair>) -> Result<(), NoMemory>
    ensures { OnOk result (line.new.items ≡ line.old.items ++ first_pair_text first) }
{
    match first {
        None => Ok(()),
        Some(pair) => {
            push_labelled(line, b" first_pair ", u64::from(pair.first))?;
            push_labelled(line, b" ", u64::from(pair.second))?;
            Ok(())
        }
    }
}

/// Appends how many pairs of faces cross, how many are undecided, and the first pair that crosses.
#[tactic(auto, unfolding(crate::specs::Crossings::crossings_text))]
pub(crate) fn push_crossings(line: &mut Vec<u8>, counts: CrossingCounts) -> Result<(), NoMemory>
    ensures { OnOk result (line.new.items ≡ line.old.items ++ crossings_text counts) }
{
    push_labelled(line, b" crossing_pairs ", counts.crossing as u64)?;
    push_labelled(line, b" undecided_pairs ", counts.undecided as u64)?;
    push_first_pair(line, counts.first)?;
    Ok(())
}
