//! A theorem on limits and defaults, as the contract of a function that does nothing.

ghost use Rattle.std.specs.Prelude.{◌≡◌, [], true, false, Option, None, Some};
ghost use Rattle.command_run.specs.Answers.{file_limit};
ghost use Rattle.finish_options.specs.declared.options.TheConstants.{FARTHEST, MOST_STEPS};
ghost use Rattle.mesh_cmd.specs.Options.{finish_options};

/// The limits and defaults that the definitions of a run cite from the code, as numbers.
///
/// An input file may have 4,294,967,296 bytes. Smoothing has at most 100 steps, and points move at most 8,388,608 units. Without options
/// all pieces are kept, vertices are not split, edges are flipped, points stay, and the output states where it comes from.
pub fn the_limits_are_these()
    ensures file { file_limit ≡ 4294967296 }
    ensures steps { MOST_STEPS ≡ 100 }
    ensures distance { FARTHEST ≡ 8388608 }
    ensures defaults { finish_options [] ≡ Some (record { options = record { pieces = None; manifold = false; flips = true; smoothing = None }; comments = true }) }
{}
