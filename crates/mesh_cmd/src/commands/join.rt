//! `join TILES OUT`: its arguments. Its answer is that of `join_cmd`.
ghost use Rattle.std.specs.Option.{option_map};
ghost use Rattle.std.specs.Prelude.{◌≡◌, map, string_bytes};
ghost use Rattle.mesh_cmd.specs.Commands.{asked, join_of};

use crate::commands::Command;
use command_run::are_names;
use join_cmd::JoinWords;

/// Returns the command that the arguments after `join` ask for, if they are valid.
pub fn join_command(words: &[String]) -> Option<Command<'_>>
    ensures { option_map asked result ≡ join_of (map string_bytes words.now) }
{
    let [tiles, output] = words else {
        return None;
    };
    if !are_names(words) {
        return None;
    }
    Some(Command::Join(JoinWords {
        tiles: tiles.as_str(),
        output: output.as_str(),
    }))
}
