//! The commands: the arguments that ask for each, and the making of its answer.
ghost use Rattle.std.specs.Option.{option_map};
ghost use Rattle.std.specs.Prelude.{◌≡◌, false, map, string_bytes, IfOk};
ghost use Rattle.command_run.specs.Answers.{file_limit};
ghost use Rattle.command_run.specs.Steps.{IsReplied, ReadsFor, CountsFaults};
ghost use Rattle.mesh_cmd.specs.Commands.{command_of, asked, task_of};

mod check;
mod finish;
mod inspect;
mod join;
mod moving;
mod simplify;

pub use check::CheckWords;
use check::{check_command, reply_to_check};
use command_run::{Reply, Stop};
pub use finish::FinishWords;
use finish::{finish_command, reply_to_finish};
use host::Host;
use inspect::{inspect_command, reply_to_inspect};
pub use inspect::{InspectWords, Measures};
use join::join_command;
use join_cmd::{JoinWords, reply_to_join};
pub use moving::MoveWords;
use moving::{move_command, reply_to_move};
pub use simplify::SimplifyWords;
use simplify::{reply_to_simplify, simplify_command};
use std::alloc::Global;

/// What a run is asked for.
#[derive(Clone, Copy, Debug)]
pub enum Command<'a> {
    /// `finish MESH OUT [pieces=N] [manifold=yes] [flips=no] [smooth=N within=D] [comments=no]`: reads the mesh, keeps its N largest
    /// pieces, splits vertices so that each edge has two faces, flips edges where the angles between faces fall, moves vertices by at
    /// most D units so that neighboring faces agree on their directions, and writes the result with its provenance.
    Finish(FinishWords<'a>),
    /// `move MESH TARGETS OUT smooth=N within=D [pieces=N] [manifold=yes] [flips=no] [comments=no]`: does what `finish` does, but vertices
    /// move toward the points of TARGETS, a mesh with as many points as the result. It states of the result what `finish` does.
    Move(MoveWords<'a>),
    /// `simplify MESH OUT within=D [faces=N] [surface=yes] [move=yes] [comments=no]`: reads the mesh, collapses edges while each corner of
    /// its faces stays at most D units from a face, down to N faces, and writes the result with its provenance. With `surface=yes` each
    /// point of either mesh is at most D units from the other. Vertices stay where they are, unless `move=yes` is given.
    Simplify(SimplifyWords<'a>),
    /// `join TILES OUT`: reads the list of the tiles of a scan and the mesh of each, and writes one closed mesh. Each edge takes the faces
    /// of one tile.
    Join(JoinWords<'a>),
    /// `inspect MESH`: reads the mesh and says its measures.
    Inspect(InspectWords<'a>),
    /// `check MESH OUT`: reads the mesh and a finished or simplified one, and says whether the second is what its comments state, of the first.
    Check(CheckWords<'a>),
}

/// Returns the command that the arguments ask for, and `None` exactly if they are invalid.
///
/// Names of files come right after the command. They are not empty, and no two are equal. Options follow, each at most once.
pub fn understand(words: &[String]) -> Option<Command<'_>>
    ensures { option_map asked result ≡ command_of (map string_bytes words.now) }
{
    let [command, words @ ..] = words else {
        return None;
    };
    match command.as_str() {
        "finish" => finish_command(words),
        "move" => move_command(words),
        "simplify" => simplify_command(words),
        "join" => join_command(words),
        "inspect" => inspect_command(words),
        "check" => check_command(words),
        _ => None,
    }
}

/// Reads what a command reads and makes its answer. Nothing is written or said.
pub fn reply_to<'a, H: Host>(
    alloc: Global,
    host: &mut H,
    command: &Command<'a>,
) -> Result<Reply<'a>, Stop>
    requires { (H.state host.old).writing ≡ false }
    ensures replied { IfOk result (λ reply. IsReplied file_limit (task_of (asked command.now)) reply (H.state host.old)) }
    ensures reads { ReadsFor file_limit (task_of (asked command.now)) (H.state host.old) (H.state host.new) }
    ensures cause { CountsFaults result (H.state host.old).faults (H.state host.new).faults }
{
    match command {
        Command::Finish(words) => reply_to_finish(alloc, host, words),
        Command::Move(words) => reply_to_move(alloc, host, words),
        Command::Simplify(words) => reply_to_simplify(alloc, host, words),
        Command::Join(words) => reply_to_join(alloc, host, words),
        Command::Inspect(words) => reply_to_inspect(alloc, host, words),
        Command::Check(words) => reply_to_check(alloc, host, words),
    }
}
