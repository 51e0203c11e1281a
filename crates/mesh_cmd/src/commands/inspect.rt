//! `inspect MESH`: its argument, its answer and its line.
ghost use Rattle.std.specs.Option.{option_map};
ghost use Rattle.std.specs.Prelude.{◌≡◌, ◌++◌, false, map, string_bytes, IfOk, OnOk};
ghost use Rattle.mesh_ply.specs.Texts.{IsPrinted};
ghost use Rattle.command_run.specs.Answers.{file_limit};
ghost use Rattle.command_run.specs.Replies.{answer_of};
ghost use Rattle.command_run.specs.Steps.{IsReplied, ReadsFor, CountsFaults, surface_of};
ghost use Rattle.mesh_cmd.specs.Commands.{asked, inspect_of};
ghost use Rattle.mesh_cmd.specs.Inspect.{inspect_task, inspected_line, closed_text, sizes_text, topology_text, volume_text, measures_text, IsInspection, AreMeasuresOf};

use crate::commands::Command;
use crate::crossings::push_crossings;
use crate::input::{InputReading, Role, read_input};
use command_run::{
    FILE_LIMIT, Line, NoMemory, Reply, Status, Stop, are_names, invalid_input, push_labelled,
};
use host::Host;
use mesh::Mesh;
use mesh_crossings::{CrossingCounts, count_crossings};
use mesh_edges::{UnbalancedEdge, first_unbalanced};
use mesh_measures::{Topology, count_flat_faces, measure_topology, six_volume};
use num_text::push_whole;
use std::alloc::Global;

/// The argument of `inspect`.
#[derive(Clone, Copy, Debug)]
pub struct InspectWords<'a> {
    /// The name of the mesh that is read.
    pub mesh: &'a str,
}

/// What is measured of a mesh.
#[derive(Clone, Copy, Debug, PartialEq, Eq)]
pub struct Measures {
    /// The first edge that occurs another number of times than its reverse; none if the mesh is closed.
    pub unbalanced: Option<UnbalancedEdge>,
    /// The numbers of non-manifold edges and vertices and of pieces.
    pub topology: Topology,
    /// How many faces have their three corners on one line.
    pub flat_faces: usize,
    /// How many pairs of faces cross, how many are undecided, and the first that crosses.
    pub crossings: CrossingCounts,
    /// Six times the signed volume, in cubes of a scaled unit.
    pub six_volume: i128,
}

/// Returns the command that the arguments after `inspect` ask for, if they are valid.
pub fn inspect_command(words: &[String]) -> Option<Command<'_>>
    ensures { option_map asked result ≡ inspect_of (map string_bytes words.now) }
{
    let [mesh] = words else {
        return None;
    };
    if !are_names(words) {
        return None;
    }
    Some(Command::Inspect(InspectWords {
        mesh: mesh.as_str(),
    }))
}

/// Reads the mesh and makes the answer of `inspect`. Nothing is written or said.
pub fn reply_to_inspect<'a, H: Host>(
    alloc: Global,
    host: &mut H,
    words: &InspectWords<'a>,
) -> Result<Reply<'a>, Stop>
    requires { (H.state host.old).writing ≡ false }
    ensures replied { IfOk result (λ reply. IsReplied file_limit (inspect_task words.now.mesh.now) reply (H.state host.old)) }
    ensures reads { ReadsFor file_limit (inspect_task words.now.mesh.now) (H.state host.old) (H.state host.new) }
    ensures cause { CountsFaults result (H.state host.old).faults (H.state host.new).faults }
{
    match read_input(alloc, host, words.mesh, FILE_LIMIT, Role::First)? {
        InputReading::Mesh(input) => Ok(reply_to_measured(alloc, &input.mesh)?),
        InputReading::Refused(line) => Ok(invalid_input(alloc, line)),
    }
}

/// Makes the answer to a mesh.
fn reply_to_measured<'a>(alloc: Global, mesh: &Mesh) -> Result<Reply<'a>, NoMemory>
    requires { IsPrinted mesh.now.points.items mesh.now.faces.items }
    ensures { IfOk result (λ reply. IsInspection (surface_of mesh.now) (answer_of 1 reply)) }
{
    let measures = measure(alloc, mesh)?;
    let line = line_of_inspect(
        alloc,
        mesh.points.len() as u64,
        mesh.faces.len() as u64,
        measures,
    )?;
    Ok(Reply {
        status: Status::Done,
        texts: Vec::new(alloc),
        line: Line::Made(line),
    })
}

/// Measures a mesh.
fn measure(alloc: Global, mesh: &Mesh) -> Result<Measures, NoMemory>
    requires { IsPrinted mesh.now.points.items mesh.now.faces.items }
    ensures { IfOk result (λ m. AreMeasuresOf (surface_of mesh.now) m) }
{
    let unbalanced = first_unbalanced(alloc, mesh)?;
    let topology = measure_topology(alloc, mesh)?;
    let flat_faces = count_flat_faces(mesh);
    let crossings = count_crossings(alloc, mesh)?;
    let six_volume = six_volume(mesh);
    Ok(Measures {
        unbalanced,
        topology,
        flat_faces,
        crossings,
        six_volume,
    })
}

/// Appends whether the mesh is closed.
#[tactic(auto, unfolding(crate::specs::Inspect::closed_text))]
fn push_closed(line: &mut Vec<u8>, unbalanced: Option<UnbalancedEdge>) -> Result<(), NoMemory>
    ensures { OnOk result (line.new.items ≡ line.old.items ++ closed_text unbalanced) }
{
    match unbalanced {
        None => {
            line.extend_from_slice(b" closed yes")?;
            Ok(())
        }
        Some(edge) => {
            push_labelled(line, b" closed no edge ", u64::from(edge.from))?;
            push_labelled(line, b" ", u64::from(edge.to))?;
            push_labelled(line, b" there ", u64::from(edge.there))?;
            push_labelled(line, b" back ", u64::from(edge.back))?;
            Ok(())
        }
    }
}

/// Appends the numbers of non-manifold edges and vertices and of pieces.
#[tactic(auto, unfolding(crate::specs::Inspect::topology_text))]
fn push_topology(line: &mut Vec<u8>, topology: Topology) -> Result<(), NoMemory>
    ensures { OnOk result (line.new.items ≡ line.old.items ++ topology_text topology) }
{
    push_labelled(
        line,
        b" nonmanifold_edges ",
        topology.nonmanifold_edges as u64,
    )?;
    push_labelled(
        line,
        b" nonmanifold_vertices ",
        topology.nonmanifold_vertices as u64,
    )?;
    push_labelled(line, b" pieces ", topology.pieces as u64)?;
    Ok(())
}

/// Appends the numbers of points and faces.
#[tactic(auto, unfolding(crate::specs::Inspect::sizes_text))]
fn push_counts(line: &mut Vec<u8>, points: u64, faces: u64) -> Result<(), NoMemory>
    ensures { OnOk result (line.new.items ≡ line.old.items ++ sizes_text points faces) }
{
    push_labelled(line, b"inspected points ", points)?;
    push_labelled(line, b" faces ", faces)?;
    Ok(())
}

/// Appends the volume and the end of the line.
#[tactic(auto, unfolding(crate::specs::Inspect::volume_text))]
fn push_volume(line: &mut Vec<u8>, six: i128) -> Result<(), NoMemory>
    ensures { OnOk result (line.new.items ≡ line.old.items ++ volume_text six) }
{
    line.extend_from_slice(b" volume ")?;
    push_whole(line, six)?;
    line.extend_from_slice(b"/6\n")?;
    Ok(())
}

/// Appends the measures.
#[tactic(auto, unfolding(crate::specs::Inspect::measures_text))]
fn push_measures(line: &mut Vec<u8>, measures: Measures) -> Result<(), NoMemory>
    ensures { OnOk result (line.new.items ≡ line.old.items ++ measures_text measures) }
{
    push_closed(line, measures.unbalanced)?;
    push_topology(line, measures.topology)?;
    push_labelled(line, b" flat_faces ", measures.flat_faces as u64)?;
    push_crossings(line, measures.crossings)?;
    push_volume(line, measures.six_volume)?;
    Ok(())
}

/// Returns the line of `inspect`: the numbers of points and faces, and the measures.
#[tactic(auto, unfolding(crate::specs::Inspect::inspected_line))]
fn line_of_inspect(
    alloc: Global,
    points: u64,
    faces: u64,
    measures: Measures,
) -> Result<Vec<u8>, NoMemory>
    ensures { IfOk result (λ line. line.items ≡ inspected_line points faces measures) }
{
    let mut line = Vec::new(alloc);
    push_counts(&mut line, points, faces)?;
    push_measures(&mut line, measures)?;
    Ok(line)
}
