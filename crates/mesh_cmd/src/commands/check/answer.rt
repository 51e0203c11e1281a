//! The answer of `check` to two valid meshes, and its lines.
ghost use Rattle.std.specs.Prelude.{◌≡◌, ◌++◌, [], codes, if◌then◌else◌, IfOk, OnOk, Some};
ghost use Rattle.mesh.specs.Meshes.{IsMesh};
ghost use Rattle.mesh_ply.specs.Texts.{IsPrinted};
ghost use Rattle.command_run.specs.Replies.{answer_of};
ghost use Rattle.command_run.specs.Steps.{surface_of};
ghost use Rattle.mesh_cmd.specs.Check.{reach_of, demands_of, line_answer, verdict_answer, fault_line, unbalanced_out_line, nonmanifold_line, unreached_line, far_text, uncovered_line, confirmed_line, IsJudgedBy, ConfirmAnswer};
ghost use Rattle.mesh_cmd.specs.Input.{surface_of_input};

use crate::crossings::push_crossings;
use crate::input::InputMesh;
use command_run::{Line, NoMemory, Reply, Status, line_of_number, line_of_text, push_labelled};
use face_near::Weights;
use finish_options::{FinishOptions, SmoothOptions};
use mesh::Mesh;
use mesh_check::{Demands, Fault, Uncovered, Verdict, judge, judge_simplified};
use mesh_crossings::CrossingCounts;
use mesh_provenance::{Made, Provenance};
use mesh_reach::Reach;
use std::alloc::Global;

/// Makes the answer to two valid meshes.
pub fn reply_to_finished<'a>(
    alloc: Global,
    home: &InputMesh,
    finished: &InputMesh,
) -> Result<Reply<'a>, NoMemory>
    requires home { IsPrinted home.now.mesh.points.items home.now.mesh.faces.items }
    requires finished { IsPrinted finished.now.mesh.points.items finished.now.mesh.faces.items }
    ensures { IfOk result (λ reply. ConfirmAnswer home.now.digest (surface_of_input home.now) finished.now.provenance (surface_of_input finished.now) (answer_of 2 reply)) }
{
    match &finished.provenance {
        None => {
            let line = line_of_text(alloc, b"no 1 not_stated")?;
            Ok(reply_of_line(alloc, Status::No, line))
        }
        Some(provenance) => reply_to_stated(alloc, home, provenance, finished),
    }
}

/// Makes the answer to a finished mesh whose file has these comments.
fn reply_to_stated<'a>(
    alloc: Global,
    home: &InputMesh,
    provenance: &Provenance,
    finished: &InputMesh,
) -> Result<Reply<'a>, NoMemory>
    requires home { IsPrinted home.now.mesh.points.items home.now.mesh.faces.items }
    requires finished { IsPrinted finished.now.mesh.points.items finished.now.mesh.faces.items }
    ensures { IfOk result (λ reply. ConfirmAnswer home.now.digest (surface_of_input home.now) (Some provenance.now) (surface_of_input finished.now) (answer_of 2 reply)) }
{
    if provenance.digest != home.digest {
        let line = line_of_text(alloc, b"no 2 other_mesh")?;
        return Ok(reply_of_line(alloc, Status::No, line));
    }
    let verdict = verdict_on(alloc, &home.mesh, provenance, &finished.mesh)?;
    reply_to_verdict(alloc, &finished.mesh, verdict)
}

/// Returns the verdict on a mesh whose file has these comments.
fn verdict_on(
    alloc: Global,
    home: &Mesh,
    provenance: &Provenance,
    mesh: &Mesh,
) -> Result<Verdict, NoMemory>
    requires home { IsMesh home.now.points.items home.now.faces.items }
    requires mesh { IsMesh mesh.now.points.items mesh.now.faces.items }
    ensures { IfOk result (λ verdict. IsJudgedBy (surface_of home.now) provenance.now.made provenance.now.fine (surface_of mesh.now) verdict) }
{
    let fine = provenance.fine;
    match provenance.made {
        Made::Finish(options) => judge(alloc, &home.points, mesh, demands_of(options, fine)),
        Made::Simplify(options) => {
            let within = options.within;
            judge_simplified(alloc, home, mesh, Reach { fine, within }, options.surface)
        }
    }
}

/// Returns how far a vertex may be from the nearest of the mesh before.
fn reach_of(smoothing: Option<SmoothOptions>) -> u32
    ensures { result ≡ reach_of smoothing }
{
    match smoothing {
        None => 0,
        Some(smoothing) => smoothing.within,
    }
}

/// Returns what these options demand of a finished mesh with this scale.
fn demands_of(options: FinishOptions, fine: u32) -> Demands
    ensures { result ≡ demands_of options fine }
{
    Demands {
        manifold: options.manifold,
        fine,
        within: reach_of(options.smoothing),
    }
}

/// Makes the answer that writes nothing and says this line.
fn reply_of_line<'a>(alloc: Global, status: Status, line: Vec<u8>) -> Reply<'a>
    ensures { answer_of 2 result ≡ line_answer status line.items }
{
    Reply {
        status,
        texts: Vec::new(alloc),
        line: Line::Made(line),
    }
}

/// Makes the answer that says a verdict.
fn reply_to_verdict<'a>(alloc: Global, mesh: &Mesh, verdict: Verdict) -> Result<Reply<'a>, NoMemory>
    ensures { IfOk result (λ reply. answer_of 2 reply ≡ verdict_answer (surface_of mesh.now) verdict) }
{
    match verdict {
        Verdict::Keeps(counts) => {
            let line = line_of_yes(
                alloc,
                mesh.points.len() as u64,
                mesh.faces.len() as u64,
                counts,
            )?;
            Ok(reply_of_line(alloc, Status::Done, line))
        }
        Verdict::Breaks(fault) => {
            let line = line_of_fault(alloc, fault)?;
            Ok(reply_of_line(alloc, Status::No, line))
        }
    }
}

/// Returns the line of a mesh that keeps all demands: the numbers of points and faces, and how many pairs of faces cross.
#[tactic(auto, unfolding(crate::specs::Check::confirmed_line))]
fn line_of_yes(
    alloc: Global,
    points: u64,
    faces: u64,
    counts: CrossingCounts,
) -> Result<Vec<u8>, NoMemory>
    ensures { IfOk result (λ line. line.items ≡ confirmed_line points faces counts) }
{
    let mut line = Vec::new(alloc);
    push_labelled(&mut line, b"yes points ", points)?;
    push_labelled(&mut line, b" faces ", faces)?;
    push_crossings(&mut line, counts)?;
    line.push(b'\n')?;
    Ok(line)
}

/// Returns the line of a demand that the mesh does not keep.
fn line_of_fault(alloc: Global, fault: Fault) -> Result<Vec<u8>, NoMemory>
    ensures { IfOk result (λ line. line.items ≡ fault_line fault) }
{
    match fault {
        Fault::Unbalanced(edge) => {
            line_of_unbalanced(alloc, edge.from, edge.to, edge.there, edge.back)
        }
        Fault::NonManifold { edges, vertices } => {
            line_of_nonmanifold(alloc, edges as u64, vertices as u64)
        }
        Fault::FarVertex(vertex) => line_of_number(alloc, b"no 5 far_vertex ", vertex as u64),
        Fault::UnreachedVertex(u) => line_of_unreached(alloc, u.vertex, u.is_far),
        Fault::UncoveredOriginal(u) => line_of_uncovered(alloc, b"no 7 uncovered_original ", u),
        Fault::UncoveredFace(u) => line_of_uncovered(alloc, b"no 8 uncovered_face ", u),
    }
}

/// Returns the line of an edge that is not balanced.
#[tactic(auto, unfolding(crate::specs::Check::unbalanced_out_line))]
fn line_of_unbalanced(
    alloc: Global,
    from: u32,
    to: u32,
    there: u32,
    back: u32,
) -> Result<Vec<u8>, NoMemory>
    ensures { IfOk result (λ line. line.items ≡ unbalanced_out_line from to there back) }
{
    let mut line = Vec::new(alloc);
    push_labelled(&mut line, b"no 3 unbalanced from ", u64::from(from))?;
    push_labelled(&mut line, b" to ", u64::from(to))?;
    push_labelled(&mut line, b" there ", u64::from(there))?;
    push_labelled(&mut line, b" back ", u64::from(back))?;
    line.push(b'\n')?;
    Ok(line)
}

/// Returns the line of the numbers of edges and vertices that are not manifold.
#[tactic(auto, unfolding(crate::specs::Check::nonmanifold_line))]
fn line_of_nonmanifold(alloc: Global, edges: u64, vertices: u64) -> Result<Vec<u8>, NoMemory>
    ensures { IfOk result (λ line. line.items ≡ nonmanifold_line edges vertices) }
{
    let mut line = Vec::new(alloc);
    push_labelled(&mut line, b"no 4 nonmanifold_edges ", edges)?;
    push_labelled(&mut line, b" nonmanifold_vertices ", vertices)?;
    line.push(b'\n')?;
    Ok(line)
}

/// Appends that a point is far, if it is.
fn push_far_word(line: &mut Vec<u8>, is_far: bool) -> Result<(), NoMemory>
    ensures { OnOk result (line.new.items ≡ line.old.items ++ (if is_far then codes " far" else [])) }
{
    if !is_far {
        return Ok(());
    }
    line.extend_from_slice(b" far")?;
    Ok(())
}

/// Returns the line of a corner for which no near face was found.
#[tactic(auto, unfolding(crate::specs::Check::unreached_line))]
fn line_of_unreached(alloc: Global, vertex: u32, is_far: bool) -> Result<Vec<u8>, NoMemory>
    ensures { IfOk result (λ line. line.items ≡ unreached_line vertex is_far) }
{
    let mut line = Vec::new(alloc);
    push_labelled(&mut line, b"no 6 unreached_vertex ", u64::from(vertex))?;
    push_far_word(&mut line, is_far)?;
    line.push(b'\n')?;
    Ok(line)
}

/// Appends how often the corners of a face count in a point that is far, if there is one.
#[tactic(auto, unfolding(crate::specs::Check::far_text))]
fn push_far(line: &mut Vec<u8>, far: Option<Weights>) -> Result<(), NoMemory>
    ensures { OnOk result (line.new.items ≡ line.old.items ++ far_text far) }
{
    match far {
        None => Ok(()),
        Some(w) => {
            push_labelled(line, b" far ", u64::from(w.a))?;
            push_labelled(line, b" ", u64::from(w.b))?;
            push_labelled(line, b" ", u64::from(w.c))?;
            Ok(())
        }
    }
}

/// Returns the line of a face that was not shown to be near.
#[tactic(auto, unfolding(crate::specs::Check::uncovered_line))]
fn line_of_uncovered(alloc: Global, label: &[u8], u: Uncovered) -> Result<Vec<u8>, NoMemory>
    ensures { IfOk result (λ line. line.items ≡ uncovered_line label.now u) }
{
    let mut line = Vec::new(alloc);
    push_labelled(&mut line, label, u.face as u64)?;
    push_far(&mut line, u.far)?;
    line.push(b'\n')?;
    Ok(line)
}
