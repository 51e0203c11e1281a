//! `export MESH OUT1 .. OUTn`, its arguments, answer and lines: a mesh in the formats of the writers that the caller passes.
//! Depends on `mesh_form`, which passes the mesh to them.
ghost use Rattle.std.specs.Option.{option_map};
ghost use Rattle.std.specs.Prelude.{◌≡◌, IfSome, length, map, string_bytes, false, All, IfOk};
ghost use Rattle.mesh_form.specs.Received.{IsFresh};
ghost use Rattle.mesh_ply.specs.Texts.{IsPrinted};
ghost use Rattle.solution.specs.Solutions.{surface_of};
ghost use Rattle.command_run.specs.declared.status.Status.TheVariants.{Refused};
ghost use Rattle.recon_cmd.specs.Export.{export_behind, export_names, ExportOutcome, FormsHandOut, exported_line};

use crate::whole_run::write_forms;
use command_run::{
    MeshReading, NoMemory, Status, Stop, are_names, conclude, push_labelled, read_mesh_file,
};
use host::Host;
use mesh::Mesh;
use mesh_form::{Form, drive_all};
use std::alloc::Global;

/// The arguments after `export MESH OUT1 .. OUTn`.
#[derive(Clone, Copy, Debug)]
pub struct ExportWords<'a> {
    /// The input mesh.
    pub mesh: &'a str,
    /// The output files for the writers' texts, one for each writer.
    pub outputs: &'a [String],
}

/// Parses the arguments after `export`: a mesh and as many outputs as there are writers, at least one. Names are not empty, and
/// no two are equal.
pub fn export_words(words: &[String], forms: usize) -> Option<ExportWords<'_>>
    ensures is { option_map export_names result ≡ export_behind forms (map string_bytes words.now) }
    ensures fits { IfSome result (λ words. length words.outputs.now ≡ forms) }
{
    let [mesh, outputs @ ..] = words else {
        return None;
    };
    if forms == 0 || outputs.len() != forms || !are_names(words) {
        return None;
    }
    Some(ExportWords {
        mesh: mesh.as_str(),
        outputs,
    })
}

/// Reads the mesh, whose file may be as long as the limit, passes it to each writer, and writes their texts, in order. No file
/// is created before all texts are in memory.
pub fn export_mesh<H: Host>(
    alloc: Global,
    host: &mut H,
    words: &ExportWords,
    forms: &mut [Box<dyn Form>],
    limit: u64,
) -> Status
    requires closed { (H.state host.old).writing ≡ false }
    requires fresh { All IsFresh (map received forms.old) }
    requires as_many { length words.now.outputs.now ≡ length forms.old }
    ensures outcome { ExportOutcome limit (export_names words.now) result (H.state host.old) (H.state host.new)
        (map received forms.old) (map received forms.new) (map text_of forms.new) }
    ensures refused { result ≡ Refused → forms.new ≡ forms.old }
    ensures kinds { map (λ form. form.vtable) forms.new ≡ map (λ form. form.vtable) forms.old }
{
    let reading = match read_mesh_file(alloc, host, words.mesh, limit) {
        Ok(reading) => reading,
        Err(Stop::Failed) => return Status::Failed,
        Err(Stop::NoMemory) => return Status::NoMemory,
    };
    match reading {
        MeshReading::Mesh(mesh) => hand_out(alloc, host, &mesh, words.outputs, forms),
        MeshReading::Refused(line) => conclude(host, &[], line.as_bytes(), Status::Refused),
    }
}

/// Passes the mesh to each writer, and writes their texts.
fn hand_out<H: Host>(
    alloc: Global,
    host: &mut H,
    mesh: &Mesh,
    outputs: &[String],
    forms: &mut [Box<dyn Form>],
) -> Status
    requires closed { (H.state host.old).writing ≡ false }
    requires fresh { All IsFresh (map received forms.old) }
    requires as_many { length outputs.now ≡ length forms.old }
    requires printed { IsPrinted mesh.now.points.items mesh.now.faces.items }
    ensures handed { FormsHandOut (map string_bytes outputs.now) (surface_of mesh.now) result (H.state host.old) (H.state host.new)
        (map received forms.new) (map text_of forms.new) }
    ensures kinds { map (λ form. form.vtable) forms.new ≡ map (λ form. form.vtable) forms.old }
{
    match drive_all(forms, mesh) {
        Ok(()) => {}
        Err(_) => return Status::NoMemory,
    }
    let points = mesh.points.len() as u64;
    let faces = mesh.faces.len() as u64;
    match line_of_export(alloc, outputs.len() as u64, points, faces) {
        Ok(line) => write_forms(host, outputs, forms, &line),
        Err(_) => Status::NoMemory,
    }
}

/// Returns the line of `export`: the number of writers, and those of points and faces.
#[tactic(auto, unfolding(crate::specs::Export::exported_line))]
pub fn line_of_export(
    alloc: Global,
    forms: u64,
    points: u64,
    faces: u64,
) -> Result<Vec<u8>, NoMemory>
    ensures { IfOk result (λ line. line.items ≡ exported_line forms points faces) }
{
    let mut line = Vec::new(alloc);
    push_labelled(&mut line, b"exported ", forms)?;
    push_labelled(&mut line, b" points ", points)?;
    push_labelled(&mut line, b" faces ", faces)?;
    line.push(b'\n')?;
    Ok(line)
}
