//! OFF, the Object File Format of Geomview, as a writer.
ghost use Rattle.std.specs.Prelude.{◌≡◌, ◌++◌, OnOk, OnErr, length, take};
ghost use Rattle.mesh_form.specs.Texts.{off_head, off_rest, off_counts, off_text};

use crate::form::Form;
use crate::text_form::{FileFormat, TextForm};
use geo_sign::Point;
use line_text::push_number;
use mesh::{Mesh, NoMemory};
use mesh_ply::{push_faces, push_points};
use std::alloc::Global;
use std::marker::Model;

#[tactic(auto, unfolding(crate::specs::Texts::off_head))]
fn name_line() -> &'static [u8]
    ensures { result.now ≡ off_head }
{
    b"OFF\n"
}

/// Returns the number of edges, which is not counted.
#[tactic(auto, unfolding(crate::specs::Texts::off_rest))]
fn no_edges() -> &'static [u8]
    ensures { result.now ≡ off_rest }
{
    b"0\n"
}

fn push_counts(out: &mut Vec<u8>, points: u64, faces: u64) -> Result<(), NoMemory>
    ensures ok { OnOk result (out.new.items ≡ out.old.items ++ off_counts points faces) }
    ensures kept { OnErr result (take (length out.old.items) out.new.items ≡ out.old.items) }
{
    push_number(out, points, b' ')?;
    push_number(out, faces, b' ')?;
    out.extend_from_slice(no_edges())?;
    Ok(())
}

/// OFF: the line `OFF`, the counts `N M 0`, a line `x y z` for each point and a line `3 a b c` for each face.
pub struct Off;

impl FileFormat for Off {
    ghost text = { off_text };

    fn push_text(out: &mut Vec<u8>, mesh: &Mesh) -> Result<(), NoMemory> {
        out.extend_from_slice(name_line())?;
        push_counts(out, mesh.points.len() as u64, mesh.faces.len() as u64)?;
        push_points(out, &mesh.points)?;
        push_faces(out, &mesh.faces)?;
        Ok(())
    }
}

/// The writer whose text is OFF. Contracts see it as what it has received.
#[derive(Drop)]
pub struct OffForm {
    form: TextForm<Off>,
}

impl Model for OffForm {
    ghost use Rattle.mesh_form.specs.Received.{Received};

    ghost Value = { Received };

    ghost view = { λ a. a.form };
}

impl OffForm {
    ghost use Rattle.std.specs.Prelude.{◌≡◌};
    ghost use Rattle.mesh_form.specs.Received.{fresh};

    /// Returns a fresh writer. Allocates no memory.
    pub fn new(alloc: Global) -> OffForm
        ensures { result ≡ fresh }
    {
        OffForm {
            form: TextForm::new(alloc),
        }
    }
}

impl Form for OffForm {
    ghost received = { λ form. form };

    ghost text_of = { λ form. off_text form.points form.faces };

    fn begin(&mut self, points: u32, faces: u32) -> Result<(), NoMemory> {
        self.form.begin(points, faces)
    }

    fn vertex(&mut self, point: Point) -> Result<(), NoMemory> {
        self.form.vertex(point)
    }

    fn face(&mut self, face: [u32; 3]) -> Result<(), NoMemory> {
        self.form.face(face)
    }

    fn end(&mut self) -> Result<(), NoMemory> {
        self.form.end()
    }

    fn text(&self) -> &[u8] {
        self.form.text()
    }
}
