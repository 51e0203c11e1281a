//! The mesh text of `mesh_ply` as a writer.
ghost use Rattle.mesh_ply.specs.Texts.{mesh_text};

use crate::form::Form;
use crate::text_form::{FileFormat, TextForm};
use geo_sign::Point;
use mesh::{Mesh, NoMemory};
use mesh_ply::push_mesh;
use std::alloc::Global;
use std::marker::Model;

/// The mesh text of `mesh_ply`: PLY 1.0 in its `ascii` format.
pub struct Ply;

impl FileFormat for Ply {
    ghost text = { mesh_text };

    fn push_text(out: &mut Vec<u8>, mesh: &Mesh) -> Result<(), NoMemory> {
        push_mesh(out, mesh)
    }
}

/// The writer whose text is the mesh text of `mesh_ply`. Contracts see it as what it has received.
#[derive(Drop)]
pub struct PlyForm {
    form: TextForm<Ply>,
}

impl Model for PlyForm {
    ghost use Rattle.mesh_form.specs.Received.{Received};

    ghost Value = { Received };

    ghost view = { λ a. a.form };
}

impl PlyForm {
    ghost use Rattle.std.specs.Prelude.{◌≡◌};
    ghost use Rattle.mesh_form.specs.Received.{fresh};

    /// Returns a fresh writer. Allocates no memory.
    pub fn new(alloc: Global) -> PlyForm
        ensures { result ≡ fresh }
    {
        PlyForm {
            form: TextForm::new(alloc),
        }
    }
}

impl Form for PlyForm {
    ghost received = { λ form. form };

    ghost text_of = { λ form. mesh_text form.points form.faces };

    fn begin(&mut self, points: u32, faces: u32) -> Result<(), NoMemory> {
        self.form.begin(points, faces)
    }

    fn vertex(&mut self, point: Point) -> Result<(), NoMemory> {
        self.form.vertex(point)
    }

    fn face(&mut self, face: [u32; 3]) -> Result<(), NoMemory> {
        self.form.face(face)
    }

    fn end(&mut self) -> Result<(), NoMemory> {
        self.form.end()
    }

    fn text(&self) -> &[u8] {
        self.form.text()
    }
}
