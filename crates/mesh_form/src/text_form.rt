//! A writer whose text is that of a file format.
ghost use Rattle.std.specs.Prelude.{◌≡◌, ◌++◌, ℕ, List, OnOk, OnErr, length, take};
ghost use Rattle.geo_sign.specs.Point.{Point};
ghost use Rattle.mesh.specs.Meshes.{IsMesh};

use crate::form::Form;
use crate::receipt::Receipt;
use geo_sign::Point;
use mesh::{Mesh, NoMemory};
use std::alloc::Global;
use std::marker::{Model, PhantomData};

/// A file format, given by the text of a mesh in it.
pub trait FileFormat {
    // The text of these points and faces.
    ghost text: { List Point → List (List ℕ) → List ℕ };

    /// Appends the text of a valid mesh to `out`.
    ///
    /// After `NoMemory` the previous bytes of `out` are still at its start, and more may follow.
    fn push_text(out: &mut Vec<u8>, mesh: &Mesh) -> Result<(), NoMemory>
        requires { IsMesh mesh.now.points.items mesh.now.faces.items }
        ensures ok { OnOk result (out.new.items ≡ out.old.items ++ text mesh.now.points.items mesh.now.faces.items) }
        ensures kept { OnErr result (take (length out.old.items) out.new.items ≡ out.old.items) };
}

/// Appends the text of a mesh to `out`; after `NoMemory` that is unchanged.
fn push_whole<F: FileFormat>(out: &mut Vec<u8>, mesh: &Mesh) -> Result<(), NoMemory>
    requires { IsMesh mesh.now.points.items mesh.now.faces.items }
    ensures printed { OnOk result (out.new.items ≡ out.old.items ++ F.text mesh.now.points.items mesh.now.faces.items) }
    ensures kept { OnErr result (out.new.items ≡ out.old.items) }
{
    let start = out.len();
    let pushed = F::push_text(out, mesh);
    if pushed.is_err() {
        out.truncate(start);
    }
    pushed
}

/// The writer whose text is that of a file format. Contracts see it as what it has received.
#[derive(Drop)]
pub struct TextForm<F: FileFormat> {
    receipt: Receipt,
    text: Vec<u8>,
    format: PhantomData<F>,
}

impl<F: FileFormat> Model for TextForm<F> {
    ghost use Rattle.std.specs.Prelude.{◌≡◌};
    ghost use Rattle.mesh_form.specs.Received.{Received, once_ended};

    ghost Value = { Received };

    ghost view = { λ a. a.receipt };

    ghost invariant = { λ a. a.text.items ≡ once_ended a.receipt.stage (F.text a.receipt.points a.receipt.faces) };
}

impl<F: FileFormat> TextForm<F> {
    ghost use Rattle.std.specs.Prelude.{◌≡◌};
    ghost use Rattle.mesh_form.specs.Received.{fresh};

    /// Returns a fresh writer. Allocates no memory.
    pub fn new(alloc: Global) -> TextForm<F>
        ensures { result ≡ fresh }
    {
        TextForm {
            receipt: Receipt::new(alloc),
            text: Vec::new(alloc),
            format: PhantomData,
        }
    }
}

impl<F: FileFormat> Form for TextForm<F> {
    ghost received = { λ form. form };

    ghost text_of = { λ form. F.text form.points form.faces };

    fn begin(&mut self, points: u32, faces: u32) -> Result<(), NoMemory> {
        self.receipt.begin(points, faces);
        Ok(())
    }

    fn vertex(&mut self, point: Point) -> Result<(), NoMemory> {
        self.receipt.vertex(point)
    }

    fn face(&mut self, face: [u32; 3]) -> Result<(), NoMemory> {
        self.receipt.face(face)
    }

    fn end(&mut self) -> Result<(), NoMemory> {
        push_whole::<F>(&mut self.text, self.receipt.mesh())?;
        self.receipt.end();
        Ok(())
    }

    fn text(&self) -> &[u8] {
        &self.text
    }
}
