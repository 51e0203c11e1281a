//! The mesh that a writer has received.
use crate::stage::Stage;
use geo_sign::Point;
use mesh::{Mesh, NoMemory};
use std::alloc::Global;
use std::marker::Model;

/// The mesh that a writer has received so far. Contracts see it as a `Received`.
#[derive(Drop)]
pub struct Receipt {
    stage: Stage,
    points_due: u32,
    faces_due: u32,
    mesh: Mesh,
}

impl Model for Receipt {
    ghost use Rattle.mesh_form.specs.Received.{Received, IsReceived};

    ghost Value = { Received };

    ghost view = { λ a. record { stage = a.stage; points_due = a.points_due; faces_due = a.faces_due; points = a.mesh.points.items; faces = a.mesh.faces.items } };

    ghost invariant = { λ a. IsReceived a.points_due a.faces_due a.mesh.points.items a.mesh.faces.items };
}

impl Receipt {
    ghost use Rattle.std.specs.Prelude.{◌≡◌, OnOk, OnErr};
    ghost use Rattle.mesh.specs.Meshes.{IsMesh};
    ghost use Rattle.mesh_form.specs.Received.{IsFresh, TakesPoint, TakesFace, HasAllDue, fresh, begun, with_point, with_face, with_end};

    /// Returns an empty one. Allocates no memory.
    pub fn new(alloc: Global) -> Receipt
        ensures { result ≡ fresh }
    {
        Receipt {
            stage: Stage::Fresh,
            points_due: 0,
            faces_due: 0,
            mesh: Mesh {
                points: Vec::new(alloc),
                faces: Vec::new(alloc),
            },
        }
    }

    /// Begins a mesh with these numbers of points and faces.
    pub fn begin(&mut self, points: u32, faces: u32)
        requires { IsFresh self.old }
        ensures { self.new ≡ begun points faces self.old }
    {
        self.points_due = points;
        self.faces_due = faces;
        self.stage = Stage::Begun;
    }

    /// Appends a point. After `NoMemory` nothing has changed.
    pub fn vertex(&mut self, point: Point) -> Result<(), NoMemory>
        requires { TakesPoint self.old }
        ensures taken { OnOk result (self.new ≡ with_point point self.old) }
        ensures kept { OnErr result (self.new ≡ self.old) }
    {
        self.mesh.points.push(point)?;
        Ok(())
    }

    /// Appends a face. After `NoMemory` nothing has changed.
    pub fn face(&mut self, face: [u32; 3]) -> Result<(), NoMemory>
        requires { TakesFace face self.old }
        ensures taken { OnOk result (self.new ≡ with_face face self.old) }
        ensures kept { OnErr result (self.new ≡ self.old) }
    {
        self.mesh.faces.push(face)?;
        Ok(())
    }

    /// Ends the mesh.
    pub fn end(&mut self)
        requires { HasAllDue self.old }
        ensures { self.new ≡ with_end self.old }
    {
        self.stage = Stage::Ended;
    }

    /// Returns the points and faces received, a valid mesh once it is complete.
    pub fn mesh(&self) -> &Mesh
        ensures points { result.now.points.items ≡ self.now.points }
        ensures faces { result.now.faces.items ≡ self.now.faces }
        ensures valid { HasAllDue self.now → IsMesh result.now.points.items result.now.faces.items }
    {
        &self.mesh
    }
}
