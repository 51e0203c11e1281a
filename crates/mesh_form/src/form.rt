//! The trait of mesh writers.
//!
//! Contracts see a writer as what it has received, one `Received`: its stage, the numbers of points and faces that are due, and
//! the points and faces themselves. Each call is one equation on all of this, so what its contract does not name does not
//! change.
ghost use Rattle.std.specs.Prelude.{◌≡◌, ℕ, List, OnOk, OnErr};
ghost use Rattle.mesh_form.specs.Received.{Received, IsFresh, TakesPoint, TakesFace, HasAllDue, begun, with_point, with_face, with_end};
ghost use Rattle.mesh_form.specs.declared.stage.Stage.TheVariants.{Ended};

use geo_sign::Point;
use mesh::NoMemory;

/// A mesh writer: receives points first, then faces, and in the end has a text.
///
/// A call that returns `Ok` has the stated effect. After `NoMemory` the stage, the numbers due and what was received are
/// unchanged. A writer keeps the allocator with which it was made.
pub trait Form: Drop {
    ghost received: { Self → Received };

    ghost text_of: { Self → List ℕ };

    /// Begins a mesh with these numbers of points and faces. Nothing was received yet.
    fn begin(&mut self, points: u32, faces: u32) -> Result<(), NoMemory>
        requires { IsFresh (received self.old) }
        ensures begun { OnOk result (received self.new ≡ begun points faces (received self.old)) }
        ensures kept { OnErr result (received self.new ≡ received self.old) };

    /// Receives the next point. Fewer were received than are due.
    fn vertex(&mut self, point: Point) -> Result<(), NoMemory>
        requires { TakesPoint (received self.old) }
        ensures taken { OnOk result (received self.new ≡ with_point point (received self.old)) }
        ensures kept { OnErr result (received self.new ≡ received self.old) };

    /// Receives the next face: three distinct indices of points, the smallest first. All points were received, and fewer faces
    /// than are due.
    fn face(&mut self, face: [u32; 3]) -> Result<(), NoMemory>
        requires { TakesFace face (received self.old) }
        ensures taken { OnOk result (received self.new ≡ with_face face (received self.old)) }
        ensures kept { OnErr result (received self.new ≡ received self.old) };

    /// Ends the mesh. All points and faces that are due were received.
    fn end(&mut self) -> Result<(), NoMemory>
        requires { HasAllDue (received self.old) }
        ensures ended { OnOk result (received self.new ≡ with_end (received self.old)) }
        ensures kept { OnErr result (received self.new ≡ received self.old) };

    /// Returns the text of a writer that has ended.
    fn text(&self) -> &[u8]
        requires { (received self.now).stage ≡ Ended }
        ensures { result.now ≡ text_of self.now };
}
