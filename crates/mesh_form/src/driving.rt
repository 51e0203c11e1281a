//! Passes a mesh to a writer.
ghost use Rattle.std.specs.Prelude.{◌≡◌, ℕ, length, map, All, OnOk, OnErr};
ghost use Rattle.mesh.specs.Meshes.{IsFace, IsMesh};
ghost use Rattle.mesh_form.specs.Received.{IsFresh, TakesPoint, TakesFace, HasAllDue, HasPoints, HasFaces, HasPrefix, HasAll, HasFront, begun, with_point, with_face, with_end};

use crate::form::Form;
use geo_sign::Point;
use mesh::{Mesh, NoMemory};

// The calls of a boxed writer, one by one, with the effect on the writer in the box.

fn begin(form: &mut Box<dyn Form>, points: u32, faces: u32) -> Result<(), NoMemory>
    requires { IsFresh (received form.old) }
    ensures begun { OnOk result (received form.new ≡ begun points faces (received form.old)) }
    ensures kept { OnErr result (received form.new ≡ received form.old) }
    ensures kind { form.new.vtable ≡ form.old.vtable }
{
    form.begin(points, faces)
}

fn hand_point(form: &mut Box<dyn Form>, point: Point) -> Result<(), NoMemory>
    requires { TakesPoint (received form.old) }
    ensures taken { OnOk result (received form.new ≡ with_point point (received form.old)) }
    ensures kept { OnErr result (received form.new ≡ received form.old) }
    ensures kind { form.new.vtable ≡ form.old.vtable }
{
    form.vertex(point)
}

fn hand_face(form: &mut Box<dyn Form>, face: [u32; 3]) -> Result<(), NoMemory>
    requires { TakesFace face (received form.old) }
    ensures taken { OnOk result (received form.new ≡ with_face face (received form.old)) }
    ensures kept { OnErr result (received form.new ≡ received form.old) }
    ensures kind { form.new.vtable ≡ form.old.vtable }
{
    form.face(face)
}

fn end(form: &mut Box<dyn Form>) -> Result<(), NoMemory>
    requires { HasAllDue (received form.old) }
    ensures ended { OnOk result (received form.new ≡ with_end (received form.old)) }
    ensures kept { OnErr result (received form.new ≡ received form.old) }
    ensures kind { form.new.vtable ≡ form.old.vtable }
{
    form.end()
}

/// Passes all points to a writer that has begun.
fn hand_points(form: &mut Box<dyn Form>, points: &[Point]) -> Result<(), NoMemory>
    requires { HasPoints 0 (received form.old) points.now }
    ensures all { OnOk result (HasPoints (length points.now) (received form.new) points.now) }
    ensures due { (received form.new).faces_due ≡ (received form.old).faces_due }
    ensures front { (k : ℕ) × HasPoints k (received form.new) points.now }
    ensures kind { form.new.vtable ≡ form.old.vtable }
{
    for point in points {
        hand_point(form, *point)?;
    }
    Ok(())
}

/// Passes all faces to a writer that has all points.
fn hand_faces(
    form: &mut Box<dyn Form>,
    points: &[Point],
    faces: &[[u32; 3]],
) -> Result<(), NoMemory>
    requires due { HasFaces 0 (received form.old) points.now faces.now }
    requires each { All (IsFace (length points.now)) faces.now }
    ensures all { OnOk result (HasFaces (length faces.now) (received form.new) points.now faces.now) }
    ensures front { (k : ℕ) × HasFaces k (received form.new) points.now faces.now }
    ensures kind { form.new.vtable ≡ form.old.vtable }
{
    for face in faces {
        hand_face(form, *face)?;
    }
    Ok(())
}

/// Passes a valid mesh to a fresh writer: its points and then its faces, in order, once each.
///
/// After `NoMemory` the writer has received a prefix of them, and has not ended.
pub fn drive(form: &mut Box<dyn Form>, mesh: &Mesh) -> Result<(), NoMemory>
    requires fresh { IsFresh (received form.old) }
    requires valid { IsMesh mesh.now.points.items mesh.now.faces.items }
    ensures all { OnOk result (HasAll (received form.new) mesh.now.points.items mesh.now.faces.items) }
    ensures prefix { OnErr result (HasPrefix (received form.new) mesh.now.points.items mesh.now.faces.items) }
    ensures kind { form.new.vtable ≡ form.old.vtable }
{
    begin(form, mesh.points.len() as u32, mesh.faces.len() as u32)?;
    hand_points(form, &mesh.points)?;
    hand_faces(form, &mesh.points, &mesh.faces)?;
    end(form)?;
    Ok(())
}

/// Passes a valid mesh to each of these fresh writers, in order.
///
/// After `NoMemory` each has received a prefix of it, possibly all of it.
pub fn drive_all(forms: &mut [Box<dyn Form>], mesh: &Mesh) -> Result<(), NoMemory>
    requires fresh { All IsFresh (map (λ form. received form) forms.old) }
    requires valid { IsMesh mesh.now.points.items mesh.now.faces.items }
    ensures all { OnOk result (All (λ r. HasAll r mesh.now.points.items mesh.now.faces.items) (map (λ form. received form) forms.new)) }
    ensures fronts { OnErr result (All (λ r. HasFront r mesh.now.points.items mesh.now.faces.items) (map (λ form. received form) forms.new)) }
    ensures kinds { map (λ form. form.vtable) forms.new ≡ map (λ form. form.vtable) forms.old }
{
    for k in 0..forms.len() {
        drive(&mut forms[k], mesh)?;
    }
    Ok(())
}
