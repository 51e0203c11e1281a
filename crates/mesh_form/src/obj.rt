//! Wavefront OBJ as a writer.
ghost use Rattle.std.specs.Prelude.{◌≡◌, ◌++◌, [], ◌∷◌, OnOk, OnErr, length, take};
ghost use Rattle.std.specs.List.{flat_map};
ghost use Rattle.mesh_form.specs.Texts.{v_word, f_word, obj_vertex_line, triangle_line, obj_text};

use crate::form::Form;
use crate::text_form::{FileFormat, TextForm};
use geo_sign::Point;
use line_text::push_number;
use mesh::{Mesh, NoMemory};
use mesh_ply::push_point;
use std::alloc::Global;
use std::marker::Model;

#[tactic(auto, unfolding(crate::specs::Texts::v_word))]
fn vertex_word() -> &'static [u8]
    ensures { result.now ≡ v_word }
{
    b"v "
}

#[tactic(auto, unfolding(crate::specs::Texts::f_word))]
fn face_word() -> &'static [u8]
    ensures { result.now ≡ f_word }
{
    b"f "
}

fn push_vertex(out: &mut Vec<u8>, point: Point) -> Result<(), NoMemory>
    ensures ok { OnOk result (out.new.items ≡ out.old.items ++ obj_vertex_line point) }
    ensures kept { OnErr result (take (length out.old.items) out.new.items ≡ out.old.items) }
{
    out.extend_from_slice(vertex_word())?;
    push_point(out, point)
}

/// Appends the line of a face with these three indices, which OBJ counts from 1.
fn push_places(out: &mut Vec<u8>, a: u32, b: u32, c: u32) -> Result<(), NoMemory>
    ensures ok { OnOk result (out.new.items ≡ out.old.items ++ triangle_line (a ∷ b ∷ c ∷ [])) }
    ensures kept { OnErr result (take (length out.old.items) out.new.items ≡ out.old.items) }
{
    out.extend_from_slice(face_word())?;
    push_number(out, u64::from(a) + 1, b' ')?;
    push_number(out, u64::from(b) + 1, b' ')?;
    push_number(out, u64::from(c) + 1, b'\n')?;
    Ok(())
}

fn push_triangle(out: &mut Vec<u8>, face: [u32; 3]) -> Result<(), NoMemory>
    ensures ok { OnOk result (out.new.items ≡ out.old.items ++ triangle_line face) }
    ensures kept { OnErr result (take (length out.old.items) out.new.items ≡ out.old.items) }
{
    let [a, b, c] = face;
    push_places(out, a, b, c)
}

fn push_vertices(out: &mut Vec<u8>, points: &[Point]) -> Result<(), NoMemory>
    ensures ok { OnOk result (out.new.items ≡ out.old.items ++ flat_map obj_vertex_line points.now) }
    ensures kept { OnErr result (take (length out.old.items) out.new.items ≡ out.old.items) }
{
    for point in points {
        push_vertex(out, *point)?;
    }
    Ok(())
}

fn push_triangles(out: &mut Vec<u8>, faces: &[[u32; 3]]) -> Result<(), NoMemory>
    ensures ok { OnOk result (out.new.items ≡ out.old.items ++ flat_map triangle_line faces.now) }
    ensures kept { OnErr result (take (length out.old.items) out.new.items ≡ out.old.items) }
{
    for face in faces {
        push_triangle(out, *face)?;
    }
    Ok(())
}

/// Wavefront OBJ: a line `v x y z` for each point and a line `f a b c` for each face, whose numbers count from 1.
pub struct Obj;

impl FileFormat for Obj {
    ghost text = { obj_text };

    fn push_text(out: &mut Vec<u8>, mesh: &Mesh) -> Result<(), NoMemory> {
        push_vertices(out, &mesh.points)?;
        push_triangles(out, &mesh.faces)
    }
}

/// The writer whose text is Wavefront OBJ. Contracts see it as what it has received.
#[derive(Drop)]
pub struct ObjForm {
    form: TextForm<Obj>,
}

impl Model for ObjForm {
    ghost use Rattle.mesh_form.specs.Received.{Received};

    ghost Value = { Received };

    ghost view = { λ a. a.form };
}

impl ObjForm {
    ghost use Rattle.std.specs.Prelude.{◌≡◌};
    ghost use Rattle.mesh_form.specs.Received.{fresh};

    /// Returns a fresh writer. Allocates no memory.
    pub fn new(alloc: Global) -> ObjForm
        ensures { result ≡ fresh }
    {
        ObjForm {
            form: TextForm::new(alloc),
        }
    }
}

impl Form for ObjForm {
    ghost received = { λ form. form };

    ghost text_of = { λ form. obj_text form.points form.faces };

    fn begin(&mut self, points: u32, faces: u32) -> Result<(), NoMemory> {
        self.form.begin(points, faces)
    }

    fn vertex(&mut self, point: Point) -> Result<(), NoMemory> {
        self.form.vertex(point)
    }

    fn face(&mut self, face: [u32; 3]) -> Result<(), NoMemory> {
        self.form.face(face)
    }

    fn end(&mut self) -> Result<(), NoMemory> {
        self.form.end()
    }

    fn text(&self) -> &[u8] {
        self.form.text()
    }
}
