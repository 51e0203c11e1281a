//! The fixed parts of a mesh's text.

ghost use Rattle.std.specs.Prelude.{◌≡◌};
ghost use Rattle.mesh_ply.specs.Texts.{ply_line, ascii_format_line, vertex_word, x_line, y_line, z_line, face_word, list_line, header_end, vertex_head, face_head, head_end};

/// Returns the header up to the number of vertices.
#[tactic(auto, unfolding(crate::specs::Texts::ply_line, crate::specs::Texts::ascii_format_line, crate::specs::Texts::vertex_word))]
pub fn header_to_vertices() -> &'static [u8]
    ensures { result.now ≡ vertex_head }
{
    b"ply\nformat ascii 1.0\nelement vertex "
}

/// Returns the header from there up to the number of faces.
#[tactic(auto, unfolding(crate::specs::Texts::x_line, crate::specs::Texts::y_line, crate::specs::Texts::z_line, crate::specs::Texts::face_word))]
pub fn header_to_faces() -> &'static [u8]
    ensures { result.now ≡ face_head }
{
    b"property int x\nproperty int y\nproperty int z\nelement face "
}

/// Returns the rest of the header.
#[tactic(auto, unfolding(crate::specs::Texts::list_line, crate::specs::Texts::header_end))]
pub fn header_rest() -> &'static [u8]
    ensures { result.now ≡ head_end }
{
    b"property list uchar int vertex_indices\nend_header\n"
}

#[tactic(auto, unfolding(crate::specs::Texts::ply_line))]
pub fn first_line() -> &'static [u8]
    ensures { result.now ≡ ply_line }
{
    b"ply\n"
}

#[tactic(auto, unfolding(crate::specs::Texts::ascii_format_line))]
pub fn format() -> &'static [u8]
    ensures { result.now ≡ ascii_format_line }
{
    b"format ascii 1.0\n"
}

#[tactic(auto, unfolding(crate::specs::Texts::vertex_word))]
pub fn vertices() -> &'static [u8]
    ensures { result.now ≡ vertex_word }
{
    b"element vertex "
}

#[tactic(auto, unfolding(crate::specs::Texts::x_line))]
pub fn x() -> &'static [u8]
    ensures { result.now ≡ x_line }
{
    b"property int x\n"
}

#[tactic(auto, unfolding(crate::specs::Texts::y_line))]
pub fn y() -> &'static [u8]
    ensures { result.now ≡ y_line }
{
    b"property int y\n"
}

#[tactic(auto, unfolding(crate::specs::Texts::z_line))]
pub fn z() -> &'static [u8]
    ensures { result.now ≡ z_line }
{
    b"property int z\n"
}

#[tactic(auto, unfolding(crate::specs::Texts::face_word))]
pub fn faces() -> &'static [u8]
    ensures { result.now ≡ face_word }
{
    b"element face "
}

#[tactic(auto, unfolding(crate::specs::Texts::list_line))]
pub fn list() -> &'static [u8]
    ensures { result.now ≡ list_line }
{
    b"property list uchar int vertex_indices\n"
}

#[tactic(auto, unfolding(crate::specs::Texts::header_end))]
pub fn last_line() -> &'static [u8]
    ensures { result.now ≡ header_end }
{
    b"end_header\n"
}
