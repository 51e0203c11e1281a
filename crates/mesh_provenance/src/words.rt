//! The fixed parts of the text of a mesh with its provenance.

ghost use Rattle.std.specs.Prelude.{◌≡◌};
ghost use Rattle.mesh_ply.specs.Texts.{ply_line, ascii_format_line, vertex_word, face_head, head_end};
ghost use Rattle.mesh_provenance.specs.Options.{pieces_word, split_word, flips_word, steps_word, within_word};
ghost use Rattle.mesh_provenance.specs.Simplifying.{simplify_word, faces_word, surface_word, move_word};
ghost use Rattle.mesh_provenance.specs.Texts.{finish_word, scale_word, digest_word};

#[tactic(auto, unfolding(mesh_ply::specs::Texts::ply_line))]
pub fn first_line() -> &'static [u8]
    ensures { result.now ≡ ply_line }
{
    b"ply\n"
}

#[tactic(auto, unfolding(mesh_ply::specs::Texts::ascii_format_line))]
pub fn format() -> &'static [u8]
    ensures { result.now ≡ ascii_format_line }
{
    b"format ascii 1.0\n"
}

#[tactic(auto, unfolding(mesh_ply::specs::Texts::vertex_word))]
pub fn vertices() -> &'static [u8]
    ensures { result.now ≡ vertex_word }
{
    b"element vertex "
}

#[tactic(auto, unfolding(crate::specs::Texts::finish_word))]
pub fn finish() -> &'static [u8]
    ensures { result.now ≡ finish_word }
{
    b"comment recon-mesh finish"
}

#[tactic(auto, unfolding(crate::specs::Simplifying::simplify_word))]
pub fn simplify() -> &'static [u8]
    ensures { result.now ≡ simplify_word }
{
    b"comment recon-mesh simplify within="
}

#[tactic(auto, unfolding(crate::specs::Simplifying::surface_word))]
pub fn surface() -> &'static [u8]
    ensures { result.now ≡ surface_word }
{
    b"surface=yes "
}

#[tactic(auto, unfolding(crate::specs::Simplifying::move_word))]
pub fn moves() -> &'static [u8]
    ensures { result.now ≡ move_word }
{
    b"move=yes "
}

#[tactic(auto, unfolding(crate::specs::Simplifying::faces_word))]
pub fn faces() -> &'static [u8]
    ensures { result.now ≡ faces_word }
{
    b"faces="
}

#[tactic(auto, unfolding(crate::specs::Texts::scale_word))]
pub fn scale() -> &'static [u8]
    ensures { result.now ≡ scale_word }
{
    b"comment scale "
}

#[tactic(auto, unfolding(crate::specs::Texts::digest_word))]
pub fn sha256() -> &'static [u8]
    ensures { result.now ≡ digest_word }
{
    b"comment sha256 "
}

#[tactic(auto, unfolding(crate::specs::Options::pieces_word))]
pub fn pieces() -> &'static [u8]
    ensures { result.now ≡ pieces_word }
{
    b" pieces="
}

#[tactic(auto, unfolding(crate::specs::Options::split_word))]
pub fn split() -> &'static [u8]
    ensures { result.now ≡ split_word }
{
    b" manifold=yes"
}

#[tactic(auto, unfolding(crate::specs::Options::flips_word))]
pub fn no_flips() -> &'static [u8]
    ensures { result.now ≡ flips_word }
{
    b" flips=no"
}

#[tactic(auto, unfolding(crate::specs::Options::steps_word))]
pub fn smooth() -> &'static [u8]
    ensures { result.now ≡ steps_word }
{
    b" smooth="
}

#[tactic(auto, unfolding(crate::specs::Options::within_word))]
pub fn within() -> &'static [u8]
    ensures { result.now ≡ within_word }
{
    b"within="
}

/// Returns the header from the number of vertices up to the number of faces.
#[tactic(auto, unfolding(mesh_ply::specs::Texts::x_line, mesh_ply::specs::Texts::y_line, mesh_ply::specs::Texts::z_line, mesh_ply::specs::Texts::face_word))]
pub fn header_to_faces() -> &'static [u8]
    ensures { result.now ≡ face_head }
{
    b"property int x\nproperty int y\nproperty int z\nelement face "
}

/// Returns the rest of the header.
#[tactic(auto, unfolding(mesh_ply::specs::Texts::list_line, mesh_ply::specs::Texts::header_end))]
pub fn header_rest() -> &'static [u8]
    ensures { result.now ≡ head_end }
{
    b"property list uchar int vertex_indices\nend_header\n"
}
