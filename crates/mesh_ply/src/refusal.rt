//! Why a text is not a mesh.

ghost use Rattle.std.specs.Prelude.{◌≡◌};
ghost use Rattle.mesh_ply.specs.Refusals.{mesh_refusal};

use line_text::LineRefusal;
use thiserror::Error;

/// Why bytes are not the text of a mesh. Lines are counted from 1, and a line number stops at the maximum of 32 bits.
#[derive(Clone, Copy, Debug, PartialEq, Eq, Drop, Error)]
pub enum MeshRefusal {
    /// The line is invalid, or it begins after the last line.
    #[error("line {0} is not of its form")]
    BadLine(u32),
    /// The bytes end before the end of an expected line.
    #[error("the mesh is cut")]
    MeshCut,
    /// Out of memory.
    #[error("out of memory")]
    NoMemory,
}

/// Converts the error of a line to one of a mesh. No list of a mesh has an order.
pub fn refusal_of_mesh(refusal: LineRefusal) -> MeshRefusal
    ensures { result ≡ mesh_refusal refusal }
{
    match refusal {
        LineRefusal::BadLine(line) | LineRefusal::Order(line) => {
            MeshRefusal::BadLine(line.min(4_294_967_295) as u32)
        }
        LineRefusal::Cut => MeshRefusal::MeshCut,
        LineRefusal::NoMemory => MeshRefusal::NoMemory,
    }
}
