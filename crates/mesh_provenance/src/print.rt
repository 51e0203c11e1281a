//! Prints a mesh with its provenance. Depends on `mesh_ply` for the lines of points and faces.

ghost use Rattle.std.specs.Prelude.{◌≡◌, ◌++◌, OnOk};
ghost use Rattle.mesh_provenance.specs.Options.{pieces_text, split_text, flips_text, smooth_text, options_end};
ghost use Rattle.mesh_provenance.specs.Simplifying.{simplify_word, covered_text, moved_text, simplify_end};
ghost use Rattle.mesh_provenance.specs.Texts.{finish_word, digest_line, made_line, provenance_lines, text_after_format, annotated_text};

use crate::provenance::Provenance;
use crate::words::{
    faces, finish, first_line, format, header_rest, header_to_faces, moves, no_flips, pieces,
    scale, sha256, simplify, smooth, split, surface, vertices, within,
};
use cert_text::digits_of;
use finish_options::{FinishOptions, Made, SimplifyOptions, SmoothOptions};
use line_text::push_counted;
use mesh::{Mesh, NoMemory};
use mesh_ply::{push_faces, push_points};
use num_text::push_whole;

/// Appends the number of pieces, if there is one.
fn push_pieces(out: &mut Vec<u8>, number: Option<u32>) -> Result<(), NoMemory>
    ensures { OnOk result (out.new.items ≡ out.old.items ++ pieces_text number) }
{
    match number {
        None => Ok(()),
        Some(number) => {
            out.extend_from_slice(pieces())?;
            push_whole(out, i128::from(number))
        }
    }
}

/// Appends the split of vertices, if there is one.
fn push_split(out: &mut Vec<u8>, manifold: bool) -> Result<(), NoMemory>
    ensures { OnOk result (out.new.items ≡ out.old.items ++ split_text manifold) }
{
    if manifold {
        out.extend_from_slice(split())
    } else {
        Ok(())
    }
}

/// Appends that edges are not flipped, if they are not.
fn push_flips(out: &mut Vec<u8>, flips: bool) -> Result<(), NoMemory>
    ensures { OnOk result (out.new.items ≡ out.old.items ++ flips_text flips) }
{
    if flips {
        Ok(())
    } else {
        out.extend_from_slice(no_flips())
    }
}

/// Appends the numbers of smoothing, if there is smoothing.
fn push_smoothing(out: &mut Vec<u8>, smoothing: Option<SmoothOptions>) -> Result<(), NoMemory>
    ensures { OnOk result (out.new.items ≡ out.old.items ++ smooth_text smoothing) }
{
    match smoothing {
        None => Ok(()),
        Some(numbers) => {
            out.extend_from_slice(smooth())?;
            push_whole(out, i128::from(numbers.steps))?;
            out.push(b' ')?;
            out.extend_from_slice(within())?;
            push_whole(out, i128::from(numbers.within))
        }
    }
}

/// Appends the line of a finished mesh.
fn push_options(out: &mut Vec<u8>, options: FinishOptions) -> Result<(), NoMemory>
    ensures { OnOk result (out.new.items ≡ out.old.items ++ (finish_word ++ options_end options)) }
{
    out.extend_from_slice(finish())?;
    push_pieces(out, options.pieces)?;
    push_split(out, options.manifold)?;
    push_flips(out, options.flips)?;
    push_smoothing(out, options.smoothing)?;
    out.push(b'\n')?;
    Ok(())
}

/// Appends that all points are meant, if they are.
fn push_surface(out: &mut Vec<u8>, all: bool) -> Result<(), NoMemory>
    ensures { OnOk result (out.new.items ≡ out.old.items ++ covered_text all) }
{
    if all {
        out.extend_from_slice(surface())
    } else {
        Ok(())
    }
}

/// Appends that vertices move, if they do.
fn push_moves(out: &mut Vec<u8>, asked: bool) -> Result<(), NoMemory>
    ensures { OnOk result (out.new.items ≡ out.old.items ++ moved_text asked) }
{
    if asked {
        out.extend_from_slice(moves())
    } else {
        Ok(())
    }
}

/// Appends the line of a simplified mesh.
fn push_simplifying(out: &mut Vec<u8>, options: SimplifyOptions) -> Result<(), NoMemory>
    ensures { OnOk result (out.new.items ≡ out.old.items ++ (simplify_word ++ simplify_end options)) }
{
    out.extend_from_slice(simplify())?;
    push_whole(out, i128::from(options.within))?;
    out.push(b' ')?;
    push_surface(out, options.surface)?;
    push_moves(out, options.moves)?;
    push_counted(out, faces(), u64::from(options.faces))?;
    Ok(())
}

/// Appends the line of what was done.
fn push_made(out: &mut Vec<u8>, made: Made) -> Result<(), NoMemory>
    ensures { OnOk result (out.new.items ≡ out.old.items ++ made_line made) }
{
    match made {
        Made::Finish(options) => push_options(out, options),
        Made::Simplify(options) => push_simplifying(out, options),
    }
}

/// Appends the line of a digest.
fn push_digest(out: &mut Vec<u8>, digest: &[u8; 32]) -> Result<(), NoMemory>
    ensures { OnOk result (out.new.items ≡ out.old.items ++ digest_line digest.now) }
{
    let digits = digits_of(digest);
    out.extend_from_slice(sha256())?;
    out.extend_from_slice(&digits)?;
    out.push(b'\n')?;
    Ok(())
}

/// Appends the three lines of a provenance.
fn push_provenance(out: &mut Vec<u8>, provenance: &Provenance) -> Result<(), NoMemory>
    ensures { OnOk result (out.new.items ≡ out.old.items ++ provenance_lines provenance.now) }
{
    push_made(out, provenance.made)?;
    push_counted(out, scale(), u64::from(provenance.fine))?;
    push_digest(out, &provenance.digest)?;
    Ok(())
}

/// Appends the printed form of a mesh after its first two lines.
fn push_rest(out: &mut Vec<u8>, mesh: &Mesh) -> Result<(), NoMemory>
    ensures { OnOk result (out.new.items ≡ out.old.items ++ text_after_format mesh.now.points.items mesh.now.faces.items) }
{
    push_counted(out, vertices(), mesh.points.len() as u64)?;
    push_counted(out, header_to_faces(), mesh.faces.len() as u64)?;
    out.extend_from_slice(header_rest())?;
    push_points(out, &mesh.points)?;
    push_faces(out, &mesh.faces)?;
    Ok(())
}

/// Appends the text of a mesh with its provenance: the printed form of the mesh with three lines of comments after its first two.
///
/// `NoMemory` says nothing about `text`.
pub fn push_annotated(
    text: &mut Vec<u8>,
    provenance: &Provenance,
    mesh: &Mesh,
) -> Result<(), NoMemory>
    ensures { OnOk result (text.new.items ≡ text.old.items ++ annotated_text provenance.now mesh.now.points.items mesh.now.faces.items) }
{
    text.extend_from_slice(first_line())?;
    text.extend_from_slice(format())?;
    push_provenance(text, provenance)?;
    push_rest(text, mesh)?;
    Ok(())
}
