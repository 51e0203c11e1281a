//! The lines that commands share, and their parts, in memory. Depends on `num_text`, which prints integers.
ghost use Rattle.std.specs.Prelude.{◌≡◌, ◌++◌, IfOk, OnOk, Some};
ghost use Rattle.command_run.specs.Lines.{bad_arguments_line, too_long_mesh_line, labelled, mesh_error_line, text_line, number_line};

use crate::NoMemory;
use mesh_ply::MeshRefusal;
use num_text::push_whole;
use std::alloc::{AllocError, Global};

/// Returns the line for arguments that are no command.
#[tactic(auto, unfolding(crate::specs::Lines::bad_arguments_line))]
pub fn line_of_bad_arguments() -> &'static [u8]
    ensures { result.now ≡ bad_arguments_line }
{
    b"refused words\n"
}

/// Returns the line for a mesh's file that is longer than the limit.
#[tactic(auto, unfolding(crate::specs::Lines::too_long_mesh_line))]
pub fn line_of_too_long_mesh() -> &'static [u8]
    ensures { result.now ≡ too_long_mesh_line }
{
    b"refused 19 too_long mesh\n"
}

/// Appends a label, and a number after it.
pub fn push_labelled(line: &mut Vec<u8>, label: &[u8], number: u64) -> Result<(), NoMemory>
    ensures { OnOk result (line.new.items ≡ line.old.items ++ labelled label.now number) }
{
    line.extend_from_slice(label)?;
    push_whole(line, i128::from(number))?;
    Ok(())
}

/// Returns the line for a mesh that is rejected. Out of memory has no line.
pub fn line_of_mesh_error(alloc: Global, why: MeshRefusal) -> Result<Vec<u8>, NoMemory>
    ensures { IfOk result (λ line. mesh_error_line why ≡ Some line.items) }
{
    match why {
        MeshRefusal::BadLine(line) => {
            line_of_number(alloc, b"refused 29 mesh_line line ", u64::from(line))
        }
        MeshRefusal::MeshCut => line_of_text(alloc, b"refused 30 mesh_cut"),
        MeshRefusal::NoMemory => Err(AllocError),
    }
}

/// Returns a text alone.
#[tactic(auto, unfolding(crate::specs::Lines::text_line))]
pub fn line_of_text(alloc: Global, text: &[u8]) -> Result<Vec<u8>, NoMemory>
    ensures { IfOk result (λ line. line.items ≡ text_line text.now) }
{
    let mut line = Vec::new(alloc);
    line.extend_from_slice(text)?;
    line.push(b'\n')?;
    Ok(line)
}

/// Returns a text, and a number after it.
#[tactic(auto, unfolding(crate::specs::Lines::number_line))]
pub fn line_of_number(alloc: Global, text: &[u8], number: u64) -> Result<Vec<u8>, NoMemory>
    ensures { IfOk result (λ line. line.items ≡ number_line text.now number) }
{
    let mut line = Vec::new(alloc);
    push_labelled(&mut line, text, number)?;
    line.push(b'\n')?;
    Ok(line)
}
