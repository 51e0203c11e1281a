//! The text of a slice. Depends on `line_text`.

ghost use Rattle.std.specs.Prelude.{◌≡◌, ◌++◌, OnOk, OnErr, length, take, map};
ghost use Rattle.std.specs.List.{flat_map};
ghost use Rattle.solid_slice.specs.Slices.{steps_of};
ghost use Rattle.solid_slice.specs.Texts.{loops_word, loop_word, numbers_line, step_line, ring_text, slice_text};

use crate::NoMemory;
use crate::step::{Ring, Step};
use line_text::{push_counted, push_number, push_signed};

#[tactic(auto, unfolding(crate::specs::Texts::loops_word))]
fn loops() -> &'static [u8]
    ensures { result.now ≡ loops_word }
{
    b"loops "
}

#[tactic(auto, unfolding(crate::specs::Texts::loop_word))]
fn one_loop() -> &'static [u8]
    ensures { result.now ≡ loop_word }
{
    b"loop "
}

/// Appends the line of a step with these numbers.
fn push_numbers(out: &mut Vec<u8>, face: u32, x: i64, y: i64, d: i64) -> Result<(), NoMemory>
    ensures ok { OnOk result (out.new.items ≡ out.old.items ++ numbers_line face x y d) }
    ensures kept { OnErr result (take (length out.old.items) out.new.items ≡ out.old.items) }
{
    push_number(out, u64::from(face), b' ')?;
    push_signed(out, x, b' ')?;
    push_signed(out, y, b' ')?;
    push_signed(out, d, b'\n')?;
    Ok(())
}

/// Appends the line of a step.
fn push_step(out: &mut Vec<u8>, step: Step) -> Result<(), NoMemory>
    ensures ok { OnOk result (out.new.items ≡ out.old.items ++ step_line step) }
    ensures kept { OnErr result (take (length out.old.items) out.new.items ≡ out.old.items) }
{
    push_numbers(out, step.face, step.x, step.y, step.d)
}

/// Appends the lines of steps, in order.
fn push_steps(out: &mut Vec<u8>, steps: &[Step]) -> Result<(), NoMemory>
    ensures ok { OnOk result (out.new.items ≡ out.old.items ++ flat_map step_line steps.now) }
    ensures kept { OnErr result (take (length out.old.items) out.new.items ≡ out.old.items) }
{
    for step in steps {
        push_step(out, *step)?;
    }
    Ok(())
}

/// Appends the number of steps of a loop, and their lines.
fn push_ring(out: &mut Vec<u8>, steps: &[Step]) -> Result<(), NoMemory>
    ensures ok { OnOk result (out.new.items ≡ out.old.items ++ ring_text steps.now) }
    ensures kept { OnErr result (take (length out.old.items) out.new.items ≡ out.old.items) }
{
    push_counted(out, one_loop(), steps.len() as u64)?;
    push_steps(out, steps)?;
    Ok(())
}

/// Appends the loops, in order.
fn push_rings(out: &mut Vec<u8>, rings: &[Ring]) -> Result<(), NoMemory>
    ensures ok { OnOk result (out.new.items ≡ out.old.items ++ flat_map ring_text (map steps_of rings.now)) }
    ensures kept { OnErr result (take (length out.old.items) out.new.items ≡ out.old.items) }
{
    for ring in rings {
        push_ring(out, &ring.steps)?;
    }
    Ok(())
}

fn push_parts(out: &mut Vec<u8>, rings: &[Ring]) -> Result<(), NoMemory>
    ensures ok { OnOk result (out.new.items ≡ out.old.items ++ slice_text (map steps_of rings.now)) }
    ensures kept { OnErr result (take (length out.old.items) out.new.items ≡ out.old.items) }
{
    push_counted(out, loops(), rings.len() as u64)?;
    push_rings(out, rings)?;
    Ok(())
}

/// Appends the text of a slice to `out`: a line `loops L`, and for each loop a line `loop N` and N lines `A X Y D`, one for
/// each step, with its face's number, its point's x and y times `d`, and `d`. Each line is ended by LF, and numbers are decimal
/// without leading zeros.
///
/// After `NoMemory`, `out` is unchanged.
pub fn push_slice(out: &mut Vec<u8>, rings: &[Ring]) -> Result<(), NoMemory>
    ensures printed { OnOk result (out.new.items ≡ out.old.items ++ slice_text (map steps_of rings.now)) }
    ensures kept { OnErr result (out.new.items ≡ out.old.items) }
{
    let start = out.len();
    let pushed = push_parts(out, rings);
    if pushed.is_err() {
        out.truncate(start);
    }
    pushed
}
