//! The lines of verdicts, in memory. Depends on `recon_check`, which has the verdicts, and on `cert_text`, which prints
//! digests.
ghost use Rattle.std.specs.Fmt.{signed_decimal};
ghost use Rattle.std.specs.Prelude.{◌≡◌, IfOk, codes, ◌++◌, OnOk, Some};
ghost use Rattle.geo_sign.specs.Point.{point};
ghost use Rattle.scan.specs.PlainForm.{spaced};
ghost use Rattle.command_run.specs.Lines.{labelled};
ghost use Rattle.recon_cmd.specs.Check.{yes_line, reason_line, digests_line, amounts_line, scanners_line, scanner_text, which_word, line_with_numbers};

use cert_text::digits_of;
use command_run::{NoMemory, line_of_number, line_of_text, push_labelled};
use geo_sign::Point;
use num_text::{push_natural, push_whole};
use recon_check::{Reason, Which};
use std::alloc::Global;

/// Returns the line for yes: the numbers of inside cells and of faces, and the cost.
#[tactic(auto, unfolding(crate::specs::Check::yes_line))]
pub fn line_of_yes(alloc: Global, inside: u64, faces: u64, cost: u64) -> Result<Vec<u8>, NoMemory>
    ensures { IfOk result (λ line. line.items ≡ yes_line inside faces cost) }
{
    let mut line = Vec::new(alloc);
    push_labelled(&mut line, b"yes inside ", inside)?;
    push_labelled(&mut line, b" faces ", faces)?;
    push_labelled(&mut line, b" cost ", cost)?;
    line.push(b'\n')?;
    Ok(line)
}

/// Returns the line for the reason of a no.
pub fn line_of_reason(alloc: Global, reason: &Reason) -> Result<Vec<u8>, NoMemory>
    ensures { IfOk result (λ line. line.items ≡ reason_line reason.now) }
{
    match reason {
        Reason::CertLine(line) => line_of_number(alloc, b"no 1 cert_line line ", *line),
        Reason::CertOrder(line) => line_of_number(alloc, b"no 2 cert_order line ", *line),
        Reason::CertCut => line_of_text(alloc, b"no 3 cert_cut"),
        Reason::OtherScan { stated, here } => line_of_digests(alloc, stated, here),
        Reason::OtherUnit { stated, here } => line_of_units(alloc, *stated, *here),
        Reason::OtherFixed { stated, here } => line_of_scanners(alloc, stated, here),
        Reason::OtherCounts {
            which,
            stated,
            here,
        } => line_of_counts(alloc, *which, *stated, *here),
        Reason::NoSuchCell { row } => line_of_number(alloc, b"no 5 no_such_cell row ", *row),
        Reason::NoSuchFacet { row } => line_of_number(alloc, b"no 6 no_such_facet row ", *row),
        Reason::NoSuchSink { row } => line_of_number(alloc, b"no 7 no_such_sink row ", *row),
        Reason::FixedInside { cell } => line_of_numbers(alloc, b"no 8 fixed_inside", cell),
        Reason::OverCapacity { facet, flow, cap } => {
            line_of_over(alloc, b"no 9 over_capacity", facet, *flow, *cap)
        }
        Reason::OverSink { cell, flow, cap } => {
            line_of_over(alloc, b"no 10 over_sink", cell, *flow, *cap)
        }
        Reason::Unbalanced {
            cell,
            amount_in,
            amount_out,
        } => line_of_unbalanced(alloc, cell, *amount_in, *amount_out),
        Reason::NotEqual { value, cost } => {
            line_of_costs(alloc, b"no 12 not_equal", b" value ", *value, *cost)
        }
        Reason::NotLeast { cell } => line_of_numbers(alloc, b"no 13 not_least", cell),
        Reason::WrongCost { stated, cost } => {
            let (stated, cost) = (u128::from(*stated), u128::from(*cost));
            line_of_costs(alloc, b"no 14 wrong_cost", b" stated ", stated, cost)
        }
        Reason::MeshDiffers { place } => {
            line_of_number(alloc, b"no 15 mesh_differs at ", *place as u64)
        }
    }
}

/// Returns the line with the digest of the file that a certificate belongs to, and that of the file that was read.
#[tactic(auto, unfolding(crate::specs::Check::digests_line))]
fn line_of_digests(alloc: Global, stated: &[u8; 32], here: &[u8; 32]) -> Result<Vec<u8>, NoMemory>
    ensures { IfOk result (λ line. line.items ≡ digests_line (codes "no 16 other_scan") stated.now here.now) }
{
    let stated = digits_of(stated);
    let here = digits_of(here);
    let mut line = Vec::new(alloc);
    line.extend_from_slice(b"no 16 other_scan")?;
    line.extend_from_slice(b" stated ")?;
    line.extend_from_slice(&stated)?;
    line.extend_from_slice(b" here ")?;
    line.extend_from_slice(&here)?;
    line.push(b'\n')?;
    Ok(line)
}

/// Returns the line with the scale of a certificate, and that of this run.
fn line_of_units(alloc: Global, stated: u32, here: u32) -> Result<Vec<u8>, NoMemory>
    ensures { IfOk result (λ line. line.items ≡ amounts_line (codes "no 17 other_unit") (codes " stated ") (codes " here ") stated here) }
{
    let stated = u128::from(stated);
    let here = u128::from(here);
    line_of_amounts(
        alloc,
        b"no 17 other_unit",
        &[],
        (b" stated ", stated),
        (b" here ", here),
    )
}

/// Returns the line with the fixed scanner of a certificate, and that of this run.
#[tactic(auto, unfolding(crate::specs::Check::scanners_line))]
fn line_of_scanners(
    alloc: Global,
    stated: &Option<Point>,
    here: &Option<Point>,
) -> Result<Vec<u8>, NoMemory>
    ensures { IfOk result (λ line. line.items ≡ scanners_line (codes "no 18 other_fixed") stated.now here.now) }
{
    let mut line = Vec::new(alloc);
    line.extend_from_slice(b"no 18 other_fixed")?;
    line.extend_from_slice(b" stated ")?;
    push_scanner(&mut line, stated)?;
    line.extend_from_slice(b" here ")?;
    push_scanner(&mut line, here)?;
    line.push(b'\n')?;
    Ok(line)
}

/// Appends a fixed scanner, or `none`.
fn push_scanner(line: &mut Vec<u8>, scanner: &Option<Point>) -> Result<(), NoMemory>
    ensures { OnOk result (line.new.items ≡ line.old.items ++ scanner_text scanner.now) }
{
    match scanner {
        None => line.extend_from_slice(b"none"),
        Some(point) => push_point(line, point),
    }
}

/// Appends the coordinates of a point, separated by single spaces.
fn push_point(line: &mut Vec<u8>, point: &Point) -> Result<(), NoMemory>
    ensures { OnOk result (line.new.items ≡ line.old.items ++ scanner_text (Some point.now)) }
{
    push_three(line, point.x(), point.y(), point.z())
}

/// Appends three coordinates, separated by single spaces.
fn push_three(line: &mut Vec<u8>, x: i32, y: i32, z: i32) -> Result<(), NoMemory>
    ensures { OnOk result (line.new.items ≡ line.old.items ++ scanner_text (Some (point x y z))) }
{
    push_coordinate(line, x)?;
    line.push(b' ')?;
    push_coordinate(line, y)?;
    line.push(b' ')?;
    push_coordinate(line, z)?;
    Ok(())
}

/// Appends a coordinate.
fn push_coordinate(line: &mut Vec<u8>, coordinate: i32) -> Result<(), NoMemory>
    ensures { OnOk result (line.new.items ≡ line.old.items ++ signed_decimal coordinate) }
{
    push_whole(line, i128::from(coordinate))?;
    Ok(())
}

/// Returns the line with a number that a certificate states, and the scan's own.
fn line_of_counts(alloc: Global, which: Which, stated: u32, here: u32) -> Result<Vec<u8>, NoMemory>
    ensures { IfOk result (λ line. line.items ≡ amounts_line (codes "no 4 other_counts " ++ which_word which) (codes " stated ") (codes " here ") stated here) }
{
    let stated = u128::from(stated);
    let here = u128::from(here);
    line_of_amounts(
        alloc,
        text_of(which),
        &[],
        (b" stated ", stated),
        (b" here ", here),
    )
}

/// Returns a text, numbers after it, and the flow and the capacity there.
fn line_of_over(
    alloc: Global,
    text: &[u8],
    numbers: &[u32],
    flow: u64,
    cap: u64,
) -> Result<Vec<u8>, NoMemory>
    ensures { IfOk result (λ line. line.items ≡ amounts_line (text.now ++ spaced numbers.now) (codes " flow ") (codes " cap ") flow cap) }
{
    let flow = u128::from(flow);
    let cap = u128::from(cap);
    line_of_amounts(alloc, text, numbers, (b" flow ", flow), (b" cap ", cap))
}

/// Returns the line with a cell, its inflow and its outflow.
fn line_of_unbalanced(
    alloc: Global,
    cell: &[u32],
    amount_in: u128,
    amount_out: u128,
) -> Result<Vec<u8>, NoMemory>
    ensures { IfOk result (λ line. line.items ≡ amounts_line (codes "no 11 unbalanced" ++ spaced cell.now) (codes " in ") (codes " out ") amount_in amount_out) }
{
    line_of_amounts(
        alloc,
        b"no 11 unbalanced",
        cell,
        (b" in ", amount_in),
        (b" out ", amount_out),
    )
}

/// Returns a text, an amount after its label, and the cost of labels.
fn line_of_costs(
    alloc: Global,
    text: &[u8],
    label: &[u8],
    amount: u128,
    cost: u128,
) -> Result<Vec<u8>, NoMemory>
    ensures { IfOk result (λ line. line.items ≡ amounts_line text.now label.now (codes " cost ") amount cost) }
{
    line_of_amounts(alloc, text, &[], (label, amount), (b" cost ", cost))
}

/// Returns a text, and numbers after it.
#[tactic(auto, unfolding(crate::specs::Check::line_with_numbers))]
fn line_of_numbers(alloc: Global, text: &[u8], numbers: &[u32]) -> Result<Vec<u8>, NoMemory>
    ensures { IfOk result (λ line. line.items ≡ line_with_numbers text.now numbers.now) }
{
    let mut line = Vec::new(alloc);
    line.extend_from_slice(text)?;
    push_spaced(&mut line, numbers)?;
    line.push(b'\n')?;
    Ok(line)
}

/// Returns a text, numbers after it, and two amounts, each after its label.
#[tactic(auto, unfolding(crate::specs::Check::amounts_line))]
fn line_of_amounts(
    alloc: Global,
    text: &[u8],
    numbers: &[u32],
    first: (&[u8], u128),
    second: (&[u8], u128),
) -> Result<Vec<u8>, NoMemory>
    ensures { IfOk result (λ line. line.items ≡ amounts_line (text.now ++ spaced numbers.now) first.entry.0.now second.entry.0.now first.entry.1 second.entry.1) }
{
    let mut line = Vec::new(alloc);
    line.extend_from_slice(text)?;
    push_spaced(&mut line, numbers)?;
    push_amount(&mut line, first.0, first.1)?;
    push_amount(&mut line, second.0, second.1)?;
    line.push(b'\n')?;
    Ok(line)
}

/// Appends numbers, each after a space.
fn push_spaced(line: &mut Vec<u8>, numbers: &[u32]) -> Result<(), NoMemory>
    ensures { OnOk result (line.new.items ≡ line.old.items ++ spaced numbers.now) }
{
    for number in numbers {
        push_labelled(line, b" ", u64::from(*number))?;
    }
    Ok(())
}

/// Appends a label, and an amount after it.
fn push_amount(line: &mut Vec<u8>, label: &[u8], amount: u128) -> Result<(), NoMemory>
    ensures { OnOk result (line.new.items ≡ line.old.items ++ labelled label.now amount) }
{
    line.extend_from_slice(label)?;
    push_natural(line, amount)
}

/// Returns the text for a number of a certificate that is not the scan's own.
fn text_of(which: Which) -> &'static [u8]
    ensures { result.now ≡ codes "no 4 other_counts " ++ which_word which }
{
    match which {
        Which::Points => b"no 4 other_counts points",
        Which::Scanners => b"no 4 other_counts scanners",
        Which::Sights => b"no 4 other_counts sights",
        Which::Vote => b"no 4 other_counts vote",
        Which::Smooth => b"no 4 other_counts smooth",
    }
}
