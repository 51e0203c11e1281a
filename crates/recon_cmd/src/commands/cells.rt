//! `cells IN OUT`, its arguments, answer and lines: the Delaunay cells of a scan's points and the box's corners. Depends on
//! `merge`, which finds the distinct points, on `delaunay`, which links their cells, and on `cell_net`, which lists these.
ghost use Rattle.std.specs.List.{flat_map};
ghost use Rattle.std.specs.Prelude.{map, string_bytes, ◌≡◌, false, IfOk, ◌++◌, OnOk};
ghost use Rattle.geo_sign.specs.Cells.{IsCellList};
ghost use Rattle.geo_sign.specs.Vertices.{boxed_vertices};
ghost use Rattle.scan_rows.specs.Shown.{Shown, IsShown};
ghost use Rattle.scan_rows.specs.Views.{shown_of};
ghost use Rattle.solution.specs.Scans.{points_of};
ghost use Rattle.command_run.specs.Replies.{answer_of};
ghost use Rattle.command_run.specs.Steps.{IsReplied, ReadsFor, CountsFaults};
ghost use Rattle.recon_cmd.specs.Cells.{cells_keys, cells_names, WritesCells, cells_line, cells_text, row_line, cells_task};
ghost use Rattle.recon_cmd.specs.Commands.{IsCommand, asked_by, cells_of, cells};
ghost use Rattle.recon_cmd.specs.OptionViews.{options_view};
ghost use Rattle.recon_cmd.specs.Words.{named};

use crate::commands::{Command, Request};
use crate::names::{NamesAndOptions, named};
use crate::options::{Key, Options};
use crate::whole_run::{Reading, read_input};
use cell_net::rising_cells;
use command_run::{Line, NoMemory, Reply, Status, Stop, Text, invalid_input};
use delaunay::build_watched;
use geo_sign::Point;
use host::Host;
use merge::merge;
use num_text::{push_ended, push_whole};
use scan_rows::Scan;
use std::alloc::Global;
use watch::Watch;

/// The options of `cells`.
const CELLS_KEYS: [Key; 2] = [Key::Unit, Key::Scanner];

/// The names of `cells IN OUT`.
#[derive(Clone, Copy, Debug)]
pub struct CellsNames<'a> {
    /// The input scan.
    pub input: &'a str,
    /// The output file for the cells.
    pub output: &'a str,
}

/// Parses the arguments after `cells`.
pub fn cells_command(words: &[String]) -> Option<Request<'_>>
    ensures { IsCommand result (asked_by cells_of (named 2 cells_keys (map string_bytes words.now))) }
{
    let Some(NamesAndOptions { names, options }) = named(words, 2, &CELLS_KEYS) else {
        return None;
    };
    let [input, output] = names else {
        return None;
    };
    let names = CellsNames {
        input: input.as_str(),
        output: output.as_str(),
    };
    Some(Request::Command(Command::Cells(names, options)))
}

/// Reads the scan and returns the answer of `cells`. Nothing is written or printed.
pub fn reply_to_cells<'a, H: Host, W: Watch>(
    alloc: Global,
    host: &mut H,
    names: &CellsNames<'a>,
    options: &Options,
    limit: u64,
    watch: &mut W,
) -> Result<Reply<'a>, Stop>
    requires { (H.state host.old).writing ≡ false }
    ensures replied { IfOk result (λ reply. IsReplied limit (cells_task (cells_names names.now) (options_view options.now)) reply (H.state host.old)) }
    ensures reads { ReadsFor limit (cells_task (cells_names names.now) (options_view options.now)) (H.state host.old) (H.state host.new) }
    ensures cause { CountsFaults result (H.state host.old).faults (H.state host.new).faults }
{
    match read_input(alloc, host, names.input, options, limit)? {
        Reading::Scan(scan, _) => Ok(reply_to_scan(alloc, &scan, names.output, watch)?),
        Reading::Refused(line) => Ok(invalid_input(alloc, line)),
    }
}

/// Returns the answer to a scan.
fn reply_to_scan<'a, W: Watch>(
    alloc: Global,
    scan: &Scan,
    output: &'a str,
    watch: &mut W,
) -> Result<Reply<'a>, NoMemory>
    ensures { IfOk result (λ reply. WritesCells output.now (shown_of scan.now) (answer_of 1 reply)) }
{
    let merged = merge(alloc, &scan.points)?;
    let cells = cells_of(alloc, &merged.points, watch)?;
    let text = text_of_cells(alloc, &cells)?;
    let line = line_of_cells(alloc, merged.points.len(), cells.len())?;
    let mut texts = Vec::new(alloc);
    texts.push(Text {
        name: output,
        bytes: text,
    })?;
    Ok(Reply {
        status: Status::Done,
        texts,
        line: Line::Made(line),
    })
}

/// Returns the cells of the distinct points of a scan, as sorted vertex tuples in ascending order. The links between them are
/// dropped.
fn cells_of<W: Watch>(
    alloc: Global,
    points: &[Point],
    watch: &mut W,
) -> Result<Vec<[u32; 4]>, NoMemory>
    requires { (scan : Shown) × IsShown scan × (points.now ≡ points_of scan) }
    ensures { IfOk result (λ cells. IsCellList (boxed_vertices points.now) cells.items) }
{
    let linked = build_watched(alloc, points, watch)?;
    rising_cells(alloc, &linked)
}

/// Returns the line of `cells`: the numbers of points and of cells.
#[tactic(auto, unfolding(crate::specs::Cells::cells_line))]
pub fn line_of_cells(alloc: Global, points: usize, cells: usize) -> Result<Vec<u8>, NoMemory>
    ensures { IfOk result (λ line. line.items ≡ cells_line points cells) }
{
    let mut line = Vec::new(alloc);
    line.extend_from_slice(b"points ")?;
    push_whole(&mut line, points as i128)?;
    line.extend_from_slice(b" cells ")?;
    push_whole(&mut line, cells as i128)?;
    line.push(b'\n')?;
    Ok(line)
}

/// Returns the text of cells: their number, and a line for each.
#[tactic(auto, unfolding(crate::specs::Cells::cells_text))]
pub fn text_of_cells(alloc: Global, cells: &[[u32; 4]]) -> Result<Vec<u8>, NoMemory>
    ensures { IfOk result (λ text. text.items ≡ cells_text cells.now) }
{
    let mut text = Vec::new(alloc);
    text.extend_from_slice(b"cells ")?;
    push_ended(&mut text, cells.len() as i128, b'\n')?;
    push_rows(&mut text, cells)?;
    Ok(text)
}

/// Appends a line for each cell.
fn push_rows(text: &mut Vec<u8>, cells: &[[u32; 4]]) -> Result<(), NoMemory>
    ensures { OnOk result (text.new.items ≡ text.old.items ++ flat_map row_line cells.now) }
{
    for cell in cells {
        push_row(text, *cell)?;
    }
    Ok(())
}

/// Appends the line of a cell.
#[tactic(auto, unfolding(crate::specs::Cells::row_line))]
fn push_row(text: &mut Vec<u8>, cell: [u32; 4]) -> Result<(), NoMemory>
    ensures { OnOk result (text.new.items ≡ text.old.items ++ row_line cell) }
{
    let [a, b, c, d] = cell;
    push_ended(text, i128::from(a), b' ')?;
    push_ended(text, i128::from(b), b' ')?;
    push_ended(text, i128::from(c), b' ')?;
    push_ended(text, i128::from(d), b'\n')
}
