//! `demo N SEED`, its arguments, answer and lines: the result of `build` for a scan that is generated from a seed. Depends on
//! `gen_scan`, which generates the scan.
ghost use Rattle.std.specs.Prelude.{map, string_bytes, ◌≡◌, IfOk, ◌≤◌, Ok, OnOk, length};
ghost use Rattle.scan_rows.specs.Views.{shown_of};
ghost use Rattle.command_run.specs.Answers.{file_limit};
ghost use Rattle.command_run.specs.Replies.{answer_of};
ghost use Rattle.recon_cmd.specs.Answers.{read_as};
ghost use Rattle.recon_cmd.specs.Commands.{IsCommand, demo_of};
ghost use Rattle.recon_cmd.specs.Demo.{seed_of, Demonstrates, generated_text, demo_line};
ghost use Rattle.recon_cmd.specs.Options.{default_options};

mod words;

use crate::commands::build::line_of_build;
use crate::commands::{Command, Request};
use crate::options::{DEFAULT_SMOOTH, DEFAULT_UNIT, DEFAULT_VOTE, number_in};
use crate::stamps::stamp_of;
use command_run::{Line, NoMemory, Reply, Status, push_labelled};
use flow_net::{FlowHints, Settings};
use gen_scan::gen_scan;
use num_text::all_digits;
use recon_build::solve_scan_watched;
use scan::{ScanRefusal, push_scan, read_scan};
use scan_rows::{POINT_LIMIT, Scan};
use std::alloc::{AllocError, Global};
pub use words::Demo;

/// The maximal number of digits of a seed.
const MOST_DIGITS: usize = 20;

/// Parses the arguments after `demo`.
pub fn demo_command(words: &[String]) -> Option<Request<'_>>
    ensures { IsCommand result (demo_of (map string_bytes words.now)) }
{
    let [count, seed] = words else {
        return None;
    };
    let count = number_in(count.as_bytes(), 1, POINT_LIMIT)?;
    let seed = seed_in(seed.as_str())?;
    Some(Request::Command(Command::Demo(Demo { count, seed })))
}

/// Returns the number with 1 to 20 digits, if it is at most 2^64 - 1.
pub fn seed_in(text: &str) -> Option<u64>
    ensures { result ≡ seed_of text.now }
{
    if text.len() > MOST_DIGITS || !all_digits(text.as_bytes()) {
        return None;
    }
    match text.parse::<u64>() {
        Ok(seed) => Some(seed),
        Err(_) => None,
    }
}

/// Returns the answer of `demo`. The scan is printed and read as a file would be, and its surface is computed; no text of it is
/// made.
pub fn reply_to_demo<'a, W: FlowHints>(
    alloc: Global,
    demo: Demo,
    watch: &mut W,
) -> Result<Reply<'a>, NoMemory>
    ensures { IfOk result (λ reply. Demonstrates demo.count demo.seed (answer_of 0 reply)) }
{
    let (scan, text) = reread_scan(alloc, demo)?;
    let stamp = stamp_of(text, DEFAULT_UNIT, None);
    let settings = Settings {
        vote: DEFAULT_VOTE,
        smooth: DEFAULT_SMOOTH,
    };
    let solved = solve_scan_watched(alloc, &scan, settings, Some(stamp), watch)?;
    let built = line_of_build(alloc, &solved.cert, solved.mesh.faces.len())?;
    let line = line_of_demo(alloc, demo.count, demo.seed, &built)?;
    Ok(Reply {
        status: Status::Done,
        texts: Vec::new(alloc),
        line: Line::Made(line),
    })
}

/// Returns the scan that is read from the text of the generated one, and that text.
fn reread_scan(alloc: Global, demo: Demo) -> Result<(Scan, Vec<u8>), NoMemory>
    ensures read { IfOk result (λ read. read_as default_options (generated_text demo.count demo.seed) ≡ Ok (shown_of read.0)) }
    ensures text { IfOk result (λ read. read.1.items ≡ generated_text demo.count demo.seed) }
    ensures within { OnOk result (length (generated_text demo.count demo.seed) ≤ file_limit) }
{
    let scan = gen_scan(alloc, demo.count, demo.seed)?;
    let mut text = Vec::new(alloc);
    push_scan(&mut text, &scan)?;
    match read_scan(alloc, &text, DEFAULT_UNIT, None) {
        Ok(read) => Ok((read, text)),
        Err(why) => match why {
            ScanRefusal::NoMemory => Err(AllocError),
            // A printed scan can be read.
            _ => unreachable!(),
        },
    }
}

/// Returns the line of `demo`: the number of rows, the seed, and then the line of `build`.
#[tactic(auto, unfolding(crate::specs::Demo::demo_line))]
pub fn line_of_demo(alloc: Global, count: u32, seed: u64, built: &[u8]) -> Result<Vec<u8>, NoMemory>
    ensures { IfOk result (λ line. line.items ≡ demo_line count seed built.now) }
{
    let mut line = Vec::new(alloc);
    push_labelled(&mut line, b"demo ", u64::from(count))?;
    push_labelled(&mut line, b" ", seed)?;
    line.push(b' ')?;
    line.extend_from_slice(built)?;
    Ok(line)
}
