//! `ask IN POINTS OUT`, its arguments, answer and lines: classifies points as inside or outside the best surface of a scan.
//! Depends on `solid_query`, which reads the points and finds their labels, and on `merge`, which finds the distinct points of
//! the scan.
ghost use Rattle.std.specs.List.{flat_map};
ghost use Rattle.std.specs.Prelude.{map, string_bytes, ◌≡◌, false, IfOk, length, All, count_by, Some, ◌++◌, OnOk};
ghost use Rattle.geo_sign.specs.Point.{IsWithin};
ghost use Rattle.geo_sign.specs.declared.point.TheConstants.{DATA_LIMIT};
ghost use Rattle.scan_rows.specs.Views.{shown_of};
ghost use Rattle.solid_query.specs.Queries.{points_in};
ghost use Rattle.solution.specs.Scans.{points_of};
ghost use Rattle.command_run.specs.Replies.{answer_of};
ghost use Rattle.command_run.specs.Steps.{IsReplied, ReadsFor, CountsFaults};
ghost use Rattle.recon_cmd.specs.Answers.{ToContent, or_line};
ghost use Rattle.recon_cmd.specs.Ask.{ask_names, AskAnswer, IsAskReply, WritesLabels, too_long_points_line, query_refusal_line, ask_line, labels_text, label_line, ask_task};
ghost use Rattle.recon_cmd.specs.Commands.{IsCommand, ask_of, asked_by};
ghost use Rattle.recon_cmd.specs.OptionViews.{options_view};
ghost use Rattle.recon_cmd.specs.Steps.{ReadsOn};
ghost use Rattle.recon_cmd.specs.Words.{all_keys, named};

use crate::commands::{Command, Request};
use crate::names::{ALL_KEYS, NamesAndOptions, named};
use crate::options::Options;
use crate::whole_run::{Reading, read_input};
use command_run::{
    Line, NoMemory, Reply, Status, Stop, Text, invalid_input, line_of_number, push_labelled,
};
use flow_net::FlowHints;
use geo_sign::Point;
use host::{Host, ReadRefusal, read_all};
use merge::merge;
use num_text::push_ended;
use scan_rows::Scan;
use solid_query::{QueryRefusal, ask_watched, read_queries};
use std::alloc::{AllocError, Global};

/// The names of `ask IN POINTS OUT`.
#[derive(Clone, Copy, Debug)]
pub struct AskNames<'a> {
    /// The input scan.
    pub input: &'a str,
    /// The query points.
    pub points: &'a str,
    /// The output file for the labels.
    pub output: &'a str,
}

/// The request of `ask`, and the maximal size of an input file in bytes.
#[derive(Clone, Copy)]
struct Asked<'w, 'a> {
    names: &'w AskNames<'a>,
    options: &'w Options,
    limit: u64,
}

/// Parses the arguments after `ask`.
pub fn ask_command(words: &[String]) -> Option<Request<'_>>
    ensures { IsCommand result (asked_by ask_of (named 3 all_keys (map string_bytes words.now))) }
{
    let Some(NamesAndOptions { names, options }) = named(words, 3, &ALL_KEYS) else {
        return None;
    };
    let [input, points, output] = names else {
        return None;
    };
    let names = AskNames {
        input: input.as_str(),
        points: points.as_str(),
        output: output.as_str(),
    };
    Some(Request::Command(Command::Ask(names, options)))
}

/// Reads the scan and, unless it is rejected, the points, and returns the answer of `ask`. Nothing is written or printed.
pub fn reply_to_ask<'a, H: Host, W: FlowHints>(
    alloc: Global,
    host: &mut H,
    names: &AskNames<'a>,
    options: &Options,
    limit: u64,
    watch: &mut W,
) -> Result<Reply<'a>, Stop>
    requires { (H.state host.old).writing ≡ false }
    ensures replied { IfOk result (λ reply. IsReplied limit (ask_task (ask_names names.now) (options_view options.now)) reply (H.state host.old)) }
    ensures reads { ReadsFor limit (ask_task (ask_names names.now) (options_view options.now)) (H.state host.old) (H.state host.new) }
    ensures closed { (H.state host.new).writing ≡ false }
    ensures cause { CountsFaults result (H.state host.old).faults (H.state host.new).faults }
{
    match read_input(alloc, host, names.input, options, limit)? {
        Reading::Scan(scan, bytes) => {
            drop(bytes);
            let asked = Asked {
                names,
                options,
                limit,
            };
            reply_to_scan(alloc, host, &scan, &asked, watch)
        }
        Reading::Refused(line) => Ok(invalid_input(alloc, line)),
    }
}

/// Reads the points, and returns the answer to a scan.
fn reply_to_scan<'a, H: Host, W: FlowHints>(
    alloc: Global,
    host: &mut H,
    scan: &Scan,
    asked: &Asked<'_, 'a>,
    watch: &mut W,
) -> Result<Reply<'a>, Stop>
    requires { (H.state host.old).writing ≡ false }
    ensures replied { IfOk result (λ reply. IsAskReply asked.now.limit (ask_names asked.now.names.now) (options_view asked.now.options.now) (shown_of scan.now) reply (H.state host.old)) }
    ensures reads { ReadsOn 1 1 (λ files. AskAnswer asked.now.limit (ask_names asked.now.names.now) (options_view asked.now.options.now) files (shown_of scan.now))
        (H.state host.old) (H.state host.new) }
    ensures closed { (H.state host.new).writing ≡ false }
    ensures cause { CountsFaults result (H.state host.old).faults (H.state host.new).faults }
{
    let bytes = match read_all(alloc, host, asked.names.points, asked.limit) {
        Ok(bytes) => bytes,
        Err(ReadRefusal::TooLong) => return Ok(invalid_input(
            alloc,
            Line::Fixed(line_of_too_long_points()),
        )),
        Err(ReadRefusal::Failed) => return Err(Stop::Failed),
        Err(ReadRefusal::NoMemory) => return Err(Stop::NoMemory),
    };
    let output = asked.names.output;
    Ok(reply_to_points(alloc, scan, bytes, output, asked.options, watch)?)
}

/// Returns the answer to a scan and the bytes of the points' file, which are freed before the scan is solved.
fn reply_to_points<'a, W: FlowHints>(
    alloc: Global,
    scan: &Scan,
    bytes: Vec<u8>,
    output: &'a str,
    options: &Options,
    watch: &mut W,
) -> Result<Reply<'a>, NoMemory>
    ensures { IfOk result (λ reply. ToContent 2 (WritesLabels output.now (options_view options.now) (shown_of scan.now)) (or_line query_refusal_line (points_in bytes.items options.now.unit)) (answer_of 2 reply)) }
{
    match read_queries(alloc, &bytes, options.unit) {
        Ok(points) => {
            drop(bytes);
            reply_to_queries(alloc, scan, &points, output, options, watch)
        }
        Err(why) => {
            let line = line_of_query_refusal(alloc, why)?;
            Ok(invalid_input(alloc, Line::Made(line)))
        }
    }
}

/// Returns the labels of points, and the line.
fn reply_to_queries<'a, W: FlowHints>(
    alloc: Global,
    scan: &Scan,
    points: &[Point],
    output: &'a str,
    options: &Options,
    watch: &mut W,
) -> Result<Reply<'a>, NoMemory>
    requires { All (IsWithin DATA_LIMIT) points.now }
    ensures { IfOk result (λ reply. WritesLabels output.now (options_view options.now) (shown_of scan.now) points.now (answer_of 2 reply)) }
{
    let labels = ask_watched(alloc, scan, options.settings, points, watch)?;
    let count = point_count(alloc, scan)?;
    let text = text_of_labels(alloc, &labels)?;
    let line = line_of_ask(
        alloc,
        count as u64,
        labels.len() as u64,
        inside_count(&labels),
    )?;
    let mut texts = Vec::new(alloc);
    texts.push(Text {
        name: output,
        bytes: text,
    })?;
    Ok(Reply {
        status: Status::Done,
        texts,
        line: Line::Made(line),
    })
}

/// Returns the number of distinct points of a scan.
fn point_count(alloc: Global, scan: &Scan) -> Result<usize, NoMemory>
    ensures { IfOk result (λ count. count ≡ length (points_of (shown_of scan.now))) }
{
    let merged = merge(alloc, &scan.points)?;
    Ok(merged.points.len())
}

/// Returns the number of labels that are inside.
fn inside_count(labels: &[bool]) -> u64
    ensures { result ≡ count_by (λ label. label) labels.now }
{
    labels.iter().filter(|label| **label).count() as u64
}

/// Returns the line for a file of points that is longer than the limit.
#[tactic(auto, unfolding(crate::specs::Ask::too_long_points_line))]
pub fn line_of_too_long_points() -> &'static [u8]
    ensures { result.now ≡ too_long_points_line }
{
    b"refused 19 too_long points\n"
}

/// Returns the line for points that are rejected. Out of memory has no line.
pub fn line_of_query_refusal(alloc: Global, why: QueryRefusal) -> Result<Vec<u8>, NoMemory>
    ensures { IfOk result (λ line. query_refusal_line why ≡ Some line.items) }
{
    match why {
        QueryRefusal::BadToken(token) => {
            line_of_number(alloc, b"refused 23 bad_query token ", u64::from(token))
        }
        QueryRefusal::LongNumber(token) => {
            line_of_number(alloc, b"refused 24 long_query token ", u64::from(token))
        }
        QueryRefusal::OutOfRange(token) => {
            line_of_number(alloc, b"refused 25 query_range token ", u64::from(token))
        }
        QueryRefusal::Uneven { tokens } => {
            line_of_number(alloc, b"refused 26 query_cut tokens ", u64::from(tokens))
        }
        QueryRefusal::TooMany { tokens } => {
            line_of_number(alloc, b"refused 27 too_many_queries tokens ", tokens)
        }
        QueryRefusal::NoMemory => Err(AllocError),
    }
}

/// Returns the line of `ask`: the numbers of points of the scan, of query points, and of those that are inside.
#[tactic(auto, unfolding(crate::specs::Ask::ask_line))]
pub fn line_of_ask(alloc: Global, points: u64, asked: u64, inside: u64) -> Result<Vec<u8>, NoMemory>
    ensures { IfOk result (λ line. line.items ≡ ask_line points asked inside) }
{
    let mut line = Vec::new(alloc);
    push_labelled(&mut line, b"points ", points)?;
    push_labelled(&mut line, b" asked ", asked)?;
    push_labelled(&mut line, b" inside ", inside)?;
    line.push(b'\n')?;
    Ok(line)
}

/// Returns the text of labels: their number, and a line for each.
#[tactic(auto, unfolding(crate::specs::Ask::labels_text))]
pub fn text_of_labels(alloc: Global, labels: &[bool]) -> Result<Vec<u8>, NoMemory>
    ensures { IfOk result (λ text. text.items ≡ labels_text labels.now) }
{
    let mut text = Vec::new(alloc);
    text.extend_from_slice(b"answers ")?;
    push_ended(&mut text, labels.len() as i128, b'\n')?;
    push_labels(&mut text, labels)?;
    Ok(text)
}

/// Appends a line for each label.
fn push_labels(text: &mut Vec<u8>, labels: &[bool]) -> Result<(), NoMemory>
    ensures { OnOk result (text.new.items ≡ text.old.items ++ flat_map label_line labels.now) }
{
    for label in labels {
        push_label(text, *label)?;
    }
    Ok(())
}

/// Appends the line of a label.
#[tactic(auto, unfolding(crate::specs::Ask::label_line))]
fn push_label(text: &mut Vec<u8>, label: bool) -> Result<(), NoMemory>
    ensures { OnOk result (text.new.items ≡ text.old.items ++ label_line label) }
{
    if label {
        text.extend_from_slice(b"inside\n")
    } else {
        text.extend_from_slice(b"outside\n")
    }
}
