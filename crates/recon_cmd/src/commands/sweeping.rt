//! `sweep IN FROM STEP N OUT1 .. OUTN`, its arguments, answer and lines: the best surfaces of a scan at increasing area
//! weights, each passed to a writer of the caller. Depends on `sweep`, which computes them and passes them on.
ghost use Rattle.std.specs.Option.{option_map};
ghost use Rattle.std.specs.Prelude.{◌≡◌, IfSome, map, string_bytes, ◌≤◌, false, length, All, IfOk};
ghost use Rattle.flow_net.specs.declared.votes.TheConstants.{WEIGHT_LIMIT};
ghost use Rattle.mesh_form.specs.Received.{IsFresh};
ghost use Rattle.scan_rows.specs.Views.{shown_of};
ghost use Rattle.command_run.specs.declared.status.Status.TheVariants.{Refused};
ghost use Rattle.recon_cmd.specs.Sweep.{FitsForms, sweep_asked, sweep_words_of, entries_of, sweep_behind, SweepOutcome, SweepHandOut, sweep_line};

use crate::names::{NamesAndOptions, named};
use crate::options::{Key, Options, number_in};
use crate::whole_run::{Reading, read_input, write_forms};
use command_run::{NoMemory, Status, Stop, conclude, is_name, push_labelled};
use flow_net::{FlowHints, Settings, WEIGHT_LIMIT};
use host::Host;
use mesh_form::Form;
use scan_rows::Scan;
use std::alloc::Global;
use sweep::hand_surfaces_watched;
use watch::Stage;

/// The options of `sweep`.
const SWEEP_KEYS: [Key; 3] = [Key::Unit, Key::Vote, Key::Scanner];

/// The maximal number of weights of a sweep.
const ENTRY_LIMIT: u32 = 64;

/// The arguments after `sweep IN FROM STEP N OUT1 .. OUTN`.
#[derive(Clone, Copy, Debug)]
pub struct SweepWords<'a> {
    /// The input scan.
    pub input: &'a str,
    /// The increase of the area weight from each surface to the next.
    pub step: u32,
    /// The output files for the writers' texts, one for each writer.
    pub outputs: &'a [String],
    /// The options, at the first area weight.
    pub options: Options,
}

/// Parses the arguments after `sweep`: `IN FROM STEP N OUT1 .. OUTN` with options after, where N is the number of writers, 1 to
/// 64. FROM is 0 to 65,535 and STEP 1 to 65,535, each in 1 to 10 digits, and so is the largest weight, FROM + (N - 1) * STEP.
/// Names are not empty, and no two are equal. The options are `unit=`, `vote=` and `scanner=`.
pub fn sweep_words(words: &[String], forms: usize) -> Option<SweepWords<'_>>
    ensures is { option_map sweep_asked result ≡ sweep_words_of forms (map string_bytes words.now) }
    ensures fits { IfSome result (λ words. FitsForms words forms) }
{
    let [input, from, step, count, behind @ ..] = words else {
        return None;
    };
    let from = number_in(from.as_bytes(), 0, WEIGHT_LIMIT)?;
    let step = number_in(step.as_bytes(), 1, WEIGHT_LIMIT)?;
    let count = number_in(count.as_bytes(), 1, ENTRY_LIMIT)?;
    if count as usize != forms {
        return None;
    }
    understand_behind(input.as_str(), from, step, count, behind)
}

/// Returns the number of writers for `sweep`: that of its fifth argument, if it is 1 to 64 in 1 to 10 digits, and else 0.
/// Returns `None` if the first argument is not `sweep`.
pub fn sweep_entries(words: &[String]) -> Option<u32>
    ensures { result ≡ entries_of (map string_bytes words.now) }
{
    let [command, behind @ ..] = words else {
        return None;
    };
    if command.as_str() != "sweep" {
        return None;
    }
    let [_, _, _, count, ..] = behind else {
        return Some(0);
    };
    Some(number_in(count.as_bytes(), 1, ENTRY_LIMIT).unwrap_or(0))
}

/// Parses the arguments after the numbers: this number of outputs, and then options.
fn understand_behind<'a>(
    input: &'a str,
    from: u32,
    step: u32,
    count: u32,
    words: &'a [String],
) -> Option<SweepWords<'a>>
    requires from { from ≤ WEIGHT_LIMIT }
    requires least_step { 1 ≤ step }
    requires step { step ≤ WEIGHT_LIMIT }
    requires some { 1 ≤ count }
    requires few { count ≤ 64 }
    ensures is { option_map sweep_asked result ≡ sweep_behind input.now from step count (map string_bytes words.now) }
    ensures fits { IfSome result (λ words. FitsForms words count) }
{
    if from + (count - 1) * step > WEIGHT_LIMIT {
        return None;
    }
    let Some(NamesAndOptions { names, options }) = named(words, count as usize, &SWEEP_KEYS) else {
        return None;
    };
    if !is_name(input, names) {
        return None;
    }
    Some(SweepWords {
        input,
        step,
        outputs: names,
        options: Options {
            unit: options.unit,
            settings: Settings {
                vote: options.settings.vote,
                smooth: from,
            },
            fixed: options.fixed,
        },
    })
}

/// Reads the scan, whose file may be as long as the limit, passes its best surface at each weight to a writer, and writes the
/// writers' texts, in order. No file is created before all texts are in memory.
pub fn sweep_scan<H: Host, W: FlowHints>(
    alloc: Global,
    host: &mut H,
    words: &SweepWords,
    forms: &mut [Box<dyn Form>],
    limit: u64,
    watch: &mut W,
) -> Status
    requires closed { (H.state host.old).writing ≡ false }
    requires fresh { All IsFresh (map received forms.old) }
    requires fits { FitsForms words.now (length forms.old) }
    ensures outcome { SweepOutcome limit (sweep_asked words.now) result (H.state host.old) (H.state host.new)
        (map received forms.old) (map received forms.new) (map text_of forms.new) }
    ensures refused { result ≡ Refused → forms.new ≡ forms.old }
    ensures kinds { map (λ form. form.vtable) forms.new ≡ map (λ form. form.vtable) forms.old }
{
    let reading = match read_input(alloc, host, words.input, &words.options, limit) {
        Ok(reading) => reading,
        Err(Stop::Failed) => return Status::Failed,
        Err(Stop::NoMemory) => return Status::NoMemory,
    };
    match reading {
        Reading::Scan(scan, bytes) => {
            drop(bytes);
            hand_out(alloc, host, &scan, words, forms, watch)
        }
        Reading::Refused(line) => conclude(host, &[], line.as_bytes(), Status::Refused),
    }
}

/// Passes the surface of each weight to its writer, and writes their texts.
fn hand_out<H: Host, W: FlowHints>(
    alloc: Global,
    host: &mut H,
    scan: &Scan,
    words: &SweepWords,
    forms: &mut [Box<dyn Form>],
    watch: &mut W,
) -> Status
    requires closed { (H.state host.old).writing ≡ false }
    requires fresh { All IsFresh (map received forms.old) }
    requires fits { FitsForms words.now (length forms.old) }
    ensures handed { SweepHandOut (sweep_asked words.now) (shown_of scan.now) result (H.state host.old) (H.state host.new)
        (map received forms.new) (map text_of forms.new) }
    ensures kinds { map (λ form. form.vtable) forms.new ≡ map (λ form. form.vtable) forms.old }
{
    let settings = words.options.settings;
    let handed = hand_surfaces_watched(alloc, scan, settings, words.step, forms, watch);
    watch.stage(Stage::Over, 0);
    let costs = match handed {
        Ok(costs) => costs,
        Err(_) => return Status::NoMemory,
    };
    match line_of_sweep(alloc, words.outputs.len() as u64, costs.first, costs.last) {
        Ok(line) => write_forms(host, words.outputs, forms, &line),
        Err(_) => Status::NoMemory,
    }
}

/// Returns the line of `sweep`: the number of surfaces, and the costs of the first and the last.
#[tactic(auto, unfolding(crate::specs::Sweep::sweep_line))]
pub fn line_of_sweep(
    alloc: Global,
    entries: u64,
    first: u64,
    last: u64,
) -> Result<Vec<u8>, NoMemory>
    ensures { IfOk result (λ line. line.items ≡ sweep_line entries first last) }
{
    let mut line = Vec::new(alloc);
    push_labelled(&mut line, b"sweep ", entries)?;
    push_labelled(&mut line, b" first_cost ", first)?;
    push_labelled(&mut line, b" last_cost ", last)?;
    line.push(b'\n')?;
    Ok(line)
}
