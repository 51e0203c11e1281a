//! Each call of the host fails in turn: the first of its kind, the second, and so on until a run ends without a fault. With
//! many points in pieces of one byte there are thousands of calls; of those, the first, some in the middle and the last fail.
//!
//! A scan is a text, or binary in either byte order, and calls move at most 1, 7 or 65,536 bytes. The state after a failure is
//! compared with that after a run without a fault. Of the texts that it writes, in order, those that were complete before the
//! failed call exist, the next one as far as it was written, and everything else is unchanged. No call follows the failed one,
//! except the one that closes the file which is open for writing.
ghost use Rattle.std.specs.Prelude.{◌<◌};

use super::fixtures::{in_three_forms, owned, plain};
use super::watched::{Files, Watched};
use geo_sign::Point;
use host::HostCall;
use scan::read_scan;
use scan_rows::Scan;
use std::alloc::Global;
use std::test::Fail;

const CALLS: [HostCall; 6] = [
    HostCall::Open,
    HostCall::Read,
    HostCall::Create,
    HostCall::Append,
    HostCall::Finish,
    HostCall::Say,
];

/// A command: its arguments, and the files that it writes, in their order.
#[derive(Clone, Copy)]
struct Command {
    words: &'static [&'static str],
    outputs: &'static [&'static str],
}

/// The maximal numbers of bytes that a call moves.
const PIECES: [usize; 3] = [1, 7, 65_536];

/// All commands that read a file except `ask`. Each uses the files that those before it leave.
const COMMANDS: [Command; 7] = [
    Command {
        words: &["cells", "in", "out"],
        outputs: &["out"],
    },
    Command {
        words: &["sweep", "in", "0", "1", "3", "out", "cert", "mesh"],
        outputs: &["out", "cert", "mesh"],
    },
    Command {
        words: &["build", "in", "mesh", "cert"],
        outputs: &["mesh", "cert"],
    },
    Command {
        words: &["check", "in", "mesh", "cert"],
        outputs: &[],
    },
    Command {
        words: &["upgrade", "in", "mesh", "cert", "out"],
        outputs: &["out"],
    },
    Command {
        words: &["slice", "mesh", "0", "out"],
        outputs: &["out"],
    },
    Command {
        words: &["export", "mesh", "out", "cert", "in"],
        outputs: &["out", "cert", "in"],
    },
];

/// The query points are those of the certificate's file.
const ASK: Command = Command {
    words: &["ask", "in", "cert", "out"],
    outputs: &["out"],
};

/// A point far from all others, and the middle of the points of this file.
const POINTS: &str = "2000000 0 0 0 0 0";

const DEMO: Command = Command {
    words: &["demo", "5", "3"],
    outputs: &[],
};

/// A command on files, with a maximal number of bytes that a call moves, and what it leaves and prints if no call fails.
#[derive(Clone, Copy)]
struct Case<'a> {
    command: Command,
    piece: usize,
    before: &'a Files,
    whole: &'a Files,
    said: &'a str,
}

/// The calls of one kind, and their number if none fails.
#[derive(Clone, Copy)]
struct Calls {
    call: HostCall,
    count: u32,
}

/// The state after a failed call.
#[derive(Drop)]
struct Left {
    files: Files,
    // the number of bytes of the line that were printed
    said: usize,
}

/// Returns the state if a call that writes or prints fails after a number of its kind, or `None` if there are no more of that
/// kind.
fn left_by(alloc: Global, case: Case, call: HostCall, behind: u32) -> Result<Option<Left>, Fail>
    requires { 0 < case.piece }
{
    let mut files = case.before.copied(alloc)?;
    let mut behind = behind as usize;
    for name in case.command.outputs {
        let text = case.whole.named(name);
        let calls = match call {
            HostCall::Append => text.len().div_ceil(case.piece),
            HostCall::Say => 0,
            _ => 1,
        };
        if behind < calls {
            let count = behind.saturating_mul(case.piece);
            let arrived = match call {
                HostCall::Append => Some(text.get(..count).unwrap_or(text)),
                HostCall::Finish => Some(text),
                _ => None,
            };
            if let Some(bytes) = arrived {
                files.put(name, bytes.to_vec(alloc)?);
            }
            return Ok(Some(Left { files, said: 0 }));
        }
        behind -= calls;
        files.put(name, text.to_vec(alloc)?);
    }
    let said = behind.saturating_mul(case.piece);
    if call == HostCall::Say && said < case.said.len() {
        return Ok(Some(Left { files, said }));
    }
    Ok(None)
}

/// Returns whether a run stopped in this way.
fn is_left(host: &Watched, call: HostCall, left: &Left, said: &str) -> bool {
    let closed = if call == HostCall::Append { 1 } else { 0 };
    let front = said.as_bytes().get(..left.said).unwrap_or(b"");
    host.host.fault_count() == 1
        && host.later == 0
        && host.closed == closed
        && host.has(&left.files)
        && host.host.said() == front
}

/// Returns whether a run was completed.
fn is_whole(host: &Watched, whole: &Files, said: &str) -> bool {
    host.host.fault_count() == 0 && host.has(whole) && host.host.said() == said.as_bytes()
}

/// Lets one call fail after a number of its kind. After the last one, none fails.
fn fail_once(alloc: Global, case: Case, calls: Calls, behind: u32) -> Result<(), Fail>
    requires { 0 < case.piece }
{
    let Calls { call, count } = calls;
    let mut host = Watched::new(alloc, case.before, case.piece, Some((call, behind)))?;
    let status = in_three_forms(alloc, &owned(alloc, case.command.words)?, &mut host)?;
    let left = match call {
        HostCall::Open | HostCall::Read if behind < count => Some(Left {
            files: case.before.copied(alloc)?,
            said: 0,
        }),
        HostCall::Open | HostCall::Read => None,
        _ => left_by(alloc, case, call, behind)?,
    };
    let is_right = match &left {
        Some(left) => behind < count && status == 4 && is_left(&host, call, left, case.said),
        None => behind >= count && status == 0 && is_whole(&host, case.whole, case.said),
    };
    if !is_right {
        let words = case.command.words;
        return Err(Fail::new(format_args!(
            "{words:?}: {call:?} behind {behind} of {count} ends with {status}"
        )));
    }
    Ok(())
}

/// Lets calls of one kind fail, each in turn.
fn fail_each(alloc: Global, case: Case, calls: Calls) -> Result<(), Fail>
    requires { 0 < case.piece }
{
    for behind in 0..calls.count {
        fail_once(alloc, case, calls, behind)?;
    }
    fail_once(alloc, case, calls, calls.count)
}

/// Lets the first, some in the middle and the last of many calls of one kind fail.
fn fail_some(alloc: Global, case: Case, calls: Calls) -> Result<(), Fail>
    requires { 0 < case.piece }
{
    let count = calls.count;
    let (last, before) = (count.saturating_sub(1), count.saturating_sub(2));
    for behind in [
        0,
        1,
        2,
        count / 4,
        count / 3,
        count / 2,
        before,
        last,
        count,
    ] {
        fail_once(alloc, case, calls, behind)?;
    }
    Ok(())
}

/// Lets calls of a command fail, each in turn if there are no more of a kind than `few`. Returns the state after a run in which
/// none fails.
fn fail_in_turn(
    alloc: Global,
    command: Command,
    piece: usize,
    few: u32,
    before: &Files,
    said: &str,
) -> Result<Files, Fail>
    requires { 0 < piece }
{
    let mut host = Watched::new(alloc, before, piece, None)?;
    let status = in_three_forms(alloc, &owned(alloc, command.words)?, &mut host)?;
    let whole = host.files(alloc)?;
    if status != 0 || !is_whole(&host, &whole, said) {
        let words = command.words;
        return Err(Fail::new(format_args!("{words:?} ends with {status}")));
    }
    let case = Case {
        command,
        piece,
        before,
        whole: &whole,
        said,
    };
    for call in CALLS {
        let count = host.count_of(call);
        let calls = Calls { call, count };
        if count <= few {
            fail_each(alloc, case, calls)?;
        } else {
            fail_some(alloc, case, calls)?;
        }
    }
    Ok(whole)
}

/// Runs the commands on a scan, in order, with all outputs existing before. Each prints its line.
fn fail_through(
    alloc: Global,
    input: &[u8],
    piece: usize,
    few: u32,
    lines: [&str; 8],
) -> Result<(), Fail> {
    if piece == 0 {
        return Err(Fail::new("calls that move nothing"));
    }
    let mut files = Files {
        input: input.to_vec(alloc)?,
        output: b"old cells".to_vec(alloc)?,
        mesh: b"old mesh".to_vec(alloc)?,
        cert: b"old certificate".to_vec(alloc)?,
    };
    for (command, said) in COMMANDS.iter().zip(lines) {
        files = fail_in_turn(alloc, *command, piece, few, &files, said)?;
    }
    files.put("in", input.to_vec(alloc)?);
    files.put("cert", POINTS.as_bytes().to_vec(alloc)?);
    let [.., said] = lines;
    fail_in_turn(alloc, ASK, piece, few, &files, said)?;
    Ok(())
}

/// Appends four bytes in a byte order; the argument has the lowest first.
fn push_four(bytes: &mut Vec<u8>, four: [u8; 4], is_big: bool) -> Result<(), Fail> {
    let [a, b, c, d] = four;
    let ordered = if is_big { [d, c, b, a] } else { four };
    bytes.extend_from_slice(&ordered)?;
    Ok(())
}

/// Appends the position of a point or a scanner.
fn push_place(bytes: &mut Vec<u8>, place: &Point, is_big: bool) -> Result<(), Fail> {
    push_four(bytes, place.x().to_le_bytes(), is_big)?;
    push_four(bytes, place.y().to_le_bytes(), is_big)?;
    push_four(bytes, place.z().to_le_bytes(), is_big)
}

/// Returns the binary encoding of a scan in a byte order.
fn binary(alloc: Global, scan: &Scan, is_big: bool) -> Result<Vec<u8>, Fail> {
    let order = if is_big { "big" } else { "little" };
    let points = scan.points.len();
    let scanners = scan.scanners.len();
    let header = format!(in alloc;
        "ply\nformat binary_{order}_endian 1.0\nelement vertex {points}\nproperty int x\nproperty int y\nproperty int z\nproperty uint scanner\nelement scanner {scanners}\nproperty int x\nproperty int y\nproperty int z\nend_header\n"
    )?;
    let mut bytes = header.as_bytes().to_vec(alloc)?;
    for (point, seen) in scan.points.iter().zip(scan.seen.iter()) {
        push_place(&mut bytes, point, is_big)?;
        push_four(&mut bytes, seen.scanner.to_le_bytes(), is_big)?;
    }
    for place in &scan.scanners {
        push_place(&mut bytes, place, is_big)?;
    }
    Ok(bytes)
}

/// Tests a scan in pieces of each size.
fn in_pieces(alloc: Global, input: &[u8], few: u32, lines: [&str; 8]) -> Result<(), Fail> {
    for piece in PIECES {
        fail_through(alloc, input, piece, few, lines)?;
    }
    Ok(())
}

/// Tests the text of a scan, and its binary encoding in both byte orders.
fn in_byte_orders(alloc: Global, text: &[u8], few: u32, lines: [&str; 8]) -> Result<(), Fail> {
    let scan = read_scan(alloc, text, 1, None)?;
    in_pieces(alloc, text, few, lines)?;
    in_pieces(alloc, &binary(alloc, &scan, false)?, few, lines)?;
    in_pieces(alloc, &binary(alloc, &scan, true)?, few, lines)
}

/// More calls of a kind than a scan of five points takes in pieces of one byte.
const ALL: u32 = 10_000;

#[test]
fn each_call_fails_on_five_points(rt: HostRuntime) -> Result<(), Fail> {
    let alloc = rt.alloc();
    let points = [
        "100 100 100 0",
        "100 -100 -100 0",
        "-100 100 -100 1",
        "-100 -100 100 1",
        "7 -5 3 0",
    ];
    let text = plain(alloc, &points, &["1000 900 800", "-700 -1100 900"])?;
    let lines = [
        "points 5 cells 32\n",
        "sweep 3 first_cost 16 last_cost 28\n",
        "points 5 scanners 2 sights 5 inside 2 faces 6 cost 22\n",
        "yes inside 2 faces 6 cost 22\n",
        "upgraded cost 22\n",
        "loops 1 steps 5\n",
        "exported 3 points 5 faces 6\n",
        "points 5 asked 2 inside 1\n",
    ];
    in_byte_orders(alloc, text.as_bytes(), ALL, lines)
}

#[test]
fn each_say_of_a_demonstration_fails(rt: HostRuntime) -> Result<(), Fail> {
    let alloc = rt.alloc();
    let before = Files {
        input: Vec::new(alloc),
        output: Vec::new(alloc),
        mesh: Vec::new(alloc),
        cert: Vec::new(alloc),
    };
    let said = "demo 5 3 points 5 scanners 6 sights 5 inside 1 faces 4 cost 36\n";
    for piece in PIECES {
        if piece > 0 {
            fail_in_turn(alloc, DEMO, piece, ALL, &before, said)?;
        }
    }
    Ok(())
}
