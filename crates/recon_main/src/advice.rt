//! Hints on standard error beside the specified line: the usage of a command, and how to fix an error of a file. No contract
//! depends on these texts. The table of errors in `docs/howto/import.md` has the same fixes, and a test of `tools/tests` compares
//! the two.

use crate::against::Weights;
use real_host::Advice;
use std::env::FillError;
use std::rt::Env;

/// The commands, each with its arguments.
pub const USES: [(&str, &str); 9] = [
    (
        "build",
        "IN MESH CERT [unit=U] [vote=V] [smooth=L] [scanner=X,Y,Z]",
    ),
    (
        "check",
        "IN MESH CERT [unit=U] [vote=V] [smooth=L] [scanner=X,Y,Z]",
    ),
    (
        "upgrade",
        "IN MESH CERT OUT [unit=U] [vote=V] [smooth=L] [scanner=X,Y,Z]",
    ),
    (
        "ask",
        "IN POINTS OUT [unit=U] [vote=V] [smooth=L] [scanner=X,Y,Z]",
    ),
    (
        "sweep",
        "IN FROM STEP N OUT1 .. OUTN [unit=U] [vote=V] [scanner=X,Y,Z]",
    ),
    ("slice", "MESH H OUT"),
    ("export", "MESH PLY OFF OBJ"),
    ("cells", "IN OUT [unit=U] [scanner=X,Y,Z]"),
    ("demo", "N SEED"),
];

/// An upper bound of the lengths of the commands' names.
const COMMAND_LIMIT: usize = 16;

/// The hint for a surface without a face.
pub const NO_FACE: &str =
    "no face: do all points coincide at this scale (unit=1000 converts metres to millimetres), or is smooth= large compared with vote=?";

/// What the option `scanner=` takes, for invalid arguments that have it.
pub const SCANNER_RANGE: &str =
    "scanner=X,Y,Z takes three numbers, and each times unit= is at most 2,097,151: use a smaller unit=, or an origin near the object (origin= of recon-scan)";

/// An upper bound of the lengths of arguments that begin with `scanner=`.
const SCANNER_LIMIT: usize = 128;

/// The prefix of each error's reason, and how to fix it.
const CURES: [(&[&str], &str); 31] = [
    (
        &["1 not_ply"],
        "another format: convert the file to PLY. Or something precedes ply, such as a byte-order mark, or follows it in its line: remove it",
    ),
    (
        &["2 bad_line"],
        "a misspelled keyword, a type that PLY does not have (int64), a name with a space, a version other than 1.0, a property before the first element: fix the line. A name with a non-ASCII letter: recon-scan converts it",
    ),
    (
        &["3 long_line", "4 long_header"],
        "a line of over 1,000 bytes or a header of over 1,000 lines, mostly comments: delete them",
    ),
    (
        &["5 twice"],
        "two properties or elements with the same name: recon-scan renames the second property of its element",
    ),
    (
        &["6 head_cut", "17 cut"],
        "the file is truncated, or its header states more rows or properties than there are: export or copy it again",
    ),
    (
        &[
            "7 missing vertex",
            "7 missing vertex_x",
            "7 missing vertex_y",
            "7 missing vertex_z",
        ],
        "the points or their coordinates have other names in this file: rename them. recon-scan accepts X, Y, Z",
    ),
    (
        &["7 missing vertex_scanner"],
        "name the scanner of each point (recon-scan with index=), or give one position by scanner=; for points with normals, normals=yes computes scanners",
    ),
    (
        &[
            "7 missing scanner",
            "7 missing scanner_x",
            "7 missing scanner_y",
            "7 missing scanner_z",
        ],
        "the file numbers its scanners but has no positions: recon-scan with positions=",
    ),
    (
        &["8 list_property"],
        "a coordinate is a list in this file: export it as single values",
    ),
    (
        &["9 binary_float"],
        "the program reads no binary floating point: recon-scan",
    ),
    (
        &["10 too_many vertex"],
        "at most 1,048,576 points: recon-scan with side= or with from= and to=, or recon-tiles",
    ),
    (
        &["10 too_many scanner"],
        "at most 65,536 scanners: one for each station, not for each point",
    ),
    (
        &["11 two_scanners"],
        "leave out scanner=, or remove the element",
    ),
    (
        &["12 bad_token"],
        "a value is not a number: nan or inf, or a scanner's number with decimals (recon-scan fixes both), a weight with decimals, or a decimal comma",
    ),
    (
        &["13 long_number"],
        "over 30 digits, or 18 in a scanner's number, or 4 in an exponent: round the number",
    ),
    (
        &["14 out_of_range"],
        "beyond 2,097,151: use a smaller unit=, or an origin near the object (origin= of recon-scan)",
    ),
    (
        &["15 no_such_scanner"],
        "point r names scanner i, and scanners are numbered from 0 up to one less than the count of element scanner: is the file's numbering from 1, or a row of its scanners missing?",
    ),
    (
        &["16 bad_count"],
        "the length of a list is not a number: the body does not match the header",
    ),
    (
        &["18 trailing"],
        "more rows than the header states: fix the count, or truncate the file at byte a. Or a row has more values than properties",
    ),
    (
        &["19 too_long scan"],
        "over 4 GiB: reduce the points by recon-scan with side= or with from= and to=",
    ),
    (
        &["21 bad_weight"],
        "a weight is 1 to 255: scale or round the weights of the file, or give a point with weight 0 an empty list of scanners",
    ),
    (
        &["22 too_many_sights"],
        "at most 8,388,608 sights: name fewer scanners for each point, or use fewer points",
    ),
    (
        &["19 too_long mesh", "19 too_long cert"],
        "over 4 GiB: probably the wrong file",
    ),
    (&["19 too_long points"], "over 4 GiB: ask in parts"),
    (
        &["23 bad_query"],
        "of ask: value n of the points, counted from 0, is not a number: a comma or a semicolon, a header line, nan",
    ),
    (
        &["24 long_query"],
        "over 30 digits, or 4 in an exponent: round the number",
    ),
    (
        &["25 query_range"],
        "the point is beyond the range of a scan: use a smaller unit=, or leave the point out, which is outside",
    ),
    (
        &["26 query_cut"],
        "there are n values, and a point has three: is a column missing or extra, or the file truncated?",
    ),
    (
        &["27 too_many_queries"],
        "over 3,145,728 values: ask in parts",
    ),
    (
        &["28 unbalanced"],
        "of slice: the mesh is not closed at the edge between points a and b, counted from 0: use a mesh that build wrote",
    ),
    (
        &["29 mesh_line", "30 mesh_cut"],
        "of slice and export: the mesh was changed after build wrote it: edited, saved by a viewer, converted to floats or other line ends (then n is 1), or truncated: use the original file. A mesh of recon-mesh has comments: write it with comments=no",
    ),
];

/// Returns the index in [`USES`] of the command that the arguments after the program's name begin with, if it is one.
fn command_begun<R: Env>(rt: &R) -> Option<usize> {
    let mut word = [0; COMMAND_LIMIT];
    let Ok(length) = rt.arg(1, &mut word) else {
        return None;
    };
    let first = word.get(..length)?;
    for (place, (name, _)) in USES.iter().enumerate() {
        if first == name.as_bytes() {
            return Some(place);
        }
    }
    None
}

/// Returns whether one of the first arguments of the command line gives a scanner position.
fn has_scanner<R: Env>(rt: &R) -> bool {
    for index in 2..16 {
        let mut word = [0; SCANNER_LIMIT];
        match rt.arg(index, &mut word) {
            Ok(_) if word.starts_with(b"scanner=") => return true,
            Ok(_) | Err(FillError::TooLong) => {}
            Err(_) => return false,
        }
    }
    false
}

/// Returns how to fix the error, if the line is an error of a file.
pub fn cure_of(line: &[u8]) -> Option<&'static str> {
    let reason = line.strip_prefix(b"refused ")?;
    for (fronts, cure) in &CURES {
        if fronts.iter().any(|front| is_behind(reason, front)) {
            return Some(*cure);
        }
    }
    None
}

/// Returns whether the reason has this prefix.
fn is_behind(reason: &[u8], front: &str) -> bool {
    match reason.strip_prefix(front.as_bytes()) {
        Some([b' ' | b'\n', ..]) => true,
        _ => false,
    }
}

/// Returns whether the line is that of a surface without a face.
pub fn has_no_face(line: &[u8]) -> bool {
    line.starts_with(b"points ")
        && line
            .windows(9)
            .any(|front| front == b" faces 0 ".as_slice())
}

/// The hints of `recon` for the command with this index in [`USES`], and whether its arguments give a scanner position. The weights are
/// those of a run of `build` that a person sees at a terminal.
#[derive(Drop)]
pub struct Hints {
    command: Option<usize>,
    has_scanner: bool,
    weights: Option<Weights>,
}

impl Hints {
    /// Returns the hints for the arguments of the command line, if standard error is a terminal (`is_seen`) or not.
    pub fn new<R: Env>(rt: &R, is_seen: bool) -> Hints {
        let command = command_begun(rt);
        let weights = match command {
            Some(0) if is_seen => Some(Weights::stated(rt)),
            _ => None,
        };
        Hints {
            command,
            has_scanner: has_scanner(rt),
            weights,
        }
    }

    /// Prints the usage of the command, or of all commands if the arguments begin with none.
    fn tell_uses<R: Eprint>(&self, rt: &R) {
        for (place, (name, words)) in USES.iter().enumerate() {
            if self.command.unwrap_or(place) == place {
                let _ = eprintln!(rt; "usage: recon {name} {words}");
            }
        }
    }
}

impl Advice for Hints {
    fn program(&self) -> &'static str {
        "recon"
    }

    fn advise<R: Eprint>(&self, rt: &R, line: &[u8]) {
        if line == b"refused words\n".as_slice() {
            self.tell_uses(rt);
            if self.has_scanner {
                let _ = eprintln!(rt; "recon: {SCANNER_RANGE}");
            }
        } else if let Some(cure) = cure_of(line) {
            let _ = eprintln!(rt; "recon: {cure}");
        } else if has_no_face(line) {
            let _ = eprintln!(rt; "recon: {NO_FACE}");
        } else if let Some(weights) = self.weights {
            weights.tell(rt, line);
        }
    }
}
