//! Hints on a terminal about a mesh that was built: how often lines of sight contradict it, and whether points have become one. No
//! contract depends on these texts.

use std::env::FillError;
use std::rt::Env;

/// The longest argument that is an option with a number has fewer bytes.
const OPTION_LIMIT: usize = 24;

/// More thousandths of a contradiction for each line of sight than this are a reason to look at the scanner positions.
const LOOK: u64 = 100;

/// The weights of a run of `build`, by its arguments.
#[derive(Clone, Copy)]
pub struct Weights {
    smooth: u64,
    vote: u64,
}

/// Numbers of the line of `build`.
#[derive(Clone, Copy)]
struct Built {
    points: u64,
    sights: u64,
    faces: u64,
    cost: u64,
}

impl Weights {
    /// Returns the weights that the arguments state, or else the defaults of `build`.
    pub fn stated<R: Env>(rt: &R) -> Weights {
        let mut found = Weights { smooth: 1, vote: 8 };
        for index in 5..9 {
            let mut word = [0; OPTION_LIMIT];
            match rt.arg(index, &mut word) {
                Ok(length) => found.take(word.get(..length).unwrap_or_default()),
                Err(FillError::TooLong) => {}
                Err(_) => return found,
            }
        }
        found
    }

    /// Stores the value of an argument, if it is one of the weights.
    fn take(&mut self, word: &[u8]) {
        if let Some(digits) = word.strip_prefix(b"smooth=") {
            self.smooth = first_number(digits);
        } else if let Some(digits) = word.strip_prefix(b"vote=") {
            self.vote = first_number(digits);
        }
    }

    /// Returns the thousandths of a contradiction for each line of sight: what the cost is over the area weight of all faces, divided by the
    /// visibility weight. `None` if there is no line of sight.
    fn against(self, built: Built) -> Option<u64> {
        let area = self.smooth.saturating_mul(built.faces);
        let votes = built.cost.saturating_sub(area).saturating_mul(1000);
        votes.checked_div(self.vote)?.checked_div(built.sights)
    }

    /// Prints hints on the line of `build`.
    pub fn tell<R: Eprint>(self, rt: &R, line: &[u8]) {
        let Some(built) = built_of(line) else {
            return;
        };
        if let Some(against) = self.against(built) {
            let (ones, thousandths) = (against / 1000, against % 1000);
            let look = if against > LOOK {
                ": over 0.1, so look at the positions of the scanners, or at the normals"
            } else {
                ""
            };
            let _ = eprintln!(rt;
                "recon: {ones}.{thousandths:03} contradictions for each line of sight{look}"
            );
        }
        if built.points < built.sights / 2 {
            let (points, sights) = (built.points, built.sights);
            let _ = eprintln!(rt;
                "recon: {points} points have {sights} lines of sight: if each point was seen once, many have become one by rounding (unit=1000 makes millimeters of meters)"
            );
        }
    }
}

/// Returns the numbers of a line, if it is one of `build`.
fn built_of(line: &[u8]) -> Option<Built> {
    Some(Built {
        points: first_number(line.strip_prefix(b"points ")?),
        sights: number_after(line, b" sights ")?,
        faces: number_after(line, b" faces ")?,
        cost: number_after(line, b" cost ")?,
    })
}

/// Returns the number after the first occurrence of a word, if it occurs.
fn number_after(line: &[u8], word: &[u8]) -> Option<u64> {
    for start in 0..line.len() {
        if let Some(rest) = line.get(start..)?.strip_prefix(word) {
            return Some(first_number(rest));
        }
    }
    None
}

/// Returns the number that a text begins with, 0 if there is none, at most the largest of its type.
fn first_number(text: &[u8]) -> u64 {
    let mut number: u64 = 0;
    for letter in text {
        if !letter.is_ascii_digit() {
            return number;
        }
        number = number
            .saturating_mul(10)
            .saturating_add(u64::from(letter.saturating_sub(b'0')));
    }
    number
}
