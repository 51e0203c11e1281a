//! The generator, compared with the rows that another program generated from the same random words.

ghost use Rattle.std.specs.Prelude.{◌≤◌};

use gen_scan::gen_scan;
use scan::push_scan;
use std::alloc::Global;
use std::test::Fail;

const SCANNERS: &str = "5000 0 0\n-5000 0 0\n0 5000 0\n0 -5000 0\n0 0 5000\n0 0 -5000\n";

/// Returns whether the plain form of a generated scan ends with these lines and those of the six scanners.
fn ends_with(alloc: Global, rows: u32, seed: u64, vertices: &str) -> Result<bool, Fail>
    requires some { 1 ≤ rows }
    requires few { rows ≤ 100 }
{
    let scan = gen_scan(alloc, rows, seed)?;
    let mut text = Vec::new(alloc);
    push_scan(&mut text, &scan)?;
    let lines = format!(in alloc; "end_header\n{vertices}{SCANNERS}")?;
    Ok(text.ends_with(lines.as_bytes()))
}

const SEVEN: &str =
    "1000 -338 -402 0\n-1000 -528 -97 1\n770 1000 770 2\n389 -1000 -301 3\n-783 -923 1000 4\n-849 640 -1000 5\n1000 581 623 0\n";

const TWO: &str = "1000 987 640 0\n-1000 135 485 1\n";

#[test]
fn rows_are_those_of_another_program(rt: HostRuntime) -> Result<(), Fail> {
    let alloc = rt.alloc();
    if ends_with(alloc, 7, 7, SEVEN)? && ends_with(alloc, 2, 18_446_744_073_709_551_615, TWO)? {
        Ok(())
    } else {
        Err(Fail::from("other rows"))
    }
}
