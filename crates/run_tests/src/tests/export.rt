//! Runs of `export`: a mesh in a writer of the test's own, and the arguments that `run` alone rejects.

use super::fixtures::{PIECE, owned};
use super::forms::{beginning, shows};
use geo_sign::Point;
use mesh_form::{Form, NoMemory, Receipt};
use num_text::push_whole;
use recon_cmd::{run, run_forms};
use std::alloc::Global;
use std::test::Fail;

/// A writer of a caller's own: its text states how much it has received.
#[derive(Drop)]
struct Tally {
    receipt: Receipt,
    text: Vec<u8>,
}

impl Tally {
    ghost use Rattle.std.specs.Prelude.{◌≡◌};
    ghost use Rattle.mesh_form.specs.Received.{fresh};

    fn new(alloc: Global) -> Tally
        ensures { result.receipt ≡ fresh }
    {
        Tally {
            receipt: Receipt::new(alloc),
            text: Vec::new(alloc),
        }
    }
}

impl Form for Tally {
    ghost received = { λ form. form.receipt };

    ghost text_of = { λ form. form.text.items };

    fn begin(&mut self, points: u32, faces: u32) -> Result<(), NoMemory> {
        self.receipt.begin(points, faces);
        Ok(())
    }

    fn vertex(&mut self, point: Point) -> Result<(), NoMemory> {
        self.receipt.vertex(point)
    }

    fn face(&mut self, face: [u32; 3]) -> Result<(), NoMemory> {
        self.receipt.face(face)
    }

    fn end(&mut self) -> Result<(), NoMemory> {
        self.text.extend_from_slice(b"points ")?;
        push_whole(&mut self.text, self.receipt.mesh().points.len() as i128)?;
        self.text.extend_from_slice(b" faces ")?;
        push_whole(&mut self.text, self.receipt.mesh().faces.len() as i128)?;
        self.receipt.end();
        Ok(())
    }

    fn text(&self) -> &[u8] {
        &self.text
    }
}

#[test]
fn a_form_of_the_callers_own_is_written(rt: HostRuntime) -> Result<(), Fail> {
    let alloc = rt.alloc();
    let mut host = beginning(alloc, PIECE, Vec::new(alloc))?;
    let mut forms: Vec<Box<dyn Form>> = Vec::new(alloc);
    forms.push(Box::new(alloc, Tally::new(alloc))?)?;
    let words = owned(alloc, &["export", "mesh", "in"])?;
    let status = run_forms(alloc, &words, &mut host, &mut forms);
    let texts = [None, None, Some("points 4 faces 4")];
    assert!(rt; status == 0 && shows(&host, texts, "exported 1 points 4 faces 4\n"));
    Ok(())
}

#[test]
fn run_alone_knows_no_forms(rt: HostRuntime) -> Result<(), Fail> {
    let alloc = rt.alloc();
    for words in [["export", "mesh", "out"], ["export", "mesh", "in"]] {
        let mut host = beginning(alloc, PIECE, Vec::new(alloc))?;
        let status = run(alloc, &owned(alloc, &words)?, &mut host);
        let texts = [None, None, Some("before")];
        assert!(rt;
            status == 2 && shows(&host, texts, "refused words\n"),
            "{words:?}"
        );
    }
    Ok(())
}
