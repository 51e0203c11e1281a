//! Files that are longer than the limit, by the call below `run` that takes the limit: a file of exactly this length is read,
//! and one more byte is rejected.

use super::fixtures::{
    ASK, BUILD, CELLS, CHECK, EXPORT, FOUR, FOUR_CERT, FOUR_CHECKED, FOUR_EXPORTED, FOUR_MESH,
    FOUR_OBJ, FOUR_OFF, NO_FACE, PIECE, SWEEP, UPGRADE, owned,
};
use super::forms::{beginning, shows};
use super::sweeps;
use super::watched::{Files, Watched};
use mesh_form::{Form, ObjForm, OffForm, PlyForm};
use recon_cmd::run_forms_within;
use std::alloc::Global;
use std::test::Fail;
use watch::Silent;

const SLICE: [&str; 4] = ["slice", "mesh", "0", "out"];

/// Returns the bytes of a text, extended to this length.
fn lengthened(alloc: Global, text: &str, length: usize) -> Result<Vec<u8>, Fail> {
    let mut bytes = text.as_bytes().to_vec(alloc)?;
    bytes.resize(length.max(text.len()), b'x')?;
    Ok(bytes)
}

#[test]
fn a_file_is_refused_where_it_is_longer_than_the_limit(rt: HostRuntime) -> Result<(), Fail> {
    let alloc = rt.alloc();
    // The mesh and the certificate are shorter than the scan.
    let whole = FOUR.len();
    let cases: [(&[&str], usize, usize, usize, u8, &str); 13] = [
        (
            &CELLS,
            whole.saturating_sub(1),
            0,
            0,
            3,
            "refused 19 too_long scan\n",
        ),
        (
            &BUILD,
            whole.saturating_sub(1),
            0,
            0,
            3,
            "refused 19 too_long scan\n",
        ),
        (
            &CHECK,
            whole.saturating_sub(1),
            0,
            0,
            3,
            "refused 19 too_long scan\n",
        ),
        (&CHECK, whole, whole + 1, 0, 3, "refused 19 too_long mesh\n"),
        (&CHECK, whole, whole, 0, 1, "no 15 mesh_differs at 234\n"),
        (&CHECK, whole, 0, whole + 1, 3, "refused 19 too_long cert\n"),
        (
            &UPGRADE,
            whole,
            0,
            whole + 1,
            3,
            "refused 19 too_long cert\n",
        ),
        (
            &ASK,
            whole.saturating_sub(1),
            0,
            0,
            3,
            "refused 19 too_long scan\n",
        ),
        (&ASK, whole, whole + 1, 0, 3, "refused 19 too_long points\n"),
        (&SLICE, whole, whole + 1, 0, 3, "refused 19 too_long mesh\n"),
        (&SLICE, whole, whole, 0, 3, "refused 29 mesh_line line 18\n"),
        (&CHECK, whole, 0, whole, 1, "no 1 cert_line line 18\n"),
        (&CHECK, whole, 0, 0, 0, FOUR_CHECKED),
    ];
    for (words, limit, mesh, cert, status, said) in cases {
        let files = Files {
            input: FOUR.as_bytes().to_vec(alloc)?,
            output: b"old".to_vec(alloc)?,
            mesh: lengthened(alloc, FOUR_MESH, mesh)?,
            cert: lengthened(alloc, FOUR_CERT, cert)?,
        };
        let mut host = Watched::new(alloc, &files, 100, None)?;
        let ended = run_forms_within(
            alloc,
            &owned(alloc, words)?,
            &mut host,
            &mut [],
            limit as u64,
            &mut Silent,
        );
        assert!(rt;
            ended == status && host.host.said() == said.as_bytes(),
            "{words:?} {limit}"
        );
        assert!(rt; host.has(&files), "{words:?} {limit}");
    }
    Ok(())
}

#[test]
fn a_mesh_is_not_exported_where_it_is_longer_than_the_limit(rt: HostRuntime) -> Result<(), Fail> {
    let alloc = rt.alloc();
    let words = owned(alloc, &EXPORT)?;
    let whole = FOUR_MESH.len() as u64;
    let before = [None, None, Some("before")];
    let written = [Some(FOUR_MESH), Some(FOUR_OFF), Some(FOUR_OBJ)];
    let cases = [
        (
            whole.saturating_sub(1),
            3,
            before,
            "refused 19 too_long mesh\n",
        ),
        (whole, 0, written, FOUR_EXPORTED),
    ];
    for (limit, status, texts, said) in cases {
        let mut host = beginning(alloc, PIECE, Vec::new(alloc))?;
        let mut forms: Vec<Box<dyn Form>> = Vec::new(alloc);
        forms.push(Box::new(alloc, PlyForm::new(alloc))?)?;
        forms.push(Box::new(alloc, OffForm::new(alloc))?)?;
        forms.push(Box::new(alloc, ObjForm::new(alloc))?)?;
        let ended = run_forms_within(alloc, &words, &mut host, &mut forms, limit, &mut Silent);
        assert!(rt; ended == status && shows(&host, texts, said), "{limit}");
    }
    Ok(())
}

#[test]
fn a_scan_is_not_swept_where_it_is_longer_than_the_limit(rt: HostRuntime) -> Result<(), Fail> {
    let alloc = rt.alloc();
    let words = owned(alloc, &SWEEP)?;
    let whole = FOUR.len() as u64;
    let cases = [
        (
            whole.saturating_sub(1),
            3,
            [Some("before"), None],
            "refused 19 too_long scan\n",
        ),
        (whole, 0, [Some(FOUR_MESH), Some(NO_FACE)], sweeps::SWEPT),
    ];
    for (limit, status, texts, said) in cases {
        let mut host = sweeps::beginning(alloc, PIECE, Vec::new(alloc))?;
        let mut forms: Vec<Box<dyn Form>> = Vec::new(alloc);
        forms.push(Box::new(alloc, PlyForm::new(alloc))?)?;
        forms.push(Box::new(alloc, PlyForm::new(alloc))?)?;
        let ended = run_forms_within(alloc, &words, &mut host, &mut forms, limit, &mut Silent);
        assert!(rt;
            ended == status && sweeps::shows(&host, texts, said),
            "{limit}"
        );
    }
    Ok(())
}
