//! Texts on standard error beside the line that is promised: how to use a command, and how to fix an invalid mesh. No contract
//! speaks of these texts.

use real_host::Advice;

/// The commands, each with its arguments.
const USES: [(&str, &str); 6] = [
    (
        "finish",
        "MESH OUT [pieces=N] [manifold=yes] [flips=no] [smooth=N within=D] [comments=no]",
    ),
    (
        "move",
        "MESH TARGETS OUT smooth=N within=D [pieces=N] [manifold=yes] [flips=no] [comments=no]",
    ),
    (
        "simplify",
        "MESH OUT within=D [faces=N] [surface=yes] [move=yes] [comments=no]",
    ),
    ("join", "TILES OUT"),
    ("inspect", "MESH"),
    ("check", "MESH OUT"),
];

/// How the line of an error begins, and how to fix what caused it.
const CURES: [(&[u8], &str); 29] = [
    (
        b"refused 19 too_long mesh",
        "over 4 GiB, so most likely another file than was meant",
    ),
    (
        b"refused 28 unbalanced",
        "the mesh is not closed at the edge between points a and b, counted from 0: take a mesh that recon build wrote",
    ),
    (
        b"refused 31 unverified",
        "the result of this step did not pass its verification: finish without its option",
    ),
    (
        b"refused 29 mesh_line",
        "the mesh is not as recon build wrote it: edited, saved by a viewer, brought to floats, or with other line ends (then n is 1): take that file",
    ),
    (
        b"refused 30 mesh_cut",
        "the mesh is truncated: take the file that recon build wrote",
    ),
    (
        b"refused 19 too_long out",
        "over 4 GiB, so most likely another file than was meant",
    ),
    (
        b"refused 32 out_line",
        "the second mesh is not as recon-mesh wrote it: edited, saved by a viewer, brought to floats, or with other line ends (then n is 1): take that file",
    ),
    (
        b"refused 33 out_cut",
        "the second mesh is truncated: take the file that recon-mesh wrote",
    ),
    (
        b"refused 19 too_long targets",
        "over 4 GiB, so most likely another file than was meant",
    ),
    (
        b"refused 34 targets_line",
        "the targets are no mesh as recon-mesh writes it: whole coordinates, the same header",
    ),
    (
        b"refused 35 targets_cut",
        "the mesh of the targets is truncated",
    ),
    (
        b"refused 36 targets_count",
        "the targets are t points, and the mesh would have p: take the vertices of finish with the same options",
    ),
    (
        b"refused 19 too_long tiles",
        "over 4 GiB, so most likely another file than was meant",
    ),
    (
        b"refused 19 too_long tile",
        "the mesh of this tile, counted from 0, is over 4 GiB: split the scan into smaller tiles",
    ),
    (
        b"refused 37 tiles_line",
        "this line is not as recon-tiles split wrote it: take that file",
    ),
    (
        b"refused 38 tiles_cut",
        "the list of tiles is truncated: take the file that recon-tiles split wrote",
    ),
    (
        b"refused 39 tile_line",
        "the mesh of this tile, counted from 0, is not as recon build wrote it: run its job again",
    ),
    (
        b"refused 40 tile_cut",
        "the mesh of this tile, counted from 0, is truncated: run its job again",
    ),
    (
        b"refused 41 flat_tile",
        "the mesh of this tile, counted from 0, has a face with two vertices at one place: take the mesh that recon build wrote",
    ),
    (
        b"refused 42 too_many_places",
        "the meshes have 4,294,967,296 vertices or more: join fewer tiles",
    ),
    (
        b"refused 43 open_join",
        "the tiles do not fit together, or the mesh of one is not closed: take those of one run of recon-tiles split, with more overlap",
    ),
    (
        b"no 1 not_stated",
        "the second mesh has no comments: make it again without comments=no",
    ),
    (
        b"no 2 other_mesh",
        "the second mesh was made from another file than this one: take the file with the SHA-256 in its header",
    ),
    (
        b"no 3 unbalanced",
        "the second mesh is not closed at the edge between points a and b, counted from 0: its file was changed, so make it again",
    ),
    (
        b"no 4 nonmanifold",
        "the finished mesh is not manifold, which its header states: its file was changed, so finish the mesh again",
    ),
    (
        b"no 5 far_vertex",
        "this vertex, counted from 0, is farther from the mesh than its header states: its file was changed, so finish the mesh again",
    ),
    (
        b"no 6 unreached_vertex",
        "no face is shown to be as near to this vertex of the mesh, counted from 0, as the header of the simplified mesh states: its file was changed, so simplify the mesh again",
    ),
    (
        b"no 7 uncovered_original",
        "this face of the mesh, counted from 0, is not shown to be as near to the simplified mesh as its header states: its file was changed, so simplify the mesh again",
    ),
    (
        b"no 8 uncovered_face",
        "this face of the simplified mesh, counted from 0, is not shown to be as near to the mesh as its header states: its file was changed, so simplify the mesh again",
    ),
];

/// What `recon-mesh` tells a person.
#[derive(Drop)]
pub struct Hints;

impl Advice for Hints {
    fn program(&self) -> &'static str {
        "recon-mesh"
    }

    fn advise<R: Eprint>(&self, rt: &R, line: &[u8]) {
        if line == b"refused words\n".as_slice() {
            for (name, words) in &USES {
                let _ = eprintln!(rt; "usage: recon-mesh {name} {words}");
            }
        }
        for (front, cure) in &CURES {
            if line.starts_with(front) {
                let _ = eprintln!(rt; "recon-mesh: {cure}");
            }
        }
    }
}
