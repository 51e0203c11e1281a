//! A host in memory, for tests: it exposes all its bytes, and fails exactly as configured.
//!
//! It keeps a list of named files with memory for their bytes (`files`, `store`), the plan of its failures (`plan`), and which
//! file is open. All its memory is allocated by the constructor. A call has the postconditions of the trait, then others that
//! say exactly how far it moves, when it fails, and what it counts.
ghost use Rattle.std.specs.Prelude.{◌≡◌, min, IsTrue, ◌+◌, ◌%◌, ◌≤◌, ◌<◌, ◌↔◌, ◌⊎◌, ℕ, true, false, None, IsErr, IfOk, OnOk, OnErr, All, Contains, length, take};
ghost use Rattle.std.specs.Option.{option_map};
ghost use Rattle.host.specs.State.{HasFile, IsFrontCount, IsNextPiece, FailedFrom, opens_file, opens_none, takes, creates, stops_reading, appends, finishes, says};
ghost use Rattle.host.specs.Counts.{next, Rose};
ghost use Rattle.host.specs.Files.{room_at, exists_at, bytes_at, FilesApart};
ghost use Rattle.host.specs.declared.memory.Activity.TheVariants.{Reading, Writing};

use crate::NoMemory;
use crate::files::{
    MemFile, add_to_file, empty_file, find_file, is_full, kept_files, place_of_name, read_file,
};
use crate::host::{Failed, Host};
use crate::plan::{HostCall, Plan};
use crate::store::Store;
use std::alloc::Global;

/// The open file: its index in the list, and for reading also the offset of the next byte.
#[derive(Clone, Copy, Debug, PartialEq, Eq)]
pub enum Activity {
    Idle,
    Reading(usize, usize),
    Writing(usize),
}

/// Returns the turn after that one, modulo this count.
fn turn_after(turn: usize, count: usize) -> usize
    requires { turn < count }
    ensures next { result ≡ (turn + 1) % count }
    ensures below { result < count }
{
    if turn + 1 < count { turn + 1 } else { 0 }
}

/// A host in memory.
///
/// A call fails exactly if it is listed, if it opens a name without a file, if it creates a name that the host was not
/// constructed with, or if it should append or print some bytes and no capacity is left. Each failure raises the fault count by
/// one. A successful read moves the minimum of the piece, the buffer's length and the bytes left; a successful append or print
/// the minimum of the piece, the bytes passed and the capacity left. The pieces are used in turn: the k-th of these successful
/// calls, counted from 0, uses the one at k modulo their number. No host call allocates memory.
#[derive(Drop)]
pub struct MemHost {
    files: Vec<MemFile>,
    said: Store,
    pieces: Vec<usize>,
    turn: usize,
    plan: Plan,
    activity: Activity,
    opens: u64,
    ghost some: { All (λ piece. 0 < piece) pieces.items },
    ghost in_turn: { turn < length pieces.items },
    ghost apart: { FilesApart files.items },
    ghost rooms: { (place : ℕ) → place < length files.items → room_at files.items place ≡ said.room },
    ghost reads: { (at start : ℕ) → activity ≡ Reading at start → exists_at files.items at ≡ true },
    ghost within: { (at start : ℕ) → activity ≡ Reading at start → start ≤ length (bytes_at files.items at) },
    ghost writes: { (at : ℕ) → activity ≡ Writing at → exists_at files.items at ≡ true },
}

impl Host for MemHost {
    ghost use Rattle.host.specs.Memory.{told_of, state_of, names_of, turn_of, next_turn, piece_of, room_in_file, room_in_said, IsListed, CountsCall};
    ghost use Rattle.host.specs.declared.plan.HostCall.TheVariants.{Open, Read, Create, Append, Finish, Say};
    ghost use Rattle.host.specs.Activity.{coherent};

    ghost state = { state_of };

    ghost coherent = { λ host. coherent host.files.items host.activity host.said.bytes.items };

    fn open(&mut self, name: &str) -> Result<(), Failed>
        requires { (state_of self.old).writing ≡ false }
        ensures there { OnOk result (HasFile name.now (state_of self.old)) }
        ensures opened { OnOk result (state_of self.new ≡ opens_file name.now (state_of self.old)) }
        ensures failed { OnErr result (FailedFrom (opens_none (state_of self.old)) (state_of self.new)) }

        ensures fails { IsErr result ↔ (IsListed self.old Open ⊎ ((told_of self.old).files name.now ≡ None)) }
        ensures one_fault { OnErr result ((state_of self.new).faults ≡ next (state_of self.old).faults) }
        ensures counted { CountsCall self.old self.new Open }
        ensures same_turn { turn_of self.new ≡ turn_of self.old }
    {
        self.opens = self.opens.saturating_add(1);
        self.activity = Activity::Idle;
        if self.plan.is_to_fail(HostCall::Open) {
            return self.fail();
        }
        match find_file(&self.files, name) {
            Some(place) => {
                self.activity = Activity::Reading(place, 0);
                Ok(())
            }
            None => self.fail(),
        }
    }

    fn read(&mut self, buffer: &mut [u8]) -> Result<usize, Failed>
        requires { IsTrue (state_of self.old).reading }
        ensures within { IfOk result (λ count. count ≤ length buffer.new) }
        ensures next_bytes { IfOk result (λ count. IsNextPiece count buffer.new (told_of self.old).left) }
        ensures taken { IfOk result (λ count. state_of self.new ≡ takes count (state_of self.old)) }
        ensures failed { OnErr result (FailedFrom (state_of self.old) (state_of self.new)) }

        ensures moved { IfOk result (λ count. count ≡ min (piece_of self.old) (min (length buffer.old) (length (told_of self.old).left))) }
        ensures fails { IsErr result ↔ IsListed self.old Read }
        ensures one_fault { OnErr result ((state_of self.new).faults ≡ next (state_of self.old).faults) }
        ensures counted { CountsCall self.old self.new Read }
        ensures turned { OnOk result (turn_of self.new ≡ next_turn self.old) }
        ensures same_turn { OnErr result (turn_of self.new ≡ turn_of self.old) }
    {
        if self.plan.is_to_fail(HostCall::Read) {
            return self.fail();
        }
        let Activity::Reading(at, start) = self.activity else {
            unreachable!()
        };
        let count = read_file(&self.files, at, start, self.pieces[self.turn], buffer);
        self.activity = Activity::Reading(at, start + count);
        self.turn = turn_after(self.turn, self.pieces.len());
        Ok(count)
    }

    fn create(&mut self, name: &str) -> Result<(), Failed>
        requires { (state_of self.old).writing ≡ false }
        ensures created { OnOk result (state_of self.new ≡ creates name.now (state_of self.old)) }
        ensures failed { OnErr result (FailedFrom (stops_reading (state_of self.old)) (state_of self.new)) }

        ensures fails { IsErr result ↔ (IsListed self.old Create ⊎ (¬ Contains (names_of self.old) name.now)) }
        ensures one_fault { OnErr result ((state_of self.new).faults ≡ next (state_of self.old).faults) }
        ensures counted { CountsCall self.old self.new Create }
        ensures same_turn { turn_of self.new ≡ turn_of self.old }
    {
        self.activity = Activity::Idle;
        if self.plan.is_to_fail(HostCall::Create) {
            return self.fail();
        }
        match place_of_name(&self.files, name) {
            Some(place) => {
                empty_file(&mut self.files, place);
                self.activity = Activity::Writing(place);
                Ok(())
            }
            None => self.fail(),
        }
    }

    #[tactic(auto, using(crate::proofs::FileList::exists_lt))]
    fn append(&mut self, bytes: &[u8]) -> Result<usize, Failed>
        requires { IsTrue (state_of self.old).writing }
        ensures front { IfOk result (λ count. IsFrontCount count bytes.now) }
        ensures added { IfOk result (λ count. state_of self.new ≡ appends (take count bytes.now) (state_of self.old)) }
        ensures failed { OnErr result (FailedFrom (state_of self.old) (state_of self.new)) }

        ensures moved { IfOk result (λ count. count ≡ min (piece_of self.old) (min (length bytes.now) (room_in_file self.old))) }
        ensures fails { IsErr result ↔ (IsListed self.old Append ⊎ ((0 < length bytes.now) × (room_in_file self.old ≡ 0))) }
        ensures one_fault { OnErr result ((state_of self.new).faults ≡ next (state_of self.old).faults) }
        ensures counted { CountsCall self.old self.new Append }
        ensures turned { OnOk result (turn_of self.new ≡ next_turn self.old) }
        ensures same_turn { OnErr result (turn_of self.new ≡ turn_of self.old) }
    {
        if self.plan.is_to_fail(HostCall::Append) {
            return self.fail();
        }
        let Activity::Writing(at) = self.activity else {
            unreachable!()
        };
        if !bytes.is_empty() && is_full(&self.files, at) {
            return self.fail();
        }
        let count = add_to_file(&mut self.files, at, bytes, self.pieces[self.turn]);
        self.turn = turn_after(self.turn, self.pieces.len());
        Ok(count)
    }

    fn finish(&mut self) -> Result<(), Failed>
        requires { IsTrue (state_of self.old).writing }
        ensures finished { OnOk result (state_of self.new ≡ finishes (state_of self.old)) }
        ensures failed { OnErr result (FailedFrom (finishes (state_of self.old)) (state_of self.new)) }

        ensures fails { IsErr result ↔ IsListed self.old Finish }
        ensures one_fault { OnErr result ((state_of self.new).faults ≡ next (state_of self.old).faults) }
        ensures counted { CountsCall self.old self.new Finish }
        ensures same_turn { turn_of self.new ≡ turn_of self.old }
    {
        self.activity = Activity::Idle;
        if self.plan.is_to_fail(HostCall::Finish) {
            return self.fail();
        }
        Ok(())
    }

    fn say(&mut self, bytes: &[u8]) -> Result<usize, Failed>
        ensures front { IfOk result (λ count. IsFrontCount count bytes.now) }
        ensures said { IfOk result (λ count. state_of self.new ≡ says (take count bytes.now) (state_of self.old)) }
        ensures failed { OnErr result (FailedFrom (state_of self.old) (state_of self.new)) }

        ensures moved { IfOk result (λ count. count ≡ min (piece_of self.old) (min (length bytes.now) (room_in_said self.old))) }
        ensures fails { IsErr result ↔ (IsListed self.old Say ⊎ ((0 < length bytes.now) × (room_in_said self.old ≡ 0))) }
        ensures one_fault { OnErr result ((state_of self.new).faults ≡ next (state_of self.old).faults) }
        ensures counted { CountsCall self.old self.new Say }
        ensures turned { OnOk result (turn_of self.new ≡ next_turn self.old) }
        ensures same_turn { OnErr result (turn_of self.new ≡ turn_of self.old) }
    {
        if self.plan.is_to_fail(HostCall::Say) {
            return self.fail();
        }
        let count = self.said.add(bytes, self.pieces[self.turn]);
        if count == 0 && !bytes.is_empty() {
            return self.fail();
        }
        self.turn = turn_after(self.turn, self.pieces.len());
        Ok(count)
    }
}

impl MemHost {
    ghost use Rattle.std.specs.Prelude.{[], ◌∷◌};
    ghost use Rattle.host.specs.Handed.{names_handed, state_handed, NamesApart};
    ghost use Rattle.host.specs.Memory.{state_of, told_of, names_of, pieces_of, turn_of, piece_of, byte_room, failing_of, calls_of, AreNumbers};
    ghost use Rattle.host.specs.declared.plan.HostCall.{HostCall};

    /// Returns a host with these files; `None` is a name that has no file yet.
    ///
    /// Each read, append and print moves at most `piece` bytes. Each file, and the output, can hold `room` bytes; a file that
    /// is longer when passed keeps its bytes. The calls in `failing` fail; for example, (Append, 2) is the second append. No
    /// file is open, nothing was printed, and the counts are 0. All memory is allocated here.
    pub fn new(
        alloc: Global,
        files: Vec<(String, Option<Vec<u8>>)>,
        piece: usize,
        room: usize,
        failing: Vec<(HostCall, u64)>,
    ) -> Result<MemHost, NoMemory>
        requires names { NamesApart files.items }
        requires piece { 0 < piece }
        requires numbers { AreNumbers failing.items }
        ensures state { IfOk result (λ host. state_of host ≡ state_handed files.items) }
        ensures names { IfOk result (λ host. names_of host ≡ names_handed files.items) }
        ensures piece { IfOk result (λ host. piece_of host ≡ piece) }
        ensures alone { IfOk result (λ host. pieces_of host ≡ piece ∷ []) }
        ensures room { IfOk result (λ host. byte_room host ≡ room) }
        ensures failing { IfOk result (λ host. failing_of host ≡ failing.items) }
        ensures calls { IfOk result (λ host. (call : HostCall) → calls_of host call ≡ 0) }
    {
        let mut pieces = Vec::new(alloc);
        pieces.push(piece)?;
        MemHost::with_pieces(alloc, files, pieces, room, failing)
    }

    /// Returns a host like [`MemHost::new`], but with pieces used in turn: of the successful reads, appends and prints, all
    /// counted together from 0, the k-th moves at most `pieces[k]` bytes, where k is taken modulo the number of pieces. A call
    /// that fails takes no turn.
    pub fn with_pieces(
        alloc: Global,
        files: Vec<(String, Option<Vec<u8>>)>,
        pieces: Vec<usize>,
        room: usize,
        failing: Vec<(HostCall, u64)>,
    ) -> Result<MemHost, NoMemory>
        requires names { NamesApart files.items }
        requires one_piece { 0 < length pieces.items }
        requires pieces { All (λ piece. 0 < piece) pieces.items }
        requires numbers { AreNumbers failing.items }
        ensures state { IfOk result (λ host. state_of host ≡ state_handed files.items) }
        ensures names { IfOk result (λ host. names_of host ≡ names_handed files.items) }
        ensures pieces { IfOk result (λ host. pieces_of host ≡ pieces.items) }
        ensures first { IfOk result (λ host. turn_of host ≡ 0) }
        ensures room { IfOk result (λ host. byte_room host ≡ room) }
        ensures failing { IfOk result (λ host. failing_of host ≡ failing.items) }
        ensures calls { IfOk result (λ host. (call : HostCall) → calls_of host call ≡ 0) }
    {
        Ok(MemHost {
            files: kept_files(alloc, files, room)?,
            said: Store::new(Vec::new(alloc), room)?,
            pieces,
            turn: 0,
            plan: Plan {
                failing,
                counts: [0; 6],
                faults: 0,
            },
            activity: Activity::Idle,
            opens: 0,
        })
    }

    /// Returns the bytes of a file, or `None` exactly if no file has the name.
    #[tactic(auto, using(crate::proofs::FileList::at_place))]
    pub fn file(&self, name: &str) -> Option<&[u8]>
        ensures { option_map (λ bytes. bytes.now) result ≡ (told_of self.now).files name.now }
    {
        let place = find_file(&self.files, name)?;
        Some(self.files[place].store.bytes.as_slice())
    }

    /// Returns the whole output.
    pub fn said(&self) -> &[u8]
        ensures { result.now ≡ (told_of self.now).said }
    {
        self.said.bytes.as_slice()
    }

    /// Returns the number of failed calls. The count stops at 2^64 - 1.
    pub fn fault_count(&self) -> u64
        ensures { result ≡ (state_of self.now).faults }
    {
        self.plan.faults
    }

    /// Counts a fault.
    fn fail<T: Drop>(&mut self) -> Result<T, Failed>
        ensures err { IsErr result }
        ensures rose { Rose self.old.plan.faults self.new.plan.faults }
        ensures fault { self.new ≡ record self.old { plan = record self.old.plan { faults = next self.old.plan.faults } } }
    {
        self.plan.faults = self.plan.faults.saturating_add(1);
        Err(Failed)
    }
}
