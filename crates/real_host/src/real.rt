//! The operating system as a host: its files and standard output, over std's files.
//!
//! This is the trusted edge of a program. The system exposes no bytes, so no proof says what a file contains. Its counts and
//! its open files are exposed, and the bytes that a call read and wrote are those of the file under it, in std's terms.
//!
//! On standard error it prints which call failed and why, and the program's hint. If this text cannot be printed, or there is
//! no memory for a name in it, the run goes on. Nothing is printed while a file is open for writing, since that file may have
//! the descriptor of a closed standard error.
ghost use Rattle.std.specs.Prelude.{false, ◌≡◌, ◌≤◌, ◌<◌, IfOk, OnOk, OnErr, IsErr, IfSome, IsTrue, length, take, Ok};
ghost use Rattle.std.specs.Io.KnownBytes.{ReadConsumes, WriteAppends};
ghost use Rattle.host.specs.State.{IsFrontCount, IsNextPiece, FailedFrom, takes, appends};
ghost use Rattle.host.specs.Counts.{Rose, next};

use crate::advice::Advice;
use crate::retried::{create_retried, open_retried, read_retried, write_retried};
use host::{Failed, Host};
use std::fs::OpenFile;
use std::io;
use std::io::ErrorKind;
use std::rt::Files;

/// The files and the standard output of the system, over its runtime.
///
/// An interrupted read or write is repeated, at most 1,000 times in all. (std repeats an interrupted open by itself, without
/// limit.) Each other error is a fault, and so are the last of these interruptions and a write that takes none of the bytes. A
/// file is finished when the system has synced its bytes.
#[derive(Drop)]
pub struct RealHost<R: Drop, F: Drop, A: Drop> {
    rt: R,
    reading: Option<F>,
    writing: Option<F>,
    faults: u64,
    opens: u64,
    // the hints for users
    advice: A,
    // the file that was opened or created last, if there was memory for its name
    name: Option<String>,
    // why a write failed, until the file is closed
    trouble: Option<io::Error>,
}

/// Syncs the bytes of the file. Targets that store none, such as a pipe or a terminal, need no sync.
fn sync<F: OpenFile>(file: &F) -> io::Result<()> {
    match file.sync_data() {
        Err(error)
            if matches!(
                error.kind(),
                ErrorKind::InvalidInput | ErrorKind::Unsupported
            ) => Ok(()),
        answer => answer,
    }
}

impl<R: Files + Print + Eprint + AllocGlobal + Drop, A: Advice> RealHost<R, R::File, A> {
    ghost use Rattle.real_host.specs.Real.{real_state};

    /// Returns a host with no file open and no fault so far.
    pub fn new(rt: R, advice: A) -> Self
        ensures writing { (real_state result).writing ≡ false }
        ensures reading { (real_state result).reading ≡ false }
        ensures counts { ((real_state result).faults ≡ 0) × ((real_state result).opens ≡ 0) }
    {
        RealHost {
            rt,
            reading: None,
            writing: None,
            faults: 0,
            opens: 0,
            advice,
            name: None,
            trouble: None,
        }
    }

    /// Returns the result of a call of the system, and counts an error as a fault.
    fn counted<T: Drop>(&mut self, answer: io::Result<T>) -> Result<T, Failed>
        ensures ok { IfOk answer (λ value. result ≡ Ok value) }
        ensures kept { OnOk answer (self.new ≡ self.old) }
        ensures err { OnErr answer (IsErr result) }
        ensures rose { OnErr answer (Rose self.old.faults self.new.faults) }
        ensures fault { OnErr answer (self.new ≡ record self.old { faults = next self.old.faults }) }
    {
        match answer {
            Ok(value) => Ok(value),
            Err(_) => Err(self.fault()),
        }
    }

    /// Counts a fault.
    fn fault(&mut self) -> Failed
        ensures rose { Rose self.old.faults self.new.faults }
        ensures fault { self.new ≡ record self.old { faults = next self.old.faults } }
    {
        self.faults = self.faults.saturating_add(1);
        Failed
    }

    /// Prints why a call on the file of this name failed, if it did.
    fn tell<T>(&self, name: &str, answer: &io::Result<T>) {
        if let Err(error) = answer {
            let program = self.advice.program();
            let _ = eprintln!(self.rt; "{program}: {name}: {error}");
        }
    }

    /// Does the same for the file that is open.
    fn tell_of_file<T>(&self, answer: &io::Result<T>) {
        match &self.name {
            Some(name) => self.tell(name.as_str(), answer),
            None => self.tell("a file", answer),
        }
    }
}

impl<R: Files + Print + Eprint + AllocGlobal + Drop, A: Advice> Host for RealHost<R, R::File, A> {
    ghost use Rattle.real_host.specs.Real.{real_state, left_of, held_of};

    ghost state = { real_state };

    fn open(&mut self, name: &str) -> Result<(), Failed> {
        self.opens = self.opens.saturating_add(1);
        self.reading = None;
        self.name = String::from_str(self.rt.alloc(), name).ok();
        let opened = open_retried(&self.rt, name);
        self.tell(name, &opened);
        self.reading = Some(self.counted(opened)?);
        Ok(())
    }

    /// Reads by the contract of `Host`; the last postcondition states what the file gave.
    fn read(&mut self, buffer: &mut [u8]) -> Result<usize, Failed>
        requires { IsTrue (real_state self.old).reading }
        ensures within { IfOk result (λ count. count ≤ length buffer.new) }
        ensures next_bytes { IfOk result (λ count. IfSome (real_state self.old).told (λ told. IsNextPiece count buffer.new told.left)) }
        ensures taken { IfOk result (λ count. real_state self.new ≡ takes count (real_state self.old)) }
        ensures failed { OnErr result (FailedFrom (real_state self.old) (real_state self.new)) }
        ensures given { ReadConsumes (left_of R.File.remaining self.old) (left_of R.File.remaining self.new) result buffer.new }
    {
        let Some(file) = &mut self.reading else {
            unreachable!()
        };
        let answer = read_retried(file, buffer);
        self.tell_of_file(&answer);
        self.counted(answer)
    }

    fn create(&mut self, name: &str) -> Result<(), Failed> {
        self.reading = None;
        self.name = String::from_str(self.rt.alloc(), name).ok();
        let created = create_retried(&self.rt, name);
        self.tell(name, &created);
        self.writing = Some(self.counted(created)?);
        Ok(())
    }

    /// Appends by the contract of `Host`; the last postcondition states what the file took.
    fn append(&mut self, bytes: &[u8]) -> Result<usize, Failed>
        requires { IsTrue (real_state self.old).writing }
        ensures front { IfOk result (λ count. IsFrontCount count bytes.now) }
        ensures added { IfOk result (λ count. real_state self.new ≡ appends (take count bytes.now) (real_state self.old)) }
        ensures failed { OnErr result (FailedFrom (real_state self.old) (real_state self.new)) }
        ensures given { WriteAppends (held_of R.File.contents self.old) (held_of R.File.contents self.new) result bytes.now }
    {
        let Some(file) = &mut self.writing else {
            unreachable!()
        };
        match write_retried(file, bytes) {
            Ok(count) => Ok(count),
            Err(error) => {
                self.trouble = Some(error);
                Err(self.fault())
            }
        }
    }

    /// Syncs and closes the file. Fails if a write failed before, with that error.
    fn finish(&mut self) -> Result<(), Failed> {
        let put = match &self.writing {
            Some(file) => sync(file),
            None => Ok(()),
        };
        self.writing = None;
        let finished = match self.trouble.take() {
            Some(error) => Err(error),
            None => put,
        };
        self.tell_of_file(&finished);
        self.counted(finished)
    }

    fn say(&mut self, bytes: &[u8]) -> Result<usize, Failed> {
        let answer = write_retried(&mut io::writer(&self.rt), bytes);
        self.tell("standard output", &answer);
        if answer.is_ok() {
            self.advice.advise(&self.rt, bytes);
        }
        self.counted(answer)
    }

    ghost coherent = { λ host. tt };
}
