//! Which calls of a host in memory fail, and the number of calls of each kind.
ghost use Rattle.std.specs.Prelude.{◌≡◌, ◌↔◌, ◌<◌, IsTrue, Contains, slice_index, slice_set};
ghost use Rattle.host.specs.Counts.{next, call_index};

/// The calls of a host, by which `MemHost::new` is configured to fail.
#[derive(Clone, Copy, Debug, PartialEq, Eq)]
pub enum HostCall {
    /// A file is opened for reading.
    Open,
    /// Bytes of the open file are read.
    Read,
    /// A file is created or emptied.
    Create,
    /// Bytes are appended to the file that is open for writing.
    Append,
    /// The file that is open for writing is closed.
    Finish,
    /// Bytes are printed.
    Say,
}

/// Returns the index of a call's count.
fn place_of_call(call: HostCall) -> usize
    ensures place { result ≡ call_index call }
    ensures below { result < 6 }
{
    match call {
        HostCall::Open => 0,
        HostCall::Read => 1,
        HostCall::Create => 2,
        HostCall::Append => 3,
        HostCall::Finish => 4,
        HostCall::Say => 5,
    }
}

/// The calls that fail, for example (Append, 2) for the second append, the number of calls of each kind, and the number of
/// failed calls. The counts stop at 2^64 - 1.
#[derive(Drop)]
pub struct Plan {
    pub failing: Vec<(HostCall, u64)>,
    pub counts: [u64; 6],
    pub faults: u64,
}

impl Plan {
    /// Counts a call, and returns whether it fails.
    pub fn is_to_fail(&mut self, call: HostCall) -> bool
        ensures listed { IsTrue result ↔ Contains self.old.failing.items (call, next (slice_index self.old.counts (call_index call))) }
        ensures counted { self.new ≡ record self.old { counts = slice_set self.old.counts (call_index call) (next (slice_index self.old.counts (call_index call))) } }
    {
        let place = place_of_call(call);
        let number = self.counts[place].saturating_add(1);
        self.counts[place] = number;
        self.failing.contains(&(call, number))
    }
}
