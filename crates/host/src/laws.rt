//! A theorem about the pieces of a host in memory. The function does nothing: its contract is the theorem.
ghost use Rattle.std.specs.Prelude.{◌≡◌, ◌<◌, ◌+◌, ◌%◌, ℕ, length};
ghost use Rattle.host.specs.Memory.{pieces_of, turn_of, next_turn};
ghost use Rattle.host.specs.declared.memory.MemHost.{MemHost};

/// After the k-th successful read, append or print, counted from 0, which uses the piece at k modulo their number, the next
/// such call uses that of k + 1. For tests that use pieces and need to know which of them a call moves.
pub fn pieces_come_in_turn()
    ensures { (host : MemHost) (k : ℕ) → 0 < length (pieces_of host) → turn_of host ≡ k % length (pieces_of host) → next_turn host ≡ (k + 1) % length (pieces_of host) }
{}
