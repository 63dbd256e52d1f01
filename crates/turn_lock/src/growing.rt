// The values that a lock keeps.
ghost use Rattle.std.specs.Prelude.{◌≡◌, List, ℕ, length};

/// A value that keeps a journal. Each entry carries the number of the caller that made it.
pub trait Growing {
    /// An entry of the journal.
    type Entry;
    /// Data that no event changes.
    type Ground;

    // The journal, oldest entry first.
    ghost journal: { Self → List Self.Entry };

    // The number of the caller that made an entry.
    ghost caller: { Self.Entry → ℕ };

    ghost ground: { Self → Self.Ground };

    /// The length of the journal.
    fn entries(&self) -> u64
        ensures { result ≡ length (journal self.now) };
}
