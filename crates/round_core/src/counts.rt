// The counters of a production.

/// What a production's journal counts: its accepted revisions and the fields of all judged ones; the number of its
/// newest script; the round of the last release; the rounds, and of the last one its script, the prefix from which it
/// goes on, whether it is open, was dropped, and had a statement given up, its prefix, and the entries that are set
/// aside for it.
#[derive(Clone, Copy, Debug, PartialEq, Eq)]
pub struct Counts {
    pub accepted: u64,
    pub fields: u64,
    pub newest: u64,
    pub published: u64,
    pub rounds: u64,
    pub script: u64,
    pub base: u64,
    pub running: bool,
    pub dropped: bool,
    pub spoiled: bool,
    pub to: u64,
    pub aside: u64,
}

impl Counts {
    ghost use Rattle.std.specs.Prelude.{◌≡◌};
    ghost use Rattle.round_journal.specs.Journals.{State};
    ghost use Rattle.round_core.specs.Answers.{nothing_new};
    ghost use Rattle.round_core.specs.Kept.{first_counts, CountsKept};

    /// Whether there is nothing for a round to work out: nothing was accepted yet and the script is the first one, or
    /// the last round had all accepted revisions and the newest script, and wasn't dropped.
    pub fn nothing_new(&self) -> bool
        ensures { (s : State) → CountsKept self.now s → result ≡ nothing_new s }
    {
        let none_yet = self.accepted == 0 && self.newest == 0;
        let had_all = self.to == self.accepted && !self.dropped && self.script == self.newest;
        none_yet || had_all
    }

    /// Those of an empty journal.
    pub fn new() -> Counts
        ensures { result ≡ first_counts }
    {
        Counts {
            accepted: 0,
            fields: 0,
            newest: 0,
            published: 0,
            rounds: 0,
            script: 0,
            base: 0,
            running: false,
            dropped: false,
            spoiled: false,
            to: 0,
            aside: 0,
        }
    }
}
