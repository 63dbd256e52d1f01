// Productions.
ghost use Rattle.std.specs.Prelude.{◌≡◌, ◌≢◌, ◌≤◌, ◌<◌, ◌+◌, ◌↔◌, ℕ, true, false, [], IfOk, OnErr, Some, length};
ghost use Rattle.data_set_trees.specs.checked.Scripts.{Script};
ghost use Rattle.operator_meaning.specs.Scripts.{ScriptWrong, script_wrong};
ghost use Rattle.round_journal.specs.Journals.{State, Over, NoneReady, IsOutBy, Legal, aside, inputs, verdict_on, fault_said, number as number_of};
ghost use Rattle.round_journal.specs.Stands.{DoneStands};
ghost use Rattle.round_journal.specs.Releases.{IsRelease, IsReleaseAt, oldest_kept};
ghost use Rattle.round_journal.specs.declared.verdict.ScriptFault.{ScriptFault};
ghost use Rattle.round_core.specs.declared.limits.Full.{Full};
ghost use Rattle.round_core.specs.declared.stops.OpenStop.{OpenStop};
ghost use Rattle.round_core.specs.Seen.{Seen, state_in, seen_with, opened};
ghost use Rattle.round_core.specs.Answers.{full_for, cannot_rescript, cannot_open, works_out, Replaces, Claims, GivesSo, given_what, state_given, EndsDropped, EndsPublished, EndsFailed};

use crate::ends::count_out;
use crate::limits::{ENTRY_LIMIT, FIELD_LIMIT, Limits, SCRIPT_LIMIT};
use crate::machine::Machine;
use crate::stops::{ClaimStop, Given, NoRelease, OpenStop, RescriptStop, SubmitStop};
use built_scripts::CheckedScript;
use point_sets::Revision;
use release_text::Release;
use round_journal::{Done, Entry, Journal, Verdict, What, Work};
use std::alloc::{AllocError, Global};
use std::marker::Model;

/// A script with its inputs, rounds and releases, and the scripts that replaced it. Contracts see the first script, the
/// limits and the journal.
pub struct Production {
    machine: Machine,
}

// Written out, so that who drops one calls this and doesn't go through what is in it.
impl Drop for Production {
    fn drop(self) {
        let Production { machine: _ } = self;
    }
}

impl Model for Production {
    ghost use Rattle.round_core.specs.Seen.{Seen, seen_coded};

    ghost Value = { Seen };

    ghost coded = { seen_coded };

    ghost use Rattle.round_core.specs.Kept.{Kept, seen};

    ghost view = { seen };

    ghost invariant = { Kept };
}

impl Production {
    ghost use Rattle.round_core.specs.Kept.{KeptMachine};

    /// A production of a script, with empty inputs and an empty journal. Its release 0 is what the script means on
    /// empty inputs.
    pub fn new(
        alloc: Global,
        script: CheckedScript,
        limits: Limits,
    ) -> Result<Production, AllocError>
        requires entries { limits.entries ≤ ENTRY_LIMIT }
        requires fields { limits.fields ≤ FIELD_LIMIT }
        requires some_script { 1 ≤ limits.scripts }
        requires scripts { limits.scripts ≤ SCRIPT_LIMIT }
        ensures { IfOk result (λ p. p ≡ record { script = script; limits = limits; journal = [] }) }
    {
        // Its clause tells that the script is checked.
        let _ = script.statements();
        Ok(Production {
            machine: Machine::new(alloc, script, limits)?,
        })
    }

    /// The first script, whose inputs are those of each that replaces it.
    pub fn script(&self) -> &CheckedScript
        ensures { result.now ≡ self.now.script }
    {
        &self.machine.first
    }

    /// Whether a round is open.
    pub fn is_open(&self) -> bool
        ensures { result ≡ (state_in self.now).running }
    {
        self.machine.counts.running
    }

    /// All that happened, in order.
    pub fn journal(&self) -> &[Entry]
        ensures same { result.now ≡ self.now.journal }
        ensures legal { Legal self.now.script self.now.journal }
        ensures live { ¬ (Over (state_in self.now)) }
        ensures fits { length self.now.journal + aside (state_in self.now) ≤ self.now.limits.entries }
        ensures fields_fit { (state_in self.now).fields ≤ self.now.limits.fields }
    {
        self.machine.journal.as_slice()
    }

    /// All that happened, in order.
    pub fn into_journal(self) -> Journal
        ensures { result.entries ≡ self.journal }
    {
        let Production { machine } = self;
        machine.into_journal()
    }

    /// The latest release. Its script is in bounds on the inputs after its prefix.
    pub fn latest(&self) -> &Release
        ensures release { IsRelease (state_in self.now) result.now }
        ensures in_bounds { script_wrong (state_in self.now).latest.script.script (inputs result.now.prefix (state_in self.now)) ≡ None }
    {
        &self.machine.latest
    }

    /// The release with this number. The last 64 are kept, each with its own script.
    pub fn release(&self, number: u64) -> Result<&Release, NoRelease>
        ensures found { IfOk result (λ release. IsReleaseAt (state_in self.now) number release.now) }
        ensures gone { (oldest : ℕ) → (result ≡ Err (NoRelease.Gone oldest)) ↔ ((number < oldest_kept (state_in self.now)) × (oldest ≡ oldest_kept (state_in self.now))) }
        ensures not_yet { (latest : ℕ) → (result ≡ Err (NoRelease.NotYet latest)) ↔ ((number_of (state_in self.now) < number) × (latest ≡ number_of (state_in self.now))) }
    {
        self.machine.release(number)
    }

    /// The latest release, where it stands on the accepted revision with this receipt; else its prefix.
    pub fn holding(&self, receipt: u64) -> Result<&Release, u64>
        ensures found { IfOk result (λ release. IsRelease (state_in self.now) release.now × (receipt ≤ release.now.prefix)) }
        ensures behind { (prefix : ℕ) → (result ≡ Err prefix) ↔ (((state_in self.now).latest.prefix < receipt) × (prefix ≡ (state_in self.now).latest.prefix)) }
    {
        let latest = &self.machine.latest;
        if latest.prefix < receipt {
            Err(latest.prefix)
        } else {
            Ok(latest)
        }
    }

    /// Replaces the script: rounds that are opened from now on are of this one, and begin from empty inputs; an open
    /// round goes on with its own. It answers the script's number.
    pub fn rescript(&mut self, by: u64, script: CheckedScript) -> Result<u64, RescriptStop>
        requires same_inputs { script.inputs ≡ self.old.script.inputs }
        ensures replaced { IfOk result (λ k. Replaces self.old by script k self.new) }
        ensures err { OnErr result (self.new ≡ self.old) }
        ensures full { (full : Full) → (result ≡ Err (RescriptStop.Full full)) ↔ (cannot_rescript self.old ≡ Some full) }
    {
        if let Some(full) = self.machine.cannot_rescript() {
            return Err(RescriptStop::Full(full));
        }
        // Its clause tells that the script is checked.
        let _ = script.statements();
        match self.machine.rescript(by, script) {
            Ok(number) => Ok(number),
            Err(_) => Err(RescriptStop::Memory),
        }
    }

    /// Judges a revision against the inputs of now. An accepted one changes its inputs, and gets the next receipt, from
    /// 1; a refused one changes none.
    pub fn judge_one(&mut self, by: u64, revision: Revision) -> Result<Verdict, SubmitStop>
        ensures judged { IfOk result (λ v. (v ≡ verdict_on (state_in self.old) revision) × (self.new ≡ seen_with self.old by (What.Judged revision v))) }
        ensures err { OnErr result (self.new ≡ self.old) }
        ensures full { (full : Full) → (result ≡ Err (SubmitStop.Full full)) ↔ (full_for self.old revision ≡ Some full) }
    {
        if let Some(full) = self.machine.full_for(&revision) {
            return Err(SubmitStop::Full(full));
        }
        match self.machine.judge_one(by, revision) {
            Ok(verdict) => Ok(verdict),
            Err(_) => Err(SubmitStop::Memory),
        }
    }

    /// Opens a round of the newest script over all accepted revisions, and answers its number. In a script without
    /// statements it ends at once. The first round of a script costs all that its inputs have, another one what changed
    /// since the latest release.
    pub fn open_round(&mut self, by: u64) -> Result<u64, OpenStop>
        ensures opened { IfOk result (λ k. (k ≡ (state_in self.old).rounds + 1) × (self.new ≡ opened self.old by)) }
        ensures err { OnErr result (self.new ≡ self.old) }
        ensures refused { (stop : OpenStop) → stop ≢ OpenStop.Memory → (result ≡ Err stop) ↔ (cannot_open self.old ≡ Some stop) }
    {
        if let Some(stop) = self.machine.cannot_open() {
            return Err(stop);
        }
        match self.machine.set_aside() {
            Ok(setting) => Ok(self.machine.open(by, setting)),
            Err(_) => Err(OpenStop::Memory),
        }
    }

    /// Hands out the first statement in the order of the round's script that is ready: it wasn't handed out in this
    /// round, and each result that it names came back with a change. It takes no memory.
    pub fn claim(&mut self, by: u64) -> Result<Work, ClaimStop>
        ensures claimed { IfOk result (λ w. Claims self.old by w self.new) }
        ensures err { OnErr result (self.new ≡ self.old) }
        ensures no_round { (rounds : ℕ) → (result ≡ Err (ClaimStop.NoRound rounds)) ↔ (((state_in self.old).running ≡ false) × (rounds ≡ (state_in self.old).rounds)) }
        ensures none_ready { (out : ℕ) → (result ≡ Err (ClaimStop.NoneReady out)) ↔ (((state_in self.old).running ≡ true) × NoneReady (state_in self.old) × (out ≡ works_out (length (state_in self.old).round.script.statements) (state_in self.old).status)) }
    {
        if !self.machine.counts.running {
            return Err(ClaimStop::NoRound(self.machine.counts.rounds));
        }
        match self.machine.next_ready() {
            Some(i) => Ok(self.machine.hand_out(by, i)),
            None => Err(ClaimStop::NoneReady {
                out: count_out(self.machine.slots.as_slice()),
            }),
        }
    }

    /// Takes a work back that the caller has out, and ends the round where it is over: it is dropped where a statement
    /// was given up, published where its script is in bounds on its inputs, and failed with the script's fault where it
    /// has one. It takes no memory.
    pub fn give(&mut self, by: u64, done: Done) -> Given
        requires out { IsOutBy (state_in self.old) by done.statement }
        requires stands { DoneStands (state_in self.old) done }
        ensures journal { GivesSo self.old by (given_what done.finish done.statement) result self.new }
        ensures counted { (result ≡ Given.Counted) ↔ (¬ (Over (state_given self.old by (given_what done.finish done.statement)))) }
        ensures dropped { (result ≡ Given.Dropped) ↔ EndsDropped (state_given self.old by (given_what done.finish done.statement)) }
        ensures published { (k : ℕ) → (result ≡ Given.Published k) ↔ (EndsPublished (state_given self.old by (given_what done.finish done.statement)) × (k ≡ number_of (state_in self.old) + 1)) }
        ensures failed { (wrong : ScriptWrong) → ((told : ScriptFault) × (result ≡ Given.Failed told) × (fault_said told ≡ wrong)) ↔ EndsFailed (state_given self.old by (given_what done.finish done.statement)) wrong }
    {
        self.machine.take_back(by, done.into_parts());
        self.machine.end_round(by)
    }
}
