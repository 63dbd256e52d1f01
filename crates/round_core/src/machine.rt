// A production's parts, and what each call makes of them.
ghost use Rattle.std.specs.Prelude.{◌≡◌, ◌≢◌, ◌≤◌, ◌<◌, ◌+◌, ◌-◌, ◌↔◌, ◌++◌, ◌∷◌, [], ℕ, slice_index_or, slice_set, drop, true, false, IfOk, IfSome, OnErr, Some, None, length, vec_len, vec_capacity};
ghost use Rattle.std.specs.List.{All};
ghost use Rattle.data_set_trees.specs.checked.Scripts.{IsChecked};
ghost use Rattle.revision_judge.specs.Judging.{judged};
ghost use Rattle.revision_judge.specs.Shares.{StandsForJudgement};
ghost use Rattle.std.specs.Arc.{arc_value};
ghost use Rattle.round_journal.specs.Releases.{IsReleaseAt, oldest_kept};
ghost use Rattle.round_journal.specs.Journals.{number as number_of, part_fields, fields_of, name_of_part, inputs_now, IsOutBy};
ghost use Rattle.round_journal.specs.Stands.{DoneStands};
ghost use Rattle.round_core.specs.Answers.{told, entries_wanting, full_for, cannot_rescript, cannot_open, Replaces, Claims, given_what};
ghost use Rattle.round_core.specs.Inputs.{AllCarry};
ghost use Rattle.round_core.specs.Kept.{KeptMachine, seen_of, state_at};
ghost use Rattle.round_core.specs.Seen.{seen_with, opened};
ghost use Rattle.round_core.specs.Slots.{EachSlot, SameHomes, ReadyIn, FirstReadyIn, EndsSo, back_with};
ghost use Rattle.round_core.specs.declared.slot.Slot.{Slot};
ghost use Rattle.round_core.specs.Steps.{Stays, Judges, HasRoom, IsPrepared, HasSlots, IsSetAside, TakesOn, OpenStill, EndedSo, closed_counts};

use crate::counts::Counts;
use crate::ends::{End, end_of, first_ready, passed_over};
use crate::inputs::{InputChange, Inputs};
use crate::limits::{EARLIER_LIMIT, ENTRY_LIMIT, FIELD_LIMIT, Full, Limits, SCRIPT_LIMIT};
use crate::moves::{collect_pages, first_pages, first_slots, hand_on, prepare};
use crate::slot::{Slot, Stage};
use crate::stops::{Given, NoRelease, OpenStop};
use built_scripts::CheckedScript;
use point_sets::{Part, Revision};
use release_text::{Pages, Release};
use revision_judge::{Refusal, Ruling, Share, judge};
use round_journal::{DoneParts, Entry, Finish, Journal, Node, ScriptFault, Verdict, What, Work};
use sqlite_items::Items;
use std::alloc::{AllocError, Global};
use std::mem;
use std::sync::Arc;
use vtl_values::Word;

/// The parts of a production: the first script, the newest one, and that of the last round; the limits, all that
/// happened, and what it counts; the inputs, a slot for each statement of the last round's script, and how many of the
/// first ones in its order don't wait any more; the room of the release of the open round, the latest release, and
/// those before it that are kept.
#[derive(Drop)]
pub struct Machine {
    pub first: Arc<CheckedScript>,
    pub newest: Arc<CheckedScript>,
    pub script: Arc<CheckedScript>,
    pub limits: Limits,
    pub journal: Vec<Entry>,
    pub counts: Counts,
    pub inputs: Inputs,
    pub slots: Vec<Slot>,
    pub passed: usize,
    pub room: Vec<Pages>,
    pub latest: Release,
    pub earlier: Vec<Release>,
}

/// What the first round of a script needs: the script, and the slots of its statements.
#[derive(Drop)]
pub struct FirstRound {
    pub script: Arc<CheckedScript>,
    pub slots: Vec<Slot>,
}

/// What a round needs that is to be opened: the changes of the inputs by which it goes, and what else the first one of
/// its script needs.
#[derive(Drop)]
pub struct Setting {
    pub changes: Vec<InputChange>,
    pub first: Option<FirstRound>,
}

/// Adds an entry. There is room.
pub fn note(journal: &mut Vec<Entry>, by: u64, what: What)
    requires { vec_len journal.old < vec_capacity journal.old }
    ensures items { journal.new.items ≡ journal.old.items ++ (record { by = by; what = what }) ∷ [] }
    ensures capacity { vec_capacity journal.old ≤ vec_capacity journal.new }
{
    match journal.push(Entry { by, what }) {
        Ok(()) => {}
        Err(_) => {}
    }
}

/// Keeps a release beside the latest one, in place of the oldest where there is no room for one more.
fn keep(earlier: &mut Vec<Release>, release: Release)
    requires few { length earlier.old.items ≤ EARLIER_LIMIT }
    requires room { EARLIER_LIMIT ≤ vec_capacity earlier.old }
    ensures items { earlier.new.items ≡ drop (length earlier.old.items + 1 - EARLIER_LIMIT) earlier.old.items ++ release ∷ [] }
    ensures capacity { EARLIER_LIMIT ≤ vec_capacity earlier.new }
{
    if earlier.len() == EARLIER_LIMIT {
        let _oldest = earlier.remove(0);
    }
    match earlier.push(release) {
        Ok(()) => {}
        Err(_) => {}
    }
}

/// The fields of all rows of a part, or the last number where there are more.
fn part_fields(part: &Part) -> u64
    ensures { result ≡ told (part_fields part.now) }
{
    let mut count: u64 = 0;
    let rows = part.rows.as_slice();
    for row in rows {
        count = count.saturating_add(row.fields.len() as u64);
    }
    count
}

/// The fields of all parts of a revision, or the last number where there are more.
fn count_fields(revision: &Revision) -> u64
    ensures { result ≡ told (fields_of revision.now) }
{
    let mut count: u64 = 0;
    let parts = revision.parts.as_slice();
    for part in parts {
        count = count.saturating_add(part_fields(part));
    }
    count
}

/// The name that a part gives its data set. The parts are counted from 1.
fn name_of_part(parts: &[Part], n: u64) -> Result<Word, AllocError>
    requires first { 1 ≤ n }
    requires last { n ≤ length parts.now }
    ensures { IfOk result (λ name. name ≡ name_of_part parts.now n) }
{
    parts[n as usize - 1].set.copy()
}

impl Machine {
    /// The parts of a new production.
    pub fn new(alloc: Global, script: CheckedScript, limits: Limits) -> Result<Machine, AllocError>
        requires checked { IsChecked script }
        requires entries { limits.entries ≤ ENTRY_LIMIT }
        requires fields { limits.fields ≤ FIELD_LIMIT }
        requires some { 1 ≤ limits.scripts }
        requires scripts { limits.scripts ≤ SCRIPT_LIMIT }
        ensures kept { IfOk result KeptMachine }
        ensures seen { IfOk result (λ a. seen_of a ≡ record { script = script; limits = limits; journal = [] }) }
    {
        let inputs = Inputs::new(alloc, script.inputs().len())?;
        let slots = first_slots(alloc, &script)?;
        let pages = first_pages(alloc, &script)?;
        let first = Arc::new(alloc, script)?;
        Ok(Machine {
            newest: first.clone()?,
            script: first.clone()?,
            first,
            limits,
            journal: Vec::new(alloc),
            counts: Counts::new(),
            inputs,
            slots,
            passed: 0,
            room: Vec::new(alloc),
            latest: Release {
                number: 0,
                prefix: 0,
                script: 0,
                pages,
            },
            earlier: Vec::with_capacity(alloc, EARLIER_LIMIT)?,
        })
    }

    /// All that happened, in order.
    pub fn into_journal(self) -> Journal
        ensures { result.entries ≡ self.journal.items }
    {
        let Machine { journal, .. } = self;
        Journal {
            entries: Items::from_vec(journal),
        }
    }

    /// The release with this number, if it is kept.
    pub fn release(&self, number: u64) -> Result<&Release, NoRelease>
        requires { KeptMachine self.now }
        ensures found { IfOk result (λ release. IsReleaseAt (state_at self.now) number release.now) }
        ensures gone { (oldest : ℕ) → (result ≡ Err (NoRelease.Gone oldest)) ↔ ((number < oldest_kept (state_at self.now)) × (oldest ≡ oldest_kept (state_at self.now))) }
        ensures not_yet { (latest : ℕ) → (result ≡ Err (NoRelease.NotYet latest)) ↔ ((number_of (state_at self.now) < number) × (latest ≡ number_of (state_at self.now))) }
    {
        let latest = self.latest.number;
        if latest < number {
            return Err(NoRelease::NotYet(latest));
        }
        if latest == number {
            return Ok(&self.latest);
        }
        let oldest = latest - self.earlier.len() as u64;
        if number < oldest {
            return Err(NoRelease::Gone(oldest));
        }
        Ok(&self.earlier[(number - oldest) as usize])
    }

    /// The entries that are held, set aside and needed, where together they pass the limit.
    fn entries_wanting(&self, aside: u64, need: u64) -> Option<Full>
        requires held { length self.now.journal.items ≤ ENTRY_LIMIT }
        requires aside { aside ≤ ENTRY_LIMIT }
        requires need { need ≤ ENTRY_LIMIT }
        ensures { result ≡ entries_wanting (seen_of self.now) aside need }
    {
        let held = self.journal.len() as u64;
        if self.limits.entries < held + aside + need {
            Some(Full::Entries { held, aside, need })
        } else {
            None
        }
    }

    /// Why a revision doesn't fit, if it doesn't.
    pub fn full_for(&self, revision: &Revision) -> Option<Full>
        requires { KeptMachine self.now }
        ensures { result ≡ full_for (seen_of self.now) revision.now }
    {
        if let Some(full) = self.entries_wanting(self.counts.aside, 1) {
            return Some(full);
        }
        let held = self.counts.fields;
        let need = count_fields(revision);
        if self.limits.fields - held < need {
            Some(Full::Fields { held, need })
        } else {
            None
        }
    }

    /// Why a round can't be opened, if it can't but for want of memory.
    pub fn cannot_open(&self) -> Option<OpenStop>
        requires { KeptMachine self.now }
        ensures { result ≡ cannot_open (seen_of self.now) }
    {
        let counts = &self.counts;
        if counts.running {
            return Some(OpenStop::Running(counts.rounds));
        }
        if counts.nothing_new() {
            return Some(OpenStop::NothingNew(counts.accepted));
        }
        let need = 2 * self.newest.statements().len() as u64 + 2;
        match self.entries_wanting(0, need) {
            Some(full) => Some(OpenStop::Full(full)),
            None => None,
        }
    }

    /// Why the script can't be replaced, if it can't but for want of memory.
    pub fn cannot_rescript(&self) -> Option<Full>
        requires { KeptMachine self.now }
        ensures { result ≡ cannot_rescript (seen_of self.now) }
    {
        let held = self.counts.newest + 1;
        if self.limits.scripts <= held {
            return Some(Full::Scripts { held });
        }
        self.entries_wanting(self.counts.aside, 1)
    }

    /// Replaces the script from the next round on, and answers the new one's number.
    pub fn rescript(&mut self, by: u64, script: CheckedScript) -> Result<u64, AllocError>
        requires kept { KeptMachine self.old }
        requires checked { IsChecked script }
        requires same_inputs { script.inputs ≡ (arc_value self.old.first).inputs }
        requires fits { cannot_rescript (seen_of self.old) ≡ None }
        ensures kept { KeptMachine self.new }
        ensures ok { IfOk result (λ k. Replaces (seen_of self.old) by script k (seen_of self.new)) }
        ensures err { OnErr result (seen_of self.new ≡ seen_of self.old) }
    {
        let alloc = *self.journal.allocator();
        self.journal.reserve(self.counts.aside as usize + 1)?;
        let newest = Arc::new(alloc, script)?;
        let script = newest.clone()?;
        self.newest = newest;
        self.counts.newest += 1;
        note(&mut self.journal, by, What::Rescripted { script });
        Ok(self.counts.newest)
    }

    /// Judges a revision that fits.
    pub fn judge_one(&mut self, by: u64, revision: Revision) -> Result<Verdict, AllocError>
        requires kept { KeptMachine self.old }
        requires fits { full_for (seen_of self.old) revision ≡ None }
        ensures ok { IfOk result (λ v. Judges self.old by revision v self.new) }
        ensures err { OnErr result (Stays self.old self.new) }
    {
        let alloc = *self.journal.allocator();
        self.journal.reserve(self.counts.aside as usize + 1)?;
        let ruling = judge(
            alloc,
            self.first.inputs(),
            self.inputs.sets.as_slice(),
            &revision,
        )?;
        match ruling {
            Ruling::Fit { shares } => self.accept(by, revision, shares),
            Ruling::Refused(refusal) => self.refuse(by, revision, refusal),
        }
    }

    fn accept(
        &mut self,
        by: u64,
        revision: Revision,
        shares: Items<Share>,
    ) -> Result<Verdict, AllocError>
        requires kept { KeptMachine self.old }
        requires room { HasRoom self.old revision }
        requires judged { StandsForJudgement (inputs_now (state_at self.old)) (Ruling.Fit shares) (judged (arc_value self.old.first).inputs (inputs_now (state_at self.old)) revision) }
        ensures ok { IfOk result (λ v. Judges self.old by revision v self.new) }
        ensures err { OnErr result (Stays self.old self.new) }
    {
        self.inputs.take(shares)?;
        self.counts.accepted += 1;
        self.counts.fields += count_fields(&revision);
        let receipt = self.counts.accepted;
        let verdict = Verdict::Accepted(receipt);
        note(&mut self.journal, by, What::Judged { revision, verdict });
        Ok(Verdict::Accepted(receipt))
    }

    fn refuse(
        &mut self,
        by: u64,
        revision: Revision,
        refusal: Refusal,
    ) -> Result<Verdict, AllocError>
        requires kept { KeptMachine self.old }
        requires room { HasRoom self.old revision }
        requires judged { StandsForJudgement (inputs_now (state_at self.old)) (Ruling.Refused refusal) (judged (arc_value self.old.first).inputs (inputs_now (state_at self.old)) revision) }
        ensures ok { IfOk result (λ v. Judges self.old by revision v self.new) }
        ensures err { OnErr result (Stays self.old self.new) }
    {
        let alloc = *self.journal.allocator();
        let parts = revision.parts.len() as u64;
        let set = name_of_part(revision.parts.as_slice(), refusal.part)?;
        let verdict = Verdict::Refused {
            set: set.copy()?,
            parts,
            refusal: refusal.copy(alloc)?,
        };
        self.counts.fields += count_fields(&revision);
        note(&mut self.journal, by, What::Judged { revision, verdict });
        Ok(Verdict::Refused {
            set,
            parts,
            refusal,
        })
    }

    /// Sets aside what a round needs.
    pub fn set_aside(&mut self) -> Result<Setting, AllocError>
        requires kept { KeptMachine self.old }
        requires closed { self.old.counts.running ≡ false }
        ensures stays { Stays self.old self.new }
        ensures ready { IfOk result (λ setting. IsSetAside setting self.new) }
    {
        let many = self.newest.statements().len();
        self.journal.reserve(2 * many + 2)?;
        self.room.reserve(many)?;
        if self.counts.script == self.counts.newest {
            self.going_on()
        } else {
            self.beginning()
        }
    }

    /// What a round needs that has the script of the one before. It costs what changed since the latest release.
    fn going_on(&mut self) -> Result<Setting, AllocError>
        ensures rest { self.new ≡ record self.old { slots = self.new.slots } }
        ensures same { SameHomes self.old.slots.items self.new.slots.items }
        ensures carried { IfOk result (λ setting. AllCarry self.old.inputs.changes.items setting.changes.items) }
        ensures ready { IfOk result (λ setting. EachSlot (λ i slot. IsPrepared setting.changes.items slot) self.new.slots.items) }
        ensures none { IfOk result (λ setting. setting.first ≡ None) }
    {
        let alloc = *self.journal.allocator();
        let changes = self.inputs.carried()?;
        prepare(alloc, &mut self.slots, changes.as_slice())?;
        Ok(Setting {
            changes,
            first: None,
        })
    }

    /// What the first round of the newest script needs. It costs all that the inputs have.
    fn beginning(&self) -> Result<Setting, AllocError>
        requires { self.now.counts.script ≢ self.now.counts.newest }
        ensures { IfOk result (λ setting. HasSlots setting.changes.items setting.first self.now) }
    {
        let alloc = *self.journal.allocator();
        let changes = self.inputs.from_nothing()?;
        let mut slots = first_slots(alloc, &self.newest)?;
        prepare(alloc, &mut slots, changes.as_slice())?;
        let script = self.newest.clone()?;
        Ok(Setting {
            changes,
            first: Some(FirstRound { script, slots }),
        })
    }

    /// Opens a round for which all is set aside.
    pub fn open(&mut self, by: u64, setting: Setting) -> u64
        requires kept { KeptMachine self.old }
        requires ready { IsSetAside setting self.old }
        requires opens { cannot_open (seen_of self.old) ≡ None }
        ensures kept { KeptMachine self.new }
        ensures seen { seen_of self.new ≡ opened (seen_of self.old) by }
        ensures number { result ≡ (state_at self.old).rounds + 1 }
    {
        self.take_on(setting);
        let round = self.counts.rounds + 1;
        let accepted = self.counts.accepted;
        self.counts.rounds = round;
        self.counts.running = true;
        self.counts.dropped = false;
        self.counts.spoiled = false;
        self.counts.to = accepted;
        self.counts.aside = 2 * self.slots.len() as u64 + 1;
        note(&mut self.journal, by, What::Opened { to: accepted });
        if self.slots.is_empty() {
            // Its number is the production's to tell.
            let _ = self.publish(by);
        }
        round
    }

    /// Takes on what was set aside for a round.
    fn take_on(&mut self, setting: Setting)
        ensures { TakesOn setting self.old self.new }
    {
        self.passed = 0;
        self.inputs.changes = setting.changes;
        if let Some(first) = setting.first {
            self.script = first.script;
            self.slots = first.slots;
            self.counts.script = self.counts.newest;
            self.counts.base = 0;
        }
    }

    /// The first statement in the order of the open round's script that is ready.
    pub fn next_ready(&self) -> Option<u64>
        requires kept { KeptMachine self.now }
        requires running { self.now.counts.running ≡ true }
        ensures found { IfSome result (FirstReadyIn self.now.slots.items (arc_value self.now.script).order) }
        ensures none { result ≡ None → All (λ i. ¬ (ReadyIn self.now.slots.items i)) (arc_value self.now.script).order }
    {
        let order = self.script.order();
        if order.len() < self.passed {
            return None;
        }
        first_ready(self.slots.as_slice(), &order[self.passed..])
    }

    /// Hands out the work of the first statement that is ready.
    pub fn hand_out(&mut self, by: u64, i: u64) -> Work
        requires kept { KeptMachine self.old }
        requires running { self.old.counts.running ≡ true }
        requires first { FirstReadyIn self.old.slots.items (arc_value self.old.script).order i }
        ensures kept { KeptMachine self.new }
        ensures claims { Claims (seen_of self.old) by result (seen_of self.new) }
        ensures which { result.statement ≡ i }
    {
        let alloc = *self.journal.allocator();
        let slot = &mut self.slots[i as usize];
        let (settle, news, node) = slot.hand_out(alloc, self.counts.published);
        self.passed = passed_over(self.slots.as_slice(), self.script.order(), self.passed);
        self.counts.aside -= 1;
        note(&mut self.journal, by, What::Claimed { statement: i });
        Work {
            round: self.counts.rounds,
            statement: i,
            base: self.counts.base,
            to: self.counts.to,
            settle,
            news,
            node,
        }
    }

    /// Takes a work back. The round may be over then, and is not ended.
    pub fn take_back(&mut self, by: u64, done: DoneParts)
        requires kept { KeptMachine self.old }
        requires out { IsOutBy (state_at self.old) by done.statement }
        requires stands { DoneStands (state_at self.old) done }
        ensures still { OpenStill self.new by }
        ensures seen { seen_of self.new ≡ seen_with (seen_of self.old) by (given_what done.finish done.statement) }
    {
        let DoneParts {
            statement,
            node,
            finish,
            ..
        } = done;
        match finish {
            Finish::Right {
                deltas,
                points,
                pages,
            } => {
                hand_on(&mut self.slots, statement, deltas);
                let stage = Stage::Right { points, pages };
                self.put(by, What::Returned { statement }, statement, node, stage);
            }
            Finish::Fault { kept, told } => {
                let stage = Stage::Wrong { kept, told };
                self.put(by, What::Returned { statement }, statement, node, stage);
            }
            Finish::GaveUp => {
                self.counts.spoiled = true;
                let stage = Stage::Spoiled;
                self.put(by, What::GaveUp { statement }, statement, node, stage);
            }
        }
    }

    /// Puts a statement back, and notes the entry.
    fn put(&mut self, by: u64, what: What, statement: u64, node: Node, stage: Stage)
        requires below { statement < length self.old.slots.items }
        requires aside { 1 ≤ self.old.counts.aside }
        requires room { vec_len self.old.journal < vec_capacity self.old.journal }
        ensures rest { self.new ≡ record self.old { journal = self.new.journal; slots = self.new.slots; counts = record self.old.counts { aside = self.old.counts.aside - 1 } } }
        ensures slots { (slot : Slot) × (slot ≡ slice_index_or self.old.slots.items statement slot) × (self.new.slots.items ≡ slice_set self.old.slots.items statement (back_with self.old.counts.rounds node stage slot)) }
        ensures items { self.new.journal.items ≡ self.old.journal.items ++ (record { by = by; what = what }) ∷ [] }
        ensures capacity { vec_capacity self.old.journal ≤ vec_capacity self.new.journal }
    {
        let round = self.counts.rounds;
        let slot = &mut self.slots[statement as usize];
        slot.put(round, node, stage);
        self.counts.aside -= 1;
        note(&mut self.journal, by, what);
    }

    /// Ends the round where it is over.
    pub fn end_round(&mut self, by: u64) -> Given
        requires { OpenStill self.old by }
        ensures kept { KeptMachine self.new }
        ensures ends { EndedSo (seen_of self.old) by result (seen_of self.new) }
    {
        let to = self.counts.to;
        match end_of(self.slots.as_slice(), self.counts.spoiled) {
            End::GoesOn => Given::Counted,
            End::Dropped => {
                self.counts.dropped = true;
                self.close(by, What::Dropped { to });
                Given::Dropped
            }
            End::Fault(i) => self.fail(by, i),
            End::Total(points) => {
                let fault = ScriptFault::Total(points);
                self.close(by, What::Failed { to, fault });
                Given::Failed(ScriptFault::Total(points))
            }
            End::Published => Given::Published(self.publish(by)),
        }
    }

    /// Ends a round with an entry that makes no release.
    fn close(&mut self, by: u64, what: What)
        requires { vec_len self.old.journal < vec_capacity self.old.journal }
        ensures rest { self.new ≡ record self.old { journal = self.new.journal; counts = closed_counts self.old.counts } }
        ensures items { self.new.journal.items ≡ self.old.journal.items ++ (record { by = by; what = what }) ∷ [] }
        ensures capacity { vec_capacity self.old.journal ≤ vec_capacity self.new.journal }
    {
        self.counts.running = false;
        self.counts.aside = 0;
        note(&mut self.journal, by, what);
    }

    /// Ends a round with the fault of a statement.
    fn fail(&mut self, by: u64, i: usize) -> Given
        requires still { OpenStill self.old by }
        requires over { EndsSo self.old.slots.items self.old.counts.spoiled (End.Fault i) }
        ensures kept { KeptMachine self.new }
        ensures ends { EndedSo (seen_of self.old) by result (seen_of self.new) }
    {
        let to = self.counts.to;
        let slot = &mut self.slots[i];
        let stage = mem::replace(&mut slot.stage, Stage::Spoiled);
        match stage {
            Stage::Wrong { kept, told } => {
                let statement = i as u64;
                let fault = ScriptFault::At {
                    statement,
                    fault: kept,
                };
                self.close(by, What::Failed { to, fault });
                Given::Failed(ScriptFault::At {
                    statement,
                    fault: told,
                })
            }
            _ => unreachable!(),
        }
    }

    /// Ends a round with its release, and answers the release's number.
    fn publish(&mut self, by: u64) -> u64
        requires still { OpenStill self.old by }
        requires over { EndsSo self.old.slots.items self.old.counts.spoiled End.Published }
        ensures kept { KeptMachine self.new }
        ensures ends { EndedSo (seen_of self.old) by (Given.Published result) (seen_of self.new) }
    {
        let to = self.counts.to;
        let alloc = *self.journal.allocator();
        collect_pages(&mut self.slots, &mut self.room);
        let pages = mem::replace(&mut self.room, Vec::new(alloc));
        let number = self.latest.number + 1;
        let release = Release {
            number,
            prefix: to,
            script: self.counts.script,
            pages: Items::from_vec(pages),
        };
        let before = mem::replace(&mut self.latest, release);
        keep(&mut self.earlier, before);
        self.inputs.close();
        self.counts.published = self.counts.rounds;
        self.counts.base = to;
        self.close(by, What::Published { to });
        number
    }
}
