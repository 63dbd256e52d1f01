// What follows from the definitions, for those who keep a journal or read one.
ghost use Rattle.std.specs.Prelude.{◌≡◌, ◌≤◌, ◌<◌, ◌+◌, ◌-◌, ◌↔◌, ◌++◌, ℕ, List, [], ◌∷◌, Some, None, min, sum, map, length, slice_get, true, false};
ghost use Rattle.std.specs.declared.sync.Arc.{Arc};
ghost use Rattle.std.specs.declared.alloc.Global.{Global};
ghost use Rattle.point_sets.specs.DataSets.{DataSet};
ghost use Rattle.point_sets.specs.declared.revision.Revision.{Revision};
ghost use Rattle.revision_judge.specs.Judging.{AreInputs as AreJudgedInputs, judged, settled};
ghost use Rattle.data_set_trees.specs.checked.Scripts.{Script, IsChecked, sources_of};
ghost use Rattle.operator_meaning.specs.Results.{Wrong};
ghost use Rattle.operator_meaning.specs.Scripts.{Idle, At, Total, ScriptWrong, POINTS_LIMIT, or_total, states, script_wrong};
ghost use Rattle.release_text.specs.declared.release.Release.{Release};
ghost use Rattle.transform_nodes.specs.declared.work.Work.{Work};
ghost use Rattle.transform_nodes.specs.declared.work.DoneParts.{DoneParts};
ghost use Rattle.transform_nodes.specs.Nodes.{AllHave, AreInputs};
ghost use Rattle.round_journal.specs.declared.entry.Entry.{Entry};
ghost use Rattle.round_journal.specs.declared.entry.What.{What};
ghost use Rattle.round_journal.specs.declared.entry.What.TheVariants.{Judged, Rescripted, Published, Failed, Dropped};
ghost use Rattle.round_journal.specs.declared.verdict.Verdict.{Verdict};
ghost use Rattle.round_journal.specs.declared.verdict.ScriptFault.{ScriptFault};
ghost use Rattle.round_journal.specs.Journals.{State, Named, Waiting, Back, after, after_what, after_all, state_of, number, inputs, old_inputs, new_inputs, inputs_now, round_need, aside, Ready, Over, NoneReady, verdict_on, round_wrong, fault_said, IsOutBy, MayCome, LegalFrom, Legal, IsOfProduction};
ghost use Rattle.round_journal.specs.Stands.{WorkStands, DoneStands, IsDoneOf, AllKeep};
ghost use Rattle.round_journal.specs.Releases.{IsReleaseOf, IsRelease, released, pages_on};
ghost use Rattle.round_journal.specs.Ends.{NoneSpoiled, OverUnspoiled, HasSet, FirstFault, NoFault, ArePoints};
ghost use Rattle.round_journal.specs.Counts.{PrefixesInOrder, ScriptsAgree, ScriptsInOrder, CountsWithin, RoundsInOrder, GoesForward, entries_below, IsOfStatement, IsNoRelease};
ghost use Rattle.round_journal.specs.Words.{accepted_in, fields_in, scripts_in, opened_in, published_in, last_or, said_by};

/// A journal that goes on says what its further entries make of what it said, and is legal where
/// both of its parts are.
pub fn journals_go_on()
    ensures says { (c : Script) (j k : List Entry) → state_of c (j ++ k) ≡ after_all (state_of c j) k }
    ensures one_more { (c : Script) (j : List Entry) (e : Entry) → state_of c (j ++ e ∷ []) ≡ after (state_of c j) e }
    ensures goes_on { (c : Script) (j k : List Entry) → Legal c j → LegalFrom (state_of c j) k →
        Legal c (j ++ k) }
    ensures parts { (c : Script) (j k : List Entry) → Legal c (j ++ k) →
        Legal c j × LegalFrom (state_of c j) k }
{}

/// What a journal says, told from its entries alone: the accepted revisions and the fields of all judged
/// ones, the number of rounds and the prefix of the last one, the number and the prefix of the last
/// release, and the script of the next round with its number.
pub fn journals_say_what_their_entries_do()
    ensures accepted { (c : Script) (j : List Entry) → (state_of c j).accepted ≡ said_by accepted_in j }
    ensures fields { (c : Script) (j : List Entry) → (state_of c j).fields ≡ sum (map (λ e. fields_in e.what) j) }
    ensures rounds { (c : Script) (j : List Entry) → (state_of c j).rounds ≡ length (said_by opened_in j) }
    ensures to { (c : Script) (j : List Entry) → (state_of c j).to ≡ last_or 0 (said_by opened_in j) }
    ensures number { (c : Script) (j : List Entry) → number (state_of c j) ≡ length (said_by published_in j) }
    ensures prefix { (c : Script) (j : List Entry) → (state_of c j).latest.prefix ≡ last_or 0 (said_by published_in j) }
    ensures script_number { (c : Script) (j : List Entry) → (state_of c j).newest.number ≡ length (said_by scripts_in j) }
    ensures script { (c : Script) (j : List Entry) → (state_of c j).newest.script ≡ last_or c (said_by scripts_in j) }
    ensures first { (c : Script) (j : List Entry) → (state_of c j).first ≡ c }
{}

/// What stands for a journal, and is of a statement that is out, stands for each longer legal
/// journal in which the statement isn't given back; and there it is still out in the open round.
pub fn stands_on()
    ensures work { (c : Script) (n : ℕ) (j k : List Entry) (w : Work) → Legal c (j ++ k) →
        IsOutBy (state_of c j) n w.statement → AllKeep w.statement k → WorkStands (state_of c j) w →
        WorkStands (state_of c (j ++ k)) w }
    ensures done { (c : Script) (n : ℕ) (j k : List Entry) (d : DoneParts) → Legal c (j ++ k) →
        IsOutBy (state_of c j) n d.statement → AllKeep d.statement k → DoneStands (state_of c j) d →
        DoneStands (state_of c (j ++ k)) d }
    ensures out { (c : Script) (n i : ℕ) (j k : List Entry) → Legal c (j ++ k) →
        IsOutBy (state_of c j) n i → AllKeep i k → IsOutBy (state_of c (j ++ k)) n i }
{}

/// What is made of a work that stands for a journal stands for the journal too.
pub fn works_become_dones()
    ensures { (s : State) (w : Work) (d : DoneParts) → IsDoneOf w d → WorkStands s w → DoneStands s d }
{}

/// The prefixes of a legal journal are of accepted revisions.
pub fn prefixes_are_in_order()
    ensures { (c : Script) (j : List Entry) → Legal c j → PrefixesInOrder (state_of c j) }
{}

/// The scripts of a legal journal are checked and have the same inputs, where the first one is checked;
/// and scripts of one number are the same.
pub fn scripts_agree()
    ensures agree { (c : Script) (j : List Entry) → IsChecked c → Legal c j → ScriptsAgree (state_of c j) }
    ensures in_order { (c : Script) (j : List Entry) → Legal c j → ScriptsInOrder (state_of c j) }
{}

/// The inputs after some of the accepted revisions stay, whatever is accepted later; those after all
/// are those of now; and a judged revision makes of them what its judgement says.
pub fn inputs_go_by_accepted_revisions()
    ensures one_more { (s : State) (m n : ℕ) (w : What) → m ≤ length s.accepted →
        inputs m (after_what s n w) ≡ inputs m s }
    ensures stay { (c : Script) (m : ℕ) (j k : List Entry) → m ≤ length (state_of c j).accepted →
        inputs m (state_of c (j ++ k)) ≡ inputs m (state_of c j) }
    ensures all { (s : State) → inputs (length s.accepted) s ≡ inputs_now s }
    ensures judged { (s : State) (n : ℕ) (r : Revision) →
        inputs_now (after_what s n (Judged r (verdict_on s r))) ≡ settled (inputs_now s) (judged s.first.inputs (inputs_now s) r) }
{}

/// The inputs are data sets of the structures of each script of the production.
pub fn inputs_fit()
    ensures judged { (n : ℕ) (s : State) → AreJudgedInputs s.first.inputs (inputs n s) }
    ensures same { (c : Script) (xs : List DataSet) → AreJudgedInputs c.inputs xs → AreInputs c xs }
    ensures fit { (c : Script) (n : ℕ) (s : State) → IsOfProduction s c → AreInputs c (inputs n s) }
{}

/// A statement that is ready has all its operands, and where none was claimed yet there is one that
/// is ready.
pub fn ready_statements_have_operands()
    ensures have { (s : State) (i : ℕ) → IsOfProduction s s.round.script → Ready s i →
        AllHave s.round.script (new_inputs s) (sources_of s.round.script i) }
    ensures begins { (s : State) → IsChecked s.round.script → 0 < length s.round.script.statements →
        ((i : ℕ) → s.status i ≡ Waiting) → ¬ (NoneReady s) }
{}

/// Judging a revision and replacing the script change neither what is ready in the open round nor
/// whether it is over.
pub fn some_entries_leave_the_round()
    ensures ready { (s : State) (n i : ℕ) (r : Revision) (v : Verdict) → PrefixesInOrder s →
        Ready (after_what s n (Judged r v)) i ↔ Ready s i }
    ensures over { (s : State) (n : ℕ) (r : Revision) (v : Verdict) → PrefixesInOrder s →
        Over (after_what s n (Judged r v)) ↔ Over s }
    ensures ready_replaced { (s : State) (n i : ℕ) (c : Arc Script Global) →
        Ready (after_what s n (Rescripted c)) i ↔ Ready s i }
    ensures over_replaced { (s : State) (n : ℕ) (c : Arc Script Global) →
        Over (after_what s n (Rescripted c)) ↔ Over s }
{}

/// On inputs on which the script has a meaning each statement has a data set; those of a legal
/// journal's last release, and those from which its round goes on, are such.
pub fn released_statements_have_sets()
    ensures has { (c : Script) (xs : List DataSet) (i : ℕ) → IsChecked c → AreInputs c xs →
        script_wrong c xs ≡ None → i < length c.statements → HasSet c xs i }
    ensures in_bounds { (c : Script) (j : List Entry) → IsChecked c → Legal c j →
        script_wrong (state_of c j).latest.script.script (inputs (state_of c j).latest.prefix (state_of c j)) ≡ None }
    ensures old_in_bounds { (c : Script) (j : List Entry) → IsChecked c → Legal c j →
        script_wrong (state_of c j).round.script (old_inputs (state_of c j)) ≡ None }
{}

/// In a legal journal whose open round is unspoiled no statement was given up.
pub fn unspoiled_rounds_gave_nothing_up()
    ensures { (c : Script) (j : List Entry) → Legal c j → (state_of c j).spoiled ≡ false →
        NoneSpoiled (state_of c j) }
{}

/// How a round ends where none of its statements was given up: by the first fault that came back,
/// else by the points of all. What still waits has neither data set nor fault.
pub fn rounds_end_by_what_came_back()
    ensures waiting { (s : State) (i : ℕ) → IsChecked s.round.script → OverUnspoiled s →
        i < length s.round.script.statements → s.status i ≡ Waiting → states s.round.script (new_inputs s) i ≡ Idle }
    ensures fault { (s : State) (i : ℕ) (wrong : Wrong) → IsChecked s.round.script → OverUnspoiled s →
        FirstFault s i wrong → round_wrong s ≡ Some (At i wrong) }
    ensures back { (s : State) (i : ℕ) → IsOfProduction s s.round.script → OverUnspoiled s → NoFault s →
        i < length s.round.script.statements → s.status i ≡ Back }
    ensures has { (s : State) (i : ℕ) → IsOfProduction s s.round.script → OverUnspoiled s → NoFault s →
        i < length s.round.script.statements → HasSet s.round.script (new_inputs s) i }
    ensures by_points { (s : State) (points : List ℕ) → IsChecked s.round.script → OverUnspoiled s →
        NoFault s → ArePoints s.round.script (new_inputs s) points →
        round_wrong s ≡ or_total None (sum points) }
    ensures few { (s : State) (points : List ℕ) → IsChecked s.round.script → OverUnspoiled s →
        NoFault s → ArePoints s.round.script (new_inputs s) points → sum points ≤ POINTS_LIMIT →
        round_wrong s ≡ None }
    ensures many { (s : State) (points : List ℕ) → IsChecked s.round.script → OverUnspoiled s →
        NoFault s → ArePoints s.round.script (new_inputs s) points → POINTS_LIMIT < sum points →
        round_wrong s ≡ Some (Total (min (sum points) 18446744073709551615)) }
{}

/// A round that is over ends by its next entry, whoever makes it: where a statement was given up it is
/// dropped; else it is published exactly where its script is in bounds on its inputs, and failed with
/// the fault that the script has there exactly where it has one.
pub fn rounds_end_as_their_script_means()
    ensures dropped { (s : State) (n : ℕ) (w : What) → Over s → MayCome s n w → s.spoiled ≡ true →
        w ≡ Dropped s.to }
    ensures published { (s : State) (n : ℕ) (w : What) → Over s → MayCome s n w → s.spoiled ≡ false →
        (w ≡ Published s.to) ↔ (round_wrong s ≡ None) }
    ensures failed { (s : State) (n : ℕ) (w : What) (wrong : ScriptWrong) → Over s → MayCome s n w → s.spoiled ≡ false →
        ((fault : ScriptFault) × (w ≡ Failed s.to fault) × (fault_said fault ≡ wrong)) ↔ (round_wrong s ≡ Some wrong) }
{}

/// A journal counts no more than its entries, and its last published round is no open one.
pub fn counts_stay_within_the_journal()
    ensures counts { (c : Script) (j : List Entry) → CountsWithin (state_of c j) (length j) }
    ensures rounds { (c : Script) (j : List Entry) → Legal c j → RoundsInOrder (state_of c j) }
{}

/// What is set aside for an open round is enough for all that may still come in it.
pub fn room_is_set_aside()
    ensures spent { (c : Script) (j : List Entry) → Legal c j → (state_of c j).running ≡ true →
        (state_of c j).spent ≡ 1 + entries_below (length (state_of c j).round.script.statements) (state_of c j).status }
    ensures whole { (c : Script) (j : List Entry) → Legal c j → (state_of c j).running ≡ true →
        aside (state_of c j) + (state_of c j).spent ≡ round_need (state_of c j).round.script }
    ensures end { (c : Script) (j : List Entry) → Legal c j → (state_of c j).running ≡ true →
        1 ≤ aside (state_of c j) }
    ensures out { (c : Script) (j : List Entry) (n i : ℕ) → Legal c j → IsOutBy (state_of c j) n i →
        2 ≤ aside (state_of c j) }
    ensures ready { (c : Script) (j : List Entry) (i : ℕ) → Legal c j → (state_of c j).running ≡ true →
        Ready (state_of c j) i → 3 ≤ aside (state_of c j) }
    ensures one_less { (s : State) (n : ℕ) (w : What) → IsOfStatement w → s.running ≡ true →
        aside (after_what s n w) ≡ aside s - 1 }
{}

/// A round that is published makes a release of the next number, of its prefix and its script, and of
/// the script's meaning there. What was released stays, with its own script: nothing that comes later
/// makes another release of its number.
pub fn releases_stay()
    ensures made { (s : State) (n : ℕ) (r : Release) → r.number ≡ number s + 1 → r.prefix ≡ s.to →
        r.script ≡ s.round.number → r.pages ≡ pages_on s.round.script (new_inputs s) →
        IsRelease (after_what s n (Published s.to)) r }
    ensures names { (s : State) (n : ℕ) (w : What) → IsNoRelease w →
        ((after_what s n w).latest ≡ s.latest) × ((after_what s n w).earlier ≡ s.earlier) }
    ensures stays { (s : State) (n k : ℕ) (w : What) (named : Named) (r : Release) → named.prefix ≤ length s.accepted →
        IsReleaseOf s k named r → IsReleaseOf (after_what s n w) k named r }
    ensures for_good { (c : Script) (j k : List Entry) (n : ℕ) (named : Named) → slice_get (released (state_of c j)) n ≡ Some named →
        slice_get (released (state_of c (j ++ k))) n ≡ Some named }
{}

/// As a legal journal goes on, neither the number nor the prefix of its latest release falls, nor the
/// number of its script; and a release of the same number is the same.
pub fn releases_go_forward()
    ensures { (c : Script) (j k : List Entry) → Legal c (j ++ k) →
        GoesForward (state_of c j) (state_of c (j ++ k)) }
{}
