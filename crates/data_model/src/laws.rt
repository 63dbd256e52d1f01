// Laws of the definitions, over keys of any order in which only equal keys tie.
ghost use Rattle.std.specs.Prelude.{◌≡◌, ◌+◌, List, [], ◌∷◌, ◌++◌, Option, None, Bool, true, false, if◌then◌else◌, option_and_then, map};
ghost use Rattle.std.specs.Option.{IfSome, option_or, option_zip};
ghost use Rattle.std.specs.FinMap.{FinMap, IsAntisymmetric, empty, get, len, retain_keys};
ghost use Rattle.data_model.specs.Maps.{is_listed, if_passes, leftmost, made_at, key_by_key, filtered, union, union_all, matched};
ghost use Rattle.data_model.specs.Deltas.{DeltaOf, IsEqualityTest, after, BeginsAt, Leads, apply, built, composed, delta_between, gained, lost};
ghost use Rattle.data_model.specs.Outcomes.{Answer, Outcome, Covers, IsResult, IsOutcome, outcome};
ghost use Rattle.data_model.specs.Answers.{IsRight, right_answer};
ghost use Rattle.data_model.specs.Drafts.{Draft, IsDraft, IsSameElsewhere, finished, note_beyond, note_key, note_value, nothing};

/// What maps that are made from others have at a key.
pub fn values_at_a_key<K: Ord, X, Y>()
    requires exact { IsAntisymmetric K.cmp }
    ensures made { (ks : List K) (f : K → Option X) (k : K) →
        get (made_at {R = K.cmp} ks f) k ≡ (if is_listed K.cmp ks k then f k else None) }
    ensures key_by_key { (f : K → X → Option Y) (m : FinMap K.cmp X) (k : K) →
        get (key_by_key f m) k ≡ option_and_then (f k) (get m k) }
    ensures filtered { (p : K → X → Bool) (m : FinMap K.cmp X) (k : K) →
        get (filtered p m) k ≡ if_passes (p k) (get m k) }
    ensures leftmost { (m n : FinMap K.cmp X) (k : K) →
        get (union m n) k ≡ option_or (get m k) (get n k) }
    ensures leftmost_of_all { (ms : List (FinMap K.cmp X)) (k : K) →
        get (union_all ms) k ≡ leftmost (map (λ m. get m k) ms) }
    ensures both { (m : FinMap K.cmp X) (n : FinMap K.cmp Y) (k : K) →
        get (matched m n) k ≡ option_zip (get m k) (get n k) }
{}

/// Between any two maps there is a right delta; from nothing it is the one that builds the map.
pub fn right_delta_exists<K: Ord, X>()
    requires exact { IsAntisymmetric K.cmp }
    ensures between { (same : X → X → Bool) (m n : FinMap K.cmp X) → IsEqualityTest same →
        Leads (delta_between same m n) m n }
    ensures from_nothing { (m : FinMap K.cmp X) → Leads (built m) empty m }
{}

/// There is one right delta between two maps, and it names exactly the keys whose point changes.
pub fn right_delta_is_unique<K: Ord, X>()
    requires exact { IsAntisymmetric K.cmp }
    ensures unique { (d e : DeltaOf K.cmp X) (m n : FinMap K.cmp X) → Leads d m n → Leads e m n →
        d ≡ e }
    ensures only_changed { (d : DeltaOf K.cmp X) (m n : FinMap K.cmp X) (k : K) → Leads d m n →
        get m k ≡ get n k → get d k ≡ None }
    ensures all_changed { (d : DeltaOf K.cmp X) (m n : FinMap K.cmp X) (k : K) → Leads d m n →
        get d k ≡ None → get m k ≡ get n k }
{}

/// A delta puts its new points in place, and the number of points goes by what it brings and what
/// it takes away.
pub fn delta_applies<K: Ord, X>()
    requires exact { IsAntisymmetric K.cmp }
    ensures at_a_key { (d : DeltaOf K.cmp X) (m : FinMap K.cmp X) (k : K) →
        get (apply d m) k ≡ after (get d k) (get m k) }
    ensures points { (d : DeltaOf K.cmp X) (m : FinMap K.cmp X) → BeginsAt d m →
        len (apply d m) + lost d ≡ len m + gained d }
{}

/// Two deltas, one after the other, are one from before the first to after the second, and a key
/// that comes back to its point isn't in it.
pub fn deltas_compose<K: Ord, X>()
    requires exact { IsAntisymmetric K.cmp }
    ensures leads { (same : X → X → Bool) (d e : DeltaOf K.cmp X) (l m n : FinMap K.cmp X) →
        IsEqualityTest same → Leads d l m → Leads e m n → Leads (composed same d e) l n }
    ensures comes_back { (same : X → X → Bool) (d e : DeltaOf K.cmp X) (l m n : FinMap K.cmp X) (k : K) →
        IsEqualityTest same → Leads d l m → Leads e m n → get l k ≡ get n k →
        get (composed same d e) k ≡ None }
{}

/// The part of a map that no change touches is the same before and after, whether the part goes by
/// the keys or by the values too.
pub fn untouched_part_stays<K: Ord, X>()
    requires exact { IsAntisymmetric K.cmp }
    ensures by_keys { (p : K → Bool) (d : DeltaOf K.cmp X) (m n : FinMap K.cmp X) → Leads d m n →
        ((k : K) → p k ≡ true → get d k ≡ None) → retain_keys n p ≡ retain_keys m p }
    ensures by_values { (p : K → X → Bool) (d : DeltaOf K.cmp X) (m n : FinMap K.cmp X) → Leads d m n →
        ((k : K) → IfSome (get d k) (λ c. (if_passes (p k) c.0 ≡ None) × (if_passes (p k) c.1 ≡ None))) →
        filtered p n ≡ filtered p m }
{}

/// `outcome` is the outcome in words, and there is no other.
pub fn outcome_is_unique<K: Ord, X>()
    requires exact { IsAntisymmetric K.cmp }
    ensures computed { (evaluated : List K) (beyond : K → Bool) (keys : List K) (value : K → Option X) →
        Covers K.cmp evaluated beyond keys value →
        IsOutcome {R = K.cmp} beyond value (outcome evaluated beyond keys value) }
    ensures unique { (beyond : K → Bool) (value : K → Option X) (p q : Outcome K.cmp X) →
        IsOutcome beyond value p → IsOutcome beyond value q → p ≡ q }
{}

/// To each outcome, and each result before, there is one right answer of a delta rule.
pub fn right_answer_is_unique<K: Ord, X>()
    requires exact { IsAntisymmetric K.cmp }
    ensures exists { (same : X → X → Bool) (p : Outcome K.cmp X) (x : FinMap K.cmp X) → IsEqualityTest same →
        IsRight p x (right_answer same p x) }
    ensures unique { (p : Outcome K.cmp X) (x : FinMap K.cmp X) (a b : Answer K (DeltaOf K.cmp X)) →
        IsRight p x a → IsRight p x b → a ≡ b }
{}

/// A draft begins with nothing, and grows by notes: of an evaluation in range, of one out of range,
/// of a key of the result, or of one key as both.
pub fn notes_make_a_draft<K: Ord, X>()
    requires exact { IsAntisymmetric K.cmp }
    ensures nothing { (beyond : K → Bool) (old new : K → Option X) →
        IsDraft {R = K.cmp} beyond [] old new [] nothing }
    ensures in_range { (beyond : K → Bool) (es : List K) (old new : K → Option X) (ks : List K)
        (n : Draft K.cmp X) (k : K) → IsDraft beyond es old new ks n →
        beyond k ≡ false → IsDraft beyond (es ++ k ∷ []) old new ks n }
    ensures beyond { (beyond : K → Bool) (es : List K) (old new : K → Option X) (ks : List K)
        (n : Draft K.cmp X) (k : K) → IsDraft beyond es old new ks n →
        beyond k ≡ true → IsDraft beyond (es ++ k ∷ []) old new ks (note_beyond k n) }
    ensures value { (same : X → X → Bool) (beyond : K → Bool) (es : List K) (old new : K → Option X)
        (ks : List K) (n : Draft K.cmp X) (k : K) → IsDraft beyond es old new ks n →
        IsEqualityTest same →
        IsDraft beyond es old new (ks ++ k ∷ []) (note_value same k (old k) (new k) n) }
    ensures key { (same : X → X → Bool) (beyond : K → Bool) (es : List K) (old new : K → Option X)
        (ks : List K) (n : Draft K.cmp X) (k : K) → IsDraft beyond es old new ks n →
        IsEqualityTest same →
        IsDraft beyond (es ++ k ∷ []) old new (ks ++ k ∷ [])
        (note_key same k (beyond k) (old k) (new k) n) }
{}

/// A finished draft is the right answer, where old and new are equal at what wasn't noted.
pub fn finished_draft_is_right<K: Ord, X>()
    requires exact { IsAntisymmetric K.cmp }
    ensures { (old_beyond beyond : K → Bool) (es : List K) (old new : K → Option X) (ks : List K)
        (n : Draft K.cmp X) (x : FinMap K.cmp X) (p : Outcome K.cmp X) →
        IsResult old_beyond old x → IsOutcome beyond new p →
        IsSameElsewhere K.cmp old_beyond beyond es old new ks → IsDraft beyond es old new ks n →
        IsRight p x (finished (len x) n) }
{}
