// Aggregates on small data sets, and what they make of a few values.
ghost use Rattle.std.specs.Prelude.{◌≡◌, pos, [], ◌∷◌, codes, Some};
ghost use Rattle.std.specs.FinMap.{from_entries};
ghost use Rattle.vtl_values.specs.declared.value.Value.TheVariants.{Null, Integer, Number, Text};
ghost use Rattle.vtl_syntax.specs.declared.words.AggregateFunction.TheVariants.{Sum, Avg, Count, Min, Max, Median};
ghost use Rattle.data_model.specs.Outcomes.{made};
ghost use Rattle.operator_meaning.specs.aggregates.Aggregates.{aggregate_meaning};
ghost use Rattle.operator_meaning.specs.aggregates.Reductions.{reduced};
ghost use Rattle.operator_meaning.specs.aggregates.Examples.{plain, with_status, counted, marked, great, by_group, of_several, group_g, number, with_null, nulls, millionths, letters};

/// `sum(C group by G having count() > 1)` drops the group of one point.
pub fn groups_are_chosen()
    ensures { aggregate_meaning (of_several plain) plain counted ≡ made (from_entries ((group_g, number (pos 11) ∷ []) ∷ [])) }
{}

/// `sum(V group by G)` has the status of the highest rank in the group.
pub fn viral_attributes_combine()
    ensures { aggregate_meaning (by_group with_status) with_status marked ≡
        made (from_entries ((group_g, number (pos 30) ∷ Text (codes "E") ∷ []) ∷ [])) }
{}

/// A sum is tested for range once: where it is within the range, no sum of a part of the values counts.
pub fn sums_are_tested_once()
    ensures { aggregate_meaning (by_group plain) plain great ≡
        made (from_entries ((group_g, number (pos 900000000000000) ∷ []) ∷ [])) }
{}

/// Of 7, null, 2, 4 and 2 four values count: their sum is 15, their mean 3.75, and in the middle stand 2 and 4.
pub fn nulls_are_passed_over()
    ensures sum { reduced Sum with_null ≡ Some (Integer (pos 15)) }
    ensures avg { reduced Avg with_null ≡ Some (Number (pos 3750000)) }
    ensures count { reduced Count with_null ≡ Some (Integer (pos 4)) }
    ensures min { reduced Min with_null ≡ Some (Integer (pos 2)) }
    ensures max { reduced Max with_null ≡ Some (Integer (pos 7)) }
    ensures median { reduced Median with_null ≡ Some (number (pos 3)) }
{}

/// Of nulls alone no value is left: each is null, and the count is 0.
pub fn nothing_may_be_left()
    ensures sum { reduced Sum nulls ≡ Some Null }
    ensures avg { reduced Avg nulls ≡ Some Null }
    ensures count { reduced Count nulls ≡ Some (Integer (pos 0)) }
    ensures min { reduced Min nulls ≡ Some Null }
    ensures max { reduced Max nulls ≡ Some Null }
    ensures median { reduced Median nulls ≡ Some Null }
{}

/// Two and a half millionths are rounded to three, a half away from zero.
pub fn means_are_rounded()
    ensures avg { reduced Avg millionths ≡ Some (Number (pos 3)) }
    ensures median { reduced Median millionths ≡ Some (Number (pos 3)) }
{}

/// Of texts too there is a least and a greatest one.
pub fn texts_are_ordered()
    ensures min { reduced Min letters ≡ Some (Text (codes "a")) }
    ensures max { reduced Max letters ≡ Some (Text (codes "c")) }
{}
