// What a clause makes of a data set, by its points.
ghost use Rattle.std.specs.Prelude.{◌≡◌, true, List, flat_map};
ghost use Rattle.std.specs.FinMap.{get, keys};
ghost use Rattle.std.specs.List.{AllZip};
ghost use Rattle.vtl_values.specs.declared.value.Value.{Value};
ghost use Rattle.vtl_values.specs.Order.{key_cmp};
ghost use Rattle.data_model.specs.Maps.{is_listed};
ghost use Rattle.point_sets.specs.DataSets.{DataSet};
ghost use Rattle.structured_sets.specs.Fitting.{FitsIdentifier, IsSetOf, identifiers};
ghost use Rattle.data_set_trees.specs.declared.clauses.clause.CheckedClause.{CheckedClause};
ghost use Rattle.data_set_trees.specs.declared.clauses.frame.Frame.{Frame};
ghost use Rattle.clause_meaning.specs.Clauses.{working_of};
ghost use Rattle.clause_meaning.specs.Ordered.{HasIdentifiersFirst};
ghost use Rattle.clause_eval.specs.Points.{keys_from, is_beyond_at, values_at_key};

/// The working of a clause on a data set is made of what it makes of the points: it is out of range at the keys of those
/// at which it is; its result may have points at the keys at which they count; and at such a key it has what comes of
/// that point, whichever points there are beside it.
pub fn results_are_made_of_points()
    ensures range { (c : CheckedClause) (frame : Frame) (a : DataSet) (key : List Value) →
        (working_of c frame a).beyond key ≡ is_beyond_at c key (get a key) }
    ensures keys { (c : CheckedClause) (frame : Frame) (a : DataSet) →
        (working_of c frame a).keys ≡ flat_map (keys_from c frame) (keys a) }
    ensures values { (c : CheckedClause) (frame : Frame) (a : DataSet) (key to : List Value) →
        HasIdentifiersFirst frame → IsSetOf frame.components a →
        AllZip FitsIdentifier (identifiers frame.components) key →
        is_listed key_cmp (keys_from c frame key) to ≡ true →
        (working_of c frame a).value to ≡ values_at_key c frame key (get a key) to }
{}
