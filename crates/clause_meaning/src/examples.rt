// Each clause on a small data set.
ghost use Rattle.std.specs.Prelude.{◌≡◌, pos, [], ◌∷◌, codes};
ghost use Rattle.std.specs.FinMap.{from_entries};
ghost use Rattle.vtl_values.specs.declared.value.Value.TheVariants.{Null, Integer, Text};
ghost use Rattle.data_model.specs.Outcomes.{made, range_at};
ghost use Rattle.data_set_trees.specs.declared.clauses.clause.CheckedClause.TheVariants as clause;
ghost use Rattle.clause_meaning.specs.Clauses.{clause_meaning};
ghost use Rattle.clause_meaning.specs.Examples.{frame, people, north, south, many_men, year_one, moved, multiplied, boys, doubled, women, by_sex};

/// `filter` drops a point at which its condition is null. `sub` finds the integer 1 by the number 1.0, and drops the
/// year from the key.
pub fn points_are_chosen()
    ensures filter { clause_meaning (clause.Filter many_men) frame people ≡
        made (from_entries ((north, Integer (pos 5) ∷ Integer (pos 7) ∷ Text (codes "p") ∷ []) ∷ [])) }
    ensures sub { clause_meaning (clause.Sub year_one) frame people ≡
        made (from_entries ((Text (codes "n") ∷ [], Integer (pos 5) ∷ Integer (pos 7) ∷ Text (codes "p") ∷ []) ∷ [])) }
{}

/// `calc` works all items out on the point as it was, and puts a new measure after the old ones, before the status.
/// Where an item is out of range the clause is so, at the key of that point.
pub fn items_are_worked_out()
    ensures made { clause_meaning (clause.Calc moved) frame people ≡
        made (from_entries (
        (north, Integer (pos 7) ∷ Integer (pos 7) ∷ Integer (pos 5) ∷ Text (codes "p") ∷ []) ∷
        (south, Integer (pos 9) ∷ Integer (pos 9) ∷ Null ∷ Null ∷ []) ∷ [])) }
    ensures range { clause_meaning (clause.Calc multiplied) frame people ≡ range_at south }
{}

/// `keep women` and `drop men` leave the women and the status; `rename` changes no value.
pub fn components_are_left()
    ensures keep { clause_meaning (clause.Keep (3 ∷ [])) frame people ≡ made (from_entries women) }
    ensures drop { clause_meaning (clause.Drop (2 ∷ [])) frame people ≡ made (from_entries women) }
    ensures rename { clause_meaning (clause.Rename boys) frame people ≡ made people }
{}

/// `unpivot` makes a point of each measure that isn't null, with the measure's name after the other identifiers.
pub fn measures_become_points()
    ensures { clause_meaning (clause.Unpivot (codes "sex") (codes "count")) frame people ≡
        made (from_entries by_sex) }
{}

/// Doubled on the data set, each measure has twice its value, and null stays null; the status stays.
pub fn measures_are_worked_out()
    ensures { clause_meaning (clause.Measures doubled) frame people ≡
        made (from_entries (
        (north, Integer (pos 10) ∷ Integer (pos 14) ∷ Text (codes "p") ∷ []) ∷
        (south, Null ∷ Integer (pos 18) ∷ Null ∷ []) ∷ [])) }
{}
