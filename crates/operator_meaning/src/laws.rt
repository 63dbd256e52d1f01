// What follows from the definitions, for those who build on them.
ghost use Rattle.std.specs.Prelude.{◌≡◌, ◌<◌, ℕ, List, length, map, slice_get, Option, Some, None, Ok};
ghost use Rattle.std.specs.FinMap.{empty};
ghost use Rattle.vtl_values.specs.declared.structure.Component.{Component};
ghost use Rattle.data_model.specs.Outcomes.{Made};
ghost use Rattle.point_sets.specs.DataSets.{DataSet};
ghost use Rattle.data_set_trees.specs.declared.checked.script.CheckedStatement.{CheckedStatement};
ghost use Rattle.data_set_trees.specs.declared.tree.Source.{Source};
ghost use Rattle.data_set_trees.specs.checked.Expressions.{Expression};
ghost use Rattle.data_set_trees.specs.checked.Operators.{Operator, IsTyped};
ghost use Rattle.data_set_trees.specs.checked.Scripts.{Script, IsChecked};
ghost use Rattle.data_set_trees.specs.checked.Typing.{HasStructure};
ghost use Rattle.operator_meaning.specs.Operators.{meaning_of, AreOperands};
ghost use Rattle.structured_sets.specs.Fitting.{IsBoundedSetOf};
ghost use Rattle.operator_meaning.specs.Results.{Evaluated, result_of, without_points};
ghost use Rattle.operator_meaning.specs.Scripts.{Has, script_wrong, state_at, states};

/// What a statement of a checked script has goes by what its own names stand for in the end.
pub fn states_go_by_names()
    ensures { (s : Script) (xs : List DataSet) (i : ℕ) → IsChecked s → i < length s.statements →
        states s xs i ≡ state_at s xs (states s xs) i }
{}

/// What a typed operator, a well typed expression or a statement of a checked script gives, on operands of their
/// structures, is a data set of its structure, of at most 200,000 points.
pub fn results_fit()
    ensures operator { (o : Operator) (xs : List DataSet) (y : DataSet) → IsTyped o → AreOperands o.operands xs →
        meaning_of o xs ≡ Made y → IsBoundedSetOf o.structure y }
    ensures expression { (structures : Source → Option (List Component)) (sets : Source → DataSet)
        (e : Expression Source) (t : List Component) (v : Evaluated) →
        ((n : Source) (u : List Component) → structures n ≡ Some u → IsBoundedSetOf u (sets n)) →
        HasStructure structures e t → result_of sets e ≡ Ok v → IsBoundedSetOf t v.set }
    ensures statement { (s : Script) (xs : List DataSet) (i : ℕ) (v : Evaluated) (statement : CheckedStatement) →
        IsChecked s → AreOperands (map (λ named. named.1) s.inputs) xs → states s xs i ≡ Has v →
        slice_get s.statements i ≡ Some statement → IsBoundedSetOf statement.structure v.set }
{}

/// On empty operands a typed operator gives the empty data set; so on empty inputs each statement of a checked script
/// has an empty data set and no points, and the script is in bounds.
pub fn nothing_comes_of_nothing()
    ensures operator { (o : Operator) → IsTyped o → meaning_of o (map (λ _. empty) o.operands) ≡ Made empty }
    ensures statement { (s : Script) (i : ℕ) → IsChecked s → i < length s.statements →
        states s (map (λ _. empty) s.inputs) i ≡ Has without_points }
    ensures script { (s : Script) → IsChecked s → script_wrong s (map (λ _. empty) s.inputs) ≡ None }
{}
