// What holds of all expressions on data sets.
ghost use Rattle.std.specs.Prelude.{◌≡◌, ℕ, Bool, true, List, Option, Some, Ok};
ghost use Rattle.std.specs.List.{list_all};
ghost use Rattle.vtl_values.specs.declared.structure.Component.{Component};
ghost use Rattle.vtl_syntax.specs.declared.expr.Expr.{Expr};
ghost use Rattle.data_set_trees.specs.declared.operand.DataSet.{DataSet};
ghost use Rattle.data_set_trees.specs.declared.operand.Operand.TheVariants as operand;
ghost use Rattle.data_set_trees.specs.declared.tree.DataSetTree.TheVariants as tree;
ghost use Rattle.data_set_trees.specs.declared.tree.Source.{Source};
ghost use Rattle.expression_rules.specs.Expressions.{Naming, typed};
ghost use Rattle.fitting_trees.specs.Fitting.{IsFitting};
ghost use Rattle.literal_ranges.specs.Ranges.{literals_in_range, ruleset_in_range};

/// A name of a data set fits, where it has the structure that the name has and may be named.
pub fn name_fits()
    ensures { (structures : Source → Option (List Component)) (among : Source → Bool) (source : Source) (structure : List Component) →
        structures source ≡ Some structure → among source ≡ true →
        IsFitting structures (λ s. among s ≡ true) (record { tree = tree.Name source; structure = structure }) }
{}

/// Where names stand for data sets that fit, what an expression is checked to be fits: each operator in its tree takes the
/// structures of its operands and is well typed on them, and it names what its names may. The literals of the expression
/// and of the rulesets are in range, which `see_literals` and `see_rulesets` tell of those that are there.
pub fn typing_fits()
    ensures { (structures : Source → Option (List Component)) (among : Source → Bool) (naming : Naming) (e : Expr) (d : DataSet) →
        ((name : List ℕ) (n : DataSet) → naming.data_set name ≡ Some n → IsFitting structures (λ s. among s ≡ true) n) →
        list_all ruleset_in_range naming.rulesets ≡ true → literals_in_range e ≡ true →
        typed naming e ≡ Ok (operand.DataSet d) → IsFitting structures (λ s. among s ≡ true) d }
{}
