// Aggregates on small data sets.
ghost use Rattle.std.specs.Prelude.{[], ◌∷◌, codes, Some, None};
ghost use Rattle.vtl_values.specs.declared.kind.Kind.TheVariants.{Integer, Number};
ghost use Rattle.vtl_values.specs.declared.kind.Role.TheVariants.{Measure, Attribute};
ghost use Rattle.vtl_syntax.specs.declared.words.AggregateFunction.TheVariants.{Avg, Count, Max, Sum};
ghost use Rattle.vtl_syntax.specs.declared.words.GroupWord.TheVariants.{By, Except};
ghost use Rattle.scalar_trees.specs.declared.typing.stop.Fault.TheVariants.{NameTwice, UnknownComponent, WrongRole, WrongType};
ghost use Rattle.data_set_trees.specs.clauses.After.{made};
ghost use Rattle.data_set_trees.specs.aggregates.Examples.{amount, by_year, counted, counts, gives, grouped_by, has_fault, id, item, count, of_each, of_items, status, texts, total, truth, year};

/// `sum(C group by Id)` has Id, the amount and the status; `group except Year` is the same, and without a grouping there is
/// no identifier. `avg` of integers is a number, and `count` is called `int_var`.
pub fn measures_are_worked_out()
    ensures by { gives (of_each Sum (grouped_by By (codes "Id" ∷ [])) by_year) by_year (id ∷ amount ∷ status ∷ []) }
    ensures except { gives (of_each Max (grouped_by Except (codes "Year" ∷ [])) by_year) by_year (id ∷ amount ∷ status ∷ []) }
    ensures all { gives (of_each Sum None by_year) by_year (amount ∷ status ∷ []) }
    ensures twice { gives (of_each Sum (grouped_by By (codes "Year" ∷ codes "Id" ∷ codes "Year" ∷ [])) by_year) by_year (id ∷ year ∷ amount ∷ status ∷ []) }
    ensures mean { gives (of_each Avg (grouped_by By (codes "Id" ∷ [])) counts) counts (id ∷ made Measure Number (codes "N") ∷ []) }
    ensures count { gives (of_each Count (grouped_by By (codes "Id" ∷ [])) texts) texts (id ∷ made Measure Integer (codes "int_var") ∷ []) }
{}

/// Texts have no sum. Groups are formed by identifiers that there are; `Me` is none. What is called `int_var` and is kept
/// leaves no name for `count`, and may be grouped away.
pub fn measures_are_refused()
    ensures text { has_fault (of_each Sum None texts) WrongType }
    ensures unknown { has_fault (of_each Sum (grouped_by By (codes "Zz" ∷ [])) texts) UnknownComponent }
    ensures role { has_fault (of_each Sum (grouped_by Except (codes "Me" ∷ [])) by_year) WrongRole }
    ensures name { has_fault (of_each Count (grouped_by By (codes "int_var" ∷ [])) counted) NameTwice }
    ensures away { gives (of_each Count (grouped_by By (codes "Id" ∷ [])) counted) counted (id ∷ made Measure Integer (codes "int_var") ∷ []) }
{}

/// `C[aggr Total := sum(Me), attribute N := count() group by Id]` has both and the status, as roles stand; an item may not
/// have the name of an identifier of the grouping, nor of a viral attribute, nor that of another item.
pub fn items_are_worked_out()
    ensures both { gives (of_items (item Measure (codes "Total") total ∷ item Attribute (codes "N") count ∷ []) By by_year) by_year (id ∷ made Measure Number (codes "Total") ∷ made Attribute Integer (codes "N") ∷ status ∷ []) }
    ensures again { gives (of_items (item Measure (codes "Me") total ∷ []) By by_year) by_year (id ∷ amount ∷ status ∷ []) }
    ensures other { gives (of_items (item Measure (codes "Year") total ∷ []) By by_year) by_year (id ∷ made Measure Number (codes "Year") ∷ status ∷ []) }
    ensures identifier { has_fault (of_items (item Measure (codes "Id") total ∷ []) By by_year) NameTwice }
    ensures viral { has_fault (of_items (item Measure (codes "St") total ∷ []) By by_year) NameTwice }
    ensures item { has_fault (of_items (item Measure (codes "T") total ∷ item Measure (codes "T") truth ∷ []) By by_year) NameTwice }
{}
