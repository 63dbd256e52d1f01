// Analytic operators on a small data set.
ghost use Rattle.std.specs.Prelude.{[], ◌∷◌, codes, pos, Some, None};
ghost use Rattle.vtl_values.specs.declared.kind.Kind.TheVariants.{Integer, Number, Text};
ghost use Rattle.vtl_values.specs.declared.kind.Role.TheVariants.{Measure};
ghost use Rattle.vtl_syntax.specs.declared.words.OffsetFunction.TheVariants.{Lag};
ghost use Rattle.vtl_syntax.specs.declared.words.WindowEnd.TheVariants as end;
ghost use Rattle.vtl_syntax.specs.declared.words.WindowFunction.TheVariants.{Count, FirstValue, RatioToReport, Sum};
ghost use Rattle.vtl_syntax.specs.declared.words.WindowStart.TheVariants as start;
ghost use Rattle.scalar_trees.specs.declared.typing.stop.Fault.TheVariants.{BadConstant, NameTwice, UnknownComponent, WrongRole, WrongStructure, WrongType};
ghost use Rattle.data_set_trees.specs.clauses.After.{made};
ghost use Rattle.data_set_trees.specs.windows.Examples.{amount, by_year, counted, gives, has_fault, here, id, note, over, over_points, ranked, status, texts, year};
ghost use Rattle.data_set_trees.specs.windows.Windows.{offset_checked, window_checked};

/// `sum(C over (partition by Id order by Year))` has C's identifiers, the amount and the status, but not its note; `count`
/// has `int_var`; `lag` keeps the kind of each measure, and the share of an amount is a number.
pub fn measures_are_worked_out()
    ensures sum { gives (window_checked Sum (over (codes "Id" ∷ []) (codes "Year" ∷ [])) here by_year) by_year (id ∷ year ∷ amount ∷ status ∷ []) }
    ensures count { gives (window_checked Count (over [] []) here by_year) by_year (id ∷ year ∷ made Measure Integer (codes "int_var") ∷ status ∷ []) }
    ensures text { gives (window_checked FirstValue (over [] (codes "Id" ∷ [])) here texts) texts (id ∷ made Measure Text (codes "Name") ∷ []) }
    ensures offset { gives (offset_checked Lag (pos 1) (over [] []) here texts) texts (id ∷ made Measure Text (codes "Name") ∷ []) }
    ensures share { gives (window_checked RatioToReport (over [] []) here by_year) by_year (id ∷ year ∷ made Measure Number (codes "Me") ∷ status ∷ []) }
    ensures reach { gives (window_checked Sum (over_points (start.Preceding (pos 1000)) end.Current) here by_year) by_year (id ∷ year ∷ amount ∷ status ∷ []) }
{}

/// Texts have no sum. Parts are made by identifiers, and ordered by components that there are. A share has no window of its
/// own, windows and offsets reach 1,000 points, and an offset is at least 1.
pub fn measures_are_refused()
    ensures text { has_fault (window_checked Sum (over [] []) here texts) WrongType }
    ensures partition { has_fault (window_checked Sum (over (codes "Me" ∷ []) []) here by_year) WrongRole }
    ensures order { has_fault (window_checked Sum (over [] (codes "Zz" ∷ [])) here by_year) UnknownComponent }
    ensures share { has_fault (window_checked RatioToReport (over_points start.Current end.Current) here by_year) WrongStructure }
    ensures offset_points { has_fault (offset_checked Lag (pos 1) (over_points start.Current end.Current) here by_year) WrongStructure }
    ensures name { has_fault (window_checked Count (over [] []) here counted) NameTwice }
    ensures reach { has_fault (window_checked Sum (over_points (start.Preceding (pos 1001)) end.Current) here by_year) BadConstant }
    ensures no_offset { has_fault (offset_checked Lag (pos 0) (over [] []) here by_year) BadConstant }
    ensures far { has_fault (offset_checked Lag (pos 1001) (over [] []) here by_year) BadConstant }
{}

/// `C[calc R := rank(over (order by Me))]` has all of C and the rank; Me may become the rank, and Id may not.
pub fn items_are_worked_out()
    ensures new { gives (ranked (codes "R")) by_year (id ∷ year ∷ amount ∷ made Measure Integer (codes "R") ∷ note ∷ status ∷ []) }
    ensures old { gives (ranked (codes "Me")) by_year (id ∷ year ∷ made Measure Integer (codes "Me") ∷ note ∷ status ∷ []) }
    ensures identifier { has_fault (ranked (codes "Id")) WrongRole }
{}
