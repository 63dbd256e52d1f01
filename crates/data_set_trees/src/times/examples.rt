// Operators on time series on small data sets.
ghost use Rattle.std.specs.Prelude.{[], ◌∷◌, codes, pos, negsuc, Some, None};
ghost use Rattle.vtl_values.specs.declared.kind.Kind.TheVariants.{Text};
ghost use Rattle.vtl_values.specs.declared.kind.Role.TheVariants.{Measure};
ghost use Rattle.vtl_syntax.specs.declared.words.TimeFunction.TheVariants.{FlowToStock, PeriodIndicator, StockToFlow};
ghost use Rattle.scalar_trees.specs.declared.typing.stop.Fault.TheVariants.{BadConstant, NameTwice, WrongStructure, WrongType};
ghost use Rattle.data_set_trees.specs.clauses.After.{made};
ghost use Rattle.data_set_trees.specs.times.Examples.{amount, by_number, gives, has_fault, here, id, named, noted, period, status};
ghost use Rattle.data_set_trees.specs.times.Times.{fill_checked, shift_checked, time_checked};

/// All but the note stays; the letter of a frequency stands in place of the amount.
pub fn series_are_worked_out()
    ensures sum { gives (time_checked FlowToStock here noted) noted (id ∷ period ∷ amount ∷ status ∷ []) }
    ensures letter { gives (time_checked PeriodIndicator here noted) noted (id ∷ period ∷ made Measure Text (codes "duration_var") ∷ status ∷ []) }
    ensures shift { gives (shift_checked (negsuc 9999) here noted) noted (id ∷ period ∷ amount ∷ status ∷ []) }
    ensures fill { gives (fill_checked None here noted) noted (id ∷ period ∷ amount ∷ status ∷ []) }
{}

/// A period is a string, sums are of numbers, and a shift goes 10,000 places at most. An identifier may have the name that
/// the letter would get.
pub fn series_are_refused()
    ensures period { has_fault (fill_checked None here by_number) WrongStructure }
    ensures text { has_fault (time_checked StockToFlow here named) WrongType }
    ensures far { has_fault (shift_checked (pos 10001) here noted) BadConstant }
    ensures name { has_fault (time_checked PeriodIndicator here named) NameTwice }
{}
