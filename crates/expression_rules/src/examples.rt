// Joins and operators on one data set, tried on small ones.
ghost use Rattle.std.specs.Prelude.{◌≡◌, [], ◌∷◌, true, codes, pos, Some, None};
ghost use Rattle.vtl_values.specs.declared.kind.Kind.TheVariants.{Integer, Text};
ghost use Rattle.vtl_values.specs.declared.kind.Role.TheVariants.{Measure};
ghost use Rattle.vtl_syntax.specs.declared.words.AggregateFunction.TheVariants as aggregate;
ghost use Rattle.vtl_syntax.specs.declared.words.JoinFunction.TheVariants as joining;
ghost use Rattle.vtl_syntax.specs.declared.words.OffsetFunction.TheVariants as offset;
ghost use Rattle.vtl_syntax.specs.declared.words.TimeFunction.TheVariants as time;
ghost use Rattle.vtl_syntax.specs.declared.words.WindowFunction.TheVariants as window;
ghost use Rattle.scalar_trees.specs.declared.typing.stop.Fault.TheVariants.{BadConstant, NameTwice, WrongStructure, WrongType};
ghost use Rattle.data_set_trees.specs.clauses.After.{made};
ghost use Rattle.data_set_trees.specs.Components.{names_differ};
ghost use Rattle.data_set_trees.specs.Joins.{join_frame};
ghost use Rattle.data_set_trees.specs.Examples.{here, id, year, amount, status, amounts, texts, A, B, C, T, three, named, is_set, has_fault};
ghost use Rattle.expression_rules.specs.JoinClauses.{join_typed, after_all};
ghost use Rattle.expression_rules.specs.OnSets.{on_aggregate, on_offset, on_shift, on_time, on_window};
ghost use Rattle.expression_rules.specs.Examples.{by_period, made_period, renamed_first, whole};

/// `inner_join(A as a, T as t)` has A's amount and T's text, and of C and T the identifiers and the status of C, but not its
/// note. An operand without an alias, or a scalar, is refused, and so are two equal aliases, a left join of different
/// identifiers, and names that stand twice at the end, as the amounts of A and B do. The identifiers of a cross join do too,
/// unless one is renamed.
pub fn joins()
    ensures inner { is_set (join_typed joining.Inner here (Some (codes "a") ∷ Some (codes "t") ∷ []) [] (A ∷ T ∷ [])) (id ∷ amount ∷ made Measure Text (codes "Name") ∷ []) }
    ensures smaller { is_set (join_typed joining.Inner here (Some (codes "c") ∷ Some (codes "t") ∷ []) [] (C ∷ T ∷ [])) (id ∷ year ∷ amount ∷ made Measure Text (codes "Name") ∷ status ∷ []) }
    ensures unnamed { has_fault (join_typed joining.Inner here (None ∷ Some (codes "t") ∷ []) [] (A ∷ T ∷ [])) WrongStructure }
    ensures scalar { has_fault (join_typed joining.Inner here (Some (codes "a") ∷ Some (codes "b") ∷ []) [] (A ∷ three ∷ [])) WrongStructure }
    ensures aliases { has_fault (join_typed joining.Inner here (Some (codes "a") ∷ Some (codes "a") ∷ []) [] (A ∷ T ∷ [])) NameTwice }
    ensures left { has_fault (join_typed joining.Left here (Some (codes "a") ∷ Some (codes "c") ∷ []) [] (A ∷ C ∷ [])) WrongStructure }
    ensures twice { has_fault (join_typed joining.Inner here (Some (codes "a") ∷ Some (codes "b") ∷ []) [] (A ∷ B ∷ [])) NameTwice }
    ensures crossed { has_fault (join_typed joining.Cross here (Some (codes "a") ∷ Some (codes "t") ∷ []) [] (A ∷ T ∷ [])) NameTwice }
    ensures renamed { names_differ (after_all (renamed_first (codes "Left")) (join_frame joining.Cross (named (codes "a") amounts ∷ named (codes "t") texts ∷ []))).components ≡ true }
{}

/// Without a grouping `sum(C)` has the amount and the status alone. A text has no sum, and a scalar no points.
pub fn aggregates()
    ensures sum { is_set (on_aggregate aggregate.Sum None here C) (amount ∷ status ∷ []) }
    ensures count { is_set (on_aggregate aggregate.Count None here T) (made Measure Integer (codes "int_var") ∷ []) }
    ensures text { has_fault (on_aggregate aggregate.Sum None here T) WrongType }
    ensures scalar { has_fault (on_aggregate aggregate.Sum None here three) WrongStructure }
{}

/// `sum(C over ())` has C's identifiers, the amount and the status, and so has `lag(C, 1 over ())`.
pub fn windows()
    ensures sum { is_set (on_window window.Sum whole here C) (id ∷ year ∷ amount ∷ status ∷ []) }
    ensures lag { is_set (on_offset offset.Lag (pos 1) whole here C) (id ∷ year ∷ amount ∷ status ∷ []) }
    ensures far { has_fault (on_offset offset.Lag (pos 1001) whole here C) BadConstant }
    ensures text { has_fault (on_window window.Avg whole here T) WrongType }
    ensures scalar { has_fault (on_window window.Count whole here three) WrongStructure }
{}

/// A time series has a string identifier `TIME_PERIOD`.
pub fn times()
    ensures sums { is_set (on_time time.FlowToStock here by_period) (made_period ∷ amount ∷ []) }
    ensures letters { is_set (on_time time.PeriodIndicator here by_period) (made_period ∷ made Measure Text (codes "duration_var") ∷ []) }
    ensures shift { is_set (on_shift (pos 4) here by_period) (made_period ∷ amount ∷ []) }
    ensures none { has_fault (on_shift (pos 4) here A) WrongStructure }
    ensures scalar { has_fault (on_time time.StockToFlow here three) WrongStructure }
{}
