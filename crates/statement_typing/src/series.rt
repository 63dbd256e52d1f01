// Aggregates, analytic operators and operators on time series, with the expression that they stand on.
ghost use Rattle.std.specs.Prelude.{◌<◌};
ghost use Rattle.vtl_syntax.specs.declared.expr.Expr.{size-Expr};
ghost use Rattle.expression_rules.specs.OnSets as rules;
ghost use Rattle.statement_typing.specs.Names.{naming_of};
ghost use Rattle.statement_typing.specs.Parts.{Answers, TypesParts, after_one};

use crate::checker::Checker;
use crate::names::Names;
use crate::on_sets::{on_aggregate, on_fill, on_offset, on_shift, on_time, on_window};
use data_set_trees::Operand;
use scalar_trees::typing::TypeStop;
use sqlite_items::Boxed;
use std::alloc::Global;
use vtl_syntax::words::{
    AggregateFunction, FillSpan, OffsetFunction, TimeFunction, WindowFunction,
};
use vtl_syntax::{Expr, Groups, Over};
use vtl_values::{Integer, Place};

impl<F: Fn(Global, &Names<'_>, &Expr) -> Result<Operand, TypeStop> + Copy> Checker<'_, '_, F> {
    /// `sum(a groups)` and its like.
    pub(crate) fn aggregate(
        &self,
        function: AggregateFunction,
        operand: &Boxed<Expr>,
        groups: &Option<Boxed<Groups>>,
        place: Place,
    ) -> Result<Operand, TypeStop>
        requires types { TypesParts self.now.tree.now self.now.names (F.pre self.now.expression self.now.alloc) (F.post self.now.expression self.now.alloc) }
        requires inside { size-Expr operand.now < size-Expr self.now.tree.now }
        ensures { Answers (after_one (naming_of self.now.names.now) operand.now (rules.on_aggregate function groups.now place)) result }
    {
        let operand = self.part(operand)?;
        on_aggregate(self.alloc, function, groups, place, operand)
    }

    /// `sum(a over (..))` and its like.
    pub(crate) fn window(
        &self,
        function: WindowFunction,
        operand: &Boxed<Expr>,
        over: &Over,
        place: Place,
    ) -> Result<Operand, TypeStop>
        requires types { TypesParts self.now.tree.now self.now.names (F.pre self.now.expression self.now.alloc) (F.post self.now.expression self.now.alloc) }
        requires inside { size-Expr operand.now < size-Expr self.now.tree.now }
        ensures { Answers (after_one (naming_of self.now.names.now) operand.now (rules.on_window function over.now place)) result }
    {
        let operand = self.part(operand)?;
        on_window(self.alloc, function, over, place, operand)
    }

    /// `lag(a, n over (..))`, `lead(a, n over (..))`
    pub(crate) fn offset(
        &self,
        function: OffsetFunction,
        operand: &Boxed<Expr>,
        offset: Integer,
        over: &Over,
        place: Place,
    ) -> Result<Operand, TypeStop>
        requires types { TypesParts self.now.tree.now self.now.names (F.pre self.now.expression self.now.alloc) (F.post self.now.expression self.now.alloc) }
        requires inside { size-Expr operand.now < size-Expr self.now.tree.now }
        ensures { Answers (after_one (naming_of self.now.names.now) operand.now (rules.on_offset function offset over.now place)) result }
    {
        let operand = self.part(operand)?;
        on_offset(self.alloc, function, offset, over, place, operand)
    }

    /// `flow_to_stock(a)` and its like.
    pub(crate) fn time(
        &self,
        function: TimeFunction,
        operand: &Boxed<Expr>,
        place: Place,
    ) -> Result<Operand, TypeStop>
        requires types { TypesParts self.now.tree.now self.now.names (F.pre self.now.expression self.now.alloc) (F.post self.now.expression self.now.alloc) }
        requires inside { size-Expr operand.now < size-Expr self.now.tree.now }
        ensures { Answers (after_one (naming_of self.now.names.now) operand.now (rules.on_time function place)) result }
    {
        let operand = self.part(operand)?;
        on_time(self.alloc, function, place, operand)
    }

    /// `timeshift(a, n)`
    pub(crate) fn shift(
        &self,
        operand: &Boxed<Expr>,
        places: Integer,
        place: Place,
    ) -> Result<Operand, TypeStop>
        requires types { TypesParts self.now.tree.now self.now.names (F.pre self.now.expression self.now.alloc) (F.post self.now.expression self.now.alloc) }
        requires inside { size-Expr operand.now < size-Expr self.now.tree.now }
        ensures { Answers (after_one (naming_of self.now.names.now) operand.now (rules.on_shift places place)) result }
    {
        let operand = self.part(operand)?;
        on_shift(self.alloc, places, place, operand)
    }

    /// `fill_time_series(a, span)`
    pub(crate) fn fill(
        &self,
        operand: &Boxed<Expr>,
        span: Option<FillSpan>,
        place: Place,
    ) -> Result<Operand, TypeStop>
        requires types { TypesParts self.now.tree.now self.now.names (F.pre self.now.expression self.now.alloc) (F.post self.now.expression self.now.alloc) }
        requires inside { size-Expr operand.now < size-Expr self.now.tree.now }
        ensures { Answers (after_one (naming_of self.now.names.now) operand.now (rules.on_fill span place)) result }
    {
        let operand = self.part(operand)?;
        on_fill(self.alloc, span, place, operand)
    }
}
