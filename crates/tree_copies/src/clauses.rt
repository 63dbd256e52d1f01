// Clauses and what stands in them, made anew.
ghost use Rattle.std.specs.Prelude.{◌≡◌, ◌<◌, IfOk, map};
ghost use Rattle.std.specs.Option.{option_map};
ghost use denote.Param.Weighed.{most};
ghost use Rattle.vtl_syntax.specs.declared.expr.Clause.{size-Clause};
ghost use Rattle.vtl_syntax.specs.declared.expr.Expr.{size-Expr};
ghost use Rattle.vtl_syntax.specs.declared.expr.Groups.{size-Groups};
ghost use Rattle.vtl_syntax.specs.declared.expr.Item.{size-Item};
ghost use Rattle.vtl_syntax.specs.declared.expr.JoinOperand.{size-JoinOperand};
ghost use Rattle.vtl_syntax.specs.declared.expr.SubstrRange.{size-SubstrRange};
ghost use Rattle.tree_copies.specs.Made.{clause_made, groups_made, item_made, operand_made, range_made};
ghost use Rattle.tree_copies.specs.Parts.{MakesParts, if_some};

use crate::components::{copy_comps, copy_renames, copy_sub_items};
use crate::lists::copy_optional_word;
use crate::maker::{Maker, Naming};
use crate::windows::copy_grouping;
use sqlite_items::{Boxed, Items};
use std::alloc::{AllocError, Global};
use vtl_syntax::{Clause, Expr, Groups, Item, JoinOperand, SubstrRange};

impl<W: Naming + Copy, F: Fn(Global, &W, &Expr) -> Result<Expr, AllocError> + Copy> Maker<
    '_,
    W,
    F,
> {
    fn clause(&self, clause: &Clause) -> Result<Clause, AllocError>
        requires makes { MakesParts self.now.tree.now (W.name self.now.by.now) (W.call self.now.by.now) (F.pre self.now.expression self.now.alloc self.now.by) (F.post self.now.expression self.now.alloc self.now.by) }
        requires inside { size-Clause clause.now < size-Expr self.now.tree.now }
        ensures { IfOk result (λ answer. answer ≡ clause_made (W.name self.now.by.now) (W.call self.now.by.now) clause.now) }
    {
        match clause {
            Clause::Filter { condition, place } => Ok(Clause::Filter {
                condition: self.boxed(condition)?,
                place: *place,
            }),
            Clause::Calc { items, place } => Ok(Clause::Calc {
                items: self.calculated(items.as_slice())?,
                place: *place,
            }),
            Clause::Keep { components, place } => Ok(Clause::Keep {
                components: copy_comps(self.alloc, components.as_slice())?,
                place: *place,
            }),
            Clause::Drop { components, place } => Ok(Clause::Drop {
                components: copy_comps(self.alloc, components.as_slice())?,
                place: *place,
            }),
            Clause::Rename { renames, place } => Ok(Clause::Rename {
                renames: copy_renames(self.alloc, renames.as_slice())?,
                place: *place,
            }),
            Clause::Sub { items, place } => Ok(Clause::Sub {
                items: copy_sub_items(self.alloc, items.as_slice())?,
                place: *place,
            }),
            Clause::Unpivot {
                identifier,
                measure,
                place,
            } => Ok(Clause::Unpivot {
                identifier: identifier.copy()?,
                measure: measure.copy()?,
                place: *place,
            }),
            Clause::Aggr {
                items,
                groups,
                place,
            } => Ok(Clause::Aggr {
                items: self.calculated(items.as_slice())?,
                groups: self.optional_groups(groups)?,
                place: *place,
            }),
        }
    }

    pub(crate) fn boxed_clause(&self, tree: &Boxed<Clause>) -> Result<Boxed<Clause>, AllocError>
        requires makes { MakesParts self.now.tree.now (W.name self.now.by.now) (W.call self.now.by.now) (F.pre self.now.expression self.now.alloc self.now.by) (F.post self.now.expression self.now.alloc self.now.by) }
        requires inside { size-Clause tree.now < size-Expr self.now.tree.now }
        ensures { IfOk result (λ answer. answer ≡ clause_made (W.name self.now.by.now) (W.call self.now.by.now) tree.now) }
    {
        Boxed::new(self.alloc, self.clause(tree.get())?)
    }

    pub(crate) fn optional_clause(
        &self,
        tree: &Option<Boxed<Clause>>,
    ) -> Result<Option<Boxed<Clause>>, AllocError>
        requires makes { MakesParts self.now.tree.now (W.name self.now.by.now) (W.call self.now.by.now) (F.pre self.now.expression self.now.alloc self.now.by) (F.post self.now.expression self.now.alloc self.now.by) }
        requires inside { if_some size-Clause tree.now < size-Expr self.now.tree.now }
        ensures { IfOk result (λ answer. answer ≡ option_map (clause_made (W.name self.now.by.now) (W.call self.now.by.now)) tree.now) }
    {
        match tree {
            Some(tree) => Ok(Some(self.boxed_clause(tree)?)),
            None => Ok(None),
        }
    }

    fn item(&self, item: &Item) -> Result<Item, AllocError>
        requires makes { MakesParts self.now.tree.now (W.name self.now.by.now) (W.call self.now.by.now) (F.pre self.now.expression self.now.alloc self.now.by) (F.post self.now.expression self.now.alloc self.now.by) }
        requires inside { size-Item item.now < size-Expr self.now.tree.now }
        ensures { IfOk result (λ answer. answer ≡ item_made (W.name self.now.by.now) (W.call self.now.by.now) item.now) }
    {
        Ok(Item {
            role: item.role,
            name: item.name.copy()?,
            expr: self.boxed(&item.expr)?,
            place: item.place,
        })
    }

    fn calculated(&self, items: &[Item]) -> Result<Items<Item>, AllocError>
        requires makes { MakesParts self.now.tree.now (W.name self.now.by.now) (W.call self.now.by.now) (F.pre self.now.expression self.now.alloc self.now.by) (F.post self.now.expression self.now.alloc self.now.by) }
        requires inside { most size-Item items.now < size-Expr self.now.tree.now }
        ensures { IfOk result (λ answer. answer ≡ map (item_made (W.name self.now.by.now) (W.call self.now.by.now)) items.now) }
    {
        let mut answer = Items::new(self.alloc);
        for next in items {
            answer.push(self.item(next)?)?;
        }
        Ok(answer)
    }

    fn groups(&self, groups: &Groups) -> Result<Groups, AllocError>
        requires makes { MakesParts self.now.tree.now (W.name self.now.by.now) (W.call self.now.by.now) (F.pre self.now.expression self.now.alloc self.now.by) (F.post self.now.expression self.now.alloc self.now.by) }
        requires inside { size-Groups groups.now < size-Expr self.now.tree.now }
        ensures { IfOk result (λ answer. answer ≡ groups_made (W.name self.now.by.now) (W.call self.now.by.now) groups.now) }
    {
        Ok(Groups {
            grouping: copy_grouping(self.alloc, &groups.grouping)?,
            having: self.optional(&groups.having)?,
            place: groups.place,
        })
    }

    pub(crate) fn optional_groups(
        &self,
        tree: &Option<Boxed<Groups>>,
    ) -> Result<Option<Boxed<Groups>>, AllocError>
        requires makes { MakesParts self.now.tree.now (W.name self.now.by.now) (W.call self.now.by.now) (F.pre self.now.expression self.now.alloc self.now.by) (F.post self.now.expression self.now.alloc self.now.by) }
        requires inside { if_some size-Groups tree.now < size-Expr self.now.tree.now }
        ensures { IfOk result (λ answer. answer ≡ option_map (groups_made (W.name self.now.by.now) (W.call self.now.by.now)) tree.now) }
    {
        match tree {
            Some(tree) => Ok(Some(Boxed::new(self.alloc, self.groups(tree.get())?)?)),
            None => Ok(None),
        }
    }

    fn operand(&self, operand: &JoinOperand) -> Result<JoinOperand, AllocError>
        requires makes { MakesParts self.now.tree.now (W.name self.now.by.now) (W.call self.now.by.now) (F.pre self.now.expression self.now.alloc self.now.by) (F.post self.now.expression self.now.alloc self.now.by) }
        requires inside { size-JoinOperand operand.now < size-Expr self.now.tree.now }
        ensures { IfOk result (λ answer. answer ≡ operand_made (W.name self.now.by.now) (W.call self.now.by.now) operand.now) }
    {
        Ok(JoinOperand {
            expr: self.boxed(&operand.expr)?,
            alias: copy_optional_word(&operand.alias)?,
            place: operand.place,
        })
    }

    pub(crate) fn boxed_operand(
        &self,
        tree: &Boxed<JoinOperand>,
    ) -> Result<Boxed<JoinOperand>, AllocError>
        requires makes { MakesParts self.now.tree.now (W.name self.now.by.now) (W.call self.now.by.now) (F.pre self.now.expression self.now.alloc self.now.by) (F.post self.now.expression self.now.alloc self.now.by) }
        requires inside { size-JoinOperand tree.now < size-Expr self.now.tree.now }
        ensures { IfOk result (λ answer. answer ≡ operand_made (W.name self.now.by.now) (W.call self.now.by.now) tree.now) }
    {
        Boxed::new(self.alloc, self.operand(tree.get())?)
    }

    pub(crate) fn operands(
        &self,
        operands: &[JoinOperand],
    ) -> Result<Items<JoinOperand>, AllocError>
        requires makes { MakesParts self.now.tree.now (W.name self.now.by.now) (W.call self.now.by.now) (F.pre self.now.expression self.now.alloc self.now.by) (F.post self.now.expression self.now.alloc self.now.by) }
        requires inside { most size-JoinOperand operands.now < size-Expr self.now.tree.now }
        ensures { IfOk result (λ answer. answer ≡ map (operand_made (W.name self.now.by.now) (W.call self.now.by.now)) operands.now) }
    {
        let mut answer = Items::new(self.alloc);
        for next in operands {
            answer.push(self.operand(next)?)?;
        }
        Ok(answer)
    }

    fn range(&self, range: &SubstrRange) -> Result<SubstrRange, AllocError>
        requires makes { MakesParts self.now.tree.now (W.name self.now.by.now) (W.call self.now.by.now) (F.pre self.now.expression self.now.alloc self.now.by) (F.post self.now.expression self.now.alloc self.now.by) }
        requires inside { size-SubstrRange range.now < size-Expr self.now.tree.now }
        ensures { IfOk result (λ answer. answer ≡ range_made (W.name self.now.by.now) (W.call self.now.by.now) range.now) }
    {
        Ok(SubstrRange {
            start: self.boxed(&range.start)?,
            length: self.optional(&range.length)?,
            place: range.place,
        })
    }

    pub(crate) fn optional_range(
        &self,
        range: &Option<SubstrRange>,
    ) -> Result<Option<SubstrRange>, AllocError>
        requires makes { MakesParts self.now.tree.now (W.name self.now.by.now) (W.call self.now.by.now) (F.pre self.now.expression self.now.alloc self.now.by) (F.post self.now.expression self.now.alloc self.now.by) }
        requires inside { if_some size-SubstrRange range.now < size-Expr self.now.tree.now }
        ensures { IfOk result (λ answer. answer ≡ option_map (range_made (W.name self.now.by.now) (W.call self.now.by.now)) range.now) }
    {
        match range {
            Some(range) => Ok(Some(self.range(range)?)),
            None => Ok(None),
        }
    }
}
