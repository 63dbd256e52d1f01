// How an operand is read in the order of the result.
ghost use Rattle.std.specs.Prelude.{◌≡◌, count_by, IfOk};
ghost use Rattle.vtl_values.specs.declared.kind.Role.TheVariants.{Identifier};
ghost use Rattle.vtl_values.specs.Structures.{IsStructure};
ghost use Rattle.point_sets.specs.DataSets.{key_of, rest_of};
ghost use Rattle.structured_sets.specs.Fitting.{identifiers, others};
ghost use Rattle.data_set_trees.specs.clauses.Frames.{has_role};
ghost use Rattle.clause_meaning.specs.Clauses.{values_at};
ghost use Rattle.set_ops.specs.Readings.{reading_between};

use crate::order::Order;
use point_sets::{Key, Point};
use sqlite_items::Items;
use std::alloc::{AllocError, Global};
use std::sync::Arc;
use vtl_values::{Component, Role, Structure};

/// The orders between an operand and the result: that of the result's keys, that of the operand's own keys, and that of
/// the result's other values.
#[derive(Drop)]
pub struct Reading {
    pub key: Order,
    pub own: Order,
    pub rest: Order,
}

fn is_identifier(component: &Component) -> bool
    ensures { result ≡ has_role Identifier component.now }
{
    component.role == Role::Identifier
}

fn count_identifiers(components: &[Component]) -> usize
    ensures { result ≡ count_by (has_role Identifier) components.now }
{
    components
        .iter()
        .filter(|component| is_identifier(component))
        .count()
}

/// The identifiers of a structure, and the other components.
fn parts(components: &[Component]) -> (&[Component], &[Component])
    requires { IsStructure components.now }
    ensures identifiers { result.0.now ≡ identifiers components.now }
    ensures others { result.1.now ≡ others components.now }
{
    let count = count_identifiers(components);
    components.split_at(count)
}

impl Reading {
    /// How an operand of the one structure is read where the result has the other one.
    pub fn between(alloc: Global, from: &Structure, to: &Structure) -> Result<Reading, AllocError>
        ensures { IfOk result (λ reading. reading ≡ reading_between from.now to.now) }
    {
        let (from_identifiers, from_others) = parts(from.components());
        let (to_identifiers, to_others) = parts(to.components());
        Ok(Reading {
            key: Order::between(alloc, from_identifiers, to_identifiers)?,
            own: Order::between(alloc, to_identifiers, from_identifiers)?,
            rest: Order::between(alloc, from_others, to_others)?,
        })
    }

    /// A point of the operand at this key of the result. Where it stays as it is it is shared.
    pub fn point(
        &self,
        alloc: Global,
        key: &Key,
        point: &Arc<Point>,
    ) -> Result<Arc<Point>, AllocError>
        ensures key { IfOk result (λ read. key_of read ≡ key.now) }
        ensures rest { IfOk result (λ read. rest_of read ≡ values_at self.now.rest (rest_of point.now)) }
    {
        if self.rest.keeps(point.rest.len()) && point.key == *key {
            return Ok(point.clone()?);
        }
        let rest = self.rest.put(alloc, point.rest.as_slice())?;
        let read = Point {
            key: key.copy()?,
            rest: Items::from_vec(rest),
        };
        Ok(Arc::new(alloc, read)?)
    }
}
