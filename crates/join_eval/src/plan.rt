// How the points of the operands of a join meet.
ghost use Rattle.std.specs.Prelude.{◌≡◌, ◌<◌, length, map, IfOk};
ghost use Rattle.point_sets.specs.DataSets.{HasKey};
ghost use Rattle.point_sets.specs.Changes.{values_of};
ghost use Rattle.data_set_trees.specs.Components.{identifiers as identifiers_of};
ghost use Rattle.operator_meaning.specs.joins.Joins as meant;
ghost use Rattle.operator_meaning.specs.joins.Joins.{join_on, joined_point};
ghost use Rattle.operator_meaning.specs.joins.Typed.{IsTypedJoinOn};
ghost use Rattle.join_eval.specs.Plans.{structure_of, own_key};

use crate::components::{identifiers, join_identifiers, numbers_among};
use crate::keys::key_at;
use crate::points::{joined_values, stays};
use crate::sides::{Side, own_places, sides_of};
use crate::virals::{ViralPlaces, all_viral_places};
use point_sets::{Key, Point};
use sqlite_items::Items;
use std::alloc::{AllocError, Global};
use std::marker::Model;
use std::sync::Arc;
use structured_sets::copy_all;
use vtl_syntax::words::JoinFunction;
use vtl_values::Structure;

/// How the points of data sets of given structures meet in a join, by numbers that depend on the structures alone.
/// Contracts see the join with these structures, which is well typed.
#[derive(Drop)]
pub struct JoinPlan {
    function: JoinFunction,
    operands: Items<Structure>,
    structure: Structure,
    own: Items<Items<u64>>,
    sides: Items<Side>,
    virals: Items<ViralPlaces>,
}

impl Model for JoinPlan {
    ghost use Rattle.operator_meaning.specs.joins.Joins.{JoinOn, join_on};
    ghost use Rattle.join_eval.specs.Plans.{join_coded, IsPlan};

    ghost Value = { JoinOn };

    ghost coded = { join_coded };

    ghost view = { λ p. join_on p.function p.operands p.structure };

    ghost invariant = { λ p. IsPlan (join_on p.function p.operands p.structure) p.own p.sides p.virals };
}

impl JoinPlan {
    /// The plan of a join of data sets of these structures, which it takes.
    pub fn of(
        alloc: Global,
        function: JoinFunction,
        operands: &[Structure],
        structure: &Structure,
    ) -> Result<JoinPlan, AllocError>
        requires { IsTypedJoinOn (join_on function operands.now structure.now) }
        ensures { IfOk result (λ plan. plan ≡ join_on function operands.now structure.now) }
    {
        let keys = join_identifiers(alloc, function, operands)?;
        Ok(JoinPlan {
            function,
            operands: copy_all(alloc, operands)?,
            structure: structure.copy()?,
            own: own_places(alloc, function, keys.as_slice(), operands)?,
            sides: sides_of(alloc, keys.as_slice(), operands)?,
            virals: all_viral_places(alloc, operands)?,
        })
    }

    /// The join.
    pub fn function(&self) -> JoinFunction
        ensures function { result ≡ self.now.function }
        ensures typed { IsTypedJoinOn self.now }
    {
        self.function
    }

    /// The structures of the operands.
    pub fn operands(&self) -> &[Structure]
        ensures { result.now ≡ self.now.operands }
    {
        self.operands.as_slice()
    }

    /// The structure of the result.
    pub fn structure(&self) -> &Structure
        ensures { result.now ≡ self.now.structure }
    {
        &self.structure
    }

    /// Whether the operand of this number has all identifiers of the join.
    pub fn is_whole(&self, operand: usize) -> bool
        requires { operand < length self.now.operands }
        ensures { result ≡ meant.is_whole self.now (structure_of self.now operand) }
    {
        self.sides.as_slice()[operand].is_whole
    }

    /// The key of the operand of this number at a key of the join. Where these are the same the key is shared.
    pub fn own_key(&self, alloc: Global, operand: usize, key: &Key) -> Result<Key, AllocError>
        requires { operand < length self.now.operands }
        ensures { IfOk result (λ own. own ≡ own_key self.now operand key.now) }
    {
        key_at(alloc, self.own.as_slice()[operand].as_slice(), key)
    }

    /// The key of the join at a key of the operand of this number, for one that has all identifiers. Where these are the
    /// same the key is shared.
    pub fn join_key(&self, alloc: Global, operand: usize, own: &Key) -> Result<Key, AllocError>
        requires { operand < length self.now.operands }
        ensures { IfOk result (λ key. key ≡ meant.join_key self.now (structure_of self.now operand) own.now) }
    {
        let side = &self.sides.as_slice()[operand];
        key_at(alloc, side.join_numbers.as_slice(), own)
    }

    /// The numbers, among the identifiers of a main operand, of those that another operand has, in the other one's order.
    pub fn partner_numbers(
        &self,
        alloc: Global,
        main: usize,
        operand: usize,
    ) -> Result<Items<u64>, AllocError>
        requires main { main < length self.now.operands }
        requires operand { operand < length self.now.operands }
        ensures { IfOk result (λ numbers. numbers ≡ meant.numbers_among (identifiers_of (structure_of self.now main)) (identifiers_of (structure_of self.now operand))) }
    {
        let operands = self.operands.as_slice();
        let ours = identifiers(alloc, operands[main].components())?;
        let theirs = identifiers(alloc, operands[operand].components())?;
        numbers_among(alloc, ours.as_slice(), theirs.as_slice())
    }

    /// The point of the join at a key, of those that the operands have there.
    pub fn joined(
        &self,
        alloc: Global,
        key: &Key,
        points: &[Option<Arc<Point>>],
    ) -> Result<Option<Arc<Point>>, AllocError>
        requires { length points.now ≡ length self.now.operands }
        ensures key { IfOk result (HasKey key.now) }
        ensures value { IfOk result (λ point. values_of point ≡ joined_point self.now (map values_of points.now)) }
    {
        if !stays(self.function, points) {
            return Ok(None);
        }
        let sides = self.sides.as_slice();
        let attributes = self.virals.as_slice();
        let point = Point {
            key: key.copy()?,
            rest: joined_values(alloc, sides, attributes, points)?,
        };
        Ok(Some(Arc::new(alloc, point)?))
    }
}
