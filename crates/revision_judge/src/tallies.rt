// What the parts of a revision come to.
ghost use Rattle.std.specs.Prelude.{◌≡◌, ◌-◌, ◌<◌, ◌≤◌, ◌^◌, List, length, IfOk};
ghost use Rattle.std.specs.FinMap.{len};
ghost use Rattle.std.specs.BTreeMap.{get};
ghost use Rattle.std.specs.Ordering.{nat_cmp};
ghost use Rattle.point_sets.specs.DataSets.{DataSet};
ghost use Rattle.revision_judge.specs.Judging as meant;
ghost use Rattle.revision_judge.specs.Judging.{Standing, AreInputs, before_parts, components_of, input, part_judged, parts_judged, sets_at};
ghost use Rattle.revision_judge.specs.Rows.{Progress, in_new_part, rows_judged};
ghost use Rattle.revision_judge.specs.Shares.{AreShares};
ghost use Rattle.revision_judge.specs.Standings.{StandsSo, AreTallies, AreOthers, AnswersSet, AnswersParts};
ghost use Rattle.revision_judge.specs.Tallies.{IsTally};

use crate::cause::Cause;
use crate::ruling::{Refusal, Share};
use crate::tally::Tally;
use data_model::POINT_LIMIT;
use point_sets::{Part, PointSet, RawRow};
use sqlite_items::Items;
use std::alloc::{AllocError, Global};
use std::collections::BTreeMap;
use vtl_values::{Structure, Structures};

/// What the parts so far come to: a tally for each data set that they name, by its number.
#[derive(Drop)]
pub struct Tallies {
    tallies: BTreeMap<usize, Tally>,
}

impl Tallies {
    /// No parts.
    pub fn new(alloc: Global) -> Tallies
        ensures { (inputs : List DataSet) → AreTallies inputs result (before_parts inputs) }
    {
        Tallies {
            tallies: BTreeMap::new(alloc),
        }
    }

    /// Takes out what the rows so far come to for the data set with this number.
    fn take_out(&mut self, alloc: Global, set: &PointSet, number: usize) -> Tally
        requires { len set.now ≤ POINT_LIMIT }
        ensures taken { (p : Progress) → StandsSo set.now (get nat_cmp self.old.tallies number) p → IsTally set.now result p }
        ensures others { AreOthers number self.old self.new }
    {
        match self.tallies.remove(&number) {
            Some(tally) => tally,
            None => Tally::new(alloc, set.count()),
        }
    }

    /// The rows of a part more, of the data set with this number, and the refusal for the first of them that has a
    /// cause.
    fn take_rows(
        &mut self,
        alloc: Global,
        structure: &Structure,
        set: &PointSet,
        number: usize,
        part: u64,
        rows: &[RawRow],
    ) -> Result<Option<Refusal>, AllocError>
        requires few { len set.now ≤ POINT_LIMIT }
        requires stands { (p : Progress) × StandsSo set.now (get nat_cmp self.old.tallies number) p }
        ensures told { IfOk result (λ told. (p : Progress) → StandsSo set.now (get nat_cmp self.old.tallies number) p → AnswersSet set.now (get nat_cmp self.new.tallies number) (rows_judged structure.now part (in_new_part p) rows.now) told) }
        ensures others { IfOk result (λ _. AreOthers number self.old self.new) }
    {
        let mut tally = self.take_out(alloc, set, number);
        let told = tally.take_rows(alloc, structure.components(), set, part, rows)?;
        self.tallies.insert(number, tally)?;
        Ok(told)
    }

    /// A part more, after n others.
    fn take_part(
        &mut self,
        alloc: Global,
        structures: &Structures,
        inputs: &[PointSet],
        n: usize,
        part: &Part,
    ) -> Result<Option<Refusal>, AllocError>
        requires inputs { AreInputs structures.now inputs.now }
        requires counted { n < 2 ^ 64 - 1 }
        requires stand { (s : Standing) × AreTallies inputs.now self.old s }
        ensures { IfOk result (λ told. (s : Standing) → s.parts ≡ n → AreTallies inputs.now self.old s → AnswersParts inputs.now self.new (part_judged structures.now s part.now) told) }
    {
        let of = n as u64 + 1;
        match structures.number_of(&part.set) {
            None => Ok(Some(no_such_set(alloc, of))),
            Some(number) => {
                let structure = structure_at(structures, number);
                let set = input_at(inputs, number);
                self.take_rows(alloc, structure, set, number, of, part.rows.as_slice())
            }
        }
    }

    /// The parts from the first on, and the first refusal.
    pub fn take_parts(
        &mut self,
        alloc: Global,
        structures: &Structures,
        inputs: &[PointSet],
        parts: &[Part],
    ) -> Result<Option<Refusal>, AllocError>
        requires inputs { AreInputs structures.now inputs.now }
        requires none { AreTallies inputs.now self.old (before_parts inputs.now) }
        ensures { IfOk result (AnswersParts inputs.now self.new (parts_judged structures.now inputs.now parts.now)) }
    {
        for (n, part) in parts.iter().enumerate() {
            match self.take_part(alloc, structures, inputs, n, part)? {
                Some(refusal) => return Ok(Some(refusal)),
                None => {}
            }
        }
        Ok(None)
    }

    /// The shares of the data sets that changed.
    pub fn finish(self, alloc: Global) -> Result<Items<Share>, AllocError>
        ensures { IfOk result (λ shares. (inputs : List DataSet) (s : Standing) → AreTallies inputs self s → AreShares inputs (sets_at s) shares) }
    {
        let Tallies { mut tallies } = self;
        let mut shares = Vec::new(alloc);
        while let Some((number, tally)) = tallies.pop_first() {
            let delta = tally.finish(alloc)?;
            if !delta.changes().is_empty() {
                let set = number as u64;
                shares.push(Share { set, delta })?;
            }
        }
        Ok(Items::from_vec(shares))
    }
}

fn no_such_set(alloc: Global, part: u64) -> Refusal
    ensures { result ≡ meant.no_such_set part }
{
    Refusal {
        part,
        row: 0,
        key: Items::from_vec(Vec::new(alloc)),
        cause: Cause::NoSuchSet,
    }
}

fn structure_at(structures: &Structures, number: usize) -> &Structure
    requires { number < length structures.now }
    ensures { result.now ≡ components_of structures.now number }
{
    let (_, structure) = structures.nth(number).unwrap();
    structure
}

fn input_at(inputs: &[PointSet], number: usize) -> &PointSet
    requires { number < length inputs.now }
    ensures { result.now ≡ input inputs.now number }
{
    &inputs[number]
}
