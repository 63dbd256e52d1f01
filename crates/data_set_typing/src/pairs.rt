// A scalar operator on two data sets.
ghost use Rattle.std.specs.Prelude.{◌≡◌, ◌&&◌, ◌+◌, ◌<◌, ◌^◌, length, Ok, map, IfOk, IfErr};
ghost use Rattle.std.specs.List.{All};
ghost use Rattle.scalar_trees.specs.declared.typing.stop.TypeStop.TheVariants.{Memory};
ghost use Rattle.scalar_trees.specs.typing.Steps.{Refuses};
ghost use Rattle.data_set_trees.specs.Lifted as lifted;
ghost use Rattle.data_set_trees.specs.Pairs as meant;
ghost use Rattle.data_set_parts.specs.Walks as walks;
ghost use Rattle.data_set_typing.specs.Plans as own;

use crate::call::Call;
use crate::meetings::{identifiers_agree, measures_agree, meeting};
use crate::plan::Plan;
use data_set_parts::components::{measures, virals_agree};
use data_set_parts::demands::demands;
use data_set_parts::joins::joined;
use data_set_parts::measures::slot_of;
use data_set_parts::results::fitting;
use data_set_trees::clauses::CheckedMeasure;
use data_set_trees::{DataSetOperator, Measure, SharedOperator};
use scalar_trees::typing::{Fault, Slot, TypeStop};
use sqlite_items::Items;
use std::alloc::{AllocError, Global};
use vtl_values::{Component, Place, Structure, Word};

/// A component of the second data set, whose numbers come after those of the first.
fn shifted(count: usize, measure: &Measure) -> Slot
    requires { count + measure.now.number < 2 ^ 64 }
    ensures { result ≡ meant.shifted count measure.now }
{
    Slot {
        number: count as u64 + measure.number,
        kind: measure.kind,
    }
}

/// The two components stand for the data sets.
fn both(count: usize, pair: &(Measure, Measure)) -> [Option<Slot>; 2]
    requires { count + pair.now.1.number < 2 ^ 64 }
    ensures { result ≡ meant.both count pair.now }
{
    [Some(slot_of(&pair.0)), Some(shifted(count, &pair.1))]
}

/// Which measures of the two data sets meet, or want of memory.
fn met_of(
    alloc: Global,
    changed: &Option<Word>,
    components: &[Component],
    others: &[Component],
) -> Result<Items<(Measure, Measure)>, AllocError>
    ensures met { IfOk result (λ met. met ≡ own.met_of changed.now components.now others.now) }
    ensures room { IfOk result (λ met. All (λ p. length components.now + p.1.number < 2 ^ 64) met) }
{
    let ours = measures(alloc, components)?;
    let theirs = measures(alloc, others)?;
    meeting(alloc, changed, ours.as_slice(), theirs.as_slice())
}

/// Whether the structures have in common what the operator needs, or want of memory.
fn structures_meet(
    alloc: Global,
    changed: &Option<Word>,
    components: &[Component],
    others: &[Component],
) -> Result<bool, AllocError>
    ensures { IfOk result (λ meet. meet ≡ own.structures_meet changed.now components.now others.now) }
{
    let identifiers = identifiers_agree(alloc, components, others)?;
    let virals = virals_agree(alloc, components, others)?;
    let ours = measures(alloc, components)?;
    let theirs = measures(alloc, others)?;
    let measures = measures_agree(changed, ours.as_slice(), theirs.as_slice());
    Ok(identifiers && (measures && virals))
}

/// The structure of a result with these measures; `NameTwice` where a name would stand twice in it, else
/// `TooManyComponents`, or want of memory.
fn joined_structure(
    alloc: Global,
    place: Place,
    items: &[CheckedMeasure],
    structure: &Structure,
    other: &Structure,
) -> Result<Structure, TypeStop>
    ensures fits { IfOk result (λ joined. meant.result_fits place (meant.joined items.now structure.now other.now) ≡ Ok tt) }
    ensures ok { IfOk result (λ joined. joined ≡ meant.joined items.now structure.now other.now) }
    ensures err { IfErr result (Refuses (meant.result_fits place (meant.joined items.now structure.now other.now))) }
{
    let all = joined(alloc, items, structure.components(), other.components())?;
    fitting(alloc, place, all.as_slice())
}

/// Whether each measure fits by itself, and so do those that meet.
fn hold(each: bool, pairs: bool) -> bool
    ensures { result ≡ each && pairs }
{
    each && pairs
}

impl Call<'_> {
    fn pairs_fit(&self, count: usize, met: &[(Measure, Measure)]) -> Result<bool, TypeStop>
        requires { All (λ p. count + p.1.number < 2 ^ 64) met.now }
        ensures ok { IfOk result (λ fit. fit ≡ lifted.all_fit self.now.form.now self.now.place self.now.operands.now (map (meant.both count) met.now)) }
        ensures err { IfErr result (λ stop. stop ≡ Memory) }
    {
        for pair in met {
            if !self.fits(&both(count, pair))? {
                return Ok(false);
            }
        }
        Ok(true)
    }

    fn pairs_checked(
        &self,
        changed: &Option<Word>,
        count: usize,
        met: &[(Measure, Measure)],
    ) -> Result<Items<CheckedMeasure>, TypeStop>
        requires { All (λ p. count + p.1.number < 2 ^ 64) met.now }
        ensures ok { IfOk result
            (λ all. walks.each (own.pair_checked self.now.form.now self.now.place self.now.operands.now changed.now count) met.now ≡ Ok all) }
        ensures err { IfErr result (Refuses (walks.each (own.pair_checked self.now.form.now self.now.place self.now.operands.now changed.now count) met.now)) }
    {
        let mut all = Items::new(self.alloc);
        for pair in met {
            all.push(self.checked(&both(count, pair), changed, &pair.0.name)?)?;
        }
        Ok(all)
    }

    fn demands_on_two(
        &self,
        changed: &Option<Word>,
        components: &[Component],
        others: &[Component],
        met: &[(Measure, Measure)],
    ) -> Result<(), TypeStop>
        requires met { met.now ≡ own.met_of changed.now components.now others.now }
        requires room { All (λ p. length components.now + p.1.number < 2 ^ 64) met.now }
        ensures ok { IfOk result
            (λ met. own.demands_on_two self.now.form.now self.now.place self.now.operands.now changed.now components.now others.now ≡ Ok met) }
        ensures err { IfErr result (Refuses (own.demands_on_two self.now.form.now self.now.place self.now.operands.now changed.now components.now others.now)) }
    {
        let each = self.each_fits()?;
        let pairs = self.pairs_fit(components.len(), met)?;
        let fit = hold(each, pairs);
        let meet = structures_meet(self.alloc, changed, components, others)?;
        demands(
            self.place,
            &[(fit, Fault::WrongType), (meet, Fault::WrongStructure)],
        )
    }

    fn items_on_two(
        &self,
        changed: &Option<Word>,
        components: &[Component],
        others: &[Component],
    ) -> Result<Items<CheckedMeasure>, TypeStop>
        ensures ok { IfOk result
            (λ all. own.items_on_two self.now.form.now self.now.place self.now.operands.now changed.now components.now others.now ≡ Ok all) }
        ensures err { IfErr result (Refuses (own.items_on_two self.now.form.now self.now.place self.now.operands.now changed.now components.now others.now)) }
    {
        let met = met_of(self.alloc, changed, components, others)?;
        self.demands_on_two(changed, components, others, met.as_slice())?;
        self.pairs_checked(changed, components.len(), met.as_slice())
    }

    /// What the operator comes to on data sets of these structures.
    pub(crate) fn planned_on_two(
        &self,
        changed: &Option<Word>,
        structure: &Structure,
        other: &Structure,
    ) -> Result<Plan, TypeStop>
        ensures ok { IfOk result
            (λ plan. own.planned_on_two self.now.form.now self.now.place self.now.operands.now changed.now structure.now other.now ≡ Ok plan) }
        ensures err { IfErr result (Refuses (own.planned_on_two self.now.form.now self.now.place self.now.operands.now changed.now structure.now other.now)) }
    {
        let items = self.items_on_two(changed, structure.components(), other.components())?;
        let structure = joined_structure(
            self.alloc,
            self.place,
            items.as_slice(),
            structure,
            other,
        )?;
        let operator = DataSetOperator::Pair { measures: items };
        Ok(Plan::Applied {
            operator: SharedOperator::of(self.alloc, operator)?,
            structure,
        })
    }
}
