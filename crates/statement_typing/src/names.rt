// What names stand for.
ghost use Rattle.std.specs.Prelude.{◌≡◌, [], Some, IfOk, OnOk, OnErr, if◌then◌else◌};
ghost use Rattle.std.specs.Option.{option_copied};
ghost use Rattle.vtl_values.specs.Texts.{same_text};
ghost use Rattle.statement_typing.specs.Names as meant;

use data_set_trees::{DataSet, DataSetTree, Source};
use data_set_typing::KnownPlans;
use indexmap::IndexMap;
use std::alloc::{AllocError, Global};
use std::marker::Model;
use vtl_syntax::Ruleset;
use vtl_values::{Structure, Structures, Word};

/// The result of a statement: the number of the statement in the script, from 0, and its structure.
#[derive(Drop)]
pub struct StatementResult {
    pub number: u64,
    pub structure: Structure,
}

/// The inputs, and the results of statements so far, by name, and the script's rulesets. Contracts see the first two as
/// lists of names and what has them. Beside them are kept what operators on data sets came to before.
#[derive(Drop)]
pub struct Names<'a> {
    inputs: &'a Structures,
    rulesets: &'a [Ruleset],
    results: IndexMap<Word, StatementResult>,
    plans: KnownPlans,
}

impl<'a> Model for Names<'a> {
    ghost use Rattle.statement_typing.specs.Names.{Known, known_coded};

    ghost Value = { Known };

    ghost coded = { known_coded };

    ghost view = { λ names. record { inputs = names.inputs.now; rulesets = names.rulesets.now; results = names.results.entries } };
}

/// The data set that stands under a name.
fn named(source: Source, structure: &Structure) -> Result<DataSet, AllocError>
    ensures { IfOk result (λ set. set ≡ meant.from source structure.now) }
{
    Ok(DataSet {
        tree: DataSetTree::Name(source),
        structure: structure.copy()?,
    })
}

impl<'a> Names<'a> {
    /// These inputs and these rulesets, and no results yet.
    pub fn new(alloc: Global, inputs: &'a Structures, rulesets: &'a [Ruleset]) -> Self
        ensures { result ≡ record { inputs = inputs.now; rulesets = rulesets.now; results = [] } }
    {
        Names {
            inputs,
            rulesets,
            results: IndexMap::new(alloc),
            plans: KnownPlans::new(alloc),
        }
    }

    /// The input of this name, if there is one.
    fn input(&self, name: &Word) -> Result<Option<DataSet>, AllocError>
        ensures { IfOk result (λ set. set ≡ meant.input_of self.now.inputs name.now) }
    {
        let Some(number) = self.inputs.number_of(name) else {
            return Ok(None);
        };
        let Some(structure) = self.inputs.get(name) else {
            return Ok(None);
        };
        Ok(Some(named(Source::Input(number as u64), structure)?))
    }

    /// The data set that a name stands for, if it does: the result of that name, and else the input of that name. Or want of
    /// memory.
    pub fn data_set(&self, name: &Word) -> Result<Option<DataSet>, AllocError>
        ensures { IfOk result (λ set. set ≡ (meant.naming_of self.now).data_set name.now) }
    {
        match self.results.get(name) {
            Some(found) => Ok(Some(named(Source::Result(found.number), &found.structure)?)),
            None => self.input(name),
        }
    }

    /// The script's rulesets.
    pub(crate) fn rulesets(&self) -> &'a [Ruleset]
        ensures { result.now ≡ (meant.naming_of self.now).rulesets }
    {
        self.rulesets
    }

    /// What operators on data sets came to before.
    pub(crate) fn plans(&self) -> &KnownPlans {
        &self.plans
    }

    /// From now on the name stands for the result of the statement with this number. At want of memory nothing has changed.
    pub fn put(&mut self, name: Word, number: u64, structure: Structure) -> Result<(), AllocError>
        ensures ok { OnOk result (meant.StandsFor name (meant.from_result (record { number = number; structure = structure })) self.old self.new) }
        ensures err { OnErr result (self.new ≡ self.old) }
    {
        self.results
            .insert(name, StatementResult { number, structure })?;
        Ok(())
    }
}
