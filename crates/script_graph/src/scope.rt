// What the names in a script stand for.
ghost use Rattle.std.specs.Prelude.{◌≡◌, ◌∷◌, [], map, Some, ⊤};
ghost use Rattle.script_graph.specs.declared.sort.NameSort.TheVariants.{DataSet};
ghost use Rattle.script_graph.specs.Words.{is_of, ruleset_name};
ghost use Rattle.script_graph.specs.Scopes.{Answers, unknown_name, wanted_ruleset};

use crate::fault::{GraphFault, GraphStop, PlacedFault};
use crate::names::Names;
use crate::sort::NameSort;
use sqlite_items::Items;
use vtl_syntax::Ruleset;
use vtl_values::{Place, Structures, Word};

/// The inputs, the names to which the statements assign, and the rulesets.
#[derive(Drop)]
pub(crate) struct Scope<'a> {
    structures: &'a Structures,
    results: Names<'a>,
    rulesets: &'a [Ruleset],
    ruleset_names: Names<'a>,
    ghost named: { ruleset_names ≡ map ruleset_name rulesets.now },
}

fn is_of_sort(sort: NameSort, rules: &Ruleset) -> bool
    ensures { result ≡ is_of sort rules.now }
{
    match (sort, rules) {
        (NameSort::Datapoint, Ruleset::Datapoint(_)) => true,
        (NameSort::Hierarchy, Ruleset::Hierarchy(_)) => true,
        _ => false,
    }
}

impl<'a> Scope<'a> {
    ghost use Rattle.std.specs.Prelude.{false};
    ghost use Rattle.std.specs.Option.{option_map_or};
    ghost use Rattle.script_graph.specs.Mentions.{mention};
    ghost use Rattle.script_graph.specs.Scopes.{PutsUses, ruleset_of};
    ghost use Rattle.script_graph.specs.ScopeViews.{names_in};

    /// The scope of a script in which no name is given twice.
    pub(crate) fn new(
        structures: &'a Structures,
        results: Names<'a>,
        rulesets: &'a [Ruleset],
        ruleset_names: Names<'a>,
    ) -> Self
        requires { ruleset_names ≡ map ruleset_name rulesets.now }
        ensures { names_in result ≡ record { inputs = structures.now; results = results.entry; rulesets = rulesets.now } }
    {
        Scope {
            structures,
            results,
            rulesets,
            ruleset_names,
        }
    }

    /// Whether there is a ruleset of that sort and name.
    fn has_ruleset(&self, sort: NameSort, name: &Word) -> bool
        ensures { result ≡ option_map_or (is_of sort) (ruleset_of self.now.rulesets.now name.now) false }
    {
        match self.ruleset_names.number_of(name) {
            Some(number) => match self.rulesets.get(number) {
                Some(ruleset) => is_of_sort(sort, ruleset),
                None => false,
            },
            None => false,
        }
    }

    /// Puts the number of the statement whose result is named, if it is one; or tells a name that stands for nothing.
    pub(crate) fn put(
        &self,
        sort: NameSort,
        name: &Word,
        place: Place,
        uses: &mut Items<usize>,
    ) -> Result<(), GraphStop>
        ensures { PutsUses (names_in self.now) (mention sort name.now place ∷ []) uses.old uses.new result }
    {
        match sort {
            NameSort::DataSet => self.put_data_set(name, place, uses),
            NameSort::Datapoint => self.want_ruleset(sort, name, place),
            NameSort::Hierarchy => self.want_ruleset(sort, name, place),
        }
    }

    /// The same for the name of a data set.
    fn put_data_set(
        &self,
        name: &Word,
        place: Place,
        uses: &mut Items<usize>,
    ) -> Result<(), GraphStop>
        ensures { PutsUses (names_in self.now) (mention DataSet name.now place ∷ []) uses.old uses.new result }
    {
        match self.results.number_of(name) {
            Some(number) => {
                uses.push(number)?;
                Ok(())
            }
            None if self.structures.get(name).is_some() => Ok(()),
            None => unknown(name, place),
        }
    }

    /// Tells a name that is of no ruleset of that sort.
    fn want_ruleset(&self, sort: NameSort, name: &Word, place: Place) -> Result<(), GraphStop>
        ensures { Answers (wanted_ruleset (names_in self.now) sort name.now place) (λ _. ⊤) result }
    {
        if self.has_ruleset(sort, name) {
            Ok(())
        } else {
            unknown(name, place)
        }
    }
}

/// The fault of a name that stands for nothing.
fn unknown(name: &Word, place: Place) -> Result<(), GraphStop>
    ensures { Answers (Some (unknown_name name.now place)) (λ _. ⊤) result }
{
    let name = name.copy()?;
    Err(GraphStop::Fault(PlacedFault {
        fault: GraphFault::Unknown(name),
        place,
    }))
}
