// Names that are given twice.
ghost use Rattle.std.specs.Prelude.{◌≡◌, [], ◌∷◌, ◌++◌, map, if◌then◌else◌, ⊤, Some, IfOk};
ghost use Rattle.std.specs.Map.{keys_of};
ghost use Rattle.vtl_syntax.specs.declared.script.Statement.{Statement};
ghost use Rattle.script_graph.specs.Words.{has_word, ruleset_name, ruleset_place};
ghost use Rattle.script_graph.specs.Scopes.{Answers};
ghost use Rattle.script_graph.specs.Faults.{repeated, repeated_at, result_repeated};

use crate::fault::{GraphFault, GraphStop, PlacedFault};
use crate::names::Names;
use std::alloc::{AllocError, Global};
use vtl_syntax::{Ruleset, Statement};
use vtl_values::{Place, Structures, Word};

/// The names to which the statements assign, or the fault of the first statement that repeats a name.
pub(crate) fn results<'a>(
    alloc: Global,
    structures: &Structures,
    statements: &'a [Statement],
) -> Result<Names<'a>, GraphStop>
    ensures { Answers (result_repeated structures.now statements.now) (λ names. names ≡ map (λ (t : Statement). t.name) statements.now) result }
{
    let mut names = Names::new(alloc);
    for statement in statements {
        let again = repeats_name(structures, &statement.name, &mut names)?;
        if again {
            return Err(told_at(statement.place));
        }
    }
    Ok(names)
}

/// The names of the rulesets, or the fault of the first that repeats one.
pub(crate) fn ruleset_names<'a>(
    alloc: Global,
    rulesets: &'a [Ruleset],
) -> Result<Names<'a>, GraphStop>
    ensures { Answers (repeated ruleset_name ruleset_place [] rulesets.now) (λ names. names ≡ map ruleset_name rulesets.now) result }
{
    let mut names = Names::new(alloc);
    for ruleset in rulesets {
        let again = names.repeats(name_of(ruleset))?;
        if again {
            return Err(told_at(place_of(ruleset)));
        }
    }
    Ok(names)
}

/// Whether the name is an input's or is there; if not, it is put last.
fn repeats_name<'a>(
    structures: &Structures,
    name: &'a Word,
    names: &mut Names<'a>,
) -> Result<bool, AllocError>
    ensures again { IfOk result (λ again. again ≡ has_word (keys_of structures.now ++ names.old) name.now) }
    ensures words { IfOk result (λ again. names.new ≡ (if again then names.old else names.old ++ name.now ∷ [])) }
{
    if structures.get(name).is_some() {
        Ok(true)
    } else {
        names.repeats(name)
    }
}

fn told_at(place: Place) -> GraphStop
    ensures { Answers {T = Unit {0}} (Some (repeated_at place)) (λ _. ⊤) (Err result) }
{
    GraphStop::Fault(PlacedFault {
        fault: GraphFault::AssignedTwice,
        place,
    })
}

fn name_of(rules: &Ruleset) -> &Word
    ensures { result.now ≡ ruleset_name rules.now }
{
    match rules {
        Ruleset::Datapoint(rules) => &rules.name,
        Ruleset::Hierarchy(rules) => &rules.name,
    }
}

fn place_of(rules: &Ruleset) -> Place
    ensures { result ≡ ruleset_place rules.now }
{
    match rules {
        Ruleset::Datapoint(rules) => rules.place,
        Ruleset::Hierarchy(rules) => rules.place,
    }
}
