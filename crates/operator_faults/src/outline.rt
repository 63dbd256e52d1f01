// Outlines of expressions.
ghost use Rattle.std.specs.Prelude.{◌≡◌, [], map, IfOk};
ghost use Rattle.std.specs.List.{list_any};
ghost use Rattle.operator_faults.specs.Outlines as meant;

use sqlite_items::Items;
use std::alloc::{AllocError, Global};
use vtl_values::{Place, Word};

/// A name or a word at its place.
#[derive(Drop)]
pub struct Site {
    pub name: Word,
    pub place: Place,
}

/// A call of a defined operator, and which of its arguments have a name in them.
#[derive(Drop)]
pub struct CallSite {
    pub name: Word,
    pub place: Place,
    pub named: Items<bool>,
}

/// What stands at the top of an outline.
#[derive(Drop)]
pub enum What {
    /// a name that is an expression
    Name(Site),
    /// a call of a defined operator; the parts are its arguments
    Call(CallSite),
    /// an expression that is no level: a literal, or one that was written out
    Plain,
    /// an expression that is a level: an operator, a bracket, a call, a clause or an `if`
    Level,
    /// what stands in a clause, or after `having`: names there are components
    Inside,
    /// the same in a clause of a join, which is a level
    InsideJoin,
}

/// An expression with its subexpressions in the order of the text, and whether a name is among them.
#[derive(Drop)]
pub struct Outline {
    pub what: What,
    pub named: bool,
    pub parts: Items<Outline>,
}

/// The outline of what stands there and its parts.
pub(crate) fn new(what: What, parts: Items<Outline>) -> Outline
    ensures { result ≡ meant.outline what parts }
{
    let named = is_name(&what) || any_named(parts.as_slice());
    Outline { what, named, parts }
}

fn is_name(what: &What) -> bool
    ensures { result ≡ meant.is_name what.now }
{
    match what {
        What::Name(_) => true,
        What::Call(_) => false,
        What::Plain => false,
        What::Level => false,
        What::Inside => false,
        What::InsideJoin => false,
    }
}

fn any_named(parts: &[Outline]) -> bool
    ensures { result ≡ list_any meant.has_name parts.now }
{
    for part in parts {
        if part.named {
            return true;
        }
    }
    false
}

/// Which of them have a name.
pub(crate) fn flags(alloc: Global, parts: &[Outline]) -> Result<Items<bool>, AllocError>
    ensures { IfOk result (λ flags. flags ≡ map meant.has_name parts.now) }
{
    let mut flags = Items::new(alloc);
    for part in parts {
        flags.push(part.named)?;
    }
    Ok(flags)
}
