// The scope of a data set.
ghost use Rattle.std.specs.Prelude.{◌≡◌, map, IfOk};
ghost use Rattle.scalar_trees.specs.typing.Scopes as meant;

use scalar_trees::typing::{Column, Scope, ScopeName};
use sqlite_items::Items;
use std::alloc::{AllocError, Global};
use vtl_values::Component;

fn column_of(component: &Component) -> Column
    ensures { result ≡ meant.column_of component.now }
{
    Column {
        kind: component.kind,
        role: component.role,
        grouped: false,
    }
}

/// The bare names of a data set's components, each with its component's number. Or want of memory. It costs their number.
pub fn names_of(alloc: Global, components: &[Component]) -> Result<Items<ScopeName>, AllocError>
    ensures { IfOk result (λ names. names ≡ meant.names_from 0 components.now) }
{
    let mut names = Items::new(alloc);
    for (i, component) in components.iter().enumerate() {
        names.push(ScopeName {
            alias: None,
            name: component.name.copy()?,
            number: i as u64,
        })?;
    }
    Ok(names)
}

/// What a data set's components are to expressions on a point, or want of memory. It costs their number.
pub fn columns_of(alloc: Global, components: &[Component]) -> Result<Items<Column>, AllocError>
    ensures { IfOk result (λ columns. columns ≡ map meant.column_of components.now) }
{
    let mut columns = Items::new(alloc);
    for component in components {
        columns.push(column_of(component))?;
    }
    Ok(columns)
}

/// What the names of a data set's components stand for, or want of memory. It costs their number.
pub fn scope_of(alloc: Global, components: &[Component]) -> Result<Scope, AllocError>
    ensures { IfOk result (λ scope. scope ≡ meant.scope_of components.now) }
{
    Ok(Scope {
        names: names_of(alloc, components)?,
        columns: columns_of(alloc, components)?,
    })
}
