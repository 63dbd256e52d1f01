// Copies of structures.
ghost use Rattle.std.specs.Prelude.{◌≡◌, IfOk};

use sqlite_items::Items;
use std::alloc::{AllocError, Global};
use vtl_values::Structure;

/// Equal structures, in the same order.
pub fn copy_all(alloc: Global, structures: &[Structure]) -> Result<Items<Structure>, AllocError>
    ensures { IfOk result (λ copies. copies ≡ structures.now) }
{
    let mut copies = Items::new(alloc);
    for structure in structures {
        copies.push(structure.copy()?)?;
    }
    Ok(copies)
}
