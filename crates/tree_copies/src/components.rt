// Copies of components, and of what clauses say of them.
ghost use Rattle.std.specs.Prelude.{◌≡◌, IfOk};

use crate::lists::copy_optional_word;
use sqlite_items::Items;
use std::alloc::{AllocError, Global};
use vtl_syntax::{Comp, Rename, SubItem};

/// A copy of the component, or want of memory.
pub fn copy_comp(comp: &Comp) -> Result<Comp, AllocError>
    ensures { IfOk result (λ copy. copy ≡ comp.now) }
{
    Ok(Comp {
        name: comp.name.copy()?,
        component: copy_optional_word(&comp.component)?,
        place: comp.place,
    })
}

/// A copy of the components, or want of memory.
pub fn copy_comps(alloc: Global, comps: &[Comp]) -> Result<Items<Comp>, AllocError>
    ensures { IfOk result (λ copy. copy ≡ comps.now) }
{
    let mut copy = Items::new(alloc);
    for comp in comps {
        copy.push(copy_comp(comp)?)?;
    }
    Ok(copy)
}

fn copy_rename(rename: &Rename) -> Result<Rename, AllocError>
    ensures { IfOk result (λ copy. copy ≡ rename.now) }
{
    Ok(Rename {
        component: copy_comp(&rename.component)?,
        name: rename.name.copy()?,
        place: rename.place,
    })
}

/// A copy of the items of `rename`, or want of memory.
pub fn copy_renames(alloc: Global, renames: &[Rename]) -> Result<Items<Rename>, AllocError>
    ensures { IfOk result (λ copy. copy ≡ renames.now) }
{
    let mut copy = Items::new(alloc);
    for rename in renames {
        copy.push(copy_rename(rename)?)?;
    }
    Ok(copy)
}

fn copy_sub_item(item: &SubItem) -> Result<SubItem, AllocError>
    ensures { IfOk result (λ copy. copy ≡ item.now) }
{
    Ok(SubItem {
        name: item.name.copy()?,
        value: item.value.copy()?,
        place: item.place,
    })
}

/// A copy of the items of `sub`, or want of memory.
pub fn copy_sub_items(alloc: Global, items: &[SubItem]) -> Result<Items<SubItem>, AllocError>
    ensures { IfOk result (λ copy. copy ≡ items.now) }
{
    let mut copy = Items::new(alloc);
    for item in items {
        copy.push(copy_sub_item(item)?)?;
    }
    Ok(copy)
}
