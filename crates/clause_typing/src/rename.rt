// `rename`.
ghost use Rattle.std.specs.Prelude.{◌≡◌, true, Ok, IfOk, IfErr};
ghost use Rattle.scalar_trees.specs.typing.Steps.{Refuses};
ghost use Rattle.data_set_trees.specs.clauses.Clauses as meant;
ghost use Rattle.data_set_trees.specs.clauses.WellTyped.{is_well_typed};

use crate::after::rename_all;
use crate::demanded::demands;
use crate::differ::{names_differ, renamed_once};
use crate::names::number_of;
use crate::parts::copy_frame;
use data_set_trees::clauses::{CheckedClause, CheckedRename, Frame};
use scalar_trees::typing::{Fault, TypeStop};
use sqlite_items::Items;
use std::alloc::{AllocError, Global};
use vtl_syntax::expr::Rename;
use vtl_values::Place;

fn are_known(frame: &Frame, renames: &[Rename]) -> bool
    ensures { result ≡ meant.are_known_renames frame.now renames.now }
{
    renames
        .iter()
        .all(|renaming| number_of(frame, &renaming.component).is_some())
}

fn checked(frame: &Frame, renaming: &Rename) -> Result<Option<CheckedRename>, AllocError>
    ensures { IfOk result (λ checked. checked ≡ meant.rename_checked frame.now renaming.now) }
{
    match number_of(frame, &renaming.component) {
        Some(component) => Ok(Some(CheckedRename {
            component,
            name: renaming.name.copy()?,
        })),
        None => Ok(None),
    }
}

fn all_checked(
    alloc: Global,
    frame: &Frame,
    renames: &[Rename],
) -> Result<Items<CheckedRename>, AllocError>
    ensures { IfOk result (λ checked. checked ≡ meant.renames_checked frame.now renames.now) }
{
    let mut all = Items::new(alloc);
    for renaming in renames {
        if let Some(renaming) = checked(frame, renaming)? {
            all.push(renaming)?;
        }
    }
    Ok(all)
}

/// Whether no component gets two names and the names of the result differ, or want of memory. Where one gets two names
/// nothing is renamed, so there are no more renamings than components.
fn differ(alloc: Global, frame: &Frame, renames: &[CheckedRename]) -> Result<bool, AllocError>
    ensures { IfOk result (λ differ. differ ≡ meant.renames_differ frame.now renames.now) }
{
    if !renamed_once(alloc, renames)? {
        return Ok(false);
    }
    let mut after = copy_frame(alloc, frame)?;
    rename_all(alloc, &mut after, renames)?;
    names_differ(alloc, &after)
}

/// `rename names`, all at once; `UnknownComponent` where a name is that of no component, else `NameTwice` where a
/// component gets two names or the result would have two of one name, alias and all, or want of memory. It costs the
/// number of names here times that in the frame.
pub fn rename_typed(
    alloc: Global,
    place: Place,
    renames: &[Rename],
    frame: &Frame,
) -> Result<CheckedClause, TypeStop>
    ensures ok { IfOk result (λ clause. meant.rename_typed place renames.now frame.now ≡ Ok clause) }
    ensures err { IfErr result (Refuses (meant.rename_typed place renames.now frame.now)) }
    ensures typed { IfOk result (λ clause. is_well_typed frame.now clause ≡ true) }
{
    let checked = all_checked(alloc, frame, renames)?;
    let known = are_known(frame, renames);
    let once = differ(alloc, frame, checked.as_slice())?;
    demands(
        place,
        &[(known, Fault::UnknownComponent), (once, Fault::NameTwice)],
    )?;
    Ok(CheckedClause::Rename { renames: checked })
}
