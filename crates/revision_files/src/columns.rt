// The header of a block.
ghost use Rattle.std.specs.Prelude.{◌≡◌, ◌∷◌, ◌&&◌, ℕ, List, map, true, false, IfOk, MatchOption, option_map, position, chars, length};
ghost use Rattle.std.specs.List.{list_all};
ghost use Rattle.revision_files.specs.Columns.{ACTION as ACTION_NAME, columns_of, column_of, has_once, is_among, names_of, other_columns};
ghost use Rattle.revision_files.specs.Rows.{text_in};
ghost use Rattle.revision_files.specs.Texts.{texts_of, wanted_of, is_of};

use csv::StringRecord;
use indexmap::IndexSet;
use sqlite_items::Items;
use std::alloc::{AllocError, Global};
use vtl_values::{Component, Structure, Word};

const ACTION: &str = ":action";

/// The columns of a block: how many there are, where the action stands, and where the fields of a row stand, in the order
/// in which a row has them.
#[derive(Drop)]
pub struct Columns {
    pub width: usize,
    pub action: usize,
    pub fields: Items<usize>,
}

/// The text in a column of a record, which is empty where the record has no such column.
pub(crate) fn text_in(row: &StringRecord, column: usize) -> &str
    ensures { chars result.now ≡ text_in (texts_of row.now) column }
{
    row.get(column).unwrap_or("")
}

// The names of the columns of a known data set.
fn wanted_names(alloc: Global, components: &[Component]) -> Result<IndexSet<Word>, AllocError>
    ensures { IfOk result (λ names. (name : List ℕ) → is_among names.keys name ≡ is_among (wanted_of components.now) name) }
{
    let mut names = IndexSet::new(alloc);
    names.insert_full(Word::from_str(alloc, ACTION)?)?;
    for component in components {
        names.insert_full(component.name.copy()?)?;
    }
    Ok(names)
}

// The names in a header, where each is wanted and none stands twice.
fn header_names(
    alloc: Global,
    wanted: &IndexSet<Word>,
    header: &StringRecord,
) -> Result<Option<IndexSet<Word>>, AllocError>
    ensures { IfOk result (λ names. MatchOption names (is_of wanted.now.keys (texts_of header.now) ≡ false) (λ found. (found.keys ≡ texts_of header.now) × (is_of wanted.now.keys (texts_of header.now) ≡ true))) }
{
    let mut names = IndexSet::new(alloc);
    for column in 0..header.len() {
        let name = Word::from_str(alloc, text_in(header, column))?;
        if !wanted.contains(&name) {
            return Ok(None);
        }
        let (_, is_new) = names.insert_full(name)?;
        if !is_new {
            return Ok(None);
        }
    }
    Ok(Some(names))
}

// The columns of the components, where each has one.
fn component_columns(
    alloc: Global,
    components: &[Component],
    names: &IndexSet<Word>,
) -> Result<Option<Items<usize>>, AllocError>
    ensures { IfOk result (λ columns. MatchOption columns (list_all (is_among names.now.keys) (names_of components.now) ≡ false) (λ found. (found ≡ map (column_of names.now.keys) (names_of components.now)) × (list_all (is_among names.now.keys) (names_of components.now) ≡ true))) }
{
    let mut columns = Vec::new(alloc);
    for component in components {
        let Some(column) = names.get_index_of(&component.name) else {
            return Ok(None);
        };
        columns.push(column)?;
    }
    Ok(Some(Items::from_vec(columns)))
}

// The columns of a data set with these components.
fn known_columns(
    alloc: Global,
    components: &[Component],
    header: &StringRecord,
) -> Result<Option<Columns>, AllocError>
    ensures { IfOk result (λ columns. columns ≡ columns_of (Some components.now) (texts_of header.now)) }
{
    let wanted = wanted_names(alloc, components)?;
    let Some(names) = header_names(alloc, &wanted, header)? else {
        return Ok(None);
    };
    let Some(action) = names.get_index_of(&Word::from_str(alloc, ACTION)?) else {
        return Ok(None);
    };
    let Some(fields) = component_columns(alloc, components, &names)? else {
        return Ok(None);
    };
    Ok(Some(Columns {
        width: header.len(),
        action,
        fields,
    }))
}

// The column of the action, if there is just one.
fn action_column(header: &StringRecord) -> Option<usize>
    ensures { MatchOption result (has_once ACTION_NAME (texts_of header.now) ≡ false) (λ column. (has_once ACTION_NAME (texts_of header.now) ≡ true) × (column ≡ column_of (texts_of header.now) ACTION_NAME)) }
{
    let mut found = None;
    for column in 0..header.len() {
        if text_in(header, column) == ACTION {
            if found.is_some() {
                return None;
            }
            found = Some(column);
        }
    }
    found
}

fn other_columns(
    alloc: Global,
    header: &StringRecord,
    column: usize,
) -> Result<Vec<usize>, AllocError>
    ensures { IfOk result (λ others. others.items ≡ other_columns (texts_of header.now) column) }
{
    let mut others = Vec::new(alloc);
    for other in 0..header.len() {
        if other != column {
            others.push(other)?;
        }
    }
    Ok(others)
}

// The columns of a data set that isn't known.
fn free_columns(alloc: Global, header: &StringRecord) -> Result<Option<Columns>, AllocError>
    ensures { IfOk result (λ columns. columns ≡ columns_of None (texts_of header.now)) }
{
    let Some(action) = action_column(header) else {
        return Ok(None);
    };
    let fields = Items::from_vec(other_columns(alloc, header, action)?);
    Ok(Some(Columns {
        width: header.len(),
        action,
        fields,
    }))
}

/// The columns of a block with this header, for a data set of this structure, or one that isn't known; none where the
/// header doesn't fit.
pub(crate) fn columns_of(
    alloc: Global,
    structure: Option<&Structure>,
    header: &StringRecord,
) -> Result<Option<Columns>, AllocError>
    ensures { IfOk result (λ columns. columns ≡ columns_of (option_map (λ s. s.now) structure.entry) (texts_of header.now)) }
{
    match structure {
        Some(structure) => known_columns(alloc, structure.components(), header),
        None => free_columns(alloc, header),
    }
}
