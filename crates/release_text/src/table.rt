// Rows of values, and tables.
ghost use Rattle.std.specs.Prelude.{◌≡◌, ℕ, List, [], ◌++◌, IfOk, OnOk, map};
ghost use Rattle.std.specs.List.{flat_map};
ghost use Rattle.std.specs.FinMap.{entries};
ghost use Rattle.point_sets.specs.DataSets.{entry_of};
ghost use Rattle.release_text.specs.Rows.{HasWritten, row};
ghost use Rattle.release_text.specs.Tables.{header_row, point_row, table, values_row as row_of_values};

use crate::row_writer::RowWriter;
use point_sets::{Point, PointSet};
use std::alloc::{AllocError, Global};
use std::sync::Arc;
use vtl_values::{Structure, Value, Word};

/// The texts as a row, or want of memory.
pub fn words_row(alloc: Global, words: &[Word]) -> Result<Vec<u8>, AllocError>
    ensures { IfOk result (λ text. text.items ≡ row words.now) }
{
    let mut writer = RowWriter::after(alloc, Vec::new(alloc));
    for word in words {
        writer.push(word)?;
    }
    writer.end_row()?;
    writer.into_text()
}

/// The values as a row, or want of memory.
pub fn values_row(alloc: Global, values: &[Value]) -> Result<Vec<u8>, AllocError>
    ensures { IfOk result (λ text. text.items ≡ row_of_values values.now) }
{
    let mut writer = RowWriter::after(alloc, Vec::new(alloc));
    writer.push_values(values)?;
    writer.end_row()?;
    writer.into_text()
}

/// The table of a data set with these components, or want of memory.
pub fn rows_text(
    alloc: Global,
    structure: &Structure,
    set: &PointSet,
) -> Result<Vec<u8>, AllocError>
    ensures { IfOk result (λ text. text.items ≡ table structure.now set.now) }
{
    with_table(alloc, Vec::new(alloc), structure, set)
}

/// The text, and after it the table of a data set with these components, or want of memory.
pub(crate) fn with_table(
    alloc: Global,
    text: Vec<u8>,
    structure: &Structure,
    set: &PointSet,
) -> Result<Vec<u8>, AllocError>
    ensures { IfOk result (λ after. after.items ≡ text.items ++ table structure.now set.now) }
{
    let points = set.points()?;
    let mut writer = RowWriter::after(alloc, text);
    write_header(&mut writer, structure)?;
    write_points(&mut writer, points.as_slice())?;
    writer.into_text()
}

fn write_header(writer: &mut RowWriter, structure: &Structure) -> Result<(), AllocError>
    ensures { (written : List ℕ) → HasWritten writer.old written []
        → OnOk result (HasWritten writer.new (written ++ header_row structure.now) []) }
{
    for component in structure.components() {
        writer.push(&component.name)?;
    }
    writer.end_row()
}

fn write_points(writer: &mut RowWriter, points: &[Arc<Point>]) -> Result<(), AllocError>
    ensures { (written : List ℕ) → HasWritten writer.old written []
        → OnOk result (HasWritten writer.new (written ++ flat_map point_row (map entry_of points.now)) []) }
{
    for point in points {
        writer.push_values(point.key.values())?;
        writer.push_values(point.rest.as_slice())?;
        writer.end_row()?;
    }
    Ok(())
}
