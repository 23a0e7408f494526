//! The rows in which two boxes differ.

ghost use Rattle.std.specs.Prelude.{◌≡◌, ◌++◌, IfOk, OnOk, map, vec_items};
ghost use Rattle.mp4_diff.specs.RowChanges.{change_of, changes_from, first_unequal, is_same, number_of, only_second};
ghost use Rattle.mp4_diff.specs.RowChanges.{partner_row, row_changes, same_as};
ghost use Rattle.mp4_diff.specs.Rows.{row_of, rows_of, seen_row};

use crate::rows::Row;
use mp4_show::Result;
use std::alloc::Global;

/// A field in which two boxes differ, by the numbers of its rows. A box may lack it.
#[derive(Clone, Copy, Debug, PartialEq, Eq)]
pub struct RowChange {
    /// The number of the row in the first box.
    pub first: Option<usize>,
    /// The number of the row in the second box.
    pub second: Option<usize>,
}

/// Returns the number of entries before the first in which `first` and `second` differ. After the last entry of one of
/// them, the next entry of the other is such an entry.
pub fn first_unequal(first: &[Vec<u8>], second: &[Vec<u8>]) -> usize
    ensures { result ≡ first_unequal (map vec_items first.now) (map vec_items second.now) }
{
    let most = first.len().min(second.len());
    'entries: for index in 0..most {
        if first[index].as_slice() != second[index].as_slice() {
            return index;
        }
    }
    most
}

/// Returns whether two rows have the same entries, and both or none is a list.
fn is_same(first: &Row, second: &Row) -> bool
    ensures { result ≡ is_same (row_of first.now) (row_of second.now) }
{
    let equal = first_unequal(&first.entries, &second.entries);
    first.is_list == second.is_list && equal == first.entries.len() && equal == second.entries.len()
}

/// Returns the number of the first of `rows` with the name `name`.
fn number_of(rows: &[Row], name: &str) -> Option<usize>
    ensures { result ≡ number_of name.now (rows_of rows.now) }
{
    'rows: for index in 0..rows.len() {
        if rows[index].name.as_str() == name {
            return Some(index);
        }
    }
    None
}

/// Returns the row `number`, if there is one.
pub fn row_at(rows: &[Row], number: Option<usize>) -> Option<&Row>
    ensures { seen_row result ≡ partner_row number (rows_of rows.now) }
{
    match number {
        Some(number) => rows.get(number),
        None => None,
    }
}

/// Returns whether `other` is a row that is the same as `row`.
fn is_same_as(row: &Row, other: Option<&Row>) -> bool
    ensures { result ≡ same_as (row_of row.now) (seen_row other.entry) }
{
    match other {
        Some(other) => is_same(row, other),
        None => false,
    }
}

/// Returns the change of the row `number` of the first box, `row`.
fn change_of(number: usize, row: &Row, second: &[Row]) -> Option<RowChange>
    ensures { result ≡ change_of number (row_of row.now) (rows_of second.now) }
{
    let other = number_of(second, row.name.as_str());
    if is_same_as(row, row_at(second, other)) {
        None
    } else {
        Some(RowChange {
            first: Some(number),
            second: other,
        })
    }
}

/// Appends the changes of the rows of the first box.
fn push_changes(first: &[Row], second: &[Row], changes: &mut Vec<RowChange>) -> Result<()>
    ensures { OnOk result (changes.new.items
        ≡ changes.old.items ++ changes_from 0 (rows_of first.now) (rows_of second.now)) }
{
    'rows: for index in 0..first.len() {
        if let Some(change) = change_of(index, &first[index], second) {
            changes.push(change)?;
        }
    }
    Ok(())
}

/// Appends the rows that only the second box has.
fn push_others(first: &[Row], second: &[Row], changes: &mut Vec<RowChange>) -> Result<()>
    ensures { OnOk result (changes.new.items
        ≡ changes.old.items ++ only_second 0 (rows_of first.now) (rows_of second.now)) }
{
    'rows: for index in 0..second.len() {
        if number_of(first, second[index].name.as_str()).is_none() {
            changes.push(RowChange {
                first: None,
                second: Some(index),
            })?;
        }
    }
    Ok(())
}

/// Returns the fields in which two boxes with these rows differ: those of the first box in its order, then those that
/// only the second box has.
pub fn row_changes(alloc: Global, first: &[Row], second: &[Row]) -> Result<Vec<RowChange>>
    ensures { IfOk result (λ changes. changes.items ≡ row_changes (rows_of first.now) (rows_of second.now)) }
{
    let mut changes = Vec::new(alloc);
    push_changes(first, second, &mut changes)?;
    push_others(first, second, &mut changes)?;
    Ok(changes)
}
