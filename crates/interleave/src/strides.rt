//! The steps of a block, and the strides that they make.

ghost use Rattle.std.specs.Prelude.{◌≤◌};

/// The steps by which rows and columns are gone through: a bit's new column counts
/// `column_by_column` for each column and `column_by_row` for each new row, its new row counts
/// `row_by_row` for each row and `row_by_column` for each column.
#[derive(Clone, Copy)]
pub struct Steps {
    pub(crate) column_by_column: usize,
    pub(crate) column_by_row: usize,
    pub(crate) row_by_row: usize,
    pub(crate) row_by_column: usize,
    ghost few_columns: { column_by_column ≤ 37 },
    ghost more_columns: { column_by_row ≤ 74 },
    ghost few_rows: { row_by_row ≤ 253 },
    ghost more_rows: { row_by_column ≤ 506 },
}

/// What is added on the way from a bit to a later one: to the new row, and to the new column where
/// the new row does not begin again, and where it does.
#[derive(Clone, Copy)]
pub struct Stride {
    pub(crate) rows: usize,
    pub(crate) on: usize,
    pub(crate) over: usize,
}
