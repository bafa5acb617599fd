//! Columns of five places, right-justified.
ghost use Rattle.std.specs.Prelude.{◌≡◌, string_bytes, OnOk};
ghost use Rattle.tables.specs.Columns.{with_length, with_number};

use frame::LegalLength;
use std::alloc::AllocError;

/// Appends a column with this number at its right end.
#[tactic(auto, using(crate::specs::Holes::number_column))]
pub fn push_number(line: &mut String, number: usize) -> Result<(), AllocError>
    ensures { OnOk result (string_bytes line.new ≡ with_number (string_bytes line.old) number) }
{
    write!(line, "{number:>5}")
}

/// Appends two columns, a frame length and its payload, or a dash in each where there is none.
#[tactic(auto, using(crate::specs::Holes::number_columns, crate::specs::Holes::dash_columns))]
pub fn push_length(line: &mut String, length: Option<LegalLength>) -> Result<(), AllocError>
    ensures { OnOk result (string_bytes line.new ≡ with_length (string_bytes line.old) length) }
{
    match length {
        Some(LegalLength { fl, payload }) => write!(line, "{fl:>5}{payload:>5}"),
        None => write!(line, "{0:>5}{0:>5}", "-"),
    }
}
