//! The names of rows.
ghost use Rattle.std.specs.Prelude.{◌≡◌, [], map, option_map, slice_get, unwrap_or};
ghost use Rattle.builtin_rows.specs.Lines.{row_in};
ghost use Rattle.builtin_rows.specs.Rows.{row_word};

use crate::table::{Line, ROWS};

// The name of the row at a place among these.
fn name_at(lines: &[Line], place: usize) -> &'static str
    ensures { result.now ≡ unwrap_or (option_map (λ line. line.name) (slice_get (map row_in lines.now) place)) [] }
{
    match lines.get(place) {
        Some(line) => line.1,
        None => "",
    }
}

/// The name of the row with this number: that of the function, of the method or attribute, or of the class that
/// is called; empty where no row has the number. It takes no memory.
pub fn row_word(row: u32) -> &'static str
    ensures { result.now ≡ row_word row }
{
    name_at(&ROWS, row as usize)
}
