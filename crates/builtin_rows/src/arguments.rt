//! How many plain arguments a row takes.
ghost use Rattle.std.specs.Prelude.{◌≡◌};
ghost use Rattle.builtin_rows.specs.Arguments.{is_within, skips, takes};

use type_terms::{Row, RowResult};

fn is_within(most: Option<u32>, count: u32) -> bool
    ensures { result ≡ is_within most count }
{
    match most {
        Some(most) => count <= most,
        None => true,
    }
}

// Whether a row that takes fewer and more takes not this many.
fn skips(result_form: &RowResult, count: u32) -> bool
    ensures { result ≡ skips result_form.now count }
{
    match result_form {
        RowResult::ClassOfEach => count == 2,
        _ => false,
    }
}

/// Whether a row takes this many plain arguments: from the least to the most, but `type` takes one or three.
#[tactic(auto, unfolding(crate::specs::Arguments::takes))]
pub fn takes(row: &Row, count: u32) -> bool
    ensures { result ≡ takes row.now count }
{
    row.least <= count && is_within(row.most, count) && !skips(&row.result, count)
}
