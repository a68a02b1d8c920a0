//! The pieces of a text: tokens, gaps and faults, one behind the other.
ghost use Rattle.std.specs.Prelude.{◌≡◌, ℕ, Bool, List, [], ◌∷◌, ◌++◌, length, IfOk, OnOk, sum_by, false};
ghost use Rattle.py_tokens.specs.Nesting.{none_open};
ghost use Rattle.py_tokens.specs.Cut.{is_done, Cut};
ghost use Rattle.py_tokens.specs.declared.kinds.Piece.{Piece};

use crate::kinds::Piece;
use crate::opens::{Opens, after, here, is_number, is_some_open};
use crate::rows::piece_at;
use py_base::NoMemory;
use std::alloc::Global;

fn is_done(opens: &Opens, rest: &[char]) -> bool
    ensures { result ≡ is_done opens.now rest.now }
{
    !is_some_open(opens) && rest.is_empty()
}

/// The pieces of a text.
pub fn pieces(alloc: Global, text: &[char]) -> Result<Vec<Piece>, NoMemory>
    ensures cut { IfOk result (λ v. Cut none_open false text.now v.items) }
    ensures whole { IfOk result (λ v. sum_by (λ p. p.len) v.items ≡ length text.now) }
{
    let mut out = Vec::new(alloc);
    let mut opens = Opens::new(alloc);
    let mut after_number = false;
    let mut rest = text;
    while !is_done(&opens, rest) {
        let piece = piece_at(here(&opens, after_number), rest);
        after(&mut opens, piece.kind, &rest[..piece.len])?;
        after_number = is_number(piece.kind);
        out.push(piece)?;
        rest = &rest[piece.len..];
    }
    Ok(out)
}
