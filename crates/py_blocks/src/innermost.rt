//! The innermost def or class around each line, found in one pass.
ghost use Rattle.std.specs.Prelude.{◌≡◌, IfOk};
ghost use Rattle.py_blocks.specs.Innermost.{open_at, scope_at, scopes_of, scope_in, last_of};

use crate::facts::LineFacts;
use crate::lines::is_a;
use crate::open_blocks::enter;
use crate::sort::Sort;
use py_base::NoMemory;
use std::alloc::Global;

// The last of some lines that is of a sort.
fn last_of(lines: &[LineFacts], sort: Sort, blocks: &[usize]) -> Option<usize>
    ensures { result ≡ last_of lines.now sort blocks.now }
{
    let mut found = None;
    for block in blocks {
        if is_a(lines, *block, sort) {
            found = Some(*block);
        }
    }
    found
}

fn scope_at(lines: &[LineFacts], blocks: &[usize], at: usize) -> Option<usize>
    requires { blocks.now ≡ open_at lines.now at }
    ensures { result ≡ scope_at lines.now at }
{
    last_of(lines, Sort::Scope, blocks)
}

/// The innermost def or class in whose block each line stands. `NoMemory` where they could not be
/// stored.
pub fn scopes_of(alloc: Global, lines: &[LineFacts]) -> Result<Vec<Option<usize>>, NoMemory>
    ensures { IfOk result (λ scopes. scopes.items ≡ scopes_of lines.now) }
{
    let mut scopes = Vec::new(alloc);
    let mut blocks = Vec::new(alloc);
    for at in 0..lines.len() {
        let scope = scope_at(lines, blocks.as_slice(), at);
        scopes.push(scope)?;
        blocks = enter(alloc, lines, blocks, at)?;
    }
    Ok(scopes)
}

/// The innermost def or class in whose block a line stands.
pub fn scope_in(scopes: &[Option<usize>], at: usize) -> Option<usize>
    ensures { result ≡ scope_in scopes.now at }
{
    match scopes.get(at) {
        Some(scope) => *scope,
        None => None,
    }
}
