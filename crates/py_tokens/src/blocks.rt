//! Blocks, by the columns of lines.
ghost use Rattle.std.specs.Prelude.{◌≡◌, ◌∷◌, OnOk, IfOk};
ghost use Rattle.py_tokens.specs.BlockStack.{innermost, dedent, blocks_after, depth_fault, stack_fault};

use crate::kinds::TokenFault;
use py_base::NoMemory;
use std::collections::VecDeque;

/// How deep blocks may be nested.
const BLOCK_LIMIT: usize = 64;

// The column of the innermost block; the module's is 0.
fn innermost(blocks: &VecDeque<u32>) -> u32
    ensures { result ≡ innermost blocks.now.items }
{
    match blocks.front() {
        None => 0,
        Some(column) => *column,
    }
}

// Closes the blocks that stand to the right of a column.
fn dedent(blocks: &mut VecDeque<u32>, column: u32)
    ensures { blocks.new.items ≡ dedent blocks.old.items column }
{
    while column < innermost(blocks) {
        let _ = blocks.pop_front();
    }
}

fn indent(blocks: &mut VecDeque<u32>, column: u32) -> Result<(), NoMemory>
    ensures { OnOk result (blocks.new.items ≡ column ∷ blocks.old.items) }
{
    blocks.push_front(column)?;
    Ok(())
}

fn depth_fault(blocks: &VecDeque<u32>) -> Option<TokenFault>
    ensures { result ≡ depth_fault blocks.now.items }
{
    if blocks.len() > BLOCK_LIMIT {
        Some(TokenFault::NestingLimit)
    } else {
        None
    }
}

/// Changes the open blocks to those behind a line at this column, and gives the fault of the line
/// in them.
pub fn enter(blocks: &mut VecDeque<u32>, column: u32) -> Result<Option<TokenFault>, NoMemory>
    ensures after { OnOk result (blocks.new.items ≡ blocks_after blocks.old.items column) }
    ensures fault { IfOk result (λ fault. fault ≡ stack_fault blocks.old.items column) }
{
    if column < innermost(blocks) {
        dedent(blocks, column);
        if innermost(blocks) < column {
            return Ok(Some(TokenFault::BadDedent));
        }
    } else if innermost(blocks) < column {
        indent(blocks, column)?;
    }
    Ok(depth_fault(blocks))
}
