//! Whole texts: the module of their lines, and the faults of those that are passed over.
ghost use Rattle.std.specs.Prelude.{◌≡◌, [], ◌<◌, length, Some, option_map, IfOk, IfSome, IfNone};
ghost use Rattle.py_base.specs.Tree.{Grows, IsLinked, tree_of};
ghost use Rattle.py_base.specs.OneTree.{AddsOneTree, IsOneTree};
ghost use Rattle.std.specs.List.{list_any};
ghost use Rattle.py_blocks.specs.Laws.{has_fault};
ghost use Rattle.py_blocks.specs.Faults.{row_of, rows_of, IsNodeOf, AreNodesOf};
ghost use Rattle.py_modules.specs.Held.{HaveAll};
ghost use Rattle.py_modules.specs.Modules.{AreLines, lines_of};
ghost use Rattle.py_stmts.specs.Module.{IsLineOf, IsRowOf, AreRowsOf, error_leaf, IsTreeStanding, IsStanding, AreStanding, line_fault, line_faults, HoldsModule, module_lines, IsTreeOver, IsModule};
ghost use Rattle.py_stmts.specs.Rows;

use crate::lines::line_tree;
use py_base::tree::TREE_ROOM;
use py_base::{List, NoMemory, Node, NodeId, NodeKind, Span, Tree, Word};
use py_blocks::laws::faultless_nesting;
use py_blocks::{BlockLine, LineFaultKind, StandingLine, nesting};
use py_modules::{ModuleLine, module_tree};
use py_tokens::{Cut, LogicalLine};
use std::alloc::Global;

/// A text as its tree.
#[derive(Debug, Drop)]
pub struct Module {
    /// The tree of the text, whose root, a `Module`, is the newest node. An error line is a node `Fault`
    /// without parts, with the span of the faulty line that it stands for.
    pub tree: Tree,
    /// The spans of the faulty lines, in characters, and what is wrong with each, in the order of the
    /// text. None of the lines that an error line takes in is told.
    pub faults: List<(Span, LineFaultKind)>,
}

// The tree of a line; none where it has a token fault, or no tree.
fn root_of(alloc: Global, line: &LogicalLine, tree: &mut Tree) -> Result<Option<NodeId>, NoMemory>
    ensures older { Grows tree.old tree.new }
    ensures linked { IfOk result (λ o. IsLinked tree.new) }
    ensures tree { IfOk result (λ o. IsNodeOf (length tree.new.nodes) o × IsLineOf line.now (option_map (tree_of tree.new) o)) }
    ensures some { IfOk result (λ o. IfSome o (AddsOneTree tree.old tree.new)) }
    ensures none { IfOk result (λ o. IfNone o (tree.new ≡ tree.old)) }
{
    let _count = tree.node_count();
    if line.fault.is_some() {
        return Ok(None);
    }
    let root = line_tree(alloc, line, tree)?;
    let _count = tree.node_count();
    Ok(root)
}

// What the rules of blocks see of a line; its tree comes to the others.
fn block_line(alloc: Global, line: &LogicalLine, tree: &mut Tree) -> Result<BlockLine, NoMemory>
    ensures older { Grows tree.old tree.new }
    ensures linked { IfOk result (λ r. IsLinked tree.new) }
    ensures row { IfOk result (λ r. IsNodeOf (length tree.new.nodes) r.tree × IsRowOf line.now (row_of tree.new r)) }
    ensures some { IfOk result (λ r. IfSome r.tree (AddsOneTree tree.old tree.new)) }
    ensures none { IfOk result (λ r. IfNone r.tree (tree.new ≡ tree.old)) }
{
    let root = root_of(alloc, line, tree)?;
    Ok(BlockLine {
        column: line.column,
        fault: line.fault,
        tree: root,
    })
}

// The lines with their trees.
fn block_lines(
    alloc: Global,
    lines: &[LogicalLine],
    tree: &mut Tree,
) -> Result<List<BlockLine>, NoMemory>
    requires linked { IsLinked tree.old }
    requires empty { tree.old.nodes ≡ [] }
    ensures rows { IfOk result (λ rows. AreRowsOf lines.now (rows_of tree.new rows)) }
    ensures within { IfOk result (λ rows. AreNodesOf (length tree.new.nodes) rows) }
    ensures once { IfOk result (λ rows. HaveAll tree.new (Rows.roots rows)) }
{
    let mut rows = List::new(alloc);
    for line in lines {
        let row = block_line(alloc, line, tree)?;
        rows.push(row)?;
    }
    Ok(rows)
}

fn module_line(line: &BlockLine) -> Option<ModuleLine>
    ensures { result ≡ Rows.module_line line.now }
{
    match line.tree {
        Some(tree) => Some(ModuleLine {
            column: line.column,
            tree,
        }),
        None => None,
    }
}

// The lines that have a tree.
fn module_lines(alloc: Global, lines: &[BlockLine]) -> Result<List<ModuleLine>, NoMemory>
    ensures { IfOk result (λ found. found ≡ Rows.lines_with_trees lines.now) }
{
    let mut found = List::new(alloc);
    for line in lines {
        if let Some(line) = module_line(line) {
            found.push(line)?;
        }
    }
    Ok(found)
}

// The leaf of an error line.
fn error_leaf(alloc: Global, span: Span, tree: &mut Tree) -> Result<NodeId, NoMemory>
    ensures older { Grows tree.old tree.new }
    ensures linked { IfOk result (λ id. IsLinked tree.new) }
    ensures leaf { IfOk result (λ id. (id.0 < length tree.new.nodes) × (tree_of tree.new id ≡ error_leaf span)) }
    ensures once { IfOk result (AddsOneTree tree.old tree.new) }
{
    if tree.node_count() + 1 >= TREE_ROOM {
        return Err(NoMemory);
    }
    let id = tree.add(Node {
        kind: NodeKind::Fault,
        span,
        parts: List::new(alloc),
        word: Word::Nothing,
    })?;
    let _count = tree.node_count();
    Ok(id)
}

// The tree of a line of the nesting.
fn standing_root(
    alloc: Global,
    line: &LogicalLine,
    fault: Option<LineFaultKind>,
    tree: &mut Tree,
) -> Result<Option<NodeId>, NoMemory>
    ensures older { Grows tree.old tree.new }
    ensures linked { IfOk result (λ o. IsLinked tree.new) }
    ensures tree { IfOk result (λ o. IsNodeOf (length tree.new.nodes) o × IsTreeStanding (Some line.now) fault (option_map (tree_of tree.new) o)) }
    ensures some { IfOk result (λ o. IfSome o (AddsOneTree tree.old tree.new)) }
    ensures none { IfOk result (λ o. IfNone o (tree.new ≡ tree.old)) }
{
    match fault {
        Some(_) => {
            let leaf = error_leaf(alloc, line.span, tree)?;
            Ok(Some(leaf))
        }
        None => {
            let root = root_of(alloc, line, tree)?;
            Ok(root)
        }
    }
}

// A line of the nesting with its tree, which comes to the others.
fn standing_line(
    alloc: Global,
    lines: &[LogicalLine],
    standing: &StandingLine,
    tree: &mut Tree,
) -> Result<BlockLine, NoMemory>
    requires linked { IsLinked tree.old }
    ensures older { Grows tree.old tree.new }
    ensures linked { IfOk result (λ r. IsLinked tree.new) }
    ensures row { IfOk result (λ r. IsNodeOf (length tree.new.nodes) r.tree × IsStanding lines.now standing.now (row_of tree.new r)) }
    ensures some { IfOk result (λ r. IfSome r.tree (AddsOneTree tree.old tree.new)) }
    ensures none { IfOk result (λ r. IfNone r.tree (tree.new ≡ tree.old)) }
{
    let Some(line) = lines.get(standing.line) else {
        return Ok(BlockLine {
            column: standing.column,
            fault: None,
            tree: None,
        });
    };
    let root = standing_root(alloc, line, standing.fault, tree)?;
    Ok(BlockLine {
        column: standing.column,
        fault: None,
        tree: root,
    })
}

// The lines of the nesting with their trees.
fn standing_lines(
    alloc: Global,
    lines: &[LogicalLine],
    nesting: &[StandingLine],
    tree: &mut Tree,
) -> Result<List<BlockLine>, NoMemory>
    requires linked { IsLinked tree.old }
    requires empty { tree.old.nodes ≡ [] }
    ensures rows { IfOk result (λ rows. AreStanding lines.now nesting.now (rows_of tree.new rows)) }
    ensures within { IfOk result (λ rows. AreNodesOf (length tree.new.nodes) rows) }
    ensures once { IfOk result (λ rows. HaveAll tree.new (Rows.roots rows)) }
{
    let mut rows = List::new(alloc);
    for standing in nesting {
        let row = standing_line(alloc, lines, standing, tree)?;
        rows.push(row)?;
    }
    Ok(rows)
}

fn line_fault(lines: &[LogicalLine], standing: &StandingLine) -> Option<(Span, LineFaultKind)>
    ensures { result ≡ line_fault lines.now standing.now }
{
    match (lines.get(standing.line), standing.fault) {
        (Some(line), Some(fault)) => Some((line.span, fault)),
        _ => None,
    }
}

// The faults of the error lines.
fn line_faults(
    alloc: Global,
    lines: &[LogicalLine],
    nesting: &[StandingLine],
) -> Result<List<(Span, LineFaultKind)>, NoMemory>
    ensures { IfOk result (λ faults. faults ≡ line_faults lines.now nesting.now) }
{
    let mut faults = List::new(alloc);
    for standing in nesting {
        if let Some(fault) = line_fault(lines, standing) {
            faults.push(fault)?;
        }
    }
    Ok(faults)
}

fn has_faults(nesting: &[StandingLine]) -> bool
    ensures { result ≡ list_any has_fault nesting.now }
{
    nesting.iter().any(|standing| standing.fault.is_some())
}

// The module over lines whose trees are all that there are.
fn put_together(alloc: Global, tree: &mut Tree, rows: &[BlockLine]) -> Result<(), NoMemory>
    requires within { AreNodesOf (length tree.old.nodes) rows.now }
    requires once { HaveAll tree.old (Rows.roots rows.now) }
    requires lines { AreLines (lines_of tree.old (Rows.lines_with_trees rows.now)) }
    ensures module { IfOk result (λ o. HoldsModule (module_lines (rows_of tree.old rows.now)) tree.new) }
    ensures whole { IfOk result (λ o. IsOneTree tree.new) }
{
    let lines = module_lines(alloc, rows)?;
    module_tree(alloc, tree, lines.as_slice())?;
    Ok(())
}

// The tree of a nesting.
fn tree_over(
    alloc: Global,
    lines: &[LogicalLine],
    nesting: &[StandingLine],
) -> Result<Tree, NoMemory>
    ensures { IfOk result (IsTreeOver lines.now nesting.now) }
{
    let mut tree = Tree::new(alloc)?;
    let standing = standing_lines(alloc, lines, nesting, &mut tree)?;
    put_together(alloc, &mut tree, standing.as_slice())?;
    Ok(tree)
}

// The tree of a nesting without error lines, from the lines as they were read.
fn tree_as_read(
    alloc: Global,
    lines: &[LogicalLine],
    nesting: &[StandingLine],
    rows: &[BlockLine],
    read: Tree,
) -> Result<Tree, NoMemory>
    requires within { AreNodesOf (length read.nodes) rows.now }
    requires once { HaveAll read (Rows.roots rows.now) }
    requires standing { AreStanding lines.now nesting.now (rows_of read rows.now) }
    ensures { IfOk result (IsTreeOver lines.now nesting.now) }
{
    let _counts = (lines.len(), nesting.len());
    let mut tree = read;
    put_together(alloc, &mut tree, rows)?;
    Ok(tree)
}

/// The module of a cut text: the trees of the lines of its nesting, put together by headers and columns,
/// and the faults of its error lines. A line is faulty by a token fault, else since no tree spells it,
/// else since it breaks a rule of blocks. `NoMemory` where a node, a name or a list could not be
/// stored. Python 3.12 language reference, sections 2.1.8, 7 and 8.
pub fn blocks(alloc: Global, cut: &Cut) -> Result<Module, NoMemory>
    ensures { IfOk result (IsModule cut.now.lines) }
{
    let lines = cut.lines.as_slice();
    let mut read = Tree::new(alloc)?;
    let rows = block_lines(alloc, lines, &mut read)?;
    let nested = nesting(alloc, &read, rows.as_slice())?;
    let faults = line_faults(alloc, lines, nested.as_slice())?;
    if has_faults(nested.as_slice()) {
        let tree = tree_over(alloc, lines, nested.as_slice())?;
        return Ok(Module { tree, faults });
    }
    // All lines stand, so their trees need not be read again.
    faultless_nesting();
    let tree = tree_as_read(alloc, lines, nested.as_slice(), rows.as_slice(), read)?;
    Ok(Module { tree, faults })
}
