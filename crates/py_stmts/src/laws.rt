//! What follows from what a text's module is. The functions do nothing, and their contracts are laws.
ghost use Rattle.py_stmts.specs.Laws.{OneModule, FaultsExactly, ErrorLinesTold, FaultlessModule};

use crate::lines::one_line_tree;
use py_blocks::laws::{
    faultless_exactly, faultless_nesting, faultless_read, nesting_within, one_nesting,
};
use py_modules::laws::one_module_tree;

/// No text's lines have two modules: they have the same faults, and the same tree.
pub fn one_module()
    ensures { OneModule }
{
    one_line_tree();
    one_nesting();
    one_module_tree();
}

/// Faults are told exactly where a line is faulty.
pub fn faults_exactly()
    ensures { FaultsExactly }
{
    one_line_tree();
    nesting_within();
    faultless_exactly();
}

/// The error lines that the tree prints have the spans of the faults, in their order.
pub fn error_lines_told()
    ensures { ErrorLinesTold }
{}

/// Where no fault is told, the nesting is that of all lines as they are written, each line has a tree,
/// and the text's tree is the module of these.
pub fn faultless_module()
    ensures { FaultlessModule }
{
    one_line_tree();
    nesting_within();
    faultless_nesting();
    faultless_exactly();
    faultless_read();
}
