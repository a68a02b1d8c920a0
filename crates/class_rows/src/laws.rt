//! What follows from the rule of C3. Each function does nothing, and its contract is a law.
ghost use Rattle.class_rows.specs.Laws.{OneMerge, MergeKeeps, RowsKeep, OneTable};

/// No lists have two merges.
pub fn one_merge()
    ensures { OneMerge }
{}

/// A merge keeps the order of each list.
pub fn merge_keeps()
    ensures { MergeKeeps }
{}

/// The order of a class that has one keeps the order of each base, and that of the bases.
pub fn rows_keep()
    ensures { RowsKeep }
{}

/// No class statements have two tables of rows that tell different things.
pub fn one_table()
    ensures { OneTable }
{}
