//! What follows from what the lines without faulty ones are. The functions do nothing, and their contracts are
//! laws.
ghost use Rattle.py_blocks.specs.Laws.{EachSettles, SettlesOnce, NoneIsFaulty, FaultlessStay, FaultlessEnd, FaultlessNesting, OneNesting, NestingWithin, FaultlessExactly, FaultlessRead, FaultsInOrder, NearestIsOpen};

/// Every list of lines comes to one without faulty lines.
pub fn each_settles()
    ensures { EachSettles }
{}

/// It comes to one alone.
pub fn settles_once()
    ensures { SettlesOnce }
{}

/// In it no line is faulty.
pub fn none_is_faulty()
    ensures { NoneIsFaulty }
{}

/// Lines of which none is faulty stay as they are.
pub fn faultless_stay()
    ensures { FaultlessStay }
{}

/// Where no error line is left, all lines are.
pub fn faultless_end()
    ensures { FaultlessEnd }
{}

/// A nesting without error lines is the lines of the text as they are written.
pub fn faultless_nesting()
    ensures { FaultlessNesting }
{}

/// No text has two nestings.
pub fn one_nesting()
    ensures { OneNesting }
{}

/// Each line of a nesting is one of the text's.
pub fn nesting_within()
    ensures { NestingWithin }
{}

/// A nesting has no error line exactly where no line of the text is faulty.
pub fn faultless_exactly()
    ensures { FaultlessExactly }
{}

/// Where no line is faulty, each has a tree and no token fault.
pub fn faultless_read()
    ensures { FaultlessRead }
{}

/// Faults come in the order of the text.
pub fn faults_in_order()
    ensures { FaultsInOrder }
{}

/// A line goes on with the innermost open block that isn't to its right.
pub fn nearest_is_open()
    ensures { NearestIsOpen }
{}
