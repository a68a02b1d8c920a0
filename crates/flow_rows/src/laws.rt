//! What follows from what the edges are. The functions do nothing, and their contracts are laws.
ghost use Rattle.flow_rows.specs.Laws.{ExitsLeaveOwnPoints, EdgesStayInAGraph};

/// The exits of a condition, and those of a case, leave the point of the node that they are named for.
pub fn exits_leave_own_points()
    ensures { ExitsLeaveOwnPoints }
{}

/// Both ends of an edge that leads to no start are points of one graph.
pub fn edges_stay_in_a_graph()
    ensures { EdgesStayInAGraph }
{}
