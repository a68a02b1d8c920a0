//! What follows of the graphs of a tree, by numbers. The functions do nothing, and their contracts are laws.
ghost use Rattle.point_graph.specs.Laws.{ListsAreExact, EdgesJoinPoints, LeadsAreEdges, EdgesStayInAGraph, ExitsLeaveOwnPoints, EndsArePoints, PointsHaveOneGraph};

/// The lists of points and of edges have just what the flow says (`IsPoint`, `IsEdge`).
pub fn lists_are_exact()
    ensures { ListsAreExact }
{}

/// Both ends of each edge are points.
pub fn edges_join_points()
    ensures { EdgesJoinPoints }
{}

/// What leads from one point to another by a kind is an edge of the tree.
pub fn leads_are_edges()
    ensures { LeadsAreEdges }
{}

/// Both ends of an edge that leads to no start are points of one graph.
pub fn edges_stay_in_a_graph()
    ensures { EdgesStayInAGraph }
{}

/// The exits of a condition, and those of a case, leave the point of the node that they are named for.
pub fn exits_leave_own_points()
    ensures { ExitsLeaveOwnPoints }
{
    flow_rows::laws::exits_leave_own_points();
}

/// The end of a graph is one of its points.
pub fn ends_are_points()
    ensures { EndsArePoints }
{}

/// Where no point is in two graphs, the graph of a point is the one that has it, so both ends of an edge that leads to
/// no start have one, and a start has that of its own node.
pub fn points_have_one_graph()
    ensures { PointsHaveOneGraph }
{}
