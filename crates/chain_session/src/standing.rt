// What the parts of a session do is what a trace says.
ghost use Rattle.chain_session.specs.PartsStanding.{EntersAsTraced, LeavesAsTraced, MayEnterTrace, MayLeaveTrace, NewStand, SplitStand};

/// The parts of a session stand for the events of a trace with the replies of its drivers, as the session does, and for its open calls.
/// Parts that keep nothing stand for no events, and those that are split from a session for the events for which that stands. A begin of the trace whose chain isn't refused may enter, and it is judged, told to the drivers
/// and kept as the trace says. The open call of a thread may leave where no chain comes in force, and what is born of it is what the trace says.
pub fn parts_follow_a_trace()
    ensures new { NewStand }
    ensures split { SplitStand }
    ensures may_enter { MayEnterTrace }
    ensures enters { EntersAsTraced }
    ensures may_leave { MayLeaveTrace }
    ensures leaves { LeavesAsTraced }
{}
