//! Where roles stand in the run of a network. Each function is a law: it does nothing, and whoever
//! calls it knows what its contract says.

ghost use Rattle.stage.specs.Laws.{OthersLeaveAlone, DeedsMove};

/// A law: the entries of others leave a role where it stood. So what a role knew when it last
/// looked is still true of itself when it enters again. It does nothing.
pub fn others_leave_alone()
    ensures { OthersLeaveAlone }
{}

/// A law: after its own deed a role stands where its step took it. It does nothing.
pub fn deeds_move()
    ensures { DeedsMove }
{}
