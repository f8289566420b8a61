//! What the clauses of an export come to.
ghost use Rattle.std.specs.Prelude.{ℕ, ◌+◌, ◌≤◌, Option};
ghost use Rattle.flat_image.specs.Entries.{calls_by};
ghost use Rattle.flat_image.specs.History.{History, fault_count};
ghost use Rattle.nbd_session.specs.declared.served.Served.{Served};
ghost use Rattle.lane_serve.specs.declared.lane.LaneEnd.{LaneEnd};
ghost use Rattle.lane_serve.specs.Listeners.{Listening};
ghost use Rattle.lane_serve.specs.Lanes.{Ways};
ghost use Rattle.lane_export.specs.Lanes.{Member, LaneIn};
ghost use Rattle.lane_export.specs.Told.{eio_count};

/// A lane of an export tells its connections EIO at most as often as it has Fault entries of its own and
/// its shelf counted faults meanwhile.
pub fn lane_law<A, B>()
    ensures eio { (w : Ways A B) (history : History) (old : Member A B) (told : Option (Listening A B Served))
        (faults shelf connections : ℕ) (end : LaneEnd)
        (lane : LaneIn w history old told faults shelf connections end)
        → eio_count w lane.ran.served old.port lane.port lane.ran.are + old.port.faults
        ≤ fault_count (calls_by old.port.number history) + shelf }
{}
