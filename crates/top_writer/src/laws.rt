//! Laws of calls on a top.
ghost use Rattle.std.specs.Prelude.{◌≡◌, ℕ, ◌+◌, ◌≤◌, List, [], ◌∷◌, ◌++◌, map, false, All, Contains};
ghost use Rattle.sector_extent.specs.declared.extent.Extent.{Extent};
ghost use Rattle.block_disk.specs.Claims.{Quiet};
ghost use Rattle.block_disk.specs.DiskState.{Files, Leaves, Spares};
ghost use Rattle.flat_image.specs.Left.{Stand};
ghost use Rattle.top_writer.specs.declared.top.Top.{Top};
ghost use Rattle.top_writer.specs.Changes.{IsZeroed, IsGrown};
ghost use Rattle.top_writer.specs.Files.{Stored, TopFiles, HeadsAsked, asked_of};
ghost use Rattle.top_writer.specs.Fitting.{TopFits, TopGoes};
ghost use Rattle.top_writer.specs.Runs.{Call, Flushed, becomes, leaves, stand_after, left_after, left_by, IsFlush, AreUnflushed, IsFlushedFront, ShowsFront, FitsAfter, GoesOn};
ghost use Rattle.top_writer.specs.Showing.{ShowsTop};
ghost use Rattle.top_writer.specs.Stands.{with_zero, with_grow, unchanged, as_before, this_too};
ghost use Rattle.top_writer.specs.View.{view_of, epoch_of, sectors_of};

use block_disk::Disk;

/// What a crash may leave after a list of calls, and at each moment of the next one, is the top after
/// a front of the calls that has all before the last flush that answered Ok.
pub fn top_laws()
    ensures left { (s : Stand) (calls : List Call) → All (IsFlushedFront s calls) (left_by s calls) }
    ensures moment { (s : Stand) (calls : List Call)
        → All (IsFlushedFront s calls) (this_too (stand_after s calls) (left_by s calls)) }
    // after a flush that answered Ok, just the top as it stands
    ensures flushed { (s : Stand) (may : List Stand) (calls : List Call)
        → left_after s may (calls ++ Flushed ∷ []) ≡ stand_after s calls ∷ [] }
    // what there was at first, and at each flush, whatever it answered, may be left until the next that answers Ok
    ensures start { (s : Stand) (calls : List Call) → AreUnflushed calls → Contains (left_by s calls) s }
    ensures tried { (s : Stand) (may : List Stand) (front rest : List Call) (call : Call)
        → IsFlush call → AreUnflushed rest
        → Contains (left_after s may (front ++ call ∷ rest)) (stand_after s front) }
    // the files of a top show it in an image of more sectors too, whose others are holes
    ensures grown { (n m : ℕ) (asked : HeadsAsked) (s : Stand) (stored : Stored) → n ≤ m → ShowsTop n asked s stored
        → ShowsTop m (asked_of false asked.parent) (with_grow m s) stored }
{}

/// How the calls go on a disk, from one state of it to another. A zero and a refused one make no call
/// of the disk, and a read changes nothing.
pub fn call_laws<D: Disk>(old: &D, new: &D)
    ensures zeroed { (p q : Top) (extent : Extent) → extent.at + extent.count ≤ sectors_of p
        → IsZeroed (view_of p) extent (view_of q)
        → TopGoes D.tells (D.state old.now) (D.state old.now) p q (with_zero extent.at extent.count) as_before }
    // after a grow to no fewer sectors than before: each top that it was, grown too
    ensures grown { (n sectors : ℕ) (asked : HeadsAsked) (p q : Top) (s : Stand) (may : List Stand)
        → sectors_of p ≤ sectors → IsGrown (view_of p) sectors (view_of q)
        → TopFits D.tells (D.state old.now) n asked p s may
        → TopFits D.tells (D.state old.now) sectors (asked_of false asked.parent) q
        (with_grow sectors s) (map (with_grow sectors) may) }
    ensures refused { (p q : Top) → view_of q ≡ view_of p
        → TopGoes D.tells (D.state old.now) (D.state old.now) p q unchanged as_before }
    ensures read { (p : Top) → Quiet (D.state old.now) (D.state new.now)
        → TopGoes D.tells (D.state old.now) (D.state new.now) p p unchanged as_before }
    // calls on other files
    ensures other { (n : ℕ) (asked : HeadsAsked) (p : Top) (s : Stand) (may : List Stand)
        → Spares (λ f. ¬ TopFiles (epoch_of p) f) (D.state old.now) (D.state new.now)
        → TopFits D.tells (D.state old.now) n asked p s may → TopFits D.tells (D.state new.now) n asked p s may }
    // a crash now, so after a flush that answered Ok with all that was before it
    ensures now { (n : ℕ) (asked : HeadsAsked) (p : Top) (s : Stand) (calls : List Call) (files : Files)
        → FitsAfter D.tells (D.state old.now) n asked p s calls
        → Leaves (D.state old.now) files → ShowsFront (epoch_of p) n asked s calls files }
    // one call more, and a crash at each moment of it
    ensures next { (n : ℕ) (asked : HeadsAsked) (p q : Top) (s : Stand) (calls : List Call) (call : Call)
        → FitsAfter D.tells (D.state old.now) n asked p s calls
        → TopGoes D.tells (D.state old.now) (D.state new.now) p q (becomes call) (leaves call)
        → GoesOn D.tells (D.state old.now) (D.state new.now) n asked p q s calls call }
{}
