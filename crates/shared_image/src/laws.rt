ghost use Rattle.std.specs.Prelude.{ℕ, [], ◌∷◌, ◌++◌};
ghost use Rattle.flat_image.specs.declared.base.Base.{Base};
ghost use Rattle.flat_image.specs.declared.act.Act.TheVariants.{Flush};
ghost use Rattle.flat_image.specs.Entries.{entry};
ghost use Rattle.flat_image.specs.History.{History};
ghost use Rattle.image_core.specs.Seen.{seen, StandsFor};
ghost use Rattle.shared_image.specs.Closed.{AreSame, AreKept, StayCommitted};

use block_disk::Disk;
use image_core::Image;

/// Two images that stand for one history over one base are the same to whoever asks them: the one that
/// was shared and closed, and the one on which `run_steps` made the same entries in one thread.
pub fn one_thread_law<D: Disk, E: Disk>(closed: &Image<D>, run: &Image<E>)
    ensures { (base : Base) (history : History) → StandsFor (seen D.Disk closed.now) base history
        → StandsFor (seen E.Disk run.now) base history → AreSame base (seen D.Disk closed.now) (seen E.Disk run.now) }
{
    closed.standing_law();
    run.standing_law();
}

/// Where a flush stands in a history, whoever's it is, all before it is kept.
pub fn acknowledged_law()
    ensures { (before : History) (number : ℕ) → AreKept (before ++ entry number Flush ∷ []) }
{}

/// Committed files stay as they are, whatever comes behind: a snapshot of them holds in every later
/// history.
pub fn committed_law()
    ensures { (base : Base) (history more : History) → StayCommitted base history more }
{}
