ghost use Rattle.std.specs.Prelude.{ℕ, List};
ghost use Rattle.seg_mapping.specs.declared.Row.{Row};
ghost use Rattle.lsmt_header.specs.declared.head.Head.{Head};
ghost use Rattle.flat_image.specs.Sheets.{Cell};
ghost use Rattle.flat_image.specs.LayerFiles.{LayerFile};
ghost use Rattle.flat_image.specs.CanonicalLaws.{FileIsLayer, HeadStands, StretchesAreLongest, JoinedAreLongest, FewRows, AddsTwo, RowsMakeFew};
ghost use Rattle.flat_image.specs.Base.{fresh, HasFewStretches};
ghost use Rattle.flat_image.specs.History.{History};
ghost use Rattle.flat_image.specs.CommitLaws.{CommitIsImage, OpenCommitIsImage};
ghost use Rattle.flat_image.specs.HistoryLaws.{SizeIsLast, SizeRises, TopIsSinceFreeze, UsedIsSum, FreezeTakesTop, FrozenStays, SealAddsFile, KeptIsPlace, KeptReaches, LeavesNow, SheetsBecomeLayers, SealedStands, BaseStays, AfterIsImage, BaseIsImage, ReadsLayer};

use crate::base::Base;

/// What the definitions along a history come to, in other words.
pub fn history_laws()
    ensures size { (base : Base) (history : History) → SizeIsLast base history }
    ensures rises { (base : Base) (history : History) → SizeRises base history }
    ensures top { (base : Base) (history : History) → TopIsSinceFreeze base history }
    ensures used { (base : Base) (history : History) → UsedIsSum base history }
    ensures freeze { (base : Base) (history : History) → FreezeTakesTop base history }
    ensures frozen { (base : Base) (history : History) → FrozenStays base history }
    ensures seal { (base : Base) (history : History) → SealAddsFile base history }
    ensures kept { (history : History) → KeptIsPlace history }
    ensures left { (history front : History) → KeptReaches history front }
    ensures crash { (base : Base) (history : History) → LeavesNow base history }
    ensures layer { (base : Base) → SheetsBecomeLayers base }
    ensures stands { (base : Base) → SealedStands base }
    ensures base { (base : Base) (history : History) → BaseStays base history }
    ensures image { (base : Base) (history : History) → AfterIsImage base history }
    ensures commit { (base : Base) (front : History) → CommitIsImage base front }
    ensures open_commit { (base : Base) → OpenCommitIsImage base }
    ensures fresh { (n : ℕ) (lowers : List (List ℕ)) → HasFewStretches (fresh n lowers) }
    ensures whole { (base : Base) → BaseIsImage base }
    ensures read { (file : List ℕ) (head : Head) (sheet : List Cell)
        → LayerFile file head sheet → ReadsLayer file head sheet }
{}

/// What the canonical file of a sheet is.
pub fn canonical_laws()
    ensures file { (n : ℕ) (uuid parent : List ℕ) (below : ℕ) (sheet : List Cell)
        → FileIsLayer n uuid parent below sheet }
    ensures stands { (uuid parent : List ℕ) (below : ℕ) (sheet : List Cell) → HeadStands uuid parent below sheet }
    ensures runs { (sheet : List Cell) → StretchesAreLongest sheet }
    ensures joined { (sheet : List Cell) → JoinedAreLongest sheet }
    ensures rows { (sheet : List Cell) → FewRows sheet }
    ensures change { (sheet : List Cell) → AddsTwo sheet }
    ensures painted { (file : List ℕ) (n : ℕ) (rows : List Row) → RowsMakeFew file n rows }
{}
