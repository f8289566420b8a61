//! What a shared value stands for: a base and the history of acts since.
/// One act of a history, with the number of the caller who did it. Histories are lists of entries.
/// The history of a shared value stands in contracts alone: no entry of it is made when a program
/// runs.
#[derive(Drop)]
pub struct Entry<A> {
    pub number: u64,
    pub act: A,
}

/// A value that stands for a history of acts, which it does not keep.
pub trait Stands {
    ghost use Rattle.std.specs.Prelude.{ℕ, List};
    ghost use Rattle.flat_image.specs.declared.stands.Entry.{Entry};

    /// What one entry did.
    type Act;

    /// What there was before the first entry.
    type Base;

    // The value stands for the base, the number of the first entry, and the history since.
    ghost stands: { Self → Self.Base → ℕ → List (Entry Self.Act) → Type 0 };
}

/// Names a value of type `A` for contracts alone, so that it need not be made: a caller passes
/// `Brand` for it, and its proof picks the value.
pub trait Named<A> {
    ghost it: { A };
}
