ghost use Rattle.std.specs.Prelude.{◌≡◌, ◌+◌, ◌++◌};

/// Two pieces of a message, one after the other.
pub fn join<const A: usize, const B: usize, const C: usize>(
    front: [u8; A],
    back: [u8; B],
) -> [u8; C]
    requires { A + B ≡ C }
    ensures { result ≡ front.entry ++ back.entry }
{
    let mut both = [0; C];
    let whole = &mut both[..];
    let (left, right) = whole.split_at_mut(A);
    left.copy_from_slice(&front);
    right.copy_from_slice(&back);
    both
}
