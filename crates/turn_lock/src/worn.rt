use flat_image::PortFault;

/// The history of a lock has as many entries as it may have: with the number of the first entry,
/// 2^62.
#[derive(Clone, Copy, Debug, PartialEq, Eq)]
pub struct Worn;

impl From<Worn> for PortFault {
    ghost use Rattle.std.specs.Prelude.{◌≡◌};
    ghost use Rattle.flat_image.specs.declared.port_fault.PortFault.TheVariants as fault;

    ghost from_gives = { λ _ given. given ≡ fault.Worn };

    fn from(_worn: Worn) -> PortFault {
        PortFault::Worn
    }
}
