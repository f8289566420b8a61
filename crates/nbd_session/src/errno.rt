ghost use Rattle.std.specs.Prelude.{◌≡◌};
ghost use Rattle.nbd_session.specs.Replies.{errno_number, errno_of};

use flat_image::PortFault;

/// The errors that a reply may have.
#[derive(Clone, Copy, Debug, PartialEq, Eq)]
pub enum Errno {
    /// EPERM
    Permission,
    /// EIO
    InputOutput,
    /// ENOMEM
    Memory,
    /// EINVAL
    Invalid,
    /// ENOSPC
    Space,
    /// ESHUTDOWN
    Shutdown,
}

// The number of an error.
pub(crate) fn errno_number(errno: Errno) -> u32
    ensures { result ≡ errno_number errno }
{
    match errno {
        Errno::Permission => 1,
        Errno::InputOutput => 5,
        Errno::Memory => 12,
        Errno::Invalid => 22,
        Errno::Space => 28,
        Errno::Shutdown => 108,
    }
}

// What is answered where the port refuses.
pub(crate) fn errno_of(fault: PortFault) -> Errno
    ensures { result ≡ errno_of fault }
{
    match fault {
        PortFault::Memory => Errno::Memory,
        PortFault::Failed => Errno::InputOutput,
        PortFault::Full { .. } => Errno::Space,
        PortFault::Worn => Errno::Shutdown,
    }
}
