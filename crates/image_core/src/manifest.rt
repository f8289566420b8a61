//! The body of the manifest.
ghost use Rattle.std.specs.Prelude.{◌≡◌, ◌≢◌, ℕ, ◌≤◌, Some, None};
ghost use Rattle.lsmt_header.specs.Blocks.{nil};
ghost use Rattle.image_core.specs.Manifest.{count_said, epoch_said, uuid_said, size_said, format_said, IsWritten};

use byte_fields::FieldWriter;

/// The format of a manifest that is written. The older one is 0.
pub(crate) const FORMAT: u64 = 2;

// The body that says so many committed layers, the epoch of the top, the uuid of the commit in
// progress, and the sectors of the image.
fn body_of(committed: u64, epoch: u64, uuid: &[u8; 16], sectors: u64) -> [u8; 48]
    ensures count { count_said result ≡ committed }
    ensures epoch { epoch_said result ≡ epoch }
    ensures uuid { uuid_said result ≡ uuid.now }
    ensures size { size_said result ≡ sectors }
    ensures format { format_said result ≡ 2 }
{
    let mut body = FieldWriter::new();
    body.put_u64_le(committed);
    body.put_u64_le(epoch);
    body.put_bytes(uuid);
    body.put_u64_le(sectors);
    body.put_u64_le(FORMAT);
    body.finish()
}

// The body of an image of so many sectors with so many committed layers, where no commit is in progress.
pub(crate) fn plain_body(committed: u64, sectors: u64) -> [u8; 48]
    ensures { IsWritten result committed None sectors }
{
    body_of(committed, committed, &[0; 16], sectors)
}

// And where the commit of that uuid is.
pub(crate) fn pending_body(committed: u64, uuid: &[u8; 16], sectors: u64) -> [u8; 48]
    requires few { committed ≤ 255 }
    requires named { uuid.now ≢ nil }
    ensures { IsWritten result committed (Some uuid.now) sectors }
{
    body_of(committed, committed + 1, uuid, sectors)
}
