ghost use Rattle.std.specs.Prelude.{false};
ghost use Rattle.flat_image.specs.History.{History};
ghost use Rattle.nbd_session.specs.declared.export.Export.{Export};
ghost use Rattle.nbd_session.specs.declared.served.Served.{Served};
ghost use Rattle.nbd_session.specs.Talks.{talk};
ghost use Rattle.nbd_session.specs.Sessions.{Ends, Serves};
ghost use Rattle.image_read.specs.Headline.{Headline};

use nbd_session::session_laws;

/// What `serve_connection` over a `Reader` comes to: however connections, control commands, fetches and
/// commit steps interleave, the bytes that a connection is sent are the NBD replies to the bytes it
/// sent, each successful read giving the flat image at its place in one history that begins with all
/// the connection had seen and has each of its calls once.
pub fn headline_law()
    ensures { (export : Export) (old new : Ends) (end : Served) (history : History)
        → Serves false (talk export old.port.base.sectors) old new end → Headline export old new end history }
{
    session_laws();
}
