ghost use Rattle.std.specs.Prelude.{ℕ, Bool, List};
ghost use Rattle.flat_image.specs.Ports.{PortState};
ghost use Rattle.nbd_session.specs.declared.export.Export.{Export};
ghost use Rattle.nbd_session.specs.declared.served.Served.{Served};
ghost use Rattle.nbd_session.specs.Replies.{Answer};
ghost use Rattle.nbd_session.specs.Talks.{Passed, Rest, talk};
ghost use Rattle.nbd_session.specs.Fits.{Fits};
ghost use Rattle.nbd_session.specs.Sessions.{Ends};
ghost use Rattle.nbd_session.specs.SessionLaws.{FitsHistory};
ghost use Rattle.nbd_session.specs.Completeness.{IsFirm, EndsOrWants, OrderlyAreServed, ToldAreServed};

/// What the clause of a connection comes to, in other words: what its answers say of the history
/// that its port saw, and that a client whose words are in order is served to the end.
pub fn session_laws()
    ensures fits { (takes : Bool) (old new : PortState) (passed : List Passed) (answers : List Answer)
        → Fits takes old passed answers new → FitsHistory takes old passed answers new }
    ensures ends { (takes : Bool) (talk : Rest) (old new : Ends) (end : Served) → EndsOrWants takes talk old new end }
    ensures word { (export : Export) (n : ℕ) → IsFirm (talk export n) }
    ensures complete { (takes : Bool) (export : Export) (n : ℕ) (old new : Ends) (end : Served)
        → OrderlyAreServed takes export n old new end }
    ensures told { (takes : Bool) (export : Export) (n : ℕ) (old new : Ends) (end : Served)
        → ToldAreServed takes export n old new end }
{}
