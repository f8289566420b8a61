ghost use Rattle.std.specs.Prelude.{List};
ghost use Rattle.flat_image.specs.Ports.{PortState};
ghost use Rattle.control_session.specs.declared.line.Call.{Call};
ghost use Rattle.control_session.specs.Controls.{Answer};
ghost use Rattle.control_session.specs.Sessions.{Fits};
ghost use Rattle.control_session.specs.ControlLaws.{FitsHistory};

/// What the clause of a control comes to: what its answers say of the history that its port saw,
/// and of its count of faults.
pub fn control_laws()
    ensures { (old new : PortState) (calls : List Call) (answers : List Answer)
        → Fits old calls answers new → FitsHistory old answers new }
{}
