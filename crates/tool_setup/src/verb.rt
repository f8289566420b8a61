//! The first word of a command.
ghost use Rattle.std.specs.Prelude.{◌≡◌};
ghost use Rattle.tool_setup.specs.Verbs.{verb_of};

/// What a first word names.
#[derive(Clone, Copy, Debug, PartialEq, Eq)]
pub enum Verb {
    Flatten,
    Info,
    Stack,
    Create,
    Grow,
    Read,
    Write,
    Zero,
    Commit,
    Sweep,
    Make,
    Export,
}

/// What a first word names, None where it is no command's name.
#[tactic(auto, unfolding(crate::specs::Verbs::verb_of))]
pub fn read_verb(word: &str) -> Option<Verb>
    ensures { result ≡ verb_of word.now }
{
    match word {
        "flatten" => Some(Verb::Flatten),
        "info" => Some(Verb::Info),
        "stack" => Some(Verb::Stack),
        "create" => Some(Verb::Create),
        "grow" => Some(Verb::Grow),
        "read" => Some(Verb::Read),
        "write" => Some(Verb::Write),
        "zero" => Some(Verb::Zero),
        "commit" => Some(Verb::Commit),
        "sweep" => Some(Verb::Sweep),
        "make" => Some(Verb::Make),
        "export" => Some(Verb::Export),
        _ => None,
    }
}
