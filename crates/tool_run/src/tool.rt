//! The top call: what the words ask for, and how a refusal is told.
ghost use Rattle.std.specs.Prelude.{◌≡◌, ◌≢◌, ◌^◌, ◌<◌, ◌≤◌, ◌⊎◌, map, string_bytes, None, Some, IfErr, IfOk, IfSome, IsErrOf, IsSome, OnOk};
ghost use Rattle.sector_extent.specs.Causes.{Charges};
ghost use Rattle.layer_commands.specs.declared.refusal.Refusal.TheVariants as refused;
ghost use Rattle.layer_commands.specs.Texts.{line_of};
ghost use Rattle.layer_commands.specs.Ports.{TakesAtMost, notes_of, ports_of};
ghost use Rattle.layer_commands.specs.Causes.{IsMissing, IsNoted, most_taken};
ghost use Rattle.image_commands.specs.declared.refusal.ImageRefusal.TheVariants.{Other};
ghost use Rattle.image_commands.specs.ImageTexts.{image_text};
ghost use Rattle.image_commands.specs.Images.{disk_port};
ghost use Rattle.image_make.specs.Making.{MakesImage};
ghost use Rattle.tool_run.specs.Runs.{asked, moment, most_of, AllCharged, AreMissing, Fails, IsComplete, IsImageComplete};
ghost use Rattle.tool_run.specs.Runs.{IsRun, MakeRefused, RunFails, RunSucceeds, Succeeds, WordsFail};

use block_disk::Disk;
use byte_ports::{Sink, Source};
use image_commands::{
    ImageRefusal, as_command, commit_image, create_image, grow_image, push_image_refusal,
    read_image, sweep_image, write_image, zero_image,
};
use image_make::make_drawn;
use layer_commands::{Line, Refusal, run_layers};
use layer_shelf::Shelf;
use std::alloc::Global;
use tool_setup::{Command, WordList, WordsFault, read_words};

/// How a run ends: 0 where it did what the words ask for, else 2 to 6.
#[derive(Clone, Copy, Debug, PartialEq, Eq)]
pub struct Status {
    pub code: u8,
}

// Makes an image by acts that are drawn of the seed.
fn make_image<B: Sink, D: Disk>(
    alloc: Global,
    seed: u64,
    acts: u64,
    disk: D,
    out: &mut B,
) -> (Result<(), ImageRefusal>, D)
    requires seed { seed < 2 ^ 31 }
    requires acts { acts ≤ 100000 }
    ensures done { OnOk result.0 (MakesImage seed acts (B.written out.old) (B.written out.new)
        (disk_port D.Disk disk) (disk_port D.Disk result.1)) }
    ensures refused { IfErr result.0 (MakeRefused seed acts (B.faults out.old) (B.faults out.new)
        (B.written out.old) (B.written out.new) (disk_port D.Disk disk) (disk_port D.Disk result.1)) }
    ensures disk_cause { Charges D.faults disk result.1 (IsErrOf result.0 (Other refused.DiskFault)) }
    ensures sink_cause { Charges B.faults out.old out.new (IsErrOf result.0 (Other refused.SinkFault)) }
{
    let (answer, disk) = make_drawn(alloc, seed, acts, disk, out);
    (as_command(answer), disk)
}

// Runs a command.
fn run_command<A: Source, B: Sink, D: Disk, S: Shelf>(
    alloc: Global,
    command: Command,
    source: &mut A,
    out: &mut B,
    disk: D,
    shelf: &mut S,
) -> (Result<(), ImageRefusal>, D)
    requires { IsRun command }
    ensures done { OnOk result.0 (Succeeds command
        (ports_of A.Source B.Sink S.Shelf source.old out.old shelf.old)
        (ports_of A.Source B.Sink S.Shelf source.new out.new shelf.new)
        (disk_port D.Disk disk) (disk_port D.Disk result.1)) }
    ensures refused { IfErr result.0 (Fails command
        (ports_of A.Source B.Sink S.Shelf source.old out.old shelf.old)
        (ports_of A.Source B.Sink S.Shelf source.new out.new shelf.new)
        (disk_port D.Disk disk) (disk_port D.Disk result.1)) }
    ensures charged { AllCharged
        (ports_of A.Source B.Sink S.Shelf source.old out.old shelf.old)
        (ports_of A.Source B.Sink S.Shelf source.new out.new shelf.new)
        (disk_port D.Disk disk) (disk_port D.Disk result.1) (λ refusal. IsErrOf result.0 (Other refusal)) }
    ensures missing { IsMissing command (S.count shelf.old)
        → IsErrOf result.0 (Other refused.NoLayer) × (shelf.new ≡ shelf.old) }
    ensures within { TakesAtMost (A.left source.old) (A.left source.new) (most_taken command) }
{
    match command {
        Command::Create(asked) => create_image(alloc, asked, shelf, disk, out),
        Command::Grow(sectors) => grow_image(alloc, sectors, shelf, disk, out),
        Command::Read { at, count } => read_image(alloc, at, count, shelf, disk, out),
        Command::Write { at } => write_image(alloc, at, source, shelf, disk, out),
        Command::Zero { at, count } => zero_image(alloc, at, count, shelf, disk, out),
        Command::Flatten { .. } | Command::Info(_) | Command::Stack => {
            let answer = run_layers(alloc, command, source, out, shelf);
            (as_command(answer), disk)
        }
        Command::Commit(uuid) => commit_image(alloc, uuid, shelf, disk, out),
        Command::Sweep => sweep_image(alloc, shelf, disk, out),
        Command::Make { seed, acts } => make_image(alloc, seed, acts, disk, out),
        Command::Export { .. } => unreachable!(),
    }
}

// The command that the words are. A command that is not run here is a faulty command line.
fn read_command(alloc: Global, words: &WordList) -> Result<Command, Refusal>
    ensures ok { IfOk result (λ command. (asked (map string_bytes words.now) ≡ Some command) × IsRun command) }
    ensures err { IfErr result (λ refusal. (refusal ≡ refused.Memory)
        ⊎ ((refusal ≡ refused.Usage) × (asked (map string_bytes words.now) ≡ None))) }
{
    match read_words(alloc, words) {
        Ok(command) => match command {
            Command::Export { .. } => Err(Refusal::Usage),
            Command::Flatten { .. }
            | Command::Info(_)
            | Command::Stack
            | Command::Create(_)
            | Command::Grow(_)
            | Command::Read { .. }
            | Command::Write { .. }
            | Command::Zero { .. }
            | Command::Commit(_)
            | Command::Sweep
            | Command::Make { .. } => Ok(command),
        },
        Err(WordsFault::Memory) => Err(Refusal::Memory),
        Err(_) => Err(Refusal::Usage),
    }
}

// Runs the command that the words are.
fn run_words<A: Source, B: Sink, D: Disk, S: Shelf>(
    alloc: Global,
    words: &WordList,
    source: &mut A,
    out: &mut B,
    disk: D,
    shelf: &mut S,
) -> (Result<(), ImageRefusal>, D)
    ensures done { OnOk result.0 (IfSome (asked (map string_bytes words.now)) (λ command. Succeeds command
        (ports_of A.Source B.Sink S.Shelf source.old out.old shelf.old)
        (ports_of A.Source B.Sink S.Shelf source.new out.new shelf.new)
        (disk_port D.Disk disk) (disk_port D.Disk result.1))) }
    ensures some { OnOk result.0 (IsSome (asked (map string_bytes words.now))) }
    ensures refused { IfErr result.0 (WordsFail (asked (map string_bytes words.now))
        (ports_of A.Source B.Sink S.Shelf source.old out.old shelf.old)
        (ports_of A.Source B.Sink S.Shelf source.new out.new shelf.new)
        (disk_port D.Disk disk) (disk_port D.Disk result.1)) }
    ensures charged { AllCharged
        (ports_of A.Source B.Sink S.Shelf source.old out.old shelf.old)
        (ports_of A.Source B.Sink S.Shelf source.new out.new shelf.new)
        (disk_port D.Disk disk) (disk_port D.Disk result.1) (λ refusal. IsErrOf result.0 (Other refusal)) }
    ensures missing { AreMissing (asked (map string_bytes words.now)) (S.count shelf.old)
        → (IsErrOf result.0 (Other refused.NoLayer) ⊎ IsErrOf result.0 (Other refused.Memory))
        × (shelf.new ≡ shelf.old) }
    ensures within { TakesAtMost (A.left source.old) (A.left source.new)
        (most_of (asked (map string_bytes words.now))) }
{
    match read_command(alloc, words) {
        Ok(command) => run_command(alloc, command, source, out, disk, shelf),
        Err(refusal) => (Err(ImageRefusal::Other(refusal)), disk),
    }
}

/// Writes the line of a refusal with one call, and takes no memory for it.
pub fn refuse<C: Sink>(refusal: ImageRefusal, notes: &mut C)
    ensures { IsNoted (notes_of C.Sink notes.old) (notes_of C.Sink notes.new) (line_of (image_text refusal)) }
{
    let mut line = Line::new();
    line.push_str("refused: ");
    push_image_refusal(&mut line, refusal);
    line.push_str("\n");
    let _ = notes.write_all(line.as_str().as_bytes());
}

/// Does what the words ask for. What it prints goes to `out`; a refusal is one line of `notes` and a
/// status other than 0. The disk is handed back.
pub fn run_tool<A: Source, B: Sink, C: Sink, D: Disk, S: Shelf>(
    alloc: Global,
    words: &WordList,
    source: &mut A,
    out: &mut B,
    notes: &mut C,
    disk: D,
    shelf: &mut S,
) -> (Status, D)
    ensures usage { result.0.code ≡ 2 → asked (map string_bytes words.now) ≡ None }
    ensures no_command { asked (map string_bytes words.now) ≡ None → (result.0.code ≡ 2) ⊎ (result.0.code ≡ 5) }
    ensures done { result.0.code ≡ 0 → RunSucceeds (asked (map string_bytes words.now))
        (moment A.Source B.Sink C.Sink D.Disk S.Shelf source.old out.old notes.old disk shelf.old)
        (moment A.Source B.Sink C.Sink D.Disk S.Shelf source.new out.new notes.new result.1 shelf.new) }
    ensures refused { result.0.code ≢ 0 → RunFails (asked (map string_bytes words.now))
        (moment A.Source B.Sink C.Sink D.Disk S.Shelf source.old out.old notes.old disk shelf.old)
        (moment A.Source B.Sink C.Sink D.Disk S.Shelf source.new out.new notes.new result.1 shelf.new) result.0.code }
    ensures missing { AreMissing (asked (map string_bytes words.now)) (S.count shelf.old)
        → ((result.0.code ≡ 6) ⊎ (result.0.code ≡ 5)) × (shelf.new ≡ shelf.old) }
    ensures within { TakesAtMost (A.left source.old) (A.left source.new)
        (most_of (asked (map string_bytes words.now))) }
    ensures complete { IsComplete (asked (map string_bytes words.now))
        (ports_of A.Source B.Sink S.Shelf source.old out.old shelf.old)
        (ports_of A.Source B.Sink S.Shelf source.new out.new shelf.new) result.0.code }
    ensures complete_image { IsImageComplete (asked (map string_bytes words.now))
        (moment A.Source B.Sink C.Sink D.Disk S.Shelf source.old out.old notes.old disk shelf.old)
        (moment A.Source B.Sink C.Sink D.Disk S.Shelf source.new out.new notes.new result.1 shelf.new) result.0.code }
{
    let (answer, disk) = run_words(alloc, words, source, out, disk, shelf);
    match answer {
        Ok(()) => (Status { code: 0 }, disk),
        Err(refusal) => {
            refuse(refusal, notes);
            (
                Status {
                    code: refusal.code(),
                },
                disk,
            )
        }
    }
}
