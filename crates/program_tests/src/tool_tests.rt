//! Runs of the commands over layers.
use crate::layers::{FIRST, FOURTH, Layer, SECOND, THIRD, files_of, layer_file};
use crate::runs::{Failing, Said, answers, holds, run};
use block_disk::MemDisk;
use std::alloc::Global;
use std::process::Abort;
use std::test::Fail;

// Layers of two sizes that do not go together.
const OLD: Layer = Layer {
    version: 1,
    ..FOURTH
};

const LESS: Layer = Layer {
    sectors: 3,
    rows: &[2, 0, 0, 0, 0, 0, 4, 0, 8, 0, 0, 0, 0, 0, 0, 0],
    ..FOURTH
};

const NEWER: Layer = Layer { version: 3, ..LESS };

const HEAD: &str =
    "layer 0\nuuid 11111111-1111-1111-1111-111111111111\nparent none\nsectors 4\nrows 1\nindex 5120\ntag -\n";

const STACK: &str = "0 11111111-1111-1111-1111-111111111111 sectors 4 rows 1\n\
    1 22222222-2222-2222-2222-222222222222 sectors 4 rows 0\n";

// The words, the layers, the status, and what is said.
type Case = (&'static str, &'static [Layer], u8, Said);

const CASES: [Case; 11] = [
    (
        "flatten",
        &[FIRST, SECOND],
        0,
        Said::Sectors(&[0, 0x61, 0x62, 0]),
    ),
    (
        "flatten",
        &[FIRST, THIRD],
        0,
        Said::Sectors(&[0, 0x61, 0, 0]),
    ),
    (
        "flatten",
        &[SECOND, FIRST],
        3,
        Said::Text("refused: layer 0 parent\n"),
    ),
    ("flatten", &[], 3, Said::Text("refused: stack empty\n")),
    (
        "flatten",
        &[FIRST, FOURTH],
        0,
        Said::Sectors(&[0, 0x61, 0x62, 0, 0, 0x64]),
    ),
    (
        "flatten",
        &[FIRST, OLD],
        3,
        Said::Text("refused: layer 1 size\n"),
    ),
    (
        "flatten",
        &[FIRST, LESS],
        3,
        Said::Text("refused: layer 1 size\n"),
    ),
    (
        "flatten",
        &[FIRST, NEWER],
        3,
        Said::Text("refused: layer 1: bad version 3\n"),
    ),
    ("info 0", &[FIRST, SECOND], 0, Said::Text(HEAD)),
    ("stack", &[FIRST, SECOND], 0, Said::Text(STACK)),
    (
        "info 02",
        &[FIRST, SECOND],
        6,
        Said::Text("refused: no layer\n"),
    ),
];

// Whether a command over layers does what the case says.
fn is_done(alloc: Global, case: Case) -> Result<bool, Fail> {
    let (line, layers, code, said) = case;
    let files = files_of(alloc, layers)?;
    let none = Vec::new(alloc);
    let ran = run(
        alloc,
        MemDisk::new(alloc),
        line,
        none,
        files,
        Failing::Nobody,
    )?;
    Ok(answers(alloc, &ran, code, said)?)
}

fn are_done(rt: &impl Abort, alloc: Global, cases: &[Case]) -> Result<(), Fail> {
    for case in cases {
        holds(rt, is_done(alloc, *case)?, case.0);
    }
    Ok(())
}

#[test]
fn layers_are_flattened_and_told(rt: HostRuntime) -> Result<(), Fail> {
    are_done(&rt, rt.alloc(), &CASES)
}

// Whether a file that is read from the source is flattened to that.
fn is_flattened(alloc: Global, file: Vec<u8>, code: u8, said: Said) -> Result<bool, Fail> {
    let none = Vec::new(alloc);
    let disk = MemDisk::new(alloc);
    let ran = run(alloc, disk, "flatten --stdin", file, none, Failing::Nobody)?;
    Ok(answers(alloc, &ran, code, said)?)
}

#[test]
fn a_layer_from_the_source_is_flattened(rt: HostRuntime) -> Result<(), Fail> {
    let alloc = rt.alloc();
    let first = Said::Sectors(&[0, 0x61, 0x62, 0]);
    holds(
        &rt,
        is_flattened(alloc, layer_file(alloc, FIRST)?, 0, first)?,
        "L1",
    );
    let zeros = Said::Sectors(&[0; 4]);
    holds(
        &rt,
        is_flattened(alloc, layer_file(alloc, THIRD)?, 0, zeros)?,
        "L3",
    );
    Ok(())
}

#[test]
fn a_short_source_is_no_layer(rt: HostRuntime) -> Result<(), Fail> {
    let short = Said::Text("refused: layer 0: short\n");
    for length in [0, 8191] {
        let file = vec![in rt.alloc(); 0; length]?;
        holds(
            &rt,
            is_flattened(rt.alloc(), file, 3, short)?,
            "a short source",
        );
    }
    Ok(())
}
