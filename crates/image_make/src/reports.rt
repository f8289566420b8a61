//! The lines that are printed.
ghost use Rattle.std.specs.Prelude.{◌≡◌, string_bytes, IfOk};
ghost use Rattle.image_make.specs.Lines.{changes_text, image_line, made_lines, others_text};

use crate::sums::Sums;
use crate::tally::Tally;
use std::alloc::{AllocError, Global};

fn changes_report(alloc: Global, acts: u32, writes: u32, zeros: u32) -> Result<String, AllocError>
    ensures { IfOk result (λ text. string_bytes text ≡ changes_text acts writes zeros) }
{
    format!(in alloc; "made acts {acts} writes {writes} zeros {zeros}")
}

fn others_report(
    alloc: Global,
    flushes: u32,
    commits: u32,
    refused: u32,
) -> Result<String, AllocError>
    ensures { IfOk result (λ text. string_bytes text ≡ others_text flushes commits refused) }
{
    format!(in alloc; " flushes {flushes} commits {commits} refused {refused}\n")
}

fn image_report(alloc: Global, filled: u32, sum: u32) -> Result<String, AllocError>
    ensures { IfOk result (λ text. string_bytes text ≡ image_line filled sum) }
{
    format!(in alloc; "image sectors 4096 filled {filled} sum {sum}\n")
}

/// The lines on so many acts and on the image that they made.
pub fn made_report(alloc: Global, acts: u32, tally: Tally, sums: Sums) -> Result<String, AllocError>
    ensures { IfOk result (λ text. string_bytes text ≡ made_lines acts tally sums.filled sums.sum) }
{
    let mut text = changes_report(alloc, acts, tally.writes, tally.zeros)?;
    let others = others_report(alloc, tally.flushes, tally.commits, tally.refused)?;
    let image = image_report(alloc, sums.filled, sums.sum)?;
    text.push_str(others.as_str())?;
    text.push_str(image.as_str())?;
    Ok(text)
}
