//! The answers of one line.
ghost use Rattle.std.specs.Prelude.{◌≡◌, ◌≤◌, ◌++◌, IfOk, OnOk, decimal};
ghost use Rattle.rate_tool.specs.Lines.{accepted_text, count_text, counts_text, stored_text, summary_text, share_of, count_of, line_monomials, monomial_count};

use demo_models::generations;
use derive_core::{Betas, Checked, Line};
use frac128::ByteList;
use model_core::Name;
use print_beta::{LineText, push_number};
use register_core::{NameCount, NameCountList};
use std::alloc::{AllocError, Global};

/// What is written of a model that is accepted.
pub fn print_accepted(alloc: Global, found: &Checked) -> Result<ByteList, AllocError>
    ensures { IfOk result (λ text. text ≡ accepted_text found.now) }
{
    let mut text = ByteList::new(alloc);
    text.extend(b"accepted ")?;
    text.extend(found.name.as_bytes())?;
    text.extend(b"\n")?;
    Ok(text)
}

/// What a line is of.
#[derive(Clone, Copy, Debug, PartialEq, Eq)]
enum LineKind {
    /// A beta function.
    OfBeta,
    /// An open block.
    OfOpen,
    /// A generated block.
    OfGenerated,
}

/// 1 for a line of a kind, and else 0.
fn share_of(kind: LineKind, line: &Line) -> u128
    ensures value { result ≡ share_of kind line.now }
    ensures few { result ≤ 1 }
{
    match (kind, line) {
        (LineKind::OfBeta, Line::Beta { .. }) => 1,
        (LineKind::OfOpen, Line::NotSpanned { .. }) => 1,
        (LineKind::OfGenerated, Line::Generated { .. }) => 1,
        _ => 0,
    }
}

/// How many lines are of a kind.
fn count_of(kind: LineKind, lines: &[Line]) -> u128
    ensures { result ≡ count_of kind lines.now }
{
    let mut count = 0;
    for line in lines {
        count += share_of(kind, line);
    }
    count
}

/// How many monomials a line has, none where it is no line of a beta function.
fn monomials_of(line: &Line) -> usize
    ensures { result ≡ line_monomials line.now }
{
    match line {
        Line::Beta { value, .. } => value.len(),
        Line::NotSpanned { .. } => 0,
        Line::Generated { .. } => 0,
    }
}

/// How many monomials all lines of beta functions have.
fn monomial_count(lines: &[Line]) -> u128
    ensures { result ≡ monomial_count lines.now }
{
    let mut count = 0;
    for line in lines {
        count += monomials_of(line) as u128;
    }
    count
}

/// Adds a word and a number behind it.
fn push_count(
    alloc: Global,
    text: &mut ByteList,
    word: &[u8],
    number: u128,
) -> Result<(), AllocError>
    ensures { OnOk result (text.new ≡ text.old ++ word.now ++ decimal number) }
{
    text.extend(word)?;
    let digits = number.to_string(alloc)?;
    text.extend(digits.as_bytes())
}

/// How much there is of the beta functions of a seed's model.
pub fn print_summary(alloc: Global, seed: u64, betas: &Betas) -> Result<ByteList, AllocError>
    ensures { IfOk result (λ text. text ≡ summary_text seed betas.now) }
{
    let lines = betas.lines.as_slice();
    let generations = generations(seed);
    let mut text = ByteList::new(alloc);
    push_count(alloc, &mut text, b"demo ", u128::from(seed))?;
    push_count(alloc, &mut text, b" generations ", u128::from(generations))?;
    push_count(
        alloc,
        &mut text,
        b" betas ",
        count_of(LineKind::OfBeta, lines),
    )?;
    push_count(
        alloc,
        &mut text,
        b" open ",
        count_of(LineKind::OfOpen, lines),
    )?;
    push_count(
        alloc,
        &mut text,
        b" generated ",
        count_of(LineKind::OfGenerated, lines),
    )?;
    push_count(alloc, &mut text, b" monomials ", monomial_count(lines))?;
    text.extend(b"\n")?;
    Ok(text)
}

/// What is written of a version that was stored. It takes no memory.
pub fn stored_line(name: &Name, version: u32) -> LineText
    ensures { result ≡ stored_text name.now version }
{
    let mut line = LineText::new();
    line.extend(name.as_bytes());
    line.extend(b" ");
    push_number(&mut line, version);
    line.extend(b"\n");
    line
}

/// Adds a name and its number of versions.
fn push_name_count(alloc: Global, text: &mut ByteList, entry: &NameCount) -> Result<(), AllocError>
    ensures { OnOk result (text.new ≡ text.old ++ count_text entry.now) }
{
    text.extend(entry.name.as_bytes())?;
    push_count(alloc, text, b" ", u128::from(entry.count))?;
    text.extend(b"\n")
}

/// What is written of the names and their numbers of versions.
pub fn print_counts(alloc: Global, counts: &NameCountList) -> Result<ByteList, AllocError>
    ensures { IfOk result (λ text. text ≡ counts_text counts.now) }
{
    let mut text = ByteList::new(alloc);
    for entry in counts.as_slice() {
        push_name_count(alloc, &mut text, entry)?;
    }
    Ok(text)
}
