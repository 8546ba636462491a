//! The CSV form of what is derived.
ghost use Rattle.std.specs.Prelude.{◌≡◌, ◌++◌, ◌∷◌, [], OnOk, IfOk, map, codes, decimal};
ghost use Rattle.std.specs.List.{flat_map};
ghost use Rattle.csv.specs.Writing.{row_text, default_writer};
ghost use Rattle.print_beta.specs.ComponentText.{component_text};
ghost use Rattle.print_beta.specs.Text.{name_text};
ghost use Rattle.print_beta.specs.Csv.{monomial_text, term_fields, value_fields, line_rows, head_row, csv_text};

use crate::line_text::{LineText, push_component};
use crate::sums::{Notation, push_factors_from};
use crate::text::{push_factor, push_name, push_number};
use beta_poly::{Mono, Poly};
use csv::Writer;
use derive_core::{Betas, Line, Target};
use frac128::{ByteList, Frac};
use gauge_check::Component;
use std::alloc::{AllocError, Global};
use std::marker::Model;

/// The first four fields of a row: its kind, its target, the loops, and the component that it stands at.
#[derive(Drop)]
struct Front {
    kind: ByteList,
    target: ByteList,
    loops: ByteList,
    at: ByteList,
}

impl Model for Front {
    ghost use Rattle.std.specs.Prelude.{ℕ, List, ◌∷◌, []};

    ghost Value = { List (List ℕ) };

    ghost view = { λ s. s.kind ∷ s.target ∷ s.loops ∷ s.at ∷ [] };
}

/// The text of one row. Over a vector a writer fails only where memory runs out, so each of its errors is `AllocError`.
fn row_bytes(alloc: Global, fields: &[&[u8]]) -> Result<Vec<u8>, AllocError>
    ensures { IfOk result (λ v. v.items ≡ row_text default_writer (map (λ f. f.now) fields.now)) }
{
    let mut writer = Writer::from_writer(Vec::new(alloc));
    if writer.write_fields(fields).is_err() {
        return Err(AllocError);
    }
    match writer.into_inner() {
        Ok(text) => Ok(text),
        Err(_) => Err(AllocError),
    }
}

/// Adds a row.
fn push_row(alloc: Global, text: &mut ByteList, fields: &[&[u8]]) -> Result<(), AllocError>
    ensures { OnOk result (text.new ≡ text.old ++ row_text default_writer (map (λ f. f.now) fields.now)) }
{
    let row = row_bytes(alloc, fields)?;
    text.extend(row.as_slice())
}

/// Adds a row: a front, and the three fields of a term.
fn push_fields(
    alloc: Global,
    text: &mut ByteList,
    front: &Front,
    num: &[u8],
    den: &[u8],
    monomial: &[u8],
) -> Result<(), AllocError>
    ensures { OnOk result (text.new ≡ text.old ++ row_text default_writer (front.now ++ num.now ∷ den.now ∷ monomial.now ∷ [])) }
{
    push_row(
        alloc,
        text,
        &[
            front.kind.as_slice(),
            front.target.as_slice(),
            front.loops.as_slice(),
            front.at.as_slice(),
            num,
            den,
            monomial,
        ],
    )
}

/// A monomial: its factors joined by `*`, or `1`.
fn monomial_of(alloc: Global, targets: &[Target], mono: &Mono) -> Result<ByteList, AllocError>
    ensures { IfOk result (λ text. text ≡ monomial_text targets.now mono.now.0) }
{
    let mut text = ByteList::new(alloc);
    if mono.len() == 0 {
        text.extend(b"1")?;
        return Ok(text);
    }
    push_factor(alloc, &mut text, targets, mono.item(0))?;
    push_factors_from(alloc, &mut text, Notation::Text, targets, mono, 1)?;
    Ok(text)
}

/// Adds the row of a term.
fn push_term(
    alloc: Global,
    text: &mut ByteList,
    targets: &[Target],
    front: &Front,
    term: &(Mono, Frac),
) -> Result<(), AllocError>
    ensures { OnOk result (text.new ≡ text.old ++ row_text default_writer (front.now ++ term_fields targets.now term.now)) }
{
    let num = term.1.num().to_string(alloc)?;
    let den = term.1.den().to_string(alloc)?;
    let monomial = monomial_of(alloc, targets, &term.0)?;
    push_fields(
        alloc,
        text,
        front,
        num.as_bytes(),
        den.as_bytes(),
        monomial.as_slice(),
    )
}

/// Adds the rows of a polynomial that isn't zero.
fn push_terms(
    alloc: Global,
    text: &mut ByteList,
    targets: &[Target],
    front: &Front,
    value: &Poly,
) -> Result<(), AllocError>
    ensures { OnOk result (text.new ≡ text.old ++ flat_map (λ e. row_text default_writer (front.now ++ term_fields targets.now e)) value.now.0) }
{
    for place in 0..value.len() {
        push_term(alloc, text, targets, front, value.item(place))?;
    }
    Ok(())
}

/// Adds the rows of a polynomial.
fn push_value(
    alloc: Global,
    text: &mut ByteList,
    targets: &[Target],
    front: &Front,
    value: &Poly,
) -> Result<(), AllocError>
    ensures { OnOk result (text.new ≡ text.old ++ flat_map (row_text default_writer) (map (λ term. front.now ++ term) (value_fields targets.now value.now.0))) }
{
    if value.len() == 0 {
        return push_fields(alloc, text, front, b"0", b"1", b"1");
    }
    push_terms(alloc, text, targets, front, value)
}

/// A list of these bytes.
fn bytes_of(alloc: Global, bytes: &[u8]) -> Result<ByteList, AllocError>
    ensures { IfOk result (λ text. text ≡ bytes.now) }
{
    let mut text = ByteList::new(alloc);
    text.extend(bytes)?;
    Ok(text)
}

/// The text of a component of a block.
fn component_of(alloc: Global, component: &Component) -> Result<ByteList, AllocError>
    ensures { IfOk result (λ text. text ≡ component_text component.now) }
{
    let mut line = LineText::new();
    push_component(&mut line, component);
    bytes_of(alloc, line.as_slice())
}

/// The front of a beta function's rows.
fn beta_front(
    alloc: Global,
    targets: &[Target],
    symbol: u16,
    loops: u32,
) -> Result<Front, AllocError>
    ensures { IfOk result (λ front. front ≡ codes "beta" ∷ name_text targets.now symbol ∷ decimal loops ∷ [] ∷ []) }
{
    let mut target = ByteList::new(alloc);
    push_name(alloc, &mut target, targets, symbol)?;
    let mut digits = ByteList::new(alloc);
    push_number(alloc, &mut digits, u128::from(loops))?;
    Ok(Front {
        kind: bytes_of(alloc, b"beta")?,
        target,
        loops: digits,
        at: ByteList::new(alloc),
    })
}

/// The front of a row at a component of a block, which is always of one loop.
fn block_front(
    alloc: Global,
    kind: &[u8],
    block: &Component,
    component: &Component,
) -> Result<Front, AllocError>
    ensures { IfOk result (λ front. front ≡ kind.now ∷ component_text block.now ∷ codes "1" ∷ component_text component.now ∷ []) }
{
    Ok(Front {
        kind: bytes_of(alloc, kind)?,
        target: component_of(alloc, block)?,
        loops: bytes_of(alloc, b"1")?,
        at: component_of(alloc, component)?,
    })
}

/// Adds the rows of a line.
fn push_line(
    alloc: Global,
    text: &mut ByteList,
    targets: &[Target],
    line: &Line,
) -> Result<(), AllocError>
    ensures { OnOk result (text.new ≡ text.old ++ flat_map (row_text default_writer) (line_rows targets.now line.now)) }
{
    match line {
        Line::Beta {
            symbol,
            loops,
            value,
        } => {
            let front = beta_front(alloc, targets, *symbol, *loops)?;
            push_value(alloc, text, targets, &front, value)
        }
        Line::NotSpanned { block, component } => {
            let front = block_front(alloc, b"open", block, component)?;
            push_fields(alloc, text, &front, b"", b"", b"")
        }
        Line::Generated {
            block,
            component,
            value,
        } => {
            let front = block_front(alloc, b"generated", block, component)?;
            push_value(alloc, text, targets, &front, value)
        }
    }
}

/// Adds the head row, which names the fields.
fn push_head(alloc: Global, text: &mut ByteList) -> Result<(), AllocError>
    ensures { OnOk result (text.new ≡ text.old ++ row_text default_writer head_row) }
{
    push_row(
        alloc,
        text,
        &[
            b"kind".as_slice(),
            b"target".as_slice(),
            b"loops".as_slice(),
            b"at".as_slice(),
            b"num".as_slice(),
            b"den".as_slice(),
            b"monomial".as_slice(),
        ],
    )
}

/// What is derived, in the CSV form: a head row, and then the rows of each line. A symbol whose id has no target is printed
/// as nothing. `AllocError` means that memory ran out, here or in the writer of a row.
pub fn print_csv(alloc: Global, betas: &Betas) -> Result<ByteList, AllocError>
    ensures { IfOk result (λ text. text ≡ csv_text betas.now) }
{
    let mut text = ByteList::new(alloc);
    push_head(alloc, &mut text)?;
    for line in betas.lines.as_slice() {
        push_line(alloc, &mut text, betas.targets.as_slice(), line)?;
    }
    Ok(text)
}
