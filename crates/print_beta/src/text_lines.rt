//! The printed text of beta functions, line by line.
ghost use Rattle.std.specs.Prelude.{◌≡◌, ◌++◌, OnOk, IfOk, codes, decimal};
ghost use Rattle.print_beta.specs.ComponentText.{component_text};
ghost use Rattle.print_beta.specs.Text.{name_text, terms_text, line_text, head_text, betas_text};

use crate::sums::{Notation, push_poly};
use crate::text::{push_legs, push_name, push_number};
use beta_poly::Poly;
use derive_core::{Betas, Line, Target};
use frac128::ByteList;
use gauge_check::Component;
use model_core::Name;
use std::alloc::{AllocError, Global};

/// Adds the line of a beta function.
fn push_beta(
    alloc: Global,
    text: &mut ByteList,
    targets: &[Target],
    symbol: u16,
    loops: u32,
    value: &Poly,
) -> Result<(), AllocError>
    ensures { OnOk result (text.new ≡ text.old ++ (codes "beta" ++ decimal loops ++ codes " " ++ name_text targets.now symbol ++ codes " = " ++ terms_text targets.now value.now.0 ++ codes "\n")) }
{
    text.extend(b"beta")?;
    push_number(alloc, text, u128::from(loops))?;
    text.extend(b" ")?;
    push_name(alloc, text, targets, symbol)?;
    text.extend(b" = ")?;
    push_poly(alloc, text, Notation::Text, targets, value)?;
    text.extend(b"\n")
}

/// Adds a block's tokens and a component of it.
fn push_place(
    text: &mut ByteList,
    block: &Component,
    component: &Component,
) -> Result<(), AllocError>
    ensures { OnOk result (text.new ≡ text.old ++ (component_text block.now ++ codes " at " ++ component_text component.now)) }
{
    push_legs(text, block)?;
    text.extend(b" at ")?;
    push_legs(text, component)
}

/// Adds a line.
pub fn push_line(
    alloc: Global,
    text: &mut ByteList,
    targets: &[Target],
    line: &Line,
) -> Result<(), AllocError>
    ensures { OnOk result (text.new ≡ text.old ++ line_text targets.now line.now) }
{
    match line {
        Line::Beta {
            symbol,
            loops,
            value,
        } => push_beta(alloc, text, targets, *symbol, *loops, value),
        Line::NotSpanned { block, component } => {
            text.extend(b"open ")?;
            push_place(text, block, component)?;
            text.extend(b"\n")
        }
        Line::Generated {
            block,
            component,
            value,
        } => {
            text.extend(b"generated ")?;
            push_place(text, block, component)?;
            text.extend(b" = ")?;
            push_poly(alloc, text, Notation::Text, targets, value)?;
            text.extend(b"\n")
        }
    }
}

/// The two first lines.
fn head_of(alloc: Global, name: &Name, loops: u32) -> Result<ByteList, AllocError>
    ensures { IfOk result (λ text. text ≡ head_text name.now loops) }
{
    let mut text = ByteList::new(alloc);
    text.extend(b"model ")?;
    text.extend(name.as_bytes())?;
    text.extend(b"\nloops ")?;
    push_number(alloc, &mut text, u128::from(loops))?;
    text.extend(b"\n")?;
    Ok(text)
}

/// The printed text of what is derived. A symbol whose id has no target is printed as nothing.
pub fn print_text(alloc: Global, betas: &Betas) -> Result<ByteList, AllocError>
    ensures { IfOk result (λ text. text ≡ betas_text betas.now) }
{
    let mut text = head_of(alloc, &betas.model, betas.loops)?;
    for line in betas.lines.as_slice() {
        push_line(alloc, &mut text, betas.targets.as_slice(), line)?;
    }
    Ok(text)
}
