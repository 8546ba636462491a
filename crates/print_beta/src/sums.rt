//! Polynomials, in the notation of the text and in that of LaTeX.
ghost use Rattle.std.specs.Prelude.{◌≡◌, ◌++◌, OnOk, drop, unsigned_abs};
ghost use Rattle.std.specs.List.{flat_map};
ghost use Rattle.print_beta.specs.Styles.{style_of};
ghost use Rattle.print_beta.specs.Sums.{next_factor, size_text, unsigned_text, sign_text, joint_text, first_term, next_term, sum_text};

use crate::latex::{push_latex_factor, push_latex_ratio};
use crate::text::{push_factor, push_ratio};
use beta_poly::{Mono, Poly, Symbol};
use derive_core::Target;
use frac128::{ByteList, Frac};
use std::alloc::{AllocError, Global};

/// How the parts of a term are written.
#[derive(Clone, Copy)]
pub enum Notation {
    Text,
    Latex,
}

/// Adds what stands between two parts of a term.
fn push_times(text: &mut ByteList, notation: Notation) -> Result<(), AllocError>
    ensures { OnOk result (text.new ≡ text.old ++ (style_of notation).times) }
{
    match notation {
        Notation::Text => text.extend(b"*"),
        Notation::Latex => text.extend(b" "),
    }
}

/// Adds a positive fraction.
fn push_fraction(
    alloc: Global,
    text: &mut ByteList,
    notation: Notation,
    num: u128,
    den: u128,
) -> Result<(), AllocError>
    ensures { OnOk result (text.new ≡ text.old ++ (style_of notation).ratio num den) }
{
    match notation {
        Notation::Text => push_ratio(alloc, text, num, den),
        Notation::Latex => push_latex_ratio(alloc, text, num, den),
    }
}

/// Adds a symbol with its power.
fn push_power_of(
    alloc: Global,
    text: &mut ByteList,
    notation: Notation,
    targets: &[Target],
    power: &(Symbol, u32),
) -> Result<(), AllocError>
    ensures { OnOk result (text.new ≡ text.old ++ (style_of notation).factor targets.now power.now) }
{
    match notation {
        Notation::Text => push_factor(alloc, text, targets, power),
        Notation::Latex => push_latex_factor(alloc, text, targets, power),
    }
}

/// Adds the factors of a monomial from a place on, each behind another part.
pub fn push_factors_from(
    alloc: Global,
    text: &mut ByteList,
    notation: Notation,
    targets: &[Target],
    mono: &Mono,
    start: usize,
) -> Result<(), AllocError>
    ensures { OnOk result (text.new ≡ text.old ++ flat_map (next_factor (style_of notation) targets.now) (drop start mono.now.0)) }
{
    for place in start..mono.len() {
        push_times(text, notation)?;
        push_power_of(alloc, text, notation, targets, mono.item(place))?;
    }
    Ok(())
}

/// Adds the size of a coefficient before a factor, and nothing where it is 1.
fn push_size(
    alloc: Global,
    text: &mut ByteList,
    notation: Notation,
    num: u128,
    den: u128,
) -> Result<(), AllocError>
    ensures { OnOk result (text.new ≡ text.old ++ size_text (style_of notation) num den) }
{
    if num == 1 && den == 1 {
        return Ok(());
    }
    push_fraction(alloc, text, notation, num, den)?;
    push_times(text, notation)
}

/// Adds a term without its sign.
fn push_unsigned(
    alloc: Global,
    text: &mut ByteList,
    notation: Notation,
    targets: &[Target],
    value: &Frac,
    mono: &Mono,
) -> Result<(), AllocError>
    ensures { OnOk result (text.new ≡ text.old ++ unsigned_text (style_of notation) targets.now value.now mono.now.0) }
{
    let num = value.num().unsigned_abs();
    let den = value.den().unsigned_abs();
    if mono.len() == 0 {
        return push_fraction(alloc, text, notation, num, den);
    }
    push_size(alloc, text, notation, num, den)?;
    push_power_of(alloc, text, notation, targets, mono.item(0))?;
    push_factors_from(alloc, text, notation, targets, mono, 1)
}

/// Adds the sign of a first term.
fn push_sign(text: &mut ByteList, number: i128) -> Result<(), AllocError>
    ensures { OnOk result (text.new ≡ text.old ++ sign_text number) }
{
    if number < 0 {
        return text.extend(b"-");
    }
    Ok(())
}

/// Adds the sign of a later term, with the spaces around it.
fn push_joint(text: &mut ByteList, number: i128) -> Result<(), AllocError>
    ensures { OnOk result (text.new ≡ text.old ++ joint_text number) }
{
    if number < 0 {
        return text.extend(b" - ");
    }
    text.extend(b" + ")
}

/// Adds the first term of a polynomial.
fn push_first_term(
    alloc: Global,
    text: &mut ByteList,
    notation: Notation,
    targets: &[Target],
    term: &(Mono, Frac),
) -> Result<(), AllocError>
    ensures { OnOk result (text.new ≡ text.old ++ first_term (style_of notation) targets.now term.now) }
{
    push_sign(text, term.1.num())?;
    push_unsigned(alloc, text, notation, targets, &term.1, &term.0)
}

/// Adds a later term of a polynomial.
fn push_next_term(
    alloc: Global,
    text: &mut ByteList,
    notation: Notation,
    targets: &[Target],
    term: &(Mono, Frac),
) -> Result<(), AllocError>
    ensures { OnOk result (text.new ≡ text.old ++ next_term (style_of notation) targets.now term.now) }
{
    push_joint(text, term.1.num())?;
    push_unsigned(alloc, text, notation, targets, &term.1, &term.0)
}

/// Adds the terms of a polynomial from a place on.
fn push_terms_from(
    alloc: Global,
    text: &mut ByteList,
    notation: Notation,
    targets: &[Target],
    value: &Poly,
    start: usize,
) -> Result<(), AllocError>
    ensures { OnOk result (text.new ≡ text.old ++ flat_map (next_term (style_of notation) targets.now) (drop start value.now.0)) }
{
    for place in start..value.len() {
        push_next_term(alloc, text, notation, targets, value.item(place))?;
    }
    Ok(())
}

/// Adds a polynomial.
pub fn push_poly(
    alloc: Global,
    text: &mut ByteList,
    notation: Notation,
    targets: &[Target],
    value: &Poly,
) -> Result<(), AllocError>
    ensures { OnOk result (text.new ≡ text.old ++ sum_text (style_of notation) targets.now value.now.0) }
{
    if value.len() == 0 {
        return text.extend(b"0");
    }
    push_first_term(alloc, text, notation, targets, value.item(0))?;
    push_terms_from(alloc, text, notation, targets, value, 1)
}
