//! Symbols and fractions in LaTeX.
ghost use Rattle.std.specs.Prelude.{◌≡◌, ◌++◌, OnOk};
ghost use Rattle.print_beta.specs.Latex.{latex_entry, latex_target, latex_name, latex_symbol, latex_factor, latex_ratio};

use crate::text::push_number;
use beta_poly::Symbol;
use derive_core::Target;
use frac128::ByteList;
use std::alloc::{AllocError, Global};

/// Adds the row and the column of a symbol of a matrix.
fn push_entry(alloc: Global, text: &mut ByteList, row: u32, column: u32) -> Result<(), AllocError>
    ensures { OnOk result (text.new ≡ text.old ++ latex_entry row column) }
{
    if row == 0 {
        return Ok(());
    }
    text.extend(b"_{")?;
    push_number(alloc, text, u128::from(row))?;
    text.extend(b",")?;
    push_number(alloc, text, u128::from(column))?;
    text.extend(b"}")
}

/// Adds a symbol's text, with its row and column.
fn push_target(alloc: Global, text: &mut ByteList, target: &Target) -> Result<(), AllocError>
    ensures { OnOk result (text.new ≡ text.old ++ latex_target target.now) }
{
    text.extend(target.latex.as_bytes())?;
    push_entry(alloc, text, target.row, target.column)
}

/// Adds the text of the symbol with an id.
pub fn push_latex_name(
    alloc: Global,
    text: &mut ByteList,
    targets: &[Target],
    id: u16,
) -> Result<(), AllocError>
    ensures { OnOk result (text.new ≡ text.old ++ latex_name targets.now id) }
{
    match targets.get(usize::from(id)) {
        Some(target) => push_target(alloc, text, target),
        None => Ok(()),
    }
}

/// Adds a symbol.
fn push_symbol(
    alloc: Global,
    text: &mut ByteList,
    targets: &[Target],
    symbol: Symbol,
) -> Result<(), AllocError>
    ensures { OnOk result (text.new ≡ text.old ++ latex_symbol targets.now symbol) }
{
    if !symbol.conj {
        return push_latex_name(alloc, text, targets, symbol.id);
    }
    text.extend(b"\\overline{")?;
    push_latex_name(alloc, text, targets, symbol.id)?;
    text.extend(b"}")
}

/// Adds a symbol with its power.
pub fn push_latex_factor(
    alloc: Global,
    text: &mut ByteList,
    targets: &[Target],
    power: &(Symbol, u32),
) -> Result<(), AllocError>
    ensures { OnOk result (text.new ≡ text.old ++ latex_factor targets.now power.now) }
{
    if power.1 < 2 {
        return push_symbol(alloc, text, targets, power.0);
    }
    text.extend(b"{")?;
    push_symbol(alloc, text, targets, power.0)?;
    text.extend(b"}^{")?;
    push_number(alloc, text, u128::from(power.1))?;
    text.extend(b"}")
}

/// Adds a positive fraction.
pub fn push_latex_ratio(
    alloc: Global,
    text: &mut ByteList,
    num: u128,
    den: u128,
) -> Result<(), AllocError>
    ensures { OnOk result (text.new ≡ text.old ++ latex_ratio num den) }
{
    if den == 1 {
        return push_number(alloc, text, num);
    }
    text.extend(b"\\frac{")?;
    push_number(alloc, text, num)?;
    text.extend(b"}{")?;
    push_number(alloc, text, den)?;
    text.extend(b"}")
}
