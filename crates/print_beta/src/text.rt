//! Numbers, symbols and components as text.
ghost use Rattle.std.specs.Prelude.{◌≡◌, ◌++◌, OnOk, decimal};
ghost use Rattle.print_beta.specs.ComponentText.{component_text};
ghost use Rattle.print_beta.specs.Text.{target_text, entry_text, name_text, symbol_text, power_text, factor_text, ratio_text};

use crate::line_text::{LineText, push_component};
use beta_poly::Symbol;
use derive_core::Target;
use frac128::ByteList;
use gauge_check::Component;
use std::alloc::{AllocError, Global};

/// Adds a whole number.
pub fn push_number(alloc: Global, text: &mut ByteList, number: u128) -> Result<(), AllocError>
    ensures { OnOk result (text.new ≡ text.old ++ decimal number) }
{
    let digits = number.to_string(alloc)?;
    text.extend(digits.as_bytes())
}

/// Adds the row and the column of a symbol of a matrix.
fn push_entry(alloc: Global, text: &mut ByteList, row: u32, column: u32) -> Result<(), AllocError>
    ensures { OnOk result (text.new ≡ text.old ++ entry_text row column) }
{
    if row == 0 {
        return Ok(());
    }
    text.extend(b"[")?;
    push_number(alloc, text, u128::from(row))?;
    text.extend(b",")?;
    push_number(alloc, text, u128::from(column))?;
    text.extend(b"]")
}

/// Adds a symbol's name, with its row and column.
fn push_target(alloc: Global, text: &mut ByteList, target: &Target) -> Result<(), AllocError>
    ensures { OnOk result (text.new ≡ text.old ++ target_text target.now) }
{
    text.extend(target.name.as_bytes())?;
    push_entry(alloc, text, target.row, target.column)
}

/// Adds the name of the symbol with an id.
pub fn push_name(
    alloc: Global,
    text: &mut ByteList,
    targets: &[Target],
    id: u16,
) -> Result<(), AllocError>
    ensures { OnOk result (text.new ≡ text.old ++ name_text targets.now id) }
{
    match targets.get(usize::from(id)) {
        Some(target) => push_target(alloc, text, target),
        None => Ok(()),
    }
}

/// Adds a symbol.
pub fn push_symbol(
    alloc: Global,
    text: &mut ByteList,
    targets: &[Target],
    symbol: Symbol,
) -> Result<(), AllocError>
    ensures { OnOk result (text.new ≡ text.old ++ symbol_text targets.now symbol) }
{
    if !symbol.conj {
        return push_name(alloc, text, targets, symbol.id);
    }
    text.extend(b"conj(")?;
    push_name(alloc, text, targets, symbol.id)?;
    text.extend(b")")
}

/// Adds a power, and nothing where it is 1.
pub fn push_power(alloc: Global, text: &mut ByteList, power: u32) -> Result<(), AllocError>
    ensures { OnOk result (text.new ≡ text.old ++ power_text power) }
{
    if power < 2 {
        return Ok(());
    }
    text.extend(b"^")?;
    push_number(alloc, text, u128::from(power))
}

/// Adds a symbol with its power.
pub fn push_factor(
    alloc: Global,
    text: &mut ByteList,
    targets: &[Target],
    power: &(Symbol, u32),
) -> Result<(), AllocError>
    ensures { OnOk result (text.new ≡ text.old ++ factor_text targets.now power.now) }
{
    push_symbol(alloc, text, targets, power.0)?;
    push_power(alloc, text, power.1)
}

/// Adds a positive fraction.
pub fn push_ratio(
    alloc: Global,
    text: &mut ByteList,
    num: u128,
    den: u128,
) -> Result<(), AllocError>
    ensures { OnOk result (text.new ≡ text.old ++ ratio_text num den) }
{
    push_number(alloc, text, num)?;
    if den == 1 {
        return Ok(());
    }
    text.extend(b"/")?;
    push_number(alloc, text, den)
}

/// Adds a component of a block.
pub fn push_legs(text: &mut ByteList, component: &Component) -> Result<(), AllocError>
    ensures { OnOk result (text.new ≡ text.old ++ component_text component.now) }
{
    let mut line = LineText::new();
    push_component(&mut line, component);
    text.extend(line.as_slice())
}
