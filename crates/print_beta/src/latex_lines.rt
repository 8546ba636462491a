//! The printed form of beta functions in LaTeX, line by line.
ghost use Rattle.std.specs.Prelude.{◌≡◌, ◌++◌, OnOk, IfOk, codes, decimal};
ghost use Rattle.print_beta.specs.Latex.{latex_name, latex_style, latex_line, latex_head, latex_text};
ghost use Rattle.print_beta.specs.Sums.{sum_text};

use crate::latex::push_latex_name;
use crate::sums::{Notation, push_poly};
use crate::text::push_number;
use crate::text_lines::push_line;
use beta_poly::Poly;
use derive_core::{Betas, Line, Target};
use frac128::ByteList;
use model_core::Name;
use std::alloc::{AllocError, Global};

/// Adds the line of a beta function.
fn push_latex_beta(
    alloc: Global,
    text: &mut ByteList,
    targets: &[Target],
    symbol: u16,
    loops: u32,
    value: &Poly,
) -> Result<(), AllocError>
    ensures { OnOk result (text.new ≡ text.old ++ (codes "\\beta^{(" ++ decimal loops ++ codes ")}_{" ++ latex_name targets.now symbol ++ codes "} = " ++ sum_text latex_style targets.now value.now.0 ++ codes " \\\\\n")) }
{
    text.extend(b"\\beta^{(")?;
    push_number(alloc, text, u128::from(loops))?;
    text.extend(b")}_{")?;
    push_latex_name(alloc, text, targets, symbol)?;
    text.extend(b"} = ")?;
    push_poly(alloc, text, Notation::Latex, targets, value)?;
    text.extend(b" \\\\\n")
}

/// Adds a line.
fn push_latex_line(
    alloc: Global,
    text: &mut ByteList,
    targets: &[Target],
    line: &Line,
) -> Result<(), AllocError>
    ensures { OnOk result (text.new ≡ text.old ++ latex_line targets.now line.now) }
{
    match line {
        Line::Beta {
            symbol,
            loops,
            value,
        } => push_latex_beta(alloc, text, targets, *symbol, *loops, value),
        Line::NotSpanned { .. } | Line::Generated { .. } => {
            text.extend(b"% ")?;
            push_line(alloc, text, targets, line)
        }
    }
}

/// The two first lines.
fn latex_head_of(alloc: Global, name: &Name, loops: u32) -> Result<ByteList, AllocError>
    ensures { IfOk result (λ text. text ≡ latex_head name.now loops) }
{
    let mut text = ByteList::new(alloc);
    text.extend(b"% model ")?;
    text.extend(name.as_bytes())?;
    text.extend(b"\n% loops ")?;
    push_number(alloc, &mut text, u128::from(loops))?;
    text.extend(b"\n")?;
    Ok(text)
}

/// What is derived in LaTeX. A symbol whose id has no target is printed as nothing.
pub fn print_latex(alloc: Global, betas: &Betas) -> Result<ByteList, AllocError>
    ensures { IfOk result (λ text. text ≡ latex_text betas.now) }
{
    let mut text = latex_head_of(alloc, &betas.model, betas.loops)?;
    for line in betas.lines.as_slice() {
        push_latex_line(alloc, &mut text, betas.targets.as_slice(), line)?;
    }
    Ok(text)
}
