//! The printed forms.
ghost use Rattle.std.specs.Prelude.{◌≡◌, IfOk};
ghost use Rattle.print_beta.specs.Printed.{printed};

use crate::csv_text::print_csv;
use crate::latex_lines::print_latex;
use crate::text_lines::print_text;
use derive_core::Betas;
use frac128::ByteList;
use model_core::Format;
use std::alloc::{AllocError, Global};

/// What is derived, in a printed form. A symbol whose id has no target, which `derive` never gives, is printed as nothing.
/// `AllocError` comes where memory runs out.
pub fn print(alloc: Global, betas: &Betas, format: Format) -> Result<ByteList, AllocError>
    ensures { IfOk result (λ text. text ≡ printed format betas.now) }
{
    match format {
        Format::Text => print_text(alloc, betas),
        Format::Latex => print_latex(alloc, betas),
        Format::Csv => print_csv(alloc, betas),
    }
}
