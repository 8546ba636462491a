//! The rows of tables, which are one text each: a line a row.
use frac128::{ByteList, Frac};
use std::alloc::{AllocError, Global};
use std::process::Abort;

/// The first lines of a file with the groups u of U(1), b of SU(2) and c of SU(3), whose couplings are a, h and g. The
/// fermions Q, U, L have three generations and V has two; the scalars T and W have two and the real scalar R has three.
/// Slots: Q of b and c, U of c, H of b, K of c, the real A twice of c, D twice of b and then of c, t twice of b, s of c.
pub const HEAD: &str =
    "profile=1\nname='m'\ngroup=[{name='u',n=1,coupling='a'},{name='b',n=2,coupling='h'},{name='c',n=3,coupling='g'}]\nfermion=[{name='N'},{name='M'},{name='Q',generations=3,reps={b='fund',c='fund'}},{name='U',generations=3,reps={c='conj'}},{name='L',generations=3},{name='V',generations=2}]\nscalar=[{name='S',real=true},{name='P'},{name='H',reps={b='fund'}},{name='K',reps={c='conj'}},{name='A',real=true,reps={c='adjoint'}},{name='T',generations=2},{name='R',generations=3,real=true},{name='D',reps={b='adjoint',c='fund'}},{name='W',generations=2}]\ntable=[{name='t',slots=['b','b'],entries=[{at=[1,2],value=1}]},{name='s',slots=['c'],entries=[]}]\n";

/// A line without an arrow is empty or a remark.
pub fn check_remark(rt: &impl Abort, line: &str) {
    assert!(rt; line.is_empty() || line.starts_with('#'), "{line}");
}

/// The file that a row writes, with a line break in place of each `@`.
pub fn with_line_breaks(alloc: Global, text: &str) -> Result<ByteList, AllocError> {
    let mut file = ByteList::new(alloc);
    for byte in text.as_bytes() {
        file.push(if *byte == b'@' { b'\n' } else { *byte })?;
    }
    Ok(file)
}

/// Puts a number behind the line.
pub fn tell_number(alloc: Global, line: &mut ByteList, number: u32) -> Result<(), AllocError> {
    let text = format!(in alloc; "{number}")?;
    line.extend(text.as_bytes())
}

/// Puts the numerator and the denominator behind the line, also where it is 1.
pub fn tell_fraction(alloc: Global, line: &mut ByteList, fraction: Frac) -> Result<(), AllocError> {
    let num = fraction.num();
    let den = fraction.den();
    let text = format!(in alloc; "{num}/{den}")?;
    line.extend(text.as_bytes())
}
