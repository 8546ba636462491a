//! The Standard Model with its Yukawa matrices, of one to six generations.
ghost use Rattle.std.specs.Prelude.{◌≡◌, ◌++◌, OnOk, IfOk};
ghost use Rattle.demo_models.specs.Demo.{generations_of, around, head_text, fields_text, matrix_text, terms_text, demo_text};

use frac128::ByteList;
use itoa::Buffer;
use std::alloc::{AllocError, Global};

/// The number of generations of the file of a seed, from 1 to 6.
pub fn generations(seed: u64) -> u32
    ensures { result ≡ generations_of seed }
{
    1 + (seed % 6) as u32
}

/// Adds a piece with a text in its middle.
#[tactic(auto, unfolding(crate::specs::Demo::around))]
fn push_around(
    text: &mut ByteList,
    middle: &[u8],
    before: &[u8],
    behind: &[u8],
) -> Result<(), AllocError>
    ensures { OnOk result (text.new ≡ text.old ++ around middle.now before.now behind.now) }
{
    text.extend(before)?;
    text.extend(middle)?;
    text.extend(behind)
}

/// Adds the file's own keys and the groups.
fn push_head(text: &mut ByteList, digit: &[u8]) -> Result<(), AllocError>
    ensures { OnOk result (text.new ≡ text.old ++ head_text digit.now) }
{
    push_around(text, digit, b"profile = 1\nname = \"demo_", b"\"\n")?;
    text.extend(
        b"group = [{name=\"U1\", n=1, coupling=\"g1\"}, {name=\"SU2\", n=2, coupling=\"g2\"}, {name=\"SU3\", n=3, coupling=\"g3\"}]\n",
    )?;
    Ok(())
}

/// Adds the quarks and leptons, and the Higgs doublet.
fn push_fields(text: &mut ByteList, digit: &[u8]) -> Result<(), AllocError>
    ensures { OnOk result (text.new ≡ text.old ++ fields_text digit.now) }
{
    push_around(
        text,
        digit,
        b"fermion = [{name=\"Q\", generations=",
        b", charge=\"1/6\", reps={SU2=\"fund\", SU3=\"fund\"}}, ",
    )?;
    push_around(
        text,
        digit,
        b"{name=\"u\", generations=",
        b", charge=\"-2/3\", reps={SU3=\"conj\"}}, ",
    )?;
    push_around(
        text,
        digit,
        b"{name=\"d\", generations=",
        b", charge=\"1/3\", reps={SU3=\"conj\"}}, ",
    )?;
    push_around(
        text,
        digit,
        b"{name=\"L\", generations=",
        b", charge=\"-1/2\", reps={SU2=\"fund\"}}, ",
    )?;
    push_around(
        text,
        digit,
        b"{name=\"e\", generations=",
        b", charge=\"1\"}]\n",
    )?;
    text.extend(b"scalar = [{name=\"H\", charge=\"1/2\", reps={SU2=\"fund\"}}]\n")?;
    Ok(())
}

/// Adds a matrix of Yukawa couplings.
fn push_matrix(text: &mut ByteList, coupling: &[u8], term: &[u8]) -> Result<(), AllocError>
    ensures { OnOk result (text.new ≡ text.old ++ matrix_text coupling.now term.now) }
{
    push_around(
        text,
        coupling,
        b"[[term]]\ncoupling = \"",
        b"\"\nvalue = \"complex\"\nshape = \"matrix\"\nflavour = [\"i\", \"j\"]\n",
    )?;
    push_around(text, term, b"text = \"", b"\"\n")?;
    Ok(())
}

/// Adds all terms.
fn push_terms(text: &mut ByteList) -> Result<(), AllocError>
    ensures { OnOk result (text.new ≡ text.old ++ terms_text) }
{
    push_matrix(text, b"Yu", b"Q[i](a,c) u[j](c) H(b) eps(a,b)")?;
    push_matrix(text, b"Yd", b"Q[i](a,c) d[j](c) H~(a)")?;
    push_matrix(text, b"Ye", b"L[i](a) e[j] H~(a)")?;
    text.extend(b"[[term]]\ncoupling = \"lam\"\ntext = \"H~(a) H(a) H~(b) H(b)\"\n")?;
    text.extend(b"[[term]]\ncoupling = \"m2\"\ntext = \"H~(a) H(a)\"\n")?;
    Ok(())
}

/// A large valid model file: the Standard Model with its Yukawa matrices, its quartic coupling and
/// its mass term, with as many generations as `generations` says of the seed. The only error is
/// want of memory.
pub fn demo(alloc: Global, seed: u64) -> Result<ByteList, AllocError>
    ensures { IfOk result (λ text. text ≡ demo_text seed) }
{
    let mut buffer = Buffer::new();
    let digit = buffer.format(generations(seed)).as_bytes();
    let mut text = ByteList::new(alloc);
    push_head(&mut text, digit)?;
    push_fields(&mut text, digit)?;
    push_terms(&mut text)?;
    Ok(text)
}
