//! The tensors of small models. Those of the first two were worked out by hand; those of the others are what the plain sums
//! over all components gave, by the program `tools/dense_tensors.py`.
use beta_poly::Poly;
use frac128::ByteList;
use model_reader::{ReadError, read_model};
use sparse_tensor::Sparse;
use std::alloc::{AllocError, Global};
use std::process::Abort;
use term_expand::{Tensors, expand};

/// Adds a polynomial: each coefficient with the ids of its symbols, `~` behind a conjugate.
fn tell_poly(alloc: Global, line: &mut ByteList, value: &Poly) -> Result<(), AllocError> {
    for place in 0..value.len() {
        let (mono, number) = value.item(place);
        let num = number.num();
        let den = number.den();
        let text = format!(in alloc; " {num}/{den}")?;
        line.extend(text.as_bytes())?;
        for factor in 0..mono.len() {
            let (symbol, exponent) = mono.item(factor);
            let id = symbol.id;
            let side = if symbol.conj { "~" } else { "" };
            let text = format!(in alloc; "*{id}{side}^{exponent}")?;
            line.extend(text.as_bytes())?;
        }
    }
    Ok(())
}

/// Adds the entries of a tensor.
fn tell(alloc: Global, line: &mut ByteList, tensor: &Sparse) -> Result<(), AllocError> {
    for place in 0..tensor.len() {
        let (key, value) = tensor.item(place);
        for leg in key {
            let text = format!(in alloc; "{leg} ")?;
            line.extend(text.as_bytes())?;
        }
        line.extend(b"=")?;
        tell_poly(alloc, line, value)?;
        line.extend(b"\n")?;
    }
    Ok(())
}

fn tell_tensors(alloc: Global, tensors: &Tensors) -> Result<ByteList, AllocError> {
    let mut line = ByteList::new(alloc);
    line.extend(b"yukawa\n")?;
    tell(alloc, &mut line, &tensors.yukawa)?;
    line.extend(b"scalar\n")?;
    tell(alloc, &mut line, &tensors.scalar)?;
    for place in 0..tensors.directions.len() {
        let direction = tensors.directions.item(place);
        let term = direction.term;
        let id = direction.symbol.id;
        let side = if direction.symbol.conj { "~" } else { "" };
        let text = format!(in alloc; "direction {term} {id}{side}")?;
        line.extend(text.as_bytes())?;
        for token in direction.block.as_slice() {
            let kind = if token.dummy {
                "#"
            } else if token.fermion {
                "f"
            } else {
                "s"
            };
            let field = token.field;
            let side = if token.conj { "~" } else { "" };
            let generation = token.generation;
            let text = format!(in alloc; " {kind}{field}{side}[{generation}]")?;
            line.extend(text.as_bytes())?;
        }
        line.extend(b"\n")?;
        tell(alloc, &mut line, &direction.tensor)?;
    }
    Ok(line)
}

fn tensors_of(alloc: Global, file: &[u8]) -> Result<ByteList, AllocError> {
    match read_model(alloc, file) {
        Ok(model) => match expand(alloc, &model) {
            Ok(tensors) => tell_tensors(alloc, &tensors),
            Err(_) => Err(AllocError),
        },
        Err(ReadError::NoMemory) => Err(AllocError),
        Err(_) => Ok(ByteList::new(alloc)),
    }
}

/// Scalar electrodynamics with a quartic coupling.
const QUARTIC: &str = "profile=1
name='sqed'
group=[{name='U1',n=1,coupling='g'}]
scalar=[{name='p',charge='1'}]
term=[{coupling='lam',text='p~ p p~ p'}]
";

const QUARTIC_TENSORS: &str = "yukawa
scalar
0 0 1 1 = 4/1*1^1
0 1 0 1 = 4/1*1^1
0 1 1 0 = 4/1*1^1
1 0 0 1 = 4/1*1^1
1 0 1 0 = 4/1*1^1
1 1 0 0 = 4/1*1^1
direction 1 1 s0[1] s0[1] s0~[1] s0~[1]
0 0 0 1 1 = 4/1
0 0 1 0 1 = 4/1
0 0 1 1 0 = 4/1
0 1 0 0 1 = 4/1
0 1 0 1 0 = 4/1
0 1 1 0 0 = 4/1
";

/// A fermion with itself and a real scalar, and a complex coupling.
const MAJORANA: &str = "profile=1
name='maj'
fermion=[{name='N'}]
scalar=[{name='S',real=true}]
term=[{coupling='y',value='complex',text='1/2 N N S'}]
";

const MAJORANA_TENSORS: &str = "yukawa
0 0 0 = 1/1*0^1
scalar
direction 1 0 f0[1] f0[1] s0[1]
0 0 0 0 = 1/1
direction 1 0~ f0[1] f0[1] s0[1]
1 0 0 0 = 1/1
";

/// A symmetric matrix of complex couplings.
const SYMMETRIC: &str = "profile=1
name='seesaw'
fermion=[{name='N',generations=2}]
scalar=[{name='S',real=true}]
term=[{coupling='y',value='complex',shape='symmetric',flavour=['i','j'],text='1/2 N[i] N[j] S'}]
";

const SYMMETRIC_TENSORS: &str = "yukawa
0 0 0 = 1/1*0^1
0 1 0 = 1/1*1^1
1 0 0 = 1/1*1^1
1 1 0 = 1/1*2^1
scalar
direction 1 0 f0[1] f0[1] s0[1]
0 0 0 0 = 1/1
direction 1 0~ f0[1] f0[1] s0[1]
1 0 0 0 = 1/1
direction 1 1 f0[1] f0[2] s0[1]
0 0 1 0 = 1/1
0 1 0 0 = 1/1
direction 1 1~ f0[1] f0[2] s0[1]
1 0 1 0 = 1/1
1 1 0 0 = 1/1
direction 1 2 f0[2] f0[2] s0[1]
0 1 1 0 = 1/1
direction 1 2~ f0[2] f0[2] s0[1]
1 1 1 0 = 1/1
";

/// A scalar term with a table and its conjugate.
const TABLE: &str = "profile=1
name='tab'
group=[{name='SU2',n=2,coupling='g'}]
scalar=[{name='H',reps={SU2='fund'}},{name='S',real=true}]
table=[{name='t',slots=['SU2','SU2'],entries=[{at=[1,2],value=3},{at=[2,1],value='-1/2'}]}]
term=[{coupling='k',hc=true,text='t(a,b) H(a) H(b) S S'}]
";

const TABLE_TENSORS: &str = "yukawa
scalar
0 1 4 4 = 5/1*1^1
0 4 1 4 = 5/1*1^1
0 4 4 1 = 5/1*1^1
1 0 4 4 = 5/1*1^1
1 4 0 4 = 5/1*1^1
1 4 4 0 = 5/1*1^1
2 3 4 4 = 5/1*1^1
2 4 3 4 = 5/1*1^1
2 4 4 3 = 5/1*1^1
3 2 4 4 = 5/1*1^1
3 4 2 4 = 5/1*1^1
3 4 4 2 = 5/1*1^1
4 0 1 4 = 5/1*1^1
4 0 4 1 = 5/1*1^1
4 1 0 4 = 5/1*1^1
4 1 4 0 = 5/1*1^1
4 2 3 4 = 5/1*1^1
4 2 4 3 = 5/1*1^1
4 3 2 4 = 5/1*1^1
4 3 4 2 = 5/1*1^1
4 4 0 1 = 5/1*1^1
4 4 1 0 = 5/1*1^1
4 4 2 3 = 5/1*1^1
4 4 3 2 = 5/1*1^1
direction 1 1 s0[1] s0[1] s1[1] s1[1]
0 0 1 4 4 = 5/1
0 0 4 1 4 = 5/1
0 0 4 4 1 = 5/1
0 1 0 4 4 = 5/1
0 1 4 0 4 = 5/1
0 1 4 4 0 = 5/1
0 4 0 1 4 = 5/1
0 4 0 4 1 = 5/1
0 4 1 0 4 = 5/1
0 4 1 4 0 = 5/1
0 4 4 0 1 = 5/1
0 4 4 1 0 = 5/1
1 2 3 4 4 = 5/1
1 2 4 3 4 = 5/1
1 2 4 4 3 = 5/1
1 3 2 4 4 = 5/1
1 3 4 2 4 = 5/1
1 3 4 4 2 = 5/1
1 4 2 3 4 = 5/1
1 4 2 4 3 = 5/1
1 4 3 2 4 = 5/1
1 4 3 4 2 = 5/1
1 4 4 2 3 = 5/1
1 4 4 3 2 = 5/1
";

/// Three fields of SU(3) with `eps`.
const EPSILON: &str = "profile=1
name='levi'
group=[{name='SU3',n=3,coupling='g'}]
fermion=[{name='Q',reps={SU3='fund'}},{name='P',reps={SU3='fund'}}]
scalar=[{name='K',reps={SU3='fund'}}]
term=[{coupling='k',value='complex',text='K(c) Q(a) P(b) eps(a,b,c)'}]
";

const EPSILON_TENSORS: &str = "yukawa
0 4 2 = 1/1*1^1
0 5 1 = -1/1*1^1
1 3 2 = -1/1*1^1
1 5 0 = 1/1*1^1
2 3 1 = 1/1*1^1
2 4 0 = -1/1*1^1
3 1 2 = -1/1*1^1
3 2 1 = 1/1*1^1
4 0 2 = 1/1*1^1
4 2 0 = -1/1*1^1
5 0 1 = -1/1*1^1
5 1 0 = 1/1*1^1
scalar
direction 1 1 f0[1] f1[1] s0[1]
0 0 4 2 = 1/1
0 0 5 1 = -1/1
0 1 3 2 = -1/1
0 1 5 0 = 1/1
0 2 3 1 = 1/1
0 2 4 0 = -1/1
0 3 1 2 = -1/1
0 3 2 1 = 1/1
0 4 0 2 = 1/1
0 4 2 0 = -1/1
0 5 0 1 = -1/1
0 5 1 0 = 1/1
direction 1 1~ f0[1] f1[1] s0[1]
1 0 4 5 = 1/1
1 0 5 4 = -1/1
1 1 3 5 = -1/1
1 1 5 3 = 1/1
1 2 3 4 = 1/1
1 2 4 3 = -1/1
1 3 1 5 = -1/1
1 3 2 4 = 1/1
1 4 0 5 = 1/1
1 4 2 3 = -1/1
1 5 0 4 = -1/1
1 5 1 3 = 1/1
";

/// Two adjoints of SU(2), projected.
const ADJOINTS: &str = "profile=1
name='adj'
group=[{name='SU2',n=2,coupling='g'}]
fermion=[{name='L',reps={SU2='adjoint'}},{name='N'}]
scalar=[{name='A',real=true,reps={SU2='adjoint'}}]
term=[{coupling='k',text='-2/3 L(a,b) N A(b,a)'}]
";

const ADJOINTS_TENSORS: &str = "yukawa
0 4 0 = -1/3*1^1
0 4 3 = 1/3*1^1
1 4 2 = -2/3*1^1
2 4 1 = -2/3*1^1
3 4 0 = 1/3*1^1
3 4 3 = -1/3*1^1
4 0 0 = -1/3*1^1
4 0 3 = 1/3*1^1
4 1 2 = -2/3*1^1
4 2 1 = -2/3*1^1
4 3 0 = 1/3*1^1
4 3 3 = -1/3*1^1
scalar
direction 1 1 f0[1] f1[1] s0[1]
0 0 4 0 = -1/3
0 0 4 3 = 1/3
0 1 4 2 = -2/3
0 2 4 1 = -2/3
0 3 4 0 = 1/3
0 3 4 3 = -1/3
0 4 0 0 = -1/3
0 4 0 3 = 1/3
0 4 1 2 = -2/3
0 4 2 1 = -2/3
0 4 3 0 = 1/3
0 4 3 3 = -1/3
1 0 4 0 = -1/3
1 0 4 3 = 1/3
1 1 4 1 = -2/3
1 2 4 2 = -2/3
1 3 4 0 = 1/3
1 3 4 3 = -1/3
1 4 0 0 = -1/3
1 4 0 3 = 1/3
1 4 1 1 = -2/3
1 4 2 2 = -2/3
1 4 3 0 = 1/3
1 4 3 3 = -1/3
";

/// An antisymmetric fermion with a symmetric table, whose term vanishes, and with `eps`.
const VANISHING: &str = "profile=1
name='van'
group=[{name='SU2',n=2,coupling='g'}]
fermion=[{name='T',reps={SU2='anti2'}},{name='F'}]
scalar=[{name='S',real=true}]
table=[{name='t',slots=['SU2','SU2'],entries=[{at=[1,2],value=1},{at=[2,1],value=1},{at=[1,1],value=2}]}]
term=[{coupling='y',text='T(a,b) F S t(a,b)'},{coupling='z',text='T(a,b) F S eps(a,b)'}]
";

const VANISHING_TENSORS: &str = "yukawa
1 4 0 = 1/1*2^1
2 4 0 = -1/1*2^1
4 1 0 = 1/1*2^1
4 2 0 = -1/1*2^1
scalar
direction 1 1 f0[1] f1[1] s0[1]
direction 2 2 f0[1] f1[1] s0[1]
0 1 4 0 = 1/1
0 2 4 0 = -1/1
0 4 1 0 = 1/1
0 4 2 0 = -1/1
1 1 4 0 = 1/1
1 2 4 0 = -1/1
1 4 1 0 = 1/1
1 4 2 0 = -1/1
";

/// Checks the tensors of a file.
pub fn check(rt: &impl Abort, alloc: Global, file: &str, wanted: &str) -> Result<(), AllocError> {
    let found = tensors_of(alloc, file.as_bytes())?;
    assert_eq!(rt; found.as_slice(), wanted.as_bytes(), "{file}");
    Ok(())
}

#[test]
fn hand_made(rt: HostRuntime) -> Result<(), AllocError> {
    check(&rt, rt.alloc(), QUARTIC, QUARTIC_TENSORS)?;
    check(&rt, rt.alloc(), MAJORANA, MAJORANA_TENSORS)
}

#[test]
fn dense_fermion_terms(rt: HostRuntime) -> Result<(), AllocError> {
    check(&rt, rt.alloc(), SYMMETRIC, SYMMETRIC_TENSORS)?;
    check(&rt, rt.alloc(), EPSILON, EPSILON_TENSORS)?;
    check(&rt, rt.alloc(), ADJOINTS, ADJOINTS_TENSORS)?;
    check(&rt, rt.alloc(), VANISHING, VANISHING_TENSORS)
}

#[test]
fn dense_scalar_terms(rt: HostRuntime) -> Result<(), AllocError> {
    check(&rt, rt.alloc(), TABLE, TABLE_TENSORS)
}
