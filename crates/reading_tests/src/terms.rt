//! Well-formed terms, and what they stand for.
use crate::tables::{HEAD, check_remark, tell_fraction, tell_number};
use frac128::{ByteList, NumberList};
use model_core::{Factor, Generation, Monomial, Shape, Term, TermKind};
use model_reader::{ReadError, read_model};
use std::alloc::{AllocError, Global};

/// Terms in the file that begins with `HEAD`, and what they stand for: the coupling, its text in LaTeX, the words for `value` and `shape`, rows
/// and columns, the kind, and then each monomial. A field is F or S with its place, an `eps` is E, a table t with its
/// place; r and c stand for row and column, and the numbers of labels have a dot before them.
const TERMS: &str = r"
{coupling='k',text='S S S S'} => k k real one 1 1 scalar | 1/1 S0[1] S0[1] S0[1] S0[1];
{text='P~ P P~ P',hc=false,flavour=[],shape='one',value='real',latex='\lambda_{1}',coupling='lam'} => lam \lambda_{1} real one 1 1 scalar | 1/1 S1~[1] S1[1] S1~[1] S1[1];
# Coefficients are kept in lowest terms.
{coupling='k',text='1/24 S S S S'} => k k real one 1 1 scalar | 1/24 S0[1] S0[1] S0[1] S0[1];
{coupling='k',text='-2/4 S S P~ P'} => k k real one 1 1 scalar | -1/2 S0[1] S0[1] S1~[1] S1[1];
{coupling='k',text='0 S S S S'} => k k real one 1 1 scalar | 0/1 S0[1] S0[1] S0[1] S0[1];
{coupling='k',text='-0/5 S S S S'} => k k real one 1 1 scalar | 0/1 S0[1] S0[1] S0[1] S0[1];
{coupling='k',text='1000000000/1000000 S S S S'} => k k real one 1 1 scalar | 1000/1 S0[1] S0[1] S0[1] S0[1];
{coupling='k',text='-1000000000/999999 S S S S'} => k k real one 1 1 scalar | -1000000000/999999 S0[1] S0[1] S0[1] S0[1];
{coupling='k',text='-007/0014 S S S S'} => k k real one 1 1 scalar | -1/2 S0[1] S0[1] S0[1] S0[1];
{coupling='k',text='S S S S - 2 S S S S + 1/3 S S S S'} => k k real one 1 1 scalar | 1/1 S0[1] S0[1] S0[1] S0[1] | -2/1 S0[1] S0[1] S0[1] S0[1] | 1/3 S0[1] S0[1] S0[1] S0[1];
# Spaces wherever they may stand, and none where none has to.
{coupling='k',text='  -  6  /  4  H  ~  (  a  )  H  [  1  ]  (  a  )  S  S  '} => k k real one 1 1 scalar | -3/2 S2~[1].0 S2[1].0 S0[1] S0[1];
{coupling='k',text='2H~(a)H(a)S[1]S-3/2S S H[1](a)H~(a)'} => k k real one 1 1 scalar | 2/1 S2~[1].0 S2[1].0 S0[1] S0[1] | -3/2 S0[1] S0[1] S2[1].0 S2~[1].0;
{coupling='k',text='H ~ ( a , b ) S'},{coupling='l',text=''} => malformed
# Fermions, with a real and with a complex coupling.
{coupling='k',text='S M N'} => k k real one 1 1 fermion | 1/1 S0[1] F1[1] F0[1];
{coupling='y',value='complex',text='1/2 N N S'} => y y complex one 1 1 fermion | 1/2 F0[1] F0[1] S0[1];
{coupling='y',latex='y_t',text='Q[3](a,c) U[3](c) H(b) eps(a,b)'} => y y_t real one 1 1 fermion | 1/1 F2[3].0.1 F3[3].1 S2[1].2 E.0.2;
# Scalars whose conjugates are added.
{coupling='k',value='complex',hc=true,text='P P P P'} => k k complex one 1 1 scalar hc | 1/1 S1[1] S1[1] S1[1] S1[1];
{coupling='k',hc=true,text='S S S P~'} => k k real one 1 1 scalar hc | 1/1 S0[1] S0[1] S0[1] S1~[1];
# Generations.
{coupling='k',text='T[2] T[02] T~[1] P[1]'} => k k real one 1 1 scalar | 1/1 S5[2] S5[2] S5~[1] S1[1];
{coupling='k',text='R[3] R[1] R[2] R[1]'} => k k real one 1 1 scalar | 1/1 S6[3] S6[1] S6[2] S6[1];
# Rows and columns: the first label is that of the row, in whatever order they stand in the text.
{coupling='Y',value='complex',shape='matrix',flavour=['i','j'],text='Q[i](a,c) U[j](c) H(b) eps(a,b)'} => Y Y complex matrix 3 3 fermion | 1/1 F2[r].0.1 F3[c].1 S2[1].2 E.0.2;
{coupling='Y',shape='matrix',flavour=['i','j'],text='L[i] V[j] S'} => Y Y real matrix 3 2 fermion | 1/1 F4[r] F5[c] S0[1];
{coupling='Y',shape='matrix',flavour=['j','i'],text='L[i] V[j] S'} => Y Y real matrix 2 3 fermion | 1/1 F4[c] F5[r] S0[1];
{coupling='Y',shape='matrix',flavour=['i','j'],text='L[1] V[j] R[i]'} => Y Y real matrix 3 2 fermion | 1/1 F4[1] F5[c] S6[r];
{coupling='Y',shape='matrix',flavour=['i','j'],text='L[i] L[j] S - L[j] L[i] S'} => Y Y real matrix 3 3 fermion | 1/1 F4[r] F4[c] S0[1] | -1/1 F4[c] F4[r] S0[1];
{coupling='Y',shape='matrix',flavour=['i','j'],text='N[i] L[j] S'} => Y Y real matrix 1 3 fermion | 1/1 F0[r] F4[c] S0[1];
{coupling='Y',shape='matrix',flavour=['L','S'],text='L[L] L[S] S'} => Y Y real matrix 3 3 fermion | 1/1 F4[r] F4[c] S0[1];
{coupling='Y',value='complex',shape='symmetric',flavour=['i','j'],text='-L[j] L[i] S'} => Y Y complex symmetric 3 3 fermion | -1/1 F4[c] F4[r] S0[1];
{coupling='k',value='complex',hc=true,shape='symmetric',flavour=['i','j'],text='T~[i] T[j] S S'} => k k complex symmetric 2 2 scalar hc | 1/1 S5~[r] S5[c] S0[1] S0[1];
{coupling='k',shape='matrix',flavour=['i','j'],text='T~[i] W[j] S S'} => k k real matrix 2 2 scalar | 1/1 S5~[r] S8[c] S0[1] S0[1];
# Labels are numbered by their first places, in each monomial anew.
{coupling='k',text='H~(a) H(a) H~(b) H(b) - 1/2 H~(b) H(a) H~(a) H(b)'} => k k real one 1 1 scalar | 1/1 S2~[1].0 S2[1].0 S2~[1].1 S2[1].1 | -1/2 S2~[1].0 S2[1].1 S2~[1].1 S2[1].0;
{coupling='k',text='1/4 A(a,b) A(b,a) A(c,d) A(d,c)'} => k k real one 1 1 scalar | 1/4 S4[1].0.1 S4[1].1.0 S4[1].2.3 S4[1].3.2;
{coupling='k',text='A(x,x) S S S'} => k k real one 1 1 scalar | 1/1 S4[1].0.0 S0[1] S0[1] S0[1];
{coupling='k',text='D(a,b,c) D~(b,a,c) S S'} => k k real one 1 1 scalar | 1/1 S7[1].0.1.2 S7~[1].1.0.2 S0[1] S0[1];
{coupling='k',text='eps(q,p) H(p) H(q) S S'} => k k real one 1 1 scalar | 1/1 E.0.1 S2[1].1 S2[1].0 S0[1] S0[1];
{coupling='k',text='K(a) K(b) K(c) S eps(c,a,b)'} => k k real one 1 1 scalar | 1/1 S3[1].0 S3[1].1 S3[1].2 S0[1] E.2.0.1;
{coupling='k',text='H~(x) t(y,x) H(y) S S'} => k k real one 1 1 scalar | 1/1 S2~[1].0 t0.1.0 S2[1].1 S0[1] S0[1];
{coupling='k',text='K(a) K(b) K(c) K(d) s(d) s(c) s(b) s(a)'} => k k real one 1 1 scalar | 1/1 S3[1].0 S3[1].1 S3[1].2 S3[1].3 t1.3 t1.2 t1.1 t1.0;
# Labels may have any word, as long as it is.
{coupling='k',text='H~(eps) H(eps) H~(H) H(H)'} => k k real one 1 1 scalar | 1/1 S2~[1].0 S2[1].0 S2~[1].1 S2[1].1;
{coupling='k',text='H~(abcdefghijklmnopqrstuvwxyz_0) H(abcdefghijklmnopqrstuvwxyz_0) H~(abcdefghijklmnopqrstuvwxyz_1) H(abcdefghijklmnopqrstuvwxyz_1)'} => k k real one 1 1 scalar | 1/1 S2~[1].0 S2[1].0 S2~[1].1 S2[1].1;
# Terms in file order.
{coupling='z',text='N M S'},{coupling='y',text='S S S S'},{coupling='x',text='M M S'} => z z real one 1 1 fermion | 1/1 F0[1] F1[1] S0[1];y y real one 1 1 scalar | 1/1 S0[1] S0[1] S0[1] S0[1];x x real one 1 1 fermion | 1/1 F1[1] F1[1] S0[1];
";

fn tell_labels(alloc: Global, line: &mut ByteList, labels: &NumberList) -> Result<(), AllocError> {
    for label in labels.as_slice() {
        line.extend(b".")?;
        tell_number(alloc, line, *label)?;
    }
    Ok(())
}

fn tell_generation(
    alloc: Global,
    line: &mut ByteList,
    generation: Generation,
) -> Result<(), AllocError> {
    match generation {
        Generation::Fixed(number) => {
            line.extend(b"[")?;
            tell_number(alloc, line, number)?;
            line.extend(b"]")
        }
        Generation::Row => line.extend(b"[r]"),
        Generation::Column => line.extend(b"[c]"),
    }
}

fn tell_factor(alloc: Global, line: &mut ByteList, factor: &Factor) -> Result<(), AllocError> {
    match factor {
        Factor::Fermion {
            field,
            generation,
            labels,
        } => {
            line.extend(b" F")?;
            tell_number(alloc, line, *field)?;
            tell_generation(alloc, line, *generation)?;
            tell_labels(alloc, line, labels)
        }
        Factor::Scalar {
            field,
            conj,
            generation,
            labels,
        } => {
            line.extend(b" S")?;
            tell_number(alloc, line, *field)?;
            if *conj {
                line.extend(b"~")?;
            }
            tell_generation(alloc, line, *generation)?;
            tell_labels(alloc, line, labels)
        }
        Factor::Eps { labels } => {
            line.extend(b" E")?;
            tell_labels(alloc, line, labels)
        }
        Factor::Table { table, labels } => {
            line.extend(b" t")?;
            tell_number(alloc, line, *table)?;
            tell_labels(alloc, line, labels)
        }
    }
}

fn tell_monomial(
    alloc: Global,
    line: &mut ByteList,
    monomial: &Monomial,
) -> Result<(), AllocError> {
    line.extend(b" | ")?;
    tell_fraction(alloc, line, monomial.coefficient)?;
    for factor in monomial.factors.as_slice() {
        tell_factor(alloc, line, factor)?;
    }
    Ok(())
}

fn shape_word(shape: Shape) -> &'static str {
    match shape {
        Shape::One => " one ",
        Shape::Matrix => " matrix ",
        Shape::Symmetric => " symmetric ",
    }
}

fn kind_word(kind: TermKind) -> &'static str {
    match kind {
        TermKind::Fermion => " fermion",
        TermKind::Scalar => " scalar",
    }
}

fn value_word(real: bool) -> &'static str {
    if real { " real" } else { " complex" }
}

/// All of a term but its monomials.
fn tell_coupling(alloc: Global, line: &mut ByteList, term: &Term) -> Result<(), AllocError> {
    line.extend(term.coupling.as_bytes())?;
    line.extend(b" ")?;
    line.extend(term.latex.as_bytes())?;
    line.extend(value_word(term.real).as_bytes())?;
    line.extend(shape_word(term.shape).as_bytes())?;
    tell_number(alloc, line, term.rows)?;
    line.extend(b" ")?;
    tell_number(alloc, line, term.columns)?;
    line.extend(kind_word(term.kind).as_bytes())?;
    if term.hc {
        line.extend(b" hc")?;
    }
    Ok(())
}

fn tell_terms(alloc: Global, line: &mut ByteList, terms: &[Term]) -> Result<(), AllocError> {
    for term in terms {
        tell_coupling(alloc, line, term)?;
        for monomial in term.monomials.as_slice() {
            tell_monomial(alloc, line, monomial)?;
        }
        line.extend(b";")?;
    }
    Ok(())
}

/// The terms of a file's model in a line.
fn terms_of(alloc: Global, file: &[u8]) -> Result<ByteList, AllocError> {
    let mut line = ByteList::new(alloc);
    match read_model(alloc, file) {
        Ok(model) => tell_terms(alloc, &mut line, model.terms.as_slice())?,
        Err(ReadError::Fault(_)) => line.extend(b"malformed")?,
        Err(ReadError::NoMemory) => return Err(AllocError),
    }
    Ok(line)
}

#[test]
fn terms(rt: HostRuntime) -> Result<(), AllocError> {
    for row in TERMS.lines() {
        let Some((terms, told)) = row.split_once(" => ") else {
            check_remark(&rt, row);
            continue;
        };
        let mut file = ByteList::new(rt.alloc());
        for piece in [HEAD, "term=[", terms, "]"] {
            file.extend(piece.as_bytes())?;
        }
        let line = terms_of(rt.alloc(), file.as_slice())?;
        assert_eq!(rt; line.as_slice(), told.as_bytes(), "{terms}");
    }
    Ok(())
}
