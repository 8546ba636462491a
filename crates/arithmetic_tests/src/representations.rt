//! Numbers and entries of representations.
ghost use Rattle.std.specs.Prelude.{IsTrue};
ghost use Rattle.su_reps.specs.Tuples.{AreValues, IsTuple};

use crate::tables::{check_remark, small};
use frac128::Frac;
use std::alloc::{AllocError, Global};
use std::process::Abort;
use std::test::Fail;
use su_reps::{Rep, action, casimir, cubic, dimension, doubled_index, index, projector, slots};

/// A representation and its conjugate, the same one where it is real, n, the dimension, Casimir, Dynkin index and twice
/// that, and from n = 3 on the anomaly coefficient. The values are those of published tables: dimensions and indices as in
/// R. Slansky, Phys. Rept. 79 (1981) 1, where the index is twice ours, and Casimirs j (j + 1) for SU(2), 4/3 and 3 for the
/// quarks and gluons of SU(3), and so on. The 6 of SU(4) is real, so it has no anomaly, and the 3 of SU(3) that two
/// antisymmetric indices give is the conjugate one.
const NUMBERS: &str = "
singlet singlet 3 => 1 0 0 0 0
fund conj 2 => 2 3/4 1/2 1
adjoint adjoint 2 => 3 2 2 4
sym2 sym2conj 2 => 3 2 2 4
anti2 anti2conj 2 => 1 0 0 0
fund conj 3 => 3 4/3 1/2 1 1
adjoint adjoint 3 => 8 3 3 6 0
sym2 sym2conj 3 => 6 10/3 5/2 5 7
anti2 anti2conj 3 => 3 4/3 1/2 1 -1
fund conj 4 => 4 15/8 1/2 1 1
adjoint adjoint 4 => 15 4 4 8 0
sym2 sym2conj 4 => 10 9/2 3 6 8
anti2 anti2conj 4 => 6 5/2 1 2 0
fund conj 5 => 5 12/5 1/2 1 1
adjoint adjoint 5 => 24 5 5 10 0
sym2 sym2conj 5 => 15 28/5 7/2 7 9
anti2 anti2conj 5 => 10 18/5 3/2 3 1
fund conj 6 => 6 35/12 1/2 1 1
adjoint adjoint 6 => 35 6 6 12 0
sym2 sym2conj 6 => 21 20/3 4 8 10
anti2 anti2conj 6 => 15 14/3 2 4 2
";

/// The representation that a word names.
fn rep_of(word: &str) -> Rep {
    match word {
        "fund" => Rep::Fund,
        "conj" => Rep::Conj,
        "adjoint" => Rep::Adjoint,
        "sym2" => Rep::Sym2,
        "sym2conj" => Rep::Sym2Conj,
        "anti2" => Rep::Anti2,
        "anti2conj" => Rep::Anti2Conj,
        _ => Rep::Singlet,
    }
}

/// All numbers of a representation. `sign` stands before the anomaly coefficient.
fn told(rt: &impl Abort, alloc: Global, rep: Rep, n: u32, sign: i64) -> Result<String, AllocError> {
    assert!(rt; 2 <= n && n <= 6 && -1 <= sign && sign <= 1);
    let size = dimension(rep, n);
    let eigenvalue = casimir(rep, n);
    let half = index(rep, n);
    let whole = doubled_index(rep, n);
    if n == 2 {
        return format!(in alloc; "{size} {eigenvalue} {half} {whole}");
    }
    let anomaly = cubic(rep, n).wrapping_mul(sign);
    format!(in alloc; "{size} {eigenvalue} {half} {whole} {anomaly}")
}

#[test]
fn numbers(rt: HostRuntime) -> Result<(), Fail> {
    for row in NUMBERS.lines() {
        let Some((words, wanted)) = row.split_once(" => ") else {
            check_remark(&rt, row);
            continue;
        };
        let mut words = words.split(' ');
        let rep = rep_of(words.next().unwrap_or(""));
        let conjugate = rep_of(words.next().unwrap_or(""));
        let n = small(&rt, words.next().unwrap_or(""));
        for (rep, sign) in [(rep, 1), (conjugate, -1)] {
            let told = told(&rt, rt.alloc(), rep, n, sign)?;
            assert_eq!(rt; told.as_str(), wanted, "{row}");
        }
    }
    Ok(())
}

/// Entries, worked out by hand from the definitions: of the projector at two tuples, and of the generator X_ij at two tuples.
const ENTRIES: &str = "
projector singlet 2   => 1
projector conj 4 3 4 => 0
projector adjoint 3 11 11 => 2/3
projector adjoint 3 11 22 => -1/3
projector adjoint 3 12 12 => 1
projector sym2 3 12 21 => 1/2
projector sym2conj 3 22 22 => 1
projector anti2 3 12 21 => -1/2
projector anti2conj 3 22 22 => 0
11 singlet 2   => 0
11 fund 3 1 1 => 2/3
11 fund 3 2 2 => -1/3
12 conj 3 2 1 => -1
12 adjoint 3 13 23 => 1
12 adjoint 3 32 31 => -1
12 sym2 3 11 21 => 1
11 sym2conj 3 12 12 => -1/3
";

fn digit(byte: u8) -> u8 {
    byte.wrapping_sub(b'0')
}

/// The digits of a word.
fn digits(alloc: Global, word: &str) -> Result<Vec<u8>, AllocError> {
    let mut values = Vec::new(alloc);
    for byte in word.as_bytes() {
        values.push(digit(*byte))?;
    }
    Ok(values)
}

fn are_values(n: u32, values: &[u8]) -> bool
    ensures { IsTrue result → AreValues n values.now }
{
    match values {
        [] => true,
        [first, rest @ ..] => {
            let within = 1 <= *first && u32::from(*first) <= n;
            within && are_values(n, rest)
        }
    }
}

fn is_tuple(rep: Rep, n: u32, values: &[u8]) -> bool
    ensures { IsTrue result → IsTuple rep n values.now }
{
    values.len() == slots(rep) as usize && are_values(n, values)
}

/// The entry that the words of a row name.
fn entry(rt: &impl Abort, word: &str, rep: Rep, n: u32, p: &[u8], q: &[u8]) -> Frac {
    assert!(rt; 2 <= n && n <= 6);
    assert!(rt; is_tuple(rep, n, p));
    assert!(rt; is_tuple(rep, n, q));
    match word.as_bytes() {
        [i, j] => {
            let indices = [digit(*i), digit(*j)];
            assert!(rt; are_values(n, indices.as_slice()));
            action(rep, n, indices[0], indices[1], p, q)
        }
        _ => projector(rep, n, p, q),
    }
}

#[test]
fn entries(rt: HostRuntime) -> Result<(), Fail> {
    let alloc = rt.alloc();
    for row in ENTRIES.lines() {
        let Some((words, wanted)) = row.split_once(" => ") else {
            check_remark(&rt, row);
            continue;
        };
        let mut words = words.split(' ');
        let word = words.next().unwrap_or("");
        let rep = rep_of(words.next().unwrap_or(""));
        let n = small(&rt, words.next().unwrap_or(""));
        let p = digits(alloc, words.next().unwrap_or(""))?;
        let q = digits(alloc, words.next().unwrap_or(""))?;
        let entry = entry(&rt, word, rep, n, p.as_slice(), q.as_slice());
        let told = entry.to_string(alloc)?;
        assert_eq!(rt; told.as_str(), wanted, "{row}");
    }
    Ok(())
}
