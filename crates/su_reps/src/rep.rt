ghost use Rattle.std.specs.Prelude.{◌≡◌};
ghost use Rattle.su_reps.specs.Tuples.{slots, sides};

/// An irreducible representation of SU(n), as a space of tensors with upper and lower indices.
///
/// An upper index belongs to the fundamental representation, a lower one to its conjugate. In
/// parentheses stands the name for SU(5). `Anti2` is the singlet for SU(2), and the antifundamental
/// representation for SU(3).
#[derive(Clone, Copy, Debug, PartialEq, Eq)]
pub enum Rep {
    /// The trivial representation (1).
    Singlet,
    /// The fundamental or defining representation (5): a vector v^a.
    Fund,
    /// The antifundamental representation (5-bar), the conjugate of `Fund`: a vector v_a.
    Conj,
    /// The adjoint representation (24), which is real: a tensor v^a_b without trace.
    Adjoint,
    /// The symmetric representation of rank two (15): a tensor v^ab = v^ba.
    Sym2,
    /// Its conjugate (15-bar): a tensor v_ab = v_ba.
    Sym2Conj,
    /// The antisymmetric representation of rank two (10): a tensor v^ab = -v^ba.
    Anti2,
    /// Its conjugate (10-bar): a tensor v_ab = -v_ba.
    Anti2Conj,
}

/// The place of an index: above, as in the fundamental representation, or below, as in its
/// conjugate.
#[derive(Clone, Copy)]
pub enum Side {
    Upper,
    Lower,
}

/// The number of indices of a tensor of the representation, and so of values in its index tuples.
pub fn slots(rep: Rep) -> u32
    ensures { result ≡ slots rep }
{
    match rep {
        Rep::Singlet => 0,
        Rep::Fund | Rep::Conj => 1,
        Rep::Adjoint | Rep::Sym2 | Rep::Sym2Conj | Rep::Anti2 | Rep::Anti2Conj => 2,
    }
}

/// The places of these indices, in order.
pub fn sides(rep: Rep) -> &'static [Side]
    ensures { result.now ≡ sides rep }
{
    match rep {
        Rep::Singlet => &[],
        Rep::Fund => &[Side::Upper],
        Rep::Conj => &[Side::Lower],
        Rep::Adjoint => &[Side::Upper, Side::Lower],
        Rep::Sym2 | Rep::Anti2 => &[Side::Upper, Side::Upper],
        Rep::Sym2Conj | Rep::Anti2Conj => &[Side::Lower, Side::Lower],
    }
}
