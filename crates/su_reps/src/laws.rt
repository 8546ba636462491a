ghost use Rattle.std.specs.Prelude.{ℕ, ◌≤◌};
ghost use Rattle.su_reps.specs.declared.rep.Rep.{Rep};
ghost use Rattle.su_reps.specs.Laws.{Idempotent, Symmetric, Commutes, Commutators, Transpose, Diagonal, Conjugate, ConjugateProjector, NoTrace, PairTrace, Dimension, Casimir, DoubledIndex, Index, CasimirTrace, Cubic, TripleTrace, ConjugateNumbers, Traceless, TracelessAction, ProjectedAction};

/// The laws of the representations of SU(n), for every n, also above 6.
///
/// The projectors are idempotent and symmetric, and commute with the generators X_ij. These obey
/// the Lie algebra of SU(n), X_ji is the transpose of X_ij, and the X_ii add up to 0. A generator
/// has no trace. The trace of two generators is the one of X_12 X_21 times a tensor that is the
/// same for all representations. The dimension, the quadratic Casimir, the Dynkin index and the
/// anomaly coefficient are the traces that define them, and C(R) d(R) = T(R) (n^2 - 1). The adjoint
/// has no trace part. On the conjugate representation the generators act as minus the transpose.
pub fn representations_of_su_n()
    ensures idempotent { (r : Rep) (n : ℕ) → 1 ≤ n → Idempotent r n }
    ensures symmetric { (r : Rep) (n : ℕ) → 1 ≤ n → Symmetric r n }
    ensures commutes { (r : Rep) (n : ℕ) → 1 ≤ n → Commutes r n }

    ensures commutators { (r : Rep) (n : ℕ) → 1 ≤ n → Commutators r n }
    ensures transpose { (r : Rep) (n : ℕ) → 1 ≤ n → Transpose r n }
    ensures diagonal { (r : Rep) (n : ℕ) → 1 ≤ n → Diagonal r n }
    ensures no_trace { (r : Rep) (n : ℕ) → 1 ≤ n → NoTrace r n }
    ensures pair_trace { (r : Rep) (n : ℕ) → 2 ≤ n → PairTrace r n }

    ensures dimension { (r : Rep) (n : ℕ) → 2 ≤ n → Dimension r n }
    ensures casimir { (r : Rep) (n : ℕ) → 2 ≤ n → Casimir r n }
    ensures doubled_index { (r : Rep) (n : ℕ) → 2 ≤ n → DoubledIndex r n }
    ensures index { (r : Rep) (n : ℕ) → 2 ≤ n → Index r n }
    ensures casimir_trace { (r : Rep) (n : ℕ) → 2 ≤ n → CasimirTrace r n }
    ensures cubic { (r : Rep) (n : ℕ) → 3 ≤ n → Cubic r n }
    ensures triple_trace { (r : Rep) (n : ℕ) → 1 ≤ n → TripleTrace r n }

    // The adjoint representation.
    ensures traceless { (n : ℕ) → 1 ≤ n → Traceless n }
    ensures traceless_action { (n : ℕ) → 1 ≤ n → TracelessAction n }
    ensures projected_action { (n : ℕ) → 1 ≤ n → ProjectedAction n }

    // The conjugate representation.
    ensures conjugate { (r : Rep) (n : ℕ) → 1 ≤ n → Conjugate r n }
    ensures conjugate_projector { (r : Rep) (n : ℕ) → 1 ≤ n → ConjugateProjector r n }
    ensures conjugate_numbers { (r : Rep) (n : ℕ) → ConjugateNumbers r n }
{}
