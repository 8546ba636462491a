//! What holds of coordinates.
ghost use Rattle.std.specs.Prelude.{◌≡◌, ℕ, List};
ghost use Rattle.beta_poly.specs.Polynomial.{Polynomial};
ghost use Rattle.span_solver.specs.Coordinate.{AreCoordinates};
ghost use Rattle.span_solver.specs.Dependence.{Numbers, AreIndependent};
ghost use Rattle.span_solver.specs.Laws.{OpenKeyIsUnique, OpenKeyExcludesCoordinates};

/// Along independent directions a tensor has at most one list of coordinates.
pub fn coordinates_are_unique()
    ensures { (directions : List Numbers) (tensor : List ℕ → Polynomial) (first second : List Polynomial) → AreIndependent directions → AreCoordinates directions tensor first → AreCoordinates directions tensor second → first ≡ second }
{}

/// A tensor has at most one open key along directions, and no coordinates beside it.
pub fn an_open_key_is_unique()
    ensures unique { OpenKeyIsUnique }
    ensures excludes { OpenKeyExcludesCoordinates }
{}
