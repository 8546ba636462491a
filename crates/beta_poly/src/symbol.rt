//! Symbols of couplings.
ghost use Rattle.std.specs.Prelude.{◌≡◌};
ghost use Rattle.beta_poly.specs.Symbol.{symbol_cmp, conj_symbol};

use std::cmp::Ordering;

/// A symbol of a coupling, or its conjugate. A real symbol is its own conjugate and has `conj` false.
#[derive(Clone, Copy, Debug, Default)]
pub struct Symbol {
    /// The symbol's number, in the order of the model.
    pub id: u16,

    /// Whether the coupling is real.
    pub real: bool,

    /// Whether this is the conjugate of a complex coupling.
    pub conj: bool,
}

impl Symbol {
    /// The order of symbols: by id, for one id a real one before a complex one, then the plain one before its conjugate.
    pub fn cmp(&self, other: &Symbol) -> Ordering
        ensures { result ≡ symbol_cmp self.now other.now }
    {
        let by_id = self.id.cmp(&other.id);
        let by_realness = other.real.cmp(&self.real);
        let by_conj = self.conj.cmp(&other.conj);
        by_id.then(by_realness.then(by_conj))
    }

    /// The conjugate: a complex symbol is swapped with its conjugate, and a real one stays.
    #[tactic(auto, unfolding(crate::specs::Symbol::conj_symbol))]
    pub fn conjugate(&self) -> Symbol
        ensures { result ≡ conj_symbol self.now }
    {
        Symbol {
            id: self.id,
            real: self.real,
            conj: if self.real { self.conj } else { !self.conj },
        }
    }
}
