//! Terms of the potential and of the Yukawa couplings: monomials in fields, tables and the epsilon tensor.
use crate::name::{Latex, Name};
use frac128::{Frac, ItemList, NumberList};

/// How many symbols a coupling has.
#[derive(Clone, Copy, Debug, PartialEq, Eq)]
pub enum Shape {
    /// One symbol.
    One,
    /// A symbol for each row and column.
    Matrix,
    /// A matrix with equal entries [i,j] and [j,i]: a symbol for each row and each column from it on.
    Symmetric,
}

/// Whether a term couples two fermions, or scalars alone.
#[derive(Clone, Copy, Debug, PartialEq, Eq, PartialOrd, Ord)]
pub enum TermKind {
    Fermion,
    Scalar,
}

/// The generation of a field's factor.
#[derive(Clone, Copy, Debug, PartialEq, Eq)]
pub enum Generation {
    /// This one, counted from 1.
    Fixed(u32),
    /// The row of the coupling's entry.
    Row,
    /// The column of the coupling's entry.
    Column,
}

/// A factor of a monomial. Each has a label for each of its slots; a label joins the two slots that have it, and labels
/// are numbered from 0 by their first place in the monomial.
#[derive(Drop)]
pub enum Factor {
    /// A fermion, by its place among the model's fermions.
    Fermion {
        field: u32,
        generation: Generation,
        labels: NumberList,
    },
    /// A scalar or, where `conj` is set, its conjugate, by its place among the model's scalars.
    Scalar {
        field: u32,
        conj: bool,
        generation: Generation,
        labels: NumberList,
    },
    /// The totally antisymmetric tensor of SU(n), with n labels.
    Eps {
        labels: NumberList,
    },
    /// A table, by its place among the model's tables.
    Table {
        table: u32,
        labels: NumberList,
    },
}

/// Factors in order.
pub type FactorList = ItemList<Factor>;

/// A product of factors with a coefficient.
#[derive(Drop)]
pub struct Monomial {
    pub coefficient: Frac,
    pub factors: FactorList,
}

/// Monomials in order.
pub type MonomialList = ItemList<Monomial>;

/// A term: a coupling times a sum of monomials, which all have the same fields.
#[derive(Drop)]
pub struct Term {
    /// The name of the coupling.
    pub coupling: Name,
    /// The coupling in LaTeX.
    pub latex: Latex,
    /// Whether the coupling is real.
    pub real: bool,
    pub shape: Shape,
    /// How many rows the coupling has: 1 for the shape `One`.
    pub rows: u32,
    /// How many columns the coupling has: 1 for the shape `One`.
    pub columns: u32,
    /// Whether the conjugate of a scalar term is added.
    pub hc: bool,
    pub kind: TermKind,
    pub monomials: MonomialList,
}

/// Terms in file order.
pub type TermList = ItemList<Term>;
