//! Beta functions, line by line.
use beta_poly::Poly;
use frac128::ItemList;
use gauge_check::Component;
use model_core::{Latex, Name};

/// The tokens of a block's content: a component whose legs have no slot values.
pub type TokenNames = Component;

/// What a symbol is named by.
#[derive(Drop)]
pub struct Target {
    /// The name of the coupling.
    pub name: Name,
    /// Its text in LaTeX.
    pub latex: Latex,
    /// The symbol's row and column in a matrix coupling, counted from 1; 0 for a coupling that is one symbol.
    pub row: u32,
    pub column: u32,
}

/// One target for each id of a symbol.
pub type TargetList = ItemList<Target>;

/// A line of what is derived.
#[derive(Drop)]
pub enum Line {
    /// The beta function of a symbol at so many loops, without its factor 1/(16 pi^2) for each loop.
    Beta {
        symbol: u16,
        loops: u32,
        value: Poly,
    },
    /// The directions of a block don't span its beta tensor: the first component up to which no coordinates exist.
    NotSpanned {
        block: TokenNames,
        component: Component,
    },
    /// A block without directions has a beta tensor: its first component that isn't 0, and the value there.
    Generated {
        block: TokenNames,
        component: Component,
        value: Poly,
    },
}

/// Lines in the order in which they are printed.
pub type LineList = ItemList<Line>;

/// What is derived from a model.
#[derive(Drop)]
pub struct Betas {
    /// The model's name.
    pub model: Name,
    pub loops: u32,
    pub targets: TargetList,
    pub lines: LineList,
}

/// What is said of a model that is accepted.
#[derive(Drop)]
pub struct Checked {
    pub name: Name,
    /// Not computed yet, and 0.
    pub weight: u128,
}
