//! The terms of a file.
ghost use Rattle.std.specs.Prelude.{◌≡◌, ◌+◌, ◌≤◌, nat_le, ◌∷◌, ◌++◌, [], Some, map, length, IfOk, true};
ghost use Rattle.std.specs.List.{flat_map, list_all};
ghost use Rattle.toml.specs.View.{view, table_view};
ghost use Rattle.model_core.specs.Valid.{has_valid_parts, are_distinct, term_name};
ghost use Rattle.model_core.specs.Document.{text_of};
ghost use Rattle.model_core.specs.Content.{term_blocks, have_few_directions};
ghost use Rattle.model_core.specs.TermMeaning.{monomial_of, monomials_of, flavour_of, term_of};
ghost use Rattle.model_core.specs.TermRules.{has_small_sizes, is_term, are_terms};
ghost use Rattle.model_core.specs.TermWalk.{joins_places, flavour_places, contents_places, coupling_places, block_places, sum_places, term_text_places};
ghost use Rattle.model_core.specs.Walk.{key_places, text_places, term_places, term_after, places_after, terms_places};
ghost use Rattle.model_reader.specs.Tables.{texts, table_views};
ghost use Rattle.model_reader.specs.Parsing.{has_labels_within};
ghost use Rattle.model_reader.specs.TermSteps.{are_small};
ghost use Rattle.model_reader.specs.TermValues.{HasTermValues, bare_keys, head_places, coupling_of, head_parts, term_from};
ghost use Rattle.model_reader.specs.Walked.{Walked, Passes};

use crate::error::{ReadError, refused};
use crate::keys::{only_keys, required};
use crate::names::Names;
use crate::tables::few_in_all;
use crate::term_checks::{
    checked_blocks, checked_contents, checked_coupling, checked_flavour, checked_joins,
};
use crate::term_factors::monomials_of;
use crate::term_keys::{conjugate_or, flavour_or, is_real_or, shape_or};
use crate::term_sum::term_sum;
use crate::term_words::{checked_counts, checked_marks};
use crate::values::{latex_or, new_name};
use model_core::{
    FaultPlace, Generation, Latex, Model, MonomialList, Name, Part, ReadKind, Shape,
    SymbolBlockList, Term, TermList, WrittenMonomial, first_uses, flavour_size, kind_of,
    symbols_of, term_blocks,
};
use std::alloc::{AllocError, Global};
use toml::{Table, Value};

/// The most symbols of all couplings.
const MOST_SYMBOLS: u32 = 400;

/// The values of the keys that a term has to have.
#[derive(Clone, Copy)]
struct TermValues<'a> {
    coupling: &'a Value,
    text: &'a Value,
}

/// Asks that a term has the keys that it has to have, and no others than it may have.
fn term_values<'a>(place: FaultPlace, table: &'a Table) -> Result<TermValues<'a>, ReadError>
    ensures walked { Passes (key_places place bare_keys (table_view table.now)) result }
    ensures values { IfOk result (λ values. HasTermValues (table_view table.now) values) }
{
    only_keys(
        place,
        table,
        &[
            "coupling", "latex", "value", "shape", "flavour", "hc", "text",
        ],
    )?;
    let coupling = required(place.key(1), table, "coupling")?;
    let text = required(place.key(7), table, "text")?;
    Ok(TermValues { coupling, text })
}

/// What a term says of its coupling.
#[derive(Drop)]
struct Coupling {
    name: Name,
    latex: Latex,
    /// Whether it is real.
    real: bool,
    shape: Shape,
    /// Whether the term's conjugate is added.
    hc: bool,
}

/// A term but for its text.
#[derive(Drop)]
struct Head<'a> {
    coupling: Coupling,
    /// The flavour labels.
    flavour: Vec<&'a [u8]>,
}

/// The values of a term's keys but for its text.
#[tactic(auto, using(crate::proofs::Firsts::first_before), unfolding(crate::specs::TermValues::head_places, crate::specs::TermValues::coupling_of))]
fn head_of<'a>(
    alloc: Global,
    place: FaultPlace,
    names: &mut Names,
    values: &TermValues<'a>,
    table: &'a Table,
) -> Result<Head<'a>, ReadError>
    requires distinct { are_distinct names.old ≡ true }
    requires values { HasTermValues (table_view table.now) values.now }
    ensures walked { Walked head_parts (head_places place names.old (table_view table.now)) (coupling_of (table_view table.now), flavour_of (table_view table.now)) result }
    ensures added { IfOk result (λ head. names.new ≡ names.old ++ head.coupling.name ∷ []) }
    ensures distinct { IfOk result (λ _. are_distinct names.new ≡ true) }
{
    let name = new_name(place.key(1), names, values.coupling)?;
    let latex = latex_or(place.key(2), table, &name)?;
    let real = is_real_or(place.key(3), table)?;
    let shape = shape_or(place.key(4), table)?;
    let flavour = flavour_or(alloc, place.key(5), table)?;
    let hc = conjugate_or(place.key(6), table)?;
    Ok(Head {
        coupling: Coupling {
            name,
            latex,
            real,
            shape,
            hc,
        },
        flavour,
    })
}

/// The term with this coupling and these monomials.
#[tactic(auto, unfolding(crate::specs::TermValues::term_from))]
fn term_from(
    alloc: Global,
    model: &Model,
    coupling: Coupling,
    monomials: MonomialList,
) -> Result<Term, AllocError>
    ensures { IfOk result (λ term. term ≡ term_from model.now coupling monomials) }
{
    let Coupling {
        name,
        latex,
        real,
        shape,
        hc,
    } = coupling;
    let first = first_uses(alloc, monomials.as_slice())?;
    Ok(Term {
        coupling: name,
        latex,
        real,
        shape,
        rows: flavour_size(model, Generation::Row, first.as_slice()),
        columns: flavour_size(model, Generation::Column, first.as_slice()),
        hc,
        kind: kind_of(first.as_slice()),
        monomials,
    })
}

/// Asks that no block has more than 4 directions after those of earlier terms, and adds the term's blocks to these.
#[tactic(auto, using(crate::proofs::TermLaws::blocks_more))]
fn checked_term_blocks(
    alloc: Global,
    model: &Model,
    blocks: &mut SymbolBlockList,
    place: FaultPlace,
    term: &Term,
) -> Result<(), ReadError>
    requires sized { has_small_sizes term.now ≡ true }
    requires few { length blocks.old + 36 ≤ 2304 }
    requires small { are_small blocks.old ≡ true }
    ensures walked { Passes (block_places blocks.old place (term_blocks model.now term.now)) result }
    ensures added { IfOk result (λ _. blocks.new ≡ blocks.old ++ term_blocks model.now term.now) }
    ensures few { IfOk result (λ _. length blocks.new ≤ length blocks.old + 36) }
    ensures small { IfOk result (λ _. are_small blocks.new ≡ true) }
{
    let own = term_blocks(alloc, model, term)?;
    checked_blocks(alloc, place, blocks, own)?;
    Ok(())
}

/// Asks that a term's contents, its coupling and its blocks are as they must be.
#[tactic(auto, using(crate::proofs::Firsts::first_before))]
fn checked_symbols(
    alloc: Global,
    model: &Model,
    blocks: &mut SymbolBlockList,
    place: FaultPlace,
    sum: &[WrittenMonomial],
    term: &Term,
) -> Result<(), ReadError>
    requires sized { has_small_sizes term.now ≡ true }
    requires few { length blocks.old + 36 ≤ 2304 }
    requires small { are_small blocks.old ≡ true }
    ensures walked { Passes (contents_places place sum.now term.now ++ (coupling_places model.now place term.now ++ block_places blocks.old place (term_blocks model.now term.now))) result }
    ensures added { IfOk result (λ _. blocks.new ≡ blocks.old ++ term_blocks model.now term.now) }
    ensures few { IfOk result (λ _. length blocks.new ≤ length blocks.old + 36) }
    ensures small { IfOk result (λ _. are_small blocks.new ≡ true) }
{
    checked_contents(alloc, place, sum, term)?;
    checked_coupling(alloc, model, place, term)?;
    checked_term_blocks(alloc, model, blocks, place, term)
}

/// Asks that a term's labels and rows and columns, and then the rest of it, are as they must be.
#[tactic(auto, using(crate::proofs::Firsts::first_before))]
fn checked_term(
    alloc: Global,
    model: &Model,
    blocks: &mut SymbolBlockList,
    flavour: &[&[u8]],
    place: FaultPlace,
    text: &[u8],
    sum: &[WrittenMonomial],
    term: &Term,
) -> Result<(), ReadError>
    requires valid { has_valid_parts model.now ≡ true }
    requires labels { list_all (has_labels_within 4096) sum.now ≡ true }
    requires sized { has_small_sizes term.now ≡ true }
    requires few { length blocks.old + 36 ≤ 2304 }
    requires small { are_small blocks.old ≡ true }
    ensures walked { Passes (joins_places model.now text.now place sum.now term.now.monomials ++ (flavour_places model.now (texts flavour.now) place term.now
        ++ (contents_places place sum.now term.now ++ (coupling_places model.now place term.now ++ block_places blocks.old place (term_blocks model.now term.now))))) result }
    ensures added { IfOk result (λ _. blocks.new ≡ blocks.old ++ term_blocks model.now term.now) }
    ensures few { IfOk result (λ _. length blocks.new ≤ length blocks.old + 36) }
    ensures small { IfOk result (λ _. are_small blocks.new ≡ true) }
{
    checked_joins(alloc, model, place, text, sum, term.monomials.as_slice())?;
    checked_flavour(alloc, model, flavour, place, term)?;
    checked_symbols(alloc, model, blocks, place, sum, term)
}

/// The term that a sum gives.
#[tactic(auto, using(crate::proofs::Firsts::first_before, crate::proofs::TermLaws::term_named), unfolding(model_core::specs::TermWalk::sum_places))]
fn sum_term(
    alloc: Global,
    model: &Model,
    blocks: &mut SymbolBlockList,
    coupling: Coupling,
    flavour: &[&[u8]],
    place: FaultPlace,
    text: &[u8],
    sum: &[WrittenMonomial],
) -> Result<Term, ReadError>
    requires valid { has_valid_parts model.now ≡ true }
    requires filled { nat_le 1 (length sum.now) ≡ true }
    requires labels { list_all (has_labels_within 4096) sum.now ≡ true }
    requires few { length blocks.old + 36 ≤ 2304 }
    requires small { are_small blocks.old ≡ true }
    ensures walked { Walked (λ term. term) (sum_places model.now blocks.old (texts flavour.now) text.now place sum.now (term_from model.now coupling (map (monomial_of model.now (texts flavour.now) text.now) sum.now)))
        (term_from model.now coupling (map (monomial_of model.now (texts flavour.now) text.now) sum.now)) result }
    ensures added { IfOk result (λ term. blocks.new ≡ blocks.old ++ term_blocks model.now term) }
    ensures few { IfOk result (λ _. length blocks.new ≤ length blocks.old + 36) }
    ensures small { IfOk result (λ _. are_small blocks.new ≡ true) }
    ensures named { IfOk result (λ term. term_name term ≡ coupling.name) }
    ensures sized { IfOk result (λ term. has_small_sizes term ≡ true) }
    ensures valid { IfOk result (λ term. is_term model.now term ≡ true) }
{
    checked_marks(model, place, text, sum)?;
    checked_counts(model, place, text, sum)?;
    let monomials = monomials_of(alloc, model, flavour, place, text, sum)?;
    let term = term_from(alloc, model, coupling, monomials)?;
    checked_term(alloc, model, blocks, flavour, place, text, sum, &term)?;
    Ok(term)
}

/// The term that a text gives.
#[tactic(auto, using(crate::proofs::Firsts::first_before, crate::proofs::TermValid::sum_filled), unfolding(model_core::specs::TermWalk::term_text_places))]
fn text_term(
    alloc: Global,
    model: &Model,
    blocks: &mut SymbolBlockList,
    coupling: Coupling,
    flavour: &[&[u8]],
    place: FaultPlace,
    text: &[u8],
) -> Result<Term, ReadError>
    requires valid { has_valid_parts model.now ≡ true }
    requires few { length blocks.old + 36 ≤ 2304 }
    requires small { are_small blocks.old ≡ true }
    ensures walked { Walked (λ term. term) (term_text_places model.now blocks.old (texts flavour.now) (term_from model.now coupling (monomials_of model.now (texts flavour.now) text.now)) place text.now)
        (term_from model.now coupling (monomials_of model.now (texts flavour.now) text.now)) result }
    ensures added { IfOk result (λ term. blocks.new ≡ blocks.old ++ term_blocks model.now term) }
    ensures few { IfOk result (λ _. length blocks.new ≤ length blocks.old + 36) }
    ensures small { IfOk result (λ _. are_small blocks.new ≡ true) }
    ensures named { IfOk result (λ term. term_name term ≡ coupling.name) }
    ensures sized { IfOk result (λ term. has_small_sizes term ≡ true) }
    ensures valid { IfOk result (λ term. is_term model.now term ≡ true) }
{
    let sum = term_sum(alloc, place, text)?;
    sum_term(
        alloc,
        model,
        blocks,
        coupling,
        flavour,
        place,
        text,
        sum.as_slice(),
    )
}

/// The term with this head and the text that a value is.
fn term_at(
    alloc: Global,
    model: &Model,
    blocks: &mut SymbolBlockList,
    coupling: Coupling,
    flavour: &[&[u8]],
    place: FaultPlace,
    value: &Value,
) -> Result<Term, ReadError>
    requires valid { has_valid_parts model.now ≡ true }
    requires few { length blocks.old + 36 ≤ 2304 }
    requires small { are_small blocks.old ≡ true }
    ensures walked { Walked (λ term. term) (text_places model.now blocks.old (texts flavour.now) (term_from model.now coupling (monomials_of model.now (texts flavour.now) (text_of (view value.now)))) place (view value.now))
        (term_from model.now coupling (monomials_of model.now (texts flavour.now) (text_of (view value.now)))) result }
    ensures added { IfOk result (λ term. blocks.new ≡ blocks.old ++ term_blocks model.now term) }
    ensures few { IfOk result (λ _. length blocks.new ≤ length blocks.old + 36) }
    ensures small { IfOk result (λ _. are_small blocks.new ≡ true) }
    ensures named { IfOk result (λ term. term_name term ≡ coupling.name) }
    ensures sized { IfOk result (λ term. has_small_sizes term ≡ true) }
    ensures valid { IfOk result (λ term. is_term model.now term ≡ true) }
{
    let Some(text) = value.as_str() else {
        return refused(place, ReadKind::WrongType);
    };
    text_term(
        alloc,
        model,
        blocks,
        coupling,
        flavour,
        place,
        text.as_bytes(),
    )
}

/// The term that a table is, after names that were met and the blocks of earlier terms, to which it adds its own.
#[tactic(auto, using(crate::proofs::Firsts::first_before, crate::proofs::TermPlaces::term_places_split, crate::proofs::TermPlaces::term_of_parts))]
fn term_of(
    alloc: Global,
    model: &Model,
    names: &mut Names,
    blocks: &mut SymbolBlockList,
    index: u32,
    table: &Table,
) -> Result<Term, ReadError>
    requires valid { has_valid_parts model.now ≡ true }
    requires distinct { are_distinct names.old ≡ true }
    requires few { length blocks.old + 36 ≤ 2304 }
    requires small { are_small blocks.old ≡ true }
    ensures walked { Walked (λ term. term) (term_places model.now blocks.old index names.old (table_view table.now)) (term_of model.now (table_view table.now)) result }
    ensures names { IfOk result (λ term. names.new ≡ names.old ++ term_name term ∷ []) }
    ensures distinct { IfOk result (λ _. are_distinct names.new ≡ true) }
    ensures added { IfOk result (λ term. blocks.new ≡ blocks.old ++ term_blocks model.now term) }
    ensures few { IfOk result (λ _. length blocks.new ≤ length blocks.old + 36) }
    ensures small { IfOk result (λ _. are_small blocks.new ≡ true) }
    ensures valid { IfOk result (λ term. is_term model.now term ≡ true) }
    ensures sized { IfOk result (λ term. has_small_sizes term ≡ true) }
{
    let place = FaultPlace::new(Part::Term, index);
    let values = term_values(place, table)?;
    let Head { coupling, flavour } = head_of(alloc, place, names, &values, table)?;
    let term = term_at(
        alloc,
        model,
        blocks,
        coupling,
        flavour.as_slice(),
        place.key(7),
        values.text,
    )?;
    Ok(term)
}

/// The terms that tables are, after names that were met.
#[tactic(auto, using(crate::proofs::Firsts::first_before, model_core::proofs::ValidParts::list_all_push, crate::proofs::Directions::small_few))]
fn each_term(
    alloc: Global,
    model: &Model,
    names: &mut Names,
    tables: &[&Table],
) -> Result<TermList, ReadError>
    requires valid { has_valid_parts model.now ≡ true }
    requires distinct { are_distinct names.old ≡ true }
    requires few { length tables.now ≤ 64 }
    ensures walked { Walked (λ terms. terms) (places_after (term_after model.now names.old) (term_of model.now) [] (table_views tables.now)) (map (term_of model.now) (table_views tables.now)) result }
    ensures added { IfOk result (λ terms. names.new ≡ names.old ++ map term_name terms) }
    ensures distinct { IfOk result (λ _. are_distinct names.new ≡ true) }
    ensures few { IfOk result (λ terms. length terms ≤ 64) }
    ensures valid { IfOk result (λ terms. list_all (is_term model.now) terms ≡ true) }
    ensures directions { IfOk result (λ terms. have_few_directions (flat_map (term_blocks model.now) terms) ≡ true) }
    ensures sized { IfOk result (λ terms. list_all has_small_sizes terms ≡ true) }
{
    let mut terms = TermList::new(alloc);
    let mut blocks = SymbolBlockList::new(alloc);
    for table in tables {
        let index = terms.len() as u32 + 1;
        let term = term_of(alloc, model, names, &mut blocks, index, table)?;
        terms.push(term)?;
    }
    Ok(terms)
}

/// The terms that tables are, after names that were met, with no more symbols than a model may have.
#[tactic(auto, using(crate::proofs::Firsts::first_before, crate::proofs::Directions::terms_valid), unfolding(model_core::specs::Walk::terms_places))]
pub fn terms_of(
    alloc: Global,
    model: &Model,
    names: &mut Names,
    tables: &[&Table],
) -> Result<TermList, ReadError>
    requires valid { has_valid_parts model.now ≡ true }
    requires distinct { are_distinct names.old ≡ true }
    requires few { length tables.now ≤ 64 }
    ensures walked { Walked (λ terms. terms) (terms_places model.now names.old (table_views tables.now)) (map (term_of model.now) (table_views tables.now)) result }
    ensures added { IfOk result (λ terms. names.new ≡ names.old ++ map term_name terms) }
    ensures distinct { IfOk result (λ _. are_distinct names.new ≡ true) }
    ensures valid { IfOk result (λ terms. are_terms model.now terms ≡ true) }
{
    let terms = each_term(alloc, model, names, tables)?;
    few_in_all(Part::Term, MOST_SYMBOLS, symbols_of(terms.as_slice()))?;
    Ok(terms)
}
