//! The components that may be given to a field's factor.
ghost use Rattle.std.specs.Prelude.{◌≡◌, ◌<◌, ◌^◌, length, IfOk};
ghost use Rattle.term_expand.specs.Candidates.{is_candidate, candidates_from};

use frac128::ItemList;
use model_core::{Field, FieldComponent, Slots};
use std::alloc::{AllocError, Global};

/// A component that may be given to a factor: its place on a leg, and its slot values.
#[derive(Drop)]
pub struct Candidate {
    pub place: u32,
    pub slots: Slots,
}

/// Candidates by place.
pub type CandidateList = ItemList<Candidate>;

/// Whether a component is one of the field at a place, or of its conjugate, in this generation.
fn is_candidate(
    component: &FieldComponent,
    fields: &[Field],
    field: u32,
    conj: bool,
    generation: u32,
) -> bool
    ensures { result ≡ is_candidate fields.now field conj generation component.now }
{
    let (Some(wanted), Some(found)) = (
        fields.get(field as usize),
        fields.get(component.field as usize),
    ) else {
        return false;
    };
    wanted.name.as_bytes() == found.name.as_bytes()
        && component.conj == conj
        && component.generation == generation
}

/// The components that may be given to the field at a place, or to its conjugate, in this generation.
pub fn candidates(
    alloc: Global,
    components: &[FieldComponent],
    fields: &[Field],
    field: u32,
    conj: bool,
    generation: u32,
) -> Result<CandidateList, AllocError>
    requires { length components.now < 2 ^ 32 }
    ensures { IfOk result (λ found. found ≡ candidates_from (is_candidate fields.now field conj generation) 0 components.now) }
{
    let mut found = CandidateList::new(alloc);
    for place in 0..components.len() {
        let component = &components[place];
        if is_candidate(component, fields, field, conj, generation) {
            found.push(Candidate {
                place: place as u32,
                slots: component.slots.copy(),
            })?;
        }
    }
    Ok(found)
}
