//! The entries of generators at two components.
ghost use Rattle.std.specs.Prelude.{◌≡◌, ◌==◌, ◌<◌, true, false, length};
ghost use Rattle.std.specs.List.{list_all};
ghost use Rattle.frac128.specs.Rational.{◌*ℚ◌};
ghost use Rattle.su_reps.specs.Tuples.{same, action};
ghost use Rattle.model_core.specs.Generators.{on_group, field_entry, entry_between};
ghost use Rattle.model_core.specs.Valid.{is_group, are_reps};
ghost use Rattle.term_expand.specs.LinkSteps.{in_field, component_in, AreTuples, IsPlaced, AreNamed, ArePlaced};
ghost use Rattle.gauge_check.specs.Actions.{have_one_place, generator_between, place_generator, IsGenerator};

use frac128::Frac;
use model_core::{Field, FieldComponent, Generator, Group};
use su_reps::{Rep, action, slots};

/// A number where two tuples are the same, else 0.
#[tactic(auto, using(crate::proofs::GeneratorSteps::kept_first, crate::proofs::GeneratorSteps::kept_second, crate::proofs::GeneratorSteps::gone_first, crate::proofs::GeneratorSteps::gone_second))]
fn where_same(p: &[u8], q: &[u8], number: Frac) -> Frac
    ensures first { result ≡ number *ℚ same p.now q.now }
    ensures second { result ≡ same p.now q.now *ℚ number }
{
    if p == q {
        return number;
    }
    Frac::zero()
}

/// X_ij of the group at a place on its own slots, and the identity on all others.
fn special_entry(
    groups: &[Group],
    reps: &[Rep],
    place: usize,
    i: u8,
    j: u8,
    p: &[u8],
    q: &[u8],
) -> Frac
    requires groups { list_all is_group groups.now ≡ true }
    requires reps { are_reps groups.now reps.now ≡ true }
    requires generator { IsGenerator groups.now place i j }
    requires first { AreTuples groups.now reps.now p.now }
    requires second { AreTuples groups.now reps.now q.now }
    ensures { result ≡ on_group (λ rep n. action rep n i j) groups.now reps.now place p.now q.now }
{
    match groups {
        [] => Frac::zero(),
        [group, groups @ ..] => match reps {
            [] => Frac::zero(),
            [rep, reps @ ..] => {
                let count = slots(*rep) as usize;
                let (p_first, p_rest) = p.split_at(count);
                let (q_first, q_rest) = q.split_at(count);
                if place == 0 {
                    let entry = action(*rep, group.n, i, j, p_first, q_first);
                    return where_same(p_rest, q_rest, entry);
                }
                let others = special_entry(groups, reps, place - 1, i, j, p_rest, q_rest);
                where_same(p_first, q_first, others)
            }
        },
    }
}

/// The entry of a generator at two tuples of a field.
fn field_entry(groups: &[Group], generator: Generator, field: &Field, p: &[u8], q: &[u8]) -> Frac
    requires groups { list_all is_group groups.now ≡ true }
    requires reps { are_reps groups.now field.now.reps ≡ true }
    requires special { (generator.i == 0) ≡ false → IsGenerator groups.now generator.place generator.i generator.j }
    requires first { AreTuples groups.now field.now.reps p.now }
    requires second { AreTuples groups.now field.now.reps q.now }
    ensures { result ≡ field_entry groups.now generator field.now p.now q.now }
{
    if generator.i == 0 {
        return where_same(p, q, field.charge);
    }
    let Generator { place, i, j } = generator;
    special_entry(groups, field.reps.as_slice(), place as usize, i, j, p, q)
}

/// The entry at two components of one field and side: minus the transpose for a conjugate field.
fn entry_between(
    groups: &[Group],
    generator: Generator,
    field: &Field,
    from: &FieldComponent,
    to: &FieldComponent,
) -> Frac
    requires groups { list_all is_group groups.now ≡ true }
    requires reps { are_reps groups.now field.now.reps ≡ true }
    requires special { (generator.i == 0) ≡ false → IsGenerator groups.now generator.place generator.i generator.j }
    requires from { AreTuples groups.now field.now.reps from.now.slots }
    requires to { AreTuples groups.now field.now.reps to.now.slots }
    ensures { result ≡ entry_between groups.now generator (in_field from.now field.now) (in_field to.now field.now) }
{
    let first = from.slots.as_slice();
    let second = to.slots.as_slice();
    if from.conj {
        return field_entry(groups, generator, field, second, first).negated();
    }
    field_entry(groups, generator, field, first, second)
}

/// Whether two components are of the field at one place, on one side, and of one generation.
fn are_copies(from: &FieldComponent, to: &FieldComponent) -> bool
    ensures { result ≡ have_one_place from.now to.now }
{
    from.field == to.field && from.conj == to.conj && from.generation == to.generation
}

/// The entry of a generator at two components: 0 between different fields, conjugations or generations. Fields at different
/// places have different names.
fn generator_at(
    groups: &[Group],
    fields: &[Field],
    generator: Generator,
    from: &FieldComponent,
    to: &FieldComponent,
) -> Frac
    requires named { AreNamed groups.now fields.now }
    requires special { (generator.i == 0) ≡ false → IsGenerator groups.now generator.place generator.i generator.j }
    requires from { IsPlaced groups.now fields.now from.now }
    requires to { IsPlaced groups.now fields.now to.now }
    ensures { result ≡ generator_between groups.now generator (component_in fields.now from.now) (component_in fields.now to.now) }
{
    if !are_copies(from, to) {
        return Frac::zero();
    }
    entry_between(groups, generator, &fields[from.field as usize], from, to)
}

/// The entry at two places.
pub fn generator_at_places(
    groups: &[Group],
    fields: &[Field],
    components: &[FieldComponent],
    generator: Generator,
    from: usize,
    to: usize,
) -> Frac
    requires placed { ArePlaced groups.now fields.now components.now }
    requires special { (generator.i == 0) ≡ false → IsGenerator groups.now generator.place generator.i generator.j }
    requires from { from < length components.now }
    requires to { to < length components.now }
    ensures { result ≡ place_generator groups.now fields.now components.now generator from to }
{
    generator_at(
        groups,
        fields,
        generator,
        &components[from],
        &components[to],
    )
}
