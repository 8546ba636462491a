//! Components of fermions and coordinates of scalars, counted by hand.
ghost use Rattle.model_core.specs.Valid.{IsValid};

use crate::tables::{check_remark, tell_number, with_line_breaks};
use frac128::ByteList;
use model_core::{Leg, Model, fermion_count, fermion_leg, partner, scalar_count, scalar_leg};
use model_reader::read_model;
use std::alloc::{AllocError, Global};

/// Files and their components: of each fermion's the generation, or 0 where it has one, and the slots; of each coordinate the slots, with a `~` where
/// it is a conjugate one, and its partner's place. The last is the dummy.
const COMPONENTS: &str = "
# SU(2) and SU(3), with a doublet and triplet of two generations and an antitriplet, a complex doublet and a real octet.
profile=1@name='m'@group=[{name='b',n=2,coupling='h'},{name='c',n=3,coupling='g'}]@fermion=[{name='Q',generations=2,reps={b='fund',c='fund'}},{name='u',reps={c='conj'}}]@scalar=[{name='H',reps={b='fund'}},{name='A',real=true,reps={c='adjoint'}}] => 1.11 1.12 1.13 1.21 1.22 1.23 2.11 2.12 2.13 2.21 2.22 2.23 0.1 0.2 0.3 | 1>2 2>3 ~1>0 ~2>1 11>4 12>7 13>10 21>5 22>8 23>11 31>6 32>9 33>12 #>13
# The U(1) has no slots.
profile=1@name='m'@group=[{name='u',n=1,coupling='a'},{name='b',n=2,coupling='h'}]@fermion=[{name='e',generations=2,charge=-1}]@scalar=[{name='S',charge=1}] => 1. 2. | >1 ~>0 #>2
# No groups.
profile=1@name='m'@fermion=[{name='nu',generations=3}] => 1. 2. 3. | #>0
";

fn tell_slots(alloc: Global, line: &mut ByteList, slots: &[u8]) -> Result<(), AllocError> {
    for value in slots {
        tell_number(alloc, line, u32::from(*value))?;
    }
    Ok(())
}

fn tell_leg(alloc: Global, line: &mut ByteList, leg: &Leg) -> Result<(), AllocError> {
    match leg {
        Leg::Fermion {
            generation,
            slots,
            ..
        } => {
            tell_number(alloc, line, *generation)?;
            line.extend(b".")?;
            tell_slots(alloc, line, slots.as_slice())
        }
        Leg::Scalar { conj, slots, .. } => {
            line.extend(if *conj {
                b"~".as_slice()
            } else {
                b"".as_slice()
            })?;
            tell_slots(alloc, line, slots.as_slice())
        }
        Leg::Dummy => line.extend(b"#"),
    }
}

fn tell_components(alloc: Global, line: &mut ByteList, model: &Model) -> Result<(), AllocError>
    requires { IsValid model.now }
{
    for place in 0..fermion_count(model) {
        tell_leg(alloc, line, &fermion_leg(model, place))?;
        line.extend(b" ")?;
    }
    line.extend(b"|")?;
    for place in 0..scalar_count(model) {
        line.extend(b" ")?;
        tell_leg(alloc, line, &scalar_leg(model, place))?;
        line.extend(b">")?;
        tell_number(alloc, line, partner(model, place))?;
    }
    Ok(())
}

/// The components of the file's model.
fn told(alloc: Global, file: &[u8]) -> Result<ByteList, AllocError> {
    let mut line = ByteList::new(alloc);
    match read_model(alloc, file) {
        Ok(model) => tell_components(alloc, &mut line, &model)?,
        Err(_) => line.extend(b"refused")?,
    }
    Ok(line)
}

#[test]
fn components(rt: HostRuntime) -> Result<(), AllocError> {
    for row in COMPONENTS.lines() {
        let Some((file, wanted)) = row.split_once(" => ") else {
            check_remark(&rt, row);
            continue;
        };
        let file = with_line_breaks(rt.alloc(), file)?;
        let line = told(rt.alloc(), file.as_slice())?;
        assert_eq!(rt; line.as_slice(), wanted.as_bytes(), "{row}");
    }
    Ok(())
}
