//! Small tensors that are worked out by hand.
ghost use Rattle.std.specs.Prelude.{◌≡◌, ◌<◌, ◌≤◌, ◌+◌, ◌-◌, length, IfOk, IsTrue};
ghost use Rattle.sparse_tensor.specs.Tensor.{rank_of};
ghost use Rattle.sparse_tensor.specs.Constants.{IsConstant, AllConstant};

use beta_poly::{Mono, Poly, Symbol};
use frac128::{Frac, NumberList};
use sparse_tensor::{Link, LinkList, Sparse, Value, ValueList};
use std::alloc::{AllocError, Global};
use std::process::Abort;

/// A number as a polynomial.
fn number(alloc: Global, value: i64) -> Result<Poly, AllocError> {
    let symbol = Symbol {
        id: 0,
        real: true,
        conj: false,
    };
    let one = Mono::power(alloc, symbol, 0)?;
    Poly::term(alloc, &one, Frac::whole(value))
}

/// A number with its key.
fn value_at(alloc: Global, key: &[u32], value: i64) -> Result<Value, AllocError>
    ensures { IfOk result (λ v. length v.key ≡ length key.now) }
{
    let places = Vec::from_slice(alloc, key)?;
    let value = number(alloc, value)?;
    Ok(Value {
        key: NumberList::from_vec(places),
        value,
    })
}

/// A tensor with two legs.
fn rank_two(rt: &impl Abort, alloc: Global, table: &[(u32, u32, i64)]) -> Sparse
    ensures { rank_of result ≡ 2 }
{
    let mut values = ValueList::new(alloc);
    for (i, j, number) in table {
        let value = value_at(alloc, &[*i, *j], *number).expect(rt, "memory");
        values.push(value).expect(rt, "memory");
    }
    Sparse::gather(alloc, 2, values).expect(rt, "a tensor")
}

/// A tensor with three legs.
fn rank_three(rt: &impl Abort, alloc: Global, table: &[(u32, u32, u32, i64)]) -> Sparse
    ensures { rank_of result ≡ 3 }
{
    let mut values = ValueList::new(alloc);
    for (i, j, k, number) in table {
        let value = value_at(alloc, &[*i, *j, *k], *number).expect(rt, "memory");
        values.push(value).expect(rt, "memory");
    }
    Sparse::gather(alloc, 3, values).expect(rt, "a tensor")
}

/// The number at a key.
fn number_at(rt: &impl Abort, alloc: Global, tensor: &Sparse, key: &[u32]) -> i128
    requires { length key.now ≡ rank_of tensor.now }
{
    let symbol = Symbol {
        id: 0,
        real: true,
        conj: false,
    };
    let one = Mono::power(alloc, symbol, 0).expect(rt, "memory");
    match tensor.at(key) {
        Some(value) => value.coefficient(&one).num(),
        None => 0,
    }
}

/// A link.
fn link(from: u32, to: u32, value: i64) -> Link
    ensures from { result.from ≡ from }
    ensures to { result.to ≡ to }
{
    Link {
        from,
        to,
        value: Frac::whole(value),
    }
}

/// Three links: 1 to 2, 2 to 1 and 2 to 3.
fn three_links(rt: &impl Abort, alloc: Global, first: i64, second: i64, third: i64) -> LinkList {
    let mut links = LinkList::new(alloc);
    links.push(link(1, 2, first)).expect(rt, "memory");
    links.push(link(2, 1, second)).expect(rt, "memory");
    links.push(link(2, 3, third)).expect(rt, "memory");
    links
}

/// Whether a value is a number.
fn is_constant(value: &Poly) -> bool
    ensures { IsTrue result → IsConstant value.now }
{
    if value.len() != 1 {
        return false;
    }
    value.item(0).0.len() == 0
}

/// Whether each value is a number.
fn all_constant(tensor: &Sparse) -> bool
    ensures { IsTrue result → AllConstant tensor.now }
{
    let mut i: usize = 0;
    while i < tensor.len() {
        let (_, value) = tensor.item(i);
        if !is_constant(value) {
            return false;
        }
        i += 1;
    }
    true
}

/// The contraction of two tensors whose values are numbers.
fn contracted(
    rt: &impl Abort,
    alloc: Global,
    first: &Sparse,
    leg: u32,
    second: &Sparse,
    other_leg: u32,
    links: &LinkList,
) -> Sparse
    requires leg { leg < rank_of first.now }
    requires other_leg { other_leg < rank_of second.now }
    requires low { 3 ≤ rank_of first.now + rank_of second.now }
    requires high { rank_of first.now + rank_of second.now ≤ 10 }
    ensures { rank_of result ≡ rank_of first.now + rank_of second.now - 2 }
{
    assert!(rt; all_constant(first));
    assert!(rt; all_constant(second));
    let joined = first.contract(alloc, leg, second, other_leg, links);
    joined.expect(rt, "a tensor")
}

// 5 and -5 at (2, 1) cancel, 2 and 3 at (1, 4) add up.
#[test]
fn values_with_one_key_are_added(rt: HostRuntime) {
    let alloc = rt.alloc();
    let tensor = rank_two(
        &rt,
        alloc,
        &[(2, 1, 5), (1, 4, 2), (2, 1, -5), (1, 4, 3), (0, 9, 7)],
    );
    assert_eq!(rt; tensor.len(), 2);
    assert_eq!(rt; number_at(&rt, alloc, &tensor, &[1, 4]), 5);
    assert_eq!(rt; number_at(&rt, alloc, &tensor, &[0, 9]), 7);
    assert_eq!(rt; number_at(&rt, alloc, &tensor, &[4, 1]), 0);
    assert!(rt; tensor.at(&[2, 1]).is_none());
}

// The second leg: at (1, 2) the value at (1, 1) times 10, at (1, 1) that at (1, 2) times 20, and at (1, 3)
// the same times 30. The value at (1, 5) has no link.
#[test]
fn a_projection_sums_over_the_links_to_a_place(rt: HostRuntime) {
    let alloc = rt.alloc();
    let links = three_links(&rt, alloc, 10, 20, 30);
    let tensor = rank_two(&rt, alloc, &[(1, 1, 2), (1, 2, 3), (1, 5, 4)]);
    let projected = tensor.project(alloc, 1, &links).expect(&rt, "a tensor");
    assert_eq!(rt; projected.len(), 3);
    assert_eq!(rt; number_at(&rt, alloc, &projected, &[1, 2]), 20);
    assert_eq!(rt; number_at(&rt, alloc, &projected, &[1, 1]), 60);
    assert_eq!(rt; number_at(&rt, alloc, &projected, &[1, 3]), 90);
}

// Two legs: 2 at (1, 2) and 3 at (2, 1) give 5 at both, and 7 at (4, 4) comes twice.
#[test]
fn two_legs_are_symmetrised(rt: HostRuntime) {
    let alloc = rt.alloc();
    let tensor = rank_two(&rt, alloc, &[(1, 2, 2), (2, 1, 3), (4, 4, 7)]);
    let symmetric = tensor.symmetrise(alloc, &[0, 1]).expect(&rt, "a tensor");
    assert_eq!(rt; symmetric.len(), 3);
    assert_eq!(rt; number_at(&rt, alloc, &symmetric, &[1, 2]), 5);
    assert_eq!(rt; number_at(&rt, alloc, &symmetric, &[2, 1]), 5);
    assert_eq!(rt; number_at(&rt, alloc, &symmetric, &[4, 4]), 14);
}

// Three legs: 2 at (1, 1, 3) comes twice at each of its three orders, and 5 at (7, 8, 9) once at each of six.
#[test]
fn three_legs_are_symmetrised(rt: HostRuntime) {
    let alloc = rt.alloc();
    let tensor = rank_three(&rt, alloc, &[(1, 1, 3, 2), (7, 8, 9, 5)]);
    let symmetric = tensor.symmetrise(alloc, &[2, 0, 1]).expect(&rt, "a tensor");
    assert_eq!(rt; symmetric.len(), 9);
    assert_eq!(rt; number_at(&rt, alloc, &symmetric, &[3, 1, 1]), 4);
    assert_eq!(rt; number_at(&rt, alloc, &symmetric, &[1, 3, 1]), 4);
    assert_eq!(rt; number_at(&rt, alloc, &symmetric, &[9, 7, 8]), 5);
    assert_eq!(rt; number_at(&rt, alloc, &symmetric, &[8, 7, 9]), 5);
    assert_eq!(rt; number_at(&rt, alloc, &symmetric, &[7, 7, 9]), 0);
}

// The last leg of the first joined to the first leg of the second: at (6, 4) by the links 1 to 2 and 2 to 1
// 10 * 2 * 5 + 20 * 3 * 7 = 520, and at (6, 8) by the link 2 to 3 30 * 3 * 11 = 990.
#[test]
fn a_contraction_sums_over_the_links(rt: HostRuntime) {
    let alloc = rt.alloc();
    let links = three_links(&rt, alloc, 10, 20, 30);
    let first = rank_two(&rt, alloc, &[(6, 1, 2), (6, 2, 3), (5, 4, 9)]);
    let second = rank_two(&rt, alloc, &[(2, 4, 5), (1, 4, 7), (3, 8, 11), (6, 6, 1)]);
    let joined = contracted(&rt, alloc, &first, 1, &second, 0, &links);
    assert_eq!(rt; joined.len(), 2);
    assert_eq!(rt; number_at(&rt, alloc, &joined, &[6, 4]), 520);
    assert_eq!(rt; number_at(&rt, alloc, &joined, &[6, 8]), 990);
}

// The legs of the first come before those of the second, and two products that cancel leave no entry.
#[test]
fn a_contraction_keeps_the_order_of_the_legs(rt: HostRuntime) {
    let alloc = rt.alloc();
    let links = three_links(&rt, alloc, 1, 1, 1);
    let first = rank_three(&rt, alloc, &[(1, 8, 9, 2), (2, 8, 9, -3), (2, 5, 6, 1)]);
    let second = rank_two(&rt, alloc, &[(7, 2, 3), (7, 1, 2), (4, 3, 5)]);
    let joined = contracted(&rt, alloc, &first, 0, &second, 1, &links);
    assert_eq!(rt; joined.len(), 3);
    assert_eq!(rt; number_at(&rt, alloc, &joined, &[8, 9, 7]), 0);
    assert_eq!(rt; number_at(&rt, alloc, &joined, &[5, 6, 7]), 2);
    assert_eq!(rt; number_at(&rt, alloc, &joined, &[8, 9, 4]), -15);
    assert_eq!(rt; number_at(&rt, alloc, &joined, &[5, 6, 4]), 5);
}
