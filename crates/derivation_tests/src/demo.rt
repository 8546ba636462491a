//! Whole files, written out from the rule.
use demo_models::{demo, generations};
use std::alloc::{AllocError, Global};
use std::process::Abort;

/// The file of five generations.
const FIVE: &[u8] = br#"profile = 1
name = "demo_5"
group = [{name="U1", n=1, coupling="g1"}, {name="SU2", n=2, coupling="g2"}, {name="SU3", n=3, coupling="g3"}]
fermion = [{name="Q", generations=5, charge="1/6", reps={SU2="fund", SU3="fund"}}, {name="u", generations=5, charge="-2/3", reps={SU3="conj"}}, {name="d", generations=5, charge="1/3", reps={SU3="conj"}}, {name="L", generations=5, charge="-1/2", reps={SU2="fund"}}, {name="e", generations=5, charge="1"}]
scalar = [{name="H", charge="1/2", reps={SU2="fund"}}]
[[term]]
coupling = "Yu"
value = "complex"
shape = "matrix"
flavour = ["i", "j"]
text = "Q[i](a,c) u[j](c) H(b) eps(a,b)"
[[term]]
coupling = "Yd"
value = "complex"
shape = "matrix"
flavour = ["i", "j"]
text = "Q[i](a,c) d[j](c) H~(a)"
[[term]]
coupling = "Ye"
value = "complex"
shape = "matrix"
flavour = ["i", "j"]
text = "L[i](a) e[j] H~(a)"
[[term]]
coupling = "lam"
text = "H~(a) H(a) H~(b) H(b)"
[[term]]
coupling = "m2"
text = "H~(a) H(a)"
"#;

/// Checks the file of a seed: it is the one of five generations with this digit in place of each 5.
fn check(rt: &impl Abort, alloc: Global, seed: u64, digit: u8) -> Result<(), AllocError> {
    let text = demo(alloc, seed)?;
    assert_eq!(rt; text.len(), FIVE.len());
    for (got, five) in text.as_slice().iter().zip(FIVE) {
        let want = if *five == b'5' { digit } else { *five };
        assert_eq!(rt; *got, want, "at seed {seed}");
    }
    Ok(())
}

#[test]
fn files_have_one_to_six_generations(rt: HostRuntime) -> Result<(), AllocError> {
    assert_eq!(rt; demo(rt.alloc(), 4)?.as_slice(), FIVE);
    for (seed, digit) in (0..12).zip(b"123456123456") {
        check(&rt, rt.alloc(), seed, *digit)?;
        assert_eq!(rt; generations(seed), u32::from(*digit - b'0'));
    }
    assert_eq!(rt; generations(u64::MAX), 4);
    Ok(())
}
