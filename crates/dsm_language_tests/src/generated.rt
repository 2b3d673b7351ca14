use dsm_gen::generating::generate;
use dsm_gen::numbers::{Numbers, numbers_of};
use std::test::Fail;

// The numbers of SplitMix64's words, worked out by hand from its definition.
#[test]
fn seeds_have_the_numbers_of_their_words(rt: HostRuntime) {
    let rows = [
        (
            0,
            Numbers {
                first: 16294208416658607535,
                up: 7960286522194355701,
                up_by: 938,
                down: 17909611376780542445,
                down_by: 428,
            },
        ),
        (
            1,
            Numbers {
                first: 10451216379200822465,
                up: 13757245211066428519,
                up_by: 1075,
                down: 8196980753821780235,
                down_by: 1078,
            },
        ),
        (
            u64::MAX,
            Numbers {
                first: 16490336266968443937,
                up: 16834447057089888969,
                up_by: 434,
                down: 7862637804313477843,
                down_by: 253,
            },
        ),
    ];
    for (seed, numbers) in rows {
        assert_eq!(rt; numbers_of(seed), numbers);
    }
}

#[test]
fn every_seed_has_a_program_of_the_same_sizes(rt: HostRuntime) -> Result<(), Fail> {
    for seed in [0, 1, u64::MAX] {
        let program = generate(rt.alloc(), seed).map_err(|_| "memory")?;
        assert_eq!(rt; program.code().len(), 59);
        assert_eq!(rt; program.shape().pages, 256);
        assert_eq!(rt; program.shape().words, 9);
        assert_eq!(rt; program.init().len(), 0);
    }
    Ok(())
}
