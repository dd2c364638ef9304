// Reports of generated profiles, beside samples that are added up one by one.

use crate::figures::{Figures, figures_of};
use std::alloc::Global;
use std::test::Fail;
use std::thread::Threads;

// The functions of a generated stack, root first.
const CHAIN: [&[u8]; 9] = [
    b"main", b"fn0", b"fn1", b"fn2", b"fn3", b"fn4", b"fn5", b"fn6", b"fn7",
];

// What the samples of a generated profile add up to in nanoseconds: flat and cum of each function of the chain.
#[derive(Drop)]
pub(crate) struct ChainSums {
    flat: [i64; 9],
    cum: [i64; 9],
}

impl ChainSums {
    // Sample number i has the value (i mod 8 + 1) * 1,000 and the leaf fnd, where d is i mod 8. All functions before it
    // in the chain call it.
    pub(crate) fn of(samples: u64) -> ChainSums {
        let mut sums = ChainSums {
            flat: [0; 9],
            cum: [0; 9],
        };
        for sample in 0..samples {
            sums.add((sample % 8) as usize + 1);
        }
        sums
    }

    // Adds a sample of the leaf at this place of the chain.
    fn add(&mut self, leaf: usize) {
        let leaf = leaf.min(8);
        let value = (leaf as i64).wrapping_mul(1000);
        self.flat[leaf] = self.flat[leaf].wrapping_add(value);
        for place in 0..leaf + 1 {
            self.cum[place] = self.cum[place].wrapping_add(value);
        }
    }

    // Flat and cum of the function, and no such sums where no function has the name.
    pub(crate) fn of_name(&self, name: &[u8]) -> Option<(i64, i64)> {
        for place in 0..9 {
            if CHAIN[place] == name {
                return Some((self.flat[place], self.cum[place]));
            }
        }
        None
    }

    // Whether the figures are these sums. Each function is called by the one before it.
    pub(crate) fn are_in(&self, figures: &Figures) -> bool {
        for place in 0..9 {
            if figures.at(b"", CHAIN[place]) != (self.flat[place], self.cum[place]) {
                return false;
            }
        }
        for place in 1..9 {
            if figures.at(CHAIN[place - 1], CHAIN[place]) != (self.cum[place], 0) {
                return false;
            }
        }
        figures.total == self.cum[0]
    }
}

// Numbers of samples about the end of a piece of 1,024 samples, and of a wave of 64 pieces.
const SIZES: [u64; 6] = [1, 1023, 1024, 1025, 65_536, 65_537];

#[test]
fn each_sample_is_counted(rt: HostRuntime) -> Result<(), Fail> {
    for samples in SIZES {
        assert!(rt; are_counted(&rt, rt.alloc(), samples, 1)?, "{samples}");
        assert!(rt; are_counted(&rt, rt.alloc(), samples, 3)?, "{samples}");
    }
    Ok(())
}

fn are_counted<R: Threads + Sync>(
    rt: &R,
    alloc: Global,
    samples: u64,
    workers: u32,
) -> Result<bool, Fail> {
    let words = format!(in alloc; "-tree -unit=ns -gen={samples} -workers={workers}")?;
    let figures = figures_of(rt, alloc, words.as_str())?;
    Ok(ChainSums::of(samples).are_in(&figures))
}
