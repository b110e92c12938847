// One octave, in one pass, two samples a turn.
ghost use Rattle.std.specs.Prelude.{◌≡◌, List, ℤ, length};
ghost use Rattle.vault.specs.DifferenceOrder.{octave_order, octave_restored};

use field::{sample_difference, sample_sum};

// What is done to an octave: there, or back.
pub(crate) trait Conversion {
    ghost converted: { List ℤ → List ℤ };

    fn convert(octave: &[i8], out: &mut [i8])
        requires { length out.old ≡ length octave.now }
        ensures { out.new ≡ converted octave.now };
}

// The octave in difference order.
pub(crate) struct Order;

impl Conversion for Order {
    ghost converted = { octave_order };

    // The value at an even place goes to the first part of `out`, the one after it to the second.
    fn convert(samples: &[i8], out: &mut [i8]) {
        let (pairs, rest) = samples.as_chunks::<2>();
        let (evens, odds) = out.split_at_mut(samples.len().div_ceil(2));
        let mut before = 0;
        for (i, &[first, second]) in pairs.iter().enumerate() {
            evens[i] = sample_difference(first, before);
            odds[i] = sample_difference(second, first);
            before = second;
        }
        if pairs.len() < evens.len() {
            evens[pairs.len()] = sample_difference(rest[0], before);
        }
    }
}

// The octave that these values are the difference order of.
pub(crate) struct Restore;

impl Conversion for Restore {
    ghost converted = { octave_restored };

    fn convert(values: &[i8], out: &mut [i8]) {
        let (evens, odds) = values.split_at(values.len().div_ceil(2));
        let mut before = 0;
        for (i, &odd) in odds.iter().enumerate() {
            let first = sample_sum(before, evens[i]);
            let second = sample_sum(first, odd);
            out[i + i] = first;
            out[i + i + 1] = second;
            before = second;
        }
        if odds.len() < evens.len() {
            out[values.len() - 1] = sample_sum(before, evens[odds.len()]);
        }
    }
}
