ghost use Rattle.std.specs.Prelude.{◌<ℤ◌, ◌≤ℤ◌, pos};
ghost use Rattle.chi_dist.specs.Exponential.{most_mean};

use chi_dist::{DistFault, Drawn, Generator, exponential_units, sample_after};
use chi_num::{Dist, Real};
use std::process::Abort;

const ONE: i64 = 1_000_000_000;

const MOST_MEAN: i64 = 100_000_000 * ONE;

fn real(units: i64) -> Real {
    Real::from_units(units)
}

// The first row is of the words that PCG's reference program writes for this seed and stream, two
// to a draw. The others are those of an independent program.
#[test]
fn draws_are_the_published_words(rt: HostRuntime) {
    for (seed, stream, wanted) in [
        (
            42,
            54,
            [0xa15c02b77b47f409, 0xba1d333083d2f293, 0xbfa4784bcbed606e],
        ),
        (
            0,
            0,
            [0xe4c14788379c6516, 0x5c4ab3bb601d23e0, 0x1c382b8cd1faab16],
        ),
        (
            0,
            63,
            [0x40b29785f34bc053, 0xf452f08a5346b4a5, 0xf7a4dfe51576c5ac],
        ),
        (
            u64::MAX,
            1,
            [0xe2393051d4ee9aa6, 0x724075bddbc6f13b, 0xbfc7dd957b2d3585],
        ),
    ] {
        let mut generator = Generator::new(seed);
        for draw in wanted {
            assert_eq!(&rt;
                generator.draw(stream),
                draw,
                "seed {seed}, stream {stream}"
            );
        }
    }
}

// Draws from one stream are the same before, between and after draws from another.
#[test]
fn streams_do_not_disturb_each_other(rt: HostRuntime) {
    for seed in 0..10 {
        let mut one = Generator::new(seed);
        let first = (one.draw(3), one.draw(3), one.draw(60), one.draw(60));
        let mut other = Generator::new(seed);
        let second = (other.draw(60), other.draw(3), other.draw(60), other.draw(3));
        assert_eq!(&rt; first.0, second.1, "seed {seed}");
        assert_eq!(&rt; first.1, second.3, "seed {seed}");
        assert_eq!(&rt; first.2, second.0, "seed {seed}");
        assert_eq!(&rt; first.3, second.2, "seed {seed}");
    }
}

fn samples(rt: &impl Abort) {
    for (dist, wanted) in [
        (Dist::ConstBool(true), Ok(Drawn::Bool(true))),
        (Dist::ConstInt(-3), Ok(Drawn::Int(-3))),
        (Dist::ConstReal(real(5)), Ok(Drawn::Real(real(5)))),
        // The first draw of stream 0 of seed 42 is 2429506107436103504.
        (
            Dist::UniformInt(i64::MIN, i64::MAX, 0),
            Ok(Drawn::Int(-6793865929418672305)),
        ),
        (Dist::UniformInt(7, 8, 0), Ok(Drawn::Int(7))),
        (
            Dist::UniformReal(real(0), real(ONE), 0),
            Ok(Drawn::Real(real(131703789))),
        ),
        (Dist::Bernoulli(real(131703790), 0), Ok(Drawn::Bool(true))),
        (Dist::Bernoulli(real(131703789), 0), Ok(Drawn::Bool(false))),
        (Dist::Bernoulli(real(ONE), 0), Ok(Drawn::Bool(true))),
        (Dist::Bernoulli(real(0), 0), Ok(Drawn::Bool(false))),
        (Dist::Binomial(4, real(ONE), 0), Ok(Drawn::Int(4))),
        (Dist::Binomial(0, real(ONE), 0), Ok(Drawn::Int(0))),
        (Dist::Binomial(10_000, real(0), 0), Ok(Drawn::Int(0))),
        (Dist::UniformInt(7, 7, 0), Err(DistFault::BadBounds)),
        (
            Dist::UniformReal(real(1), real(0), 0),
            Err(DistFault::BadBounds),
        ),
        (Dist::Bernoulli(real(-1), 0), Err(DistFault::BadChance)),
        (Dist::Bernoulli(real(ONE + 1), 0), Err(DistFault::BadChance)),
        (
            Dist::Binomial(-1, real(ONE + 1), 0),
            Err(DistFault::BadBounds),
        ),
        (
            Dist::Binomial(10_001, real(ONE + 1), 0),
            Err(DistFault::TooMany),
        ),
        (
            Dist::Binomial(10_000, real(ONE + 1), 0),
            Err(DistFault::BadChance),
        ),
    ] {
        let mut generator = Generator::new(42);
        assert_eq!(rt; generator.sample(&dist), wanted, "{dist:?}");
    }
}

// The same of exponential ones. By an independent program, of that draw.
fn exponential_samples(rt: &impl Abort) {
    for (dist, wanted) in [
        (
            Dist::Exponential(real(ONE), 0),
            Ok(Drawn::Real(real(2_027_199_894))),
        ),
        (
            Dist::Exponential(real(MOST_MEAN), 0),
            Ok(Drawn::Real(real(202_719_989_400_000_000))),
        ),
        (Dist::Exponential(real(0), 0), Err(DistFault::BadBounds)),
        (
            Dist::Exponential(real(MOST_MEAN + 1), 0),
            Err(DistFault::BadBounds),
        ),
    ] {
        let mut generator = Generator::new(42);
        assert_eq!(rt; generator.sample(&dist), wanted, "{dist:?}");
    }
}

// A constant and a fault draw nothing, and each other distribution as many as it has trials.
fn draws_taken(rt: &impl Abort) {
    for (dist, taken) in [
        (Dist::ConstInt(1), 0),
        (Dist::UniformInt(1, 1, 0), 0),
        (Dist::Binomial(10_001, real(ONE), 0), 0),
        (Dist::UniformInt(0, 9, 0), 1),
        (Dist::Binomial(5, real(ONE / 2), 0), 5),
        (Dist::Exponential(real(ONE), 0), 1),
        (Dist::Exponential(real(0), 0), 0),
    ] {
        let mut generator = Generator::new(42);
        let _ = generator.sample(&dist);
        let mut other = Generator::new(42);
        for _ in 0..taken {
            other.draw(0);
        }
        assert_eq!(rt; generator.draw(0), other.draw(0), "after {dist:?}");
    }
}

// After so many draws, which is all that is kept, the next are those of a generator.
fn samples_by_counts(rt: &impl Abort) {
    let mut generator = Generator::new(42);
    let mut taken = [0; 64];
    for dist in [
        Dist::UniformInt(0, 1_000, 3),
        Dist::Binomial(5, real(ONE / 2), 3),
        Dist::UniformInt(7, 7, 3),
        Dist::Bernoulli(real(ONE / 2), 60),
        Dist::UniformReal(real(0), real(ONE), 3),
        Dist::Exponential(real(ONE), 5),
        Dist::ConstInt(1),
    ] {
        assert_eq!(rt;
            sample_after(42, &mut taken, &dist),
            generator.sample(&dist),
            "{dist:?}"
        );
    }
    assert_eq!(rt; (taken[3], taken[60], taken[0]), (7, 1, 0));
    // Draw 2 of stream 54 of seed 42, a published word, which 64 bits scale to the number before it.
    taken[54] = 2;
    assert_eq!(rt;
        sample_after(42, &mut taken, &Dist::UniformInt(i64::MIN, i64::MAX, 54)),
        Ok(Drawn::Int(0x3fa4784bcbed606d))
    );
    // A stream begins again after 2^63 draws.
    taken[54] = 2 + (1 << 63);
    assert_eq!(rt;
        sample_after(42, &mut taken, &Dist::UniformInt(i64::MIN, i64::MAX, 54)),
        Ok(Drawn::Int(0x3fa4784bcbed606d))
    );
}

const WORDS: [u64; 6] = [0, 1, (1 << 62) - 1, (1 << 63) - 1, u64::MAX - 1, u64::MAX];

// Draws of a mean, of words at both ends.
fn has_draws(rt: &impl Abort, mean: i64, wanted: [i64; 6])
    requires above { pos 0 <ℤ mean }
    requires most { mean ≤ℤ most_mean }
{
    for (word, units) in WORDS.into_iter().zip(wanted) {
        assert_eq!(rt;
            exponential_units(Real::from_units(mean), word).units(),
            units,
            "mean {mean}, word {word}"
        );
    }
}

// The least mean, 1.0 and the greatest, by an independent program.
#[test]
fn exponential_draws(rt: HostRuntime) {
    has_draws(&rt, 1, [44, 43, 1, 0, 0, 0]);
    has_draws(
        &rt,
        ONE,
        [
            44_361_419_584,
            43_668_272_403,
            1_386_294_362,
            693_147_181,
            0,
            0,
        ],
    );
    has_draws(
        &rt,
        MOST_MEAN,
        [
            4_436_141_958_400_000_000,
            4_366_827_240_300_000_000,
            138_629_436_200_000_000,
            69_314_718_100_000_000,
            0,
            0,
        ],
    );
}

#[test]
fn samplings(rt: HostRuntime) {
    samples(&rt);
    exponential_samples(&rt);
    draws_taken(&rt);
    samples_by_counts(&rt);
}
