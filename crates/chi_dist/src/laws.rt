//! Laws of the definitions of draws. Nothing here runs.

ghost use Rattle.std.specs.Prelude.{◌≡◌, ◌+◌, ◌*◌, ◌/◌, ◌^◌, ◌<◌, ◌≤◌, ◌↔◌, ◌≤ℤ◌, ◌<ℤ◌, ℕ, ℤ, pos, unsigned_abs, List, length, IsFalse};
ghost use Rattle.chi_num.specs.declared.dist.Dist.{Dist};
ghost use Rattle.chi_dist.specs.declared.drawn.Drawn.{Drawn};
ghost use Rattle.chi_dist.specs.Draws.{draw, between, stream_count, has_stream, sampled, draws, wrong};
ghost use Rattle.chi_dist.specs.Exponential.{exponent, most_units, exponential_units};

/// A stream begins again after 2^63 draws. A number between bounds lies between them. A sampling
/// keeps the number of streams, and says that a distribution's stream isn't there exactly where it
/// isn't.
pub fn draws_law()
    ensures again { (seed stream k : ℕ) → draw seed stream (k + 2 ^ 63) ≡ draw seed stream k }
    ensures between { (a b : ℤ) → (word : ℕ) → word < 2 ^ 64 → a <ℤ b
        → (a ≤ℤ between a b word) × (between a b word <ℤ b) }
    ensures streams { (seed : ℕ) → (taken : List ℕ) → (dist : Dist) → (x : Drawn) → (after : List ℕ)
        → sampled seed taken dist ≡ draws x after → length after ≡ length taken }
    ensures there { (seed : ℕ) → (taken : List ℕ) → (dist : Dist) → length taken ≡ stream_count
        → (sampled seed taken dist ≡ wrong) ↔ IsFalse (has_stream dist) }
{}

/// The exponent of a draw and one is the whole part of its logarithm. For one mean a greater draw gives
/// no greater number, and each lies between 0 and what the least draw gives.
pub fn exponential_law()
    ensures exponent { (word : ℕ) → word < 2 ^ 64
        → (2 ^ exponent (word + 1) ≤ word + 1) × (word + 1 < 2 ^ (exponent (word + 1) + 1)) }
    ensures order { (mean : ℤ) → (word other : ℕ) → word ≤ other → other < 2 ^ 64
        → exponential_units mean other ≤ℤ exponential_units mean word }
    ensures least { (mean : ℤ) → (word : ℕ) → pos 0 ≤ℤ exponential_units mean word }
    ensures most { (mean : ℤ) → (word : ℕ)
        → exponential_units mean word ≤ℤ pos (unsigned_abs mean * most_units / 1_000_000_000) }
{}
