//! Which class a round is of.

ghost use Rattle.std.specs.Prelude.{◌≡◌, ◌<◌};
ghost use Rattle.std.specs.Int.NonZero.{non_zero_u32_get, non_zero_u64_get};
ghost use Rattle.simplex_base.specs.Positions as positions;
ghost use Rattle.simplex_shards.specs.Cut.{GivesVectors, class_under, classes_of, mixed_class, ranged_class, splitmix};

use simplex_base::positions::Round;
use std::num::{NonZeroU32, NonZeroU64};

/// How the rounds are cut into classes, numbered from 0 on. A cut is the same for all parts of an audit.
#[derive(Clone, Copy, Debug)]
pub enum Cut {
    /// Rounds are spread evenly over the classes, as [`class_of`] says. A sender who knows the seed can send rounds of one
    /// class alone.
    Mixed {
        /// What the mix begins with; any number.
        seed: u64,
        /// How many classes there are.
        classes: NonZeroU32,
    },
    /// So many neighbouring views of an epoch are of one class, and the next ones of the next class, as [`range_of`] says.
    Ranges {
        /// How many neighbouring views are of one class.
        width: NonZeroU64,
        /// How many classes there are.
        classes: NonZeroU32,
    },
}

impl Cut {
    /// How many classes there are, at least one.
    #[tactic(auto, using(crate::proofs::CutLemmas::class_below))]
    pub fn classes(&self) -> u32
        ensures value { result ≡ classes_of self.now }
        ensures some { 0 < result }
        // The class of each round is below it.
        ensures below { (round : positions.Round) → class_under self.now round < result }
    {
        match self {
            Cut::Mixed { classes, .. } => classes.get(),
            Cut::Ranges { classes, .. } => classes.get(),
        }
    }

    /// The class of a round, below the number of classes.
    pub fn class_of(&self, round: Round) -> u32
        ensures value { result ≡ class_under self.now round }
        ensures below { result < classes_of self.now }
    {
        match self {
            Cut::Mixed { seed, classes } => class_of(round, *seed, *classes),
            Cut::Ranges { width, classes } => range_of(round, *width, *classes),
        }
    }
}

/// The class of a round, of so many: `mix(mix(seed xor epoch) xor view)` modulo their number, `mix` being one word of
/// SplitMix64 (Steele, Lea and Flood).
pub fn class_of(round: Round, seed: u64, classes: NonZeroU32) -> u32
    ensures value { result ≡ mixed_class seed (non_zero_u32_get classes) round }
    ensures below { result < non_zero_u32_get classes }
    // Five rounds and their classes.
    ensures vectors { GivesVectors mixed_class }
{
    let word = mix(mix(seed ^ round.epoch().get()) ^ round.view().get());
    (word % u64::from(classes.get())) as u32
}

/// The class of a round, of so many, if so many neighbouring views of an epoch are of one class: the epoch and the view
/// divided by `width`, added, modulo the number of classes.
pub fn range_of(round: Round, width: NonZeroU64, classes: NonZeroU32) -> u32
    ensures value { result ≡ ranged_class (non_zero_u64_get width) (non_zero_u32_get classes) round }
    ensures below { result < non_zero_u32_get classes }
{
    let range = round.view().get() / width.get();
    let classes = u64::from(classes.get());
    let sum = round.epoch().get() % classes + range % classes;
    (sum % classes) as u32
}

/// The word that SplitMix64 gives from a state.
fn mix(state: u64) -> u64
    ensures { result ≡ splitmix state }
{
    let mut z = state.wrapping_add(0x9e37_79b9_7f4a_7c15);
    z = (z ^ (z >> 30)).wrapping_mul(0xbf58_476d_1ce4_e5b9);
    z = (z ^ (z >> 27)).wrapping_mul(0x94d0_49bb_1331_11eb);
    z ^ (z >> 31)
}
