//! What chooses generated calls.
ghost use Rattle.std.specs.Prelude.{ℕ, ◌<◌};

use rand_core::utils::NextWord;
use rand_pcg::Pcg32;

/// Dice with a preference: most rules of a seed have one shape.
#[derive(Drop)]
pub(crate) struct Dice {
    random: Pcg32,
    seed: u32,
}

impl Dice {
    pub(crate) fn new(seed: u32) -> Dice {
        Dice {
            random: Pcg32::new(seed as u64, 54),
            seed,
        }
    }

    /// A number below this one.
    pub(crate) fn below(&mut self, sides: u32) -> u32
        requires { 0 < sides }
        ensures { result < sides }
    {
        let word: u32 = self.random.next_word();
        word % sides
    }

    pub(crate) fn is_one_in(&mut self, sides: u32) -> bool
        requires { 0 < sides }
    {
        self.below(sides) == 0
    }

    /// An id of an object.
    pub(crate) fn id(&mut self) -> u16 {
        self.below(4) as u16
    }

    /// An id to make an object at, or none.
    pub(crate) fn asked_id(&mut self) -> Option<u16> {
        if self.is_one_in(4) {
            return None;
        }
        Some(self.id())
    }

    /// A place in a table's list of templates. Most are the first.
    pub(crate) fn place(&mut self) -> u16 {
        if self.is_one_in(4) {
            return self.below(3) as u16;
        }
        0
    }

    /// A flow queue. A few were never configured.
    pub(crate) fn queue(&mut self) -> u16 {
        if self.is_one_in(16) {
            return self.below(9) as u16;
        }
        self.below(2) as u16
    }

    /// The id of a rule, where so many ids were given. Most are of late.
    pub(crate) fn rule(&mut self, given: u32) -> u32 {
        if self.is_one_in(4) {
            return self.below(64);
        }
        given.wrapping_sub(1).wrapping_sub(self.below(6))
    }

    /// A shape below this number: that of the seed, or now and then another.
    pub(crate) fn shape(&mut self, shapes: u32) -> u32
        requires { 0 < shapes }
        ensures { result < shapes }
    {
        if self.is_one_in(6) {
            return self.below(shapes);
        }
        self.seed % shapes
    }
}
