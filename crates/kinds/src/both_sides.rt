// Readings of three bytes: port by squares, and a code of starboard by votes that weigh 100.
ghost use Rattle.std.specs.Prelude.{◌≡◌, ◌<◌, ◌≤◌, true, [], ◌∷◌, length, Ok};
ghost use Rattle.frames.specs.declared.size.ReadingSize.TheVariants.{Three};
ghost use Rattle.kinds.specs.Sides.{Sides, brought, codes_fit, together, code_of, pair_table};
ghost use Rattle.kinds.specs.Held.{both_sides, pair_sound};
ghost use Rattle.std.proofs.Common.{arith, rules};
ghost use Rattle.leaves.specs.Soundness.{squares_few};

use crate::model::FrameReadings;
use crate::pair_readings::PairReadings;
use crate::room::check_room;
use fault::Fault;
use frames::reading::{PairReading, next_pair};
use frames::size::ReadingSize;
use layers::pair::Pair;
use layers::weighted::Weighted;
use leaves::model::Leaf;
use leaves::squares::Squares;
use leaves::votes::Votes;
use loss::model::Loss;

// What a code of starboard weighs.
pub const WEIGHT: u16 = 100;

impl Loss for PairReadings {
    ghost table = { λ x. pair_table (both_sides x) };

    ghost sound = { λ x. pair_sound x };

    fn length(&self) -> u16 {
        self.pair.length()
    }

    fn ceiling(&self) -> u64 {
        self.pair.ceiling()
    }

    fn stretch(&self, a: u16, b: u16) -> Result<u64, Fault> {
        self.pair.stretch(a, b)
    }
}

// Is each code one of the 16 classes?
fn accepts_codes(readings: &[u8]) -> bool
    ensures { result ≡ codes_fit (brought Three readings.now) }
{
    let mut left = readings;
    while let Some((reading, rest)) = next_pair(left) {
        if !Votes::accepts(i32::from(reading.code)) {
            return false;
        }
        left = rest;
    }
    true
}

impl PairReadings {
    // Takes one reading of both sides.
    fn add(&mut self, reading: PairReading) -> Result<(), Fault>
        requires { (reading.code ≤ 15) × (length (both_sides self.old).port < 512) }
        ensures result { result ≡ Ok tt }
        ensures holds { both_sides self.new ≡ together (both_sides self.old) (record { port = reading.port ∷ []; starboard = code_of reading ∷ [] }) }
    {
        self.pair.port.push(i32::from(reading.port))?;
        self.pair.starboard.below.push(i32::from(reading.code))
    }
}

impl FrameReadings for PairReadings {
    ghost held = { both_sides };

    ghost weighed = { pair_table };

    ghost bytes = { Three };

    ghost tied = { first_of (Prim.search rules, Prim.grind (arith, Self.row.coded.inj)) };

    ghost counted = { first_of (Prim.search rules, Prim.grind (arith, Self.row.coded.inj)) };

    ghost few = { λ x. squares_few x.pair.port };

    ghost light = { first_of (Prim.search rules, Prim.grind (arith, Self.row.coded.inj)) };

    fn empty() -> PairReadings {
        PairReadings {
            pair: Pair {
                port: Squares::new(),
                starboard: Weighted {
                    weight: WEIGHT,
                    below: Votes::new(),
                },
            },
        }
    }

    fn size() -> ReadingSize {
        ReadingSize::Three
    }

    fn take(&mut self, readings: &[u8]) -> Result<u16, Fault> {
        if !accepts_codes(readings) {
            return Err(Fault::ReadingOutOfRange);
        }
        check_room(self.length(), readings.len() / 3)?;
        let mut left = readings;
        while let Some((reading, rest)) = next_pair(left) {
            self.add(reading)?;
            left = rest;
        }
        Ok(self.length())
    }
}
