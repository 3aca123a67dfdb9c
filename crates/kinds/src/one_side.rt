// Readings of two bytes, by squares.
ghost use Rattle.std.specs.Prelude.{◌≡◌};
ghost use Rattle.frames.specs.declared.size.ReadingSize.TheVariants.{Two};
ghost use Rattle.kinds.specs.Sides.{port_table};
ghost use Rattle.kinds.specs.Held.{port_alone};
ghost use Rattle.std.proofs.Common.{rules};
ghost use Rattle.leaves.specs.Soundness.{squares_few};

use crate::model::FrameReadings;
use crate::room::check_room;
use fault::Fault;
use frames::reading::next_reading;
use frames::size::ReadingSize;
use leaves::model::Leaf;
use leaves::squares::Squares;
use loss::model::Loss;

impl FrameReadings for Squares {
    ghost held = { port_alone };

    ghost weighed = { port_table };

    ghost bytes = { Two };

    ghost tied = { Prim.search rules };

    ghost counted = { Prim.search rules };

    ghost few = { squares_few };

    ghost light = { Prim.search rules };

    fn empty() -> Squares {
        Squares::new()
    }

    fn size() -> ReadingSize {
        ReadingSize::Two
    }

    fn take(&mut self, readings: &[u8]) -> Result<u16, Fault> {
        check_room(self.length(), readings.len() / 2)?;
        let mut left = readings;
        while let Some((reading, rest)) = next_reading(left) {
            self.push(i32::from(reading))?;
            left = rest;
        }
        Ok(self.length())
    }
}
