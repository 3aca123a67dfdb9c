// Readings from -32768 to 32767. A stretch loses the least sum of their distances from one whole level.
pub mod methods;

use crate::held::Held;

#[derive(Drop)]
pub struct Distances {
    held: Held<65535>,
}
