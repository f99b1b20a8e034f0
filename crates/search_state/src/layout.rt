// Where what stands in the array of a search: 65 slots of a row's twelve numbers, then count, horizon, limits and refused.
use profile::KEPT;

// One for each row that is kept, and one to spare.
pub const SLOTS: usize = KEPT + 1;

pub const WIDTH: usize = 12;

pub const COUNT: usize = SLOTS * WIDTH;

pub const HORIZON: usize = COUNT + 1;

pub const LIMITS: usize = COUNT + 2;

pub const REFUSED: usize = COUNT + 3;

pub const SIZE: usize = COUNT + 4;

// The array itself.
pub type State = [u16; SIZE];
