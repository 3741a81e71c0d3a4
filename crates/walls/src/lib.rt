// What the walks along a leg stand on: a leg in steps, the lines of cells beside one along an axis, pinched vertices.
#![tactic(auto)]

pub mod leg;
pub mod pinch;
pub mod walls;
