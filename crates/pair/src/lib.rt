// The public calls on the four points of a pair at one time, which refuse (docs/01-scope.md, "What callers hand over,
// and the numbers allowed", "Refusal numbers"). The functions of `geometry` and `distance` below them are total. Points
// and displacements are arrays by value, as docs/01-scope.md has them ("Language forms by place").

#![tactic(auto)]

// A place along a segment; moved, centred, scaled points.
pub mod points;

// The largest distance between points of the two sides, and the distance of the sides.
pub mod norm;
pub mod separation;
