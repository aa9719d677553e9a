// The C face of the library: the functions that a static library exports, and the records that they answer with
// (include/urtemval.h declares both). Nothing is computed here: each function reads what it is lent, calls the
// library's own function, and hands its answer on in a form that C can take. Four points are lent, never handed over
// by value, since C has no arrays by value.

#![tactic(auto)]

// What is answered.
pub mod answer;

// The safe time.
pub mod safe_time;

// Distance, norm and scaling of a pair.
pub mod points;

// Square root, roots of polynomials, coplanar times.
pub mod roots;
