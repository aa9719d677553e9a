// A scene file (docs/01-scope.md, "The scene file"): whether its bytes are a scene, and the safe time of each of its
// pairs. Nothing is copied out of the file: a number is read where it lies.

#![tactic(auto)]

// Words and numbers of the file, and where its sections begin.
mod places;
mod words;

// Whether the file is a scene, and of what size.
pub mod layout;

// A pair of the scene: its numbers, and its safe time.
pub mod pairs;
