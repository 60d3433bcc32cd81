//! What the front of a file tells of its frames.
ghost use Rattle.std.specs.Prelude.{ℕ, List, ◌++◌};
ghost use Rattle.capture_files.specs.Capture.{capture, ComeFirst};

/// The frames of a file's front are the first of the file's frames, wherever the front ends.
pub fn frames_of_a_front_come_first()
    ensures { (front : List ℕ) (rest : List ℕ) → ComeFirst (capture front).frames (capture (front ++ rest)).frames }
{}
