//! What holds of whole histories.
ghost use Rattle.std.specs.Prelude.{List};
ghost use Rattle.flow_rules.specs.declared.limits.Limits.{Limits};
ghost use Rattle.capture_files.specs.Record.{Frame};
ghost use Rattle.adapter.specs.History.{IsLegal};
ghost use Rattle.flow_grammar.specs.declared.part.Part.{Part};
ghost use Rattle.whole_history.specs.Whole.{IsWhole};
ghost use Rattle.whole_history.specs.Serial.{serial};

/// Each entry of a serial history has the reply or the verdict that the entries before it give.
pub fn serial_histories_are_legal()
    ensures { (limits : Limits) (program : List Part) (frames : List Frame) → IsLegal limits (serial limits program frames) }
{}

/// A serial history is whole, with one worker.
pub fn serial_histories_are_whole()
    ensures { (limits : Limits) (program : List Part) (frames : List Frame) → IsWhole 1 program 1 frames (serial limits program frames) }
{}
