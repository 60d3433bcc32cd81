//! How a transmit file grows with its history.
ghost use Rattle.std.specs.Prelude.{◌≡◌, List, ◌++◌};
ghost use Rattle.flow_rules.specs.declared.limits.Limits.{Limits};
ghost use Rattle.capture_files.specs.Record.{Frame};
ghost use Rattle.flow_calls.specs.declared.entry.Entry.{Entry};
ghost use Rattle.history_text.specs.Transmit.{records_of_entries, transmit_of};

/// Entries that come behind others add their records behind those of the others.
pub fn transmit_files_grow()
    ensures { (limits : Limits) → (frames : List Frame) → (history : List Entry) → (more : List Entry)
        → transmit_of limits frames (history ++ more) ≡ transmit_of limits frames history ++ records_of_entries limits frames history more }
{}
