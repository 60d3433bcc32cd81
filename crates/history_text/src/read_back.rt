//! What a text tells of what it was printed from.
ghost use Rattle.std.specs.Prelude.{◌≡◌, ℕ, List, ◌++◌, Some};
ghost use Rattle.flow_actions.specs.declared.verdict.Verdict.{Verdict};
ghost use Rattle.flow_rules.specs.declared.limits.Limits.{Limits};
ghost use Rattle.flow_calls.specs.declared.reply.Reply.{Reply};
ghost use Rattle.flow_calls.specs.declared.entry.Entry.{Entry};
ghost use Rattle.history_text.specs.declared.ending.Ending.{Ending};
ghost use Rattle.history_text.specs.declared.kind.Kind.{Kind};
ghost use Rattle.history_text.specs.Forms.{form, filled};
ghost use Rattle.history_text.specs.Kinds.{kind_form};
ghost use Rattle.history_text.specs.Reading.{Fills, Ends, front_by};
ghost use Rattle.history_text.specs.KindRows.{kind_rows};
ghost use Rattle.history_text.specs.Replies.{reply_text};
ghost use Rattle.history_text.specs.Text.{text_of};
ghost use Rattle.history_text.specs.Told.{ReplyIsTold, VerdictIsTold, HistoryIsTold, EndingIsTold, AreAllTold};
ghost use Rattle.history_text.specs.Verdicts.{verdict_text};

/// The table of the texts of replies tells which text stands at the front, with its numbers, and what stands behind it.
pub fn kinds_are_read_back()
    ensures { (kind : Kind) → (numbers : List ℕ) → (rest : List ℕ) → Fills (form (kind_form kind)) numbers
        → Ends (form (kind_form kind)) rest
        → front_by kind_rows (filled (kind_form kind) numbers ++ rest) ≡ Some ((kind, numbers), rest) }
{}

/// Replies with one text are one reply.
pub fn replies_are_told_apart()
    ensures { (limits : Limits) → (first : Reply) → (second : Reply) → ReplyIsTold limits first → ReplyIsTold limits second
        → reply_text limits first ≡ reply_text limits second → first ≡ second }
{}

/// Verdicts with one text are one verdict.
pub fn verdicts_are_told_apart()
    ensures { (first : Verdict) → (second : Verdict) → VerdictIsTold first → VerdictIsTold second
        → verdict_text first ≡ verdict_text second → first ≡ second }
{}

/// Transcripts with one text tell the same of each entry, and one ending.
pub fn transcripts_are_told_apart()
    ensures { (limits : Limits) → (first : List Entry) → (second : List Entry) → (ending : Ending) → (other : Ending)
        → HistoryIsTold limits first → HistoryIsTold limits second → EndingIsTold ending → EndingIsTold other
        → text_of limits first ending ≡ text_of limits second other → AreAllTold first second × (ending ≡ other) }
{}
