//! The pattern and the actions of a rule, as a line ends with them.
ghost use Rattle.std.specs.Prelude.{◌≡◌, map};
ghost use Rattle.flow_grammar.specs.RuleLists.{rule_lists_of};

use crate::words::{behind, last};
use flow_calls::RuleLists;
use rule_words::{read_actions, read_items};

/// `ITEMS actions ACTIONS`.
#[tactic(auto, unfolding(crate::specs::RuleLists::rule_lists_of))]
pub(crate) fn read_rule_lists(words: &[&[u8]]) -> Option<RuleLists>
    ensures { result ≡ rule_lists_of (map (λ word. word.now) words.now) }
{
    let (pattern, rest) = read_items(words)?;
    let rest = behind(b"actions", rest)?;
    let actions = last(read_actions(rest))?;
    Some(RuleLists { pattern, actions })
}
