//! The grammar of lists, in its own order.
ghost use Rattle.std.specs.Prelude.{◌≡◌, ◌≤◌, ℕ, List, length, ◌++◌, None, false, codes};
ghost use Rattle.flow_actions.specs.declared.action.Action.{Action};
ghost use Rattle.flow_actions.specs.declared.action.Actions.{Actions};
ghost use Rattle.flow_rules.specs.declared.spec.Attr.{Attr};
ghost use Rattle.pattern_items.specs.declared.pattern.Pattern.{Pattern};
ghost use Rattle.rule_words.specs.Actions.{action_of, actions_of, no_actions};
ghost use Rattle.rule_words.specs.Attributes as attributes;
ghost use Rattle.rule_words.specs.Ids.{ids_of};
ghost use Rattle.rule_words.specs.Items.{items_of, no_items};
ghost use Rattle.rule_words.specs.Vocabulary.{meaning_of};
ghost use Rattle.rule_words.specs.Written.{WrittenAttr, attr_words, attr_with, direction_with, WrittenItem, item_words, pattern_with, WrittenAction, action_words, action_said, actions_with, id_words, ids_with, goes_on_with, words_up_to, made_by};

/// Attributes that are written as the grammar says, and a word behind them that is none of theirs, are read as what they
/// say, whatever words follow. The same holds of directions alone.
pub fn written_attributes_are_read()
    ensures attributes { (ending : List ℕ) (attrs : List WrittenAttr) (attr : Attr) (rest : List (List ℕ)) → meaning_of attributes.words ending ≡ None
        → made_by attr_with attributes.no_attributes attrs ≡ Some attr
        → attributes.attributes_of ending (words_up_to ending attr_words attrs ++ rest) ≡ Some (attr, rest) }
    ensures directions { (ending : List ℕ) (attrs : List WrittenAttr) (attr : Attr) (rest : List (List ℕ)) → meaning_of attributes.directions ending ≡ None
        → made_by direction_with attributes.no_attributes attrs ≡ Some attr
        → attributes.directions_of ending (words_up_to ending attr_words attrs ++ rest) ≡ Some (attr, rest) }
{}

/// Items that are written as the grammar says, each a kind with fields, relations and values up to its `/`, and `end`
/// behind the last, are read as what they say, whatever words follow. And what is read was written so.
pub fn written_items_are_read()
    ensures read { (items : List WrittenItem) (pattern : Pattern) (rest : List (List ℕ)) → made_by pattern_with no_items items ≡ Some pattern
        → items_of (words_up_to (codes "end") item_words items ++ rest) ≡ Some (pattern, rest) }
    ensures only { (words : List (List ℕ)) (pattern : Pattern) (rest : List (List ℕ)) → items_of words ≡ Some (pattern, rest)
        → (items : List WrittenItem) × (words ≡ words_up_to (codes "end") item_words items ++ rest) × (made_by pattern_with no_items items ≡ Some pattern) }
{}

/// The same of actions, each a word with values and lists up to its `/`, or `indirect` with an id and `/`; and of one
/// action alone.
pub fn written_actions_are_read()
    ensures read { (actions : List WrittenAction) (list : Actions) (rest : List (List ℕ)) → made_by actions_with no_actions actions ≡ Some list
        → actions_of (words_up_to (codes "end") action_words actions ++ rest) ≡ Some (list, rest) }
    ensures only { (words : List (List ℕ)) (list : Actions) (rest : List (List ℕ)) → actions_of words ≡ Some (list, rest)
        → (actions : List WrittenAction) × (words ≡ words_up_to (codes "end") action_words actions ++ rest) × (made_by actions_with no_actions actions ≡ Some list) }
    ensures read_alone { (written : WrittenAction) (action : Action) (rest : List (List ℕ)) → action_said written ≡ Some action
        → action_of (action_words written ++ rest) ≡ Some (action, rest) }
    ensures only_alone { (words : List (List ℕ)) (action : Action) (rest : List (List ℕ)) → action_of words ≡ Some (action, rest)
        → (written : WrittenAction) × (words ≡ action_words written ++ rest) × (action_said written ≡ Some action) }
{}

/// Ids that are written as the grammar says, where they are no more than the limit and another word or none follows, are
/// read as what they say.
pub fn written_ids_are_read()
    ensures { (name : List ℕ) (bits most : ℕ) (values : List (List ℕ)) (ids : List ℕ) (rest : List (List ℕ)) → ids_with bits values ≡ Some ids
        → 1 ≤ length ids → length ids ≤ most → goes_on_with name rest ≡ false
        → ids_of name bits most (id_words name values ++ rest) ≡ Some (ids, rest) }
{}
