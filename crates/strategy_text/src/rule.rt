//! The rules that a line of a strategy's text may break.

ghost use Rattle.std.specs.Prelude.{◌≡◌};
ghost use Rattle.strategy_text.specs.Rules.{rule_word};

/// A rule of a line or a node. The rules of a node are those of its side, and each side's list says in which order they
/// are judged; the order in which they stand here is no order of judging.
#[derive(Clone, Copy, Debug, PartialEq, Eq)]
pub enum Rule {
    /// The numbers of line 2 are a game.
    Game,
    /// The side of line 3 is the one that is wanted.
    Side,
    /// There are as many loads as bins, descending, each below the target.
    Loads,
    /// The items ascend, each is a size of the game, and their sum is the sum of the loads.
    Items,
    /// The sent size is a size of the game.
    Send,
    /// A burst has more items than can be placed with every load below the target.
    Burst,
    /// There is a packing where one is asked for, and it packs the items together with the sent ones.
    Pack,
    /// The placements' loads are the distinct loads of the node, descending.
    Placements,
    /// Each placement is over exactly where its load with the sent item reaches the target.
    Over,
    /// Each child stands before the node, and its position is this one after the item is placed.
    Child,
    /// The last node has empty bins and no items.
    Root,
    /// The loads of a node that finishes meet the rule of the finish.
    Finish,
    /// The position of a node that keeps bins for big items meets the rule of the big finish.
    Big,
    /// The entries' sizes strictly ascend, and are the sizes of the items that may come.
    Replies,
    /// Each entry names a load of the node that with its size is below the target.
    Reply,
}

impl Rule {
    /// The word for the rule in a rejection, as in `rejected line 5 rule pack`.
    pub fn word(self) -> &'static str
        ensures value { result.now ≡ rule_word self }
    {
        match self {
            Rule::Game => "game",
            Rule::Side => "side",
            Rule::Loads => "loads",
            Rule::Items => "items",
            Rule::Send => "send",
            Rule::Burst => "burst",
            Rule::Pack => "pack",
            Rule::Placements => "placements",
            Rule::Over => "over",
            Rule::Child => "child",
            Rule::Root => "root",
            Rule::Finish => "finish",
            Rule::Big => "big",
            Rule::Replies => "replies",
            Rule::Reply => "reply",
        }
    }
}
