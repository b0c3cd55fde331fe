//! What a side's nodes and rules are.

ghost use Rattle.std.specs.Prelude.{◌≡◌, ◌↔◌, ℕ, Bool, List, IsTrue, false};
ghost use Rattle.loads.specs.Position.{IsEmptyPosition};
ghost use Rattle.loads.specs.declared.position.Position.{Position};
ghost use Rattle.strategy_text.specs.declared.node.Format.{Format};
ghost use Rattle.strategy_text.specs.declared.node.Nodes.{Nodes};
ghost use Rattle.node_pool.specs.Pools.{IsPositionOf};
ghost use Rattle.node_pool.specs.Terms.{Terms, AreTerms};

use items::Sequence;
use strategy_text::Nodes;

/// The rules of one side, whose nodes are of this type.
pub trait NodeRules<N> {
    // The position of a node.
    ghost position: { N → Position };

    // The nodes that a format has.
    ghost IsOfFormat: { Format → N → Type 0 };

    // A node meets every rule over the positions of the nodes before it; the rule `root` is asked of the last one.
    ghost MeetsRules: { Terms → List Position → Bool → N → Type 0 };

    // The nodes as those of a strategy.
    ghost nodes_of_side: { List N → Nodes };

    /// The loads of a node.
    fn loads(node: &N) -> &[u16]
        ensures { result.now ≡ (position node.now).loads };

    /// The items of a node.
    fn items(node: &N) -> &[u16]
        ensures { result.now ≡ (position node.now).items };

    /// The nodes as those of a strategy. Takes no memory.
    fn into_strategy_nodes(nodes: Sequence<N>) -> Nodes
        ensures { result ≡ nodes_of_side nodes };

    /// The nodes of a strategy of this side. Takes no memory.
    fn from_strategy_nodes(nodes: Nodes) -> Sequence<N>
        requires { (list : List N) × (nodes ≡ nodes_of_side list) }
        ensures { nodes ≡ nodes_of_side result };

    ghost root_is_asked_last: { (terms : Terms) (earlier : List Position) (last : Bool) (node : N)
        → MeetsRules terms earlier last node
        ↔ (MeetsRules terms earlier false node × (IsTrue last → IsEmptyPosition (position node))) };

    ghost rules_give_a_position: { (terms : Terms) (earlier : List Position) (last : Bool) (node : N)
        → AreTerms terms → MeetsRules terms earlier last node → IsPositionOf terms.game (position node) };

    ghost sides_differ: { (one other : List N) → nodes_of_side one ≡ nodes_of_side other → one ≡ other };
}
