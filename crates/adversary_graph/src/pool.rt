//! Pools of nodes of the adversary.

ghost use Rattle.std.specs.Prelude.{◌≡◌, List};
ghost use Rattle.strategy_text.specs.declared.node.AdvNode.{AdvNode};
ghost use Rattle.strategy_text.specs.declared.node.Nodes.TheVariants as sides;

use items::Sequence;
use node_pool::{JudgedNodes, NodeRules, Pool};
use strategy_text::{AdvNode, AdvNodes, Nodes};

/// The rules of the adversary's nodes.
#[derive(Drop)]
pub struct AdversaryRules;

/// Nodes of the adversary, numbered from 0. Each meets every rule but `root` over the nodes before it, so any node with
/// the empty position ends a legal strategy.
pub type AdvJudged = JudgedNodes<AdvNode, AdversaryRules>;

/// Such nodes with their positions at hand.
pub type AdvPool = Pool<AdvNode, AdversaryRules>;

impl NodeRules<AdvNode> for AdversaryRules {
    ghost use Rattle.adversary_graph.specs.Legal.{IsNodeOfFormat, MeetsRulesUnder};
    ghost use Rattle.adversary_graph.specs.Nodes.{position_of};
    ghost use Rattle.adversary_graph.specs.NodesAreJudged as judged;

    ghost position = { position_of };

    ghost IsOfFormat = { IsNodeOfFormat };

    ghost MeetsRules = { MeetsRulesUnder };

    ghost nodes_of_side = { sides.Adversary };

    ghost root_is_asked_last = { judged.root_is_asked_last };

    ghost rules_give_a_position = { judged.rules_give_a_position };

    ghost sides_differ = { judged.sides_differ };

    fn loads(node: &AdvNode) -> &[u16] {
        node.loads.as_slice()
    }

    fn items(node: &AdvNode) -> &[u16] {
        node.items.as_slice()
    }

    fn into_strategy_nodes(nodes: AdvNodes) -> Nodes
        ensures { result ≡ sides.Adversary nodes }
    {
        Nodes::Adversary(nodes)
    }

    fn from_strategy_nodes(nodes: Nodes) -> AdvNodes
        requires { (list : List AdvNode) × (nodes ≡ sides.Adversary list) }
        ensures { nodes ≡ sides.Adversary result }
    {
        let Nodes::Adversary(nodes) = nodes else {
            unreachable!()
        };
        nodes
    }
}
