//! Pools of nodes of the algorithm.

ghost use Rattle.std.specs.Prelude.{◌≡◌, List};
ghost use Rattle.strategy_text.specs.declared.node.AlgNode.{AlgNode};
ghost use Rattle.strategy_text.specs.declared.node.Nodes.TheVariants as sides;

use items::Sequence;
use node_pool::{JudgedNodes, NodeRules, Pool};
use strategy_text::{AlgNode, AlgNodes, Nodes};

/// The rules of the algorithm's nodes.
#[derive(Drop)]
pub struct AlgorithmRules;

/// Nodes of the algorithm, numbered from 0. Each meets every rule but `root` over the nodes before it, so any node with
/// the empty position ends a legal strategy.
pub type AlgJudged = JudgedNodes<AlgNode, AlgorithmRules>;

/// Such nodes with their positions at hand.
pub type AlgPool = Pool<AlgNode, AlgorithmRules>;

impl NodeRules<AlgNode> for AlgorithmRules {
    ghost use Rattle.algorithm_graph.specs.Legal.{IsNodeOfFormat, MeetsRulesUnder};
    ghost use Rattle.algorithm_graph.specs.Nodes.{position_of};
    ghost use Rattle.algorithm_graph.specs.NodesAreJudged as judged;

    ghost position = { position_of };

    ghost IsOfFormat = { IsNodeOfFormat };

    ghost MeetsRules = { MeetsRulesUnder };

    ghost nodes_of_side = { sides.Algorithm };

    ghost root_is_asked_last = { judged.root_is_asked_last };

    ghost rules_give_a_position = { judged.rules_give_a_position };

    ghost sides_differ = { judged.sides_differ };

    fn loads(node: &AlgNode) -> &[u16] {
        node.loads.as_slice()
    }

    fn items(node: &AlgNode) -> &[u16] {
        node.items.as_slice()
    }

    fn into_strategy_nodes(nodes: AlgNodes) -> Nodes
        ensures { result ≡ sides.Algorithm nodes }
    {
        Nodes::Algorithm(nodes)
    }

    fn from_strategy_nodes(nodes: Nodes) -> AlgNodes
        requires { (list : List AlgNode) × (nodes ≡ sides.Algorithm list) }
        ensures { nodes ≡ sides.Algorithm result }
    {
        let Nodes::Algorithm(nodes) = nodes else {
            unreachable!()
        };
        nodes
    }
}
