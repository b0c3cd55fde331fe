//! Laws of the algorithm's strategies, as contracts of functions that do nothing.

ghost use Rattle.algorithm_graph.specs.Laws.{RepliesAreAnAlgorithm, RunsAreReplays};
ghost use Rattle.algorithm_graph.specs.Laws.{LegalReplaysStayBelow, LegalRepliesKeepBelow};
ghost use Rattle.items.specs.Multiset.{sizes_of};
ghost use Rattle.algorithm_graph.specs.Legal.{IsLegal};

use crate::file::FileAlgorithm;

/// The replies of nodes to a game are an online algorithm of it, and its run is their replay.
pub fn replies_are_an_algorithm()
    ensures algorithm { RepliesAreAnAlgorithm }
    ensures run { RunsAreReplays }
{}

/// The replies of a legal strategy keep every load below the target, on every packable list of items. Where the items
/// that may come have listed sizes, the replay keeps every load below the target on the packable lists of these.
pub fn legal_replies_keep_every_load_below()
    ensures below { LegalRepliesKeepBelow }
    ensures listed { LegalReplaysStayBelow }
{}

/// The nodes that a file's algorithm replies by are a legal strategy of its game.
pub fn file_is_legal(algorithm: &FileAlgorithm)
    ensures legal { let file = algorithm.now in IsLegal file.format file.game (sizes_of file.game) file.nodes }
{
    algorithm.see_legal();
}
