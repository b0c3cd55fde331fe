//! The command `answer`.

ghost use Rattle.std.specs.Prelude.{◌≡◌, ◌≢◌, ℕ, List, All, IfOk, MatchOption, decimal, map, string_bytes};
ghost use Rattle.algorithm_graph.specs.Pools.{IsLegalOfAlgorithm};
ghost use Rattle.items.specs.Multiset.{IsSize};
ghost use Rattle.stretch_bench.specs.Answer.{IsAnswerOf, IsUnpackable, most_item, unpackable_line};
ghost use Rattle.stretch_bench.specs.Call.{Players};
ghost use Rattle.stretch_bench.specs.Commands.{Spells, spelling_of};
ghost use Rattle.stretch_bench.specs.Pieces.{IsEither};
ghost use Rattle.stretch_bench.specs.declared.command.Command.TheVariants.{Answer};
ghost use Rattle.stretch_bench.specs.declared.status.Status.TheVariants.{Done, Unpackable};

use crate::due::Due;
use crate::lines::text_of_line;
use crate::number::number_of;
use crate::status::Status;
use algorithm_graph::{AlgJudged, FileAlgorithm};
use items::Nums;
use match_player::{AnswerFault, answer, answer_text};
use std::alloc::{AllocError, Global};
use strategy_text::{Strategy, Text};

/// The items of the words `answer ITEM ..`.
pub(crate) fn answer_of(alloc: Global, words: &[String]) -> Result<Option<Nums>, AllocError>
    ensures { (players : Players) → IfOk result (λ read. MatchOption read
        ((items : List ℕ) → Spells players (spelling_of words.now) (Answer items) → ⊥)
        (λ items. Spells players (spelling_of words.now) (Answer items))) }
{
    let [first, others @ ..] = words else {
        return Ok(None);
    };
    if first.as_str() != "answer" {
        return Ok(None);
    }
    item_list(alloc, others)
}

// The items that words tell.
fn item_list(alloc: Global, words: &[String]) -> Result<Option<Nums>, AllocError>
    ensures { IfOk result (λ read. MatchOption read
        ((items : List ℕ) → All (IsSize most_item) items → spelling_of words.now ≢ map decimal items)
        (λ items. (spelling_of words.now ≡ map decimal items) × All (IsSize most_item) items)) }
{
    let mut items = Nums::new(alloc);
    for word in words {
        let Some(item) = number_of(word.as_str(), 1, u64::from(u16::MAX)) else {
            return Ok(None);
        };
        items.push(item as u16)?;
    }
    Ok(Some(items))
}

/// The lines of the replies of a legal strategy to a list of items, or the line of how many of them do not fit.
pub(crate) fn answered(alloc: Global, items: &[u16], strategy: Strategy) -> Result<Due, AllocError>
    requires legal { IsLegalOfAlgorithm strategy }
    ensures replies { IfOk result (IsEither Done (IsAnswerOf items.now strategy)
        Unpackable (IsUnpackable items.now strategy)) }
{
    let game = strategy.game;
    let nodes = AlgJudged::from_strategy(strategy);
    let root = nodes.len() - 1;
    let algorithm = FileAlgorithm::of_nodes(nodes, root);
    match answer(alloc, &algorithm, items) {
        Ok(answered) => {
            let lines = answer_text(alloc, &game, &answered)?;
            Ok(Due::of_lines(Status::Done, lines))
        }
        Err(AnswerFault::Unpackable { place }) => {
            let line = line_of_unpackable(alloc, place)?;
            Ok(Due::of_lines(Status::Unpackable, line))
        }
        Err(AnswerFault::Memory) => Err(AllocError),
    }
}

// The line for items of which the first ones, so many, are not packable.
fn line_of_unpackable(alloc: Global, place: usize) -> Result<Text, AllocError>
    ensures { IfOk result (λ text. text ≡ unpackable_line place) }
{
    let line = unpackable_words(alloc, place)?;
    text_of_line(alloc, line.as_str())
}

fn unpackable_words(alloc: Global, place: usize) -> Result<String, AllocError>
    ensures { IfOk result (λ line. string_bytes line ≡ unpackable_line place) }
{
    format!(in alloc; "unpackable {place}\n")
}

#[cfg(test)]
mod tests {
    use crate::tests::{LEGAL, OF_ALGORITHM, Run, WITH_BIG, is_due};

    const ANSWERS: [Run; 8] = [
        (
            "answer 1 2 1",
            OF_ALGORITHM,
            0,
            "answer 2 2 3\nitems 1 2 1\nbins 0 1 0\nloads 2 2\n",
        ),
        (
            "answer",
            OF_ALGORITHM,
            0,
            "answer 2 2 3\nitems -\nbins -\nloads 0 0\n",
        ),
        ("answer 1 1 2 1", OF_ALGORITHM, 7, "unpackable 4\n"),
        ("answer 3", OF_ALGORITHM, 7, "unpackable 1\n"),
        ("answer 65535 1", OF_ALGORITHM, 7, "unpackable 1\n"),
        (
            "answer 2 2",
            OF_ALGORITHM,
            0,
            "answer 2 2 3\nitems 2 2\nbins 0 1\nloads 2 2\n",
        ),
        (
            "answer 2 2",
            WITH_BIG,
            0,
            "answer 2 2 3\nitems 2 2\nbins 0 1\nloads 2 2\n",
        ),
        ("answer 3", LEGAL, 1, "rejected line 3 rule side\n"),
    ];

    #[test]
    fn answers_are_written(rt: HostRuntime) {
        for row in &ANSWERS {
            assert!(rt; is_due(rt.alloc(), row).unwrap_or(false), "{}", row.0);
        }
    }
}
