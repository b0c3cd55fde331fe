use super::*;
use items::{Game, Nums};
use online_play::{Bins, Transcript};
use packing_witness::Packing;
use std::alloc::{AllocError, Global};
use std::test::*;

/// A play and its text.
struct Played {
    name: &'static str,
    items: &'static [u16],
    bins: &'static [u8],
    loads: &'static [u16],
    packing: &'static [&'static [u16]],
    text: &'static str,
}

const PLAYS: [Played; 5] = [
    Played {
        name: "first-fit",
        items: &[1, 1, 2, 2],
        bins: &[0, 0, 1, 0],
        loads: &[4, 2],
        packing: &[&[1, 2], &[1, 2]],
        text: "play first-fit 2 3 4\nitems 1 1 2 2\nbins 0 0 1 0\nloads 4 2\npack 1 2 / 1 2\n",
    },
    Played {
        name: "best-fit",
        items: &[1, 1, 2, 2],
        bins: &[0, 0, 1, 0],
        loads: &[4, 2],
        packing: &[&[1, 2], &[1, 2]],
        text: "play best-fit 2 3 4\nitems 1 1 2 2\nbins 0 0 1 0\nloads 4 2\npack 1 2 / 1 2\n",
    },
    Played {
        name: "least-loaded",
        items: &[1, 1, 3],
        bins: &[0, 1, 0],
        loads: &[4, 1],
        packing: &[&[3], &[1, 1]],
        text: "play least-loaded 2 3 4\nitems 1 1 3\nbins 0 1 0\nloads 4 1\npack 3 / 1 1\n",
    },
    Played {
        name: "one item",
        items: &[3],
        bins: &[1],
        loads: &[0, 3],
        packing: &[&[], &[3]],
        text: "play one item 2 3 4\nitems 3\nbins 1\nloads 0 3\npack - / 3\n",
    },
    Played {
        name: "",
        items: &[],
        bins: &[],
        loads: &[],
        packing: &[&[], &[]],
        text: "play  2 3 4\nitems -\nbins -\nloads -\npack - / -\n",
    },
];

/// The list of these bins.
fn bins_of(alloc: Global, list: &[u8]) -> Result<Bins, AllocError> {
    let mut bins = Bins::new(alloc);
    for bin in list {
        bins.push(*bin)?;
    }
    Ok(bins)
}

/// The packing of these lists.
fn packing_of(alloc: Global, lists: &[&[u16]]) -> Result<Packing, AllocError> {
    let mut packing = Packing::new(alloc);
    for list in lists {
        packing.push_bin(Nums::from_slice(alloc, list)?)?;
    }
    Ok(packing)
}

/// The transcript of a play.
fn transcript_of(alloc: Global, played: &Played) -> Result<Transcript, AllocError> {
    Ok(Transcript {
        items: Nums::from_slice(alloc, played.items)?,
        bins: bins_of(alloc, played.bins)?,
        loads: Nums::from_slice(alloc, played.loads)?,
        packing: packing_of(alloc, played.packing)?,
    })
}

/// What an algorithm answered, as in a play.
fn answered_of(alloc: Global, played: &Played) -> Result<Answered, AllocError> {
    Ok(Answered {
        items: Nums::from_slice(alloc, played.items)?,
        bins: bins_of(alloc, played.bins)?,
        loads: Nums::from_slice(alloc, played.loads)?,
    })
}

#[test]
fn plays_are_written(rt: HostRuntime) -> Result<(), Fail> {
    let alloc = rt.alloc();
    let game = Game::new(2, 3, 4)?;
    for played in &PLAYS {
        let transcript = transcript_of(alloc, played)?;
        let text = match_text(alloc, played.name, &game, &transcript)?;
        assert_eq!(rt; text.as_slice(), played.text.as_bytes());
    }
    Ok(())
}

#[test]
fn answers_are_written(rt: HostRuntime) -> Result<(), Fail> {
    let alloc = rt.alloc();
    let game = Game::new(2, 3, 4)?;
    let some = answer_text(alloc, &game, &answered_of(alloc, &PLAYS[2])?)?;
    assert_eq!(rt;
        some.as_slice(),
        "answer 2 3 4\nitems 1 1 3\nbins 0 1 0\nloads 4 1\n".as_bytes()
    );
    let none = answer_text(alloc, &game, &answered_of(alloc, &PLAYS[4])?)?;
    assert_eq!(rt;
        none.as_slice(),
        "answer 2 3 4\nitems -\nbins -\nloads -\n".as_bytes()
    );
    Ok(())
}
