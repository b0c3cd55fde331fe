use crate::game::{Game, GameFault};
use crate::items::Items;
use crate::limits::{MOST_SIZE, MOST_VOLUME};
use crate::list::{Nums, Sequence};
use crate::sizes::Sizes;
use std::alloc::{AllocError, Global};
use std::hash::{DefaultHasher, Hash, Hasher};

#[test]
fn the_first_number_out_of_range_is_named(rt: HostRuntime) {
    let cases = [
        (1, 3, 4, Some(GameFault::Bins)),
        (9, 3, 4, Some(GameFault::Bins)),
        (2, 0, 1, Some(GameFault::Capacity)),
        (2, 121, 130, Some(GameFault::Capacity)),
        (2, 3, 3, Some(GameFault::Target)),
        (2, 3, 7, Some(GameFault::Target)),
        (2, 3, 6, None),
        (8, 120, 240, None),
        (65535, 65535, 65535, Some(GameFault::Bins)),
        (2, 65535, 65535, Some(GameFault::Capacity)),
        (2, 120, 65535, Some(GameFault::Target)),
    ];
    for (m, g, t, fault) in cases {
        assert!(rt; Game::new(m, g, t).err() == fault);
    }
}

// Totals of 1,912 and 1,913.
const ONES: &[u16] = &[1; 1912];

const MORE_ONES: &[u16] = &[1; 1913];

const FULL: &[u16] = &[
    112, 120, 120, 120, 120, 120, 120, 120, 120, 120, 120, 120, 120, 120, 120, 120,
];

const MORE_THAN_FULL: &[u16] = &[
    113, 120, 120, 120, 120, 120, 120, 120, 120, 120, 120, 120, 120, 120, 120, 120,
];

// The total, the greatest size, how many items have sizes 1, 2 and 120, and how many are big.
type Told = (u16, u16, u16, u16, u16, u16);

fn told(game: &Game, items: &Items) -> Told {
    (
        items.volume(),
        items.largest(),
        items.count_of(1),
        items.count_of(2),
        items.count_of(120),
        items.count_big(game),
    )
}

// Whether the multiset gives this list.
fn gives(alloc: Global, items: &Items, list: &[u16]) -> bool {
    match items.list(alloc) {
        Ok(given) => given.as_slice() == list,
        Err(_) => false,
    }
}

// Whether a list is refused, or is a multiset that tells this and gives the list.
fn tells(alloc: Global, game: (u16, u16, u16), list: &[u16], wanted: Option<Told>) -> bool {
    let (m, g, t) = game;
    match Game::new(m, g, t) {
        Ok(game) => match Items::from_slice(&game, list) {
            Some(items) => wanted == Some(told(&game, &items)) && gives(alloc, &items, list),
            None => wanted.is_none(),
        },
        Err(_) => false,
    }
}

#[test]
fn lists_are_multisets_or_are_refused(rt: HostRuntime) {
    let cases: [((u16, u16, u16), &[u16], Option<Told>); 11] = [
        ((2, 3, 4), &[1, 1, 2], Some((4, 2, 2, 1, 0, 1))),
        ((2, 3, 4), &[2, 1], None),
        ((2, 3, 4), &[0], None),
        ((2, 3, 4), &[4], None),
        ((2, 3, 4), &[], Some((0, 0, 0, 0, 0, 0))),
        ((2, 3, 4), &[65535, 65535], None),
        ((8, 120, 239), ONES, Some((1912, 1, 1912, 0, 0, 0))),
        ((8, 120, 239), MORE_ONES, None),
        ((8, 120, 239), FULL, Some((1912, 120, 0, 0, 15, 16))),
        ((8, 120, 239), MORE_THAN_FULL, None),
        ((2, 6, 8), &[1, 3, 3, 6], Some((13, 6, 1, 0, 0, 1))),
    ];
    for (game, list, wanted) in cases {
        assert!(rt; tells(rt.alloc(), game, list, wanted));
    }
}

// The multiset with as many more items of a size, put in at once or by the call for one item.
fn with_more(items: Items, s: u16, n: u16, at_once: bool) -> Items {
    if s < 1 || s > MOST_SIZE || n > 9 {
        return items;
    }
    if !at_once && items.volume() + s <= MOST_VOLUME {
        return items.add(s);
    }
    if at_once && items.volume() + n * s <= MOST_VOLUME {
        return items.add_times(s, n);
    }
    items
}

fn added(steps: &[(u16, u16, bool)]) -> Items {
    let mut items = Items::empty();
    for (s, n, at_once) in steps {
        items = with_more(items, *s, *n, *at_once);
    }
    items
}

fn put(list: &[u16]) -> Items {
    let mut items = Items::empty();
    for s in list {
        if *s >= 1 && *s <= MOST_SIZE && items.volume() + *s <= MOST_VOLUME {
            items.put(*s);
        }
    }
    items
}

fn hash_of(items: &Items) -> u64 {
    let mut hasher = DefaultHasher::new();
    items.hash(&mut hasher);
    hasher.finish()
}

fn are_alike(one: &Items, other: &Items) -> bool {
    one == other && one.same(other) && one.copy() == *other && hash_of(one) == hash_of(other)
}

// Whether the multiset of a list is what is put in, and is, or is not, what is added.
fn compares(list: &[u16], steps: &[(u16, u16, bool)], alike: bool) -> bool {
    match Game::new(2, 6, 8) {
        Ok(game) => match Items::from_slice(&game, list) {
            Some(items) => are_alike(&items, &put(list))
                && are_alike(&items, &added(steps)) == alike,
            None => false,
        },
        Err(_) => false,
    }
}

#[test]
fn equal_multisets_hash_alike(rt: HostRuntime) {
    let cases: [(&[u16], &[(u16, u16, bool)], bool); 4] = [
        (
            &[1, 3, 3, 4],
            &[(3, 1, false), (4, 1, false), (1, 1, false), (3, 1, false)],
            true,
        ),
        (
            &[1, 3, 3, 4],
            &[(4, 1, false), (3, 2, true), (1, 1, false), (6, 0, true)],
            true,
        ),
        (&[1, 3, 3, 4], &[(3, 1, false)], false),
        (&[3], &[(3, 1, true)], true),
    ];
    for (list, steps, alike) in cases {
        assert!(rt; compares(list, steps, alike));
    }
}

// Whether these are the sizes that a loop by `least_above` comes to, and the only ones among small numbers.
fn are_sizes(sizes: &Sizes, list: &[u16]) -> bool {
    let mut last = 0;
    for s in list {
        if sizes.least_above(last) != Some(*s) {
            return false;
        }
        last = *s;
    }
    for s in 0..130u16 {
        if sizes.contains(s) != list.contains(&s) {
            return false;
        }
    }
    sizes.least_above(last).is_none()
}

// Whether a list is refused, or gives its sizes.
fn gives_sizes(game: (u16, u16, u16), list: &[u16], whole: bool, taken: bool) -> bool {
    let (m, g, t) = game;
    match Game::new(m, g, t) {
        Ok(game) => match Sizes::from_slice(&game, list) {
            Some(sizes) => {
                taken
                    && are_sizes(&sizes.copy(), list)
                    && are_sizes(&Sizes::of_game(&game), list) == whole
            }
            None => !taken,
        },
        Err(_) => false,
    }
}

#[test]
fn lists_of_sizes_are_taken_or_refused(rt: HostRuntime) {
    let cases: [((u16, u16, u16), &[u16], bool, bool); 9] = [
        ((2, 3, 4), &[1, 2, 3], true, true),
        ((2, 3, 4), &[1, 3], false, true),
        ((2, 3, 4), &[], false, false),
        ((2, 3, 4), &[0, 1], false, false),
        ((2, 3, 4), &[1, 1], false, false),
        ((2, 3, 4), &[3, 2], false, false),
        ((2, 3, 4), &[4], false, false),
        ((2, 120, 200), &[1, 63, 64, 120], false, true),
        ((2, 120, 200), &[120, 65535], false, false),
    ];
    for (game, list, whole, taken) in cases {
        assert!(rt; gives_sizes(game, list, whole, taken));
    }
}

// Whether a list grows so.
fn grows(alloc: Global, first: &[u16], more: u16, wanted: &[u16]) -> Result<bool, AllocError> {
    let mut nums = Nums::from_slice(alloc, first)?;
    nums.push_times(more, 2)?;
    let copy = nums.copy()?;
    Ok(copy.as_slice() == wanted)
}

// Whether an empty list of words holds one that is put in, and no more.
fn holds(alloc: Global, word: u64) -> Result<bool, AllocError> {
    let mut words: Sequence<u64> = Sequence::new(alloc);
    let is_first = words.is_empty();
    words.push(word)?;
    Ok(
        is_first
            && (words.len(), words.get(0).copied(), words.get(1).copied()) == (1, Some(word), None),
    )
}

#[test]
fn lists_hold_what_was_put_in(rt: HostRuntime) {
    assert!(rt; grows(rt.alloc(), &[5, 2], 7, &[5, 2, 7, 7]) == Ok(true));
    assert!(rt; holds(rt.alloc(), 70000) == Ok(true));
}
