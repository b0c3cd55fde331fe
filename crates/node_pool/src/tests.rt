use crate::terms::Terms;
use items::{Game, Sizes};
use strategy_text::Format;

// Whether the terms are of this format and this game, and these are their sizes.
fn are(terms: &Terms, format: Format, game: &Game, listed: &[u16]) -> bool {
    let held = terms.game();
    if terms.format() != format || held.m() != game.m() {
        return false;
    }
    if held.g() != game.g() || held.t() != game.t() {
        return false;
    }
    for size in 0..200u16 {
        if terms.sizes().contains(size) != listed.contains(&size) {
            return false;
        }
    }
    true
}

// Whether terms of a list of sizes have these alone.
fn keep_listed(game: &Game, listed: &[u16]) -> bool {
    match Sizes::from_slice(game, listed) {
        Some(sizes) => are(
            &Terms::of_sizes(Format::Two, game, &sizes),
            Format::Two,
            game,
            listed,
        ),
        None => false,
    }
}

// Whether the terms of a game have all its sizes, and those of a list the listed ones.
fn keep_sizes(bins: u16, capacity: u16, target: u16, all: &[u16], listed: &[u16]) -> bool {
    match Game::new(bins, capacity, target) {
        Ok(game) => {
            are(&Terms::of_game(Format::One, &game), Format::One, &game, all)
                && keep_listed(&game, listed)
        }
        Err(_) => false,
    }
}

#[test]
fn terms_have_all_sizes_of_the_game_or_those_listed(rt: HostRuntime) {
    let rows: [(u16, u16, u16, &[u16], &[u16]); 3] = [
        (2, 3, 4, &[1, 2, 3], &[1, 3]),
        (3, 6, 8, &[1, 2, 3, 4, 5, 6], &[2, 3, 6]),
        (8, 1, 2, &[1], &[1]),
    ];
    for (bins, capacity, target, all, listed) in rows {
        assert!(rt; keep_sizes(bins, capacity, target, all, listed));
    }
}
