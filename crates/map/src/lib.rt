// The map: position p is bit p mod 64 of word p div 64.
#![tactic(auto)]

ghost use Rattle.std.specs.Prelude.{◌≡◌, ◌≤◌, ◌<◌, length};
ghost use Rattle.numbers.specs.Lists.{cleared};
ghost use Rattle.rules.specs.Bench.{most_positions};
ghost use Rattle.rules.specs.Shown.{map_words};
ghost use Rattle.map.specs.Map.{is_set, marked_if, opened, ones_of};

use rules::limits::MAP_WORDS;

// Whether position p is set.
pub fn is_set(map: &[u64], p: usize) -> bool
    ensures { result ≡ is_set map.now p }
{
    let word = p / 64;
    word < map.len() && (map[word] >> (p % 64)) & 1 == 1
}

// Position p is set where its sample is outside.
#[tactic(auto, unfolding(crate::specs::Map::marked_if))]
pub fn mark_if(map: &mut [u64], p: usize, outside: bool)
    requires { (p < most_positions) × (map_words ≤ length map.old) }
    ensures { map.new ≡ marked_if map.old p outside }
{
    if outside {
        map[p / 64] |= 1 << (p % 64);
    }
}

// The first 750 words are zero.
pub fn clear_map(map: &mut [u64])
    requires { map_words ≤ length map.old }
    ensures { map.new ≡ cleared 0 map_words map.old }
{
    map[..MAP_WORDS].fill(0);
}

// The map before the sample at position p is marked: the first sample of a cycle clears it.
#[tactic(auto, unfolding(crate::specs::Map::opened))]
pub fn open_map(map: &mut [u64], p: usize)
    requires { map_words ≤ length map.old }
    ensures { map.new ≡ opened map.old p }
{
    if p == 0 {
        clear_map(map);
    }
}

// The ones in the first 750 words.
pub fn count_marks(map: &[u64]) -> u64
    requires { map_words ≤ length map.now }
    ensures { (result ≡ ones_of map.now) × (result ≤ most_positions) }
{
    map[..MAP_WORDS]
        .iter()
        .map(|word| u64::from(word.count_ones()))
        .sum()
}
