//! Numbers by a key, and those of one key by number.
ghost use Rattle.std.specs.Prelude.{◌≡◌, ◌≤◌, ◌<◌, ◌^◌, All, length};
ghost use Rattle.std.specs.List.{range_with_len};
ghost use Rattle.std.specs.List.Sorted.{IsNonDecreasingBy, IsPermutation};
ghost use Rattle.rankers.specs.ByKey.{by_key, key_in, key_then_number};

/// Fills `out` with the numbers from 0 on, by their keys, and those of one key by number.
///
/// It is for rankers of one's own that go by one number of each coflow, the least first: `rank` fills its `out` with
/// it. `keys` has the key of each coflow by number. A coflow past the end of the keys has the key 0, and keys past the
/// last coflow are not looked at. `out` has one place for each coflow; what stood there is written over. It takes no
/// memory. Contracts call such an order `by_key`.
///
/// A ranker that puts the first deadline first:
///
/// ```text
/// #[derive(Drop)]
/// pub struct Deadlines {
///     slots: Vec<u64>,
/// }
///
/// impl Ranker for Deadlines {
///     ghost use Rattle.std.specs.Prelude.{codes};
///     ghost use Rattle.rankers.specs.ByKey.{by_key, key_in};
///     ghost use Rattle.rankers.specs.FactsTold.{coflows_in};
///     ghost use Rattle.rankers.specs.Kinds.{fixed};
///
///     ghost meaning = { λ s. fixed (codes "deadlines") (λ facts. by_key (key_in s.slots.items) (coflows_in facts)) };
///
///     fn name(&self) -> &str {
///         "deadlines"
///     }
///
///     fn rank(&mut self, facts: &Facts, out: &mut [u32]) {
///         let _few = facts.coflows(); // tells the proof that there are at most 4096
///         fill_by_key(&self.slots, out);
///     }
///
///     fn note(&mut self, _coflow: u32, _slot: u64) {}
/// }
/// ```
pub fn fill_by_key(keys: &[u64], out: &mut [u32])
    requires { length out.old ≤ 2 ^ 32 }
    ensures order { out.new ≡ by_key (key_in keys.now) (length out.old) }
    ensures known { All (λ c. c < length out.old) out.new }
{
    number(out);
    sort_by_key(keys, out);
}

/// Numbers the places from 0 on.
pub(crate) fn number(out: &mut [u32])
    requires { length out.old ≤ 2 ^ 32 }
    ensures { out.new ≡ range_with_len 0 (length out.old) }
{
    for place in 0..out.len() {
        out[place] = place as u32;
    }
}

/// Sorts numbers by their keys, and those of one key by number.
fn sort_by_key(keys: &[u64], numbers: &mut [u32])
    ensures moved { IsPermutation numbers.old numbers.new }
    ensures sorted { IsNonDecreasingBy (λ c. key_then_number (key_in keys.now c) c) numbers.new }
{
    numbers.sort_unstable_by_key(|number| key_then_number(key_in(keys, *number), *number));
}

/// The key of a number, 0 where it is past the end of the keys.
pub(crate) fn key_in(keys: &[u64], number: u32) -> u64
    ensures { result ≡ key_in keys.now number }
{
    match keys.get(number as usize) {
        Some(key) => *key,
        None => 0,
    }
}

/// A number that compares as the key, and then as the number.
fn key_then_number(key: u64, number: u32) -> u128
    ensures { result ≡ key_then_number key number }
{
    u128::from(key) * 4_294_967_296 + u128::from(number)
}
