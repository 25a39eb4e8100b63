// The map: its places are a slice that the caller lends, and it is written once, for every lawful key.
// A slice and no map of std's, since nothing here may allocate.
#![tactic(auto)]

ghost use Rattle.std.specs.Prelude.{◌≡◌, Bool, true, ◌==◌, position};
ghost use Rattle.keyed.specs.Lookup.{hit, is_empty, lookup, Inserts, NeverRefused, same_subresource};
ghost use Rattle.std.proofs.Common.{rules};

// What the map asks of a key: a sameness with three laws, and a test for it.
// Not std's `Eq`: must-fail edits turn the test that each key states here, and a derive has none that they could turn.
pub trait Key: Copy {
    ghost same: { Self → Self → Bool };

    fn is_same(&self, other: &Self) -> bool
        ensures { result ≡ same self.now other.now };

    ghost reflexive: { (a : Self) → same a a ≡ true };

    ghost symmetric: { (a b : Self) → same a b ≡ true → same b a ≡ true };

    ghost transitive: { (a b c : Self) → same a b ≡ true → same b c ≡ true → same a c ≡ true };
}

// What a place that is taken holds.
#[derive(Clone, Copy, PartialEq, Eq, Debug)]
pub struct Entry<K, V> {
    pub key: K,
    pub value: V,
}

// The refusal of a new key where every place is taken.
#[derive(Clone, Copy, PartialEq, Eq, Debug)]
pub struct Full;

// The first place that has the key.
fn place_of<K: Key, V: Copy>(places: &[Option<Entry<K, V>>], key: &K) -> Option<usize>
    ensures { result ≡ position (hit K.Key.same key.now) places.now }
{
    places
        .iter()
        .position(|place| place.is_some_and(|entry| entry.key.is_same(key)))
}

fn first_empty<K: Copy, V: Copy>(places: &[Option<Entry<K, V>>]) -> Option<usize>
    ensures { result ≡ position is_empty places.now }
{
    places.iter().position(|place| place.is_none())
}

// The value that stands under the key.
pub fn get<K: Key, V: Copy>(places: &[Option<Entry<K, V>>], key: &K) -> Option<V>
    ensures { result ≡ lookup K.Key.same places.now key.now }
{
    places
        .iter()
        .copied()
        .flatten()
        .find(|entry| entry.key.is_same(key))
        .map(|entry| entry.value)
}

// Puts the value under the key, and answers the earlier one; a new key is refused where every place is taken.
pub fn insert<K: Key, V: Copy>(
    places: &mut [Option<Entry<K, V>>],
    key: K,
    value: V,
) -> Result<Option<V>, Full>
    ensures effect { Inserts K.Key.same places.old key value result places.new }
    ensures room { NeverRefused K.Key.same places.old key result }
{
    let at = place_of(places, &key)
        .or_else(|| first_empty(places))
        .ok_or(Full)?;
    let earlier = places[at].replace(Entry { key, value });
    Ok(earlier.map(|entry| entry.value))
}

// A location number is a key. Its test is written out, since a must-fail edit turns it.
impl Key for u32 {
    ghost same = { λ a b. (a == b) };

    ghost reflexive = { Prim.search rules };

    ghost symmetric = { Prim.search rules };

    ghost transitive = { Prim.search rules };

    fn is_same(&self, other: &u32) -> bool {
        *self == *other
    }
}

// A part of a texture: one mip of one layer.
#[derive(Clone, Copy, PartialEq, Eq, Debug)]
pub struct Subresource {
    pub texture: u32,
    pub mip: u32,
    pub layer: u32,
}

impl Key for Subresource {
    ghost same = { same_subresource };

    ghost reflexive = { Prim.search rules };

    ghost symmetric = { Prim.search rules };

    ghost transitive = { Prim.search rules };

    fn is_same(&self, other: &Subresource) -> bool {
        self == other
    }
}

#[cfg(test)]
mod tests {
    use super::*;
    use std::test::Fail;

    #[test]
    fn locations(rt: HostRuntime) -> Result<(), Fail> {
        let mut places: [Option<Entry<u32, u32>>; 2] = [None, None];
        assert_eq!(rt; insert(&mut places, 3, 30)?, None);
        assert_eq!(rt; insert(&mut places, 3, 31)?, Some(30));
        assert_eq!(rt; insert(&mut places, 5, 50)?, None);
        assert_eq!(rt; insert(&mut places, 7, 70), Err(Full));
        assert_eq!(rt; get(&places, &7), None);
        assert_eq!(rt; get(&places, &3), Some(31));
        Ok(())
    }

    #[test]
    fn subresources(rt: HostRuntime) -> Result<(), Fail> {
        let base = Subresource {
            texture: 1,
            mip: 0,
            layer: 0,
        };
        let layer = Subresource {
            texture: 1,
            mip: 0,
            layer: 1,
        };
        let mut places: [Option<Entry<Subresource, u32>>; 1] = [None];
        assert_eq!(rt; insert(&mut places, base, 1)?, None);
        assert_eq!(rt; insert(&mut places, layer, 2), Err(Full));
        assert_eq!(rt; get(&places, &layer), None);
        assert_eq!(rt; insert(&mut places, base, 3)?, Some(1));
        Ok(())
    }
}
