//! Tests of pairs: what a drain asks at each pair.
ghost use Rattle.std.specs.Prelude.{◌≡◌, Bool};
ghost use Rattle.std.specs.Fn.{CalledAt, TakesAt};
ghost use Rattle.std.specs.Map.Calls.{CalledAtPair, TakesPair};

use std::marker::Model;

/// A test of pairs, which may write to a pair's value and change its own state. A drain removes the pairs that pass it.
///
/// `ByPair` and `ByKey` make one from a closure.
pub trait PairTest<K, V>: Drop {
    /// The test may be called at this key and value.
    ghost accepts: { Self → K → V → Type 0 };

    /// A call at this key and value may return this, and leave this value and this state.
    ghost step: { Self → K → V → Bool → V → Self → Type 0 };

    /// Returns whether the pair passes.
    fn passes(&mut self, key: &K, value: &mut V) -> bool
        requires { accepts self.old key.now value.old }
        ensures { step self.old key.now value.old result value.new self.new };
}

/// The test by a closure over a key and its value.
#[derive(Drop)]
pub struct ByPair<F> {
    pub(crate) call: F,
}

impl<F> Model for ByPair<F> {
    ghost Value = { F };

    ghost view = { λ t. t.call };
}

impl<F> ByPair<F> {
    /// Returns the test that calls the closure.
    pub fn new(call: F) -> Self
        ensures { result ≡ call }
    {
        ByPair { call }
    }
}

impl<K, V, F: FnMut(&K, &mut V) -> bool> PairTest<K, V> for ByPair<F> {
    ghost accepts = { TakesPair F.FnMut };

    ghost step = { CalledAtPair F.FnMut };

    fn passes(&mut self, key: &K, value: &mut V) -> bool {
        (self.call)(key, value)
    }
}

/// The test by a closure over a key. It writes to no value.
#[derive(Drop)]
pub struct ByKey<F> {
    pub(crate) call: F,
}

impl<F> Model for ByKey<F> {
    ghost Value = { F };

    ghost view = { λ t. t.call };
}

impl<F> ByKey<F> {
    /// Returns the test that calls the closure.
    pub fn new(call: F) -> Self
        ensures { result ≡ call }
    {
        ByKey { call }
    }
}

impl<K, V, F: FnMut(&K) -> bool> PairTest<K, V> for ByKey<F> {
    ghost accepts = { λ f k _. TakesAt F.FnMut f k };

    ghost step = { λ f k v b w f'. CalledAt F.FnMut f k b f' × (w ≡ v) };

    fn passes(&mut self, key: &K, _value: &mut V) -> bool {
        (self.call)(key)
    }
}
