//! Classes of keys, values that name them, and their hashes.
ghost use Rattle.std.specs.Prelude.{◌≡◌, ◌↔◌, ℕ, IsTrue, List, fold};

/// A step of a fold over bytes: a function of its own value, the result so far and a byte.
pub trait Step {
    ghost next: { Self → ℕ → ℕ → ℕ };

    fn step(&self, acc: u64, byte: u8) -> u64
        ensures { result ≡ next self.now acc byte };
}

/// A step of a fold over words of 64 bits: a function of its own value, the result so far and a word.
pub trait WordStep {
    ghost next: { Self → ℕ → ℕ → ℕ };

    fn step(&self, acc: u64, word: u64) -> u64
        ensures { result ≡ next self.now acc word };
}

/// A type of keys. Two keys are the same if their classes are equal. `class` is the class of a key, as a list
/// of numbers. `bytes` are the bytes of a class that are hashed, and `words` the words, for hashers that take
/// eight bytes at once.
pub trait Keyed {
    ghost class: { Self → List ℕ };

    ghost bytes: { List ℕ → List ℕ };

    ghost words: { List ℕ → List ℕ };

    /// Whether two keys are the same.
    fn same_key(&self, key: &Self) -> bool
        ensures { IsTrue result ↔ (class self.now ≡ class key.now) };

    /// Folds the step over the key's bytes in order.
    fn fold_key<F: Step>(&self, start: u64, f: &F) -> u64
        ensures { result ≡ fold (F.next f.now) start (bytes (class self.now)) };

    /// Folds the step over the key's words in order.
    fn fold_key_words<F: WordStep>(&self, start: u64, f: &F) -> u64
        ensures { result ≡ fold (F.next f.now) start (words (class self.now)) };
}

/// A value that names a class of keys: a key, or a borrowed form of one.
pub trait Names<K: Keyed> {
    ghost named: { Self → List ℕ };

    /// Whether a key is of the class that this value names.
    fn same(&self, key: &K) -> bool
        ensures { IsTrue result ↔ (named self.now ≡ K.class key.now) };

    /// Folds the step over the bytes of the class in order.
    fn fold<F: Step>(&self, start: u64, f: &F) -> u64
        ensures { result ≡ fold (F.next f.now) start (K.bytes (named self.now)) };

    /// Folds the step over the words of the class in order.
    fn fold_words<F: WordStep>(&self, start: u64, f: &F) -> u64
        ensures { result ≡ fold (F.next f.now) start (K.words (named self.now)) };
}

impl<K: Keyed> Names<K> for K {
    ghost named = { K.class };

    #[inline]
    fn same(&self, key: &K) -> bool {
        self.same_key(key)
    }

    #[inline]
    fn fold<F: Step>(&self, start: u64, f: &F) -> u64 {
        self.fold_key(start, f)
    }

    #[inline]
    fn fold_words<F: WordStep>(&self, start: u64, f: &F) -> u64 {
        self.fold_key_words(start, f)
    }
}

/// A hash of keys, which depends on nothing but the hasher's value and the class.
pub trait KeyHash<K: Keyed> {
    ghost hash_of: { Self → List ℕ → ℕ };

    fn hash<Q: Names<K>>(&self, key: &Q) -> u64
        ensures { result ≡ hash_of self.now (Q.named key.now) };
}
