//! A key type of your own: names that are the same in capitals.
ghost use Rattle.std.specs.Prelude.{◌≡◌, ◌∷◌, [], map, fold, string_bytes};
ghost use Rattle.std.specs.Char.{to_ascii_lowercase};
ghost use Rattle.sw_probe.specs.Hashes.{fnv_of};

use sw_probe::{FNV_START, FnvStep, Keyed, Names, Step, WordStep};

/// A name, which is the same name where only the case of ASCII letters differs.
#[derive(Debug, Drop)]
pub struct Name(pub String);

impl Keyed for Name {
    ghost class = { λ name. map to_ascii_lowercase (string_bytes name.0) };

    ghost bytes = { λ class. class };

    ghost words = { λ class. fnv_of 0 class ∷ [] };

    fn same_key(&self, key: &Name) -> bool {
        self.0.eq_ignore_ascii_case(key.0.as_str())
    }

    fn fold_key<F: Step>(&self, start: u64, f: &F) -> u64 {
        fold_lowercase(self.0.as_bytes(), start, f)
    }

    fn fold_key_words<F: WordStep>(&self, start: u64, f: &F) -> u64 {
        f.step(start, self.fold_key(FNV_START, &FnvStep))
    }
}

/// A name, borrowed.
#[derive(Clone, Copy)]
pub struct NameRef<'a>(pub &'a str);

impl Names<Name> for NameRef<'_> {
    ghost named = { λ name. map to_ascii_lowercase name.0.now };

    fn same(&self, key: &Name) -> bool {
        self.0.eq_ignore_ascii_case(key.0.as_str())
    }

    fn fold<F: Step>(&self, start: u64, f: &F) -> u64 {
        fold_lowercase(self.0.as_bytes(), start, f)
    }

    fn fold_words<F: WordStep>(&self, start: u64, f: &F) -> u64 {
        f.step(
            start,
            fold_lowercase(self.0.as_bytes(), FNV_START, &FnvStep),
        )
    }
}

fn fold_lowercase<F: Step>(bytes: &[u8], start: u64, f: &F) -> u64
    ensures { result ≡ fold (F.next f.now) start (map to_ascii_lowercase bytes.now) }
{
    let mut acc = start;
    for byte in bytes {
        acc = f.step(acc, byte.to_ascii_lowercase());
    }
    acc
}
