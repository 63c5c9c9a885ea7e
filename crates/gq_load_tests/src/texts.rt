//! Texts of about 22 bytes, which is the most that is stored inline, with enough memory and with none.
use gq_row::{Text, Value};
use starved_tests::Starved;
use std::alloc::{AllocError, Global};
use std::mem::size_of;
use std::process::Abort;
use std::test::Fail;

/// Texts with their folds: of 0, 1, 21, 22, 23 and 24 bytes, and with a letter of two bytes, or one of four,
/// that ends at byte 22 or after it.
const TEXTS: [(&str, &str); 10] = [
    ("", ""),
    ("A", "a"),
    ("a\0", "a\0"),
    ("ABCDEFGHIJKLMNOPQRSTU", "abcdefghijklmnopqrstu"),
    ("ABCDEFGHIJKLMNOPQRSTUV", "abcdefghijklmnopqrstuv"),
    ("ABCDEFGHIJKLMNOPQRSTUW", "abcdefghijklmnopqrstuw"),
    ("ABCDEFGHIJKLMNOPQRSTUVW", "abcdefghijklmnopqrstuvw"),
    ("ABCDEFGHIJKLMNOPQRSTUVWX", "abcdefghijklmnopqrstuvwx"),
    ("ABCDEFGHIJKLMNOPQRSTÄ", "abcdefghijklmnopqrstÄ"),
    ("ABCDEFGHIJKLMNOPQRSTU😀", "abcdefghijklmnopqrstu😀"),
];

/// A text that is overwritten with another equals that one.
fn expect_written(rt: &impl Abort, alloc: Global, old: &str, new: &str) -> Result<(), AllocError> {
    let mut over = Text::of(alloc, old)?;
    let other = Text::of(alloc, new)?;
    assert!(rt; (over == other) == (old == new));
    let mut copied = over.copy(alloc)?;
    copied.copy_from(alloc, &other)?;
    assert!(rt; copied == other);
    over.write(alloc, new)?;
    assert!(rt; over == other);
    assert_eq!(rt; over.as_str(), new);
    Ok(())
}

fn expect_over_each(rt: &impl Abort, alloc: Global, new: &str) -> Result<(), AllocError> {
    for (old, _) in TEXTS {
        expect_written(rt, alloc, old, new)?;
    }
    Ok(())
}

#[test]
fn written_over_one_another(rt: HostRuntime) -> Result<(), Fail> {
    for (new, _) in TEXTS {
        expect_over_each(&rt, rt.alloc(), new)?;
    }
    Ok(())
}

#[test]
fn copied_and_folded(rt: HostRuntime) -> Result<(), Fail> {
    let alloc = rt.alloc();
    for (chars, fold) in TEXTS {
        let text = Text::of(alloc, chars)?;
        assert_eq!(rt; text.copy(alloc)?.as_str(), chars);
        assert_eq!(rt; text.copy_folded(alloc)?.as_str(), fold);
        assert_eq!(rt; text.len(), chars.len());
        let owned = String::from_str(alloc, chars)?;
        assert!(rt; Text::from_string(alloc, owned)? == text);
    }
    Ok(())
}

/// Without memory a short text is made, copied and written, and a long one fails: the overwritten text is then
/// empty.
#[test]
fn without_memory(rt: HostRuntime) -> Result<(), Fail> {
    let alloc = rt.alloc();
    let mut text = Text::of(alloc, "ABCDEFGHIJKLMNOPQRSTUVW")?;
    let mut other = Text::of(alloc, "a")?;
    let starved = Starved::new(alloc)?;
    assert!(rt; other.copy_from(alloc, &text).is_err());
    assert_eq!(rt; other.as_str(), "");
    assert!(rt; text.copy(alloc).is_err());
    assert!(rt; Text::of(alloc, "ABCDEFGHIJKLMNOPQRSTUVW").is_err());
    assert!(rt; text.write(alloc, "ABCDEFGHIJKLMNOPQRSTUV").is_ok());
    assert_eq!(rt; text.copy(alloc)?.as_str(), "ABCDEFGHIJKLMNOPQRSTUV");
    assert!(rt; other.copy_from(alloc, &text).is_ok());
    assert_eq!(rt; other.as_str(), "ABCDEFGHIJKLMNOPQRSTUV");
    drop(starved);
    Ok(())
}

/// A value with 22 bytes of text inline is no larger than one with a string.
#[test]
fn sizes(rt: HostRuntime) {
    assert_eq!(rt; size_of::<Text>(), 24);
    assert_eq!(rt; size_of::<Value>(), 32);
}
