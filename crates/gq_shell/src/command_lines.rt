//! Command lines and what they ask for.
use gq_options::{BadLine, Options, Output, Seed, read_words};
use std::alloc::{AllocError, Global};
use std::test::Fail;

pub(crate) fn owned(alloc: Global, words: &[&str]) -> Result<Vec<String>, AllocError> {
    let mut all = Vec::new(alloc);
    for word in words {
        all.push(String::from_str(alloc, word)?)?;
    }
    Ok(all)
}

/// How the version begins. The whole line is held by `./test`, to that of the toolchain.
pub(crate) const VERSION: &str = "groupsh 0.1.0 (rattle-kit-";

fn defaults<'a>(alloc: Global) -> Options<'a> {
    Options {
        script: None,
        tables: Vec::new(alloc),
        commands: Vec::new(alloc),
        output: Output::Replies,
        ragged: false,
        seed: Seed::Number(0),
        budget: 65_536,
        spill: None,
        stats: false,
        check: false,
    }
}

fn scripted(alloc: Global, script: &str) -> Options {
    Options {
        script: Some(script),
        ..defaults(alloc)
    }
}

fn seeded<'a>(alloc: Global, seed: u64) -> Options<'a> {
    Options {
        seed: Seed::Number(seed),
        ..defaults(alloc)
    }
}

fn randomly_seeded<'a>(alloc: Global) -> Options<'a> {
    Options {
        seed: Seed::Random,
        ..defaults(alloc)
    }
}

fn spilling(alloc: Global, folder: &str) -> Options {
    Options {
        spill: Some(folder),
        ..defaults(alloc)
    }
}

/// Whether a command line names these options.
fn names(alloc: Global, line: &[&str], due: Options) -> Result<bool, Fail> {
    let words = owned(alloc, line)?;
    match read_words(alloc, words.as_slice()) {
        Ok(options) => Ok(options == due),
        Err(_) => Ok(false),
    }
}

#[test]
fn command_lines_with_scripts(rt: HostRuntime) -> Result<(), Fail> {
    let alloc = rt.alloc();
    let cases: [(&[&str], Options); 9] = [
        (&["groupsh"], defaults(alloc)),
        (&["groupsh", "a.gq"], scripted(alloc, "a.gq")),
        (&["groupsh", ""], scripted(alloc, "")),
        (&["groupsh", "-"], scripted(alloc, "-")),
        (&["groupsh", "--", "a.gq"], scripted(alloc, "a.gq")),
        (&["groupsh", "--", "--help"], scripted(alloc, "--help")),
        (&["groupsh", "--", "-V"], scripted(alloc, "-V")),
        (&["groupsh", "--"], defaults(alloc)),
        (&["groupsh", "--", "--seed=5"], scripted(alloc, "--seed=5")),
    ];
    for (line, due) in cases {
        assert!(rt; names(alloc, line, due)?, "{line:?}");
    }
    Ok(())
}

#[test]
fn command_lines_with_numbers(rt: HostRuntime) -> Result<(), Fail> {
    let alloc = rt.alloc();
    let cases: [(&[&str], Options); 10] = [
        (&["groupsh", "--seed", "5"], seeded(alloc, 5)),
        (
            &["groupsh", "a.gq", "--seed=5"],
            Options {
                seed: Seed::Number(5),
                ..scripted(alloc, "a.gq")
            },
        ),
        (&["groupsh", "--seed", "+042"], seeded(alloc, 42)),
        (&["groupsh", "--seed", "0", "7"], scripted(alloc, "7")),
        (
            &["groupsh", "--seed=18446744073709551615"],
            seeded(alloc, u64::MAX),
        ),
        (
            &["groupsh", "--budget", "1"],
            Options {
                budget: 1,
                ..defaults(alloc)
            },
        ),
        (
            &["groupsh", "--budget=1048576", "a.gq"],
            Options {
                budget: 1_048_576,
                ..scripted(alloc, "a.gq")
            },
        ),
        (
            &["groupsh", "a.gq", "--budget", "+07"],
            Options {
                budget: 7,
                ..scripted(alloc, "a.gq")
            },
        ),
        (
            &["groupsh", "--budget=10", "--seed=5"],
            Options {
                budget: 10,
                ..seeded(alloc, 5)
            },
        ),
        (
            &["groupsh", "--seed", "5", "--budget", "10"],
            Options {
                budget: 10,
                ..seeded(alloc, 5)
            },
        ),
    ];
    for (line, due) in cases {
        assert!(rt; names(alloc, line, due)?, "{line:?}");
    }
    Ok(())
}

#[test]
fn command_lines_with_random_seeds(rt: HostRuntime) -> Result<(), Fail> {
    let alloc = rt.alloc();
    let cases: [(&[&str], Options); 7] = [
        (&["groupsh", "--seed", "random"], randomly_seeded(alloc)),
        (&["groupsh", "--seed=random"], randomly_seeded(alloc)),
        (
            &["groupsh", "--seed", "random", "a.gq"],
            Options {
                script: Some("a.gq"),
                ..randomly_seeded(alloc)
            },
        ),
        (
            &["groupsh", "a.gq", "--seed=random"],
            Options {
                script: Some("a.gq"),
                ..randomly_seeded(alloc)
            },
        ),
        (&["groupsh", "random"], scripted(alloc, "random")),
        (
            &["groupsh", "--seed", "0", "random"],
            scripted(alloc, "random"),
        ),
        (&["groupsh", "--spill", "random"], spilling(alloc, "random")),
    ];
    for (line, due) in cases {
        assert!(rt; names(alloc, line, due)?, "{line:?}");
    }
    Ok(())
}

#[test]
fn command_lines_with_folders_and_reports(rt: HostRuntime) -> Result<(), Fail> {
    let alloc = rt.alloc();
    let cases: [(&[&str], Options); 8] = [
        (&["groupsh", "--spill", "d"], spilling(alloc, "d")),
        (&["groupsh", "--spill=-d"], spilling(alloc, "-d")),
        (&["groupsh", "--spill", "-"], spilling(alloc, "-")),
        (&["groupsh", "--spill="], spilling(alloc, "")),
        (&["groupsh", "--spill", ""], spilling(alloc, "")),
        (
            &["groupsh", "--stats"],
            Options {
                stats: true,
                ..defaults(alloc)
            },
        ),
        (
            &["groupsh", "a.gq", "--stats"],
            Options {
                stats: true,
                ..scripted(alloc, "a.gq")
            },
        ),
        (
            &[
                "groupsh",
                "--stats",
                "--check",
                "--spill",
                "d",
                "--budget=1",
                "--seed",
                "7",
                "a.gq",
            ],
            Options {
                script: Some("a.gq"),
                seed: Seed::Number(7),
                budget: 1,
                spill: Some("d"),
                stats: true,
                check: true,
                ..defaults(alloc)
            },
        ),
    ];
    for (line, due) in cases {
        assert!(rt; names(alloc, line, due)?, "{line:?}");
    }
    Ok(())
}

/// Each wrong command line, and what is wrong with it.
#[test]
fn mistakes(rt: HostRuntime) -> Result<(), Fail> {
    let cases: [(&[&str], &str); 29] = [
        (&["groupsh", "a.gq", "b.gq"], "argument 'b.gq' found\n"),
        (&["groupsh", "--budget", "0"], "0 is not in 1..=1048576"),
        (
            &["groupsh", "--budget=1048577"],
            "1048577 is not in 1..=1048576",
        ),
        (
            &["groupsh", "--budget", "x"],
            "invalid value 'x' for '--budget <N>'",
        ),
        (
            &["groupsh", "--budget"],
            "a value is required for '--budget <N>'",
        ),
        (
            &["groupsh", "--budget=1", "--budget", "1"],
            "cannot be used multiple times",
        ),
        (
            &["groupsh", "--spill"],
            "a value is required for '--spill <DIR>'",
        ),
        (
            &["groupsh", "--spill", "--stats"],
            "a value is required for '--spill <DIR>'",
        ),
        (&["groupsh", "--spill", "-d"], "argument '-d' found\n"),
        (
            &["groupsh", "--spill=d", "--spill=d"],
            "cannot be used multiple times",
        ),
        (
            &["groupsh", "--stats", "--stats"],
            "cannot be used multiple times",
        ),
        (
            &["groupsh", "--stats=x"],
            "unexpected value 'x' for '--stats' found",
        ),
        (&["groupsh", "-x"], "argument '-x' found\n"),
        (&["groupsh", "--versions"], "argument '--versions' found\n"),
        (&["groupsh", "--see", "7"], "argument '--see' found\n"),
        (
            &["groupsh", "--seed"],
            "a value is required for '--seed <N>'",
        ),
        (
            &["groupsh", "--seed", "--", "7"],
            "a value is required for '--seed <N>'",
        ),
        (&["groupsh", "--seed", "-1"], "argument '-1' found\n"),
        (
            &["groupsh", "--seed=-1"],
            "invalid value '-1' for '--seed <N>'",
        ),
        (&["groupsh", "--seed="], "invalid value '' for '--seed <N>'"),
        (
            &["groupsh", "--seed", "x"],
            "invalid value 'x' for '--seed <N>'",
        ),
        (
            &["groupsh", "--seed", "1.5"],
            "invalid value '1.5' for '--seed <N>'",
        ),
        (
            &["groupsh", "--seed", "a.gq"],
            "invalid value 'a.gq' for '--seed <N>'",
        ),
        (
            &["groupsh", "--seed", "18446744073709551616"],
            "number too large to fit in target type",
        ),
        (
            &["groupsh", "--seed", "1", "--seed=1"],
            "cannot be used multiple times",
        ),
        (
            &["groupsh", "--seed", "random", "--seed=1"],
            "cannot be used multiple times",
        ),
        (
            &["groupsh", "--seed", "Random"],
            "invalid value 'Random' for '--seed <N>'",
        ),
        (
            &["groupsh", "--seed=random ", "a.gq"],
            "invalid value 'random ' for '--seed <N>'",
        ),
        (
            &["groupsh", "--seed=", "a.gq"],
            "cannot parse integer from empty string",
        ),
    ];
    for (words, wrong) in cases {
        let words = owned(rt.alloc(), words)?;
        match read_words(rt.alloc(), words.as_slice()) {
            Err(BadLine::Mistake(text)) => {
                assert!(rt; text.as_str().starts_with("error: "), "{text}");
                assert!(rt; text.as_str().contains(wrong), "{text}");
            }
            other => assert!(rt; false, "{words:?}: {other:?}"),
        }
    }
    Ok(())
}

#[test]
fn help(rt: HostRuntime) -> Result<(), Fail> {
    let lines: [&[&str]; 3] = [
        &["groupsh", "--help"],
        &["bin/groupsh", "-h"],
        &["groupsh", "a.gq", "--help"],
    ];
    for words in lines {
        let words = owned(rt.alloc(), words)?;
        let Err(BadLine::Help(text)) = read_words(rt.alloc(), words.as_slice()) else {
            return Err(Fail::new("no help"));
        };
        for part in [
            "Usage: groupsh [OPTIONS] [SCRIPT]\n",
            "  -V, --version  ",
            "upsert s (1, 'Oslo')\n",
            "docs/LANGUAGE.md",
        ] {
            assert!(rt; text.as_str().contains(part), "{text}");
        }
    }
    Ok(())
}

#[test]
fn version(rt: HostRuntime) -> Result<(), Fail> {
    let lines: [&[&str]; 5] = [
        &["groupsh", "--version"],
        &["bin/groupsh", "-V"],
        &["groupsh", "a.gq", "--version"],
        &["groupsh", "--seed=x", "--stats", "-V", "--nonesuch"],
        &["groupsh", "-Vh"],
    ];
    for words in lines {
        let words = owned(rt.alloc(), words)?;
        let Err(BadLine::Version(text)) = read_words(rt.alloc(), words.as_slice()) else {
            return Err(Fail::new("no version"));
        };
        assert!(rt; text.as_str().starts_with(VERSION), "{text}");
        assert!(rt; text.as_str().ends_with(")\n"), "{text}");
        assert_eq!(rt; text.as_str().lines().count(), 1);
    }
    Ok(())
}
