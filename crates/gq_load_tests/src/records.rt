//! Records of texts, compared with those of the `csv` crate's own reader.
use csv::{ByteRecord, ReaderBuilder};
use gq_csv::{Record, RecordReader};
use std::alloc::Global;
use std::io;
use std::io::Read;
use std::process::Abort;
use std::test::Fail;

/// What follows some plain bytes in a text.
const MIDDLES: [&[u8]; 12] = [
    b",",
    b"\"",
    b"\n",
    b"\r\n",
    b"\r",
    b",\"q\"\"\r\n,q\",",
    b"\n\"a quote\",",
    b"\n\n\r\n\r",
    b",,\n,\n",
    b"\n\"\"\n",
    b"\n\"open, and never closed\n",
    b"",
];

const ENDS: [&[u8]; 4] = [b"", b"\n", b",b\r\nnext,\"line\"", b"\"\n,\n"];

/// A source that gives one byte at a time.
#[derive(Drop)]
struct Drip<'a> {
    bytes: &'a [u8],
}

impl Read for Drip<'_> {
    fn read(&mut self, buf: &mut [u8]) -> io::Result<usize> {
        let (Some(first), Some(place)) = (self.bytes.first(), buf.first_mut()) else {
            return Ok(0);
        };
        *place = *first;
        self.bytes = &self.bytes[1..];
        Ok(1)
    }
}

fn are_same(fields: &Record<'_>, expected: &ByteRecord) -> bool {
    for i in 0..expected.len() {
        if fields.get(i) != expected.get(i) {
            return false;
        }
    }
    fields.len() == expected.len()
}

/// A source gives the records that the `csv` crate finds in a text.
fn expect_records<R: Read + Drop>(
    rt: &impl Abort,
    alloc: Global,
    source: R,
    text: &[u8],
) -> Result<(), Fail> {
    let mut expected = ReaderBuilder::new()
        .has_headers(false)
        .flexible(true)
        .from_reader(alloc, text);
    let mut byte_record = ByteRecord::new(alloc);
    let mut reader = RecordReader::new(alloc, source)?;
    for number in 0..=text.len() {
        let found = reader.read()?;
        assert_eq!(rt;
            found,
            expected.read_byte_record(&mut byte_record)?,
            "record {number}"
        );
        if !found {
            return Ok(());
        }
        assert!(rt; are_same(&reader.record(), &byte_record), "record {number}");
    }
    assert!(rt; false, "too many records");
    Ok(())
}

fn expect_both(rt: &impl Abort, alloc: Global, text: &[u8]) -> Result<(), Fail> {
    expect_records(rt, alloc, text, text)?;
    expect_records(rt, alloc, Drip { bytes: text }, text)
}

/// Texts that begin with so many plain bytes.
fn expect_after(rt: &impl Abort, alloc: Global, count: usize) -> Result<(), Fail> {
    for middle in MIDDLES {
        for end in ENDS {
            let mut text = vec![in alloc; b'p'; count]?;
            text.extend_from_slice(middle)?;
            text.extend_from_slice(b"tail")?;
            text.extend_from_slice(end)?;
            expect_both(rt, alloc, text.as_slice())?;
        }
    }
    Ok(())
}

#[test]
fn special_bytes_at_each_place(rt: HostRuntime) -> Result<(), Fail> {
    for count in 0..=40usize {
        expect_after(&rt, rt.alloc(), count)?;
    }
    Ok(())
}

// The buffer has 8,192 bytes.
#[test]
fn records_at_the_end_of_the_buffer(rt: HostRuntime) -> Result<(), Fail> {
    for count in 8_180..=8_193usize {
        expect_after(&rt, rt.alloc(), count)?;
    }
    expect_after(&rt, rt.alloc(), 20_000)
}

#[test]
fn marks_at_the_start(rt: HostRuntime) -> Result<(), Fail> {
    let texts: [&[u8]; 7] = [
        b"",
        b"\xef\xbb\xbf",
        b"\xef\xbb",
        b"\xef\xbb\xbf\xef\xbb\xbfa,b\n",
        b"\xef\xbb\xbf\"a\",b\n",
        b"\xef\xbb\xbf\n\na",
        b"\xef\xbf\xbba\n",
    ];
    for text in texts {
        expect_both(&rt, rt.alloc(), text)?;
    }
    Ok(())
}
