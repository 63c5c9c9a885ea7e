//! The number of lines in bytes.
ghost use Rattle.std.specs.Prelude.{◌≡◌, ◌≤◌, ◌==◌, length, count_by};

// How many bytes are counted at once: their count fits one byte, so the compiler compares sixteen in
// one step.
const PIECE: usize = 240;

/// The number of line feeds.
pub fn line_ends(bytes: &[u8]) -> usize
    ensures { result ≡ count_by (λ byte. byte == 10) bytes.now }
{
    let mut count = 0;
    let mut at = 0;
    while bytes.len() - at > PIECE {
        let end = at + PIECE;
        count += usize::from(few_line_ends(&bytes[at..end]));
        at = end;
    }
    count + usize::from(few_line_ends(&bytes[at..]))
}

fn few_line_ends(bytes: &[u8]) -> u8
    requires { length bytes.now ≤ 240 }
    ensures { result ≡ count_by (λ byte. byte == 10) bytes.now }
{
    let mut count = 0;
    for byte in bytes {
        if *byte == b'\n' {
            count += 1;
        }
    }
    count
}
