//! Values as people see them in a box.
ghost use Rattle.std.specs.Prelude.{◌≡◌, ◌++◌, ◌<◌, List, ℕ, false, OnOk, IsTrue, codes, encode_utf8_all, replicate, string_bytes};
ghost use Rattle.std.specs.Char.{is_control};
ghost use Rattle.std.specs.Fmt.{digit_glyph, digits, signed_decimal};
ghost use Rattle.gq_cells.specs.Cells.{value_of};
ghost use Rattle.gq_format.specs.Shown.{shown, shown_char, shown_text, terminal_width};

use gq_cells::CellRef;
use itoa::Buffer;
use std::alloc::AllocError;
use unicode_width::UnicodeWidthStr;

// Replaces the buffer's contents by what a box shows of a value.
pub(crate) fn show(buffer: &mut String, cell: CellRef<'_>) -> Result<(), AllocError>
    ensures { OnOk result (string_bytes buffer.new ≡ encode_utf8_all (shown (value_of cell.entry))) }
{
    match cell {
        CellRef::Null => {
            buffer.clear();
            buffer.push_str("NULL")
        }
        CellRef::Int(n) => show_number(buffer, n),
        CellRef::Text(text) | CellRef::NoCase(text) => show_text(buffer, text.as_str()),
    }
}

fn show_number(buffer: &mut String, n: i64) -> Result<(), AllocError>
    ensures { OnOk result (string_bytes buffer.new ≡ encode_utf8_all (signed_decimal n)) }
{
    let mut digits = Buffer::new();
    buffer.clear();
    buffer.push_str(digits.format(n))?;
    Ok(())
}

// Replaces the buffer's contents by what a box shows of a text.
pub(crate) fn show_text(buffer: &mut String, text: &str) -> Result<(), AllocError>
    ensures { OnOk result (string_bytes buffer.new ≡ encode_utf8_all (shown_text text.now)) }
{
    buffer.clear();
    for c in text.chars() {
        push_shown(buffer, c)?;
    }
    Ok(())
}

fn push_shown(buffer: &mut String, c: char) -> Result<(), AllocError>
    ensures { OnOk result (string_bytes buffer.new ≡ string_bytes buffer.old ++ encode_utf8_all (shown_char c)) }
{
    match c {
        '\n' => buffer.push_str("\\n"),
        '\r' => buffer.push_str("\\r"),
        '\t' => buffer.push_str("\\t"),
        _ if c.is_control() => push_escape(buffer, c),
        _ => buffer.push(c),
    }
}

fn push_escape(buffer: &mut String, c: char) -> Result<(), AllocError>
    requires { IsTrue (is_control c) }
    ensures { OnOk result (string_bytes buffer.new ≡ string_bytes buffer.old ++ encode_utf8_all (codes "\\u{" ++ digits 16 false c ++ codes "}")) }
{
    buffer.push_str("\\u{")?;
    push_hexadecimal(buffer, c as u32 as u8)?;
    buffer.push('}')?;
    Ok(())
}

fn push_hexadecimal(buffer: &mut String, n: u8) -> Result<(), AllocError>
    ensures { OnOk result (string_bytes buffer.new ≡ string_bytes buffer.old ++ encode_utf8_all (digits 16 false n)) }
{
    if n < 16 {
        buffer.push(digit(n))?;
        return Ok(());
    }
    buffer.push(digit(n / 16))?;
    buffer.push(digit(n % 16))?;
    Ok(())
}

fn digit(n: u8) -> char
    requires { n < 16 }
    ensures { result ≡ digit_glyph false n }
{
    if n < 10 {
        (b'0' + n) as char
    } else {
        (b'a' + (n - 10)) as char
    }
}

// The width of a text in a terminal, in columns.
pub(crate) fn width_of(buffer: &String) -> usize
    ensures { (text : List ℕ) → string_bytes buffer.now ≡ encode_utf8_all text → result ≡ terminal_width text }
{
    buffer.as_str().width()
}

pub(crate) fn push_repeated(text: &mut String, c: char, n: usize) -> Result<(), AllocError>
    ensures { OnOk result (string_bytes text.new ≡ string_bytes text.old ++ encode_utf8_all (replicate n c)) }
{
    for _ in 0..n {
        text.push(c)?;
    }
    Ok(())
}
