ghost use Rattle.std.specs.Prelude.{◌≡◌, ◌++◌, ◌<◌, ◌≤◌, true, take, length, OnOk, IfOk, codes, decimal};
ghost use Rattle.std.specs.List.{list_all};
ghost use Rattle.wt_html_out.specs.Runs.{is_plain};
ghost use Rattle.wt_html_out.specs.Escaping.{escape_in, escaped_in, quote_of};
ghost use Rattle.wt_schema.specs.Escapes.{escape, escape_double, escape_single, is_control};

use wt_devices::{push, push_number};
use wt_span::{NoMemory, front_of, rest_of};

/// What characters are escaped for: a text, or an attribute's value between these quotation marks.
#[derive(Clone, Copy)]
pub enum Escaping {
    Text,
    DoubleQuoted,
    SingleQuoted,
}

/// The quotation mark that is escaped. A text has none: there it is `&`, which is escaped anyway.
fn quote_of(escaping: Escaping) -> u8
    ensures { result ≡ quote_of escaping }
{
    match escaping {
        Escaping::Text => b'&',
        Escaping::DoubleQuoted => b'"',
        Escaping::SingleQuoted => b'\'',
    }
}

fn is_control(byte: u8) -> bool
    ensures { result ≡ is_control byte }
{
    byte < 32 && byte != 9 && byte != 10
}

/// The number of a control character.
fn push_control(out: &mut Vec<u8>, byte: u8) -> Result<(), NoMemory>
    ensures { OnOk result (out.new.items ≡ out.old.items ++ (codes "&#" ++ (decimal byte ++ codes ";"))) }
{
    push(out, b"&#")?;
    push_number(out, u32::from(byte))?;
    push(out, b";")?;
    Ok(())
}

#[tactic(auto, unfolding(wt_schema::specs::Escapes::escape))]
fn push_byte(out: &mut Vec<u8>, byte: u8) -> Result<(), NoMemory>
    ensures { OnOk result (out.new.items ≡ out.old.items ++ escape byte) }
{
    match byte {
        b'&' => push(out, b"&amp;")?,
        b'<' => push(out, b"&lt;")?,
        b'>' => push(out, b"&gt;")?,
        _ => {
            if is_control(byte) {
                push_control(out, byte)?;
            } else {
                out.push(byte)?;
            }
        }
    }
    Ok(())
}

#[tactic(auto, unfolding(wt_schema::specs::Escapes::escape_double))]
fn push_byte_double(out: &mut Vec<u8>, byte: u8) -> Result<(), NoMemory>
    ensures { OnOk result (out.new.items ≡ out.old.items ++ escape_double byte) }
{
    if byte == b'"' {
        push(out, b"&quot;")?;
        return Ok(());
    }
    push_byte(out, byte)
}

#[tactic(auto, unfolding(wt_schema::specs::Escapes::escape_single))]
fn push_byte_single(out: &mut Vec<u8>, byte: u8) -> Result<(), NoMemory>
    ensures { OnOk result (out.new.items ≡ out.old.items ++ escape_single byte) }
{
    if byte == b'\'' {
        push(out, b"&#39;")?;
        return Ok(());
    }
    push_byte(out, byte)
}

/// How many bytes at the front need no escape in a text and aren't this quote.
pub fn plain_len(quote: u8, bytes: &[u8]) -> usize
    ensures plain { list_all (is_plain quote) (take result bytes.now) ≡ true }
    ensures within { result ≤ length bytes.now }
{
    for (i, byte) in bytes.iter().enumerate() {
        if !is_plain(quote, *byte) {
            return i;
        }
    }
    bytes.len()
}

fn is_plain(quote: u8, byte: u8) -> bool
    ensures { result ≡ is_plain quote byte }
{
    byte != b'&' && (byte != b'<' && (byte != b'>' && (!is_control(byte) && byte != quote)))
}

fn push_byte_in(out: &mut Vec<u8>, escaping: Escaping, byte: u8) -> Result<(), NoMemory>
    ensures { OnOk result (out.new.items ≡ out.old.items ++ escape_in escaping byte) }
{
    match escaping {
        Escaping::Text => push_byte(out, byte),
        Escaping::DoubleQuoted => push_byte_double(out, byte),
        Escaping::SingleQuoted => push_byte_single(out, byte),
    }
}

/// Some of a text: bytes that are written as they are, or one byte. It gives how many it took.
fn push_some(out: &mut Vec<u8>, escaping: Escaping, bytes: &[u8]) -> Result<usize, NoMemory>
    requires { 0 < length bytes.now }
    ensures wrote { IfOk result (λ n. out.new.items ≡ out.old.items ++ escaped_in escaping (take n bytes.now)) }
    ensures some { IfOk result (λ n. 0 < n) }
    ensures within { IfOk result (λ n. n ≤ length bytes.now) }
{
    let run = plain_len(quote_of(escaping), bytes);
    if run > 0 {
        push(out, front_of(bytes, run))?;
        Ok(run)
    } else {
        push_byte_in(out, escaping, bytes[0])?;
        Ok(1)
    }
}

/// A text, escaped.
pub fn push_escaped(out: &mut Vec<u8>, escaping: Escaping, bytes: &[u8]) -> Result<(), NoMemory>
    ensures { OnOk result (out.new.items ≡ out.old.items ++ escaped_in escaping bytes.now) }
{
    let mut at = 0;
    while at < bytes.len() {
        at += push_some(out, escaping, rest_of(bytes, at))?;
    }
    Ok(())
}
