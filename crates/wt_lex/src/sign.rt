ghost use Rattle.std.specs.Prelude.{◌≡◌, ◌==◌, ◌<◌, ◌≤◌, length, IfSome};
ghost use Rattle.wt_span.specs.Lexemes.{run_at, sign_at, sign_word};

use wt_comments::{ByteClass, byte_at, run_len};
use wt_span::LexKind;

/// A run of two or more of a byte that begins a text.
fn run_at(kind: LexKind, byte: u8, bytes: &[u8]) -> Option<(LexKind, usize)>
    ensures value { result ≡ run_at kind byte bytes.now }
    ensures within { IfSome result (λ w. (0 < w.1) × (w.1 ≤ length bytes.now)) }
{
    let n = run_len(ByteClass::Only(byte), bytes);
    if n > 1 { Some((kind, n)) } else { None }
}

/// A sign that begins a text.
fn sign_at(kind: LexKind, sign: &[u8], bytes: &[u8]) -> Option<(LexKind, usize)>
    requires { 0 < length sign.now }
    ensures value { result ≡ sign_at kind sign.now (length sign.now) bytes.now }
    ensures within { IfSome result (λ w. (0 < w.1) × (w.1 ≤ length bytes.now)) }
{
    if bytes.starts_with(sign) {
        Some((kind, sign.len()))
    } else {
        None
    }
}

/// The run of braces or the sign that begins a text.
#[tactic(auto, using(crate::proofs::Signs::opens_alone, crate::proofs::Signs::closes_alone, crate::proofs::Signs::link_open_alone, crate::proofs::Signs::link_close_alone, crate::proofs::Signs::pipe_alone, crate::proofs::Signs::equals_alone, crate::proofs::Signs::no_sign))]
pub fn sign_word(bytes: &[u8]) -> Option<(LexKind, usize)>
    ensures value { result ≡ sign_word bytes.now }
    ensures within { IfSome result (λ w. (0 < w.1) × (w.1 ≤ length bytes.now)) }
{
    match byte_at(bytes, 0) {
        b'{' => run_at(LexKind::Opens, b'{', bytes),
        b'}' => run_at(LexKind::Closes, b'}', bytes),
        b'[' => sign_at(LexKind::LinkOpen, b"[[", bytes),
        b']' => sign_at(LexKind::LinkClose, b"]]", bytes),
        b'|' => sign_at(LexKind::Pipe, b"|", bytes),
        b'=' => sign_at(LexKind::Equals, b"=", bytes),
        _ => None,
    }
}
