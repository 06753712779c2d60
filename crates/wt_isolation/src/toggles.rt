//! The toggles of a line's apostrophes, before one of them is exchanged, and where their numbers are odd.

ghost use Rattle.std.specs.Prelude.{◌≡◌, ◌<◌, ◌≤◌, ◌+◌, ◌^◌, ◌++◌, ◌∷◌, List, not, length, take, drop, IfOk, OnOk};
ghost use Rattle.std.specs.List.{All, list_any, prefix_len};
ghost use Rattle.wt_tiles.specs.declared.glyph.Glyph.{Glyph as Sign};
ghost use Rattle.wt_tiles.specs.Tiles.{size};
ghost use Rattle.wt_isolation.specs.Toggles.{are_odd, is_break_glyph, is_odd, is_odd_line, is_quote, lines, quote_runs, runs_of, switches_bold, switches_italic, tile_runs};

use std::alloc::Global;
use wt_span::{NoMemory, front_of, rest_of};
use wt_tiles::{Context, Glyph, Shape, TileKind, shapes};

fn is_break(glyph: Glyph) -> bool
    ensures { result ≡ is_break_glyph glyph }
{
    match glyph {
        Glyph::Byte(byte) => byte == b'\n',
        Glyph::Entity(_) | Glyph::Atom | Glyph::Mark => false,
    }
}

fn is_quote(glyph: Glyph) -> bool
    ensures { result ≡ is_quote glyph }
{
    match glyph {
        Glyph::Byte(byte) => byte == b'\'',
        Glyph::Entity(_) | Glyph::Atom | Glyph::Mark => false,
    }
}

/// Reads one more item after so many apostrophes, of which there are then so many.
fn push_glyph(out: &mut Vec<usize>, count: usize, glyph: Glyph) -> Result<usize, NoMemory>
    requires { count + 1 < 2 ^ 64 }
    ensures runs { IfOk result (λ n. (gs : List Sign) → out.new.items ++ quote_runs n gs ≡ out.old.items ++ quote_runs count (glyph ∷ gs)) }
    ensures few { IfOk result (λ n. n ≤ count + 1) }
{
    if is_quote(glyph) {
        return Ok(count + 1);
    }
    out.push(count)?;
    Ok(0)
}

/// Appends the lengths of the runs of apostrophes.
fn push_runs(out: &mut Vec<usize>, glyphs: &[Glyph]) -> Result<(), NoMemory>
    ensures { OnOk result (out.new.items ≡ out.old.items ++ quote_runs 0 glyphs.now) }
{
    let mut count = 0;
    for glyph in glyphs {
        count = push_glyph(out, count, *glyph)?;
    }
    out.push(count)?;
    Ok(())
}

/// Appends those of a tile: apostrophes in links, tags and other forms aren't of the line.
fn push_tile_runs(out: &mut Vec<usize>, kind: TileKind, glyphs: &[Glyph]) -> Result<(), NoMemory>
    ensures { OnOk result (out.new.items ≡ out.old.items ++ tile_runs kind glyphs.now) }
{
    match kind {
        TileKind::Chars => push_runs(out, glyphs),
        TileKind::Link | TileKind::Category | TileKind::Media | TileKind::ExtLink => Ok(()),
        TileKind::BareUrl | TileKind::Br | TileKind::Pair | TileKind::TagIsland => Ok(()),
        TileKind::Switch | TileKind::Atom | TileKind::Mark => Ok(()),
    }
}

/// The first n items, all where there are no more.
fn front(glyphs: &[Glyph], n: usize) -> &[Glyph]
    ensures { result.now ≡ take n glyphs.now }
{
    if n >= glyphs.len() {
        return glyphs;
    }
    front_of(glyphs, n)
}

/// The items after the first n.
fn rest(glyphs: &[Glyph], n: usize) -> &[Glyph]
    ensures { result.now ≡ drop n glyphs.now }
{
    if n >= glyphs.len() {
        return &[];
    }
    rest_of(glyphs, n)
}

/// The lengths of the runs of a line of these tiles.
fn runs_of(alloc: Global, shapes: &[Shape], glyphs: &[Glyph]) -> Result<Vec<usize>, NoMemory>
    requires { All (λ w. size w < 2 ^ 64) shapes.now }
    ensures { IfOk result (λ ns. ns.items ≡ runs_of shapes.now glyphs.now) }
{
    let mut out = Vec::new(alloc);
    let mut left = glyphs;
    for shape in shapes {
        let len = shape.len();
        push_tile_runs(&mut out, shape.kind, front(left, len))?;
        left = rest(left, len);
    }
    Ok(out)
}

/// Two apostrophes switch italic, five and more both.
fn switches_italic(run: usize) -> bool
    ensures { result ≡ switches_italic run }
{
    run == 2 || run >= 5
}

/// Three and four apostrophes switch bold, five and more both.
fn switches_bold(run: usize) -> bool
    ensures { result ≡ switches_bold run }
{
    run >= 3
}

fn is_odd_italic(runs: &[usize]) -> bool
    ensures { result ≡ is_odd switches_italic runs.now }
{
    runs.iter().filter(|run| switches_italic(**run)).count() % 2 == 1
}

fn is_odd_bold(runs: &[usize]) -> bool
    ensures { result ≡ is_odd switches_bold runs.now }
{
    runs.iter().filter(|run| switches_bold(**run)).count() % 2 == 1
}

fn are_odd(runs: &[usize]) -> bool
    ensures { result ≡ are_odd runs.now }
{
    is_odd_italic(runs) || is_odd_bold(runs)
}

/// Whether a line has an odd number of italic or of bold toggles.
fn is_odd_line(alloc: Global, line: &[Glyph]) -> Result<bool, NoMemory>
    ensures { IfOk result (λ b. b ≡ is_odd_line line.now) }
{
    let tiles = shapes(alloc, Context::line(), line)?;
    let runs = runs_of(alloc, tiles.as_slice(), line)?;
    Ok(are_odd(runs.as_slice()))
}

/// How many items come before the first line break.
fn line_len(glyphs: &[Glyph]) -> usize
    ensures value { result ≡ prefix_len (λ g. not (is_break_glyph g)) glyphs.now }
    ensures within { result ≤ length glyphs.now }
{
    for (at, glyph) in glyphs.iter().enumerate() {
        if is_break(*glyph) {
            return at;
        }
    }
    glyphs.len()
}

/// Whether some line of these items has an odd number of italic or of bold toggles.
pub fn has_odd_line(alloc: Global, glyphs: &[Glyph]) -> Result<bool, NoMemory>
    ensures { IfOk result (λ b. b ≡ list_any is_odd_line (lines glyphs.now)) }
{
    let mut left = glyphs;
    let mut len = line_len(left);
    while len < left.len() {
        let odd = is_odd_line(alloc, front_of(left, len))?;
        if odd {
            return Ok(true);
        }
        left = rest_of(left, len + 1);
        len = line_len(left);
    }
    is_odd_line(alloc, left)
}
